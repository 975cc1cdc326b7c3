//! What plain entries of the agreed log make: states in which each cell's link is served by both of its servers, or by one of
//! them once the other one has left, until a Caught of the link, or by none once that one has come back with an empty store; in which
//! a disk moves from one map to another region by region; and in which a cell's era rises only once each server has reported to the fence.
//!
//! To the layers above it promises that such a state is steady, what of what it says of a cell, a server or a name each later
//! one says too, what has become of a link from one of its places to a later one, how far a cell is, and which reports stand before its
//! era rises. It knows nothing of letters, clients or histories.
#![tactic(auto)]

ghost use Rattle.std.specs.Prelude.{◌≡◌, ◌<◌, ◌≤◌, ◌⊎◌, ℕ, Bool, List, [], ◌∷◌, ◌++◌, Some, length, slice_get, true, false};
ghost use Rattle.petal_base.specs.declared.cell.Cell.{Cell};
ghost use Rattle.global_tables.specs.Region.{region_of};
ghost use Rattle.global_tables.specs.declared.link.LinkRow.{LinkRow};
ghost use Rattle.global_tables.specs.declared.link.LinkState.TheVariants.{Both, Only, Lost};
ghost use Rattle.petal_command.specs.declared.command.Command.{Command};
ghost use Rattle.petal_command.specs.declared.command.Command.TheVariants.{Join, Leave};
ghost use Rattle.spec_history.specs.Claims.{IsPrefix};
ghost use Rattle.spec_state.specs.CellState.{cell_link, source};
ghost use Rattle.spec_state.specs.CellState.{noted as is_noted};
ghost use Rattle.spec_state.specs.Command.{after, may_join, state_after};
ghost use Rattle.spec_state.specs.Place.{places_from, touches};
ghost use Rattle.spec_state.specs.State.{links_of, start};
ghost use Rattle.spec_rules.specs.Blanked.{blank_joins_from};
ghost use Rattle.spec_rules.specs.Lists.{In};
ghost use Rattle.spec_rules.specs.State.{State, held, is_in};
ghost use Rattle.spec_rules.specs.Writes.{is_writes_held};
ghost use Rattle.law_state.specs.LaterStates.{IsBelow, KeepsRoles};
ghost use Rattle.law_state.specs.Epochs.{HasReported};
ghost use Rattle.law_state.specs.Homes.{IsRetired, HasStage, era_at, stage_at};
ghost use Rattle.law_state.specs.NotedLinks.{HasMovedIn};
ghost use Rattle.law_state.specs.Disks.{AreDisks, AreInOrOut, HasJoined};
ghost use Rattle.law_state.specs.Joins.{CountsJoins, HasJoinedSince};
ghost use Rattle.law_state.specs.LinkChanges.{IsCaughtSince, IsCaughtStill, IsHeldStill, IsLostIn, IsTouchedBy, StaysSo};
ghost use Rattle.law_state.specs.Plain.{HasProperTuple, HasProperTuples};
ghost use Rattle.law_state.specs.Steady.{IsSteady};
ghost use Rattle.law_state.specs.Tables.{IsGrown, IsSettledState};

/// The state of a plain log is steady.
pub fn a_plain_log_is_steady()
    ensures { (servers : ℕ) (log : List Command) → HasProperTuples servers log → IsSteady (state_after servers log) }
{}

/// What the state of a prefix of a plain log says of names, that of the whole says too, and of a cell what its servers are that have stayed In.
pub fn a_longer_log_says_the_same()
    ensures { (servers : ℕ) (prefix whole : List Command) → HasProperTuples servers whole → IsPrefix prefix whole
        → IsBelow (state_after servers prefix) (state_after servers whole) }
{}

/// A server that is still In as the same incarnation leads a link, follows and serves it as before, until its map is retired; only that of a
/// link's two servers it may be left alone, and that a second server which was alone follows again.
pub fn a_longer_log_keeps_roles()
    ensures { (servers : ℕ) (prefix whole : List Command) → HasProperTuples servers whole → IsPrefix prefix whole
        → KeepsRoles (state_after servers prefix) (state_after servers whole) }
{}

/// The revision is the number of entries.
pub fn revisions_count_entries()
    ensures { (servers : ℕ) (log : List Command) → (state_after servers log).rev ≡ length log }
{}

/// The tables of a plain log: fences for snapshots and for the next regions of moves, each disk with a snapshot for each epoch below its own,
/// and each map that a disk has with the links that its tuple asks for.
pub fn a_plain_log_makes_plain_tables()
    ensures { (servers : ℕ) (log : List Command) → HasProperTuples servers log → IsSettledState servers (state_after servers log) }
{}

/// A longer log adds rows after those that are there, and changes none but who serves a link, and which snapshots and which maps a disk has;
/// and it drops the links of a map that is retired.
pub fn a_longer_log_only_adds()
    ensures { (servers : ℕ) (prefix whole : List Command) → HasProperTuples servers whole → IsPrefix prefix whole
        → IsGrown (state_after servers prefix) (state_after servers whole) }
{}

/// Each disk is found by its number and its name, and its snapshots by theirs, two disks have no map in common, and a cell of no disk has no link.
pub fn disks_and_cells_belong_together()
    ensures { (servers : ℕ) (log : List Command) → HasProperTuples servers log → AreDisks (state_after servers log) }
{}

/// Each server is In, or Out, and no incarnation is below 1.
pub fn servers_are_in_or_out()
    ensures { (servers : ℕ) (log : List Command) → HasProperTuples servers log → AreInOrOut servers (state_after servers log) }
{}

/// An incarnation that was In and no longer is has its Leave in the log. At the start each server is In as its first one.
pub fn who_is_out_has_left()
    ensures left { (servers : ℕ) (prefix whole : List Command) (n inc : ℕ) → HasProperTuples servers whole → IsPrefix prefix whole
        → is_in (state_after servers prefix) n inc ≡ true → is_in (state_after servers whole) n inc ≡ false → In (Leave n inc) whole }
    ensures starts { (servers n : ℕ) → n < servers → is_in (start servers) n 1 ≡ true }
{}

/// An incarnation that is In is the first, or has its Join in the log.
pub fn who_is_in_has_joined()
    ensures { (servers : ℕ) (log : List Command) (n inc : ℕ) → HasProperTuples servers log → is_in (state_after servers log) n inc ≡ true
        → (inc ≡ 1) ⊎ HasJoined log n inc }
{}

/// An entry that doesn't touch a link leaves its row as it is, and whether its two servers are In, but for one with which its map is retired; one
/// that does is the Leave of one of them, a Join, or the link's Caught. A longer log has no fewer places of a link, and where it has as many
/// it says the same of it, or its map is retired.
pub fn an_entry_that_does_not_touch_a_link()
    ensures stays { (servers : ℕ) (log : List Command) (entry : Command) (cell : Cell) (row : LinkRow) → HasProperTuples servers log
        → HasProperTuple servers entry
        → cell_link (state_after servers log) cell ≡ Some row → touches (state_after servers log) entry row ≡ false
        → StaysSo cell row (state_after servers log) (after (state_after servers log) entry) ⊎ IsRetired (after (state_after servers log) entry) cell }
    ensures touched { (servers : ℕ) (log : List Command) (entry : Command) (cell : Cell) (row : LinkRow) → HasProperTuples servers log
        → HasProperTuple servers entry → cell_link (state_after servers log) cell ≡ Some row → touches (state_after servers log) entry row ≡ true
        → IsTouchedBy cell row (state_after servers log) entry }
    ensures grows { (servers : ℕ) (prefix whole : List Command) (row : LinkRow) → IsPrefix prefix whole
        → places_from (start servers) prefix row ≤ places_from (start servers) whole row }
    ensures place { (servers : ℕ) (prefix whole : List Command) (cell : Cell) (row : LinkRow) → HasProperTuples servers whole → IsPrefix prefix whole
        → cell_link (state_after servers prefix) cell ≡ Some row → places_from (start servers) whole row ≡ places_from (start servers) prefix row
        → StaysSo cell row (state_after servers prefix) (state_after servers whole) ⊎ IsRetired (state_after servers whole) cell }
{}

/// A link that is in Both is at the place at which it was seen before, or a Caught put it there since. One that a server holds alone
/// stays so, or its first change is the holder's Caught, or the holder joins with an empty store and the link is Lost, which it stays. And
/// while both servers of a link in Both stay In, it stays at its place.
pub fn a_link_is_in_both_again_by_its_caught()
    ensures caught { (servers : ℕ) (prefix whole : List Command) → HasProperTuples servers whole → IsPrefix prefix whole → (cell : Cell) (row now : LinkRow)
        → cell_link (state_after servers prefix) cell ≡ Some row → cell_link (state_after servers whole) cell ≡ Some now → now.state ≡ Both
        → (places_from (start servers) whole row ≡ places_from (start servers) prefix row) ⊎ IsCaughtSince servers prefix whole cell now }
    ensures alone { (servers : ℕ) (prefix whole : List Command) → HasProperTuples servers whole
        → IsPrefix prefix whole → (cell : Cell) (row now : LinkRow) (holder : ℕ) (fills : Bool) → cell_link (state_after servers prefix) cell ≡ Some row
        → row.state ≡ Only holder fills → cell_link (state_after servers whole) cell ≡ Some now → IsHeldStill holder fills now.state ⊎ (now.state ≡ Lost)
        × IsLostIn servers prefix whole holder ⊎ IsCaughtStill servers prefix whole cell row holder fills }
    ensures lost { (servers : ℕ) (prefix whole : List Command) → HasProperTuples servers whole → IsPrefix prefix whole → (cell : Cell) (row now : LinkRow)
        → cell_link (state_after servers prefix) cell ≡ Some row → row.state ≡ Lost → cell_link (state_after servers whole) cell ≡ Some now → now.state ≡ Lost }
    ensures both { (servers : ℕ) (prefix whole : List Command) → HasProperTuples servers whole → IsPrefix prefix whole
        → (cell : Cell) (row : LinkRow) (one other : ℕ)
        → cell_link (state_after servers prefix) cell ≡ Some row → row.state ≡ Both → is_in (state_after servers prefix) row.primary one ≡ true
        → is_in (state_after servers prefix) row.secondary other ≡ true → is_in (state_after servers whole) row.primary one ≡ true
        → is_in (state_after servers whole) row.secondary other ≡ true → places_from (start servers) whole row ≡ places_from (start servers) prefix row }
{}

/// A server that is In as an incarnation was so before, or has joined as it since, and no Join of that incarnation or an earlier one
/// acts any more.
pub fn an_incarnation_joins_once()
    ensures since { (servers : ℕ) (prefix whole : List Command) (n inc : ℕ) → HasProperTuples servers whole
        → IsPrefix prefix whole → is_in (state_after servers whole) n inc ≡ true → (is_in (state_after servers prefix) n inc ≡ true)
        ⊎ ((blank : Bool) × HasJoinedSince servers prefix whole n inc blank) }
    ensures joins { (servers : ℕ) (prefix whole : List Command) (n inc : ℕ) (blank : Bool) → HasProperTuples servers whole
        → (joined : HasJoinedSince servers prefix whole n inc blank) → is_in (state_after servers (joined.until ++ Join n inc blank ∷ [])) n inc ≡ true }
    ensures once { (servers : ℕ) (prefix whole : List Command) (n inc other : ℕ) → HasProperTuples servers whole → IsPrefix prefix whole
        → is_in (state_after servers prefix) n inc ≡ true → other ≤ inc → may_join (slice_get (state_after servers whole).view.members n) other ≡ false }
{}

/// The Joins of a server with an empty store that act are counted: a longer log has no fewer, and each entry that counts is such a Join.
pub fn blank_joins_only_grow()
    ensures grows { (servers : ℕ) (prefix whole : List Command) (n : ℕ) → IsPrefix prefix whole
        → blank_joins_from (start servers) prefix n ≤ blank_joins_from (start servers) whole n }
    ensures entry { (servers : ℕ) (prefix : List Command) (entry : Command) (n : ℕ) → CountsJoins servers prefix entry n }
    ensures counts { (servers : ℕ) (prefix whole : List Command) (n inc : ℕ) → HasJoinedSince servers prefix whole n inc true
        → blank_joins_from (start servers) prefix n < blank_joins_from (start servers) whole n }
{}

/// A cell's era never falls. While a server stays In as one incarnation, the era of a cell that is live and not leaving rises only after its
/// report to an active fence that holds the cell's writes: from a prefix on whose own active fence does not hold them, and from one after
/// which a server leaves, since the active fence then awaits all reports again.
pub fn an_epoch_rises_after_reports()
    ensures grows { (servers : ℕ) (prefix whole : List Command) (cell : Cell) → HasProperTuples servers whole → IsPrefix prefix whole
        → era_at (state_after servers prefix) cell ≤ era_at (state_after servers whole) cell }
    ensures unheld { (servers : ℕ) (prefix whole : List Command) (n inc : ℕ) (cell : Cell)
        → HasProperTuples servers whole → IsPrefix prefix whole → is_in (state_after servers prefix) n inc ≡ true
        → is_in (state_after servers whole) n inc ≡ true
        → is_writes_held (held (state_after servers prefix) cell) ≡ false → 1 ≤ stage_at (state_after servers prefix) cell
        → stage_at (state_after servers prefix) cell ≤ 2 → era_at (state_after servers prefix) cell < era_at (state_after servers whole) cell
        → HasReported servers prefix whole n inc cell }
    ensures left { (servers : ℕ) (prefix whole : List Command) (n inc other other_inc : ℕ) (cell : Cell)
        → HasProperTuples servers whole → IsPrefix (prefix ++ Leave other other_inc ∷ []) whole
        → is_in (state_after servers prefix) other other_inc ≡ true → is_in (state_after servers (prefix ++ Leave other other_inc ∷ [])) n inc ≡ true
        → is_in (state_after servers whole) n inc ≡ true → 1 ≤ stage_at (state_after servers prefix) cell
        → stage_at (state_after servers prefix) cell ≤ 2 → era_at (state_after servers prefix) cell < era_at (state_after servers whole) cell
        → HasReported servers (prefix ++ Leave other other_inc ∷ []) whole n inc cell }
{}

/// A cell only goes forward: it is not live yet, coming, live, leaving, retired.
pub fn stages_only_grow()
    ensures { (servers : ℕ) (prefix whole : List Command) (cell : Cell) → HasProperTuples servers whole → IsPrefix prefix whole
        → stage_at (state_after servers prefix) cell ≤ stage_at (state_after servers whole) cell }
{}

/// What the state says of a cell, its stage says: whether it is live, leaves or comes, and who leads it; and a cell that comes and the one that it
/// comes from know each other.
pub fn a_stage_says_what_a_cell_is()
    ensures { (servers : ℕ) (log : List Command) (cell : Cell) → HasProperTuples servers log → HasStage (state_after servers log) cell }
{}

/// A link of an old map is noted after its Moved, and a region has moved after those of all links.
pub fn a_region_moves_after_its_links()
    ensures noted { (servers : ℕ) (whole : List Command) (cell : Cell) (link : ℕ) → HasProperTuples servers whole
        → stage_at (state_after servers whole) cell ≡ 3
        → is_noted (state_after servers whole) cell.map (region_of cell.block) link ≡ true → HasMovedIn servers whole cell link }
    ensures retired { (servers : ℕ) (whole : List Command) (cell : Cell) (link : ℕ) → HasProperTuples servers whole
        → stage_at (state_after servers whole) cell ≡ 4
        → link < links_of (state_after servers whole) cell.map → HasMovedIn servers whole cell link }
    ensures twins { (servers : ℕ) (prefix whole : List Command) (cell old : Cell) → HasProperTuples servers whole
        → IsPrefix prefix whole → source (state_after servers prefix) cell ≡ Some old → stage_at (state_after servers prefix) cell ≡ 1
        → 2 ≤ stage_at (state_after servers whole) cell → stage_at (state_after servers whole) old ≡ 4 }
{}
