//! What every legal step does, rule by rule: a relation above the rules, with one inversion lemma, on which the laws stand.
//!
//! To the laws above it promises that each legal step is of one of a few kinds, each with what was so when it was done, by the
//! own state of the server or client that made it, and that a server which runs is tied to what is chosen. It knows nothing of answers
//! or the plain machine, and not of what two copies have in common.
#![tactic(auto)]

ghost use Rattle.std.specs.Prelude.{◌≡◌, ◌<◌, ◌++◌, ℕ, Bool, true, List, [], ◌∷◌, Some};
ghost use Rattle.petal_base.specs.declared.cell.Cell.{Cell};
ghost use Rattle.global_tables.specs.Link.{has_server};
ghost use Rattle.global_tables.specs.declared.link.LinkRow.{LinkRow};
ghost use Rattle.global_tables.specs.declared.link.LinkState.TheVariants.{Both, Only};
ghost use Rattle.petal_command.specs.declared.command.Command.{Command};
ghost use Rattle.spec_state.specs.CellState.{cell_link};
ghost use Rattle.spec_state.specs.Command.{state_after};
ghost use Rattle.spec_rules.specs.State.{State, is_in};
ghost use Rattle.spec_rules.specs.Progress.{has_proposed};
ghost use Rattle.law_state.specs.Histories.{AreSteps, IsPrefix, IsSound, Record, Script, chosen_log, chosen_state};
ghost use Rattle.law_state.specs.Histories.{server_state, setting_of, start, world_after};
ghost use Rattle.law_state.specs.LaterStates.{IsBelow};
ghost use Rattle.law_state.specs.Homes.{stage_at};
ghost use Rattle.law_state.specs.Steady.{IsSteady};
ghost use Rattle.law_steps.specs.DidStep.{Happens};
ghost use Rattle.law_steps.specs.Ready.{IsReady, Rests};
ghost use Rattle.law_steps.specs.Ties.{StaysAloneOrCaught, StaysInBoth};

/// After every legal history, the state that is chosen is steady: each cell that has a link has two servers apart, and both
/// serve it, or one of them alone.
pub fn what_is_chosen_is_steady()
    ensures { (script : Script) (records : List Record) → IsSound script → AreSteps script records
        → IsSteady (chosen_state (setting_of script) (world_after (setting_of script) (start (setting_of script)) records)) }
{}

/// After every legal history, what waits in a queue was sent to its server, and a pending operation is of a client's write or an entry that
/// moves. While its cell is live, by the server's own state, the server leads the cell's link, and the operation rests in one of three stages
/// where the link is in Both; and the server has started no ballot for the Caught of the link. While the server runs this is so by what is
/// chosen, too. A copy that is under way is of a live cell of a link that the server holds alone by its own state, and whose pages are
/// done; and the last copy to a server is of a link that the other one holds, or of a retired cell.
pub fn operations_rest_in_three_stages()
    ensures chosen { (script : Script) (records : List Record) → IsSound script
        → AreSteps script records → (n : ℕ) → ((world_after (setting_of script) (start (setting_of script)) records).servers n).life.running ≡ true
        → IsReady (chosen_state (setting_of script) (world_after (setting_of script) (start (setting_of script)) records)) n
        (has_proposed (server_state (setting_of script) (world_after (setting_of script) (start (setting_of script)) records) n)
        ((world_after (setting_of script) (start (setting_of script)) records).servers n).own)
        ((world_after (setting_of script) (start (setting_of script)) records).servers n).own.pairs.pending }
    ensures own { (script : Script) (records : List Record) → IsSound script → AreSteps script records
        → Rests (setting_of script) (world_after (setting_of script) (start (setting_of script)) records) }
{}

/// The step that each record of a legal history tells of is of one of the kinds that the relation names, at every state from
/// what is then chosen on.
pub fn each_step_is_of_a_kind()
    ensures { (script : Script) (prefix : List Record) (own : Record) → IsSound script → AreSteps script (prefix ++ own ∷ []) → (state : State)
        → IsBelow (chosen_state (setting_of script) (world_after (setting_of script) (start (setting_of script)) (prefix ++ own ∷ []))) state
        → Happens (setting_of script) state (world_after (setting_of script) (start (setting_of script)) prefix)
        (world_after (setting_of script) (start (setting_of script)) (prefix ++ own ∷ [])) }
{}

/// While a server runs, and is In as itself, it is tied to what is chosen from its own entries on: a link that was in Both is so at the
/// same place, or the server holds it alone; and one that it held alone it holds so still, or it is in Both by a Caught for which the
/// server has started the ballot, right after its own entries. This is said while the cell is not retired.
pub fn a_running_server_is_tied_to_what_is_chosen()
    ensures both { (script : Script) (records : List Record) → IsSound script → AreSteps script records → (n : ℕ) (prefix more : List Command)
        → ((world_after (setting_of script) (start (setting_of script)) records).servers n).life.running ≡ true
        → IsPrefix ((world_after (setting_of script) (start (setting_of script)) records).servers n).log.applied prefix
        → IsPrefix prefix more → IsPrefix more (chosen_log (setting_of script) (world_after (setting_of script) (start (setting_of script)) records))
        → is_in (state_after script.servers prefix) n ((world_after (setting_of script) (start (setting_of script)) records).servers n).life.inc ≡ true
        → (cell : Cell) (row : LinkRow) → cell_link (state_after script.servers prefix) cell ≡ Some row → has_server n row ≡ true
        → stage_at (state_after script.servers more) cell < 4 → row.state ≡ Both → StaysInBoth (setting_of script) n prefix more cell row }
    ensures alone { (script : Script) (records : List Record) → IsSound script → AreSteps script records
        → (n : ℕ) (prefix more : List Command) → ((world_after (setting_of script) (start (setting_of script)) records).servers n).life.running ≡ true
        → IsPrefix ((world_after (setting_of script) (start (setting_of script)) records).servers n).log.applied prefix
        → IsPrefix prefix more → IsPrefix more (chosen_log (setting_of script) (world_after (setting_of script) (start (setting_of script)) records))
        → is_in (state_after script.servers prefix) n ((world_after (setting_of script) (start (setting_of script)) records).servers n).life.inc ≡ true
        → (cell : Cell) (row : LinkRow) → cell_link (state_after script.servers prefix) cell ≡ Some row
        → has_server n row ≡ true → stage_at (state_after script.servers more) cell < 4 → (whole : Bool) → row.state ≡ Only n whole
        → StaysAloneOrCaught (setting_of script) (world_after (setting_of script) (start (setting_of script)) records) n prefix more cell }
{}
