//! The law of epochs: over every legal history of a sound script, a client's write that is under way is of the epoch that its disk has by
//! what is chosen, so that no put changes what a snapshot holds, and its cell is not leaving, so that none changes what a move has still to
//! fill from; and no server has an entry of an epoch that it doesn't know of, or of a cell that is not made yet.
//!
//! To the law above it promises this of the operations that servers have pending, of those that they had when they were at a place of
//! a link, and of what a second server puts. It rests on the reports that servers make to fences, and knows nothing of the plain machine.
#![tactic(auto)]

ghost use Rattle.std.specs.Prelude.{◌≡◌, ◌≤◌, ℕ, List, Some, length, true};
ghost use Rattle.global_tables.specs.declared.link.LinkRow.{LinkRow};
ghost use Rattle.global_tables.specs.declared.link.LinkState.TheVariants.{Both};
ghost use Rattle.petal_base.specs.declared.cell.Cell.{Cell};
ghost use Rattle.petal_command.specs.declared.command.Command.{Command};
ghost use Rattle.petal_msg.specs.declared.operation.Pending.{Pending};
ghost use Rattle.petal_table.specs.Table.{at};
ghost use Rattle.spec_state.specs.Command.{state_after};
ghost use Rattle.spec_rules.specs.Writes.{is_clients};
ghost use Rattle.spec_rules.specs.Server.{Pairs};
ghost use Rattle.spec_rules.specs.State.{is_in};
ghost use Rattle.spec_rules.specs.Store.{cell_cmp};
ghost use Rattle.law_state.specs.Histories.{AreSteps, IsPrefix, IsSound, Record, Script, chosen_log, chosen_state};
ghost use Rattle.law_state.specs.Histories.{server_state, setting_of, start, world_after};
ghost use Rattle.law_copies.specs.Visits.{IsLinked, WasThere, place_by};
ghost use Rattle.law_epochs.specs.EntryEpochs.{HaveEarlyEntries};
ghost use Rattle.law_epochs.specs.InTime.{IsTimely};

/// A client's write that a server has pending is of the epoch that its disk has, and its cell is live and not leaving, by each prefix of the chosen
/// log, from the revision on at which the write was opened, by which the server is In as the incarnation that it was there.
pub fn a_pending_write_is_of_the_present_epoch()
    ensures { (script : Script) (records : List Record)
        → IsSound script → AreSteps script records → (n inc : ℕ) (cell : Cell) (op : Pending) (opened prefix : List Command)
        → at cell_cmp ((world_after (setting_of script) (start (setting_of script)) records).servers n).own.pairs.pending cell ≡ Some op
        → is_clients op.kind ≡ true → IsPrefix opened prefix
        → IsPrefix prefix (chosen_log (setting_of script) (world_after (setting_of script) (start (setting_of script)) records))
        → length opened ≡ op.rev → is_in (state_after script.servers opened) n inc ≡ true → is_in (state_after script.servers prefix) n inc ≡ true
        → IsTimely script.servers prefix cell op }
{}

/// So is one that a server had pending when it was last at a place of the cell's link, by each prefix at which the link is at that place.
pub fn a_write_of_a_place_is_of_its_epoch()
    ensures { (script : Script) (records : List Record)
        → IsSound script → AreSteps script records → (n place : ℕ) (cell : Cell) (pairs : Pairs) (op : Pending) (prefix : List Command) (row : LinkRow)
        → WasThere (setting_of script) records n place cell pairs → at cell_cmp pairs.pending cell ≡ Some op
        → is_clients op.kind ≡ true → IsPrefix prefix (chosen_log (setting_of script) (world_after (setting_of script) (start (setting_of script)) records))
        → IsLinked (setting_of script) prefix cell row → place_by (setting_of script) prefix row ≡ place → op.rev ≤ length prefix
        → IsTimely script.servers prefix cell op }
{}

/// And one that the second server of a link in Both can still put, which the lead had pending at the second server's place and had opened by
/// some prefix at that place, also where the lead has left by what is chosen.
pub fn what_a_second_server_puts_is_of_the_present_epoch()
    ensures { (script : Script) (records : List Record)
        → IsSound script → AreSteps script records → (n m : ℕ) (cell : Cell) (pairs : Pairs) (op : Pending) (row : LinkRow)
        → ((world_after (setting_of script) (start (setting_of script)) records).servers m).life.running ≡ true
        → is_in (server_state (setting_of script) (world_after (setting_of script) (start (setting_of script)) records) m) m
        ((world_after (setting_of script) (start (setting_of script)) records).servers m).life.inc ≡ true
        → IsLinked (setting_of script) ((world_after (setting_of script) (start (setting_of script)) records).servers m).log.applied cell row
        → row.state ≡ Both → row.primary ≡ n → row.secondary ≡ m → WasThere (setting_of script) records n
        (place_by (setting_of script) ((world_after (setting_of script) (start (setting_of script)) records).servers m).log.applied row) cell pairs
        → at cell_cmp pairs.pending cell ≡ Some op → is_clients op.kind ≡ true → (prefix : List Command) (now : LinkRow)
        → IsPrefix prefix (chosen_log (setting_of script) (world_after (setting_of script) (start (setting_of script)) records))
        → IsLinked (setting_of script) prefix cell now → place_by (setting_of script) prefix now ≡ place_by
        (setting_of script) ((world_after (setting_of script) (start (setting_of script)) records).servers m).log.applied row → op.rev ≤ length prefix
        → IsTimely script.servers (chosen_log (setting_of script) (world_after (setting_of script) (start (setting_of script)) records)) cell op }
{}

/// No server has an entry of an epoch above the one that its cell's disk has by the server's own entries of the log, nor one of a cell that is not
/// live yet by them.
pub fn entries_are_of_known_epochs()
    ensures { (script : Script) (records : List Record) → IsSound script → AreSteps script records
        → HaveEarlyEntries script.servers (world_after (setting_of script) (start (setting_of script)) records) }
{}

/// No client's write is pending at a running server on a cell that is leaving, or has left, by what is chosen.
pub fn nothing_is_written_under_an_old_map()
    ensures { (script : Script) (records : List Record) → IsSound script → AreSteps script records → (n : ℕ) (cell : Cell) (op : Pending)
        → ((world_after (setting_of script) (start (setting_of script)) records).servers n).life.running ≡ true → at cell_cmp
        ((world_after (setting_of script) (start (setting_of script)) records).servers n).own.pairs.pending cell ≡ Some op → is_clients op.kind ≡ true
        → IsTimely script.servers (chosen_log (setting_of script) (world_after (setting_of script) (start (setting_of script)) records)) cell op }
{}
