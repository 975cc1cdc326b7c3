//! The law of moves: while a region is on its way, no write is pending under the old map, and its copies are as they were when the region's fence
//! took effect, at each server that serves them; what the new map has of a block has all that is newer after it; a link that is noted has moved
//! all that it had; and so a region that has moved has the contents that it had.
//!
//! All of it is one induction: a fill leaves its stage only after a Moved, whose server had nothing left of what is still; and what is still is so
//! since no fill of an earlier move is under way.
#![tactic(auto)]

ghost use Rattle.std.specs.Prelude.{◌≡◌, ◌≤◌, ◌++◌, ◌+◌, ℕ, List, Some, false, length, true};
ghost use Rattle.global_tables.specs.declared.link.LinkRow.{LinkRow};
ghost use Rattle.petal_base.specs.declared.cell.Cell.{Cell};
ghost use Rattle.petal_command.specs.declared.command.Command.{Command};
ghost use Rattle.petal_msg.specs.declared.operation.Pending.{Pending};
ghost use Rattle.petal_table.specs.Table.{at};
ghost use Rattle.spec_state.specs.Command.{state_after};
ghost use Rattle.spec_rules.specs.Server.{Pairs};
ghost use Rattle.spec_rules.specs.Store.{Chain, cell_cmp};
ghost use Rattle.spec_rules.specs.State.{is_in};
ghost use Rattle.global_tables.specs.declared.link.LinkState.TheVariants.{Both};
ghost use Rattle.law_steps.specs.Operations.{progress};
ghost use Rattle.spec_rules.specs.World.{chosen_log, chosen_state, server_state};
ghost use Rattle.spec_rules.specs.Writes.{is_clients};
ghost use Rattle.spec_history.specs.Claims.{IsPrefix, Moves};
ghost use Rattle.law_state.specs.Histories.{AreSteps, IsSound, Record, Script, setting_of, start, world_after};
ghost use Rattle.law_copies.specs.Visits.{IsLinked, WasThere, place_by};
ghost use Rattle.law_moves.specs.Fills.{AreFilled, HaveComeOver, IsFrozen};
ghost use Rattle.law_moves.specs.FrozenCopies.{AreStill};
ghost use Rattle.law_state.specs.Homes.{stage_at};

/// While a cell is leaving, each server that serves its link by what is chosen has exactly what was frozen when its region's fence took
/// effect. So has one that runs, by each prefix from its own entries on by which it serves the link while the cell is leaving, also where
/// the cell is retired since.
pub fn old_copies_are_still()
    ensures { (script : Script) (records : List Record) → IsSound script → AreSteps script records
        → AreStill (setting_of script) (world_after (setting_of script) (start (setting_of script)) records) }
{}

/// What is frozen stays so.
pub fn what_is_frozen_stays()
    ensures { (script : Script) (prefix suffix : List Record) (cell : Cell) (before : Chain)
        → IsSound script → AreSteps script (prefix ++ suffix) → (world_after (setting_of script) (start (setting_of script)) prefix).frozen cell ≡ Some before
        → (world_after (setting_of script) (start (setting_of script)) (prefix ++ suffix)).frozen cell ≡ Some before }
{}

/// Each entry that moves, in a letter or pending, is a frozen one, and of each newer one of its block a letter said that it is there. What
/// such a letter told of is at each server that serves the link, and no fill of it is under way. What an old lead remembers of a link was
/// told to it up to that key. A Moved that is chosen comes after letters of all that was frozen of its link.
pub fn fills_come_newest_first()
    ensures { (script : Script) (records : List Record) → IsSound script → AreSteps script records
        → AreFilled (setting_of script) (world_after (setting_of script) (start (setting_of script)) records) }
{}

/// A fill that a server had pending when it was last at a place of the cell's link, which the link has by what is chosen, also where the server has
/// stopped since: the region is on its way still; and the fill is of a frozen entry, and all that is newer is there.
pub fn a_fill_of_a_place_is_under_way()
    ensures coming { (script : Script) (records : List Record) → IsSound script
        → AreSteps script records → (n place : ℕ) (cell : Cell) (pairs : Pairs) (op : Pending) (row : LinkRow)
        → WasThere (setting_of script) records n place cell pairs → at cell_cmp pairs.pending cell ≡ Some op → is_clients op.kind ≡ false
        → IsLinked (setting_of script) (chosen_log (setting_of script) (world_after (setting_of script) (start (setting_of script)) records)) cell row
        → place_by (setting_of script) (chosen_log (setting_of script) (world_after (setting_of script) (start (setting_of script)) records)) row ≡ place
        → op.rev ≤ length (chosen_log (setting_of script) (world_after (setting_of script) (start (setting_of script)) records))
        → stage_at (chosen_state (setting_of script) (world_after (setting_of script) (start (setting_of script)) records)) cell ≡ 1 }
    ensures frozen { (script : Script) (records : List Record) → IsSound script
        → AreSteps script records → (n place : ℕ) (cell : Cell) (pairs : Pairs) (op : Pending)
        → WasThere (setting_of script) records n place cell pairs → at cell_cmp pairs.pending cell ≡ Some op → is_clients op.kind ≡ false
        → IsFrozen (setting_of script) (world_after (setting_of script) (start (setting_of script)) records) op.rev op.key op.bytes }
{}

/// And one that the second server of a link in Both can still put, which the lead had pending at the second server's place; this is said while
/// the cell is not retired.
pub fn what_a_second_server_fills_is_under_way()
    ensures { (script : Script) (records : List Record)
        → IsSound script → AreSteps script records → (n m : ℕ) (cell : Cell) (pairs : Pairs) (op : Pending) (row : LinkRow)
        → ((world_after (setting_of script) (start (setting_of script)) records).servers m).life.running ≡ true
        → is_in (server_state (setting_of script) (world_after (setting_of script) (start (setting_of script)) records) m) m
        ((world_after (setting_of script) (start (setting_of script)) records).servers m).life.inc ≡ true
        → IsLinked (setting_of script) ((world_after (setting_of script) (start (setting_of script)) records).servers m).log.applied cell row
        → row.state ≡ Both → row.primary ≡ n → row.secondary ≡ m → WasThere (setting_of script) records n
        (place_by (setting_of script) ((world_after (setting_of script) (start (setting_of script)) records).servers m).log.applied row) cell pairs
        → at cell_cmp pairs.pending cell ≡ Some op → is_clients op.kind ≡ false
        → progress (at cell_cmp ((world_after (setting_of script) (start (setting_of script)) records).servers m).own.pairs.last cell) ≤ op.op + op.op
        → stage_at (chosen_state (setting_of script) (world_after (setting_of script) (start (setting_of script)) records)) cell ≤ 3
        → stage_at (chosen_state (setting_of script) (world_after (setting_of script) (start (setting_of script)) records)) cell ≡ 1 }
{}

/// A region that has moved has all that was frozen, while its cells are live.
pub fn a_region_that_has_moved_has_all()
    ensures { (script : Script) (records : List Record) → IsSound script → AreSteps script records
        → HaveComeOver (setting_of script) (world_after (setting_of script) (start (setting_of script)) records) }
{}

/// The two-copy rule in a region that is on its way.
pub fn moves_keep_the_rule()
    ensures { (script : Script) (records : List Record) → IsSound script → AreSteps script records
        → Moves (setting_of script) (world_after (setting_of script) (start (setting_of script)) records) }
{}
