//! The two-copy rule: after every legal history, the two chains of a cell in Both are equal, or the first is one put ahead, and
//! the block is marked busy ("Petal: Distributed Virtual Disks", 1996, 3.2); and an unequal block of a cell that one server
//! holds alone is marked, or is one of all that the holder is to copy. A server that was blanked counts as it was before, until its Join
//! with an empty store is chosen (`stores`); a link that is Lost has no copy that counts. Of a cell whose contents have left it for
//! another map nothing is said of stores, since what is left there is swept.
//!
//! To the laws above it promises this and what goes with it: that a block is marked before its lead puts, how far the second
//! server of a link in Both is, how far the copies are by which a holder brings the other server up to date, and what a letter between
//! the two servers tells of that. It knows nothing of clients or of the plain machine.
#![tactic(auto)]

ghost use Rattle.std.specs.Prelude.{List};
ghost use Rattle.petal_base.specs.declared.cell.Cell.{Cell};
ghost use Rattle.spec_rules.specs.World.{chosen_log, chosen_state, counted};
ghost use Rattle.spec_history.specs.Claims.{TwoCopies, Covered, MarksFirst};
ghost use Rattle.law_state.specs.Histories.{AreSteps, IsSound, Record, Script, setting_of, start, world_after};
ghost use Rattle.law_copies.specs.GoodCopies.{Good};

mod stores;

pub use stores::{
    a_blank_join_finds_an_empty_store, a_store_that_waits_is_empty, what_was_blanked_waits,
    who_is_in_has_the_store_that_counts,
};

/// After every legal history of a sound script, the two copies of each cell in Both keep the rule, by the stores that count.
pub fn two_copies()
    ensures { (script : Script) (records : List Record) → IsSound script → AreSteps script records → (cell : Cell)
        → TwoCopies (chosen_state (setting_of script) (world_after (setting_of script) (start (setting_of script)) records))
        (counted (setting_of script) (world_after (setting_of script) (start (setting_of script)) records)) cell }
{}

/// Where one server holds a cell alone by what is chosen, the two copies that count are equal, or the block is marked at one of the cell's
/// two servers, or the other server came back with nothing, and the holder is to copy all that it has.
pub fn an_unequal_block_is_marked()
    ensures { (script : Script) (records : List Record) → IsSound script → AreSteps script records
        → (cell : Cell) → Covered (chosen_state (setting_of script) (world_after (setting_of script) (start (setting_of script)) records))
        (counted (setting_of script) (world_after (setting_of script) (start (setting_of script)) records)) cell }
{}

/// And what goes with it, at each prefix of the chosen log, by the two stores that count by that prefix and by what each server was when it
/// last was at that place of the cell's link: in Both the second server is no further than the lead has given numbers out; where one server
/// holds the link alone, a block that is not equal is marked at the holder, or at the other server before the holder's pages have passed it,
/// or is one of all that the holder is to copy and has not copied, and none is once the holder has started a ballot for the link's Caught;
/// and each letter that was ever sent between the two tells what is so, or what is past. What a server had pending when it last was at a
/// place it had after some of the records, and whenever it was there since. A server is counted at a place only while the cell is not retired by
/// its own entries, and stays as it then was; of a letter, or of a ballot that was started, this is told where the cell is not retired at the
/// prefix of its sender; and what a server has pending finds its marks where the cell is live by the server's own entries.
pub fn letters_between_two_servers()
    ensures { (script : Script) (records : List Record) → IsSound script → AreSteps script records
        → Good (setting_of script) records (chosen_log (setting_of script) (world_after (setting_of script) (start (setting_of script)) records))
        (counted (setting_of script) (world_after (setting_of script) (start (setting_of script)) records)) }
{}

/// In every legal history of a sound script, each put of a lead fell on a block that was marked on its device. What is swept of a cell that is
/// not live by the server's own state is no put.
pub fn leads_put_on_marked_blocks()
    ensures { (script : Script) (records : List Record) → IsSound script → AreSteps script records → MarksFirst script records }
{}
