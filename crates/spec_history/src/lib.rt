//! Histories: the records of a run, which of them are legal for a script, what of a history the plain machine is told, and
//! the text that a run prints.
//!
//! To the layer above it promises that these are one definition each, over the records alone. It knows nothing of how a run
//! comes about.
#![tactic(auto)]

mod laws;
mod record;
mod witness;

pub use laws::{
    a_beginning_is_legal, a_history_without_steps, the_start_has_a_schedule,
    the_start_keeps_the_rules,
};
pub use record::{History, Record};
pub use witness::{
    a_choice_makes_the_disk, a_disk_is_made, a_disk_is_read_early, a_full_write_is_remembered,
    a_letter_comes_twice_and_in_reverse, a_name_is_taken, a_name_is_unknown, a_write_finds_no_slot,
    a_write_is_read_back, a_write_leaves_its_number, a_write_marks_its_block,
    two_old_marks_go_together, two_servers_propose,
};
