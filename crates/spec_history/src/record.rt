//! What is kept of each step.

use petal_base::{Sequence, Stamp};
use petal_msg::{Actor, SharedLetter};
use script_lines::Answer;
use spec_rules::Step;

/// One step: whose it was, its stamp, the phase in which it was taken, what it sent, and the answer that it gave with the
/// number of its line.
#[derive(Drop)]
pub struct Record {
    pub actor: Actor,
    pub stamp: Stamp,
    pub phase: u32,
    pub step: Step,
    pub sent: Sequence<SharedLetter>,
    pub answer: Option<(u32, Answer)>,
}

/// All steps of a run, in one order that agrees with every letter.
#[derive(Drop)]
pub struct History {
    pub records: Sequence<Record>,
}
