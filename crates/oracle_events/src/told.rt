//! What the plain machine is told of.

use spec_machine::Event;

/// An event, and the number of the record that tells it, from 1. There is no event where a copy counts that no write under way
/// has asked for.
#[derive(Drop)]
pub struct Told {
    pub step: usize,
    pub event: Option<Event>,
}
