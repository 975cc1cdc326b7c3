//! A script.

use crate::request::Line;
use petal_base::Sequence;

/// The lines that a run is told to do, in order.
#[derive(PartialEq, Eq, Drop)]
pub struct Script {
    /// How many servers there are, 2 to 8.
    pub servers: u8,
    /// How many slots for blocks each server has, 1 to 1,024.
    pub slots: u32,
    /// Every so many letters one is lost.
    pub lose: Option<u32>,
    /// Every so many letters one is delivered twice.
    pub twice: Option<u32>,
    /// How many phases there are. A line's phase is below it.
    pub phases: u32,
    /// The requests, by rising line number.
    pub lines: Sequence<Line>,
}
