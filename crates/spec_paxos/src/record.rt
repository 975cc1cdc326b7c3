//! What a state device keeps.

use petal_base::Inc;
use petal_command::{Ballot, Command};

/// What one commit adds.
#[derive(Drop, PartialEq, Eq)]
pub enum StateRecord {
    /// The server's incarnation.
    Inc {
        inc: Inc,
    },
    /// At the place the ballot was promised.
    Promise {
        place: u32,
        ballot: Ballot,
    },
    /// At the place the command was accepted in the ballot.
    Accepted {
        place: u32,
        ballot: Ballot,
        command: Command,
    },
    /// At the place the command is chosen.
    Chosen {
        place: u32,
        command: Command,
    },
}

/// What is kept for one place: the highest ballot promised or accepted in, what was accepted last, and what is known to be
/// chosen.
#[derive(Drop, PartialEq, Eq)]
pub struct Row {
    pub promised: Option<Ballot>,
    pub accepted: Option<(Ballot, Command)>,
    pub chosen: Option<Command>,
}
