//! What a proposer is about, and what it does at a letter.

use petal_command::{Ballot, Command, Pax};

/// What a proposer is about.
#[derive(Drop)]
pub enum Phase {
    /// Nothing was started.
    Idle,
    /// It asked for promises. `heard` tells for each server whether it promised; `best` is, of what they accepted before,
    /// that of the highest ballot.
    Collecting {
        place: u32,
        ballot: Ballot,
        want: Command,
        heard: [bool; 256],
        best: Option<(Ballot, Command)>,
    },
    /// A majority promised, and it asked for acceptances of the command. `heard` tells for each server whether it accepted.
    Voting {
        place: u32,
        ballot: Ballot,
        command: Command,
        heard: [bool; 256],
    },
}

/// What a proposer says of a letter.
#[derive(Drop)]
pub enum Heard {
    Nothing,
    /// To be sent to every server.
    Send(Pax),
    /// A majority accepted the command in one ballot.
    Chosen { place: u32, command: Command },
    /// A server promised this higher ballot.
    Refused(Ballot),
}
