//! The bodies of letters about one place of the log.

use crate::ballot::Ballot;
use crate::command::Command;
use std::alloc::AllocError;

/// What proposers and acceptors tell one another about a place ("Paxos Made Simple", 2001). From whom a letter comes stands
/// on its envelope.
#[derive(Drop, PartialEq, Eq)]
pub enum Pax {
    /// Promise to take part in no ballot below this one.
    Prepare {
        place: u32,
        ballot: Ballot,
    },
    /// Promised, with what was accepted so far and in which ballot.
    Promise {
        place: u32,
        ballot: Ballot,
        accepted: Option<(Ballot, Command)>,
    },
    /// Accept this command in this ballot.
    Accept {
        place: u32,
        ballot: Ballot,
        command: Command,
    },
    /// Accepted.
    Accepted {
        place: u32,
        ballot: Ballot,
    },
    /// A higher ballot was promised.
    Refuse {
        place: u32,
        ballot: Ballot,
        promised: Ballot,
    },
    /// A majority accepted this command in one ballot.
    Chosen {
        place: u32,
        command: Command,
    },
}

impl Pax {
    ghost use Rattle.std.specs.Prelude.{◌≡◌};

    /// The same body again. It takes no memory.
    pub fn copy(&self) -> Pax
        ensures { result ≡ self.now }
    {
        match self {
            Pax::Prepare { place, ballot } => Pax::Prepare {
                place: *place,
                ballot: *ballot,
            },
            Pax::Promise {
                place,
                ballot,
                accepted,
            } => Pax::Promise {
                place: *place,
                ballot: *ballot,
                accepted: match accepted {
                    None => None,
                    Some((before, command)) => Some((*before, command.copy())),
                },
            },
            Pax::Accept {
                place,
                ballot,
                command,
            } => Pax::Accept {
                place: *place,
                ballot: *ballot,
                command: command.copy(),
            },
            Pax::Accepted { place, ballot } => Pax::Accepted {
                place: *place,
                ballot: *ballot,
            },
            Pax::Refuse {
                place,
                ballot,
                promised,
            } => Pax::Refuse {
                place: *place,
                ballot: *ballot,
                promised: *promised,
            },
            Pax::Chosen { place, command } => Pax::Chosen {
                place: *place,
                command: command.copy(),
            },
        }
    }
}

impl Clone for Pax {
    ghost use Rattle.std.specs.Prelude.{◌≡◌};

    ghost is_clone = { λ x y. y ≡ x };

    fn clone(&self) -> Result<Self, AllocError> {
        Ok(self.copy())
    }
}
