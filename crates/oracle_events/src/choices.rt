//! What servers have chosen, as their letters tell it.

use petal_base::{NoMemory, ServerId};
use petal_command::{Ballot, Command, Pax};
use petal_msg::{Actor, Body, Letter, SharedLetter};
use std::alloc::Global;

/// The log has so many places.
const PLACES: usize = 16384;

/// A ballot that asks for acceptances, and the servers that accepted.
#[derive(Drop)]
struct Tally {
    place: u32,
    ballot: Ballot,
    command: Command,
    voters: Vec<ServerId>,
}

/// The ballots so far, and the commands that are chosen for the places 1, 2, ...
#[derive(Drop)]
pub struct Choices {
    alloc: Global,
    majority: usize,
    tallies: Vec<Tally>,
    chosen: Vec<Command>,
}

impl Choices {
    /// Nothing is chosen by so many servers.
    pub fn new(alloc: Global, servers: u8) -> Choices {
        Choices {
            alloc,
            majority: servers as usize / 2 + 1,
            tallies: Vec::new(alloc),
            chosen: Vec::new(alloc),
        }
    }

    fn tally(&mut self, place: u32, ballot: Ballot) -> Option<&mut Tally> {
        self.tallies
            .iter_mut()
            .find(|tally| tally.place == place && tally.ballot == ballot)
    }

    fn ask(&mut self, place: u32, ballot: Ballot, command: &Command) -> Result<(), NoMemory> {
        if self.tally(place, ballot).is_some() {
            return Ok(());
        }
        let voters = Vec::new(self.alloc);
        self.tallies.push(Tally {
            place,
            ballot,
            command: command.copy(),
            voters,
        })?;
        Ok(())
    }

    fn vote(&mut self, server: ServerId, place: u32, ballot: Ballot) -> Result<(), NoMemory> {
        if let Some(tally) = self.tally(place, ballot) {
            if !tally.voters.contains(&server) {
                tally.voters.push(server)?;
            }
        }
        Ok(())
    }

    fn note(&mut self, letter: &Letter) -> Result<(), NoMemory> {
        match (letter.from, &letter.body) {
            (
                _,
                Body::Pax(
                    Pax::Accept {
                        place,
                        ballot,
                        command,
                    },
                ),
            ) => self.ask(*place, *ballot, command),
            (Actor::Server(server), Body::Pax(Pax::Accepted { place, ballot })) => {
                self.vote(server, *place, *ballot)
            }
            _ => Ok(()),
        }
    }

    // The command that is chosen for the place.
    fn chosen_at(&self, place: usize) -> Option<Command> {
        for tally in &self.tallies {
            if tally.place as usize == place && tally.voters.len() >= self.majority {
                return Some(tally.command.copy());
            }
        }
        None
    }

    /// These letters are sent. Gives how many commands were chosen before.
    pub fn note_all(&mut self, letters: &[SharedLetter]) -> Result<usize, NoMemory> {
        let before = self.chosen.len();
        for letter in letters {
            self.note(letter.get())?;
        }
        for _ in 0..PLACES {
            let Some(command) = self.chosen_at(self.chosen.len().saturating_add(1)) else {
                break;
            };
            self.chosen.push(command)?;
        }
        Ok(before)
    }

    /// The chosen commands from this one on.
    pub fn chosen_from(&self, before: usize) -> &[Command] {
        match self.chosen.get(before..) {
            Some(commands) => commands,
            None => &[],
        }
    }
}
