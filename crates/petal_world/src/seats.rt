//! The clients of a world.

ghost use Rattle.std.specs.Prelude.{◌≡◌, ◌<◌, false, max, map, Some, length, slice_get, slice_set, option_copied, IfOk, IfSome};
ghost use Rattle.std.specs.List.{fold};
ghost use Rattle.client_core.specs.ClientView.{is_spent};
ghost use Rattle.spec_rules.specs.World.{setting_of, start};
ghost use Rattle.petal_world.specs.Seats.{CanTake, reacted_at, seat_of, seats_of};
ghost use Rattle.petal_world.specs.declared.seat.Seat.{Seat};

use crate::copies::lines_of;
use crate::seat::Seat;
use client_core::{ClientCore, ClientError, Reaction};
use petal_base::{CLIENTS, ClientId, NoMemory, Stamp};
use script_lines::Script;
use spec_rules::Step;
use std::alloc::Global;
use std::marker::Model;

/// All clients, by number.
#[derive(Drop)]
pub struct Seats {
    seats: Vec<Seat>,
}

impl Model for Seats {
    ghost use Rattle.std.specs.Prelude.{List};
    ghost use Rattle.petal_world.specs.declared.seat.Seat.{Seat};

    ghost Value = { List Seat };

    ghost view = { λ s. s.seats.items };
}

/// A client of a run that begins.
fn first_seat(alloc: Global, script: &Script, client: ClientId) -> Result<Seat, NoMemory>
    requires { client < 9 }
    ensures { IfOk result (λ seat. seat ≡ seat_of (setting_of script.now) (start (setting_of script.now)) client) }
{
    Ok(Seat {
        core: ClientCore::new(alloc, client, script.servers)?,
        clock: 0,
        lines: lines_of(alloc, script.lines.as_slice(), client)?,
    })
}

impl Seats {
    /// The clients of a run that begins.
    pub fn start(alloc: Global, script: &Script) -> Result<Seats, NoMemory>
        ensures { IfOk result (λ seats. seats ≡ seats_of (setting_of script.now) (start (setting_of script.now))) }
    {
        let mut seats = Vec::new(alloc);
        for client in 0..CLIENTS {
            seats.push(first_seat(alloc, script, client)?)?;
        }
        Ok(Seats { seats })
    }

    /// The greatest of the clients' last stamps.
    pub fn greatest_clock(&self) -> Stamp
        ensures { result ≡ fold max 0 (map (λ (seat : Seat). seat.clock) self.now) }
    {
        let mut greatest = 0;
        for seat in &self.seats {
            greatest = seat.clock.max(greatest);
        }
        greatest
    }

    /// The client of a number.
    pub fn get(&self, client: ClientId) -> Option<&Seat>
        ensures { option_copied result ≡ slice_get self.now client }
    {
        self.seats.get(client as usize)
    }

    /// A step of one client, with its stamp.
    pub fn step(
        &mut self,
        alloc: Global,
        client: ClientId,
        step: &Step,
        stamp: Stamp,
    ) -> Result<Reaction, ClientError>
        requires within { client < length self.old }
        requires can { IfSome (slice_get self.old client) (λ seat. CanTake step.now seat.core.client) }
        requires goes_on { IfSome (slice_get self.old client) (λ seat. is_spent seat.core.client ≡ false) }
        ensures { IfOk result (λ reaction. (seat : Seat) → slice_get self.old client ≡ Some seat
            → (reaction ≡ (reacted_at seat step.now).1)
            × (self.new ≡ slice_set self.old client (record seat { core = (reacted_at seat step.now).0; clock = stamp }))) }
    {
        let seat = &mut self.seats[client as usize];
        let reaction = seat.step(alloc, step)?;
        seat.clock = stamp;
        Ok(reaction)
    }
}
