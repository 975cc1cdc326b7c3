//! One client of a world.

ghost use Rattle.std.specs.Prelude.{◌≡◌, ◌∷◌, ◌↔◌, [], None, false, slice_get, option_copied, IfOk, IsTrue, OnErr};
ghost use Rattle.client_core.specs.ClientView.{at_core, is_spent, state_of};
ghost use Rattle.spec_rules.specs.World.{calls};
ghost use Rattle.petal_world.specs.Seats.{CanTake, HasCalledSettle, reacted_at, settles_as};

use client_core::{ClientCore, ClientError, Reaction};
use petal_base::{Sequence, Stamp};
use script_lines::{Line, Request};
use server_host::copies::request_again;
use spec_rules::Step;
use std::alloc::Global;

/// A client, the stamp of its last step, and its lines in order.
#[derive(Drop)]
pub struct Seat {
    pub core: ClientCore,
    pub clock: Stamp,
    pub lines: Sequence<Line>,
}

impl Seat {
    /// The line that the client calls next.
    pub fn next_line(&self) -> Option<&Line>
        ensures { option_copied result ≡ slice_get self.now.lines self.now.core.client.seq }
    {
        self.lines.as_slice().get(self.core.called() as usize)
    }

    /// Whether the client has called a settle of this number, which is open or answered.
    pub fn has_called_settle(&self, number: u32) -> bool
        ensures { IsTrue result ↔ HasCalledSettle self.now number }
    {
        let lines = self.lines.as_slice();
        let called = (self.core.called() as usize).min(lines.len());
        // The one that is asked for is mostly the last one.
        for back in 0..called {
            if settles_as(number, &lines[called - 1 - back]) {
                return true;
            }
        }
        false
    }

    /// The client calls its next line.
    fn call(&mut self, alloc: Global) -> Result<Reaction, ClientError>
        requires free { self.old.core.client.asked ≡ None }
        requires goes_on { is_spent self.old.core.client ≡ false }
        ensures ok { IfOk result (λ reaction. (self.new.core, reaction)
            ≡ at_core self.old.core
            (calls (state_of self.old.core) self.old.core.me self.old.core.client (slice_get self.old.lines self.old.core.client.seq))) }
        ensures rest { self.new ≡ record self.old { core = self.new.core } }
        ensures err { OnErr result (self.new ≡ self.old) }
    {
        let (number, request) = match self.next_line() {
            None => return Ok(nothing(alloc)),
            Some(line) => (line.number, request_again(&line.request)),
        };
        self.core.call(alloc, number, request)
    }

    /// The client takes a step that it can take.
    pub fn step(&mut self, alloc: Global, step: &Step) -> Result<Reaction, ClientError>
        requires can { CanTake step.now self.old.core.client }
        requires goes_on { is_spent self.old.core.client ≡ false }
        ensures ok { IfOk result (λ reaction. (self.new.core, reaction)
            ≡ reacted_at self.old step.now) }
        ensures rest { self.new ≡ record self.old { core = self.new.core } }
        ensures err { OnErr result (self.new ≡ self.old) }
    {
        match step {
            Step::Call { line: _ } => self.call(alloc),
            Step::Deliver { letter } => self.core.deliver(alloc, letter.get()),
            Step::Tick => self.core.tick(alloc),
            Step::Work(_)
            | Step::StopIn(_)
            | Step::Stop
            | Step::Blank
            | Step::Boot(_)
            | Step::Arm { which: _, plan: _ }
            | Step::Glance { line: _, round: _ } => Ok(nothing(alloc)),
        }
    }
}

/// Whether the line has this number, and is a settle.
fn settles_as(number: u32, line: &Line) -> bool
    ensures { result ≡ settles_as number line.now }
{
    if line.number != number {
        return false;
    }
    matches!(line.request, Request::Settle)
}

/// Nothing is sent or answered.
fn nothing(alloc: Global) -> Reaction
    ensures { result ≡ record { letters = []; answer = None } }
{
    Reaction {
        letters: Sequence::new(alloc),
        answer: None,
    }
}
