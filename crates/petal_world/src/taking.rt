//! Steps of all actors, with their stamps.

ghost use Rattle.std.specs.Prelude.{◌≡◌, ◌<◌, ◌+◌, ℕ, Some, None, if◌then◌else◌, max, IfOk};
ghost use Rattle.spec_rules.specs.World.{Setting, World, MayStep, clock_of, next_line, next_stamp, greatest_u64};
ghost use Rattle.spec_rules.specs.declared.step.Step.{Step};
ghost use Rattle.server_host.specs.Desks.{ended};
ghost use Rattle.petal_world.specs.Steps.{Can, LeavesIn, phase_for, phase_of, rev_of, stamp_of};
ghost use Rattle.petal_world.specs.Actors.{LeavesPlansBy, Shows};

use crate::GaveUp;
use crate::actors::Actors;
use crate::deciding::received;
use crate::step_result::StepResult;
use petal_base::{ClientId, Rev, Stamp};
use petal_msg::Actor;
use server_host::Host;
use spec_rules::Step;
use std::alloc::Global;

/// One more than the greatest of two stamps, while there is one.
fn next(clock: Stamp, received: Stamp) -> Stamp
    ensures { clock < greatest_u64 → received < greatest_u64 → result ≡ max clock received + 1 }
{
    let later = clock.max(received);
    if later < Stamp::MAX { later + 1 } else { later }
}

fn rev_if(running: bool, rev: Rev) -> Option<Rev>
    ensures { result ≡ (if running then Some rev else None) }
{
    if running { Some(rev) } else { None }
}

impl<H: Host> Actors<H> {
    /// The stamp of an actor's last step.
    fn clock_of(&self, actor: Actor) -> Stamp
        ensures { (setting : Setting) (w : World) (what : Step) → Shows setting w self.now → MayStep setting w actor what → result ≡ clock_of w actor }
    {
        match actor {
            Actor::Server(server) => match self.desks.get(server) {
                None => 0,
                Some(desk) => desk.clock,
            },
            Actor::Client(client) => match self.seats.get(client) {
                None => 0,
                Some(seat) => seat.clock,
            },
        }
    }

    /// The revision of a client or of a running server.
    pub fn rev(&self, actor: Actor) -> Option<Rev>
        ensures { (setting : Setting) (w : World) → Shows setting w self.now → result ≡ rev_of setting w actor }
    {
        match actor {
            Actor::Server(server) => match self.desks.get(server) {
                None => None,
                Some(desk) => rev_if(desk.host.is_running(), desk.host.rev()),
            },
            Actor::Client(client) => match self.seats.get(client) {
                None => None,
                Some(seat) => Some(seat.core.rev()),
            },
        }
    }

    /// The stamp of a step.
    pub fn stamp_of(&self, floor: Stamp, actor: Actor, step: &Step) -> Stamp
        ensures { (setting : Setting) (w : World) → Shows setting w self.now → MayStep setting w actor step.now → result ≡ stamp_of floor w actor step.now }
    {
        let next = next(self.clock_of(actor), received(step));
        match actor {
            Actor::Server(_) => next,
            Actor::Client(_) => floor.max(next),
        }
    }

    /// The phase of the line that a client calls next, or else this one.
    fn line_phase(&self, client: ClientId, phase: u32) -> u32
        ensures { (setting : Setting) (w : World) → Shows setting w self.now → client < 9
            → result ≡ phase_of (next_line setting.lines client (w.clients client)) phase }
    {
        let Some(seat) = self.seats.get(client) else {
            return phase;
        };
        match seat.next_line() {
            None => phase,
            Some(line) => line.phase,
        }
    }

    /// The phase of the record of a step that is taken in this phase.
    pub fn phase_for(&self, phase: u32, actor: Actor, step: &Step) -> u32
        ensures { (setting : Setting) (w : World) → Shows setting w self.now → MayStep setting w actor step.now
            → result ≡ phase_for step.now actor setting w phase }
    {
        match (step, actor) {
            (Step::Call { line: _ }, Actor::Client(client)) => self.line_phase(client, phase),
            _ => phase,
        }
    }

    /// An actor takes a step that it can take, with this stamp. How a job or a boot ends is for the devices to say.
    pub fn act(
        &mut self,
        alloc: Global,
        actor: Actor,
        step: &Step,
        stamp: Stamp,
    ) -> Result<StepResult, GaveUp>
        requires { Can self.old actor step.now }
        ensures step { IfOk result (λ stepped. LeavesIn self.old actor (ended step.now stepped.end) stamp self.new stepped) }
        ensures plans { IfOk result (λ stepped. LeavesPlansBy actor (ended step.now stepped.end) self.old.desks self.new.desks) }
    {
        match actor {
            Actor::Server(server) => self.serve(alloc, server, step, stamp),
            Actor::Client(client) => self.react(alloc, client, step, stamp),
        }
    }
}
