//! What a world keeps beside its records.

ghost use Rattle.std.specs.Prelude.{◌≡◌, ◌<◌, false, None, Some, length, slice_get, IfOk, IfSome};
ghost use Rattle.client_core.specs.ClientView.{is_spent};
ghost use Rattle.server_host.specs.Desks.{Equipped, LeavesPlansAt, end_in, ended};
ghost use Rattle.server_host.specs.declared.step_end.StepEnd.TheVariants.{Done};
ghost use Rattle.petal_world.specs.Seats.{CanTake, reacted_at};
ghost use Rattle.petal_world.specs.Actors.{IsServed, client_letters, server_letters, with_client};
ghost use Rattle.petal_world.specs.declared.seat.Seat.{Seat};

use crate::GaveUp;
use crate::blocks::Blocks;
use crate::control::Control;
use crate::seats::Seats;
use crate::step_result::StepResult;
use petal_base::{ClientId, ServerId, Stamp};
use server_host::desks::Desks;
use server_host::sent::Sent;
use server_host::stamping::stamped;
use server_host::waiting::Waiting;
use server_host::{Host, StepEnd};
use spec_rules::Step;
use std::alloc::Global;
use std::marker::Model;

/// All clients and servers, the letters ever sent, the lines without an answer, and what was done of the operator's last line.
#[derive(Drop)]
pub struct Actors<H: Host> {
    pub seats: Seats,
    pub desks: Desks<H>,
    pub sent: Sent,
    pub waiting: Waiting,
    pub control: Control,
    pub blocks: Blocks,
}

impl<H: Host> Model for Actors<H> {
    ghost use Rattle.petal_world.specs.Actors.{Actors};

    ghost Value = { Actors };

    ghost view = { λ s. record { seats = s.seats; desks = s.desks; sent = s.sent; waiting = s.waiting; control = s.control } };
}

impl<H: Host> Actors<H> {
    /// A client takes a step that it can take, with this stamp.
    pub fn react(
        &mut self,
        alloc: Global,
        client: ClientId,
        step: &Step,
        stamp: Stamp,
    ) -> Result<StepResult, GaveUp>
        requires within { client < length self.old.seats }
        requires can { IfSome (slice_get self.old.seats client) (λ seat. CanTake step.now seat.core.client) }
        requires goes_on { IfSome (slice_get self.old.seats client) (λ seat. is_spent seat.core.client ≡ false) }
        ensures step { IfOk result (λ stepped. (seat : Seat) → slice_get self.old.seats client ≡ Some seat
            → (stepped ≡ record { letters = client_letters seat step.now stamp; answer = (reacted_at seat step.now).1.answer; end = Done })
            × (self.new ≡ with_client self.old client seat step.now stamp)) }
        ensures plans { IfOk result (λ stepped. self.new.desks ≡ self.old.desks) }
    {
        let reaction = self.seats.step(alloc, client, step, stamp)?;
        let letters = stamped(alloc, reaction.letters, stamp)?;
        self.sent.add_all(letters.as_slice())?;
        if let Some((line, _answer)) = &reaction.answer {
            self.waiting.answered(*line);
        }
        Ok(StepResult {
            letters,
            answer: reaction.answer,
            end: StepEnd::Done,
        })
    }

    /// A server takes a step, with this stamp. How a job or a boot ends is for the devices to say.
    pub fn serve(
        &mut self,
        alloc: Global,
        server: ServerId,
        step: &Step,
        stamp: Stamp,
    ) -> Result<StepResult, GaveUp>
        requires { server < length self.old.desks }
        ensures step { IfOk result (λ stepped. (own : Equipped) → slice_get self.old.desks server ≡ Some own
            → (stepped
            ≡ record { letters = server_letters own.desk (ended step.now stepped.end) stamp; answer = None; end = end_in (ended step.now stepped.end) })
            × IsServed self.old server own.desk (ended step.now stepped.end) stamp self.new) }
        ensures plans { IfOk result (λ stepped. LeavesPlansAt server (ended step.now stepped.end) self.old.desks self.new.desks) }
    {
        let taken = self.desks.step(alloc, server, step, stamp)?;
        let own = self.blocks.share_all(alloc, taken.letters)?;
        let letters = stamped(alloc, own, stamp)?;
        self.sent.add_all(letters.as_slice())?;
        self.control.note(server, step);
        Ok(StepResult {
            letters,
            answer: None,
            end: taken.end,
        })
    }
}
