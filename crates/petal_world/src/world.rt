//! The world.

ghost use Rattle.std.specs.Prelude.{◌≡◌, ◌↔◌, ◌+◌, ◌++◌, ◌∷◌, [], All, map, min, false, true, option_copied, IfOk, IsTrue, OnOk, OnErr, IsErrOf};
ghost use Rattle.spec_history.specs.Controls.{Obeys};
ghost use Rattle.spec_history.specs.Legal.{IsLegal};
ghost use Rattle.spec_history.specs.Steps.{AreSteps};
ghost use Rattle.spec_rules.specs.Plans.{unarmed};
ghost use Rattle.spec_rules.specs.declared.step.Step.{Step};
ghost use Rattle.petal_world.specs.Errands.{Runs};
ghost use Rattle.client_core.specs.ClientView.{settle_of};
ghost use Rattle.spec_rules.specs.Jobs.{operator};
ghost use Rattle.spec_rules.specs.World.{MayStep, greatest_u64, next_line, setting_of};
ghost use Rattle.petal_world.specs.Play.{MayPlay, above_all, entered, errand_in, played, told_by, world_of};
ghost use Rattle.petal_world.specs.Actors.{LeavesPlansBy};
ghost use Rattle.petal_world.specs.Steps.{Can, LeavesIn, rev_of};
ghost use Rattle.server_host.specs.Desks.{ended, first_sites};
ghost use Rattle.server_host.specs.Playable.{AreNumbered, AreOrdered};
ghost use Rattle.petal_world.specs.declared.error.GaveUp.{GaveUp};
ghost use Rattle.petal_world.specs.declared.error.WorldError.TheVariants as error;

use crate::actors::Actors;
use crate::blocks::Blocks;
use crate::control::Control;
use crate::copies::{letters_again, told_again};
use crate::errand::Errand;
use crate::seats::Seats;
use crate::step_result::StepResult;
use crate::{GaveUp, WorldError};
use petal_base::{NoMemory, OPERATOR, Rev, Sequence, Stamp};
use petal_msg::Actor;
use script_lines::{Line, Script};
use server_host::Host;
use server_host::copies::step_taken;
use server_host::desks::Desks;
use server_host::sent::Sent;
use server_host::waiting::Waiting;
use spec_history::{History, Record};
use spec_rules::Step;
use std::alloc::Global;
use std::marker::Model;

/// All servers and clients of a script's run, and the records of their steps. Contracts see the script, the records, the
/// phase, the least stamp of a client's next step, and whether a step may have been taken that no line gives. The records are allowed steps,
/// and a legal history of the script where no step was free.
#[derive(Drop)]
pub struct World<H: Host> {
    script: Script,
    records: Sequence<Record>,
    phase: u32,
    floor: Stamp,
    over: bool,
    // Why it is over, once it is.
    cause: GaveUp,
    // A step may have been taken that no line of the script gives.
    free: bool,
    actors: Actors<H>,
    errand: Errand,
}

impl<H: Host> Model for World<H> {
    ghost use Rattle.petal_world.specs.Play.{Play, IsKept};

    ghost Value = { Play };

    ghost view = { λ w. record { script = w.script; records = w.records; phase = w.phase; floor = w.floor; over = w.over; free = w.free } };

    ghost invariant = { λ w. IsKept
        (record { script = w.script; records = w.records; phase = w.phase; floor = w.floor; over = w.over; free = w.free }) w.actors w.errand };
}

/// The record of the step that was taken, which shares its letters and its answer with what the step tells.
fn record(
    alloc: Global,
    actor: Actor,
    stamp: Stamp,
    phase: u32,
    step: &Step,
    stepped: &StepResult,
) -> Result<Record, NoMemory>
    ensures { IfOk result (λ own. own
        ≡ record {
          actor = actor;
          stamp = stamp;
          phase = phase;
          step = ended step.now stepped.now.end;
          sent = stepped.now.letters;
          answer = stepped.now.answer;
        }) }
{
    Ok(Record {
        actor,
        stamp,
        phase,
        step: step_taken(step, stepped.end)?,
        sent: letters_again(alloc, stepped.letters.as_slice())?,
        answer: told_again(&stepped.answer)?,
    })
}

/// Takes a step that can be taken, and keeps the record of it with the end that its job had.
fn take<H: Host>(
    alloc: Global,
    actors: &mut Actors<H>,
    records: &mut Sequence<Record>,
    actor: Actor,
    stamp: Stamp,
    phase: u32,
    step: &Step,
) -> Result<StepResult, GaveUp>
    requires { Can actors.old actor step.now }
    ensures plans { IfOk result (λ stepped. LeavesPlansBy actor (ended step.now stepped.end) actors.old.desks actors.new.desks) }
    ensures ok { IfOk result (λ stepped. (records.new
        ≡ records.old ++ record {
          actor = actor;
          stamp = stamp;
          phase = phase;
          step = ended step.now stepped.end;
          sent = stepped.letters;
          answer = stepped.answer;
        } ∷ [])
        × LeavesIn actors.old actor (ended step.now stepped.end) stamp actors.new stepped) }
    ensures err { OnErr result (records.new ≡ records.old) }
{
    let stepped = actors.act(alloc, actor, step, stamp)?;
    let record = record(alloc, actor, stamp, phase, step, &stepped)?;
    records.push(record)?;
    Ok(stepped)
}

/// One more than a stamp, while there is one.
fn after(stamp: Stamp) -> Stamp
    ensures { result ≡ min (stamp + 1) greatest_u64 }
{
    if stamp < Stamp::MAX { stamp + 1 } else { stamp }
}

impl<H: Host> World<H> {
    /// The world of a run that begins: nothing was called or sent. The servers are those of the script, whose lines have
    /// numbers of their own that rise with their phases.
    pub fn start(alloc: Global, script: Script, hosts: Sequence<H>) -> Result<World<H>, NoMemory>
        requires numbered { AreNumbered script.lines }
        requires ordered { AreOrdered script.lines }
        requires hosts { map H.seen hosts ≡ first_sites script }
        requires unarmed { All (λ host. H.armed host ≡ unarmed) hosts }
        ensures { IfOk result (λ world. world ≡ record { script = script; records = []; phase = 0; floor = 0; over = false; free = false }) }
    {
        let actors = Actors {
            seats: Seats::start(alloc, &script)?,
            desks: Desks::start(alloc, hosts)?,
            sent: Sent::new(alloc),
            waiting: Waiting::start(alloc, script.lines.as_slice())?,
            control: Control::new(),
            blocks: Blocks::new(alloc),
        };
        Ok(World {
            script,
            records: Sequence::new(alloc),
            phase: 0,
            floor: 0,
            over: false,
            cause: GaveUp::NoMemory,
            free: false,
            actors,
            errand: Errand::none(),
        })
    }

    /// One more than the greatest of the clients' last stamps.
    fn above_all(&self) -> Stamp
        ensures { self.now.over ≡ false → result ≡ above_all (world_of self.now) }
    {
        after(self.actors.seats.greatest_clock())
    }

    /// A phase begins: each client's clock is the greatest of all theirs. A world that was given up says so again, and why.
    pub fn enter(&mut self, phase: u32) -> Result<(), GaveUp>
        ensures ok { OnOk result (self.new ≡ entered self.old phase) }
        ensures err { OnErr result (self.new ≡ self.old) }
    {
        if self.over {
            return Err(self.cause);
        }
        let floor = self.above_all();
        self.floor = floor;
        self.phase = phase;
        Ok(())
    }

    /// The revision of a client or of a running server; None exactly where the world has no such actor, or the server is
    /// stopped. Nothing is said of it once the world is given up.
    pub fn rev(&self, actor: Actor) -> Option<Rev>
        ensures { self.now.over ≡ false → result ≡ rev_of (setting_of self.now.script) (world_of self.now) actor }
    {
        self.actors.rev(actor)
    }

    /// The operator's open line and its round, where it is a settle. Nothing is said of it once the world is given up.
    pub fn settling(&self) -> Option<(u32, u32)>
        ensures { self.now.over ≡ false → result ≡ settle_of ((world_of self.now).clients operator).asked }
    {
        self.actors.settling()
    }

    /// The line that the operator calls next.
    fn next_order(&self) -> Option<&Line>
        ensures { self.now.over ≡ false
            → option_copied result ≡ next_line self.now.script.lines operator ((world_of self.now).clients operator) }
    {
        match self.actors.seats.get(OPERATOR) {
            None => None,
            Some(seat) => seat.next_line(),
        }
    }

    /// Whether an actor that may take the step runs, where it is a server.
    fn runs(&self, actor: Actor) -> bool
        ensures { self.now.over ≡ false → (what : Step) → MayStep (setting_of self.now.script) (world_of self.now) actor what
            → Runs (world_of self.now) actor result }
    {
        self.actors.rev(actor).is_some()
    }

    /// Whether the operator's line allows a step that the rules allow.
    fn obeys(&self, actor: Actor, step: &Step) -> bool
        ensures { self.now.over ≡ false → MayStep (setting_of self.now.script) (world_of self.now) actor step.now
            → IsTrue result ↔ Obeys actor step.now (world_of self.now) (errand_in self.now) }
    {
        self.errand.allows(actor, self.runs(actor), step)
    }

    /// Takes a step that the rules allow.
    fn take_allowed(
        &mut self,
        alloc: Global,
        actor: Actor,
        step: &Step,
    ) -> Result<StepResult, GaveUp>
        requires going { self.old.over ≡ false }
        requires may { MayStep (setting_of self.old.script) (world_of self.old) actor step.now }
        requires obeys { self.old.free ≡ false → Obeys actor step.now (world_of self.old) (errand_in self.old) }
        ensures ok { IfOk result (λ stepped. self.new ≡ played self.old actor (ended step.now stepped.end)) }
        ensures told { IfOk result (λ stepped. stepped ≡ told_by self.old actor (ended step.now stepped.end)) }
        ensures gave_up { OnErr result (self.new ≡ record self.old { over = true }) }
    {
        let stamp = self.actors.stamp_of(self.floor, actor, step);
        let phase = self.actors.phase_for(self.phase, actor, step);
        let errand = self
            .errand
            .after(actor, self.runs(actor), step, self.next_order());
        match take(
            alloc,
            &mut self.actors,
            &mut self.records,
            actor,
            stamp,
            phase,
            step,
        ) {
            Ok(stepped) => {
                self.errand = errand;
                Ok(stepped)
            }
            Err(cause) => {
                self.over = true;
                self.cause = cause;
                Err(cause)
            }
        }
    }

    /// Takes a step, and tells the letters that it sent, the answer that it gave and how its job ended. How a job ends is for
    /// the devices to say, whatever end the step names: the step with the end that is told is the one that was taken, and its
    /// record is kept. `NotAllowed` comes exactly where the step is not one of the world's in this state, or stops, blanks, arms, boots or
    /// glances at a server otherwise than the operator's line says; a job is allowed with each end or with none, also where the plan of a
    /// device stops the server in it. After `GaveUp` the step did not happen, and none follows.
    pub fn step(
        &mut self,
        alloc: Global,
        actor: Actor,
        step: &Step,
    ) -> Result<StepResult, WorldError>
        ensures allowed { OnOk result (MayPlay self.old actor step.now) }
        ensures ok { IfOk result (λ stepped. self.new ≡ played self.old actor (ended step.now stepped.end)) }
        ensures told { IfOk result (λ stepped. stepped ≡ told_by self.old actor (ended step.now stepped.end)) }
        ensures not_allowed { IsErrOf result error.NotAllowed → MayPlay self.old actor step.now → ⊥ }
        ensures unchanged { IsErrOf result error.NotAllowed → self.new ≡ self.old }
        ensures gave_up { (cause : GaveUp) → IsErrOf result (error.GaveUp cause) → self.new ≡ record self.old { over = true } }
    {
        if self.over {
            return Err(WorldError::GaveUp(self.cause));
        }
        if !self.actors.may(actor, step) {
            return Err(WorldError::NotAllowed);
        }
        if !self.obeys(actor, step) {
            return Err(WorldError::NotAllowed);
        }
        match self.take_allowed(alloc, actor, step) {
            Ok(stepped) => Ok(stepped),
            Err(cause) => Err(WorldError::GaveUp(cause)),
        }
    }

    /// Takes a step that the rules allow, also where no line of the script gives it: a device may be armed at any time, and a server boots
    /// with the plans that its devices have. The records are allowed steps still, and no more is said of them.
    pub fn step_freely(
        &mut self,
        alloc: Global,
        actor: Actor,
        step: &Step,
    ) -> Result<StepResult, WorldError>
        ensures allowed { OnOk result (MayStep (setting_of self.old.script) (world_of self.old) actor step.now) }
        ensures ok { IfOk result (λ stepped. self.new ≡ played (record self.old { free = true }) actor (ended step.now stepped.end)) }
        ensures told { IfOk result (λ stepped. stepped ≡ told_by self.old actor (ended step.now stepped.end)) }
        ensures not_allowed { IsErrOf result error.NotAllowed → MayStep (setting_of self.old.script) (world_of self.old) actor step.now → ⊥ }
        ensures unchanged { IsErrOf result error.NotAllowed → self.new ≡ self.old }
        ensures gave_up { (cause : GaveUp) → IsErrOf result (error.GaveUp cause)
            → (self.new.script ≡ self.old.script) × (self.new.records ≡ self.old.records) × (self.new.over ≡ true) }
    {
        if self.over {
            return Err(WorldError::GaveUp(self.cause));
        }
        if !self.actors.may(actor, step) {
            return Err(WorldError::NotAllowed);
        }
        self.free = true;
        match self.take_allowed(alloc, actor, step) {
            Ok(stepped) => Ok(stepped),
            Err(cause) => Err(WorldError::GaveUp(cause)),
        }
    }

    /// The script.
    pub fn script(&self) -> &Script
        ensures { result.now ≡ self.now.script }
    {
        &self.script
    }

    /// The records so far: allowed steps, and a legal history of the script where no step was free.
    pub fn records(&self) -> &[Record]
        ensures value { result.now ≡ self.now.records }
        ensures steps { AreSteps self.now.script self.now.records }
        ensures legal { self.now.free ≡ false → IsLegal self.now.script self.now.records }
    {
        self.records.as_slice()
    }

    /// The history of all steps, which is legal for the script where no step was free.
    pub fn into_history(self) -> History
        ensures value { result ≡ record { records = self.records } }
        ensures steps { AreSteps self.script self.records }
        ensures legal { self.free ≡ false → IsLegal self.script self.records }
    {
        History {
            records: self.records,
        }
    }
}
