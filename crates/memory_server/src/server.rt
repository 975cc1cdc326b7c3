//! A server and its two stores.

ghost use Rattle.std.specs.Prelude.{◌≡◌, ◌≤◌, ◌↔◌, ◌&&◌, [], true, false, None, IfOk, OnOk, OnErr, IsTrue};
ghost use Rattle.spec_rules.specs.Log.{rev_of};
ghost use Rattle.spec_rules.specs.Server.{first_server};
ghost use Rattle.spec_rules.specs.declared.step.Step.TheVariants.{Blank, Boot, Stop, Tick, Work};
ghost use Rattle.server_host.specs.Desks.{IsFault, acted_at, as_end, boot_end, end_in, ended, is_spent_server, job_ended, may_take, site_after};
ghost use Rattle.server_host.specs.declared.step_end.StepEnd.TheVariants.{Done};
ghost use Rattle.server_store.specs.Slots.{slot_start};
ghost use Rattle.memory_server.specs.Server.{HasFailed, left_at, site_of, whole_after, whole_of};
ghost use Rattle.petal_disk.specs.Plans.{beneath, plan_state};
ghost use Rattle.spec_rules.specs.Plans.{AreLeftOf, unarmed, with_plan};
ghost use Rattle.memory_server.specs.Armed.{BothCameTo, IsFormatted, LeavesPlansOver, armed_of, stops_of};

use crate::attempt::Attempt;
use crate::boot::boot_stopped;
use crate::failing::TickError;
use crate::taken::{Stops, done};
use crate::work::work_first;
use petal_base::{Inc, Rev, Sequence, ServerId};
use petal_command::ServerNumber;
use petal_disk::{Disk, Plan, Planned, Which};
use petal_msg::Letter;
use server_core::{ServerCore, ServerCount};
use server_host::{HostError, HostResult};
use server_store::Store;
use spec_rules::Step;
use state_store::StateStore;
use std::alloc::Global;
use std::marker::Model;

/// A server with its store and its state store, each on a device of which one call can be made to fail, or to stop the server.
/// Contracts see the core and what the stores hold.
#[derive(Drop)]
pub struct DeskServer<E: Disk> {
    core: ServerCore,
    store: Store<Planned<E>>,
    state: StateStore<Planned<E>>,
    // a blank data device, which takes the place of the store's; only of a stopped server, until it boots
    blank: Option<Planned<E>>,
    // what the stores have in memory is not known to be what their devices show: it takes no job, and does not boot
    over: bool,
}

impl<E: Disk> Model for DeskServer<E> {
    ghost use Rattle.petal_disk.specs.declared.planned.Planned.{Planned};
    ghost use Rattle.petal_disk.specs.Plans.{beneath};
    ghost use Rattle.memory_server.specs.Server.{IsKept, Mounted, store_at};

    ghost Value = { Mounted (Planned E) };

    ghost view = { λ s. record { core = s.core; store = store_at s.blank s.store; state = s.state } };

    ghost invariant = { λ s. IsKept (λ disk. E.size (beneath disk)) E.observable (λ disk. E.seen (beneath disk)) (λ disk. E.may_leave (beneath disk))
        s.over s.blank (record { core = s.core; store = s.store; state = s.state }) };
}

fn both(a: bool, b: bool) -> bool
    ensures { result ≡ (a && b) }
{
    a && b
}

impl<E: Disk> DeskServer<E> {
    /// The first incarnation of one of so many servers, with its two stores as they were made.
    ///
    /// # Errors
    /// Out of memory; `Unexpected` where there is no such server, or where it is the only one.
    pub fn start(
        alloc: Global,
        me: ServerId,
        servers: u8,
        store: Store<Planned<E>>,
        state: StateStore<Planned<E>>,
    ) -> Result<DeskServer<E>, HostError>
        requires formatted { IsFormatted ⟦<Planned<E> as Disk>⟧ store state }
        ensures site { IfOk result (λ server. site_of server ≡ record { me = me; servers = servers; server = first_server true store.slots }) }
        ensures stores { IfOk result (λ server. (server.store ≡ store) × (server.state ≡ state)) }
        ensures plans { IfOk result (λ server. armed_of server ≡ unarmed) }
    {
        let Some(me) = ServerNumber::checked(me) else {
            return Err(HostError::Unexpected);
        };
        let Some(servers) = ServerCount::checked(servers) else {
            return Err(HostError::Unexpected);
        };
        // made last, since nothing can fail any more then
        let core = ServerCore::start(alloc, me, servers)?;
        Ok(DeskServer {
            core,
            store,
            state,
            blank: None,
            over: false,
        })
    }

    /// How many slots its store has.
    pub fn slots(&self) -> u32
        ensures { result ≡ self.now.store.slots }
    {
        self.store.slots()
    }

    /// From now on this plan counts at the data device, which may be a blank one, and no earlier one.
    fn arm_data(&mut self, plan: Option<Plan>)
        ensures site { whole_of self.new ≡ whole_of self.old }
        ensures plans { armed_of self.new ≡ record (armed_of self.old) { stored = plan } }
    {
        match (&mut self.blank, plan) {
            (None, None) => self.store.disarm(),
            (None, Some(plan)) => self.store.arm(plan),
            (Some(disk), None) => disk.disarm(),
            (Some(disk), Some(plan)) => disk.arm(plan),
        }
    }

    /// The same at the state device.
    fn arm_state(&mut self, plan: Option<Plan>)
        ensures site { whole_of self.new ≡ whole_of self.old }
        ensures plans { armed_of self.new ≡ record (armed_of self.old) { kept = plan } }
    {
        match plan {
            None => self.state.disarm(),
            Some(plan) => self.state.arm(plan),
        }
    }

    /// From now on the device has this plan, or none.
    fn arm(&mut self, device: Which, plan: Option<Plan>)
        ensures site { whole_of self.new ≡ whole_of self.old }
        ensures plans { armed_of self.new ≡ with_plan device plan (armed_of self.old) }
    {
        match device {
            Which::Data => self.arm_data(plan),
            Which::State => self.arm_state(plan),
        }
    }

    /// It stops, where it runs.
    fn stop(&mut self, alloc: Global) -> Result<Sequence<Letter>, HostError>
        ensures site { OnOk result (whole_of self.new ≡ whole_after (whole_of self.old) Stop) }
        ensures letters { IfOk result (λ letters. letters ≡ (acted_at (whole_of self.old) Stop).letters) }
        ensures plans { armed_of self.new ≡ armed_of self.old }
    {
        if !self.core.is_running() {
            return Err(HostError::Unexpected);
        }
        Ok(self.core.stop(alloc))
    }

    /// Which of its devices have met a plan that stops it.
    fn stops(&self) -> Stops
        ensures { result ≡ stops_of self.now }
    {
        let stored = match &self.blank {
            None => self.store.stopped(),
            Some(disk) => disk.stopped(),
        };
        Stops {
            stored,
            kept: self.state.stopped(),
        }
    }

    /// Does the first job of the queue, where it runs.
    fn first_job(&mut self, alloc: Global) -> Result<Attempt, HostError>
        ensures site { IfOk result (λ attempt. E.observable → site_of self.new ≡ left_at (whole_after (whole_of self.old) (Work attempt.end))) }
        ensures letters { IfOk result (λ attempt. E.observable → attempt.letters ≡ (acted_at (whole_of self.old) (Work attempt.end)).letters) }
        ensures cause { IfOk result (λ attempt. IsFault (as_end attempt.end) → HasFailed ⟦<Planned<E> as Disk>⟧ self.old self.new) }
        ensures run { OnOk result (BothCameTo self.old self.new) }
    {
        if self.over || self.blank.is_some() {
            return Err(HostError::Unexpected);
        }
        if !self.core.is_running() || self.core.spent(&self.store) {
            return Err(HostError::Unexpected);
        }
        self.over = true;
        let attempt = work_first(alloc, &mut self.core, &mut self.store, &mut self.state)?;
        self.over = false;
        Ok(attempt)
    }

    /// Does the first job of the queue, where it runs. It stops the server where a plan was met that does: then a device tells so
    /// that did not before.
    fn work(&mut self, alloc: Global) -> Result<HostResult, HostError>
        ensures site { IfOk result (λ taken. E.observable → site_of self.new ≡ left_at (whole_after (whole_of self.old) (job_ended taken.end))) }
        ensures letters { IfOk result (λ taken. E.observable → taken.letters ≡ (acted_at (whole_of self.old) (job_ended taken.end)).letters) }
        ensures end { IfOk result (λ taken. taken.end ≡ end_in (job_ended taken.end)) }
        ensures cause { IfOk result (λ taken. IsFault taken.end → HasFailed ⟦<Planned<E> as Disk>⟧ self.old self.new) }
        ensures plans { IfOk result (λ taken. LeavesPlansOver E.faults (job_ended taken.end) self.old self.new) }
    {
        let before = self.stops();
        let attempt = self.first_job(alloc)?;
        let stopped = self.stops() != before;
        Ok(attempt.job_taken(stopped))
    }

    /// A tick, in which the data device may fail; then all is as before.
    fn tick_once(&mut self, alloc: Global) -> Result<HostResult, TickError>
        ensures site { OnOk result (E.observable → whole_of self.new ≡ whole_after (whole_of self.old) Tick) }
        ensures letters { IfOk result (λ taken. E.observable → taken.letters ≡ (acted_at (whole_of self.old) Tick).letters) }
        ensures end { IfOk result (λ taken. taken.end ≡ Done) }
        ensures err { OnErr result (whole_of self.new ≡ whole_of self.old) }
        ensures run { BothCameTo self.old self.new }
    {
        if self.blank.is_some() {
            return Err(TickError::Refused(HostError::Unexpected));
        }
        let letters = self.core.tick(alloc, &mut self.store)?;
        Ok(done(letters))
    }

    /// A tick. A data device that fails in it is asked once more; where it fails again no step is taken.
    fn tick(&mut self, alloc: Global) -> Result<HostResult, HostError>
        ensures site { OnOk result (E.observable → whole_of self.new ≡ whole_after (whole_of self.old) Tick) }
        ensures letters { IfOk result (λ taken. E.observable → taken.letters ≡ (acted_at (whole_of self.old) Tick).letters) }
        ensures end { IfOk result (λ taken. taken.end ≡ Done) }
        ensures run { BothCameTo self.old self.new }
    {
        match self.tick_once(alloc) {
            Ok(taken) => return Ok(taken),
            Err(TickError::Refused(error)) => return Err(error),
            Err(TickError::Failed) => {}
        }
        match self.tick_once(alloc) {
            Ok(taken) => Ok(taken),
            Err(TickError::Refused(error)) => Err(error),
            Err(TickError::Failed) => Err(HostError::Unexpected),
        }
    }

    /// A blank device, in which as many slots fit, takes the place of the data device, where it is stopped.
    fn take_blank(&mut self, disk: Planned<E>) -> Result<(), HostError>
        requires room { slot_start self.old.store.slots ≤ E.size (beneath disk) }
        requires unplanned { (plan_state disk).plan ≡ None }
        ensures stopped { OnOk result (self.old.core.running ≡ false) }
        ensures site { OnOk result (whole_of self.new ≡ whole_after (whole_of self.old) Blank) }
        ensures plans { AreLeftOf (armed_of self.old) (armed_of self.new) }
        ensures err { OnErr result (self.new ≡ self.old) }
    {
        if self.over || self.core.is_running() {
            return Err(HostError::Unexpected);
        }
        self.blank = Some(disk);
        Ok(())
    }

    /// A blank device, in which as many slots fit, takes the place of the data device, where it is stopped.
    ///
    /// # Errors
    /// `Unexpected` where it runs, or an earlier step was not taken.
    pub fn blank(&mut self, disk: E) -> Result<(), HostError>
        requires room { slot_start self.old.store.slots ≤ E.size disk }
        ensures site { OnOk result (site_of self.new ≡ site_after (site_of self.old) Blank) }
        ensures plans { AreLeftOf (armed_of self.old) (armed_of self.new) }
        ensures err { OnErr result (self.new ≡ self.old) }
    {
        self.take_blank(Planned::new(disk))?;
        Ok(())
    }

    /// It boots, where it is stopped and its incarnation can be raised: a store is made on a blank device, which waits to be
    /// filled, both stores are opened again, and it runs as its next incarnation. Where the blank device fails it stays stopped
    /// as it was. Where the journal of the state device has no room it stays stopped, and so does one of which the state device
    /// fails: then the devices tell whether the incarnation was raised.
    fn boot_up(&mut self, alloc: Global) -> Result<Attempt, HostError>
        ensures site { IfOk result (λ attempt. E.observable → site_of self.new ≡ left_at (whole_after (whole_of self.old) (Boot attempt.end))) }
        ensures letters { IfOk result (λ attempt. E.observable → attempt.letters ≡ (acted_at (whole_of self.old) (Boot attempt.end)).letters) }
        ensures cause { IfOk result (λ attempt. IsFault (as_end attempt.end) → HasFailed ⟦<Planned<E> as Disk>⟧ self.old self.new) }
        ensures run { OnOk result (BothCameTo self.old self.new) }
    {
        if self.over || self.core.is_running() {
            return Err(HostError::Unexpected);
        }
        if self.core.inc() == Inc::MAX {
            return Err(HostError::Exhausted);
        }
        self.over = true;
        let (core, store, state) = (&mut self.core, &mut self.store, &mut self.state);
        let attempt = boot_stopped(alloc, core, store, state, &mut self.blank)?;
        self.over = false;
        Ok(attempt)
    }

    /// It boots, where it is stopped and its incarnation can be raised. A plan that stops the server fails the boot.
    fn boot(&mut self, alloc: Global) -> Result<HostResult, HostError>
        ensures site { IfOk result (λ taken. E.observable → site_of self.new ≡ left_at (whole_after (whole_of self.old) (Boot (boot_end taken.end)))) }
        ensures letters { IfOk result (λ taken. E.observable → taken.letters ≡ (acted_at (whole_of self.old) (Boot (boot_end taken.end))).letters) }
        ensures end { IfOk result (λ taken. taken.end ≡ end_in (Boot (boot_end taken.end))) }
        ensures cause { IfOk result (λ taken. IsFault taken.end → HasFailed ⟦<Planned<E> as Disk>⟧ self.old self.new) }
        ensures plans { IfOk result (λ taken. LeavesPlansOver E.faults (Boot (boot_end taken.end)) self.old self.new) }
    {
        let attempt = self.boot_up(alloc)?;
        Ok(attempt.boot_taken())
    }

    /// Takes the step, whatever it has in memory; no device is at hand for a blank one.
    fn act(&mut self, alloc: Global, step: &Step) -> Result<HostResult, HostError>
        ensures site { IfOk result (λ taken. E.observable → site_of self.new ≡ left_at (whole_after (whole_of self.old) (ended step.now taken.end))) }
        ensures letters { IfOk result (λ taken. E.observable → taken.letters ≡ (acted_at (whole_of self.old) (ended step.now taken.end)).letters) }
        ensures end { IfOk result (λ taken. taken.end ≡ end_in (ended step.now taken.end)) }
        ensures cause { IfOk result (λ taken. IsFault taken.end → HasFailed ⟦<Planned<E> as Disk>⟧ self.old self.new) }
        ensures plans { IfOk result (λ taken. LeavesPlansOver E.faults (ended step.now taken.end) self.old self.new) }
    {
        match step {
            Step::Call { line: _ } => Ok(done(Sequence::new(alloc))),
            Step::Deliver { letter } => {
                self.core.deliver(letter.share()?)?;
                Ok(done(Sequence::new(alloc)))
            }
            Step::Tick => self.tick(alloc),
            Step::Work(_) | Step::StopIn(_) => self.work(alloc),
            Step::Stop => Ok(done(self.stop(alloc)?)),
            Step::Blank => Err(HostError::Unexpected),
            Step::Boot(_) => self.boot(alloc),
            Step::Arm { which, plan } => {
                self.arm(*which, *plan);
                Ok(done(Sequence::new(alloc)))
            }
            Step::Glance { line, round } => Ok(done(self.core.glance(alloc, *line, *round)?)),
        }
    }

    /// Whether the step is one that a server takes that runs, or that has stopped.
    fn may_take(&self, step: &Step) -> bool
        ensures { result ≡ may_take step.now self.now.core.running }
    {
        match step {
            Step::Tick | Step::Work(_) | Step::StopIn(_) | Step::Stop => self.core.is_running(),
            Step::Blank | Step::Boot(_) => !self.core.is_running(),
            _ => true,
        }
    }

    /// Takes a step. How a job or a boot ends is for the devices to say, whatever end the step names; the server and the letters are those
    /// of the step with the end that is given, where contracts know the bytes of the devices. That is a fault or a stop only where a device
    /// failed, by a plan that is then used up or beneath the plans. After an error nothing is said of the server.
    ///
    /// # Errors
    /// Out of memory; `Unexpected` where the rules do not allow the step here, or a device failed more often than once; and for a blank
    /// device, which `blank` takes.
    pub fn step(&mut self, alloc: Global, step: &Step) -> Result<HostResult, HostError>
        ensures site { IfOk result (λ taken. E.observable → site_of self.new ≡ site_after (site_of self.old) (ended step.now taken.end)) }
        ensures letters { IfOk result (λ taken. E.observable → taken.letters ≡ (acted_at (site_of self.old) (ended step.now taken.end)).letters) }
        ensures end { IfOk result (λ taken. taken.end ≡ end_in (ended step.now taken.end)) }
        ensures cause { IfOk result (λ taken. IsFault taken.end → HasFailed ⟦<Planned<E> as Disk>⟧ self.old self.new) }
        ensures plans { IfOk result (λ taken. LeavesPlansOver E.faults (ended step.now taken.end) self.old self.new) }
    {
        if !self.may_take(step) {
            return Err(HostError::Unexpected);
        }
        self.act(alloc, step)
    }

    /// Whether it runs.
    pub fn is_running(&self) -> bool
        ensures { result ≡ (site_of self.now).server.life.running }
    {
        self.core.is_running()
    }

    /// Its incarnation.
    pub fn inc(&self) -> Inc
        ensures { result ≡ (site_of self.now).server.life.inc }
    {
        self.core.inc()
    }

    /// Whether no job waits.
    pub fn is_idle(&self) -> bool
        ensures { IsTrue result ↔ ((site_of self.now).server.queue ≡ []) }
    {
        !self.core.is_running() || self.core.is_idle()
    }

    /// Whether it runs with a number that is the greatest of its type, so that it can take no more steps.
    pub fn is_spent(&self) -> bool
        ensures { result ≡ is_spent_server (site_of self.now).server }
    {
        both(self.core.is_running(), self.core.spent(&self.store))
    }

    /// Its revision of the global state; 0 where it has stopped.
    pub fn rev(&self) -> Rev
        ensures { result ≡ rev_of (site_of self.now).server.log }
    {
        if self.core.is_running() {
            self.core.rev()
        } else {
            0
        }
    }
}
