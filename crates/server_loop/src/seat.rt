//! The seat.

ghost use Rattle.std.specs.Prelude.{◌≡◌, ◌<◌, ◌≤◌, ◌+◌, ◌++◌, max, [], None, Some, false, true, ◌⊎◌, List, drop};
ghost use Rattle.std.specs.Prelude.{IfOk, IfSome, OnOk, OnErr, IsTrue, MatchOption};
ghost use Rattle.petal_msg.specs.declared.letter.Actor.TheVariants as actor;
ghost use Rattle.petal_msg.specs.declared.letter.Letter.{Letter};
ghost use Rattle.script_lines.specs.Requests.{names};
ghost use Rattle.spec_rules.specs.Plans.{Armed, unarmed};
ghost use Rattle.spec_rules.specs.World.{greatest_u64, received, setting_of};
ghost use Rattle.spec_rules.specs.declared.step.Step.TheVariants as steps;
ghost use Rattle.spec_rules.specs.declared.step.WorkEnd.TheVariants as work_end;
ghost use Rattle.spec_history.specs.Failures.{ComeTo};
ghost use Rattle.petal_world.specs.Errands.{steps_left};
ghost use Rattle.law_merge.specs.Alone.{IsFor, MayAlone};
ghost use Rattle.server_loop.specs.Obeying.{HasBegun, HasGiven, HasGivenAll, HasObeyed, next_step, sent_in, step_of};
ghost use Rattle.server_loop.specs.Seat.{AreOfServer, AreOwn, IsGrown, IsGrownAfter, IsGrownBy, IsGrownByAfter, IsTaken, MayTake, clock_along, first_site, own_record};

use crate::run::Run;
use petal_base::{Inc, NoMemory, Rev, Sequence, ServerId, Stamp};
use petal_msg::{Actor, Body, SharedLetter};
use petal_world::blocks::Blocks;
use petal_world::copies::letters_again;
use petal_world::errand::{Deed, Left};
use script_lines::Line;
use server_host::copies::step_taken;
use server_host::stamping::stamped;
use server_host::{Host, HostError};
use spec_history::Record;
use spec_rules::{Step, WorkEnd};
use std::alloc::Global;
use std::marker::{Model, PhantomData};
use tick_backoff::Backoff;

/// A server of a run, the stamp of its last step, and the records of its steps. Contracts see its number, the records, and whether it was
/// given up.
#[derive(Drop)]
pub struct Seat<H: Host, J: Run> {
    me: ServerId,
    host: H,
    clock: Stamp,
    phase: u32,
    records: Sequence<Record>,
    blocks: Blocks,
    backoff: Backoff,
    over: bool,
    // Why it was given up, once it was.
    cause: HostError,
    ended: bool,
    of: PhantomData<J>,
}

impl<H: Host, J: Run> Model for Seat<H, J> {
    ghost use Rattle.spec_rules.specs.World.{setting_of};
    ghost use Rattle.server_loop.specs.Seat.{IsSeated, Kept};

    ghost Value = { Kept };

    ghost view = { λ s. record { me = s.me; records = s.records; over = s.over } };

    ghost invariant = { λ s. IsSeated (setting_of J.script) (H.seen s.host) (H.armed s.host) s.clock
        (record { me = s.me; records = s.records; over = s.over }) };
}

/// One more than the greatest of two stamps, where there is one.
fn next(clock: Stamp, received: Stamp) -> Option<Stamp>
    ensures { IfSome result (λ stamp. (stamp ≡ max clock received + 1) × (clock < greatest_u64) × (received < greatest_u64)) }
{
    clock.max(received).checked_add(1)
}

/// Whether a server may take the step by itself, as far as it is not a letter's, a tick or a job.
fn may_obey<H: Host>(host: &H, step: &Step) -> bool
    ensures { IsTrue result → MayAlone step.now (H.seen host.now).server }
{
    match step {
        Step::Stop => host.is_running(),
        Step::Blank => !host.is_running(),
        Step::Boot(_) => !host.is_running() && host.inc() < Inc::MAX,
        Step::Arm { which: _, plan: _ } | Step::Glance { line: _, round: _ } => true,
        _ => false,
    }
}

/// Whether a server may take the step by itself.
fn may_alone<H: Host>(host: &H, step: &Step) -> bool
    ensures { IsTrue result → MayAlone step.now (H.seen host.now).server }
{
    match step {
        Step::Deliver { letter: _ } => true,
        Step::Tick => host.is_running(),
        Step::Work(_) | Step::StopIn(_) => host.is_running() && !host.is_idle(),
        _ => may_obey(host, step),
    }
}

/// The record of a step that was taken, which shares its letters with those that are given.
fn record_of(
    alloc: Global,
    me: ServerId,
    stamp: Stamp,
    phase: u32,
    step: Step,
    letters: &[SharedLetter],
) -> Result<Record, NoMemory>
    ensures { IfOk result (λ own. own ≡ own_record me stamp phase step letters.now) }
{
    Ok(Record {
        actor: Actor::Server(me),
        stamp,
        phase,
        step,
        sent: letters_again(alloc, letters)?,
        answer: None,
    })
}

/// The step that a line gives.
fn step_of(deed: Deed) -> Step
    ensures { result ≡ step_of deed }
{
    match deed {
        Deed::Stop => Step::Stop,
        Deed::Blank => Step::Blank,
        Deed::Arm { which, plan } => Step::Arm { which, plan },
        Deed::Boot => Step::Boot(WorkEnd::Done),
    }
}

/// The step of a line of this number that comes next: what it gives the server, or its one glance.
fn next_step(number: u32, deed: Option<Deed>) -> Step
    ensures { result ≡ next_step number deed }
{
    match deed {
        None => Step::Glance {
            line: number,
            round: 0,
        },
        Some(deed) => step_of(deed),
    }
}

/// These letters come behind the others. After it ran out of memory some of them may be missing.
fn append(letters: &mut Sequence<SharedLetter>, more: &[SharedLetter]) -> Result<(), NoMemory>
    ensures { OnOk result (letters.new ≡ letters.old ++ more.now) }
{
    for letter in more {
        letters.push(letter.share()?)?;
    }
    Ok(())
}

/// The letters of the records from this place on, shared.
fn letters_of(
    alloc: Global,
    records: &[Record],
    from: usize,
) -> Result<Sequence<SharedLetter>, NoMemory>
    ensures { IfOk result (λ letters. letters ≡ sent_in (drop from records.now)) }
{
    let mut letters = Sequence::new(alloc);
    for at in from..records.len() {
        append(&mut letters, records[at].sent.as_slice())?;
    }
    Ok(letters)
}

/// The server hears this. It gets on with the Leave of a server that has stopped, and with the command that is proposed to it; with a copy,
/// or with what is to be moved, it goes on by what it sends now.
fn note_letter(backoff: &mut Backoff, body: &Body) {
    match body {
        Body::Down { .. } | Body::Propose { .. } => backoff.renew(),
        Body::Hello { .. } | Body::Synced { .. } | Body::Filled { .. } => backoff.wait_again(),
        _ => {}
    }
}

/// A tick comes to the server, which runs, or not, and has this revision. Whether it is passed on: the server waits the longer the less it
/// gets on.
fn is_due(backoff: &mut Backoff, running: bool, rev: Rev) -> bool {
    if !running {
        backoff.at_rev(None);
        return false;
    }
    backoff.at_rev(Some(rev));
    backoff.ticks(0) > 0
}

impl<H: Host, J: Run> Seat<H, J> {
    /// The seat of a server that has taken no step, and whose devices have no plan.
    pub fn new(alloc: Global, me: ServerId, host: H) -> Seat<H, J>
        requires among { me < (setting_of J.script).servers }
        requires first { H.seen host ≡ first_site (setting_of J.script) me }
        requires unarmed { H.armed host ≡ unarmed }
        ensures { result ≡ record { me = me; records = []; over = false } }
    {
        Seat {
            me,
            host,
            clock: 0,
            phase: 0,
            records: Sequence::new(alloc),
            blocks: Blocks::new(alloc),
            backoff: Backoff::new(),
            over: false,
            cause: HostError::NoMemory,
            ended: false,
            of: PhantomData,
        }
    }

    /// A phase begins: that of the records to come. Its workers are not to end yet.
    pub fn enter(&mut self, phase: u32)
        ensures { self.new ≡ self.old }
    {
        self.phase = phase;
        self.ended = false;
    }

    /// It is given up, for this cause.
    fn give_up(&mut self, cause: HostError)
        ensures { self.new ≡ record self.old { over = true } }
    {
        self.over = true;
        self.cause = cause;
    }

    /// The step, and the record of it. In between the seat is given up.
    fn step(
        &mut self,
        alloc: Global,
        step: &Step,
        stamp: Stamp,
    ) -> Result<Sequence<SharedLetter>, HostError>
        requires ready { self.old.over ≡ false }
        requires own { IsFor (actor.Server self.old.me) step.now }
        requires may { MayTake (setting_of J.script) self.old step.now stamp }
        ensures ok { IfOk result (λ letters. IsTaken stamp self.old self.new step.now letters) }
        ensures err { OnErr result (self.new ≡ record self.old { over = true }) }
    {
        self.over = true;
        let taken = self.host.step(alloc, step)?;
        let shared = self.blocks.share_all(alloc, taken.letters)?;
        let letters = stamped(alloc, shared, stamp)?;
        let named = step_taken(step, taken.end)?;
        let own = record_of(alloc, self.me, stamp, self.phase, named, letters.as_slice())?;
        self.records.push(own)?;
        self.clock = stamp;
        self.over = false;
        Ok(letters)
    }

    /// A step that the server may take by itself.
    fn take(
        &mut self,
        alloc: Global,
        step: &Step,
        stamp: Stamp,
    ) -> Result<Sequence<SharedLetter>, HostError>
        requires ready { self.old.over ≡ false }
        requires own { IsFor (actor.Server self.old.me) step.now }
        requires may { MayTake (setting_of J.script) self.old step.now stamp }
        ensures ok { IfOk result (λ letters. IsTaken stamp self.old self.new step.now letters) }
        ensures err { OnErr result (self.new ≡ record self.old { over = true }) }
    {
        match self.step(alloc, step, stamp) {
            Ok(letters) => Ok(letters),
            Err(cause) => {
                self.give_up(cause);
                Err(cause)
            }
        }
    }

    /// The stamp of a step that the server may take by itself, later than its last one and than this one.
    fn stamp_for(&self, step: &Step, least: Stamp) -> Option<Stamp>
        requires { received step.now ≤ least }
        ensures { self.now.over ≡ false → IfSome result (λ stamp. MayTake (setting_of J.script) self.now step.now stamp
            × (max (clock_along 0 self.now.records) least < stamp)) }
    {
        if self.host.is_spent() || !may_alone(&self.host, step) {
            return None;
        }
        next(self.clock, least)
    }

    /// The step, where the server may take it by itself.
    fn take_if(
        &mut self,
        alloc: Global,
        step: &Step,
        least: Stamp,
    ) -> Result<Option<Sequence<SharedLetter>>, HostError>
        requires ready { self.old.over ≡ false }
        requires own { IsFor (actor.Server self.old.me) step.now }
        requires receives { received step.now ≤ least }
        ensures ok { IfOk result (λ taken. MatchOption taken (self.new ≡ self.old)
            (λ letters. IsGrownByAfter (max (clock_along 0 self.old.records) least) self.old self.new step.now letters)) }
        ensures err { OnErr result (self.new ≡ record self.old { over = true }) }
    {
        match self.stamp_for(step, least) {
            None => Ok(None),
            Some(stamp) => Ok(Some(self.take(alloc, step, stamp)?)),
        }
    }

    /// The step, where the server may take it by itself; else nothing is sent.
    fn act(
        &mut self,
        alloc: Global,
        step: &Step,
        least: Stamp,
    ) -> Result<Sequence<SharedLetter>, HostError>
        requires ready { self.old.over ≡ false }
        requires own { IsFor (actor.Server self.old.me) step.now }
        requires receives { received step.now ≤ least }
        ensures ok { IfOk result (λ letters. ((self.new ≡ self.old) × (letters ≡ []))
            ⊎ IsGrownByAfter (max (clock_along 0 self.old.records) least) self.old self.new step.now letters) }
        ensures err { OnErr result (self.new ≡ record self.old { over = true }) }
    {
        match self.take_if(alloc, step, least)? {
            None => Ok(Sequence::new(alloc)),
            Some(letters) => Ok(letters),
        }
    }

    /// A step that a line gives the server, later than the line's call.
    fn give(&mut self, alloc: Global, step: &Step, called: Stamp) -> Result<(), HostError>
        requires ready { self.old.over ≡ false }
        requires own { IsFor (actor.Server self.old.me) step.now }
        requires receives { received step.now ≡ 0 }
        ensures ok { OnOk result ((letters : List Letter) × IsGrownByAfter called self.old self.new step.now letters) }
        ensures err { OnErr result (self.new ≡ record self.old { over = true }) }
    {
        if self.take_if(alloc, step, called)?.is_none() {
            self.give_up(HostError::Exhausted);
            return Err(HostError::Exhausted);
        }
        Ok(())
    }

    /// What comes next of a line of this number: what it gives the server, or its one glance.
    fn give_next(
        &mut self,
        alloc: Global,
        number: u32,
        deed: Option<Deed>,
        called: Stamp,
    ) -> Result<(), HostError>
        requires ready { self.old.over ≡ false }
        ensures ok { OnOk result ((letters : List Letter) × IsGrownByAfter called self.old self.new (next_step number deed) letters) }
        ensures err { OnErr result (self.new ≡ record self.old { over = true }) }
    {
        self.give(alloc, &next_step(number, deed), called)
    }

    /// The steps that are left of a line, and then its one glance. Some of them may have been taken before one fails.
    fn obey(
        &mut self,
        alloc: Global,
        line: &Line,
        left: Left,
        called: Stamp,
    ) -> Result<(), HostError>
        requires ready { self.old.over ≡ false }
        ensures ok { OnOk result (HasGivenAll (setting_of J.script) line.now called (steps_left left) self.old self.new) }
        ensures err { OnErr result (HasGiven (setting_of J.script) line.now called (steps_left left) (record self.old { over = true }) self.new) }
    {
        let left = left.due(self.host.is_running());
        let first = left.first();
        self.give_next(alloc, line.number, first, called)?;
        match first {
            None => Ok(()),
            Some(_) => self.obey(alloc, line, left.rest(), called),
        }
    }

    /// The letters of the records from this place on.
    fn letters_from(
        &mut self,
        alloc: Global,
        from: usize,
    ) -> Result<Sequence<SharedLetter>, HostError>
        ensures ok { IfOk result (λ letters. (letters ≡ sent_in (drop from self.old.records)) × (self.new ≡ self.old)) }
        ensures err { OnErr result (self.new ≡ record self.old { over = true }) }
    {
        match letters_of(alloc, self.records.as_slice(), from) {
            Ok(letters) => Ok(letters),
            Err(NoMemory) => {
                self.give_up(HostError::NoMemory);
                Err(HostError::NoMemory)
            }
        }
    }

    /// A letter comes. It leaves no record where the server or the letter is past the end.
    ///
    /// # Errors
    /// Once it fails the seat is given up: it takes no step any more, and says why again.
    pub fn deliver(&mut self, alloc: Global, letter: &SharedLetter) -> Result<(), HostError>
        requires { letter.now.to ≡ actor.Server self.old.me }
        ensures ok { OnOk result ((self.new ≡ self.old) ⊎ ((letters : List Letter) × IsGrown self.old self.new (steps.Deliver letter.now) letters)) }
        ensures err { OnErr result (self.new ≡ record self.old { over = true }) }
    {
        if self.over {
            return Err(self.cause);
        }
        note_letter(&mut self.backoff, &letter.get().body);
        let Ok(letter) = letter.share() else {
            self.give_up(HostError::NoMemory);
            return Err(HostError::NoMemory);
        };
        let stamp = letter.get().stamp;
        self.take_if(alloc, &Step::Deliver { letter }, stamp)?;
        Ok(())
    }

    /// A tick comes. It leaves no record where the server has not waited for it long enough, does not run, or is past the end.
    ///
    /// # Errors
    /// As in `deliver`.
    pub fn tick(&mut self, alloc: Global) -> Result<Sequence<SharedLetter>, HostError>
        ensures ok { IfOk result (λ letters. ((self.new ≡ self.old) × (letters ≡ [])) ⊎ IsGrown self.old self.new steps.Tick letters) }
        ensures err { OnErr result (self.new ≡ record self.old { over = true }) }
    {
        if self.over {
            return Err(self.cause);
        }
        if !is_due(&mut self.backoff, self.host.is_running(), self.host.rev()) {
            return Ok(Sequence::new(alloc));
        }
        self.act(alloc, &Step::Tick, 0)
    }

    /// The first job of the queue. It leaves no record where there is none, or the server does not run or is past the end.
    ///
    /// # Errors
    /// As in `deliver`.
    pub fn work(&mut self, alloc: Global) -> Result<Sequence<SharedLetter>, HostError>
        ensures ok { IfOk result (λ letters. ((self.new ≡ self.old) × (letters ≡ [])) ⊎ IsGrownBy self.old self.new (steps.Work work_end.Done) letters) }
        ensures err { OnErr result (self.new ≡ record self.old { over = true }) }
    {
        if self.over {
            return Err(self.cause);
        }
        self.act(alloc, &Step::Work(WorkEnd::Done), 0)
    }

    /// A line of the operator that names this server: the server takes the steps that the line gives it, one record each, and is shown to
    /// the operator, all of it later than the line's call, which has this stamp. The letters of all of them are given, in order.
    ///
    /// # Errors
    /// As in `deliver`; and `Exhausted` where it can't take one of the steps. Some of the steps may have been taken.
    pub fn control(
        &mut self,
        alloc: Global,
        line: &Line,
        stamp: Stamp,
    ) -> Result<Sequence<SharedLetter>, HostError>
        requires { (names line.now.request).server ≡ Some self.old.me }
        ensures ok { IfOk result (λ letters. HasObeyed (setting_of J.script) line.now stamp self.old self.new letters) }
        ensures err { OnErr result (HasBegun (setting_of J.script) line.now stamp (record self.old { over = true }) self.new) }
    {
        if self.over {
            return Err(self.cause);
        }
        // It gets on by this: the next tick is passed on at once.
        self.backoff.renew();
        let from = self.records.len();
        self.obey(alloc, line, Left::of(&line.request), stamp)?;
        self.letters_from(alloc, from)
    }

    /// The server is shown to the operator for a round of a settle, whose call has this stamp. It leaves no record in round 0, in which no
    /// settle is, or where the server is past the end.
    ///
    /// # Errors
    /// As in `deliver`.
    pub fn glance(
        &mut self,
        alloc: Global,
        line: u32,
        round: u32,
        stamp: Stamp,
    ) -> Result<Sequence<SharedLetter>, HostError>
        ensures ok { IfOk result (λ letters. ((self.new ≡ self.old) × (letters ≡ []))
            ⊎ ((0 < round) × IsGrownAfter (max (clock_along 0 self.old.records) stamp) self.old self.new (steps.Glance line round) letters)) }
        ensures err { OnErr result (self.new ≡ record self.old { over = true }) }
    {
        if self.over {
            return Err(self.cause);
        }
        if round == 0 {
            return Ok(Sequence::new(alloc));
        }
        self.act(alloc, &Step::Glance { line, round }, stamp)
    }

    /// Its workers are to end, in this phase.
    pub fn end(&mut self)
        ensures { self.new ≡ self.old }
    {
        self.ended = true;
    }

    /// Whether its workers are to end.
    pub fn has_ended(&self) -> bool {
        self.ended
    }

    /// Whether it was given up, so that no step follows.
    pub fn is_over(&self) -> bool
        ensures { result ≡ self.now.over }
    {
        self.over
    }

    /// The server's number.
    pub fn me(&self) -> ServerId
        ensures { result ≡ self.now.me }
    {
        self.me
    }

    /// Whether no job waits.
    pub fn is_idle(&self) -> bool {
        self.over || !self.host.is_running() || self.host.is_idle()
    }

    /// The records of its steps: the server's own from the start, and each failure of its devices uses up a plan.
    pub fn records(&self) -> &[Record]
        ensures records { result.now ≡ self.now.records }
        ensures alone { AreOwn (setting_of J.script) self.now.me self.now.records }
        ensures own { AreOfServer self.now.me self.now.records }
        ensures planned { (left : Armed) × ComeTo self.now.me unarmed self.now.records left }
        ensures among { self.now.me < (setting_of J.script).servers }
    {
        self.records.as_slice()
    }

    /// The records of its steps: the server's own from the start, and each failure of its devices uses up a plan.
    pub fn into_records(self) -> Sequence<Record>
        ensures records { result ≡ self.records }
        ensures alone { AreOwn (setting_of J.script) self.me self.records }
        ensures own { AreOfServer self.me self.records }
        ensures planned { (left : Armed) × ComeTo self.me unarmed self.records left }
        ensures among { self.me < (setting_of J.script).servers }
    {
        self.records
    }
}
