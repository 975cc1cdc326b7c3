//! A world in the middle of its run.

use client_core::{Order, order_of};
use oracle_events::{Looks, Stores, Told, told_of};
use petal_base::{ClientId, NoMemory, OPERATOR, ServerId};
use petal_disk::{Plan, Which};
use petal_msg::{Actor, SharedLetter};
use petal_world::{CommitEnd, Host, Record, Step, WorkEnd, World, WorldError};
use script_lines::{Answer, Script};
use spec_machine::{Event, EventError, Machine};
use std::alloc::Global;

/// No line gives a server more steps than these, before its glance.
const MOST_STEPS: u32 = 5;

/// A world, and all letters that were sent in it, in order. It takes each step that the rules allow, until it is to keep to the lines.
#[derive(Drop)]
pub struct Run<H: Host> {
    world: World<H>,
    pub sent: Vec<SharedLetter>,
    phase: u32,
    by_lines: bool,
}

impl<H: Host> Run<H> {
    /// The run of a world that begins.
    pub fn new(alloc: Global, world: World<H>) -> Run<H> {
        Run {
            world,
            sent: Vec::new(alloc),
            phase: 0,
            by_lines: false,
        }
    }

    /// From now on a server stops, is blanked, armed, booted and glanced at only as the operator's open line says.
    pub fn keep_to_lines(&mut self) {
        self.by_lines = true;
    }

    /// Takes a step. Gives whether it was one of the world's.
    fn take(&mut self, alloc: Global, actor: Actor, step: &Step) -> Result<bool, NoMemory> {
        let taken = if self.by_lines {
            self.world.step(alloc, actor, step)
        } else {
            self.world.step_freely(alloc, actor, step)
        };
        match taken {
            Ok(stepped) => {
                for letter in stepped.letters.into_vec() {
                    self.sent.push(letter)?;
                }
                Ok(true)
            }
            Err(WorldError::NotAllowed) => Ok(false),
            Err(WorldError::GaveUp(_)) => Err(NoMemory),
        }
    }

    /// The client calls its next line.
    pub fn call(&mut self, alloc: Global, client: ClientId) -> Result<bool, NoMemory> {
        let called = calls_of(self.world.records(), client);
        match line_of(self.world.script(), client, called) {
            Some(line) => self.take(alloc, Actor::Client(client), &Step::Call { line }),
            None => Ok(false),
        }
    }

    /// The client calls this line.
    pub fn call_line(
        &mut self,
        alloc: Global,
        client: ClientId,
        line: u32,
    ) -> Result<bool, NoMemory> {
        self.take(alloc, Actor::Client(client), &Step::Call { line })
    }

    /// A letter is handed over.
    pub fn deliver(&mut self, alloc: Global, letter: SharedLetter) -> Result<bool, NoMemory> {
        let to = letter.get().to;
        self.take(alloc, to, &Step::Deliver { letter })
    }

    /// The server does its next job.
    pub fn work(&mut self, alloc: Global, server: ServerId) -> Result<bool, NoMemory> {
        self.take(alloc, Actor::Server(server), &Step::Work(WorkEnd::Done))
    }

    /// The actor sends again what is not answered.
    pub fn tick(&mut self, alloc: Global, actor: Actor) -> Result<bool, NoMemory> {
        self.take(alloc, actor, &Step::Tick)
    }

    /// The server stops.
    pub fn stop(&mut self, alloc: Global, server: ServerId) -> Result<bool, NoMemory> {
        self.take(alloc, Actor::Server(server), &Step::Stop)
    }

    /// The stopped server gets a blank data device.
    pub fn blank(&mut self, alloc: Global, server: ServerId) -> Result<bool, NoMemory> {
        self.take(alloc, Actor::Server(server), &Step::Blank)
    }

    /// The stopped server boots.
    pub fn boot(&mut self, alloc: Global, server: ServerId) -> Result<bool, NoMemory> {
        self.take(alloc, Actor::Server(server), &Step::Boot(WorkEnd::Done))
    }

    /// The server's device has this plan from now on, or none.
    pub fn arm(
        &mut self,
        alloc: Global,
        server: ServerId,
        which: Which,
        plan: Option<Plan>,
    ) -> Result<bool, NoMemory> {
        self.take(alloc, Actor::Server(server), &Step::Arm { which, plan })
    }

    /// The server is glanced at for this line, in this round of it.
    pub fn show(
        &mut self,
        alloc: Global,
        server: ServerId,
        line: u32,
        round: u32,
    ) -> Result<bool, NoMemory> {
        let glance = Step::Glance { line, round };
        self.take(alloc, Actor::Server(server), &glance)
    }

    /// The operator's open line and its round, where it is a settle.
    pub fn settling(&self) -> Option<(u32, u32)> {
        self.world.settling()
    }

    // Each server is glanced at, where a settle is open.
    fn show_all(&mut self, alloc: Global) -> Result<bool, NoMemory> {
        let Some((line, round)) = self.settling() else {
            return Ok(false);
        };
        for server in 0..self.script().servers {
            self.show(alloc, server, line, round)?;
        }
        Ok(true)
    }

    /// The operator's open line, what it asks for, and of which server.
    pub fn open_order(&self) -> Option<(u32, Order, ServerId)> {
        let line = last_call(self.records(), OPERATOR)?;
        if self.answer(line).is_some() {
            return None;
        }
        let (order, server) = ordered_by(self.script(), line)?;
        Some((line, order, server))
    }

    // The device gets the plan that the operator's open line has for it, unless it has got it since that line was called.
    fn arm_once(
        &mut self,
        alloc: Global,
        server: ServerId,
        which: Which,
        plan: Plan,
    ) -> Result<bool, NoMemory> {
        if was_armed(self.records(), server, which, plan) {
            return Ok(false);
        }
        self.arm(alloc, server, which, Some(plan))
    }

    // One of the server's devices loses its plan, where this is the next step of the operator's line.
    fn disarm_by_line(&mut self, alloc: Global, server: ServerId) -> Result<bool, NoMemory> {
        if !self.by_lines {
            return Ok(false);
        }
        Ok(
            self.arm(alloc, server, Which::Data, None)?
                || self.arm(alloc, server, Which::State, None)?,
        )
    }

    // The server boots: with the plans that its devices have, or, where it keeps to the lines, after both have lost theirs.
    fn start(&mut self, alloc: Global, server: ServerId) -> Result<bool, NoMemory> {
        Ok(self.disarm_by_line(alloc, server)? || self.boot(alloc, server)?)
    }

    /// The server takes the next step that the order gives it, where there is one left. Gives whether there was.
    pub fn follow(
        &mut self,
        alloc: Global,
        order: Order,
        server: ServerId,
    ) -> Result<bool, NoMemory> {
        match order {
            Order::Stop => self.stop(alloc, server),
            Order::Start => self.start(alloc, server),
            Order::Blank => {
                Ok(
                    self.stop(alloc, server)?
                        || self.blank(alloc, server)?
                        || self.start(alloc, server)?,
                )
            }
            Order::Arm { which, plan } => self.arm_once(alloc, server, which, plan),
        }
    }

    /// What the operator's open line asks for is done: its server takes each step that the line gives it and is glanced at; or all
    /// servers are, in a settle's present round. Gives whether it was done only now.
    pub fn obey(&mut self, alloc: Global) -> Result<bool, NoMemory> {
        match self.open_order() {
            None => self.show_all(alloc),
            Some((line, order, server)) => {
                for _ in 0..MOST_STEPS {
                    self.follow(alloc, order, server)?;
                }
                self.show(alloc, server, line, 0)
            }
        }
    }

    // Whether each line up to this phase is answered.
    fn is_answered(&self, phase: u32) -> bool {
        self.script().lines.as_slice().iter().all(|line| line.phase > phase
            || self.answer(line.number).is_some())
    }

    /// Whether each line is answered.
    pub fn is_over(&self) -> bool {
        self.is_answered(u32::MAX)
    }

    /// The next phase begins, where there is one and each line before it is answered. Gives whether it does.
    pub fn go_on(&mut self) -> Result<bool, NoMemory> {
        let next = self.phase.saturating_add(1);
        if next >= self.script().phases || !self.is_answered(self.phase) {
            return Ok(false);
        }
        match self.world.enter(next) {
            Ok(()) => {
                self.phase = next;
                Ok(true)
            }
            Err(_) => Err(NoMemory),
        }
    }

    // Whether each line is answered that was called.
    fn is_idle(&self) -> bool {
        let mut called: usize = 0;
        let mut answered: usize = 0;
        for record in self.records() {
            if is_call(&record.step) {
                called = called.saturating_add(1);
            }
            if record.answer.is_some() {
                answered = answered.saturating_add(1);
            }
        }
        called == answered
    }

    /// All servers, and all clients but the operator.
    pub fn actors(&self, alloc: Global) -> Result<Vec<Actor>, NoMemory> {
        let mut actors = Vec::new(alloc);
        for server in 0..self.script().servers {
            actors.push(Actor::Server(server))?;
        }
        for client in 0..OPERATOR {
            actors.push(Actor::Client(client))?;
        }
        Ok(actors)
    }

    /// Whether each line is answered that was called, and those of these that run are at one revision.
    pub fn agrees(&self, actors: &[Actor]) -> bool {
        let mut agreed = None;
        for actor in actors {
            match (agreed, self.world.rev(*actor)) {
                (_, None) => {}
                (None, Some(own)) => agreed = Some(own),
                (Some(rev), Some(own)) if rev == own => {}
                (Some(_), Some(_)) => return false,
            }
        }
        self.is_idle()
    }

    /// The script.
    pub fn script(&self) -> &Script {
        self.world.script()
    }

    /// The records so far.
    pub fn records(&self) -> &[Record] {
        self.world.records()
    }

    /// How many jobs and boots ended since a device failed.
    pub fn failed(&self) -> usize {
        self.records()
            .iter()
            .filter(|record| has_failed(&record.step))
            .count()
    }

    /// How many jobs ended since a plan stopped the server.
    pub fn stopped(&self) -> usize {
        self.records()
            .iter()
            .filter(|record| has_stopped(&record.step))
            .count()
    }

    /// How many of all these had made their commit.
    pub fn committed(&self) -> usize {
        self.records()
            .iter()
            .filter(|record| has_committed(&record.step))
            .count()
    }

    /// The answer of a line.
    pub fn answer(&self, line: u32) -> Option<&Answer> {
        answer_in(self.world.records(), line)
    }

    /// What the plain machine is told so far, where the servers can be looked into.
    pub fn events<S: Stores>(
        &self,
        alloc: Global,
        stores: &S,
        looks: Looks,
    ) -> Result<Vec<Told>, NoMemory> {
        told_of(
            alloc,
            stores,
            looks,
            self.world.script(),
            self.world.records(),
        )
    }

    /// The first record whose events the plain machine refuses, counted from 1.
    pub fn first_refused<S: Stores>(
        &self,
        alloc: Global,
        stores: &S,
        looks: Looks,
    ) -> Result<Option<usize>, NoMemory> {
        let told = self.events(alloc, stores, looks)?;
        let mut machine = Machine::new(alloc)?;
        first_refused_by(alloc, &mut machine, told)
    }
}

/// Whether the machine takes the event.
fn is_taken(alloc: Global, machine: &mut Machine, event: Option<Event>) -> Result<bool, NoMemory> {
    let Some(event) = event else {
        return Ok(false);
    };
    match machine.apply(alloc, event) {
        Ok(()) => Ok(true),
        Err(EventError::NotAllowed) => Ok(false),
        Err(EventError::NoMemory) => Err(NoMemory),
    }
}

fn first_refused_by(
    alloc: Global,
    machine: &mut Machine,
    told: Vec<Told>,
) -> Result<Option<usize>, NoMemory> {
    for Told { step, event } in told {
        if !is_taken(alloc, machine, event)? {
            return Ok(Some(step));
        }
    }
    Ok(None)
}

/// How many lines the client has called.
fn calls_of(records: &[Record], client: ClientId) -> usize {
    records
        .iter()
        .filter(|record| record.actor == Actor::Client(client) && is_call(&record.step))
        .count()
}

/// Whether a device failed in the job or the boot.
fn has_failed(step: &Step) -> bool {
    match step {
        Step::Work(WorkEnd::Fault(_)) | Step::Boot(WorkEnd::Fault(_)) => true,
        _ => false,
    }
}

/// Whether a plan stopped the server in the job.
fn has_stopped(step: &Step) -> bool {
    match step {
        Step::StopIn(_) => true,
        _ => false,
    }
}

/// Whether the job or the boot had made its commit when a device failed in it, or a plan stopped the server.
fn has_committed(step: &Step) -> bool {
    match step {
        Step::Work(WorkEnd::Fault(CommitEnd::After))
        | Step::Boot(WorkEnd::Fault(CommitEnd::After))
        | Step::StopIn(CommitEnd::After) => true,
        _ => false,
    }
}

fn is_call(step: &Step) -> bool {
    match step {
        Step::Call { line: _ } => true,
        Step::Deliver { letter: _ }
        | Step::Tick
        | Step::Work(_)
        | Step::StopIn(_)
        | Step::Stop
        | Step::Blank
        | Step::Boot(_)
        | Step::Arm { which: _, plan: _ }
        | Step::Glance { line: _, round: _ } => false,
    }
}

/// The last line that the client has called.
fn last_call(records: &[Record], client: ClientId) -> Option<u32> {
    let mut last = None;
    for record in records {
        if let (Actor::Client(own), Step::Call { line }) = (record.actor, &record.step) {
            if own == client {
                last = Some(*line);
            }
        }
    }
    last
}

/// Whether the server's device has got this plan since the operator's last call.
fn was_armed(records: &[Record], server: ServerId, device: Which, wanted: Plan) -> bool {
    for record in records.iter().rev() {
        match (record.actor, &record.step) {
            (Actor::Client(client), Step::Call { line: _ }) if client == OPERATOR => return false,
            (
                Actor::Server(own),
                Step::Arm {
                    which,
                    plan: Some(plan),
                },
            ) if own == server && *which == device && *plan == wanted => return true,
            _ => {}
        }
    }
    false
}

/// What the line asks for, and of which server.
fn ordered_by(script: &Script, number: u32) -> Option<(Order, ServerId)> {
    for line in script.lines.as_slice() {
        if line.number == number {
            return order_of(&line.request);
        }
    }
    None
}

/// The number of the client's line of this rank, from 0.
fn line_of(script: &Script, client: ClientId, rank: usize) -> Option<u32> {
    script
        .lines
        .as_slice()
        .iter()
        .filter(|line| line.client == client)
        .nth(rank)
        .map(|line| line.number)
}

fn answer_in(records: &[Record], line: u32) -> Option<&Answer> {
    for record in records {
        if let Some((answered, answer)) = &record.answer {
            if *answered == line {
                return Some(answer);
            }
        }
    }
    None
}
