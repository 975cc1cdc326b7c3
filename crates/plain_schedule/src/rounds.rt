//! Rounds of all clients and servers.

ghost use Rattle.std.specs.Prelude.{◌≡◌, [], All, false, map, IfOk};
ghost use Rattle.spec_rules.specs.Plans.{unarmed};
ghost use Rattle.plain_schedule.specs.Going.{WentOn};
ghost use Rattle.server_host.specs.Desks.{first_sites};
ghost use Rattle.server_host.specs.Playable.{AreNumbered, AreOrdered};

use crate::client_plan::PlannedLine;
use crate::mailboxes::Handing;
use crate::schedule_state::ScheduleState;
use client_core::Order;
use petal_base::{CLIENTS, ClientId, NoMemory, OPERATOR, Sequence, ServerId};
use petal_msg::{Actor, Body, Letter, SharedLetter};
use petal_world::{GaveUp, Host, Step, StepResult, WorkEnd, World, WorldError};
use script_lines::{Answer, Plan, Script, Which};
use std::alloc::Global;
use std::sync::Wait;

/// So many ticks, or one or two more, are passed on at once after a loss.
const AT_ONCE: u32 = 4;

/// For so many rounds they come to one client and one server.
const SPAN: u32 = 8;

/// For so many rounds after a boot the phase goes on, unless a settle is answered `ok` before: mostly the servers agree within them
/// that the server is back, so that lines of the next phase find it so.
const AFTER_BOOT: u32 = 128;

/// A world in the middle of a run: what is kept of its actors, the phase, how many of its lines have no answer yet, for how many
/// rounds it goes on at least, and whether it has only begun.
#[derive(Drop)]
pub struct Rounds<H: Host> {
    pub world: World<H>,
    servers: u8,
    notes: ScheduleState,
    phase: u32,
    left: usize,
    rounds_left: u32,
    // Whether no round of the phase has been gone through.
    is_new: bool,
    count: u32,
    // Whether a letter was lost in the round before.
    after_loss: bool,
}

/// Whether a client that hears this sends its request again.
fn is_refusal(body: &Body) -> bool {
    match body {
        Body::BlockBusy { .. } | Body::Held { .. } | Body::WrongRev { .. } => true,
        _ => false,
    }
}

/// Whether a server that hears this goes on with the pages, with a copy or with what is to be moved. A copy that is only trimmed may
/// find no slot: were that counted, it would begin again at once for ever, and its block would never be free for a read.
fn is_of_copy(body: &Body) -> bool {
    match body {
        Body::Hello { .. } | Body::Synced { .. } | Body::Filled { .. } => true,
        _ => false,
    }
}

impl<H: Host> Rounds<H> {
    /// No step was taken, and no phase has begun.
    pub fn new(alloc: Global, script: Script, hosts: Sequence<H>) -> Result<Rounds<H>, NoMemory>
        requires numbered { AreNumbered script.lines }
        requires ordered { AreOrdered script.lines }
        requires hosts { map H.seen hosts ≡ first_sites script }
        requires unarmed { All (λ host. H.armed host ≡ unarmed) hosts }
        ensures free { IfOk result (λ rounds. rounds.world.free ≡ false) }
        ensures script { IfOk result (λ rounds. rounds.world.script ≡ script) }
        ensures records { IfOk result (λ rounds. rounds.world.records ≡ []) }
    {
        let servers = script.servers;
        let notes = ScheduleState::new(alloc, &script)?;
        Ok(Rounds {
            world: World::start(alloc, script, hosts)?,
            servers,
            notes,
            phase: 0,
            left: 0,
            rounds_left: 0,
            is_new: false,
            count: 0,
            after_loss: false,
        })
    }

    fn place_of(&self, actor: Actor) -> usize {
        match actor {
            Actor::Server(server) => server as usize,
            Actor::Client(client) => self.servers as usize + client as usize,
        }
    }

    // A client has a second box, for the letters at which it sends its request again.
    fn second_place(&self, client: ClientId) -> usize {
        self.servers as usize + CLIENTS as usize + client as usize
    }

    fn place_for(&self, letter: &Letter) -> usize {
        match letter.to {
            Actor::Client(client) if is_refusal(&letter.body) => self.second_place(client),
            actor => self.place_of(actor),
        }
    }

    fn post_all(&mut self, letters: &[SharedLetter]) -> Result<(), NoMemory>
        ensures { self.new.world ≡ self.old.world }
    {
        for letter in letters {
            let place = self.place_for(letter.get());
            self.notes.post.send(place, letter.share()?)?;
        }
        Ok(())
    }

    // A line of the phase was answered to the client that called it. What is settled need not be waited for.
    fn note_answer(&mut self, actor: Actor, answer: &Answer)
        ensures { self.new.world ≡ self.old.world }
    {
        self.left = self.left.saturating_sub(1);
        let settles = match actor {
            Actor::Client(client) => match self.notes.callers.get_mut(client as usize) {
                Some(caller) => caller.answered(),
                None => false,
            },
            Actor::Server(_) => false,
        };
        match answer {
            Answer::Ok if settles => self.rounds_left = 0,
            _ => {}
        }
    }

    fn note(&mut self, actor: Actor, stepped: &StepResult) -> Result<(), NoMemory>
        ensures { self.new.world ≡ self.old.world }
    {
        if let Some((_, answer)) = &stepped.answer {
            self.note_answer(actor, answer);
        }
        self.post_all(stepped.letters.as_slice())
    }

    // Takes a step. Gives how many letters it sent, and None where it is not one of the world's.
    fn take(&mut self, alloc: Global, actor: Actor, step: &Step) -> Result<Option<usize>, GaveUp>
        ensures { WentOn self.old.world self.new.world }
    {
        match self.world.step(alloc, actor, step) {
            Ok(stepped) => {
                self.note(actor, &stepped)?;
                Ok(Some(stepped.letters.len()))
            }
            Err(WorldError::NotAllowed) => Ok(None),
            Err(WorldError::GaveUp(cause)) => Err(cause),
        }
    }

    // Whether a server that hears this gets on: with the Leave of a server that has stopped, or with the command that is proposed
    // to it. After a loss that may be one that is proposed again.
    fn brings_on(&self, body: &Body) -> bool {
        match body {
            Body::Down { .. } => true,
            Body::Propose { .. } => !self.after_loss,
            _ => false,
        }
    }

    fn note_letter(&mut self, actor: Actor, body: &Body)
        ensures { self.new.world ≡ self.old.world }
    {
        let brings_on = self.brings_on(body);
        if let Actor::Server(server) = actor {
            if let Some(patience) = self.notes.patience.get_mut(server as usize) {
                if brings_on {
                    patience.renew();
                } else if is_of_copy(body) {
                    patience.wait_again();
                }
            }
        }
    }

    // Gives whether the actor sent letters of its own.
    fn hand_over(
        &mut self,
        alloc: Global,
        actor: Actor,
        letter: SharedLetter,
    ) -> Result<bool, GaveUp>
        ensures { WentOn self.old.world self.new.world }
    {
        let handing = self.notes.post.next_handing(&letter.get().body);
        if handing == Handing::Lost {
            return Ok(false);
        }
        self.note_letter(actor, &letter.get().body);
        if handing == Handing::Twice {
            let again = letter.share()?;
            self.take(alloc, actor, &Step::Deliver { letter: again })?;
        }
        let sent = self.take(alloc, actor, &Step::Deliver { letter })?;
        Ok(sent.unwrap_or(0) > 0)
    }

    // After a loss a box is emptied from another letter on in each round.
    fn turn_box(&mut self, place: usize) -> Result<(), NoMemory>
        ensures { self.new.world ≡ self.old.world }
    {
        let waiting = self.notes.post.waiting(place);
        if !self.after_loss || waiting == 0 {
            return Ok(());
        }
        self.notes.post.turn(place, self.count as usize % waiting)
    }

    // The actor gets each letter that waits for it.
    fn get_mail(&mut self, alloc: Global, actor: Actor) -> Result<(), GaveUp>
        ensures { WentOn self.old.world self.new.world }
    {
        let place = self.place_of(actor);
        self.turn_box(place)?;
        for _ in 0..self.notes.post.waiting(place) {
            if let Some(letter) = self.notes.post.take(place) {
                self.hand_over(alloc, actor, letter)?;
            }
        }
        Ok(())
    }

    // The client gets the letters of its second box, until one of them has it send its request again. Were all of them handed
    // over, a request that waits for another's end would be sent again in ever more copies, where letters come twice.
    fn get_second_mail(&mut self, alloc: Global, client: ClientId) -> Result<(), GaveUp>
        ensures { WentOn self.old.world self.new.world }
    {
        let place = self.second_place(client);
        for _ in 0..self.notes.post.waiting(place) {
            if let Some(letter) = self.notes.post.take(place) {
                if self.hand_over(alloc, Actor::Client(client), letter)? {
                    break;
                }
            }
        }
        Ok(())
    }

    fn next_call(&self, client: ClientId) -> Option<PlannedLine> {
        self.notes.callers.get(client as usize)?.next(self.phase)
    }

    fn note_call(&mut self, client: ClientId)
        ensures { self.new.world ≡ self.old.world }
    {
        if let Some(caller) = self.notes.callers.get_mut(client as usize) {
            caller.called();
        }
    }

    fn call_next(&mut self, alloc: Global, client: ClientId) -> Result<(), GaveUp>
        ensures { WentOn self.old.world self.new.world }
    {
        if let Some(due) = self.next_call(client) {
            self.note_call(client);
            let line = due.number;
            self.take(alloc, Actor::Client(client), &Step::Call { line })?;
            if let Some((order, server)) = due.order {
                self.obey(alloc, line, order, server)?;
            }
        }
        Ok(())
    }

    // The server takes the steps that the operator's line gives it, and is shown to the operator.
    fn obey(
        &mut self,
        alloc: Global,
        line: u32,
        order: Order,
        server: ServerId,
    ) -> Result<(), GaveUp>
        ensures { WentOn self.old.world self.new.world }
    {
        match order {
            Order::Stop => self.stop(alloc, server)?,
            Order::Start => self.start(alloc, server)?,
            Order::Blank => self.blank(alloc, server)?,
            Order::Arm { which, plan } => self.arm(alloc, server, which, Some(plan))?,
        }
        let glance = Step::Glance { line, round: 0 };
        self.take(alloc, Actor::Server(server), &glance)?;
        Ok(())
    }

    // The server stops, where it runs.
    fn stop(&mut self, alloc: Global, server: ServerId) -> Result<(), GaveUp>
        ensures { WentOn self.old.world self.new.world }
    {
        self.take(alloc, Actor::Server(server), &Step::Stop)?;
        Ok(())
    }

    // One of its devices has this plan from now on, or none.
    fn arm(
        &mut self,
        alloc: Global,
        server: ServerId,
        which: Which,
        plan: Option<Plan>,
    ) -> Result<(), GaveUp>
        ensures { WentOn self.old.world self.new.world }
    {
        self.take(alloc, Actor::Server(server), &Step::Arm { which, plan })?;
        Ok(())
    }

    // Its devices lose their plans, and it boots, where it is stopped.
    fn start(&mut self, alloc: Global, server: ServerId) -> Result<(), GaveUp>
        ensures { WentOn self.old.world self.new.world }
    {
        self.arm(alloc, server, Which::Data, None)?;
        self.arm(alloc, server, Which::State, None)?;
        self.boot(alloc, server)
    }

    // It boots, where it is stopped.
    fn boot(&mut self, alloc: Global, server: ServerId) -> Result<(), GaveUp>
        ensures { WentOn self.old.world self.new.world }
    {
        let boot = Step::Boot(WorkEnd::Done);
        if self.take(alloc, Actor::Server(server), &boot)?.is_some() {
            self.rounds_left = AFTER_BOOT;
        }
        Ok(())
    }

    // It stops, where it runs, and starts with a blank data device.
    fn blank(&mut self, alloc: Global, server: ServerId) -> Result<(), GaveUp>
        ensures { WentOn self.old.world self.new.world }
    {
        self.stop(alloc, server)?;
        self.take(alloc, Actor::Server(server), &Step::Blank)?;
        self.start(alloc, server)
    }

    // How many ticks are passed on at once to one of so many actors. After a loss they come to one after the other, for some rounds
    // each: were they to come to all at once, servers that propose would go on refusing each other's ballots.
    fn at_once(&self, number: u8, count: u8) -> u32 {
        let turn = self.count / SPAN;
        if self.after_loss && count != 0 && turn % u32::from(count) == u32::from(number) {
            AT_ONCE + self.count % 3
        } else {
            0
        }
    }

    // A client with nothing open has nothing to send again. Before its first call of a phase it asks what was chosen.
    fn client_ticks(&mut self, client: ClientId) -> u32
        ensures { self.new.world ≡ self.old.world }
    {
        let at_once = self.at_once(client, CLIENTS);
        let rev = self.world.rev(Actor::Client(client));
        match self.notes.callers.get_mut(client as usize) {
            Some(caller) if caller.is_open() => {
                caller.patience.at_rev(rev);
                caller.patience.ticks(at_once)
            }
            Some(caller) if self.is_new => u32::from(caller.next(self.phase).is_some()),
            _ => 0,
        }
    }

    fn tick(&mut self, alloc: Global, actor: Actor, times: u32) -> Result<(), GaveUp>
        ensures { WentOn self.old.world self.new.world }
    {
        for _ in 0..times {
            self.take(alloc, actor, &Step::Tick)?;
        }
        Ok(())
    }

    fn client_turn(&mut self, alloc: Global, client: ClientId) -> Result<(), GaveUp>
        ensures { WentOn self.old.world self.new.world }
    {
        let actor = Actor::Client(client);
        self.get_mail(alloc, actor)?;
        self.get_second_mail(alloc, client)?;
        let times = self.client_ticks(client);
        self.tick(alloc, actor, times)?;
        if self.is_new {
            return Ok(());
        }
        self.call_next(alloc, client)?;
        if client == OPERATOR {
            self.glance_at_all(alloc)?;
        }
        Ok(())
    }

    // While a settle is open, each server is shown to the operator, in the settle's present round. The operator hears of all of them
    // in its next turn, in which that round ends.
    fn glance_at_all(&mut self, alloc: Global) -> Result<(), GaveUp>
        ensures { WentOn self.old.world self.new.world }
    {
        let Some((line, round)) = self.world.settling() else {
            return Ok(());
        };
        for server in 0..self.servers {
            self.take(alloc, Actor::Server(server), &Step::Glance { line, round })?;
        }
        Ok(())
    }

    fn server_ticks(&mut self, server: ServerId) -> u32
        ensures { self.new.world ≡ self.old.world }
    {
        let at_once = self.at_once(server, self.servers);
        let rev = self.world.rev(Actor::Server(server));
        match self.notes.patience.get_mut(server as usize) {
            Some(patience) => {
                patience.at_rev(rev);
                patience.ticks(at_once)
            }
            None => 0,
        }
    }

    // The server does jobs until none is left.
    fn work_off<R: Wait>(&mut self, rt: &R, alloc: Global, server: ServerId) -> Result<(), GaveUp>
        ensures { WentOn self.old.world self.new.world }
    {
        for _ in rt.forever() {
            let done = self.take(alloc, Actor::Server(server), &Step::Work(WorkEnd::Done))?;
            if done.is_none() {
                break;
            }
        }
        Ok(())
    }

    fn server_turn<R: Wait>(
        &mut self,
        rt: &R,
        alloc: Global,
        server: ServerId,
    ) -> Result<(), GaveUp>
        ensures { WentOn self.old.world self.new.world }
    {
        let actor = Actor::Server(server);
        self.get_mail(alloc, actor)?;
        self.work_off(rt, alloc, server)?;
        let times = self.server_ticks(server);
        self.tick(alloc, actor, times)?;
        self.work_off(rt, alloc, server)
    }

    /// Each client and then each server has its turn, by number. In it an actor gets the letters that were sent to it, ticks are
    /// passed on to it, a client with nothing open calls its next line of the phase, and a server works until its queue is
    /// empty, before the ticks and after them. Where the operator calls a line that names a server, the server's steps
    /// and its glance follow at once; while a settle is open, the operator's turn ends with a glance at each server. A tick is
    /// passed on where the actor has waited for it long enough. In the round after a loss four to six are passed on at once to one
    /// client and one server, and each box is emptied from another letter on than in the round before, so that no loss of every K-th
    /// letter hits the same letters for ever. In the first round of a later phase a client calls nothing, and one that has a line to
    /// call asks what was chosen: so it need not find out by an entry of its own that a disk was made.
    pub fn round<R: Wait>(&mut self, rt: &R, alloc: Global) -> Result<(), GaveUp>
        ensures { WentOn self.old.world self.new.world }
    {
        self.count = self.count.wrapping_add(1);
        self.rounds_left = self.rounds_left.saturating_sub(1);
        self.after_loss = self.notes.post.take_loss();
        for client in 0..CLIENTS {
            self.client_turn(alloc, client)?;
        }
        for server in 0..self.servers {
            self.server_turn(rt, alloc, server)?;
        }
        self.is_new = false;
        Ok(())
    }

    /// A phase begins, which has so many lines.
    pub fn begin(&mut self, phase: u32, lines: usize) -> Result<(), GaveUp>
        ensures script { self.new.world.script ≡ self.old.world.script }
        ensures records { self.new.world.records ≡ self.old.world.records }
        ensures free { self.new.world.free ≡ self.old.world.free }
    {
        self.phase = phase;
        self.left = lines;
        self.is_new = phase > 0;
        self.world.enter(phase)
    }

    /// Whether each line of the phase was answered, and the last boot of a server was long enough ago, or the servers were settled
    /// since.
    pub fn is_through(&self) -> bool {
        self.left == 0 && self.rounds_left == 0
    }
}
