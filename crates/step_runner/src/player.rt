//! A run that a case steps.

use crate::held::{FirstHosts, is_held};
use crate::wants::is_so;
use oracle_events::{Looks, Stores, made, tells};
use petal_base::{NoMemory, ServerId};
use petal_msg::{Actor, SharedLetter};
use petal_world::Host;
use std::alloc::Global;
use step_language::{Act, Mail, changed, owners_of, renamed};
use world_probe::{Run, play};

/// A run, and for each letter that was sent whether it is gone: handed over or lost.
#[derive(Drop)]
pub struct Player<H: Host> {
    run: Run<H>,
    gone: Vec<bool>,
    looks: Looks,
    // How many ticks were passed on one after the other.
    turns: u32,
}

/// Those who don't agree after so many rounds are taken to hang.
const MOST_ROUNDS: u32 = 400;

/// In every such round one server ticks, and all clients: servers that tick together can outbid one another for ever.
const TICK_EVERY: u32 = 8;

/// A server with so many jobs is taken to hang.
const MOST_JOBS: u32 = 10_000;

impl<H: Host> Player<H> {
    /// The player of a run that begins.
    pub fn new(alloc: Global, run: Run<H>) -> Player<H> {
        Player {
            run,
            gone: Vec::new(alloc),
            looks: Looks::AtStops,
            turns: 0,
        }
    }

    fn is_gone(&self, at: usize) -> bool {
        match self.gone.get(at) {
            Some(gone) => *gone,
            None => false,
        }
    }

    // The letter is gone from now on.
    fn remove(&mut self, at: usize) -> Result<(), NoMemory> {
        for _ in self.gone.len()..at.saturating_add(1) {
            self.gone.push(false)?;
        }
        if let Some(gone) = self.gone.get_mut(at) {
            *gone = true;
        }
        Ok(())
    }

    // Where the first of these letters stands that is not gone.
    fn first(&self, mail: &Mail) -> Option<usize> {
        for (at, letter) in self.run.sent.iter().enumerate() {
            if mail.has(letter.get()) && !self.is_gone(at) {
                return Some(at);
            }
        }
        None
    }

    // Where the last of these letters stands that is gone.
    fn last(&self, mail: &Mail) -> Option<usize> {
        let mut found = None;
        for (at, letter) in self.run.sent.iter().enumerate() {
            if mail.has(letter.get()) && self.is_gone(at) {
                found = Some(at);
            }
        }
        found
    }

    // A letter that was sent.
    fn letter(&self, at: Option<usize>) -> Result<Option<SharedLetter>, NoMemory> {
        match at {
            None => Ok(None),
            Some(at) => match self.run.sent.get(at) {
                None => Ok(None),
                Some(letter) => Ok(Some(letter.share()?)),
            },
        }
    }

    fn deliver(&mut self, alloc: Global, letter: Option<SharedLetter>) -> Result<bool, NoMemory> {
        match letter {
            None => Ok(false),
            Some(letter) => self.run.deliver(alloc, letter),
        }
    }

    fn lose(&mut self, mail: &Mail) -> Result<bool, NoMemory> {
        match self.first(mail) {
            None => Ok(false),
            Some(at) => {
                self.remove(at)?;
                Ok(true)
            }
        }
    }

    fn hand_over(&mut self, alloc: Global, mail: &Mail) -> Result<bool, NoMemory> {
        let letter = self.letter(self.first(mail))?;
        Ok(self.lose(mail)? && self.deliver(alloc, letter)?)
    }

    fn hand_again(&mut self, alloc: Global, mail: &Mail) -> Result<bool, NoMemory> {
        let letter = self.letter(self.last(mail))?;
        self.deliver(alloc, letter)
    }

    fn hand_renamed(&mut self, alloc: Global, mail: &Mail) -> Result<bool, NoMemory> {
        match self.letter(self.first(mail))? {
            None => Ok(false),
            Some(letter) => self.run.deliver(alloc, renamed(alloc, &letter)?),
        }
    }

    fn hand_changed(&mut self, alloc: Global, mail: &Mail) -> Result<bool, NoMemory> {
        match self.letter(self.first(mail))? {
            None => Ok(false),
            Some(letter) => self.run.deliver(alloc, changed(alloc, &letter)?),
        }
    }

    // The server works until its queue is empty. Gives whether it had a job.
    fn work_off(&mut self, alloc: Global, server: ServerId) -> Result<bool, NoMemory> {
        for jobs in 0..MOST_JOBS {
            if !self.run.work(alloc, server)? {
                return Ok(0 < jobs);
            }
        }
        Ok(false)
    }

    // Whether a letter to one of these is on its way there.
    fn waits_for(&self, at: usize, actors: &[Actor]) -> bool {
        match self.run.sent.get(at) {
            Some(letter) => actors.contains(&letter.get().to) && !self.is_gone(at),
            None => false,
        }
    }

    // Each letter to one of these that is on its way is handed over.
    fn hand_all(&mut self, alloc: Global, actors: &[Actor]) -> Result<(), NoMemory> {
        for at in 0..self.run.sent.len() {
            if self.waits_for(at, actors) {
                self.remove(at)?;
                let letter = self.letter(Some(at))?;
                self.deliver(alloc, letter)?;
            }
        }
        Ok(())
    }

    fn work_all(&mut self, alloc: Global, actors: &[Actor]) -> Result<(), NoMemory> {
        for actor in actors {
            if let Actor::Server(server) = actor {
                self.work_off(alloc, *server)?;
            }
        }
        Ok(())
    }

    // A tick comes to the clients, and to the server whose turn it is.
    fn tick_some(&mut self, alloc: Global, actors: &[Actor], turn: u32) -> Result<(), NoMemory> {
        let servers = u32::from(self.run.script().servers);
        for actor in actors {
            match actor {
                Actor::Server(server) if servers == 0 || turn % servers != u32::from(*server) => {}
                _ => {
                    self.run.tick(alloc, *actor)?;
                }
            }
        }
        Ok(())
    }

    // All letters are gone.
    fn lose_all(&mut self) -> Result<(), NoMemory> {
        for at in 0..self.run.sent.len() {
            self.remove(at)?;
        }
        Ok(())
    }

    // Rounds in which all but one get their letters and work, and in some of which they tick, until each line that was called is
    // answered and they are at one revision. What is then still on its way is lost. Gives whether it came to that.
    fn agree(&mut self, alloc: Global, without: Option<Actor>) -> Result<bool, NoMemory> {
        let mut actors = self.run.actors(alloc)?;
        actors.retain(|actor| Some(*actor) != without);
        for round in 0..MOST_ROUNDS {
            self.hand_all(alloc, &actors)?;
            self.work_all(alloc, &actors)?;
            if self.run.agrees(&actors) {
                self.lose_all()?;
                return Ok(true);
            }
            if round % TICK_EVERY == 0 {
                self.tick_some(alloc, &actors, round / TICK_EVERY)?;
            }
        }
        Ok(false)
    }

    // A server with a job does it. Gives whether there is one.
    fn work_one(&mut self, alloc: Global) -> Result<bool, NoMemory> {
        for server in 0..self.run.script().servers {
            if self.run.work(alloc, server)? {
                return Ok(true);
            }
        }
        Ok(false)
    }

    // The oldest letter is handed over that is on its way and is not refused. Gives whether there is one.
    fn hand_one(&mut self, alloc: Global) -> Result<bool, NoMemory> {
        for at in 0..self.run.sent.len() {
            if self.is_gone(at) {
                continue;
            }
            self.remove(at)?;
            let letter = self.letter(Some(at))?;
            if self.deliver(alloc, letter)? {
                return Ok(true);
            }
        }
        Ok(false)
    }

    // The next in turn ticks, of all servers and all clients but the operator. Gives whether there is one that may.
    fn tick_one(&mut self, alloc: Global) -> Result<bool, NoMemory> {
        let actors = self.run.actors(alloc)?;
        for _ in 0..actors.len() {
            let at = self.turns as usize % actors.len();
            self.turns = self.turns.wrapping_add(1);
            if self.run.tick(alloc, actors[at])? {
                return Ok(true);
            }
        }
        Ok(false)
    }

    // So many steps, one after the other: of the first server that has a job; or else the oldest letter is handed over; or else the
    // next in turn ticks. Gives whether it came to that.
    fn go_on(&mut self, alloc: Global, steps: u32) -> Result<bool, NoMemory> {
        for _ in 0..steps {
            let taken = self.work_one(alloc)? || self.hand_one(alloc)? || self.tick_one(alloc)?;
            if !taken {
                return Ok(false);
            }
        }
        Ok(true)
    }

    fn made<S: Stores>(&self, alloc: Global, stores: &S) -> Result<usize, NoMemory> {
        let told = self.run.events(alloc, stores, self.looks)?;
        Ok(made(&told))
    }

    // How many of these letters were sent.
    fn count(&self, mail: &Mail) -> usize {
        self.run
            .sent
            .iter()
            .filter(|letter| mail.has(letter.get()))
            .count()
    }

    // How many owners the block has that the last of these letters brings.
    fn owners(&self, mail: &Mail) -> usize {
        let mut owners = 0;
        for letter in &self.run.sent {
            if mail.has(letter.get()) {
                owners = owners_of(&letter.get().body);
            }
        }
        owners
    }

    fn tells<S: Stores>(
        &self,
        alloc: Global,
        stores: &S,
        words: &[&str],
    ) -> Result<bool, NoMemory> {
        let told = self.run.events(alloc, stores, self.looks)?;
        Ok(tells(&told, words))
    }

    fn keep_to_lines(&mut self) -> bool {
        self.run.keep_to_lines();
        true
    }

    fn tell_by_puts(&mut self) -> bool {
        self.looks = Looks::AfterJobs;
        true
    }

    /// Takes a step, or looks whether what is expected is so. Gives whether it was taken, or is so.
    pub fn take<C: FirstHosts<H> + Stores>(
        &mut self,
        alloc: Global,
        hosts: &C,
        act: &Act,
    ) -> Result<bool, NoMemory> {
        match act {
            Act::Call(client, line) => self.run.call_line(alloc, *client, *line),
            Act::Work(server) => self.run.work(alloc, *server),
            Act::WorkOff(server) => self.work_off(alloc, *server),
            Act::Tick(actor) => self.run.tick(alloc, *actor),
            Act::Stop(server) => self.run.stop(alloc, *server),
            Act::Blank(server) => self.run.blank(alloc, *server),
            Act::Boot(server) => self.run.boot(alloc, *server),
            Act::Arm(server, which, plan) => self.run.arm(alloc, *server, *which, *plan),
            Act::Show(server, line, round) => self.run.show(alloc, *server, *line, *round),
            Act::Hand(mail) => self.hand_over(alloc, mail),
            Act::Lose(mail) => self.lose(mail),
            Act::Again(mail) => self.hand_again(alloc, mail),
            Act::Renamed(mail) => self.hand_renamed(alloc, mail),
            Act::Changed(mail) => self.hand_changed(alloc, mail),
            Act::Wait => self.run.go_on(),
            Act::ByLines => Ok(self.keep_to_lines()),
            Act::ByPuts => Ok(self.tell_by_puts()),
            Act::PlayOut => play(alloc, &mut self.run),
            Act::GoOn(steps) => self.go_on(alloc, *steps),
            Act::Agree(without) => self.agree(alloc, *without),
            Act::Made(count) => Ok(self.made(alloc, hosts)? == *count as usize),
            Act::Failed(count) => Ok(self.run.failed() == *count as usize),
            Act::Stopped(count) => Ok(self.run.stopped() == *count as usize),
            Act::Committed(count) => Ok(self.run.committed() == *count as usize),
            Act::Line(line, want) => Ok(is_so(&self.run, *line, want)),
            Act::Sent(count, mail) => Ok(self.count(mail) >= *count as usize),
            Act::Owners(count, mail) => Ok(self.owners(mail) >= *count as usize),
            Act::Told(words) => self.tells(alloc, hosts, words),
            Act::Holds(server, held) => is_held(alloc, hosts, &self.run, *server, held),
        }
    }

    /// The first record whose events the plain machine refuses.
    pub fn first_refused<S: Stores>(
        &self,
        alloc: Global,
        stores: &S,
    ) -> Result<Option<usize>, NoMemory> {
        self.run.first_refused(alloc, stores, self.looks)
    }
}
