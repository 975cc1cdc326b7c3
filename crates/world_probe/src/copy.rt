//! The copy, and what it says.

use petal_base::{Inc, NoMemory, ServerId};
use petal_disk::Which;
use petal_msg::{Actor, Body, Letter, SharedLetter};
use petal_world::{Host, Record, Step, WorkEnd};
use std::alloc::Global;

/// With so many jobs the copy is taken to hang.
const MOST_JOBS: u32 = 10_000;

/// A copy of a server.
#[derive(Drop)]
pub struct Copy<H: Host> {
    pub host: H,
    pub me: ServerId,
    pub servers: u8,
    // no other server has a later incarnation than this
    pub boots: Inc,
}

/// How many servers booted, or tried to, and one more.
fn boots_in(records: &[Record]) -> Inc {
    let mut boots: Inc = 1;
    for record in records {
        if let Step::Boot(_) = &record.step {
            boots = boots.saturating_add(1);
        }
    }
    boots
}

impl<H: Host> Copy<H> {
    // It takes the step.
    fn take(&mut self, alloc: Global, step: &Step) -> Result<(), NoMemory> {
        match self.host.step(alloc, step) {
            Ok(_) => Ok(()),
            Err(_) => Err(NoMemory),
        }
    }

    // It stops, where it runs, and boots.
    fn reboot(&mut self, alloc: Global) -> Result<(), NoMemory> {
        if self.host.is_running() {
            self.take(alloc, &Step::Stop)?;
        }
        self.take(alloc, &Step::Boot(WorkEnd::Done))
    }

    // No call of its devices fails from now on.
    fn disarm(&mut self, alloc: Global) -> Result<(), NoMemory> {
        for which in [Which::Data, Which::State] {
            self.take(alloc, &Step::Arm { which, plan: None })?;
        }
        Ok(())
    }

    /// The copy of a server that has taken its steps of these records, of one that begins. It has booted twice since, so that there is an
    /// incarnation before its own that nobody knows of.
    pub fn new(
        alloc: Global,
        host: H,
        me: ServerId,
        servers: u8,
        records: &[Record],
    ) -> Result<Copy<H>, NoMemory> {
        let mut copy = Copy {
            host,
            me,
            servers,
            boots: boots_in(records),
        };
        for record in records {
            if record.actor == Actor::Server(me) {
                copy.take(alloc, &record.step)?;
            }
        }
        copy.disarm(alloc)?;
        copy.reboot(alloc)?;
        copy.reboot(alloc)?;
        Ok(copy)
    }

    // It does a job. Gives what its letters say.
    fn work(&mut self, alloc: Global, said: &mut Vec<Body>) -> Result<(), NoMemory> {
        let Ok(taken) = self.host.step(alloc, &Step::Work(WorkEnd::Done)) else {
            return Err(NoMemory);
        };
        for letter in taken.letters.into_vec() {
            said.push(letter.body)?;
        }
        Ok(())
    }

    /// It is handed a letter that says this, from an actor of this incarnation, at its own revision, and does all its jobs. Gives what
    /// its letters say.
    pub fn hear(
        &mut self,
        alloc: Global,
        from: Actor,
        inc: Inc,
        body: Body,
    ) -> Result<Vec<Body>, NoMemory> {
        let letter = Letter {
            from,
            inc,
            to: Actor::Server(self.me),
            rev: self.host.rev(),
            stamp: 0,
            nth: 0,
            body,
        };
        let letter = SharedLetter::new(alloc, letter)?;
        self.take(alloc, &Step::Deliver { letter })?;
        let mut said = Vec::new(alloc);
        for _ in 0..MOST_JOBS {
            if self.host.is_idle() {
                break;
            }
            self.work(alloc, &mut said)?;
        }
        Ok(said)
    }
}
