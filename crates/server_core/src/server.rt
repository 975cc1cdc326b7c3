//! A server.

ghost use Rattle.std.specs.Prelude.{◌≡◌, ◌++◌, ◌∷◌, ◌↔◌, List, [], true, false, length, if◌then◌else◌, IsTrue, IfOk, OnOk, OnErr};
ghost use Rattle.kept_chains.specs.Kept.{store_of};
ghost use Rattle.kept_chains.specs.Reading.{IsReadFault};
ghost use Rattle.server_log.specs.Part.{new_part, state_of};
ghost use Rattle.pair_memory.specs.JobResult.{HoldsAt};
ghost use Rattle.pair_memory.specs.PairMemory.{new_side};
ghost use Rattle.petal_disk.specs.Keeping.{KeepsDevice};
ghost use Rattle.spec_paxos.specs.declared.record.StateRecord.{StateRecord};
ghost use Rattle.spec_rules.specs.Jobs as jobs;
ghost use Rattle.spec_rules.specs.Store as stores;
ghost use Rattle.spec_rules.specs.declared.job.Job.TheVariants as job;
ghost use Rattle.server_core.specs.ServerView.{acted, here_in, is_spent, server_of};

use crate::parts::ServerMemory;
use crate::ticks::{move_on, tick_jobs, tick_letters};
use global_state::GlobalState;
use petal_base::{Inc, NoMemory, OPERATOR, Rev, Sequence, ServerId};
use petal_command::ServerNumber;
use petal_disk::{DeviceError, Disk};
use petal_msg::{Actor, Body, Letter, SharedLetter};
use server_log::{Envelope, LogSide, ServerCount, farewell};
use server_store::Store;
use spec_rules::Job;
use std::alloc::Global;
use std::marker::Model;

/// What a server has in memory, and whether it runs. Contracts see its part of the agreed log, its side of its pairs, and its
/// queue. Nothing reads what a stopped server has in memory.
#[derive(Drop)]
pub struct ServerCore {
    pub(crate) parts: ServerMemory,
    pub(crate) farewell: Sequence<Letter>,
}

impl Model for ServerCore {
    ghost use Rattle.std.specs.Prelude.{◌≡◌, true};
    ghost use Rattle.server_core.specs.Farewell.{farewell_of};
    ghost use Rattle.server_core.specs.ServerView.{ServerView};

    ghost Value = { ServerView };

    ghost view = { λ c. c.parts };

    ghost invariant = { λ c. c.parts.running ≡ true → c.farewell ≡ farewell_of c.parts.log.voter };
}

impl ServerCore {
    /// The first incarnation of one of so many servers, which has applied nothing and has nothing pending. Its last letters are
    /// made now, so that it can stop without memory.
    ///
    /// # Errors
    /// Out of memory.
    pub fn start(
        alloc: Global,
        me: ServerNumber,
        servers: ServerCount,
    ) -> Result<ServerCore, NoMemory>
        ensures { IfOk result (λ core. core
            ≡ record { running = true; log = new_part (record { me = me; inc = 1; servers = servers }); side = new_side; queue = [] }) }
    {
        let farewell = farewell(alloc, me, 1, servers.get())?;
        let log = LogSide::start(alloc, me, 1, servers)?;
        Ok(ServerCore {
            parts: ServerMemory::new(alloc, log),
            farewell,
        })
    }

    /// Whether it runs.
    pub fn is_running(&self) -> bool
        ensures { result ≡ self.now.running }
    {
        self.parts.running
    }

    /// A running server stops: its jobs are gone, and the letters tell the others. It takes no memory.
    pub fn stop(&mut self, alloc: Global) -> Sequence<Letter>
        requires { self.old.running ≡ true }
        ensures step { (store : stores.Store) (records : List StateRecord)
            → acted self.new store records result ≡ jobs.stops (here_in self.old) (server_of self.old store records) }
        ensures rest { self.new ≡ record self.old { running = false; queue = [] } }
    {
        self.parts.halt(alloc);
        std::mem::replace(&mut self.farewell, Sequence::new(alloc))
    }

    /// What a glance of the operator shows, for this line and this round of it. The letter has the stamp 0.
    ///
    /// # Errors
    /// Out of memory.
    pub fn glance(&self, alloc: Global, line: u32, round: u32) -> Result<Sequence<Letter>, NoMemory>
        ensures { IfOk result (λ letters. (store : stores.Store) (records : List StateRecord)
            → acted self.now store records letters ≡ jobs.glances (here_in self.now) line round (server_of self.now store records)) }
    {
        let envelope = if self.parts.running {
            self.parts.log.envelope()
        } else {
            Envelope::new(self.parts.log.me(), 0, 0)
        };
        let body = Body::Seen {
            line,
            round,
            running: self.parts.running,
            inc: if self.parts.running {
                self.parts.log.inc()
            } else {
                0
            },
            full: if self.parts.running {
                self.parts.side.copies.is_full()
            } else {
                false
            },
        };
        Sequence::one(alloc, envelope.letter(Actor::Client(OPERATOR), 0, body))
    }

    /// Its number.
    pub fn me(&self) -> ServerId
        ensures { result ≡ self.now.log.voter.me }
    {
        self.parts.log.me()
    }

    /// Its incarnation.
    pub fn inc(&self) -> Inc
        ensures { result ≡ self.now.log.voter.inc }
    {
        self.parts.log.inc()
    }

    /// How many servers there are.
    pub(crate) fn servers(&self) -> ServerCount
        ensures { result ≡ self.now.log.voter.servers }
    {
        self.parts.log.servers()
    }

    /// The global state, as the entries that it has applied make it.
    pub fn state(&self) -> &GlobalState
        ensures { result.now ≡ state_of self.now.log }
    {
        self.parts.log.state()
    }

    /// How many entries of the agreed log it has applied.
    pub fn rev(&self) -> Rev
        ensures state { result ≡ (state_of self.now.log).rev }
        ensures entries { result ≡ length self.now.log.applied }
    {
        self.parts.log.rev()
    }

    /// Whether no job waits.
    pub fn is_idle(&self) -> bool
        ensures { IsTrue result ↔ (self.now.queue ≡ []) }
    {
        self.parts.queue.is_empty()
    }

    /// A letter comes: it joins the queue, where the server runs.
    pub fn deliver(&mut self, letter: SharedLetter) -> Result<(), NoMemory>
        ensures ok { OnOk result (self.new ≡ (if self.old.running then record self.old { queue = self.old.queue ++ job.Letter letter ∷ [] } else self.old)) }
        ensures err { OnErr result (self.new ≡ self.old) }
    {
        if self.parts.running {
            self.parts.queue.push_back(Job::Letter(letter))?;
        }
        Ok(())
    }

    /// A tick: each letter of a ballot, of a pending operation or of a copy that is not yet answered goes out again, another server
    /// is asked what follows, an idle proposer is to start a ballot where a command is wanted, links of which something waits are to
    /// be mended, and what is left of cells that are live no longer is to be dropped. The next entry of each link that the server is
    /// to move goes out. The letters have the stamp 0. Of the store nothing changes; the entries that are sent are read.
    ///
    /// # Errors
    /// `Failed` where the data device failed, and out of memory. The server is as it was.
    pub fn tick<D: Disk>(
        &mut self,
        alloc: Global,
        store: &mut Store<D>,
    ) -> Result<Sequence<Letter>, DeviceError>
        ensures ok { IfOk result (λ letters. D.observable → (records : List StateRecord) → acted self.new (store_of store.new) records letters
            ≡ jobs.ticks (here_in self.old) (server_of self.old (store_of store.old) records)) }
        ensures life { (self.new.running ≡ self.old.running) × (self.new.log.voter ≡ self.old.log.voter) × (self.new.side ≡ self.old.side) }
        ensures err { OnErr result (self.new ≡ self.old) }
        ensures same { store.new ≡ record store.old { disk = store.new.disk } }
        ensures device { KeepsDevice D.size D.seen D.may_leave D.moment D.left_since store.old.disk store.new.disk }
        ensures holds { D.observable → HoldsAt D.Disk store.old → HoldsAt D.Disk store.new }
        ensures cause { IsReadFault (D.faults store.old.disk) (D.faults store.new.disk) result }
        ensures run { D.came_to store.old.disk store.new.disk }
    {
        let letters = tick_letters(alloc, &self.parts, store)?;
        let jobs = tick_jobs(alloc, &self.parts, store)?;
        move_on(&mut self.parts, jobs)?;
        Ok(letters)
    }

    /// Whether a number of the server is the greatest of its type, so that a job could not count on.
    pub fn spent<D: Disk>(&self, store: &Store<D>) -> bool
        ensures { result ≡ is_spent self.now (store_of store.now) }
    {
        self.parts.spent(store)
    }
}
