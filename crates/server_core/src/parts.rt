//! What a server has in memory.

ghost use Rattle.std.specs.Prelude.{◌≡◌, ◌++◌, ◌||◌, ◌↔◌, [], true, false, slice_get, IsNone, IfSome, IsSomeAnd, OnOk, OnErr};
ghost use Rattle.server_jobs.specs.Kind.{kind_of};
ghost use Rattle.kept_chains.specs.Kept.{store_of};
ghost use Rattle.pair_memory.specs.PairMemory.{new_side};
ghost use Rattle.server_core.specs.ServerView.{is_spent};

use pair_memory::PairMemory;
use petal_base::NoMemory;
use petal_disk::Disk;
use server_jobs::{Kind, RecentBlocks, add_all, kind_of, make_room};
use server_log::LogSide;
use server_store::Store;
use spec_rules::Job;
use std::alloc::Global;
use std::collections::VecDeque;
use std::marker::Model;

/// What a server has in memory for its jobs, and whether it runs. Contracts see its part of the agreed log, its side of its pairs,
/// and its queue. Nothing reads what a stopped server has in memory.
#[derive(Drop)]
pub struct ServerMemory {
    pub running: bool,
    pub log: LogSide,
    pub side: PairMemory,
    pub queue: VecDeque<Job>,
    pub recent: RecentBlocks,
}

impl Model for ServerMemory {
    ghost use Rattle.server_core.specs.ServerView.{ServerView};

    ghost Value = { ServerView };

    ghost view = { λ p. record { running = p.running; log = p.log; side = p.side; queue = p.queue.items } };
}

fn either(a: bool, b: bool) -> bool
    ensures { result ≡ (a || b) }
{
    a || b
}

// All of its pairs is forgotten.
fn forget(side: &mut PairMemory, alloc: Global)
    ensures { side.new ≡ new_side }
{
    *side = PairMemory::new(alloc);
}

impl ServerMemory {
    /// Those of a server that runs, with this part of the log and nothing pending. It takes no memory.
    pub fn new(alloc: Global, log: LogSide) -> ServerMemory
        ensures { result ≡ record { running = true; log = log; side = new_side; queue = [] } }
    {
        ServerMemory {
            running: true,
            log,
            side: PairMemory::new(alloc),
            queue: VecDeque::new(alloc),
            recent: RecentBlocks::new(alloc),
        }
    }

    /// The server runs again, with this part of the log and nothing pending. It takes no memory.
    pub fn restart(&mut self, alloc: Global, log: LogSide)
        ensures { self.new ≡ record { running = true; log = log; side = new_side; queue = [] } }
    {
        self.running = true;
        self.log = log;
        forget(&mut self.side, alloc);
        self.queue = VecDeque::new(alloc);
        self.recent = RecentBlocks::new(alloc);
    }

    /// The server stops: its jobs are gone. It takes no memory.
    pub fn halt(&mut self, alloc: Global)
        ensures { self.new ≡ record self.old { running = false; queue = [] } }
    {
        self.running = false;
        self.queue = VecDeque::new(alloc);
    }

    /// Which part does the first job; None exactly where no job waits.
    pub fn first_kind(&self) -> Option<Kind>
        ensures none { IsNone result ↔ (self.now.queue ≡ []) }
        ensures some { IfSome result (λ kind. IsSomeAnd (slice_get self.now.queue 0) (λ job. kind_of job ≡ kind)) }
    {
        match self.queue.front() {
            Some(job) => Some(kind_of(job)),
            None => None,
        }
    }

    /// Jobs more at the end of the queue.
    ///
    /// # Errors
    /// Out of memory, and then nothing changed.
    pub fn queue_all(&mut self, jobs: Vec<Job>) -> Result<(), NoMemory>
        ensures ok { OnOk result (self.new ≡ record self.old { queue = self.old.queue ++ jobs.items }) }
        ensures err { OnErr result (self.new ≡ self.old) }
    {
        make_room(&mut self.queue, jobs.len())?;
        add_all(&mut self.queue, jobs);
        Ok(())
    }

    /// Whether a number of the server is the greatest of its type, so that a job could not count on.
    pub fn spent<D: Disk>(&self, store: &Store<D>) -> bool
        ensures { result ≡ is_spent self.now (store_of store.now) }
    {
        let _ = store.free();
        either(self.side.next == u64::MAX, store.top() == u64::MAX)
    }
}
