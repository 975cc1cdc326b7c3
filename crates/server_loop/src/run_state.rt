//! What the workers of a run share.

use petal_base::{CLIENTS, NoMemory, Sequence};
use petal_msg::{Actor, SharedLetter};
use postroom::Postroom;
use std::alloc::Global;
use std::sync::Wait;
use std::sync::atomic::{AtomicBool, Ordering};

/// The postroom, and whether the phase is over.
#[derive(Drop)]
pub struct RunState {
    post: Postroom,
    servers: u8,
    over: AtomicBool,
}

impl RunState {
    /// A run of so many servers, in which nothing was posted. Every `lose`-th letter is lost, and every `twice`-th handed over twice.
    pub fn new(
        alloc: Global,
        servers: u8,
        lose: Option<u32>,
        twice: Option<u32>,
    ) -> Result<RunState, NoMemory> {
        Ok(RunState {
            post: Postroom::new(alloc, servers, lose, twice)?,
            servers,
            over: AtomicBool::new(false),
        })
    }

    /// The postroom.
    pub fn post(&self) -> &Postroom {
        &self.post
    }

    /// Posts each of the letters.
    pub fn post_all<R: Wait>(
        &self,
        rt: &R,
        letters: Sequence<SharedLetter>,
    ) -> Result<(), NoMemory> {
        for letter in letters.into_vec() {
            self.post.post(rt, letter)?;
        }
        Ok(())
    }

    /// Whether the phase is over, so that nobody ticks any more.
    pub fn is_over(&self) -> bool {
        self.over.load(Ordering::SeqCst)
    }

    /// A phase begins.
    pub fn begin(&self) {
        self.over.store(false, Ordering::SeqCst);
    }

    /// The phase is over: the tickers and each server's workers are to end. Where there is no memory to tell one of them, the others are
    /// told.
    pub fn end<R: Wait>(&self, rt: &R) -> Result<(), NoMemory> {
        self.over.store(true, Ordering::SeqCst);
        let mut told = Ok(());
        for server in 0..self.servers {
            if self.post.end(rt, Actor::Server(server)).is_err() {
                told = Err(NoMemory);
            }
        }
        told
    }

    /// A worker fails: all workers are to end. Where there is no memory to tell one of them, the others are told.
    pub fn give_up<R: Wait>(&self, rt: &R) {
        self.over.store(true, Ordering::SeqCst);
        for server in 0..self.servers {
            let _ = self.post.end(rt, Actor::Server(server));
        }
        for client in 0..CLIENTS {
            let _ = self.post.end(rt, Actor::Client(client));
        }
    }
}
