//! A server's seat behind a lock.

use crate::run::Run;
use crate::seat::Seat;
use petal_base::{Sequence, ServerId};
use petal_msg::{Actor, SharedLetter};
use petal_world::errand::server_of;
use script_lines::Line;
use server_host::{Host, HostError};
use std::alloc::Global;
use std::sync::{Condvar, Mutex, Wait};

/// A server's seat, which its workers, the tickers and the operator share, and what tells of a job that waits.
#[derive(Drop)]
pub struct ServerDesk<H: Host, J: Run> {
    me: ServerId,
    seat: Mutex<Seat<H, J>>,
    work: Condvar,
}

// The letter comes where it is this server's.
fn deliver_to<H: Host, J: Run>(
    seat: &mut Seat<H, J>,
    alloc: Global,
    letter: &SharedLetter,
) -> Result<(), HostError> {
    if letter.get().to != Actor::Server(seat.me()) {
        return Ok(());
    }
    seat.deliver(alloc, letter)
}

// The line is obeyed where it names this server.
fn control_at<H: Host, J: Run>(
    seat: &mut Seat<H, J>,
    alloc: Global,
    line: &Line,
    stamp: u64,
) -> Result<Sequence<SharedLetter>, HostError> {
    if server_of(&line.request) != Some(seat.me()) {
        return Ok(Sequence::new(alloc));
    }
    seat.control(alloc, line, stamp)
}

impl<H: Host, J: Run> ServerDesk<H, J> {
    /// The desk of a server.
    pub fn new(seat: Seat<H, J>) -> ServerDesk<H, J> {
        ServerDesk {
            me: seat.me(),
            seat: Mutex::new(seat),
            work: Condvar::new(),
        }
    }

    /// The server.
    pub fn actor(&self) -> Actor {
        Actor::Server(self.me)
    }

    /// A phase begins.
    pub fn enter<R: Wait>(&self, rt: &R, phase: u32) {
        self.seat.lock(rt).enter(phase);
    }

    /// A letter comes.
    pub fn deliver<R: Wait>(
        &self,
        rt: &R,
        alloc: Global,
        letter: &SharedLetter,
    ) -> Result<(), HostError> {
        let delivered = deliver_to(&mut self.seat.lock(rt), alloc, letter);
        self.work.notify_one();
        delivered
    }

    /// Waits for a job, or for the end. Gives whether the workers are to end.
    pub fn wait_for_job<R: Wait>(&self, rt: &R) -> bool {
        let seat = self.work.wait_while(rt, self.seat.lock(rt), |seat| {
            seat.is_idle() && !seat.has_ended()
        });
        seat.has_ended()
    }

    /// The first job of the queue. The letters are to be posted.
    pub fn work<R: Wait>(
        &self,
        rt: &R,
        alloc: Global,
    ) -> Result<Sequence<SharedLetter>, HostError> {
        self.seat.lock(rt).work(alloc)
    }

    /// A tick, where nobody else has the seat. The letters are to be posted.
    pub fn try_tick(&self, alloc: Global) -> Result<Option<Sequence<SharedLetter>>, HostError> {
        match self.seat.try_lock() {
            None => Ok(None),
            Some(mut seat) => {
                let letters = seat.tick(alloc)?;
                self.work.notify_one();
                Ok(Some(letters))
            }
        }
    }

    /// A line of the operator whose call has this stamp. It is obeyed where it names this server. The letters are to be posted.
    pub fn control<R: Wait>(
        &self,
        rt: &R,
        alloc: Global,
        line: &Line,
        stamp: u64,
    ) -> Result<Sequence<SharedLetter>, HostError> {
        let letters = control_at(&mut self.seat.lock(rt), alloc, line, stamp);
        self.work.notify_one();
        letters
    }

    /// A glance for a round of a settle, whose call has this stamp. The letters are to be posted.
    pub fn glance<R: Wait>(
        &self,
        rt: &R,
        alloc: Global,
        line: u32,
        round: u32,
        stamp: u64,
    ) -> Result<Sequence<SharedLetter>, HostError> {
        self.seat.lock(rt).glance(alloc, line, round, stamp)
    }

    /// The workers are to end, in this phase.
    pub fn end<R: Wait>(&self, rt: &R) {
        self.seat.lock(rt).end();
        self.work.notify_all();
    }

    /// The seat.
    pub fn into_seat(self) -> Seat<H, J> {
        self.seat.into_inner()
    }
}
