//! The workers of a server: one takes its mail, one does its jobs, and a ticker goes round all servers. Where one of them fails, all workers
//! of the run are told to end.

ghost use Rattle.std.specs.Thread.{IsSend, IsSync};

use crate::desk::ServerDesk;
use crate::gate::{Gate, StepKind};
use crate::run::Run;
use crate::run_state::RunState;
use server_host::{Host, HostError};
use std::alloc::Global;
use std::sync::Wait;
use std::thread;
use std::thread::{Threads, join};
use std::time::{Clock, Duration};

/// How long a ticker sleeps between its rounds. A ballot is mostly over within it, before its rivals are ticked.
const PAUSE_MICROS: u64 = 500;

// A worker that fails has all others end.
fn told<R: Wait>(rt: &R, run: &RunState, done: Result<(), HostError>) -> Result<(), HostError> {
    if done.is_err() {
        run.give_up(rt);
    }
    done
}

fn deliver_all<H: Host, J: Run, G: Gate, R: Wait>(
    rt: &R,
    alloc: Global,
    desk: &ServerDesk<H, J>,
    run: &RunState,
    gate: &G,
) -> Result<(), HostError> {
    let me = desk.actor();
    for _ in rt.forever() {
        let post = run.post();
        let posted = post.take(rt, me);
        match post.letter(&posted) {
            None => return Ok(()),
            Some(letter) => {
                gate.before(me, StepKind::Deliver);
                let delivered = desk.deliver(rt, alloc, letter);
                gate.after(me, StepKind::Deliver, None);
                delivered?;
            }
        }
    }
    unreachable!()
}

/// Delivers the server's mail, until an end comes. Then its jobs end, too.
pub fn serve<H: Host, J: Run, G: Gate, R: Wait>(
    rt: &R,
    alloc: Global,
    desk: &ServerDesk<H, J>,
    run: &RunState,
    gate: &G,
) -> Result<(), HostError> {
    let served = deliver_all(rt, alloc, desk, run, gate);
    desk.end(rt);
    told(rt, run, served)
}

// A job, whose letters are posted once the seat is free again.
fn work_once<H: Host, J: Run, R: Wait>(
    rt: &R,
    alloc: Global,
    desk: &ServerDesk<H, J>,
    run: &RunState,
) -> Result<(), HostError> {
    let letters = desk.work(rt, alloc)?;
    run.post_all(rt, letters)?;
    Ok(())
}

fn work_all<H: Host, J: Run, G: Gate, R: Wait>(
    rt: &R,
    alloc: Global,
    desk: &ServerDesk<H, J>,
    run: &RunState,
    gate: &G,
) -> Result<(), HostError> {
    let me = desk.actor();
    for _ in rt.forever() {
        if desk.wait_for_job(rt) {
            return Ok(());
        }
        gate.before(me, StepKind::Work);
        let worked = work_once(rt, alloc, desk, run);
        gate.after(me, StepKind::Work, None);
        worked?;
    }
    unreachable!()
}

/// Does the server's jobs, until its mail has ended.
pub fn work_off<H: Host, J: Run, G: Gate, R: Wait>(
    rt: &R,
    alloc: Global,
    desk: &ServerDesk<H, J>,
    run: &RunState,
    gate: &G,
) -> Result<(), HostError> {
    let worked = work_all(rt, alloc, desk, run, gate);
    told(rt, run, worked)
}

// A tick, where nobody else has the server's seat.
fn tick_once<H: Host, J: Run, R: Wait>(
    rt: &R,
    alloc: Global,
    desk: &ServerDesk<H, J>,
    run: &RunState,
) -> Result<(), HostError> {
    if let Some(letters) = desk.try_tick(alloc)? {
        run.post_all(rt, letters)?;
    }
    Ok(())
}

fn tick_each<H: Host, J: Run, G: Gate, R: Wait>(
    rt: &R,
    alloc: Global,
    desks: &[ServerDesk<H, J>],
    run: &RunState,
    gate: &G,
) -> Result<(), HostError> {
    for desk in desks {
        let me = desk.actor();
        gate.before(me, StepKind::Tick);
        let ticked = tick_once(rt, alloc, desk, run);
        gate.after(me, StepKind::Tick, None);
        ticked?;
    }
    Ok(())
}

fn tick_all<H: Host, J: Run, G: Gate, R: Wait + Clock>(
    rt: &R,
    alloc: Global,
    desks: &[ServerDesk<H, J>],
    run: &RunState,
    gate: &G,
) -> Result<(), HostError> {
    for _ in rt.forever() {
        if run.is_over() {
            return Ok(());
        }
        tick_each(rt, alloc, desks, run, gate)?;
        thread::sleep(rt, Duration::from_micros(PAUSE_MICROS));
    }
    unreachable!()
}

/// Ticks all servers, until the phase is over.
pub fn tick_servers<H: Host, J: Run, G: Gate, R: Wait + Clock>(
    rt: &R,
    alloc: Global,
    desks: &[ServerDesk<H, J>],
    run: &RunState,
    gate: &G,
) -> Result<(), HostError> {
    let ticked = tick_all(rt, alloc, desks, run, gate);
    told(rt, run, ticked)
}

/// Both workers of a server.
pub fn serve_and_work<H: Host + Send, J: Run + Send + Sync, G: Gate, R: Threads + Wait + Sync>(
    rt: &R,
    alloc: Global,
    desk: &ServerDesk<H, J>,
    run: &RunState,
    gate: &G,
) -> Result<(), HostError> {
    let (served, worked) = join(
        rt,
        || serve(rt, alloc, desk, run, gate),
        || work_off(rt, alloc, desk, run, gate),
    );
    served?;
    worked
}
