//! A server's workers, each in a thread, and a client that is played by hand.

ghost use Rattle.std.specs.Prelude.{◌≡◌};

use crate::desks::{are, first_desk};
use crate::letters::{ask, is_news};
use memory_server::MemServer;
use petal_base::NoMemory;
use petal_msg::Actor;
use server_host::HostError;
use server_loop::{
    Gate, OpenGate, Run, RunState, ServerDesk, StepKind, serve_and_work, tick_servers,
};
use std::alloc::Global;
use std::marker::Brand;
use std::sync::Wait;
use std::sync::atomic::{AtomicU64, Ordering};
use std::test::Fail;
use std::thread::{Threads, join};
use std::time::Clock;

// Counts what passes.
#[derive(Drop)]
struct Counts {
    before: AtomicU64,
    after: AtomicU64,
}

impl Gate for Counts {
    fn before(&self, _actor: Actor, _kind: StepKind) {
        self.before.fetch_add(1, Ordering::SeqCst);
    }

    fn after(&self, _actor: Actor, _kind: StepKind, _answered: Option<u32>) {
        self.after.fetch_add(1, Ordering::SeqCst);
    }
}

// A request, and whether it is answered.
fn hears<R: Wait>(rt: &R, alloc: Global, run: &RunState) -> Result<bool, NoMemory> {
    let post = run.post();
    post.post(rt, ask(alloc, 0, 7)?)?;
    let posted = post.take(rt, Actor::Client(0));
    match post.letter(&posted) {
        None => Ok(false),
        Some(letter) => Ok(is_news(letter)),
    }
}

// The client's request, after which the phase ends.
fn request<R: Wait>(rt: &R, alloc: Global, run: &RunState) -> Result<bool, NoMemory> {
    let heard = hears(rt, alloc, run);
    run.end(rt)?;
    heard
}

fn answered<J: Run + Send + Sync, G: Gate, R: Threads + Wait + Sync>(
    rt: &R,
    alloc: Global,
    desk: &ServerDesk<MemServer, J>,
    run: &RunState,
    gate: &G,
) -> Result<bool, HostError> {
    let (worked, heard) = join(
        rt,
        || serve_and_work(rt, alloc, desk, run, gate),
        || request(rt, alloc, run),
    );
    worked?;
    Ok(heard?)
}

fn answers_in_threads<J: Run + Send + Sync, R: Threads + Wait + Sync>(
    rt: &R,
    alloc: Global,
) -> Result<bool, Fail>
    requires servers { J.script.servers ≡ 2 }
    requires slots { J.script.slots ≡ 8 }
{
    let desk = first_desk::<J>(alloc)?;
    let run = RunState::new(alloc, 2, None, None)?;
    let gate = Counts {
        before: AtomicU64::new(0),
        after: AtomicU64::new(0),
    };
    let heard = answered(rt, alloc, &desk, &run, &gate)?;
    let passed = gate.before.load(Ordering::SeqCst) == gate.after.load(Ordering::SeqCst);
    Ok(heard && passed && are(desk.into_seat().into_records().as_slice(), b"dw"))
}

#[test]
fn a_request_is_answered_by_two_threads(rt: HostRuntime) -> Result<(), Fail> {
    assert!(&rt; answers_in_threads::<Brand, _>(&rt, rt.alloc())?);
    Ok(())
}

fn answered_and_ticked<J: Run + Send + Sync, R: Threads + Wait + Clock + Sync>(
    rt: &R,
    alloc: Global,
    desks: &[ServerDesk<MemServer, J>],
    first: &ServerDesk<MemServer, J>,
    run: &RunState,
) -> Result<bool, HostError> {
    let (ticked, heard) = join(
        rt,
        || tick_servers(rt, alloc, desks, run, &OpenGate),
        || answered(rt, alloc, first, run, &OpenGate),
    );
    ticked?;
    heard
}

fn answers_and_ticks<J: Run + Send + Sync, R: Threads + Wait + Clock + Sync>(
    rt: &R,
    alloc: Global,
) -> Result<bool, Fail>
    requires servers { J.script.servers ≡ 2 }
    requires slots { J.script.slots ≡ 8 }
{
    let mut desks = Vec::new(alloc);
    desks.push(first_desk::<J>(alloc)?)?;
    let run = RunState::new(alloc, 2, None, None)?;
    let Some(first) = desks.first() else {
        return Ok(false);
    };
    Ok(answered_and_ticked(rt, alloc, desks.as_slice(), first, &run)?)
}

#[test]
fn an_end_ends_workers_and_tickers(rt: HostRuntime) -> Result<(), Fail> {
    assert!(&rt; answers_and_ticks::<Brand, _>(&rt, rt.alloc())?);
    Ok(())
}
