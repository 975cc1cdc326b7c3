//! Rounds in which each letter is handed over twice, the last one first.

use crate::run::Run;
use petal_base::{NoMemory, OPERATOR};
use petal_msg::Actor;
use petal_world::Host;
use std::alloc::Global;

/// A run that is not over after so many rounds is taken to hang.
const MOST_ROUNDS: u32 = 4_000;

/// In every such round one server ticks, and all clients.
const TICK_EVERY: u32 = 8;

/// A server with so many jobs in one round is taken to hang.
const MOST_JOBS: u32 = 10_000;

// The letters from this place on, the last one first, each twice. Gives the place after them.
fn hand_over<H: Host>(alloc: Global, run: &mut Run<H>, from: usize) -> Result<usize, NoMemory> {
    let end = run.sent.len();
    for at in (from..end).rev() {
        if let Some(letter) = run.sent.get(at) {
            let first = letter.share()?;
            let second = letter.share()?;
            run.deliver(alloc, first)?;
            run.deliver(alloc, second)?;
        }
    }
    Ok(end)
}

fn work_off<H: Host>(alloc: Global, run: &mut Run<H>) -> Result<(), NoMemory> {
    for server in 0..run.script().servers {
        for _ in 0..MOST_JOBS {
            if !run.work(alloc, server)? {
                break;
            }
        }
    }
    Ok(())
}

// Each client calls, the operator too, and what its line asks for is done.
fn call_all<H: Host>(alloc: Global, run: &mut Run<H>) -> Result<(), NoMemory> {
    for client in 0..=OPERATOR {
        run.call(alloc, client)?;
    }
    run.obey(alloc)?;
    Ok(())
}

// A tick comes to the clients, the operator too, and to the server whose turn it is: servers that tick together can outbid one
// another for ever.
fn tick_some<H: Host>(alloc: Global, run: &mut Run<H>, turn: u32) -> Result<(), NoMemory> {
    let servers = u32::from(run.script().servers);
    if servers > 0 {
        run.tick(alloc, Actor::Server((turn % servers) as u8))?;
    }
    for client in 0..=OPERATOR {
        run.tick(alloc, Actor::Client(client))?;
    }
    Ok(())
}

// A round: the letters from this place on are handed over, then each server works until it is idle, each client and the operator
// calls, what the operator's line asks for is done, and in every eighth round the clients, the operator and one of the servers tick.
// Gives the place after the letters.
fn round<H: Host>(
    alloc: Global,
    run: &mut Run<H>,
    from: usize,
    number: u32,
) -> Result<usize, NoMemory> {
    let handed = hand_over(alloc, run, from)?;
    work_off(alloc, run)?;
    call_all(alloc, run)?;
    if number % TICK_EVERY == 0 {
        tick_some(alloc, run, number / TICK_EVERY)?;
    }
    Ok(handed)
}

/// Plays a run in rounds until each line is answered. Gives whether it came to that.
pub fn play<H: Host>(alloc: Global, run: &mut Run<H>) -> Result<bool, NoMemory> {
    let mut handed = 0;
    for number in 0..MOST_ROUNDS {
        if run.is_over() {
            return Ok(true);
        }
        handed = round(alloc, run, handed, number)?;
        run.go_on()?;
    }
    Ok(false)
}

/// Plays a run in rounds until its second phase begins. Gives whether it came to that.
pub fn begin<H: Host>(alloc: Global, run: &mut Run<H>) -> Result<bool, NoMemory> {
    let mut handed = 0;
    for number in 0..MOST_ROUNDS {
        if run.go_on()? {
            return Ok(true);
        }
        handed = round(alloc, run, handed, number)?;
    }
    Ok(false)
}
