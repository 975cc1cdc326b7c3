//! A server that stops right after a commit, before anyone hears of it.
//!
//! In memory a device that is struck loses what was not synced. So a job or a boot whose call fails before its work has not made its
//! commit; one whose last sync fails late has, as a plan can say. Here no device is struck: the job is done, the server stops at once,
//! and the letters that it would have sent are taken back.

use petal_base::{NoMemory, OPERATOR, ServerId};
use petal_command::Pax;
use petal_msg::{Body, SharedLetter};
use petal_world::Host;
use std::alloc::Global;
use world_probe::{Order, Run};

/// So many jobs are done at most until one has made a commit that its letters tell of.
const MOST_JOBS: u32 = 12;

// Whether such a letter is sent only after a commit.
fn tells_of_commit(body: &Body) -> bool {
    match body {
        Body::Pax(Pax::Promise { .. } | Pax::Accepted { .. })
        | Body::Replicated { .. }
        | Body::Synced { .. } => true,
        _ => false,
    }
}

// Whether one of the letters from this place on is sent only after a commit.
fn tell_of_commit(sent: &[SharedLetter], from: usize) -> bool {
    sent.iter()
        .skip(from)
        .any(|letter| tells_of_commit(&letter.get().body))
}

// The server does a job. Gives whether it made a commit that its letters tell of; then nobody gets them.
fn works_in_vain<H: Host>(
    alloc: Global,
    run: &mut Run<H>,
    server: ServerId,
) -> Result<bool, NoMemory> {
    let before = run.sent.len();
    run.work(alloc, server)?;
    let tells = tell_of_commit(&run.sent, before);
    if tells {
        run.sent.truncate(before);
    }
    Ok(tells)
}

/// The server does jobs until one has made a commit, and stops; nobody gets the letters of that job. Where none has it stops all the
/// same, unless it is patient. Gives whether one had and it stopped.
pub fn stop_cut_off<H: Host>(
    alloc: Global,
    run: &mut Run<H>,
    server: ServerId,
    patient: bool,
) -> Result<bool, NoMemory> {
    for _ in 0..MOST_JOBS {
        if works_in_vain(alloc, run, server)? {
            return run.stop(alloc, server);
        }
    }
    if !patient {
        run.stop(alloc, server)?;
    }
    Ok(false)
}

// The server is glanced at for this line, the operator hears of it, and calls its next line.
fn is_answered<H: Host>(
    alloc: Global,
    run: &mut Run<H>,
    line: u32,
    server: ServerId,
) -> Result<(), NoMemory> {
    let before = run.sent.len();
    run.show(alloc, server, line, 0)?;
    let shown = match run.sent.get(before) {
        Some(letter) => Some(letter.share()?),
        None => None,
    };
    if let Some(letter) = shown {
        run.deliver(alloc, letter)?;
    }
    run.call(alloc, OPERATOR)?;
    Ok(())
}

/// The server boots, and where the operator's next line stops it, it does so before it takes any other step; nobody hears of the
/// boot. Gives whether it did.
pub fn boot_cut_off<H: Host>(
    alloc: Global,
    run: &mut Run<H>,
    line: u32,
    server: ServerId,
) -> Result<bool, NoMemory> {
    let before = run.sent.len();
    if !run.boot(alloc, server)? {
        return Ok(false);
    }
    run.sent.truncate(before);
    is_answered(alloc, run, line, server)?;
    let Some((_line, Order::Stop, next)) = run.open_order() else {
        return Ok(false);
    };
    let before = run.sent.len();
    let stops = next == server && run.stop(alloc, server)?;
    run.sent.truncate(before);
    Ok(stops)
}
