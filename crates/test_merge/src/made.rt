//! Records and letters, written by hand.

use petal_base::{NoMemory, OPERATOR, Sequence, Stamp};
use petal_msg::{Actor, Body, Letter, SharedLetter};
use script_lines::Answer;
use spec_history::Record;
use spec_rules::Step;
use std::alloc::Global;

/// The record of a step that sends nothing and answers nothing.
pub fn record(alloc: Global, actor: Actor, stamp: Stamp, step: Step) -> Record {
    Record {
        actor,
        stamp,
        phase: 0,
        step,
        sent: Sequence::new(alloc),
        answer: None,
    }
}

/// The record of a call in this phase.
pub fn call(alloc: Global, client: u8, stamp: Stamp, line: u32, phase: u32) -> Record {
    Record {
        actor: Actor::Client(client),
        stamp,
        phase,
        step: Step::Call { line },
        sent: Sequence::new(alloc),
        answer: None,
    }
}

/// The record of a client's step that answers this line.
pub fn answers(alloc: Global, client: u8, stamp: Stamp, line: u32) -> Record {
    Record {
        actor: Actor::Client(client),
        stamp,
        phase: 0,
        step: Step::Tick,
        sent: Sequence::new(alloc),
        answer: Some((line, Answer::Ok)),
    }
}

/// The record of a step that sends this letter.
pub fn sends(
    alloc: Global,
    actor: Actor,
    stamp: Stamp,
    step: Step,
    letter: SharedLetter,
) -> Result<Record, NoMemory> {
    Ok(Record {
        actor,
        stamp,
        phase: 0,
        step,
        sent: Sequence::one(alloc, letter)?,
        answer: None,
    })
}

/// The first letter of a step.
pub fn letter(
    alloc: Global,
    from: Actor,
    to: Actor,
    stamp: Stamp,
    body: Body,
) -> Result<SharedLetter, NoMemory> {
    SharedLetter::new(
        alloc,
        Letter {
            from,
            inc: 1,
            to,
            rev: 0,
            stamp,
            nth: 0,
            body,
        },
    )
}

/// The record of a glance at a server, for this line in this round, which shows whether it runs.
pub fn glance(
    alloc: Global,
    server: u8,
    stamp: Stamp,
    line: u32,
    round: u32,
    running: bool,
) -> Result<Record, NoMemory> {
    let from = Actor::Server(server);
    let body = Body::Seen {
        line,
        round,
        running,
        inc: 1,
        full: false,
    };
    let seen = letter(alloc, from, Actor::Client(OPERATOR), stamp, body)?;
    sends(alloc, from, stamp, Step::Glance { line, round }, seen)
}
