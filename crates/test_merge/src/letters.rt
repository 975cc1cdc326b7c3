//! Letters that come otherwise than they were sent.

use crate::made::{letter, record, sends};
use history_merge::{MergeError, merge};
use petal_base::{Sequence, Stamp};
use petal_msg::{Actor, Body, Letter, SharedLetter};
use spec_history::Record;
use spec_rules::Step;
use std::alloc::Global;
use std::test::Fail;

const FROM: Actor = Actor::Server(0);

const TO: Actor = Actor::Server(1);

/// An Ask that server 0 sends in its step of this stamp.
fn ask(alloc: Global, stamp: Stamp, rev: u32) -> Result<SharedLetter, Fail> {
    Ok(letter(alloc, FROM, TO, stamp, Body::Ask { rev })?)
}

/// The lists of two servers: the first one sends a letter, and this one comes to the second, which has a list before the first.
fn lists(alloc: Global, comes: SharedLetter) -> Result<[Sequence<Record>; 2], Fail> {
    let sent = sends(alloc, FROM, 4, Step::Tick, ask(alloc, 4, 7)?)?;
    let got = record(alloc, TO, 5, Step::Deliver { letter: comes });
    Ok([Sequence::one(alloc, got)?, Sequence::one(alloc, sent)?])
}

/// What is told of the letters where this one comes: nothing, or that it is not what is recorded, this or no letter.
fn told(
    alloc: Global,
    comes: SharedLetter,
) -> Result<Option<(SharedLetter, Option<SharedLetter>)>, Fail> {
    match merge(alloc, &lists(alloc, comes)?) {
        Ok(_) => Ok(None),
        Err(MergeError::NoMemory) => Err(Fail::new("out of memory")),
        Err(
            MergeError::Mismatch {
                delivered,
                recorded,
            },
        ) => Ok(Some((delivered, recorded))),
    }
}

fn is_recorded(recorded: Option<SharedLetter>, letter: &Letter) -> bool {
    match recorded {
        None => false,
        Some(recorded) => recorded.get().is_same(letter),
    }
}

#[test]
fn a_letter_comes_as_it_was_sent(rt: HostRuntime) -> Result<(), Fail> {
    assert!(rt; told(rt.alloc(), ask(rt.alloc(), 4, 7)?)?.is_none());
    Ok(())
}

#[test]
fn another_letter_is_told_with_what_is_recorded(rt: HostRuntime) -> Result<(), Fail> {
    let Some((delivered, recorded)) = told(rt.alloc(), ask(rt.alloc(), 4, 8)?)? else {
        return Err(Fail::new("another body comes"));
    };
    assert!(rt; delivered.get().is_same(ask(rt.alloc(), 4, 8)?.get()));
    assert!(rt; is_recorded(recorded, ask(rt.alloc(), 4, 7)?.get()));
    Ok(())
}

#[test]
fn a_letter_of_no_step_is_told_alone(rt: HostRuntime) -> Result<(), Fail> {
    let Some((delivered, recorded)) = told(rt.alloc(), ask(rt.alloc(), 3, 7)?)? else {
        return Err(Fail::new("a letter of no step comes"));
    };
    assert!(rt; delivered.get().is_same(ask(rt.alloc(), 3, 7)?.get()));
    assert!(rt; recorded.is_none());
    Ok(())
}
