//! One thread posts, and another takes.

use crate::posting::letters::{next_stamp, post_asks};
use petal_base::NoMemory;
use petal_msg::Actor;
use postroom::Postroom;
use std::alloc::Global;
use std::sync::Wait;
use std::test::Fail;
use std::thread::{Threads, join};

fn post_all<R: Wait>(rt: &R, alloc: Global, room: &Postroom, count: u64) -> Result<(), NoMemory> {
    let posted = post_asks(rt, alloc, room, count);
    room.end(rt, Actor::Server(1))?;
    posted
}

// How many letters come before an end.
fn take_all<R: Wait>(rt: &R, room: &Postroom) -> u64 {
    let mut taken = 0u64;
    for _ in rt.forever() {
        if next_stamp(rt, room).is_none() {
            break;
        }
        taken = taken.saturating_add(1);
    }
    taken
}

fn passed<R: Threads + Wait + Sync>(
    rt: &R,
    alloc: Global,
    room: &Postroom,
    count: u64,
) -> Result<u64, NoMemory> {
    let (posted, taken) = join(
        rt,
        || post_all(rt, alloc, room, count),
        || take_all(rt, room),
    );
    posted?;
    Ok(taken)
}

#[test]
fn every_letter_comes(rt: HostRuntime) -> Result<(), Fail> {
    let alloc = rt.alloc();
    let room = Postroom::new(alloc, 2, None, None)?;
    assert!(&rt; passed(&rt, alloc, &room, 1000)? == 1000);
    Ok(())
}
