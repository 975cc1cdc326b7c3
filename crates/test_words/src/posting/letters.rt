//! Letters that are lost and doubled, and those that never are.

use petal_base::NoMemory;
use petal_command::ServerNumber;
use petal_msg::{Actor, Body, Letter, SharedLetter};
use postroom::Postroom;
use std::alloc::Global;
use std::sync::Wait;
use std::test::Fail;
use std::time::{Clock, Duration};

const TO: Actor = Actor::Server(1);

fn letter(alloc: Global, stamp: u64, body: Body) -> Result<SharedLetter, NoMemory> {
    SharedLetter::new(
        alloc,
        Letter {
            from: Actor::Client(0),
            inc: 0,
            to: TO,
            rev: 0,
            stamp,
            nth: 0,
            body,
        },
    )
}

/// Posts letters with these stamps, from 1 on.
pub fn post_asks<R: Wait>(
    rt: &R,
    alloc: Global,
    room: &Postroom,
    count: u64,
) -> Result<(), NoMemory> {
    for before in 0..count {
        room.post(
            rt,
            letter(alloc, before.saturating_add(1), Body::Ask { rev: 0 })?,
        )?;
    }
    Ok(())
}

fn post_downs<R: Wait>(
    rt: &R,
    alloc: Global,
    room: &Postroom,
    server: ServerNumber,
    count: u64,
) -> Result<(), NoMemory> {
    for before in 0..count {
        room.post(
            rt,
            letter(
                alloc,
                before.saturating_add(1),
                Body::Down { server, inc: 1 },
            )?,
        )?;
    }
    Ok(())
}

/// The stamp of the letter that comes next, or None where an end comes.
pub fn next_stamp<R: Wait>(rt: &R, room: &Postroom) -> Option<u64> {
    let posted = room.take(rt, TO);
    Some(room.letter(&posted)?.get().stamp)
}

// Whether letters with these stamps come next, and then an end.
fn brings<R: Wait>(rt: &R, room: &Postroom, stamps: &[u64]) -> bool {
    for stamp in stamps {
        if next_stamp(rt, room) != Some(*stamp) {
            return false;
        }
    }
    next_stamp(rt, room).is_none()
}

#[test]
fn every_fourth_is_lost_and_every_fifth_is_doubled(rt: HostRuntime) -> Result<(), Fail> {
    let alloc = rt.alloc();
    let room = Postroom::new(alloc, 2, Some(4), Some(5))?;
    post_asks(&rt, alloc, &room, 10)?;
    room.end(&rt, TO)?;
    assert!(&rt; brings(&rt, &room, &[1, 2, 3, 5, 5, 6, 7, 9, 10, 10]));
    Ok(())
}

#[test]
fn that_a_server_has_stopped_is_never_lost_or_doubled(rt: HostRuntime) -> Result<(), Fail> {
    let alloc = rt.alloc();
    let room = Postroom::new(alloc, 2, Some(2), Some(1))?;
    let server = ServerNumber::checked(0).ok_or("a server")?;
    post_downs(&rt, alloc, &room, server, 3)?;
    room.end(&rt, TO)?;
    assert!(&rt; brings(&rt, &room, &[1, 2, 3]));
    Ok(())
}

#[test]
fn what_is_taken_twice_is_one_letter(rt: HostRuntime) -> Result<(), Fail> {
    let alloc = rt.alloc();
    let room = Postroom::new(alloc, 2, None, Some(1))?;
    post_asks(&rt, alloc, &room, 1)?;
    let first = room.take(&rt, TO);
    let second = room.take(&rt, TO);
    assert!(&rt; first.number() == second.number());
    Ok(())
}

// The stamp of the letter that comes within a millisecond.
fn soon<R: Wait + Clock>(rt: &R, room: &Postroom) -> Option<u64> {
    let posted = room.take_within(rt, TO, Duration::from_millis(1))?;
    Some(room.letter(&posted)?.get().stamp)
}

#[test]
fn where_nothing_comes_within_the_time_none_is_told(rt: HostRuntime) -> Result<(), Fail> {
    let alloc = rt.alloc();
    let room = Postroom::new(alloc, 2, None, None)?;
    assert!(&rt; soon(&rt, &room).is_none());
    post_asks(&rt, alloc, &room, 1)?;
    assert!(&rt; soon(&rt, &room) == Some(1));
    assert!(&rt; soon(&rt, &room).is_none());
    Ok(())
}
