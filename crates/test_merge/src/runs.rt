//! Runs over disks in memory, split by actor and merged again.

use history_merge::{joined, merge, record_again};
use memory_runs::start;
use memory_server::MemServer;
use petal_base::{CLIENTS, NoMemory, OPERATOR, Sequence};
use petal_msg::{Actor, SharedLetter};
use petal_world::are_in_order;
use script_lines::Script;
use spec_history::{History, Record};
use std::alloc::Global;
use std::test::Fail;
use world_probe::{Run, play};

/// The records of one actor, in their order.
fn list_of(alloc: Global, records: &[Record], actor: Actor) -> Result<Sequence<Record>, NoMemory> {
    let mut own = Sequence::new(alloc);
    for record in records {
        if record.actor == actor {
            own.push(record_again(alloc, record)?)?;
        }
    }
    Ok(own)
}

/// The lists of all actors, the clients' first.
fn split(
    alloc: Global,
    servers: u8,
    records: &[Record],
) -> Result<Vec<Sequence<Record>>, NoMemory> {
    let mut lists = Vec::new(alloc);
    for client in 0..CLIENTS {
        lists.push(list_of(alloc, records, Actor::Client(client))?)?;
    }
    for server in 0..servers {
        lists.push(list_of(alloc, records, Actor::Server(server))?)?;
    }
    Ok(lists)
}

fn are_same(one: &[SharedLetter], other: &[SharedLetter]) -> bool {
    one.len() == other.len() && one.iter().zip(other).all(|(a, b)| a.get().is_same(b.get()))
}

/// Whether a record has this one's actor, stamp and letters. An actor has no two records of one stamp.
fn is_like(one: &Record, other: &Record) -> bool {
    one.actor == other.actor
        && one.stamp == other.stamp
        && are_same(one.sent.as_slice(), other.sent.as_slice())
}

/// Whether each record of the one list has one like it in the other, and there are as many.
fn are_shuffled(one: &[Record], other: &[Record]) -> bool {
    one.len() == other.len()
        && one
            .iter()
            .all(|record| other.iter().any(|like| is_like(record, like)))
}

fn is_joined(alloc: Global, script: &Script, records: &[Record]) -> Result<bool, Fail> {
    if !are_in_order(script.lines.as_slice()) {
        return Err(Fail::new("the lines are in no order"));
    }
    Ok(joined(alloc, script, records)?)
}

/// Records, split by actor and merged again.
fn merged(alloc: Global, script: &Script, records: &[Record]) -> Result<History, Fail> {
    let lists = split(alloc, script.servers, records)?;
    match merge(alloc, lists.as_slice()) {
        Ok(history) => Ok(history),
        Err(_) => Err(Fail::new("no history")),
    }
}

fn last_sent(run: &Run<MemServer>) -> Result<SharedLetter, Fail> {
    match run.sent.last() {
        None => Err(Fail::new("no letter was sent")),
        Some(letter) => Ok(letter.share()?),
    }
}

// A world lets a client call once the phases before are answered, also where its clock is behind these answers. So one client calls all lines
// of a later phase.
const WRITES: &str =
    "servers 2 slots 4\na disk vol on 0 1\nb disk more on 0 1\nwait\na write vol 5 fill 7\nwait\na read vol 5\n";

#[test]
fn a_run_of_writes_is_merged(rt: HostRuntime) -> Result<(), Fail> {
    let alloc = rt.alloc();
    let mut run = start(alloc, WRITES)?;
    run.keep_to_lines();
    assert!(rt; play(alloc, &mut run)?);
    let history = merged(alloc, run.script(), run.records())?;
    assert!(rt; are_shuffled(run.records(), history.records.as_slice()));
    assert!(rt; is_joined(alloc, run.script(), history.records.as_slice())?);
    Ok(())
}

const STOP: &str =
    "servers 3 slots 4\nop stop 1\nwait\na disk vol on 0 2\nwait\na write vol 0 fill 7\nwait\na read vol 0\n";

// A world tells a server with no letter that a line of the operator stops it: a tick before brings its clock past the call of that line.
#[test]
fn a_run_with_a_stop_is_merged(rt: HostRuntime) -> Result<(), Fail> {
    let alloc = rt.alloc();
    let mut run = start(alloc, STOP)?;
    run.keep_to_lines();
    assert!(rt; run.call(alloc, OPERATOR)?);
    assert!(rt; run.tick(alloc, Actor::Server(1))?);
    assert!(rt; run.obey(alloc)?);
    let seen = last_sent(&run)?;
    assert!(rt; run.deliver(alloc, seen)?);
    assert!(rt; run.go_on()?);
    assert!(rt; play(alloc, &mut run)?);
    let history = merged(alloc, run.script(), run.records())?;
    assert!(rt; are_shuffled(run.records(), history.records.as_slice()));
    assert!(rt; is_joined(alloc, run.script(), history.records.as_slice())?);
    Ok(())
}
