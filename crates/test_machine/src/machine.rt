//! The plain machine: worked examples, with outcomes from outside the definitions.

use petal_base::{Block, Name, SharedBlock};
use spec_machine::{Event, EventError, Machine, Write, WriteEnd};
use std::alloc::Global;
use std::process::Abort;
use std::test::Fail;

fn vol() -> Result<Name, Fail> {
    Ok(Name::read(b"vol").ok_or("a name")?)
}

fn filled(alloc: Global, x: u8) -> Result<SharedBlock, Fail> {
    Ok(SharedBlock::new(alloc, Block::fill(alloc, x)?)?)
}

/// Client's first write of block 5.
fn write(alloc: Global, client: u8, x: u8) -> Result<Write, Fail> {
    Ok(Write {
        client,
        seq: 1,
        disk: vol()?,
        block: 5,
        bytes: filled(alloc, x)?,
    })
}

fn look(alloc: Global, snap: Option<Name>, x: u8) -> Result<Event, Fail> {
    Ok(Event::Look {
        disk: vol()?,
        snap,
        block: 5,
        bytes: filled(alloc, x)?,
    })
}

/// A machine with the disk vol.
fn one_disk(alloc: Global) -> Result<Machine, Fail> {
    let mut machine = Machine::new(alloc)?;
    machine.apply(alloc, Event::Make { disk: vol()? })?;
    Ok(machine)
}

fn begin(alloc: Global, machine: &mut Machine, client: u8, x: u8) -> Result<(), Fail> {
    machine.apply(alloc, Event::Begin(write(alloc, client, x)?))?;
    Ok(())
}

fn take(alloc: Global, machine: &mut Machine, client: u8, x: u8) -> Result<(), Fail> {
    machine.apply(alloc, Event::Take(write(alloc, client, x)?))?;
    Ok(())
}

fn end(alloc: Global, machine: &mut Machine, x: u8) -> Result<Result<(), EventError>, Fail> {
    let event = Event::End(write(alloc, 0, x)?, WriteEnd::Ok);
    Ok(machine.apply(alloc, event))
}

fn see(alloc: Global, machine: &mut Machine, snap: Option<Name>, x: u8) -> Result<(), Fail> {
    machine.apply(alloc, look(alloc, snap, x)?)?;
    Ok(())
}

fn end_of_sevens(alloc: Global, machine: &mut Machine) -> Result<bool, Fail> {
    let early = end(alloc, machine, 7)?;
    take(alloc, machine, 0, 7)?;
    Ok(early == Err(EventError::NotAllowed) && end(alloc, machine, 7)?.is_ok())
}

fn write_sevens(rt: &impl Abort, alloc: Global, machine: &mut Machine) -> Result<(), Fail> {
    see(alloc, machine, None, 0)?;
    begin(alloc, machine, 0, 7)?;
    assert!(rt; end_of_sevens(alloc, machine)?);
    see(alloc, machine, None, 7)
}

#[test]
fn a_block_of_sevens(rt: HostRuntime) -> Result<(), Fail> {
    let mut machine = one_disk(rt.alloc())?;
    write_sevens(&rt, rt.alloc(), &mut machine)
}

fn write_at_once(alloc: Global, machine: &mut Machine) -> Result<(), Fail> {
    begin(alloc, machine, 0, 1)?;
    begin(alloc, machine, 1, 2)?;
    take(alloc, machine, 0, 1)?;
    take(alloc, machine, 1, 2)?;
    // The first write was held once, which is enough for its answer.
    end(alloc, machine, 1)??;
    see(alloc, machine, None, 2)
}

#[test]
fn two_clients_write_one_block(rt: HostRuntime) -> Result<(), Fail> {
    let mut machine = one_disk(rt.alloc())?;
    write_at_once(rt.alloc(), &mut machine)
}

fn s1() -> Result<Name, Fail> {
    Ok(Name::read(b"s1").ok_or("a name")?)
}

fn freeze(alloc: Global, machine: &mut Machine) -> Result<(), Fail> {
    let event = Event::Freeze {
        disk: vol()?,
        snap: s1()?,
    };
    machine.apply(alloc, event)?;
    Ok(())
}

fn freeze_and_write(alloc: Global, machine: &mut Machine) -> Result<(), Fail> {
    freeze(alloc, machine)?;
    begin(alloc, machine, 0, 1)?;
    take(alloc, machine, 0, 1)?;
    see(alloc, machine, Some(s1()?), 0)?;
    see(alloc, machine, None, 1)
}

#[test]
fn a_snapshot_keeps_its_content(rt: HostRuntime) -> Result<(), Fail> {
    let mut machine = one_disk(rt.alloc())?;
    freeze_and_write(rt.alloc(), &mut machine)
}
