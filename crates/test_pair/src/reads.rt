//! A read of a block that was put, and of one that was not.

use crate::stores::with_sevens;
use global_state::GlobalState;
use pair_memory::{JobContext, PairMemory};
use petal_base::{Cell, Key, Name, NoMemory, Tuple};
use petal_command::{ClientNumber, Command, ServerNumber};
use petal_disk::{DeviceError, Disk};
use petal_msg::{Body, Reply};
use read_either::{answer_read, said};
use server_store::Store;
use std::alloc::Global;
use std::test::Fail;

fn client() -> Result<ClientNumber, Fail> {
    Ok(ClientNumber::checked(0).ok_or("a client")?)
}

fn name() -> Result<Name, Fail> {
    Ok(Name::read(b"vol").ok_or("a name")?)
}

fn tuple() -> Result<Tuple, Fail> {
    Ok(Tuple::new(&[0, 1], 2).ok_or("a tuple")?)
}

/// The disk `vol` of two servers is made.
fn make_disk() -> Result<Command, Fail> {
    Ok(Command::MakeDisk {
        client: client()?,
        seq: 1,
        name: name()?,
        tuple: tuple()?,
    })
}

fn after(alloc: Global, command: &Command) -> Result<GlobalState, NoMemory> {
    let mut state = GlobalState::new(alloc, 2)?;
    state.apply(alloc, command)?;
    Ok(state)
}

/// The state with that disk.
fn state(alloc: Global) -> Result<GlobalState, Fail> {
    Ok(after(alloc, &make_disk()?)?)
}

/// The entry of block 4.
const KEY: Key = Key {
    map: 0,
    block: 4,
    epoch: 0,
};

fn byte_of(body: Body) -> Option<u8> {
    match body {
        Body::Data { seq: 3, bytes } => bytes.bytes().first().copied(),
        _ => None,
    }
}

// The reply of server 1 of a cell, where it may read that.
fn reply<D: Disk>(
    alloc: Global,
    state: &GlobalState,
    side: &PairMemory,
    store: &mut Store<D>,
    cell: Cell,
) -> Result<Option<Reply>, DeviceError> {
    if !state.readable(1, cell) {
        return Ok(None);
    }
    let here = JobContext::new(alloc, state, ServerNumber::new(1), 1);
    match answer_read(&here, side, store, cell, 0) {
        Ok(reply) => Ok(Some(reply)),
        Err(error) => Err(error),
    }
}

fn byte_in(reply: Result<Option<Reply>, DeviceError>) -> Result<Option<u8>, Fail> {
    match reply? {
        Some(reply) => Ok(byte_of(said(3, reply))),
        None => Ok(None),
    }
}

// What server 1 says of a block.
fn read<D: Disk>(
    alloc: Global,
    state: &GlobalState,
    store: &mut Store<D>,
    block: u64,
) -> Result<Option<u8>, Fail> {
    let side = PairMemory::new(alloc);
    let reply = reply(alloc, state, &side, store, Cell { map: 0, block });
    drop(side);
    byte_in(reply)
}

fn read_new(alloc: Global, state: &GlobalState, block: u64) -> Result<Option<u8>, Fail> {
    let mut store = with_sevens(alloc, KEY, 1)?;
    read(alloc, state, &mut store, block)
}

/// The first byte that a read of a block gives.
fn first_byte(alloc: Global, block: u64) -> Result<Option<u8>, Fail> {
    let state = state(alloc)?;
    read_new(alloc, &state, block)
}

#[test]
fn reads(rt: HostRuntime) -> Result<(), Fail> {
    for (block, byte) in [(4, 7), (6, 0)] {
        assert!(rt;
            first_byte(rt.alloc(), block)? == Some(byte),
            "block {block}"
        );
    }
    Ok(())
}
