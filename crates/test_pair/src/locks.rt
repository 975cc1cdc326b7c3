//! Operations at concrete blocks.

use pair_lock::{OpKind, PairError, PairLock, Pending, Scope, Stage};
use petal_base::{Block, Cell, Key, NoMemory, SharedBlock};
use petal_msg::WriterNumber;
use std::alloc::Global;
use std::test::Fail;

const FAR: Cell = Cell { map: 0, block: 9 };

const NEAR: Cell = Cell { map: 0, block: 5 };

const OTHER: Cell = Cell { map: 1, block: 130 };

fn sevens(alloc: Global) -> Result<SharedBlock, NoMemory> {
    SharedBlock::new(alloc, Block::fill(alloc, 7)?)
}

fn pending(alloc: Global, op: u64, kind: OpKind, cell: Cell) -> Result<Pending, NoMemory> {
    let bytes = sevens(alloc)?;
    Ok(Pending {
        op,
        kind,
        cell,
        key: Key {
            map: cell.map,
            block: cell.block,
            epoch: 0,
        },
        version: 0,
        stage: Stage {
            reserved: false,
            busy: false,
            stale: false,
            put: false,
            paired: false,
            trimmed: false,
            index: 0,
        },
        client: WriterNumber::new(0),
        seq: 1,
        rev: 1,
        bytes,
    })
}

/// The number of the operation that is refused since its cell has one.
fn busy(opened: Result<(), PairError>) -> Option<u64> {
    match opened {
        Err(PairError::Busy(pending)) => Some(pending.op),
        Err(PairError::NoMemory(_)) | Ok(()) => None,
    }
}

fn opens(
    alloc: Global,
    locks: &mut PairLock,
    op: u64,
    kind: OpKind,
    cell: Cell,
) -> Result<bool, NoMemory> {
    Ok(locks.open(pending(alloc, op, kind, cell)?).is_ok())
}

fn open_twice(alloc: Global, locks: &mut PairLock) -> Result<bool, NoMemory> {
    let first = opens(alloc, locks, 1, OpKind::Write, NEAR)?;
    let second = locks.open(pending(alloc, 2, OpKind::Copy, NEAR)?);
    Ok(first && busy(second) == Some(2))
}

/// The stage of the operation, which is the first one, and has reserved then.
fn go_on(locks: &mut PairLock) -> Option<Stage> {
    let found = locks.get(NEAR)?;
    if found.op != 1 {
        return None;
    }
    let mut stage = found.stage;
    stage.reserved = true;
    if locks.set_stage(NEAR, stage) {
        Some(stage)
    } else {
        None
    }
}

fn close(locks: &mut PairLock, stage: Stage) -> bool {
    let closed = locks.close(NEAR);
    closed.is_some_and(|op| op.stage.reserved)
        && !locks.set_stage(NEAR, stage)
        && locks.close(NEAR).is_none()
}

#[test]
fn operations_open_and_close(rt: HostRuntime) -> Result<(), Fail> {
    let mut locks = PairLock::new(rt.alloc());
    assert!(rt; open_twice(rt.alloc(), &mut locks)?);
    let stage = go_on(&mut locks).ok_or("the first operation is pending")?;
    assert!(rt; close(&mut locks, stage));
    Ok(())
}

fn open_three(alloc: Global, locks: &mut PairLock) -> Result<bool, NoMemory> {
    Ok(
        opens(alloc, locks, 1, OpKind::Copy, NEAR)?
            && opens(alloc, locks, 2, OpKind::Write, FAR)?
            && opens(alloc, locks, 3, OpKind::Write, OTHER)?,
    )
}

fn follow(locks: &PairLock) -> bool {
    locks.next_pending(0, None) == Some(NEAR)
        && locks.next_pending(0, Some(5)) == Some(FAR)
        && locks.next_pending(0, Some(9)) == None
}

fn find(locks: &PairLock) -> bool {
    let all = Scope {
        map: 0,
        old_map: None,
        region: None,
    };
    let moved = Scope {
        map: 0,
        old_map: Some(1),
        region: Some(0),
    };
    locks.first_write_in(&all) == Some(FAR) && locks.first_write_in(&moved) == Some(OTHER)
}

#[test]
fn cells_are_found_in_order(rt: HostRuntime) -> Result<(), Fail> {
    let mut locks = PairLock::new(rt.alloc());
    assert!(rt; open_three(rt.alloc(), &mut locks)?);
    assert!(rt; follow(&locks), "in order");
    assert!(rt; find(&locks), "in a scope");
    Ok(())
}
