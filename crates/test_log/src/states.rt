//! A store of a server's state is formatted, used, and opened again.

use petal_command::{Ballot, Command, ServerNumber};
use petal_disk::{Disk, MemDisk};
use state_store::{StateError, StateStore};
use std::alloc::Global;
use std::process::Abort;
use std::test::Fail;

const LOW: Ballot = Ballot {
    round: 1,
    server: 0,
};

const HIGH: Ballot = Ballot {
    round: 1,
    server: 1,
};

fn leave() -> Command {
    Command::Leave {
        server: ServerNumber::new(2),
        inc: 1,
    }
}

fn formatted(alloc: Global) -> Result<StateStore<MemDisk>, Fail> {
    let disk = MemDisk::new(alloc, 8_392_704)?;
    match StateStore::format(alloc, disk, 1) {
        Ok(store) => Ok(store),
        Err((_, error)) => Err(error.into()),
    }
}

fn opened(alloc: Global, disk: MemDisk) -> Result<StateStore<MemDisk>, Fail> {
    match StateStore::open(alloc, disk) {
        Ok(store) => Ok(store),
        Err((_, error)) => Err(error.into()),
    }
}

fn fill<D: Disk>(store: &mut StateStore<D>) -> Result<(), StateError> {
    let leave = leave();
    store.promise(7, LOW)?;
    store.accept(7, LOW, &leave)?;
    store.promise(7, HIGH)?;
    store.choose(8, &leave)?;
    store.raise_inc()?;
    Ok(())
}

fn has_voted<D: Disk>(store: &StateStore<D>) -> bool {
    store.promised(7) == Some(HIGH) && store.accepted(7) == Some((LOW, leave()))
}

fn has_learnt<D: Disk>(store: &StateStore<D>) -> bool {
    store.chosen(8) == Some(leave()) && store.chosen(7).is_none()
}

fn look<D: Disk>(rt: &impl Abort, store: &StateStore<D>) {
    assert_eq!(rt; store.inc(), 2);
    assert!(rt; has_voted(store));
    assert!(rt; has_learnt(store));
}

#[test]
fn outlives_a_boot(rt: HostRuntime) -> Result<(), Fail> {
    let mut store = formatted(rt.alloc())?;
    fill(&mut store)?;
    let again = opened(rt.alloc(), store.into_disk())?;
    look(&rt, &again);
    Ok(())
}

#[test]
fn blank_device(rt: HostRuntime) -> Result<(), Fail> {
    let disk = MemDisk::new(rt.alloc(), 8_392_704)?;
    assert!(rt;
        matches!(
            &StateStore::open(rt.alloc(), disk),
            Err((_, StateError::Blank))
        )
    );
    Ok(())
}
