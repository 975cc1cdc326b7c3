//! Whether a server may report to the active fence.

ghost use Rattle.std.specs.Prelude.{◌≡◌};
ghost use Rattle.std.specs.List.{list_any};
ghost use Rattle.spec_rules.specs.Draining.{awaits};
ghost use Rattle.spec_rules.specs.Writes.{is_writes_held};
ghost use Rattle.epoch_snapshot.specs.Report.{is_held_write, report};

use global_state::{Fence, GlobalState, Hold};
use pair_lock::{PairLock, Pending, is_clients};
use petal_base::{Cell, ServerId};

fn is_writes_held(held: Hold) -> bool
    ensures { result ≡ is_writes_held held }
{
    match held {
        Hold::No => false,
        Hold::Writes | Hold::All => true,
    }
}

/// Whether the operation is a client's write on a cell of which the active fence holds the writes.
fn is_held_write(state: &GlobalState, cell: Cell, pending: &Pending) -> bool
    ensures { result ≡ is_held_write state.now (cell, pending.now) }
{
    is_clients(pending.kind) && is_writes_held(state.held(cell))
}

fn has_held_write(state: &GlobalState, locks: &PairLock) -> bool
    ensures { result ≡ list_any (is_held_write state.now) locks.now }
{
    for (cell, pending) in locks.iter() {
        if is_held_write(state, *cell, pending) {
            return true;
        }
    }
    false
}

fn awaits(fence: &Fence, server: ServerId) -> bool
    ensures { result ≡ awaits fence.now server }
{
    fence
        .waiting
        .as_slice()
        .iter()
        .any(|waiting| server == *waiting)
}

/// The number of the active fence, where that awaits the server and no client's write is pending on a cell of which it holds
/// the writes. It takes no memory.
pub fn drained(state: &GlobalState, me: ServerId, locks: &PairLock) -> Option<u32>
    ensures { result ≡ report state.now me locks.now }
{
    match state.fence() {
        Some(fence) => {
            if awaits(fence, me) && !has_held_write(state, locks) {
                Some(fence.number)
            } else {
                None
            }
        }
        None => None,
    }
}
