//! What the new map's server answered.

ghost use Rattle.std.specs.Prelude.{◌≡◌, true, Ok};
ghost use Rattle.spec_rules.specs.Progress.{with_full};
ghost use Rattle.spec_rules.specs.Server as servers;
ghost use Rattle.spec_rules.specs.Fills as rules;
ghost use Rattle.pair_memory.specs.JobResult.{IsDone, IsSaid, held};
ghost use Rattle.pair_memory.specs.Letters.{posts_of};
ghost use Rattle.pair_memory.specs.PairMemory.{own_of, HasTicketsAt};
ghost use Rattle.redistribute.specs.Following.{following, filled_with};

use crate::letters::fill_letter;
use crate::next::{fill_of, left_after};
use crate::region::link_before;
use global_state::LinkRow;
use pair_memory::{
    JobContext, JobResult, PairMemory, WorkError, link_id, only, silent, with_letter,
};
use petal_base::{Key, Sequence, ServerId};
use petal_disk::{DeviceError, Disk};
use petal_msg::Body;
use server_store::Store;

/// Whether the answer tells of the key that is next.
fn is_next(next: &Option<Key>, key: &Key) -> bool
    ensures { result ≡ rules.is_next next.now key.now }
{
    match next {
        Some(next) => next.block == key.block && next.epoch == key.epoch,
        None => false,
    }
}

/// The key of the link's own map.
fn own_key(row: &LinkRow, key: Key) -> Key
    ensures { result ≡ record { map = row.now.map; block = key.block; epoch = key.epoch } }
{
    Key {
        map: row.map,
        block: key.block,
        epoch: key.epoch,
    }
}

/// The new map has the key from now on, and this letter goes out, if any.
fn note_filled<D: Disk>(
    here: &JobContext,
    side: &mut PairMemory,
    store: &Store<D>,
    row: &LinkRow,
    key: Key,
    found: Option<(ServerId, Body)>,
) -> Result<JobResult, WorkError>
    requires { HasTicketsAt side.old store.now }
    ensures { IsSaid here.now side.old side.new store.now store.now result
        (filled_with (own_of side.old store.now) row.now key (posts_of found)) }
{
    let _ = store;
    let letters = with_letter(here, Sequence::new(here.alloc()), found)?;
    side.filled.put(link_id(row), key)?;
    side.copies.set_full(false);
    Ok(only(letters))
}

/// The new map has the key from now on, and the next entry goes out.
fn go_after<D: Disk>(
    here: &JobContext,
    side: &mut PairMemory,
    store: &mut Store<D>,
    row: &LinkRow,
    key: Key,
) -> Result<JobResult, WorkError>
    requires { HasTicketsAt side.old store.old }
    ensures { IsDone D.Disk here.now (held side.old store.old) (held side.new store.new) result
        (rules.goes_after here.now (following (own_of side.old store.old) row.now key) row.now) }
{
    let next = left_after(here, store, row, &Some(key));
    match fill_letter(here, store, next) {
        Ok(found) => note_filled(here, side, store, row, key, found),
        Err(DeviceError::Failed) => Err(WorkError::Failed),
        Err(DeviceError::NoMemory) => Err(WorkError::NoMemory),
    }
}

/// The new map has the key: where it is the next one of its link, the one after it goes out.
///
/// # Errors
/// `Failed` where the device failed; `NoMemory`, which changed nothing.
#[tactic(auto, unfolding(spec_rules::specs::Fills::on_filled))]
pub fn on_filled<D: Disk>(
    here: &JobContext,
    side: &mut PairMemory,
    store: &mut Store<D>,
    key: Key,
) -> Result<JobResult, WorkError>
    requires { HasTicketsAt side.old store.old }
    ensures { IsDone D.Disk here.now (held side.old store.old) (held side.new store.new) result (rules.on_filled here.now (own_of side.old store.old) key) }
{
    let Some(row) = link_before(here, key) else {
        return silent(here, side, store);
    };
    if !is_next(&fill_of(here, side, store, row), &key) {
        return silent(here, side, store);
    }
    go_after(here, side, store, row, own_key(row, key))
}

/// It is remembered that there was no slot.
fn note_full<D: Disk>(here: &JobContext, side: &mut PairMemory, store: &Store<D>) -> JobResult
    requires { HasTicketsAt side.old store.now }
    ensures { IsSaid here.now side.old side.new store.now store.now (Ok result) (servers.silent (with_full (own_of side.old store.now) true)) }
{
    let _ = store;
    side.copies.set_full(true);
    only(Sequence::new(here.alloc()))
}

/// There is no slot under the new map: the entry is sent again at a tick.
///
/// # Errors
/// Out of memory, which changed nothing.
#[tactic(auto, unfolding(spec_rules::specs::Fills::on_fill_full))]
pub fn on_fill_full<D: Disk>(
    here: &JobContext,
    side: &mut PairMemory,
    store: &Store<D>,
    key: Key,
) -> Result<JobResult, WorkError>
    requires { HasTicketsAt side.old store.now }
    ensures { IsSaid here.now side.old side.new store.now store.now result (rules.on_fill_full here.now (own_of side.old store.now) key) }
{
    let Some(row) = link_before(here, key) else {
        return silent(here, side, store);
    };
    if !is_next(&fill_of(here, side, store, row), &key) {
        return silent(here, side, store);
    }
    Ok(note_full(here, side, store))
}
