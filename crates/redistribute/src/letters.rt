//! The letters with which entries go to the new map.

ghost use Rattle.std.specs.Prelude.{◌≡◌, ◌++◌, length, option_map, IfOk, Some};
ghost use Rattle.std.specs.Ordering.{nat_cmp};
ghost use Rattle.petal_base.specs.Cells.{cell_of, key_at};
ghost use Rattle.petal_table.specs.Table.{at};
ghost use Rattle.spec_rules.specs.Store.{chain_in};
ghost use Rattle.kept_chains.specs.Kept.{chains_of};
ghost use Rattle.petal_msg.specs.declared.body.Body.TheVariants as body;
ghost use Rattle.spec_rules.specs.Fills as fills;
ghost use Rattle.spec_rules.specs.Server.{letters_of, sender};
ghost use Rattle.pair_memory.specs.Letters.{IsLook, posts_of};
ghost use Rattle.pair_memory.specs.PairMemory.{PairMemory as Sides, own_of};
ghost use Rattle.redistribute.specs.Sending.{destination, letter_with};

use crate::next::fill_of;
use kept_chains::read_key;
use pair_memory::{JobContext, PairMemory, with_letter};
use petal_base::{Cell, Key, Sequence, ServerId, SharedBlock};
use petal_disk::{DeviceError, Disk};
use petal_msg::{Body, Letter};
use server_store::Store;

/// The key's cell of the new map, and that cell's lead.
fn destination(here: &JobContext, key: Key) -> Option<(ServerId, Cell)>
    ensures { result ≡ destination here.now.state key }
{
    match here.state().target(key.cell()) {
        None => None,
        Some(cell) => match here.state().lead(cell) {
            None => None,
            Some(to) => Some((to, cell)),
        },
    }
}

fn fill_body(key: Key, cell: Cell, bytes: SharedBlock) -> Body
    ensures { result ≡ body.Fill (key_at cell key.epoch) bytes }
{
    Body::Fill {
        key: Key {
            map: cell.map,
            block: cell.block,
            epoch: key.epoch,
        },
        bytes,
    }
}

/// The letter of the key for a cell and its lead, with the bytes that are read.
fn letter_to<D: Disk>(
    here: &JobContext,
    store: &mut Store<D>,
    key: Key,
    to: ServerId,
    cell: Cell,
) -> Result<Option<(ServerId, Body)>, DeviceError>
    ensures letter { IfOk result (λ found. D.observable → found
        ≡ letter_with key (Some (to, cell)) (option_map (λ entry. entry.bytes) (at nat_cmp (chain_in (chains_of store.old.entries) (cell_of key)) key.epoch))) }
    ensures look { IsLook D.Disk store.old store.new result }
{
    match read_key(here.alloc(), store, key)? {
        Some(bytes) => Ok(Some((to, fill_body(key, cell, bytes)))),
        None => Ok(None),
    }
}

/// The letter with which the entry of this key goes to the lead of the new map's cell.
fn letter_of<D: Disk>(
    here: &JobContext,
    store: &mut Store<D>,
    key: Key,
) -> Result<Option<(ServerId, Body)>, DeviceError>
    ensures letter { IfOk result (λ found. D.observable → (side : Sides) → posts_of found ≡ fills.sends_key here.now.state (own_of side store.old) (Some key)) }
    ensures look { IsLook D.Disk store.old store.new result }
{
    match destination(here, key) {
        Some((to, cell)) => letter_to(here, store, key, to, cell),
        None => Ok(None),
    }
}

/// The same of a key, if there is one.
pub fn fill_letter<D: Disk>(
    here: &JobContext,
    store: &mut Store<D>,
    key: Option<Key>,
) -> Result<Option<(ServerId, Body)>, DeviceError>
    ensures letter { IfOk result (λ found. D.observable → (side : Sides) → posts_of found ≡ fills.sends_key here.now.state (own_of side store.old) key) }
    ensures look { IsLook D.Disk store.old store.new result }
{
    match key {
        Some(key) => letter_of(here, store, key),
        None => Ok(None),
    }
}

/// These letters of a step, and after them the next entry of each link that the server is to move. Each entry is read. Nothing
/// that the store has changed, and the device keeps it as before.
///
/// # Errors
/// `Failed` where the device failed, and out of memory.
pub fn fills_after<D: Disk>(
    here: &JobContext,
    side: &PairMemory,
    store: &mut Store<D>,
    before: Sequence<Letter>,
) -> Result<Sequence<Letter>, DeviceError>
    ensures letters { IfOk result (λ letters. D.observable → letters
        ≡ before ++ letters_of (sender here.now) (length before) (fills.fill_posts here.now (own_of side.now store.old))) }
    ensures look { IsLook D.Disk store.old store.new result }
{
    let mut letters = before;
    for row in here.state().links() {
        let key = fill_of(here, side, store, row);
        let found = fill_letter(here, store, key)?;
        letters = with_letter(here, letters, found)?;
    }
    Ok(letters)
}
