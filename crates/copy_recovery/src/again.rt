//! What a tick sends again.

ghost use Rattle.std.specs.Prelude.{◌≡◌, ◌++◌, List, length, IfOk, Some};
ghost use Rattle.petal_disk.specs.Keeping.{KeepsDevice};
ghost use Rattle.petal_msg.specs.declared.copying.CopyAction.TheVariants as copy_action;
ghost use Rattle.spec_rules.specs.Copies as copies;
ghost use Rattle.spec_rules.specs.Server.{Post, letters_of, sender};
ghost use Rattle.spec_rules.specs.State.{other_in};
ghost use Rattle.kept_chains.specs.Kept.{store_of};
ghost use Rattle.kept_chains.specs.Reading.{IsReadFault};
ghost use Rattle.pair_memory.specs.PairMemory.{PairMemory as Sides, own_of};
ghost use Rattle.pair_memory.specs.JobResult.{HoldsAt};
ghost use Rattle.pair_memory.specs.Letters.{IsLook, posts_of};
ghost use Rattle.copy_recovery.specs.Again.{other_of_cell};

use crate::page::page_wanted;
use copy_transfer::{copy_stage, next_copy, other_in, other_on, sync_body, trim_body};
use global_state::LinkRow;
use kept_chains::read_nth;
use pair_memory::{JobContext, PairMemory, with_letter};
use petal_base::{Cell, NoMemory, Sequence, ServerId};
use petal_disk::{DeviceError, Disk};
use petal_msg::{Body, CopyAction, Copying, Letter, NextCopy};
use server_store::Store;

/// The letter of an entry that is not yet answered.
fn entry_awaited<D: Disk>(
    here: &JobContext,
    store: &mut Store<D>,
    to: ServerId,
    cell: Cell,
    copy: Copying,
) -> Result<Option<(ServerId, Body)>, DeviceError>
    ensures letter { IfOk result (λ found. D.observable → (side : Sides) → other_of_cell here.now cell ≡ Some to
        → posts_of found ≡ (copies.copy_acts here.now (own_of side store.old) cell copy copy_action.Sync).posts) }
    ensures look { IsLook D.Disk store.old store.new result }
{
    match read_nth(here.alloc(), store, cell, copy.index as usize)? {
        Some(found) => Ok(Some((to, sync_body(cell, copy, found)))),
        None => Ok(None),
    }
}

/// The letter of which a copy waits for the answer.
fn awaited<D: Disk>(
    here: &JobContext,
    store: &mut Store<D>,
    cell: Cell,
    copy: Copying,
) -> Result<Option<(ServerId, Body)>, DeviceError>
    ensures letter { IfOk result (λ found. D.observable → (side : Sides)
        → posts_of found ≡ copies.copy_awaited here.now (own_of side store.old) cell copy (copies.copy_stage (store_of store.old) cell copy)) }
    ensures look { IsLook D.Disk store.old store.new result }
{
    let Some(to) = other_on(here, cell) else {
        return Ok(None);
    };
    match copy_stage(store, cell, copy) {
        CopyAction::Trim => Ok(Some((to, trim_body(here, store, cell, copy)?))),
        CopyAction::Sync => entry_awaited(here, store, to, cell, copy),
        CopyAction::Unmark(_) | CopyAction::Close => Ok(None),
    }
}

/// The page of the link that is not yet answered.
fn page_awaited<D: Disk>(
    here: &JobContext,
    side: &PairMemory,
    store: &Store<D>,
    row: &LinkRow,
) -> Option<(ServerId, Body)>
    ensures { posts_of result ≡ copies.page_for here.now.state (own_of side.now store.now) row.now (other_in here.now.state here.now.me row.now) }
{
    let other = other_in(here, row)?;
    match next_copy(here, side, store, row) {
        NextCopy::Ask => Some((other, page_wanted(side, row))),
        NextCopy::Block(_) | NextCopy::Wait | NextCopy::Nothing => None,
    }
}

/// Letters of the step, and after them those of the pages that are not yet answered.
fn pages_after<D: Disk>(
    here: &JobContext,
    side: &PairMemory,
    store: &Store<D>,
    before: Sequence<Letter>,
) -> Result<Sequence<Letter>, NoMemory>
    ensures { IfOk result (λ letters. letters
        ≡ before ++ letters_of (sender here.now) (length before) (copies.page_posts here.now (own_of side.now store.now))) }
{
    let mut letters = before;
    for row in here.state().links() {
        let found = page_awaited(here, side, store, row);
        letters = with_letter(here, letters, found)?;
    }
    Ok(letters)
}

/// The letters of the step so far with that of one copy more, if it waits for an answer.
fn with_awaited<D: Disk>(
    here: &JobContext,
    store: &mut Store<D>,
    cell: Cell,
    copy: Copying,
    letters: Sequence<Letter>,
) -> Result<Sequence<Letter>, DeviceError>
    ensures letters { IfOk result (λ more. D.observable → (side : Sides) → (posts : List Post)
        → posts ≡ copies.copy_awaited here.now (own_of side store.old) cell copy (copies.copy_stage (store_of store.old) cell copy)
        → more ≡ letters ++ letters_of (sender here.now) (length letters) posts) }
    ensures look { IsLook D.Disk store.old store.new result }
{
    let found = awaited(here, store, cell, copy)?;
    Ok(with_letter(here, letters, found)?)
}

/// Letters of the step, and after them those of the copies that are not yet answered.
fn copies_after<D: Disk>(
    here: &JobContext,
    side: &PairMemory,
    store: &mut Store<D>,
    before: Sequence<Letter>,
) -> Result<Sequence<Letter>, DeviceError>
    ensures letters { IfOk result (λ letters. D.observable → letters
        ≡ before ++ letters_of (sender here.now) (length before) (copies.copy_posts here.now (own_of side.now store.old))) }
    ensures look { IsLook D.Disk store.old store.new result }
{
    let mut letters = before;
    for (cell, copy) in side.copies.iter() {
        letters = with_awaited(here, store, *cell, *copy, letters)?;
    }
    Ok(letters)
}

/// These letters of a step, and after them those of all copies and pages that are not yet answered. The entry that a copy sends
/// again is read. Nothing that the store has changed, and the device keeps it as before.
///
/// # Errors
/// `Failed` where the device failed, and out of memory.
pub fn letters_after<D: Disk>(
    here: &JobContext,
    side: &PairMemory,
    store: &mut Store<D>,
    before: Sequence<Letter>,
) -> Result<Sequence<Letter>, DeviceError>
    ensures letters { IfOk result (λ letters. D.observable → letters
        ≡ before ++ letters_of (sender here.now) (length before)
        (copies.copy_posts here.now (own_of side.now store.old) ++ copies.page_posts here.now (own_of side.now store.old))) }
    ensures same { store.new ≡ record store.old { disk = store.new.disk } }
    ensures device { KeepsDevice D.size D.seen D.may_leave D.moment D.left_since store.old.disk store.new.disk }
    ensures holds { D.observable → HoldsAt D.Disk store.old → HoldsAt D.Disk store.new }
    ensures cause { IsReadFault (D.faults store.old.disk) (D.faults store.new.disk) result }
    ensures run { D.came_to store.old.disk store.new.disk }
{
    let letters = copies_after(here, side, store, before)?;
    Ok(pages_after(here, side, store, letters)?)
}
