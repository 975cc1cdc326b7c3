//! The links of which nothing is left to move.

ghost use Rattle.std.specs.Prelude.{◌≡◌, ◌++◌, IfOk, OnOk};
ghost use Rattle.std.specs.List.{flat_map};
ghost use Rattle.link_table.specs.Numbers.{IsNumbered};
ghost use Rattle.spec_rules.specs.Fills as fills;
ghost use Rattle.pair_memory.specs.PairMemory.{own_of};
ghost use Rattle.redistribute.specs.Wants.{listed};

use crate::next::fill_of;
use crate::region::region_to_move;
use global_state::LinkRow;
use pair_memory::{JobContext, PairMemory};
use petal_base::NoMemory;
use petal_command::{Command, LinkNumber};
use petal_disk::Disk;
use server_store::Store;

/// The link's Moved, where this server is to move a region of it and nothing of that is left.
fn moved_of<D: Disk>(
    here: &JobContext,
    side: &PairMemory,
    store: &Store<D>,
    row: &LinkRow,
) -> Option<Command>
    requires { IsNumbered row.now }
    ensures { listed result ≡ fills.moved_of here.now (own_of side.now store.now) row.now }
{
    let Some(region) = region_to_move(here, row) else {
        return None;
    };
    if fill_of(here, side, store, row).is_some() {
        return None;
    }
    Some(Command::Moved {
        map: row.map,
        region,
        link: LinkNumber::new(row.link),
    })
}

/// The wants so far, with one more, if any.
fn with_found(wants: &mut Vec<Command>, found: Option<Command>) -> Result<(), NoMemory>
    ensures { OnOk result (wants.new.items ≡ wants.old.items ++ listed found) }
{
    match found {
        Some(found) => Ok(wants.push(found)?),
        None => Ok(()),
    }
}

/// The Moved of each link of which nothing is left, at a server that is In as itself.
///
/// # Errors
/// Out of memory.
pub fn moving<D: Disk>(
    here: &JobContext,
    side: &PairMemory,
    store: &Store<D>,
) -> Result<Vec<Command>, NoMemory>
    ensures { IfOk result (λ wants. wants.items ≡ flat_map (fills.moved_of here.now (own_of side.now store.now)) here.now.state.links) }
{
    let mut wants = Vec::new(here.alloc());
    for row in here.state().links() {
        let found = moved_of(here, side, store, row);
        with_found(&mut wants, found)?;
    }
    Ok(wants)
}
