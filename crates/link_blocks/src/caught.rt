//! The links of which nothing is left to copy.

ghost use Rattle.std.specs.Prelude.{◌≡◌, ◌++◌, IfOk, OnOk};
ghost use Rattle.link_table.specs.Numbers.{IsNumbered};
ghost use Rattle.spec_rules.specs.Returns as returns;
ghost use Rattle.spec_state.specs.State.{inc_of};
ghost use Rattle.spec_rules.specs.State.{other_in};
ghost use Rattle.pair_memory.specs.PairMemory.{own_of};
ghost use Rattle.link_blocks.specs.Found.{listed};

use crate::next::next_copy;
use crate::roles::other_in;
use global_state::LinkRow;
use pair_memory::{JobContext, PairMemory, Store};
use petal_base::NoMemory;
use petal_command::{Command, LinkNumber, ServerNumber};
use petal_disk::Disk;
use petal_msg::NextCopy;

fn is_nothing(next: NextCopy) -> bool
    ensures { result ≡ returns.is_nothing next }
{
    match next {
        NextCopy::Nothing => true,
        NextCopy::Ask | NextCopy::Block(_) | NextCopy::Wait => false,
    }
}

/// The link's Caught, where the other server is In.
fn caught_as(here: &JobContext, row: &LinkRow, other: ServerNumber) -> Option<Command>
    requires { IsNumbered row.now }
    ensures { listed result ≡ returns.caught_as here.now row.now other (inc_of here.now.state other) }
{
    let Some(other_inc) = here.state().inc_in(other.get()) else {
        return None;
    };
    Some(Command::Caught {
        map: row.map,
        link: LinkNumber::new(row.link),
        holder: here.number(),
        holder_inc: here.inc(),
        other,
        other_inc,
    })
}

/// The link's Caught, where this server holds the link alone and nothing of it is left to copy.
fn caught_of<D: Disk>(
    here: &JobContext,
    side: &PairMemory,
    store: &Store<D>,
    row: &LinkRow,
) -> Option<Command>
    requires { IsNumbered row.now }
    ensures { listed result ≡ returns.caught_of here.now (own_of side.now store.now) row.now (other_in here.now.state here.now.me row.now) }
{
    let Some(other) = other_in(here, row) else {
        return None;
    };
    if !is_nothing(next_copy(here, side, store, row)) {
        return None;
    }
    caught_as(here, row, ServerNumber::new(other))
}

/// The wants so far, with one more, if any.
fn with_found(wants: &mut Vec<Command>, found: Option<Command>) -> Result<(), NoMemory>
    ensures { OnOk result (wants.new.items ≡ wants.old.items ++ listed found) }
{
    match found {
        Some(found) => Ok(wants.push(found)?),
        None => Ok(()),
    }
}

/// The Caught of each link that the server holds alone, whose other server is In, and of which nothing is left to copy.
///
/// # Errors
/// Out of memory.
pub fn caught_links<D: Disk>(
    here: &JobContext,
    side: &PairMemory,
    store: &Store<D>,
) -> Result<Vec<Command>, NoMemory>
    ensures { IfOk result (λ wants. wants.items ≡ returns.caught_links here.now (own_of side.now store.now)) }
{
    let mut wants = Vec::new(here.alloc());
    for row in here.state().links() {
        let found = caught_of(here, side, store, row);
        with_found(&mut wants, found)?;
    }
    Ok(wants)
}
