//! The other server of a cell's link, for its holder and for that other one.

ghost use Rattle.std.specs.Prelude.{◌≡◌, option_and_then};
ghost use Rattle.spec_state.specs.CellState.{cell_link};
ghost use Rattle.spec_rules.specs.Copies as copies;
ghost use Rattle.spec_rules.specs.State as rules;

use global_state::{LinkRow, LinkState, holder_of};
use pair_memory::JobContext;
use petal_base::{Cell, ServerId};

/// For the server that holds the cell's link alone, the other one, where that is In.
pub fn other_on(here: &JobContext, cell: Cell) -> Option<ServerId>
    ensures { result ≡ option_and_then (rules.other_in here.now.state here.now.me) (cell_link here.now.state cell) }
{
    match here.state().cell_row(cell) {
        Some(row) => here.state().other_in(here.me(), row),
        None => None,
    }
}

/// For the other server of the cell's link, the one that holds it alone.
pub fn holder_on(here: &JobContext, cell: Cell) -> Option<ServerId>
    ensures { result ≡ copies.cell_holder here.now cell }
{
    match here.state().cell_row(cell) {
        Some(row) => holder_of(here.me(), row),
        None => None,
    }
}

/// Whether the other server came back with nothing, so that all is to be copied.
pub fn needs_full_copy(state: LinkState) -> bool
    ensures { result ≡ rules.needs_full_copy state }
{
    match state {
        LinkState::Only {
            holder: _,
            full_copy_needed,
        } => full_copy_needed,
        LinkState::Both | LinkState::Lost => false,
    }
}

/// For the holder of the link, the other one, where that is In.
pub fn other_in(here: &JobContext, row: &LinkRow) -> Option<ServerId>
    ensures { result ≡ rules.other_in here.now.state here.now.me row.now }
{
    here.state().other_in(here.me(), row)
}
