//! What is kept of a cell for others, and when it ends.

ghost use Rattle.std.specs.Prelude.{◌≡◌, not, filter};
ghost use Rattle.std.specs.List.Sorted.{IsStrictlySortedBy};
ghost use Rattle.std.specs.Map.{keys_of};
ghost use Rattle.spec_rules.specs.Store.{cell_cmp};
ghost use Rattle.pair_memory.specs.Ended.{cell_ends};

use crate::job_context::JobContext;
use global_state::GlobalState;
use petal_base::Cell;
use petal_command::Command;
use petal_table::Table;

/// Whether what is kept of the cell for others ends with the entry, which makes this next state: the entry touches the cell's
/// link, or the cell is live no longer.
pub fn ends_cell(here: &JobContext, entry: &Command, next: &GlobalState, cell: Cell) -> bool
    ensures { result ≡ cell_ends here.now.state next.now entry.now cell }
{
    here.touches(entry, cell) || (here.state().live(cell) && !next.live(cell))
}

/// The rows go on the cells that end with the entry.
pub fn drop_cells<X: Drop>(
    here: &JobContext,
    entry: &Command,
    next: &GlobalState,
    table: &mut Table<Cell, X>,
)
    ensures rows { table.new ≡ filter (λ row. not (cell_ends here.now.state next.now entry.now row.0)) table.old }
    ensures sorted { IsStrictlySortedBy cell_cmp (keys_of table.old) }
{
    table.retain(|cell, _| !ends_cell(here, entry, next, *cell));
}
