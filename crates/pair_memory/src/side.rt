//! What a server has in memory of its pairs.

ghost use Rattle.std.specs.Prelude.{◌≡◌, ◌||◌, ◌<◌, ◌+◌, IfOk, IfErr, IfSome, is_some};
ghost use Rattle.std.specs.List.Sorted.{IsStrictlySortedBy};
ghost use Rattle.std.specs.Map.{keys_of};
ghost use Rattle.std.specs.Ordering.{nat_cmp};
ghost use Rattle.petal_table.specs.Table.{at};
ghost use Rattle.spec_rules.specs.Store.{cell_cmp};
ghost use Rattle.spec_rules.specs.World.{greatest_u64};
ghost use Rattle.pair_memory.specs.declared.error.WorkError.TheVariants as error;
ghost use Rattle.pair_memory.specs.PairMemory.{new_side};

use crate::copies::Copies;
use crate::error::WorkError;
use crate::links::LinkTable;
use kept_chains::Ticket;
use pair_lock::PairLock;
use petal_base::{Cell, ClientId, Key, NoMemory, Op};
use petal_msg::{Finished, LastOp, Pending};
use petal_table::Table;
use std::alloc::Global;
use std::marker::Model;

/// One server's side of its pairs, for its life: the number of its next operation, what is pending, what it finished for each
/// client, the last operation that it followed on each cell, what it remembers of copies, the last key of each link that the new
/// map is known to have, and the tickets for the slots set apart, for operations of its own and for the leads of cells.
#[derive(Drop)]
pub struct PairMemory {
    pub next: Op,
    pub locks: PairLock,
    pub finished: Table<ClientId, Finished>,
    pub last: Table<Cell, LastOp>,
    pub copies: Copies,
    pub filled: LinkTable<Key>,
    pub own: Table<Cell, Ticket>,
    pub apart: Table<Cell, Ticket>,
}

impl Model for PairMemory {
    ghost use Rattle.pair_memory.specs.PairMemory as sides;

    ghost Value = { sides.PairMemory };

    ghost view = { λ s. record {
      next = s.next;
      pending = s.locks;
      finished = s.finished;
      last = s.last;
      copies = s.copies;
      filled = s.filled;
      own = s.own;
      apart = s.apart;
    } };
}

impl PairMemory {
    /// Nothing was done yet. It takes no memory.
    pub fn new(alloc: Global) -> PairMemory
        ensures { result ≡ new_side }
    {
        PairMemory {
            next: 1,
            locks: PairLock::new(alloc),
            finished: Table::new(alloc),
            last: Table::new(alloc),
            copies: Copies::new(alloc),
            filled: LinkTable::new(alloc),
            own: Table::new(alloc),
            apart: Table::new(alloc),
        }
    }

    /// What was finished last for the client.
    pub fn finished_for(&self, client: ClientId) -> Option<Finished>
        ensures { result ≡ at nat_cmp self.now.finished client }
    {
        self.finished.get(&client).copied()
    }

    /// The last operation that was followed on the cell.
    pub fn last_on(&self, cell: Cell) -> Option<LastOp>
        ensures { result ≡ at cell_cmp self.now.last cell }
    {
        self.last.get(&cell).copied()
    }

    /// Whether an operation or a copy is under way on the cell.
    pub fn is_under_way(&self, cell: Cell) -> bool
        ensures { result ≡ (is_some (at cell_cmp self.now.pending cell) || is_some (at cell_cmp self.now.copies.pending cell)) }
    {
        self.locks.is_busy(cell) || self.copies.copying_on(cell).is_some()
    }

    /// The operation that is pending on the cell, with an owner more of its block.
    pub fn pending_on(&self, cell: Cell) -> Result<Option<Pending>, NoMemory>
        ensures value { IfOk result (λ found. found ≡ at cell_cmp self.now.pending cell) }
        ensures own { IfSome (at cell_cmp self.now.pending cell) (λ op. op.cell ≡ cell) }
        ensures sorted { IsStrictlySortedBy cell_cmp (keys_of self.now.pending) }
    {
        match self.locks.get(cell) {
            Some(pending) => Ok(Some(pending.clone()?)),
            None => Ok(None),
        }
    }
}

/// The number of the operation after this one.
///
/// # Errors
/// `Exhausted` where there is none.
pub fn next_number(number: Op) -> Result<Op, WorkError>
    ensures ok { IfOk result (λ next. next ≡ number + 1) }
    ensures spent { IfErr result (λ e. (e ≡ error.Exhausted) × (greatest_u64 < number + 1)) }
{
    number.checked_add(1).ok_or(WorkError::Exhausted)
}
