//! The table of pending operations.

ghost use Rattle.std.specs.Prelude.{◌≡◌, ◌↔◌, [], length, Err, IsSome, IfSome, OnOk, OnErr, IfErr, is_some, option_copied};
ghost use Rattle.std.specs.List.Sorted.{IsStrictlySortedBy};
ghost use Rattle.std.specs.Map.{keys_of};
ghost use Rattle.petal_table.specs.Table.{at, put, without};
ghost use Rattle.spec_rules.specs.Writes.{is_clients};
ghost use Rattle.spec_rules.specs.Store.{cell_cmp};
ghost use Rattle.pair_lock.specs.Pairs.{refused, at_stage, staged, at_version, versioned, above, is_next, is_write_in, first_write_in, next_pending};
ghost use Rattle.pair_lock.specs.declared.error.PairError.TheVariants as error;

use crate::{PairError, Scope};
use petal_base::{BlockNo, Cell, MapId, Version};
use petal_msg::{OpKind, Pending, Stage};
use std::alloc::Global;
use std::collections::BTreeMap;
use std::collections::btree_map::Iter;
use std::marker::Model;

/// The pending operations of a lead. Contracts see them by rising cell, each beside its cell.
#[derive(Drop)]
pub struct PairLock {
    rows: BTreeMap<Cell, Pending>,
}

impl Model for PairLock {
    ghost use Rattle.std.specs.Prelude.{List};
    ghost use Rattle.petal_base.specs.declared.cell.Cell.{Cell};
    ghost use Rattle.petal_msg.specs.declared.operation.Pending.{Pending};
    ghost use Rattle.pair_lock.specs.Pairs.{EachAtItsCell};

    ghost Value = { List (Cell × Pending) };

    ghost view = { λ p. p.rows.entries };

    ghost invariant = { λ p. EachAtItsCell p.rows.entries };
}

impl PairLock {
    /// Nothing is pending. It takes no memory.
    pub fn new(alloc: Global) -> PairLock
        ensures { result ≡ [] }
    {
        PairLock {
            rows: BTreeMap::new(alloc),
        }
    }

    /// The operation is pending on its cell from now on, unless another one is.
    pub fn open(&mut self, pending: Pending) -> Result<(), PairError>
        ensures ok { OnOk result (self.new ≡ put cell_cmp self.old pending.cell pending) }
        ensures err { OnErr result (self.new ≡ self.old) }
        ensures busy { (result ≡ Err (error.Busy pending)) ↔ IsSome (at cell_cmp self.old pending.cell) }
        ensures back { IfErr result (λ e. refused e ≡ pending) }
    {
        if self.is_busy(pending.cell) {
            return Err(PairError::Busy(pending));
        }
        match self.insert(pending) {
            Ok(()) => Ok(()),
            Err(pending) => Err(PairError::NoMemory(pending)),
        }
    }

    /// Whether an operation is pending on the cell.
    #[tactic(auto, unfolding(petal_table::specs::Table::at))]
    pub fn is_busy(&self, cell: Cell) -> bool
        ensures { result ≡ is_some (at cell_cmp self.now cell) }
    {
        self.rows.contains_key(&cell)
    }

    #[tactic(auto, unfolding(petal_table::specs::Table::put))]
    fn insert(&mut self, pending: Pending) -> Result<(), Pending>
        ensures ok { OnOk result (self.new ≡ put cell_cmp self.old pending.cell pending) }
        ensures err { OnErr result (self.new ≡ self.old) }
        ensures back { IfErr result (λ op. op ≡ pending) }
    {
        match self.rows.insert(pending.cell, pending) {
            Ok(_) => Ok(()),
            Err(failed) => Err(failed.value.1),
        }
    }

    /// The operation that is pending on the cell.
    #[tactic(auto, unfolding(petal_table::specs::Table::at))]
    pub fn get(&self, cell: Cell) -> Option<&Pending>
        ensures value { option_copied result ≡ at cell_cmp self.now cell }
        ensures own { IfSome (at cell_cmp self.now cell) (λ op. op.cell ≡ cell) }
        ensures sorted { IsStrictlySortedBy cell_cmp (keys_of self.now) }
    {
        // What `len` promises tells the proof that the rows rise by cell.
        let _ = self.rows.len();
        self.rows.get(&cell)
    }

    /// All of them by rising cell.
    pub fn iter(&self) -> Iter<'_, Cell, Pending>
        ensures { result ≡ self.now }
    {
        self.rows.iter()
    }

    /// What is pending on the cell is as far as this from now on. False exactly where nothing is.
    #[tactic(auto, unfolding(petal_table::specs::Table::at))]
    pub fn set_stage(&mut self, cell: Cell, stage: Stage) -> bool
        ensures table { self.new ≡ staged self.old cell stage (at cell_cmp self.old cell) }
        ensures answer { result ≡ is_some (at cell_cmp self.old cell) }
    {
        let Some(pending) = self.rows.get_mut(&cell) else {
            return false;
        };
        restage(pending, stage);
        true
    }

    /// What is pending on the cell has this version and is as far as this from now on. False exactly where nothing is.
    #[tactic(auto, unfolding(petal_table::specs::Table::at))]
    pub fn set_put(&mut self, cell: Cell, version: Version, stage: Stage) -> bool
        ensures table { self.new ≡ versioned self.old cell version stage (at cell_cmp self.old cell) }
        ensures answer { result ≡ is_some (at cell_cmp self.old cell) }
    {
        let Some(pending) = self.rows.get_mut(&cell) else {
            return false;
        };
        advance(pending, version, stage);
        true
    }

    /// Nothing is pending on the cell from now on. Gives what was.
    #[tactic(auto, unfolding(petal_table::specs::Table::at))]
    pub fn close(&mut self, cell: Cell) -> Option<Pending>
        ensures table { self.new ≡ without cell_cmp self.old cell }
        ensures answer { result ≡ at cell_cmp self.old cell }
        ensures own { IfSome (at cell_cmp self.old cell) (λ op. op.cell ≡ cell) }
    {
        // What `len` promises tells the proof that the rows rise by cell.
        let _ = self.rows.len();
        self.rows.remove(&cell)
    }

    /// The first cell of a scope on which a write is pending.
    pub fn first_write_in(&self, scope: &Scope) -> Option<Cell>
        ensures { result ≡ first_write_in scope.now self.now }
    {
        for (cell, pending) in &self.rows {
            if is_write_in(scope, *cell, pending) {
                return Some(*cell);
            }
        }
        None
    }

    /// The cell of the map with the least block above `after` on which an operation of any kind is pending.
    pub fn next_pending(&self, map: MapId, after: Option<BlockNo>) -> Option<Cell>
        ensures { result ≡ next_pending map after self.now }
    {
        for (cell, pending) in &self.rows {
            if is_next(map, after, *cell, pending) {
                return Some(*cell);
            }
        }
        None
    }
}

fn restage(pending: &mut Pending, stage: Stage)
    ensures { pending.new ≡ at_stage pending.old stage }
{
    pending.stage = stage;
}

fn advance(pending: &mut Pending, version: Version, stage: Stage)
    ensures { pending.new ≡ at_version pending.old version stage }
{
    pending.version = version;
    pending.stage = stage;
}

/// Whether an operation of this kind was opened for a client's write.
pub fn is_clients(kind: OpKind) -> bool
    ensures { result ≡ is_clients kind }
{
    match kind {
        OpKind::Write => true,
        OpKind::Fill | OpKind::Copy => false,
    }
}

fn is_write_in(scope: &Scope, cell: Cell, pending: &Pending) -> bool
    ensures { result ≡ is_write_in scope.now (cell, pending.now) }
{
    is_clients(pending.kind) && scope.covers(cell)
}

fn is_above(after: Option<BlockNo>, block: BlockNo) -> bool
    ensures { result ≡ above after block }
{
    match after {
        Some(after) => after < block,
        None => true,
    }
}

fn is_next(map: MapId, after: Option<BlockNo>, cell: Cell, pending: &Pending) -> bool
    ensures { result ≡ is_next map after (cell, pending.now) }
{
    let _ = pending;
    cell.map == map && is_above(after, cell.block)
}
