//! What a server has in memory of copies.

ghost use Rattle.std.specs.Prelude.{◌≡◌, not, filter, length, IsSome, OnOk, OnErr, option_copied, unwrap_or};
ghost use Rattle.std.specs.List.Sorted.{IsStrictlySortedBy};
ghost use Rattle.std.specs.Map.{keys_of};
ghost use Rattle.petal_table.specs.Table.{at, put, without};
ghost use Rattle.spec_rules.specs.Progress.{no_progress};
ghost use Rattle.spec_rules.specs.Server.{no_copies};
ghost use Rattle.spec_rules.specs.State.{link_cmp};
ghost use Rattle.spec_rules.specs.Store.{cell_cmp};
ghost use Rattle.pair_memory.specs.Copies as copies;
ghost use Rattle.pair_memory.specs.Ended.{cell_ends, copies_left};

use crate::ends::{drop_cells, ends_cell};
use crate::job_context::JobContext;
use crate::links::{LinkTable, link_id};
use global_state::GlobalState;
use petal_base::{Cell, NoMemory};
use petal_command::Command;
use petal_msg::{Copying, LastCopy, LinkId, Progress};
use petal_table::Table;
use std::alloc::Global;
use std::collections::BTreeMap;
use std::collections::btree_map::Iter;
use std::marker::Model;

/// What a server remembers of copies, for its life: as the holder of a link how far it is, and the copies that are under way;
/// as the other server the last copy of each cell; and whether the copy that ended last found no slot. Contracts see it as
/// the rules do.
#[derive(Drop)]
pub struct Copies {
    progress: LinkTable<Progress>,
    pending: BTreeMap<Cell, Copying>,
    last: Table<Cell, LastCopy>,
    full: bool,
}

impl Model for Copies {
    ghost use Rattle.spec_rules.specs.Server as rules;

    ghost Value = { rules.Copies };

    ghost view = { λ c. record { progress = c.progress; pending = c.pending.entries; last = c.last; full = c.full } };
}

/// The copy is under way on a cell on which one was. It takes no memory.
#[tactic(auto, unfolding(petal_table::specs::Table::at, petal_table::specs::Table::put))]
fn replace_copy(pending: &mut BTreeMap<Cell, Copying>, cell: Cell, copy: Copying)
    requires { IsSome (at cell_cmp pending.old.entries cell) }
    ensures { pending.new.entries ≡ put cell_cmp pending.old.entries cell copy }
{
    match pending.insert(cell, copy) {
        Ok(_) | Err(_) => {}
    }
}

fn end(pending: &mut BTreeMap<Cell, Copying>, cell: Cell)
    ensures { pending.new.entries ≡ without cell_cmp pending.old.entries cell }
{
    // What `len` promises tells the proof that the rows rise by cell.
    let _ = pending.len();
    let _ = pending.remove(&cell);
}

fn drop_pending(
    here: &JobContext,
    entry: &Command,
    next: &GlobalState,
    pending: &mut BTreeMap<Cell, Copying>,
)
    ensures { pending.new.entries ≡ filter (λ row. not (cell_ends here.now.state next.now entry.now row.0)) pending.old.entries }
{
    pending.retain(|cell, _| !ends_cell(here, entry, next, *cell));
}

impl Copies {
    /// Nothing was asked for and nothing was copied. It takes no memory.
    pub fn new(alloc: Global) -> Copies
        ensures { result ≡ no_copies }
    {
        Copies {
            progress: LinkTable::new(alloc),
            pending: BTreeMap::new(alloc),
            last: Table::new(alloc),
            full: false,
        }
    }

    /// How far the holder is with the link.
    pub fn progress_on(&self, link: LinkId) -> Progress
        ensures { result ≡ unwrap_or (at link_cmp self.now.progress link) no_progress }
    {
        match self.found_progress(link) {
            Some(progress) => progress,
            None => Progress {
                after: None,
                paged: false,
                copied: None,
                caught: false,
            },
        }
    }

    /// How far the holder is with the link, where something was noted of it.
    pub fn found_progress(&self, link: LinkId) -> Option<Progress>
        ensures value { result ≡ at link_cmp self.now.progress link }
        ensures sorted { IsStrictlySortedBy link_cmp (keys_of self.now.progress) }
    {
        self.progress.get(link)
    }

    /// Whether a ballot was started for the `Caught` of the cell's link.
    pub fn has_proposed(&self, here: &JobContext, cell: Cell) -> bool
        ensures { result ≡ copies.has_proposed_in here.now.state self.now cell }
    {
        match here.state().cell_row(cell) {
            Some(row) => self.progress_on(link_id(row)).caught,
            None => false,
        }
    }

    /// The holder is as far as this with the link from now on.
    ///
    /// # Errors
    /// Out of memory, which changed nothing.
    pub fn set_progress(&mut self, link: LinkId, progress: Progress) -> Result<(), NoMemory>
        ensures ok { OnOk result (self.new ≡ copies.with_progress self.old link progress) }
        ensures err { OnErr result (self.new ≡ self.old) }
    {
        self.progress.put(link, progress)
    }

    /// How far the holder was with the link before the last `set_progress` of it, as `found_progress` told. It takes no memory.
    pub fn restore_progress(&mut self, link: LinkId, before: Option<Progress>)
        requires { IsSome (at link_cmp self.old.progress link) }
        ensures { self.new ≡ copies.restored self.old link before }
    {
        match before {
            Some(progress) => self.progress.replace(link, progress),
            None => self.progress.remove(link),
        }
    }

    /// How many copies are under way. Their rows rise by cell.
    pub fn count(&self) -> usize
        ensures value { result ≡ length self.now.pending }
        ensures sorted { IsStrictlySortedBy cell_cmp (keys_of self.now.pending) }
    {
        self.pending.len()
    }

    /// The copies that are under way by rising cell.
    pub fn iter(&self) -> Iter<'_, Cell, Copying>
        ensures { result ≡ self.now.pending }
    {
        self.pending.iter()
    }

    /// The copy that is under way on the cell.
    #[tactic(auto, unfolding(petal_table::specs::Table::at))]
    pub fn copying_on(&self, cell: Cell) -> Option<Copying>
        ensures { result ≡ at cell_cmp self.now.pending cell }
    {
        self.pending.get(&cell).copied()
    }

    /// The copy is under way on the cell from now on.
    ///
    /// # Errors
    /// Out of memory, which changed nothing.
    #[tactic(auto, unfolding(petal_table::specs::Table::put))]
    pub fn set_copying(&mut self, cell: Cell, copy: Copying) -> Result<(), NoMemory>
        ensures ok { OnOk result (self.new ≡ copies.with_copying self.old cell copy) }
        ensures err { OnErr result (self.new ≡ self.old) }
    {
        let _ = self.pending.insert(cell, copy)?;
        Ok(())
    }

    /// The copy that is under way on the cell is as far as this from now on. It takes no memory.
    pub fn replace_copying(&mut self, cell: Cell, copy: Copying)
        requires { IsSome (at cell_cmp self.old.pending cell) }
        ensures { self.new ≡ copies.with_copying self.old cell copy }
    {
        replace_copy(&mut self.pending, cell, copy);
    }

    /// No copy is under way on the cell from now on.
    pub fn end_copying(&mut self, cell: Cell)
        ensures { self.new ≡ copies.without_copying self.old cell }
    {
        end(&mut self.pending, cell);
    }

    /// The last copy of the cell to this server.
    pub fn last_copy(&self, cell: Cell) -> Option<&LastCopy>
        ensures { option_copied result ≡ at cell_cmp self.now.last cell }
    {
        self.last.get(&cell)
    }

    /// This is the last copy of the cell to this server.
    ///
    /// # Errors
    /// Out of memory, which changed nothing.
    pub fn set_last_copy(&mut self, cell: Cell, copy: LastCopy) -> Result<(), NoMemory>
        ensures ok { OnOk result (self.new ≡ copies.with_last_copy self.old cell copy) }
        ensures err { OnErr result (self.new ≡ self.old) }
    {
        self.last.put(cell, copy)
    }

    /// The last copy of the cell to this server is as far as this from now on. It takes no memory.
    pub fn replace_last_copy(&mut self, cell: Cell, copy: LastCopy)
        requires { IsSome (at cell_cmp self.old.last cell) }
        ensures { self.new ≡ copies.with_last_copy self.old cell copy }
    {
        self.last.replace(cell, copy);
    }

    /// Whether the copy that ended last found no slot.
    pub fn is_full(&self) -> bool
        ensures { result ≡ self.now.full }
    {
        self.full
    }

    /// From now on it says so, or not.
    pub fn set_full(&mut self, full: bool)
        ensures { self.new ≡ copies.with_full self.old full }
    {
        self.full = full;
    }

    /// Nothing is left of the copies of which nothing is kept after the entry, which makes this next state. It takes no memory.
    pub fn cross(&mut self, here: &JobContext, entry: &Command, next: &GlobalState)
        ensures { self.new ≡ copies_left here.now.state next.now entry.now self.old }
    {
        self.progress.drop_ended(here, entry, next);
        drop_pending(here, entry, next, &mut self.pending);
        drop_cells(here, entry, next, &mut self.last);
    }
}
