//! A set of marks.

ghost use Rattle.std.specs.Prelude.{◌≡◌, ◌≤◌, ◌<◌, ◌⊎◌, ℕ, true, OnOk, OnErr, IfSome, IfNone, [], false, nat_le};
ghost use Rattle.std.specs.List.{All, find};
ghost use Rattle.std.specs.List.Sorted.{IsStrictlySortedBy};
ghost use Rattle.std.specs.BTreeMap.Range.{is_from_start};
ghost use Rattle.busy_marks.specs.Marks.{mark_cmp, has_mark, with_mark, without_mark, next_marked, next_marked_map, above};
ghost use Rattle.busy_marks.specs.Searches.{after_block, from_map, block_on, map_on};

use petal_base::{BlockNo, Cell, MapId, NoMemory};
use sorted_list::SortedList;
use std::alloc::Global;
use std::marker::Model;
use std::ops::Bound;

/// What a mark says of a cell.
#[derive(Clone, Copy, Debug, PartialEq, Eq, PartialOrd, Ord)]
pub enum MarkKind {
    /// An operation on both copies is under way.
    Busy,
    /// The other copy has missed a put.
    Stale,
}

/// One mark.
#[derive(Clone, Copy, Debug, PartialEq, Eq, PartialOrd, Ord)]
pub struct Mark {
    pub cell: Cell,
    pub kind: MarkKind,
}

/// A set of marks, each found by search. Contracts see them as a list in the order of their cells and kinds, and for how many more
/// there is room.
#[derive(Drop)]
pub struct Marks {
    marks: SortedList<Mark>,
}

impl Model for Marks {
    ghost use Rattle.std.specs.List.Sorted.{IsStrictlySortedBy};
    ghost use Rattle.busy_marks.specs.Marks.{Marked, mark_cmp};

    ghost Value = { Marked };

    ghost view = { λ m. record { marks = m.marks.items; spare = m.marks.spare } };

    ghost invariant = { λ m. IsStrictlySortedBy mark_cmp m.marks.items };
}

impl Marks {
    /// No mark. It takes no memory.
    pub fn new(alloc: Global) -> Marks
        ensures { result.marks ≡ [] }
    {
        Marks {
            marks: SortedList::new(alloc),
        }
    }

    /// Makes room for so many marks more.
    ///
    /// # Errors
    /// There was no memory, and nothing changed.
    pub fn reserve(&mut self, room: u32) -> Result<(), NoMemory>
        ensures room { OnOk result (room ≤ self.new.spare) }
        ensures marks { self.new.marks ≡ self.old.marks }
        ensures spare { self.old.spare ≤ self.new.spare }
    {
        self.marks.reserve(room)?;
        Ok(())
    }

    /// Sets a mark for which there is room. Where it is set nothing changes. It takes no memory.
    pub fn set_reserved(&mut self, kind: MarkKind, cell: Cell)
        requires { (0 < self.old.spare) ⊎ (has_mark (record { kind = kind; cell = cell }) self.old.marks ≡ true) }
        ensures { self.new.marks ≡ with_mark self.old.marks (record { kind = kind; cell = cell }) }
    {
        self.marks.place(Mark { cell, kind });
    }

    /// Sets a mark. Where it is set nothing changes.
    ///
    /// # Errors
    /// There was no memory, and nothing changed.
    pub fn set(&mut self, kind: MarkKind, cell: Cell) -> Result<(), NoMemory>
        ensures ok { OnOk result (self.new.marks ≡ with_mark self.old.marks (record { kind = kind; cell = cell })) }
        ensures err { OnErr result (self.new.marks ≡ self.old.marks) }
    {
        self.reserve(1)?;
        self.set_reserved(kind, cell);
        Ok(())
    }

    /// Takes a mark away. Where it is not set nothing changes.
    pub fn clear(&mut self, kind: MarkKind, cell: Cell)
        ensures marks { self.new.marks ≡ without_mark self.old.marks (record { kind = kind; cell = cell }) }
        ensures spare { self.old.spare ≤ self.new.spare }
    {
        self.marks.take_out(&Mark { cell, kind });
    }

    /// Whether a mark is set.
    pub fn has(&self, kind: MarkKind, cell: Cell) -> bool
        ensures { result ≡ has_mark (record { kind = kind; cell = cell }) self.now.marks }
    {
        self.marks.get(&Mark { cell, kind }).is_some()
    }

    /// All marks, in their order.
    pub fn marks(&self) -> &[Mark]
        ensures marks { result.now ≡ self.now.marks }
        ensures sorted { IsStrictlySortedBy mark_cmp self.now.marks }
    {
        self.marks.as_slice()
    }

    /// The least block of the map above `after` with a mark of either kind.
    pub fn next(&self, map: MapId, after: Option<BlockNo>) -> Option<BlockNo>
        ensures least { result ≡ next_marked map after self.now.marks }
        ensures sorted { IsStrictlySortedBy mark_cmp self.now.marks }
    {
        block_on(map, self.first_in(after_block(map, after)))
    }

    /// The least map above `after` with a mark.
    pub fn next_map(&self, after: Option<MapId>) -> Option<MapId>
        ensures { result ≡ next_marked_map after self.now.marks }
    {
        let first = next_number(after, self.last_map()?)?;
        map_on(self.first_in(from_map(first)))
    }

    // The first mark within a bound.
    fn first_in(&self, start: Bound<Mark>) -> Option<Mark>
        ensures first { result ≡ find (is_from_start mark_cmp start) self.now.marks }
        ensures sorted { IsStrictlySortedBy mark_cmp self.now.marks }
    {
        self.marks.first_from(start)
    }

    // The greatest map with a mark.
    fn last_map(&self) -> Option<MapId>
        ensures none { IfNone result (self.now.marks ≡ []) }
        ensures last { IfSome result (λ n. All (λ m. m.cell.map ≤ n) self.now.marks) }
    {
        let marks = self.marks();
        if marks.is_empty() {
            return None;
        }
        Some(marks[marks.len() - 1].cell.map)
    }
}

// The number after `after`, where `last` is not below it.
fn next_number(after: Option<u32>, last: u32) -> Option<u32>
    ensures none { IfNone result ((n : ℕ) → n ≤ last → above after n ≡ false) }
    ensures next { IfSome result (λ first. (n : ℕ) → above after n ≡ nat_le first n) }
{
    match after {
        None => Some(0),
        Some(after) if after < last => Some(after + 1),
        Some(_) => None,
    }
}

fn after_block(map: MapId, after: Option<BlockNo>) -> Bound<Mark>
    ensures { result ≡ after_block map after }
{
    match after {
        None => Bound::Included(Mark {
            cell: Cell { map, block: 0 },
            kind: MarkKind::Busy,
        }),
        Some(block) => Bound::Excluded(Mark {
            cell: Cell { map, block },
            kind: MarkKind::Stale,
        }),
    }
}

fn from_map(map: MapId) -> Bound<Mark>
    ensures { result ≡ from_map map }
{
    Bound::Included(Mark {
        cell: Cell { map, block: 0 },
        kind: MarkKind::Busy,
    })
}

fn block_on(map: MapId, mark: Option<Mark>) -> Option<BlockNo>
    ensures { result ≡ block_on map mark }
{
    match mark {
        Some(mark) if mark.cell.map == map => Some(mark.cell.block),
        _ => None,
    }
}

fn map_on(mark: Option<Mark>) -> Option<MapId>
    ensures { result ≡ map_on mark }
{
    match mark {
        Some(mark) => Some(mark.cell.map),
        None => None,
    }
}
