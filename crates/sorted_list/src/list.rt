//! A list in order.

ghost use Rattle.std.specs.Prelude.{◌≡◌, ◌≤◌, ◌<◌, ◌+◌, ◌⊎◌, [], length, vec_len, vec_capacity, insert, not};
ghost use Rattle.std.specs.Prelude.{is_some, if◌then◌else◌, IsSome, OnOk, IfOk, IfErr};
ghost use Rattle.std.specs.List.{find, prefix_len};
ghost use Rattle.std.specs.List.Sorted.{IsStrictlySortedBy};
ghost use Rattle.std.specs.BTreeMap.{is_at};
ghost use Rattle.std.specs.BTreeMap.Range.{is_from_start};
ghost use Rattle.std.specs.Set.{remove_key};
ghost use Rattle.sorted_list.specs.Lists.{Gap, Hit, placed};

use std::alloc::{AllocError, Global};
use std::marker::Model;
use std::ops::Bound;

/// Items in their order. Of those that tie it holds one. Contracts see the list, and for how many more there is room.
#[derive(Drop)]
pub struct SortedList<T: Ord> {
    items: Vec<T>,
}

impl<T: Ord> Model for SortedList<T> {
    ghost use Rattle.std.specs.Prelude.{◌-◌, vec_len, vec_capacity};
    ghost use Rattle.std.specs.List.Sorted.{IsStrictlySortedBy};
    ghost use Rattle.sorted_list.specs.Lists.{Listed};

    ghost Value = { Listed T };

    ghost view = { λ l. record { items = l.items.items; spare = vec_capacity l.items - vec_len l.items } };

    ghost invariant = { λ l. IsStrictlySortedBy T.cmp l.items.items };
}

impl<T: Ord + Copy> SortedList<T> {
    /// No item. It takes no memory.
    pub fn new(alloc: Global) -> SortedList<T>
        ensures { result.items ≡ [] }
    {
        SortedList {
            items: Vec::new(alloc),
        }
    }

    /// Makes room for so many items more.
    ///
    /// # Errors
    /// There was no memory, and nothing changed.
    pub fn reserve(&mut self, room: u32) -> Result<(), AllocError>
        ensures room { OnOk result (room ≤ self.new.spare) }
        ensures items { self.new.items ≡ self.old.items }
        ensures spare { self.old.spare ≤ self.new.spare }
    {
        self.items.reserve(room as usize)
    }

    /// Puts an item in its place, in place of the one that ties with it. It takes no memory.
    pub fn place(&mut self, item: T)
        requires { (0 < self.old.spare) ⊎ (IsSome (find (is_at (T.cmp item)) self.old.items)) }
        ensures items { self.new.items ≡ placed T.cmp self.old.items item }
        ensures sorted { IsStrictlySortedBy T.cmp self.new.items }
        ensures spare { self.new.spare + (if is_some (find (is_at (T.cmp item)) self.old.items) then 0 else 1) ≡ self.old.spare }
    {
        place(&mut self.items, item);
    }

    /// Takes out the item that ties with this one, if there is one.
    pub fn take_out(&mut self, item: &T)
        ensures items { self.new.items ≡ remove_key (is_at (T.cmp item.now)) self.old.items }
        ensures sorted { IsStrictlySortedBy T.cmp self.new.items }
        ensures spare { self.old.spare ≤ self.new.spare }
    {
        take_out(&mut self.items, item);
    }

    /// The item that ties with this one; None exactly where there is none.
    pub fn get(&self, item: &T) -> Option<T>
        ensures found { result ≡ find (is_at (T.cmp item.now)) self.now.items }
        ensures sorted { IsStrictlySortedBy T.cmp self.now.items }
    {
        get(&self.items, item)
    }

    /// The first item within the bound.
    pub fn first_from(&self, start: Bound<T>) -> Option<T>
        ensures found { result ≡ find (is_from_start T.cmp start) self.now.items }
        ensures sorted { IsStrictlySortedBy T.cmp self.now.items }
    {
        first_from(&self.items, &start)
    }

    /// All items, in their order.
    pub fn as_slice(&self) -> &[T]
        ensures value { result.now ≡ self.now.items }
        ensures sorted { IsStrictlySortedBy T.cmp self.now.items }
    {
        &self.items
    }
}

fn is_from<T: Ord>(start: &Bound<T>, item: &T) -> bool
    ensures { result ≡ is_from_start T.cmp start.now item.now }
{
    match start {
        Bound::Included(first) => first <= item,
        Bound::Excluded(last) => last < item,
        Bound::Unbounded => true,
    }
}

// How many items stand before those within the bound, by binary search.
fn rank_of<T: Ord>(items: &[T], start: &Bound<T>) -> usize
    requires { IsStrictlySortedBy T.cmp items.now }
    ensures { result ≡ prefix_len (λ y. not (is_from_start T.cmp start.now y)) items.now }
{
    items.partition_point(|item| !is_from(start, item))
}

fn first_from<T: Ord + Copy>(items: &[T], start: &Bound<T>) -> Option<T>
    requires { IsStrictlySortedBy T.cmp items.now }
    ensures { result ≡ find (is_from_start T.cmp start.now) items.now }
{
    let at = rank_of(items, start);
    if at < items.len() {
        Some(items[at])
    } else {
        None
    }
}

// Where the item that ties with this one stands, or where this one goes.
fn position<T: Ord>(items: &[T], item: &T) -> Result<usize, usize>
    requires { IsStrictlySortedBy T.cmp items.now }
    ensures hit { IfOk result (Hit T.cmp item.now items.now) }
    ensures gap { IfErr result (Gap T.cmp item.now items.now) }
{
    items.binary_search(item)
}

fn place<T: Ord + Copy>(items: &mut Vec<T>, item: T)
    requires order { IsStrictlySortedBy T.cmp items.old.items }
    requires room { (vec_len items.old < vec_capacity items.old) ⊎ (IsSome (find (is_at (T.cmp item)) items.old.items)) }
    ensures items { items.new.items ≡ placed T.cmp items.old.items item }
    ensures order { IsStrictlySortedBy T.cmp items.new.items }
    ensures capacity { vec_capacity items.new ≡ vec_capacity items.old }
    ensures length { vec_len items.new ≡ vec_len items.old + (if is_some (find (is_at (T.cmp item)) items.old.items) then 0 else 1) }
{
    match position(items, &item) {
        Ok(at) => items[at] = item,
        Err(at) => insert_reserved(items, at, item),
    }
}

// An insertion for which there is room.
fn insert_reserved<T: Copy>(items: &mut Vec<T>, at: usize, item: T)
    requires at { at ≤ vec_len items.old }
    requires room { vec_len items.old < vec_capacity items.old }
    ensures items { items.new.items ≡ insert items.old.items at item }
    ensures length { vec_len items.new ≡ vec_len items.old + 1 }
    ensures capacity { vec_capacity items.new ≡ vec_capacity items.old }
{
    let _ = items.insert(at, item);
}

fn take_out<T: Ord + Copy>(items: &mut Vec<T>, item: &T)
    requires { IsStrictlySortedBy T.cmp items.old.items }
    ensures items { items.new.items ≡ remove_key (is_at (T.cmp item.now)) items.old.items }
    ensures order { IsStrictlySortedBy T.cmp items.new.items }
    ensures capacity { vec_capacity items.new ≡ vec_capacity items.old }
    ensures length { vec_len items.new ≤ vec_len items.old }
{
    if let Ok(at) = position(items, item) {
        items.remove(at);
    }
}

fn get<T: Ord + Copy>(items: &[T], item: &T) -> Option<T>
    requires { IsStrictlySortedBy T.cmp items.now }
    ensures { result ≡ find (is_at (T.cmp item.now)) items.now }
{
    match position(items, item) {
        Ok(at) => Some(items[at]),
        Err(_) => None,
    }
}
