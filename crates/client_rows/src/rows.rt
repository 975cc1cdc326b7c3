//! All rows.

ghost use Rattle.std.specs.Prelude.{◌≡◌, ◌≤◌, ◌<◌, ◌+◌, ◌⊎◌, [], length, is_some, if◌then◌else◌, IsSome, OnOk};
ghost use Rattle.std.specs.List.{All, find};
ghost use Rattle.std.specs.List.Sorted.{IsStrictlySortedBy};
ghost use Rattle.client_rows.specs.Rows.{behind, greater, has_rows, is_on, next_rows_of, place_in, row_cmp, row_of, seq_in};
ghost use Rattle.client_rows.specs.Rows.{with_row, without_from, without_rows};
ghost use Rattle.petal_base.specs.Limits.{client_limit};

use crate::row::Row;
use petal_base::{ClientId, MapId, NoMemory, OPERATOR, Origin, Seq};
use sorted_list::SortedList;
use std::alloc::Global;
use std::marker::Model;
use std::ops::Bound;

/// Rows, each found by search. Contracts see them as a list in the order of maps, links and clients, and for how many more there is
/// room.
#[derive(Drop)]
pub struct Rows {
    rows: SortedList<Row>,
}

impl Model for Rows {
    ghost use Rattle.std.specs.Prelude.{◌<◌};
    ghost use Rattle.std.specs.List.{All};
    ghost use Rattle.client_rows.specs.Rows.{Numbered, row_cmp};
    ghost use Rattle.std.specs.List.Sorted.{IsStrictlySortedBy};
    ghost use Rattle.petal_base.specs.Limits.{client_limit};

    ghost Value = { Numbered };

    ghost view = { λ r. record { rows = r.rows.items; spare = r.rows.spare } };

    ghost invariant = { λ r. IsStrictlySortedBy row_cmp r.rows.items × All (λ row. row.client < client_limit) r.rows.items };
}

impl Rows {
    /// No row. It takes no memory.
    pub fn new(alloc: Global) -> Rows
        ensures { result.rows ≡ [] }
    {
        Rows {
            rows: SortedList::new(alloc),
        }
    }

    /// Makes room for so many rows more.
    ///
    /// # Errors
    /// There was no memory, and nothing changed.
    pub fn reserve(&mut self, room: u32) -> Result<(), NoMemory>
        ensures room { OnOk result (room ≤ self.new.spare) }
        ensures rows { self.new.rows ≡ self.old.rows }
        ensures spare { self.old.spare ≤ self.new.spare }
    {
        self.rows.reserve(room)?;
        Ok(())
    }

    /// The greatest number that a client put on a link; None exactly where it put none.
    pub fn get(&self, map: MapId, link: u8, client: ClientId) -> Option<Seq>
        ensures { result ≡ row_of self.now.rows map link client }
    {
        seq_in(self.rows.get(&row(map, link, client, 0)))
    }

    /// Keeps the number of a write, where none as great is there. It takes no memory.
    pub fn put(&mut self, map: MapId, origin: Origin)
        requires { (0 < self.old.spare) ⊎ (IsSome (row_of self.old.rows map origin.link origin.client)) }
        ensures rows { self.new.rows ≡ with_row self.old.rows map origin }
        ensures spare { self.new.spare + (if is_some (row_of self.old.rows map origin.link origin.client) then 0 else 1) ≡ self.old.spare }
    {
        let (link, client) = (origin.link(), origin.client());
        let seq = greater(self.get(map, link, client), origin.seq());
        self.rows.place(row(map, link, client, seq));
    }

    /// Whether a client has put on a link of a map.
    pub fn has(&self, map: MapId, link: u8) -> bool
        ensures { result ≡ has_rows map link self.now.rows }
    {
        self.rows().iter().any(|row| is_on(map, link, row))
    }

    /// Takes out the rows of a link of a map.
    pub fn drop_link(&mut self, map: MapId, link: u8)
        ensures rows { self.new.rows ≡ without_rows self.old.rows map link }
        ensures spare { self.old.spare ≤ self.new.spare }
    {
        drop_from(&mut self.rows, map, link, 0);
    }

    /// The least map and link above `after` with a row.
    pub fn next(&self, after: Option<(MapId, u8)>) -> Option<(MapId, u8)>
        ensures { result ≡ next_rows_of after self.now.rows }
    {
        place_in(self.rows.first_from(behind(after)))
    }

    /// All rows, in their order.
    pub fn rows(&self) -> &[Row]
        ensures rows { result.now ≡ self.now.rows }
        ensures sorted { IsStrictlySortedBy row_cmp self.now.rows }
        ensures clients { All (λ row. row.client < client_limit) self.now.rows }
    {
        self.rows.as_slice()
    }
}

fn row(map: MapId, link: u8, client: ClientId, seq: Seq) -> Row
    ensures { result ≡ record { map = map; link = link; client = client; seq = seq } }
{
    Row {
        map,
        link,
        client,
        seq,
    }
}

fn seq_in(row: Option<Row>) -> Option<Seq>
    ensures { result ≡ seq_in row }
{
    match row {
        Some(row) => Some(row.seq),
        None => None,
    }
}

// The greater of a number that may be there and another one.
fn greater(there: Option<Seq>, seq: Seq) -> Seq
    ensures { result ≡ greater there seq }
{
    match there {
        Some(there) => there.max(seq),
        None => seq,
    }
}

fn is_on(map: MapId, link: u8, row: &Row) -> bool
    ensures { result ≡ is_on map link row.now }
{
    row.map == map && row.link == link
}

// Takes out the rows of a link of a map, of the clients from that one on.
fn drop_from(rows: &mut SortedList<Row>, map: MapId, link: u8, client: ClientId)
    requires { client ≤ client_limit }
    ensures rows { IsStrictlySortedBy row_cmp rows.old.items → All (λ row. row.client < client_limit) rows.old.items
        → rows.new.items ≡ without_from client rows.old.items map link }
    ensures sorted { IsStrictlySortedBy row_cmp rows.old.items → IsStrictlySortedBy row_cmp rows.new.items }
    ensures clients { All (λ row. row.client < client_limit) rows.old.items → All (λ row. row.client < client_limit) rows.new.items }
    ensures spare { rows.old.spare ≤ rows.new.spare }
{
    if client == OPERATOR {
        return;
    }
    rows.take_out(&row(map, link, client, 0));
    drop_from(rows, map, link, client + 1);
}

fn place_in(row: Option<Row>) -> Option<(MapId, u8)>
    ensures { result ≡ place_in row }
{
    match row {
        Some(row) => Some((row.map, row.link)),
        None => None,
    }
}

// Behind the rows of a map and a link.
fn behind(after: Option<(MapId, u8)>) -> Bound<Row>
    ensures { result ≡ behind after }
{
    match after {
        Some((map, link)) => Bound::Excluded(row(map, link, OPERATOR, 0)),
        None => Bound::Unbounded,
    }
}
