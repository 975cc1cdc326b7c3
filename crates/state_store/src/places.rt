//! What is kept for each place, for looking up.

ghost use Rattle.std.specs.Prelude.{◌≡◌, ◌<◌, ◌^◌, ℕ, [], ◌==◌, if◌then◌else◌, ◌≢◌, true, false, IsSome, IfSome, OnOk};
ghost use Rattle.std.specs.Option.{option_copied};
ghost use Rattle.spec_paxos.specs.Kept.{row_after, empty_row};
ghost use Rattle.state_store.specs.Rows.{found_row, row_at};

use crate::row::{accept_row, choose_row, empty_row, promise_row, row_again};
use crate::same::is_same_row;
use petal_base::NoMemory;
use spec_paxos::{Row, StateRecord};
use std::alloc::Global;
use std::collections::BTreeMap;
use std::marker::Model;

/// Rows by place. A place may be asked for that no record can name, and has none. Contracts see the rows with their places, by
/// rising place.
#[derive(Drop)]
pub struct Places {
    rows: BTreeMap<u64, Row>,
}

impl Model for Places {
    ghost use Rattle.std.specs.Prelude.{List, ℕ, IsSome, ◌<◌, ◌^◌};
    ghost use Rattle.spec_paxos.specs.declared.record.Row.{Row};
    ghost use Rattle.state_store.specs.Rows.{found_row};

    ghost Value = { List (ℕ × Row) };

    ghost view = { λ p. p.rows.entries };

    ghost invariant = { λ p. (place : ℕ) → IsSome (found_row p.rows.entries place) → place < 2 ^ 32 };
}

impl Places {
    /// Nothing is kept. It takes no memory.
    pub fn new(alloc: Global) -> Places
        ensures { result ≡ [] }
    {
        Places {
            rows: BTreeMap::new(alloc),
        }
    }

    /// The row of a place.
    pub fn get(&self, place: u64) -> Option<&Row>
        ensures row { option_copied result ≡ found_row self.now place }
        ensures within { IfSome result (λ _. place < 2 ^ 32) }
    {
        self.rows.get(&place)
    }

    /// The row of a place, which takes no memory. None is kept beyond the places that a record can name.
    pub fn row(&self, place: u64) -> Row
        ensures row { result ≡ row_at self.now place }
        ensures within { IfSome result.chosen (λ _. place < 2 ^ 32) }
    {
        match self.get(place) {
            None => empty_row(),
            Some(row) => row_again(row),
        }
    }

    /// Whether a record about the place would change nothing.
    pub fn keeps(&self, place: u32, entry: &StateRecord) -> bool
        ensures same { result ≡ true → row_after place (row_at self.now place) entry.now ≡ row_at self.now place }
        ensures apart { result ≡ false → row_after place (row_at self.now place) entry.now ≢ row_at self.now place }
    {
        is_same_row(
            &row_noted(place, self.row(place as u64), entry),
            &self.row(place as u64),
        )
    }

    /// Takes the memory that a note at this place needs.
    pub fn make_room(&mut self, place: u32) -> Result<(), NoMemory>
        ensures same { (p : ℕ) → row_at self.new p ≡ row_at self.old p }
        ensures there { OnOk result (IsSome (found_row self.new place)) }
    {
        let place = place as u64;
        if self.rows.contains_key(&place) {
            return Ok(());
        }
        let _ = self.rows.insert(place, empty_row())?;
        Ok(())
    }

    /// The row of a place that has one.
    fn put(&mut self, place: u32, row: Row)
        requires { IsSome (found_row self.old place) }
        ensures { (p : ℕ) → row_at self.new p ≡ (if p == place then row else row_at self.old p) }
    {
        let _ = self.rows.insert(place as u64, row);
    }

    /// Keeps what a record says, at a place that has a row. It takes no memory.
    pub fn note(&mut self, place: u32, entry: &StateRecord)
        requires there { IsSome (found_row self.old place) }
        requires here { (p : ℕ)
            → row_after p (row_at self.old p) entry.now ≡ (if p == place then row_after place (row_at self.old place) entry.now else row_at self.old p) }
        ensures { (p : ℕ) → row_at self.new p ≡ row_after p (row_at self.old p) entry.now }
    {
        let row = row_noted(place, self.row(place as u64), entry);
        self.put(place, row);
    }
}

/// The row of the place after a record.
fn row_noted(place: u32, row: Row, entry: &StateRecord) -> Row
    ensures { result ≡ row_after place row entry.now }
{
    match entry {
        StateRecord::Promise { place: at, ballot } if *at == place => promise_row(row, *ballot),
        StateRecord::Accepted {
            place: at,
            ballot,
            command,
        } if *at == place => accept_row(row, *ballot, command.copy()),
        StateRecord::Chosen { place: at, command } if *at == place => {
            choose_row(row, command.copy())
        },
        _ => row,
    }
}
