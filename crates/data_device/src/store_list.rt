//! What a turn writes.

ghost use Rattle.std.specs.Prelude.{◌≡◌, ◌≤◌, ◌<◌, ◌+◌, length, slice_index_or, if◌then◌else◌};
ghost use Rattle.block_journal.specs.declared.half.TheConstants.{HALF_BODIES};
ghost use Rattle.petal_base.specs.Limits.{client_limit};
ghost use Rattle.data_device.specs.Device.{bodies_of};
ghost use Rattle.data_device.specs.Turned.{put_of, mark_of, done_of, turned};
ghost use Rattle.data_device.specs.declared.record.StoreRecord.TheVariants.{Settled};

use crate::record::{StoreRecord, encode};
use block_journal::Bodies;
use busy_marks::{Mark, Marks};
use client_rows::{Row, Rows};
use petal_base::Origin;
use physical_map::{Entry, PhysicalMap};
use std::marker::Model;

/// All that a store keeps, as the records of a turn: its entries, its marks, its rows, and whether it has been filled again since it
/// was formatted. They are spelled one at a time.
#[derive(Drop)]
pub struct StoreList<'a> {
    map: &'a PhysicalMap,
    marks: &'a Marks,
    rows: &'a Rows,
    settled: bool,
}

impl<'a> Model for StoreList<'a> {
    ghost use Rattle.std.specs.Prelude.{◌≤◌, length};
    ghost use Rattle.block_journal.specs.declared.half.TheConstants.{HALF_BODIES};
    ghost use Rattle.data_device.specs.Turned.{Turned, turned};

    ghost Value = { Turned };

    ghost view = { λ l. record { entries = l.map.now.entries; marks = l.marks.now.marks; rows = l.rows.now.rows; settled = l.settled } };

    ghost invariant = { λ l. length (turned (record {
      entries = l.map.now.entries;
      marks = l.marks.now.marks;
      rows = l.rows.now.rows;
      settled = l.settled;
    })) ≤ HALF_BODIES };
}

impl<'a> StoreList<'a> {
    pub fn new(
        map: &'a PhysicalMap,
        marks: &'a Marks,
        rows: &'a Rows,
        settled: bool,
    ) -> StoreList<'a>
        requires { length (turned (record { entries = map.now.entries; marks = marks.now.marks; rows = rows.now.rows; settled = settled })) ≤ HALF_BODIES }
        ensures { result ≡ record { entries = map.now.entries; marks = marks.now.marks; rows = rows.now.rows; settled = settled } }
    {
        StoreList {
            map,
            marks,
            rows,
            settled,
        }
    }

    // How many records they are.
    pub(crate) fn len(&self) -> u32
        ensures value { result ≡ length (turned self.now) }
        ensures few { result ≤ HALF_BODIES }
    {
        let count = self.map.entries().len() + self.marks.marks().len() + self.rows.rows().len();
        (if self.settled { count + 1 } else { count }) as u32
    }

    // The record of that index.
    fn record(&self, index: u32) -> StoreRecord
        requires { index < length (turned self.now) }
        ensures { result ≡ slice_index_or (turned self.now) index Settled }
    {
        let (entries, marks, rows) = (self.map.entries(), self.marks.marks(), self.rows.rows());
        let index = index as usize;
        if index < entries.len() {
            return put_of(entries[index]);
        }
        let index = index - entries.len();
        if index < marks.len() {
            return mark_of(marks[index]);
        }
        let index = index - marks.len();
        if index < rows.len() {
            return done_of(rows[index]);
        }
        StoreRecord::Settled
    }
}

fn put_of(entry: Entry) -> StoreRecord
    ensures { result ≡ put_of entry }
{
    StoreRecord::Put {
        key: entry.key,
        version: entry.version,
        slot: entry.slot,
        origin: None,
    }
}

fn mark_of(mark: Mark) -> StoreRecord
    ensures { result ≡ mark_of mark }
{
    StoreRecord::Mark {
        kind: mark.kind,
        cell: mark.cell,
    }
}

fn done_of(row: Row) -> StoreRecord
    requires { row.client < client_limit }
    ensures { result ≡ done_of row }
{
    StoreRecord::Done {
        map: row.map,
        origin: Origin::new(row.link, row.client, row.seq),
    }
}

impl Bodies for StoreList<'_> {
    ghost bodies = { λ l. bodies_of (turned l) };

    fn count(&self) -> u32 {
        self.len()
    }

    fn body(&self, i: u32, into: &mut [u8]) {
        into.copy_from_slice(&encode(&self.record(i)));
    }
}
