//! What the records of a journal give, read in order.

ghost use Rattle.std.specs.Prelude.{◌≡◌, ◌<◌, ◌^◌, ◌++◌, ◌∷◌, ◌+◌, ℕ, List, [], length, nat_le, OnOk, IfOk, IfErr};
ghost use Rattle.std.specs.Bool.{OnTrue, OnFalse};
ghost use Rattle.block_journal.specs.Records.{contents};
ghost use Rattle.data_device.specs.Spelling.{spelling, HasSpelling};
ghost use Rattle.data_device.specs.declared.record.StoreRecord.{StoreRecord};
ghost use Rattle.data_device.specs.Device.{bodies_of, AreSpelled};
ghost use Rattle.client_rows.specs.Rows.{rows_after, with_row};
ghost use Rattle.data_device.specs.Kept.{TakesFree, Fits, AllFit, formatted, kept_after};
ghost use Rattle.petal_base.specs.Limits.{marks_limit};
ghost use Rattle.data_device.specs.Reading.{kept_by, Reads, IsRead, IsBad, IsReadError};
ghost use Rattle.data_device.specs.declared.error.StoreError.TheVariants as error;

use crate::error::StoreError;
use crate::header::Header;
use crate::ledger::Ledger;
use crate::record::{StoreRecord, decode};
use busy_marks::Marks;
use client_rows::Rows;
use petal_base::{GhostList, MARKS_LIMIT, MapId, NoMemory, Origin};
use physical_map::Entry;
use std::alloc::Global;

/// The records so far, and what they give.
#[derive(Drop)]
pub struct Replay {
    pub ledger: Ledger,
    pub marks: Marks,
    pub rows: Rows,
    pub fresh: bool,
    pub history: GhostList<StoreRecord>,
}

/// Before the first record.
fn begin(alloc: Global, said: Header) -> Result<Replay, NoMemory>
    ensures kept { IfOk result (λ r. kept_by r ≡ formatted said.fresh) }
    ensures none { IfOk result (λ r. r.history.items ≡ []) }
    ensures slots { IfOk result (λ r. (r.ledger.slots ≡ said.slots) × (r.ledger.tickets ≡ [])) }
{
    Ok(Replay {
        ledger: Ledger::new(alloc, said.slots)?,
        marks: Marks::new(alloc),
        rows: Rows::new(alloc),
        fresh: said.fresh,
        history: GhostList::new(),
    })
}

/// Keeps the row of a write.
fn put_row(rows: &mut Rows, map: MapId, origin: Origin) -> Result<(), NoMemory>
    ensures { OnOk result (rows.new.rows ≡ with_row rows.old.rows map origin) }
{
    rows.reserve(1)?;
    rows.put(map, origin);
    Ok(())
}

/// Keeps the row of the write that a put is for, if it is for one.
fn put_row_if_any(rows: &mut Rows, map: MapId, origin: Option<Origin>) -> Result<(), NoMemory>
    ensures { OnOk result (rows.new.rows ≡ rows_after rows.old.rows map origin) }
{
    match origin {
        Some(origin) => put_row(rows, map, origin),
        None => Ok(()),
    }
}

/// Does what a record says; false where it puts into a slot that is in use or not there.
fn apply(replay: &mut Replay, entry: &StoreRecord) -> Result<bool, NoMemory>
    requires { replay.old.ledger.tickets ≡ [] }
    ensures kept { IfOk result (λ done. OnTrue done (kept_by replay.new ≡ kept_after (kept_by replay.old) entry.now)) }
    ensures free { IfOk result (λ done. OnTrue done (TakesFree replay.old.ledger.slots (kept_by replay.old) entry.now)) }
    ensures refused { IfOk result (λ done. OnFalse done (¬ TakesFree replay.old.ledger.slots (kept_by replay.old) entry.now)) }
    ensures slots { IfOk result (λ done. OnTrue done ((replay.new.ledger.slots ≡ replay.old.ledger.slots) × (replay.new.ledger.tickets ≡ []))) }
    ensures history { replay.new.history ≡ replay.old.history }
{
    match entry {
        StoreRecord::Put {
            key,
            version,
            slot,
            origin,
        } => {
            put_row_if_any(&mut replay.rows, key.map, *origin)?;
            replay.ledger.replay(Entry {
                key: *key,
                slot: *slot,
                version: *version,
            })
        }
        StoreRecord::Drop { key } => {
            replay.ledger.drop_key(*key);
            Ok(true)
        }
        StoreRecord::Mark { kind, cell } => {
            replay.marks.set(*kind, *cell)?;
            Ok(true)
        }
        StoreRecord::Unmark { kind, cell } => {
            replay.marks.clear(*kind, *cell);
            Ok(true)
        }
        StoreRecord::Settled => {
            replay.fresh = false;
            Ok(true)
        }
        StoreRecord::Forget { map, link } => {
            replay.rows.drop_link(*map, *link);
            Ok(true)
        }
        StoreRecord::Done { map, origin } => {
            put_row(&mut replay.rows, *map, *origin)?;
            Ok(true)
        }
    }
}

/// Whether marks and rows are no more than there may be.
fn is_within(replay: &Replay) -> bool
    ensures { result ≡ nat_le (length replay.now.marks.marks + length replay.now.rows.rows) marks_limit }
{
    let marks = replay.marks.marks().len();
    let room = MARKS_LIMIT as usize;
    marks <= room && replay.rows.rows().len() <= room - marks
}

/// Reads the next body; false where it spells no record that fits.
fn step(replay: &mut Replay, body: &[u8]) -> Result<bool, NoMemory>
    requires { replay.old.ledger.tickets ≡ [] }
    ensures next { IfOk result (λ done. OnTrue done (Reads replay.old replay.new body.now)) }
    ensures refused { IfOk result
        (λ done. OnFalse done ((r : StoreRecord) → HasSpelling r → body.now ≡ spelling r → ¬ Fits replay.old.ledger.slots (kept_by replay.old) r)) }
{
    let Some(entry) = decode(body) else {
        return Ok(false);
    };
    if !apply(replay, &entry)? || !is_within(replay) {
        return Ok(false);
    }
    replay.history = replay.history.with(&entry);
    Ok(true)
}

/// Reads the records of the bodies, in order.
///
/// # Errors
/// `BadRecord` at the first body that spells no record, or a put into a slot that is in use or not there, or gives more marks and rows
/// than there may be; `NoMemory`.
pub fn read_records(alloc: Global, bodies: &[Vec<u8>], said: Header) -> Result<Replay, StoreError>
    requires { length bodies.now < 2 ^ 32 }
    ensures read { IfOk result (λ r. IsRead said.slots said.fresh (contents bodies.now) r) }
    ensures same { (records : List StoreRecord) → AreSpelled records → contents bodies.now ≡ bodies_of records → IfOk result (λ r. r.history.items ≡ records) }
    ensures bad { (index : ℕ) → IfErr result (λ e. e ≡ error.BadRecord index → IsBad said.slots said.fresh (contents bodies.now) index) }
    ensures good { (records : List StoreRecord) → AreSpelled records → AllFit said.slots (formatted said.fresh) records
        → contents bodies.now ≡ bodies_of records → IfErr result (λ e. e ≡ error.NoMemory) }
    ensures errors { IfErr result IsReadError }
{
    let mut replay = begin(alloc, said)?;
    for index in 0..bodies.len() {
        if !step(&mut replay, &bodies[index])? {
            return Err(StoreError::BadRecord {
                index: index as u32,
            });
        }
    }
    Ok(replay)
}
