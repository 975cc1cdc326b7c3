//! What stands on a device.

ghost use Rattle.std.specs.Prelude.{◌≡◌, ◌≤◌, ◌<◌, ℕ, Bool, List, [], length, take, IfOk, IfErr, IfSome, IfNone};
ghost use Rattle.petal_disk.specs.Disk.{Only};
ghost use Rattle.device_faults.specs.Faults.{HasCause};
ghost use Rattle.petal_disk.specs.Keeping.{KeepsDevice};
ghost use Rattle.data_device.specs.declared.record.StoreRecord.{StoreRecord};
ghost use Rattle.data_device.specs.Device.{header, bodies_of, AreSpelled, StandsFor, Logs, journal_base, header_bytes, IsJournalOf};
ghost use Rattle.data_device.specs.Errors.{HasFault};
ghost use Rattle.data_device.specs.Found.{IsFound, IsOpenError, IsGoodError};
ghost use Rattle.data_device.specs.Reading.{HasNoHeader, IsBadOn, IsBlank};
ghost use Rattle.data_device.specs.Slots.{slot_start, data_start};
ghost use Rattle.data_device.specs.declared.error.StoreError.TheVariants as error;
ghost use Rattle.petal_base.specs.Limits.{max_slots};
ghost use Rattle.block_journal.specs.Heads.{NoHeadCounts};

use crate::error::StoreError;
use crate::header::{self, HEADER_BYTES, Header};
use crate::ledger::{DATA_START, Ledger};
use crate::record_log::{JOURNAL_BASE, RecordLog};
use crate::replay::{Replay, read_records};
use block_journal::{Halves, read_front};
use busy_marks::Marks;
use client_rows::Rows;
use petal_disk::{Disk, Failed};
use slot_store::SLOT_BYTES;
use std::alloc::Global;

/// The records of a device, and what they give.
#[derive(Drop)]
pub struct Found {
    pub log: RecordLog,
    pub ledger: Ledger,
    pub marks: Marks,
    pub rows: Rows,
    pub fresh: bool,
}

/// Reads the journal of a device that has this header; None where neither half counts.
fn read_journal<D: Disk>(
    alloc: Global,
    disk: &mut D,
    said: Header,
) -> Result<Option<Found>, StoreError>
    requires room { data_start ≤ D.size disk.old }
    requires few { said.slots ≤ max_slots }
    ensures found { IfOk result (λ o. IfSome o (λ f. IsFound said.slots said.fresh f)) }
    ensures none { IfOk result (λ o. IfNone o (D.observable → NoHeadCounts journal_base (D.seen disk.old))) }
    ensures list { IfOk result (λ o. IfSome o (λ f. D.observable → IsJournalOf (D.seen disk.old) (bodies_of f.log.records))) }
    ensures same { (records : List StoreRecord) → AreSpelled records
        → IfOk result (λ o. IfSome o (λ f. D.observable → IsJournalOf (D.seen disk.old) (bodies_of records) → f.log.records ≡ records)) }
    ensures logs { (records : List StoreRecord)
        → IfOk result (λ o. IfSome o (λ f. D.observable → StandsFor (D.seen disk.old) said.slots said.fresh records
        → Logs said.slots f.log (D.seen disk.new) (D.may_leave disk.new))) }
    ensures durable { IfOk result (λ o. IfSome o (λ _. D.observable → Only (D.seen disk.new) (D.may_leave disk.new))) }
    ensures bad { (index : ℕ) → IfErr result (λ e. e ≡ error.BadRecord index → D.observable → IsBadOn (D.seen disk.old) said.slots said.fresh index) }
    ensures good { (records : List StoreRecord) → IfErr result (λ e. D.observable → StandsFor (D.seen disk.old) said.slots said.fresh records → IsGoodError e) }
    ensures errors { IfErr result IsOpenError }
    ensures device { KeepsDevice D.size D.seen D.may_leave D.moment D.left_since disk.old disk.new }
    ensures cause { HasFault (D.faults disk.old) (D.faults disk.new) result }
    ensures run { D.came_to disk.old disk.new }
{
    let Some((halves, bodies)) = Halves::open(alloc, disk, JOURNAL_BASE)? else {
        return Ok(None);
    };
    match read_records(alloc, &bodies, said) {
        Ok(replay) => Ok(Some(put_together(halves, replay, said.fresh))),
        Err(error) => Err(error),
    }
}

fn put_together(halves: Halves, replay: Replay, fresh: bool) -> Found
    requires { halves.base ≡ journal_base }
    ensures log { result.log ≡ record { fresh = fresh; records = replay.history.items; halves = halves } }
    ensures ledger { result.ledger ≡ replay.ledger }
    ensures marks { result.marks ≡ replay.marks }
    ensures rows { result.rows ≡ replay.rows }
    ensures fresh { result.fresh ≡ replay.fresh }
{
    let Replay {
        ledger,
        marks,
        rows,
        fresh: still_fresh,
        history,
    } = replay;
    Found {
        log: RecordLog::of(halves, history, fresh),
        ledger,
        marks,
        rows,
        fresh: still_fresh,
    }
}

// Where the slots of a device end.
fn end_of(slots: u32) -> u64
    ensures { result ≡ slot_start slots }
{
    DATA_START + SLOT_BYTES * u64::from(slots)
}

// What the first bytes of a device say, whose journal and slots fit it and are not too many; None where they are no such header.
fn fitting(head: &[u8], size: u64) -> Option<Header>
    requires { length head.now ≡ header_bytes }
    ensures found { IfSome result (λ said. head.now ≡ header said.slots said.fresh) }
    ensures only { (slots : ℕ) (fresh : Bool) → IfSome result
        (λ said. slots ≤ max_slots → head.now ≡ header slots fresh → (said.slots ≡ slots) × (said.fresh ≡ fresh)) }
    ensures room { IfSome result (λ said. slot_start said.slots ≤ size) }
    ensures few { IfSome result (λ said. said.slots ≤ max_slots) }
    ensures none { IfNone result ((slots : ℕ) (fresh : Bool) → slots ≤ max_slots → head.now ≡ header slots fresh → size < slot_start slots) }
{
    let Some(said) = header::read(head) else {
        return None;
    };
    if size < end_of(said.slots) {
        return None;
    }
    Some(said)
}

/// What the header of a device says, whose journal and slots fit it; None where there is no such header.
fn read_header<D: Disk>(disk: &mut D) -> Result<Option<Header>, Failed>
    ensures found { IfOk result (λ o. IfSome o (λ said. D.observable → take header_bytes (D.seen disk.old) ≡ header said.slots said.fresh)) }
    ensures only { (slots : ℕ) (fresh : Bool) → IfOk result
        (λ o. IfSome o (λ said. D.observable → slots ≤ max_slots → take header_bytes (D.seen disk.old) ≡ header slots fresh
        → (said.slots ≡ slots) × (said.fresh ≡ fresh))) }
    ensures room { IfOk result (λ o. IfSome o (λ said. slot_start said.slots ≤ D.size disk.old)) }
    ensures few { IfOk result (λ o. IfSome o (λ said. said.slots ≤ max_slots)) }
    ensures blank { IfOk result (λ o. IfNone o (D.observable → HasNoHeader (D.seen disk.old) (D.size disk.old))) }
    ensures durable { IfOk result (λ o. IfSome o (λ _. D.observable → Only (D.seen disk.new) (D.may_leave disk.new))) }
    ensures device { KeepsDevice D.size D.seen D.may_leave D.moment D.left_since disk.old disk.new }
    ensures cause { HasCause (D.faults disk.old) (D.faults disk.new) result }
    ensures run { D.came_to disk.old disk.new }
{
    let size = disk.len();
    if size < DATA_START {
        return Ok(None);
    }
    let mut head = [0; HEADER_BYTES];
    read_front(disk, &mut head)?;
    Ok(fitting(&head, size))
}

/// What stands on a device; None where it is blank.
pub fn read_device<D: Disk>(alloc: Global, disk: &mut D) -> Result<Option<Found>, StoreError>
    ensures found { IfOk result (λ o. IfSome o (λ f. IsFound f.ledger.slots f.log.fresh f)) }
    ensures headed { IfOk result (λ o. IfSome o (λ f. D.observable → take header_bytes (D.seen disk.old) ≡ header f.ledger.slots f.log.fresh)) }
    ensures list { IfOk result (λ o. IfSome o (λ f. D.observable → IsJournalOf (D.seen disk.old) (bodies_of f.log.records))) }
    ensures room { IfOk result (λ o. IfSome o (λ f. slot_start f.ledger.slots ≤ D.size disk.new)) }
    ensures blank { IfOk result (λ o. IfNone o (D.observable → IsBlank (D.seen disk.old) (D.size disk.old))) }
    ensures same { (slots : ℕ) (fresh : Bool) (records : List StoreRecord)
        → IfOk result (λ o. IfSome o (λ f. D.observable → StandsFor (D.seen disk.old) slots fresh records
        → (f.ledger.slots ≡ slots) × (f.log.fresh ≡ fresh) × (f.log.records ≡ records) × Logs slots f.log (D.seen disk.new) (D.may_leave disk.new))) }
    ensures durable { IfOk result (λ o. IfSome o (λ _. D.observable → Only (D.seen disk.new) (D.may_leave disk.new))) }
    ensures bad { (index slots : ℕ) (fresh : Bool) → IfErr result (λ e. e ≡ error.BadRecord index → D.observable → slots ≤ max_slots
        → take header_bytes (D.seen disk.old) ≡ header slots fresh → IsBadOn (D.seen disk.old) slots fresh index) }
    ensures bad_headed { (index : ℕ) → IfErr result (λ e. e ≡ error.BadRecord index → D.observable → ¬ IsBlank (D.seen disk.old) (D.size disk.old)) }
    ensures good { (slots : ℕ) (fresh : Bool) (records : List StoreRecord)
        → IfErr result (λ e. D.observable → StandsFor (D.seen disk.old) slots fresh records → IsGoodError e) }
    ensures errors { IfErr result IsOpenError }
    ensures device { KeepsDevice D.size D.seen D.may_leave D.moment D.left_since disk.old disk.new }
    ensures cause { HasFault (D.faults disk.old) (D.faults disk.new) result }
    ensures run { D.came_to disk.old disk.new }
{
    let Some(said) = read_header(disk)? else {
        return Ok(None);
    };
    let Some(found) = read_journal(alloc, disk, said)? else {
        return Ok(None);
    };
    Ok(Some(found))
}
