//! The device of a state store, with its journal of records.

ghost use Rattle.std.specs.Prelude.{◌≡◌, ◌⊎◌, ◌≤◌, ◌<◌, ◌↔◌, ◌++◌, [], ◌∷◌, ℕ, List, OnOk, IfOk, IfErr, OnErr, IsErrOf, take, ◌≢◌, Some, None, false};
ghost use Rattle.std.specs.Bool.{OnFalse, OnTrue};
ghost use Rattle.petal_disk.specs.Plans.{beneath, plan_state};
ghost use Rattle.petal_disk.specs.Disk.{LeavesOnly, Only, Within};
ghost use Rattle.device_faults.specs.Faults.{HasCause};
ghost use Rattle.petal_disk.specs.Keeping.{KeepsDevice};
ghost use Rattle.block_journal.specs.Gate.{IsShut};
ghost use Rattle.state_store.specs.Device.{header, bodies_of, AreSpelled, Holds, WithOrWithout, StandsFor, LeftByFormat, IsBadOn};
ghost use Rattle.state_store.specs.Device.{journal_base, header_bytes, device_bytes, JournalStands, JournalCounts};
ghost use Rattle.state_store.specs.Errors.{IsAppendError, HasJournalCause};
ghost use Rattle.spec_paxos.specs.Kept.{row_of, inc_of};
ghost use Rattle.state_store.specs.Rows.{row_at};
ghost use Rattle.spec_paxos.specs.declared.record.StateRecord.{StateRecord};
ghost use Rattle.spec_paxos.specs.declared.record.StateRecord.TheVariants as kind;
ghost use Rattle.state_store.specs.declared.error.StateError.TheVariants as error;
ghost use Rattle.petal_base.specs.Limits.{journal_records};

use crate::error::StateError;
use crate::places::Places;
use crate::record::body_of;
use crate::register::{Register, read_records};
use block_journal::{Journal, read_front, write_header};
use petal_base::{GhostList, Inc, JOURNAL_RECORDS};
use petal_disk::{Disk, Failed, Plan, Planned};
use spec_paxos::StateRecord;
use std::alloc::Global;
use std::marker::Model;

/// Where the journal begins.
pub const JOURNAL_BASE: u64 = 4096;

/// How many bytes a state device has at least.
pub const DEVICE_BYTES: u64 = 8_392_704;

/// A device and its journal. Contracts see the records that were committed, the journal's region, and the device.
#[derive(Drop)]
pub struct Device<D: Disk> {
    disk: D,
    journal: Journal<128>,
    history: GhostList<StateRecord>,
}

impl<D: Disk> Model for Device<D> {
    ghost use Rattle.std.specs.Prelude.{◌≡◌, ◌≤◌};
    ghost use Rattle.state_store.specs.Device.{Keeping, journal_base, device_bytes};
    ghost use Rattle.petal_base.specs.Limits.{journal_records};

    ghost Value = { Keeping D };

    ghost view = { λ s. record { records = s.history.items; region = s.journal; disk = s.disk } };

    ghost invariant = { λ s. (s.journal.base ≡ journal_base) × (s.journal.limit ≡ journal_records) × (device_bytes ≤ D.size s.disk) };
}

/// What the records of a device give.
#[derive(Drop)]
pub struct Kept {
    pub places: Places,
    pub inc: Inc,
}

impl<D: Disk> Device<D> {
    /// A device that stands for the one record of an incarnation.
    pub fn format(disk: D, inc: Inc) -> Result<Device<D>, (D, StateError)>
        requires { device_bytes ≤ D.size disk }
        ensures ok { IfOk result (λ d. (d.records ≡ kind.Inc inc ∷ []) × (d.region.count ≡ 1)) }
        ensures holds { IfOk result (λ d. D.observable → Holds d.region (D.seen d.disk) (D.may_leave d.disk) d.records) }
        ensures errors { IfErr result (λ e. e.1 ≡ error.Failed) }
        ensures any_moment { IfOk result (λ d. D.observable → LeavesOnly D.moment D.left_since disk d.disk (LeftByFormat (D.may_leave disk) inc)) }
        ensures err_any_moment { IfErr result (λ e. D.observable → LeavesOnly D.moment D.left_since disk e.0 (LeftByFormat (D.may_leave disk) inc)) }
        ensures err_either { IfErr result (λ e. D.observable → LeftByFormat (λ file. file ≡ D.seen disk) inc (D.seen e.0)) }
        ensures err_size { IfErr result (λ e. D.size e.0 ≡ D.size disk) }
        ensures failed { IfErr result (λ e. D.faults disk < D.faults e.0) }
        ensures later { IfOk result (λ d. D.faults disk ≤ D.faults d.disk) }
        ensures run { IfOk result (λ d. D.came_to disk d.disk) }
        ensures err_run { IfErr result (λ e. D.came_to disk e.0) }
    {
        let mut disk = disk;
        match write_format(&mut disk, inc) {
            Ok(journal) => Ok(Device {
                disk,
                journal,
                history: GhostList::new().with(&StateRecord::Inc { inc }),
            }),
            Err(error) => Err((disk, error)),
        }
    }

    /// The device with the records that it stands for, and what these give.
    pub fn open(alloc: Global, disk: D) -> Result<(Device<D>, Kept), (D, StateError)>
        ensures found { IfOk result (λ o. D.observable → (take header_bytes (D.seen disk) ≡ header) × JournalCounts (D.seen disk) (bodies_of o.0.records)) }
        ensures spelled { IfOk result (λ o. AreSpelled o.0.records) }
        ensures same { (records : List StateRecord) → IfOk result (λ o. D.observable → StandsFor (D.seen disk) records → o.0.records ≡ records) }
        ensures holds { (records : List StateRecord)
            → IfOk result (λ o. D.observable → StandsFor (D.seen disk) records → Holds o.0.region (D.seen o.0.disk) (D.may_leave o.0.disk) o.0.records) }
        ensures rows { IfOk result (λ o. (place : ℕ) → row_at o.1.places place ≡ row_of o.0.records place) }
        ensures inc { IfOk result (λ o. o.1.inc ≡ inc_of o.0.records) }
        ensures blank { IfErr result (λ e. e.1 ≡ error.Blank → D.observable → device_bytes ≤ D.size disk → take header_bytes (D.seen disk) ≢ header) }
        ensures bad { (index : ℕ) → IfErr result (λ e. e.1 ≡ error.BadRecord index → D.observable → IsBadOn (D.seen disk) index) }
        ensures failed { IfErr result (λ e. e.1 ≡ error.Failed → D.faults disk < D.faults e.0) }
        ensures bad_headed { (index : ℕ)
            → IfErr result (λ e. e.1 ≡ error.BadRecord index → (device_bytes ≤ D.size disk) × (D.observable → take header_bytes (D.seen disk) ≡ header)) }
        ensures not_full { IfErr result (λ e. e.1 ≢ error.JournalFull) }
        ensures device { IfOk result (λ o. KeepsDevice D.size D.seen D.may_leave D.moment D.left_since disk o.0.disk) }
        ensures err_device { IfErr result (λ e. KeepsDevice D.size D.seen D.may_leave D.moment D.left_since disk e.0) }
    {
        let mut disk = disk;
        match read_device(alloc, &mut disk) {
            Ok((journal, register)) => {
                let device = Device {
                    disk,
                    journal,
                    history: register.history,
                };
                let kept = Kept {
                    places: register.places,
                    inc: register.inc,
                };
                Ok((device, kept))
            },
            Err(error) => Err((disk, error)),
        }
    }

    /// Loses what the device does not keep, as in a crash, and reads again the records that the device then stands for, and what
    /// these give.
    pub fn reopen(&mut self, alloc: Global) -> Result<Kept, StateError>
        ensures left { D.observable → D.may_leave self.old.disk (D.seen self.new.disk) }
        ensures same { (records : List StateRecord) → OnOk result (D.observable → StandsFor (D.seen self.new.disk) records → self.new.records ≡ records) }
        ensures holds { (records : List StateRecord) → OnOk result (D.observable → StandsFor (D.seen self.new.disk) records
            → Holds self.new.region (D.seen self.new.disk) (D.may_leave self.new.disk) self.new.records) }
        ensures rows { IfOk result (λ kept. (place : ℕ) → row_at kept.places place ≡ row_of self.new.records place) }
        ensures inc { IfOk result (λ kept. kept.inc ≡ inc_of self.new.records) }
        ensures err { OnErr result (self.new.records ≡ self.old.records) }
        ensures failed { IsErrOf result error.Failed → D.faults self.old.disk < D.faults self.new.disk }
        ensures later { D.faults self.old.disk ≤ D.faults self.new.disk }
        ensures not_full { ¬ IsErrOf result error.JournalFull }
        ensures crash { Within (D.may_leave self.old.disk) (D.may_leave self.new.disk) }
        ensures run { D.came_to self.old.disk self.new.disk }
    {
        self.disk.crash();
        let (journal, register) = read_device(alloc, &mut self.disk)?;
        self.journal = journal;
        self.history = register.history;
        Ok(Kept {
            places: register.places,
            inc: register.inc,
        })
    }

    /// How many records there are.
    pub fn count(&self) -> u32
        ensures { result ≡ self.now.region.count }
    {
        self.journal.count()
    }

    /// Commits one record more: whole, or at any crash not at all. It takes no memory.
    pub fn append(&mut self, entry: &StateRecord) -> Result<(), StateError>
        ensures ok { OnOk result (self.new.records ≡ self.old.records ++ entry.now ∷ []) }
        ensures err { IfErr result (λ e. self.new.records ≡ self.old.records) }
        ensures full { IsErrOf result error.JournalFull ↔ (self.old.region.count ≡ journal_records) }
        ensures unchanged { IsErrOf result error.JournalFull → self.new ≡ self.old }
        ensures failed { IsErrOf result error.Failed → D.faults self.old.disk < D.faults self.new.disk }
        ensures errors { ¬ IsErrOf result error.NoMemory }
        ensures only { IfErr result IsAppendError }
        ensures holds { D.observable → Holds self.old.region (D.seen self.old.disk) (D.may_leave self.old.disk) self.old.records
            → OnOk result (Holds self.new.region (D.seen self.new.disk) (D.may_leave self.new.disk) self.new.records) }
        ensures either { D.observable → Holds self.old.region (D.seen self.old.disk) (D.may_leave self.old.disk) self.old.records
            → WithOrWithout (D.seen self.new.disk) self.old.records entry.now }
        ensures any_moment { D.observable → Holds self.old.region (D.seen self.old.disk) (D.may_leave self.old.disk) self.old.records
            → LeavesOnly D.moment D.left_since self.old.disk self.new.disk (λ c. WithOrWithout c self.old.records entry.now) }
        ensures later { D.faults self.old.disk ≤ D.faults self.new.disk }
        ensures run { D.came_to self.old.disk self.new.disk }
    {
        self.journal.append(&mut self.disk, &body_of(entry))?;
        self.history = self.history.with(entry);
        Ok(())
    }

    /// The device.
    pub fn into_disk(self) -> D
        ensures { result ≡ self.disk }
    {
        self.disk
    }
}

/// The first bytes of a state device: the gate, the device's kind, version 1, zeros.
const HEADER: [u8; 64] = [
    0xa5, b'P', b'E', b'T', b'A', b'L', b'S', b'T', b'A', 0, 0, 0, 1, 0, 0, 0, 0, 0, 0, 0, 0, 0, 0,
    0, 0, 0, 0, 0, 0, 0, 0, 0, 0, 0, 0, 0, 0, 0, 0, 0, 0, 0, 0, 0, 0, 0, 0, 0, 0, 0, 0, 0, 0, 0, 0,
    0, 0, 0, 0, 0, 0, 0, 0, 0,
];

/// Closes the gate of the device, writes a journal of the one record, writes the header, and opens the gate last.
fn write_format<D: Disk>(disk: &mut D, inc: Inc) -> Result<Journal<128>, StateError>
    requires { device_bytes ≤ D.size disk.old }
    ensures region { IfOk result (λ j. (j.base ≡ journal_base) × (j.limit ≡ journal_records) × (j.count ≡ 1)) }
    ensures holds { IfOk result (λ j. D.observable → Holds j (D.seen disk.new) (D.may_leave disk.new) (kind.Inc inc ∷ [])) }
    ensures errors { IfErr result (λ e. e ≡ error.Failed) }
    ensures any_moment { D.observable → LeavesOnly D.moment D.left_since disk.old disk.new (LeftByFormat (D.may_leave disk.old) inc) }
    ensures either { D.observable → LeftByFormat (λ file. file ≡ D.seen disk.old) inc (D.seen disk.new) }
    ensures failed { OnErr result (D.faults disk.old < D.faults disk.new) }
    ensures later { D.faults disk.old ≤ D.faults disk.new }
    ensures size { D.size disk.new ≡ D.size disk.old }
    ensures run { D.came_to disk.old disk.new }
{
    let journal = write_first(disk, inc)?;
    write_header(disk, &HEADER)?;
    Ok(journal)
}

/// Closes the gate of the device, and writes a journal of the one record.
fn write_first<D: Disk>(disk: &mut D, inc: Inc) -> Result<Journal<128>, StateError>
    requires { device_bytes ≤ D.size disk.old }
    ensures region { IfOk result (λ j. (j.base ≡ journal_base) × (j.limit ≡ journal_records) × (j.count ≡ 1)) }
    ensures stands { IfOk result (λ j. D.observable → JournalStands (D.seen disk.new) (bodies_of (kind.Inc inc ∷ []))) }
    ensures durable { OnOk result (D.observable → Only (D.seen disk.new) (D.may_leave disk.new)) }
    ensures shut { OnOk result (D.observable → IsShut (D.seen disk.new)) }
    ensures errors { IfErr result (λ e. e ≡ error.Failed) }
    ensures any_moment { D.observable → LeavesOnly D.moment D.left_since disk.old disk.new (λ c. D.may_leave disk.old c ⊎ IsShut c) }
    ensures either { D.observable → (D.seen disk.new ≡ D.seen disk.old) ⊎ IsShut (D.seen disk.new) }
    ensures failed { OnErr result (D.faults disk.old < D.faults disk.new) }
    ensures later { D.faults disk.old ≤ D.faults disk.new }
    ensures size { D.size disk.new ≡ D.size disk.old }
    ensures run { D.came_to disk.old disk.new }
{
    let mut journal = Journal::format_after_gate(disk, JOURNAL_BASE, JOURNAL_RECORDS)?;
    journal.append(disk, &body_of(&StateRecord::Inc { inc }))?;
    Ok(journal)
}

/// Whether the header of a state device stands there; then a crash leaves what a read gives.
fn has_header<D: Disk>(disk: &mut D) -> Result<bool, Failed>
    ensures size { IfOk result (λ found. OnTrue found (device_bytes ≤ D.size disk.old)) }
    ensures headed { IfOk result (λ found. OnTrue found (D.observable → take header_bytes (D.seen disk.old) ≡ header)) }
    ensures blank { IfOk result (λ found. OnFalse found (D.observable → device_bytes ≤ D.size disk.old → take header_bytes (D.seen disk.old) ≢ header)) }
    ensures durable { IfOk result (λ found. OnTrue found (D.observable → Only (D.seen disk.new) (D.may_leave disk.new))) }
    ensures device { KeepsDevice D.size D.seen D.may_leave D.moment D.left_since disk.old disk.new }
    ensures cause { HasCause (D.faults disk.old) (D.faults disk.new) result }
    ensures run { D.came_to disk.old disk.new }
{
    if disk.len() < DEVICE_BYTES {
        return Ok(false);
    }
    let mut head = [0; 64];
    read_front(disk, &mut head)?;
    Ok(head == HEADER)
}

/// Reads the journal of a device that has a header.
fn read_journal<D: Disk>(
    alloc: Global,
    disk: &mut D,
) -> Result<(Journal<128>, Register), StateError>
    requires { device_bytes ≤ D.size disk.old }
    ensures region { IfOk result (λ o. (o.0.base ≡ journal_base) × (o.0.limit ≡ journal_records)) }
    ensures counts { IfOk result (λ o. D.observable → JournalCounts (D.seen disk.old) (bodies_of o.1.history.items)) }
    ensures spelled { IfOk result (λ o. AreSpelled o.1.history.items) }
    ensures same { (records : List StateRecord) → IfOk result (λ o. D.observable → StandsFor (D.seen disk.old) records → o.1.history.items ≡ records) }
    ensures holds { (records : List StateRecord)
        → IfOk result (λ o. D.observable → Only (D.seen disk.old) (D.may_leave disk.old) → StandsFor (D.seen disk.old) records
        → Holds o.0 (D.seen disk.new) (D.may_leave disk.new) o.1.history.items) }
    ensures rows { IfOk result (λ o. (place : ℕ) → row_at o.1.places place ≡ row_of o.1.history.items place) }
    ensures inc { IfOk result (λ o. o.1.inc ≡ inc_of o.1.history.items) }
    ensures bad { (index : ℕ) → IfErr result (λ e. e ≡ error.BadRecord index → D.observable → IsBadOn (D.seen disk.old) index) }
    ensures cause { HasJournalCause (D.faults disk.old) (D.faults disk.new) result }
    ensures device { KeepsDevice D.size D.seen D.may_leave D.moment D.left_since disk.old disk.new }
    ensures run { D.came_to disk.old disk.new }
{
    let (journal, bodies) = Journal::open(alloc, disk, JOURNAL_BASE, JOURNAL_RECORDS)?;
    let _count = journal.count();
    match read_records(alloc, &bodies) {
        Ok(register) => Ok((journal, register)),
        Err(error) => Err(error),
    }
}

/// Reads the header and the journal.
fn read_device<D: Disk>(alloc: Global, disk: &mut D) -> Result<(Journal<128>, Register), StateError>
    ensures region { IfOk result (λ o. (o.0.base ≡ journal_base) × (o.0.limit ≡ journal_records)) }
    ensures size { IfOk result (λ o. device_bytes ≤ D.size disk.new) }
    ensures found { IfOk result
        (λ o. D.observable → (take header_bytes (D.seen disk.old) ≡ header) × JournalCounts (D.seen disk.old) (bodies_of o.1.history.items)) }
    ensures spelled { IfOk result (λ o. AreSpelled o.1.history.items) }
    ensures same { (records : List StateRecord) → IfOk result (λ o. D.observable → StandsFor (D.seen disk.old) records → o.1.history.items ≡ records) }
    ensures holds { (records : List StateRecord)
        → IfOk result (λ o. D.observable → StandsFor (D.seen disk.old) records → Holds o.0 (D.seen disk.new) (D.may_leave disk.new) o.1.history.items) }
    ensures rows { IfOk result (λ o. (place : ℕ) → row_at o.1.places place ≡ row_of o.1.history.items place) }
    ensures inc { IfOk result (λ o. o.1.inc ≡ inc_of o.1.history.items) }
    ensures blank { IsErrOf result error.Blank → D.observable → device_bytes ≤ D.size disk.old → take header_bytes (D.seen disk.old) ≢ header }
    ensures bad { (index : ℕ) → IfErr result (λ e. e ≡ error.BadRecord index → D.observable → IsBadOn (D.seen disk.old) index) }
    ensures failed { IsErrOf result error.Failed → D.faults disk.old < D.faults disk.new }
    ensures later { D.faults disk.old ≤ D.faults disk.new }
    ensures bad_headed { (index : ℕ)
        → IfErr result (λ e. e ≡ error.BadRecord index → (device_bytes ≤ D.size disk.old) × (D.observable → take header_bytes (D.seen disk.old) ≡ header)) }
    ensures not_full { ¬ IsErrOf result error.JournalFull }
    ensures device { KeepsDevice D.size D.seen D.may_leave D.moment D.left_since disk.old disk.new }
    ensures run { D.came_to disk.old disk.new }
{
    if !has_header(disk)? {
        return Err(StateError::Blank);
    }
    read_journal(alloc, disk)
}

impl<E: Disk> Device<Planned<E>> {
    /// Arms the device's one plan, and changes nothing else.
    pub fn arm(&mut self, plan: Plan)
        ensures disk { beneath self.new.disk ≡ beneath self.old.disk }
        ensures state { plan_state self.new.disk ≡ record (plan_state self.old.disk) { plan = Some plan; stopped = false } }
        ensures rest { self.new ≡ record self.old { disk = self.new.disk } }
    {
        self.disk.arm(plan);
    }

    /// No plan counts from now on, and nothing else changes.
    pub fn disarm(&mut self)
        ensures disk { beneath self.new.disk ≡ beneath self.old.disk }
        ensures state { plan_state self.new.disk ≡ record (plan_state self.old.disk) { plan = None } }
        ensures rest { self.new ≡ record self.old { disk = self.new.disk } }
    {
        self.disk.disarm();
    }

    /// Whether a plan with `stop` was met since the last arming.
    pub fn stopped(&self) -> bool
        ensures { result ≡ (plan_state self.now.disk).stopped }
    {
        self.disk.stopped()
    }
}
