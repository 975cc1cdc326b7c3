//! The records that were committed, in the journal of a data device.

ghost use Rattle.std.specs.Prelude.{◌≡◌, ◌≤◌, ◌<◌, ◌+◌, ◌++◌, [], ℕ, List, length, nat_le, map, take, OnOk, OnErr, IfOk, IfErr};
ghost use Rattle.petal_disk.specs.Disk.{LeavesOnly, Torn, Follows};
ghost use Rattle.block_journal.specs.declared.half.TheConstants.{GROUP_BODIES, HALF_BODIES, TURN_BYTES};
ghost use Rattle.data_device.specs.declared.record.StoreRecord.{StoreRecord};
ghost use Rattle.data_device.specs.Device.{AreSpelled, EitherList, LeftByChange, Logs, bodies_of, journal_base, journal_bytes};
ghost use Rattle.data_device.specs.Errors.{HasFault};
ghost use Rattle.data_device.specs.Kept.{AllFit, kept_of};
ghost use Rattle.data_device.specs.Reading.{LeftByFormat};
ghost use Rattle.data_device.specs.Slots.{data_start};
ghost use Rattle.data_device.specs.Turned.{list_of, turned, turned_of};
ghost use Rattle.petal_base.specs.Limits.{max_slots};

use crate::error::StoreError;
use crate::header::{Header, spell};
use crate::record::{RECORD_BYTES, StoreRecord, encode};
use crate::store_list::StoreList;
use block_journal::{Body, GROUP_BODIES, HALF_BODIES, Halves, write_header};
use petal_base::{Change, GhostList};
use petal_disk::Disk;
use std::marker::Model;

/// Where the journal begins.
pub const JOURNAL_BASE: u64 = 4096;

/// The records that the journal has. Contracts see them, whether the device was formatted to be filled again, and the halves of the
/// journal.
#[derive(Drop)]
pub struct RecordLog {
    halves: Halves,
    history: GhostList<StoreRecord>,
    fresh: bool,
}

impl Model for RecordLog {
    ghost use Rattle.std.specs.Prelude.{◌≡◌};
    ghost use Rattle.data_device.specs.Device.{Log, journal_base};

    ghost Value = { Log };

    ghost view = { λ l. record { fresh = l.fresh; records = l.history.items; halves = l.halves } };

    ghost invariant = { λ l. l.halves.base ≡ journal_base };
}

// A turn of a log of a device that was formatted to be filled again.
struct TurnFresh;

impl Change<StoreRecord> for TurnFresh {
    ghost use Rattle.std.specs.Prelude.{true};
    ghost use Rattle.data_device.specs.Turned.{turned_of};

    ghost changed = { λ records _. turned_of true records };
}

// A turn of a log of another device.
struct TurnWhole;

impl Change<StoreRecord> for TurnWhole {
    ghost use Rattle.std.specs.Prelude.{false};
    ghost use Rattle.data_device.specs.Turned.{turned_of};

    ghost changed = { λ records _. turned_of false records };
}

// The records that a turn leaves of these.
fn after_turn(history: &GhostList<StoreRecord>, fresh: bool) -> GhostList<StoreRecord>
    ensures { result.items ≡ turned_of fresh history.now.items }
{
    if fresh {
        history.changed::<TurnFresh>(&StoreRecord::Settled)
    } else {
        history.changed::<TurnWhole>(&StoreRecord::Settled)
    }
}

// These records come to the end.
fn add_all(history: &mut GhostList<StoreRecord>, entries: &[StoreRecord])
    ensures { history.new.items ≡ history.old.items ++ entries.now }
{
    for entry in entries {
        *history = history.with(entry);
    }
}

// Spells records into the first bodies of a group.
fn spell_all(entries: &[StoreRecord], into: &mut [Body])
    requires { length entries.now ≤ length into.old }
    ensures spelled { take (length entries.now) into.new ≡ bodies_of entries.now }
    ensures fits { AreSpelled entries.now }
    ensures room { length into.new ≡ length into.old }
{
    for i in 0..entries.len() {
        into[i] = encode(&entries[i]);
    }
}

impl RecordLog {
    /// Makes the device stand for no record: closes its gate, clears the journal, writes the header, and opens the gate last.
    pub fn format<D: Disk>(disk: &mut D, said: Header) -> Result<RecordLog, StoreError>
        requires room { data_start ≤ D.size disk.old }
        requires few { said.slots ≤ max_slots }
        ensures ok { IfOk result (λ log. (log.fresh ≡ said.fresh) × (log.records ≡ [])) }
        ensures logs { IfOk result (λ log. D.observable → Logs said.slots log (D.seen disk.new) (D.may_leave disk.new)) }
        ensures errors { IfErr result (λ e. e ≡ StoreError.Failed) }
        ensures any_moment { D.observable
            → LeavesOnly D.moment D.left_since disk.old disk.new (LeftByFormat (D.may_leave disk.old) (D.size disk.old) said.slots said.fresh) }
        ensures either { D.observable → LeftByFormat (λ file. file ≡ D.seen disk.old) (D.size disk.old) said.slots said.fresh (D.seen disk.new) }
        ensures cause { HasFault (D.faults disk.old) (D.faults disk.new) result }
        ensures size { D.size disk.new ≡ D.size disk.old }
        ensures run { D.came_to disk.old disk.new }
    {
        let halves = Halves::format_after_gate(disk, JOURNAL_BASE)?;
        write_header(disk, &spell(said))?;
        Ok(RecordLog {
            halves,
            history: GhostList::new(),
            fresh: said.fresh,
        })
    }

    /// The log of a journal that was opened.
    pub fn of(halves: Halves, history: GhostList<StoreRecord>, fresh: bool) -> RecordLog
        requires { halves.base ≡ journal_base }
        ensures { result ≡ record { fresh = fresh; records = history.items; halves = halves } }
    {
        RecordLog {
            halves,
            history,
            fresh,
        }
    }

    /// Whether there is room for so many records more without a turn.
    pub fn has_room(&self, records: u32) -> bool
        ensures { result ≡ nat_le (self.now.halves.count + records) HALF_BODIES }
    {
        u64::from(self.halves.count()) + u64::from(records) <= u64::from(HALF_BODIES)
    }

    /// Whether the device was formatted to be filled again.
    pub fn fresh(&self) -> bool
        ensures { result ≡ self.now.fresh }
    {
        self.fresh
    }

    /// Commits records more: all of them, or at any crash none. It takes no memory.
    ///
    /// # Errors
    /// The device failed.
    pub fn append_all<D: Disk>(
        &mut self,
        disk: &mut D,
        entries: &[StoreRecord],
    ) -> Result<(), StoreError>
        requires some { 0 < length entries.now }
        requires few { length entries.now ≤ GROUP_BODIES }
        requires free { self.old.halves.count + length entries.now ≤ HALF_BODIES }
        requires room { data_start ≤ D.size disk.old }
        ensures ok { OnOk result (self.new.records ≡ self.old.records ++ entries.now) }
        ensures counted { OnOk result (self.new.halves.count ≡ self.old.halves.count + length entries.now) }
        ensures err { OnErr result (self.new.records ≡ self.old.records) }
        ensures fresh { self.new.fresh ≡ self.old.fresh }
        ensures spelled { AreSpelled entries.now }
        ensures errors { IfErr result (λ e. e ≡ StoreError.Failed) }
        ensures outside { D.observable → Torn journal_base journal_bytes (D.seen disk.old) (D.seen disk.new) }
        ensures logs { D.observable → (slots : ℕ) → Logs slots self.old (D.seen disk.old) (D.may_leave disk.old)
            → AllFit slots (kept_of self.old.fresh self.old.records) entries.now
            → OnOk result (Logs slots self.new (D.seen disk.new) (D.may_leave disk.new)) }
        ensures crash { D.observable → (slots : ℕ) → Logs slots self.old (D.seen disk.old) (D.may_leave disk.old)
            → AllFit slots (kept_of self.old.fresh self.old.records) entries.now
            → Follows (Torn journal_base journal_bytes) (D.may_leave disk.old) (D.may_leave disk.new) }
        ensures any_moment { D.observable → (slots : ℕ) → Logs slots self.old (D.seen disk.old) (D.may_leave disk.old)
            → AllFit slots (kept_of self.old.fresh self.old.records) entries.now
            → LeavesOnly D.moment D.left_since disk.old disk.new
            (LeftByChange slots self.old (D.may_leave disk.old) (self.old.records ++ entries.now)) }
        ensures either { D.observable → (slots : ℕ) → Logs slots self.old (D.seen disk.old) (D.may_leave disk.old)
            → AllFit slots (kept_of self.old.fresh self.old.records) entries.now
            → EitherList (D.seen disk.new) slots self.old (self.old.records ++ entries.now) }
        ensures cause { HasFault (D.faults disk.old) (D.faults disk.new) result }
        ensures size { D.size disk.new ≡ D.size disk.old }
        ensures run { D.came_to disk.old disk.new }
    {
        let mut bodies = [[0; RECORD_BYTES]; GROUP_BODIES];
        spell_all(entries, &mut bodies);
        self.halves.append_all(disk, &bodies[..entries.len()])?;
        add_all(&mut self.history, entries);
        Ok(())
    }

    /// Writes what the store keeps into the other half, in place of all records so far. A crash at any moment leaves the records before
    /// or after it, which give the same. It takes no memory.
    ///
    /// # Errors
    /// The device failed.
    pub fn turn<D: Disk>(
        &mut self,
        disk: &mut D,
        list: &StoreList<'_>,
        buffer: &mut [u8],
    ) -> Result<(), StoreError>
        requires list { list.now ≡ list_of self.old.fresh (kept_of self.old.fresh self.old.records) }
        requires buffer { TURN_BYTES ≤ length buffer.old }
        requires room { data_start ≤ D.size disk.old }
        ensures ok { OnOk result (self.new.records ≡ turned list.now) }
        ensures counted { OnOk result (self.new.halves.count ≡ length (turned list.now)) }
        ensures err { OnErr result (self.new.records ≡ self.old.records) }
        ensures kept { kept_of self.new.fresh self.new.records ≡ kept_of self.old.fresh self.old.records }
        ensures fresh { self.new.fresh ≡ self.old.fresh }
        ensures errors { IfErr result (λ e. e ≡ StoreError.Failed) }
        ensures outside { D.observable → Torn journal_base journal_bytes (D.seen disk.old) (D.seen disk.new) }
        ensures logs { D.observable → (slots : ℕ) → Logs slots self.old (D.seen disk.old) (D.may_leave disk.old)
            → OnOk result (Logs slots self.new (D.seen disk.new) (D.may_leave disk.new)) }
        ensures crash { D.observable → (slots : ℕ) → Logs slots self.old (D.seen disk.old) (D.may_leave disk.old)
            → Follows (Torn journal_base journal_bytes) (D.may_leave disk.old) (D.may_leave disk.new) }
        ensures any_moment { D.observable → (slots : ℕ) → Logs slots self.old (D.seen disk.old) (D.may_leave disk.old)
            → LeavesOnly D.moment D.left_since disk.old disk.new
            (LeftByChange slots self.old (D.may_leave disk.old) (turned list.now)) }
        ensures either { D.observable → (slots : ℕ) → Logs slots self.old (D.seen disk.old) (D.may_leave disk.old)
            → EitherList (D.seen disk.new) slots self.old (turned list.now) }
        ensures cause { HasFault (D.faults disk.old) (D.faults disk.new) result }
        ensures size { D.size disk.new ≡ D.size disk.old }
        ensures run { D.came_to disk.old disk.new }
    {
        let _records = list.len();
        self.halves.turn(disk, list, buffer)?;
        self.history = after_turn(&self.history, self.fresh);
        Ok(())
    }
}
