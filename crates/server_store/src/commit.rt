//! Commits to a data device: room for records, the records, and before that of a put the content of its slot.

ghost use Rattle.std.specs.Prelude.{◌≡◌, ◌&&◌, not, ◌≢◌, ◌≤◌, ◌<◌, ◌+◌, ◌++◌, ◌∷◌, [], ℕ, Bool, List, All, fold, map, length, OnOk, OnErr, IfErr};
ghost use Rattle.petal_disk.specs.Disk.{LeavesOnly};
ghost use Rattle.block_journal.specs.declared.half.TheConstants.{GROUP_BODIES, HALF_BODIES, TURN_BYTES};
ghost use Rattle.physical_map.specs.declared.entry.Entry.{Entry};
ghost use Rattle.petal_base.specs.Limits.{marks_limit, max_slots};
ghost use Rattle.data_device.specs.declared.record.StoreRecord.TheVariants as kind;
ghost use Rattle.data_device.specs.Errors.{HasFault};
ghost use Rattle.data_device.specs.Kept.{AllFit, kept_after, kept_of};
ghost use Rattle.data_device.specs.Turned.{list_of, turned};
ghost use Rattle.server_store.specs.Holdings.{held_in};
ghost use Rattle.server_store.specs.Shown.{Picture, IsShown, PutsNothing, Keeps, ShowsEither, picture_after_all};
ghost use Rattle.data_device.specs.Slots.{slot_start, slot_bytes, data_start};

use busy_marks::Marks;
use client_rows::Rows;
use data_device::record::StoreRecord;
use data_device::{Ledger, RecordLog, SlotStore, StoreError, StoreList};
use petal_base::{Block, Origin};
use petal_disk::Disk;
use physical_map::Entry;

/// All that the store keeps, as a turn writes it.
pub fn to_list<'a>(
    ledger: &'a Ledger,
    marks: &'a Marks,
    rows: &'a Rows,
    fresh: bool,
    log: &RecordLog,
) -> StoreList<'a>
    requires kept { kept_of log.now.fresh log.now.records
        ≡ record { entries = ledger.now.entries; marks = marks.now.marks; rows = rows.now.rows; fresh = fresh } }
    requires few { ledger.now.slots ≤ max_slots }
    requires within { length marks.now.marks + length rows.now.rows ≤ marks_limit }
    ensures list { result ≡ list_of log.now.fresh (kept_of log.now.fresh log.now.records) }
    ensures short { length (turned result) + GROUP_BODIES ≤ HALF_BODIES }
{
    let _slots = ledger.count();
    StoreList::new(ledger.map(), marks, rows, is_settled(log, fresh))
}

// Whether a store that was formatted to be filled again has been.
fn is_settled(log: &RecordLog, fresh: bool) -> bool
    ensures { result ≡ (log.now.fresh && not fresh) }
{
    log.fresh() && !fresh
}

/// Writes all that the store keeps into the other half of the journal where this one has room for fewer records than that. What the
/// records give stays the same, also after a failure or a crash. It takes no memory.
pub fn make_room<D: Disk>(
    disk: &mut D,
    log: &mut RecordLog,
    list: &StoreList<'_>,
    buffer: &mut [u8],
    records: u32,
) -> Result<(), StoreError>
    requires few { length (turned list.now) + records ≤ HALF_BODIES }
    requires list { list.now ≡ list_of log.old.fresh (kept_of log.old.fresh log.old.records) }
    requires buffer { TURN_BYTES ≤ length buffer.old }
    requires room { data_start ≤ D.size disk.old }
    ensures free { OnOk result (log.new.halves.count + records ≤ HALF_BODIES) }
    ensures kept { kept_of log.new.fresh log.new.records ≡ kept_of log.old.fresh log.old.records }
    ensures fresh { log.new.fresh ≡ log.old.fresh }
    ensures errors { IfErr result (λ e. e ≡ StoreError.Failed) }
    ensures contents { D.observable → (es : List Entry) → map (held_in (D.seen disk.new)) es ≡ map (held_in (D.seen disk.old)) es }
    ensures keeps { D.observable → (slots : ℕ) (picture : Picture) → Keeps slots log.old picture (D.seen disk.old) (D.may_leave disk.old)
        → OnOk result (Keeps slots log.new picture (D.seen disk.new) (D.may_leave disk.new)) }
    ensures either { D.observable → (slots : ℕ) (picture : Picture) → Keeps slots log.old picture (D.seen disk.old) (D.may_leave disk.old)
        → IsShown (D.seen disk.new) slots log.old.fresh (kept_of log.old.fresh log.old.records) picture }
    ensures any_moment { D.observable → (slots : ℕ) (picture : Picture) → Keeps slots log.old picture (D.seen disk.old) (D.may_leave disk.old)
        → LeavesOnly D.moment D.left_since disk.old disk.new
        (λ c. IsShown c slots log.old.fresh (kept_of log.old.fresh log.old.records) picture) }
    ensures cause { HasFault (D.faults disk.old) (D.faults disk.new) result }
    ensures size { D.size disk.new ≡ D.size disk.old }
    ensures run { D.came_to disk.old disk.new }
{
    if log.has_room(records) {
        return Ok(());
    }
    log.turn(disk, list, buffer)
}

// Commits changes that put nothing, for which there is room.
fn append<D: Disk>(
    disk: &mut D,
    log: &mut RecordLog,
    changes: &[StoreRecord],
) -> Result<(), StoreError>
    requires some { 0 < length changes.now }
    requires few { length changes.now ≤ GROUP_BODIES }
    requires free { log.old.halves.count + length changes.now ≤ HALF_BODIES }
    requires changes { All PutsNothing changes.now }
    requires fits { (slots : ℕ) → AllFit slots (kept_of log.old.fresh log.old.records) changes.now }
    requires room { data_start ≤ D.size disk.old }
    ensures ok { OnOk result (log.new.records ≡ log.old.records ++ changes.now) }
    ensures err { OnErr result (log.new.records ≡ log.old.records) }
    ensures fresh { log.new.fresh ≡ log.old.fresh }
    ensures errors { IfErr result (λ e. e ≡ StoreError.Failed) }
    ensures contents { D.observable → (es : List Entry) → map (held_in (D.seen disk.new)) es ≡ map (held_in (D.seen disk.old)) es }
    ensures keeps { D.observable → (slots : ℕ) (picture : Picture) → Keeps slots log.old picture (D.seen disk.old) (D.may_leave disk.old)
        → OnOk result (Keeps slots log.new (picture_after_all picture changes.now []) (D.seen disk.new) (D.may_leave disk.new)) }
    ensures either { D.observable → (slots : ℕ) (picture : Picture) → Keeps slots log.old picture (D.seen disk.old) (D.may_leave disk.old)
        → ShowsEither (D.seen disk.new) slots log.old picture changes.now [] }
    ensures any_moment { D.observable → (slots : ℕ) (picture : Picture) → Keeps slots log.old picture (D.seen disk.old) (D.may_leave disk.old)
        → LeavesOnly D.moment D.left_since disk.old disk.new (λ c. ShowsEither c slots log.old picture changes.now []) }
    ensures cause { HasFault (D.faults disk.old) (D.faults disk.new) result }
    ensures size { D.size disk.new ≡ D.size disk.old }
    ensures run { D.came_to disk.old disk.new }
{
    log.append_all(disk, changes)
}

/// Commits changes that put nothing: all of them, or at any crash none. It first makes room for them in the journal. It takes no memory.
pub fn commit<D: Disk>(
    disk: &mut D,
    log: &mut RecordLog,
    list: &StoreList<'_>,
    buffer: &mut [u8],
    changes: &[StoreRecord],
) -> Result<(), StoreError>
    requires some { 0 < length changes.now }
    requires few { length changes.now ≤ GROUP_BODIES }
    requires short { length (turned list.now) + length changes.now ≤ HALF_BODIES }
    requires list { list.now ≡ list_of log.old.fresh (kept_of log.old.fresh log.old.records) }
    requires changes { All PutsNothing changes.now }
    requires fits { (slots : ℕ) → AllFit slots (kept_of log.old.fresh log.old.records) changes.now }
    requires buffer { TURN_BYTES ≤ length buffer.old }
    requires room { data_start ≤ D.size disk.old }
    ensures ok { OnOk result (kept_of log.new.fresh log.new.records ≡ fold kept_after (kept_of log.old.fresh log.old.records) changes.now) }
    ensures err { OnErr result (kept_of log.new.fresh log.new.records ≡ kept_of log.old.fresh log.old.records) }
    ensures fresh { log.new.fresh ≡ log.old.fresh }
    ensures errors { IfErr result (λ e. e ≡ StoreError.Failed) }
    ensures contents { D.observable → (es : List Entry) → map (held_in (D.seen disk.new)) es ≡ map (held_in (D.seen disk.old)) es }
    ensures keeps { D.observable → (slots : ℕ) (picture : Picture) → Keeps slots log.old picture (D.seen disk.old) (D.may_leave disk.old)
        → OnOk result (Keeps slots log.new (picture_after_all picture changes.now []) (D.seen disk.new) (D.may_leave disk.new)) }
    ensures either { D.observable → (slots : ℕ) (picture : Picture) → Keeps slots log.old picture (D.seen disk.old) (D.may_leave disk.old)
        → ShowsEither (D.seen disk.new) slots log.old picture changes.now [] }
    ensures any_moment { D.observable → (slots : ℕ) (picture : Picture) → Keeps slots log.old picture (D.seen disk.old) (D.may_leave disk.old)
        → LeavesOnly D.moment D.left_since disk.old disk.new (λ c. ShowsEither c slots log.old picture changes.now []) }
    ensures cause { HasFault (D.faults disk.old) (D.faults disk.new) result }
    ensures size { D.size disk.new ≡ D.size disk.old }
    ensures run { D.came_to disk.old disk.new }
{
    make_room(disk, log, list, buffer, changes.len() as u32)?;
    append(disk, log, changes)
}

// Writes a block into the slot of an entry that is to be, and then commits the put, for which there is room.
fn append_put<D: Disk>(
    disk: &mut D,
    log: &mut RecordLog,
    slots: &SlotStore,
    entry: &Entry,
    origin: &Option<Origin>,
    block: &Block,
) -> Result<(), StoreError>
    requires slot { entry.now.slot < length slots.now.used }
    requires base { slots.now.base ≡ data_start }
    requires room { slot_start (length slots.now.used) ≤ D.size disk.old }
    requires free { log.old.halves.count + 1 ≤ HALF_BODIES }
    ensures ok { OnOk result (log.new.records ≡ log.old.records ++ kind.Put entry.now.key entry.now.version entry.now.slot origin.now ∷ []) }
    ensures err { OnErr result (log.new.records ≡ log.old.records) }
    ensures fresh { log.new.fresh ≡ log.old.fresh }
    ensures errors { IfErr result (λ e. e ≡ StoreError.Failed) }
    ensures contents { D.observable → (es : List Entry) → All (λ e. e.slot ≢ entry.now.slot) es
        → map (held_in (D.seen disk.new)) es ≡ map (held_in (D.seen disk.old)) es }
    ensures content { OnOk result (D.observable → slot_bytes (D.seen disk.new) entry.now.slot ≡ block.now) }
    ensures keeps { D.observable → (picture : Picture) → Keeps (length slots.now.used) log.old picture (D.seen disk.old) (D.may_leave disk.old)
        → AllFit (length slots.now.used) (kept_of log.old.fresh log.old.records) (kind.Put entry.now.key entry.now.version entry.now.slot origin.now ∷ [])
        → OnOk result (Keeps (length slots.now.used) log.new
        (picture_after_all picture (kind.Put entry.now.key entry.now.version entry.now.slot origin.now ∷ []) block.now)
        (D.seen disk.new) (D.may_leave disk.new)) }
    ensures either { D.observable → (picture : Picture) → Keeps (length slots.now.used) log.old picture (D.seen disk.old) (D.may_leave disk.old)
        → AllFit (length slots.now.used) (kept_of log.old.fresh log.old.records) (kind.Put entry.now.key entry.now.version entry.now.slot origin.now ∷ [])
        → ShowsEither (D.seen disk.new) (length slots.now.used) log.old picture
        (kind.Put entry.now.key entry.now.version entry.now.slot origin.now ∷ []) block.now }
    ensures any_moment { D.observable → (picture : Picture) → Keeps (length slots.now.used) log.old picture (D.seen disk.old) (D.may_leave disk.old)
        → AllFit (length slots.now.used) (kept_of log.old.fresh log.old.records) (kind.Put entry.now.key entry.now.version entry.now.slot origin.now ∷ [])
        → LeavesOnly D.moment D.left_since disk.old disk.new
        (λ c. ShowsEither c (length slots.now.used) log.old picture (kind.Put entry.now.key entry.now.version entry.now.slot origin.now ∷ []) block.now) }
    ensures cause { HasFault (D.faults disk.old) (D.faults disk.new) result }
    ensures size { D.size disk.new ≡ D.size disk.old }
    ensures run { D.came_to disk.old disk.new }
{
    slots.write(disk, entry.slot, block)?;
    let put = StoreRecord::Put {
        key: entry.key,
        version: entry.version,
        slot: entry.slot,
        origin: *origin,
    };
    log.append_all(disk, &[put])
}

/// Writes a block into the slot of an entry that is to be, and then commits the put: whole, or at any crash not at all. No
/// entry has that slot. It first makes room for the record in the journal. It takes no memory.
pub fn commit_put<D: Disk>(
    disk: &mut D,
    log: &mut RecordLog,
    list: &StoreList<'_>,
    buffer: &mut [u8],
    slots: &SlotStore,
    entry: &Entry,
    origin: &Option<Origin>,
    block: &Block,
) -> Result<(), StoreError>
    requires slot { entry.now.slot < length slots.now.used }
    requires base { slots.now.base ≡ data_start }
    requires room { slot_start (length slots.now.used) ≤ D.size disk.old }
    requires short { length (turned list.now) + 1 ≤ HALF_BODIES }
    requires list { list.now ≡ list_of log.old.fresh (kept_of log.old.fresh log.old.records) }
    requires buffer { TURN_BYTES ≤ length buffer.old }
    ensures ok { OnOk result (kept_of log.new.fresh log.new.records
        ≡ kept_after (kept_of log.old.fresh log.old.records) (kind.Put entry.now.key entry.now.version entry.now.slot origin.now)) }
    ensures err { OnErr result (kept_of log.new.fresh log.new.records ≡ kept_of log.old.fresh log.old.records) }
    ensures fresh { log.new.fresh ≡ log.old.fresh }
    ensures errors { IfErr result (λ e. e ≡ StoreError.Failed) }
    ensures contents { D.observable → (es : List Entry) → All (λ e. e.slot ≢ entry.now.slot) es
        → map (held_in (D.seen disk.new)) es ≡ map (held_in (D.seen disk.old)) es }
    ensures content { OnOk result (D.observable → slot_bytes (D.seen disk.new) entry.now.slot ≡ block.now) }
    ensures keeps { D.observable → (picture : Picture) → Keeps (length slots.now.used) log.old picture (D.seen disk.old) (D.may_leave disk.old)
        → AllFit (length slots.now.used) (kept_of log.old.fresh log.old.records) (kind.Put entry.now.key entry.now.version entry.now.slot origin.now ∷ [])
        → OnOk result (Keeps (length slots.now.used) log.new
        (picture_after_all picture (kind.Put entry.now.key entry.now.version entry.now.slot origin.now ∷ []) block.now)
        (D.seen disk.new) (D.may_leave disk.new)) }
    ensures either { D.observable → (picture : Picture) → Keeps (length slots.now.used) log.old picture (D.seen disk.old) (D.may_leave disk.old)
        → AllFit (length slots.now.used) (kept_of log.old.fresh log.old.records) (kind.Put entry.now.key entry.now.version entry.now.slot origin.now ∷ [])
        → ShowsEither (D.seen disk.new) (length slots.now.used) log.old picture
        (kind.Put entry.now.key entry.now.version entry.now.slot origin.now ∷ []) block.now }
    ensures any_moment { D.observable → (picture : Picture) → Keeps (length slots.now.used) log.old picture (D.seen disk.old) (D.may_leave disk.old)
        → AllFit (length slots.now.used) (kept_of log.old.fresh log.old.records) (kind.Put entry.now.key entry.now.version entry.now.slot origin.now ∷ [])
        → LeavesOnly D.moment D.left_since disk.old disk.new
        (λ c. ShowsEither c (length slots.now.used) log.old picture (kind.Put entry.now.key entry.now.version entry.now.slot origin.now ∷ []) block.now) }
    ensures cause { HasFault (D.faults disk.old) (D.faults disk.new) result }
    ensures size { D.size disk.new ≡ D.size disk.old }
    ensures run { D.came_to disk.old disk.new }
{
    make_room(disk, log, list, buffer, 1)?;
    append_put(disk, log, slots, entry, origin, block)
}
