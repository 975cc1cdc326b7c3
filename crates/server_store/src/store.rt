//! The store of one server, over its device.

ghost use Rattle.std.specs.Prelude.{◌^◌, ◌≡◌, ℕ, ◌≤◌, ◌<◌, ◌+◌, ◌++◌, ◌∷◌, ◌↔◌, [], Bool, List, length, slice_get, take, vec_len, Contains, Err, IfOk, OnOk};
ghost use Rattle.std.specs.Prelude.{IfErr, OnErr, IfNone, true, false, not, Some, None, if◌then◌else◌};
ghost use Rattle.std.specs.List.Sorted.{IsStrictlySortedBy};
ghost use Rattle.block_journal.specs.declared.half.TheConstants.{TURN_BYTES};
ghost use Rattle.busy_marks.specs.Marks.{mark_cmp, has_mark, next_marked, next_marked_map};
ghost use Rattle.client_rows.specs.Rows.{next_rows_of, row_of};
ghost use Rattle.petal_base.specs.Block.{zero_block, block_bytes};
ghost use Rattle.petal_base.specs.Limits.{max_slots};
ghost use Rattle.petal_disk.specs.Disk.{LeavesOnly, Within};
ghost use Rattle.device_faults.specs.Faults.{HasCause};
ghost use Rattle.petal_disk.specs.Keeping.{KeepsDevice};
ghost use Rattle.petal_disk.specs.Plans.{beneath, plan_state};
ghost use Rattle.physical_map.specs.Entries.{key_of, chain_of, map_entries, top_of, version_of, next_block_of, lesser};
ghost use Rattle.physical_map.specs.Keys.{newest, IsInOrder};
ghost use Rattle.data_device.specs.Device.{header, bodies_of, AreSpelled, StandsFor, header_bytes, IsJournalOf};
ghost use Rattle.data_device.specs.Errors.{IsFormatError, IsReserveError};
ghost use Rattle.server_store.specs.Holdings.{key_held, kept_in, listed, free_slots, content_of, next_map_in};
ghost use Rattle.data_device.specs.Found.{IsOpenError, IsGoodError};
ghost use Rattle.data_device.specs.Kept.{AllFit, formatted, kept_of};
ghost use Rattle.server_store.specs.Opening.{IfStore, IfBlank, IsStore, IsReread, Reopened, kept_found};
ghost use Rattle.data_device.specs.Reading.{IsBadOn, IsBlank, LeftByFormat};
ghost use Rattle.server_store.specs.Shown.{Picture, picture_of, picture_in, Shows, Holds};
ghost use Rattle.data_device.specs.Slots.{slot_start};
ghost use Rattle.data_device.specs.Tickets.{without};
ghost use Rattle.data_device.specs.declared.record.StoreRecord.{StoreRecord};
ghost use Rattle.server_store.specs.declared.reread.Reread.TheVariants as reread;

use crate::equal::{are_same_entries, are_same_marks};
use crate::rows::are_same_rows;
use crate::{Opened, Reread};
use block_journal::TURN_BYTES;
use busy_marks::{MarkKind, Marks};
use client_rows::Rows;
use data_device::{
    Found, Header, Ledger, RecordLog, StoreError, Ticket, read_device, write_format,
};
use petal_base::{BlockNo, Cell, ClientId, Epoch, MapId, NoMemory, Seq, Sequence, Version};
use petal_disk::{Disk, Failed, Plan, Planned};
use physical_map::Entry;
use std::alloc::Global;
use std::marker::Model;

/// The entries of one server with their contents, its marks, and the rows of the writes that were put. Contracts see the entries in
/// the order of their keys, each with its content, the slots of the tickets out, the marks, the rows, the number of slots, whether the
/// store is still to be filled again, and the device.
#[derive(Drop)]
pub struct Store<D: Disk> {
    pub(crate) ledger: Ledger,
    pub(crate) marks: Marks,
    // room for the row of each ticket out
    pub(crate) rows: Rows,
    pub(crate) fresh: bool,
    pub(crate) log: RecordLog,
    // what a turn of the journal borrows
    pub(crate) buffer: Vec<u8>,
    pub(crate) disk: D,
}

impl<D: Disk> Model for Store<D> {
    ghost use Rattle.std.specs.Prelude.{map};
    ghost use Rattle.server_store.specs.Holdings.{Holdings, IsKeptBy, held_in};

    ghost Value = { Holdings D };

    ghost view = { λ s. record {
      entries = map (held_in (D.seen s.disk)) s.ledger.entries;
      tickets = s.ledger.tickets;
      marks = s.marks.marks;
      rows = s.rows.rows;
      slots = s.ledger.slots;
      fresh = s.fresh;
      log = s.log;
      disk = s.disk;
    } };

    ghost invariant = { λ s. IsKeptBy s.ledger s.marks s.rows s.fresh s.log s.buffer (D.size s.disk) };
}

impl<D: Disk> Store<D> {
    /// The store without entries on a device in which the slots fit; `fresh` where it is to be filled again. A crash at any
    /// moment leaves what it might have left before, a blank device, or this store.
    ///
    /// # Errors
    /// `NoMemory`, before any call of the device, which is handed back as it was; `Failed`, where the device failed. The device
    /// is handed back.
    pub fn format(
        alloc: Global,
        disk: D,
        slots: u32,
        fresh: bool,
    ) -> Result<Store<D>, (D, StoreError)>
        requires fits { slot_start slots ≤ D.size disk }
        requires few { slots ≤ max_slots }
        ensures ok { IfOk result (λ store. store ≡ record {
          entries = [];
          tickets = [];
          marks = [];
          rows = [];
          slots = slots;
          fresh = fresh;
          log = record { fresh = fresh; records = []; halves = store.log.halves };
          disk = store.disk;
        }) }
        ensures holds { IfOk result (λ store. D.observable → Holds store (D.seen store.disk) (D.may_leave store.disk)) }
        ensures size { IfOk result (λ store. D.size store.disk ≡ D.size disk) }
        ensures errors { IfErr result (λ e. IsFormatError e.1) }
        ensures failed { IfErr result (λ e. e.1 ≡ StoreError.Failed → D.faults disk < D.faults e.0) }
        ensures any_moment { IfOk result
            (λ store. D.observable → LeavesOnly D.moment D.left_since disk store.disk (LeftByFormat (D.may_leave disk) (D.size disk) slots fresh)) }
        ensures err_any_moment { IfErr result
            (λ e. D.observable → LeavesOnly D.moment D.left_since disk e.0 (LeftByFormat (D.may_leave disk) (D.size disk) slots fresh)) }
        ensures err_either { IfErr result (λ e. D.observable → LeftByFormat (λ file. file ≡ D.seen disk) (D.size disk) slots fresh (D.seen e.0)) }
        ensures err_size { IfErr result (λ e. D.size e.0 ≡ D.size disk) }
        ensures memory { IfErr result (λ e. e.1 ≡ StoreError.NoMemory → e.0 ≡ disk) }
        ensures later { IfOk result (λ store. D.faults disk ≤ D.faults store.disk) }
        ensures run { IfOk result (λ store. D.came_to disk store.disk) }
        ensures err_run { IfErr result (λ e. D.came_to disk e.0) }
    {
        let mut disk = disk;
        let Ok(buffer) = new_buffer(alloc) else {
            return Err((disk, StoreError::NoMemory));
        };
        match write_format(alloc, &mut disk, Header { slots, fresh }) {
            Ok((ledger, log)) => Ok(Store {
                ledger,
                marks: Marks::new(alloc),
                rows: Rows::new(alloc),
                fresh,
                log,
                buffer,
                disk,
            }),
            Err(error) => Err((disk, error)),
        }
    }

    /// The store that a device stands for, or the device where it is blank: where it has no header that is spelled, its journal or
    /// slots do not fit it, or neither half of the journal counts.
    ///
    /// # Errors
    /// `BadRecord` where the record of this index counts and has no spelling, puts into a slot that is in use or not there, or gives
    /// more marks and rows than there may be; `Failed`, where the device failed, and `NoMemory`. The device is handed back, and but
    /// for a sync it is as it was.
    pub fn open(alloc: Global, disk: D) -> Result<Opened<D>, (D, StoreError)>
        ensures headed { IfOk result (λ o. IfStore o (λ store. D.observable → take header_bytes (D.seen disk) ≡ header store.slots store.log.fresh)) }
        ensures list { IfOk result (λ o. IfStore o (λ store. D.observable → IsJournalOf (D.seen disk) (bodies_of store.log.records))) }
        ensures spelled { IfOk result
            (λ o. IfStore o (λ store. AreSpelled store.log.records × AllFit store.slots (formatted store.log.fresh) store.log.records)) }
        ensures shown { IfOk result (λ o. IfStore o (λ store. picture_of store ≡ picture_in (D.seen disk) (kept_of store.log.fresh store.log.records))) }
        ensures no_tickets { IfOk result (λ o. IfStore o (λ store. store.tickets ≡ [])) }
        ensures same { (slots : ℕ) (fresh : Bool) (recorded : List StoreRecord) (picture : Picture)
            → IfOk result (λ o. D.observable → slot_start slots ≤ D.size disk → Shows (D.seen disk) slots fresh recorded picture
            → IsStore o (λ store. Reopened slots fresh recorded picture store (D.seen store.disk) (D.may_leave store.disk))) }
        ensures blank { IfOk result (λ o. IfBlank o (λ _. D.observable → IsBlank (D.seen disk) (D.size disk))) }
        ensures bad { (index slots : ℕ) (fresh : Bool) → IfErr result (λ e. e.1 ≡ StoreError.BadRecord index → D.observable → slots ≤ max_slots
            → take header_bytes (D.seen disk) ≡ header slots fresh → IsBadOn (D.seen disk) slots fresh index) }
        ensures bad_headed { (index : ℕ) → IfErr result (λ e. e.1 ≡ StoreError.BadRecord index → D.observable → ¬ IsBlank (D.seen disk) (D.size disk)) }
        ensures good { (slots : ℕ) (fresh : Bool) (recorded : List StoreRecord)
            → IfErr result (λ e. D.observable → StandsFor (D.seen disk) slots fresh recorded → IsGoodError e.1) }
        ensures errors { IfErr result (λ e. IsOpenError e.1) }
        ensures failed { IfErr result (λ e. e.1 ≡ StoreError.Failed → D.faults disk < D.faults e.0) }
        ensures later { IfOk result (λ o. IfStore o (λ store. D.faults disk ≤ D.faults store.disk)) }
        ensures device { IfOk result (λ o. IfStore o (λ store. KeepsDevice D.size D.seen D.may_leave D.moment D.left_since disk store.disk)) }
        ensures blank_device { IfOk result (λ o. IfBlank o (λ back. KeepsDevice D.size D.seen D.may_leave D.moment D.left_since disk back)) }
        ensures err_device { IfErr result (λ e. KeepsDevice D.size D.seen D.may_leave D.moment D.left_since disk e.0) }
        ensures run { IfOk result (λ o. IfStore o (λ store. D.came_to disk store.disk)) }
        ensures blank_run { IfOk result (λ o. IfBlank o (λ back. D.came_to disk back)) }
        ensures err_run { IfErr result (λ e. D.came_to disk e.0) }
    {
        let mut disk = disk;
        let Ok(buffer) = new_buffer(alloc) else {
            return Err((disk, StoreError::NoMemory));
        };
        match read_device(alloc, &mut disk) {
            Ok(Some(found)) => Ok(Opened::Store(Store {
                ledger: found.ledger,
                marks: found.marks,
                rows: found.rows,
                fresh: found.fresh,
                log: found.log,
                buffer,
                disk,
            })),
            Ok(None) => Ok(Opened::Blank(disk)),
            Err(error) => Err((disk, error)),
        }
    }

    /// Loses what the device does not keep, as in a crash, and reads again what the device then stands for. The answer is whether that
    /// is a store, and whether it keeps what was held in memory; where it is none, the device is blank, and what is held is not to be
    /// used.
    ///
    /// # Errors
    /// `BadRecord`, `Failed` and `NoMemory`, as of `open`. What is held in memory stays.
    pub fn reopen(&mut self, alloc: Global) -> Result<Reread, StoreError>
        ensures left { D.observable → D.may_leave self.old.disk (D.seen self.new.disk) }
        ensures same { (slots : ℕ) (fresh : Bool) (recorded : List StoreRecord) (picture : Picture)
            → IfOk result (λ found. IsReread found → D.observable → Shows (D.seen self.new.disk) slots fresh recorded picture
            → Reopened slots fresh recorded picture self.new (D.seen self.new.disk) (D.may_leave self.new.disk)) }
        ensures no_tickets { IfOk result (λ found. IsReread found → self.new.tickets ≡ []) }
        ensures observed { IfOk result (λ found. IsReread found → (found ≡ reread.Same) ↔ (kept_in self.new ≡ kept_in self.old)) }
        ensures still { OnErr result (kept_in self.new ≡ kept_in self.old) }
        ensures errors { IfErr result IsOpenError }
        ensures failed { IfErr result (λ e. e ≡ StoreError.Failed → D.faults self.old.disk < D.faults self.new.disk) }
        ensures later { D.faults self.old.disk ≤ D.faults self.new.disk }
        ensures crash { Within (D.may_leave self.old.disk) (D.may_leave self.new.disk) }
        ensures run { D.came_to self.old.disk self.new.disk }
    {
        self.disk.crash();
        let Some(found) = read_device(alloc, &mut self.disk)? else {
            return Ok(Reread::Blank);
        };
        let same = self.keeps(&found);
        self.ledger = found.ledger;
        self.marks = found.marks;
        self.rows = found.rows;
        self.fresh = found.fresh;
        self.log = found.log;
        Ok(as_reread(same))
    }

    // Whether what was found is what is held in memory.
    fn keeps(&self, found: &Found) -> bool
        ensures { (result ≡ true) ↔ (kept_in self.now ≡ kept_found found.now) }
    {
        self.keeps_tables(found) && self.keeps_rest(found)
    }

    // Whether entries and marks are those that were found.
    fn keeps_tables(&self, found: &Found) -> bool
        ensures { (result ≡ true) ↔ ((listed self.now.entries ≡ found.now.ledger.entries) × (self.now.marks ≡ found.now.marks.marks)) }
    {
        are_same_entries(self.entries(), found.ledger.map().entries())
            && are_same_marks(self.marks.marks(), found.marks.marks())
    }

    // Whether rows are those that were found, and whether it is as `fresh`.
    fn keeps_rest(&self, found: &Found) -> bool
        ensures { (result ≡ true) ↔ ((self.now.rows ≡ found.now.rows.rows) × (self.now.fresh ≡ found.now.fresh)) }
    {
        are_same_rows(self.rows.rows(), found.rows.rows()) && self.fresh == found.fresh
    }

    /// Sets a free slot aside, and all the memory that a put with it needs.
    ///
    /// # Errors
    /// `NoSpace` exactly where no slot is free; then `NoMemory`. Nothing changed.
    pub fn reserve(&mut self) -> Result<Ticket, StoreError>
        ensures ok { IfOk result (λ ticket. self.new ≡ record self.old { tickets = self.old.tickets ++ ticket ∷ [] }) }
        ensures out { IfOk result (λ ticket. Contains self.new.tickets ticket) }
        ensures other { IfOk result (λ ticket. ¬ Contains self.old.tickets ticket) }
        ensures err { OnErr result (self.new ≡ self.old) }
        ensures errors { IfErr result IsReserveError }
        ensures no_space { (result ≡ Err StoreError.NoSpace) ↔ (free_slots self.old ≡ 0) }
    {
        if self.ledger.free() == 0 {
            return Err(StoreError::NoSpace);
        }
        self.rows.reserve(self.ledger.out() + 1)?;
        match self.ledger.reserve()? {
            Some(ticket) => Ok(ticket),
            None => Err(StoreError::NoSpace),
        }
    }

    /// The ticket's slot is free again.
    pub fn give_back(&mut self, ticket: Ticket)
        requires { Contains self.old.tickets ticket }
        ensures { self.new ≡ record self.old { tickets = without self.old.tickets ticket } }
    {
        self.ledger.give_back(ticket);
    }

    /// The entry of the greatest epoch not above, and its content: zeros where there is none.
    pub fn read(
        &mut self,
        map: MapId,
        block: BlockNo,
        epoch: Epoch,
        into: &mut [u8],
    ) -> Result<Option<Entry>, Failed>
        requires { length into.old ≡ block_bytes }
        ensures found { IfOk result (λ found. found ≡ newest key_of (record { map = map; block = block; epoch = epoch }) (listed self.old.entries)) }
        ensures content { OnOk result
            (D.observable → into.new ≡ content_of (newest key_held (record { map = map; block = block; epoch = epoch }) self.old.entries)) }
        ensures zeros { IfOk result (λ found. IfNone found (into.new ≡ zero_block)) }
        ensures same { self.new ≡ record self.old { disk = self.new.disk } }
        ensures device { KeepsDevice D.size D.seen D.may_leave D.moment D.left_since self.old.disk self.new.disk }
        ensures holds { D.observable → Holds self.old (D.seen self.old.disk) (D.may_leave self.old.disk)
            → Holds self.new (D.seen self.new.disk) (D.may_leave self.new.disk) }
        ensures cause { HasCause (D.faults self.old.disk) (D.faults self.new.disk) result }
        ensures run { D.came_to self.old.disk self.new.disk }
    {
        let found = self.ledger.lookup(map, block, epoch);
        match found {
            Some(entry) => self.ledger.slots().read(&mut self.disk, entry.slot, into)?,
            None => write_zeros(into),
        }
        Ok(found)
    }

    /// The entry of the greatest epoch not above.
    pub fn lookup(&self, map: MapId, block: BlockNo, epoch: Epoch) -> Option<Entry>
        ensures { result ≡ newest key_of (record { map = map; block = block; epoch = epoch }) (listed self.now.entries) }
    {
        self.ledger.lookup(map, block, epoch)
    }

    /// The entries of a cell by rising epoch.
    pub fn chain(&self, alloc: Global, cell: Cell) -> Result<Sequence<Entry>, NoMemory>
        ensures { IfOk result (λ chain. chain ≡ chain_of cell (listed self.now.entries)) }
    {
        self.ledger.map().chain(alloc, cell)
    }

    /// All entries in the order of their keys.
    pub fn entries(&self) -> &[Entry]
        ensures { result.now ≡ listed self.now.entries }
    {
        self.ledger.map().entries()
    }

    /// The entries of a cell by rising epoch, as they stand.
    pub fn chain_at(&self, cell: Cell) -> &[Entry]
        ensures { result.now ≡ chain_of cell (listed self.now.entries) }
    {
        self.ledger.map().chain_at(cell)
    }

    /// A map's entries of the blocks above `after`, as they stand.
    pub fn of_map(&self, map: MapId, after: Option<BlockNo>) -> &[Entry]
        ensures { result.now ≡ map_entries map after (listed self.now.entries) }
    {
        self.ledger.map().of_map(map, after)
    }

    /// The entry of a cell at this place of its chain, counted from 0.
    pub fn nth(&self, cell: Cell, place: usize) -> Option<Entry>
        ensures { result ≡ slice_get (chain_of cell (listed self.now.entries)) place }
    {
        self.ledger.map().nth(cell, place)
    }

    /// The greatest version of a cell's entries, 0 without one.
    pub fn version(&self, cell: Cell) -> Version
        ensures { result ≡ version_of cell (listed self.now.entries) }
    {
        self.ledger.map().version(cell)
    }

    /// The greatest version of all entries, 0 without one.
    pub fn top(&self) -> Version
        ensures { result ≡ top_of (listed self.now.entries) }
    {
        self.ledger.map().top()
    }

    /// The least block of the map above `after` with an entry.
    pub fn next_block(&self, map: MapId, after: Option<BlockNo>) -> Option<BlockNo>
        ensures { result ≡ next_block_of map after (listed self.now.entries) }
    {
        self.ledger.map().next_block(map, after)
    }

    /// Whether a mark is set.
    pub fn has(&self, kind: MarkKind, cell: Cell) -> bool
        ensures { result ≡ has_mark (record { kind = kind; cell = cell }) self.now.marks }
    {
        self.marks.has(kind, cell)
    }

    /// The least block of the map above `after` with a mark of either kind.
    pub fn next_mark(&self, map: MapId, after: Option<BlockNo>) -> Option<BlockNo>
        ensures least { result ≡ next_marked map after self.now.marks }
        ensures sorted { IsStrictlySortedBy mark_cmp self.now.marks }
    {
        self.marks.next(map, after)
    }

    /// The least map above `after` with a mark.
    pub fn next_marked_map(&self, after: Option<MapId>) -> Option<MapId>
        ensures { result ≡ next_marked_map after self.now.marks }
    {
        self.marks.next_map(after)
    }

    /// The least map above `after` with an entry or a mark.
    pub fn next_map(&self, after: Option<MapId>) -> Option<MapId>
        ensures { result ≡ next_map_in after (listed self.now.entries) self.now.marks }
    {
        lesser_of(
            self.ledger.map().next_map(after),
            self.marks.next_map(after),
        )
    }

    /// How many slots are neither in use nor promised to a ticket. The entries are in the order of their keys, and a `u32` can
    /// count them.
    pub fn free(&self) -> u32
        ensures value { result ≡ free_slots self.now }
        ensures order { IsInOrder key_held self.now.entries }
        ensures few { length self.now.entries < 2 ^ 32 }
    {
        self.ledger.free()
    }

    /// How many slots there are.
    pub fn slots(&self) -> u32
        ensures value { result ≡ self.now.slots }
        ensures few { result ≤ max_slots }
    {
        self.ledger.count()
    }

    /// The greatest number that a client put on a link; None exactly where it put none.
    pub fn row(&self, map: MapId, link: u8, client: ClientId) -> Option<Seq>
        ensures { result ≡ row_of self.now.rows map link client }
    {
        self.rows.get(map, link, client)
    }

    /// The least map and link above `after` with a row.
    pub fn next_rows(&self, after: Option<(MapId, u8)>) -> Option<(MapId, u8)>
        ensures { result ≡ next_rows_of after self.now.rows }
    {
        self.rows.next(after)
    }

    /// Whether it was formatted on a device that was found blank, and has not been filled since.
    pub fn fresh(&self) -> bool
        ensures { result ≡ self.now.fresh }
    {
        self.fresh
    }

    /// The device.
    pub fn into_disk(self) -> D
        ensures { result ≡ self.disk }
    {
        self.disk
    }
}

impl<E: Disk> Store<Planned<E>> {
    /// Arms the device's one plan, and changes nothing else.
    pub fn arm(&mut self, plan: Plan)
        ensures disk { beneath self.new.disk ≡ beneath self.old.disk }
        ensures state { plan_state self.new.disk ≡ record (plan_state self.old.disk) { plan = Some plan; stopped = false } }
        ensures rest { self.new ≡ record self.old { disk = self.new.disk } }
    {
        self.disk.arm(plan);
    }

    /// No plan counts from now on, and nothing else changes.
    pub fn disarm(&mut self)
        ensures disk { beneath self.new.disk ≡ beneath self.old.disk }
        ensures state { plan_state self.new.disk ≡ record (plan_state self.old.disk) { plan = None } }
        ensures rest { self.new ≡ record self.old { disk = self.new.disk } }
    {
        self.disk.disarm();
    }

    /// Whether a plan with `stop` was met since the last arming.
    pub fn stopped(&self) -> bool
        ensures { result ≡ (plan_state self.now.disk).stopped }
    {
        self.disk.stopped()
    }
}

// The lesser of two numbers, where there are two.
fn lesser_of(a: Option<u32>, b: Option<u32>) -> Option<u32>
    ensures { result ≡ lesser a b }
{
    match (a, b) {
        (Some(a), Some(b)) if b < a => Some(b),
        (Some(a), _) => Some(a),
        (None, b) => b,
    }
}

// A store that is the one in memory, or another one.
fn as_reread(same: bool) -> Reread
    ensures { (result ≡ reread.Same) ↔ (same ≡ true) }
{
    if same { Reread::Same } else { Reread::Changed }
}

fn write_zeros(into: &mut [u8])
    requires { length into.old ≡ block_bytes }
    ensures { into.new ≡ zero_block }
{
    into.fill(0);
}

// The bytes that a turn of the journal borrows.
fn new_buffer(alloc: Global) -> Result<Vec<u8>, NoMemory>
    ensures { IfOk result (λ buffer. vec_len buffer ≡ TURN_BYTES) }
{
    Ok(vec![in alloc; 0; TURN_BYTES]?)
}
