//! What changes a store: puts, marks, rows that go, entries that go. Each change is one commit, and it is made in memory only after that.

ghost use Rattle.std.specs.Prelude.{◌==◌, ◌&&◌, ◌≡◌, ◌≤◌, ◌<◌, ◌+◌, ◌∷◌, ◌↔◌, [], length, Contains, Err, OnOk};
ghost use Rattle.std.specs.Prelude.{IfErr, OnErr, IsErrOf, true, false, not, is_some, Some, None, if◌then◌else◌};
ghost use Rattle.block_journal.specs.declared.half.TheConstants.{GROUP_BODIES};
ghost use Rattle.busy_marks.specs.Marks.{has_mark, with_mark, without_mark};
ghost use Rattle.client_rows.specs.Rows.{has_rows, rows_after, without_rows};
ghost use Rattle.petal_base.specs.Limits.{marks_limit};
ghost use Rattle.physical_map.specs.Entries.{key_of, slot_of, without_key};
ghost use Rattle.physical_map.specs.Keys.{placed};
ghost use Rattle.data_device.specs.Errors.{IsPutError, IsMarkError};
ghost use Rattle.server_store.specs.Committing.{IsCommitOf, unmarked, unmarks_of};
ghost use Rattle.server_store.specs.Holdings.{adds_row, key_held, listed, marked_in, without_held};
ghost use Rattle.data_device.specs.Tickets.{without};
ghost use Rattle.data_device.specs.declared.record.StoreRecord.{StoreRecord};
ghost use Rattle.data_device.specs.declared.record.StoreRecord.TheVariants as records;

use crate::Store;
use crate::commit::{commit, commit_put, to_list};
use crate::rows::put_row;
use crate::unmarks::{clear_all, spell_unmarks};
use block_journal::GROUP_BODIES;
use busy_marks::MarkKind;
use data_device::record::StoreRecord;
use data_device::{StoreError, Ticket};
use petal_base::{Block, Cell, Key, MARKS_LIMIT, MapId, Origin, Version};
use petal_disk::Disk;
use physical_map::Entry;

impl<D: Disk> Store<D> {
    /// Puts a block at a key, for a client's write if it is for one. It writes the ticket's slot, and only then the key's entry takes
    /// that slot, the one that it had is free, and the row of the write has its number. The ticket is spent. It takes no memory.
    ///
    /// # Errors
    /// `MarksFull` exactly where marks and rows are as many as there may be and the write would add a row, before any call of the
    /// device; `Failed` where the device failed. The entries and rows stay as they were.
    pub fn put(
        &mut self,
        ticket: Ticket,
        key: Key,
        version: Version,
        block: &Block,
        origin: Option<Origin>,
    ) -> Result<(), StoreError>
        requires { Contains self.old.tickets ticket }

        ensures put { OnOk result (listed self.new.entries ≡ placed key_of (listed self.old.entries) (record { key = key; slot = ticket; version = version })) }
        ensures content { OnOk result (D.observable → self.new.entries ≡ placed key_held self.old.entries
            (record { entry = record { key = key; slot = ticket; version = version }; content = block.now })) }
        ensures rows { OnOk result (self.new.rows ≡ rows_after self.old.rows key.map origin) }

        ensures listed { OnErr result (listed self.new.entries ≡ listed self.old.entries) }
        ensures kept { OnErr result (D.observable → self.new.entries ≡ self.old.entries) }
        ensures rows_kept { OnErr result (self.new.rows ≡ self.old.rows) }
        ensures errors { IfErr result IsPutError }
        ensures full { IsErrOf result StoreError.MarksFull ↔ (marked_in self.old ≡ marks_limit) × (adds_row self.old key.map origin ≡ true) }
        ensures full_rest { IsErrOf result StoreError.MarksFull → self.new ≡ record self.old { tickets = without self.old.tickets ticket } }
        ensures committed { IsCommitOf D.Disk self.old self.new result (records.Put key version ticket origin ∷ []) block.now }
        ensures rest { self.new ≡ record self.old {
          entries = self.new.entries;
          rows = self.new.rows;
          tickets = without self.old.tickets ticket;
          log = self.new.log;
          disk = self.new.disk;
        } }
    {
        if !self.has_room_for(key.map, &origin) {
            self.ledger.give_back(ticket);
            return Err(StoreError::MarksFull);
        }
        let list = to_list(&self.ledger, &self.marks, &self.rows, self.fresh, &self.log);
        let entry = Entry {
            key,
            slot: ticket.slot(),
            version,
        };
        match commit_put(
            &mut self.disk,
            &mut self.log,
            &list,
            &mut self.buffer,
            self.ledger.slots(),
            &entry,
            &origin,
            block,
        ) {
            Ok(()) => {
                self.ledger.settle(ticket, key, version);
                put_row(&mut self.rows, key.map, &origin);
                Ok(())
            }
            Err(error) => {
                self.ledger.give_back(ticket);
                Err(error)
            }
        }
    }

    /// Whether a put for this write has room for its row.
    pub fn has_room_for(&self, map: MapId, origin: &Option<Origin>) -> bool
        ensures { result ≡ not ((marked_in self.now == marks_limit) && adds_row self.now map origin.now) }
    {
        !(self.is_marks_full() && self.adds_row(map, origin))
    }

    /// How many marks and rows there are.
    pub fn marked(&self) -> u32
        ensures value { result ≡ marked_in self.now }
        ensures few { marked_in self.now ≤ marks_limit }
    {
        (self.marks.marks().len() + self.rows.rows().len()) as u32
    }

    // Whether marks and rows are as many as there may be.
    fn is_marks_full(&self) -> bool
        ensures full { result ≡ (marked_in self.now == marks_limit) }
        ensures few { marked_in self.now ≤ marks_limit }
    {
        self.marked() == MARKS_LIMIT
    }

    // Whether a put for this write would add a row.
    fn adds_row(&self, map: MapId, origin: &Option<Origin>) -> bool
        ensures { result ≡ adds_row self.now map origin.now }
    {
        match origin {
            Some(origin) => self.row(map, origin.link(), origin.client()).is_none(),
            None => false,
        }
    }

    /// Sets a mark. Where it is set nothing changes.
    ///
    /// # Errors
    /// `MarksFull` exactly where it is not set and marks and rows are as many as there may be; then `NoMemory`, before any call of the
    /// device; `Failed` where the device failed. The marks stay as they were.
    pub fn mark(&mut self, kind: MarkKind, cell: Cell) -> Result<(), StoreError>
        ensures ok { OnOk result (self.new.marks ≡ with_mark self.old.marks (record { kind = kind; cell = cell })) }
        ensures err { OnErr result (self.new.marks ≡ self.old.marks) }
        ensures listed { listed self.new.entries ≡ listed self.old.entries }
        ensures kept { D.observable → self.new.entries ≡ self.old.entries }
        ensures errors { IfErr result IsMarkError }
        ensures full { IsErrOf result StoreError.MarksFull
            ↔ (marked_in self.old ≡ marks_limit) × (not (has_mark (record { kind = kind; cell = cell }) self.old.marks) ≡ true) }
        ensures full_rest { IsErrOf result StoreError.MarksFull → self.new ≡ self.old }
        ensures memory { IsErrOf result StoreError.NoMemory → self.new ≡ self.old }
        ensures idle { has_mark (record { kind = kind; cell = cell }) self.old.marks ≡ true → self.new ≡ self.old }
        ensures committed { IsCommitOf D.Disk self.old self.new result
            (if not (has_mark (record { kind = kind; cell = cell }) self.old.marks) then records.Mark kind cell ∷ [] else []) [] }
        ensures rest { self.new ≡ record self.old { entries = self.new.entries; marks = self.new.marks; log = self.new.log; disk = self.new.disk } }
    {
        if self.marks.has(kind, cell) {
            return Ok(());
        }
        if self.is_marks_full() {
            return Err(StoreError::MarksFull);
        }
        self.marks.reserve(1)?;
        let list = to_list(&self.ledger, &self.marks, &self.rows, self.fresh, &self.log);
        commit(
            &mut self.disk,
            &mut self.log,
            &list,
            &mut self.buffer,
            &[StoreRecord::Mark { kind, cell }],
        )?;
        self.marks.set_reserved(kind, cell);
        Ok(())
    }

    /// Takes a mark away. Where it is not set nothing changes. It takes no memory.
    ///
    /// # Errors
    /// The device failed. The marks stay as they were.
    pub fn unmark(&mut self, kind: MarkKind, cell: Cell) -> Result<(), StoreError>
        ensures ok { OnOk result (self.new.marks ≡ without_mark self.old.marks (record { kind = kind; cell = cell })) }
        ensures err { OnErr result (self.new.marks ≡ self.old.marks) }
        ensures listed { listed self.new.entries ≡ listed self.old.entries }
        ensures kept { D.observable → self.new.entries ≡ self.old.entries }
        ensures errors { IfErr result (λ e. e ≡ StoreError.Failed) }
        ensures idle { has_mark (record { kind = kind; cell = cell }) self.old.marks ≡ false → self.new ≡ self.old }
        ensures committed { IsCommitOf D.Disk self.old self.new result
            (if has_mark (record { kind = kind; cell = cell }) self.old.marks then records.Unmark kind cell ∷ [] else []) [] }
        ensures rest { self.new ≡ record self.old { entries = self.new.entries; marks = self.new.marks; log = self.new.log; disk = self.new.disk } }
    {
        if !self.marks.has(kind, cell) {
            return Ok(());
        }
        let list = to_list(&self.ledger, &self.marks, &self.rows, self.fresh, &self.log);
        commit(
            &mut self.disk,
            &mut self.log,
            &list,
            &mut self.buffer,
            &[StoreRecord::Unmark { kind, cell }],
        )?;
        self.marks.clear(kind, cell);
        Ok(())
    }

    /// Drops the entry that has the key, and its slot is free. Where there is none nothing changes. It takes no memory.
    ///
    /// # Errors
    /// The device failed. The entries stay as they were.
    pub fn drop_key(&mut self, key: Key) -> Result<(), StoreError>
        ensures ok { OnOk result (listed self.new.entries ≡ without_key (listed self.old.entries) key) }
        ensures content { OnOk result (D.observable → self.new.entries ≡ without_held self.old.entries key) }
        ensures listed { OnErr result (listed self.new.entries ≡ listed self.old.entries) }
        ensures kept { OnErr result (D.observable → self.new.entries ≡ self.old.entries) }
        ensures errors { IfErr result (λ e. e ≡ StoreError.Failed) }
        ensures committed { IsCommitOf D.Disk self.old self.new result
            (if is_some (slot_of (listed self.old.entries) key) then records.Drop key ∷ [] else []) [] }
        ensures rest { self.new ≡ record self.old { entries = self.new.entries; log = self.new.log; disk = self.new.disk } }
    {
        if !self.has_key(key) {
            return Ok(());
        }
        let list = to_list(&self.ledger, &self.marks, &self.rows, self.fresh, &self.log);
        commit(
            &mut self.disk,
            &mut self.log,
            &list,
            &mut self.buffer,
            &[StoreRecord::Drop { key }],
        )?;
        self.ledger.drop_key(key);
        Ok(())
    }

    /// Takes the marks of this kind away from the cells that have it, together. It takes no memory.
    ///
    /// # Errors
    /// The device failed. The marks stay as they were.
    pub fn unmark_all(&mut self, kind: MarkKind, cells: &[Cell]) -> Result<(), StoreError>
        requires { length cells.now ≤ GROUP_BODIES }
        ensures ok { OnOk result (self.new.marks ≡ unmarked kind cells.now self.old.marks) }
        ensures err { OnErr result (self.new.marks ≡ self.old.marks) }
        ensures listed { listed self.new.entries ≡ listed self.old.entries }
        ensures kept { D.observable → self.new.entries ≡ self.old.entries }
        ensures errors { IfErr result (λ e. e ≡ StoreError.Failed) }
        ensures idle { unmarks_of kind cells.now self.old.marks ≡ [] → self.new ≡ self.old }
        ensures committed { IsCommitOf D.Disk self.old self.new result (unmarks_of kind cells.now self.old.marks) [] }
        ensures rest { self.new ≡ record self.old { entries = self.new.entries; marks = self.new.marks; log = self.new.log; disk = self.new.disk } }
    {
        let mut changes = [StoreRecord::Settled; GROUP_BODIES];
        let count = spell_unmarks(&self.marks, kind, cells, &mut changes);
        if count == 0 {
            return Ok(());
        }
        let list = to_list(&self.ledger, &self.marks, &self.rows, self.fresh, &self.log);
        commit(
            &mut self.disk,
            &mut self.log,
            &list,
            &mut self.buffer,
            &changes[..count],
        )?;
        clear_all(&mut self.marks, kind, cells);
        Ok(())
    }

    /// Takes the rows of a link of a map away. Where there is none nothing changes. It takes no memory.
    ///
    /// # Errors
    /// The device failed. The rows stay as they were.
    pub fn forget(&mut self, map: MapId, link: u8) -> Result<(), StoreError>
        ensures ok { OnOk result (self.new.rows ≡ without_rows self.old.rows map link) }
        ensures err { OnErr result (self.new.rows ≡ self.old.rows) }
        ensures listed { listed self.new.entries ≡ listed self.old.entries }
        ensures kept { D.observable → self.new.entries ≡ self.old.entries }
        ensures errors { IfErr result (λ e. e ≡ StoreError.Failed) }
        ensures idle { has_rows map link self.old.rows ≡ false → self.new ≡ self.old }
        ensures committed { IsCommitOf D.Disk self.old self.new result (if has_rows map link self.old.rows then records.Forget map link ∷ [] else []) [] }
        ensures rest { self.new ≡ record self.old { entries = self.new.entries; rows = self.new.rows; log = self.new.log; disk = self.new.disk } }
    {
        if !self.rows.has(map, link) {
            return Ok(());
        }
        let list = to_list(&self.ledger, &self.marks, &self.rows, self.fresh, &self.log);
        commit(
            &mut self.disk,
            &mut self.log,
            &list,
            &mut self.buffer,
            &[StoreRecord::Forget { map, link }],
        )?;
        self.rows.drop_link(map, link);
        Ok(())
    }

    /// Whether there is an entry of this key.
    fn has_key(&self, key: Key) -> bool
        ensures { result ≡ is_some (slot_of (listed self.now.entries) key) }
    {
        self.ledger.map().slot(key).is_some()
    }

    /// The store has been filled again. Where it is not `fresh` nothing changes. It takes no memory.
    ///
    /// # Errors
    /// The device failed. It is as `fresh` as it was.
    pub fn settle_fresh(&mut self) -> Result<(), StoreError>
        ensures ok { OnOk result (self.new.fresh ≡ false) }
        ensures err { OnErr result (self.new.fresh ≡ self.old.fresh) }
        ensures listed { listed self.new.entries ≡ listed self.old.entries }
        ensures kept { D.observable → self.new.entries ≡ self.old.entries }
        ensures errors { IfErr result (λ e. e ≡ StoreError.Failed) }
        ensures idle { self.old.fresh ≡ false → self.new ≡ self.old }
        ensures committed { IsCommitOf D.Disk self.old self.new result (if self.old.fresh then records.Settled ∷ [] else []) [] }
        ensures rest { self.new ≡ record self.old { entries = self.new.entries; fresh = self.new.fresh; log = self.new.log; disk = self.new.disk } }
    {
        if !self.fresh {
            return Ok(());
        }
        let list = to_list(&self.ledger, &self.marks, &self.rows, self.fresh, &self.log);
        commit(
            &mut self.disk,
            &mut self.log,
            &list,
            &mut self.buffer,
            &[StoreRecord::Settled],
        )?;
        self.fresh = false;
        Ok(())
    }
}
