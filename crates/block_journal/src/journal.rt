//! Appending to a journal, and making and opening one.

ghost use Rattle.std.specs.Prelude.{◌≡◌, ◌⊎◌, ◌≤◌, ◌<◌, ◌+◌, ◌-◌, ◌*◌, ◌^◌, ◌++◌, ◌↔◌, [], ◌∷◌, ℕ, List, length, OnOk, IfOk, IsErrOf};
ghost use Rattle.petal_disk.specs.Disk.{LeavesOnly, LeftByWrite, Only, Torn, Within};
ghost use Rattle.device_faults.specs.Faults.{HasCause};
ghost use Rattle.block_journal.specs.Gate.{IsShut};
ghost use Rattle.block_journal.specs.Records.{contents, Counts, Stands, Stored, LeftByAppend, WithOrWithout};
ghost use Rattle.block_journal.specs.declared.error.JournalError.TheVariants as error;

use crate::JournalError;
use crate::gate::{OPEN, close_gate};
use crate::reading::read_bodies;
use petal_disk::{Disk, Failed, write_kept, write_zeros_kept};
use std::alloc::Global;
use std::marker::Model;

/// A journal of records of `R` bytes: where its region stands on the disk, and how many records count. What the records say
/// is on the disk alone.
#[derive(Drop)]
pub struct Journal<const R: usize> {
    base: u64,
    limit: u32,
    count: u32,
}

impl<const R: usize> Model for Journal<R> {
    ghost use Rattle.block_journal.specs.Region.{Region, IsPlaced};

    ghost Value = { Region };

    ghost view = { λ journal. record { base = journal.base; limit = journal.limit; count = journal.count } };

    ghost invariant = { λ journal. IsPlaced R (record { base = journal.base; limit = journal.limit; count = journal.count }) };
}

impl<const R: usize> Journal<R> {
    /// Makes a journal of no bodies: closes the gates of all `limit` records from `base` on, and syncs. It takes no memory.
    ///
    /// # Errors
    /// The disk failed.
    pub fn format<D: Disk>(disk: &mut D, base: u64, limit: u32) -> Result<Journal<R>, Failed>
        requires wide { 0 < R }
        requires region { base + R * limit ≤ D.size disk.old }
        ensures region { IfOk result (λ journal. journal ≡ record { base = base; limit = limit; count = 0 }) }
        ensures stored { IfOk result (λ journal. D.observable → Stored R journal (D.seen disk.new) (D.may_leave disk.new) []) }
        ensures durable { OnOk result (D.observable → Only (D.seen disk.new) (D.may_leave disk.new)) }
        ensures any_moment { LeavesOnly D.moment D.left_since disk.old disk.new
            (LeftByWrite base (R * limit) (D.may_leave disk.old)) }
        ensures outside { D.observable → Torn base (R * limit) (D.seen disk.old) (D.seen disk.new) }
        ensures size { D.size disk.new ≡ D.size disk.old }
        ensures cause { HasCause (D.faults disk.old) (D.faults disk.new) result }
        ensures run { D.came_to disk.old disk.new }
    {
        let _size = disk.len();
        write_zeros_kept(disk, base, R as u64 * u64::from(limit))?;
        Ok(Journal {
            base,
            limit,
            count: 0,
        })
    }

    /// Makes a journal of no bodies on a device whose gate it closes first: so what the records that it clears stood for is
    /// no longer read. A crash at any moment leaves what it might have left before, or a closed gate. It takes no memory.
    ///
    /// # Errors
    /// The device failed.
    pub fn format_after_gate<D: Disk>(
        disk: &mut D,
        base: u64,
        limit: u32,
    ) -> Result<Journal<R>, Failed>
        requires wide { 0 < R }
        requires following { 1 ≤ base }
        requires region { base + R * limit ≤ D.size disk.old }
        ensures region { IfOk result (λ journal. journal ≡ record { base = base; limit = limit; count = 0 }) }
        ensures stored { IfOk result (λ journal. D.observable → Stored R journal (D.seen disk.new) (D.may_leave disk.new) []) }
        ensures durable { OnOk result (D.observable → Only (D.seen disk.new) (D.may_leave disk.new)) }
        ensures shut { OnOk result (D.observable → IsShut (D.seen disk.new)) }
        ensures any_moment { D.observable → LeavesOnly D.moment D.left_since disk.old disk.new (λ c. D.may_leave disk.old c ⊎ IsShut c) }
        ensures either { D.observable → (D.seen disk.new ≡ D.seen disk.old) ⊎ IsShut (D.seen disk.new) }
        ensures size { D.size disk.new ≡ D.size disk.old }
        ensures cause { HasCause (D.faults disk.old) (D.faults disk.new) result }
        ensures run { D.came_to disk.old disk.new }
    {
        let _size = disk.len();
        close_gate(disk)?;
        Journal::format(disk, base, limit)
    }

    /// Opens the journal of `limit` records from `base` on: syncs, and gives the bodies up to the first gate that is not
    /// open, in order.
    ///
    /// # Errors
    /// `Failed` where the disk failed; `NoMemory`.
    pub fn open<D: Disk>(
        alloc: Global,
        disk: &mut D,
        base: u64,
        limit: u32,
    ) -> Result<(Journal<R>, Vec<Vec<u8>>), JournalError>
        requires wide { 0 < R }
        requires region { base + R * limit ≤ D.size disk.old }
        ensures region { IfOk result (λ out. out.0 ≡ record { base = base; limit = limit; count = length out.1.items }) }
        ensures counts { IfOk result (λ out. D.observable → Counts R base limit (D.seen disk.old) (contents out.1.items)) }
        ensures stored { IfOk result (λ out. D.observable → (bodies : List (List ℕ)) → Stands R base limit (D.seen disk.old) bodies
            → (contents out.1.items ≡ bodies) × Stored R out.0 (D.seen disk.new) (D.may_leave disk.new) bodies) }
        ensures seen { D.seen disk.new ≡ D.seen disk.old }
        ensures crash { Within (D.may_leave disk.old) (D.may_leave disk.new) }
        ensures any_moment { LeavesOnly D.moment D.left_since disk.old disk.new (D.may_leave disk.old) }
        ensures full { ¬ IsErrOf result error.Full }
        ensures size { D.size disk.new ≡ D.size disk.old }
        ensures later { D.faults disk.old ≤ D.faults disk.new }
        ensures failed { IsErrOf result error.Failed → D.faults disk.old < D.faults disk.new }
        ensures run { D.came_to disk.old disk.new }
    {
        let _size = disk.len();
        disk.sync()?;
        let bodies = read_bodies::<D, R>(alloc, disk, base, limit)?;
        let journal = Journal {
            base,
            limit,
            count: bodies.len() as u32,
        };
        Ok((journal, bodies))
    }

    /// How many records count.
    pub fn count(&self) -> u32
        ensures { result ≡ self.now.count }
    {
        self.count
    }

    /// Appends a body of `R - 1` bytes: writes it after a gate that stays closed, syncs, opens the gate, syncs. A crash at
    /// any moment leaves the list as it was, or with the body. It takes no memory.
    ///
    /// # Errors
    /// `Full` exactly where all records count, and nothing changed; `Failed` where the disk failed, and then the journal is
    /// to be opened again.
    pub fn append<D: Disk>(&mut self, disk: &mut D, body: &[u8]) -> Result<(), JournalError>
        requires body { length body.now ≡ R - 1 }
        requires region { self.old.base + R * self.old.limit ≤ D.size disk.old }
        ensures counted { OnOk result (self.new ≡ record self.old { count = self.old.count + 1 }) }
        ensures appended { OnOk result (D.observable → (bodies : List (List ℕ))
            → Stored R self.old (D.seen disk.old) (D.may_leave disk.old) bodies
            → Stored R self.new (D.seen disk.new) (D.may_leave disk.new) (bodies ++ body.now ∷ [])) }
        ensures either { D.observable → (bodies : List (List ℕ))
            → Stored R self.old (D.seen disk.old) (D.may_leave disk.old) bodies
            → WithOrWithout R self.old bodies body.now (D.seen disk.new) }
        ensures any_moment { D.observable → (bodies : List (List ℕ))
            → Stored R self.old (D.seen disk.old) (D.may_leave disk.old) bodies
            → LeavesOnly D.moment D.left_since disk.old disk.new
            (LeftByAppend R self.old (D.may_leave disk.old) bodies body.now) }
        ensures durable { OnOk result (D.observable → Only (D.seen disk.new) (D.may_leave disk.new)) }
        ensures outside { D.observable → Torn self.old.base (R * self.old.limit) (D.seen disk.old) (D.seen disk.new) }
        ensures full { IsErrOf result error.Full ↔ (self.old.count ≡ self.old.limit) }
        ensures unchanged { IsErrOf result error.Full → (self.new ≡ self.old) × (disk.new ≡ disk.old) }
        ensures memory { ¬ IsErrOf result error.NoMemory }
        ensures place { (self.new.base ≡ self.old.base) × (self.new.limit ≡ self.old.limit) }
        ensures size { D.size disk.new ≡ D.size disk.old }
        ensures later { D.faults disk.old ≤ D.faults disk.new }
        ensures failed { IsErrOf result error.Failed → D.faults disk.old < D.faults disk.new }
        ensures run { D.came_to disk.old disk.new }
    {
        if self.count == self.limit {
            return Err(JournalError::Full);
        }
        let gate = self.base + R as u64 * self.count as u64;
        write_kept(disk, gate + 1, body)?;
        write_kept(disk, gate, &[OPEN])?;
        self.count += 1;
        Ok(())
    }
}
