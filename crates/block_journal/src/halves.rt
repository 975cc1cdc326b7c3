//! A journal that turns: two halves, of which the later one counts.

ghost use Rattle.std.specs.Prelude.{◌≡◌, ◌⊎◌, ◌≤◌, ◌<◌, ◌+◌, ◌-◌, ◌*◌, ◌++◌, ◌↔◌, [], ℕ, List, true, false, length};
ghost use Rattle.std.specs.Prelude.{slice_index, OnOk, IfOk, IfSome, IfNone, IsErrOf};
ghost use Rattle.petal_disk.specs.Disk.{Follows, LeavesOnly, LeftByWrite, Only, Torn, Within};
ghost use Rattle.device_faults.specs.Faults.{HasCause};
ghost use Rattle.block_journal.specs.Gate.{IsShut};
ghost use Rattle.block_journal.specs.Halves.{Stored, IsListOf, OldOrNew, LeftByChange, next_generation, other_half};
ghost use Rattle.block_journal.specs.Heads.{NoHeadCounts, IsShutAt, gate_bytes};
ghost use Rattle.block_journal.specs.Records.{contents};
ghost use Rattle.block_journal.specs.declared.error.JournalError.TheVariants as error;

use crate::JournalError;
use crate::bodies::Bodies;
use crate::gate::{OPEN, close_gate};
use crate::group::{write_group, write_list};
use crate::half::{Body, GROUP_BODIES, HALF_BODIES, HALVES_BYTES, Half, RECORD_BYTES, TURN_BYTES};
use crate::head::{find_later, head_body, next_generation};
use crate::reading::read_bodies;
use petal_disk::{Disk, Failed, write_kept, write_zeros_kept};
use std::alloc::Global;
use std::marker::Model;

// Clears n bytes, and syncs.
fn clear<D: Disk>(disk: &mut D, at: u64, n: u64) -> Result<(), Failed>
    requires { at + n ≤ D.size disk.old }
    ensures zeros { OnOk result (D.observable → (k : ℕ) → k < n → slice_index (D.seen disk.new) (at + k) ≡ 0) }
    ensures torn { D.observable → Torn at n (D.seen disk.old) (D.seen disk.new) }
    ensures size { D.size disk.new ≡ D.size disk.old }
    ensures crash { Follows (Torn at n) (D.may_leave disk.old) (D.may_leave disk.new) }
    ensures any_moment { LeavesOnly D.moment D.left_since disk.old disk.new (LeftByWrite at n (D.may_leave disk.old)) }
    ensures cause { HasCause (D.faults disk.old) (D.faults disk.new) result }
    ensures run { D.came_to disk.old disk.new }
{
    write_zeros_kept(disk, at, n)
}

/// Two halves of records of 64 bytes: where they stand on the disk, which one counts, and how many bodies its list has. What the
/// records say is on the disk alone.
#[derive(Drop)]
pub struct Halves {
    base: u64,
    active: Half,
    generation: u64,
    count: u32,
    // whether the gate of the other Head is open
    idle_open: bool,
}

impl Model for Halves {
    ghost use Rattle.block_journal.specs.Halves.{HalvesState, ArePlaced};

    ghost Value = { HalvesState };

    ghost view = { λ halves.
        record { base = halves.base; active = halves.active; generation = halves.generation; count = halves.count; idle_open = halves.idle_open } };

    ghost invariant = { λ halves. ArePlaced
        (record { base = halves.base; active = halves.active; generation = halves.generation; count = halves.count; idle_open = halves.idle_open }) };
}

// Closes the gate there where it is open, and syncs. A gate that is closed is not written: a crash may leave any byte of a write.
fn shut_gate<D: Disk>(disk: &mut D, at: u64, is_open: bool) -> Result<(), Failed>
    requires { at + 1 ≤ D.size disk.old }
    ensures now { OnOk result (D.observable → (is_open ≡ false → IsShutAt at (D.seen disk.old)) → IsShutAt at (D.seen disk.new)) }
    ensures left { OnOk result (D.observable → (is_open ≡ false → (c : List ℕ) → D.may_leave disk.old c → IsShutAt at c)
        → (c : List ℕ) → D.may_leave disk.new c → IsShutAt at c) }
    ensures torn { D.observable → Torn at (gate_bytes is_open) (D.seen disk.old) (D.seen disk.new) }
    ensures size { D.size disk.new ≡ D.size disk.old }
    ensures crash { Follows (Torn at (gate_bytes is_open)) (D.may_leave disk.old) (D.may_leave disk.new) }
    ensures any_moment { LeavesOnly D.moment D.left_since disk.old disk.new
        (LeftByWrite at (gate_bytes is_open) (D.may_leave disk.old)) }
    ensures cause { HasCause (D.faults disk.old) (D.faults disk.new) result }
    ensures run { D.came_to disk.old disk.new }
{
    if !is_open {
        return Ok(());
    }
    write_kept(disk, at, &[0])
}

impl Halves {
    /// Makes halves of no bodies from `base` on: clears both, syncs, writes the Head of the first behind its gate, syncs, opens the
    /// gate, syncs. It takes no memory.
    ///
    /// # Errors
    /// The disk failed.
    pub fn format<D: Disk>(disk: &mut D, base: u64) -> Result<Halves, Failed>
        requires { base + HALVES_BYTES ≤ D.size disk.old }
        ensures state { IfOk result (λ halves. halves
            ≡ record { base = base; active = Half.First; generation = 1; count = 0; idle_open = false }) }
        ensures stored { IfOk result (λ halves. D.observable → Stored halves (D.seen disk.new) (D.may_leave disk.new) []) }
        ensures durable { OnOk result (D.observable → Only (D.seen disk.new) (D.may_leave disk.new)) }
        ensures any_moment { LeavesOnly D.moment D.left_since disk.old disk.new (LeftByWrite base HALVES_BYTES (D.may_leave disk.old)) }
        ensures outside { D.observable → Torn base HALVES_BYTES (D.seen disk.old) (D.seen disk.new) }
        ensures size { D.size disk.new ≡ D.size disk.old }
        ensures cause { HasCause (D.faults disk.old) (D.faults disk.new) result }
        ensures run { D.came_to disk.old disk.new }
    {
        let _size = disk.len();
        clear(disk, base, HALVES_BYTES)?;
        write_kept(disk, base + 1, &head_body(1))?;
        write_kept(disk, base, &[OPEN])?;
        Ok(Halves {
            base,
            active: Half::First,
            generation: 1,
            count: 0,
            idle_open: false,
        })
    }

    /// Makes halves of no bodies on a device whose gate it closes first: so what the records that it clears stood for is no longer
    /// read. A crash at any moment leaves what it might have left before, or a closed gate. It takes no memory.
    ///
    /// # Errors
    /// The device failed.
    pub fn format_after_gate<D: Disk>(disk: &mut D, base: u64) -> Result<Halves, Failed>
        requires following { 1 ≤ base }
        requires region { base + HALVES_BYTES ≤ D.size disk.old }
        ensures state { IfOk result (λ halves. halves
            ≡ record { base = base; active = Half.First; generation = 1; count = 0; idle_open = false }) }
        ensures stored { IfOk result (λ halves. D.observable → Stored halves (D.seen disk.new) (D.may_leave disk.new) []) }
        ensures durable { OnOk result (D.observable → Only (D.seen disk.new) (D.may_leave disk.new)) }
        ensures shut { OnOk result (D.observable → IsShut (D.seen disk.new)) }
        ensures any_moment { D.observable → LeavesOnly D.moment D.left_since disk.old disk.new (λ c. D.may_leave disk.old c ⊎ IsShut c) }
        ensures either { D.observable → (D.seen disk.new ≡ D.seen disk.old) ⊎ IsShut (D.seen disk.new) }
        ensures size { D.size disk.new ≡ D.size disk.old }
        ensures cause { HasCause (D.faults disk.old) (D.faults disk.new) result }
        ensures run { D.came_to disk.old disk.new }
    {
        let _size = disk.len();
        close_gate(disk)?;
        Halves::format(disk, base)
    }

    /// Opens the halves from `base` on: syncs, and gives the bodies of the later half among those whose Head counts, in order. None
    /// where no Head counts.
    ///
    /// # Errors
    /// `Failed` where the disk failed; `NoMemory`.
    pub fn open<D: Disk>(
        alloc: Global,
        disk: &mut D,
        base: u64,
    ) -> Result<Option<(Halves, Vec<Vec<u8>>)>, JournalError>
        requires { base + HALVES_BYTES ≤ D.size disk.old }
        ensures none { IfOk result (λ found. IfNone found (D.observable → NoHeadCounts base (D.seen disk.old))) }
        ensures place { IfOk result (λ found. IfSome found (λ out. (out.0.base ≡ base) × (out.0.count ≡ length out.1.items))) }
        ensures stored { IfOk result (λ found. IfSome found (λ out. D.observable
            → Stored out.0 (D.seen disk.new) (D.may_leave disk.new) (contents out.1.items))) }
        ensures only { IfOk result (λ found. IfSome found (λ out. D.observable → (bodies : List (List ℕ))
            → IsListOf base (D.seen disk.old) bodies → contents out.1.items ≡ bodies)) }
        ensures durable { OnOk result (D.observable → Only (D.seen disk.new) (D.may_leave disk.new)) }
        ensures seen { D.seen disk.new ≡ D.seen disk.old }
        ensures crash { Within (D.may_leave disk.old) (D.may_leave disk.new) }
        ensures any_moment { LeavesOnly D.moment D.left_since disk.old disk.new (D.may_leave disk.old) }
        ensures full { ¬ IsErrOf result error.Full }
        ensures size { D.size disk.new ≡ D.size disk.old }
        ensures later { D.faults disk.old ≤ D.faults disk.new }
        ensures failed { IsErrOf result error.Failed → D.faults disk.old < D.faults disk.new }
        ensures run { D.came_to disk.old disk.new }
    {
        let _size = disk.len();
        let Some(later) = find_later(disk, base)? else {
            return Ok(None);
        };
        let list = later.half.start(base) + RECORD_BYTES as u64;
        let bodies = read_bodies::<D, RECORD_BYTES>(alloc, disk, list, HALF_BODIES)?;
        let halves = Halves {
            base,
            active: later.half,
            generation: later.generation,
            count: bodies.len() as u32,
            idle_open: later.idle_open,
        };
        Ok(Some((halves, bodies)))
    }

    /// Writes a new list into the other half: closes the gate of its Head where it is open, and syncs; writes a Head of the next
    /// generation and the bodies as one group, in pieces of the buffer, and syncs; opens the gate, and syncs. A crash at any moment
    /// leaves the old list or the new one. It takes no memory.
    ///
    /// # Errors
    /// The disk failed, and the halves are to be opened again.
    pub fn turn<D: Disk, B: Bodies>(
        &mut self,
        disk: &mut D,
        bodies: &B,
        buffer: &mut [u8],
    ) -> Result<(), Failed>
        requires few { length (B.bodies bodies.now) ≤ HALF_BODIES }
        requires buffer { TURN_BYTES ≤ length buffer.old }
        requires region { self.old.base + HALVES_BYTES ≤ D.size disk.old }
        ensures state { OnOk result (self.new ≡ record {
          base = self.old.base;
          active = other_half self.old.active;
          generation = next_generation self.old.generation;
          count = length (B.bodies bodies.now);
          idle_open = true;
        }) }
        ensures turned { OnOk result (D.observable → (olds : List (List ℕ))
            → Stored self.old (D.seen disk.old) (D.may_leave disk.old) olds
            → Stored self.new (D.seen disk.new) (D.may_leave disk.new) (B.bodies bodies.now)) }
        ensures either { D.observable → (olds : List (List ℕ))
            → Stored self.old (D.seen disk.old) (D.may_leave disk.old) olds
            → OldOrNew self.old.base olds (B.bodies bodies.now) (D.seen disk.new) }
        ensures any_moment { D.observable → (olds : List (List ℕ))
            → Stored self.old (D.seen disk.old) (D.may_leave disk.old) olds
            → LeavesOnly D.moment D.left_since disk.old disk.new
            (LeftByChange self.old.base (D.may_leave disk.old) olds (B.bodies bodies.now)) }
        ensures durable { OnOk result (D.observable → Only (D.seen disk.new) (D.may_leave disk.new)) }
        ensures outside { D.observable → Torn self.old.base HALVES_BYTES (D.seen disk.old) (D.seen disk.new) }
        ensures place { self.new.base ≡ self.old.base }
        ensures size { D.size disk.new ≡ D.size disk.old }
        ensures cause { HasCause (D.faults disk.old) (D.faults disk.new) result }
        ensures run { D.came_to disk.old disk.new }
    {
        let half = self.active.other();
        let idle = half.start(self.base);
        let generation = next_generation(self.generation);
        shut_gate(disk, idle, self.idle_open)?;
        write_list(disk, idle, &head_body(generation), bodies, buffer)?;
        write_kept(disk, idle, &[OPEN])?;
        self.active = half;
        self.generation = generation;
        self.count = bodies.count();
        self.idle_open = true;
        Ok(())
    }

    /// How many bodies the list has.
    pub fn count(&self) -> u32
        ensures { result ≡ self.now.count }
    {
        self.count
    }

    /// How many bodies more there is room for.
    pub fn free(&self) -> u32
        ensures { result ≡ HALF_BODIES - self.now.count }
    {
        HALF_BODIES - self.count
    }

    /// Appends bodies as one group: writes all of it behind a gate that stays closed, syncs, opens the gate, syncs. A crash at any
    /// moment leaves the list as it was, or with all of the bodies. It takes no memory.
    ///
    /// # Errors
    /// `Full` exactly where fewer places are free than bodies, and nothing changed; `Failed` where the disk failed, and then the
    /// halves are to be opened again.
    pub fn append_all<D: Disk>(&mut self, disk: &mut D, bodies: &[Body]) -> Result<(), JournalError>
        requires some { 0 < length bodies.now }
        requires few { length bodies.now ≤ GROUP_BODIES }
        requires region { self.old.base + HALVES_BYTES ≤ D.size disk.old }
        ensures counted { OnOk result (self.new ≡ record self.old { count = self.old.count + length bodies.now }) }
        ensures appended { OnOk result (D.observable → (olds : List (List ℕ))
            → Stored self.old (D.seen disk.old) (D.may_leave disk.old) olds
            → Stored self.new (D.seen disk.new) (D.may_leave disk.new) (olds ++ bodies.now)) }
        ensures either { D.observable → (olds : List (List ℕ))
            → Stored self.old (D.seen disk.old) (D.may_leave disk.old) olds
            → OldOrNew self.old.base olds (olds ++ bodies.now) (D.seen disk.new) }
        ensures any_moment { D.observable → (olds : List (List ℕ))
            → Stored self.old (D.seen disk.old) (D.may_leave disk.old) olds
            → LeavesOnly D.moment D.left_since disk.old disk.new
            (LeftByChange self.old.base (D.may_leave disk.old) olds (olds ++ bodies.now)) }
        ensures durable { OnOk result (D.observable → Only (D.seen disk.new) (D.may_leave disk.new)) }
        ensures outside { D.observable → Torn self.old.base HALVES_BYTES (D.seen disk.old) (D.seen disk.new) }
        ensures full { IsErrOf result error.Full ↔ (HALF_BODIES < self.old.count + length bodies.now) }
        ensures unchanged { IsErrOf result error.Full → (self.new ≡ self.old) × (disk.new ≡ disk.old) }
        ensures memory { ¬ IsErrOf result error.NoMemory }
        ensures place { self.new.base ≡ self.old.base }
        ensures size { D.size disk.new ≡ D.size disk.old }
        ensures later { D.faults disk.old ≤ D.faults disk.new }
        ensures failed { IsErrOf result error.Failed → D.faults disk.old < D.faults disk.new }
        ensures run { D.came_to disk.old disk.new }
    {
        let free = HALF_BODIES - self.count;
        if (free as usize) < bodies.len() {
            return Err(JournalError::Full);
        }
        let list = self.active.start(self.base) + RECORD_BYTES as u64;
        let gate = list + RECORD_BYTES as u64 * self.count as u64;
        write_group(disk, gate, free, bodies)?;
        write_kept(disk, gate, &[OPEN])?;
        self.count += bodies.len() as u32;
        Ok(())
    }
}
