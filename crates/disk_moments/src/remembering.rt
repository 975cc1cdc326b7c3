//! A disk in memory that remembers what it was.

ghost use Rattle.std.specs.Prelude.{◌≡◌, ◌∷◌, replicate, IfOk};
ghost use Rattle.petal_disk.specs.Disk.{Only};

use petal_base::{Change, GhostList, NoMemory};
use petal_disk::{Disk, Failed, MemDisk};
use std::alloc::Global;

// The last disk comes first.
struct LastFirst;

impl Change<MemDisk> for LastFirst {
    ghost changed = { λ disks disk. disk ∷ disks };
}

/// A disk in memory that remembers, for contracts alone, what it was before each call. Each call is a moment.
#[derive(Drop)]
pub struct Remembering {
    disk: MemDisk,
    past: GhostList<MemDisk>,
}

impl Remembering {
    /// A disk of zeros with no past.
    pub fn new(alloc: Global, len: u64) -> Result<Self, NoMemory>
        ensures size { IfOk result (λ disk. ⟦<Remembering as Disk>⟧.size disk ≡ len) }
        ensures seen { IfOk result (λ disk. ⟦<Remembering as Disk>⟧.seen disk ≡ replicate len 0) }
        ensures crash { IfOk result (λ disk. Only (replicate len 0) (⟦<Remembering as Disk>⟧.may_leave disk)) }
        ensures moment { IfOk result (λ disk. ⟦<Remembering as Disk>⟧.moment disk ≡ 0) }
    {
        Ok(Remembering {
            disk: MemDisk::new(alloc, len)?,
            past: GhostList::new(),
        })
    }

    // One moment more.
    fn note(&mut self)
        ensures disk { self.new.disk ≡ self.old.disk }
        ensures past { self.new.past.items ≡ self.old.disk ∷ self.old.past.items }
    {
        self.past = self.past.changed::<LastFirst>(&self.disk);
    }
}

impl Disk for Remembering {
    ghost use Rattle.std.specs.Prelude.{length};
    ghost use Rattle.std.proofs.Common.{inl, inr, refl};
    ghost use Rattle.petal_disk.specs.Padded.{length-padded, length-left};
    ghost use Rattle.disk_moments.specs.Moments.{LeftSince, Remembers, only_here, remembers_on};

    ghost size = { λ r. ⟦<MemDisk as Disk>⟧.size r.disk };

    ghost observable = { Unit {0} };

    ghost seen = { λ r. ⟦<MemDisk as Disk>⟧.seen r.disk };

    ghost may_leave = { λ r c. ⟦<MemDisk as Disk>⟧.may_leave r.disk c };

    ghost moment = { λ r. length r.past.items };

    ghost left_since = { λ r t c. LeftSince ⟦<MemDisk as Disk>⟧.may_leave r.past.items r.disk t c };

    ghost faults = { λ r. 0 };

    ghost came_to = { λ first last. Remembers first.past.items first.disk last.past.items last.disk };

    ghost whole = { λ r told. length-padded r.disk.now.items r.disk.len r.disk.within };

    ghost left_whole = { λ r c left. length-left r.disk.now.items r.disk.low r.disk.before.items r.disk.len c r.disk.within left };

    ghost counts_now = { λ r t c le now. inl now };

    ghost only_now = { λ r c left. only_here ⟦<MemDisk as Disk>⟧.may_leave r.past.items r.disk c left };

    ghost stays = { λ r. inl (refl, refl) };

    ghost goes_on = { λ first mid last a b. remembers_on first.past.items mid.past.items last.past.items first.disk mid.disk last.disk a b };

    fn len(&self) -> u64 {
        self.disk.len()
    }

    fn read(&mut self, at: u64, into: &mut [u8]) -> Result<(), Failed> {
        self.note();
        self.disk.read(at, into)
    }

    fn write_at(&mut self, at: u64, bytes: &[u8]) -> Result<(), Failed> {
        self.note();
        self.disk.write_at(at, bytes)
    }

    fn write_zeros(&mut self, at: u64, n: u64) -> Result<(), Failed> {
        self.note();
        self.disk.write_zeros(at, n)
    }

    fn sync(&mut self) -> Result<(), Failed> {
        self.note();
        self.disk.sync()
    }

    fn crash(&mut self) {
        self.note();
        self.disk.crash();
    }
}
