//! A disk in memory: what is there, and what was there at the last sync. No call fails.

ghost use Rattle.std.specs.Prelude.{◌≡◌, ◌≤◌, ◌+◌, ◌++◌, length, replicate, vec_capacity, IfOk};
ghost use Rattle.petal_disk.specs.Disk.{written, part, Only};
ghost use Rattle.petal_disk.specs.Mixes.{synced, LeftOf};
ghost use Rattle.petal_disk.specs.Padded.{padded, length-padded, length-left};

use crate::Disk;
use device_faults::Failed;
use petal_base::NoMemory;
use std::alloc::Global;

/// A disk in memory of a fixed length, which never fails. Room for twice its length is set apart at the start, so that no write
/// needs more; a page of it is touched only once bytes up to there were written. A crash leaves what was there at the last sync.
#[derive(Drop)]
pub struct MemDisk {
    // the bytes up to a place; after it all are zeros, and `write_zeros` from there on brings none in
    now: Vec<u8>,
    // What was written since the last sync lies in a range that begins at `low`; `before` is what was there at the sync. Each sync
    // empties it, so the same few pages serve again and again.
    before: Vec<u8>,
    low: usize,
    len: usize,
    ghost within: { length now.items ≤ len },
    ghost range_within: { low + length before.items ≤ len },
    ghost room_now: { len ≤ vec_capacity now },
    ghost room_before: { len ≤ vec_capacity before },
}

// Adds n bytes of a file from `at` on; beyond its end they are zeros.
fn add_part(to: &mut Vec<u8>, file: &[u8], at: usize, n: usize)
    requires { length to.old.items + n ≤ vec_capacity to.old }
    ensures items { to.new.items ≡ to.old.items ++ padded (part file.now at n) n }
    ensures room { vec_capacity to.old ≤ vec_capacity to.new }
{
    let end = to.len() + n;
    if at < file.len() {
        let there = n.min(file.len() - at);
        let _ = to.extend_from_slice(&file[at..at + there]);
    }
    let _ = to.resize(end, 0);
}

// Brings zeros into memory, up to so many bytes.
fn grow(file: &mut Vec<u8>, end: usize)
    requires { end ≤ vec_capacity file.old }
    ensures items { file.new.items ≡ padded file.old.items end }
    ensures room { vec_capacity file.old ≤ vec_capacity file.new }
{
    if file.len() < end {
        let _ = file.resize(end, 0);
    }
}

// Writes bytes over a file and beyond its end, with zeros between the two.
fn put(file: &mut Vec<u8>, at: usize, bytes: &[u8])
    requires { at + length bytes.now ≤ vec_capacity file.old }
    ensures items { file.new.items ≡ written (padded file.old.items at) at bytes.now }
    ensures room { vec_capacity file.old ≤ vec_capacity file.new }
{
    grow(file, at);
    let there = bytes.len().min(file.len() - at);
    file[at..at + there].copy_from_slice(&bytes[..there]);
    let _ = file.extend_from_slice(&bytes[there..]);
}

fn put_zeros(file: &mut Vec<u8>, at: usize, n: usize)
    requires { at + n ≤ length file.old.items }
    ensures items { file.new.items ≡ written file.old.items at (replicate n 0) }
    ensures room { vec_capacity file.new ≡ vec_capacity file.old }
{
    file[at..at + n].fill(0);
}

impl MemDisk {
    /// A disk of zeros, which a crash leaves too. It sets all its memory apart here.
    pub fn new(alloc: Global, len: u64) -> Result<Self, NoMemory>
        ensures size { IfOk result (λ disk. ⟦<MemDisk as Disk>⟧.size disk ≡ len) }
        ensures seen { IfOk result (λ disk. ⟦<MemDisk as Disk>⟧.seen disk ≡ replicate len 0) }
        ensures crash { IfOk result (λ disk. Only (replicate len 0) (⟦<MemDisk as Disk>⟧.may_leave disk)) }
    {
        let len = len as usize;
        Ok(MemDisk {
            now: Vec::with_capacity(alloc, len)?,
            before: Vec::with_capacity(alloc, len)?,
            low: 0,
            len,
        })
    }

    // A range in which nothing was written since the last sync begins where it is wanted.
    fn place_range(&mut self, at: usize)
        requires { at ≤ self.old.len }
        ensures len { self.new.len ≡ self.old.len }
        ensures now { self.new.now ≡ self.old.now }
        ensures synced { synced (padded self.old.now.items self.old.len) self.new.low self.new.before.items
            ≡ synced (padded self.old.now.items self.old.len) self.old.low self.old.before.items }
    {
        if self.before.is_empty() {
            self.low = at;
        }
    }

    // Brings what is there up to `end` into the range.
    fn reach_up(&mut self, end: usize)
        requires { end ≤ self.old.len }
        ensures len { self.new.len ≡ self.old.len }
        ensures now { self.new.now ≡ self.old.now }
        ensures synced { synced (padded self.old.now.items self.old.len) self.new.low self.new.before.items
            ≡ synced (padded self.old.now.items self.old.len) self.old.low self.old.before.items }
        ensures low { self.new.low ≡ self.old.low }
        ensures high { end ≤ self.new.low + length self.new.before.items }
    {
        let high = self.low + self.before.len();
        if high < end {
            add_part(&mut self.before, &self.now, high, end - high);
        }
    }

    // Brings what is there from `at` on into the range.
    fn reach_down(&mut self, at: usize)
        ensures len { self.new.len ≡ self.old.len }
        ensures now { self.new.now ≡ self.old.now }
        ensures synced { synced (padded self.old.now.items self.old.len) self.new.low self.new.before.items
            ≡ synced (padded self.old.now.items self.old.len) self.old.low self.old.before.items }
        ensures low { self.new.low ≤ at }
        ensures high { self.new.low + length self.new.before.items ≡ self.old.low + length self.old.before.items }
    {
        if at < self.low {
            let n = self.low - at;
            add_part(&mut self.before, &self.now, at, n);
            self.before.rotate_right(n);
            self.low = at;
        }
    }

    // Before a write from `at` up to `end`: makes these bytes a part of the range.
    fn open_range(&mut self, at: usize, end: usize)
        requires order { at ≤ end }
        requires within { end ≤ self.old.len }
        ensures len { self.new.len ≡ self.old.len }
        ensures now { self.new.now ≡ self.old.now }
        ensures synced { synced (padded self.old.now.items self.old.len) self.new.low self.new.before.items
            ≡ synced (padded self.old.now.items self.old.len) self.old.low self.old.before.items }
        ensures low { self.new.low ≤ at }
        ensures high { end ≤ self.new.low + length self.new.before.items }
    {
        self.place_range(at);
        self.reach_up(end);
        self.reach_down(at);
    }
}

impl Disk for MemDisk {
    ghost size = { λ m. m.len };

    ghost observable = { Unit {0} };

    ghost seen = { λ m. padded m.now.items m.len };

    ghost may_leave = { λ m c. LeftOf (padded m.now.items m.len) m.low m.before.items c };

    ghost moment = { λ m. 0 };

    ghost left_since = { λ m t c. LeftOf (padded m.now.items m.len) m.low m.before.items c };

    ghost faults = { λ m. 0 };

    ghost came_to = { λ first last. Unit {0} };

    ghost whole = { λ m _. length-padded m.now.items m.len m.within };

    ghost left_whole = { λ m c left. length-left m.now.items m.low m.before.items m.len c m.within left };

    ghost counts_now = { λ m t c le now. now };

    ghost only_now = { λ m c left. left };

    ghost stays = { λ m. tt };

    ghost goes_on = { λ first mid last a b. tt };

    fn len(&self) -> u64 {
        self.len as u64
    }

    fn read(&mut self, at: u64, into: &mut [u8]) -> Result<(), Failed> {
        let at = at as usize;
        let there = self.now.len();
        if at + into.len() <= there {
            into.copy_from_slice(&self.now[at..at + into.len()]);
            return Ok(());
        }
        into.fill(0);
        if at < there {
            into[..there - at].copy_from_slice(&self.now[at..]);
        }
        Ok(())
    }

    fn write_at(&mut self, at: u64, bytes: &[u8]) -> Result<(), Failed> {
        let at = at as usize;
        self.open_range(at, at + bytes.len());
        put(&mut self.now, at, bytes);
        Ok(())
    }

    fn write_zeros(&mut self, at: u64, n: u64) -> Result<(), Failed> {
        let (at, n) = (at as usize, n as usize);
        if self.now.len() <= at {
            return Ok(());
        }
        let there = n.min(self.now.len() - at);
        self.open_range(at, at + there);
        put_zeros(&mut self.now, at, there);
        Ok(())
    }

    fn sync(&mut self) -> Result<(), Failed> {
        self.before.clear();
        Ok(())
    }

    fn crash(&mut self) {
        put(&mut self.now, self.low, &self.before);
        self.before.clear();
    }
}
