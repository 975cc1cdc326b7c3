//! The snapshots and the moves that chosen commands ask for, and the fences that wait for the servers' reports before they take effect.

use crate::members::Members;
use petal_base::{Inc, Name, NoMemory, ServerId};
use std::alloc::Global;
use std::collections::VecDeque;

/// A snapshot of the disk of this place.
#[derive(Drop)]
struct Snapshot {
    disk: usize,
    name: Name,
}

/// What a fence does to the disk of a place.
#[derive(Drop)]
pub enum Scope {
    /// It takes a snapshot of this name.
    Whole(usize, Name),
    /// It brings the region between the disk's two maps.
    Region(usize, u8),
}

/// A fence of the queue, and the servers whose report it awaits where it is the first one.
#[derive(Drop)]
struct Fence {
    number: u32,
    scope: Scope,
    awaited: Vec<ServerId>,
}

/// The fences that wait, the active one first; how many there were so far; and all snapshots that were asked for.
#[derive(Drop)]
pub struct Fences {
    alloc: Global,
    queue: VecDeque<Fence>,
    queued: u32,
    asked: Vec<Snapshot>,
}

impl Fences {
    /// None waits.
    pub fn new(alloc: Global) -> Fences {
        Fences {
            alloc,
            queue: VecDeque::new(alloc),
            queued: 0,
            asked: Vec::new(alloc),
        }
    }

    fn is_asked(&self, disk: usize, name: &Name) -> bool {
        self.asked
            .iter()
            .any(|snapshot| snapshot.disk == disk && snapshot.name == *name)
    }

    // One fence more waits.
    fn add(&mut self, scope: Scope, members: &Members) -> Result<(), NoMemory> {
        self.queued = self.queued.saturating_add(1);
        let awaited = if self.queue.is_empty() {
            members.all_in(self.alloc)?
        } else {
            Vec::new(self.alloc)
        };
        self.queue.push_back(Fence {
            number: self.queued,
            scope,
            awaited,
        })?;
        Ok(())
    }

    /// A snapshot of this disk is asked for. It waits, where its name is new.
    pub fn ask(&mut self, disk: usize, name: &Name, members: &Members) -> Result<(), NoMemory> {
        if self.is_asked(disk, name) {
            return Ok(());
        }
        self.asked.push(Snapshot {
            disk,
            name: name.copy(),
        })?;
        self.add(Scope::Whole(disk, name.copy()), members)
    }

    /// The turn of the disk's region comes to move.
    pub fn ask_region(
        &mut self,
        disk: usize,
        region: u8,
        members: &Members,
    ) -> Result<(), NoMemory> {
        self.add(Scope::Region(disk, region), members)
    }

    /// The active fence awaits all servers that are in.
    pub fn renew(&mut self, members: &Members) -> Result<(), NoMemory> {
        if let Some(fence) = self.queue.front_mut() {
            fence.awaited = members.all_in(self.alloc)?;
        }
        Ok(())
    }

    /// The incarnation of the server reports to the fence of this number.
    pub fn report(&mut self, server: ServerId, inc: Inc, number: u32, members: &Members) {
        if !members.is_in_as(server, inc) {
            return;
        }
        if let Some(fence) = self.queue.front_mut() {
            if fence.number == number {
                fence.awaited.retain(|awaited| *awaited != server);
            }
        }
    }

    fn is_ready(&self) -> bool {
        match self.queue.front() {
            Some(fence) => fence.awaited.is_empty(),
            None => false,
        }
    }

    /// The active fence takes effect, where it awaits nobody, and the next one awaits all servers that are in. Gives what it does.
    pub fn take(&mut self, members: &Members) -> Result<Option<Scope>, NoMemory> {
        if !self.is_ready() {
            return Ok(None);
        }
        let Some(fence) = self.queue.pop_front() else {
            return Ok(None);
        };
        self.renew(members)?;
        Ok(Some(fence.scope))
    }
}
