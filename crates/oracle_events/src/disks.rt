//! The disks that chosen commands make, their maps and the links of these.

use crate::fences::{Fences, Scope};
use crate::members::Members;
use crate::moves::{Moves, Noted};
use petal_base::{
    BlockNo, Cell, ClientId, Epoch, Inc, MapId, Name, NoMemory, OPERATOR, Seq, ServerId, Tuple,
};
use petal_command::Command;
use std::alloc::Global;

/// No command lets more fences take effect than the log has entries.
const MOST_FENCES: usize = 16384;

/// Which of a link's two servers have its blocks.
#[derive(Clone, Copy, Debug, PartialEq, Eq)]
enum Serving {
    Both,
    Only(ServerId),
    /// None.
    Lost,
}

/// A link of a disk's map: its place there, and how many links the map has; its two servers; which of them have its blocks; and how
/// many records there were when it last began to be of both.
#[derive(Clone, Copy)]
pub struct Link {
    map: usize,
    place: u64,
    count: u64,
    pub primary: ServerId,
    secondary: ServerId,
    serving: Serving,
    pub since: usize,
}

/// Both servers of a link have its blocks again, of which the holder alone had them.
#[derive(Clone, Copy)]
struct Catch {
    map: MapId,
    place: u8,
    holder: (ServerId, Inc),
    other: (ServerId, Inc),
}

impl Link {
    /// Whether it is the cell's link.
    pub fn has(&self, cell: Cell) -> bool {
        cell.map as usize == self.map && self.count != 0 && cell.block % self.count == self.place
    }

    // Whether the server's copies count: in Both the secondary's, which are put last.
    fn counts(&self, server: ServerId) -> bool {
        match self.serving {
            Serving::Both => self.secondary == server,
            Serving::Only(holder) => holder == server,
            Serving::Lost => false,
        }
    }

    fn other_of(&self, server: ServerId) -> ServerId {
        if self.primary == server {
            self.secondary
        } else {
            self.primary
        }
    }

    // A server has left. Gives whether that takes the secondary out of a link that had both.
    fn leave(&mut self, server: ServerId) -> bool {
        let is_here = self.primary == server || self.secondary == server;
        if self.serving != Serving::Both || !is_here {
            return false;
        }
        self.serving = Serving::Only(self.other_of(server));
        self.secondary == server
    }

    // A server came back with nothing.
    fn blank(&mut self, server: ServerId) {
        if self.serving == Serving::Only(server) {
            self.serving = Serving::Lost;
        }
    }

    fn catch(&mut self, own: &Catch, records: usize) {
        let (holder, _) = own.holder;
        let (other, _) = own.other;
        let is_here = self.map == own.map as usize && self.place == u64::from(own.place);
        let is_alone = self.serving == Serving::Only(holder) && self.other_of(holder) == other;
        if is_here && is_alone {
            self.serving = Serving::Both;
            self.since = records;
        }
    }
}

/// A disk, and how many of its snapshots were told.
#[derive(Drop)]
struct Disk {
    name: Name,
    epoch: Epoch,
}

/// The disks in the order of making; the disk of each map; the maps' links; who is in; the fences that wait; the moves that are under
/// way; and of each client the number of its last command that was chosen.
#[derive(Drop)]
pub struct Disks {
    disks: Vec<Disk>,
    maps: Vec<usize>,
    links: Vec<Link>,
    members: Members,
    fences: Fences,
    moves: Moves,
    latest: Vec<Seq>,
}

/// What some commands have done: the disks that they made; the links whose secondary they took out, so that the copies of the
/// primary count; and the snapshots that were taken, each with its disk.
#[derive(Drop)]
pub struct Done {
    pub made: Vec<Name>,
    pub passed: Vec<Link>,
    pub frozen: Vec<Frozen>,
}

/// A snapshot that was taken.
#[derive(Drop)]
pub struct Frozen {
    pub disk: Name,
    pub name: Name,
}

impl Done {
    /// Nothing is done.
    pub fn new(alloc: Global) -> Done {
        Done {
            made: Vec::new(alloc),
            passed: Vec::new(alloc),
            frozen: Vec::new(alloc),
        }
    }
}

impl Disks {
    /// No disk is made, and all of so many servers are in.
    pub fn new(alloc: Global, servers: u8) -> Result<Disks, NoMemory> {
        let mut latest = Vec::new(alloc);
        for _ in 0..=OPERATOR {
            latest.push(0)?;
        }
        Ok(Disks {
            disks: Vec::new(alloc),
            maps: Vec::new(alloc),
            links: Vec::new(alloc),
            members: Members::new(alloc, servers)?,
            fences: Fences::new(alloc),
            moves: Moves::new(alloc),
            latest,
        })
    }

    /// The disk of a map, where this is its epoch.
    pub fn name_at(&self, map: MapId, epoch: Epoch) -> Option<&Name> {
        let disk = self.maps.get(map as usize)?;
        match self.disks.get(*disk) {
            Some(disk) if disk.epoch == epoch => Some(&disk.name),
            _ => None,
        }
    }

    /// A snapshot of the disk is told: its epoch rises.
    pub fn rise(&mut self, name: &Name) {
        for disk in self.disks.iter_mut() {
            if disk.name == *name {
                disk.epoch = disk.epoch.saturating_add(1);
            }
        }
    }

    // The place of the disk of this name.
    fn place(&self, name: &Name) -> Option<usize> {
        self.disks.iter().position(|disk| disk.name == *name)
    }

    // The map that the disk got last.
    fn map_of(&self, place: usize) -> usize {
        let mut last = 0;
        for (map, disk) in self.maps.iter().enumerate() {
            if *disk == place {
                last = map;
            }
        }
        last
    }

    // Whether the client's command is no earlier one than its last. From now on it is the last one.
    fn is_new(&mut self, client: ClientId, seq: Seq) -> bool {
        match self.latest.get_mut(client as usize) {
            Some(latest) if *latest < seq => {
                *latest = seq;
                true
            }
            _ => false,
        }
    }

    /// How many records there were when the cell's link last began to be of both.
    pub fn since(&self, cell: Cell) -> usize {
        match self.links.iter().find(|link| link.has(cell)) {
            Some(link) => link.since,
            None => 0,
        }
    }

    /// The cell by which the disk's block is written.
    pub fn home(&self, name: &Name, block: BlockNo) -> Option<Cell> {
        let disk = self.place(name)?;
        let map = match self.moves.old_map(disk, block) {
            Some(map) => map,
            None => self.map_of(disk),
        };
        match MapId::try_from(map) {
            Ok(map) => Some(Cell { map, block }),
            Err(_) => None,
        }
    }

    /// Whether the server's copy of the cell counts.
    pub fn counts(&self, server: ServerId, cell: Cell) -> bool {
        self.links
            .iter()
            .any(|link| link.has(cell) && link.counts(server))
    }

    /// How many records there were when the server last joined with nothing.
    pub fn emptied(&self, server: ServerId) -> usize {
        self.members.emptied(server)
    }

    // Who serves a new link.
    fn first_serving(&self, primary: ServerId, secondary: ServerId) -> Serving {
        match (self.members.is_in(primary), self.members.is_in(secondary)) {
            (true, true) => Serving::Both,
            (false, true) => Serving::Only(secondary),
            (_, false) => Serving::Only(primary),
        }
    }

    // The disk gets a map of these servers.
    fn add_map(&mut self, disk: usize, tuple: &Tuple) -> Result<(), NoMemory> {
        let map = self.maps.len();
        self.maps.push(disk)?;
        let ids = tuple.ids();
        for (place, primary) in ids.iter().enumerate() {
            let next = if place + 1 == ids.len() { 0 } else { place + 1 };
            if let Some(secondary) = ids.get(next) {
                let serving = self.first_serving(*primary, *secondary);
                self.links.push(Link {
                    map,
                    place: place as u64,
                    count: ids.len() as u64,
                    primary: *primary,
                    secondary: *secondary,
                    serving,
                    since: 0,
                })?;
            }
        }
        Ok(())
    }

    fn make(&mut self, name: &Name, tuple: &Tuple, done: &mut Done) -> Result<(), NoMemory> {
        if self.place(name).is_some() {
            return Ok(());
        }
        let place = self.disks.len();
        self.add_map(place, tuple)?;
        self.disks.push(Disk {
            name: name.copy(),
            epoch: 0,
        })?;
        done.made.push(name.copy())?;
        Ok(())
    }

    // A known disk begins to move that is not on the move.
    fn start_move(&mut self, name: &Name, tuple: &Tuple) -> Result<(), NoMemory> {
        match self.place(name) {
            Some(disk) if !self.moves.has(disk) => {
                let map = self.map_of(disk);
                self.moves.begin(disk, map)?;
                self.add_map(disk, tuple)?;
                self.fences.ask_region(disk, 0, &self.members)
            }
            _ => Ok(()),
        }
    }

    // A link of an old map has moved all that it had of a region.
    fn moved(&mut self, map: usize, region: u8, link: u8) -> Result<(), NoMemory> {
        let links = self.links.iter().filter(|own| own.map == map).count();
        match self.moves.note(map, region, link, links)? {
            Noted::Nothing => Ok(()),
            Noted::Next(disk, next) => self.fences.ask_region(disk, next, &self.members),
            Noted::Over => {
                self.links.retain(|own| own.map != map);
                Ok(())
            }
        }
    }

    fn leave(&mut self, server: ServerId, inc: Inc, done: &mut Done) -> Result<(), NoMemory> {
        if !self.members.leave(server, inc) {
            return Ok(());
        }
        for link in self.links.iter_mut() {
            if link.leave(server) {
                done.passed.push(*link)?;
            }
        }
        self.fences.renew(&self.members)
    }

    // The links that a server alone held which came back with nothing are lost.
    fn join(&mut self, server: ServerId, inc: Inc, blank: bool, records: usize) {
        if !self.members.join(server, inc) || !blank {
            return;
        }
        self.members.empty(server, records);
        for link in self.links.iter_mut() {
            link.blank(server);
        }
    }

    fn catch(&mut self, own: &Catch, records: usize) {
        let (holder, holder_inc) = own.holder;
        let (other, other_inc) = own.other;
        if !self.members.is_in_as(holder, holder_inc) || !self.members.is_in_as(other, other_inc) {
            return;
        }
        for link in self.links.iter_mut() {
            link.catch(own, records);
        }
    }

    // A snapshot of a known disk waits for its fence.
    fn snap(&mut self, disk: &Name, name: &Name) -> Result<(), NoMemory> {
        match self.place(disk) {
            Some(disk) => self.fences.ask(disk, name, &self.members),
            None => Ok(()),
        }
    }

    // What a fence does.
    fn freeze(&mut self, scope: Scope, done: &mut Done) -> Result<(), NoMemory> {
        match scope {
            Scope::Whole(disk, name) => {
                if let Some(disk) = self.disks.get(disk) {
                    let disk = disk.name.copy();
                    done.frozen.push(Frozen { disk, name })?;
                }
            }
            Scope::Region(disk, region) => self.moves.fence(disk, region),
        }
        Ok(())
    }

    // Each fence that awaits nobody takes effect, one after the other.
    fn let_through(&mut self, done: &mut Done) -> Result<(), NoMemory> {
        for _ in 0..MOST_FENCES {
            let Some(scope) = self.fences.take(&self.members)? else {
                return Ok(());
            };
            self.freeze(scope, done)?;
        }
        Ok(())
    }

    // What a client's command does, which counts where it is no earlier one than the client's last.
    fn serve(&mut self, command: &Command, done: &mut Done) -> Result<(), NoMemory> {
        let (client, seq) = match command {
            Command::MakeDisk { client, seq, .. }
            | Command::Snap { client, seq, .. }
            | Command::StartMove { client, seq, .. } => (client.get(), *seq),
            _ => return Ok(()),
        };
        if !self.is_new(client, seq) {
            return Ok(());
        }
        match command {
            Command::MakeDisk { name, tuple, .. } => self.make(name, tuple, done),
            Command::Snap { disk, name, .. } => self.snap(disk, name),
            Command::StartMove { disk, tuple, .. } => self.start_move(disk, tuple),
            _ => Ok(()),
        }
    }

    // What the command does by itself.
    fn act(&mut self, command: &Command, records: usize, done: &mut Done) -> Result<(), NoMemory> {
        match command {
            Command::Leave { server, inc } => self.leave(server.get(), *inc, done),
            Command::Join { server, inc, blank } => {
                self.join(server.get(), *inc, *blank, records);
                Ok(())
            }
            Command::Caught {
                map,
                link,
                holder,
                holder_inc,
                other,
                other_inc,
            } => {
                let own = Catch {
                    map: *map,
                    place: link.get(),
                    holder: (holder.get(), *holder_inc),
                    other: (other.get(), *other_inc),
                };
                self.catch(&own, records);
                Ok(())
            }
            Command::Drained { server, inc, fence } => {
                self.fences
                    .report(server.get(), *inc, *fence, &self.members);
                Ok(())
            }
            Command::Moved { map, region, link } => {
                self.moved(*map as usize, region.get(), link.get())
            }
            _ => self.serve(command, done),
        }
    }

    /// The command is the next one that is chosen, in the record of this number.
    pub fn apply(
        &mut self,
        command: &Command,
        records: usize,
        done: &mut Done,
    ) -> Result<(), NoMemory> {
        self.act(command, records, done)?;
        self.let_through(done)
    }
}
