//! The directory of virtual disks: names, maps, epochs, snapshots, and moves from map to map.
//!
//! To the layer above it promises the list of disks that each change gives. It knows nothing of servers, of links, and of
//! when a fence takes effect.
#![tactic(auto)]

ghost use Rattle.std.specs.Prelude.{◌≡◌, ◌<◌, ◌-◌, ◌^◌, [], IfOk, OnOk, OnErr, option_and_then, option_copied};
ghost use Rattle.std.specs.Option.{ForSome};
ghost use Rattle.global_tables.specs.Disk.{disk_at, named, made, frozen, moving, fenced, noted, completes};

pub use global_tables::{DiskRow, Latest, Move, RegionState, Snapshot, Verdict};
use petal_base::{DiskId, MapId, Name, NoMemory, Sequence};
use std::alloc::Global;
use std::marker::Model;

mod row;
mod rows;

use row::Note;
use rows::{fence_region, freeze, note_link, start_move};

/// The disks in the order of making. Contracts see the rows and the number of disks made so far.
#[derive(Drop)]
pub struct Directory {
    rows: Vec<DiskRow>,
    made: u32,
}

impl Model for Directory {
    ghost use Rattle.global_tables.specs.Disk.{Disks};

    ghost Value = { Disks };

    ghost view = { λ d. record { rows = d.rows.items; made = d.made } };
}

impl Directory {
    /// No disk. It takes no memory.
    pub fn new(alloc: Global) -> Directory
        ensures { result ≡ record { rows = []; made = 0 } }
    {
        Directory {
            rows: Vec::new(alloc),
            made: 0,
        }
    }

    /// How many disks were made so far.
    pub fn made(&self) -> u32
        ensures { result ≡ self.now.made }
    {
        self.made
    }

    /// All disks.
    pub fn rows(&self) -> &[DiskRow]
        ensures { result.now ≡ self.now.rows }
    {
        &self.rows
    }

    /// The disk of a name; None exactly where there is none.
    pub fn find(&self, name: &Name) -> Option<&DiskRow>
        ensures { option_copied result ≡ named self.now.rows name.now }
    {
        self.rows.iter().find(|row| row.name == *name)
    }

    /// The disk of a number; None exactly where there is none.
    pub fn row(&self, disk: DiskId) -> Option<&DiskRow>
        ensures { option_copied result ≡ disk_at self.now.rows disk }
    {
        self.rows.iter().find(|row| row.id == disk)
    }

    /// A new disk under a map, of epoch 0; gives its number.
    pub fn make(&mut self, alloc: Global, name: &Name, map: MapId) -> Result<DiskId, NoMemory>
        requires { self.old.made < 2 ^ 32 - 1 }
        ensures ok { OnOk result (self.new ≡ made self.old name.now map) }
        ensures number { IfOk result (λ id. id ≡ self.old.made) }
        ensures err { OnErr result (self.new ≡ self.old) }
    {
        let id = self.made;
        self.rows.push(DiskRow {
            id,
            name: name.copy(),
            map,
            epoch: 0,
            snaps: Sequence::new(alloc),
            moving: None,
        })?;
        self.made += 1;
        Ok(id)
    }

    /// The disk gets a snapshot of this name at its epoch, after which the next epoch begins.
    pub fn freeze(&mut self, disk: DiskId, name: &Name) -> Result<(), NoMemory>
        requires { ForSome (disk_at self.old.rows disk) (λ row. row.epoch < 2 ^ 32 - 1) }
        ensures ok { OnOk result (self.new ≡ frozen self.old disk name.now) }
        ensures err { OnErr result (self.new ≡ self.old) }
    {
        freeze(&mut self.rows, disk, name)?;
        Ok(())
    }

    /// The disk begins a move to this map: the one that it had is the old map, and all regions are `Old`.
    pub fn start_move(&mut self, alloc: Global, disk: DiskId, map: MapId) -> Result<(), NoMemory>
        ensures ok { OnOk result (self.new ≡ moving self.old disk map) }
        ensures err { OnErr result (self.new ≡ self.old) }
    {
        start_move(alloc, &mut self.rows, disk, map)?;
        Ok(())
    }

    /// The region of the disk's move is `Fenced`, and nothing is noted.
    pub fn fence_region(&mut self, alloc: Global, disk: DiskId, region: u8) -> Result<(), NoMemory>
        ensures ok { OnOk result (self.new ≡ fenced self.old disk region) }
        ensures err { OnErr result (self.new ≡ self.old) }
    {
        fence_region(alloc, &mut self.rows, disk, region)?;
        Ok(())
    }

    /// The link is noted for the region. True exactly where every link below `links` is then noted; the region is then
    /// `New`, and with region 15 the move is over.
    pub fn moved(
        &mut self,
        alloc: Global,
        disk: DiskId,
        region: u8,
        link: u8,
        links: u8,
    ) -> Result<bool, NoMemory>
        ensures ok { OnOk result (self.new ≡ noted self.old disk region link links) }
        ensures done { IfOk result (λ done. done ≡ completes link links (option_and_then (λ row. row.moving) (disk_at self.old.rows disk))) }
        ensures err { OnErr result (self.new ≡ self.old) }
    {
        let note = Note {
            region,
            link,
            links,
        };
        Ok(note_link(alloc, &mut self.rows, disk, note)?)
    }

    /// The same directory again.
    pub fn copy(&self) -> Result<Directory, NoMemory>
        ensures { IfOk result (λ directory. directory ≡ self.now) }
    {
        Ok(Directory {
            rows: self.rows.clone()?,
            made: self.made,
        })
    }
}
