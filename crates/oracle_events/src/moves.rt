//! The moves of disks from one map to another, region by region.

use petal_base::{BlockNo, NoMemory};
use std::alloc::Global;

/// A disk has so many regions.
const REGIONS: u8 = 16;

/// Blocks follow one another within a region in runs of this length.
const RUN: BlockNo = 8;

/// A disk's move: the map that it leaves; the region whose turn it is, and whether that is between the two maps; and the links of the
/// old map that have moved all that they had of it.
#[derive(Drop)]
struct Move {
    disk: usize,
    old_map: usize,
    region: u8,
    on_way: bool,
    noted: Vec<u8>,
}

/// The moves that are under way.
#[derive(Drop)]
pub struct Moves {
    alloc: Global,
    moves: Vec<Move>,
}

/// What comes of it that a link has moved all that it had of a region.
#[derive(Clone, Copy)]
pub enum Noted {
    /// The region is not over.
    Nothing,
    /// The turn of the disk's next region comes.
    Next(usize, u8),
    /// The move is over.
    Over,
}

fn region_of(block: BlockNo) -> u8 {
    ((block / RUN) % BlockNo::from(REGIONS)) as u8
}

impl Move {
    // Whether the region is yet to leave the old map.
    fn is_before(&self, region: u8) -> bool {
        self.region < region || (self.region == region && !self.on_way)
    }

    // The link is noted, once. Gives whether all of so many links are.
    fn note(&mut self, link: u8, links: usize) -> Result<bool, NoMemory> {
        if !self.noted.contains(&link) {
            self.noted.push(link)?;
        }
        Ok(self.noted.len() >= links)
    }

    // The region has moved.
    fn pass(&mut self) -> Noted {
        self.region = self.region.saturating_add(1);
        self.on_way = false;
        self.noted.truncate(0);
        if self.region < REGIONS {
            Noted::Next(self.disk, self.region)
        } else {
            Noted::Over
        }
    }
}

impl Moves {
    /// No disk moves.
    pub fn new(alloc: Global) -> Moves {
        Moves {
            alloc,
            moves: Vec::new(alloc),
        }
    }

    /// Whether the disk moves.
    pub fn has(&self, disk: usize) -> bool {
        self.moves.iter().any(|own| own.disk == disk)
    }

    /// The map that the disk leaves, where it moves and the block is written there yet.
    pub fn old_map(&self, disk: usize, block: BlockNo) -> Option<usize> {
        let region = region_of(block);
        let own = self
            .moves
            .iter()
            .find(|own| own.disk == disk && own.is_before(region))?;
        Some(own.old_map)
    }

    /// The disk begins to leave this map.
    pub fn begin(&mut self, disk: usize, old_map: usize) -> Result<(), NoMemory> {
        self.moves.push(Move {
            disk,
            old_map,
            region: 0,
            on_way: false,
            noted: Vec::new(self.alloc),
        })?;
        Ok(())
    }

    /// The disk's region is between its two maps.
    pub fn fence(&mut self, disk: usize, region: u8) {
        for own in self.moves.iter_mut() {
            if own.disk == disk && own.region == region {
                own.on_way = true;
            }
        }
    }

    /// The link, one of so many of this map, has moved all that it had of the region.
    pub fn note(
        &mut self,
        map: usize,
        region: u8,
        link: u8,
        links: usize,
    ) -> Result<Noted, NoMemory> {
        let found = self.moves.iter_mut().find(|own| own.old_map == map
            && own.region == region
            && own.on_way);
        let Some(own) = found else {
            return Ok(Noted::Nothing);
        };
        if link as usize >= links || !own.note(link, links)? {
            return Ok(Noted::Nothing);
        }
        let noted = own.pass();
        self.moves.retain(|own| own.region < REGIONS);
        Ok(noted)
    }
}
