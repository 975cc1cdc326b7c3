//! The global maps: each a tuple of servers that never changes, numbered in the order of making.
//!
//! To the layer above it promises the list of maps with one more at its end after `add`. It knows nothing of links, moves
//! and of which maps are in use.
#![tactic(auto)]

ghost use Rattle.std.specs.Prelude.{◌≡◌, ◌<◌, ◌^◌, ◌-◌, [], length, IfOk, OnOk, OnErr, option_copied};
ghost use Rattle.global_tables.specs.Map.{added, tuple_of, disk_of};

pub use global_tables::MapRow;
use petal_base::{DiskId, MapId, NoMemory, Tuple};
use std::alloc::Global;
use std::marker::Model;

/// The maps made so far, map 0 first. Contracts see the list of their rows.
#[derive(Drop)]
pub struct Maps {
    rows: Vec<MapRow>,
}

impl Model for Maps {
    ghost use Rattle.std.specs.Prelude.{List};
    ghost use Rattle.global_tables.specs.declared.map.MapRow.{MapRow};

    ghost Value = { List MapRow };

    ghost view = { λ m. m.rows.items };
}

impl Maps {
    /// No map. It takes no memory.
    pub fn new(alloc: Global) -> Maps
        ensures { result ≡ [] }
    {
        Maps {
            rows: Vec::new(alloc),
        }
    }

    /// One map more, for a disk; gives its number.
    pub fn add(&mut self, tuple: &Tuple, disk: DiskId) -> Result<MapId, NoMemory>
        requires { length self.old < 2 ^ 32 - 1 }
        ensures added { OnOk result (self.new ≡ added self.old tuple.now disk) }
        ensures number { IfOk result (λ number. number ≡ length self.old) }
        ensures err { OnErr result (self.new ≡ self.old) }
    {
        let number = self.rows.len() as MapId;
        self.rows.push(MapRow {
            tuple: tuple.copy(),
            disk,
        })?;
        Ok(number)
    }

    /// How many maps there are.
    pub fn count(&self) -> usize
        ensures { result ≡ length self.now }
    {
        self.rows.len()
    }

    /// The servers of a map; None exactly where there is no such map.
    pub fn tuple(&self, map: MapId) -> Option<&Tuple>
        ensures { option_copied result ≡ tuple_of self.now map }
    {
        self.rows.get(map as usize).map(|row| &row.tuple)
    }

    /// The disk that a map was made for; None exactly where there is no such map.
    pub fn disk(&self, map: MapId) -> Option<DiskId>
        ensures { result ≡ disk_of self.now map }
    {
        self.rows.get(map as usize).map(|row| row.disk)
    }

    /// The same maps again.
    pub fn copy(&self) -> Result<Maps, NoMemory>
        ensures { IfOk result (λ maps. maps ≡ self.now) }
    {
        Ok(Maps {
            rows: self.rows.clone()?,
        })
    }
}
