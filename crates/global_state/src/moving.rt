//! Moves: which cells are on their way from map to map, and where to.

ghost use Rattle.std.specs.Prelude.{◌≡◌, ◌<◌, IfSome, Option, find, option_and_then};
ghost use Rattle.std.specs.List.{range_with_len};
ghost use Rattle.global_tables.specs.Disk.{disk_at};
ghost use Rattle.spec_state.specs.CellState.{cell_asked, cell_link, comes_under, coming, is_fenced, map_asked, move_region, region_at};
ghost use Rattle.spec_state.specs.CellState.{region_leaving, region_on_way, row_lead, source, source_in, target};

use crate::state::GlobalState;
use chain_place::region;
use global_tables::{DiskRow, Move, RegionState};
use petal_base::{BlockNo, Cell, MapId, REGIONS, ServerId};
use petal_command::RegionNumber;
use spec_state::DiskView;
use state_fold::{is_fenced, move_region};

fn comes_under(cell: Cell, row: &DiskRow) -> bool
    ensures { result ≡ comes_under cell row.now }
{
    row.map == cell.map && is_fenced(move_region(region(cell.block), &row.moving))
}

fn source_in(cell: Cell, row: &DiskRow) -> Option<Cell>
    ensures { result ≡ source_in cell row.now }
{
    if row.map != cell.map {
        return None;
    }
    match &row.moving {
        Some(moving) => Some(Cell {
            map: moving.old_map,
            block: cell.block,
        }),
        None => None,
    }
}

/// The first region of the move that is on its way.
fn first_fenced(moving: &Option<Move>) -> Option<u8>
    ensures { result ≡ find (λ region. is_fenced (move_region region moving.now)) (range_with_len 0 16) }
{
    (0..REGIONS).find(|region| is_fenced(move_region(*region, moving)))
}

/// The region, as commands name it.
fn numbered(region: Option<u8>) -> Option<RegionNumber>
    requires { IfSome region (λ number. number < 16) }
    ensures { result ≡ region }
{
    match region {
        Some(number) => Some(RegionNumber::new(number)),
        None => None,
    }
}

fn region_on_way(moving: &Option<Move>) -> Option<RegionNumber>
    ensures { result ≡ region_on_way moving.now }
{
    match moving {
        Some(_) => numbered(first_fenced(moving)),
        None => None,
    }
}

fn map_asked(disk: &DiskView, told: bool, region: RegionState) -> MapId
    ensures { result ≡ map_asked disk.now told region }
{
    match region {
        RegionState::Old => disk.old_map.unwrap_or(disk.map),
        RegionState::Fenced => {
            if told {
                disk.old_map.unwrap_or(disk.map)
            } else {
                disk.map
            }
        }
        RegionState::New => disk.map,
    }
}

impl GlobalState {
    /// Whether the cell is under the new map of a move, in the region that is on its way.
    pub fn coming(&self, cell: Cell) -> bool
        ensures { result ≡ coming self.now cell }
    {
        match self.owner(cell.map) {
            Some(row) => comes_under(cell, row),
            None => false,
        }
    }

    /// Of a cell of the map to which a disk moves, the cell of the old map.
    pub fn source(&self, cell: Cell) -> Option<Cell>
        ensures { result ≡ source self.now cell }
    {
        match self.owner(cell.map) {
            Some(row) => source_in(cell, row),
            None => None,
        }
    }

    /// Of a cell of the old map of a move, the cell of the new one.
    pub fn target(&self, cell: Cell) -> Option<Cell>
        ensures { result ≡ target self.now cell }
    {
        match self.tables.mover(cell.map) {
            Some(row) => Some(Cell {
                map: row.map,
                block: cell.block,
            }),
            None => None,
        }
    }

    /// The region that is on its way from this map.
    pub fn region_leaving(&self, map: MapId) -> Option<RegionNumber>
        ensures { result ≡ region_leaving self.now map }
    {
        match self.tables.mover(map) {
            Some(row) => region_on_way(&row.moving),
            None => None,
        }
    }

    /// The cell under which a request names a block of the disk. Where the block's region is on its way it is that of the new
    /// map, and that of the old one for a read that was told that the new one has nothing.
    pub fn asked_cell(&self, disk: &DiskView, block: BlockNo, told: bool) -> Cell
        ensures { result ≡ cell_asked self.now disk.now block told }
    {
        Cell {
            map: map_asked(disk, told, self.region_state(disk.disk, region(block))),
            block,
        }
    }

    /// Of a cell of the new map, the server that leads the link of the old map from which its entries come.
    pub fn old_lead(&self, cell: Cell) -> Option<ServerId>
        ensures { result ≡ option_and_then (row_lead self.now) (option_and_then (cell_link self.now) (source self.now cell)) }
    {
        match self.source(cell) {
            Some(before) => self.cell_lead(before),
            None => None,
        }
    }
}
