//! Which cells are live, and who leads, reads and holds them.

ghost use Rattle.std.specs.Prelude.{◌≡◌, ℕ, true, Option, option_and_then, option_copied};
ghost use Rattle.global_state.specs.LiveMap.{is_live_map, is_still};
ghost use Rattle.global_tables.specs.Disk.{has_link};
ghost use Rattle.spec_state.specs.CellState.{has_map, owner, live_new, live_old, live_under, live, leaving, cell_link, state_lead, row_lead, link_lead};
ghost use Rattle.spec_state.specs.CellState.{lead, serves, readable, is_of, holds, held, noted_in, noted};

use crate::state::GlobalState;
use chain_place::{link_of, region};
use global_tables::{DiskRow, FenceKind, LinkRow, LinkState, Move, RegionState};
use petal_base::{Cell, DiskId, MapId, ServerId};
use spec_state::Hold;
use state_fold::{is_fenced, leaves, move_region};

fn has_map(map: MapId, row: &DiskRow) -> bool
    ensures { result ≡ has_map map row.now }
{
    row.map == map || leaves(map, &row.moving)
}

fn live_new(state: RegionState) -> bool
    ensures { result ≡ live_new state }
{
    match state {
        RegionState::Old => false,
        RegionState::Fenced | RegionState::New => true,
    }
}

fn live_old(state: RegionState) -> bool
    ensures { result ≡ live_old state }
{
    match state {
        RegionState::Old | RegionState::Fenced => true,
        RegionState::New => false,
    }
}

fn live_under(map: MapId, region: u8, row: &DiskRow) -> bool
    ensures { result ≡ live_under map region row.now }
{
    let state = move_region(region, &row.moving);
    if row.map == map {
        live_new(state)
    } else {
        live_old(state)
    }
}

fn is_still(map: MapId, row: &DiskRow) -> bool
    ensures { result ≡ is_still map row.now }
{
    row.map == map && row.moving.is_none()
}

fn serves(server: ServerId, row: &LinkRow, state: LinkState) -> bool
    ensures { result ≡ serves server row.now state }
{
    match state {
        LinkState::Both => row.primary == server || row.secondary == server,
        LinkState::Only {
            holder,
            full_copy_needed: _,
        } => holder == server,
        LinkState::Lost => false,
    }
}

fn noted_in(region: u8, link: u8, moving: &Option<Move>) -> bool
    ensures { result ≡ noted_in region link moving.now }
{
    match moving {
        Some(there) => {
            is_fenced(move_region(region, moving)) && there.noted.as_slice().contains(&link)
        }
        None => false,
    }
}

impl GlobalState {
    /// The disk whose map or old map it is.
    pub(crate) fn owner(&self, map: MapId) -> Option<&DiskRow>
        ensures { option_copied result ≡ owner self.now map }
    {
        self.tables
            .disks
            .rows()
            .iter()
            .find(|row| has_map(map, row))
    }

    /// Whether the cell is one of those that hold its disk's contents.
    pub fn live(&self, cell: Cell) -> bool
        ensures { result ≡ live self.now cell }
    {
        match self.owner(cell.map) {
            Some(row) => live_under(cell.map, region(cell.block), row),
            None => false,
        }
    }

    /// Whether the map is that of a disk that is not on the move; then each cell of the map is live.
    pub fn is_live_map(&self, map: MapId) -> bool
        ensures value { result ≡ is_live_map self.now map }
        ensures live { is_live_map self.now map ≡ true → (block : ℕ) → live self.now (record { map = map; block = block }) ≡ true }
    {
        match self.owner(map) {
            Some(row) => is_still(map, row),
            None => false,
        }
    }

    fn leaving(&self, cell: Cell) -> bool
        ensures { result ≡ leaving self.now cell }
    {
        match self.tables.mover(cell.map) {
            Some(row) => is_fenced(move_region(region(cell.block), &row.moving)),
            None => false,
        }
    }

    /// The row of a cell's link.
    pub(crate) fn row_of(&self, cell: Cell) -> Option<&LinkRow>
        ensures { option_copied result ≡ cell_link self.now cell }
    {
        match self.tables.maps.tuple(cell.map) {
            Some(tuple) => self
                .tables
                .links
                .get(cell.map, link_of(tuple.ids().len() as u8, cell.block)),
            None => None,
        }
    }

    fn state_lead(&self, primary: ServerId, state: LinkState) -> Option<ServerId>
        ensures { result ≡ state_lead self.now primary state }
    {
        match state {
            LinkState::Both => Some(primary),
            LinkState::Only {
                holder,
                full_copy_needed: _,
            } => {
                if self.tables.is_up(holder) {
                    Some(holder)
                } else {
                    None
                }
            }
            LinkState::Lost => None,
        }
    }

    /// The server that leads a link, whatever its regions.
    pub fn row_lead(&self, row: &LinkRow) -> Option<ServerId>
        ensures { result ≡ row_lead self.now row.now }
    {
        self.state_lead(row.primary, row.state)
    }

    /// The server that leads the cell's link, whatever its region.
    pub fn cell_lead(&self, cell: Cell) -> Option<ServerId>
        ensures { result ≡ option_and_then (row_lead self.now) (cell_link self.now cell) }
    {
        match self.row_of(cell) {
            Some(row) => self.row_lead(row),
            None => None,
        }
    }

    /// The server that leads the link, whatever its regions.
    pub fn link_lead(&self, map: MapId, link: u8) -> Option<ServerId>
        ensures { result ≡ link_lead self.now map link }
    {
        match self.tables.links.get(map, link) {
            Some(row) => self.row_lead(row),
            None => None,
        }
    }

    /// The server that takes writes of the cell.
    pub fn lead(&self, cell: Cell) -> Option<ServerId>
        ensures { result ≡ lead self.now cell }
    {
        if !self.live(cell) {
            return None;
        }
        if self.leaving(cell) {
            return None;
        }
        self.cell_lead(cell)
    }

    /// Whether the server may answer reads of the cell.
    pub fn readable(&self, server: ServerId, cell: Cell) -> bool
        ensures { result ≡ readable self.now server cell }
    {
        if !self.live(cell) || !self.tables.is_up(server) {
            return false;
        }
        match self.row_of(cell) {
            Some(row) => serves(server, row, row.state),
            None => false,
        }
    }

    fn is_of(&self, disk: DiskId, map: MapId) -> bool
        ensures { result ≡ is_of self.now disk map }
    {
        match self.owner(map) {
            Some(row) => row.id == disk,
            None => false,
        }
    }

    fn holds(&self, cell: Cell, kind: &FenceKind) -> Hold
        ensures { result ≡ holds self.now cell kind.now }
    {
        match kind {
            FenceKind::Whole {
                disk,
                name: _,
                client: _,
                seq: _,
            } => {
                if self.is_of(*disk, cell.map) {
                    Hold::Writes
                } else {
                    Hold::No
                }
            }
            FenceKind::Region {
                disk,
                region: fenced,
            } => {
                if self.is_of(*disk, cell.map) && *fenced == region(cell.block) && self.live(cell) {
                    Hold::All
                } else {
                    Hold::No
                }
            }
        }
    }

    /// What the active fence holds of the cell.
    pub fn held(&self, cell: Cell) -> Hold
        ensures { result ≡ held self.now cell }
    {
        match self.tables.view.head() {
            Some(fence) => self.holds(cell, &fence.kind),
            None => Hold::No,
        }
    }

    /// Whether the region of this old map is `Fenced` and the link is noted for it.
    pub fn noted(&self, map: MapId, region: u8, link: u8) -> bool
        ensures { result ≡ noted self.now map region link }
    {
        match self.tables.mover(map) {
            Some(row) => noted_in(region, link, &row.moving),
            None => false,
        }
    }
}
