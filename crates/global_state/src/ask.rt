//! What is known of a disk, of a link and of a client's commands.

ghost use Rattle.std.specs.Prelude.{◌≡◌, option_copied, option_map};
ghost use Rattle.global_tables.specs.Disk.{disk_at, named, snapshot_named};
ghost use Rattle.global_tables.specs.Link.{link_at};
ghost use Rattle.spec_state.specs.State.{latest};
ghost use Rattle.spec_state.specs.CellState.{view_of, owner, region_at, cell_link, link_of_row, snapshot, least, next_epoch, next_snapshot};

use crate::state::GlobalState;
use global_tables::{DiskRow, LinkRow, RegionState, Snapshot, Verdict};
use petal_base::{Cell, ClientId, DiskId, Epoch, MapId, Name, Seq};
use spec_state::{DiskView, Link};
use state_fold::{move_region, snapshot_named};

fn view_of(row: &DiskRow) -> DiskView
    ensures { result ≡ view_of row.now }
{
    DiskView {
        disk: row.id,
        map: row.map,
        epoch: row.epoch,
        old_map: row.moving.as_ref().map(|moving| moving.old_map),
    }
}

fn link_of_row(row: &LinkRow) -> Link
    ensures { result ≡ link_of_row row.now }
{
    Link {
        primary: row.primary,
        secondary: row.secondary,
        state: row.state,
    }
}

fn least(a: Option<Epoch>, b: Option<Epoch>) -> Option<Epoch>
    ensures { result ≡ least a b }
{
    match (a, b) {
        (None, b) => b,
        (Some(n), None) => Some(n),
        (Some(n), Some(m)) => Some(if n <= m { n } else { m }),
    }
}

fn next_epoch(from: Epoch, snaps: &[Snapshot]) -> Option<Epoch>
    ensures { result ≡ next_epoch from snaps.now }
{
    match snaps.split_first() {
        None => None,
        Some((snap, snaps)) => {
            let here = if from <= snap.epoch {
                Some(snap.epoch)
            } else {
                None
            };
            least(here, next_epoch(from, snaps))
        }
    }
}

impl GlobalState {
    /// The disk of a name.
    pub fn find(&self, name: &Name) -> Option<DiskView>
        ensures { result ≡ option_map view_of (named self.now.disks.rows name.now) }
    {
        match self.tables.disks.find(name) {
            Some(row) => Some(view_of(row)),
            None => None,
        }
    }

    /// The disk of a number.
    pub fn disk(&self, disk: DiskId) -> Option<DiskView>
        ensures { result ≡ option_map view_of (disk_at self.now.disks.rows disk) }
    {
        match self.tables.disks.row(disk) {
            Some(row) => Some(view_of(row)),
            None => None,
        }
    }

    /// The disk whose map or old map it is.
    pub fn disk_of(&self, map: MapId) -> Option<DiskView>
        ensures { result ≡ option_map view_of (owner self.now map) }
    {
        match self.owner(map) {
            Some(row) => Some(view_of(row)),
            None => None,
        }
    }

    /// The least epoch of a snapshot of the disk that is not below `from`.
    pub fn next_snapshot(&self, disk: DiskId, from: Epoch) -> Option<Epoch>
        ensures { result ≡ next_snapshot self.now disk from }
    {
        match self.tables.disks.row(disk) {
            Some(row) => next_epoch(from, row.snaps.as_slice()),
            None => None,
        }
    }

    /// The epoch of the disk's snapshot of this name.
    pub fn snapshot(&self, disk: DiskId, name: &Name) -> Option<Epoch>
        ensures { result ≡ snapshot self.now disk name.now }
    {
        match self.tables.disks.row(disk) {
            Some(row) => epoch_named(row.snaps.as_slice(), name),
            None => None,
        }
    }

    /// How far a region of the disk has moved; `New` without a move.
    pub fn region_state(&self, disk: DiskId, region: u8) -> RegionState
        ensures { result ≡ region_at (disk_at self.now.disks.rows disk) region }
    {
        match self.tables.disks.row(disk) {
            Some(row) => move_region(region, &row.moving),
            None => RegionState::New,
        }
    }

    /// A link of a live map.
    pub fn link(&self, map: MapId, link: u8) -> Option<Link>
        ensures { result ≡ option_map link_of_row (link_at self.now.links map link) }
    {
        match self.tables.links.get(map, link) {
            Some(row) => Some(link_of_row(row)),
            None => None,
        }
    }

    /// The link of a cell of a live map.
    pub fn cell_link(&self, cell: Cell) -> Option<Link>
        ensures { result ≡ option_map link_of_row (cell_link self.now cell) }
    {
        match self.row_of(cell) {
            Some(row) => Some(link_of_row(row)),
            None => None,
        }
    }

    /// The client's last command and what became of it.
    pub fn verdict(&self, client: ClientId) -> Option<(Seq, Verdict)>
        ensures { result ≡ option_map (λ last. (last.seq, last.verdict)) (latest self.now client) }
    {
        match self.tables.latest(client) {
            Some(last) => Some((last.seq, last.verdict)),
            None => None,
        }
    }
}

fn epoch_named(snaps: &[Snapshot], name: &Name) -> Option<Epoch>
    ensures { result ≡ option_map (λ snap. snap.epoch) (snapshot_named snaps.now name.now) }
{
    match snapshot_named(snaps, name) {
        Some(snap) => Some(snap.epoch),
        None => None,
    }
}
