//! Snapshots of a disk by name.

ghost use Rattle.std.specs.Prelude.{◌≡◌, option_copied};
ghost use Rattle.global_tables.specs.Disk.{snapshot_named};

use global_tables::Snapshot;
use petal_base::Name;

/// The snapshot of this name.
pub fn snapshot_named<'a>(snaps: &'a [Snapshot], name: &Name) -> Option<&'a Snapshot>
    ensures { option_copied result ≡ snapshot_named snaps.now name.now }
{
    snaps.iter().find(|snap| snap.name == *name)
}
