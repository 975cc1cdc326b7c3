//! A journal of records of 64 bytes.

ghost use Rattle.std.specs.Prelude.{◌≡◌, ◌≤◌, ◌+◌, ◌*◌, length};

use block_journal::{Journal, JournalError};
use petal_disk::{Disk, MemDisk};
use std::alloc::Global;

/// The records of a data device.
const LIMIT: u32 = 65_536;

const RECORD_BYTES: usize = 64;

// Appends so many bodies, as far as there is room.
fn append_all<D: Disk>(
    journal: &mut Journal<RECORD_BYTES>,
    disk: &mut D,
    body: &[u8],
    count: u32,
) -> Result<(), JournalError>
    requires body { length body.now ≡ 63 }
    requires region { journal.old.base + 64 * journal.old.limit ≤ D.size disk.old }
    ensures place { (journal.new.base ≡ journal.old.base) × (journal.new.limit ≡ journal.old.limit) }
    ensures size { D.size disk.new ≡ D.size disk.old }
{
    for _ in 0..count {
        match journal.append(disk, body) {
            Ok(()) => {}
            Err(JournalError::Full) => return Ok(()),
            Err(error) => return Err(error),
        }
    }
    Ok(())
}

// How many bodies a journal with room for `limit` holds when so many were appended.
fn appended<D: Disk>(
    alloc: Global,
    disk: &mut D,
    limit: u32,
    count: u32,
    opens: bool,
) -> Result<u32, JournalError>
    requires { 64 * limit ≤ D.size disk.old }
{
    let mut journal = Journal::<RECORD_BYTES>::format(disk, 0, limit)?;
    append_all(&mut journal, disk, &[7; 63], count)?;
    if !opens {
        return Ok(journal.count());
    }
    let (journal, _) = Journal::<RECORD_BYTES>::open(alloc, disk, 0, limit)?;
    Ok(journal.count())
}

/// Formats a journal and appends so many bodies, and opens it again where it is asked to. Gives how many bodies there are then.
pub fn run(alloc: Global, count: u32, opens: bool) -> Option<u32> {
    let mut disk = MemDisk::new(alloc, 64 * u64::from(LIMIT)).ok()?;
    appended(alloc, &mut disk, LIMIT, count, opens).ok()
}
