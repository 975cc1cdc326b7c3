//! An append whose past is not empty.

ghost use Rattle.std.specs.Prelude.{◌≡◌, ◌≤◌, ◌+◌, ◌*◌, ℕ, List, [], length, IfOk, OnOk};
ghost use Rattle.block_journal.specs.Records.{Stored, LeftByAppend};
ghost use Rattle.disk_moments.specs.Moments.{WasLeft};
ghost use Rattle.petal_disk.specs.Disk.{LeavesOnly};

use crate::Remembering;
use block_journal::{Journal, JournalError};
use petal_disk::{Disk, Failed};
use std::alloc::Global;

/// Appends a body of 7 bytes to a journal on a disk that remembers. A crash at an earlier moment would have left the list
/// without it, and a crash now cannot.
///
/// # Errors
/// As `Journal::append`.
pub fn append_body(
    journal: &mut Journal<8>,
    disk: &mut Remembering,
    body: &[u8],
) -> Result<(), JournalError>
    requires body { length body.now ≡ 7 }
    requires region { journal.old.base + 8 * journal.old.limit ≤ ⟦<Remembering as Disk>⟧.size disk.old }
    ensures past { (bodies : List (List ℕ))
        → Stored 8 journal.old (⟦<Remembering as Disk>⟧.seen disk.old) (⟦<Remembering as Disk>⟧.may_leave disk.old) bodies
        → OnOk result (WasLeft 8 journal.old bodies (⟦<Remembering as Disk>⟧.left_since disk.new (⟦<Remembering as Disk>⟧.moment disk.old))
        (⟦<Remembering as Disk>⟧.may_leave disk.new)) }
    ensures any_moment { (bodies : List (List ℕ))
        → Stored 8 journal.old (⟦<Remembering as Disk>⟧.seen disk.old) (⟦<Remembering as Disk>⟧.may_leave disk.old) bodies
        → LeavesOnly ⟦<Remembering as Disk>⟧.moment ⟦<Remembering as Disk>⟧.left_since disk.old disk.new
        (LeftByAppend 8 journal.old (⟦<Remembering as Disk>⟧.may_leave disk.old) bodies body.now) }
{
    journal.append(disk, body)
}

/// Formats a journal of one record.
fn begin(disk: &mut Remembering) -> Result<Journal<8>, Failed>
    requires { 8 ≤ ⟦<Remembering as Disk>⟧.size disk.old }
    ensures region { IfOk result (λ journal. journal ≡ record { base = 0; limit = 1; count = 0 }) }
    ensures stored { IfOk result (λ journal. Stored 8 (record { base = 0; limit = 1; count = 0 }) (⟦<Remembering as Disk>⟧.seen disk.new)
        (⟦<Remembering as Disk>⟧.may_leave disk.new) []) }
    ensures size { ⟦<Remembering as Disk>⟧.size disk.new ≡ ⟦<Remembering as Disk>⟧.size disk.old }
{
    Journal::<8>::format(disk, 0, 1)
}

/// A disk with a past: a journal of one record is formatted on it, and then has a body.
///
/// # Errors
/// As `Journal::format` and `Journal::append`.
pub fn with_a_past(alloc: Global) -> Result<Remembering, JournalError>
    ensures { IfOk result (λ disk. (t : ℕ)
        × WasLeft 8 (record { base = 0; limit = 1; count = 0 }) [] (⟦<Remembering as Disk>⟧.left_since disk t) (⟦<Remembering as Disk>⟧.may_leave disk)) }
{
    let Ok(mut disk) = Remembering::new(alloc, 8) else {
        return Err(JournalError::NoMemory);
    };
    let mut journal = begin(&mut disk)?;
    append_body(&mut journal, &mut disk, b"a body.")?;
    Ok(disk)
}
