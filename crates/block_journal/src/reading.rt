//! The bodies of a region, read piece by piece.

ghost use Rattle.std.specs.Prelude.{◌≡◌, ◌≤◌, ◌<◌, ◌+◌, ◌*◌, ◌^◌, true, false, length, vec_len, [], OnOk, IfOk, IfSome, IfNone, IsErrOf};
ghost use Rattle.petal_disk.specs.Disk.{LeavesOnly, Within, part};
ghost use Rattle.petal_disk.specs.Keeping.{KeepsDevice};
ghost use Rattle.block_journal.specs.Records.{contents, Counts, IsOpen, body_at};
ghost use Rattle.block_journal.specs.Pieces.{Took, HasReadCause};
ghost use Rattle.block_journal.specs.declared.error.JournalError.TheVariants as error;

use crate::JournalError;
use crate::gate::OPEN;
use petal_disk::Disk;
use std::alloc::{AllocError, Global};

// How many records are read at once.
const PIECE_RECORDS: u32 = 512;

// The body of a record of a piece; None where its gate is not open.
fn take_body(
    alloc: Global,
    r: usize,
    piece: &[u8],
    index: usize,
) -> Result<Option<Vec<u8>>, AllocError>
    requires wide { 0 < r }
    requires within { r * index + r ≤ length piece.now }
    ensures body { IfOk result (λ o. IfSome o (λ body. IsOpen r 0 piece.now index × (body_at r 0 piece.now index ≡ body.items))) }
    ensures shut { IfOk result (λ o. IfNone o (¬ IsOpen r 0 piece.now index)) }
{
    let at = r * index;
    if piece[at] != OPEN {
        return Ok(None);
    }
    Ok(Some(piece[at + 1..at + r].to_vec(alloc)?))
}

// Takes the bodies of a piece of records up to the first gate that is not open, and answers whether all were open.
fn take_bodies(
    alloc: Global,
    r: usize,
    piece: &[u8],
    records: usize,
    all: &mut Vec<Vec<u8>>,
) -> Result<bool, AllocError>
    requires wide { 0 < r }
    requires size { length piece.now ≡ r * records }
    ensures { IfOk result (λ more. Took r records piece.now (contents all.old.items) (contents all.new.items) more) }
{
    for i in 0..records {
        let Some(body) = take_body(alloc, r, piece, i)? else {
            return Ok(false);
        };
        all.push(body)?;
    }
    Ok(true)
}

// Reads a piece into the bytes lent, and takes its bodies.
fn take_piece<D: Disk>(
    alloc: Global,
    r: usize,
    disk: &mut D,
    at: u64,
    records: usize,
    piece: &mut [u8],
    all: &mut Vec<Vec<u8>>,
) -> Result<bool, JournalError>
    requires wide { 0 < r }
    requires size { length piece.old ≡ r * records }
    requires room { at + r * records ≤ D.size disk.old }
    ensures took { IfOk result (λ more. D.observable →
        Took r records (part (D.seen disk.old) at (r * records)) (contents all.old.items) (contents all.new.items) more) }
    ensures length { IfOk result (λ more. (vec_len all.new ≤ vec_len all.old + records)) }
    ensures device { KeepsDevice D.size D.seen D.may_leave D.moment D.left_since disk.old disk.new }
    ensures cause { HasReadCause (D.faults disk.old) (D.faults disk.new) result }
    ensures run { D.came_to disk.old disk.new }
{
    disk.read(at, piece)?;
    Ok(take_bodies(alloc, r, piece, records, all)?)
}

// Reads the piece from that record on, and takes its bodies.
fn read_piece<D: Disk, const R: usize>(
    alloc: Global,
    disk: &mut D,
    base: u64,
    first: u32,
    records: u32,
    all: &mut Vec<Vec<u8>>,
) -> Result<bool, JournalError>
    requires wide { 0 < R }
    requires room { base + R * (first + records) ≤ D.size disk.old }
    requires fits { base + R * (first + records) < 2 ^ 64 }
    ensures took { IfOk result (λ more. D.observable →
        Took R records (part (D.seen disk.old) (base + R * first) (R * records)) (contents all.old.items) (contents all.new.items) more) }
    ensures length { IfOk result (λ more. (vec_len all.new ≤ vec_len all.old + records)) }
    ensures device { KeepsDevice D.size D.seen D.may_leave D.moment D.left_since disk.old disk.new }
    ensures cause { HasReadCause (D.faults disk.old) (D.faults disk.new) result }
    ensures run { D.came_to disk.old disk.new }
{
    let at = base + R as u64 * first as u64;
    let records = records as usize;
    let mut piece = vec![in alloc; 0; R * records]?;
    take_piece(alloc, R, disk, at, records, &mut piece, all)
}

// Reads the bodies of a region, up to the first gate that is not open, into an empty list.
fn read_into<D: Disk, const R: usize>(
    alloc: Global,
    disk: &mut D,
    base: u64,
    limit: u32,
    all: &mut Vec<Vec<u8>>,
) -> Result<(), JournalError>
    requires wide { 0 < R }
    requires region { base + R * limit ≤ D.size disk.old }
    requires fits { base + R * limit < 2 ^ 64 }
    requires empty { all.old.items ≡ [] }
    ensures counts { OnOk result (D.observable → Counts R base limit (D.seen disk.old) (contents all.new.items)) }
    ensures length { OnOk result (vec_len all.new ≤ limit) }
    ensures device { KeepsDevice D.size D.seen D.may_leave D.moment D.left_since disk.old disk.new }
    ensures cause { HasReadCause (D.faults disk.old) (D.faults disk.new) result }
    ensures run { D.came_to disk.old disk.new }
{
    let mut first = 0;
    while first < limit {
        let records = PIECE_RECORDS.min(limit - first);
        if !read_piece::<D, R>(alloc, disk, base, first, records, all)? {
            break;
        }
        first += records;
    }
    Ok(())
}

// The bodies of a region up to the first gate that is not open.
pub(crate) fn read_bodies<D: Disk, const R: usize>(
    alloc: Global,
    disk: &mut D,
    base: u64,
    limit: u32,
) -> Result<Vec<Vec<u8>>, JournalError>
    requires wide { 0 < R }
    requires region { base + R * limit ≤ D.size disk.old }
    requires fits { base + R * limit < 2 ^ 64 }
    ensures counts { IfOk result (λ all. D.observable → Counts R base limit (D.seen disk.old) (contents all.items)) }
    ensures length { IfOk result (λ all. vec_len all ≤ limit) }
    ensures seen { D.seen disk.new ≡ D.seen disk.old }
    ensures size { D.size disk.new ≡ D.size disk.old }
    ensures crash { Within (D.may_leave disk.old) (D.may_leave disk.new) }
    ensures any_moment { LeavesOnly D.moment D.left_since disk.old disk.new (D.may_leave disk.old) }
    ensures full { ¬ IsErrOf result error.Full }
    ensures later { D.faults disk.old ≤ D.faults disk.new }
    ensures failed { IsErrOf result error.Failed → D.faults disk.old < D.faults disk.new }
    ensures run { D.came_to disk.old disk.new }
{
    let mut all = Vec::new(alloc);
    read_into::<D, R>(alloc, disk, base, limit, &mut all)?;
    Ok(all)
}
