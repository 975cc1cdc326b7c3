//! Writing a group of bodies: all of it but its first gate.

ghost use Rattle.std.specs.Prelude.{◌≡◌, ◌≤◌, ◌<◌, ◌+◌, ◌-◌, ◌*◌, ◌++◌, [], ◌∷◌, length, take, slice_index_or, OnOk};
ghost use Rattle.petal_disk.specs.Disk.{Torn, Follows, Only, LeavesOnly, LeftByWrite};
ghost use Rattle.device_faults.specs.Faults.{HasCause};
ghost use Rattle.block_journal.specs.Groups.{Filled, Laid};

use crate::bodies::Bodies;
use crate::gate::OPEN;
use crate::half::{
    BODY_BYTES, Body, GROUP_BODIES, HALF_BODIES, HALF_BYTES, HALF_RECORDS, RECORD_BYTES, TURN_BYTES,
};
use petal_disk::{Disk, Failed, write_kept};
use record_fields::{put, put_byte};

// How many bytes a group has at most.
const GROUP_BYTES: usize = RECORD_BYTES * GROUP_BODIES;

// How many records a piece of a turn has.
const PIECE_RECORDS: u32 = 1024;

// The gate behind the body of that index: closed behind the last.
fn gate_behind(index: usize, count: usize) -> u8
    requires { index < count }
    ensures opened { index + 1 < count → result ≡ 165 }
    ensures shut { index + 1 ≡ count → result ≡ 0 }
{
    if index + 1 < count { OPEN } else { 0 }
}

// Puts a body, and the gate behind it, after those that are in the piece.
fn put_next(piece: &mut [u8], index: usize, body: &[u8], gate: u8)
    requires body { length body.now ≡ BODY_BYTES }
    requires room { RECORD_BYTES * index + RECORD_BYTES ≤ length piece.old }
    ensures { take (RECORD_BYTES * index + BODY_BYTES + 1) piece.new ≡ take (RECORD_BYTES * index) piece.old ++ body.now ++ gate ∷ [] }
{
    let at = RECORD_BYTES * index;
    put(piece, at, body);
    put_byte(piece, at + BODY_BYTES, gate);
}

// Lays a group out in the piece.
fn lay_out(bodies: &[Body], piece: &mut [u8])
    requires { RECORD_BYTES * length bodies.now ≤ length piece.old }
    ensures { Filled bodies.now 0 (length bodies.now) piece.new }
{
    for i in 0..bodies.len() {
        let gate = gate_behind(i, bodies.len());
        put_next(piece, i, &bodies[i], gate);
    }
}

// How many bytes a piece of so many records has, of the `limit` from its first on: the last gate of all has no place.
fn piece_bytes(records: usize, limit: u32) -> usize
    requires some { 0 < records }
    requires few { records ≤ limit }
    ensures inside { records < limit → result ≡ RECORD_BYTES * records }
    ensures ends { records ≡ limit → result + 1 ≡ RECORD_BYTES * records }
    ensures within { result ≤ RECORD_BYTES * records }
{
    let all = RECORD_BYTES * records;
    if records < limit as usize {
        all
    } else {
        all - 1
    }
}

/// Writes a group into the records from `at` on, of which there are `limit`, but for its first gate, and syncs.
pub(crate) fn write_group<D: Disk>(
    disk: &mut D,
    at: u64,
    limit: u32,
    bodies: &[Body],
) -> Result<(), Failed>
    requires some { 0 < length bodies.now }
    requires few { length bodies.now ≤ GROUP_BODIES }
    requires room { length bodies.now ≤ limit }
    requires region { at + RECORD_BYTES * limit ≤ D.size disk.old }
    ensures laid { OnOk result (D.observable → Laid at limit (length bodies.now) (D.seen disk.new) bodies.now) }
    ensures durable { OnOk result (D.observable → Only (D.seen disk.new) (D.may_leave disk.new)) }
    ensures torn { D.observable → Torn (at + 1) (RECORD_BYTES * limit - 1) (D.seen disk.old) (D.seen disk.new) }
    ensures size { D.size disk.new ≡ D.size disk.old }
    ensures crash { Follows (Torn (at + 1) (RECORD_BYTES * limit - 1)) (D.may_leave disk.old) (D.may_leave disk.new) }
    ensures any_moment { LeavesOnly D.moment D.left_since disk.old disk.new
        (LeftByWrite (at + 1) (RECORD_BYTES * limit - 1) (D.may_leave disk.old)) }
    ensures cause { HasCause (D.faults disk.old) (D.faults disk.new) result }
    ensures run { D.came_to disk.old disk.new }
{
    let _size = disk.len();
    let mut group = [0; GROUP_BYTES];
    lay_out(bodies, &mut group);
    let end = piece_bytes(bodies.len(), limit);
    write_kept(disk, at + 1, &group[..end])
}

// Spells the body of that index of a group: a Head, and then the bodies.
fn spell<B: Bodies>(head: &Body, bodies: &B, index: u32, into: &mut [u8])
    requires within { index ≤ length (B.bodies bodies.now) }
    requires room { length into.old ≡ BODY_BYTES }
    ensures { into.new ≡ slice_index_or (head.now ∷ B.bodies bodies.now) index [] }
{
    if index == 0 {
        into.copy_from_slice(head);
    } else {
        bodies.body(index - 1, into);
    }
}

// Lays out so many records of that group, from that index on, in the piece.
fn lay_out_list<B: Bodies>(head: &Body, bodies: &B, first: u32, records: u32, piece: &mut [u8])
    requires within { first + records ≤ length (B.bodies bodies.now) + 1 }
    requires room { RECORD_BYTES * records ≤ length piece.old }
    ensures { Filled (head.now ∷ B.bodies bodies.now) first records piece.new }
{
    let total = bodies.count() as usize + 1;
    for i in 0..records as usize {
        let index = first as usize + i;
        let mut body = [0; BODY_BYTES];
        spell(head, bodies, index as u32, &mut body);
        put_next(piece, i, &body, gate_behind(index, total));
    }
}

// Writes a piece of that group into the half at that place.
fn write_piece<D: Disk, B: Bodies>(
    disk: &mut D,
    at: u64,
    head: &Body,
    bodies: &B,
    first: u32,
    records: u32,
    buffer: &mut [u8],
) -> Result<(), Failed>
    requires some { 0 < records }
    requires within { first + records ≤ length (B.bodies bodies.now) + 1 }
    requires few { length (B.bodies bodies.now) ≤ HALF_BODIES }
    requires buffer { RECORD_BYTES * records ≤ length buffer.old }
    requires region { at + HALF_BYTES ≤ D.size disk.old }
    ensures laid { OnOk result (D.observable → Laid at HALF_RECORDS first (D.seen disk.old) (head.now ∷ B.bodies bodies.now)
        → Laid at HALF_RECORDS (first + records) (D.seen disk.new) (head.now ∷ B.bodies bodies.now)) }
    ensures torn { D.observable → Torn (at + 1) (HALF_BYTES - 1) (D.seen disk.old) (D.seen disk.new) }
    ensures size { D.size disk.new ≡ D.size disk.old }
    ensures crash { Follows (Torn (at + 1) (HALF_BYTES - 1)) (D.may_leave disk.old) (D.may_leave disk.new) }
    ensures any_moment { LeavesOnly D.moment D.left_since disk.old disk.new
        (LeftByWrite (at + 1) (HALF_BYTES - 1) (D.may_leave disk.old)) }
    ensures cause { HasCause (D.faults disk.old) (D.faults disk.new) result }
    ensures run { D.came_to disk.old disk.new }
{
    let _size = disk.len();
    lay_out_list(head, bodies, first, records, buffer);
    let end = piece_bytes(records as usize, HALF_RECORDS - first);
    disk.write_at(at + RECORD_BYTES as u64 * first as u64 + 1, &buffer[..end])
}

/// Writes a Head and bodies as one group into the half at that place, but for its first gate, in pieces of the buffer, and syncs.
pub(crate) fn write_list<D: Disk, B: Bodies>(
    disk: &mut D,
    at: u64,
    head: &Body,
    bodies: &B,
    buffer: &mut [u8],
) -> Result<(), Failed>
    requires few { length (B.bodies bodies.now) ≤ HALF_BODIES }
    requires buffer { TURN_BYTES ≤ length buffer.old }
    requires region { at + HALF_BYTES ≤ D.size disk.old }
    ensures laid { OnOk result (D.observable
        → Laid at HALF_RECORDS (length (B.bodies bodies.now) + 1) (D.seen disk.new) (head.now ∷ B.bodies bodies.now)) }
    ensures durable { OnOk result (D.observable → Only (D.seen disk.new) (D.may_leave disk.new)) }
    ensures torn { D.observable → Torn (at + 1) (HALF_BYTES - 1) (D.seen disk.old) (D.seen disk.new) }
    ensures size { D.size disk.new ≡ D.size disk.old }
    ensures crash { Follows (Torn (at + 1) (HALF_BYTES - 1)) (D.may_leave disk.old) (D.may_leave disk.new) }
    ensures any_moment { LeavesOnly D.moment D.left_since disk.old disk.new
        (LeftByWrite (at + 1) (HALF_BYTES - 1) (D.may_leave disk.old)) }
    ensures cause { HasCause (D.faults disk.old) (D.faults disk.new) result }
    ensures run { D.came_to disk.old disk.new }
{
    let total = bodies.count() + 1;
    let mut first = 0;
    while first < total {
        let records = PIECE_RECORDS.min(total - first);
        write_piece(disk, at, head, bodies, first, records, buffer)?;
        first += records;
    }
    disk.sync()
}
