//! The Head of a half: its bytes, its generation, and which of two halves is the later one.

ghost use Rattle.std.specs.Prelude.{◌≡◌, ◌+◌, ◌≤◌, length, ℕ, OnOk, IfOk, IfSome, Some};
ghost use Rattle.petal_disk.specs.Disk.{LeavesOnly, Only};
ghost use Rattle.petal_disk.specs.Keeping.{KeepsDevice};
ghost use Rattle.device_faults.specs.Faults.{HasCause};
ghost use Rattle.block_journal.specs.Halves.{HeadCounts, head_body, next_generation, first_is_later};
ghost use Rattle.block_journal.specs.Heads.{GateIs, GenerationIs, IsFound, later_of};

use crate::gate::OPEN;
use crate::half::{BODY_BYTES, Body, HALF_BYTES, HALVES_BYTES, Half, RECORD_BYTES};
use petal_disk::{Disk, Failed};
use record_fields::{long_at, put_byte, put_long, put_zeros};

// The kind of a Head.
const HEAD: u8 = 6;

/// The body of a Head.
#[tactic(auto, using(crate::proofs::Rows::head_of_one))]
pub(crate) fn head_body(generation: u64) -> Body
    ensures { result ≡ head_body generation }
{
    let mut out = [0; BODY_BYTES];
    put_byte(&mut out, 0, HEAD);
    put_long(&mut out, 1, generation);
    put_zeros(&mut out, 9);
    out
}

/// One greater, and 0 behind the greatest.
pub(crate) fn next_generation(generation: u64) -> u64
    ensures { result ≡ next_generation generation }
{
    if generation == 18_446_744_073_709_551_615 {
        0
    } else {
        generation + 1
    }
}

/// Whether the first half is the later one of two whose Heads count.
pub(crate) fn first_is_later(first: u64, second: u64) -> bool
    ensures { result ≡ first_is_later first second }
{
    match (
        next_generation(second) == first,
        next_generation(first) == second,
    ) {
        (true, false) => true,
        (false, true) => false,
        _ => second <= first,
    }
}

// The generation of a Head that counts.
fn generation_of(bytes: &[u8]) -> Option<u64>
    requires { length bytes.now ≡ RECORD_BYTES }
    ensures found { IfSome result (λ generation. HeadCounts 0 generation bytes.now) }
    ensures only { (generation : ℕ) → HeadCounts 0 generation bytes.now → result ≡ Some generation }
{
    let generation = long_at(bytes, 2);
    if bytes[0] == OPEN && head_body(generation).as_slice() == &bytes[1..] {
        Some(generation)
    } else {
        None
    }
}

/// What is found of a Head: whether its gate is open, and its generation where it counts.
#[derive(Clone, Copy, Debug, PartialEq, Eq)]
pub(crate) struct Head {
    pub is_open: bool,
    pub generation: Option<u64>,
}

/// Reads the Head there.
pub(crate) fn read_head<D: Disk>(disk: &mut D, at: u64) -> Result<Head, Failed>
    requires { at + RECORD_BYTES ≤ D.size disk.old }
    ensures gate { IfOk result (λ head. D.observable → GateIs head.is_open at (D.seen disk.old)) }
    ensures generation { IfOk result (λ head. D.observable → GenerationIs head.generation at (D.seen disk.old)) }
    ensures device { KeepsDevice D.size D.seen D.may_leave D.moment D.left_since disk.old disk.new }
    ensures cause { HasCause (D.faults disk.old) (D.faults disk.new) result }
    ensures run { D.came_to disk.old disk.new }
{
    let mut bytes = [0; RECORD_BYTES];
    disk.read(at, &mut bytes)?;
    Ok(Head {
        is_open: bytes[0] == OPEN,
        generation: generation_of(&bytes),
    })
}

/// The later half: which it is, its generation, and whether the gate of the other Head is open.
#[derive(Clone, Copy, Debug, PartialEq, Eq)]
pub(crate) struct Later {
    pub half: Half,
    pub generation: u64,
    pub idle_open: bool,
}

fn first_half(generation: u64, idle_open: bool) -> Later
    ensures { result ≡ record { half = Half.First; generation = generation; idle_open = idle_open } }
{
    Later {
        half: Half::First,
        generation,
        idle_open,
    }
}

fn second_half(generation: u64, idle_open: bool) -> Later
    ensures { result ≡ record { half = Half.Second; generation = generation; idle_open = idle_open } }
{
    Later {
        half: Half::Second,
        generation,
        idle_open,
    }
}

// The later half among those whose Head counts.
fn later_of(first: Head, second: Head) -> Option<Later>
    ensures { result ≡ later_of first.generation second.generation first.is_open second.is_open }
{
    match (first.generation, second.generation) {
        (None, None) => None,
        (Some(generation), None) => Some(first_half(generation, second.is_open)),
        (None, Some(generation)) => Some(second_half(generation, first.is_open)),
        (Some(one), Some(other)) => {
            if first_is_later(one, other) {
                Some(first_half(one, second.is_open))
            } else {
                Some(second_half(other, first.is_open))
            }
        }
    }
}

/// Finds the later half among those whose Head counts, after a sync: then a crash leaves what a read gives.
pub(crate) fn find_later<D: Disk>(disk: &mut D, base: u64) -> Result<Option<Later>, Failed>
    requires { base + HALVES_BYTES ≤ D.size disk.old }
    ensures found { IfOk result (λ later. D.observable → IsFound later base (D.seen disk.old)) }
    ensures durable { OnOk result (D.observable → Only (D.seen disk.new) (D.may_leave disk.new)) }
    ensures device { KeepsDevice D.size D.seen D.may_leave D.moment D.left_since disk.old disk.new }
    ensures any_moment { LeavesOnly D.moment D.left_since disk.old disk.new (D.may_leave disk.old) }
    ensures cause { HasCause (D.faults disk.old) (D.faults disk.new) result }
    ensures run { D.came_to disk.old disk.new }
{
    let _size = disk.len();
    disk.sync()?;
    let first = read_head(disk, base)?;
    let second = read_head(disk, base + HALF_BYTES)?;
    Ok(later_of(first, second))
}
