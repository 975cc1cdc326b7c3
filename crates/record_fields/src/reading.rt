//! Reading fields. Each reader is total, and says what it gives for a right spelling.

ghost use Rattle.std.specs.Prelude.{◌≡◌, ℕ, List, ◌+◌, ◌≤◌, ◌<◌, ◌^◌, ◌++◌, length, drop, Bool};
ghost use Rattle.record_fields.specs.Fields.{word, long, flag, padded};

use byteorder::{BigEndian, ByteOrder};

/// The number of four bytes at a place.
pub fn word_at(bytes: &[u8], at: usize) -> u32
    requires { at + 4 ≤ length bytes.now }
    ensures { (n : ℕ) (rest : List ℕ) → n < 2 ^ 32 → drop at bytes.now ≡ word n ++ rest → result ≡ n }
{
    BigEndian::read_u32(&bytes[at..])
}

/// The number of eight bytes at a place.
pub fn long_at(bytes: &[u8], at: usize) -> u64
    requires { at + 8 ≤ length bytes.now }
    ensures { (n : ℕ) (rest : List ℕ) → n < 2 ^ 64 → drop at bytes.now ≡ long n ++ rest → result ≡ n }
{
    BigEndian::read_u64(&bytes[at..])
}

/// Whether the byte at a place is 1.
pub fn flag_at(bytes: &[u8], at: usize) -> bool
    requires { at < length bytes.now }
    ensures { (b : Bool) (rest : List ℕ) → drop at bytes.now ≡ flag b ++ rest → result ≡ b }
{
    bytes[at] == 1
}

/// The list of at most `room` bytes at a place.
pub fn padded_at(bytes: &[u8], at: usize, room: usize) -> &[u8]
    requires { at + 1 + room ≤ length bytes.now }
    ensures { (xs rest : List ℕ) → length xs ≤ room → drop at bytes.now ≡ padded room xs ++ rest → result.now ≡ xs }
{
    let len = room.min(bytes[at] as usize);
    &bytes[at + 1..at + 1 + len]
}
