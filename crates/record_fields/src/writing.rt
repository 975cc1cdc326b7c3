//! Writing fields, each after what is written already.

ghost use Rattle.std.specs.Prelude.{◌≡◌, ◌+◌, ◌-◌, ◌≤◌, ◌<◌, ◌++◌, length, take, replicate};
ghost use Rattle.record_fields.specs.Fields.{byte, word, long, flag, padded};

use byteorder::{BigEndian, ByteOrder};

/// Writes these bytes.
pub fn put(out: &mut [u8], at: usize, bytes: &[u8])
    requires { at + length bytes.now ≤ length out.old }
    ensures { take (at + length bytes.now) out.new ≡ take at out.old ++ bytes.now }
{
    out[at..at + bytes.len()].copy_from_slice(bytes);
}

/// Writes a number of one byte.
pub fn put_byte(out: &mut [u8], at: usize, n: u8)
    requires { at + 1 ≤ length out.old }
    ensures { take (at + 1) out.new ≡ take at out.old ++ byte n }
{
    put(out, at, &[n]);
}

/// Writes a number of four bytes.
pub fn put_word(out: &mut [u8], at: usize, n: u32)
    requires { at + 4 ≤ length out.old }
    ensures { take (at + 4) out.new ≡ take at out.old ++ word n }
{
    let mut bytes = [0; 4];
    BigEndian::write_u32(&mut bytes, n);
    put(out, at, &bytes);
}

/// Writes a number of eight bytes.
pub fn put_long(out: &mut [u8], at: usize, n: u64)
    requires { at + 8 ≤ length out.old }
    ensures { take (at + 8) out.new ≡ take at out.old ++ long n }
{
    let mut bytes = [0; 8];
    BigEndian::write_u64(&mut bytes, n);
    put(out, at, &bytes);
}

/// Writes 0 for no and 1 for yes.
pub fn put_flag(out: &mut [u8], at: usize, b: bool)
    requires { at + 1 ≤ length out.old }
    ensures { take (at + 1) out.new ≡ take at out.old ++ flag b }
{
    put_byte(out, at, if b { 1 } else { 0 });
}

/// Writes so many zeros.
pub fn put_gap(out: &mut [u8], at: usize, count: usize)
    requires { at + count ≤ length out.old }
    ensures { take (at + count) out.new ≡ take at out.old ++ replicate count 0 }
{
    out[at..at + count].fill(0);
}

/// Writes zeros up to the end.
pub fn put_zeros(out: &mut [u8], at: usize)
    requires { at ≤ length out.old }
    ensures { out.new ≡ take at out.old ++ replicate (length out.old - at) 0 }
{
    out[at..].fill(0);
}

/// Writes a list of at most `room` bytes.
pub fn put_padded(out: &mut [u8], at: usize, room: usize, bytes: &[u8])
    requires fits { length bytes.now ≤ room }
    requires byte { room < 256 }
    requires room { at + 1 + room ≤ length out.old }
    ensures { take (at + 1 + room) out.new ≡ take at out.old ++ padded room bytes.now }
{
    put_byte(out, at, bytes.len() as u8);
    put(out, at + 1, bytes);
    put_gap(out, at + 1 + bytes.len(), room - bytes.len());
}
