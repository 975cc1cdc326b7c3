//! From a record to its spelling: one function for each kind.

ghost use Rattle.std.specs.Prelude.{◌≡◌, ◌++◌, replicate, IfSome};
ghost use Rattle.record_fields.specs.Fields.{byte, word, long, IsWord, IsLong};
ghost use Rattle.data_device.specs.Spelling.{spelling, origin_bytes, HasSpelling, IsOrigin, code_of};
ghost use Rattle.data_device.specs.declared.record.StoreRecord.TheVariants.{Put, Drop, Settled, Forget, Done};

use crate::record::{RECORD_BYTES, StoreRecord};
use busy_marks::MarkKind;
use petal_base::{Cell, Key, MapId, Origin, Version};
use record_fields::{put, put_byte, put_gap, put_long, put_word, put_zeros};

// How many bytes tell which write a put is for.
const ORIGIN_BYTES: usize = 6;

/// The bytes that spell the record.
pub fn encode(entry: &StoreRecord) -> [u8; RECORD_BYTES]
    ensures spelled { result ≡ spelling entry.now }
    ensures has_spelling { HasSpelling entry.now }
{
    match entry {
        StoreRecord::Put {
            key,
            version,
            slot,
            origin,
        } => spell_put(*key, *version, *slot, *origin),
        StoreRecord::Drop { key } => spell_drop(*key),
        StoreRecord::Mark { kind, cell } => spell_mark(3, *kind, *cell),
        StoreRecord::Unmark { kind, cell } => spell_mark(4, *kind, *cell),
        StoreRecord::Settled => spell_settled(),
        StoreRecord::Forget { map, link } => spell_forget(*map, *link),
        StoreRecord::Done { map, origin } => spell_done(*map, *origin),
    }
}

// Which write a put is for.
fn spell_origin(origin: Option<Origin>) -> [u8; ORIGIN_BYTES]
    ensures spelled { result ≡ origin_bytes origin }
    ensures fits { IfSome origin IsOrigin }
{
    let mut out = [0; ORIGIN_BYTES];
    if let Some(origin) = origin {
        put_byte(&mut out, 0, origin.client() + 1);
        put_word(&mut out, 1, origin.seq());
        put_byte(&mut out, 5, origin.link());
    }
    out
}

fn spell_put(key: Key, version: Version, slot: u32, origin: Option<Origin>) -> [u8; RECORD_BYTES]
    ensures spelled { result ≡ spelling (Put key version slot origin) }
    ensures has_spelling { HasSpelling (Put key version slot origin) }
{
    let mut out = [0; RECORD_BYTES];
    put_byte(&mut out, 0, 1);
    put_word(&mut out, 1, key.map);
    put_long(&mut out, 5, key.block);
    put_word(&mut out, 13, key.epoch);
    put_long(&mut out, 17, version);
    put_word(&mut out, 25, slot);
    put_byte(&mut out, 29, 0);
    put(&mut out, 30, &spell_origin(origin));
    put_zeros(&mut out, 36);
    out
}

fn spell_drop(key: Key) -> [u8; RECORD_BYTES]
    ensures spelled { result ≡ spelling (Drop key) }
    ensures has_spelling { HasSpelling (Drop key) }
{
    let mut out = [0; RECORD_BYTES];
    put_byte(&mut out, 0, 2);
    put_word(&mut out, 1, key.map);
    put_long(&mut out, 5, key.block);
    put_word(&mut out, 13, key.epoch);
    put_zeros(&mut out, 17);
    out
}

fn code_of(kind: MarkKind) -> u8
    ensures { result ≡ code_of kind }
{
    match kind {
        MarkKind::Busy => 1,
        MarkKind::Stale => 2,
    }
}

/// A record of this number about a mark.
fn spell_mark(number: u8, kind: MarkKind, cell: Cell) -> [u8; RECORD_BYTES]
    ensures spelled { result ≡ byte number ++ word cell.map ++ long cell.block ++ replicate 16 0 ++ byte (code_of kind) ++ replicate 33 0 }
    ensures fits { IsWord cell.map × IsLong cell.block }
{
    let mut out = [0; RECORD_BYTES];
    put_byte(&mut out, 0, number);
    put_word(&mut out, 1, cell.map);
    put_long(&mut out, 5, cell.block);
    put_gap(&mut out, 13, 16);
    put_byte(&mut out, 29, code_of(kind));
    put_zeros(&mut out, 30);
    out
}

fn spell_settled() -> [u8; RECORD_BYTES]
    ensures spelled { result ≡ spelling Settled }
    ensures has_spelling { HasSpelling Settled }
{
    let mut out = [0; RECORD_BYTES];
    put_byte(&mut out, 0, 5);
    put_zeros(&mut out, 1);
    out
}

fn spell_forget(map: MapId, link: u8) -> [u8; RECORD_BYTES]
    ensures spelled { result ≡ spelling (Forget map link) }
    ensures has_spelling { HasSpelling (Forget map link) }
{
    let mut out = [0; RECORD_BYTES];
    put_byte(&mut out, 0, 7);
    put_word(&mut out, 1, map);
    put_byte(&mut out, 5, link);
    put_zeros(&mut out, 6);
    out
}

fn spell_done(map: MapId, origin: Origin) -> [u8; RECORD_BYTES]
    ensures spelled { result ≡ spelling (Done map origin) }
    ensures has_spelling { HasSpelling (Done map origin) }
{
    let mut out = [0; RECORD_BYTES];
    put_byte(&mut out, 0, 8);
    put_word(&mut out, 1, map);
    put_byte(&mut out, 5, origin.link());
    put_byte(&mut out, 6, origin.client());
    put_word(&mut out, 7, origin.seq());
    put_zeros(&mut out, 11);
    out
}
