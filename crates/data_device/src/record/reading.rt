//! From bytes to the record that they spell. What is read is written once more and compared, so that bytes which spell
//! nothing are told by the comparison.

ghost use Rattle.std.specs.Prelude.{◌≡◌, ◌<◌, ℕ, Option, Some, length, IfSome};
ghost use Rattle.busy_marks.specs.declared.marks.MarkKind.{MarkKind};
ghost use Rattle.petal_base.specs.declared.cell.Cell.{Cell};
ghost use Rattle.petal_base.specs.declared.cell.Key.{Key};
ghost use Rattle.petal_base.specs.Limits.{client_limit};
ghost use Rattle.petal_base.specs.Origins.{Named};
ghost use Rattle.data_device.specs.Spelling.{spelling, HasSpelling};
ghost use Rattle.data_device.specs.declared.record.StoreRecord.{StoreRecord};
ghost use Rattle.data_device.specs.declared.record.StoreRecord.TheVariants.{Put, Drop, Mark, Unmark, Settled, Forget, Done};

use crate::record::writing::encode;
use crate::record::{RECORD_BYTES, StoreRecord};
use busy_marks::MarkKind;
use petal_base::{Cell, Key, OPERATOR, Origin};
use record_fields::{long_at, word_at};

/// The record that the bytes spell; None exactly where they spell none.
pub fn decode(bytes: &[u8]) -> Option<StoreRecord>
    ensures found { IfSome result (λ entry. HasSpelling entry × (bytes.now ≡ spelling entry)) }
    ensures only { (entry : StoreRecord) → HasSpelling entry → bytes.now ≡ spelling entry → result ≡ Some entry }
{
    if bytes.len() != RECORD_BYTES {
        return None;
    }
    let entry = read(bytes)?;
    if encode(&entry).as_slice() == bytes {
        Some(entry)
    } else {
        None
    }
}

/// The record, where the bytes spell one.
fn read(bytes: &[u8]) -> Option<StoreRecord>
    requires { length bytes.now ≡ 63 }
    ensures { (entry : StoreRecord) → HasSpelling entry → bytes.now ≡ spelling entry → result ≡ Some entry }
{
    match bytes[0] {
        1 => Some(read_put(bytes)),
        2 => Some(read_drop(bytes)),
        3 => Some(read_mark(bytes)),
        4 => Some(read_unmark(bytes)),
        5 => Some(StoreRecord::Settled),
        7 => Some(read_forget(bytes)),
        8 => read_done(bytes),
        _ => None,
    }
}

fn cell_at(bytes: &[u8]) -> Cell
    requires { length bytes.now ≡ 63 }
    ensures mark { (kind : MarkKind) (cell : Cell) → HasSpelling (Mark kind cell) → bytes.now ≡ spelling (Mark kind cell) → result ≡ cell }
    ensures unmark { (kind : MarkKind) (cell : Cell) → HasSpelling (Unmark kind cell) → bytes.now ≡ spelling (Unmark kind cell) → result ≡ cell }
{
    Cell {
        map: word_at(bytes, 1),
        block: long_at(bytes, 5),
    }
}

fn key_at(bytes: &[u8]) -> Key
    requires { length bytes.now ≡ 63 }
    ensures put { (key : Key) (version slot : ℕ) (origin : Option Named) → HasSpelling (Put key version slot origin)
        → bytes.now ≡ spelling (Put key version slot origin) → result ≡ key }
    ensures drop { (key : Key) → HasSpelling (Drop key) → bytes.now ≡ spelling (Drop key) → result ≡ key }
{
    Key {
        map: word_at(bytes, 1),
        block: long_at(bytes, 5),
        epoch: word_at(bytes, 13),
    }
}

fn kind_at(bytes: &[u8]) -> MarkKind
    requires { length bytes.now ≡ 63 }
    ensures mark { (kind : MarkKind) (cell : Cell) → bytes.now ≡ spelling (Mark kind cell) → result ≡ kind }
    ensures unmark { (kind : MarkKind) (cell : Cell) → bytes.now ≡ spelling (Unmark kind cell) → result ≡ kind }
{
    match bytes[29] {
        1 => MarkKind::Busy,
        _ => MarkKind::Stale,
    }
}

// The write of a client with this number; None where it is none of a script's.
fn origin_of(link: u8, client: u8, seq: u32) -> Option<Origin>
    ensures { client < client_limit → result ≡ Some (record { link = link; client = client; seq = seq }) }
{
    if client < OPERATOR {
        Some(Origin::new(link, client, seq))
    } else {
        None
    }
}

// The write that a put is for, if it is for one.
fn origin_at(bytes: &[u8]) -> Option<Origin>
    requires { length bytes.now ≡ 63 }
    ensures { (key : Key) (version slot : ℕ) (origin : Option Named) → HasSpelling (Put key version slot origin)
        → bytes.now ≡ spelling (Put key version slot origin) → result ≡ origin }
{
    if bytes[30] == 0 {
        return None;
    }
    origin_of(bytes[35], bytes[30] - 1, word_at(bytes, 31))
}

fn read_put(bytes: &[u8]) -> StoreRecord
    requires { length bytes.now ≡ 63 }
    ensures { (key : Key) (version slot : ℕ) (origin : Option Named) → HasSpelling (Put key version slot origin)
        → bytes.now ≡ spelling (Put key version slot origin) → result ≡ Put key version slot origin }
{
    StoreRecord::Put {
        key: key_at(bytes),
        version: long_at(bytes, 17),
        slot: word_at(bytes, 25),
        origin: origin_at(bytes),
    }
}

fn read_drop(bytes: &[u8]) -> StoreRecord
    requires { length bytes.now ≡ 63 }
    ensures { (key : Key) → HasSpelling (Drop key) → bytes.now ≡ spelling (Drop key) → result ≡ Drop key }
{
    StoreRecord::Drop { key: key_at(bytes) }
}

fn read_mark(bytes: &[u8]) -> StoreRecord
    requires { length bytes.now ≡ 63 }
    ensures { (kind : MarkKind) (cell : Cell) → HasSpelling (Mark kind cell) → bytes.now ≡ spelling (Mark kind cell) → result ≡ Mark kind cell }
{
    StoreRecord::Mark {
        kind: kind_at(bytes),
        cell: cell_at(bytes),
    }
}

fn read_unmark(bytes: &[u8]) -> StoreRecord
    requires { length bytes.now ≡ 63 }
    ensures { (kind : MarkKind) (cell : Cell) → HasSpelling (Unmark kind cell) → bytes.now ≡ spelling (Unmark kind cell) → result ≡ Unmark kind cell }
{
    StoreRecord::Unmark {
        kind: kind_at(bytes),
        cell: cell_at(bytes),
    }
}

fn read_forget(bytes: &[u8]) -> StoreRecord
    requires { length bytes.now ≡ 63 }
    ensures { (map link : ℕ) → HasSpelling (Forget map link) → bytes.now ≡ spelling (Forget map link) → result ≡ Forget map link }
{
    StoreRecord::Forget {
        map: word_at(bytes, 1),
        link: bytes[5],
    }
}

fn read_done(bytes: &[u8]) -> Option<StoreRecord>
    requires { length bytes.now ≡ 63 }
    ensures { (map : ℕ) (origin : Named) → HasSpelling (Done map origin) → bytes.now ≡ spelling (Done map origin) → result ≡ Some (Done map origin) }
{
    Some(StoreRecord::Done {
        map: word_at(bytes, 1),
        origin: origin_of(bytes[5], bytes[6], word_at(bytes, 7))?,
    })
}
