//! Other letters in a letter's place.

use petal_base::{NoMemory, SharedBlock, Stamp};
use petal_msg::{Body, Letter, SharedLetter};
use std::alloc::Global;

/// A letter of the same way, with this stamp and this content.
fn like(
    alloc: Global,
    letter: &Letter,
    stamp: Stamp,
    body: Body,
) -> Result<SharedLetter, NoMemory> {
    let other = Letter {
        from: letter.from,
        inc: letter.inc,
        to: letter.to,
        rev: letter.rev,
        stamp,
        nth: letter.nth,
        body,
    };
    SharedLetter::new(alloc, other)
}

/// The write under another name. Any other letter stays as it is, so that a case that expects a refusal of it fails.
pub fn renamed(alloc: Global, letter: &SharedLetter) -> Result<SharedLetter, NoMemory> {
    let sent = letter.get();
    match &sent.body {
        Body::Write {
            client,
            seq,
            cell,
            epoch,
            bytes,
        } => {
            let body = Body::Write {
                client: *client,
                seq: *seq,
                cell: *cell,
                epoch: *epoch,
                bytes: bytes.share()?,
            };
            like(alloc, sent, sent.stamp.saturating_add(1), body)
        }
        _ => Ok(letter.share()?),
    }
}

/// The letter with another content.
pub fn changed(alloc: Global, letter: &SharedLetter) -> Result<SharedLetter, NoMemory> {
    let sent = letter.get();
    like(alloc, sent, sent.stamp, Body::Written { seq: 1 })
}

/// The block that a letter brings.
fn block_of(body: &Body) -> Option<&SharedBlock> {
    match body {
        Body::Write { bytes, .. }
        | Body::Replicate { bytes, .. }
        | Body::Sync { bytes, .. }
        | Body::Fill { bytes, .. }
        | Body::Data { bytes, .. } => Some(bytes),
        _ => None,
    }
}

/// How many owners the block has that a letter brings.
pub fn owners_of(body: &Body) -> usize {
    match block_of(body) {
        Some(bytes) => bytes.owners(),
        None => 0,
    }
}
