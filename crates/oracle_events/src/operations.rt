//! Operations of pairs of servers, as letters name them.

use crate::disks::Link;
use petal_base::{Cell, Key, NoMemory, Op, SharedBlock};
use petal_msg::{Actor, Body, Letter};
use spec_history::Record;
use std::alloc::Global;

/// An operation: its lead, its number there, and its cell.
#[derive(Clone, Copy, PartialEq, Eq)]
pub struct Operation {
    lead: Actor,
    number: Op,
    pub cell: Cell,
}

/// The operation of which a letter says that the second server has put its copy.
pub fn replicated_by(letter: &Letter) -> Option<Operation> {
    let Body::Replicated { op, cell } = &letter.body else {
        return None;
    };
    Some(Operation {
        lead: letter.to,
        number: *op,
        cell: *cell,
    })
}

/// Whether one of the records says that the second server has put its copy.
pub fn is_replicated_in(records: &[Record], operation: Operation) -> bool {
    records.iter().any(|record| says_it(record, operation))
}

fn says_it(record: &Record, operation: Operation) -> bool {
    record
        .sent
        .as_slice()
        .iter()
        .any(|letter| replicated_by(letter.get()) == Some(operation))
}

/// The key and the bytes that the operation's lead asks its second server to put.
pub fn entry_of(records: &[Record], operation: Operation) -> Option<(Key, &SharedBlock)> {
    for record in records {
        for letter in record.sent.as_slice() {
            if let Some(entry) = entry_asked(letter.get(), operation) {
                return Some(entry);
            }
        }
    }
    None
}

fn entry_asked(letter: &Letter, operation: Operation) -> Option<(Key, &SharedBlock)> {
    match &letter.body {
        Body::Replicate { key, bytes, .. } if asked_by(letter) == Some(operation) => {
            Some((*key, bytes))
        }
        _ => None,
    }
}

/// Whether one of the records brings the operation's lead this entry from the map that its disk leaves.
pub fn is_brought_in(records: &[Record], operation: Operation, entry: (Key, &SharedBlock)) -> bool {
    records
        .iter()
        .any(|record| brings(record, operation, entry))
}

fn brings(record: &Record, operation: Operation, entry: (Key, &SharedBlock)) -> bool {
    record
        .sent
        .as_slice()
        .iter()
        .any(|letter| is_entry(letter.get(), operation, entry))
}

fn is_entry(letter: &Letter, operation: Operation, entry: (Key, &SharedBlock)) -> bool {
    let (own, old) = entry;
    match &letter.body {
        Body::Fill { key, bytes } => letter.to == operation.lead && *key == own && *bytes == *old,
        _ => false,
    }
}

// The operation whose lead asks by this letter that its second server puts its copy.
fn asked_by(letter: &Letter) -> Option<Operation> {
    let Body::Replicate { op, key, .. } = &letter.body else {
        return None;
    };
    Some(Operation {
        lead: letter.from,
        number: *op,
        cell: key.cell(),
    })
}

// The operation of such a letter, where the link's primary leads it and its second server has not put its copy.
fn ahead_by(letter: &Letter, records: &[Record], link: &Link) -> Option<Operation> {
    let operation = asked_by(letter)?;
    if operation.lead == Actor::Server(link.primary)
        && link.has(operation.cell)
        && !is_replicated_in(records, operation)
    {
        Some(operation)
    } else {
        None
    }
}

/// The operations on the link that its primary has put, as these records tell, and its second server has not.
pub fn ahead_on(
    alloc: Global,
    records: &[Record],
    link: &Link,
) -> Result<Vec<Operation>, NoMemory> {
    let mut ahead: Vec<Operation> = Vec::new(alloc);
    for record in records {
        for letter in record.sent.as_slice() {
            match ahead_by(letter.get(), records, link) {
                Some(operation) if !ahead.contains(&operation) => ahead.push(operation)?,
                _ => {}
            }
        }
    }
    Ok(ahead)
}
