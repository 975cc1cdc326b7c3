//! Which records may put a write, and which servers were asked to.

use petal_base::ServerId;
use petal_msg::{Actor, Body, Letter};
use spec_history::Record;
use spec_machine::Write;
use spec_rules::{Step, WorkEnd};

/// The server that does a job in the record and goes on.
pub fn worked_in(record: &Record) -> Option<ServerId> {
    match (record.actor, &record.step) {
        (Actor::Server(server), Step::Work(WorkEnd::Done)) => Some(server),
        _ => None,
    }
}

/// The server that stops in the record: by itself, or in a job by a plan or since a device failed.
pub fn stopped_in(record: &Record) -> Option<ServerId> {
    match (record.actor, &record.step) {
        (Actor::Server(server), Step::Stop | Step::StopIn(_) | Step::Work(WorkEnd::Fault(_))) =>
            Some(server),
        _ => None,
    }
}

// Whether the letter asks a server to put the write's bytes.
fn asks_for(letter: &Letter, write: &Write) -> bool {
    match &letter.body {
        Body::Write { client, seq, .. } => *client == write.client && *seq == write.seq,
        Body::Replicate { key, bytes, .. } => key.block == write.block && *bytes == write.bytes,
        _ => false,
    }
}

fn is_asked_in(record: &Record, server: ServerId, write: &Write) -> bool {
    match &record.step {
        Step::Deliver { letter } => {
            record.actor == Actor::Server(server) && asks_for(letter.get(), write)
        }
        _ => false,
    }
}

/// Whether the server was asked in these records to put the write's bytes.
pub fn is_asked(records: &[Record], server: ServerId, write: &Write) -> bool {
    records
        .iter()
        .any(|record| is_asked_in(record, server, write))
}
