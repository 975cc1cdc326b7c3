//! What servers have put, as it can be looked up.

use petal_base::{Cell, NoMemory, ServerId, SharedBlock};
use petal_msg::Actor;
use script_lines::Script;
use spec_history::Record;
use spec_rules::Step;
use std::alloc::Global;

/// Servers that can be looked into.
pub trait Stores {
    /// What the script's server has put last of the cell, once it has taken its steps of these records; None where it does not say.
    fn held(
        &self,
        alloc: Global,
        script: &Script,
        server: ServerId,
        records: &[Record],
        cell: Cell,
    ) -> Result<Option<SharedBlock>, NoMemory>;
}

/// When a server is looked into that may have put a write: that is slow.
#[derive(Clone, Copy, Debug, PartialEq, Eq)]
pub enum Looks {
    /// As it stops. What it has put on a link that it serves alone takes effect then, or with the letter that ends the write: nobody
    /// reads the block before.
    AtStops,
    /// After each of its jobs, too, so that each write takes effect in the step of its put.
    AfterJobs,
}

fn blanks(record: &Record, server: ServerId) -> bool {
    match &record.step {
        Step::Blank => record.actor == Actor::Server(server),
        _ => false,
    }
}

/// Those of these records after which the server's store is the one that counts, where it last joined with nothing in the record of this
/// number: from its next blank until it joins again, that is the one before the blank.
pub fn counted(records: &[Record], server: ServerId, emptied: usize) -> &[Record] {
    for at in emptied..records.len() {
        if blanks(&records[at], server) {
            return &records[..at];
        }
    }
    records
}
