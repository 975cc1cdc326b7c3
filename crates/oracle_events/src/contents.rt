//! What stands in the blocks of disks, as it is told: a put is told where it changes that.

use petal_base::{BlockNo, Name, NoMemory, SharedBlock};
use spec_machine::Write;
use std::alloc::Global;

/// What stands in a block of a disk.
#[derive(Drop)]
struct Content {
    disk: Name,
    block: BlockNo,
    bytes: SharedBlock,
}

/// The blocks that were written; all others are zeros.
#[derive(Drop)]
pub struct Contents {
    contents: Vec<Content>,
}

impl Content {
    fn is_of(&self, write: &Write) -> bool {
        self.disk == write.disk && self.block == write.block
    }
}

impl Contents {
    /// No block was written.
    pub fn new(alloc: Global) -> Contents {
        Contents {
            contents: Vec::new(alloc),
        }
    }

    /// Whether the write's bytes stand in its block.
    pub fn has(&self, write: &Write) -> bool {
        match self.contents.iter().find(|own| own.is_of(write)) {
            Some(own) => own.bytes == write.bytes,
            None => is_zero(&write.bytes),
        }
    }

    /// The write's bytes stand in its block from now on.
    pub fn put(&mut self, write: &Write) -> Result<(), NoMemory> {
        let bytes = write.bytes.share()?;
        if let Some(own) = self.contents.iter_mut().find(|own| own.is_of(write)) {
            own.bytes = bytes;
            return Ok(());
        }
        self.contents.push(Content {
            disk: write.disk.copy(),
            block: write.block,
            bytes,
        })?;
        Ok(())
    }
}

/// Whether all bytes are zero.
fn is_zero(bytes: &SharedBlock) -> bool {
    bytes.bytes().iter().all(|byte| *byte == 0)
}
