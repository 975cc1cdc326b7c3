//! The writes that clients have open.

use petal_base::{BlockNo, ClientId, Name, NoMemory, OPERATOR, Seq, SharedBlock};
use script_lines::Request;
use spec_machine::Write;
use std::alloc::Global;

/// A client: how many requests it has called, and its write that is not answered.
#[derive(Drop)]
struct Writer {
    called: Seq,
    open: Option<Write>,
}

/// All clients, by number.
#[derive(Drop)]
pub struct Writers {
    writers: Vec<Writer>,
}

/// The client's write that a request asks for.
fn write_by(
    alloc: Global,
    client: ClientId,
    seq: Seq,
    request: &Request,
) -> Result<Option<Write>, NoMemory> {
    let Request::Write {
        name,
        block,
        pattern,
    } = request
    else {
        return Ok(None);
    };
    Ok(Some(Write {
        client,
        seq,
        disk: name.copy(),
        block: *block,
        bytes: SharedBlock::new(alloc, pattern.block(alloc)?)?,
    }))
}

/// The same write again.
pub fn copy_write(write: &Write) -> Result<Write, NoMemory> {
    Ok(Write {
        client: write.client,
        seq: write.seq,
        disk: write.disk.copy(),
        block: write.block,
        bytes: write.bytes.share()?,
    })
}

impl Writers {
    /// Nobody has called.
    pub fn new(alloc: Global) -> Result<Writers, NoMemory> {
        let mut writers = Vec::new(alloc);
        for _ in 0..=OPERATOR {
            writers.push(Writer {
                called: 0,
                open: None,
            })?;
        }
        Ok(Writers { writers })
    }

    /// A client calls a request. Gives the write that begins.
    pub fn call(
        &mut self,
        alloc: Global,
        client: ClientId,
        request: &Request,
    ) -> Result<Option<Write>, NoMemory> {
        let Some(writer) = self.writers.get_mut(client as usize) else {
            return Ok(None);
        };
        writer.called = writer.called.saturating_add(1);
        writer.open = write_by(alloc, client, writer.called, request)?;
        match &writer.open {
            Some(write) => Ok(Some(copy_write(write)?)),
            None => Ok(None),
        }
    }

    /// The client's open write.
    pub fn of(&self, client: ClientId) -> Option<&Write> {
        self.writers.get(client as usize)?.open.as_ref()
    }

    /// The open write that gives the disk's block these bytes: of several, that of the least client.
    pub fn giving(
        &self,
        disk: &Name,
        block: BlockNo,
        bytes: &SharedBlock,
    ) -> Result<Option<Write>, NoMemory> {
        for writer in &self.writers {
            if let Some(write) = &writer.open {
                if write.disk == *disk && write.block == block && write.bytes == *bytes {
                    return Ok(Some(copy_write(write)?));
                }
            }
        }
        Ok(None)
    }

    /// The client's open write, where it has this number.
    pub fn numbered(&self, client: ClientId, seq: Seq) -> Result<Option<Write>, NoMemory> {
        match self.of(client) {
            Some(write) if write.seq == seq => Ok(Some(copy_write(write)?)),
            _ => Ok(None),
        }
    }

    /// The client's request is answered. Gives the write that ends.
    pub fn answer(&mut self, client: ClientId) -> Option<Write> {
        self.writers.get_mut(client as usize)?.open.take()
    }
}
