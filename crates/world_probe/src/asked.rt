//! What the copy is asked.

use crate::copy::Copy;
use crate::log::{LATER, Serving};
use petal_base::{Block, BlockNo, Cell, Epoch, MapId, NoMemory, Seq, SharedBlock};
use petal_msg::{Actor, Body};
use petal_world::Host;
use std::alloc::Global;

/// The links of a map.
const LINKS: u8 = 8;

/// No run has more maps.
const MAPS: MapId = 8;

/// The first block that is put to find out how many slots are free; no run names it.
const UNUSED: BlockNo = 1_000;

/// So many blocks are put at most.
const MOST_BLOCKS: u32 = 128;

/// The bytes that a letter brings.
fn bytes_in(said: &[Body]) -> Option<&SharedBlock> {
    for body in said {
        if let Body::Data { bytes, .. } = body {
            return Some(bytes);
        }
    }
    None
}

/// What the server's entry of the greatest epoch gives the cell; no entry is zeros. None where it does not say. Of a copy that has not
/// been told of a log yet.
pub fn held<H: Host>(
    alloc: Global,
    copy: &mut Copy<H>,
    cell: Cell,
) -> Result<Option<SharedBlock>, NoMemory> {
    copy.told(alloc, cell.map, Serving::Own)?;
    let read = Body::Read {
        client: 0,
        seq: 1,
        cell,
        epoch: Epoch::MAX,
    };
    let said = copy.hear(alloc, Actor::Client(0), 0, read)?;
    match bytes_in(&said) {
        Some(bytes) => Ok(Some(bytes.share()?)),
        None => Ok(None),
    }
}

/// Whether that is this byte throughout.
pub fn holds<H: Host>(
    alloc: Global,
    copy: &mut Copy<H>,
    cell: Cell,
    fill: u8,
) -> Result<bool, NoMemory> {
    match held(alloc, copy, cell)? {
        Some(bytes) => Ok(bytes.bytes().iter().all(|byte| *byte == fill)),
        None => Ok(false),
    }
}

fn block_in(said: &[Body]) -> Option<BlockNo> {
    for body in said {
        if let Body::Hello { block, .. } = body {
            return *block;
        }
    }
    None
}

impl<H: Host> Copy<H> {
    // Its least marked block of the link above this one. Whoever asks, the link's holder is told.
    fn page(
        &mut self,
        alloc: Global,
        map: MapId,
        link: u8,
        after: Option<BlockNo>,
    ) -> Result<Option<BlockNo>, NoMemory> {
        let asker = Actor::Server(self.other());
        let said = self.hear(alloc, asker, LATER, Body::HelloAsk { map, link, after })?;
        Ok(block_in(&said))
    }

    // Its marked blocks of the link.
    fn pages(
        &mut self,
        alloc: Global,
        map: MapId,
        link: u8,
        marked: &mut Vec<BlockNo>,
    ) -> Result<(), NoMemory> {
        let mut after = None;
        for _ in 0..MOST_BLOCKS {
            after = self.page(alloc, map, link, after)?;
            match after {
                Some(block) => marked.push(block)?,
                None => return Ok(()),
            }
        }
        Ok(())
    }

    fn all_pages(&mut self, alloc: Global, map: MapId) -> Result<Vec<BlockNo>, NoMemory> {
        let mut marked = Vec::new(alloc);
        for link in 0..LINKS {
            self.pages(alloc, map, link, &mut marked)?;
        }
        Ok(marked)
    }

    // Whether the copy has a slot for a block that nobody has.
    fn puts(&mut self, alloc: Global, cell: Cell, seq: Seq) -> Result<bool, NoMemory> {
        let write = Body::Write {
            client: 1,
            seq,
            cell,
            epoch: 0,
            bytes: SharedBlock::new(alloc, Block::zero(alloc)?)?,
        };
        let said = self.hear(alloc, Actor::Client(1), 0, write)?;
        Ok(said.iter().any(|body| is_written(body)))
    }

    // How many slots are free, of which none is afterwards.
    fn fills(&mut self, alloc: Global) -> Result<u32, NoMemory> {
        let mut free: u32 = 0;
        for map in 0..MAPS {
            for at in 0..MOST_BLOCKS {
                let block = UNUSED.saturating_add(u64::from(at) * 2);
                let seq = free.saturating_add(1);
                if !self.puts(alloc, Cell { map, block }, seq)? {
                    break;
                }
                free = seq;
            }
        }
        Ok(free)
    }
}

fn is_written(body: &Body) -> bool {
    match body {
        Body::Written { .. } => true,
        _ => false,
    }
}

/// Whether these are the map's blocks that are marked at the server, in any order. Of a copy that has not been told of a log yet.
pub fn is_marked_so<H: Host>(
    alloc: Global,
    copy: &mut Copy<H>,
    map: MapId,
    blocks: &[BlockNo],
) -> Result<bool, NoMemory> {
    copy.told(alloc, map, Serving::Others)?;
    let marked = copy.all_pages(alloc, map)?;
    Ok(marked.len() == blocks.len() && blocks.iter().all(|block| marked.contains(block)))
}

/// Whether the server has so many entries in all, where it has so many slots. Of a copy that has not been told of a log yet.
pub fn stores<H: Host>(
    alloc: Global,
    copy: &mut Copy<H>,
    slots: u32,
    entries: u32,
) -> Result<bool, NoMemory> {
    copy.told(alloc, 0, Serving::Own)?;
    Ok(copy.fills(alloc)?.saturating_add(entries) == slots)
}
