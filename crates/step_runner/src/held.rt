//! What a server has, as a copy of it tells.

use petal_base::{BlockNo, NoMemory, ServerId};
use petal_world::Host;
use script_lines::Script;
use std::alloc::Global;
use step_language::Holding;
use world_probe::{Copy, Run, holds, is_marked_so, stores};

/// Servers that begin.
pub trait FirstHosts<H: Host> {
    /// The script's server of this number.
    fn first(&self, alloc: Global, script: &Script, server: ServerId) -> Result<H, NoMemory>;
}

fn blocks_of(alloc: Global, words: &[&str]) -> Result<Vec<BlockNo>, NoMemory> {
    let mut blocks = Vec::new(alloc);
    for word in words {
        if let Ok(block) = word.parse::<BlockNo>() {
            blocks.push(block)?;
        }
    }
    Ok(blocks)
}

fn copy_of<H: Host, C: FirstHosts<H>>(
    alloc: Global,
    hosts: &C,
    run: &Run<H>,
    server: ServerId,
) -> Result<Copy<H>, NoMemory> {
    let host = hosts.first(alloc, run.script(), server)?;
    Copy::new(alloc, host, server, run.script().servers, run.records())
}

/// Whether the server has this.
pub fn is_held<H: Host, C: FirstHosts<H>>(
    alloc: Global,
    hosts: &C,
    run: &Run<H>,
    server: ServerId,
    held: &Holding,
) -> Result<bool, NoMemory> {
    let mut copy = copy_of(alloc, hosts, run, server)?;
    match held {
        Holding::Fill(cell, fill) => holds(alloc, &mut copy, *cell, *fill),
        Holding::Marks(map, blocks) => {
            let blocks = blocks_of(alloc, blocks)?;
            is_marked_so(alloc, &mut copy, *map, &blocks)
        }
        Holding::Entries(entries) => stores(alloc, &mut copy, run.script().slots, *entries),
    }
}
