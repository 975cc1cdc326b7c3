//! Blocks that are in memory already.

ghost use Rattle.std.specs.Prelude.{◌≡◌, []};

use petal_base::{Cell, Sequence, SharedBlock};
use petal_msg::{Body, Letter};
use petal_table::Table;
use spec_rules::Job;
use std::alloc::Global;

/// For each cell the block that was last written, read or copied, so that a read or a copy of an unchanged block sends a share
/// of it in place of the bytes that the device gave. It changes no answer: what the device gave is compared.
#[derive(Drop)]
pub struct RecentBlocks {
    blocks: Table<Cell, SharedBlock>,
}

impl RecentBlocks {
    /// No block. It takes no memory.
    pub fn new(alloc: Global) -> RecentBlocks {
        RecentBlocks {
            blocks: Table::new(alloc),
        }
    }

    /// Keeps a block, where there is memory.
    fn keep(&mut self, cell: Cell, bytes: &SharedBlock) {
        if let Ok(own) = bytes.share() {
            let _ = self.blocks.put(cell, own);
        }
    }

    /// The block that is kept takes the place of an equal one.
    fn reuse(&mut self, cell: Cell, bytes: &mut SharedBlock)
        ensures { bytes.new ≡ bytes.old }
    {
        if let Some(known) = self.blocks.get(&cell) {
            if *known == *bytes {
                if let Ok(own) = known.share() {
                    *bytes = own;
                }
                return;
            }
        }
        self.keep(cell, bytes);
    }

    fn reuse_in(&mut self, cell: Cell, letter: &mut Letter)
        ensures { letter.new ≡ letter.old }
    {
        match &mut letter.body {
            Body::Data { bytes, .. } => self.reuse(cell, bytes),
            Body::Sync { bytes, .. } => self.reuse(cell, bytes),
            _ => {}
        }
    }

    fn reuse_in_reply(&mut self, cell: Cell, letters: Sequence<Letter>) -> Sequence<Letter>
        ensures { result ≡ letters }
    {
        let mut letters = letters.into_vec();
        if let Some(letter) = letters.first_mut() {
            self.reuse_in(cell, letter);
        }
        Sequence::of(letters)
    }

    /// The letters that a job sent, with kept blocks in the place of equal ones; a block that the job brought is kept.
    pub fn after(&mut self, job: &Job, letters: Sequence<Letter>) -> Sequence<Letter>
        ensures { result ≡ letters }
    {
        let Job::Letter(letter) = job else {
            return letters;
        };
        match &letter.get().body {
            Body::Read { cell, .. } | Body::Trimmed { cell, .. } | Body::Synced { cell, .. } => {
                return self.reuse_in_reply(*cell, letters);
            }
            Body::Write { cell, bytes, .. } => self.keep(*cell, bytes),
            Body::Replicate { key, bytes, .. } => self.keep(key.cell(), bytes),
            Body::Sync { key, bytes, .. } => self.keep(key.cell(), bytes),
            Body::Fill { key, bytes } => self.keep(key.cell(), bytes),
            _ => {}
        }
        letters
    }
}
