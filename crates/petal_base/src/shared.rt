//! A block with several owners.

ghost use Rattle.std.specs.Prelude.{◌≡◌, List, ℕ, length, IfOk};
ghost use Rattle.std.specs.Arc.{arc_value};
ghost use Rattle.petal_base.specs.Block.{IsBlock};

use crate::{Block, NoMemory};
use std::alloc::{AllocError, Global};
use std::marker::Model;
use std::sync::Arc;

/// A block that letters, operations and answers share, so that no byte is copied on the way. Contracts see the list of
/// its bytes.
#[derive(Drop)]
pub struct SharedBlock {
    block: Arc<Block>,
}

impl Model for SharedBlock {
    ghost use Rattle.std.specs.Prelude.{List, ℕ};
    ghost use Rattle.std.specs.Arc.{arc_value};

    ghost Value = { List ℕ };

    ghost view = { λ s. arc_value s.block };
}

impl SharedBlock {
    /// The first owner of a block.
    pub fn new(alloc: Global, block: Block) -> Result<SharedBlock, NoMemory>
        ensures { IfOk result (λ shared. shared ≡ block) }
    {
        Ok(SharedBlock {
            block: Arc::new(alloc, block)?,
        })
    }

    /// The block itself.
    pub fn block(&self) -> &Block
        ensures { result.now ≡ self.now }
    {
        &self.block
    }

    /// All its bytes.
    pub fn bytes(&self) -> &[u8]
        ensures value { result.now ≡ self.now }
        ensures whole { IsBlock self.now }
    {
        self.block.bytes()
    }

    /// How many owners the block has at this moment. No clause can speak of it, and only tests ask.
    pub fn owners(&self) -> usize {
        Arc::strong_count(&self.block)
    }

    /// One owner more.
    pub fn share(&self) -> Result<SharedBlock, NoMemory>
        ensures { IfOk result (λ other. other ≡ self.now) }
    {
        Ok(SharedBlock {
            block: Arc::try_clone(&self.block)?,
        })
    }
}

impl PartialEq for SharedBlock {
    ghost use Rattle.std.specs.Prelude.{nat_eq};
    ghost use Rattle.std.specs.Cmp.{partial_equiv_from_equiv};
    ghost use Rattle.std.specs.Cmp.Lexicographic.{pointwise, nat_list_eq_equiv};

    ghost eq = { pointwise nat_eq };

    ghost laws = { partial_equiv_from_equiv nat_list_eq_equiv };

    fn eq(&self, other: &Self) -> bool {
        self.block() == other.block()
    }
}

impl Eq for SharedBlock {
    ghost use Rattle.std.specs.Cmp.Lexicographic.{nat_list_eq_equiv};

    ghost laws = { nat_list_eq_equiv };
}

impl Clone for SharedBlock {
    ghost use Rattle.std.specs.Prelude.{◌≡◌};

    ghost is_clone = { λ x y. y ≡ x };

    fn clone(&self) -> Result<Self, AllocError> {
        Ok(SharedBlock {
            block: Arc::try_clone(&self.block)?,
        })
    }
}

// The check proves here that a shared block may cross from thread to thread.
fn crosses_threads<T: Send + Sync + Drop>(_: T) {}

fn shared_blocks_cross_threads(block: SharedBlock) {
    crosses_threads(block);
}
