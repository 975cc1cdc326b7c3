//! Blocks that several letters carry.

ghost use Rattle.std.specs.Prelude.{◌≡◌, IfOk};

use petal_base::{Key, NoMemory, Sequence, SharedBlock};
use petal_msg::{Body, Letter};
use std::alloc::Global;
use std::collections::BTreeMap;

/// The block of each entry that a letter of a copy or a move carried last. A server reads the block from its device each time it sends
/// such a letter, also where it sends it again; the letters that are kept then share one block in memory.
#[derive(Drop)]
pub struct Blocks {
    last: BTreeMap<Key, SharedBlock>,
}

impl Blocks {
    /// No letter was sent. It takes no memory.
    pub fn new(alloc: Global) -> Blocks {
        Blocks {
            last: BTreeMap::new(alloc),
        }
    }

    /// The block that the entry's last letter carried, where it has the same bytes, or else this one.
    fn shared(&mut self, key: Key, block: SharedBlock) -> Result<SharedBlock, NoMemory>
        ensures { IfOk result (λ shared. shared ≡ block) }
    {
        if let Some(last) = self.last.get(&key) {
            if *last == block {
                return last.share();
            }
        }
        let _ = self.last.insert(key, block.share()?)?;
        Ok(block)
    }

    fn shared_body(&mut self, body: Body) -> Result<Body, NoMemory>
        ensures { IfOk result (λ shared. shared ≡ body) }
    {
        match body {
            Body::Fill { key, bytes } => Ok(Body::Fill {
                key,
                bytes: self.shared(key, bytes)?,
            }),
            Body::Sync {
                op,
                key,
                version,
                index,
                bytes,
            } => Ok(Body::Sync {
                op,
                key,
                version,
                index,
                bytes: self.shared(key, bytes)?,
            }),
            other => Ok(other),
        }
    }

    /// The same letters, which share their blocks with earlier ones.
    pub fn share_all(
        &mut self,
        alloc: Global,
        letters: Sequence<Letter>,
    ) -> Result<Sequence<Letter>, NoMemory>
        ensures { IfOk result (λ shared. shared ≡ letters) }
    {
        let mut shared = Sequence::new(alloc);
        for letter in letters.into_vec() {
            shared.push(Letter {
                body: self.shared_body(letter.body)?,
                ..letter
            })?;
        }
        Ok(shared)
    }
}
