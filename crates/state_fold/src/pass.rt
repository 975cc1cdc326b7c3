//! Fences take effect.

ghost use Rattle.std.specs.Prelude.{◌≡◌, ℕ, ◌<◌, ◌-◌, ◌^◌, IfOk};
ghost use Rattle.std.specs.Option.{ForSome};
ghost use Rattle.global_tables.specs.Disk.{disk_at};
ghost use Rattle.spec_state.specs.State.{latest};
ghost use Rattle.spec_state.specs.Fence.{confirmed, effect, settled};
ghost use Rattle.state_fold.specs.Room.{HasRoom};

use crate::tables::Tables;
use global_tables::{FenceKind, Verdict};
use petal_base::{ClientId, NoMemory, Seq};
use std::alloc::Global;

impl Tables {
    fn confirm(&mut self, client: ClientId, seq: Seq)
        ensures { self.new ≡ confirmed self.old client seq (latest self.old client) }
    {
        match self.latest(client) {
            Some(latest) => {
                if latest.seq == seq {
                    self.told(client, seq, Verdict::Ok);
                }
            }
            None => {}
        }
    }

    fn effect(&mut self, alloc: Global, kind: &FenceKind) -> Result<(), NoMemory>
        requires { (disk : ℕ) → ForSome (disk_at self.old.disks.rows disk) (λ row. row.epoch < 2 ^ 32 - 1) }
        ensures { IfOk result (λ _. self.new ≡ effect kind.now self.old) }
    {
        match kind {
            FenceKind::Whole {
                disk,
                name,
                client,
                seq,
            } => {
                self.disks.freeze(*disk, name)?;
                self.confirm(*client, *seq);
            }
            FenceKind::Region { disk, region } => {
                self.disks.fence_region(alloc, *disk, *region)?;
            }
        }
        Ok(())
    }

    /// While the head waits for nobody, it takes effect and leaves the queue.
    pub(crate) fn settle(&mut self, alloc: Global) -> Result<(), NoMemory>
        requires { HasRoom self.old }
        ensures { IfOk result (λ _. self.new ≡ settled self.old) }
    {
        match self.view.take(alloc)? {
            None => Ok(()),
            Some(fence) => {
                self.effect(alloc, &fence.kind)?;
                self.settle(alloc)
            }
        }
    }
}
