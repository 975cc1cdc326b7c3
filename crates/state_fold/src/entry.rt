//! One entry more.

ghost use Rattle.std.specs.Prelude.{◌≡◌, ◌<◌, ◌-◌, ◌^◌, IfOk};
ghost use Rattle.spec_state.specs.Command.{after};
ghost use Rattle.spec_state.specs.Bound.{IsWithin};

use crate::tables::Tables;
use petal_base::{NoMemory, Rev};
use petal_command::Command;
use std::alloc::Global;

impl Tables {
    fn set_rev(&mut self, rev: Rev)
        ensures { self.new ≡ record self.old { rev = rev } }
    {
        self.rev = rev;
    }

    /// The tables after one entry more.
    pub fn next(&self, alloc: Global, command: &Command) -> Result<Tables, NoMemory>
        requires within { IsWithin self.now.rev self.now }
        requires room { self.now.rev < 2 ^ 32 - 1 }
        ensures { IfOk result (λ next. next ≡ after self.now command.now) }
    {
        let rev = self.rev + 1;
        let mut next = self.copy()?;
        next.act(alloc, command)?;
        next.settle(alloc)?;
        next.set_rev(rev);
        Ok(next)
    }
}
