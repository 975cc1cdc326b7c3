//! What a server wants chosen so that it returns.

ghost use Rattle.std.specs.Prelude.{◌≡◌, IfOk};
ghost use Rattle.spec_rules.specs.Returns.{own_join};
ghost use Rattle.server_log.specs.Part.{state_of};

use crate::memory::side::LogSide;
use petal_base::{NoMemory, Sequence};
use petal_command::Command;
use std::alloc::Global;

impl LogSide {
    /// Its own Join, while it is Out with an earlier incarnation; it says whether the server comes with an empty store.
    ///
    /// # Errors
    /// Out of memory.
    pub fn own_join(&self, alloc: Global, fresh: bool) -> Result<Sequence<Command>, NoMemory>
        ensures { IfOk result (λ wants. wants ≡ own_join (state_of self.now) self.now.voter.me self.now.voter.inc fresh) }
    {
        if !self.state.may_join(self.me(), self.inc) {
            return Ok(Sequence::new(alloc));
        }
        let join = Command::Join {
            server: self.number(),
            inc: self.inc,
            blank: fresh,
        };
        Sequence::one(alloc, join)
    }
}
