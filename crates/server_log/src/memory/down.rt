//! The letters that tell the other servers that an incarnation has stopped.

ghost use Rattle.std.specs.Prelude.{◌≡◌, ◌≤◌, ◌+◌, ◌==◌, ◌++◌, ◌∷◌, ℕ, List, not, map, filter, IfOk};
ghost use Rattle.petal_msg.specs.declared.body.Body.TheVariants as body;
ghost use Rattle.petal_msg.specs.declared.letter.Actor.TheVariants as actor;
ghost use Rattle.spec_rules.specs.Ballots.{post_of};
ghost use Rattle.spec_rules.specs.Jobs.{down_posts};
ghost use Rattle.spec_rules.specs.Server.{letters_of};

use crate::memory::envelope::Envelope;
use petal_base::{Inc, NoMemory, Sequence, ServerId};
use petal_command::ServerNumber;
use petal_msg::{Actor, Body, Letter};
use std::alloc::Global;

impl Envelope {
    /// The letter to another server joins the others. Gives the number of the next one.
    fn add_down(
        &self,
        letters: &mut Sequence<Letter>,
        nth: u64,
        server: ServerId,
        me: ServerNumber,
        inc: Inc,
    ) -> Result<u64, NoMemory>
        requires within { nth ≤ server }
        ensures count { IfOk result (λ next. next ≤ server + 1) }
        ensures letters { (rest : List ℕ) → IfOk result (λ next.
            letters.new ++ letters_of self.now next (map (post_of (body.Down me inc)) (filter (λ n. not (n == me)) rest))
            ≡ letters.old ++ letters_of self.now nth (map (post_of (body.Down me inc)) (filter (λ n. not (n == me)) (server ∷ rest)))) }
    {
        if server == me.get() {
            return Ok(nth);
        }
        let down = Body::Down { server: me, inc };
        letters.push(self.letter(Actor::Server(server), nth, down))?;
        Ok(nth + 1)
    }

    /// To each of the other servers that an incarnation has stopped.
    ///
    /// # Errors
    /// Out of memory.
    pub fn down_letters(
        &self,
        alloc: Global,
        me: ServerNumber,
        inc: Inc,
        servers: u8,
    ) -> Result<Sequence<Letter>, NoMemory>
        ensures { IfOk result (λ letters. letters ≡ letters_of self.now 0 (down_posts me inc servers)) }
    {
        let mut letters = Sequence::new(alloc);
        let mut nth: u64 = 0;
        for server in 0..servers {
            nth = self.add_down(&mut letters, nth, server, me, inc)?;
        }
        Ok(letters)
    }
}

/// To each of the other servers that this incarnation has stopped. They tell no revision.
///
/// # Errors
/// Out of memory.
pub fn farewell(
    alloc: Global,
    me: ServerNumber,
    inc: Inc,
    servers: u8,
) -> Result<Sequence<Letter>, NoMemory>
    ensures { IfOk result (λ letters. letters ≡ letters_of (record { from = actor.Server me; inc = inc; rev = 0 }) 0 (down_posts me inc servers)) }
{
    Envelope::new(me.get(), inc, 0).down_letters(alloc, me, inc, servers)
}
