//! Who sends, and letters from there.

ghost use Rattle.std.specs.Prelude.{◌≡◌, ◌≤◌, ◌<◌, ◌+◌, ◌++◌, ℕ, List, [], ◌∷◌, vec_len, vec_capacity, not, filter, map, IfOk};
ghost use Rattle.std.specs.List.{range_with_len};
ghost use Rattle.petal_msg.specs.declared.body.Body.TheVariants as body;
ghost use Rattle.petal_msg.specs.declared.letter.Actor.TheVariants as actor;
ghost use Rattle.spec_paxos.specs.Proposer.{is_in};
ghost use Rattle.spec_rules.specs.Ballots.{post_of};
ghost use Rattle.spec_rules.specs.Server.{letters_of};

use petal_base::{Inc, NoMemory, Rev, Sequence, ServerId};
use petal_command::Pax;
use petal_msg::{Actor, Body, Letter};
use std::alloc::Global;
use std::marker::Model;

/// Who sends, as which incarnation and at which revision. Contracts see it as the rules do.
#[derive(Drop)]
pub struct Envelope {
    me: ServerId,
    inc: Inc,
    rev: Rev,
}

impl Model for Envelope {
    ghost use Rattle.petal_msg.specs.declared.letter.Actor.TheVariants as actor;
    ghost use Rattle.spec_rules.specs.Server.{Sender};

    ghost Value = { Sender };

    ghost view = { λ e. record { from = actor.Server e.me; inc = e.inc; rev = e.rev } };
}

/// A list with room for so many letters.
///
/// # Errors
/// Out of memory.
pub fn room_for(alloc: Global, letters: u8) -> Result<Vec<Letter>, NoMemory>
    ensures empty { IfOk result (λ room. room.items ≡ []) }
    ensures none { IfOk result (λ room. vec_len room ≡ 0) }
    ensures room { IfOk result (λ room. letters ≤ vec_capacity room) }
{
    Ok(Vec::with_capacity(alloc, letters as usize)?)
}

impl Envelope {
    /// Of a server with this incarnation, at this revision.
    pub fn new(me: ServerId, inc: Inc, rev: Rev) -> Envelope
        ensures { result ≡ record { from = actor.Server me; inc = inc; rev = rev } }
    {
        Envelope { me, inc, rev }
    }

    /// A letter from there: the one of this number of its step.
    pub fn letter(&self, to: Actor, nth: u64, body: Body) -> Letter
        ensures { result ∷ [] ≡ letters_of self.now nth (record { to = to; body = body } ∷ []) }
    {
        Letter {
            from: Actor::Server(self.me),
            inc: self.inc,
            to,
            rev: self.rev,
            stamp: 0,
            nth,
            body,
        }
    }

    /// The letter to a server.
    fn letter_to(&self, server: ServerId, nth: u64, said: &Pax) -> Letter
        ensures { result ∷ [] ≡ letters_of self.now nth (post_of (body.Pax said.now) server ∷ []) }
    {
        self.letter(Actor::Server(server), nth, Body::Pax(said.copy()))
    }

    /// One letter, in a list with room for it.
    pub fn one(&self, room: Vec<Letter>, to: Actor, body: Body) -> Sequence<Letter>
        requires empty { room.items ≡ [] }
        requires room { vec_len room < vec_capacity room }
        ensures { result ≡ letters_of self.now 0 (record { to = to; body = body } ∷ []) }
    {
        let mut letters = room;
        letters.push_reserved(self.letter(to, 0, body));
        Sequence::of(letters)
    }

    /// The same to each of so many servers, in a list with room for that.
    pub fn to_all(&self, room: Vec<Letter>, servers: u8, said: &Pax) -> Sequence<Letter>
        requires empty { room.items ≡ [] }
        requires none { vec_len room ≡ 0 }
        requires room { servers ≤ vec_capacity room }
        ensures { result ≡ letters_of self.now 0 (map (post_of (body.Pax said.now)) (range_with_len 0 servers)) }
    {
        let mut letters = room;
        for server in 0..servers {
            letters.push_reserved(self.letter_to(server, server as u64, said));
        }
        Sequence::of(letters)
    }

    /// The letter to a server that was not heard yet joins the others. Gives the number of the next one.
    fn add_unheard(
        &self,
        letters: &mut Sequence<Letter>,
        nth: u64,
        server: ServerId,
        heard: &[bool; 256],
        said: &Pax,
    ) -> Result<u64, NoMemory>
        requires within { nth ≤ server }
        ensures count { IfOk result (λ next. next ≤ server + 1) }
        ensures letters { (rest : List ℕ) → IfOk result (λ next.
            letters.new ++ letters_of self.now next (map (post_of (body.Pax said.now)) (filter (λ n. not (is_in heard.now n)) rest))
            ≡ letters.old ++ letters_of self.now nth (map (post_of (body.Pax said.now)) (filter (λ n. not (is_in heard.now n)) (server ∷ rest)))) }
    {
        if heard[server as usize] {
            return Ok(nth);
        }
        letters.push(self.letter_to(server, nth, said))?;
        Ok(nth + 1)
    }

    /// The same to each of so many servers that was not heard yet.
    pub(crate) fn to_unheard(
        &self,
        alloc: Global,
        servers: u8,
        heard: &[bool; 256],
        said: &Pax,
    ) -> Result<Sequence<Letter>, NoMemory>
        ensures { IfOk result (λ letters. letters
            ≡ letters_of self.now 0 (map (post_of (body.Pax said.now)) (filter (λ n. not (is_in heard.now n)) (range_with_len 0 servers)))) }
    {
        let mut letters = Sequence::new(alloc);
        let mut nth: u64 = 0;
        for server in 0..servers {
            nth = self.add_unheard(&mut letters, nth, server, heard, said)?;
        }
        Ok(letters)
    }
}
