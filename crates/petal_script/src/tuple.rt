//! Reading the servers of a tuple.

ghost use Rattle.std.specs.Prelude.{◌≡◌, ◌≤◌, ◌<◌, ◌++◌, [], ◌∷◌, IsTrue, IsFalse, length};
ghost use Rattle.petal_script.specs.Fields.{a_tuple};

use crate::cause::Cause;
use crate::number::number;
use crate::words::Words;
use petal_base::{MAX_SERVERS, ServerId, Tuple};
use std::marker::Model;

const MOST: usize = 8;

/// Up to 8 numbers of servers. Contracts see their list.
#[derive(Drop)]
struct Ids {
    ids: [ServerId; MOST],
    len: usize,
}

impl Model for Ids {
    ghost use Rattle.std.specs.Prelude.{◌≤◌, List, ℕ, take};

    ghost Value = { List ℕ };

    ghost view = { λ s. take s.len s.ids };

    ghost invariant = { λ s. s.len ≤ 8 };
}

impl Ids {
    fn new() -> Ids
        ensures { result ≡ [] }
    {
        Ids {
            ids: [0; MOST],
            len: 0,
        }
    }

    fn is_full(&self) -> bool
        ensures full { IsTrue result → 8 ≤ length self.now }
        ensures room { IsFalse result → length self.now < 8 }
    {
        self.len == MOST
    }

    fn push(&mut self, id: ServerId)
        requires { length self.old < 8 }
        ensures { self.new ≡ self.old ++ id ∷ [] }
    {
        self.ids[self.len] = id;
        self.len += 1;
    }

    fn as_slice(&self) -> &[ServerId]
        ensures { result.now ≡ self.now }
    {
        &self.ids[..self.len]
    }
}

/// The tuple that the words are. That each is a number comes first, so all are read before one is found unfit.
#[tactic(auto, unfolding(crate::specs::Fields::a_tuple))]
pub fn tuple(servers: u8, words: &mut Words<'_>) -> Result<Tuple, Cause>
    ensures { result ≡ a_tuple servers words.old }
{
    let mut ids = Ids::new();
    let mut fits = true;
    while let Some(word) = words.next() {
        let id = number(word).ok_or(Cause::BadNumber)?;
        if id < u128::from(MAX_SERVERS) && !ids.is_full() {
            ids.push(id as u8);
        } else {
            fits = false;
        }
    }
    if !fits {
        return Err(Cause::BadTuple);
    }
    Tuple::new(ids.as_slice(), servers).ok_or(Cause::BadTuple)
}
