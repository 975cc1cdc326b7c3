//! By what a letter is found.

ghost use Rattle.std.specs.Prelude.{◌≡◌};
ghost use Rattle.server_host.specs.Sent.{side_of, number_of, name_of};

use petal_base::Stamp;
use petal_msg::{Actor, Letter};

/// A letter's name: the stamp of the step that sent it, its place among that step's letters, and who sent it.
#[derive(Clone, Copy, Debug, PartialEq, Eq, PartialOrd, Ord)]
pub struct LetterName {
    pub stamp: Stamp,
    pub nth: u64,
    /// 0 for a server, 1 for a client.
    pub side: u8,
    pub number: u8,
}

fn side_of(actor: Actor) -> u8
    ensures { result ≡ side_of actor }
{
    match actor {
        Actor::Server(_) => 0,
        Actor::Client(_) => 1,
    }
}

fn number_of(actor: Actor) -> u8
    ensures { result ≡ number_of actor }
{
    match actor {
        Actor::Server(number) => number,
        Actor::Client(number) => number,
    }
}

/// The name of a letter.
pub fn name_of(letter: &Letter) -> LetterName
    ensures { result ≡ name_of letter.now }
{
    LetterName {
        stamp: letter.stamp,
        nth: letter.nth,
        side: side_of(letter.from),
        number: number_of(letter.from),
    }
}
