//! Ballots.

ghost use Rattle.std.specs.Prelude.{◌≡◌, ◌==◌, ◌&&◌, nat_le};
ghost use Rattle.petal_command.specs.Ballot.{number, same};

use petal_base::ServerId;

/// A ballot of one place of the log: by its round, and within a round by the server that started it ("The Part-Time
/// Parliament", 1998).
#[derive(Clone, Copy, Debug, PartialEq, Eq, PartialOrd, Ord)]
pub struct Ballot {
    pub round: u32,
    pub server: ServerId,
}

impl Ballot {
    /// Whether this ballot comes before the other, or is it.
    #[tactic(auto, unfolding(crate::specs::Ballot::number))]
    pub fn is_at_most(self, other: Ballot) -> bool
        ensures { result ≡ nat_le (number self) (number other) }
    {
        self.round < other.round || (self.round == other.round && self.server <= other.server)
    }

    /// Whether both are one ballot.
    pub fn is_same(self, other: Ballot) -> bool
        ensures { result ≡ same self other }
    {
        self.round == other.round && self.server == other.server
    }
}
