//! Small numbers that have a spelling.

ghost use Rattle.std.specs.Prelude.{◌≡◌, ◌<◌, nat_lt, if◌then◌else◌, Some, None};

use std::marker::Model;

/// A number below a limit. Contracts see the number.
#[derive(Clone, Copy, Debug, PartialEq, Eq, PartialOrd, Ord)]
pub struct Below<const LIMIT: u8> {
    number: u8,
}

impl<const LIMIT: u8> Model for Below<LIMIT> {
    ghost use Rattle.std.specs.Prelude.{ℕ, ◌<◌};

    ghost Value = { ℕ };

    ghost view = { λ b. b.number };

    ghost invariant = { λ b. b.number < LIMIT };

    ghost inverse = { λ n. record { number = n } };
}

/// A storage server.
pub type ServerNumber = Below<8>;

/// A client, 0 to 7, or the operator, 8.
pub type ClientNumber = Below<9>;

/// A region of a disk.
pub type RegionNumber = Below<16>;

/// A link of a map.
pub type LinkNumber = Below<8>;

impl<const LIMIT: u8> Below<LIMIT> {
    /// The number, which is below the limit.
    pub fn new(number: u8) -> Self
        requires { number < LIMIT }
        ensures { result ≡ number }
    {
        Below { number }
    }

    /// The number, where it is below the limit.
    pub fn checked(number: u8) -> Option<Self>
        ensures { result ≡ (if nat_lt number LIMIT then Some number else None) }
    {
        if number < LIMIT {
            Some(Below { number })
        } else {
            None
        }
    }

    /// The number as it is.
    pub fn get(&self) -> u8
        ensures value { result ≡ self.now }
        ensures below { result < LIMIT }
    {
        self.number
    }
}
