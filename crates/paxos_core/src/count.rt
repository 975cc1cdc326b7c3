//! How many servers there are.

ghost use Rattle.std.specs.Prelude.{◌≡◌, ◌≤◌, nat_lt, if◌then◌else◌, Some, None};

use std::marker::Model;

/// How many servers share a log, two at least. Contracts see the number.
#[derive(Clone, Copy, Debug, PartialEq, Eq)]
pub struct ServerCount {
    number: u8,
}

impl Model for ServerCount {
    ghost use Rattle.std.specs.Prelude.{ℕ, ◌≤◌};

    ghost Value = { ℕ };

    ghost view = { λ c. c.number };

    ghost invariant = { λ c. 2 ≤ c.number };

    ghost inverse = { λ n. record { number = n } };
}

impl ServerCount {
    /// So many servers.
    pub fn new(number: u8) -> ServerCount
        requires { 2 ≤ number }
        ensures { result ≡ number }
    {
        ServerCount { number }
    }

    /// So many servers, where they are two at least.
    pub fn checked(number: u8) -> Option<ServerCount>
        ensures { result ≡ (if nat_lt 1 number then Some number else None) }
    {
        if 1 < number {
            Some(ServerCount { number })
        } else {
            None
        }
    }

    /// The number.
    pub fn get(&self) -> u8
        ensures value { result ≡ self.now }
        ensures least { 2 ≤ result }
    {
        self.number
    }
}
