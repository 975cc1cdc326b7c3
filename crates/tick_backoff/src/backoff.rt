//! How long an actor waits before it is ticked again.

use petal_base::Rev;

/// Past this many ticks the pauses grow no longer.
const LONGEST: u32 = 12;

/// Counts the ticks that come to an actor and how many were passed on to it, since it last got on.
#[derive(Drop)]
pub struct Backoff {
    came: u32,
    passed: u32,
    rev: Option<Rev>,
}

impl Backoff {
    /// No tick came yet.
    pub fn new() -> Backoff {
        Backoff {
            came: 0,
            passed: 0,
            rev: None,
        }
    }

    /// The actor is at this revision. It got on where it was at another one before.
    pub fn at_rev(&mut self, rev: Option<Rev>) {
        if rev != self.rev {
            self.rev = rev;
            self.renew();
        }
    }

    /// The actor got on: the next tick is passed on at once.
    pub fn renew(&mut self) {
        self.came = 0;
        self.passed = 0;
    }

    /// The actor got on, and what it sent in this turn is answered by the next: the tick after that is passed on.
    pub fn wait_again(&mut self) {
        self.came = 0;
        self.passed = 1;
    }

    /// A tick comes. It is passed on only where 2^n came since the last one that was, with n the number of those passed on,
    /// at most 12.
    fn passes(&mut self) -> bool {
        self.came = self.came.saturating_add(1);
        if self.came < 1 << self.passed.min(LONGEST) {
            return false;
        }
        self.came = 0;
        self.passed = self.passed.saturating_add(1);
        true
    }

    /// How many ticks are passed on in a turn: so many where some are passed on at once, and else one where the actor has waited
    /// for it long enough.
    pub fn ticks(&mut self, at_once: u32) -> u32 {
        if at_once == 0 {
            return u32::from(self.passes());
        }
        at_once
    }
}
