//! Whether two letters say the same.

ghost use Rattle.std.specs.Prelude.{◌≡◌, ◌↔◌, IsTrue};

use crate::{Body, Letter};

impl Letter {
    /// Whether this is the very same letter. It compares bytes, and not owners.
    pub fn is_same(&self, other: &Letter) -> bool
        ensures { IsTrue result ↔ (self.now ≡ other.now) }
    {
        self.from == other.from
            && self.inc == other.inc
            && self.to == other.to
            && self.rev == other.rev
            && self.stamp == other.stamp
            && self.nth == other.nth
            && self.body.is_same(&other.body)
    }
}

impl Body {
    /// Whether both say the same.
    pub fn is_same(&self, other: &Body) -> bool
        ensures { IsTrue result ↔ (self.now ≡ other.now) }
    {
        *self == *other
    }
}
