//! A count that only contracts see.

ghost use Rattle.std.specs.Prelude.{◌≡◌, ◌+◌, ℕ};
ghost use Rattle.std.specs.Borrow.{ftrue};

use std::marker::Model;

/// How often something has happened. No code holds the number, so that it rises without end and takes no memory; whoever
/// promises that a count rose has to call `rise`.
#[derive(Drop)]
pub struct Count {
    pub ghost times: { ℕ },
}

impl Model for Count {
    ghost also_owns = { λ _. ftrue };
}

impl Count {
    /// It has not happened.
    pub fn new() -> Count
        ensures { result.times ≡ 0 }
    {
        Count {}
    }

    /// It happens once more.
    pub fn rise(&mut self)
        ensures { self.new.times ≡ self.old.times + 1 }
    {}
}

unsafe impl Send for Count {}
