//! What a job of the log leaves to its caller.

ghost use Rattle.std.specs.Prelude.{◌≡◌, false, None};

use petal_base::Sequence;
use petal_msg::{Letter, SharedLetter};

/// What a job of the log leaves to its caller, beside what it changed.
#[derive(Drop)]
pub struct LogDone {
    /// The letters that it sends, with the stamp 0.
    pub letters: Sequence<Letter>,
    /// That the next entry, which is now known, is applied as a job of its own.
    pub apply: bool,
    /// A letter that is handled once more, after what waits.
    pub again: Option<SharedLetter>,
}

/// Letters and nothing else.
pub fn only(letters: Sequence<Letter>) -> LogDone
    ensures { result ≡ record { letters = letters; apply = false; again = None } }
{
    LogDone {
        letters,
        apply: false,
        again: None,
    }
}
