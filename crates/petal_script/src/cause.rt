//! What is wrong with a line.

ghost use Rattle.std.specs.Prelude.{◌≡◌};
ghost use Rattle.petal_script.specs.Cause.{cause_text};

use thiserror::Error;

/// What is wrong with a line, in the order in which it is looked for.
#[derive(Clone, Copy, Debug, PartialEq, Eq, Error)]
pub enum Cause {
    /// A byte is above 127.
    #[error("not ascii")]
    NotAscii,
    /// The line has more than 256 bytes, or the script passes 1,048,576 bytes in it.
    #[error("too long")]
    TooLong,
    /// The first line that counts doesn't begin with `servers`.
    #[error("no servers line")]
    NoServersLine,
    /// An unknown word, a wrong number of words, or a line where it may not stand.
    #[error("bad line")]
    BadLine,
    /// A word in a name's place is none.
    #[error("bad name")]
    BadName,
    /// A word in a number's place is none, or a number is outside its limits.
    #[error("bad number")]
    BadNumber,
    /// The numbers after `on` aren't 2 to 8 distinct servers.
    #[error("bad tuple")]
    BadTuple,
    /// There are more requests, or requests of this kind, than a script may have.
    #[error("too many")]
    TooMany,
    /// After this line fewer than a majority of the servers are surely running.
    #[error("no majority")]
    NoMajority,
}

impl Cause {
    /// What is wrong, as a refusal tells it.
    pub fn text(self) -> &'static str
        ensures { result.now ≡ cause_text self }
    {
        match self {
            Cause::NotAscii => "not ascii",
            Cause::TooLong => "too long",
            Cause::NoServersLine => "no servers line",
            Cause::BadLine => "bad line",
            Cause::BadName => "bad name",
            Cause::BadNumber => "bad number",
            Cause::BadTuple => "bad tuple",
            Cause::TooMany => "too many",
            Cause::NoMajority => "no majority",
        }
    }
}
