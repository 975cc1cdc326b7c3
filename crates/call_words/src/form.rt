//! What the words ask for.

/// A form of the words.
#[derive(Clone, Copy, Debug, PartialEq, Eq)]
pub enum Form {
    /// `run`: a script is read and played.
    Run,
    /// `drill SEED COUNT`: so many requests are drawn from the seed and played.
    Drill { seed: u32, count: u32 },
}
