//! Contents in runs, as an answer prints them.

/// Equal bytes in a row.
#[derive(Clone, Copy, Debug, PartialEq, Eq)]
pub struct Run {
    /// How many there are.
    pub count: usize,
    /// Which byte it is.
    pub byte: u8,
}
