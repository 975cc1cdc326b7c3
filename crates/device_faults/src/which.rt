//! The two devices of a server.

/// Which of a server's two devices.
#[derive(Clone, Copy, Debug, PartialEq, Eq)]
pub enum Which {
    /// The one that holds the contents of blocks.
    Data,
    /// The one that holds what the server has promised.
    State,
}
