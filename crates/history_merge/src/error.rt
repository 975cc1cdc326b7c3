//! Why lists are not merged.

use petal_msg::SharedLetter;

/// Why there is no history of the lists.
#[derive(Drop)]
pub enum MergeError {
    NoMemory,
    /// A letter came that its sender's record does not have so. What that record has in the letter's place is told beside it; nothing,
    /// where no record of that step has a letter there.
    Mismatch {
        delivered: SharedLetter,
        recorded: Option<SharedLetter>,
    },
}
