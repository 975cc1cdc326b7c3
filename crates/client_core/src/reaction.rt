//! What a step of a client gives.

use petal_base::Sequence;
use petal_msg::Letter;
use script_lines::Answer;

/// The letters that a step sends, with no stamp yet, and the answer that it gives with the number of its line.
#[derive(Drop)]
pub struct Reaction {
    pub letters: Sequence<Letter>,
    pub answer: Option<(u32, Answer)>,
}
