//! What a step of the world tells.

use petal_base::Sequence;
use petal_msg::SharedLetter;
use script_lines::Answer;
use server_host::StepEnd;

/// The letters that a step sent, the answer that it gave with the number of its line, and how its job ended.
#[derive(Drop)]
pub struct StepResult {
    pub letters: Sequence<SharedLetter>,
    pub answer: Option<(u32, Answer)>,
    /// As the devices say, whatever end the step named; `Done` for a step without a job.
    pub end: StepEnd,
}
