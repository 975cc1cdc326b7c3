//! The text of a run.

ghost use Rattle.std.specs.Prelude.{◌≡◌, ◌++◌, OnOk, IfOk};
ghost use Rattle.std.specs.List.{flat_map};
ghost use Rattle.script_lines.specs.Printed.{answer_line, refusal_line};

use petal_base::NoMemory;
use petal_script::{write_answer, write_refusal};
use plain_schedule::Answers;
use std::alloc::Global;

/// One line for each answer, by rising line number.
pub(crate) fn answers_text(alloc: Global, mut answers: Answers) -> Result<Vec<u8>, NoMemory>
    ensures { IfOk result (λ text. text.items ≡ flat_map (λ row. answer_line row.0 row.1) answers) }
{
    let mut out = Vec::new(alloc);
    while let Some((line, answer)) = answers.pop_first() {
        write_answer(alloc, &mut out, line, &answer)?;
    }
    Ok(out)
}

/// The line that refuses a line of the script.
pub(crate) fn refusal_text(alloc: Global, line: u32, cause: &str) -> Result<Vec<u8>, NoMemory>
    ensures { IfOk result (λ text. text.items ≡ refusal_line line cause.now) }
{
    let mut out = Vec::new(alloc);
    write_refusal(alloc, &mut out, line, cause)?;
    Ok(out)
}
