//! How answers and refusals are printed.

ghost use Rattle.std.specs.Prelude.{◌≡◌, ◌++◌, OnOk, OnErr, IfOk, string_bytes};
ghost use Rattle.script_lines.specs.Printed.{answer_text, answer_line, refusal_line};

use crate::contents::contents_text;
use petal_base::NoMemory;
use script_lines::Answer;
use std::alloc::Global;

fn answer_text(alloc: Global, answer: &Answer) -> Result<String, NoMemory>
    ensures { IfOk result (λ text. string_bytes text ≡ answer_text answer.now) }
{
    let word = match answer {
        Answer::Data(block) => {
            let contents = contents_text(alloc, block.bytes())?;
            return Ok(format!(in alloc; "data{contents}")?);
        }
        Answer::Ok => "ok",
        Answer::NoSpace => "nospace",
        Answer::Unavailable => "unavailable",
        Answer::NoDisk => "nodisk",
        Answer::NoSnap => "nosnap",
        Answer::Exists => "exists",
        Answer::Moving => "moving",
        Answer::Failed => "failed",
    };
    Ok(String::from_str(alloc, word)?)
}

/// Adds the line of an answer: the number of the request's line, the answer, and LF.
#[tactic(auto, unfolding(script_lines::specs::Printed::answer_line))]
pub fn write_answer(
    alloc: Global,
    out: &mut Vec<u8>,
    number: u32,
    answer: &Answer,
) -> Result<(), NoMemory>
    ensures ok { OnOk result (out.new.items ≡ out.old.items ++ answer_line number answer.now) }
    ensures err { OnErr result (out.new.items ≡ out.old.items) }
{
    let text = answer_text(alloc, answer)?;
    let line = format!(in alloc; "{number}: {text}\n")?;
    out.extend_from_slice(line.as_bytes())?;
    Ok(())
}

#[tactic(auto, unfolding(script_lines::specs::Printed::refusal_line))]
fn refusal_line(alloc: Global, number: u32, cause: &str) -> Result<String, NoMemory>
    ensures { IfOk result (λ line. string_bytes line ≡ refusal_line number cause.now) }
{
    Ok(format!(in alloc; "refused line {number}: {cause}\n")?)
}

/// Adds the line that tells the refused line of a script: its number, the cause, and LF.
pub fn write_refusal(
    alloc: Global,
    out: &mut Vec<u8>,
    number: u32,
    cause: &str,
) -> Result<(), NoMemory>
    ensures ok { OnOk result (out.new.items ≡ out.old.items ++ refusal_line number cause.now) }
    ensures err { OnErr result (out.new.items ≡ out.old.items) }
{
    let line = refusal_line(alloc, number, cause)?;
    out.extend_from_slice(line.as_bytes())?;
    Ok(())
}
