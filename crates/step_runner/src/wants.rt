//! What a line was answered.

use petal_base::SharedBlock;
use petal_world::Host;
use script_lines::Answer;
use step_language::Want;
use world_probe::Run;

fn is(answer: Option<&Answer>, wanted: &Answer) -> bool {
    match answer {
        Some(answer) => *answer == *wanted,
        None => false,
    }
}

/// The block that a read was answered with.
fn shown(answer: Option<&Answer>) -> Option<&SharedBlock> {
    match answer {
        Some(Answer::Data(bytes)) => Some(bytes),
        _ => None,
    }
}

/// Whether the answer is a block of this byte.
fn is_filled(answer: Option<&Answer>, fill: u8) -> bool {
    match shown(answer) {
        Some(bytes) => bytes.bytes().iter().all(|byte| *byte == fill),
        None => false,
    }
}

/// Whether both answers are one block.
fn are_one(answer: Option<&Answer>, other: Option<&Answer>) -> bool {
    match (shown(answer), shown(other)) {
        (Some(bytes), Some(others)) => *bytes == *others,
        _ => false,
    }
}

/// Whether the line has the answer that is wanted.
pub fn is_so<H: Host>(run: &Run<H>, line: u32, want: &Want) -> bool {
    let answer = run.answer(line);
    match want {
        Want::Ok => is(answer, &Answer::Ok),
        Want::NoSpace => is(answer, &Answer::NoSpace),
        Want::NoDisk => is(answer, &Answer::NoDisk),
        Want::NoSnap => is(answer, &Answer::NoSnap),
        Want::Unavailable => is(answer, &Answer::Unavailable),
        Want::Exists => is(answer, &Answer::Exists),
        Want::Moving => is(answer, &Answer::Moving),
        Want::DoesNotRun => is(answer, &Answer::Failed),
        Want::Open => answer.is_none(),
        Want::Fill(fill) => is_filled(answer, *fill),
        Want::Either(one, other) => is_filled(answer, *one) || is_filled(answer, *other),
        Want::As(other) => are_one(answer, run.answer(*other)),
    }
}
