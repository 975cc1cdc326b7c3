//! What a record has of a step, and the lines of a client, once more.

ghost use Rattle.std.specs.Prelude.{◌≡◌, IfOk};
ghost use Rattle.spec_rules.specs.World.{lines_of};

use petal_base::{ClientId, NoMemory, Sequence};
use petal_msg::SharedLetter;
use script_lines::{Answer, Line};
use server_host::copies::{answer_again, line_again};
use std::alloc::Global;

/// The same letters, shared.
pub fn letters_again(
    alloc: Global,
    letters: &[SharedLetter],
) -> Result<Sequence<SharedLetter>, NoMemory>
    ensures { IfOk result (λ again. again ≡ letters.now) }
{
    let mut again = Sequence::new(alloc);
    for letter in letters {
        again.push(letter.share()?)?;
    }
    Ok(again)
}

/// The same answer, with the number of its line, where there is one.
pub fn told_again(answer: &Option<(u32, Answer)>) -> Result<Option<(u32, Answer)>, NoMemory>
    ensures { IfOk result (λ again. again ≡ answer.now) }
{
    match answer {
        None => Ok(None),
        Some((line, answer)) => Ok(Some((*line, answer_again(answer)?))),
    }
}

/// The lines of a client, in order.
pub fn lines_of(alloc: Global, lines: &[Line], client: ClientId) -> Result<Sequence<Line>, NoMemory>
    ensures { IfOk result (λ own. own ≡ lines_of lines.now client) }
{
    let mut own = Sequence::new(alloc);
    for line in lines {
        if line.client == client {
            own.push(line_again(line))?;
        }
    }
    Ok(own)
}
