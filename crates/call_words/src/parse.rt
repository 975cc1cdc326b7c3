//! The form of the words.

ghost use Rattle.std.specs.Prelude.{◌≡◌, map, IfSome};
ghost use Rattle.std.specs.String.{string_bytes};
ghost use Rattle.call_words.specs.Form.{form_of, drill_of, IsWithinLimits};

use crate::form::Form;
use petal_script::number::in_limits;

/// The drill of two numbers, if the words are numbers within their limits.
fn drill(seed: &str, count: &str) -> Option<Form>
    ensures value { result ≡ drill_of seed.now count.now }
    ensures limits { IfSome result IsWithinLimits }
{
    let seed = in_limits(seed.as_bytes(), 0, 2_147_483_647).ok()?;
    let count = in_limits(count.as_bytes(), 0, 800).ok()?;
    Some(Form::Drill {
        seed: seed as u32,
        count: count as u32,
    })
}

/// The form that the words are, if they are one.
pub fn read_words(words: &[String]) -> Option<Form>
    ensures value { result ≡ form_of (map string_bytes words.now) }
    ensures limits { IfSome result IsWithinLimits }
{
    match words {
        [first] => {
            if first.as_bytes() == b"run".as_slice() {
                Some(Form::Run)
            } else {
                None
            }
        }
        [first, seed, count] => {
            if first.as_bytes() == b"drill".as_slice() {
                drill(seed.as_str(), count.as_str())
            } else {
                None
            }
        }
        _ => None,
    }
}
