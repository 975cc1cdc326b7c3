//! Numbers of 1 to 20 digits.

ghost use Rattle.std.specs.Prelude.{◌≡◌, ◌≤◌, Option, IfOk};
ghost use Rattle.petal_script.specs.Number.{number_of};
ghost use Rattle.petal_script.specs.Fields.{in_limits};

use crate::cause::Cause;

/// The number that a word spells, if it is one. Leading zeros are fine.
pub fn number(word: &[u8]) -> Option<u128>
    ensures { result ≡ number_of word.now }
{
    if word.is_empty() || word.len() > 20 {
        return None;
    }
    let mut value: u128 = 0;
    for digit in word {
        if !digit.is_ascii_digit() {
            return None;
        }
        value = 10 * value + u128::from(*digit - b'0');
    }
    Some(value)
}

/// The number that a word spells, within its limits.
#[tactic(auto, unfolding(crate::specs::Fields::in_limits))]
pub fn in_limits(word: &[u8], least: u64, most: u64) -> Result<u64, Cause>
    ensures value { result ≡ in_limits least most word.now }
    ensures least { IfOk result (λ n. least ≤ n) }
    ensures most { IfOk result (λ n. n ≤ most) }
{
    let n = number(word).ok_or(Cause::BadNumber)?;
    if u128::from(least) <= n && n <= u128::from(most) {
        Ok(n as u64)
    } else {
        Err(Cause::BadNumber)
    }
}
