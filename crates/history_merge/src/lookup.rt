//! Where a letter was sent.

ghost use Rattle.std.specs.Prelude.{◌≡◌, ◌↔◌, Some, IsTrue, option_copied, slice_get, take};
ghost use Rattle.std.specs.List.Sorted.{IsSorted};
ghost use Rattle.history_merge.specs.Fronts.{IsSentIn};
ghost use Rattle.history_merge.specs.Order.{record_cmp};
ghost use Rattle.history_merge.specs.Recorded.{IsPlaceOf, recorded_as};

use crate::order::compare_with_sender;
use petal_msg::{Letter, SharedLetter};
use spec_history::Record;

/// The place of the first record that does not stand before the letter's sender.
fn place_of(records: &[Record], letter: &Letter) -> usize
    ensures { IsSorted record_cmp records.now → IsPlaceOf records.now letter.now result }
{
    records.partition_point(|own| compare_with_sender(own, letter).is_lt())
}

fn record_at(records: &[Record], place: usize) -> Option<&Record>
    ensures { option_copied result ≡ slice_get records.now place }
{
    records.get(place)
}

/// What a record has in the letter's place.
fn letter_in<'a>(own: &'a Record, letter: &Letter) -> Option<&'a SharedLetter>
    ensures { option_copied result ≡ slice_get own.now.sent letter.now.nth }
{
    own.sent.as_slice().get(letter.nth as usize)
}

/// Whether it is this letter that was found.
pub fn is_it(found: Option<&SharedLetter>, letter: &Letter) -> bool
    ensures { IsTrue result ↔ (option_copied found.entry ≡ Some letter.now) }
{
    match found {
        None => false,
        Some(found) => found.get().is_same(letter),
    }
}

/// What the record of the step by which the letter was sent has in its place.
pub fn recorded<'a>(records: &'a [Record], letter: &Letter) -> Option<&'a SharedLetter>
    requires { IsSorted record_cmp records.now }
    ensures { option_copied result ≡ recorded_as records.now letter.now }
{
    let Some(own) = record_at(records, place_of(records, letter)) else {
        return None;
    };
    if !compare_with_sender(own, letter).is_eq() {
        return None;
    }
    letter_in(own, letter)
}

/// Whether one of the first records, which stand by stamp and actor, has sent this letter.
pub fn is_sent_in(records: &[Record], first: usize, letter: &Letter) -> bool
    ensures { IsTrue result → IsSentIn (take first records.now) letter.now }
{
    let place = place_of(records, letter);
    if place >= first {
        return false;
    }
    match record_at(records, place) {
        None => false,
        Some(own) => is_it(letter_in(own, letter), letter),
    }
}
