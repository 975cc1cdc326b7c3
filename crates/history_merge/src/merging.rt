//! Lists of records, merged.

ghost use Rattle.std.specs.Prelude.{◌≡◌, ◌++◌, ℕ, Option, Some, IfOk, OnOk, IsErrOf, option_copied};
ghost use Rattle.std.specs.List.Sorted.{IsPermutation, IsSorted};
ghost use Rattle.script_lines.specs.declared.script.Script.{Script};
ghost use Rattle.petal_msg.specs.declared.letter.Letter.{Letter};
ghost use Rattle.spec_rules.specs.World.{letter_in};
ghost use Rattle.history_merge.specs.Order.{AreOrdered, all_of, record_cmp};
ghost use Rattle.history_merge.specs.Recorded.{AreRecorded, ComesAsSent, ComesOtherwise, IsMismatch, recorded_as};
ghost use Rattle.history_merge.specs.Runs.{AreOwn};
ghost use Rattle.history_merge.specs.declared.error.MergeError.TheVariants as error;

use crate::MergeError;
use crate::lookup::{is_it, recorded};
use crate::order::compare;
use crate::record::record_again;
use petal_base::{NoMemory, Sequence};
use petal_msg::SharedLetter;
use spec_history::{History, Record};
use spec_rules::Step;
use std::alloc::Global;

fn add_again(alloc: Global, all: &mut Vec<Record>, records: &[Record]) -> Result<(), NoMemory>
    ensures { OnOk result (all.new.items ≡ all.old.items ++ records.now) }
{
    for own in records {
        all.push(record_again(alloc, own)?)?;
    }
    Ok(())
}

/// The records of all lists, one list after the other.
fn all_again(alloc: Global, lists: &[Sequence<Record>]) -> Result<Vec<Record>, NoMemory>
    ensures { IfOk result (λ all. all.items ≡ all_of lists.now) }
{
    let mut all = Vec::new(alloc);
    for list in lists {
        add_again(alloc, &mut all, list.as_slice())?;
    }
    Ok(all)
}

fn sort(records: &mut Vec<Record>) -> Result<(), NoMemory>
    ensures { OnOk result (AreOrdered records.old.items records.new.items) }
{
    records.sort_by(|one, other| compare(one, other))?;
    Ok(())
}

/// The records of all lists, in order.
fn ordered(alloc: Global, lists: &[Sequence<Record>]) -> Result<Sequence<Record>, NoMemory>
    ensures { IfOk result (λ records. AreOrdered (all_of lists.now) records) }
{
    let mut records = all_again(alloc, lists)?;
    sort(&mut records)?;
    Ok(Sequence::of(records))
}

/// The records of all lists by stamp, and at one stamp by actor. No letter is compared.
pub fn by_stamps(alloc: Global, lists: &[Sequence<Record>]) -> Result<History, NoMemory>
    ensures all { IfOk result (λ history. IsPermutation (all_of lists.now) history.records) }
    ensures order { IfOk result (λ history. IsSorted record_cmp history.records) }
    ensures own { IfOk result (λ history. (script : Script) → AreOwn script (all_of lists.now) → AreOwn script history.records) }
    ensures recorded { IfOk result (λ history. (letter : Letter) → recorded_as history.records letter ≡ recorded_as (all_of lists.now) letter) }
{
    let records = ordered(alloc, lists)?;
    Ok(History { records })
}

/// The letter that comes in a record.
fn comes_in(own: &Record) -> Option<&SharedLetter>
    ensures { option_copied result ≡ letter_in own.now.step }
{
    match &own.step {
        Step::Deliver { letter } => Some(letter),
        _ => None,
    }
}

fn share_both(
    delivered: &SharedLetter,
    recorded: Option<&SharedLetter>,
) -> Result<(SharedLetter, Option<SharedLetter>), NoMemory>
    ensures { IfOk result (λ both. both ≡ (delivered.now, option_copied recorded.entry)) }
{
    let recorded = match recorded {
        None => None,
        Some(recorded) => Some(recorded.share()?),
    };
    Ok((delivered.share()?, recorded))
}

/// The error that tells of a letter and what is recorded in its place.
fn mismatch(delivered: &SharedLetter, recorded: Option<&SharedLetter>) -> MergeError
    ensures { (one : Letter) (other : Option Letter) → result ≡ error.Mismatch one other
        → (one ≡ delivered.now) × (other ≡ option_copied recorded.entry) }
{
    match share_both(delivered, recorded) {
        Err(NoMemory) => MergeError::NoMemory,
        Ok((delivered, recorded)) => MergeError::Mismatch {
            delivered,
            recorded,
        },
    }
}

/// Whether the letter that comes in a record is what its sender's record has.
fn check(records: &[Record], own: &Record) -> Result<(), MergeError>
    requires { IsSorted record_cmp records.now }
    ensures ok { OnOk result (ComesAsSent records.now own.now) }
    ensures mismatch { (delivered : Letter) (recorded : Option Letter) → IsErrOf result (error.Mismatch delivered recorded)
        → ComesOtherwise records.now own.now delivered recorded }
{
    let Some(letter) = comes_in(own) else {
        return Ok(());
    };
    let sent = recorded(records, letter.get());
    if is_it(sent, letter.get()) {
        return Ok(());
    }
    Err(mismatch(letter, sent))
}

fn check_all(records: &[Record]) -> Result<(), MergeError>
    requires { IsSorted record_cmp records.now }
    ensures ok { OnOk result (AreRecorded records.now) }
    ensures mismatch { (delivered : Letter) (recorded : Option Letter) → IsErrOf result (error.Mismatch delivered recorded)
        → IsMismatch records.now delivered recorded }
{
    for own in records {
        if let Err(error) = check(records, own) {
            return Err(error);
        }
    }
    Ok(())
}

/// One history of all lists: exactly their records, by stamp and actor, and each actor's in its own order. Each letter that comes is what
/// its sender's record has, or else one that is not is told.
pub fn merge(alloc: Global, lists: &[Sequence<Record>]) -> Result<History, MergeError>
    ensures all { IfOk result (λ history. IsPermutation (all_of lists.now) history.records) }
    ensures order { IfOk result (λ history. IsSorted record_cmp history.records) }
    ensures own { IfOk result (λ history. (script : Script) → AreOwn script (all_of lists.now) → AreOwn script history.records) }
    ensures sent { OnOk result (AreRecorded (all_of lists.now)) }
    ensures mismatch { (delivered : Letter) (recorded : Option Letter) → IsErrOf result (error.Mismatch delivered recorded)
        → IsMismatch (all_of lists.now) delivered recorded }
    ensures exactly { (delivered : Letter) (recorded : Option Letter) → IsErrOf result (error.Mismatch delivered recorded)
        → AreRecorded (all_of lists.now) → ⊥ }
{
    let Ok(history) = by_stamps(alloc, lists) else {
        return Err(MergeError::NoMemory);
    };
    match check_all(history.records.as_slice()) {
        Ok(()) => Ok(history),
        Err(error) => Err(error),
    }
}
