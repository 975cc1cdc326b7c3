//! What a tick sends again.

ghost use Rattle.std.specs.Prelude.{◌≡◌, ◌++◌, length, IfOk};
ghost use Rattle.std.specs.List.{flat_map};
ghost use Rattle.spec_rules.specs.Server.{PairState, letters_of, sender};
ghost use Rattle.spec_rules.specs.Jobs.{sent_again};
ghost use Rattle.pair_memory.specs.Letters.{posts_of};

use crate::lead::origin::origin_by;
use crate::lead::stage::next_stage;
use pair_lock::PairLock;
use pair_memory::{JobContext, PairMemory, with_letter};
use petal_base::{NoMemory, Sequence, ServerId};
use petal_msg::{Action, Body, Letter, Pending};

/// The letter that an operation sends, with its content, if it waits for an answer.
fn awaited(here: &JobContext, op: &Pending) -> Result<Option<(ServerId, Body)>, NoMemory>
    ensures { IfOk result (λ found. (own : PairState) → posts_of found ≡ sent_again here.now own op.now) }
{
    match (next_stage(here, op), here.second(op.cell)) {
        (Action::Reserve, Some(to)) => {
            let body = Body::Reserve {
                op: op.op,
                cell: op.cell,
            };
            Ok(Some((to, body)))
        }
        (Action::Replicate, Some(to)) => {
            let body = Body::Replicate {
                op: op.op,
                key: op.key,
                version: op.version,
                origin: origin_by(here, op),
                bytes: op.bytes.share()?,
            };
            Ok(Some((to, body)))
        }
        (Action::Reserve | Action::Replicate, None)
        | (Action::Mark(_) | Action::Put | Action::Unmark(_) | Action::Answer | Action::Drop, _) =>
            Ok(None),
    }
}

/// The letters of the step so far with those of one operation more.
fn with_awaited(
    here: &JobContext,
    letters: Sequence<Letter>,
    op: &Pending,
) -> Result<Sequence<Letter>, NoMemory>
    ensures { IfOk result (λ more. (own : PairState)
        → more ≡ letters ++ letters_of (sender here.now) (length letters) (sent_again here.now own op.now)) }
{
    with_letter(here, letters, awaited(here, op)?)
}

fn all_after(
    here: &JobContext,
    locks: &PairLock,
    before: Sequence<Letter>,
) -> Result<Sequence<Letter>, NoMemory>
    ensures { IfOk result (λ letters. (own : PairState)
        → letters ≡ before ++ letters_of (sender here.now) (length before) (flat_map (λ row. sent_again here.now own row.1) locks.now)) }
{
    let mut letters = before;
    for (_, op) in locks.iter() {
        letters = with_awaited(here, letters, op)?;
    }
    Ok(letters)
}

/// These letters of a step, and after them those of all pending operations that wait for an answer.
///
/// # Errors
/// Out of memory.
pub fn letters_after(
    here: &JobContext,
    side: &PairMemory,
    before: Sequence<Letter>,
) -> Result<Sequence<Letter>, NoMemory>
    ensures { IfOk result (λ letters. (own : PairState)
        → letters ≡ before ++ letters_of (sender here.now) (length before) (flat_map (λ row. sent_again here.now own row.1) side.now.pending)) }
{
    all_after(here, &side.locks, before)
}
