//! What is kept for one place.

ghost use Rattle.std.specs.Prelude.{◌≡◌};
ghost use Rattle.spec_paxos.specs.Kept.{empty_row, greater, promise_row, accept_row, choose_row};

use petal_command::{Ballot, Command};
use spec_paxos::Row;

/// Nothing is kept.
pub fn empty_row() -> Row
    ensures { result ≡ empty_row }
{
    Row {
        promised: None,
        accepted: None,
        chosen: None,
    }
}

/// The same row again. It takes no memory.
pub fn row_again(row: &Row) -> Row
    ensures { result ≡ row.now }
{
    Row {
        promised: row.promised,
        accepted: acceptance_again(&row.accepted),
        chosen: command_again(&row.chosen),
    }
}

/// The row with a promise.
pub fn promise_row(row: Row, ballot: Ballot) -> Row
    ensures { result ≡ promise_row row ballot }
{
    Row {
        promised: greater(row.promised, ballot),
        accepted: row.accepted,
        chosen: row.chosen,
    }
}

/// The row with an acceptance.
pub fn accept_row(row: Row, ballot: Ballot, command: Command) -> Row
    ensures { result ≡ accept_row row ballot command }
{
    Row {
        promised: greater(row.promised, ballot),
        accepted: Some((ballot, command)),
        chosen: row.chosen,
    }
}

/// The row with a chosen command.
pub fn choose_row(row: Row, command: Command) -> Row
    ensures { result ≡ choose_row row command }
{
    Row {
        promised: row.promised,
        accepted: row.accepted,
        chosen: Some(command),
    }
}

/// The higher of what was promised and a ballot.
fn greater(promised: Option<Ballot>, ballot: Ballot) -> Option<Ballot>
    ensures { result ≡ greater promised ballot }
{
    match promised {
        Some(before) if !before.is_at_most(ballot) => promised,
        _ => Some(ballot),
    }
}

/// The same acceptance again. It takes no memory.
pub fn acceptance_again(accepted: &Option<(Ballot, Command)>) -> Option<(Ballot, Command)>
    ensures { result ≡ accepted.now }
{
    match accepted {
        None => None,
        Some((ballot, command)) => Some((*ballot, command.copy())),
    }
}

/// The same command again. It takes no memory.
pub fn command_again(chosen: &Option<Command>) -> Option<Command>
    ensures { result ≡ chosen.now }
{
    match chosen {
        None => None,
        Some(command) => Some(command.copy()),
    }
}
