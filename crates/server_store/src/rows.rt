//! Rows of a store: one more, and whether they are those of another store.

ghost use Rattle.std.specs.Prelude.{◌≡◌, ◌≤◌, ◌<◌, ◌+◌, ◌↔◌, true};
ghost use Rattle.client_rows.specs.Rows.{rows_after};

use client_rows::{Row, Rows};
use petal_base::{MapId, Origin};

/// Keeps the row of the write that a put is for, if it is for one. There is room for it.
pub(crate) fn put_row(rows: &mut Rows, map: MapId, origin: &Option<Origin>)
    requires { 0 < rows.old.spare }
    ensures rows { rows.new.rows ≡ rows_after rows.old.rows map origin.now }
    ensures spare { rows.old.spare ≤ rows.new.spare + 1 }
{
    if let Some(origin) = origin {
        rows.put(map, *origin);
    }
}

fn is_same_row(a: &Row, b: &Row) -> bool
    ensures { (result ≡ true) ↔ (a.now ≡ b.now) }
{
    a == b && a.seq == b.seq
}

/// Whether rows are equal, with their numbers.
pub(crate) fn are_same_rows(these: &[Row], others: &[Row]) -> bool
    ensures { (result ≡ true) ↔ (these.now ≡ others.now) }
{
    if these.len() != others.len() {
        return false;
    }
    for i in 0..these.len() {
        if !is_same_row(&these[i], &others[i]) {
            return false;
        }
    }
    true
}
