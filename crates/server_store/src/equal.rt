//! Whether lists of entries, and lists of marks, are equal.

ghost use Rattle.std.specs.Prelude.{◌≡◌, ◌↔◌, true};

use busy_marks::{Mark, MarkKind};
use physical_map::Entry;

fn is_same_entry(a: &Entry, b: &Entry) -> bool
    ensures { (result ≡ true) ↔ (a.now ≡ b.now) }
{
    a.key.map == b.key.map
        && a.key.block == b.key.block
        && a.key.epoch == b.key.epoch
        && a.slot == b.slot
        && a.version == b.version
}

pub(crate) fn are_same_entries(these: &[Entry], others: &[Entry]) -> bool
    ensures { (result ≡ true) ↔ (these.now ≡ others.now) }
{
    if these.len() != others.len() {
        return false;
    }
    for i in 0..these.len() {
        if !is_same_entry(&these[i], &others[i]) {
            return false;
        }
    }
    true
}

fn is_same_kind(a: MarkKind, b: MarkKind) -> bool
    ensures { (result ≡ true) ↔ (a ≡ b) }
{
    match (a, b) {
        (MarkKind::Busy, MarkKind::Busy) => true,
        (MarkKind::Stale, MarkKind::Stale) => true,
        _ => false,
    }
}

fn is_same_mark(a: &Mark, b: &Mark) -> bool
    ensures { (result ≡ true) ↔ (a.now ≡ b.now) }
{
    a.cell.map == b.cell.map && a.cell.block == b.cell.block && is_same_kind(a.kind, b.kind)
}

pub(crate) fn are_same_marks(these: &[Mark], others: &[Mark]) -> bool
    ensures { (result ≡ true) ↔ (these.now ≡ others.now) }
{
    if these.len() != others.len() {
        return false;
    }
    for i in 0..these.len() {
        if !is_same_mark(&these[i], &others[i]) {
            return false;
        }
    }
    true
}
