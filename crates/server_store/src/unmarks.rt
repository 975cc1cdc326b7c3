//! Marks that are taken away from several cells together.

ghost use Rattle.std.specs.Prelude.{◌≡◌, ◌≤◌, length, take};
ghost use Rattle.server_store.specs.Committing.{unmarked, unmarks_of};

use busy_marks::{MarkKind, Marks};
use data_device::record::StoreRecord;
use petal_base::Cell;

/// Puts a record for each of the cells that has the mark into the list, and answers how many they are.
pub(crate) fn spell_unmarks(
    marks: &Marks,
    kind: MarkKind,
    cells: &[Cell],
    into: &mut [StoreRecord],
) -> usize
    requires { length cells.now ≤ length into.old }
    ensures spelled { take result into.new ≡ unmarks_of kind cells.now marks.now.marks }
    ensures counted { length (unmarks_of kind cells.now marks.now.marks) ≡ result }
    ensures few { result ≤ length cells.now }
{
    let mut count = 0;
    for i in 0..cells.len() {
        let cell = cells[i];
        if marks.has(kind, cell) {
            into[count] = StoreRecord::Unmark { kind, cell };
            count += 1;
        }
    }
    count
}

/// Takes the marks of this kind away from the cells.
pub(crate) fn clear_all(marks: &mut Marks, kind: MarkKind, cells: &[Cell])
    ensures { marks.new.marks ≡ unmarked kind cells.now marks.old.marks }
{
    for cell in cells {
        marks.clear(kind, *cell);
    }
}
