//! Marks of two blocks.

use busy_marks::{MarkKind, Marks};
use petal_base::{Cell, NoMemory};
use std::test::Fail;

const HERE: Cell = Cell { map: 1, block: 5 };

const THERE: Cell = Cell { map: 1, block: 9 };

fn set_three(marks: &mut Marks) -> Result<(), NoMemory> {
    marks.set(MarkKind::Busy, THERE)?;
    marks.set(MarkKind::Stale, HERE)?;
    marks.set(MarkKind::Stale, HERE)
}

fn follow(marks: &Marks) -> bool {
    marks.next(1, None) == Some(5)
        && marks.next(1, Some(5)) == Some(9)
        && marks.next_map(Some(1)) == None
}

#[test]
fn marks(rt: HostRuntime) -> Result<(), Fail> {
    let mut marks = Marks::new(rt.alloc());
    set_three(&mut marks)?;
    assert!(rt; follow(&marks), "in order");
    marks.clear(MarkKind::Stale, HERE);
    assert!(rt; !marks.has(MarkKind::Stale, HERE) && marks.has(MarkKind::Busy, THERE));
    Ok(())
}
