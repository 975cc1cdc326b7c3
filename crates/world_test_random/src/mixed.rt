//! Worlds stepped by chance, in which all kinds of steps come at once: letters are lost, doubled and late; servers stop, are blanked and
//! start, and meet plans of all kinds at both devices; a disk moves and has snapshots.

use memory_runs::simulate_some;
use random_runs::{Habit, Tale};
use std::alloc::Global;
use std::test::Fail;

/// What came about in the worlds of these ten seeds.
fn mixed(alloc: Global, first: u32, last: u32) -> Result<(), Fail> {
    let all = simulate_some(alloc, Tale::All, Habit::Mixed, first, last)?;
    let asked = all.answered >= 400 && all.snapshots >= 12 && all.moves >= 10;
    let old = all.old_reads >= 25 && all.fills >= 20 && all.by_old_map >= 6;
    let ordered = all.stops >= 25 && all.blanks >= 12 && all.boots >= 28;
    let struck = all.plans >= 150 && all.faults >= 12 && all.stopped_in >= 7;
    if asked && old && ordered && struck {
        return Ok(());
    }
    Err(Fail::new(format_args!("{all:?}")))
}

#[test]
fn worlds_of_the_first_seeds(rt: HostRuntime) -> Result<(), Fail> {
    mixed(rt.alloc(), 1, 10)
}

#[test]
fn worlds_of_the_last_seeds(rt: HostRuntime) -> Result<(), Fail> {
    mixed(rt.alloc(), 11, 20)
}
