//! Worlds stepped by chance.

use memory_runs::simulate_all;
use random_runs::{Habit, Tale};
use std::test::Fail;

#[test]
fn worlds_at_random(rt: HostRuntime) -> Result<(), Fail> {
    let all = simulate_all(rt.alloc(), Tale::Plain, Habit::Even)?;
    assert!(rt; all.answered >= 1000 && all.no_space >= 1, "{all:?}");
    Ok(())
}

#[test]
fn worlds_that_take_snapshots(rt: HostRuntime) -> Result<(), Fail> {
    let all = simulate_all(rt.alloc(), Tale::Snaps, Habit::Brisk)?;
    let enough = all.answered >= 400 && all.snapshots >= 10 && all.old_reads >= 40;
    assert!(rt; enough, "{all:?}");
    Ok(())
}

#[test]
fn worlds_that_move_a_disk(rt: HostRuntime) -> Result<(), Fail> {
    let all = simulate_all(rt.alloc(), Tale::Moves, Habit::Long)?;
    let moves = all.moves >= 20 && all.fills >= 80 && all.by_old_map >= 50;
    assert!(rt; all.answered >= 800 && moves, "{all:?}");
    Ok(())
}
