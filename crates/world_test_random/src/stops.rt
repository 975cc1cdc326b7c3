//! Worlds stepped by chance, in which servers stop: two of five by the operator's lines, which may start again, also with blank
//! data devices.

use memory_runs::simulate_all;
use random_runs::{Habit, Tale};
use std::test::Fail;

#[test]
fn worlds_at_random(rt: HostRuntime) -> Result<(), Fail> {
    let all = simulate_all(rt.alloc(), Tale::Stops, Habit::Even)?;
    let enough = all.answered >= 400 && all.unavailable >= 5 && all.stops >= 30;
    assert!(rt; enough, "{all:?}");
    Ok(())
}

#[test]
fn worlds_whose_servers_start_again(rt: HostRuntime) -> Result<(), Fail> {
    let all = simulate_all(rt.alloc(), Tale::Starts, Habit::Even)?;
    assert!(rt; all.answered >= 300 && all.boots >= 40, "{all:?}");
    Ok(())
}

#[test]
fn worlds_whose_servers_are_blanked(rt: HostRuntime) -> Result<(), Fail> {
    let all = simulate_all(rt.alloc(), Tale::Blanks, Habit::Even)?;
    let enough = all.answered >= 300 && all.blanks >= 40 && all.boots >= 40;
    assert!(rt; enough, "{all:?}");
    Ok(())
}

#[test]
fn worlds_that_move_a_disk_while_servers_stop(rt: HostRuntime) -> Result<(), Fail> {
    let all = simulate_all(rt.alloc(), Tale::MovesAndStarts, Habit::Long)?;
    let moves = all.moves >= 15 && all.fills >= 80 && all.by_old_map >= 40;
    assert!(rt; all.answered >= 1000 && moves && all.boots >= 50, "{all:?}");
    Ok(())
}
