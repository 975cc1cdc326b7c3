//! Worlds stepped by chance, in which a device fails, or stops its server.

use memory_runs::{Memory, SEEDS, simulate_all, start};
use petal_base::ServerId;
use petal_disk::{CallKind, Plan, Which};
use random_runs::{Count, Habit, Random, Tale, script_by, simulate_struck};
use std::alloc::Global;
use std::test::Fail;

/// One of the devices of the first three servers.
fn device_by(random: &mut Random) -> (ServerId, Which) {
    let server = random.below(3) as u8;
    let which = if random.below(2) == 0 {
        Which::Data
    } else {
        Which::State
    };
    (server, which)
}

/// One of its first calls fails, or one of its first syncs after its work.
fn plan_by(random: &mut Random, stop: bool, late: bool) -> Plan {
    Plan {
        kind: if late { CallKind::Sync } else { CallKind::Any },
        at: random.below(40).saturating_add(1) as u32,
        stop,
        late,
    }
}

fn simulate_failing(alloc: Global, seed: u32, stop: bool, late: bool) -> Result<Count, Fail> {
    let mut random = Random::new(seed);
    let text = script_by(alloc, &mut random, Tale::Plain)?;
    let device = device_by(&mut random);
    let plan = plan_by(&mut random, stop, late);
    let run = start(alloc, text.as_str())?;
    simulate_struck(alloc, &Memory, seed, random, run, device, plan)
}

fn simulate_all_failing(alloc: Global, stop: bool, late: bool) -> Result<Count, Fail> {
    let mut all = Count::new();
    for seed in 1..=SEEDS {
        all = all.and(simulate_failing(alloc, seed, stop, late)?);
    }
    Ok(all)
}

#[test]
fn worlds_whose_devices_fail(rt: HostRuntime) -> Result<(), Fail> {
    let all = simulate_all_failing(rt.alloc(), false, false)?;
    assert!(rt; all.answered >= 400 && all.faults >= 12, "{all:?}");
    Ok(())
}

#[test]
fn worlds_whose_devices_stop_their_servers(rt: HostRuntime) -> Result<(), Fail> {
    let all = simulate_all_failing(rt.alloc(), true, false)?;
    assert!(rt; all.answered >= 400 && all.stopped_in >= 12, "{all:?}");
    Ok(())
}

#[test]
fn worlds_whose_devices_fail_late(rt: HostRuntime) -> Result<(), Fail> {
    let all = simulate_all_failing(rt.alloc(), false, true)?;
    let enough = all.answered >= 400 && all.faults >= 6 && all.committed_jobs >= 2;
    assert!(rt; enough, "{all:?}");
    Ok(())
}

#[test]
fn worlds_whose_devices_stop_their_servers_late(rt: HostRuntime) -> Result<(), Fail> {
    let all = simulate_all_failing(rt.alloc(), true, true)?;
    let enough = all.answered >= 400 && all.stopped_in >= 6 && all.committed_stops >= 2;
    assert!(rt; enough, "{all:?}");
    Ok(())
}

#[test]
fn worlds_whose_servers_are_struck_late_and_start_again(rt: HostRuntime) -> Result<(), Fail> {
    let all = simulate_all(rt.alloc(), Tale::Starts, Habit::Struck)?;
    let jobs = all.committed_jobs >= 3 && all.committed_stops >= 5;
    assert!(rt;
        all.answered >= 300 && jobs && all.committed_boots >= 5,
        "{all:?}"
    );
    Ok(())
}

#[test]
fn worlds_whose_servers_stop_right_after_a_commit(rt: HostRuntime) -> Result<(), Fail> {
    let all = simulate_all(rt.alloc(), Tale::Cuts, Habit::CutOff)?;
    let enough = all.answered >= 300 && all.cut_jobs >= 12 && all.cut_boots >= 20;
    assert!(rt; enough, "{all:?}");
    Ok(())
}
