//! Plans by chance, by which a sync of a server's device fails only after it has synced.

use crate::random::Random;
use petal_base::{NoMemory, ServerId};
use petal_disk::{CallKind, Plan, Which};
use petal_world::Host;
use std::alloc::Global;
use world_probe::Run;

/// One of so many next syncs of a server that runs is struck.
const RUNNING: usize = 6;

/// One of so many syncs is struck from a boot on: first the two by which the incarnation is raised.
const BOOTING: usize = 4;

/// The first of these: a boot syncs its state device twice as it is read again.
const FIRST: usize = 3;

/// One of so many next calls is struck by any plan.
const NEXT: usize = 24;

fn any_device(random: &mut Random) -> Which {
    if random.below(2) == 0 {
        Which::Data
    } else {
        Which::State
    }
}

fn any_kind(random: &mut Random) -> CallKind {
    match random.below(4) {
        0 => CallKind::Any,
        1 => CallKind::Read,
        2 => CallKind::Write,
        _ => CallKind::Sync,
    }
}

fn any_plan(random: &mut Random) -> Plan {
    Plan {
        kind: any_kind(random),
        at: random.below(NEXT).saturating_add(1) as u32,
        stop: random.below(2) == 0,
        late: random.below(2) == 0,
    }
}

/// One of the two devices of a server that runs or not gets any plan or, one time in four, loses the one that it has.
pub fn arm_any<H: Host>(
    alloc: Global,
    random: &mut Random,
    run: &mut Run<H>,
    server: ServerId,
) -> Result<bool, NoMemory> {
    let which = any_device(random);
    let plan = if random.below(4) == 0 {
        None
    } else {
        Some(any_plan(random))
    };
    run.arm(alloc, server, which, plan)
}

/// Both devices of a server lose their plans.
pub fn disarm<H: Host>(alloc: Global, run: &mut Run<H>, server: ServerId) -> Result<(), NoMemory> {
    run.arm(alloc, server, Which::Data, None)?;
    run.arm(alloc, server, Which::State, None)?;
    Ok(())
}

// The sync with this number fails late, and stops the server or does not.
fn late_plan(random: &mut Random, at: u32) -> Plan {
    Plan {
        kind: CallKind::Sync,
        at,
        stop: random.below(2) == 0,
        late: true,
    }
}

/// One of the two devices of a server that runs gets a plan for one of its next syncs, and the other one has none from now on: a
/// device that failed while both are read again would leave it unknown how the job ended.
pub fn arm_running<H: Host>(
    alloc: Global,
    random: &mut Random,
    run: &mut Run<H>,
    server: ServerId,
) -> Result<bool, NoMemory> {
    let at = random.below(RUNNING).saturating_add(1) as u32;
    let plan = late_plan(random, at);
    let (struck, spared) = if random.below(2) == 0 {
        (Which::Data, Which::State)
    } else {
        (Which::State, Which::Data)
    };
    run.arm(alloc, server, spared, None)?;
    run.arm(alloc, server, struck, Some(plan))
}

/// The state device of a server that is to boot gets a plan for one of the syncs of the boot, or of the jobs that follow. Its data
/// device has none from now on.
pub fn arm_stopped<H: Host>(
    alloc: Global,
    random: &mut Random,
    run: &mut Run<H>,
    server: ServerId,
) -> Result<(), NoMemory> {
    let at = random.below(BOOTING).saturating_add(FIRST) as u32;
    let plan = late_plan(random, at);
    run.arm(alloc, server, Which::Data, None)?;
    run.arm(alloc, server, Which::State, Some(plan))?;
    Ok(())
}
