//! A device of a server fails in the middle of a run, or stops its server: in each of its calls in turn.

use memory_runs::play_steps;
use std::alloc::Global;
use std::test::Fail;

// Of three servers, server 0 leads block 0, and server 1 is second.
const SCRIPT: &str =
    "servers 3 slots 4\na disk vol on 0 1 2\nwait\na write vol 0 fill 7\nwait\nb read vol 0\n";

/// A run in which a device has this plan is told of so, and each line is answered as if none had.
fn strike(alloc: Global, shows: &str, plan: &str, told: &str) -> Result<(), Fail> {
    let steps = format!(in alloc; "{plan}; play out; {told}; line 2 ok; line 4 ok; line 6 fill 7")?;
    play_steps(alloc, shows, SCRIPT, steps.as_str())
}

/// Calls of a device, each of which meets a plan in a run of its own; and what is told of each run.
#[derive(Clone, Copy)]
struct Calls {
    shows: &'static str,
    before: &'static str,
    arms: &'static str,
    first: u32,
    last: u32,
    how: &'static str,
    told: &'static str,
}

fn strike_in_turn(alloc: Global, calls: &Calls) -> Result<(), Fail> {
    let Calls {
        before,
        arms,
        how,
        ..
    } = *calls;
    for at in calls.first..=calls.last {
        let plan = format!(in alloc; "{before}{arms} {at}{how}")?;
        strike(alloc, calls.shows, plan.as_str(), calls.told)?;
    }
    Ok(())
}

fn strike_all(alloc: Global, all: &[Calls]) -> Result<(), Fail> {
    for calls in all {
        strike_in_turn(alloc, calls)?;
    }
    Ok(())
}

/// Each of the first calls of the lead's data device since the run began fails. Twelve are for the write. Its mark is still there when
/// the lead ticks, before the reader has its answer, and goes in four more.
const FAILS: Calls = Calls {
    shows: "a device fails, and each line is answered as if none had",
    before: "",
    arms: "0 arms data any",
    first: 1,
    last: 16,
    how: "",
    told: "failed 1; stopped 0",
};

/// There are no more calls than these: where the next one is to fail, none does.
const FAILS_NO_MORE: Calls = Calls {
    shows: "no call of the device is left to fail",
    first: 17,
    last: 17,
    told: "failed 0; stopped 0",
    ..FAILS
};

#[test]
fn each_call_of_the_leads_data_device(rt: HostRuntime) -> Result<(), Fail> {
    strike_all(rt.alloc(), &[FAILS, FAILS_NO_MORE])
}

const SECOND_FAILS: &[Calls] = &[
    Calls {
        arms: "1 arms data any",
        last: 8,
        ..FAILS
    },
    Calls {
        arms: "1 arms data any",
        first: 9,
        last: 9,
        ..FAILS_NO_MORE
    },
];

#[test]
fn each_call_of_the_seconds_data_device(rt: HostRuntime) -> Result<(), Fail> {
    strike_all(rt.alloc(), SECOND_FAILS)
}

const STATE_FAILS: &[Calls] = &[
    Calls {
        arms: "0 arms state any",
        last: 8,
        ..FAILS
    },
    Calls {
        arms: "1 arms state any",
        last: 8,
        ..FAILS
    },
];

#[test]
fn calls_of_both_state_devices(rt: HostRuntime) -> Result<(), Fail> {
    strike_all(rt.alloc(), STATE_FAILS)
}

/// The plan is made once the disk is there, and stops the lead in such a call of the write. What was not synced is lost, so the commit
/// that it was about is not made. No tick comes to the lead after the write.
const STOPS: Calls = Calls {
    shows: "a server stops in a call of a device, and the write is answered as if it had not",
    before: "a calls 2; agree; wait; ",
    last: 12,
    how: " stop",
    told: "stopped 1; failed 0; committed 0",
    ..FAILS
};

/// There are no more calls than these.
const STOPS_NO_MORE: Calls = Calls {
    shows: "no call of the device is left to stop at",
    first: 13,
    last: 13,
    told: "stopped 0; failed 0",
    ..STOPS
};

#[test]
fn each_call_of_a_write_at_the_lead(rt: HostRuntime) -> Result<(), Fail> {
    strike_all(rt.alloc(), &[STOPS, STOPS_NO_MORE])
}

const SECOND_STOPS: &[Calls] = &[
    Calls {
        arms: "1 arms data any",
        last: 6,
        ..STOPS
    },
    Calls {
        arms: "1 arms data any",
        first: 7,
        last: 7,
        ..STOPS_NO_MORE
    },
];

#[test]
fn each_call_of_a_write_at_the_second_server(rt: HostRuntime) -> Result<(), Fail> {
    strike_all(rt.alloc(), SECOND_STOPS)
}

/// The plan is there from the start, and stops the server in such a call of its state device.
const STOPS_BESIDE_THE_LOG: Calls = Calls {
    shows: "a server stops in a call of its state device, and each line is answered as if it had not",
    before: "",
    arms: "0 arms state any",
    last: 8,
    ..STOPS
};

#[test]
fn calls_of_a_state_device(rt: HostRuntime) -> Result<(), Fail> {
    strike_in_turn(rt.alloc(), &STOPS_BESIDE_THE_LOG)
}

/// Each of the first syncs of the device since the run began fails in turn, only after it has synced: where that was the last sync of a
/// commit, the commit is made.
fn each_sync(alloc: Global, arms: &str, commits: &[u32]) -> Result<(), Fail> {
    let shows = "a device fails late, and each line is answered as if it had not";
    for (at, committed) in commits.iter().enumerate() {
        let sync = at.saturating_add(1);
        let plan = format!(in alloc; "{arms} sync {sync} late")?;
        let told = format!(in alloc; "failed 1; stopped 0; committed {committed}")?;
        strike(alloc, shows, plan.as_str(), told.as_str())?;
    }
    Ok(())
}

/// There are no more syncs of the lead's data device than seven.
const SYNCS_NO_MORE: Calls = Calls {
    shows: "no sync of the device is left to fail late",
    arms: "0 arms data sync",
    first: 8,
    last: 8,
    how: " late",
    told: "failed 0; stopped 0; committed 0",
    ..FAILS
};

const SECOND_SYNCS_NO_MORE: Calls = Calls {
    arms: "1 arms data sync",
    first: 4,
    last: 4,
    ..SYNCS_NO_MORE
};

// The block is marked, and put, and at a tick its mark is taken away: a record after its gate, and the gate; before a put the content.
#[test]
fn each_sync_of_a_data_device(rt: HostRuntime) -> Result<(), Fail> {
    each_sync(rt.alloc(), "0 arms data", &[0, 1, 0, 0, 1, 0, 1])?;
    each_sync(rt.alloc(), "1 arms data", &[0, 0, 1])?;
    strike_all(rt.alloc(), &[SYNCS_NO_MORE, SECOND_SYNCS_NO_MORE])
}

#[test]
fn syncs_of_a_state_device(rt: HostRuntime) -> Result<(), Fail> {
    each_sync(rt.alloc(), "0 arms state", &[0, 1, 0, 1, 0, 1])?;
    each_sync(rt.alloc(), "1 arms state", &[0, 1, 0, 1, 0, 1])
}

/// What a late write has written is lost, as it was not synced.
#[test]
fn writes_that_are_late(rt: HostRuntime) -> Result<(), Fail> {
    let shows = "a write of a gate fails late, and its commit is not made";
    for plan in [
        "0 arms data write 2 late",
        "0 arms data write 5 late stop",
        "1 arms data write 3 late",
        "1 arms state write 2 late stop",
    ] {
        strike(rt.alloc(), shows, plan, "committed 0")?;
    }
    Ok(())
}

/// A device fails in a job, and the other one in the next call of its kind, which comes while both are opened again: that one is asked
/// once more.
#[test]
fn the_other_device_fails_as_both_are_opened_again(rt: HostRuntime) -> Result<(), Fail> {
    let shows =
        "a device fails in a job, the other as both are opened again, and it is one fault of the server";
    for plans in [
        "0 arms data write 2; 0 arms state read 1",
        "0 arms data sync 2; 0 arms state sync 1",
        "1 arms state write 1; 1 arms data read 1",
    ] {
        strike(rt.alloc(), shows, plans, "failed 1; stopped 0")?;
    }
    Ok(())
}
