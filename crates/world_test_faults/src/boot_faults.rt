//! A device of a server fails, or stops it, in a boot or after the boot of a blanked server.

use memory_runs::play_steps;
use std::alloc::Global;
use std::test::Fail;

/// The state device of server 0, which is armed while the server is stopped, fails in such a call of the boot, which has raised the
/// incarnation or not. It does so no less where the plan stops the server.
fn failing_boot(alloc: Global, plan: &str, committed: u32) -> Result<(), Fail> {
    let steps = format!(in alloc;
        "op calls 2; 0 stops; 0 shows 2; seen 0>op; wait; op calls 4; 0 arms state {plan}; 0 boots; failed 1; stopped 0; committed {committed};
        not 0 ticks; not 0 boots; not sent 2 down 0>1; 0 shows 4; seen 0>op; line 4 failed; op calls 5; 0 boots; failed 1; sent 2 down 0>1; 0 shows 5; seen 0>op; line 5 ok;
        play out; line 7 ok; line 9 ok; line 11 fill 7"
    )?;
    play_steps(
        alloc,
        "a device fails in a boot: the server stays stopped, tells nobody, and boots for the next line",
        "servers 3 slots 4\nop stop 0\nwait\nop start 0\nop start 0\nwait\na disk vol on 0 1 2\nwait\na write vol 0 fill 7\nwait
b read vol 0\n",
        steps.as_str(),
    )
}

#[test]
fn boots_that_fail(rt: HostRuntime) -> Result<(), Fail> {
    // its device is read again first, which syncs it twice
    for plan in [
        "write 1",
        "write 2",
        "write 1 stop",
        "write 2 stop",
        "sync 3",
        "sync 4",
        "sync 3 stop",
        "sync 4 stop",
    ] {
        failing_boot(rt.alloc(), plan, 0)?;
    }
    Ok(())
}

#[test]
fn boots_that_fail_late(rt: HostRuntime) -> Result<(), Fail> {
    // what is written and not synced is lost, and the last sync is that of the commit
    failing_boot(rt.alloc(), "write 1 late", 0)?;
    failing_boot(rt.alloc(), "write 2 late stop", 0)?;
    failing_boot(rt.alloc(), "sync 3 late", 0)?;
    failing_boot(rt.alloc(), "sync 4 late", 1)?;
    failing_boot(rt.alloc(), "sync 4 late stop", 1)
}

// After the state device the data device fails too, as both are opened again, and is asked once more.
#[test]
fn boots_in_which_both_devices_fail(rt: HostRuntime) -> Result<(), Fail> {
    failing_boot(rt.alloc(), "write 1; 0 arms data sync 3", 0)?;
    failing_boot(rt.alloc(), "sync 4 late; 0 arms data sync 4", 1)
}

/// Each device of server 0 fails once in such a call as it is read again, is asked once more, and the boot is done.
fn boot_that_reads_twice(alloc: Global, data: &str, state: &str) -> Result<(), Fail> {
    let steps = format!(in alloc;
        "op calls 2; 0 stops; 0 shows 2; seen 0>op; wait; op calls 4; 0 arms data {data}; 0 arms state {state}; 0 boots; failed 0; stopped 0;
        sent 2 down 0>1; 0 shows 4; seen 0>op; line 4 ok; play out; line 6 ok; line 8 ok; line 10 fill 7"
    )?;
    play_steps(
        alloc,
        "both devices fail as they are read again in a boot, each once, and the server runs",
        "servers 3 slots 4\nop stop 0\nwait\nop start 0\nwait\na disk vol on 0 1 2\nwait\na write vol 0 fill 7\nwait\nb read vol 0\n",
        steps.as_str(),
    )
}

#[test]
fn a_boot_reads_both_devices_again(rt: HostRuntime) -> Result<(), Fail> {
    boot_that_reads_twice(rt.alloc(), "read 1", "read 1")?;
    boot_that_reads_twice(rt.alloc(), "sync 1", "read 2")?;
    boot_that_reads_twice(rt.alloc(), "sync 2", "sync 2")
}

/// A device fails in the boot of server 1 after its blank, which has raised the incarnation or not. It does so no less where the plan
/// stops the server.
fn failing_boot_of_blank(alloc: Global, plan: &str, committed: u32) -> Result<(), Fail> {
    let steps = format!(in alloc;
        "op calls 2; 1 stops; 1 blanks; 1 arms {plan}; failed 0; 1 boots; failed 1; stopped 0; committed {committed};
        not 1 ticks; not 1 boots; not 1 blanks; not sent 2 down 1>0; 1 shows 2; seen 1>op; line 2 failed; op calls 3; 1 boots; failed 1; sent 2 down 1>0; 1 shows 3; seen 1>op; line 3 ok;
        play out; line 5 ok; line 7 ok; line 9 ok; line 10 ok; line 12 fill 7"
    )?;
    play_steps(
        alloc,
        "a device fails in the boot after a blank: the server stays stopped and tells nobody, and boots for the next line to be filled",
        "servers 3 slots 4\nop blank 1\nop start 1\nwait\na disk vol on 0 1 2\nwait\na write vol 0 fill 7\nwait\nop settle\nop stop 0\nwait
b read vol 0\n",
        steps.as_str(),
    )
}

#[test]
fn a_blank_device_fails_in_the_boot(rt: HostRuntime) -> Result<(), Fail> {
    // the calls that make a store there
    for plan in [
        "data write 1",
        "data write 2",
        "data write 3 stop",
        "data write 4",
        "data write 5 stop",
        "data sync 1",
        "data sync 2 stop",
        "data sync 3",
        "data sync 4",
        "data sync 5 stop",
        "data sync 6",
        // the store is whole then, and is made again
        "data sync 6 late",
    ] {
        failing_boot_of_blank(rt.alloc(), plan, 0)?;
    }
    Ok(())
}

#[test]
fn a_state_device_fails_in_the_boot_after_a_blank(rt: HostRuntime) -> Result<(), Fail> {
    // those that raise the incarnation; the device is read again first, which syncs it twice
    for plan in [
        "state write 1",
        "state write 2 stop",
        "state sync 3 stop",
        "state sync 4",
    ] {
        failing_boot_of_blank(rt.alloc(), plan, 0)?;
    }
    failing_boot_of_blank(rt.alloc(), "state sync 4 late", 1)
}

// Line 6 is the blank. After it the server is started twice, should it have stopped, and each time it is waited until it is filled.
const FILLED: &str =
    "servers 3 slots 4\na disk vol on 0 1 2\nwait\na write vol 0 fill 7\nwait\nop blank 1\nop start 1\nop settle\nop start 1\nop settle\nop stop 0\nwait
b read vol 0\n";

/// The blank device of server 1 has this plan, which is met after the boot, as it tells.
fn met_after_the_boot(alloc: Global, plan: &str, told: &str) -> Result<(), Fail> {
    let steps = format!(in alloc;
        "a calls 2; agree; wait; a calls 4; agree; wait; op calls 6; 1 stops; 1 blanks; 1 arms data {plan}; 1 boots; 1 shows 6; seen 1>op; line 6 ok;
        play out; {told}; line 7 ok; line 8 ok; line 9 ok; line 10 ok; line 11 ok; line 13 fill 7"
    )?;
    play_steps(
        alloc,
        "the server that is to be filled stops in a call of its new device, and is filled once it starts again",
        FILLED,
        steps.as_str(),
    )
}

fn fails(alloc: Global, plan: &str) -> Result<(), Fail> {
    met_after_the_boot(alloc, plan, "failed 1; stopped 0")
}

fn stops(alloc: Global, plan: &str) -> Result<(), Fail> {
    met_after_the_boot(alloc, plan, "failed 0; stopped 1; committed 0")
}

fn fails_late(alloc: Global, plan: &str) -> Result<(), Fail> {
    met_after_the_boot(alloc, plan, "failed 1; stopped 0; committed 1")
}

fn stops_late(alloc: Global, plan: &str) -> Result<(), Fail> {
    met_after_the_boot(alloc, plan, "failed 0; stopped 1; committed 1")
}

// After the calls that make the store, of which the last one opens its gate, and the two syncs as it is read again.
#[test]
fn the_commit_of_its_own_join_is_cut_off(rt: HostRuntime) -> Result<(), Fail> {
    // what was not synced is lost: the commit is not made, and the next life finds the device as it was
    fails(rt.alloc(), "write 6")?;
    stops(rt.alloc(), "write 6 stop")?;
    fails(rt.alloc(), "sync 9")?;
    stops(rt.alloc(), "write 7 stop")?;
    fails(rt.alloc(), "sync 10")?;
    stops(rt.alloc(), "sync 10 stop")
}

#[test]
fn a_commit_of_the_fill_is_made_and_its_server_stops(rt: HostRuntime) -> Result<(), Fail> {
    // of its own join, and of the first put of a copy
    fails_late(rt.alloc(), "sync 10 late")?;
    stops_late(rt.alloc(), "sync 10 late stop")?;
    fails_late(rt.alloc(), "sync 13 late")?;
    stops_late(rt.alloc(), "sync 13 late stop")
}

#[test]
fn the_put_of_a_copy_is_cut_off(rt: HostRuntime) -> Result<(), Fail> {
    fails(rt.alloc(), "write 8")?;
    fails(rt.alloc(), "write 9")?;
    stops(rt.alloc(), "write 8 stop")?;
    stops(rt.alloc(), "write 9 stop")?;
    stops(rt.alloc(), "write 10 stop")
}
