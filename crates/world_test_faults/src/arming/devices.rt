//! Which device has a plan: the data device or the state device, and of two data devices the blank one.

use memory_runs::play_steps;
use std::alloc::Global;
use std::test::Fail;

/// After these steps of a blank the data device of server 1, which is blank, fails in the boot so often.
fn boot_of_blank(alloc: Global, shows: &str, steps: &str, faults: u32) -> Result<(), Fail> {
    let answer = if faults == 0 { "ok" } else { "failed" };
    let steps = format!(in alloc;
        "op calls 2; {steps}; 1 boots; failed {faults}; stopped 0; 1 shows 2; seen 1>op; line 2 {answer}; play out; failed {faults};
        line 4 ok; line 6 ok; line 8 fill 7"
    )?;
    play_steps(
        alloc,
        shows,
        "servers 3 slots 4\nop blank 1\nwait\na disk vol on 0 1 2\nwait\na write vol 0 fill 7\nwait\nb read vol 0\n",
        steps.as_str(),
    )
}

// The first write makes the store there.
#[test]
fn a_blank_device_is_armed_and_disarmed(rt: HostRuntime) -> Result<(), Fail> {
    let meets = "a plan of the blank device is met in the boot";
    boot_of_blank(
        rt.alloc(),
        meets,
        "1 stops; 1 blanks; 1 arms data write 1",
        1,
    )?;
    let other = "the state device loses its plan, and the blank device keeps its own";
    boot_of_blank(
        rt.alloc(),
        other,
        "1 stops; 1 blanks; 1 arms data write 1; 1 disarms state",
        1,
    )?;
    let disarmed = "a plan that the blank device has lost is not met";
    boot_of_blank(
        rt.alloc(),
        disarmed,
        "1 stops; 1 blanks; 1 arms data write 1; 1 disarms data",
        0,
    )?;
    let gone = "a plan of the device in whose place the blank one comes is gone with it";
    boot_of_blank(
        rt.alloc(),
        gone,
        "1 stops; 1 arms data write 1; 1 blanks",
        0,
    )
}

/// Of three servers, 0 and 1 have the disk, and server 2 takes part in the log alone. So it is told after these steps.
fn armed(alloc: Global, shows: &str, steps: &str, told: &str) -> Result<(), Fail> {
    let steps = format!(in alloc;
        "{steps}; {told}; play out; line 2 ok; line 4 ok; line 6 fill 7"
    )?;
    play_steps(
        alloc,
        shows,
        "servers 3 slots 4\na disk vol on 0 1\nwait\na write vol 0 fill 7\nwait\nb read vol 0\n",
        steps.as_str(),
    )
}

#[test]
fn calls_of_the_state_device(rt: HostRuntime) -> Result<(), Fail> {
    let log = "the log is kept on the state device, and no plan of the data device is met";
    armed(
        rt.alloc(),
        log,
        "2 arms data any 1; play out",
        "failed 0; stopped 0",
    )?;
    armed(
        rt.alloc(),
        log,
        "2 arms state any 1; play out",
        "failed 1; stopped 0",
    )
}

/// The lead's device gets such a plan once the disk is there, and of the write it is told so.
fn armed_before_the_write(alloc: Global, plan: &str, told: &str) -> Result<(), Fail> {
    let block = "a block is kept on the data device, and no plan of the state device is met";
    let steps = format!(in alloc; "a calls 2; agree; wait; 0 arms {plan}; a calls 4; agree")?;
    armed(alloc, block, steps.as_str(), told)
}

#[test]
fn calls_of_the_data_device(rt: HostRuntime) -> Result<(), Fail> {
    armed_before_the_write(rt.alloc(), "state any 1", "failed 0; stopped 0")?;
    armed_before_the_write(rt.alloc(), "data any 1", "failed 1; stopped 0")?;
    armed_before_the_write(rt.alloc(), "state any 1 stop", "failed 0; stopped 0")?;
    armed_before_the_write(rt.alloc(), "data any 1 stop", "failed 0; stopped 1")
}

/// The operator's line is done first, and of the run it is told so. Server 2 takes part in the log alone.
fn ordered(alloc: Global, line: &str, told: &str) -> Result<(), Fail> {
    let script = format!(in alloc;
        "servers 3 slots 4\nop {line}\nwait\na disk vol on 0 1\nwait\na write vol 0 fill 7\nwait\nb read vol 0\n"
    )?;
    let steps = format!(in alloc;
        "by lines; play out; {told}; line 2 ok; line 4 ok; line 6 ok; line 8 fill 7"
    )?;
    play_steps(
        alloc,
        "a line arms the device that it names, or the data device to stop the server",
        script.as_str(),
        steps.as_str(),
    )
}

#[test]
fn the_device_that_a_line_names(rt: HostRuntime) -> Result<(), Fail> {
    ordered(rt.alloc(), "fault 2 data sync 1", "failed 0; stopped 0")?;
    ordered(rt.alloc(), "fault 2 state sync 1", "failed 1; stopped 0")?;
    ordered(rt.alloc(), "stop 2 at 1", "failed 0; stopped 0")?;
    ordered(rt.alloc(), "stop 0 at 1", "failed 0; stopped 1")
}
