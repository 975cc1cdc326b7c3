//! Lines that arm a device, and lines that take its plan away.

use memory_runs::{play_all, play_steps};
use std::alloc::Global;
use std::test::Fail;
use step_runner::Case;

// Of three servers, server 0 leads block 0. Its data device takes twelve calls for the write, the fifth of its syncs the last.
const ARMS: &[Case] = &[
    Case {
        shows: "a line gives its server the one plan, and then its glance, before which the server takes no other step",
        script: "servers 3 slots 4\na disk vol on 0 1 2\nwait\nop stop 0 at 12\nwait\na write vol 0 fill 7\nwait\nb read vol 0\n",
        steps: "by lines; a calls 2; agree; not 0 arms data any 12 stop; wait; not 0 arms data any 12 stop; op calls 4; not 0 shows 4;
            not 0 arms state any 12 stop; not 0 arms data any 11 stop; not 0 arms data sync 12 stop; not 0 arms data any 12;
            not 0 arms data any 12 late stop; not 0 disarms data; not 1 arms data any 12 stop; not 0 stops; 0 ticks;
            0 arms data any 12 stop; not 0 arms data any 12 stop; not 0 ticks; line 4 open; 0 shows 4; not 0 shows 4;
            seen 0>op; line 4 ok; play out; stopped 1; failed 0; committed 0; line 6 ok; line 8 fill 7",
    },
    Case {
        shows: "a line for a fault gives a plan that does not stop the server",
        script: "servers 3 slots 4\na disk vol on 0 1 2\nwait\nop fault 0 data sync 5\nwait\na write vol 0 fill 7\nwait\nb read vol 0\n",
        steps: "by lines; a calls 2; agree; wait; op calls 4; not 0 arms data sync 5 stop; not 0 arms data any 5; not 0 arms state sync 5;
            0 arms data sync 5; 0 shows 4; seen 0>op; line 4 ok; play out; failed 1; stopped 0; line 6 ok; line 8 fill 7",
    },
    Case {
        shows: "a device of a server that is stopped is armed by a line too",
        script: "servers 3 slots 4\nop stop 0\nop fault 0 state sync 3\nwait\na disk vol on 0 1 2\n",
        steps: "by lines; op calls 2; not 0 shows 2; 0 stops; 0 shows 2; seen 0>op; op calls 3; not 0 stops; not 0 boots; 0 arms state sync 3;
            0 shows 3; seen 0>op; line 3 ok; play out; failed 0; line 5 ok",
    },
];

#[test]
fn lines_that_arm(rt: HostRuntime) -> Result<(), Fail> {
    play_all(rt.alloc(), ARMS)
}

const STARTS: &[Case] = &[
    Case {
        shows: "a start takes the plans away from a server that runs",
        script: "servers 3 slots 4\na disk vol on 0 1 2\nwait\nop stop 0 at 1\nop fault 0 state sync 1\nop start 0\nwait\na write vol 0 fill 7
a disk log on 1 2\nwait\nb read vol 0\n",
        steps: "by lines; a calls 2; agree; wait; op calls 4; 0 arms data any 1 stop; 0 shows 4; seen 0>op; line 4 ok; op calls 5; 0 arms state sync 1;
            0 shows 5; seen 0>op; line 5 ok; op calls 6; not 0 shows 6; not 0 boots; not 0 disarms state; 0 disarms data; not 0 disarms data;
            not 0 shows 6; 0 disarms state; not 0 boots; 0 shows 6; seen 0>op; line 6 ok; play out; stopped 0; failed 0; line 8 ok; line 9 ok;
            line 11 fill 7",
    },
    Case {
        shows: "with the plan of its state device the next disk fails there",
        script: "servers 3 slots 4\na disk vol on 0 1 2\nwait\nop fault 0 state sync 1\nwait\na write vol 0 fill 7\na disk log on 1 2\nwait\nb read vol 0\n",
        steps: "by lines; play out; stopped 0; failed 1; line 4 ok; line 6 ok; line 7 ok; line 9 fill 7",
    },
    Case {
        shows: "a start takes the plans away before the boot",
        script: "servers 3 slots 4\nop stop 0\nop fault 0 state sync 3\nop start 0\n",
        steps: "by lines; op calls 2; 0 stops; 0 shows 2; seen 0>op; op calls 3; 0 arms state sync 3; 0 shows 3; seen 0>op; op calls 4; not 0 boots;
            0 disarms data; not 0 boots; 0 disarms state; 0 boots; failed 0; 0 shows 4; seen 0>op; line 4 ok",
    },
    Case {
        shows: "with that plan the boot fails",
        script: "servers 3 slots 4\nop stop 0\nop fault 0 state sync 3\nop start 0\n",
        steps: "op calls 2; 0 stops; 0 shows 2; seen 0>op; op calls 3; 0 arms state sync 3; 0 shows 3; seen 0>op; op calls 4; 0 boots; failed 1;
            0 shows 4; seen 0>op; line 4 failed",
    },
    Case {
        shows: "a blank takes the plans away before the boot",
        script: "servers 3 slots 4\nop fault 0 state sync 3\nop blank 0\n",
        steps: "by lines; op calls 2; 0 arms state sync 3; 0 shows 2; seen 0>op; op calls 3; not 0 blanks; not 0 disarms data; 0 stops; not 0 boots;
            not 0 disarms data; 0 blanks; not 0 boots; 0 disarms data; 0 disarms state; not 0 blanks; not 0 shows 3; 0 boots; failed 0; 0 shows 3;
            seen 0>op; line 3 ok",
    },
];

#[test]
fn starts_take_plans_away(rt: HostRuntime) -> Result<(), Fail> {
    play_all(rt.alloc(), STARTS)
}

/// The operator's line is done before the write of which the lead is told so, and each line is answered as if it had not been.
fn done_before_the_write(alloc: Global, line: &str, told: &str) -> Result<(), Fail> {
    let script = format!(in alloc;
        "servers 3 slots 4\na disk vol on 0 1 2\nwait\nop {line}\nwait\na write vol 0 fill 7\nwait\nb read vol 0\n"
    )?;
    let steps = format!(in alloc;
        "by lines; play out; {told}; line 4 ok; line 6 ok; line 8 fill 7"
    )?;
    play_steps(
        alloc,
        "a plan is met in the call that its line names",
        script.as_str(),
        steps.as_str(),
    )
}

#[test]
fn the_call_that_a_line_names(rt: HostRuntime) -> Result<(), Fail> {
    done_before_the_write(rt.alloc(), "stop 0 at 1", "stopped 1; failed 0")?;
    done_before_the_write(rt.alloc(), "stop 0 at 16", "stopped 1; failed 0")?;
    done_before_the_write(rt.alloc(), "stop 0 at 17", "stopped 0; failed 0")?;
    done_before_the_write(rt.alloc(), "fault 0 data sync 7", "stopped 0; failed 1")?;
    done_before_the_write(rt.alloc(), "fault 0 data sync 8", "stopped 0; failed 0")
}
