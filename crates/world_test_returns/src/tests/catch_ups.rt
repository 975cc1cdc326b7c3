//! A server of a link stops at each step of a catch-up in turn.

use memory_runs::play_steps;
use std::alloc::Global;
use std::test::Fail;

// Servers 0 and 1 have the blocks 0 and 3, of which server 0 alone has the later contents when server 1 starts again.
const BEFORE: &str =
    "servers 3 slots 8\na disk vol on 0 1 2\nwait\na write vol 0 fill 1\nb write vol 3 fill 2\nwait\nop stop 1\nwait
a write vol 0 fill 3\nb write vol 3 fill 4\nwait\nop start 1\n";

const STEPS_BEFORE: &str =
    "a calls 2; agree; wait; a calls 4; b calls 5; agree; wait; op calls 7; 1 stops; 1 shows 7; seen 1>op; line 7 ok; agree without 1; wait;
    a calls 9; b calls 10; agree without 1; wait; op calls 12; 1 boots; 1 shows 12; seen 1>op; line 12 ok";

/// So many steps are taken at most from the boot of server 1 until the copies are equal.
const STEPS: u32 = 240;

/// Server 0, which holds the link, stops after so many steps, and starts again.
fn holder_stops(alloc: Global, after: u32) -> Result<(), Fail> {
    let script = format!(in alloc;
        "{BEFORE}op stop 0\nop start 0\nop settle\nop stop 0\nwait\na read vol 0\nb read vol 3\n"
    )?;
    let steps = format!(in alloc;
        "{STEPS_BEFORE}; go on {after}; op calls 13; 0 stops; 0 shows 13; seen 0>op; line 13 ok; play out; line 14 ok; line 15 ok; line 16 ok;
        line 18 fill 3; line 19 fill 4"
    )?;
    play_steps(
        alloc,
        "the holder stops in the middle of a catch-up, and goes on with it once it starts again",
        script.as_str(),
        steps.as_str(),
    )
}

/// Server 1, which is brought up to date, stops after so many steps, and starts again. A write is under way.
fn other_stops(alloc: Global, after: u32) -> Result<(), Fail> {
    let script = format!(in alloc;
        "{BEFORE}c write vol 0 fill 5\nop stop 1\nop start 1\nop settle\nop stop 0\nwait\na read vol 0\nb read vol 3\n"
    )?;
    let steps = format!(in alloc;
        "{STEPS_BEFORE}; c calls 13; go on {after}; op calls 14; 1 stops; 1 shows 14; seen 1>op; line 14 ok; play out; line 13 ok; line 15 ok; line 16 ok;
        line 17 ok; line 19 fill 5; line 20 fill 4"
    )?;
    play_steps(
        alloc,
        "the server that is brought up to date stops in the middle of it, and is so once it starts again",
        script.as_str(),
        steps.as_str(),
    )
}

/// Server 1, which was blanked and is filled with two blocks, is blanked again after so many steps.
fn blanked_again(alloc: Global, after: u32) -> Result<(), Fail> {
    let steps = format!(in alloc;
        "a calls 2; agree; wait; a calls 4; b calls 5; agree; wait; op calls 7; 1 stops; 1 blanks; 1 boots; 1 shows 7; seen 1>op; line 7 ok;
        go on {after}; op calls 8; 1 stops; 1 blanks; 1 boots; 1 shows 8; seen 1>op; line 8 ok; play out; line 9 ok; line 10 ok; line 12 fill 7; line 13 fill 8"
    )?;
    play_steps(
        alloc,
        "a server that is filled is blanked in the middle of it, and is filled once more",
        "servers 3 slots 4\na disk vol on 0 1 2\nwait\na write vol 0 fill 7\nb write vol 3 fill 8\nwait\nop blank 1\nop blank 1\nop settle
op stop 0\nwait\na read vol 0\nb read vol 3\n",
        steps.as_str(),
    )
}

#[test]
fn the_holder_stops(rt: HostRuntime) -> Result<(), Fail> {
    for after in 0..STEPS {
        holder_stops(rt.alloc(), after)?;
    }
    Ok(())
}

#[test]
fn the_other_server_stops(rt: HostRuntime) -> Result<(), Fail> {
    for after in 0..STEPS {
        other_stops(rt.alloc(), after)?;
    }
    Ok(())
}

#[test]
fn the_other_server_is_blanked(rt: HostRuntime) -> Result<(), Fail> {
    for after in 0..STEPS {
        blanked_again(rt.alloc(), after)?;
    }
    Ok(())
}

/// After so many steps server 0 stops for good.
fn read_alone(alloc: Global, after: u32, expected: &str) -> Result<(), Fail> {
    let script = format!(in alloc; "{BEFORE}op stop 0\nwait\na read vol 0\nb read vol 3\n")?;
    let steps = format!(in alloc;
        "{STEPS_BEFORE}; go on {after}; op calls 13; 0 stops; 0 shows 13; seen 0>op; line 13 ok; play out; {expected}"
    )?;
    play_steps(
        alloc,
        "the other server serves the blocks alone exactly where it was brought up to date",
        script.as_str(),
        steps.as_str(),
    )
}

#[test]
fn a_catch_up_takes_no_more_steps(rt: HostRuntime) -> Result<(), Fail> {
    read_alone(rt.alloc(), 0, "line 15 unavailable; line 16 unavailable")?;
    read_alone(rt.alloc(), STEPS, "line 15 fill 3; line 16 fill 4")
}
