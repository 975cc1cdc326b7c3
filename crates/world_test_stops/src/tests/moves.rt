//! Servers of a disk that moves stop.

use memory_runs::{play_all, play_steps};
use std::alloc::Global;
use std::test::Fail;
use step_runner::Case;

// Line 15 is the second move. Server 1 holds the old links alone when it stops, too.
const WITHOUT_A_LEAD: &str =
    "servers 5 slots 16\na disk vol on 0 1\nwait\na write vol 0 fill 1\na write vol 1 fill 2\nwait\nop stop 0\nop settle\nwait\nop stop 1\nwait
a move vol on 2 3\nop settle\nwait\nb move vol on 3 4\nc read vol 0\nd write vol 1 fill 5\ne read vol 8\nop settle\nwait
a read vol 1\nop start 1\nop settle\nwait\na read vol 0\nb read vol 1\nc move vol on 3 4\n";

const WITHOUT_LEADS: &[Case] = &[Case {
    shows: "a move waits while nobody has an old link, a second one is refused, and blocks on their way are written, though not read",
    script: WITHOUT_A_LEAD,
    steps: "play out; line 12 ok; line 13 ok; line 15 moving; line 16 unavailable; line 17 ok; line 18 unavailable; line 19 ok; line 21 fill 5;
            line 22 ok; line 23 ok; line 25 fill 1; line 26 fill 5; line 27 ok",
}];

#[test]
fn an_old_link_without_a_lead(rt: HostRuntime) -> Result<(), Fail> {
    play_all(rt.alloc(), WITHOUT_LEADS)
}

// Servers 4 and 3 have block 0 under the old map, servers 0 and 1 under the new one. Line 12 waits until the region is on its way.
const BEFORE: &str =
    "servers 5 slots 16\na disk vol on 4 3\nwait\na write vol 0 fill 1\nwait\na snap vol one\nwait\na write vol 0 fill 2\nwait\na move vol on 0 1\nwait
b read vol 1\nwait\nc read vol@one 0\nd read vol 0\n";

const AFTER: &str =
    "wait\nc read vol@one 0\nd read vol 0\nb write vol 0 fill 4\nwait\nd read vol 0\nc read vol@one 0\n";

const STEPS_BEFORE: &str =
    "a calls 2; agree; wait; a calls 4; agree; wait; a calls 6; agree; wait; a calls 8; agree; wait; a calls 10; agree; wait;
    b calls 12; agree; not sent 1 fill 4>0; wait; c calls 14; d calls 15; 4 ticks";

/// So many steps are taken at most until the new map has both entries of block 0.
const STEPS: u32 = 50;

/// The server stops after so many steps, and starts again.
fn stops_after(alloc: Global, server: u8, after: u32) -> Result<(), Fail> {
    let script = format!(in alloc; "{BEFORE}op stop {server}\nop start {server}\n{AFTER}")?;
    let steps = format!(in alloc;
        "{STEPS_BEFORE}; go on {after}; op calls 16; {server} stops; {server} shows 16; seen {server}>op; line 16 ok; play out;
        line 14 fill 1; line 15 fill 2; line 17 ok; line 19 fill 1; line 20 fill 2; line 21 ok; line 23 fill 4; line 24 fill 1"
    )?;
    play_steps(
        alloc,
        "a server stops while a region is on its way, and its block is read right by both names",
        script.as_str(),
        steps.as_str(),
    )
}

fn stops(alloc: Global, server: u8) -> Result<(), Fail> {
    for after in 0..STEPS {
        stops_after(alloc, server, after)?;
    }
    Ok(())
}

#[test]
fn the_old_lead_stops(rt: HostRuntime) -> Result<(), Fail> {
    stops(rt.alloc(), 4)
}

#[test]
fn the_new_lead_stops(rt: HostRuntime) -> Result<(), Fail> {
    stops(rt.alloc(), 0)
}

#[test]
fn the_new_second_server_stops(rt: HostRuntime) -> Result<(), Fail> {
    stops(rt.alloc(), 1)
}

/// Nobody stops.
fn filled_after(alloc: Global, after: u32, filled: &str) -> Result<(), Fail> {
    let steps = format!(in alloc; "{STEPS_BEFORE}; go on {after}; {filled}")?;
    play_steps(
        alloc,
        "the new map has both entries after so many steps",
        BEFORE,
        steps.as_str(),
    )
}

#[test]
fn fills_take_no_more_steps(rt: HostRuntime) -> Result<(), Fail> {
    filled_after(rt.alloc(), 0, "not sent 1 filled 0>4")?;
    filled_after(rt.alloc(), STEPS, "sent 2 filled 0>4")
}
