//! Plans that come and go, and what a plan leaves that is met in a put.

use memory_runs::{Parts, play_all, play_parts};
use std::test::Fail;
use step_runner::Case;

// Of three servers, server 0 leads block 0, and server 1 is second. Line 6 starts server 0.
const STARTS_AGAIN: &str =
    "servers 3 slots 4\na disk vol on 0 1 2\nwait\na write vol 0 fill 7\nwait\nop start 0\nwait\na disk more on 0 1 2\nwait\nb read vol 0\n";

const PLANS: &[Case] = &[
    Case {
        shows: "a device whose plan was taken away does not fail",
        script: STARTS_AGAIN,
        steps: "a calls 2; agree; wait; 0 arms data any 1 stop; 0 disarms data; 0 arms state any 1; 0 disarms state; 0 disarms data; play out;
            stopped 0; failed 0; line 4 ok; line 6 ok; line 8 ok; line 10 fill 7",
    },
    Case {
        shows: "a plan takes the place of the one before it",
        script: STARTS_AGAIN,
        steps: "a calls 2; agree; wait; 0 arms data any 1; 0 arms data write 1 stop; play out; stopped 1; failed 0;
            line 4 ok; line 6 ok; line 8 ok; line 10 fill 7",
    },
    Case {
        shows: "a server that a plan has stopped takes no step, and gets another plan, which its next life meets",
        script: STARTS_AGAIN,
        steps: "a calls 2; agree; wait; a calls 4; 0 arms data write 1 stop; write a>0; 0 works; reserve 0>1; 1 works; reserved 1>0; stopped 0; 0 works;
            stopped 1; committed 0; not 0 works; not 0 ticks; not 0 stops; sent 1 down 0>1; sent 1 down 0>2; told begin; agree without 0; line 4 ok;
            0 arms state write 1; wait; op calls 6; 0 boots; failed 1; 0 shows 6; seen 0>op; line 6 failed; play out; line 8 ok; line 10 fill 7",
    },
    Case {
        shows: "a plan that has stopped a server says nothing of a later failure of its other device",
        script: STARTS_AGAIN,
        steps: "a calls 2; agree; wait; 0 arms data write 1 stop; a calls 4; agree; line 4 ok; stopped 1; failed 0; wait; op calls 6; 0 boots;
            0 shows 6; seen 0>op; line 6 ok; 0 arms state write 1; play out; stopped 1; failed 1; line 8 ok; line 10 fill 7",
    },
];

#[test]
fn plans_that_come_and_go(rt: HostRuntime) -> Result<(), Fail> {
    play_all(rt.alloc(), PLANS)
}

// Of three servers, server 0 leads block 0, and server 1 is second.
const ONE_WRITE: &str =
    "servers 3 slots 4\na disk vol on 0 1 2\nwait\na write vol 0 fill 7\nwait\nb read vol 0\n";

// Server 0 leads block 0, and is alone with it once the Leave of server 1 is chosen. Line 9 starts it again.
const ALONE: &str =
    "servers 3 slots 4\na disk vol on 0 1 2\nwait\nop stop 1\nwait\na disk more on 0 2\nwait\na write vol 0 fill 7\nop start 0\nb read vol 0\n";

const PUTS: &[Case] = &[
    Case {
        shows: "the lead's device fails as it puts: its server stops, and nothing of the write is left there",
        script: ONE_WRITE,
        steps: "0 arms data write 3; a calls 2; agree; wait; a calls 4; write a>0; 0 works; reserve 0>1; 1 works; reserved 1>0; 0 works; failed 0;
            0 works; failed 1; not 0 works; not 0 ticks; sent 1 down 0>1; sent 1 down 0>2; not sent 1 replicate 0>1; told begin; agree; line 4 ok;
            wait; b calls 6; agree; line 6 fill 7; told begin take end look",
    },
    Case {
        shows: "the lead is stopped right after its put, of which nobody is told: the second server puts what the client sends again",
        script: ONE_WRITE,
        steps: "a calls 2; agree; wait; a calls 4; 0 arms data sync 5 late stop; write a>0; 0 works; reserve 0>1; 1 works; reserved 1>0; 0 works;
            stopped 0; 0 works; stopped 1; committed 1; failed 0; not 0 works; sent 1 down 0>1; sent 1 down 0>2; not sent 1 replicate 0>1; told begin;
            agree without 0; line 4 ok; wait; b calls 6; agree without 0; line 6 fill 7; told begin take end look",
    },
    Case {
        shows: "the second server is stopped right after its put, of which nobody is told: the write has taken effect, and the lead goes on alone",
        script: ONE_WRITE,
        steps: "a calls 2; agree; wait; a calls 4; 1 arms data sync 3 late stop; write a>0; 0 works; reserve 0>1; 1 works; reserved 1>0; 0 works off;
            replicate 0>1; told begin; 1 works; told begin take; stopped 1; committed 1; failed 0;
            not sent 1 replicated 1>0; agree without 1; line 4 ok; wait; b calls 6; agree without 1; line 6 fill 7; told begin take end look",
    },
    Case {
        shows: "the lead is alone, and fails right after its put, of which nobody is told: a read shows it before its client sends it again",
        script: ALONE,
        steps: "a calls 2; agree; wait; op calls 4; 1 stops; 1 shows 4; seen 1>op; agree without 1; wait; a calls 6; agree without 1; wait;
            0 arms data sync 5 late; a calls 8; write a>0; 0 works; told begin; 0 works; told begin take; failed 1; committed 1;
            op calls 9; 0 boots; 0 shows 9; seen 0>op; line 9 ok; not agree without a; b calls 10; not agree without a; line 10 fill 7;
            line 8 open; told begin take look; agree without 1; line 8 ok; told begin take look end",
    },
];

#[test]
fn puts_that_meet_a_plan(rt: HostRuntime) -> Result<(), Fail> {
    play_all(rt.alloc(), PUTS)
}

// Of five servers, server 0 leads block 0, and server 1 is second. Line 5 stops server 0, and line 6 starts server 1.
const SECOND: &str =
    "servers 5 slots 4\na disk vol on 0 1 2 3 4\nwait\na write vol 0 fill 7\nop stop 0\nop start 1\nb read vol 0\n";

// The second server is stopped late in its put, and the Leave of the lead is chosen before its own.
const LEAD_LEAVES: &str =
    "a calls 2; agree; wait; 1 arms data sync 3 late stop; a calls 4; write a>0; 0 works; reserve 0>1; 1 works; reserved 1>0; 0 works off;
    replicate 0>1; told begin; 1 works; told begin take; stopped 1; committed 1; not sent 1 replicated 1>0; drop down 1>2; drop down 1>3; drop down 1>4;
    op calls 5; 0 stops; 0 shows 5; seen 0>op; line 5 ok; not agree without 1; told begin take;
    op calls 6; 1 boots; 1 shows 6; seen 1>op; line 6 ok";

const COPIES: &[Parts] = &[
    Parts {
        shows: "the second server's copy counts that nobody was told of: a read shows it before its client sends it again",
        script: SECOND,
        steps: &[
            LEAD_LEAVES,
            "not agree without a; b calls 7; not agree without a; line 7 fill 7; line 4 open; told begin take look; agree; line 4 ok;
            told begin take look end",
        ],
    },
    Parts {
        shows: "a read shows it after its client was told that the block is unavailable",
        script: SECOND,
        steps: &[
            LEAD_LEAVES,
            "agree without 1; line 4 unavailable; told begin take end; go on 200; b calls 7; agree; line 7 fill 7; told begin take end look",
        ],
    },
];

#[test]
fn stopped_after_the_copy_before_the_lead(rt: HostRuntime) -> Result<(), Fail> {
    play_parts(rt.alloc(), COPIES)
}
