//! In which step a write takes effect of whose put no letter tells.

use memory_runs::{Parts, play_parts};
use std::test::Fail;

// Of five servers, server 0 leads block 0, and is alone with it once the Leave of server 1 is chosen. Line 9 stops it, and line 10
// starts it.
const ALONE: &str =
    "servers 5 slots 4\na disk vol on 0 1 2 3 4\nwait\nop stop 1\nwait\na disk more on 0 2\nwait\na write vol 0 fill 7\nop stop 0\nop start 0\nb read vol 0\n";

// Server 1 stops, and all know of its Leave.
const LEFT_ALONE: &str =
    "a calls 2; agree; wait; op calls 4; 1 stops; 1 shows 4; seen 1>op; line 4 ok; agree without 1; wait; a calls 6; agree without 1; line 6 ok; wait";

// Server 0 boots and is glanced at; its client does not send the write again before it is read.
const READ_AGAIN: &str =
    "op calls 10; 0 boots; 0 shows 10; seen 0>op; line 10 ok; not agree without a; b calls 11; not agree without a; line 11 fill 7; line 8 open;
    agree without 1; line 8 ok; told begin take look end";

const OF_ONE: &[Parts] = &[
    Parts {
        shows: "a lead that is alone has put, and is stopped before it says so: a read shows its write once it is back",
        script: ALONE,
        steps: &[
            LEFT_ALONE,
            "by puts; a calls 8; write a>0; 0 works; told begin; 0 works; told begin take; not sent 1 reserve 0>1; not sent 1 written 0>a;
            op calls 9; 0 stops; 0 shows 9; seen 0>op; line 9 ok",
            READ_AGAIN,
        ],
    },
    Parts {
        shows: "the same, where it is looked into only as it stops",
        script: ALONE,
        steps: &[
            LEFT_ALONE,
            "a calls 8; write a>0; 0 works; 0 works; told begin; not sent 1 written 0>a;
            op calls 9; 0 stops; told begin take; 0 shows 9; seen 0>op; line 9 ok",
            READ_AGAIN,
        ],
    },
    Parts {
        shows: "a plan stops a lead that is alone right after the commit of its put: a read shows its write once it is back",
        script: ALONE,
        steps: &[
            LEFT_ALONE,
            "0 arms data sync 5 late stop; a calls 8; write a>0; 0 works; stopped 0; told begin; 0 works; stopped 1; committed 1;
            told begin take; not sent 1 written 0>a; op calls 9; 0 shows 9; seen 0>op; line 9 ok",
            READ_AGAIN,
        ],
    },
];

#[test]
fn a_lead_alone_stops_after_its_put(rt: HostRuntime) -> Result<(), Fail> {
    play_parts(rt.alloc(), OF_ONE)
}

// Of five servers, server 0 leads block 0, and server 1 is second. Line 5 stops server 1, and line 6 starts server 0.
const AHEAD: &str =
    "servers 5 slots 4\na disk vol on 0 1 2 3 4\nwait\na write vol 0 fill 7\nop stop 1\nop start 0\nb read vol 0\n";

// The same, but line 6 blanks server 0.
const AHEAD_AND_BLANK: &str =
    "servers 5 slots 4\na disk vol on 0 1 2 3 4\nwait\na write vol 0 fill 7\nop stop 1\nop blank 0\nb read vol 0\n";

// A plan stops server 0 right after the commit of its put, before it asks server 1 for its copy. Nobody is told that it is down.
const PUT_AHEAD: &str =
    "a calls 2; agree; wait; 0 arms data sync 5 late stop; a calls 4; write a>0; 0 works; reserve 0>1; 1 works; reserved 1>0; 0 works;
    stopped 0; 0 works; stopped 1; committed 1; not sent 1 replicate 0>1; drop down 0>1; drop down 0>2; drop down 0>3; drop down 0>4;
    op calls 5; 1 stops; 1 shows 5; seen 1>op; line 5 ok; told begin";

const OF_AHEAD: &[Parts] = &[
    Parts {
        shows: "a lead has put ahead of its second server, and has told nobody: its write takes effect with the second server's Leave",
        script: AHEAD,
        steps: &[
            PUT_AHEAD,
            "not agree without 0; told begin take; op calls 6; 0 boots; 0 shows 6; seen 0>op; line 6 ok;
            not agree without a; b calls 7; not agree without a; line 7 fill 7; line 4 open; agree; line 4 ok; told begin take look end",
        ],
    },
    Parts {
        shows: "the same, and the lead is blanked before that: what it had counts until its Join tells of the blank, and is lost then",
        script: AHEAD_AND_BLANK,
        steps: &[
            PUT_AHEAD,
            "op calls 6; 0 blanks; told begin; not agree without 0; told begin take; 0 boots; 0 shows 6; seen 0>op; line 6 ok;
            agree; line 4 unavailable; b calls 7; agree; line 7 unavailable; told begin take end",
        ],
    },
];

#[test]
fn a_lead_puts_ahead_of_a_server_that_leaves(rt: HostRuntime) -> Result<(), Fail> {
    play_parts(rt.alloc(), OF_AHEAD)
}

// Of three servers, server 0 leads block 0, and server 1 is second. Line 5 stops server 0.
const TWICE: &str =
    "servers 3 slots 4\na disk vol on 0 1 2\nwait\na write vol 0 fill 1\nop stop 0\nc read vol 0\nb write vol 0 fill 2\nc read vol 0\nc read vol 0\n";

const OF_AGAIN: &[Parts] = &[Parts {
    shows: "a write that is not answered takes effect again, over a later one that was answered: c reads 1, then 2, then 1 again",
    script: TWICE,
    steps: &[
        // Both servers put a's write, and server 0 stops before a is told.
        "by puts; a calls 2; agree; wait; a calls 4; write a>0; 0 works; reserve 0>1; 1 works; reserved 1>0; 0 works; 0 works; 0 works;
            replicate 0>1; told begin; 1 works; told begin take; drop replicated 1>0; not sent 1 written 0>a;
            op calls 5; 0 stops; 0 shows 5; seen 0>op; line 5 ok; c calls 6; not agree without a; line 6 fill 1; told begin take look",
        // Server 1 puts b's write and answers it.
        "b calls 7; write b>1; 1 works; told begin take look begin; 1 works; told begin take look begin take;
            1 works; written 1>b; line 7 ok; c calls 8; read c>1; 1 works; data 1>c; line 8 fill 2; line 4 open",
        // Server 1 puts a's write again.
        "a ticks; a ticks; a ticks; ask a>1; 1 works; news 1>a; write a>1; 1 works; told begin take look begin take end look;
            1 works; told begin take look begin take end look take; 1 works; written 1>a; line 4 ok;
            c calls 9; read c>1; 1 works; data 1>c; line 9 fill 1; told begin take look begin take end look take end look",
    ],
}];

// The plain machine takes this today: it lets an open write take effect as often as it is put. Once writes take effect once, it is to
// refuse it, and the servers are not to do it.
#[test]
fn an_open_write_takes_effect_again(rt: HostRuntime) -> Result<(), Fail> {
    play_parts(rt.alloc(), OF_AGAIN)
}
