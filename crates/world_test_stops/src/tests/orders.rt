//! The operator stops servers, starts them again, replaces their data devices by blank ones, and waits until they are settled.

use memory_runs::play_all;
use std::test::Fail;
use step_runner::Case;

const ONE_STOPS: &str =
    "servers 3 slots 4\na disk vol on 0 1 2\nwait\nop stop 1\nop stop 1\nwait\na write vol 0 fill 7\nb read vol 1\n";

// Of five servers, servers 0 and 1 have block 0, servers 1 and 2 block 1, and servers 2 and 3 block 2.
const TWO_STOP: &str =
    "servers 5 slots 4\na disk vol on 0 1 2 3 4\nwait\na write vol 0 fill 1\na write vol 1 fill 2\na write vol 2 fill 3\nwait
op stop 0\nop stop 1\nwait\na read vol 0\nb write vol 0 fill 4\nc read vol 1\nd write vol 2 fill 5\nwait\na disk new on 0 1 2\nwait
a write new 0 fill 6\nb write new 1 fill 7\nc write new 2 fill 8\nd read vol 2\nwait\na read new 1\nb read new 2\n";

const STOPS: &[Case] = &[
    Case {
        shows: "a server stops once, and each line is answered by a glance of its own",
        script: ONE_STOPS,
        steps: "not 1 stops; not 1 shows 4; a calls 2; agree; wait; not 1 stops; op calls 4; not 0 stops; not 1 shows 4; 1 stops; not 1 ticks;
            not 1 stops; not 1 shows 5; 1 shows 4; not 1 shows 4; not op calls 5; seen 1>op; line 4 ok; again seen 1>op;
            op calls 5; not 1 stops; again seen 1>op; line 5 open; 1 shows 5; not 1 shows 5; seen 1>op; line 5 ok",
    },
    Case {
        shows: "the other servers take over, each letter twice",
        script: ONE_STOPS,
        steps: "a calls 2; agree; play out; line 4 ok; line 5 ok; line 7 ok; line 8 fill 0",
    },
    Case {
        shows: "their block is unavailable, all others go on, and so does a disk that is made later",
        script: TWO_STOP,
        steps: "play out; line 8 ok; line 9 ok; line 11 unavailable; line 12 unavailable; line 13 fill 2; line 14 ok;
            line 16 ok; line 18 unavailable; line 19 ok; line 20 ok; line 21 fill 5; line 23 fill 7; line 24 fill 8",
    },
    Case {
        shows: "two clients write and read while a server stops",
        script: "servers 3 slots 4\na disk vol on 0 1 2\nwait\na write vol 0 fill 1\nb write vol 0 fill 2\na write vol 1 fill 3\nb write vol 2 fill 4
op stop 0\nwait\na read vol 0\nb read vol 0\na read vol 1\nb read vol 2\n",
        steps: "play out; line 4 ok; line 5 ok; line 6 ok; line 7 ok; line 8 ok; line 10 fill 1 or 2; line 11 as 10; line 12 fill 3; line 13 fill 4",
    },
];

#[test]
fn servers_are_stopped(rt: HostRuntime) -> Result<(), Fail> {
    play_all(rt.alloc(), STOPS)
}

const ONE_STARTS: &str =
    "servers 3 slots 4\na disk vol on 0 1 2\nwait\na write vol 0 fill 7\nwait\nop stop 0\nwait\nop start 0\nwait\n\
    a disk more on 0 1 2\nwait\nb write more 0 fill 8\nc read vol 0\nwait\nd read more 0\n";

// Of five servers, servers 1 and 2 have block 1, and servers 2 and 3 block 2. The disks p to s take rounds, in which a server that was
// started joins.
const TWO_START: &str =
    "servers 5 slots 8\na disk vol on 0 1 2 3 4\nwait\na write vol 1 fill 2\na write vol 2 fill 3\nwait
op stop 1\nwait\na write vol 1 fill 4\nwait\nop stop 2\nwait\na read vol 1\nb read vol 2\nwait
op start 1\nwait\na disk p on 3 4\nwait\na disk q on 3 4\nwait\na read vol 1\nwait
op start 2\nwait\na disk r on 3 4\nwait\na disk s on 3 4\nwait\na read vol 1\na disk new on 1 2\na write new 0 fill 5\nwait
op stop 1\nwait\na read vol 1\nb read new 0\n";

const STARTS: &[Case] = &[
    Case {
        shows: "a server that was stopped starts, is In again, and has a part in a disk that is made then",
        script: ONE_STARTS,
        steps: "play out; line 6 ok; line 8 ok; line 10 ok; line 12 ok; line 13 fill 7; line 15 fill 8; failed 0",
    },
    Case {
        shows: "between its boot and its glance the server takes no other step and gets no letter; then it wants its Leave",
        script: "servers 3 slots 4\nop stop 0\nwait\nop start 0\n",
        steps: "op calls 2; not 0 boots; 0 stops; 0 shows 2; seen 0>op; wait; op calls 4; not 0 shows 4; 2 ticks; 0 boots; not ask 2>0;
            not 0 ticks; not 0 boots; not 0 stops; 0 shows 4; seen 0>op; line 4 ok; 0 ticks; 0 works; sent 1 prepare 0>1",
    },
    Case {
        shows: "a start of a server that runs does nothing",
        script: "servers 3 slots 4\nop start 1\n",
        steps: "op calls 2; not 1 boots; 1 shows 2; seen 1>op; line 2 ok; not sent 1 down 1>0",
    },
    Case {
        shows: "a server boots once for two lines, and each line is answered by a glance of its own",
        script: "servers 3 slots 4\nop stop 0\nwait\nop start 0\nop start 0\nwait\nop stop 0\nop start 0\n",
        steps: "op calls 2; 0 stops; 0 shows 2; seen 0>op; wait; op calls 4; not 1 shows 4; 0 boots; not 0 shows 5; 0 shows 4; not 0 shows 4;
            again seen 0>op; line 4 open; seen 0>op; line 4 ok; op calls 5; not 0 boots; again seen 0>op; line 5 open; 0 shows 5; seen 0>op;
            line 5 ok; sent 2 down 0>1; not sent 3 down 0>1; wait; op calls 7; not 0 boots; 0 stops; 0 shows 7; seen 0>op; line 7 ok;
            op calls 8; 0 boots; 0 shows 8; seen 0>op; line 8 ok; sent 4 down 0>1",
    },
    Case {
        shows: "a block stays with the server that held it alone: it is unavailable until that one starts, and is served then",
        script: TWO_START,
        steps: "play out; line 9 ok; line 13 unavailable; line 14 fill 3; line 16 ok; line 22 unavailable; line 24 ok; line 30 fill 4;
            line 31 ok; line 32 ok; line 36 fill 4; line 37 fill 5",
    },
];

#[test]
fn servers_start_again(rt: HostRuntime) -> Result<(), Fail> {
    play_all(rt.alloc(), STARTS)
}

// Of five servers, servers 1 and 2 have block 1, and servers 2 and 3 block 2. Line 7 is the blank.
const FILLED: &str =
    "servers 5 slots 16\na disk vol on 0 1 2 3 4\nwait\na write vol 1 fill 1\nb write vol 2 fill 2\nwait
op blank 2\nop settle\nop stop 1\nop stop 3\nwait\na read vol 1\nb read vol 2\n";

// Server 1 alone has the second write of block 1 when it is blanked. Lines 15, 16 and 23 are of that block.
const LOST: &str =
    "servers 5 slots 16\na disk vol on 0 1 2 3 4\nwait\na write vol 1 fill 1\nb write vol 2 fill 2\nwait\nop stop 2\nwait
a write vol 1 fill 3\nwait\nop blank 1\nop start 2\nop settle\nwait\na read vol 1\nb write vol 1 fill 4\nc read vol 2\nd write vol 0 fill 5\nwait
op stop 0\nwait\na read vol 0\nb read vol 1\n";

// Line 10 is the settle. Servers 0 and 2 each hold a block alone, of which server 1 has one slot for both.
const TOO_FEW_TO_FILL: &str =
    "servers 3 slots 1\na disk vol on 0 1 2\nwait\nop stop 1\nwait\na write vol 0 fill 1\nb write vol 1 fill 2\nwait\nop blank 1\nop settle\n";

// Of three servers, servers 0 and 1 have the blocks 0 and 3. Lines 7 and 8 are the blanks.
const TWICE: &str =
    "servers 3 slots 4\na disk vol on 0 1 2\nwait\na write vol 0 fill 7\nb write vol 3 fill 8\nwait\nop blank 1\nop blank 1\nop settle\nop stop 0\nwait
a read vol 0\nb read vol 3\n";

// Server 0 leads block 0, and server 1 is second.
const LEAD_IS_BLANKED: &str =
    "servers 3 slots 4\na disk vol on 0 1 2\nwait\na write vol 0 fill 7\nop blank 0\nwait\nb read vol 0\n";

// The same, but server 1 has stopped. Line 6 is the write, and line 7 the blank.
const LEAD_ALONE_IS_BLANKED: &str =
    "servers 3 slots 4\na disk vol on 0 1 2\nwait\nop stop 1\nwait\na write vol 0 fill 7\nop blank 0\nop start 1\nop settle\nwait\nb read vol 0\n";

const BLANKS: &[Case] = &[
    Case {
        shows: "a server that comes back with nothing is filled by its neighbours, and serves their blocks",
        script: FILLED,
        steps: "play out; line 7 ok; line 8 ok; line 9 ok; line 10 ok; line 12 fill 1; line 13 fill 2",
    },
    Case {
        shows: "what a server held alone is lost for good, while others serve and are filled",
        script: LOST,
        steps: "play out; line 11 ok; line 12 ok; line 13 ok; line 15 unavailable; line 16 unavailable; line 17 fill 2; line 18 ok;
            line 20 ok; line 22 fill 5; line 23 unavailable",
    },
    Case {
        shows: "a server without a slot for all that it is to be filled with leaves no space",
        script: TOO_FEW_TO_FILL,
        steps: "play out; line 9 ok; line 10 nospace",
    },
    Case {
        shows: "a server is blanked between its stop and its boot, once for each line; then it wants its Leave",
        script: "servers 3 slots 4\nop blank 2\nwait\nop stop 1\nwait\nop blank 1\nop stop 0\n",
        steps: "not 2 stops; not 2 blanks; op calls 2; not 2 boots; not 2 blanks; not 2 shows 2; not 1 stops; 2 stops; not 2 boots; not 2 shows 2;
            not 1 blanks; 2 blanks; not 2 blanks; not 2 ticks; not 2 shows 2; 2 boots; not 2 blanks; not 2 stops; not 2 ticks; not 1 shows 2;
            2 shows 2; not 2 shows 2; not 2 blanks; seen 2>op; line 2 ok; 2 ticks; 2 works; sent 1 prepare 2>0; wait;
            op calls 4; 1 stops; not 1 blanks; 1 shows 4; seen 1>op; line 4 ok; wait; op calls 6; not 1 stops; not 1 boots; not 1 shows 6;
            1 blanks; not 1 shows 6; 1 boots; 1 shows 6; seen 1>op; line 6 ok; op calls 7; not 0 blanks; 0 stops; not 0 blanks; 0 shows 7;
            seen 0>op; line 7 ok",
    },
    Case {
        shows: "a server is blanked again before it has joined",
        script: TWICE,
        steps: "a calls 2; agree; wait; a calls 4; b calls 5; agree; wait; op calls 7; 1 stops; 1 blanks; 1 boots; 1 shows 7; seen 1>op; line 7 ok;
            op calls 8; 1 stops; 1 blanks; 1 boots; 1 shows 8; seen 1>op; line 8 ok; play out; line 9 ok; line 10 ok; line 12 fill 7; line 13 fill 8",
    },
    Case {
        shows: "the copy that it sent comes to the secondary before that knows of the Leave: it counts, and the lead is filled with it",
        script: LEAD_IS_BLANKED,
        steps: "a calls 2; agree; wait; a calls 4; write a>0; 0 works; reserve 0>1; 1 works; reserved 1>0; 0 works; 0 works; 0 works;
            op calls 5; 0 stops; 0 blanks; 0 boots; 0 shows 5; seen 0>op; line 5 ok;
            down 0>2; 2 works; 2 ticks; 2 works; prepare 2>2; 2 works; prepare 2>1; 1 works; promise 2>2; promise 1>2; 2 works off;
            accept 2>2; accept 2>1; 2 works; 1 works; told begin; replicate 0>1; 1 works; told begin take;
            accepted 2>2; accepted 1>2; 2 works off; chosen 2>1; 1 works off; line 4 open; agree; line 4 ok; told begin take end;
            wait; b calls 7; agree; line 7 fill 7",
    },
    Case {
        shows: "a lead that is alone has put: the block is lost with its write, which nobody is told of",
        script: LEAD_ALONE_IS_BLANKED,
        steps: "a calls 2; agree; wait; op calls 4; 1 stops; 1 shows 4; seen 1>op; line 4 ok;
            down 1>0; 0 works; 0 ticks; 0 works; prepare 0>0; 0 works; prepare 0>2; 2 works; promise 0>0; promise 2>0; 0 works off;
            accept 0>0; accept 0>2; 0 works; 2 works; accepted 0>0; accepted 2>0; 0 works off; chosen 0>2; 2 works off; agree without 1; wait;
            a calls 6; write a>0; 0 works; 0 works; told begin; 0 works; told begin take; op calls 7; 0 stops; drop written 0>a;
            0 blanks; 0 boots; 0 shows 7; seen 0>op; line 7 ok; op calls 8; 1 boots; 1 shows 8; seen 1>op; line 8 ok; agree; line 6 unavailable;
            told begin take end; play out; line 9 ok; line 11 unavailable; told begin take end",
    },
];

#[test]
fn servers_are_blanked(rt: HostRuntime) -> Result<(), Fail> {
    play_all(rt.alloc(), BLANKS)
}

// Line 11 is the settle. Server 1 alone has the second write until then.
const CAUGHT_UP: &str =
    "servers 5 slots 16\na disk vol on 0 1 2 3 4\nwait\na write vol 1 fill 1\nwait\nop stop 2\nwait\na write vol 1 fill 2\nwait
op start 2\nop settle\nop stop 1\nwait\na read vol 1\n";

// Line 10 is the settle. Servers 0 and 2 each hold a block alone, of which server 1 has one slot for both.
const TOO_FEW_TO_CATCH_UP: &str =
    "servers 3 slots 1\na disk vol on 0 1 2\nwait\nop stop 1\nwait\na write vol 0 fill 1\nb write vol 1 fill 2\nwait\nop start 1\nop settle\n";

const SETTLES: &[Case] = &[
    Case {
        shows: "each round shows each server; while the operator does not know that one of them is out, another round begins",
        script: "servers 3 slots 4\nop stop 2\nop settle\n",
        steps: "op calls 2; 2 stops; 2 shows 2; seen 2>op; line 2 ok; op calls 3; not 0 shows 3; not 0 shows 2 in 1;
            0 shows 3 in 1; 1 shows 3 in 1; seen 1>op; seen 0>op; line 3 open; 0 shows 3 in 1; seen 0>op; line 3 open;
            2 shows 3 in 1; seen 2>op; line 3 open; not 2 shows 3; 2 shows 3 in 2; again seen 0>op; line 3 open;
            play out; line 3 ok",
    },
    Case {
        shows: "a server that starts again has what it missed once its neighbour has copied it",
        script: CAUGHT_UP,
        steps: "play out; line 10 ok; line 11 ok; line 12 ok; line 14 fill 2; 2 has 0/1 fill 2; 1 has 0/1 fill 2; 2 marks 0 none; 2 has 1 entries",
    },
    Case {
        shows: "a server without a slot for what it missed leaves no space",
        script: TOO_FEW_TO_CATCH_UP,
        steps: "play out; line 9 ok; line 10 nospace",
    },
];

#[test]
fn servers_are_settled(rt: HostRuntime) -> Result<(), Fail> {
    play_all(rt.alloc(), SETTLES)
}
