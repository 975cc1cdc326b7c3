//! A server of a link returns, and the other one, which holds the link alone, brings it up to date: schedules in which a rule that
//! is left out would be seen in what is answered.

use memory_runs::{Parts, play_parts, play_steps};
use std::test::Fail;

// Of three servers, servers 0 and 1 have block 0, and server 0 leads it.
const PRIMARY_RETURNS: &str =
    "servers 3 slots 4\na disk vol on 0 1 2\nwait\na write vol 0 fill 7\nop stop 0\nop start 0\nop stop 1\nb read vol 0\nwait\nc read vol 0\n";

// Server 0 leads block 0, and stops when it has marked the block and put, before it sends its copy to server 1.
const PUT: &str =
    "a calls 2; agree; wait; a calls 4; write a>0; 0 works; reserve 0>1; 1 works; reserved 1>0; 0 works; 0 works; not sent 1 replicate 0>1; told begin;
    op calls 5; 0 stops; 0 shows 5; seen 0>op; line 5 ok; 0 has 0/0 fill 7; 0 marks 0 0";

// The same, but server 0 has failed right after it has put.
const PUT_LATE: &str =
    "a calls 2; agree; wait; a calls 4; 0 arms data sync 5 late; write a>0; 0 works; reserve 0>1; 1 works; reserved 1>0; 0 works; failed 0; 0 works;
    failed 1; committed 1; not sent 1 replicate 0>1; told begin; op calls 5; not 0 stops; 0 shows 5; seen 0>op; line 5 ok";

// Servers 1 and 2 choose the Leave of server 0.
const LEAVE: &str =
    "down 0>1; 1 works off; 1 ticks; 1 works off; drop prepare 1>0; prepare 1>1; prepare 1>2; 1 works off; 2 works off; promise 1>1; promise 2>1;
    1 works off; drop accept 1>0; accept 1>1; accept 1>2; 1 works off; 2 works off; accepted 1>1; accepted 2>1; 1 works off; chosen 1>1; chosen 1>2;
    drop chosen 1>0; 1 works off; 2 works off";

const STARTS: &str = "op calls 6; 0 boots; 0 shows 6; seen 0>op; line 6 ok";

// Server 0 learns of it, and is refused in its first ballot, whose round is an old one.
const JOIN: &str =
    "0 ticks; ask 0>1; 1 works off; news 1>0; 0 works off; drop prepare 0>2; prepare 0>1; 1 works off; refuse 1>0; 0 works off; drop prepare 0>0";

// A ballot of server 0, with server 1.
const BALLOT_OF_0: &str =
    "0 ticks; 0 works off; drop prepare 0>2; prepare 0>0; prepare 0>1; 0 works off; 1 works off; promise 0>0; promise 1>0; 0 works off; drop accept 0>2;
    accept 0>0; accept 0>1; 0 works off; 1 works off; accepted 0>0; accepted 1>0; 0 works off; chosen 0>0; chosen 0>1; chosen 0>2; 0 works off;
    1 works off; 2 works off";

// A ballot of server 1, with server 0.
const BALLOT_OF_1: &str =
    "1 ticks; 1 works off; drop prepare 1>2; prepare 1>1; prepare 1>0; 1 works off; 0 works off; promise 1>1; promise 0>1; 1 works off; drop accept 1>2;
    accept 1>1; accept 1>0; 1 works off; 0 works off; accepted 1>1; accepted 0>1; 1 works off; chosen 1>1; chosen 1>0; chosen 1>2; 1 works off;
    0 works off; 2 works off";

// Server 1, which holds the link alone, hears of the mark, and its copy of the block, which is none, takes the put away.
const COPIED: &str =
    "helloask 1>0; 0 works off; hello 0>1; 1 works off; helloask 1>0; 0 works off; hello 0>1; 1 works off; sent 1 trim 1>0; trim 1>0; 0 works off;
    0 has 0 entries; trimmed 0>1; 1 works off; not sent 1 sync 1>0; told begin";

// Server 1 stops once the link is in Both, and server 0 goes on alone.
const ALONE: &str =
    "told begin; op calls 7; 1 stops; 1 shows 7; seen 1>op; line 7 ok; down 1>0; 0 works off; 0 ticks; 0 works off; drop prepare 0>1; prepare 0>0;
    prepare 0>2; 0 works off; 2 works off; promise 0>0; promise 2>0; 0 works off; drop accept 0>1; accept 0>0; accept 0>2; 0 works off; 2 works off;
    accepted 0>0; accepted 2>0; 0 works off; chosen 0>0; chosen 0>2; drop chosen 0>1; 0 works off; 2 works off";

// A client comes to know of all that was chosen.
const ASKED: &str =
    "b calls 8; read b>0; 0 works off; wrongrev 0>b; b ticks; ask b>0; 0 works off; news 0>b; drop read b>0";

// What server 0 alone shows, and the client's write, which it sends again.
const SHOWN: &str =
    "read b>0; 0 works off; data 0>b; line 8 fill 0; line 4 open; told begin look; agree; line 4 ok; told begin look take end; wait; c calls 10; agree;
    line 10 fill 7";

const UNHEARD: &str = "drop down 0>1; drop down 0>2";

// It runs before anyone wants its Leave: it leads the link by its own state, but takes no part in it.
const EARLY: &str =
    "a ticks; write a>0; 0 works off; not sent 2 reserve 0>1; b calls 8; read b>0; 0 works off; not sent 1 data 0>b; told begin";

const ASKED_ELSEWHERE: &str = "b ticks; ask b>2; 2 works off; news 2>b";

// Server 0 wrote block 0 alone while server 1 had stopped.
const SECONDARY_RETURNS: &str =
    "servers 3 slots 4\na disk vol on 0 1 2\nwait\na write vol 0 fill 7\nwait\nop stop 1\nwait\na write vol 0 fill 8\nwait
op start 1\nb write vol 0 fill 9\nop stop 0\nwait\nc read vol 0\n";

const RETURNED: &str =
    "a calls 2; agree; wait; a calls 4; agree; wait; op calls 6; 1 stops; 1 shows 6; seen 1>op; line 6 ok; agree without 1; wait; a calls 8;
    agree without 1; line 8 ok; wait; op calls 10; 1 boots; 1 shows 10; seen 1>op; line 10 ok; agree";

// A copy of the block sends its entry twice, and ends with the first of the two. Then the block is written again.
const COPIED_ONCE: &str =
    "helloask 0>1; 1 works off; hello 1>0; 0 works off; trim 0>1; 1 works off; trimmed 1>0; 0 works off; 0 ticks; sync 0>1; 1 works off; synced 1>0;
    0 works off; sent 2 sync 0>1; b ticks; ask b>2; 2 works off; news 2>b; b calls 11; write b>0; 0 works off; written 0>b; line 11 ok";

// The second of the two comes when another copy has trimmed the block, before the entry of that one.
const COPIED_AGAIN: &str =
    "0 ticks; 0 works off; trim 0>1; 1 works off; sync 0>1; 1 works off; not sent 2 synced 1>0; trimmed 1>0; 0 works off; sync 0>1; 1 works off;
    sent 2 synced 1>0; synced 1>0; 0 works off; not sent 4 sync 0>1";

const READ_AT_THE_OTHER: &str =
    "op calls 12; 0 stops; 0 shows 12; seen 0>op; line 12 ok; agree; wait; c calls 14; agree; line 14 fill 9;
    told begin take end begin take end begin take end look";

const RETURNS: &[Parts] = &[
    Parts {
        shows: "the other server hears of the mark of the one that returns, and its put, which never counted, is taken away",
        script: PRIMARY_RETURNS,
        steps: &[
            PUT,
            LEAVE,
            STARTS,
            JOIN,
            BALLOT_OF_0,
            COPIED,
            BALLOT_OF_1,
            ALONE,
            ASKED,
            SHOWN,
        ],
    },
    Parts {
        shows: "so it is where the one that returns has failed right after its put",
        script: PRIMARY_RETURNS,
        steps: &[
            PUT_LATE,
            LEAVE,
            STARTS,
            JOIN,
            BALLOT_OF_0,
            COPIED,
            BALLOT_OF_1,
            ALONE,
            ASKED,
            SHOWN,
        ],
    },
    Parts {
        shows: "a server that runs before its Leave is chosen answers no client, and its put is taken away as well",
        script: PRIMARY_RETURNS,
        steps: &[
            PUT,
            UNHEARD,
            STARTS,
            UNHEARD,
            EARLY,
            BALLOT_OF_0,
            BALLOT_OF_0,
            COPIED,
            BALLOT_OF_1,
            ALONE,
            ASKED_ELSEWHERE,
            SHOWN,
        ],
    },
    Parts {
        shows: "an entry that comes late, when another copy of its block has trimmed, is dropped, and the later content is copied",
        script: SECONDARY_RETURNS,
        steps: &[
            RETURNED,
            BALLOT_OF_1,
            COPIED_ONCE,
            COPIED_AGAIN,
            BALLOT_OF_0,
            READ_AT_THE_OTHER,
        ],
    },
];

#[test]
fn servers_return(rt: HostRuntime) -> Result<(), Fail> {
    play_parts(rt.alloc(), RETURNS)
}

#[test]
fn a_copied_entry_that_is_there_needs_no_slot(rt: HostRuntime) -> Result<(), Fail> {
    play_steps(
        rt.alloc(),
        "a block whose mark outlived its write is copied to the server that has it, and all slots are in use",
        "servers 3 slots 1\na disk vol on 0 1\nwait\na write vol 0 fill 7\nop stop 0\nop start 0\nop settle\nop stop 1\nwait\nb read vol 0\n",
        "a calls 2; agree; wait; a calls 4; write a>0; 0 works; reserve 0>1; 1 works; reserved 1>0; 0 works off; replicate 0>1; 1 works;
        replicated 1>0; 0 works off; written 0>a; line 4 ok; 0 marks 0 0; op calls 5; 0 stops; 0 shows 5; seen 0>op; line 5 ok; agree without 0;
        op calls 6; 0 boots; 0 shows 6; seen 0>op; line 6 ok; play out; line 7 ok; sent 1 synced 0>1; line 10 fill 7",
    )
}
