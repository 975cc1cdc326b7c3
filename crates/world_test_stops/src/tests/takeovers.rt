//! A server of a pair stops in the middle of a write, and the other one goes on.

use memory_runs::play_all;
use std::test::Fail;
use step_runner::Case;

// Of three servers, server 0 leads block 0, and server 1 is second.
const SECONDARY_STOPS: &str =
    "servers 3 slots 4\na disk vol on 0 1 2\nwait\na write vol 0 fill 7\nop stop 1\nwait\nb read vol 0\n";

const PRIMARY_STOPS: &str =
    "servers 3 slots 4\na disk vol on 0 1 2\nwait\na write vol 0 fill 7\nop stop 0\nwait\nb read vol 0\n";

const STOPS: &[Case] = &[
    Case {
        shows: "the lead has put: the contents change with the vote that chooses the Leave, and the lead goes on alone and keeps a mark",
        script: SECONDARY_STOPS,
        steps: "a calls 2; agree; wait; a calls 4; write a>0; 0 works; reserve 0>1; 1 works; reserved 1>0; 0 works; 0 works; 0 works;
            sent 1 replicate 0>1; op calls 5; 1 stops; 1 shows 5; seen 1>op; line 5 ok; replicate 0>1; not 1 works; told begin;
            down 1>2; 2 works; 2 ticks; 2 works; prepare 2>2; 2 works; prepare 2>0; 0 works; promise 2>2; promise 0>2; 2 works off;
            accept 2>2; 2 works; told begin; accept 2>0; 0 works; told begin take;
            accepted 2>2; accepted 0>2; 2 works off; chosen 2>0; 0 works; 0 works; not sent 1 written 0>a; 0 works; 0 works; 0 works;
            sent 1 written 0>a; written 0>a; line 4 open; agree; line 4 ok; told begin take end;
            0 has 0/0 fill 7; 0 marks 0 0; 1 has 0 entries; wait; b calls 7; agree; line 7 fill 7; told begin take end look",
    },
    Case {
        shows: "the lead has reserved: it puts alone once it knows of the Leave",
        script: SECONDARY_STOPS,
        steps: "a calls 2; agree; wait; a calls 4; write a>0; 0 works; reserve 0>1; 1 works; op calls 5; 1 stops; 1 shows 5; seen 1>op;
            down 1>2; 2 works; 2 ticks; 2 works; prepare 2>2; 2 works; prepare 2>0; 0 works; promise 2>2; promise 0>2; 2 works off;
            accept 2>2; accept 2>0; 2 works; 0 works; accepted 2>2; accepted 0>2; 2 works off; told begin; chosen 2>0; 0 works; 0 works;
            reserved 1>0; told begin; 0 works off; told begin take; line 4 open; agree; line 4 ok; told begin take end;
            wait; b calls 7; agree; line 7 fill 7",
    },
    Case {
        shows: "what it has put alone is lost, and the secondary puts the write that its client sends again",
        script: PRIMARY_STOPS,
        steps: "a calls 2; agree; wait; a calls 4; write a>0; 0 works; reserve 0>1; 1 works; reserved 1>0; 0 works; 0 works; 0 works;
            sent 1 replicate 0>1; op calls 5; 0 stops; 0 shows 5; seen 0>op; line 5 ok;
            down 0>2; 2 works; 2 ticks; 2 works; prepare 2>2; 2 works; prepare 2>1; 1 works; promise 2>2; promise 1>2; 2 works off;
            accept 2>2; accept 2>1; 2 works; 1 works; told begin; accepted 2>2; accepted 1>2; 2 works off; chosen 2>1; 1 works off;
            replicate 0>1; 1 works; not sent 1 replicated 1>0; told begin;
            a ticks; a ticks; a ticks; ask a>1; 1 works; news 1>a; write a>1; 1 works; told begin; 1 works; 1 works; told begin take;
            written 1>a; line 4 ok; told begin take end; wait; b calls 7; agree; line 7 fill 7; told begin take end look",
    },
    Case {
        shows: "its copy comes to the secondary before that knows of the Leave: it counts, and is put again for the client",
        script: PRIMARY_STOPS,
        steps: "a calls 2; agree; wait; a calls 4; write a>0; 0 works; reserve 0>1; 1 works; reserved 1>0; 0 works; 0 works; 0 works;
            op calls 5; 0 stops; 0 shows 5; seen 0>op;
            down 0>2; 2 works; 2 ticks; 2 works; prepare 2>2; 2 works; prepare 2>1; 1 works; promise 2>2; promise 1>2; 2 works off;
            accept 2>2; accept 2>1; 2 works; 1 works; told begin; replicate 0>1; 1 works; told begin take;
            accepted 2>2; accepted 1>2; 2 works off; chosen 2>1; 1 works off; line 4 open; agree; line 4 ok; told begin take end;
            wait; b calls 7; agree; line 7 fill 7",
    },
];

#[test]
fn a_server_of_a_pair_stops(rt: HostRuntime) -> Result<(), Fail> {
    play_all(rt.alloc(), STOPS)
}
