//! Snapshots beside servers that stop, start and are brought up to date.

use memory_runs::play_all;
use std::test::Fail;
use step_runner::Case;

// Of three servers, servers 0 and 1 have block 0, servers 1 and 2 block 1, and servers 2 and 0 block 2. In the end servers 1 and then 0
// are alone with what they have.
const WITHOUT_ONE: &str =
    "servers 3 slots 16\na disk vol on 0 1 2\nwait\na write vol 0 fill 1\nb write vol 1 fill 2\nc write vol 2 fill 3\nwait
op stop 1\nwait\na snap vol one\nwait\na write vol 0 fill 4\nb write vol 1 fill 5\nwait\nop start 1\nop settle\nwait
op stop 0\nwait\na read vol@one 0\nb read vol@one 1\nc read vol 0\nd read vol 1\nwait\nop start 0\nop settle\nwait
op stop 2\nwait\na read vol@one 1\nb read vol@one 2\nc read vol 1\nd read vol 2\n";

const DURING_A_CATCH_UP: &str =
    "servers 3 slots 16\na disk vol on 0 1 2\nwait\na write vol 0 fill 1\nb write vol 1 fill 2\nc write vol 2 fill 3\nwait
op stop 1\nwait\na write vol 0 fill 4\nb write vol 1 fill 5\nwait\nop start 1\na snap vol one\nb write vol 0 fill 6\nc write vol 1 fill 7
a snap vol two\nop settle\nwait\nop stop 0\nwait\na read vol@one 0\nb read vol@two 1\nc read vol 0\nd read vol 1\n";

const TWO_DISKS: &str =
    "servers 4 slots 16\na disk one on 0 1 2\nb disk two on 1 2 3\nwait\na write one 0 fill 1\nb write one 1 fill 2\nc write two 0 fill 3
d write two 1 fill 4\nwait\na snap one monday\nwait\na write one 0 fill 5\nb write two 0 fill 6\nwait\nop stop 1\nwait
a write one 1 fill 7\nb write two 1 fill 8\nc snap two monday\nd read one@monday 0\nwait\na snap one tuesday\nb write two 0 fill 9\nwait
op start 1\nop settle\na write one 0 fill 10\nwait\nop stop 2\nwait
a read one@monday 0\na read one@monday 1\na read one@tuesday 0\na read one@tuesday 1\na read one 0\na read one 1
b read two@monday 1\nb read two@monday 0\nb read two 0\nb read two 1\n";

// Server 0 leads block 0, and server 1 is second.
const ONE_LEAVES: &str =
    "servers 3 slots 8\na disk vol on 0 1 2\nwait\na write vol 0 fill 5\nb snap vol one\nop stop 0\nwait\nc read vol@one 0\nd read vol 0\n";

const SNAPSHOTS: &[Case] = &[
    Case {
        shows: "a snapshot is taken while a server of its disk is stopped, and is copied to it when it returns",
        script: WITHOUT_ONE,
        steps: "play out; line 10 ok; line 12 ok; line 13 ok; line 16 ok; line 20 fill 1; line 21 fill 2; line 22 fill 4; line 23 fill 5;
            line 30 fill 2; line 31 fill 3; line 32 fill 5; line 33 fill 3",
    },
    Case {
        shows: "snapshots are taken while a server is brought up to date",
        script: DURING_A_CATCH_UP,
        steps: "play out; line 13 ok; line 14 ok; line 15 ok; line 16 ok; line 17 ok; line 18 ok;
            line 22 fill 4 or 6; line 23 fill 5 or 7; line 24 fill 6; line 25 fill 7",
    },
    Case {
        shows: "the day's use of two disks",
        script: TWO_DISKS,
        steps: "play out; line 10 ok; line 17 ok; line 18 ok; line 19 ok; line 20 fill 1; line 22 ok; line 26 ok; line 31 fill 1; line 32 fill 2;
            line 33 fill 5; line 34 fill 7; line 35 fill 10; line 36 fill 7; line 37 fill 4 or 8; line 38 fill 6; line 39 fill 9; line 40 fill 8",
    },
    Case {
        // Server 1 reports while the lead's copy is on its way to it, does not hear that its report is chosen, and takes the copy after
        // the lead's leave is chosen: were that report to count still, the fence would have taken effect with the leave.
        shows: "a report that was made before a leave does not count, so the copy that is on its way is taken in the old epoch",
        script: ONE_LEAVES,
        steps: "a calls 2; agree; wait; a calls 4; write a>0; 0 works; reserve 0>1; 1 works; reserved 1>0; 0 works off;
            b calls 5; not agree without 1; line 5 open; told begin; 1 ticks; ask 1>0; 0 works; news 0>1; 1 works off;
            1 ticks; 1 works off; prepare 1>1; prepare 1>2; 1 works off; 2 works off; promise 1>1; promise 2>1; 1 works off;
            accept 1>1; accept 1>2; 1 works off; 2 works off; op calls 6; 0 stops; 0 shows 6; seen 0>op; line 6 ok; down 0>2; 2 works off;
            2 ticks; 2 works off; drop prepare 2>1; drop prepare 2>1; prepare 2>1; prepare 2>2; 1 works off; 2 works off; promise 1>2; promise 2>2; 2 works off;
            drop accept 2>1; drop accept 2>1; accept 2>1; accept 2>2; 1 works off; 2 works off; accepted 1>2; accepted 2>2; 2 works off; chosen 2>2; 2 works off;
            2 ticks; 2 works off; prepare 2>1; prepare 2>2; 1 works off; 2 works off; promise 1>2; promise 2>2; 2 works off;
            accept 2>1; accept 2>2; 1 works off; 2 works off; accepted 1>2; accepted 2>2; 2 works off; chosen 2>2; 2 works off;
            line 5 open; told begin; replicate 0>1; replicate 0>1; replicate 0>1; replicate 0>1; replicate 0>1; 1 works off; told begin take;
            agree; line 4 ok; line 5 ok; told begin take freeze end; wait; c calls 8; d calls 9; agree; line 8 fill 5; line 9 fill 5",
    },
];

#[test]
fn snapshots_while_servers_stop_and_return(rt: HostRuntime) -> Result<(), Fail> {
    play_all(rt.alloc(), SNAPSHOTS)
}
