//! Snapshots, and the fences that wait for servers.

use memory_runs::play_all;
use std::test::Fail;
use step_runner::Case;

// Of three servers, servers 0 and 1 have block 0, servers 1 and 2 block 1, and servers 2 and 0 block 2.
const BEFORE_AND_AFTER: &str =
    "servers 3 slots 8\na disk vol on 0 1 2\nwait\na write vol 0 fill 1\nb write vol 1 fill 2\nwait\na snap vol one\nwait
a write vol 0 fill 3\nwait\na snap vol two\nwait\na write vol 0 fill 4\nb write vol 1 fill 5\nwait
a read vol 0\nb read vol@one 0\nc read vol@two 0\nd read vol@one 1\ne read vol@two 1\nf read vol 1\ng read vol@one 2\n";

const NAMES: &str =
    "servers 3 slots 8\na disk vol on 0 1 2\nb disk other on 1 2 0\nwait\na snap vol one\nwait
a snap vol one\nb snap other one\nc snap none one\nd read vol@two 0\nwait
e read other@one 0\nf read vol@one 1\ng read none@one 0\na snap vol one\n";

const SNAPSHOTS: &[Case] = &[
    Case {
        shows: "a snapshot has what was written before it, and the disk what was written since, each letter twice",
        script: BEFORE_AND_AFTER,
        steps: "play out; line 4 ok; line 5 ok; line 7 ok; line 9 ok; line 11 ok; line 13 ok; line 14 ok;
            line 16 fill 4; line 17 fill 1; line 18 fill 3; line 19 fill 2; line 20 fill 2; line 21 fill 5; line 22 fill 0",
    },
    Case {
        shows: "a name that is taken, one that is unknown, and disks that are unknown",
        script: NAMES,
        steps: "play out; line 5 ok; line 7 exists; line 8 ok; line 9 nodisk; line 10 nosnap; line 12 fill 0; line 13 fill 0;
            line 14 nodisk; line 15 exists; told freeze freeze look look",
    },
    Case {
        shows: "three clients snap one disk in one phase, two of them by one name",
        script: "servers 3 slots 8\na disk vol on 0 1 2\nwait\na write vol 0 fill 1\nb snap vol one\nc snap vol two\nd snap vol two\nwait
a read vol 0\nb read vol@one 0\nc read vol@two 0\n",
        steps: "play out; line 4 ok; line 5 ok; line 9 fill 1; line 10 fill 0 or 1; line 11 fill 0 or 1; not line 6 open; not line 7 open",
    },
];

#[test]
fn snapshots_and_their_names(rt: HostRuntime) -> Result<(), Fail> {
    play_all(rt.alloc(), SNAPSHOTS)
}

const ONE_PENDING: &str =
    "servers 3 slots 8\na disk vol on 0 1 2\nwait\na write vol 2 fill 5\nb snap vol one\nwait\na write vol 2 fill 6\nwait
c read vol@one 2\nd read vol 2\n";

const ONE_HELD: &str =
    "servers 3 slots 8\na disk vol on 0 1 2\na disk other on 0 1\nwait\na write vol 0 fill 1\nwait\nb snap vol one\nc write vol 0 fill 2
d read vol 0\ne write other 0 fill 3\nwait\na read vol@one 0\nb read vol 0\nc read other 0\n";

const FENCES: &[Case] = &[
    // Server 2 leads block 2, and server 0 is second. Server 0 has applied the entry of the snapshot when the copy comes that
    // server 2 sends at the revision before.
    Case {
        shows: "a write that is under way at a server that is behind is taken in the old epoch, and the snapshot has it",
        script: ONE_PENDING,
        steps: "a calls 2; agree; wait; a calls 4; write a>2; 2 works; reserve 2>0; 0 works; reserved 0>2; b calls 5;
            not agree without 2; line 5 open; 2 works off; sent 1 replicate 2>0; replicate 2>0; 0 works; told begin;
            2 ticks; ask 2>0; 0 works; news 0>2; 2 works off; line 5 open; told begin;
            agree; line 4 ok; line 5 ok; told begin take end freeze;
            wait; a calls 7; agree; line 7 ok; wait; c calls 9; d calls 10; agree; line 9 fill 5; line 10 fill 6",
    },
    Case {
        shows: "while a fence waits for a server, writes of its disk are held, and reads and writes of other disks go on",
        script: ONE_HELD,
        steps: "a calls 2; agree; a calls 3; agree; wait; a calls 5; agree; wait; b calls 7; not agree without 2; line 7 open;
            c calls 8; write c>0; 0 works; held 0>c; line 8 open; d calls 9; read d>0; 0 works; data 0>d; line 9 fill 1;
            e calls 10; write e>0; 0 works; reserve 0>1; 1 works; reserved 1>0; 0 works off; replicate 0>1; 1 works; replicated 1>0; 0 works off;
            written 0>e; line 10 ok; c ticks; write c>0; 0 works; held 0>c; line 8 open;
            agree; line 7 ok; line 8 ok; wait; a calls 12; b calls 13; c calls 14; agree; line 12 fill 1; line 13 fill 2; line 14 fill 3",
    },
];

#[test]
fn fences_that_wait(rt: HostRuntime) -> Result<(), Fail> {
    play_all(rt.alloc(), FENCES)
}
