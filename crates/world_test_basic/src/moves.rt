//! Disks that move.
//!
//! While a fence waits, what it holds is asked for again and again. So where letters come twice, no line is called that a fence may
//! hold.

use memory_runs::play_all;
use std::test::Fail;
use step_runner::Case;

// Servers 3 and 2 have block 0 under the old map, servers 0 and 1 under the new one. The read of block 1 waits until the region is on
// its way.
const TWO_EPOCHS: &str =
    "servers 4 slots 16\na disk vol on 3 2\nwait\na write vol 0 fill 1\nwait\na snap vol one\nwait\na write vol 0 fill 2\nwait
a move vol on 0 1\nwait\nb read vol 1\nwait\nb write vol 0 fill 3\nwait\nc read vol@one 0\nd read vol 0\nwait
c read vol@one 0\nd read vol 0\n";

// Blocks 0 and 1 are of the first region, blocks 8 and 9 of the second one.
const WITH_A_SNAPSHOT: &str =
    "servers 3 slots 16\na disk vol on 0 1\nwait\na write vol 0 fill 1\nb write vol 8 fill 2\nwait\na snap vol one\nwait\na write vol 0 fill 3\nwait
c read vol@one 0\nd read vol@one 8\ne read vol 0\nf read vol 8\nwait\na move vol on 1 2\nb write vol 8 fill 9\nc read vol 8\nd read vol@one 8\nwait
op settle\nwait\nc read vol@one 0\nd read vol@one 8\ne read vol 0\nf read vol 8\ng read vol@one 1\n";

const IN_ANOTHER_ORDER: &str =
    "servers 3 slots 16\na disk vol on 0 1 2\nwait\na write vol 0 fill 1\nb write vol 1 fill 2\nc write vol 2 fill 3\nwait
a move vol on 2 1 0\nwait\nb write vol 1 fill 4\nc read vol 2\nwait\na read vol 0\nb read vol 1\nc read vol 2\n";

const SNAPPED_ON_THE_MOVE: &str =
    "servers 3 slots 16\na disk vol on 0 1\nwait\na write vol 0 fill 1\nwait\na move vol on 1 2\nwait\nb write vol 1 fill 2\nwait\na snap vol one\nwait
b write vol 0 fill 3\nwait\na read vol@one 0\nb read vol@one 1\nc read vol 0\nd read vol 1\nwait\nop settle\nwait
a read vol@one 0\nb read vol@one 1\nc read vol 0\nd read vol 1\n";

const TWO_DISKS: &str =
    "servers 3 slots 16\na disk one on 0 1\nb disk two on 1 2\nwait\na write one 0 fill 1\nb write two 0 fill 2\na write one 9 fill 3\nwait
a move one on 1 2\nb move two on 2 0\nwait\nc write one 0 fill 4\nd read two 0\nwait\na read one 9\nb read one 0\nc read two 0\n";

const MOVES: &[Case] = &[
    Case {
        shows: "a write makes the newer epoch under the new map, its fill changes nothing, the fill of the older epoch follows",
        script: TWO_EPOCHS,
        steps: "a calls 2; agree; wait; a calls 4; agree; wait; a calls 6; agree; wait; a calls 8; agree; wait; a calls 10; agree; line 10 ok; wait;
            b calls 12; agree; line 12 fill 0; not sent 1 fill 3>0; wait;
            b calls 14; write b>0; 0 works; reserve 0>1; 1 works; reserved 1>0; 0 works off; replicate 0>1; 1 works;
            told begin take end freeze begin take end look begin take; replicated 1>0; 0 works off; written 0>b; line 14 ok; wait;
            c calls 16; d calls 17; agree without 3; line 16 fill 1; line 17 fill 3; sent 1 nothere 0>c; not sent 1 fill 3>0;
            told begin take end freeze begin take end look begin take end look look; wait;
            3 ticks; fill 3>0; 0 works off; sent 1 filled 0>3; not sent 2 reserve 0>1; filled 0>3; 3 works off; sent 2 fill 3>0;
            fill 3>0; 0 works off; not sent 2 filled 0>3; reserve 0>1; 1 works; reserved 1>0; 0 works off; replicate 0>1; 1 works;
            replicated 1>0; 0 works off; sent 2 filled 0>3;
            c calls 19; d calls 20; agree without 3; line 19 fill 1; line 20 fill 3;
            told begin take end freeze begin take end look begin take end look look look look",
    },
    Case {
        shows: "a disk with a snapshot moves, and is read before and after by both names; what the old map had is swept",
        script: WITH_A_SNAPSHOT,
        steps: "play out; line 11 fill 1; line 12 fill 2; line 13 fill 3; line 14 fill 2; line 16 ok; line 17 ok; line 18 fill 2 or 9; line 19 fill 2;
            line 21 ok; line 23 fill 1; line 24 fill 2; line 25 fill 3; line 26 fill 9; line 27 fill 0;
            go on 100; 0 has 0 entries; 1 has 4 entries; 2 has 4 entries; 1 has 1/0 fill 3; 2 has 1/8 fill 9; 2 marks 1 none",
    },
    Case {
        shows: "a disk moves onto the same servers in another order, and is written and read meanwhile",
        script: IN_ANOTHER_ORDER,
        steps: "a calls 2; agree; wait; a calls 4; b calls 5; c calls 6; agree; wait; a calls 8; agree; wait;
            b calls 10; c calls 11; agree; line 10 ok; line 11 fill 3; wait; play out; line 13 fill 1; line 14 fill 4; line 15 fill 3",
    },
    Case {
        shows: "a snapshot is taken while a move is on, and moves too",
        script: SNAPPED_ON_THE_MOVE,
        steps: "a calls 2; agree; wait; a calls 4; agree; wait; a calls 6; agree; wait; b calls 8; agree; line 8 ok; wait;
            a calls 10; agree; line 10 ok; wait; b calls 12; agree; line 12 ok; wait; play out;
            line 14 fill 1; line 15 fill 2; line 16 fill 3; line 17 fill 2; line 19 ok; line 21 fill 1; line 22 fill 2; line 23 fill 3; line 24 fill 2",
    },
    Case {
        shows: "two disks are on the move",
        script: TWO_DISKS,
        steps: "a calls 2; b calls 3; agree; wait; a calls 5; b calls 6; agree; a calls 7; agree; wait; a calls 9; b calls 10; agree;
            line 9 ok; line 10 ok; wait; c calls 12; d calls 13; agree; line 12 ok; line 13 fill 2; wait;
            a calls 15; b calls 16; c calls 17; agree; line 15 fill 3; line 16 fill 4; line 17 fill 2",
    },
];

#[test]
fn moves_and_what_is_asked_meanwhile(rt: HostRuntime) -> Result<(), Fail> {
    play_all(rt.alloc(), MOVES)
}

// Disk two fills both slots of server 2 and of server 3, which are to get disk one.
const NO_SLOT_AT_THE_LEAD: &str =
    "servers 4 slots 2\na disk one on 0 1\nb disk two on 2 3\nwait\na write one 0 fill 1\nb write two 0 fill 2\nb write two 1 fill 3\nwait
a move one on 2 3\nwait\nop settle\nwait\na read one 0\nb read two 0\nc read two 1\nd write one 1 fill 4\ne write one 0 fill 5\n";

// Disk two fills both slots of server 3 alone.
const NO_SLOT_AT_THE_SECOND: &str =
    "servers 5 slots 2\na disk one on 0 1\nb disk two on 3 4\nwait\na write one 0 fill 1\nb write two 0 fill 2\nb write two 1 fill 3\nwait
a move one on 2 3\nwait\nop settle\nwait\na read one 0\nb read two 0\nc read two 1\n";

const NO_SLOTS: &[Case] = &[
    Case {
        shows: "the new lead has no slot: the settle says so, and the block is read where it was",
        script: NO_SLOT_AT_THE_LEAD,
        steps: "play out; line 9 ok; line 11 nospace; sent 1 fillfull 2>0; line 13 fill 1; line 14 fill 2; line 15 fill 3; line 16 nospace; line 17 nospace",
    },
    Case {
        shows: "the new second server has none",
        script: NO_SLOT_AT_THE_SECOND,
        steps: "play out; line 9 ok; line 11 nospace; sent 1 pairfull 3>2; sent 1 fillfull 2>0; line 13 fill 1; line 14 fill 2; line 15 fill 3",
    },
];

#[test]
fn new_servers_without_a_slot(rt: HostRuntime) -> Result<(), Fail> {
    play_all(rt.alloc(), NO_SLOTS)
}
