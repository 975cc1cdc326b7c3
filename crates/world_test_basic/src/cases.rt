//! Rows: runs in orders that the plain schedule never takes.

use memory_runs::play_all;
use std::alloc::Global;
use std::test::Fail;
use step_language::act_of;
use step_runner::Case;

// Of two servers, block 5 lies on link 1: server 1 leads it, and server 0 is second.
const ONE_WRITE: &str =
    "servers 2 slots 4\na disk vol on 0 1\na write vol 5 fill 7\nwait\nb read vol 5\n";

const WRITES: &[Case] = &[
    Case {
        shows: "a reply that is lost is asked for again; the mark at the lead stays when the write ends, until a tick",
        script: ONE_WRITE,
        steps: "a calls 2; agree; a calls 3; told begin; write a>1; 1 works; reserve 1>0; 0 works;
            drop reserved 0>1; not 1 works; 1 ticks; reserve 1>0; 0 works; reserved 0>1; 1 works; 1 works;
            not sent 1 replicate 1>0; 1 works; not 1 works; replicate 1>0; told begin; 1 has 0/5 fill 7; 1 marks 0 5; 0 has 0/5 fill 0;
            0 works; told begin take; 0 has 0/5 fill 7; 0 marks 0 none;
            replicated 0>1; not sent 1 written 1>a; 1 works; not 1 works; line 3 open; written 1>a; line 3 ok; told begin take end;
            1 has 0/5 fill 7; not 1 has 0/5 fill 8; 1 marks 0 5; not 1 marks 0 none; 1 ticks; 1 works off; 1 marks 0 none;
            wait; b calls 5; read b>0; 0 works; data 0>b; line 5 fill 7; told begin take end look",
    },
    Case {
        shows: "a copy that comes again is put once",
        script: ONE_WRITE,
        steps: "a calls 2; agree; a calls 3; write a>1; 1 works; reserve 1>0; 0 works; reserved 0>1; 1 works off;
            replicate 1>0; 0 works; told begin take; again replicate 1>0; 0 works off; told begin take;
            replicated 0>1; 1 works; replicated 0>1; 1 works; written 1>a; again written 1>a; line 3 ok;
            told begin take end",
    },
    Case {
        shows: "a read whose answer is lost goes to the other server",
        script: ONE_WRITE,
        steps: "a calls 2; agree; a calls 3; write a>1; 1 works; reserve 1>0; 0 works; reserved 0>1; 1 works off;
            replicate 1>0; 0 works; replicated 0>1; 1 works off; written 1>a; wait;
            b calls 5; read b>0; 0 works; drop data 0>b; b ticks; not read b>0; read b>1; 1 works;
            data 1>b; line 5 fill 7; told begin take end look",
    },
    Case {
        shows: "a write that finds its block busy is sent again",
        script: "servers 2 slots 4\na disk vol on 0 1\nwait\na write vol 5 fill 1\nb write vol 5 fill 2\n",
        steps: "a calls 2; agree; wait; a calls 4; b calls 5; told begin begin; write a>1; 1 works; write b>1; 1 works;
            sent 1 write b>1; not sent 2 write b>1; busy 1>b; sent 2 write b>1; line 5 open;
            play out; line 4 ok; line 5 ok; told begin begin take end take end",
    },
];

#[test]
fn writes_step_by_step(rt: HostRuntime) -> Result<(), Fail> {
    play_all(rt.alloc(), WRITES)
}

const TWICE: &[Case] = &[
    Case {
        shows: "two clients write one block",
        script: "servers 3 slots 4\na disk vol on 0 1 2\nwait\na write vol 5 fill 1\nb write vol 5 fill 2\nwait\na read vol 5\nb read vol 5\n",
        steps: "a calls 2; agree; play out; line 2 ok; line 4 ok; line 5 ok; line 7 fill 1 or 2; line 8 as 7",
    },
    // Blocks 0 and 2 fill the two slots of server 0, which is second to server 2 for block 2: that server has a slot left.
    Case {
        shows: "a write finds no slot at the second server",
        script: "servers 3 slots 2\na disk vol on 0 1 2\na write vol 0 fill 1\na write vol 2 fill 2\nwait\nb write vol 2 fill 3\nwait\na read vol 0\nb read vol 2\n",
        steps: "a calls 2; agree; play out; line 2 ok; line 3 ok; line 4 ok; line 6 nospace; sent 1 pairfull 0>2; line 8 fill 1; line 9 fill 2",
    },
    // No clause speaks of memory, so owners are counted here.
    Case {
        shows: "reads of one block share it",
        script: "servers 2 slots 4\na disk vol on 0 1\nwait\na write vol 0 fill 7\nwait\na read vol 0\na read vol 0\na read vol 0\na read vol 0\n",
        steps: "a calls 2; agree; play out; line 4 ok; line 9 fill 7; owners 8 data 0>a",
    },
];

#[test]
fn letters_that_come_twice_the_last_one_first(rt: HostRuntime) -> Result<(), Fail> {
    play_all(rt.alloc(), TWICE)
}

// Of three servers, server 2 leads block 5.
const TWO_PHASES: &str =
    "servers 3 slots 4\na disk vol on 0 1 2\na write vol 5 fill 1\nwait\nb read vol 5\n";

const CALLS: &[Case] = &[
    Case {
        shows: "a letter is found by its name and its content",
        script: TWO_PHASES,
        steps: "a calls 2; agree; a calls 3; not renamed write a>2; not changed write a>2; write a>2; 2 works",
    },
    Case {
        shows: "a phase waits for the lines before it",
        script: TWO_PHASES,
        steps: "not b calls 5; not wait; a calls 2; agree; not b calls 5; not a calls 2; not a calls 5; play out; line 5 fill 1",
    },
    Case {
        shows: "a write that is sent again shares its block",
        script: "servers 2 slots 4\na disk vol on 0 1\na write vol 0 fill 7\n",
        steps: "a calls 2; agree; a calls 3; a ticks; a ticks; a ticks; sent 4 write a>0; not sent 5 write a>0; owners 4 write a>0",
    },
];

#[test]
fn calls_and_letters(rt: HostRuntime) -> Result<(), Fail> {
    play_all(rt.alloc(), CALLS)
}

const TWO_DISKS: &str =
    "servers 3 slots 4\na disk one on 0 1\nb disk two on 1 2\nwait\nc write one 0 fill 1\nc read two 0\nc read one 0\n";

const AGREED: &[Case] = &[
    // Server 2 promises ballot (1, 1) before it is asked to accept in (1, 0).
    Case {
        shows: "two servers propose for one place, and the loser's command is chosen later",
        script: TWO_DISKS,
        steps: "a calls 2; b calls 3; propose a>0; 0 works; drop propose b>0; b ticks; drop ask b>1; propose b>1; 1 works;
            0 ticks; 0 works; 1 ticks; 1 works; prepare 0>0; prepare 0>2; 0 works; 2 works; promise 0>0; promise 2>0;
            0 works off; prepare 1>2; 2 works; accept 0>2; 2 works; refuse 2>0; 0 works;
            prepare 1>1; 1 works; promise 1>1; promise 2>1; 1 works off; accept 1>1; accept 1>2; 1 works; 2 works; made 1;
            accepted 1>1; accepted 2>1; 1 works off; line 3 open; chosen 1>2; 2 works off;
            agree; line 2 ok; line 3 ok; made 2; wait; play out; line 7 fill 1; line 6 fill 0",
    },
    Case {
        shows: "a client two entries behind its servers hears of both at once, and of each again",
        script: TWO_DISKS,
        steps: "a calls 2; agree without c; line 2 ok; c ticks; ask c>0; 0 works; b calls 3; agree without c; line 3 ok;
            wait; c calls 5; sent 1 propose c>1; c ticks; ask c>2; 2 works; news 2>c; sent 1 write c>0;
            again news 0>c; again news 2>c; not sent 2 write c>0; play out; line 5 ok; line 6 fill 0; line 7 fill 1; made 2",
    },
    Case {
        shows: "a server two entries behind its client is asked again",
        script: "servers 3 slots 4\na disk one on 0 1\na disk two on 1 0\nwait\na write two 0 fill 3\nwait\nb read two 0\n",
        steps: "a calls 2; agree without 1; a calls 3; agree without 1; wait; a calls 5; write a>1; 1 works; wrongrev 1>a;
            sent 2 write a>1; line 5 open; 1 ticks; ask 1>2; 2 works; news 2>1; 1 works off; write a>1; 1 works;
            sent 1 reserve 1>0; play out; line 5 ok; line 7 fill 3; made 2",
    },
    Case {
        shows: "a disk of a name that is taken",
        script: "servers 2 slots 4\na disk one on 0 1\nb disk one on 1 0\n",
        steps: "a calls 2; agree; b calls 3; agree; line 2 ok; line 3 exists; made 1",
    },
];

#[test]
fn what_servers_agree_on(rt: HostRuntime) -> Result<(), Fail> {
    play_all(rt.alloc(), AGREED)
}

const READ_AND_MADE: &str = "servers 2 slots 4\na disk vol on 0 1\nb read vol 0\n";

const MADE: &[Case] = &[
    Case {
        shows: "the disk comes first",
        script: READ_AND_MADE,
        steps: "b calls 3; drop propose b>0; a calls 2; agree; line 2 ok; line 3 fill 0",
    },
    Case {
        shows: "the read comes first",
        script: READ_AND_MADE,
        steps: "b calls 3; agree; line 3 nodisk; a calls 2; agree; line 2 ok; made 1",
    },
    Case {
        shows: "both at once, each letter twice",
        script: READ_AND_MADE,
        steps: "a calls 2; b calls 3; play out; line 2 ok; not line 3 open; made 1",
    },
];

#[test]
fn disks_that_are_made_while_they_are_read(rt: HostRuntime) -> Result<(), Fail> {
    play_all(rt.alloc(), MADE)
}

/// A step, and the place of its first bad word, counted from 1.
#[derive(Clone, Copy)]
struct Bad {
    step: &'static str,
    place: usize,
}

const BAD: &[Bad] = &[
    Bad {
        step: "1 sleeps",
        place: 2,
    },
    Bad {
        step: "a works",
        place: 1,
    },
    Bad {
        step: "1 calls 2",
        place: 1,
    },
    Bad {
        step: "a calls two",
        place: 3,
    },
    Bad {
        step: "reserve 1-0",
        place: 2,
    },
    Bad {
        step: "drop letter 1>0",
        place: 2,
    },
    Bad {
        step: "line 3 maybe",
        place: 3,
    },
    Bad {
        step: "told begin tkae",
        place: 3,
    },
    Bad {
        step: "1 has 0-5 fill 7",
        place: 3,
    },
    Bad {
        step: "1 marks 0 2 no",
        place: 5,
    },
    Bad { step: "", place: 1 },
    Bad {
        step: "op stops",
        place: 1,
    },
    Bad {
        step: "a shows 4",
        place: 1,
    },
    Bad {
        step: "1 shows op",
        place: 3,
    },
    Bad {
        step: "seen 1>ops",
        place: 2,
    },
];

fn are_bad(alloc: Global, steps: &[Bad]) -> Result<(), Fail> {
    for bad in steps {
        let words: Vec<&str> = bad.step.split_whitespace().collect(alloc)?;
        if act_of(&words).err() != Some(bad.place) {
            return Err(Fail::new(bad.step));
        }
    }
    Ok(())
}

#[test]
fn bad_words_are_found(rt: HostRuntime) -> Result<(), Fail> {
    are_bad(rt.alloc(), BAD)
}
