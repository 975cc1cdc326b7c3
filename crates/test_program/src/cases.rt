//! Scripts and what the program writes, worked by hand.

use crate::call::{Case, Fault, Letters, are_so};
use std::test::Fail;

const DISK: &str = "servers 5 slots 16\na disk vol on 0 1 2 3 4\nwait\n";

const RACE: &str =
    "wait\na write vol 5 fill 1\nb write vol 5 fill 2\nwait\na read vol 5\nb read vol 5\n";

const RACED: &[&str] = &[
    "2: ok\n4: ok\n5: ok\n7: data 65536x1\n8: data 65536x1\n",
    "2: ok\n4: ok\n5: ok\n7: data 65536x2\n8: data 65536x2\n",
];

const ONE_WRITE: &str = "a disk vol on 0 1 2\na write vol 5 fill 7\nwait\nh read vol 5\n";

const USAGE: &str = "usage: petal run [FOLDER] | petal drill SEED COUNT\n";

/// A script that ends, where nothing outside fails.
const RUN: Case = Case {
    shows: "an empty session writes nothing",
    words: &["run"],
    start: "servers 2 slots 4\n",
    lines: "",
    fault: Fault::Nowhere,
    letters: Letters::Any,
    status: 0,
    written: &[""],
};

/// A script of one disk over five servers.
const ON_DISK: Case = Case { start: DISK, ..RUN };

/// A script of which a line is refused.
const REFUSED: Case = Case { status: 2, ..RUN };

/// Words that are no form.
const NO_FORM: Case = Case {
    status: 1,
    written: &[USAGE],
    ..RUN
};

const SESSIONS: &[Case] = &[
    RUN,
    Case {
        shows: "two writes fill two slots, the third is refused and the first stays",
        start: "servers 2 slots 2\na disk vol on 0 1\n",
        lines: "a write vol 0 fill 1\na write vol 1 fill 2\na write vol 0 fill 3\na read vol 0\n",
        written: &["2: ok\n3: ok\n4: ok\n5: nospace\n6: data 65536x1\n"],
        ..RUN
    },
];

#[test]
fn whole_sessions(rt: HostRuntime) -> Result<(), Fail> {
    are_so(&rt, rt.alloc(), SESSIONS)
}

const NAMES: &[Case] = &[
    Case {
        shows: "a name that no disk has",
        lines: "a read nosuch 0\n",
        written: &["2: nodisk\n"],
        ..RUN
    },
    Case {
        shows: "a name that a disk has already",
        lines: "a disk vol on 0 1\na disk vol on 1 0\n",
        written: &["2: ok\n3: exists\n"],
        ..RUN
    },
    Case {
        shows: "two clients make a disk of one name at once: one of them does",
        lines: "a disk vol on 0 1\nb disk vol on 1 0\nwait\na write vol 1 fill 3\nb read vol 0\n",
        written: &[
            "2: ok\n3: exists\n5: ok\n6: data 65536x0\n",
            "2: exists\n3: ok\n5: ok\n6: data 65536x0\n",
        ],
        ..RUN
    },
];

#[test]
fn names_of_disks(rt: HostRuntime) -> Result<(), Fail> {
    are_so(&rt, rt.alloc(), NAMES)
}

const STOPS: &[Case] = &[
    Case {
        shows: "the lead of a block stops, and its neighbour goes on; a second stop of it does nothing",
        start: "servers 3 slots 4\na disk vol on 0 1 2\n",
        lines: "a write vol 0 fill 7\nwait\nop stop 0\nop stop 0\nwait\na read vol 0\nwait\nb write vol 0 fill 8\nwait\na read vol 0\n",
        written: &["2: ok\n3: ok\n5: ok\n6: ok\n8: data 65536x7\n10: ok\n12: data 65536x8\n"],
        ..RUN
    },
    Case {
        shows: "two neighbours stop: their block is unavailable, and others go on",
        lines: "a write vol 0 fill 1\na write vol 1 fill 2\nwait\nop stop 0\nop stop 1\nwait\na read vol 0\nb write vol 0 fill 3\nc read vol 1\n",
        written: &[
            "2: ok\n4: ok\n5: ok\n7: ok\n8: ok\n10: unavailable\n11: unavailable\n12: data 65536x2\n",
        ],
        ..ON_DISK
    },
];

#[test]
fn servers_that_stop(rt: HostRuntime) -> Result<(), Fail> {
    are_so(&rt, rt.alloc(), STOPS)
}

const STARTS: &[Case] = &[Case {
    shows: "a server that starts again is brought up to date, and serves what it has missed once its neighbour stops",
    lines: "op stop 0\nwait\na write vol 0 fill 7\nwait\nop start 0\nwait\nop stop 1\nwait\na read vol 0\nb read vol 1\nwait
op start 1\nop start 1\nwait\nc read vol 0\n",
    written: &[
        "2: ok\n4: ok\n6: ok\n8: ok\n10: ok\n12: data 65536x7\n13: data 65536x0\n15: ok\n16: ok\n18: data 65536x7\n",
    ],
    ..ON_DISK
}];

#[test]
fn servers_that_start_again(rt: HostRuntime) -> Result<(), Fail> {
    are_so(&rt, rt.alloc(), STARTS)
}

const SETTLES: &[Case] = &[
    Case {
        shows: "servers that run are settled",
        start: "servers 3 slots 4\n",
        lines: "op settle\n",
        written: &["2: ok\n"],
        ..RUN
    },
    Case {
        shows: "a server that starts again is brought up to date, and its neighbour may stop",
        lines: "a write vol 1 fill 1\nwait\nop stop 2\nwait\na write vol 1 fill 2\nwait\nop start 2\nop settle\nop stop 1\nwait\na read vol 1\n",
        written: &["2: ok\n4: ok\n6: ok\n8: ok\n10: ok\n11: ok\n12: ok\n14: data 65536x2\n"],
        ..ON_DISK
    },
    Case {
        shows: "the same, where letters are lost and come twice",
        start: "servers 5 slots 16\nnet lose 3\nnet twice 2\na disk vol on 0 1 2 3 4\nwait\n",
        lines: "a write vol 1 fill 1\nwait\nop stop 2\nwait\na write vol 1 fill 2\nwait\nop start 2\nop settle\nop stop 1\nwait\na read vol 1\n",
        letters: Letters::LostAndTwice,
        written: &["4: ok\n6: ok\n8: ok\n10: ok\n12: ok\n13: ok\n14: ok\n16: data 65536x2\n"],
        ..RUN
    },
    Case {
        shows: "servers are settled where one has stopped that alone holds a block, and the block comes back with it",
        lines: "op stop 1\nwait\na write vol 1 fill 4\nwait\nop stop 2\nop start 1\nop settle\nwait\na read vol 1\nwait\nop start 2\nop settle\nwait
a read vol 1\n",
        written: &[
            "2: ok\n4: ok\n6: ok\n8: ok\n9: ok\n10: ok\n12: unavailable\n14: ok\n15: ok\n17: data 65536x4\n",
        ],
        ..ON_DISK
    },
    Case {
        shows: "two blocks were written while a server of one slot was stopped: there is no space for both of them",
        start: "servers 3 slots 1\na disk vol on 0 1 2\nwait\n",
        lines: "op stop 1\nwait\na write vol 0 fill 1\nb write vol 1 fill 2\nwait\nop start 1\nop settle\n",
        written: &["2: ok\n4: ok\n6: ok\n7: ok\n9: ok\n10: nospace\n"],
        ..RUN
    },
];

#[test]
fn servers_that_are_settled(rt: HostRuntime) -> Result<(), Fail> {
    are_so(&rt, rt.alloc(), SETTLES)
}

const BLANKS: &[Case] = &[
    Case {
        shows: "a server that comes back with nothing is filled, and its neighbours may stop",
        lines: "a write vol 1 fill 1\na write vol 2 fill 2\nwait\nop blank 2\nop settle\nop stop 1\nop stop 3\nwait\na read vol 1\nb read vol 2\n",
        written: &[
            "2: ok\n4: ok\n5: ok\n7: ok\n8: ok\n9: ok\n10: ok\n12: data 65536x1\n13: data 65536x2\n",
        ],
        ..ON_DISK
    },
    Case {
        shows: "the same, where letters are lost and come twice",
        start: "servers 5 slots 16\nnet lose 3\nnet twice 2\na disk vol on 0 1 2 3 4\nwait\n",
        lines: "a write vol 1 fill 1\na write vol 2 fill 2\nwait\nop blank 2\nop settle\nop stop 1\nop stop 3\nwait\na read vol 1\nb read vol 2\n",
        letters: Letters::LostAndTwice,
        written: &[
            "4: ok\n6: ok\n7: ok\n9: ok\n10: ok\n11: ok\n12: ok\n14: data 65536x1\n15: data 65536x2\n",
        ],
        ..RUN
    },
    Case {
        shows: "a server that is stopped already is blanked",
        lines: "a write vol 1 fill 1\nwait\nop stop 2\nwait\na write vol 1 fill 2\nwait\nop blank 2\nop settle\nop stop 1\nwait\na read vol 1\n",
        written: &["2: ok\n4: ok\n6: ok\n8: ok\n10: ok\n11: ok\n12: ok\n14: data 65536x2\n"],
        ..ON_DISK
    },
    Case {
        shows: "what a server held alone is lost with its device, and other blocks of it are served",
        lines: "a write vol 2 fill 3\nwait\nop stop 1\nwait\na write vol 1 fill 4\nwait\nop blank 2\nop settle\nop start 1\nop settle\nwait
a read vol 1\nb write vol 1 fill 5\nc read vol 2\nd write vol 0 fill 6\nwait\na read vol 0\n",
        written: &[
            "2: ok\n4: ok\n6: ok\n8: ok\n10: ok\n11: ok\n12: ok\n13: ok\n15: unavailable\n16: unavailable\n17: data 65536x3\n18: ok\n20: data 65536x6\n",
        ],
        ..ON_DISK
    },
];

#[test]
fn servers_that_are_blanked(rt: HostRuntime) -> Result<(), Fail> {
    are_so(&rt, rt.alloc(), BLANKS)
}

const SNAPSHOTS: &[Case] = &[
    Case {
        shows: "a snapshot keeps what the disk held, its name is taken, and another is unknown",
        lines: "a write vol 5 fill 1\na snap vol s1\na write vol 5 fill 2\na read vol@s1 5\na read vol 5\na snap vol s1\na read vol@s2 5\n",
        written: &[
            "2: ok\n4: ok\n5: ok\n6: ok\n7: data 65536x1\n8: data 65536x2\n9: exists\n10: nosnap\n",
        ],
        ..ON_DISK
    },
    Case {
        shows: "a day's use of two disks, with a snapshot, a stop and a return",
        start: "servers 4 slots 64\na disk home on 0 1 2 3\na disk mail on 1 3\nwait\n",
        lines: "a write home 0 fill 10\na write home 1 fill 11\nb write mail 0 fill 20\nc read home 9\nwait\na snap home monday\nb write mail 0 fill 21\nop stop 3\nwait\na write home 1 fill 12\nb read mail 0\nop start 3\nop settle\nwait\nc read home@monday 1\nc read home 1\nb read mail 0\n",
        written: &[
            "2: ok\n3: ok\n5: ok\n6: ok\n7: ok\n8: data 65536x0\n10: ok\n11: ok\n12: ok\n14: ok\n15: data 65536x21\n16: ok\n17: ok\n19: data 65536x11\n20: data 65536x12\n21: data 65536x21\n",
        ],
        ..RUN
    },
];

#[test]
fn snapshots(rt: HostRuntime) -> Result<(), Fail> {
    are_so(&rt, rt.alloc(), SNAPSHOTS)
}

const REFUSALS: &[Case] = &[
    Case {
        shows: "a word that is no command",
        lines: "wirte vol 1\n",
        written: &["refused line 2: bad line\n"],
        ..REFUSED
    },
    Case {
        shows: "the empty script",
        start: "",
        written: &["refused line 1: no servers line\n"],
        ..REFUSED
    },
    Case {
        shows: "a stop of one of two servers leaves no majority",
        lines: "op stop 1\n",
        written: &["refused line 2: no majority\n"],
        ..REFUSED
    },
];

#[test]
fn lines_that_are_refused(rt: HostRuntime) -> Result<(), Fail> {
    are_so(&rt, rt.alloc(), REFUSALS)
}

const ARMED: &[Case] = &[
    Case {
        shows: "a server stops in a call of its data device amid a write, which its neighbour ends",
        lines: "a write vol 1 fill 1\nwait\nop stop 1 at 3\na write vol 1 fill 2\nb read vol 1\nwait\na read vol 1\nwait\nop start 1\nop settle\nwait\na read vol 1\n",
        written: &[
            "2: ok\n4: ok\n6: ok\n7: ok\n8: data 65536x1\n10: data 65536x2\n12: ok\n13: ok\n15: data 65536x2\n",
            "2: ok\n4: ok\n6: ok\n7: ok\n8: data 65536x2\n10: data 65536x2\n12: ok\n13: ok\n15: data 65536x2\n",
        ],
        ..ON_DISK
    },
    Case {
        shows: "a write of a data device fails, and its server stops; nothing is lost",
        lines: "op fault 1 data write 2\nwait\na write vol 1 fill 6\na read vol 1\n",
        written: &["2: ok\n4: ok\n6: ok\n7: data 65536x6\n"],
        ..ON_DISK
    },
];

#[test]
fn devices_that_stop_a_server_or_fail(rt: HostRuntime) -> Result<(), Fail> {
    are_so(&rt, rt.alloc(), ARMED)
}

const BLOCKS: &[Case] = &[
    Case {
        shows: "a block that was never written is zeros",
        lines: "a read vol 5",
        written: &["2: ok\n4: data 65536x0\n"],
        ..ON_DISK
    },
    Case {
        shows: "a block of sevens",
        lines: "a write vol 5 fill 7\na read vol 5",
        written: &["2: ok\n4: ok\n5: data 65536x7\n"],
        ..ON_DISK
    },
    Case {
        shows: "the greatest block number",
        lines: "a write vol 281474976710655 fill 9\na read vol 281474976710655\n",
        written: &["2: ok\n4: ok\n5: data 65536x9\n"],
        ..ON_DISK
    },
];

#[test]
fn blocks_of_one_byte(rt: HostRuntime) -> Result<(), Fail> {
    are_so(&rt, rt.alloc(), BLOCKS)
}

const LONG_ANSWERS: &[Case] = &[
    Case {
        shows: "one block number more",
        lines: "a read vol 281474976710656",
        status: 2,
        written: &["refused line 4: bad number\n"],
        ..ON_DISK
    },
    Case {
        shows: "halves, and two equal blocks whose runs are too many to print",
        lines: "a write vol 2 halves 1 2\na read vol 2\na write vol 3 ramp 0\na read vol 3\na write vol 4 ramp 0\na read vol 4\n",
        written: &[
            "2: ok\n4: ok\n5: data 32768x1 32768x2\n6: ok\n7: data sha256 7daca2095d0438260fa849183dfc67faa459fdf4936e1bc91eec6b281b27e4c2\n8: ok\n9: data sha256 7daca2095d0438260fa849183dfc67faa459fdf4936e1bc91eec6b281b27e4c2\n",
        ],
        ..ON_DISK
    },
];

#[test]
fn the_greatest_block_and_long_answers(rt: HostRuntime) -> Result<(), Fail> {
    are_so(&rt, rt.alloc(), LONG_ANSWERS)
}

const RACES: &[Case] = &[
    Case {
        shows: "two clients write one block of three servers",
        start: "servers 3 slots 4\na disk vol on 0 1 2\n",
        lines: RACE,
        written: RACED,
        ..RUN
    },
    Case {
        shows: "two clients write one block of five servers",
        start: "servers 5 slots 16\na disk vol on 0 1 2 3 4\n",
        lines: RACE,
        written: RACED,
        ..RUN
    },
];

#[test]
fn two_clients_write_one_block(rt: HostRuntime) -> Result<(), Fail> {
    are_so(&rt, rt.alloc(), RACES)
}

const LETTERS: &[Case] = &[
    Case {
        shows: "each letter is handed over once",
        start: "servers 3 slots 4\n",
        lines: ONE_WRITE,
        letters: Letters::Once,
        written: &["2: ok\n3: ok\n5: data 65536x7\n"],
        ..RUN
    },
    Case {
        shows: "letters are lost and come twice",
        start: "servers 3 slots 4\nnet lose 4\nnet twice 3\n",
        lines: ONE_WRITE,
        letters: Letters::LostAndTwice,
        written: &["4: ok\n5: ok\n7: data 65536x7\n"],
        ..RUN
    },
];

#[test]
fn letters_that_are_lost_and_doubled(rt: HostRuntime) -> Result<(), Fail> {
    are_so(&rt, rt.alloc(), LETTERS)
}

const FAULTS: &[Case] = &[
    Case {
        shows: "a source that fails at its first read",
        lines: "a write vol 5 fill 7\na read vol 5\n",
        fault: Fault::Source(1),
        status: 4,
        ..ON_DISK
    },
    Case {
        shows: "a sink that fails at its first write",
        lines: "a write vol 5 fill 7\na read vol 5\n",
        fault: Fault::Sink(1),
        status: 5,
        ..ON_DISK
    },
    Case {
        shows: "a sink that fails in the second phase",
        lines: "a disk vol on 0 1\nwait\na read vol 5\nwait\na read vol 6\n",
        fault: Fault::Sink(2),
        status: 5,
        written: &["2: ok\n"],
        ..RUN
    },
];

#[test]
fn faults(rt: HostRuntime) -> Result<(), Fail> {
    are_so(&rt, rt.alloc(), FAULTS)
}

const DRILLS: &[Case] = &[
    Case {
        shows: "a drill without requests",
        words: &["drill", "0", "0"],
        start: "no script",
        written: &["drill 0 0: writes 0 reads 0 stops 0 sum 0\n"],
        ..RUN
    },
    Case {
        shows: "a drill of a write and a read",
        words: &["drill", "1", "2"],
        written: &["drill 1 2: writes 1 reads 1 stops 0 sum 0\n"],
        ..RUN
    },
    Case {
        shows: "a drill with two stops and two starts",
        words: &["drill", "1", "40"],
        written: &["drill 1 40: writes 30 reads 10 stops 2 sum 144\n"],
        ..RUN
    },
    Case {
        shows: "a drill whose line cannot be written",
        words: &["drill", "1", "2"],
        fault: Fault::Sink(1),
        status: 5,
        ..RUN
    },
];

#[test]
fn drills(rt: HostRuntime) -> Result<(), Fail> {
    are_so(&rt, rt.alloc(), DRILLS)
}

const WORDS: &[Case] = &[
    Case {
        shows: "no word",
        words: &[],
        ..NO_FORM
    },
    Case {
        shows: "a word that is no command",
        words: &["fly"],
        ..NO_FORM
    },
    Case {
        shows: "a run in a folder",
        words: &["run", "folder"],
        ..NO_FORM
    },
    Case {
        shows: "a drill of one request too many",
        words: &["drill", "1", "801"],
        ..NO_FORM
    },
    Case {
        shows: "a drill of a word that is no number",
        words: &["drill", "--", "1"],
        ..NO_FORM
    },
    Case {
        shows: "an empty word",
        words: &[""],
        ..NO_FORM
    },
];

#[test]
fn words(rt: HostRuntime) -> Result<(), Fail> {
    are_so(&rt, rt.alloc(), WORDS)
}
