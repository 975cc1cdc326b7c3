//! A client calls, applies entries, hears and sends again.

use client_core::{ClientCore, Reaction};
use petal_base::{Block, Name, Rev, Seq, Sequence, ServerId, SharedBlock, Tuple};
use petal_command::{ClientNumber, Command, ServerNumber};
use petal_msg::{Actor, Body, Letter};
use script_lines::{Answer, Pattern, Request};
use std::alloc::Global;
use std::test::Fail;

/// A line of the client.
#[derive(Clone, Copy)]
enum Line {
    Disk,
    Write,
    Read,
    Snap,
    /// A read of the snapshot.
    OldRead,
}

/// An entry of the log.
#[derive(Clone, Copy)]
enum Entry {
    /// The disk line of this client, its request of this number.
    Disk(u8, Seq),
    /// Its snap line.
    Snap(u8, Seq),
    /// The report of a server to the first fence.
    Drained(ServerId),
    /// The first Witness of client 0.
    Witness,
}

/// How a step answers the client's line.
#[derive(Clone, Copy, PartialEq, Eq)]
enum Ending {
    Open,
    Ok,
    Exists,
    NoDisk,
    Other,
}

/// A step of client 0 of three servers, and what comes of it.
enum Step {
    /// It calls the line, and proposes the entry.
    Proposes(Line, Entry),
    /// It calls the line, and its last letter goes to the server.
    SendsTo(Line, ServerId),
    /// It calls the line, and asks for this epoch.
    AsksFor(Line, u32),
    /// It takes a tick, and its last letter goes to the server.
    ResendsTo(ServerId),
    /// It hears of the entry after so many: that answers its line so.
    Told(Rev, Entry, Ending),
    /// It hears of the entry after so many, and is at this revision then.
    IsAt(Rev, Entry, Rev),
    /// It hears of the first two entries, and sends its write to the server, at this revision.
    WritesTo(Entry, Entry, ServerId, Rev),
    /// It hears at this revision that the request of this number is written: that answers its line so.
    Written(Rev, Seq, Ending),
    /// It hears of a block of sevens, which answers its line.
    Shown,
}

/// What the steps of a client show, and the steps before them.
struct Case {
    shows: &'static str,
    before: &'static [Step],
    steps: &'static [Step],
}

fn named(text: &[u8]) -> Result<Name, Fail> {
    Ok(Name::read(text).ok_or("a name")?)
}

fn vol() -> Result<Name, Fail> {
    named(b"vol")
}

fn one() -> Result<Name, Fail> {
    named(b"one")
}

fn tuple() -> Result<Tuple, Fail> {
    Ok(Tuple::new(&[0, 1, 2], 3).ok_or("a tuple")?)
}

fn read_of(snap: Option<Name>) -> Result<Request, Fail> {
    Ok(Request::Read {
        name: vol()?,
        snap,
        block: 4,
    })
}

fn request_of(line: Line) -> Result<Request, Fail> {
    match line {
        Line::Disk => Ok(Request::Disk {
            name: vol()?,
            tuple: tuple()?,
        }),
        Line::Write => Ok(Request::Write {
            name: vol()?,
            block: 4,
            pattern: Pattern::Fill(7),
        }),
        Line::Read => read_of(None),
        Line::Snap => Ok(Request::Snap {
            name: vol()?,
            snap: one()?,
        }),
        Line::OldRead => read_of(Some(one()?)),
    }
}

fn number(client: u8) -> Result<ClientNumber, Fail> {
    Ok(ClientNumber::checked(client).ok_or("a client")?)
}

fn command_of(entry: Entry) -> Result<Command, Fail> {
    match entry {
        Entry::Disk(client, seq) => Ok(Command::MakeDisk {
            client: number(client)?,
            seq,
            name: vol()?,
            tuple: tuple()?,
        }),
        Entry::Snap(client, seq) => Ok(Command::Snap {
            client: number(client)?,
            seq,
            disk: vol()?,
            name: one()?,
        }),
        Entry::Drained(server) => Ok(Command::Drained {
            server: ServerNumber::checked(server).ok_or("a server")?,
            inc: 1,
            fence: 1,
        }),
        Entry::Witness => Ok(Command::Witness {
            client: number(0)?,
            seq: 1,
            turn: 0,
        }),
    }
}

fn body_of(reaction: &Reaction) -> Option<&Body> {
    reaction
        .letters
        .as_slice()
        .first()
        .map(|letter| &letter.body)
}

fn is_proposed(reaction: &Reaction, command: &Command) -> bool {
    match body_of(reaction) {
        Some(Body::Propose { command: own }) => *own == *command,
        _ => false,
    }
}

/// Whether the last letter of a step goes to the server.
fn is_sent_to(reaction: &Reaction, server: ServerId) -> bool {
    match reaction.letters.as_slice().last() {
        Some(letter) => letter.to == Actor::Server(server),
        None => false,
    }
}

fn asks_for(reaction: &Reaction, wanted: u32) -> bool {
    match body_of(reaction) {
        Some(Body::Read { epoch, .. } | Body::Write { epoch, .. }) => *epoch == wanted,
        _ => false,
    }
}

/// Whether the first letter is a write to the server, at this revision.
fn is_written_to(reaction: &Reaction, server: ServerId, rev: Rev) -> bool {
    let Some(letter) = reaction.letters.as_slice().first() else {
        return false;
    };
    match &letter.body {
        Body::Write { .. } => letter.to == Actor::Server(server) && letter.rev == rev,
        _ => false,
    }
}

fn ending_of(reaction: &Reaction) -> Ending {
    match &reaction.answer {
        None => Ending::Open,
        Some((_line, Answer::Ok)) => Ending::Ok,
        Some((_line, Answer::Exists)) => Ending::Exists,
        Some((_line, Answer::NoDisk)) => Ending::NoDisk,
        Some(_) => Ending::Other,
    }
}

fn shows_block(reaction: &Reaction, wanted: &SharedBlock) -> bool {
    match &reaction.answer {
        Some((_line, Answer::Data(bytes))) => *bytes == *wanted,
        _ => false,
    }
}

fn call(alloc: Global, client: &mut ClientCore, line: Line) -> Result<Reaction, Fail> {
    if !client.is_free() {
        return Err("the client waits for an answer".into());
    }
    Ok(client.call(alloc, 5, request_of(line)?)?)
}

fn letter_of(rev: Rev, body: Body) -> Letter {
    Letter {
        from: Actor::Server(1),
        inc: 1,
        to: Actor::Client(0),
        rev,
        stamp: 9,
        nth: 0,
        body,
    }
}

fn hear(alloc: Global, client: &mut ClientCore, rev: Rev, body: Body) -> Result<Reaction, Fail> {
    Ok(client.deliver(alloc, &letter_of(rev, body))?)
}

/// It hears of an entry after so many.
fn learn(
    alloc: Global,
    client: &mut ClientCore,
    after: Rev,
    entry: Entry,
) -> Result<Reaction, Fail> {
    let commands = Sequence::one(alloc, command_of(entry)?)?;
    hear(alloc, client, 3, Body::News { after, commands })
}

fn add(commands: &mut Sequence<Command>, entry: Entry) -> Result<(), Fail> {
    let command = command_of(entry)?;
    Ok(commands.push(command)?)
}

fn commands_of(alloc: Global, first: Entry, second: Entry) -> Result<Sequence<Command>, Fail> {
    let mut commands = Sequence::one(alloc, command_of(first)?)?;
    add(&mut commands, second)?;
    Ok(commands)
}

/// It hears of the first two entries.
fn learn_both(
    alloc: Global,
    client: &mut ClientCore,
    first: Entry,
    second: Entry,
) -> Result<Reaction, Fail> {
    let commands = commands_of(alloc, first, second)?;
    hear(alloc, client, 3, Body::News { after: 0, commands })
}

fn is_shown(alloc: Global, client: &mut ClientCore) -> Result<bool, Fail> {
    let bytes = SharedBlock::new(alloc, Block::fill(alloc, 7)?)?;
    let found = Body::Data {
        seq: 1,
        bytes: bytes.share()?,
    };
    Ok(shows_block(&hear(alloc, client, 1, found)?, &bytes))
}

/// Whether it ends its request so by what it hears.
fn is_ended(told: Result<Reaction, Fail>, ending: Ending) -> Result<bool, Fail> {
    Ok(ending_of(&told?) == ending)
}

/// Whether that comes of a step in which it hears of one thing.
fn is_told_so(alloc: Global, client: &mut ClientCore, step: &Step) -> Result<bool, Fail> {
    match *step {
        Step::Told(after, entry, ending) => {
            let told = learn(alloc, client, after, entry);
            is_ended(told, ending)
        }
        Step::IsAt(after, entry, rev) => {
            learn(alloc, client, after, entry)?;
            Ok(client.rev() == rev)
        }
        Step::Written(rev, seq, ending) => {
            let told = hear(alloc, client, rev, Body::Written { seq });
            is_ended(told, ending)
        }
        _ => Ok(false),
    }
}

/// Whether a call makes it do so.
fn reacts_so(reaction: &Reaction, step: &Step) -> Result<bool, Fail> {
    match *step {
        Step::Proposes(_, entry) => Ok(is_proposed(reaction, &command_of(entry)?)),
        Step::SendsTo(_, server) => Ok(is_sent_to(reaction, server)),
        Step::AsksFor(_, epoch) => Ok(asks_for(reaction, epoch)),
        _ => Ok(false),
    }
}

/// Whether that comes of a step in which it calls, or hears of one thing.
fn is_called_so(alloc: Global, client: &mut ClientCore, step: &Step) -> Result<bool, Fail> {
    match *step {
        Step::Proposes(line, _) | Step::SendsTo(line, _) | Step::AsksFor(line, _) => {
            let reaction = call(alloc, client, line)?;
            reacts_so(&reaction, step)
        }
        _ => is_told_so(alloc, client, step),
    }
}

/// Whether that comes of the step. It is in three, since a match of many arms is slow to prove.
fn is_so(alloc: Global, client: &mut ClientCore, step: &Step) -> Result<bool, Fail> {
    match *step {
        Step::ResendsTo(server) => Ok(is_sent_to(&client.tick(alloc)?, server)),
        Step::WritesTo(first, second, server, rev) => {
            let reaction = learn_both(alloc, client, first, second)?;
            Ok(is_written_to(&reaction, server, rev))
        }
        Step::Shown => is_shown(alloc, client),
        _ => is_called_so(alloc, client, step),
    }
}

fn play(alloc: Global, client: &mut ClientCore, case: &Case) -> Result<(), Fail> {
    for (at, step) in case.before.iter().chain(case.steps).enumerate() {
        if !is_so(alloc, client, step)? {
            return Err(Fail::new(format_args!("{}: step {at}", case.shows)));
        }
    }
    Ok(())
}

fn play_case(alloc: Global, case: &Case) -> Result<(), Fail> {
    let mut client = ClientCore::new(alloc, 0, 3)?;
    play(alloc, &mut client, case)
}

fn play_all(alloc: Global, cases: &[Case]) -> Result<(), Fail> {
    for case in cases {
        play_case(alloc, case)?;
    }
    Ok(())
}

/// Another client has made the disk.
const ON_DISK: &[Step] = &[Step::IsAt(0, Entry::Disk(1, 1), 1)];

/// Another client has taken the snapshot, too.
const SNAPPED: &[Step] = &[
    Step::IsAt(0, Entry::Disk(1, 1), 1),
    Step::IsAt(1, Entry::Snap(1, 2), 2),
    Step::IsAt(2, Entry::Drained(0), 3),
    Step::IsAt(3, Entry::Drained(1), 4),
    Step::IsAt(4, Entry::Drained(2), 5),
];

const DISKS: &[Case] = &[
    Case {
        shows: "a disk line is answered by its entry",
        before: &[],
        steps: &[
            Step::Proposes(Line::Disk, Entry::Disk(0, 1)),
            Step::Told(0, Entry::Disk(0, 1), Ending::Ok),
        ],
    },
    Case {
        shows: "a taken name is told by the own entry alone",
        before: &[],
        steps: &[
            Step::SendsTo(Line::Disk, 0),
            Step::Told(0, Entry::Disk(1, 1), Ending::Open),
            Step::Told(1, Entry::Disk(0, 1), Ending::Exists),
        ],
    },
    Case {
        shows: "two entries, of which one is a Witness, let the write go on",
        before: &[],
        steps: &[
            Step::Proposes(Line::Write, Entry::Witness),
            Step::WritesTo(Entry::Disk(1, 1), Entry::Witness, 1, 2),
        ],
    },
    Case {
        shows: "a Witness tells that there is no disk",
        before: &[],
        steps: &[
            Step::Proposes(Line::Read, Entry::Witness),
            Step::Told(0, Entry::Witness, Ending::NoDisk),
        ],
    },
    Case {
        shows: "news with a gap, in any order and twice",
        before: &[],
        steps: &[
            Step::IsAt(1, Entry::Disk(2, 1), 0),
            Step::IsAt(0, Entry::Disk(1, 1), 1),
            Step::IsAt(0, Entry::Disk(1, 1), 1),
            Step::IsAt(1, Entry::Disk(2, 1), 2),
        ],
    },
];

#[test]
fn entries_and_disks(rt: HostRuntime) -> Result<(), Fail> {
    play_all(rt.alloc(), DISKS)
}

const BLOCKS: &[Case] = &[
    Case {
        shows: "a write is sent and answered",
        before: ON_DISK,
        steps: &[
            Step::SendsTo(Line::Write, 1),
            Step::ResendsTo(1),
            Step::Written(1, 2, Ending::Open),
            Step::Written(0, 1, Ending::Open),
            Step::Written(1, 1, Ending::Ok),
        ],
    },
    Case {
        shows: "a read goes round",
        before: ON_DISK,
        steps: &[
            Step::SendsTo(Line::Read, 1),
            Step::ResendsTo(2),
            Step::Shown,
        ],
    },
];

#[test]
fn writes_and_reads(rt: HostRuntime) -> Result<(), Fail> {
    play_all(rt.alloc(), BLOCKS)
}

const SNAPSHOTS: &[Case] = &[
    Case {
        shows: "a snap line is answered once all have reported",
        before: ON_DISK,
        steps: &[
            Step::Proposes(Line::Snap, Entry::Snap(0, 1)),
            Step::Told(1, Entry::Snap(0, 1), Ending::Open),
            Step::Told(2, Entry::Drained(0), Ending::Open),
            Step::Told(3, Entry::Drained(1), Ending::Open),
            Step::Told(4, Entry::Drained(2), Ending::Ok),
        ],
    },
    Case {
        shows: "a snapshot that waits has its name",
        before: ON_DISK,
        steps: &[
            Step::Proposes(Line::Snap, Entry::Snap(0, 1)),
            Step::Told(1, Entry::Snap(1, 2), Ending::Open),
            Step::Told(2, Entry::Snap(0, 1), Ending::Exists),
        ],
    },
    Case {
        shows: "a snap line tells that there is no disk",
        before: &[],
        steps: &[
            Step::Proposes(Line::Snap, Entry::Snap(0, 1)),
            Step::Told(0, Entry::Snap(0, 1), Ending::NoDisk),
        ],
    },
];

#[test]
fn snap_lines(rt: HostRuntime) -> Result<(), Fail> {
    play_all(rt.alloc(), SNAPSHOTS)
}

const EPOCHS: &[Case] = &[
    Case {
        shows: "a read of a snapshot asks for its epoch",
        before: SNAPPED,
        steps: &[Step::AsksFor(Line::OldRead, 0)],
    },
    Case {
        shows: "a read asks for the epoch after it",
        before: SNAPPED,
        steps: &[Step::AsksFor(Line::Read, 1)],
    },
    Case {
        shows: "a write asks for the epoch after it",
        before: SNAPPED,
        steps: &[Step::AsksFor(Line::Write, 1)],
    },
];

#[test]
fn epochs(rt: HostRuntime) -> Result<(), Fail> {
    play_all(rt.alloc(), EPOCHS)
}
