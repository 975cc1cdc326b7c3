//! One step of a case: what its words ask for.

use crate::words::{Mail, actor, byte, calls, cell, client, device, mail_of, number, server};
use petal_base::{Cell, ClientId, MapId, ServerId};
use petal_disk::{Plan, Which};
use petal_msg::Actor;

/// What is expected of a line's answer.
#[derive(Clone, Copy)]
pub enum Want {
    Ok,
    NoSpace,
    NoDisk,
    NoSnap,
    Unavailable,
    Exists,
    Moving,
    /// The server that the line starts or blanks does not run.
    DoesNotRun,
    /// There is none yet.
    Open,
    /// A block of this byte.
    Fill(u8),
    /// A block of one of the two bytes.
    Either(u8, u8),
    /// The same block as that of another line.
    As(u32),
}

/// What a server is to have.
#[derive(Clone, Copy)]
pub enum Holding<'a> {
    /// As the latest content of this cell a block of this byte.
    Fill(Cell, u8),
    /// Marks on these blocks of this map and on no other, each a number.
    Marks(MapId, &'a [&'a str]),
    /// So many entries in all.
    Entries(u32),
}

/// A step of the run, or what is expected of it so far.
#[derive(Clone, Copy)]
pub enum Act<'a> {
    Call(ClientId, u32),
    Work(ServerId),
    WorkOff(ServerId),
    Tick(Actor),
    /// The server stops.
    Stop(ServerId),
    /// The server gets a blank data device.
    Blank(ServerId),
    /// The server boots.
    Boot(ServerId),
    /// The server's device has this plan from now on, or none.
    Arm(ServerId, Which, Option<Plan>),
    /// The server is glanced at for this line, in this round of it.
    Show(ServerId, u32, u32),
    Hand(Mail<'a>),
    Lose(Mail<'a>),
    Again(Mail<'a>),
    Renamed(Mail<'a>),
    Changed(Mail<'a>),
    Wait,
    /// The world keeps to the operator's lines from now on.
    ByLines,
    /// From now on each write is told to take effect in the step of its put.
    ByPuts,
    PlayOut,
    /// So many steps are taken, one after the other.
    GoOn(u32),
    /// Everyone but this actor comes to one revision.
    Agree(Option<Actor>),
    Line(u32, Want),
    Sent(u32, Mail<'a>),
    Owners(u32, Mail<'a>),
    Told(&'a [&'a str]),
    /// The server has what is said.
    Holds(ServerId, Holding<'a>),
    /// So many disks were made.
    Made(u32),
    /// So many jobs and boots ended since a device failed.
    Failed(u32),
    /// So many jobs ended since a plan stopped the server, whether their commits were made or not.
    Stopped(u32),
    /// So many of all these had made their commit.
    Committed(u32),
}

/// The words by which the plain machine's events are told.
const EVENTS: [&str; 6] = ["make", "freeze", "begin", "take", "end", "look"];

fn is_event(word: &str) -> bool {
    EVENTS.iter().any(|event| *event == word)
}

fn told<'a>(words: &'a [&'a str]) -> Result<Act<'a>, usize> {
    for (at, word) in words.iter().enumerate() {
        if !is_event(word) {
            return Err(at.saturating_add(2));
        }
    }
    Ok(Act::Told(words))
}

// What is said of an answer in one word.
fn want_by(word: &str) -> Option<Want> {
    match word {
        "ok" => Some(Want::Ok),
        "nospace" => Some(Want::NoSpace),
        "nodisk" => Some(Want::NoDisk),
        "nosnap" => Some(Want::NoSnap),
        "unavailable" => Some(Want::Unavailable),
        "exists" => Some(Want::Exists),
        "moving" => Some(Want::Moving),
        "failed" => Some(Want::DoesNotRun),
        "open" => Some(Want::Open),
        _ => None,
    }
}

fn want_of(words: &[&str]) -> Result<Want, usize> {
    match *words {
        [word] => want_by(word).ok_or(3),
        ["fill", byte_word] => Ok(Want::Fill(byte(byte_word, 4)?)),
        ["fill", one, "or", other] => Ok(Want::Either(byte(one, 4)?, byte(other, 6)?)),
        ["as", line] => Ok(Want::As(number(line, 4)?)),
        _ => Err(3),
    }
}

fn line<'a>(words: &[&str]) -> Result<Act<'a>, usize> {
    match words.split_first() {
        Some((line, words)) => Ok(Act::Line(number(line, 2)?, want_of(words)?)),
        None => Err(2),
    }
}

fn counted<'a>(verb: &str, count: &str, mail: Mail<'a>) -> Result<Act<'a>, usize> {
    let count = number(count, 2)?;
    match verb {
        "sent" => Ok(Act::Sent(count, mail)),
        "owners" => Ok(Act::Owners(count, mail)),
        _ => Err(1),
    }
}

// What is expected: each begins with a verb of its own.
fn expected<'a>(verb: &str, words: &'a [&'a str]) -> Result<Act<'a>, usize> {
    match (verb, words) {
        ("line", words) => line(words),
        (verb, [count, kind, way]) => counted(verb, count, mail_of(kind, way, 3)?),
        _ => Err(1),
    }
}

// A step that is more than the hand-over of a letter: each begins with a verb of its own.
fn marked<'a>(verb: &str, kind: &'a str, way: &str) -> Result<Act<'a>, usize> {
    let mail = mail_of(kind, way, 2)?;
    match verb {
        "drop" => Ok(Act::Lose(mail)),
        "again" => Ok(Act::Again(mail)),
        "renamed" => Ok(Act::Renamed(mail)),
        "changed" => Ok(Act::Changed(mail)),
        _ => Err(1),
    }
}

// Whether the call of a plan fails after its work, and whether it stops the server.
fn failure(words: &[&str]) -> Result<(bool, bool), usize> {
    match *words {
        [] => Ok((false, false)),
        ["stop"] => Ok((false, true)),
        ["late"] => Ok((true, false)),
        ["late", "stop"] => Ok((true, true)),
        _ => Err(6),
    }
}

// A plan of one of a server's devices: which call fails, and how.
fn armed<'a>(who: &str, which: &str, kind: &str, at: &str, how: &[&str]) -> Result<Act<'a>, usize> {
    let (late, stop) = failure(how)?;
    let plan = Plan {
        kind: calls(kind, 4)?,
        at: number(at, 5)?,
        stop,
        late,
    };
    Ok(Act::Arm(server(who, 1)?, device(which, 3)?, Some(plan)))
}

// Marks on the blocks of a map, or `none`.
fn marks<'a>(who: &str, map: &str, blocks: &'a [&'a str]) -> Result<Act<'a>, usize> {
    let blocks = match *blocks {
        ["none"] => &blocks[1..],
        _ => blocks,
    };
    for (at, block) in blocks.iter().enumerate() {
        number(block, at.saturating_add(4))?;
    }
    Ok(Act::Holds(server(who, 1)?, Holding::Marks(number(map, 3)?, blocks)))
}

// A step of one actor that is told in one word.
fn step_by<'a>(who: &str, verb: &str) -> Result<Act<'a>, usize> {
    let server = server(who, 1);
    match verb {
        "works" => Ok(Act::Work(server?)),
        "ticks" => Ok(Act::Tick(actor(who, 1)?)),
        "stops" => Ok(Act::Stop(server?)),
        "blanks" => Ok(Act::Blank(server?)),
        "boots" => Ok(Act::Boot(server?)),
        _ => Err(2),
    }
}

// A step of one actor that is told in two words.
fn step_with<'a>(who: &str, verb: &str, word: &str) -> Result<Act<'a>, usize> {
    match verb {
        "calls" => Ok(Act::Call(client(who, 1)?, number(word, 3)?)),
        "works" if word == "off" => Ok(Act::WorkOff(server(who, 1)?)),
        "disarms" => Ok(Act::Arm(server(who, 1)?, device(word, 3)?, None)),
        "shows" => Ok(Act::Show(server(who, 1)?, number(word, 3)?, 0)),
        _ => Err(2),
    }
}

// What a server has, or shows in a later round.
fn longer_step<'a>(who: &str, words: &[&str]) -> Result<Act<'a>, usize> {
    match *words {
        ["has", word, "fill", fill] => {
            let held = Holding::Fill(cell(word, 3)?, byte(fill, 5)?);
            Ok(Act::Holds(server(who, 1)?, held))
        }
        ["has", entries, "entries"] => Ok(Act::Holds(
            server(who, 1)?,
            Holding::Entries(number(entries, 3)?),
        )),
        ["shows", line, "in", round] => Ok(Act::Show(
            server(who, 1)?,
            number(line, 3)?,
            number(round, 5)?,
        )),
        _ => Err(2),
    }
}

// A step of one actor, or what a server has: what follows its name.
fn step_of<'a>(who: &str, words: &'a [&'a str]) -> Result<Act<'a>, usize> {
    match *words {
        [verb] => step_by(who, verb),
        ["marks", map, ..] => marks(who, map, &words[2..]),
        ["arms", which, kind, at, ..] => armed(who, which, kind, at, &words[4..]),
        [verb, word] => step_with(who, verb, word),
        _ => longer_step(who, words),
    }
}

// Two words that begin with no actor.
fn two_words<'a>(verb: &'a str, word: &'a str) -> Result<Act<'a>, usize> {
    match verb {
        "play" if word == "out" => Ok(Act::PlayOut),
        "by" if word == "lines" => Ok(Act::ByLines),
        "by" if word == "puts" => Ok(Act::ByPuts),
        "made" => Ok(Act::Made(number(word, 2)?)),
        "failed" => Ok(Act::Failed(number(word, 2)?)),
        "stopped" => Ok(Act::Stopped(number(word, 2)?)),
        "committed" => Ok(Act::Committed(number(word, 2)?)),
        kind => Ok(Act::Hand(mail_of(kind, word, 1)?)),
    }
}

// Words of all that is no step of one actor.
fn general<'a>(words: &'a [&'a str]) -> Result<Act<'a>, usize> {
    match *words {
        ["wait"] => Ok(Act::Wait),
        ["agree"] => Ok(Act::Agree(None)),
        [verb, word] => two_words(verb, word),
        ["go", "on", count] => Ok(Act::GoOn(number(count, 3)?)),
        ["agree", "without", who] => Ok(Act::Agree(Some(actor(who, 3)?))),
        _ => longer(words),
    }
}

/// What the words of a step ask for, or the place of the first word that is none of the form.
pub fn act_of<'a>(words: &'a [&'a str]) -> Result<Act<'a>, usize> {
    match *words {
        ["told", ..] => told(&words[1..]),
        [who, ..] if actor(who, 1).is_ok() => step_of(who, &words[1..]),
        _ => general(words),
    }
}

// Whether the word says what becomes of a letter, other than that it is handed over.
fn is_mark(verb: &str) -> bool {
    verb == "drop" || verb == "again" || verb == "renamed" || verb == "changed"
}

fn longer<'a>(words: &'a [&'a str]) -> Result<Act<'a>, usize> {
    let Some((verb, rest)) = words.split_first() else {
        return Err(1);
    };
    match *rest {
        [kind, way] if is_mark(verb) => marked(verb, kind, way),
        _ => expected(verb, rest),
    }
}
