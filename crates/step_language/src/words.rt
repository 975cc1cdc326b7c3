//! What the words of a case stand for.

use petal_base::{Cell, ClientId, OPERATOR, ServerId};
use petal_command::Pax;
use petal_disk::{CallKind, Which};
use petal_msg::{Actor, Body, Letter};

/// Does something with the list of the kinds of letters that cases name, in the order of the format: each with the word of it.
macro_rules! with_kinds {
    ($does:ident $given:expr) => {
        $does! {
            $given;
            Body::Down { .. } => "down",
            Body::Seen { .. } => "seen",
            Body::Propose { .. } => "propose",
            Body::Pax(Pax::Prepare { .. }) => "prepare",
            Body::Pax(Pax::Promise { .. }) => "promise",
            Body::Pax(Pax::Accept { .. }) => "accept",
            Body::Pax(Pax::Accepted { .. }) => "accepted",
            Body::Pax(Pax::Refuse { .. }) => "refuse",
            Body::Pax(Pax::Chosen { .. }) => "chosen",
            Body::Ask { .. } => "ask",
            Body::News { .. } => "news",
            Body::Read { .. } => "read",
            Body::Write { .. } => "write",
            Body::Data { .. } => "data",
            Body::NotHere { .. } => "nothere",
            Body::BlockBusy { .. } => "busy",
            Body::Held { .. } => "held",
            Body::WrongRev { .. } => "wrongrev",
            Body::Written { .. } => "written",
            Body::Reserve { .. } => "reserve",
            Body::Reserved { .. } => "reserved",
            Body::PairFull { .. } => "pairfull",
            Body::Replicate { .. } => "replicate",
            Body::Replicated { .. } => "replicated",
            Body::HelloAsk { .. } => "helloask",
            Body::Hello { .. } => "hello",
            Body::Trim { .. } => "trim",
            Body::Trimmed { .. } => "trimmed",
            Body::Sync { .. } => "sync",
            Body::Synced { .. } => "synced",
            Body::Fill { .. } => "fill",
            Body::Filled { .. } => "filled",
            Body::FillFull { .. } => "fillfull",
        }
    };
}

/// The word of a letter's kind, or one that no case can name.
macro_rules! word_of {
    ($body:expr; $($kind:pat => $word:literal,)*) => {
        match $body {
            $($kind => $word,)*
            _ => "",
        }
    };
}

/// Whether the list has the word.
macro_rules! is_word {
    ($said:expr; $($kind:pat => $word:literal,)*) => {
        [$($word,)*].iter().any(|word| *word == $said)
    };
}

/// The word of a letter's kind, empty where cases name it not.
fn kind_of(body: &Body) -> &'static str {
    with_kinds!(word_of body)
}

/// Letters of one kind from one actor to another.
#[derive(Clone, Copy)]
pub struct Mail<'a> {
    kind: &'a str,
    from: Actor,
    to: Actor,
}

impl Mail<'_> {
    /// Whether the letter is one of these.
    pub fn has(&self, letter: &Letter) -> bool {
        letter.from == self.from && letter.to == self.to && kind_of(&letter.body) == self.kind
    }
}

fn is_kind(word: &str) -> bool {
    with_kinds!(is_word word)
}

fn actor_by(byte: u8) -> Option<Actor> {
    if b'0' <= byte && byte <= b'7' {
        Some(Actor::Server(byte - b'0'))
    } else if b'a' <= byte && byte <= b'h' {
        Some(Actor::Client(byte - b'a'))
    } else {
        None
    }
}

/// A server's digit, a client's letter, or `op` for the operator.
pub fn actor(word: &str, place: usize) -> Result<Actor, usize> {
    match word.as_bytes() {
        [byte] => actor_by(*byte).ok_or(place),
        [b'o', b'p'] => Ok(Actor::Client(OPERATOR)),
        _ => Err(place),
    }
}

pub fn client(word: &str, place: usize) -> Result<ClientId, usize> {
    match actor(word, place)? {
        Actor::Client(client) => Ok(client),
        Actor::Server(_) => Err(place),
    }
}

pub fn server(word: &str, place: usize) -> Result<ServerId, usize> {
    match actor(word, place)? {
        Actor::Server(server) => Ok(server),
        Actor::Client(_) => Err(place),
    }
}

pub fn number(word: &str, place: usize) -> Result<u32, usize> {
    match word.parse::<u32>() {
        Ok(number) => Ok(number),
        Err(_) => Err(place),
    }
}

pub fn byte(word: &str, place: usize) -> Result<u8, usize> {
    match word.parse::<u8>() {
        Ok(byte) => Ok(byte),
        Err(_) => Err(place),
    }
}

/// A block under a map, as `0/5`.
pub fn cell(word: &str, place: usize) -> Result<Cell, usize> {
    match word.split_once('/') {
        Some((map, block)) => Ok(Cell {
            map: number(map, place)?,
            block: u64::from(number(block, place)?),
        }),
        None => Err(place),
    }
}

/// One of a server's two devices.
pub fn device(word: &str, place: usize) -> Result<Which, usize> {
    match word.as_bytes() {
        b"data" => Ok(Which::Data),
        b"state" => Ok(Which::State),
        _ => Err(place),
    }
}

/// Which calls of a device count.
pub fn calls(word: &str, place: usize) -> Result<CallKind, usize> {
    match word.as_bytes() {
        b"any" => Ok(CallKind::Any),
        b"read" => Ok(CallKind::Read),
        b"write" => Ok(CallKind::Write),
        b"sync" => Ok(CallKind::Sync),
        _ => Err(place),
    }
}

/// A kind and a way, as `reserve 1>0`. The kind stands at this place, and the way after it.
pub fn mail_of<'a>(kind: &'a str, way: &str, place: usize) -> Result<Mail<'a>, usize> {
    if !is_kind(kind) {
        return Err(place);
    }
    let place = place.saturating_add(1);
    let Some((from, to)) = way.split_once('>') else {
        return Err(place);
    };
    Ok(Mail {
        kind,
        from: actor(from, place)?,
        to: actor(to, place)?,
    })
}
