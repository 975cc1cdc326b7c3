//! Which letters answer reads, and which of them by the map that a disk leaves.

use petal_base::{Cell, ClientId, Rev, Seq, ServerId, SharedBlock};
use petal_msg::{Actor, Body, Letter};
use script_lines::Answer;
use spec_history::Record;
use spec_rules::Step;

/// Whether the two letters have one name.
fn have_one_name(letter: &Letter, other: &Letter) -> bool {
    letter.from == other.from && letter.stamp == other.stamp && letter.nth == other.nth
}

/// The line that this record answers with data, where it is the delivery of this letter.
fn accepts(record: &Record, letter: &Letter) -> Option<u32> {
    let Step::Deliver { letter: other } = &record.step else {
        return None;
    };
    if !have_one_name(other.get(), letter) {
        return None;
    }
    match &record.answer {
        Some((line, Answer::Data(_))) => Some(*line),
        _ => None,
    }
}

/// The line that the letter answers with data in one of these records.
pub fn accepted(records: &[Record], letter: &Letter) -> Option<u32> {
    for record in records {
        if let Some(line) = accepts(record, letter) {
            return Some(line);
        }
    }
    None
}

/// A read as one of its letters asks for it.
#[derive(Clone, Copy, PartialEq, Eq)]
struct Asked {
    client: ClientId,
    seq: Seq,
    rev: Rev,
    cell: Cell,
}

/// The records up to this one, and not with it.
fn upto(records: &[Record], at: usize) -> &[Record] {
    match records.get(..at) {
        Some(earlier) => earlier,
        None => &[],
    }
}

/// The records after this one.
fn following(records: &[Record], at: usize) -> &[Record] {
    match records.get(at.saturating_add(1)..) {
        Some(later) => later,
        None => &[],
    }
}

/// The read for which a letter asks.
fn asked_by(letter: &Letter) -> Option<Asked> {
    match &letter.body {
        Body::Read {
            client,
            seq,
            cell,
            ..
        } => Some(Asked {
            client: *client,
            seq: *seq,
            rev: letter.rev,
            cell: *cell,
        }),
        _ => None,
    }
}

/// The client and the number of the request to which a letter replies as to a read.
fn replied_by(letter: &Letter) -> Option<(ClientId, Seq)> {
    let Actor::Client(client) = letter.to else {
        return None;
    };
    match &letter.body {
        Body::Data { seq, .. }
        | Body::NotHere { seq }
        | Body::BlockBusy { seq }
        | Body::Held { seq }
        | Body::WrongRev { seq } => Some((client, *seq)),
        _ => None,
    }
}

fn is_boot(record: &Record, server: ServerId) -> bool {
    match &record.step {
        Step::Boot(_) => record.actor == Actor::Server(server),
        _ => false,
    }
}

/// The records since the server last booted.
pub fn since_boot(records: &[Record], server: ServerId) -> &[Record] {
    let mut last = records;
    for (at, record) in records.iter().enumerate() {
        if is_boot(record, server) {
            last = following(records, at);
        }
    }
    last
}

/// How often the server has replied to the request.
fn replies_to(records: &[Record], server: ServerId, request: (ClientId, Seq)) -> usize {
    let mut count: usize = 0;
    for record in records {
        for letter in record.sent.as_slice() {
            let letter = letter.get();
            if letter.from == Actor::Server(server) && replied_by(letter) == Some(request) {
                count = count.saturating_add(1);
            }
        }
    }
    count
}

/// The read of this request for which the record's letter asks that is handed over to the server.
fn handed_by(record: &Record, server: ServerId, request: (ClientId, Seq)) -> Option<Asked> {
    let Step::Deliver { letter } = &record.step else {
        return None;
    };
    match asked_by(letter.get()) {
        Some(asked)
            if record.actor == Actor::Server(server) && (asked.client, asked.seq) == request => {
            Some(asked)
        }
        _ => None,
    }
}

/// The read to which a letter replies that the record of this place has sent: a server replies to each letter of a request that is
/// handed over to it, one after the other, but for those that came before it was in; and with data to one of its own revision.
fn read_of(records: &[Record], at: usize, letter: &Letter) -> Option<Asked> {
    let Actor::Server(server) = letter.from else {
        return None;
    };
    let request = replied_by(letter)?;
    let before = since_boot(upto(records, at), server);
    let mut left = replies_to(before, server, request);
    for record in before {
        if let Some(asked) = handed_by(record, server, request) {
            if left == 0 && asked.rev == letter.rev {
                return Some(asked);
            }
            left = left.saturating_sub(1);
        }
    }
    None
}

/// Whether one of the records asks for the same read, at the same revision, by a later map.
fn asks_later_map(records: &[Record], asked: Asked) -> bool {
    records.iter().any(|record| asks_later(record, asked))
}

fn asks_later(record: &Record, asked: Asked) -> bool {
    record
        .sent
        .as_slice()
        .iter()
        .any(|letter| is_later(letter.get(), asked))
}

fn is_later(letter: &Letter, asked: Asked) -> bool {
    match asked_by(letter) {
        Some(other) => other.cell.map > asked.cell.map && is_of(other, asked),
        None => false,
    }
}

fn is_of(one: Asked, other: Asked) -> bool {
    one.client == other.client && one.seq == other.seq && one.rev == other.rev
}

/// Whether the letter, which the record of this place has sent, replies by the map that the disk leaves: the client asked the new one
/// first.
pub fn is_by_old_map(records: &[Record], at: usize, letter: &Letter) -> bool {
    match read_of(records, at, letter) {
        Some(asked) => asks_later_map(upto(records, at), asked),
        None => false,
    }
}

// Whether the letter tells the same client of the same request, at the same revision, that the new map has nothing.
fn tells_the_same(letter: &Letter, other: &Letter) -> bool {
    match &letter.body {
        Body::NotHere { .. } => {
            letter.to == other.to
                && letter.rev == other.rev
                && replied_by(letter) == replied_by(other)
        }
        _ => false,
    }
}

// The first such letter that is handed over.
fn first_told<'a>(records: &'a [Record], letter: &Letter) -> Option<&'a Letter> {
    for record in records {
        if let Step::Deliver { letter: other } = &record.step {
            if tells_the_same(other.get(), letter) {
                return Some(other.get());
            }
        }
    }
    None
}

/// The line and the data with which the record's letters answer the read of which this letter has told that the new map has nothing.
fn old_data_in<'a>(
    records: &'a [Record],
    at: usize,
    letter: &Letter,
) -> Option<(u32, &'a SharedBlock)> {
    for sent in records.get(at)?.sent.as_slice() {
        let sent = sent.get();
        if let Body::Data { bytes, .. } = &sent.body {
            let same = sent.to == letter.to && replied_by(sent) == replied_by(letter);
            if same && sent.rev == letter.rev && is_by_old_map(records, at, sent) {
                if let Some(line) = accepted(following(records, at), sent) {
                    return Some((line, bytes));
                }
            }
        }
    }
    None
}

/// The line and the data with which a later letter answers by the old map the read of which this letter, which the record of this place
/// has sent, is the first to tell that the new map has nothing.
pub fn old_data<'a>(
    records: &'a [Record],
    at: usize,
    letter: &Letter,
) -> Option<(u32, &'a SharedBlock)> {
    let first = first_told(records, letter)?;
    if !have_one_name(first, letter) {
        return None;
    }
    for later in at..records.len() {
        let found = old_data_in(records, later, letter);
        if found.is_some() {
            return found;
        }
    }
    None
}
