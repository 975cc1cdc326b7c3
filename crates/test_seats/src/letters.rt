//! Letters and lines by hand.

use petal_base::{NoMemory, OPERATOR, ServerId};
use petal_msg::{Actor, Body, Letter, SharedLetter};
use script_lines::{Line, Request};
use std::alloc::Global;

/// The client asks the server, with this stamp, what was chosen from the start on.
pub fn ask(alloc: Global, server: ServerId, stamp: u64) -> Result<SharedLetter, NoMemory> {
    SharedLetter::new(
        alloc,
        Letter {
            from: Actor::Client(0),
            inc: 0,
            to: Actor::Server(server),
            rev: 0,
            stamp,
            nth: 0,
            body: Body::Ask { rev: 0 },
        },
    )
}

/// A line of the operator.
pub fn line(number: u32, request: Request) -> Line {
    Line {
        number,
        phase: 0,
        client: OPERATOR,
        request,
    }
}

/// Whether the letter tells what was chosen.
pub fn is_news(letter: &SharedLetter) -> bool {
    match letter.get().body {
        Body::News { .. } => true,
        _ => false,
    }
}

/// Whether the last letter shows the operator a server that runs, or not.
pub fn shows(letters: &[SharedLetter], shown: bool) -> bool {
    match letters.last() {
        None => false,
        Some(letter) => match letter.get().body {
            Body::Seen { running, .. } => running == shown,
            _ => false,
        },
    }
}
