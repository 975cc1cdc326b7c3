//! The operator's settle, glance by glance. All three servers are In as their first incarnation by the operator's state.

use client_core::{ClientCore, Reaction};
use petal_base::{OPERATOR, ServerId};
use petal_msg::{Actor, Body, Letter};
use script_lines::{Answer, Request};
use std::alloc::Global;
use std::test::Fail;

/// What a glance of the settle shows.
#[derive(Clone, Copy)]
enum Shows {
    Runs,
    Stopped,
    /// It runs, and its last copy found no slot.
    NoSlot,
    /// It runs, and is an entry ahead of the operator.
    Ahead,
    /// It is an entry ahead, and its last copy found no slot.
    AheadWithoutSlot,
}

/// The glances of a settle, each of a server in a round; and which of them answers the settle, counted from 0, and how.
#[derive(Clone, Copy)]
struct Case {
    shows: &'static str,
    glances: &'static [(ServerId, u32, Shows)],
    answered: Option<(usize, Ending)>,
}

/// How a settle is answered.
#[derive(Clone, Copy, Debug, PartialEq, Eq)]
enum Ending {
    Ok,
    NoSpace,
}

/// The settle's line.
const LINE: u32 = 5;

fn letter(server: ServerId, round: u32, shows: Shows) -> Letter {
    let (running, full, rev) = match shows {
        Shows::Runs => (true, false, 0),
        Shows::Stopped => (false, false, 0),
        Shows::NoSlot => (true, true, 0),
        Shows::Ahead => (true, false, 1),
        Shows::AheadWithoutSlot => (true, true, 1),
    };
    Letter {
        from: Actor::Server(server),
        inc: u32::from(running),
        to: Actor::Client(OPERATOR),
        rev,
        stamp: 9,
        nth: 0,
        body: Body::Seen {
            line: LINE,
            round,
            running,
            inc: u32::from(running),
            full,
        },
    }
}

fn ending_of(reaction: &Reaction) -> Option<Ending> {
    match &reaction.answer {
        Some((LINE, Answer::Ok)) => Some(Ending::Ok),
        Some((LINE, Answer::NoSpace)) => Some(Ending::NoSpace),
        _ => None,
    }
}

/// How the settle is answered by such a glance, where it is.
fn hear(
    alloc: Global,
    client: &mut ClientCore,
    (server, round, shows): (ServerId, u32, Shows),
) -> Result<Option<Ending>, Fail> {
    let glance = letter(server, round, shows);
    let reaction = client.deliver(alloc, &glance);
    drop(glance);
    Ok(ending_of(&reaction?))
}

/// Which glance answers the settle, and how.
fn answered_by(
    alloc: Global,
    client: &mut ClientCore,
    case: &Case,
) -> Result<Option<(usize, Ending)>, Fail> {
    let mut found = None;
    for (at, glance) in case.glances.iter().enumerate() {
        if let Some(answer) = hear(alloc, client, *glance)? {
            found = Some((at, answer));
        }
    }
    Ok(found)
}

/// Whether the settle ends as the case says.
fn is_so(alloc: Global, client: &mut ClientCore, case: &Case) -> Result<bool, Fail> {
    if !client.is_free() {
        return Ok(false);
    }
    client.call(alloc, LINE, Request::Settle)?;
    Ok(answered_by(alloc, client, case)? == case.answered)
}

/// Whether a new client's settle ends as the case says.
fn is_so_from_the_start(alloc: Global, case: &Case) -> Result<bool, Fail> {
    let mut client = ClientCore::new(alloc, OPERATOR, 3)?;
    is_so(alloc, &mut client, case)
}

fn are_so(alloc: Global, cases: &[Case]) -> Result<(), Fail> {
    for case in cases {
        if !is_so_from_the_start(alloc, case)? {
            return Err(Fail::new(case.shows));
        }
    }
    Ok(())
}

const ROUNDS: &[Case] = &[
    Case {
        shows: "the last server of a round that runs as the state says ends the settle",
        glances: &[
            (2, 1, Shows::Runs),
            (0, 1, Shows::Runs),
            (1, 1, Shows::Runs),
        ],
        answered: Some((2, Ending::Ok)),
    },
    Case {
        shows: "a server that was shown twice counts once",
        glances: &[
            (0, 1, Shows::Runs),
            (1, 1, Shows::Runs),
            (1, 1, Shows::Runs),
            (0, 1, Shows::Runs),
        ],
        answered: None,
    },
    Case {
        shows: "what was shown of a server last counts",
        glances: &[
            (0, 1, Shows::Stopped),
            (0, 1, Shows::Runs),
            (1, 1, Shows::Runs),
            (2, 1, Shows::Runs),
        ],
        answered: Some((3, Ending::Ok)),
    },
    Case {
        shows: "a server that is In by the state has stopped: another round begins",
        glances: &[
            (0, 1, Shows::Runs),
            (1, 1, Shows::Stopped),
            (2, 1, Shows::Runs),
            (0, 2, Shows::Runs),
            (1, 2, Shows::Runs),
            (2, 2, Shows::Runs),
        ],
        answered: Some((5, Ending::Ok)),
    },
    Case {
        shows: "a glance of a round before does not count",
        glances: &[
            (0, 1, Shows::Runs),
            (1, 1, Shows::Stopped),
            (2, 1, Shows::Runs),
            (0, 2, Shows::Runs),
            (1, 1, Shows::Runs),
            (2, 2, Shows::Runs),
        ],
        answered: None,
    },
    Case {
        shows: "a copy found no slot",
        glances: &[(0, 1, Shows::Runs), (1, 1, Shows::NoSlot)],
        answered: Some((1, Ending::NoSpace)),
    },
    Case {
        shows: "so it is in a glance of a round before",
        glances: &[
            (0, 1, Shows::Runs),
            (1, 1, Shows::Stopped),
            (2, 1, Shows::Runs),
            (0, 1, Shows::NoSlot),
        ],
        answered: Some((3, Ending::NoSpace)),
    },
];

#[test]
fn a_settle_goes_round_by_round(rt: HostRuntime) -> Result<(), Fail> {
    are_so(rt.alloc(), ROUNDS)
}

const AHEAD: &[Case] = &[
    Case {
        shows: "a glance at a server that is ahead of the operator does not count, nor does it end the round",
        glances: &[
            (0, 1, Shows::Runs),
            (1, 1, Shows::Ahead),
            (2, 1, Shows::Runs),
            (0, 1, Shows::Ahead),
            (1, 1, Shows::Runs),
        ],
        answered: Some((4, Ending::Ok)),
    },
    Case {
        shows: "that a copy found no slot is told by a server that is ahead, too",
        glances: &[(0, 1, Shows::Ahead), (1, 1, Shows::AheadWithoutSlot)],
        answered: Some((1, Ending::NoSpace)),
    },
];

#[test]
fn glances_at_servers_that_are_ahead(rt: HostRuntime) -> Result<(), Fail> {
    are_so(rt.alloc(), AHEAD)
}
