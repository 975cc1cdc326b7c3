//! The request that is open.

ghost use Rattle.std.specs.Prelude.{◌≡◌, IfOk};
ghost use Rattle.spec_rules.specs.Clients.{counts, first_round};
ghost use Rattle.client_core.specs.Open.{bytes_sent, fresh, sent_last, settle_in, way_of, with_send, with_witnesses};
ghost use Rattle.client_core.specs.Orders.{order_in, order_of};

use crate::order::{Order, order_of};
use crate::round::{Round, Shown};
use petal_base::{NoMemory, Rev, Seq, ServerId, SharedBlock};
use script_lines::Request;
use std::alloc::Global;
use std::marker::Model;

/// Which way a read goes, while its block's region is on its way from map to map.
#[derive(Clone, Copy)]
pub struct Way {
    /// It was once told that the new map has nothing.
    pub saw_missing: bool,
    /// It asks the old map, at the revision of its latest send.
    pub old_way: bool,
}

/// How a request stands after its latest send.
#[derive(Clone, Copy)]
pub struct Last {
    /// How often it was sent.
    pub turn: u32,
    pub rev: Rev,
    pub way: Way,
}

/// An open request. The block of a write is made once, and each send shares it.
#[derive(Drop)]
pub struct Open {
    pub line: u32,
    pub seq: Seq,
    pub request: Request,
    pub turn: u32,
    pub rev: Rev,
    /// How many of its Witnesses were applied.
    pub witnesses: u32,
    pub way: Way,
    /// Of a settle, the round that it is in.
    pub round: Round,
    pub bytes: Option<SharedBlock>,
}

impl Model for Open {
    ghost use Rattle.std.specs.Prelude.{◌≡◌};
    ghost use Rattle.spec_rules.specs.Clients.{Asked};
    ghost use Rattle.client_core.specs.Open.{bytes_sent};

    ghost Value = { Asked };

    ghost view = { λ o. record {
      line = o.line;
      seq = o.seq;
      request = o.request;
      turn = o.turn;
      rev = o.rev;
      witnesses = o.witnesses;
      saw_missing = o.way.saw_missing;
      old_way = o.way.old_way;
      round = o.round.number;
      seen = o.round.shown;
    } };

    ghost invariant = { λ o. o.bytes ≡ bytes_sent o.request };
}

/// The block that a request sends.
fn bytes_sent(alloc: Global, request: &Request) -> Result<Option<SharedBlock>, NoMemory>
    ensures { IfOk result (λ bytes. bytes ≡ bytes_sent request.now) }
{
    match request {
        Request::Write {
            name: _,
            block: _,
            pattern,
        } => Ok(Some(SharedBlock::new(alloc, pattern.block(alloc)?)?)),
        _ => Ok(None),
    }
}

/// The round in which a request begins. Only a settle has rounds.
fn first_round(request: &Request) -> u32
    ensures { result ≡ first_round request.now }
{
    match request {
        Request::Settle => 1,
        _ => 0,
    }
}

impl Open {
    /// A request that was never sent, called at a revision.
    pub fn new(
        alloc: Global,
        line: u32,
        seq: Seq,
        request: Request,
        rev: Rev,
    ) -> Result<Open, NoMemory>
        ensures { IfOk result (λ asked. asked ≡ fresh line seq request rev) }
    {
        let bytes = bytes_sent(alloc, &request)?;
        let round = Round {
            number: first_round(&request),
            shown: Shown::new(alloc),
        };
        Ok(Open {
            line,
            seq,
            request,
            turn: 0,
            rev,
            witnesses: 0,
            way: Way {
                saw_missing: false,
                old_way: false,
            },
            round,
            bytes,
        })
    }

    /// Whether a reply counts: its number is the request's, and its revision that of the latest send.
    pub fn counts(&self, rev: Rev, seq: Seq) -> bool
        ensures { result ≡ counts self.now rev seq }
    {
        seq == self.seq && rev == self.rev
    }

    /// The request's line, with what it asks of which server, where it asks that of one.
    pub fn order(&self) -> Option<(u32, Order, ServerId)>
        ensures { result ≡ order_in self.now (order_of self.now.request) }
    {
        let (order, server) = order_of(&self.request)?;
        Some((self.line, order, server))
    }

    /// The request's line and its round, where it is a settle.
    pub fn settles(&self) -> Option<(u32, u32)>
        ensures { result ≡ settle_in self.now self.now.request }
    {
        match &self.request {
            Request::Settle => Some((self.line, self.round.number)),
            _ => None,
        }
    }

    /// The way that it goes.
    pub fn way(&self) -> Way
        ensures { result ≡ way_of self.now }
    {
        self.way
    }

    /// This was its latest send.
    pub fn was_sent(&mut self, last: Last)
        ensures { self.new ≡ sent_last last self.old }
    {
        self.turn = last.turn;
        self.rev = last.rev;
        self.way = last.way;
    }
}

/// This was the latest send of the request, where there is one.
pub fn was_sent(asked: &mut Option<Open>, last: Last)
    ensures { asked.new ≡ with_send last asked.old }
{
    if let Some(asked) = asked {
        asked.was_sent(last);
    }
}

/// Of the request, where there is one, so many Witnesses were applied.
pub fn was_witnessed(asked: &mut Option<Open>, witnesses: u32)
    ensures { asked.new ≡ with_witnesses witnesses asked.old }
{
    if let Some(asked) = asked {
        asked.witnesses = witnesses;
    }
}
