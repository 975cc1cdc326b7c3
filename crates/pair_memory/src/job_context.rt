//! Where a job is done, and the letters that are sent from there.

ghost use Rattle.std.specs.Prelude.{◌≡◌, [], ◌∷◌, IfOk};
ghost use Rattle.spec_rules.specs.Crossing.{touches_cell, touches_link};
ghost use Rattle.spec_rules.specs.Server.{letters_of, post_to, sender};
ghost use Rattle.spec_rules.specs.State as rules;

use global_state::{GlobalState, Hold};
use petal_base::{Cell, Inc, MapId, NoMemory, Rev, Sequence, ServerId};
use petal_command::{Command, ServerNumber};
use petal_msg::{Actor, Body, Letter};
use std::alloc::Global;
use std::marker::Model;

/// Where a job is done: the state at the server's revision, the server and its incarnation. Contracts see it as the rules do.
#[derive(Drop)]
pub struct JobContext<'a> {
    alloc: Global,
    state: &'a GlobalState,
    me: ServerNumber,
    inc: Inc,
}

impl<'a> Model for JobContext<'a> {
    ghost use Rattle.spec_rules.specs.Server as places;

    ghost Value = { places.JobContext };

    ghost view = { λ h. record { state = h.state.now; me = h.me; inc = h.inc } };
}

impl<'a> JobContext<'a> {
    /// At this server.
    pub fn new(alloc: Global, state: &'a GlobalState, me: ServerNumber, inc: Inc) -> JobContext<'a>
        ensures { result ≡ record { state = state.now; me = me; inc = inc } }
    {
        JobContext {
            alloc,
            state,
            me,
            inc,
        }
    }

    /// The allocator of its jobs.
    pub fn alloc(&self) -> Global {
        self.alloc
    }

    /// The server.
    pub fn me(&self) -> ServerId
        ensures { result ≡ self.now.me }
    {
        self.me.get()
    }

    /// The same, as commands name it.
    pub fn number(&self) -> ServerNumber
        ensures { result ≡ self.now.me }
    {
        self.me
    }

    /// Its incarnation.
    pub fn inc(&self) -> Inc
        ensures { result ≡ self.now.inc }
    {
        self.inc
    }

    /// The state at its revision.
    pub fn state(&self) -> &GlobalState
        ensures { result.now ≡ self.now.state }
    {
        self.state
    }

    /// Its revision.
    pub fn rev(&self) -> Rev
        ensures { result ≡ self.now.state.rev }
    {
        self.state.rev()
    }

    /// Whether the server takes the cell's writes.
    pub fn is_lead(&self, cell: Cell) -> bool
        ensures { result ≡ rules.is_lead self.now.state self.now.me cell }
    {
        self.state.is_lead(self.me.get(), cell)
    }

    /// Whether the server leads the cell's link, whatever its region.
    pub fn leads_link(&self, cell: Cell) -> bool
        ensures { result ≡ rules.leads_link self.now.state self.now.me cell }
    {
        self.state.leads_link(self.me.get(), cell)
    }

    /// Whether the cell's link has both of its servers, whatever the cell's region.
    pub fn in_both(&self, cell: Cell) -> bool
        ensures { result ≡ rules.in_both self.now.state cell }
    {
        self.state.in_both(cell)
    }

    /// Whether the server follows on the cell.
    pub fn is_second(&self, cell: Cell) -> bool
        ensures { result ≡ rules.is_second self.now.state self.now.me cell }
    {
        self.state.is_second(self.me.get(), cell)
    }

    /// Whether the server may answer reads of the cell.
    pub fn readable(&self, cell: Cell) -> bool
        ensures { result ≡ rules.readable self.now.state self.now.me cell }
    {
        self.state.readable(self.me.get(), cell)
    }

    /// The server that puts the cell first, in Both.
    pub fn first(&self, cell: Cell) -> Option<ServerId>
        ensures { result ≡ rules.first self.now.state cell }
    {
        self.state.first(cell)
    }

    /// The server that follows on the cell, in Both.
    pub fn second(&self, cell: Cell) -> Option<ServerId>
        ensures { result ≡ rules.second self.now.state cell }
    {
        self.state.second(cell)
    }

    /// What a fence keeps back on the cell.
    pub fn held(&self, cell: Cell) -> Hold
        ensures { result ≡ rules.held self.now.state cell }
    {
        self.state.held(cell)
    }

    /// Whether the entry would change the cell's link, or make one of its two servers In or Out.
    pub fn touches(&self, entry: &Command, cell: Cell) -> bool
        ensures { result ≡ touches_cell self.now.state entry.now cell }
    {
        self.state.touches_cell(entry, cell)
    }

    /// Whether the entry would change the link, or make one of its two servers In or Out.
    pub fn touches_link(&self, entry: &Command, map: MapId, link: u8) -> bool
        ensures { result ≡ touches_link self.now.state entry.now (record { map = map; link = link }) }
    {
        self.state.touches_link(entry, map, link)
    }

    /// A letter from there: the one of this number of its step.
    pub fn letter(&self, to: Actor, nth: u64, body: Body) -> Letter
        ensures { result ∷ [] ≡ letters_of (sender self.now) nth (record { to = to; body = body } ∷ []) }
    {
        Letter {
            from: Actor::Server(self.me.get()),
            inc: self.inc,
            to,
            rev: self.state.rev(),
            stamp: 0,
            nth,
            body,
        }
    }

    /// One letter.
    pub fn say(&self, to: Actor, body: Body) -> Result<Sequence<Letter>, NoMemory>
        ensures { IfOk result (λ letters. letters ≡ letters_of (sender self.now) 0 (record { to = to; body = body } ∷ [])) }
    {
        Sequence::one(self.alloc, self.letter(to, 0, body))
    }

    /// One letter to a server, where there is one.
    pub fn say_to(&self, server: Option<ServerId>, body: Body) -> Result<Sequence<Letter>, NoMemory>
        ensures { IfOk result (λ letters. letters ≡ letters_of (sender self.now) 0 (post_to server body)) }
    {
        match server {
            Some(server) => self.say(Actor::Server(server), body),
            None => Ok(Sequence::new(self.alloc)),
        }
    }
}
