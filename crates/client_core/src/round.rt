//! A settle's rounds of glances.

ghost use Rattle.std.specs.Prelude.{◌≡◌, ℕ, ◌==◌, [], Some, None, IfOk, IsErrOf, length, map, if◌then◌else◌};
ghost use Rattle.std.specs.Ordering.{nat_cmp};
ghost use Rattle.petal_table.specs.Table.{put};
ghost use Rattle.spec_rules.specs.State.{servers_of};
ghost use Rattle.spec_rules.specs.Clients.{Client, rounds, sees, settles, with_sight};
ghost use Rattle.spec_rules.specs.World.{greatest_u32};
ghost use Rattle.client_core.specs.Open.{in_round, outcome};
ghost use Rattle.client_core.specs.declared.error.ClientError.TheVariants as error;

use crate::ClientError;
use crate::hearing::Heard;
use crate::open::Open;
use global_state::GlobalState;
use petal_base::{Inc, NoMemory, Rev, ServerId};
use script_lines::{Answer, Request};
use std::alloc::Global;
use std::collections::BTreeMap;
use std::marker::Model;

/// What a glance showed of a server, at which of the server's revisions, and for which line and round.
#[derive(Drop)]
pub struct Sight {
    pub server: ServerId,
    pub rev: Rev,
    pub line: u32,
    pub round: u32,
    pub running: bool,
    pub inc: Inc,
    /// Whether the copy that ended last there found no slot.
    pub full: bool,
}

impl Model for Sight {
    ghost use Rattle.spec_rules.specs.Clients.{Sight};

    ghost Value = { Sight };

    ghost view = { λ s. record {
      server = s.server;
      rev = s.rev;
      line = s.line;
      round = s.round;
      running = s.running;
      inc = s.inc;
      full = s.full;
    } };
}

impl Sight {
    /// The incarnation as which the server runs.
    fn inc_running(&self) -> Option<Inc>
        ensures { result ≡ (if self.now.running then Some self.now.inc else None) }
    {
        if self.running { Some(self.inc) } else { None }
    }
}

/// The servers that a round showed so far, each with the incarnation as which it runs. Contracts see them by rising number.
#[derive(Drop)]
pub struct Shown {
    rows: BTreeMap<ServerId, Option<Inc>>,
}

impl Model for Shown {
    ghost use Rattle.std.specs.Prelude.{List, Option, ℕ};

    ghost Value = { List (ℕ × Option ℕ) };

    ghost view = { λ s. s.rows.entries };
}

impl Shown {
    /// No server. It takes no memory.
    pub fn new(alloc: Global) -> Shown
        ensures { result ≡ [] }
    {
        Shown {
            rows: BTreeMap::new(alloc),
        }
    }

    /// These, with one server more.
    #[tactic(auto, unfolding(petal_table::specs::Table::put))]
    fn with(&self, server: ServerId, running: Option<Inc>) -> Result<Shown, NoMemory>
        ensures { IfOk result (λ more. more ≡ put nat_cmp self.now server running) }
    {
        let mut rows = self.rows.clone()?;
        let _ = rows.insert(server, running)?;
        Ok(Shown { rows })
    }

    fn len(&self) -> usize
        ensures { result ≡ length self.now }
    {
        self.rows.len()
    }

    /// As which incarnation each of them runs.
    fn running(&self, alloc: Global) -> Result<Vec<Option<Inc>>, NoMemory>
        ensures { IfOk result (λ v. v.items ≡ map (λ row. row.1) self.now) }
    {
        Ok(self.rows.values().copied().collect(alloc)?)
    }
}

/// A round: its number, and what it showed so far.
#[derive(Drop)]
pub struct Round {
    pub number: u32,
    pub shown: Shown,
}

impl Open {
    /// What a glance means for this request, in a state: a stop is done, and a plan is armed; a start, or a blank, has failed where the server does not
    /// run; a settle goes on with its rounds.
    pub fn see(
        &self,
        alloc: Global,
        servers: u8,
        state: &GlobalState,
        sight: &Sight,
    ) -> Result<Heard, ClientError>
        requires { servers ≡ servers_of state.now }
        ensures { IfOk result (λ heard. (me : ℕ) (client : Client)
            → sees state.now client (Some self.now) sight.now ≡ outcome heard state.now me client (Some self.now)) }
    {
        if sight.line != self.line {
            return Ok(Heard::Nothing);
        }
        match &self.request {
            Request::Stop { server: _ }
            | Request::StopAt { server: _, at: _ }
            | Request::Fault {
                server: _,
                which: _,
                kind: _,
                at: _,
            } => Ok(Heard::Answered(Answer::Ok)),
            Request::Start { server: _ } | Request::Blank { server: _ } => {
                Ok(Heard::Answered(if sight.running {
                    Answer::Ok
                } else {
                    Answer::Failed
                }))
            }
            Request::Settle => self.settle(alloc, servers, state, sight),
            _ => Ok(Heard::Nothing),
        }
    }

    /// What a glance means for a settle: it has no space where the server's last copy found no slot. A glance at a server that is
    /// ahead of the operator is not counted.
    fn settle(
        &self,
        alloc: Global,
        servers: u8,
        state: &GlobalState,
        sight: &Sight,
    ) -> Result<Heard, ClientError>
        requires { servers ≡ servers_of state.now }
        ensures { IfOk result (λ heard. (me : ℕ) (client : Client)
            → settles state.now client self.now sight.now ≡ outcome heard state.now me client (Some self.now)) }
    {
        if sight.full {
            return Ok(Heard::Answered(Answer::NoSpace));
        }
        if sight.round != self.round.number || sight.rev > state.rev() {
            return Ok(Heard::Nothing);
        }
        let shown = self.round.shown.with(sight.server, sight.inc_running())?;
        self.end_round(alloc, servers, state, shown)
    }

    /// What a round that has shown these servers means for a settle: where they are all, it is settled by the state, or
    /// another round begins.
    fn end_round(
        &self,
        alloc: Global,
        servers: u8,
        state: &GlobalState,
        shown: Shown,
    ) -> Result<Heard, ClientError>
        requires { servers ≡ servers_of state.now }
        ensures exhausted { IsErrOf result error.Exhausted → self.now.round ≡ greatest_u32 }
        ensures heard { IfOk result (λ heard. (me : ℕ) (client : Client)
            → rounds state.now client (record self.now { seen = shown }) ≡ outcome heard state.now me client (Some self.now)) }
    {
        let number = self.round.number;
        if shown.len() != servers as usize {
            return Ok(Heard::Round(Round { number, shown }));
        }
        if state.settled(&shown.running(alloc)?) {
            return Ok(Heard::Answered(Answer::Ok));
        }
        Ok(Heard::Round(Round {
            number: number.checked_add(1).ok_or(ClientError::Exhausted)?,
            shown: Shown::new(alloc),
        }))
    }
}

/// A settle goes on in this round.
pub fn went_round(asked: &mut Option<Open>, round: Round)
    ensures { asked.new ≡ in_round round asked.old }
{
    if let Some(asked) = asked {
        asked.round = round;
    }
}
