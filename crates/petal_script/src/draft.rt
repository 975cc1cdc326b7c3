//! A script while its lines are read.

ghost use Rattle.std.specs.Prelude.{◌≡◌, ◌≤◌, ◌<◌, ◌+◌, ◌^◌, Result, Ok, Err, MatchResult, IfOk};
ghost use Rattle.petal_script.specs.Script.{adds, servers_line, net_line};
ghost use Rattle.petal_script.specs.Told.{AddsTo};

use crate::cause::Cause;
use crate::error::LineError;
use crate::number::in_limits;
use crate::tally::Tally;
use crate::words::Words;
use petal_base::{ClientId, Sequence};
use script_lines::{Line, Request, Script};
use std::alloc::Global;
use std::marker::Model;

/// The lines so far, with counts of what they ask for. Contracts see the script that they are.
#[derive(Drop)]
pub(crate) struct Draft {
    script: Script,
    tally: Tally,
}

impl Model for Draft {
    ghost use Rattle.script_lines.specs.declared.script.Script.{Script};
    ghost use Rattle.petal_script.specs.Tally.{IsDraft};

    ghost Value = { Script };

    ghost view = { λ d. d.script };

    ghost invariant = { λ d. IsDraft d.script d.tally };
}

impl Draft {
    pub(crate) fn servers(&self) -> u8
        ensures value { result ≡ self.now.servers }
        ensures least { 2 ≤ result }
        ensures most { result ≤ 8 }
    {
        self.script.servers
    }

    pub(crate) fn into_script(self) -> Script
        ensures { result ≡ self }
    {
        self.script
    }

    /// The script that the servers line begins.
    #[tactic(auto, unfolding(crate::specs::Script::servers_line))]
    pub(crate) fn begin(alloc: Global, words: &mut Words<'_>) -> Result<Draft, Cause>
        ensures rule { result ≡ servers_line words.old }
        ensures phases { IfOk result (λ s. s.phases ≡ 1) }
    {
        let (servers, by, slots) = words.three()?;
        if by != b"slots".as_slice() {
            return Err(Cause::BadLine);
        }
        let servers = in_limits(servers, 2, 8)? as u8;
        let slots = in_limits(slots, 1, 1024)? as u32;
        Ok(Draft {
            script: Script {
                servers,
                slots,
                lose: None,
                twice: None,
                phases: 1,
                lines: Sequence::new(alloc),
            },
            tally: Tally::new(),
        })
    }

    pub(crate) fn end_phase(&mut self)
        requires { self.old.phases + 1 < 2 ^ 32 }
        ensures { self.new ≡ record self.old { phases = self.old.phases + 1 } }
    {
        self.script.phases += 1;
    }

    /// A line after `net`. Where it is refused the script is as before.
    #[tactic(auto, unfolding(crate::specs::Script::net_line))]
    pub(crate) fn net(&mut self, words: &mut Words<'_>) -> Result<(), Cause>
        ensures rule { MatchResult result (λ _. net_line self.old words.old ≡ Ok self.new) (λ e. net_line self.old words.old ≡ Err e) }
        ensures phases { self.new.phases ≡ self.old.phases }
    {
        let (what, every) = words.two()?;
        if !self.script.lines.is_empty() {
            return Err(Cause::BadLine);
        }
        if what == b"lose".as_slice() && self.script.lose.is_none() {
            self.script.lose = Some(in_limits(every, 2, 1_000_000)? as u32);
            Ok(())
        } else if what == b"twice".as_slice() && self.script.twice.is_none() {
            self.script.twice = Some(in_limits(every, 2, 1_000_000)? as u32);
            Ok(())
        } else {
            Err(Cause::BadLine)
        }
    }

    #[tactic(auto, using(crate::proofs::Tallying::tallies_more), unfolding(crate::specs::Script::adds))]
    pub(crate) fn add(
        &mut self,
        number: u32,
        client: ClientId,
        request: Request,
    ) -> Result<(), LineError>
        ensures rule { AddsTo result self.new (adds self.old number client request) }
        ensures phases { self.new.phases ≡ self.old.phases }
    {
        let tally = self.tally.with(&request);
        if tally.is_past_limits() {
            return Err(LineError::Bad(Cause::TooMany));
        }
        if tally.lacks_majority(self.script.servers) {
            return Err(LineError::Bad(Cause::NoMajority));
        }
        let phase = self.script.phases - 1;
        self.script.lines.push(Line {
            number,
            phase,
            client,
            request,
        })?;
        self.tally = tally;
        Ok(())
    }
}
