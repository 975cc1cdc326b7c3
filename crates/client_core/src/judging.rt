//! What an applied entry means for the open request.

ghost use Rattle.std.specs.Prelude.{◌≡◌, IfOk, OnErr};
ghost use Rattle.spec_state.specs.State.{latest};
ghost use Rattle.spec_rules.specs.State.{servers_of};
ghost use Rattle.spec_rules.specs.World.{greatest_u32};
ghost use Rattle.spec_rules.specs.Clients.{Client, command_of, is_witness, judged_by, verdict_answer, verdict_for};
ghost use Rattle.client_core.specs.Judging.{fated};

use crate::ClientError;
use crate::open::Open;
use crate::proposing::{command_of, refusal};
use global_state::{GlobalState, Verdict};
use petal_base::Seq;
use petal_command::{ClientNumber, Command};
use script_lines::Answer;

/// What became of the open request.
#[derive(Drop)]
pub enum Fate {
    /// It goes on, with so many of its Witnesses applied.
    Waits(u32),
    /// It is answered.
    Answered(Answer),
}

/// What a verdict answers; one that waits answers nothing yet.
fn verdict_answer(verdict: Verdict) -> Option<Answer>
    ensures { result ≡ verdict_answer verdict }
{
    match verdict {
        Verdict::Ok => Some(Answer::Ok),
        Verdict::Waiting => None,
        Verdict::Exists => Some(Answer::Exists),
        Verdict::NoDisk => Some(Answer::NoDisk),
        Verdict::Moving => Some(Answer::Moving),
    }
}

/// What the client's request of a number is answered by its last command's verdict.
fn verdict_for(state: &GlobalState, client: ClientNumber, seq: Seq) -> Option<Answer>
    ensures { result ≡ verdict_for seq (latest state.now client) }
{
    match state.verdict(client.get()) {
        None => None,
        Some((number, verdict)) => {
            if number == seq {
                verdict_answer(verdict)
            } else {
                None
            }
        }
    }
}

/// Whether the entry is a Witness of the client's request of a number.
fn is_witness(client: ClientNumber, seq: Seq, entry: &Command) -> bool
    ensures { result ≡ is_witness client seq entry.now }
{
    match entry {
        Command::Witness {
            client: of,
            seq: number,
            turn: _,
        } => of.get() == client.get() && *number == seq,
        _ => false,
    }
}

/// What becomes of an open request that waits, with the state that the entry has made: one with a command of its own waits
/// for its verdict, another one for its own Witness.
pub fn judged(
    servers: u8,
    state: &GlobalState,
    client: ClientNumber,
    asked: &Open,
    witnesses: u32,
    entry: &Command,
) -> Result<Fate, ClientError>
    requires { servers ≡ servers_of state.now }
    ensures exhausted { OnErr result (witnesses ≡ greatest_u32) }
    ensures fate { IfOk result (λ fate. (asker : Client)
        → judged_by client entry.now (fated state.now asker asked.now (Fate.Waits witnesses)) (record asked.now { witnesses = witnesses })
        (command_of client asked.now.seq asked.now.request)
        ≡ fated state.now asker asked.now fate) }
{
    if command_of(client, asked.seq, &asked.request).is_some() {
        return Ok(match verdict_for(state, client, asked.seq) {
            None => Fate::Waits(witnesses),
            Some(answer) => Fate::Answered(answer),
        });
    }
    if !is_witness(client, asked.seq, entry) {
        return Ok(Fate::Waits(witnesses));
    }
    match refusal(servers, state, asked.way().saw_missing, &asked.request) {
        None => Ok(Fate::Waits(witnesses.checked_add(1).ok_or(ClientError::Exhausted)?)),
        Some(answer) => Ok(Fate::Answered(answer)),
    }
}
