//! Jobs that send a letter at most, and those that end a request.

ghost use Rattle.std.specs.Prelude.{◌≡◌};
ghost use Rattle.spec_rules.specs.Server as rules;
ghost use Rattle.spec_rules.specs.Writes as writes;
ghost use Rattle.pair_memory.specs.PairMemory.{own_of, HasTicketsAt};
ghost use Rattle.pair_memory.specs.JobResult.{IsSaid};

use crate::error::WorkError;
use crate::job_context::JobContext;
use crate::job_result::{JobResult, only};
use crate::side::PairMemory;
use kept_chains::Store;
use petal_base::{ClientId, Seq, Sequence, ServerId};
use petal_disk::Disk;
use petal_msg::{Actor, Body, Ending, Finished};

/// Nothing is sent.
pub fn silent<D: Disk>(
    here: &JobContext,
    side: &PairMemory,
    store: &Store<D>,
) -> Result<JobResult, WorkError>
    requires { HasTicketsAt side.now store.now }
    ensures { IsSaid here.now side.now side.now store.now store.now result (rules.silent (own_of side.now store.now)) }
{
    Ok(only(Sequence::new(here.alloc())))
}

/// One letter is sent.
pub fn say<D: Disk>(
    here: &JobContext,
    side: &PairMemory,
    store: &Store<D>,
    to: Actor,
    body: Body,
) -> Result<JobResult, WorkError>
    requires { HasTicketsAt side.now store.now }
    ensures { IsSaid here.now side.now side.now store.now store.now result (rules.says (own_of side.now store.now) to body) }
{
    Ok(only(here.say(to, body)?))
}

/// One letter is sent to a server, where there is one.
pub fn say_to<D: Disk>(
    here: &JobContext,
    side: &PairMemory,
    store: &Store<D>,
    to: Option<ServerId>,
    body: Body,
) -> Result<JobResult, WorkError>
    requires { HasTicketsAt side.now store.now }
    ensures { IsSaid here.now side.now side.now store.now store.now result (rules.says_to (own_of side.now store.now) to body) }
{
    Ok(only(here.say_to(to, body)?))
}

/// The reply that ended a request.
pub fn ended(seq: Seq, ending: Ending) -> Body
    ensures { result ≡ writes.ended seq ending }
{
    match ending {
        Ending::Written => Body::Written { seq },
        Ending::Full => Body::Full { seq },
    }
}

/// A client's request is done with, which is remembered, and its client is told.
pub fn finish<D: Disk>(
    here: &JobContext,
    side: &mut PairMemory,
    store: &Store<D>,
    client: ClientId,
    seq: Seq,
    ending: Ending,
) -> Result<JobResult, WorkError>
    requires { HasTicketsAt side.old store.now }
    ensures { IsSaid here.now side.old side.new store.now store.now result (writes.finishes (own_of side.old store.now) client seq ending) }
{
    let letters = here.say(Actor::Client(client), ended(seq, ending))?;
    side.finished.put(client, Finished { seq, ending })?;
    Ok(only(letters))
}
