//! Letters, by their kind.

ghost use Rattle.std.specs.Prelude.{◌≡◌};
ghost use Rattle.petal_msg.specs.Kinds.{Copied, asked_by, subject_of};
ghost use Rattle.spec_rules.specs.Jobs.{at_other_rev, handles};
ghost use Rattle.pair_memory.specs.PairMemory.{own_of, HasTicketsAt};
ghost use Rattle.pair_memory.specs.JobResult.{IsDone, IsReady, IsSaid, held};

use copy_recovery::{
    CopiedEntry, on_hello, on_hello_ask, on_sync, on_sync_full, on_synced, on_trim, on_trimmed,
};
use pair_memory::{JobContext, JobResult, PairMemory, WorkError, say, silent};
use petal_base::{MapId, Seq};
use petal_disk::Disk;
use petal_msg::{Actor, Body, Letter, LinkId};
use read_either::on_read;
use redistribute::{on_fill_full, on_filled};
use server_store::Store;
use write_pair::{Moving, on_fill};

/// The number of the request of which a client's letter speaks.
fn asked_by(body: &Body) -> Option<Seq>
    ensures { result ≡ asked_by body.now }
{
    match body {
        Body::Read { seq, .. } | Body::Write { seq, .. } => Some(*seq),
        _ => None,
    }
}

fn link_named(map: MapId, link: u8) -> LinkId
    ensures { result ≡ record { map = map; link = link } }
{
    LinkId { map, link }
}

/// A letter of another revision: a client is told, a server is not.
pub fn at_other_rev<D: Disk>(
    here: &JobContext,
    side: &PairMemory,
    store: &Store<D>,
    letter: &Letter,
) -> Result<JobResult, WorkError>
    requires { HasTicketsAt side.now store.now }
    ensures { IsSaid here.now side.now side.now store.now store.now result
        (at_other_rev (own_of side.now store.now) letter.now letter.now.from) }
{
    match letter.from {
        Actor::Server(_) => silent(here, side, store),
        Actor::Client(client) => match asked_by(&letter.body) {
            Some(seq) => say(
                here,
                side,
                store,
                Actor::Client(client),
                Body::WrongRev { seq },
            ),
            None => silent(here, side, store),
        },
    }
}

/// What is done with a letter of copies.
#[tactic(auto, unfolding(spec_rules::specs::Jobs::handles))]
fn copies<D: Disk>(
    here: &JobContext,
    side: &mut PairMemory,
    store: &mut Store<D>,
    body: &Body,
) -> Result<JobResult, WorkError>
    requires tickets { HasTicketsAt side.old store.old }
    requires copies { subject_of body.now ≡ Copied }
    ensures { IsDone D.Disk here.now (held side.old store.old) (held side.new store.new) result
        (handles here.now (own_of side.old store.old) body.now) }
{
    match body {
        Body::HelloAsk { map, link, after } => {
            on_hello_ask(here, side, store, link_named(*map, *link), *after)
        }
        Body::Hello {
            map,
            link,
            after,
            block,
        } => on_hello(here, side, store, link_named(*map, *link), *after, *block),
        Body::Trim { op, cell, epochs } => on_trim(here, side, store, *op, *cell, epochs),
        Body::Trimmed { op, cell } => on_trimmed(here, side, store, *op, *cell),
        Body::Sync {
            op,
            key,
            version,
            index,
            bytes,
        } => {
            let entry = CopiedEntry {
                op: *op,
                key: *key,
                index: *index,
                version: *version,
                bytes,
            };
            on_sync(here, side, store, &entry)
        }
        Body::Synced { op, cell, index } => on_synced(here, side, store, *op, *cell, *index),
        Body::SyncFull { op, cell } => on_sync_full(here, side, store, *op, *cell),
        _ => silent(here, side, store),
    }
}

/// What is done with a letter's content, at a server that handles it.
#[tactic(auto, unfolding(spec_rules::specs::Jobs::handles))]
pub fn handle<D: Disk>(
    here: &JobContext,
    side: &mut PairMemory,
    store: &mut Store<D>,
    letter: &Letter,
) -> Result<JobResult, WorkError>
    requires ready { IsReady side.old store.old }
    ensures { IsDone D.Disk here.now (held side.old store.old) (held side.new store.new) result
        (handles here.now (own_of side.old store.old) letter.now.body) }
{
    match &letter.body {
        Body::Down { .. }
        | Body::Seen { .. }
        | Body::Propose { .. }
        | Body::Pax(_)
        | Body::Ask { .. }
        | Body::News { .. } => silent(here, side, store),
        Body::Read {
            client,
            seq,
            cell,
            epoch,
        } => on_read(here, side, store, *client, *seq, *cell, *epoch),
        Body::Write { .. }
        | Body::Reserve { .. }
        | Body::Reserved { .. }
        | Body::PairFull { .. }
        | Body::Replicate { .. }
        | Body::Replicated { .. } => write_pair::on_letter(here, side, store, letter),
        Body::Data { .. }
        | Body::NotHere { .. }
        | Body::BlockBusy { .. }
        | Body::Held { .. }
        | Body::WrongRev { .. }
        | Body::Written { .. }
        | Body::Full { .. } => silent(here, side, store),
        Body::Fill { key, bytes } => on_fill(here, side, store, &Moving { key: *key, bytes }),
        Body::Filled { key } => on_filled(here, side, store, *key),
        Body::FillFull { key } => on_fill_full(here, side, store, *key),
        // all others are of copies, as `copies` asks
        _ => copies(here, side, store, &letter.body),
    }
}
