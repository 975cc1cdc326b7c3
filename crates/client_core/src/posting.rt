//! What a read or a write sends, and the letters of a step.

ghost use Rattle.std.specs.Prelude.{◌≡◌, ◌++◌, IfOk, length};
ghost use Rattle.petal_msg.specs.declared.letter.Actor.TheVariants as actor;
ghost use Rattle.spec_rules.specs.State.{servers_of, find};
ghost use Rattle.spec_rules.specs.Server.{letters_of, post_to};
ghost use Rattle.spec_rules.specs.Clients.{epoch_for, in_turn, posts_for, read_posts, read_posts_at, readers, write_posts};
ghost use Rattle.client_core.specs.Posting.{posts_of};

use crate::open::Open;
use global_state::{DiskView, GlobalState};
use petal_base::{
    BlockNo, Cell, ClientId, Epoch, Name, NoMemory, Rev, Seq, Sequence, ServerId, SharedBlock,
};
use petal_msg::{Actor, Body, Letter};
use script_lines::Request;
use std::alloc::{AllocError, Global};
use std::marker::Model;

/// What is sent: to whom, and what it says. Contracts see the rules' post.
#[derive(Drop)]
pub struct Post {
    pub to: Actor,
    pub body: Body,
}

impl Model for Post {
    ghost use Rattle.spec_rules.specs.Server.{Post};

    ghost Value = { Post };

    ghost view = { λ p. record { to = p.to; body = p.body } };
}

/// A post to one of the servers, where there is one.
fn post_to(to: Option<ServerId>, body: Body) -> Option<Post>
    ensures { posts_of result ≡ post_to to body }
{
    match to {
        None => None,
        Some(server) => Some(Post {
            to: Actor::Server(server),
            body,
        }),
    }
}

/// The servers that may read a cell, by number.
fn readers(
    alloc: Global,
    servers: u8,
    state: &GlobalState,
    cell: Cell,
) -> Result<Vec<ServerId>, AllocError>
    requires { servers ≡ servers_of state.now }
    ensures { IfOk result (λ v. v.items ≡ readers state.now cell) }
{
    (0..servers)
        .filter(|n| state.readable(*n, cell))
        .collect(alloc)
}

/// How many servers may read a cell.
pub fn count_readers(servers: u8, state: &GlobalState, cell: Cell) -> usize
    requires { servers ≡ servers_of state.now }
    ensures { result ≡ length (readers state.now cell) }
{
    (0..servers).filter(|n| state.readable(*n, cell)).count()
}

/// One of the servers, in turn.
fn in_turn(servers: &[ServerId], turn: u32) -> Option<ServerId>
    ensures { result ≡ in_turn servers.now turn }
{
    if servers.is_empty() {
        return None;
    }
    servers.get(turn as usize % servers.len()).copied()
}

/// The epoch that a read asks for: the snapshot's, or the disk's own.
pub fn epoch_for(state: &GlobalState, disk: &DiskView, snap: &Option<Name>) -> Option<Epoch>
    ensures { result ≡ epoch_for state.now disk.now snap.now }
{
    match snap {
        None => Some(disk.epoch),
        Some(snap) => state.snapshot(disk.disk, snap),
    }
}

/// What a write sends.
fn write_post(
    state: &GlobalState,
    client: ClientId,
    seq: Seq,
    name: &Name,
    block: BlockNo,
    bytes: &SharedBlock,
) -> Result<Option<Post>, NoMemory>
    ensures { IfOk result (λ post. write_posts state.now (find state.now name.now) client seq block bytes.now ≡ posts_of post) }
{
    match state.find(name) {
        None => Ok(None),
        Some(disk) => {
            let cell = state.asked_cell(&disk, block, false);
            let body = Body::Write {
                client,
                seq,
                cell,
                epoch: disk.epoch,
                bytes: bytes.share()?,
            };
            Ok(post_to(state.lead(cell), body))
        }
    }
}

/// What a read of a cell sends.
fn read_post_at(
    alloc: Global,
    servers: u8,
    state: &GlobalState,
    client: ClientId,
    cell: Cell,
    epoch: Option<Epoch>,
    seq: Seq,
    turn: u32,
) -> Result<Option<Post>, NoMemory>
    requires { servers ≡ servers_of state.now }
    ensures { IfOk result (λ post. read_posts_at state.now cell epoch client seq turn ≡ posts_of post) }
{
    match epoch {
        None => Ok(None),
        Some(epoch) => {
            let to = in_turn(&readers(alloc, servers, state, cell)?, turn);
            let body = Body::Read {
                client,
                seq,
                cell,
                epoch,
            };
            Ok(post_to(to, body))
        }
    }
}

/// What a send of a request sends, of the kinds that go to servers by what they are for the block. A read goes to the old map where
/// it is to go the old way, while its block's region is on its way.
pub fn post_for(
    alloc: Global,
    servers: u8,
    state: &GlobalState,
    client: ClientId,
    asked: &Open,
    old_way: bool,
) -> Result<Option<Post>, NoMemory>
    requires { servers ≡ servers_of state.now }
    ensures { IfOk result (λ post. posts_for state.now client asked.now.seq asked.now.turn old_way asked.now.request ≡ posts_of post) }
{
    match (&asked.request, &asked.bytes) {
        (Request::Write { name, block, .. }, Some(bytes)) => {
            write_post(state, client, asked.seq, name, *block, bytes)
        }
        (Request::Read { name, snap, block }, _) => match state.find(name) {
            None => Ok(None),
            Some(disk) => {
                let cell = state.asked_cell(&disk, *block, old_way);
                let epoch = epoch_for(state, &disk, snap);
                read_post_at(
                    alloc, servers, state, client, cell, epoch, asked.seq, asked.turn,
                )
            }
        },
        _ => Ok(None),
    }
}

fn letter_of(client: ClientId, rev: Rev, nth: u64, post: Post) -> Letter
    ensures { result ≡ record { from = actor.Client client; inc = 0; to = post.to; rev = rev; stamp = 0; nth = nth; body = post.body } }
{
    Letter {
        from: Actor::Client(client),
        inc: 0,
        to: post.to,
        rev,
        stamp: 0,
        nth,
        body: post.body,
    }
}

/// The letter of a step that sends one post at most.
pub fn one_letter(
    alloc: Global,
    client: ClientId,
    rev: Rev,
    post: Option<Post>,
) -> Result<Sequence<Letter>, NoMemory>
    ensures { IfOk result (λ letters. letters ≡ letters_of (record { from = actor.Client client; inc = 0; rev = rev }) 0 (posts_of post)) }
{
    match post {
        None => Ok(Sequence::new(alloc)),
        Some(post) => Sequence::one(alloc, letter_of(client, rev, 0, post)),
    }
}

/// The letters of a step that sends this post, and another one at most after it.
pub fn two_letters(
    alloc: Global,
    client: ClientId,
    rev: Rev,
    first: Post,
    second: Option<Post>,
) -> Result<Sequence<Letter>, NoMemory>
    ensures { IfOk result (λ letters. letters
        ≡ letters_of (record { from = actor.Client client; inc = 0; rev = rev }) 0 (posts_of (Some first) ++ posts_of second)) }
{
    let mut letters = Sequence::one(alloc, letter_of(client, rev, 0, first))?;
    if let Some(post) = second {
        letters.push(letter_of(client, rev, 1, post))?;
    }
    Ok(letters)
}
