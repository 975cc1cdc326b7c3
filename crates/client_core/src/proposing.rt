//! What a client proposes for its open request.

ghost use Rattle.std.specs.Prelude.{◌≡◌};
ghost use Rattle.spec_rules.specs.State.{servers_of, find};
ghost use Rattle.client_core.specs.Open.{on_way};
ghost use Rattle.spec_rules.specs.Clients.{command_of, is_unread, read_refusal, read_refusal_at, refusal, to_propose, write_refusal};

use crate::open::{Open, Way};
use crate::posting::{count_readers, epoch_for};
use global_state::GlobalState;
use petal_base::{BlockNo, Cell, Epoch, Name, Seq};
use petal_command::{ClientNumber, Command};
use script_lines::{Answer, Request};

/// The command that carries a request out.
pub fn command_of(client: ClientNumber, seq: Seq, request: &Request) -> Option<Command>
    ensures { result ≡ command_of client seq request.now }
{
    match request {
        Request::Disk { name, tuple } => Some(Command::MakeDisk {
            client,
            seq,
            name: name.copy(),
            tuple: tuple.copy(),
        }),
        Request::Snap { name, snap } => Some(Command::Snap {
            client,
            seq,
            disk: name.copy(),
            name: snap.copy(),
        }),
        Request::Move { name, tuple } => Some(Command::StartMove {
            client,
            seq,
            disk: name.copy(),
            tuple: tuple.copy(),
        }),
        _ => None,
    }
}

fn write_refusal(state: &GlobalState, name: &Name, block: BlockNo) -> Option<Answer>
    ensures { result ≡ write_refusal state.now (find state.now name.now) block }
{
    match state.find(name) {
        None => Some(Answer::NoDisk),
        Some(disk) => match state.lead(state.asked_cell(&disk, block, false)) {
            None => Some(Answer::Unavailable),
            Some(_) => None,
        },
    }
}

/// Whether no server may read the cell.
fn is_unread(servers: u8, state: &GlobalState, cell: Cell) -> bool
    requires { servers ≡ servers_of state.now }
    ensures { result ≡ is_unread state.now cell }
{
    count_readers(servers, state, cell) == 0
}

/// The first of the two cells is asked first, the other one where that has nothing.
fn read_refusal_at(
    servers: u8,
    state: &GlobalState,
    asked: Cell,
    old: Cell,
    epoch: Option<Epoch>,
) -> Option<Answer>
    requires { servers ≡ servers_of state.now }
    ensures { result ≡ read_refusal_at state.now asked old epoch }
{
    match epoch {
        None => Some(Answer::NoSnap),
        Some(_) => {
            if is_unread(servers, state, asked) || is_unread(servers, state, old) {
                Some(Answer::Unavailable)
            } else {
                None
            }
        }
    }
}

fn read_refusal(
    servers: u8,
    state: &GlobalState,
    name: &Name,
    snap: &Option<Name>,
    block: BlockNo,
    saw_missing: bool,
) -> Option<Answer>
    requires { servers ≡ servers_of state.now }
    ensures { result ≡ read_refusal state.now (find state.now name.now) snap.now block saw_missing }
{
    match state.find(name) {
        None => Some(Answer::NoDisk),
        Some(disk) => {
            let asked = state.asked_cell(&disk, block, false);
            let old = state.asked_cell(&disk, block, saw_missing);
            read_refusal_at(servers, state, asked, old, epoch_for(state, &disk, snap))
        }
    }
}

/// Why a read or a write can't be served in a state; of a read also by whether it was told that the new map has nothing.
#[tactic(auto, unfolding(spec_rules::specs::Clients::refusal))]
pub fn refusal(
    servers: u8,
    state: &GlobalState,
    saw_missing: bool,
    request: &Request,
) -> Option<Answer>
    requires { servers ≡ servers_of state.now }
    ensures { result ≡ refusal state.now saw_missing request.now }
{
    match request {
        Request::Write { name, block, .. } => write_refusal(state, name, *block),
        Request::Read { name, snap, block } => {
            read_refusal(servers, state, name, snap, *block, saw_missing)
        }
        _ => None,
    }
}

/// What is to be proposed for an open request that goes this way, and of which so many Witnesses were applied: its own command, or
/// a Witness where the state can't serve it.
pub fn to_propose(
    servers: u8,
    state: &GlobalState,
    client: ClientNumber,
    asked: &Open,
    witnesses: u32,
    way: Way,
) -> Option<Command>
    requires { servers ≡ servers_of state.now }
    ensures { result ≡ to_propose state.now client (on_way asked.now witnesses way) }
{
    if let Some(command) = command_of(client, asked.seq, &asked.request) {
        return Some(command);
    }
    match refusal(servers, state, way.saw_missing, &asked.request) {
        None => None,
        Some(_) => Some(Command::Witness {
            client,
            seq: asked.seq,
            turn: witnesses,
        }),
    }
}
