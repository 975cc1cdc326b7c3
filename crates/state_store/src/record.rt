//! Records of the state device.

ghost use Rattle.std.specs.Prelude.{◌≡◌, ℕ, List, ◌++◌, length, take, drop, Some, IfSome};
ghost use Rattle.petal_command.specs.Spelling.{spelling, HasSpelling};
ghost use Rattle.petal_command.specs.declared.ballot.Ballot.{Ballot};
ghost use Rattle.petal_command.specs.declared.command.Command.{Command};
ghost use Rattle.state_store.specs.Body.{body_of, HasBody};
ghost use Rattle.spec_paxos.specs.declared.record.StateRecord.{StateRecord};
ghost use Rattle.spec_paxos.specs.declared.record.StateRecord.TheVariants.{Inc, Promise, Accepted, Chosen};

use petal_base::Inc;
use petal_command::{Ballot, COMMAND_BYTES, Command, decode, encode};
use record_fields::{put, put_byte, put_word, put_zeros, word_at};
use spec_paxos::StateRecord;

/// A record has so many bytes after its gate.
pub const BODY_BYTES: usize = 127;

/// The first byte of a command in a record's body.
const COMMAND_AT: usize = 10;

/// The body that spells the record.
pub fn body_of(entry: &StateRecord) -> [u8; BODY_BYTES]
    ensures spelled { result ≡ body_of entry.now }
    ensures has_body { HasBody entry.now }
{
    match entry {
        StateRecord::Inc { inc } => inc_body(*inc),
        StateRecord::Promise { place, ballot } => promise_body(*place, *ballot),
        StateRecord::Accepted {
            place,
            ballot,
            command,
        } => accepted_body(*place, *ballot, command),
        StateRecord::Chosen { place, command } => chosen_body(*place, command),
    }
}

fn inc_body(inc: Inc) -> [u8; BODY_BYTES]
    ensures spelled { result ≡ body_of (Inc inc) }
    ensures has_body { HasBody (Inc inc) }
{
    let mut out = [0; BODY_BYTES];
    put_byte(&mut out, 0, 1);
    put(&mut out, 1, &[0; 73]);
    put_word(&mut out, 74, inc);
    put_zeros(&mut out, 78);
    out
}

fn promise_body(place: u32, ballot: Ballot) -> [u8; BODY_BYTES]
    ensures spelled { result ≡ body_of (Promise place ballot) }
    ensures has_body { HasBody (Promise place ballot) }
{
    let mut out = [0; BODY_BYTES];
    put_byte(&mut out, 0, 2);
    put_word(&mut out, 1, place);
    put_word(&mut out, 5, ballot.round);
    put_byte(&mut out, 9, ballot.server);
    put_zeros(&mut out, 10);
    out
}

fn accepted_body(place: u32, ballot: Ballot, command: &Command) -> [u8; BODY_BYTES]
    ensures spelled { result ≡ body_of (Accepted place ballot command.now) }
    ensures has_body { HasBody (Accepted place ballot command.now) }
{
    let mut out = [0; BODY_BYTES];
    put_byte(&mut out, 0, 3);
    put_word(&mut out, 1, place);
    put_word(&mut out, 5, ballot.round);
    put_byte(&mut out, 9, ballot.server);
    put_command(&mut out, command);
    put_zeros(&mut out, 74);
    out
}

fn chosen_body(place: u32, command: &Command) -> [u8; BODY_BYTES]
    ensures spelled { result ≡ body_of (Chosen place command.now) }
    ensures has_body { HasBody (Chosen place command.now) }
{
    let mut out = [0; BODY_BYTES];
    put_byte(&mut out, 0, 4);
    put_word(&mut out, 1, place);
    put(&mut out, 5, &[0; 5]);
    put_command(&mut out, command);
    put_zeros(&mut out, 74);
    out
}

/// Writes a command to its place.
fn put_command(out: &mut [u8], command: &Command)
    requires { length out.old ≡ 127 }
    ensures spelled { take 74 out.new ≡ take 10 out.old ++ spelling command.now }
    ensures has_spelling { HasSpelling command.now }
{
    put(out, COMMAND_AT, &encode(command));
}

/// The record that a body spells; None exactly where it spells none.
pub fn record_of(body: &[u8]) -> Option<StateRecord>
    ensures found { IfSome result (λ r. HasBody r × (body.now ≡ body_of r)) }
    ensures only { (r : StateRecord) → HasBody r → body.now ≡ body_of r → result ≡ Some r }
{
    if body.len() != BODY_BYTES {
        return None;
    }
    let entry = read(body)?;
    if body_of(&entry).as_slice() == body {
        Some(entry)
    } else {
        None
    }
}

/// The record, where the body spells one.
fn read(body: &[u8]) -> Option<StateRecord>
    requires { length body.now ≡ 127 }
    ensures { (r : StateRecord) → HasBody r → body.now ≡ body_of r → result ≡ Some r }
{
    match body[0] {
        1 => Some(read_inc(body)),
        2 => Some(read_promise(body)),
        3 => read_accepted(body),
        4 => read_chosen(body),
        _ => None,
    }
}

fn read_inc(body: &[u8]) -> StateRecord
    requires { length body.now ≡ 127 }
    ensures { (inc : ℕ) → HasBody (Inc inc) → body.now ≡ body_of (Inc inc) → result ≡ Inc inc }
{
    StateRecord::Inc {
        inc: word_at(body, 74),
    }
}

fn read_promise(body: &[u8]) -> StateRecord
    requires { length body.now ≡ 127 }
    ensures { (place : ℕ) (ballot : Ballot) → HasBody (Promise place ballot) → body.now ≡ body_of (Promise place ballot) → result ≡ Promise place ballot }
{
    StateRecord::Promise {
        place: word_at(body, 1),
        ballot: Ballot {
            round: word_at(body, 5),
            server: body[9],
        },
    }
}

fn read_accepted(body: &[u8]) -> Option<StateRecord>
    requires { length body.now ≡ 127 }
    ensures { (place : ℕ) (ballot : Ballot) (command : Command) → HasBody (Accepted place ballot command)
        → body.now ≡ body_of (Accepted place ballot command) → result ≡ Some (Accepted place ballot command) }
{
    let command = command_at(body)?;
    Some(StateRecord::Accepted {
        place: word_at(body, 1),
        ballot: Ballot {
            round: word_at(body, 5),
            server: body[9],
        },
        command,
    })
}

fn read_chosen(body: &[u8]) -> Option<StateRecord>
    requires { length body.now ≡ 127 }
    ensures { (place : ℕ) (command : Command) → HasBody (Chosen place command) → body.now ≡ body_of (Chosen place command)
        → result ≡ Some (Chosen place command) }
{
    let command = command_at(body)?;
    Some(StateRecord::Chosen {
        place: word_at(body, 1),
        command,
    })
}

/// The command at its place.
fn command_at(body: &[u8]) -> Option<Command>
    requires { length body.now ≡ 127 }
    ensures { (command : Command) (rest : List ℕ) → HasSpelling command → drop 10 body.now ≡ spelling command ++ rest → result ≡ Some command }
{
    decode(&body[COMMAND_AT..COMMAND_AT + COMMAND_BYTES])
}
