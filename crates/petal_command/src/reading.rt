//! From bytes to the command that they spell. What is read is cut to what fits its place, and then written once more and
//! compared, so that bytes which spell nothing are told by the comparison.

ghost use Rattle.std.specs.Prelude.{◌≡◌, ℕ, List, ◌∷◌, ◌++◌, ◌+◌, ◌≤◌, ◌<◌, Bool, true, Some, length, drop, IfSome};
ghost use Rattle.petal_base.specs.Name.{is_name};
ghost use Rattle.petal_base.specs.Tuple.{is_tuple};
ghost use Rattle.petal_command.specs.Spelling.{spelling, HasSpelling, name_field, tuple_field};
ghost use Rattle.petal_command.specs.declared.command.Command.{Command};
ghost use Rattle.petal_command.specs.declared.command.Command.TheVariants.{Join, Leave, Caught, MakeDisk, Snap, StartMove, Drained, Moved, Witness};

use crate::command::{COMMAND_BYTES, Command};
use crate::number::Below;
use crate::writing::{TUPLE_BYTES, encode};
use petal_base::{MAX_SERVERS, NAME_BYTES, Name, Tuple};
use record_fields::{flag_at, padded_at, word_at};

/// The command that the bytes spell; None exactly where they spell none.
pub fn decode(bytes: &[u8]) -> Option<Command>
    ensures found { IfSome result (λ command. HasSpelling command × (bytes.now ≡ spelling command)) }
    ensures only { (command : Command) → HasSpelling command → bytes.now ≡ spelling command → result ≡ Some command }
{
    if bytes.len() != COMMAND_BYTES {
        return None;
    }
    let command = read(bytes)?;
    if encode(&command).as_slice() == bytes {
        Some(command)
    } else {
        None
    }
}

/// The command, where the bytes spell one.
fn read(bytes: &[u8]) -> Option<Command>
    requires { length bytes.now ≡ 64 }
    ensures { (command : Command) → HasSpelling command → bytes.now ≡ spelling command → result ≡ Some command }
{
    match bytes[0] {
        1 => Some(read_join(bytes)),
        2 => Some(read_leave(bytes)),
        3 => Some(read_caught(bytes)),
        4 => read_make_disk(bytes),
        5 => read_snap(bytes),
        6 => read_start_move(bytes),
        7 => Some(read_drained(bytes)),
        8 => Some(read_moved(bytes)),
        9 => Some(read_witness(bytes)),
        _ => None,
    }
}

fn read_join(bytes: &[u8]) -> Command
    requires { length bytes.now ≡ 64 }
    ensures { (server inc : ℕ) (blank : Bool) → HasSpelling (Join server inc blank) → bytes.now ≡ spelling (Join server inc blank)
        → result ≡ Join server inc blank }
{
    Command::Join {
        server: small_at(bytes, 1),
        inc: word_at(bytes, 2),
        blank: flag_at(bytes, 6),
    }
}

fn read_leave(bytes: &[u8]) -> Command
    requires { length bytes.now ≡ 64 }
    ensures { (server inc : ℕ) → HasSpelling (Leave server inc) → bytes.now ≡ spelling (Leave server inc) → result ≡ Leave server inc }
{
    Command::Leave {
        server: small_at(bytes, 1),
        inc: word_at(bytes, 2),
    }
}

fn read_caught(bytes: &[u8]) -> Command
    requires { length bytes.now ≡ 64 }
    ensures { (map link holder holder_inc other other_inc : ℕ) → HasSpelling (Caught map link holder holder_inc other other_inc)
        → bytes.now ≡ spelling (Caught map link holder holder_inc other other_inc) → result ≡ Caught map link holder holder_inc other other_inc }
{
    Command::Caught {
        map: word_at(bytes, 1),
        link: small_at(bytes, 5),
        holder: small_at(bytes, 6),
        holder_inc: word_at(bytes, 7),
        other: small_at(bytes, 11),
        other_inc: word_at(bytes, 12),
    }
}

fn read_make_disk(bytes: &[u8]) -> Option<Command>
    requires { length bytes.now ≡ 64 }
    ensures { (client seq : ℕ) (name tuple : List ℕ) → HasSpelling (MakeDisk client seq name tuple) → bytes.now ≡ spelling (MakeDisk client seq name tuple)
        → result ≡ Some (MakeDisk client seq name tuple) }
{
    let (name, tuple) = name_and_tuple(bytes)?;
    Some(Command::MakeDisk {
        client: small_at(bytes, 1),
        seq: word_at(bytes, 2),
        name,
        tuple,
    })
}

fn read_snap(bytes: &[u8]) -> Option<Command>
    requires { length bytes.now ≡ 64 }
    ensures { (client seq : ℕ) (disk name : List ℕ) → HasSpelling (Snap client seq disk name) → bytes.now ≡ spelling (Snap client seq disk name)
        → result ≡ Some (Snap client seq disk name) }
{
    let (disk, name) = two_names(bytes)?;
    Some(Command::Snap {
        client: small_at(bytes, 1),
        seq: word_at(bytes, 2),
        disk,
        name,
    })
}

fn read_start_move(bytes: &[u8]) -> Option<Command>
    requires { length bytes.now ≡ 64 }
    ensures { (client seq : ℕ) (disk tuple : List ℕ) → HasSpelling (StartMove client seq disk tuple)
        → bytes.now ≡ spelling (StartMove client seq disk tuple) → result ≡ Some (StartMove client seq disk tuple) }
{
    let (disk, tuple) = name_and_tuple(bytes)?;
    Some(Command::StartMove {
        client: small_at(bytes, 1),
        seq: word_at(bytes, 2),
        disk,
        tuple,
    })
}

fn read_drained(bytes: &[u8]) -> Command
    requires { length bytes.now ≡ 64 }
    ensures { (server inc fence : ℕ) → HasSpelling (Drained server inc fence) → bytes.now ≡ spelling (Drained server inc fence)
        → result ≡ Drained server inc fence }
{
    Command::Drained {
        server: small_at(bytes, 1),
        inc: word_at(bytes, 2),
        fence: word_at(bytes, 6),
    }
}

fn read_moved(bytes: &[u8]) -> Command
    requires { length bytes.now ≡ 64 }
    ensures { (map region link : ℕ) → HasSpelling (Moved map region link) → bytes.now ≡ spelling (Moved map region link) → result ≡ Moved map region link }
{
    Command::Moved {
        map: word_at(bytes, 1),
        region: small_at(bytes, 5),
        link: small_at(bytes, 6),
    }
}

fn read_witness(bytes: &[u8]) -> Command
    requires { length bytes.now ≡ 64 }
    ensures { (client seq turn : ℕ) → HasSpelling (Witness client seq turn) → bytes.now ≡ spelling (Witness client seq turn)
        → result ≡ Witness client seq turn }
{
    Command::Witness {
        client: small_at(bytes, 1),
        seq: word_at(bytes, 2),
        turn: word_at(bytes, 6),
    }
}

/// The number at a place, where it is below the limit.
fn small_at<const LIMIT: u8>(bytes: &[u8], at: usize) -> Below<LIMIT>
    requires limit { 0 < LIMIT }
    requires inside { at < length bytes.now }
    ensures { (n : ℕ) (rest : List ℕ) → n < LIMIT → drop at bytes.now ≡ n ∷ rest → result ≡ n }
{
    let number = bytes[at];
    if number < LIMIT {
        Below::new(number)
    } else {
        Below::new(0)
    }
}

/// The fields from the third on of a command with a name and a tuple.
fn name_and_tuple(bytes: &[u8]) -> Option<(Name, Tuple)>
    requires { length bytes.now ≡ 64 }
    ensures { (name tuple rest : List ℕ) → is_name name ≡ true → is_tuple 8 tuple ≡ true → drop 6 bytes.now ≡ name_field name ++ tuple_field tuple ++ rest
        → result ≡ Some (name, tuple) }
{
    let name = Name::read(padded_at(bytes, 6, NAME_BYTES))?;
    let tuple = Tuple::new(padded_at(bytes, 23, TUPLE_BYTES), MAX_SERVERS)?;
    Some((name, tuple))
}

/// The fields from the third on of a command with two names.
fn two_names(bytes: &[u8]) -> Option<(Name, Name)>
    requires { length bytes.now ≡ 64 }
    ensures { (disk name rest : List ℕ) → is_name disk ≡ true → is_name name ≡ true → drop 6 bytes.now ≡ name_field disk ++ name_field name ++ rest
        → result ≡ Some (disk, name) }
{
    let disk = Name::read(padded_at(bytes, 6, NAME_BYTES))?;
    let name = Name::read(padded_at(bytes, 23, NAME_BYTES))?;
    Some((disk, name))
}
