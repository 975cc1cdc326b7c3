//! From a command to its spelling: one function for each kind.

ghost use Rattle.std.specs.Prelude.{◌≡◌, ◌+◌, ◌≤◌, ◌<◌, ◌++◌, length, take, true, replicate};
ghost use Rattle.petal_base.specs.Name.{is_name};
ghost use Rattle.petal_base.specs.Tuple.{is_tuple};
ghost use Rattle.petal_command.specs.Spelling.{spelling, HasSpelling, IsClient, IsName, IsTuple, name_field, tuple_field};
ghost use Rattle.record_fields.specs.Fields.{byte, word, IsWord};
ghost use Rattle.petal_command.specs.declared.command.Command.TheVariants.{Join, Leave, Caught, Snap, Moved};

use crate::command::{COMMAND_BYTES, Command};
use crate::number::{Below, ClientNumber, LinkNumber, RegionNumber, ServerNumber};
use petal_base::{Inc, MapId, NAME_BYTES, Name, Seq, Tuple};
use record_fields::{put_byte, put_flag, put_padded, put_word, put_zeros};

/// A tuple has at most so many servers.
pub const TUPLE_BYTES: usize = 8;

/// The bytes that spell the command.
pub fn encode(command: &Command) -> [u8; COMMAND_BYTES]
    ensures spelled { result ≡ spelling command.now }
    ensures has_spelling { HasSpelling command.now }
{
    match command {
        Command::Join { server, inc, blank } => spell_join(*server, *inc, *blank),
        Command::Leave { server, inc } => spell_leave(*server, *inc),
        Command::Caught {
            map,
            link,
            holder,
            holder_inc,
            other,
            other_inc,
        } => spell_caught(*map, *link, *holder, *holder_inc, *other, *other_inc),
        Command::MakeDisk {
            client,
            seq,
            name,
            tuple,
        } => spell_tuple(4, *client, *seq, name, tuple),
        Command::Snap {
            client,
            seq,
            disk,
            name,
        } => spell_snap(*client, *seq, disk, name),
        Command::StartMove {
            client,
            seq,
            disk,
            tuple,
        } => spell_tuple(6, *client, *seq, disk, tuple),
        Command::Drained { server, inc, fence } => spell_words(7, *server, *inc, *fence),
        Command::Moved { map, region, link } => spell_moved(*map, *region, *link),
        Command::Witness { client, seq, turn } => spell_words(9, *client, *seq, *turn),
    }
}

fn spell_join(server: ServerNumber, inc: Inc, blank: bool) -> [u8; COMMAND_BYTES]
    ensures spelled { result ≡ spelling (Join server inc blank) }
    ensures has_spelling { HasSpelling (Join server inc blank) }
{
    let mut out = [0; COMMAND_BYTES];
    put_byte(&mut out, 0, 1);
    put_byte(&mut out, 1, server.get());
    put_word(&mut out, 2, inc);
    put_flag(&mut out, 6, blank);
    put_zeros(&mut out, 7);
    out
}

fn spell_leave(server: ServerNumber, inc: Inc) -> [u8; COMMAND_BYTES]
    ensures spelled { result ≡ spelling (Leave server inc) }
    ensures has_spelling { HasSpelling (Leave server inc) }
{
    let mut out = [0; COMMAND_BYTES];
    put_byte(&mut out, 0, 2);
    put_byte(&mut out, 1, server.get());
    put_word(&mut out, 2, inc);
    put_zeros(&mut out, 6);
    out
}

fn spell_caught(
    map: MapId,
    link: LinkNumber,
    holder: ServerNumber,
    holder_inc: Inc,
    other: ServerNumber,
    other_inc: Inc,
) -> [u8; COMMAND_BYTES]
    ensures spelled { result ≡ spelling (Caught map link holder holder_inc other other_inc) }
    ensures has_spelling { HasSpelling (Caught map link holder holder_inc other other_inc) }
{
    let mut out = [0; COMMAND_BYTES];
    put_byte(&mut out, 0, 3);
    put_word(&mut out, 1, map);
    put_byte(&mut out, 5, link.get());
    put_byte(&mut out, 6, holder.get());
    put_word(&mut out, 7, holder_inc);
    put_byte(&mut out, 11, other.get());
    put_word(&mut out, 12, other_inc);
    put_zeros(&mut out, 16);
    out
}

/// A command of a client with a name and a tuple.
fn spell_tuple(
    kind: u8,
    client: ClientNumber,
    seq: Seq,
    name: &Name,
    tuple: &Tuple,
) -> [u8; COMMAND_BYTES]
    ensures spelled { result ≡ byte kind ++ byte client ++ word seq ++ name_field name.now ++ tuple_field tuple.now ++ replicate 32 0 }
    ensures fits { IsClient client × IsWord seq × IsName name.now × IsTuple tuple.now }
{
    let mut out = [0; COMMAND_BYTES];
    put_byte(&mut out, 0, kind);
    put_byte(&mut out, 1, client.get());
    put_word(&mut out, 2, seq);
    put_name(&mut out, 6, name);
    put_tuple(&mut out, 23, tuple);
    put_zeros(&mut out, 32);
    out
}

/// A command with a small number and two others.
fn spell_words<const LIMIT: u8>(
    kind: u8,
    number: Below<LIMIT>,
    first: u32,
    second: u32,
) -> [u8; COMMAND_BYTES]
    ensures spelled { result ≡ byte kind ++ byte number.entry ++ word first ++ word second ++ replicate 54 0 }
    ensures fits { (number.entry < LIMIT) × IsWord first × IsWord second }
{
    let mut out = [0; COMMAND_BYTES];
    put_byte(&mut out, 0, kind);
    put_byte(&mut out, 1, number.get());
    put_word(&mut out, 2, first);
    put_word(&mut out, 6, second);
    put_zeros(&mut out, 10);
    out
}

fn spell_snap(client: ClientNumber, seq: Seq, disk: &Name, name: &Name) -> [u8; COMMAND_BYTES]
    ensures spelled { result ≡ spelling (Snap client seq disk.now name.now) }
    ensures has_spelling { HasSpelling (Snap client seq disk.now name.now) }
{
    let mut out = [0; COMMAND_BYTES];
    put_byte(&mut out, 0, 5);
    put_byte(&mut out, 1, client.get());
    put_word(&mut out, 2, seq);
    put_name(&mut out, 6, disk);
    put_name(&mut out, 23, name);
    put_zeros(&mut out, 40);
    out
}

fn spell_moved(map: MapId, region: RegionNumber, link: LinkNumber) -> [u8; COMMAND_BYTES]
    ensures spelled { result ≡ spelling (Moved map region link) }
    ensures has_spelling { HasSpelling (Moved map region link) }
{
    let mut out = [0; COMMAND_BYTES];
    put_byte(&mut out, 0, 8);
    put_word(&mut out, 1, map);
    put_byte(&mut out, 5, region.get());
    put_byte(&mut out, 6, link.get());
    put_zeros(&mut out, 7);
    out
}

/// Writes a name's field.
fn put_name(out: &mut [u8], at: usize, name: &Name)
    requires { at + 17 ≤ length out.old }
    ensures spelled { take (at + 17) out.new ≡ take at out.old ++ name_field name.now }
    ensures name { is_name name.now ≡ true }
{
    put_padded(out, at, NAME_BYTES, name.bytes());
}

/// Writes a tuple's field.
fn put_tuple(out: &mut [u8], at: usize, tuple: &Tuple)
    requires { at + 9 ≤ length out.old }
    ensures spelled { take (at + 9) out.new ≡ take at out.old ++ tuple_field tuple.now }
    ensures tuple { is_tuple 8 tuple.now ≡ true }
{
    put_padded(out, at, TUPLE_BYTES, tuple.ids());
}
