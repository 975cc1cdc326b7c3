//! What a client's line asks for, by the words after the client.

ghost use Rattle.std.specs.Prelude.{◌≡◌};
ghost use Rattle.script_lines.specs.declared.request.Pattern.TheVariants.{Fill, Ramp};
ghost use Rattle.petal_script.specs.Client.{spread_of, filled_of, halves_of, write_by, write_of, read_of, snap_of, disk_of, move_of, client_request};

use crate::cause::Cause;
use crate::fields::{block, byte, name, version};
use crate::tuple::tuple;
use crate::words::Words;
use petal_base::{Name, Tuple};
use script_lines::{Pattern, Request};

#[tactic(auto, unfolding(crate::specs::Client::spread_of))]
fn spread(servers: u8, words: &mut Words<'_>) -> Result<(Name, Tuple), Cause>
    ensures { result ≡ spread_of servers words.old }
{
    let disk = words.front()?;
    let on = words.front()?;
    if on != b"on".as_slice() || words.is_empty() {
        return Err(Cause::BadLine);
    }
    let name = name(disk)?;
    let tuple = tuple(servers, words)?;
    Ok((name, tuple))
}

#[tactic(auto, unfolding(crate::specs::Client::disk_of))]
fn disk_request(servers: u8, words: &mut Words<'_>) -> Result<Request, Cause>
    ensures { result ≡ disk_of servers words.old }
{
    let (name, tuple) = spread(servers, words)?;
    Ok(Request::Disk { name, tuple })
}

#[tactic(auto, unfolding(crate::specs::Client::move_of))]
fn move_request(servers: u8, words: &mut Words<'_>) -> Result<Request, Cause>
    ensures { result ≡ move_of servers words.old }
{
    let (name, tuple) = spread(servers, words)?;
    Ok(Request::Move { name, tuple })
}

#[tactic(auto, unfolding(crate::specs::Client::filled_of))]
fn fill_request(disk: &[u8], place: &[u8], x: &[u8]) -> Result<Request, Cause>
    ensures { result ≡ filled_of disk.now place.now Fill x.now }
{
    let name = name(disk)?;
    let block = block(place)?;
    let pattern = Pattern::Fill(byte(x)?);
    Ok(Request::Write {
        name,
        block,
        pattern,
    })
}

#[tactic(auto, unfolding(crate::specs::Client::filled_of))]
fn ramp_request(disk: &[u8], place: &[u8], x: &[u8]) -> Result<Request, Cause>
    ensures { result ≡ filled_of disk.now place.now Ramp x.now }
{
    let name = name(disk)?;
    let block = block(place)?;
    let pattern = Pattern::Ramp(byte(x)?);
    Ok(Request::Write {
        name,
        block,
        pattern,
    })
}

#[tactic(auto, unfolding(crate::specs::Client::halves_of))]
fn halves_request(disk: &[u8], place: &[u8], x: &[u8], y: &[u8]) -> Result<Request, Cause>
    ensures { result ≡ halves_of disk.now place.now x.now y.now }
{
    let name = name(disk)?;
    let block = block(place)?;
    let pattern = Pattern::Halves(byte(x)?, byte(y)?);
    Ok(Request::Write {
        name,
        block,
        pattern,
    })
}

/// A write of the contents that the words after the block spell.
fn write_by(disk: &[u8], place: &[u8], kind: &[u8], words: &mut Words<'_>) -> Result<Request, Cause>
    ensures { result ≡ write_by disk.now place.now kind.now words.old }
{
    if kind == b"fill".as_slice() {
        fill_request(disk, place, words.one()?)
    } else if kind == b"ramp".as_slice() {
        ramp_request(disk, place, words.one()?)
    } else if kind == b"halves".as_slice() {
        let (x, y) = words.two()?;
        halves_request(disk, place, x, y)
    } else {
        Err(Cause::BadLine)
    }
}

#[tactic(auto, unfolding(crate::specs::Client::write_of))]
fn write_request(words: &mut Words<'_>) -> Result<Request, Cause>
    ensures { result ≡ write_of words.old }
{
    let disk = words.front()?;
    let place = words.front()?;
    let kind = words.front()?;
    write_by(disk, place, kind, words)
}

#[tactic(auto, unfolding(crate::specs::Client::read_of))]
fn read_request(words: &mut Words<'_>) -> Result<Request, Cause>
    ensures { result ≡ read_of words.old }
{
    let (disk, place) = words.two()?;
    let (name, snap) = version(disk)?;
    let block = block(place)?;
    Ok(Request::Read { name, snap, block })
}

#[tactic(auto, unfolding(crate::specs::Client::snap_of))]
fn snap_request(words: &mut Words<'_>) -> Result<Request, Cause>
    ensures { result ≡ snap_of words.old }
{
    let (disk, snap) = words.two()?;
    let disk = name(disk)?;
    let snap = name(snap)?;
    Ok(Request::Snap { name: disk, snap })
}

/// A request of a client, by the words after the client.
#[tactic(auto, unfolding(crate::specs::Client::client_request))]
pub(crate) fn client_request(servers: u8, words: &mut Words<'_>) -> Result<Request, Cause>
    ensures { result ≡ client_request servers words.old }
{
    let verb = words.front()?;
    if verb == b"disk".as_slice() {
        disk_request(servers, words)
    } else if verb == b"write".as_slice() {
        write_request(words)
    } else if verb == b"read".as_slice() {
        read_request(words)
    } else if verb == b"snap".as_slice() {
        snap_request(words)
    } else if verb == b"move".as_slice() {
        move_request(servers, words)
    } else {
        Err(Cause::BadLine)
    }
}
