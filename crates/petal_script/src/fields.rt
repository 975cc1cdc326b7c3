//! What single words of a line stand for, by their place.

ghost use Rattle.std.specs.Prelude.{◌≡◌, ◌<◌, IfSome, length, nat_eq};
ghost use Rattle.std.specs.List.{position};
ghost use Rattle.petal_script.specs.Fields.{a_name, a_byte, a_block, a_server, a_call, version_of, a_device, a_kind};

use crate::cause::Cause;
use crate::number::in_limits;
use device_faults::{CallKind, Which};
use petal_base::{BLOCKS, BlockNo, Name, ServerId};

/// A call that a plan names is one of the first so many.
const LAST_CALL: u64 = 1_000_000;

/// A name of a disk or snapshot.
pub fn name(word: &[u8]) -> Result<Name, Cause>
    ensures { result ≡ a_name word.now }
{
    Name::read(word).ok_or(Cause::BadName)
}

/// A byte to fill with.
pub fn byte(word: &[u8]) -> Result<u8, Cause>
    ensures { result ≡ a_byte word.now }
{
    Ok(in_limits(word, 0, 255)? as u8)
}

/// The number of a block.
pub fn block(word: &[u8]) -> Result<BlockNo, Cause>
    ensures { result ≡ a_block word.now }
{
    in_limits(word, 0, BLOCKS - 1)
}

/// The number of one of so many servers.
pub fn server(servers: u8, word: &[u8]) -> Result<ServerId, Cause>
    requires { 0 < servers }
    ensures { result ≡ a_server servers word.now }
{
    Ok(in_limits(word, 0, u64::from(servers - 1))? as u8)
}

/// Which call of a device a plan names.
pub fn call(word: &[u8]) -> Result<u32, Cause>
    ensures { result ≡ a_call word.now }
{
    Ok(in_limits(word, 1, LAST_CALL)? as u32)
}

fn at_sign(word: &[u8]) -> Option<usize>
    ensures value { result ≡ position (nat_eq 64) word.now }
    ensures bound { IfSome result (λ at. at < length word.now) }
{
    word.iter().position(|b| *b == b'@')
}

/// A disk as it is now, or as a snapshot has it.
#[tactic(auto, unfolding(crate::specs::Fields::version_of))]
pub fn version(word: &[u8]) -> Result<(Name, Option<Name>), Cause>
    ensures { result ≡ version_of word.now }
{
    match at_sign(word) {
        None => Ok((name(word)?, None)),
        Some(at) => Ok((name(&word[..at])?, Some(name(&word[at + 1..])?))),
    }
}

/// Which device of a server.
pub fn device(word: &[u8]) -> Result<Which, Cause>
    ensures { result ≡ a_device word.now }
{
    if word == b"data".as_slice() {
        Ok(Which::Data)
    } else if word == b"state".as_slice() {
        Ok(Which::State)
    } else {
        Err(Cause::BadLine)
    }
}

/// Which kind of call.
pub fn call_kind(word: &[u8]) -> Result<CallKind, Cause>
    ensures { result ≡ a_kind word.now }
{
    if word == b"read".as_slice() {
        Ok(CallKind::Read)
    } else if word == b"write".as_slice() {
        Ok(CallKind::Write)
    } else if word == b"sync".as_slice() {
        Ok(CallKind::Sync)
    } else {
        Err(Cause::BadLine)
    }
}
