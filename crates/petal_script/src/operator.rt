//! What the operator's line asks for, by the words after `op`.

ghost use Rattle.std.specs.Prelude.{◌≡◌, ◌<◌};
ghost use Rattle.petal_script.specs.Operator.{stop_at, stop_of, fault_of, operator_request};

use crate::cause::Cause;
use crate::fields::{call, call_kind, device, server};
use crate::words::Words;
use script_lines::Request;

/// A server stops in a later call of its data device: the server, `at`, and which call.
#[tactic(auto, unfolding(crate::specs::Operator::stop_at))]
fn stop_at(servers: u8, stopped: &[u8], at: &[u8], count: &[u8]) -> Result<Request, Cause>
    requires { 0 < servers }
    ensures { result ≡ stop_at servers stopped.now (at.now, count.now) }
{
    if at == b"at".as_slice() {
        let server = server(servers, stopped)?;
        let at = call(count)?;
        Ok(Request::StopAt { server, at })
    } else {
        Err(Cause::BadLine)
    }
}

#[tactic(auto, unfolding(crate::specs::Operator::stop_of))]
fn stop_request(servers: u8, words: &mut Words<'_>) -> Result<Request, Cause>
    requires { 0 < servers }
    ensures { result ≡ stop_of servers words.old }
{
    let stopped = words.front()?;
    if words.is_empty() {
        let server = server(servers, stopped)?;
        return Ok(Request::Stop { server });
    }
    let (at, count) = words.two()?;
    stop_at(servers, stopped, at, count)
}

#[tactic(auto, unfolding(crate::specs::Operator::fault_of))]
fn fault_request(servers: u8, words: &mut Words<'_>) -> Result<Request, Cause>
    requires { 0 < servers }
    ensures { result ≡ fault_of servers words.old }
{
    let (faulty, which, kind, count) = words.four()?;
    let which = device(which)?;
    let kind = call_kind(kind)?;
    let server = server(servers, faulty)?;
    let at = call(count)?;
    Ok(Request::Fault {
        server,
        which,
        kind,
        at,
    })
}

/// A request of the operator, by the words after `op`.
#[tactic(auto, unfolding(crate::specs::Operator::operator_request, crate::specs::Operator::boot_of))]
pub(crate) fn operator_request(servers: u8, words: &mut Words<'_>) -> Result<Request, Cause>
    requires { 0 < servers }
    ensures { result ≡ operator_request servers words.old }
{
    let verb = words.front()?;
    if verb == b"stop".as_slice() {
        stop_request(servers, words)
    } else if verb == b"start".as_slice() {
        let server = server(servers, words.one()?)?;
        Ok(Request::Start { server })
    } else if verb == b"blank".as_slice() {
        let server = server(servers, words.one()?)?;
        Ok(Request::Blank { server })
    } else if verb == b"fault".as_slice() {
        fault_request(servers, words)
    } else if verb == b"settle".as_slice() {
        words.none()?;
        Ok(Request::Settle)
    } else {
        Err(Cause::BadLine)
    }
}
