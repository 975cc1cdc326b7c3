//! Reading a script line by line.

ghost use Rattle.std.specs.Prelude.{◌≡◌, ℕ, ◌≤◌, ◌<◌, ◌+◌, ◌-◌, ◌^◌, length, OnOk, IfOk, IfSome, Option, Some, None};
ghost use Rattle.std.specs.List.{list_all};
ghost use Rattle.std.specs.Char.{is_ascii};
ghost use Rattle.petal_script.specs.Text.{without_end};
ghost use Rattle.petal_script.specs.Script.{is_comment, is_skipped, client_of, later_line, first_line, line_verdict, script_of, longest_script};
ghost use Rattle.petal_script.specs.Told.{AddsTo, Tells, Reads};

use crate::cause::Cause;
use crate::client::client_request;
use crate::draft::Draft;
use crate::error::{LineError, ScriptError};
use crate::operator::operator_request;
use crate::text;
use crate::words::Words;
use petal_base::{ClientId, OPERATOR};
use script_lines::Script;
use std::alloc::Global;

/// A line's greatest length, its end not counted.
const LINE_BYTES: usize = 256;

/// A script's greatest length, the ends of its lines counted.
pub const SCRIPT_BYTES: usize = 1_048_576;

fn is_ascii(text: &[u8]) -> bool
    ensures { result ≡ list_all is_ascii text.now }
{
    text.iter().all(|b| b.is_ascii())
}

fn is_comment(text: &[u8]) -> bool
    ensures { result ≡ is_comment text.now }
{
    !text.is_empty() && text[0] == b'#'
}

/// Comments and lines without words are skipped.
fn is_skipped(text: &[u8]) -> bool
    ensures { result ≡ is_skipped text.now }
{
    is_comment(text) || Words::of(text).is_empty()
}

/// The number of a client, `a` to `h`.
fn client(word: &[u8]) -> Result<ClientId, Cause>
    ensures { result ≡ client_of word.now }
{
    if word.len() == 1 && b'a' <= word[0] && word[0] <= b'h' {
        Ok(word[0] - b'a')
    } else {
        Err(Cause::BadLine)
    }
}

/// The first line that counts.
#[tactic(auto, unfolding(crate::specs::Script::first_line))]
fn first_line(alloc: Global, words: &mut Words<'_>) -> Result<Draft, Cause>
    ensures rule { result ≡ first_line words.old }
    ensures phases { IfOk result (λ s. s.phases ≡ 1) }
{
    match words.next() {
        Some(first) if first == b"servers".as_slice() => Draft::begin(alloc, words),
        _ => Err(Cause::NoServersLine),
    }
}

/// A line that counts after the servers line. After an `Err` nothing is said of the draft.
#[tactic(auto, unfolding(crate::specs::Script::later_line))]
fn later_line(draft: &mut Draft, number: u32, words: &mut Words<'_>) -> Result<(), LineError>
    requires { draft.old.phases + 1 < 2 ^ 32 }
    ensures rule { AddsTo result draft.new (later_line draft.old number words.old) }
    ensures phases { draft.new.phases ≤ draft.old.phases + 1 }
{
    let first = words.front()?;
    if first == b"servers".as_slice() {
        return Err(LineError::Bad(Cause::BadLine));
    }
    if first == b"net".as_slice() {
        draft.net(words)?;
        return Ok(());
    }
    if first == b"wait".as_slice() {
        words.none()?;
        draft.end_phase();
        return Ok(());
    }
    if first == b"op".as_slice() {
        let request = operator_request(draft.servers(), words)?;
        return draft.add(number, OPERATOR, request);
    }
    let client = client(first)?;
    let request = client_request(draft.servers(), words)?;
    draft.add(number, client, request)
}

/// The draft after a line. There is none before the servers line.
#[tactic(auto, unfolding(crate::specs::Script::line_verdict))]
fn line(
    alloc: Global,
    before: Option<Draft>,
    number: u32,
    line: &[u8],
    reach: usize,
) -> Result<Option<Draft>, LineError>
    requires { IfSome before (λ s. s.phases + 1 < 2 ^ 32) }
    ensures rule { Tells result (line_verdict before (record { number = number; text = without_end line.now; reach = reach })) }
    ensures reach { OnOk result (reach ≤ longest_script) }
    ensures phases { (n : ℕ) → IfSome before (λ s. s.phases ≤ n) → IfOk result (λ after. IfSome after (λ t. t.phases ≤ n + 1)) }
{
    let text = text::without_end(line);
    if !is_ascii(text) {
        return Err(LineError::Bad(Cause::NotAscii));
    }
    if text.len() > LINE_BYTES || reach > SCRIPT_BYTES {
        return Err(LineError::Bad(Cause::TooLong));
    }
    if is_skipped(text) {
        return Ok(before);
    }
    let mut words = Words::of(text);
    match before {
        None => Ok(Some(first_line(alloc, &mut words)?)),
        Some(mut draft) => {
            later_line(&mut draft, number, &mut words)?;
            Ok(Some(draft))
        }
    }
}

/// The script that the bytes are, or their first refused line and what is first wrong with it.
pub fn read_script(alloc: Global, bytes: &[u8]) -> Result<Script, ScriptError>
    ensures { Reads result (script_of bytes.now) }
{
    let mut draft: Option<Draft> = None;
    let mut rest = bytes;
    let mut number: u32 = 0;
    while !rest.is_empty() {
        let (piece, after) = text::first_line(rest);
        number += 1;
        match line(alloc, draft, number, piece, bytes.len() - after.len()) {
            Ok(next) => draft = next,
            Err(LineError::NoMemory) => return Err(ScriptError::NoMemory),
            Err(LineError::Bad(cause)) => {
                return Err(ScriptError::Refused {
                    line: number,
                    cause,
                });
            }
        }
        rest = after;
    }
    match draft {
        Some(draft) => Ok(draft.into_script()),
        None => Err(ScriptError::Refused {
            line: 1,
            cause: Cause::NoServersLine,
        }),
    }
}
