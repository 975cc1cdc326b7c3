//! A seat takes letters, ticks, jobs and the operator's lines.

ghost use Rattle.std.specs.Prelude.{◌≡◌};

use crate::desks::{are, first_desk};
use crate::letters::{ask, is_news, line, shows};
use memory_server::MemServer;
use script_lines::Request;
use server_loop::{Run, ServerDesk};
use std::alloc::Global;
use std::marker::Brand;
use std::sync::Wait;
use std::test::Fail;

// Whether the server is shown to run, or not, once it has obeyed the line.
fn obeys<J: Run, R: Wait>(
    rt: &R,
    alloc: Global,
    desk: &ServerDesk<MemServer, J>,
    number: u32,
    request: Request,
    runs: bool,
) -> Result<bool, Fail> {
    let letters = desk.control(rt, alloc, &line(number, request), 100)?;
    Ok(shows(letters.as_slice(), runs))
}

// A letter comes, and is answered.
fn answers<J: Run, R: Wait>(
    rt: &R,
    alloc: Global,
    desk: &ServerDesk<MemServer, J>,
) -> Result<bool, Fail> {
    desk.deliver(rt, alloc, &ask(alloc, 0, 7)?)?;
    let letters = desk.work(rt, alloc)?;
    match letters.as_slice().first() {
        None => Ok(false),
        Some(letter) => Ok(is_news(letter)),
    }
}

fn records_of<J: Run>(desk: ServerDesk<MemServer, J>, steps: &[u8]) -> bool {
    are(desk.into_seat().into_records().as_slice(), steps)
}

fn answers_and_ticks<J: Run, R: Wait>(rt: &R, alloc: Global) -> Result<bool, Fail>
    requires servers { J.script.servers ≡ 2 }
    requires slots { J.script.slots ≡ 8 }
{
    let desk = first_desk::<J>(alloc)?;
    let answered = answers(rt, alloc, &desk)?;
    for _ in 0..4 {
        desk.try_tick(alloc)?;
    }
    Ok(answered && records_of(desk, b"dwtt"))
}

#[test]
fn a_letter_is_answered_and_ticks_are_passed_on(rt: HostRuntime) -> Result<(), Fail> {
    assert!(&rt; answers_and_ticks::<Brand, _>(&rt, rt.alloc())?);
    Ok(())
}

fn obeys_lines<J: Run, R: Wait>(rt: &R, alloc: Global) -> Result<bool, Fail>
    requires servers { J.script.servers ≡ 2 }
    requires slots { J.script.slots ≡ 8 }
{
    let desk = first_desk::<J>(alloc)?;
    let stopped = obeys(rt, alloc, &desk, 1, Request::Stop { server: 0 }, false)?;
    let started = obeys(rt, alloc, &desk, 2, Request::Start { server: 0 }, true)?;
    let blanked = obeys(rt, alloc, &desk, 3, Request::Blank { server: 0 }, true)?;
    let other = obeys(rt, alloc, &desk, 4, Request::Stop { server: 1 }, false)?;
    let settled = desk.glance(rt, alloc, 5, 1, 200)?;
    let seen = shows(settled.as_slice(), true);
    Ok(stopped && started && blanked && !other && seen && records_of(desk, b"sgaaBgsbaaBgg"))
}

#[test]
fn the_operators_lines_are_obeyed(rt: HostRuntime) -> Result<(), Fail> {
    assert!(&rt; obeys_lines::<Brand, _>(&rt, rt.alloc())?);
    Ok(())
}
