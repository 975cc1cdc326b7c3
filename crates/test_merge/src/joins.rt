//! What joins the actors: records in their order, and the same with one that comes too early.

use crate::made::{answers, call, glance, letter, record, sends};
use device_faults::Which;
use history_merge::joined;
use petal_base::{OPERATOR, Stamp};
use petal_msg::{Actor, Body};
use petal_script::read_script;
use server_host::are_in_order;
use spec_history::Record;
use spec_rules::{Step, WorkEnd};
use std::alloc::Global;
use std::test::Fail;

fn is_joined(alloc: Global, text: &str, records: &[Record]) -> Result<bool, Fail> {
    let script = read_script(alloc, text.as_bytes())?;
    if !are_in_order(script.lines.as_slice()) {
        return Err(Fail::new("the lines are in no order"));
    }
    Ok(joined(alloc, &script, records)?)
}

const TWO_PHASES: &str = "servers 2 slots 4\na disk vol on 0 1\nwait\nb read vol 5\n";

#[test]
fn a_call_awaits_the_answers_of_the_phases_before(rt: HostRuntime) -> Result<(), Fail> {
    let alloc = rt.alloc();
    let after = [
        call(alloc, 0, 1, 2, 0),
        answers(alloc, 0, 2, 2),
        call(alloc, 1, 3, 4, 1),
    ];
    assert!(rt; is_joined(alloc, TWO_PHASES, &after)?);
    let before = [
        call(alloc, 0, 1, 2, 0),
        call(alloc, 1, 2, 4, 1),
        answers(alloc, 0, 3, 2),
    ];
    assert!(rt; !is_joined(alloc, TWO_PHASES, &before)?);
    Ok(())
}

const ONE_STOP: &str = "servers 3 slots 4\nop stop 1\n";

#[test]
fn a_stop_comes_after_the_call_of_its_line(rt: HostRuntime) -> Result<(), Fail> {
    let alloc = rt.alloc();
    let after = [
        call(alloc, OPERATOR, 1, 2, 0),
        record(alloc, Actor::Server(1), 2, Step::Stop),
        glance(alloc, 1, 3, 2, 0, false)?,
    ];
    assert!(rt; is_joined(alloc, ONE_STOP, &after)?);
    let before = [
        record(alloc, Actor::Server(1), 1, Step::Stop),
        call(alloc, OPERATOR, 2, 2, 0),
        glance(alloc, 1, 3, 2, 0, false)?,
    ];
    assert!(rt; !is_joined(alloc, ONE_STOP, &before)?);
    let other = [
        call(alloc, OPERATOR, 1, 2, 0),
        record(alloc, Actor::Server(0), 2, Step::Stop),
    ];
    assert!(rt; !is_joined(alloc, ONE_STOP, &other)?);
    Ok(())
}

#[test]
fn a_server_takes_no_step_between_its_stop_and_its_glance(rt: HostRuntime) -> Result<(), Fail> {
    let alloc = rt.alloc();
    let ticks = [
        call(alloc, OPERATOR, 1, 2, 0),
        record(alloc, Actor::Server(1), 2, Step::Tick),
        record(alloc, Actor::Server(1), 3, Step::Stop),
        record(alloc, Actor::Server(0), 4, Step::Tick),
        glance(alloc, 1, 5, 2, 0, false)?,
    ];
    assert!(rt; is_joined(alloc, ONE_STOP, &ticks)?);
    let between = [
        call(alloc, OPERATOR, 1, 2, 0),
        record(alloc, Actor::Server(1), 2, Step::Stop),
        record(alloc, Actor::Server(1), 3, Step::Tick),
        glance(alloc, 1, 4, 2, 0, false)?,
    ];
    assert!(rt; !is_joined(alloc, ONE_STOP, &between)?);
    Ok(())
}

const ONE_START: &str = "servers 3 slots 4\nop start 1\n";

fn disarms(alloc: Global, stamp: Stamp, which: Which) -> Record {
    record(
        alloc,
        Actor::Server(1),
        stamp,
        Step::Arm { which, plan: None },
    )
}

fn boots(alloc: Global, stamp: Stamp) -> Record {
    record(alloc, Actor::Server(1), stamp, Step::Boot(WorkEnd::Done))
}

#[test]
fn a_start_gives_its_steps_in_order(rt: HostRuntime) -> Result<(), Fail> {
    let alloc = rt.alloc();
    let in_order = [
        call(alloc, OPERATOR, 1, 2, 0),
        disarms(alloc, 2, Which::Data),
        disarms(alloc, 3, Which::State),
        boots(alloc, 4),
        glance(alloc, 1, 5, 2, 0, true)?,
    ];
    assert!(rt; is_joined(alloc, ONE_START, &in_order)?);
    let too_early = [
        call(alloc, OPERATOR, 1, 2, 0),
        disarms(alloc, 2, Which::Data),
        boots(alloc, 3),
        disarms(alloc, 4, Which::State),
        glance(alloc, 1, 5, 2, 0, true)?,
    ];
    assert!(rt; !is_joined(alloc, ONE_START, &too_early)?);
    Ok(())
}

const TWO_SETTLES: &str = "servers 3 slots 4\nop settle\nop settle\n";

#[test]
fn a_settle_is_glanced_at_once_it_is_called(rt: HostRuntime) -> Result<(), Fail> {
    let alloc = rt.alloc();
    let called = [
        call(alloc, OPERATOR, 1, 2, 0),
        glance(alloc, 0, 2, 2, 1, true)?,
        answers(alloc, OPERATOR, 3, 2),
        call(alloc, OPERATOR, 4, 3, 0),
        glance(alloc, 0, 5, 3, 1, true)?,
        glance(alloc, 1, 6, 2, 1, true)?,
    ];
    assert!(rt; is_joined(alloc, TWO_SETTLES, &called)?);
    let uncalled = [
        call(alloc, OPERATOR, 1, 2, 0),
        glance(alloc, 0, 2, 3, 1, true)?,
    ];
    assert!(rt; !is_joined(alloc, TWO_SETTLES, &uncalled)?);
    let no_settle = [
        call(alloc, OPERATOR, 1, 2, 0),
        glance(alloc, 0, 2, 2, 1, true)?,
    ];
    assert!(rt; !is_joined(alloc, ONE_STOP, &no_settle)?);
    Ok(())
}

#[test]
fn a_letter_comes_after_it_was_sent(rt: HostRuntime) -> Result<(), Fail> {
    let alloc = rt.alloc();
    let (one, other) = (Actor::Server(0), Actor::Server(1));
    let ask = letter(alloc, one, other, 1, Body::Ask { rev: 0 })?;
    let comes = Step::Deliver {
        letter: ask.share()?,
    };
    let sent = [
        sends(alloc, one, 1, Step::Tick, ask)?,
        record(alloc, other, 2, comes),
    ];
    assert!(rt; is_joined(alloc, ONE_STOP, &sent)?);
    let unsent = [
        record(alloc, one, 1, Step::Tick),
        record(
            alloc,
            other,
            2,
            Step::Deliver {
                letter: letter(alloc, one, other, 1, Body::Ask { rev: 0 })?,
            },
        ),
    ];
    assert!(rt; !is_joined(alloc, ONE_STOP, &unsent)?);
    Ok(())
}
