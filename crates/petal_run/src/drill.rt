//! A drill: the script that is drawn from two numbers is played, and one line tells what its answers came to.

ghost use Rattle.std.specs.Prelude.{◌≡◌, ◌≤◌, ◌<◌, ◌⊎◌, ◌++◌, [], length, true, string_bytes, IfOk, OnOk, IsSome, Ok};
ghost use Rattle.byte_streams.specs.Streams.{Adds};
ghost use Rattle.petal_drill.specs.Summary.{counts_of, summary};
ghost use Rattle.plain_schedule.specs.Phases.{records_of};
ghost use Rattle.server_host.specs.Playable.{AreOrdered};
ghost use Rattle.spec_history.specs.Order.{AreRising, all_answered};
ghost use Rattle.spec_history.specs.Sound.{IsSound};
ghost use Rattle.spec_history.specs.Text.{answers_of};
ghost use Rattle.petal_run.specs.Asked.{Drill, drilled};
ghost use Rattle.petal_run.specs.Said.{Done, DoneInPart, EndsWithPhase, WrittenInPhase};
ghost use Rattle.petal_run.specs.Statuses.{status_ended, status_refused, status_gave_up, status_sink_failed};

use crate::laws::{lines_are_few, lines_rise, nothing_is_a_part, phases_rise};
use crate::outcome::{ENDED, GAVE_UP, Outcome, SINK_FAILED};
use crate::script::{cause_of, given_up};
use byte_streams::{Sink, write_all};
use law_answers::phases_come_one_after_the_other;
use law_run::{every_history_keeps_the_law, read_scripts_are_sound};
use petal_base::NoMemory;
use petal_drill::{Counts, drill_script, summary_text};
use petal_script::{Line, Script, ScriptError};
use plain_schedule::{Answers, GaveUp, Playing};
use std::alloc::Global;
use std::sync::Wait;

/// What the answers to these lines came to.
fn count_answers(lines: &[Line], answers: &Answers) -> Counts
    requires few { length lines.now ≤ 1024 }
    ensures { result ≡ counts_of lines.now answers.now }
{
    let mut counts = Counts::new();
    for line in lines {
        if let Some(answer) = answers.get(line.number) {
            counts.add(&line.request, answer);
        }
    }
    counts
}

/// The line that tells what the answers of a drill came to.
fn summary_of(alloc: Global, seed: u32, count: u32, playing: &Playing) -> Result<String, NoMemory>
    requires few { length playing.now.script.lines ≤ 1024 }
    ensures { IfOk result (λ text. string_bytes text ≡ summary seed count playing.now.script.lines (answers_of (records_of playing.now))) }
{
    let answers = playing.answers(alloc)?;
    let lines = playing.script().lines.as_slice();
    let counts = count_answers(lines, &answers);
    summary_text(alloc, seed, count, lines, &counts)
}

/// Plays all phases, and writes nothing.
fn play_to_end<R: Wait>(rt: &R, alloc: Global, playing: &mut Playing) -> Result<(), GaveUp>
    requires begins { playing.old.since ≡ [] }
    ensures script { playing.new.script ≡ playing.old.script }
    ensures whole { OnOk result (all_answered (answers_of (records_of playing.new)) playing.new.script.lines ≡ true) }
{
    for _ in rt.forever() {
        if playing.play_phase(rt, alloc)?.is_none() {
            break;
        }
    }
    Ok(())
}

/// Plays all phases and then writes what their answers came to. Gives the status with which the drill ends.
fn play_and_sum_up<R: Wait, W: Sink>(
    rt: &R,
    alloc: Global,
    seed: u32,
    count: u32,
    playing: &mut Playing,
    sink: &mut W,
) -> u8
    requires begins { playing.old.since ≡ [] }
    requires few { length playing.old.script.lines ≤ 1024 }
    ensures script { playing.new.script ≡ playing.old.script }
    ensures known { (result ≡ status_ended) ⊎ (result ≡ status_gave_up) ⊎ (result ≡ status_sink_failed) }
    ensures whole { (result ≡ status_gave_up → ⊥) → all_answered (answers_of (records_of playing.new)) playing.new.script.lines ≡ true }
    ensures all { W.observable → result ≡ status_ended
        → W.taken sink.new ≡ W.taken sink.old ++ summary seed count playing.new.script.lines (answers_of (records_of playing.new)) }
    ensures prefix { W.observable → result ≡ status_sink_failed
        → Adds (W.taken sink.old) (summary seed count playing.new.script.lines (answers_of (records_of playing.new))) (W.taken sink.new) }
    ensures nothing { result ≡ status_gave_up → sink.new ≡ sink.old }
    ensures failed { result ≡ status_sink_failed → W.faults sink.old < W.faults sink.new }
    ensures later { W.faults sink.old ≤ W.faults sink.new }
{
    if play_to_end(rt, alloc, playing).is_err() {
        return GAVE_UP;
    }
    let Ok(text) = summary_of(alloc, seed, count, playing) else {
        return GAVE_UP;
    };
    match write_all(sink, text.as_bytes()) {
        Ok(()) => ENDED,
        Err(_) => SINK_FAILED,
    }
}

/// Plays the script of a drill.
fn play_drill<R: Wait, W: Sink>(
    rt: &R,
    alloc: Global,
    seed: u32,
    count: u32,
    script: Script,
    sink: &mut W,
) -> Outcome
    requires sound { IsSound script }
    requires ordered { AreOrdered script.lines }
    requires rising { AreRising script.lines }
    requires few { length script.lines ≤ 1024 }
    ensures known { (result.status ≡ status_ended) ⊎ (result.status ≡ status_gave_up) ⊎ (result.status ≡ status_sink_failed) }
    ensures done { W.observable → result.status ≡ status_ended
        → Done (Drill seed count (Ok script)) result.status result.history.records [] (W.taken sink.old) (W.taken sink.new) }
    ensures in_part { W.observable → (result.status ≡ status_gave_up) ⊎ (result.status ≡ status_sink_failed)
        → DoneInPart (Drill seed count (Ok script)) result.history.records (W.taken sink.old) (W.taken sink.new) }
    ensures whole_phase { result.status ≡ status_sink_failed → EndsWithPhase (Drill seed count (Ok script)) result.history.records }
    ensures last_phase { W.observable → result.status ≡ status_sink_failed
        → WrittenInPhase (Drill seed count (Ok script)) result.history.records (W.taken sink.old) (W.taken sink.new) }
    ensures nothing { result.status ≡ status_gave_up → sink.new ≡ sink.old }
    ensures given_up { result.status ≡ status_gave_up → IsSome result.gave_up }
    ensures gave_up { IsSome result.gave_up → result.status ≡ status_gave_up }
    ensures failed { result.status ≡ status_sink_failed → W.faults sink.old < W.faults sink.new }
    ensures later { W.faults sink.old ≤ W.faults sink.new }
{
    every_history_keeps_the_law();
    phases_come_one_after_the_other();
    match Playing::start(alloc, script) {
        Ok(mut playing) => {
            let status = play_and_sum_up(rt, alloc, seed, count, &mut playing, sink);
            Outcome {
                status,
                gave_up: cause_of(status, &playing),
                history: playing.into_history(),
            }
        }
        Err(cause) => given_up(alloc, cause),
    }
}

/// Makes the script of a drill, plays it and writes what its answers came to.
pub(crate) fn run_drill<R: Wait, W: Sink>(
    rt: &R,
    alloc: Global,
    seed: u32,
    count: u32,
    sink: &mut W,
) -> Outcome
    requires seed { seed ≤ 2147483647 }
    requires count { count ≤ 800 }
    ensures known { (result.status ≡ status_ended) ⊎ (result.status ≡ status_gave_up) ⊎ (result.status ≡ status_sink_failed) }
    ensures done { W.observable → result.status ≤ status_refused
        → Done (drilled seed count) result.status result.history.records [] (W.taken sink.old) (W.taken sink.new) }
    ensures in_part { W.observable → (result.status ≡ status_gave_up) ⊎ (result.status ≡ status_sink_failed)
        → DoneInPart (drilled seed count) result.history.records (W.taken sink.old) (W.taken sink.new) }
    ensures whole_phase { result.status ≡ status_sink_failed → EndsWithPhase (drilled seed count) result.history.records }
    ensures last_phase { W.observable → result.status ≡ status_sink_failed
        → WrittenInPhase (drilled seed count) result.history.records (W.taken sink.old) (W.taken sink.new) }
    ensures nothing { result.status ≡ status_gave_up → sink.new ≡ sink.old }
    ensures given_up { result.status ≡ status_gave_up → IsSome result.gave_up }
    ensures gave_up { IsSome result.gave_up → result.status ≡ status_gave_up }
    ensures failed { result.status ≡ status_sink_failed → W.faults sink.old < W.faults sink.new }
    ensures later { W.faults sink.old ≤ W.faults sink.new }
{
    read_scripts_are_sound();
    phases_rise();
    lines_rise();
    lines_are_few();
    nothing_is_a_part();
    match drill_script(alloc, seed, count) {
        Ok(script) => play_drill(rt, alloc, seed, count, script, sink),
        Err(ScriptError::NoMemory) => given_up(alloc, GaveUp::NoMemory),
        // never seen: its lines are in order
        Err(ScriptError::Refused { .. }) => given_up(alloc, GaveUp::Unexpected),
    }
}
