//! A script that was read and is played, with the answers of each phase written at its end; a text that is no script is refused.

ghost use Rattle.std.specs.Prelude.{◌≡◌, ◌≤◌, ◌<◌, ◌⊎◌, ◌++◌, ℕ, List, [], length, true, IfOk, OnOk, IsErrOf, IfSome, IsSome, Some, None};
ghost use Rattle.spec_history.specs.Order.{AreRising, all_answered};
ghost use Rattle.byte_streams.specs.Streams.{Adds};
ghost use Rattle.script_lines.specs.Printed.{refusal_line};
ghost use Rattle.petal_script.specs.Script.{script_of, longest_script};
ghost use Rattle.spec_history.specs.Sound.{IsSound};
ghost use Rattle.spec_history.specs.Text.{answers_of, text_of};
ghost use Rattle.plain_schedule.specs.Phases.{GoesByPhases, records_of};
ghost use Rattle.petal_run.specs.Asked.{Play, by_text};
ghost use Rattle.server_host.specs.Playable.{AreOrdered};
ghost use Rattle.petal_run.specs.Said.{Done, DoneInPart, EndsWithPhase, WrittenByPhases, WrittenInPhase, WroteInPhase, WrotePhases};
ghost use Rattle.petal_run.specs.Statuses.{status_ended, status_refused, status_gave_up, status_sink_failed};
ghost use Rattle.petal_run.specs.Written.{Wrote, text_of_answers};
ghost use Rattle.device_faults.specs.declared.failure.DeviceError.TheVariants as error;

use crate::laws::{lines_rise, nothing_is_a_part, phases_rise};
use crate::outcome::{ENDED, GAVE_UP, Outcome, REFUSED, SINK_FAILED};
use crate::text::{answers_text, refusal_text};
use byte_streams::{Sink, write_all};
use law_answers::phases_come_one_after_the_other;
use law_run::{every_history_keeps_the_law, read_scripts_are_sound};
use law_script::lines_are_the_text;
use petal_base::{NoMemory, Sequence};
use petal_disk::DeviceError;
use petal_script::{Script, ScriptError, read_script};
use plain_schedule::{Answers, GaveUp, Playing};
use spec_history::History;
use std::alloc::Global;
use std::sync::Wait;

fn no_history(alloc: Global) -> History
    ensures { result.records ≡ [] }
{
    History {
        records: Sequence::new(alloc),
    }
}

/// An end without a step.
pub(crate) fn without_history(alloc: Global, status: u8) -> Outcome
    ensures status { result.status ≡ status }
    ensures history { result.history.records ≡ [] }
    ensures gave_up { result.gave_up ≡ None }
{
    Outcome {
        status,
        gave_up: None,
        history: no_history(alloc),
    }
}

/// A run that is given up before its first step.
pub(crate) fn given_up(alloc: Global, cause: GaveUp) -> Outcome
    ensures status { result.status ≡ status_gave_up }
    ensures history { result.history.records ≡ [] }
    ensures gave_up { result.gave_up ≡ Some cause }
{
    Outcome {
        status: GAVE_UP,
        gave_up: Some(cause),
        history: no_history(alloc),
    }
}

/// Writes these bytes and ends with the status, or with that of a sink that failed.
pub(crate) fn say<W: Sink>(alloc: Global, sink: &mut W, bytes: &[u8], status: u8) -> Outcome
    requires { status ≤ status_refused }
    ensures known { (result.status ≡ status) ⊎ (result.status ≡ status_sink_failed) }
    ensures goes_on { result.gave_up ≡ None }
    ensures history { result.history.records ≡ [] }
    ensures all { W.observable → result.status ≡ status → W.taken sink.new ≡ W.taken sink.old ++ bytes.now }
    ensures prefix { W.observable → Adds (W.taken sink.old) bytes.now (W.taken sink.new) }
    ensures failed { result.status ≡ status_sink_failed → W.faults sink.old < W.faults sink.new }
    ensures later { W.faults sink.old ≤ W.faults sink.new }
{
    match write_all(sink, bytes) {
        Ok(()) => without_history(alloc, status),
        Err(_) => without_history(alloc, SINK_FAILED),
    }
}

/// Refuses a line of the script.
fn refuse<W: Sink>(alloc: Global, sink: &mut W, line: u32, cause: &str) -> Outcome
    ensures known { (result.status ≡ status_refused) ⊎ (result.status ≡ status_gave_up) ⊎ (result.status ≡ status_sink_failed) }
    ensures history { result.history.records ≡ [] }
    ensures all { W.observable → result.status ≡ status_refused → W.taken sink.new ≡ W.taken sink.old ++ refusal_line line cause.now }
    ensures prefix { W.observable → Adds (W.taken sink.old) (refusal_line line cause.now) (W.taken sink.new) }
    ensures nothing { result.status ≡ status_gave_up → sink.new ≡ sink.old }
    ensures given_up { result.status ≡ status_gave_up → IsSome result.gave_up }
    ensures gave_up { IsSome result.gave_up → result.status ≡ status_gave_up }
    ensures failed { result.status ≡ status_sink_failed → W.faults sink.old < W.faults sink.new }
    ensures later { W.faults sink.old ≤ W.faults sink.new }
{
    match refusal_text(alloc, line, cause) {
        Ok(text) => say(alloc, sink, &text, REFUSED),
        Err(NoMemory) => given_up(alloc, GaveUp::NoMemory),
    }
}

/// Writes the answers of a phase.
fn tell<W: Sink>(alloc: Global, sink: &mut W, answers: Answers) -> Result<(), DeviceError>
    ensures all { OnOk result (W.observable → W.taken sink.new ≡ W.taken sink.old ++ text_of_answers answers) }
    ensures prefix { IsErrOf result error.Failed → W.observable → Adds (W.taken sink.old) (text_of_answers answers) (W.taken sink.new) }
    ensures nothing { IsErrOf result error.NoMemory → sink.new ≡ sink.old }
    ensures failed { IsErrOf result error.Failed → W.faults sink.old < W.faults sink.new }
    ensures later { W.faults sink.old ≤ W.faults sink.new }
{
    let text = answers_text(alloc, answers)?;
    write_all(sink, &text)?;
    Ok(())
}

/// Plays the next phase and writes its answers. Gives the status with which the run ends, and None where it goes on. The text
/// of the phases that have ended stands written, after some bytes.
fn play_and_tell<R: Wait, W: Sink>(
    rt: &R,
    alloc: Global,
    playing: &mut Playing,
    sink: &mut W,
) -> Option<u8>
    requires rising { AreRising playing.old.script.lines }
    requires by_phases { GoesByPhases playing.old }
    requires since { playing.old.since ≡ [] }
    ensures script { playing.new.script ≡ playing.old.script }
    ensures by_phases { GoesByPhases playing.new }
    ensures known { IfSome result (λ status. (status ≡ status_ended) ⊎ (status ≡ status_gave_up) ⊎ (status ≡ status_sink_failed)) }
    ensures since { (result ≡ Some status_gave_up → ⊥) → playing.new.since ≡ [] }
    ensures whole { result ≡ Some status_ended → all_answered (answers_of playing.new.ended) playing.new.script.lines ≡ true }
    ensures goes_on { W.observable → (base : List ℕ) → result ≡ None → Wrote base playing.old.ended (W.taken sink.old)
        → Wrote base playing.new.ended (W.taken sink.new) }
    ensures all { W.observable → (base : List ℕ) → result ≡ Some status_ended → Wrote base playing.old.ended (W.taken sink.old)
        → Wrote base playing.new.ended (W.taken sink.new) }
    ensures phases { W.observable → (base : List ℕ) → result ≡ Some status_gave_up → Wrote base playing.old.ended (W.taken sink.old)
        → WrotePhases playing.new.script (records_of playing.new) base (W.taken sink.new) }
    ensures last { W.observable → (base : List ℕ) → result ≡ Some status_sink_failed → Wrote base playing.old.ended (W.taken sink.old)
        → WroteInPhase playing.new.script (records_of playing.new) base (W.taken sink.new) }
    ensures failed { result ≡ Some status_sink_failed → W.faults sink.old < W.faults sink.new }
    ensures later { W.faults sink.old ≤ W.faults sink.new }
{
    phases_come_one_after_the_other();
    match playing.play_phase(rt, alloc) {
        Ok(None) => Some(ENDED),
        Ok(Some(answers)) => match tell(alloc, sink, answers) {
            Ok(()) => None,
            Err(DeviceError::Failed) => Some(SINK_FAILED),
            Err(DeviceError::NoMemory) => Some(GAVE_UP),
        },
        Err(_) => Some(GAVE_UP),
    }
}

/// Plays all phases, and writes the answers of each at its end. Gives the status with which the run ends.
fn play_phases<R: Wait, W: Sink>(rt: &R, alloc: Global, playing: &mut Playing, sink: &mut W) -> u8
    requires rising { AreRising playing.old.script.lines }
    requires by_phases { GoesByPhases playing.old }
    requires begins { (playing.old.ended ≡ []) × (playing.old.since ≡ []) }
    ensures script { playing.new.script ≡ playing.old.script }
    ensures by_phases { GoesByPhases playing.new }
    ensures known { (result ≡ status_ended) ⊎ (result ≡ status_gave_up) ⊎ (result ≡ status_sink_failed) }
    ensures since { (result ≡ status_gave_up → ⊥) → playing.new.since ≡ [] }
    ensures whole { result ≡ status_ended → all_answered (answers_of playing.new.ended) playing.new.script.lines ≡ true }
    ensures all { W.observable → result ≡ status_ended → Wrote (W.taken sink.old) playing.new.ended (W.taken sink.new) }
    ensures phases { W.observable → result ≡ status_gave_up → WrotePhases playing.new.script (records_of playing.new) (W.taken sink.old) (W.taken sink.new) }
    ensures last { W.observable → result ≡ status_sink_failed → WroteInPhase playing.new.script (records_of playing.new) (W.taken sink.old) (W.taken sink.new) }
    ensures failed { result ≡ status_sink_failed → W.faults sink.old < W.faults sink.new }
    ensures later { W.faults sink.old ≤ W.faults sink.new }
{
    let mut ended = ENDED;
    for _ in rt.forever() {
        if let Some(status) = play_and_tell(rt, alloc, playing, sink) {
            ended = status;
            break;
        }
    }
    ended
}

/// Why a play that ended with this status was given up, where it was. It was by its script's steps, or there was no memory for the text of
/// its answers.
pub(crate) fn cause_of(status: u8, playing: &Playing) -> Option<GaveUp>
    ensures given_up { status ≡ status_gave_up → IsSome result }
    ensures gave_up { IsSome result → status ≡ status_gave_up }
{
    if status != GAVE_UP {
        return None;
    }
    match playing.gave_up() {
        Some(cause) => Some(cause),
        None => Some(GaveUp::NoMemory),
    }
}

/// Plays a script.
fn play<R: Wait, W: Sink>(rt: &R, alloc: Global, script: Script, sink: &mut W) -> Outcome
    requires sound { IsSound script }
    requires ordered { AreOrdered script.lines }
    requires rising { AreRising script.lines }
    ensures known { (result.status ≡ status_ended) ⊎ (result.status ≡ status_gave_up) ⊎ (result.status ≡ status_sink_failed) }
    ensures done { W.observable → result.status ≡ status_ended
        → Done (Play script) result.status result.history.records [] (W.taken sink.old) (W.taken sink.new) }
    ensures in_part { W.observable → (result.status ≡ status_gave_up) ⊎ (result.status ≡ status_sink_failed)
        → DoneInPart (Play script) result.history.records (W.taken sink.old) (W.taken sink.new) }
    ensures whole_phase { result.status ≡ status_sink_failed → EndsWithPhase (Play script) result.history.records }
    ensures by_phases { W.observable → result.status ≡ status_gave_up → WrotePhases script result.history.records (W.taken sink.old) (W.taken sink.new) }
    ensures last_phase { W.observable → result.status ≡ status_sink_failed → WroteInPhase script result.history.records (W.taken sink.old) (W.taken sink.new) }
    ensures given_up { result.status ≡ status_gave_up → IsSome result.gave_up }
    ensures gave_up { IsSome result.gave_up → result.status ≡ status_gave_up }
    ensures failed { result.status ≡ status_sink_failed → W.faults sink.old < W.faults sink.new }
    ensures later { W.faults sink.old ≤ W.faults sink.new }
{
    every_history_keeps_the_law();
    phases_come_one_after_the_other();
    match Playing::start(alloc, script) {
        Ok(mut playing) => {
            let status = play_phases(rt, alloc, &mut playing, sink);
            Outcome {
                status,
                gave_up: cause_of(status, &playing),
                history: playing.into_history(),
            }
        }
        Err(cause) => given_up(alloc, cause),
    }
}

/// Refuses the text where it is no script, and else does what the script asks for.
pub(crate) fn run_text<R: Wait, W: Sink>(
    rt: &R,
    alloc: Global,
    text: &[u8],
    sink: &mut W,
) -> Outcome
    ensures known { (result.status ≡ status_ended) ⊎ (result.status ≡ status_refused) ⊎ (result.status ≡ status_gave_up)
        ⊎ (result.status ≡ status_sink_failed) }
    ensures done { W.observable → result.status ≤ status_refused
        → Done (by_text (script_of text.now)) result.status result.history.records [] (W.taken sink.old) (W.taken sink.new) }
    ensures in_part { W.observable → (result.status ≡ status_gave_up) ⊎ (result.status ≡ status_sink_failed)
        → DoneInPart (by_text (script_of text.now)) result.history.records (W.taken sink.old) (W.taken sink.new) }
    ensures whole_phase { result.status ≡ status_sink_failed → EndsWithPhase (by_text (script_of text.now)) result.history.records }
    ensures by_phases { W.observable → result.status ≡ status_gave_up
        → WrittenByPhases (by_text (script_of text.now)) result.history.records (W.taken sink.old) (W.taken sink.new) }
    ensures last_phase { W.observable → result.status ≡ status_sink_failed
        → WrittenInPhase (by_text (script_of text.now)) result.history.records (W.taken sink.old) (W.taken sink.new) }
    ensures short { result.status ≡ status_ended → length text.now ≤ longest_script }
    ensures given_up { result.status ≡ status_gave_up → IsSome result.gave_up }
    ensures gave_up { IsSome result.gave_up → result.status ≡ status_gave_up }
    ensures failed { result.status ≡ status_sink_failed → W.faults sink.old < W.faults sink.new }
    ensures later { W.faults sink.old ≤ W.faults sink.new }
{
    read_scripts_are_sound();
    lines_are_the_text();
    phases_rise();
    lines_rise();
    nothing_is_a_part();
    match read_script(alloc, text) {
        Ok(script) => play(rt, alloc, script, sink),
        Err(ScriptError::Refused { line, cause }) => refuse(alloc, sink, line, cause.text()),
        Err(ScriptError::NoMemory) => given_up(alloc, GaveUp::NoMemory),
    }
}
