//! The top call, and how it ends.

ghost use Rattle.std.specs.Prelude.{◌≡◌, ◌≤◌, ◌<◌, ◌⊎◌, [], map, None, Some, IsSome};
ghost use Rattle.std.specs.String.{string_bytes};
ghost use Rattle.call_words.specs.Form.{form_of};
ghost use Rattle.call_words.specs.declared.form.Form.TheVariants as forms;
ghost use Rattle.petal_run.specs.Asked.{asked, text_read};
ghost use Rattle.petal_run.specs.Said.{Done, DoneInPart, EndsWithPhase, WrittenByPhases, WrittenInPhase};
ghost use Rattle.petal_run.specs.Statuses.{status_no_form, status_refused, status_gave_up, status_source_failed, status_sink_failed};

use crate::drill::run_drill;
use crate::laws::nothing_is_a_part;
use crate::reading::read_text;
use crate::script::{given_up, run_text, say, without_history};
use byte_streams::{Sink, Source};
use call_words::{Form, read_words};
use petal_disk::{DeviceError, Shelf};
use plain_schedule::GaveUp;
use spec_history::History;
use std::alloc::Global;
use std::sync::Wait;

/// How a call of the program ended.
#[derive(Drop)]
pub struct Outcome {
    /// 0: the run ended, and all answers were written. 1: the words are no form. 2: a line of the script is refused.
    /// 3: the run was given up. 4: the source failed. 5: the sink failed.
    pub status: u8,
    /// At 3 why, and nothing at any other status.
    pub gave_up: Option<GaveUp>,
    /// The steps of the run. At 5 they end with the phase whose answers were not written whole; at 3 they are those so far.
    pub history: History,
}

/// The status of a run that ended, with all its answers written.
pub(crate) const ENDED: u8 = 0;

/// The status of a call whose words are no form.
pub(crate) const NO_FORM: u8 = 1;

/// The status of a call that refused a line of its script.
pub(crate) const REFUSED: u8 = 2;

/// The status of a run that was given up.
pub const GAVE_UP: u8 = 3;

/// The status of a call whose source failed.
pub(crate) const SOURCE_FAILED: u8 = 4;

/// The status of a call whose sink failed.
pub(crate) const SINK_FAILED: u8 = 5;

const USAGE: &str = "usage: petal run [FOLDER] | petal drill SEED COUNT\n";

/// Does what the words ask for. The words `run` alone read a script from the source, play it on one thread with servers and
/// stores of its own, and write the answers of each phase to the sink at that phase's end. The words `drill SEED COUNT` play the
/// script that they stand for, and then write what its answers came to. It waits for as long as that takes, and nothing
/// promises that it returns: its clauses say what holds where it does.
///
/// Statuses 0 to 2 come exactly where the words and the script say so, unless it is given up or a count of faults rose.
/// The first failure of the sink ends the run.
pub fn petal<T: Wait, R: Source, W: Sink, S: Shelf>(
    rt: &T,
    alloc: Global,
    words: &[String],
    source: &mut R,
    sink: &mut W,
    shelf: &mut S,
) -> Outcome
    ensures known { result.status ≤ status_sink_failed }

    // What is written, and what the history is.
    ensures done { R.observable → W.observable → result.status ≤ status_refused
        → Done (asked (map string_bytes words.now) (text_read (R.left source.old))) result.status result.history.records
        (R.left source.new) (W.taken sink.old) (W.taken sink.new) }
    ensures usage { result.status ≡ status_no_form → form_of (map string_bytes words.now) ≡ None }
    ensures in_part { R.observable → W.observable → (result.status ≡ status_gave_up) ⊎ (result.status ≡ status_sink_failed)
        → DoneInPart (asked (map string_bytes words.now) (text_read (R.left source.old))) result.history.records
        (W.taken sink.old) (W.taken sink.new) }
    ensures whole_phase { R.observable → result.status ≡ status_sink_failed
        → EndsWithPhase (asked (map string_bytes words.now) (text_read (R.left source.old))) result.history.records }
    ensures by_phases { R.observable → W.observable → result.status ≡ status_gave_up
        → WrittenByPhases (asked (map string_bytes words.now) (text_read (R.left source.old))) result.history.records
        (W.taken sink.old) (W.taken sink.new) }
    ensures last_phase { R.observable → W.observable → result.status ≡ status_sink_failed
        → WrittenInPhase (asked (map string_bytes words.now) (text_read (R.left source.old))) result.history.records
        (W.taken sink.old) (W.taken sink.new) }
    ensures nothing { result.status ≡ status_source_failed → sink.new ≡ sink.old }
    ensures empty { result.status ≡ status_source_failed → result.history.records ≡ [] }

    // Why it stops early.
    ensures source_failed { result.status ≡ status_source_failed → R.faults source.old < R.faults source.new }
    ensures sink_failed { result.status ≡ status_sink_failed → W.faults sink.old < W.faults sink.new }
    ensures source_later { R.faults source.old ≤ R.faults source.new }
    ensures sink_later { W.faults sink.old ≤ W.faults sink.new }
    ensures unasked { (form_of (map string_bytes words.now) ≡ Some forms.Run → ⊥) → source.new ≡ source.old }
    ensures shelf { shelf.new ≡ shelf.old }
    ensures given_up { result.status ≡ status_gave_up → IsSome result.gave_up }
    ensures gave_up { IsSome result.gave_up → result.status ≡ status_gave_up }
{
    nothing_is_a_part();
    match read_words(words) {
        Some(Form::Run) => {}
        Some(Form::Drill { seed, count }) => return run_drill(rt, alloc, seed, count, sink),
        None => return say(alloc, sink, USAGE.as_bytes(), NO_FORM),
    }
    let text = match read_text(alloc, source) {
        Ok(text) => text,
        Err(DeviceError::Failed) => return without_history(alloc, SOURCE_FAILED),
        Err(DeviceError::NoMemory) => return given_up(alloc, GaveUp::NoMemory),
    };
    run_text(rt, alloc, &text, sink)
}
