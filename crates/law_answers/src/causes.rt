//! Why each request is answered so: over every legal history of a sound script, each answer that says what is not there, and
//! each answer of a `disk` or a `snap` line, comes by its own entry of the chosen log, with states that say so; and each
//! answer of a line that names a server comes by that line's one glance, and that of a settle by its glances, round by round. And
//! why a server does not run, or a boot of it fails.
//!
//! To the layers above it promises this of answers, of what clients are told of revisions, and of servers that stop or fail to boot. It speaks
//! of definitions alone, and knows nothing of code.

ghost use Rattle.std.specs.Prelude.{◌≡◌, ◌<◌, ℕ, List, false, true, Some};
ghost use Rattle.petal_msg.specs.declared.body.Body.TheVariants.{WrongRev};
ghost use Rattle.petal_msg.specs.declared.letter.Letter.{Letter};
ghost use Rattle.script_lines.specs.Requests.{names};
ghost use Rattle.script_lines.specs.declared.request.Line.{Line};
ghost use Rattle.script_lines.specs.declared.request.Request.TheVariants.{Settle};
ghost use Rattle.script_lines.specs.declared.answer.Answer.{Answer};
ghost use Rattle.script_lines.specs.declared.answer.Answer.TheVariants.{Failed, Unavailable};
ghost use Rattle.spec_rules.specs.Lists.{In};
ghost use Rattle.spec_history.specs.Causes.{AreCaused, may_answer};
ghost use Rattle.spec_history.specs.Order.{AreRising};
ghost use Rattle.law_state.specs.Histories.{AreSteps, IsSound, Record, Script, setting_of, start, world_after};
ghost use Rattle.law_answers.specs.FailureCauses.{HasReasonToFail};
ghost use Rattle.law_answers.specs.Glances.{HasGlance};
ghost use Rattle.law_answers.specs.Revisions.{HasReason};
ghost use Rattle.law_answers.specs.Settles.{HasSettled};
ghost use Rattle.law_answers.specs.Stops.{HasReasonToStop, NoneIsStopped, NoneStopsByItself};

/// Each answer has its cause in the chosen log: the verdict of its line's own command, in the first state that has one, or the request's
/// own Witness, at a place whose state says that it can't be served. The lines rise, so an answer's number names the place of one line.
pub fn answers_are_caused()
    ensures { (script : Script) (records : List Record) → IsSound script → AreRising script.lines → AreSteps script records
        → AreCaused (setting_of script) (world_after (setting_of script) (start (setting_of script)) records) }
{}

/// Each answer is one that its line's request may get. A `disk` line is answered `ok` or `exists`; a `write` `ok`, `nospace`, `nodisk` or
/// `unavailable`; a `read` `data`, `nodisk` or `unavailable`, and where it names a snapshot also `nosnap`; a `snap` `ok`, `nodisk` or `exists`;
/// a `move` `ok`, `nodisk` or `moving`; a `stop`, also one at a call of a device, and a `fault` `ok`; a `start` and a `blank` `ok` or `failed`;
/// a `settle` `ok` or `nospace`.
pub fn each_request_gets_an_answer_of_its_kind()
    ensures { (script : Script) (records : List Record)
        → IsSound script → AreSteps script records → (line : Line) (given : Answer) → In line script.lines
        → In (line.number, given) (world_after (setting_of script) (start (setting_of script)) records).answers → may_answer line.request given ≡ true }
{}

/// A server of the script that does not run at the end stopped in a step of its own, and has not run since, for a reason: the
/// operator's open line told it to, a device failed, a device's plan stopped it, or there was no room: the state journal was
/// full, or there would have been more marks than there may be.
pub fn a_server_stops_for_a_reason()
    ensures { (script : Script) (records : List Record) → IsSound script → AreSteps script records
        → (n : ℕ) → n < script.servers → ((world_after (setting_of script) (start (setting_of script)) records).servers n).life.running ≡ false
        → HasReasonToStop (setting_of script) (start (setting_of script)) records n }
{}

/// A start or a blank that is answered `failed` gave its server, while its line was open, a boot that left the server stopped: a
/// device failed, or the state journal had no room for the next incarnation.
pub fn a_boot_fails_for_a_reason()
    ensures { (script : Script) (records : List Record) → IsSound script → AreRising script.lines → AreSteps script records → (number : ℕ)
        → In (number, Failed) (world_after (setting_of script) (start (setting_of script)) records).answers
        → HasReasonToFail (setting_of script) (start (setting_of script)) records number }
{}

/// Each answer of a line that names a server comes by the line's one glance at that server, while the operator had the line open: a
/// stop is answered `ok`, and the server did not run there; a start or a blank `ok` where it ran and `failed` where it did not.
pub fn a_line_at_a_server_is_answered_by_its_glance()
    ensures { (script : Script) (records : List Record)
        → IsSound script → AreRising script.lines → AreSteps script records → (line : Line) (server : ℕ) (given : Answer) → In line script.lines
        → (names line.request).server ≡ Some server → In (line.number, given) (world_after (setting_of script) (start (setting_of script)) records).answers
        → HasGlance (setting_of script) (start (setting_of script)) records line server given }
{}

/// A settle is answered `ok` only where all was settled by the operator's state, as one round of the line's glances had shown each server;
/// and `nospace` only where one of its glances found a server which remembered that a slot was wanting, for its last copy or the last entry that
/// it was to move. It is answered nothing else.
pub fn a_settle_is_answered_by_its_glances()
    ensures { (script : Script) (records : List Record) → IsSound script → AreSteps script records → (line : Line) (given : Answer) → In line script.lines
        → line.request ≡ Settle → In (line.number, given) (world_after (setting_of script) (start (setting_of script)) records).answers
        → HasSettled (setting_of script) (start (setting_of script)) records line.number given }
{}

/// Where no line of the script stops or blanks a server, and in no step a server stops by itself, each block of a known disk has its
/// servers: no answer is that they are unavailable.
pub fn no_answer_is_unavailable()
    ensures { (script : Script) (records : List Record) → IsSound script
        → AreSteps script records → NoneIsStopped script.lines → NoneStopsByItself (setting_of script) (start (setting_of script)) records → (number : ℕ)
        → In (number, Unavailable) (world_after (setting_of script) (start (setting_of script)) records).answers → ⊥ }
{}

/// A client is told of another revision only where a server that was In as itself handled its read or write, and had another
/// revision than that letter.
pub fn wrong_rev_has_a_reason()
    ensures { (script : Script) (records : List Record) → IsSound script → AreSteps script records
        → (letter : Letter) (seq : ℕ) → In letter (world_after (setting_of script) (start (setting_of script)) records).sent → letter.body ≡ WrongRev seq
        → HasReason (setting_of script) (start (setting_of script)) records letter seq }
{}
