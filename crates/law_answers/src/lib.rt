//! The rule of answers: over every legal history of a script whose lines rise, no line is answered twice, and what is answered
//! later than a phase stands after it in the text. Beside it: why each request is answered so (`causes`), why one is refused
//! (`refusals`), and that each read that is answered with data looks exactly once (`looks`).
//!
//! To the layers above it promises this of every legal history, and that the text of a history is the texts of its phases one after
//! the other. It speaks of definitions alone, and knows nothing of code.
#![tactic(auto)]

ghost use Rattle.std.specs.Prelude.{◌≡◌, ◌++◌, ℕ, List, [], ◌∷◌, Some};
ghost use Rattle.script_lines.specs.declared.answer.Answer.{Answer};
ghost use Rattle.script_lines.specs.declared.script.Script.{Script};
ghost use Rattle.spec_history.specs.Steps.{AreSteps};
ghost use Rattle.spec_history.specs.Text.{text_of};
ghost use Rattle.spec_history.specs.declared.record.Record.{Record};
ghost use Rattle.spec_history.specs.Order.{AnsweredComeFirst, AreRising, IsOpenLine, JoinsAnswers};

mod causes;
mod looks;
mod refusals;

pub use causes::{
    a_boot_fails_for_a_reason, a_line_at_a_server_is_answered_by_its_glance,
    a_server_stops_for_a_reason, a_settle_is_answered_by_its_glances, answers_are_caused,
    each_request_gets_an_answer_of_its_kind, no_answer_is_unavailable, wrong_rev_has_a_reason,
};
pub use looks::{
    a_line_is_called_once, a_read_looks_where_the_server_answers, each_look_is_answered,
    each_read_looks_once, no_lost_link_is_read, the_looks_are_those_of_the_events,
};
pub use refusals::{
    a_busy_block_has_another_operation, a_full_copy_found_no_slot, a_full_fill_found_no_slot,
    a_held_request_has_a_reason, nospace_has_a_reason, not_here_has_a_reason,
};

/// Each answer is of a line of the script that no earlier record answered.
pub fn no_line_is_answered_twice()
    ensures { (script : Script) (prefix : List Record) (own : Record) → AreRising script.lines → AreSteps script (prefix ++ own ∷ [])
        → (number : ℕ) (given : Answer) → own.answer ≡ Some (number, given) → IsOpenLine script.lines prefix number }
{}

/// Where the prefix of a history answers the first lines, its answers are a prefix of all answers, and so is its text.
pub fn phases_come_one_after_the_other()
    ensures answers { (script : Script) → JoinsAnswers script }
    ensures text { (script : Script) (prefix suffix : List Record) → AreRising script.lines → AreSteps script (prefix ++ suffix)
        → AnsweredComeFirst script.lines prefix → text_of (prefix ++ suffix) ≡ text_of prefix ++ text_of suffix }
{}
