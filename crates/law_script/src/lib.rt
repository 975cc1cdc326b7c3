//! What holds of every script's text, over every text. The functions do nothing: their clauses are the laws.
//!
//! They say in words that stand above the reading line by line what `petal_script` reads and prints: which line is refused
//! and why, and what each accepted line adds. They stand apart so that the code of the language waits for none of them.
#![tactic(auto)]

ghost use Rattle.std.specs.Prelude.{slice_get, ◌≡◌, Option, ◌↔◌, ◌⊎◌, ◌<◌, ◌+◌, ℕ, List, None, Some, Ok, Err, length};
ghost use Rattle.std.specs.List.{concat, find, flat_map};
ghost use Rattle.script_lines.specs.Contents.{runs, run_bytes, AreLongest};
ghost use Rattle.petal_script.specs.Text.{pieces};
ghost use Rattle.script_lines.specs.declared.script.Script.{Script};
ghost use Rattle.petal_script.specs.Script.{TextLine, Refusal, script_of, text_lines, line_verdict};
ghost use Rattle.law_script.specs.Faults.{told, has_fault, in_order};
ghost use Rattle.law_script.specs.Laws.{Taken, IsFirstRefused, IsWithoutLines, AreLines, Does, IsAccepted};

/// The lines with their ends are the text, and each ends at its first LF.
pub fn lines_are_the_text()
    ensures whole { (text : List ℕ) → concat (pieces text) ≡ text }
    ensures each { (text : List ℕ) → AreLines (pieces text) }
    ensures numbers { (text : List ℕ) (k : ℕ) (line : TextLine) → slice_get (text_lines text) k ≡ Some line → line.number ≡ k + 1 }
{}

/// A text is a script where each of its lines is taken, and else its first refused line is told.
pub fn first_refused_line()
    ensures script { (text : List ℕ) (s : Script) → (script_of text ≡ Ok s) ↔ Taken (text_lines text) None (Some s) }
    ensures refused { (text : List ℕ) (r : Refusal) → (script_of text ≡ Err r) ↔ (IsFirstRefused (text_lines text) r ⊎ IsWithoutLines (text_lines text) r) }
{}

/// A script is skipped lines, a servers line, and lines of which each does what it says.
pub fn what_a_script_is()
    ensures { (text : List ℕ) (s : Script) → script_of text ≡ Ok s → IsAccepted (text_lines text) s }
{}

/// What a line does that is taken after the servers line.
pub fn what_a_line_does()
    ensures { (s : Script) (told : TextLine) (after : Option Script) → line_verdict (Some s) told ≡ Ok after → (t : Script) × (after ≡ Some t) × Does s told t }
{}

/// A refused line is told the first of the nine faults that it has, in their order, and a line without any is taken.
pub fn first_fault()
    ensures { (before : Option Script) (line : TextLine) → told (line_verdict before line) ≡ find (λ cause. has_fault cause before line) in_order }
{}

/// The runs of a block laid out one after the other are the block, and none can be longer.
pub fn runs_are_the_block()
    ensures whole { (bytes : List ℕ) → flat_map run_bytes (runs bytes) ≡ bytes }
    ensures longest { (bytes : List ℕ) → AreLongest (runs bytes) }
{}
