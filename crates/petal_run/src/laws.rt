//! What is plain of scripts that are read.

ghost use Rattle.std.specs.Prelude.{◌≡◌, ◌≤◌, List, [], ℕ, length, Option, Ok};
ghost use Rattle.spec_history.specs.Order.{AreRising};
ghost use Rattle.petal_script.specs.Script.{script_of};
ghost use Rattle.script_lines.specs.declared.script.Script.{Script};
ghost use Rattle.call_words.specs.declared.form.Form.{Form};
ghost use Rattle.petal_run.specs.Asked.{by_form};
ghost use Rattle.server_host.specs.Playable.{AreOrdered};
ghost use Rattle.petal_run.specs.Said.{DoneInPart, WrittenByPhases};

use law_run::read_scripts_are_sound;
use law_script::what_a_script_is;

/// In every script that is read, phases rise with the numbers of lines.
pub fn phases_rise()
    ensures { (text : List ℕ) (script : Script) → script_of text ≡ Ok script → AreOrdered script.lines }
{
    what_a_script_is();
}

/// In every script that is read, lines rise.
pub fn lines_rise()
    ensures { (text : List ℕ) (script : Script) → script_of text ≡ Ok script → AreRising script.lines }
{
    what_a_script_is();
}

/// A script that is read has at most 1,024 lines.
pub fn lines_are_few()
    ensures { (text : List ℕ) (script : Script) → script_of text ≡ Ok script → length script.lines ≤ 1024 }
{
    what_a_script_is();
}

/// Where nothing is done, a part of what words and a text ask for is done.
pub fn nothing_is_a_part()
    ensures part { (form : Option Form) (text old : List ℕ) → DoneInPart (by_form form text) [] old old }
    ensures by_phases { (form : Option Form) (text old : List ℕ) → WrittenByPhases (by_form form text) [] old old }
{
    read_scripts_are_sound();
}
