//! Each read that is answered with data looks exactly once: one record of the history tells a look for its line, after the line's
//! call and before its answer, and no other record does.
//!
//! To the layers above it promises this of every legal history. It speaks of definitions alone, and knows nothing of code.

ghost use Rattle.std.specs.Prelude.{◌≡◌, ℕ, List, [], ◌∷◌, map, None, Some};
ghost use Rattle.petal_base.specs.Block.{fill_block};
ghost use Rattle.spec_history.specs.Events.{looks};
ghost use Rattle.spec_history.specs.Examples.{sevens, vol};
ghost use Rattle.spec_history.specs.Order.{AreRising};
ghost use Rattle.spec_machine.specs.declared.event.Event.{Event};
ghost use Rattle.spec_machine.specs.declared.event.Event.TheVariants.{Look};
ghost use Rattle.spec_rules.specs.Lists.{In};
ghost use Rattle.spec_rules.specs.World.{Setting, World};
ghost use Rattle.spec_rules.specs.declared.step.Step.TheVariants.{Call};
ghost use Rattle.script_lines.specs.declared.answer.Answer.TheVariants.{Data};
ghost use Rattle.law_state.specs.Histories.{AreSteps, IsSound, Record, Script, setting_of, start};
ghost use Rattle.law_state.specs.Moments.{IsMoment};
ghost use Rattle.law_answers.specs.ReadLinks.{IsReadFrom};
ghost use Rattle.law_answers.specs.Looks.{HasItsLook, IsAnsweredAfter, looks_at, record_looks};
ghost use Rattle.law_answers.specs.ComputedLooks.{looks_along, sevens_records};

/// The looks beside their lines are the ones of the events: without the numbers they are exactly those.
pub fn the_looks_are_those_of_the_events()
    ensures { (setting : Setting) (w next : World) (own : Record) (later : List Record)
        → looks setting w next own later ≡ map (λ look. look.1) (record_looks setting w next own later) }
{}

/// Each line that is answered with data is a read of the client that answers, and has exactly one look, with these bytes: one record tells it,
/// a server's step after the record that called the line and before the one that answers it, and no other record tells a look for the line.
/// The lines rise, so an answer's number names the place of one line.
pub fn each_read_looks_once()
    ensures { (script : Script) (records : List Record) → IsSound script → AreRising script.lines → AreSteps script records
        → (answer : IsMoment records) (number : ℕ) (bytes : List ℕ) → answer.own.answer ≡ Some (number, Data bytes)
        → HasItsLook (setting_of script) records answer number bytes }
{}

/// A look is told only for a line that a later record answers with data: so looks and such answers belong together one by one.
pub fn each_look_is_answered()
    ensures { (script : Script) (records : List Record) → IsSound script → AreRising script.lines → AreSteps script records
        → (moment : IsMoment records) (look : ℕ × Event) → In look (looks_at (setting_of script) records moment)
        → IsAnsweredAfter records moment look.0 }
{}

/// A line is called once: two records that call it are one.
pub fn a_line_is_called_once()
    ensures { (script : Script) (records : List Record) → AreRising script.lines → AreSteps script records
        → (one other : IsMoment records) (number : ℕ) → one.own.step ≡ Call number → other.own.step ≡ Call number → one.prefix ≡ other.prefix }
{}

/// The letter that is accepted for such a line was sent by a server that handled the read of the line, with the bytes of its own entry of the cell;
/// and by what was chosen then the server serves the cell's link. So no read of a link that is Lost is answered with data. Where the cell has no
/// link any more, its map is retired: the last of its regions has moved.
pub fn no_lost_link_is_read()
    ensures { (script : Script) (records : List Record) → IsSound script → AreRising script.lines → AreSteps script records
        → (answer : IsMoment records) (number : ℕ) (bytes : List ℕ) → answer.own.answer ≡ Some (number, Data bytes)
        → IsReadFrom (setting_of script) records answer number bytes }
{}

/// In the run in which a block is written and read back, the read's line has one look, which the server's step tells.
pub fn a_read_looks_where_the_server_answers()
    ensures { looks_along sevens (start sevens) 0 sevens_records ≡ (47, (3, Look vol None 5 (fill_block 7))) ∷ [] }
{}
