//! The answers of a history.

ghost use Rattle.std.specs.Prelude.{◌≡◌, ◌∷◌, [], is_some, nat_eq, IfOk, OnOk, OnErr, IfSome, IfNone};
ghost use Rattle.std.specs.Cmp.Lexicographic.{pointwise};
ghost use Rattle.std.specs.Map.{keys_of};
ghost use Rattle.std.specs.Option.{option_copied};
ghost use Rattle.std.specs.Ordering.{nat_cmp};
ghost use Rattle.petal_table.specs.Table.{at, put};
ghost use Rattle.spec_history.specs.Text.{answers_of};
ghost use Rattle.plain_schedule.specs.Places.{numbers};

use petal_base::NoMemory;
use script_lines::{Answer, Line};
use spec_history::Record;
use std::alloc::Global;
use std::collections::BTreeMap;
use std::marker::Model;

/// What lines were answered. Contracts see rows of a line's number and its answer, by rising number.
#[derive(Drop)]
pub struct Answers {
    rows: BTreeMap<u32, Answer>,
}

impl Model for Answers {
    ghost use Rattle.std.specs.Prelude.{ℕ};
    ghost use Rattle.petal_table.specs.Table.{Table};
    ghost use Rattle.script_lines.specs.declared.answer.Answer.{Answer};

    ghost Value = { Table ℕ Answer };

    ghost view = { λ a. a.rows.entries };
}

impl Answers {
    /// No answers. It takes no memory.
    pub fn new(alloc: Global) -> Answers
        ensures { result ≡ [] }
    {
        Answers {
            rows: BTreeMap::new(alloc),
        }
    }

    /// What a history answers.
    pub fn of_records(alloc: Global, records: &[Record]) -> Result<Answers, NoMemory>
        ensures { IfOk result (λ answers. answers ≡ answers_of records.now) }
    {
        let mut answers = Answers::new(alloc);
        for record in records {
            if let Some((line, answer)) = &record.answer {
                answers.put(*line, answer.clone()?)?;
            }
        }
        Ok(answers)
    }

    #[tactic(auto, unfolding(petal_table::specs::Table::put))]
    fn put(&mut self, line: u32, answer: Answer) -> Result<(), NoMemory>
        ensures { OnOk result (self.new ≡ put nat_cmp self.old line answer) }
    {
        let _ = self.rows.insert(line, answer)?;
        Ok(())
    }

    /// The answer of a line.
    #[tactic(auto, unfolding(petal_table::specs::Table::at))]
    pub fn get(&self, line: u32) -> Option<&Answer>
        ensures { option_copied result ≡ at nat_cmp self.now line }
    {
        self.rows.get(&line)
    }

    /// Whether exactly these lines have answers. The lines stand by rising number.
    pub fn are_of(&self, lines: &[Line]) -> bool
        ensures { result ≡ pointwise nat_eq (keys_of self.now) (numbers lines.now) }
    {
        let mut keys = self.rows.keys();
        for line in lines {
            match keys.next() {
                Some(number) if *number == line.number => {}
                _ => return false,
            }
        }
        keys.next().is_none()
    }

    /// Takes out the answer of the least line.
    pub fn pop_first(&mut self) -> Option<(u32, Answer)>
        ensures first { IfSome result (λ row. self.old ≡ row ∷ self.new) }
        ensures none { IfNone result (self.old ≡ []) }
    {
        self.rows.pop_first()
    }
}
