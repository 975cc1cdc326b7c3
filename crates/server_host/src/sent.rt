//! The letters ever sent.

ghost use Rattle.std.specs.Prelude.{◌≡◌, ◌↔◌, ◌++◌, List, [], Some, IfOk, OnOk, OnErr, IsTrue};
ghost use Rattle.petal_table.specs.Table.{at};
ghost use Rattle.petal_msg.specs.declared.letter.Letter.{Letter};
ghost use Rattle.server_host.specs.Sent.{name_of, name_cmp, with_letter, with_letters};

use crate::name::{LetterName, name_of};
use petal_base::NoMemory;
use petal_msg::{Letter, SharedLetter};
use petal_table::Table;
use std::alloc::Global;
use std::marker::Model;

/// All letters ever sent, shared with whoever holds them. Contracts see the table of letters by their names.
#[derive(Drop)]
pub struct Sent {
    rows: Table<LetterName, SharedLetter>,
}

impl Model for Sent {
    ghost use Rattle.petal_table.specs.Table.{Table};
    ghost use Rattle.petal_msg.specs.declared.letter.Letter.{Letter};
    ghost use Rattle.server_host.specs.declared.name.LetterName.{LetterName};

    ghost Value = { Table LetterName Letter };

    ghost view = { λ s. s.rows };
}

impl Sent {
    /// No letter. It takes no memory.
    pub fn new(alloc: Global) -> Sent
        ensures { result ≡ [] }
    {
        Sent {
            rows: Table::new(alloc),
        }
    }

    /// Whether this very letter was sent.
    pub fn has(&self, letter: &Letter) -> bool
        ensures { IsTrue result ↔ (at name_cmp self.now (name_of letter.now) ≡ Some letter.now) }
    {
        match self.rows.get(&name_of(letter)) {
            None => false,
            Some(found) => found.get().is_same(letter),
        }
    }

    /// One letter more.
    fn add(&mut self, letter: SharedLetter) -> Result<(), NoMemory>
        ensures { OnOk result (self.new ≡ with_letter self.old letter) }
    {
        let name = name_of(letter.get());
        self.rows.put(name, letter)
    }

    /// The letters of one step. After it ran out of memory some of them may be missing.
    pub fn add_all(&mut self, letters: &[SharedLetter]) -> Result<(), NoMemory>
        ensures { OnOk result (self.new ≡ with_letters self.old letters.now) }
    {
        for letter in letters {
            self.add(letter.share()?)?;
        }
        Ok(())
    }
}
