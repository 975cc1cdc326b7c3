//! The lines without an answer.

ghost use Rattle.std.specs.Prelude.{◌≡◌, ◌↔◌, [], IfOk, OnOk, OnErr, IsTrue};
ghost use Rattle.std.specs.Ordering.{nat_cmp};
ghost use Rattle.petal_table.specs.Table.{put, without};
ghost use Rattle.server_host.specs.Waiting.{AreAfter, AreRising, Await};
ghost use Rattle.server_host.specs.Playable.{AreNumbered};

use petal_base::NoMemory;
use script_lines::Line;
use std::alloc::Global;
use std::collections::BTreeMap;
use std::marker::Model;

/// The lines that are not answered, by number, each with its phase. Contracts see the rows by rising number.
#[derive(Drop)]
pub struct Waiting {
    rows: BTreeMap<u32, u32>,
}

impl Model for Waiting {
    ghost use Rattle.std.specs.Prelude.{ℕ};
    ghost use Rattle.petal_table.specs.Table.{Table};

    ghost Value = { Table ℕ ℕ };

    ghost view = { λ w. w.rows.entries };
}

impl Waiting {
    /// No line. It takes no memory.
    pub fn new(alloc: Global) -> Waiting
        ensures { result ≡ [] }
    {
        Waiting {
            rows: BTreeMap::new(alloc),
        }
    }

    /// A line waits.
    #[tactic(auto, unfolding(petal_table::specs::Table::put))]
    pub fn add(&mut self, number: u32, phase: u32) -> Result<(), NoMemory>
        ensures ok { OnOk result (self.new ≡ put nat_cmp self.old number phase) }
        ensures err { OnErr result (self.new ≡ self.old) }
    {
        let _ = self.rows.insert(number, phase)?;
        Ok(())
    }

    /// All lines of a run that begins.
    pub fn start(alloc: Global, lines: &[Line]) -> Result<Waiting, NoMemory>
        requires { AreNumbered lines.now }
        ensures { IfOk result (λ waiting. Await lines.now [] waiting) }
    {
        let mut waiting = Waiting::new(alloc);
        for line in lines {
            waiting.add(line.number, line.phase)?;
        }
        Ok(waiting)
    }

    /// A line has its answer.
    pub fn answered(&mut self, number: u32)
        ensures { self.new ≡ without nat_cmp self.old number }
    {
        // What `len` promises tells the proof that the rows rise by number.
        let _ = self.rows.len();
        let _ = self.rows.remove(&number);
    }

    /// Whether no line of a phase before this one waits. Phases rise with the numbers of lines.
    #[tactic(auto, unfolding(petal_table::specs::Table::at))]
    pub fn is_after(&self, phase: u32) -> bool
        ensures { AreRising self.now → IsTrue result ↔ AreAfter self.now phase }
    {
        match self.rows.first_key_value() {
            None => true,
            Some((_number, first)) => phase <= *first,
        }
    }
}
