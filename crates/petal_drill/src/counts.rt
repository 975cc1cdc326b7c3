//! What a drill came to.

ghost use Rattle.std.specs.Prelude.{◌≡◌, ◌≤◌, ◌<◌, ◌+◌, ◌^◌, IfOk, string_bytes};
ghost use Rattle.petal_drill.specs.Summary.{no_counts, counted, drill_name, counts_text, counts_line, stops_of};

use petal_base::NoMemory;
use script_lines::{Answer, Line, Request};
use std::alloc::Global;
use std::marker::Model;

/// The writes that were done, the reads that found something, and the sum of the first bytes that they found.
#[derive(Drop)]
pub struct Counts {
    writes: u32,
    reads: u32,
    sum: u64,
}

impl Model for Counts {
    ghost use Rattle.std.specs.Prelude.{◌≤◌, ◌*◌};
    ghost use Rattle.petal_drill.specs.Summary.{Counts};

    ghost Value = { Counts };

    ghost view = { λ c. record { writes = c.writes; reads = c.reads; sum = c.sum } };

    ghost invariant = { λ c. c.sum ≤ 255 * c.reads };
}

impl Counts {
    /// Nothing is counted yet.
    pub fn new() -> Counts
        ensures { result ≡ no_counts }
    {
        Counts {
            writes: 0,
            reads: 0,
            sum: 0,
        }
    }

    /// Counts the answer to a request.
    pub fn add(&mut self, request: &Request, answer: &Answer)
        requires writes { self.old.writes + 1 < 2 ^ 32 }
        requires reads { self.old.reads + 1 < 2 ^ 32 }
        ensures value { self.new ≡ counted self.old request.now answer.now }
        ensures few { self.new.writes + self.new.reads ≤ self.old.writes + self.old.reads + 1 }
    {
        match (request, answer) {
            (Request::Write { .. }, Answer::Ok) => self.writes += 1,
            (Request::Read { .. }, Answer::Data(bytes)) => {
                self.reads += 1;
                self.sum += u64::from(bytes.bytes()[0]);
            }
            _ => {}
        }
    }
}

fn drill_name(alloc: Global, seed: u32, count: u32) -> Result<String, NoMemory>
    ensures { IfOk result (λ text. string_bytes text ≡ drill_name seed count) }
{
    Ok(format!(in alloc; "drill {seed} {count}")?)
}

fn counts_text(alloc: Global, stops: usize, counts: &Counts) -> Result<String, NoMemory>
    ensures { IfOk result (λ text. string_bytes text ≡ counts_text stops counts.now) }
{
    let (writes, reads, sum) = (counts.writes, counts.reads, counts.sum);
    Ok(format!(in alloc; "writes {writes} reads {reads} stops {stops} sum {sum}")?)
}

/// The line that tells what a drill came to, by the lines of its script and the counts of their answers.
#[tactic(auto, unfolding(crate::specs::Summary::counts_line))]
pub fn summary_text(
    alloc: Global,
    seed: u32,
    count: u32,
    lines: &[Line],
    counts: &Counts,
) -> Result<String, NoMemory>
    ensures { IfOk result (λ text. string_bytes text ≡ counts_line seed count (stops_of lines.now) counts.now) }
{
    let stops = lines.iter().filter(|line| line.request.is_stop()).count();
    let name = drill_name(alloc, seed, count)?;
    let told = counts_text(alloc, stops, counts)?;
    Ok(format!(in alloc; "{name}: {told}\n")?)
}
