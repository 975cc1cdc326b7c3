//! One call of the program over an outside in memory, as a case of a table.

use crate::letters::letters;
use byte_streams::{MemSink, MemSource};
use petal_disk::MemShelf;
use petal_run::{Outcome, petal};
use spec_history::Record;
use std::alloc::{AllocError, Global};
use std::sync::Wait;
use std::test::Fail;

/// Where the outside fails: the number of the call, from 1.
#[derive(Clone, Copy)]
pub enum Fault {
    Nowhere,
    Source(u32),
    Sink(u32),
}

/// What is expected of the letters of the run.
#[derive(Clone, Copy)]
pub enum Letters {
    Any,
    /// Each is handed over once.
    Once,
    /// Some are lost, and some come twice.
    LostAndTwice,
}

/// A call of the program, and how it ends.
#[derive(Clone, Copy)]
pub struct Case {
    pub shows: &'static str,
    pub words: &'static [&'static str],
    /// The script is this start with these lines.
    pub start: &'static str,
    pub lines: &'static str,
    pub fault: Fault,
    pub letters: Letters,
    pub status: u8,
    /// What is written: one of these texts.
    pub written: &'static [&'static str],
}

fn word_list(alloc: Global, words: &[&str]) -> Result<Vec<String>, AllocError> {
    let mut list = Vec::new(alloc);
    for word in words {
        list.push(String::from_str(alloc, word)?)?;
    }
    Ok(list)
}

fn one_call(alloc: Global, call: u32) -> Result<Vec<u32>, AllocError> {
    let mut calls = Vec::new(alloc);
    calls.push(call)?;
    Ok(calls)
}

fn source_faults(alloc: Global, fault: Fault) -> Result<Vec<u32>, AllocError> {
    match fault {
        Fault::Source(call) => one_call(alloc, call),
        _ => Ok(Vec::new(alloc)),
    }
}

fn sink_faults(alloc: Global, fault: Fault) -> Result<Vec<u32>, AllocError> {
    match fault {
        Fault::Sink(call) => one_call(alloc, call),
        _ => Ok(Vec::new(alloc)),
    }
}

fn script_of(alloc: Global, case: &Case) -> Result<Vec<u8>, AllocError> {
    let mut script = Vec::from_slice(alloc, case.start.as_bytes())?;
    script.extend_from_slice(case.lines.as_bytes())?;
    Ok(script)
}

fn source_of(alloc: Global, case: &Case) -> Result<MemSource, AllocError> {
    let script = script_of(alloc, case)?;
    Ok(MemSource::new(script, source_faults(alloc, case.fault)?))
}

fn is_once([lost, once, twice]: [usize; 3]) -> bool {
    lost == 0 && once > 0 && twice == 0
}

fn is_lost_and_twice([lost, _once, twice]: [usize; 3]) -> bool {
    lost > 0 && twice > 0
}

fn are_handed_so(records: &[Record], wanted: Letters) -> bool {
    match wanted {
        Letters::Any => true,
        Letters::Once => is_once(letters(records)),
        Letters::LostAndTwice => is_lost_and_twice(letters(records)),
    }
}

fn is_written(sink: MemSink, case: &Case) -> bool {
    let bytes = sink.into_bytes();
    case.written
        .iter()
        .any(|text| bytes.as_slice() == text.as_bytes())
}

fn ends_so(outcome: &Outcome, case: &Case) -> bool {
    outcome.status == case.status && are_handed_so(outcome.history.records.as_slice(), case.letters)
}

/// Whether the call ends as the case says.
fn is_so<R: Wait>(rt: &R, alloc: Global, case: &Case) -> Result<bool, AllocError> {
    let words = word_list(alloc, case.words)?;
    let mut source = source_of(alloc, case)?;
    let mut sink = MemSink::new(alloc, sink_faults(alloc, case.fault)?);
    let mut shelf = MemShelf::refusing(1);
    let outcome = petal(rt, alloc, &words, &mut source, &mut sink, &mut shelf);
    let ends = ends_so(&outcome, case);
    Ok(is_written(sink, case) && ends)
}

/// Calls the program by these cases, each of which has to end as it says.
pub fn are_so<R: Wait>(rt: &R, alloc: Global, cases: &[Case]) -> Result<(), Fail> {
    for case in cases {
        if !is_so(rt, alloc, case)? {
            return Err(Fail::new(case.shows));
        }
    }
    Ok(())
}
