//! The program: `petal run` reads a script from standard input and prints its answers to standard output, over disks in
//! memory. It ends with the status of the top call, or with 3 where there is no memory for its words. Where the run is given up,
//! standard error says why.
#![tactic(auto)]

use byte_streams::{StdSink, StdSource};
use petal_disk::MemShelf;
use petal_run::{GAVE_UP, GaveUp, petal};
use std::io::ErrorKind;
use std::process::ExitCode;
use std::{env, io};

// The words that the program is called with, its own name left out.
fn words(rt: &HostRuntime) -> io::Result<Vec<String>> {
    Ok(env::args(rt)?.skip(1).collect(rt.alloc())?)
}

// Whether that could be written makes no difference: the status says that the run was given up.
fn tell(rt: &HostRuntime, cause: GaveUp) {
    let _ = eprintln!(rt; "petal: {cause}");
}

fn main(rt: HostRuntime) -> ExitCode {
    // Words that are no text are no form that is built, just as no words are none.
    let words = match words(&rt) {
        Ok(words) => words,
        Err(error) if error.kind() == ErrorKind::OutOfMemory => {
            tell(&rt, GaveUp::NoMemory);
            return ExitCode::from(GAVE_UP);
        }
        Err(_) => Vec::new(rt.alloc()),
    };
    let mut source = StdSource::new(rt.reader());
    let mut sink = StdSink::new(io::writer(&rt));
    let mut shelf = MemShelf::new();
    let outcome = petal(&rt, rt.alloc(), &words, &mut source, &mut sink, &mut shelf);
    if let Some(cause) = outcome.gave_up {
        tell(&rt, cause);
    }
    ExitCode::from(outcome.status)
}
