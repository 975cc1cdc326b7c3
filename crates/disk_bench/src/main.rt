//! What a journal and a store cost, on a disk in memory, and what a store leaves on its device.
//!
//! `journal fill COUNT` formats a journal and appends so many records. `store fill COUNT` formats a store and writes so often, `store mark
//! COUNT` and `store turn COUNT` set a mark and take it away so often, `turn` beside as many marks as there may be. With `open` in place of
//! `fill` it is opened again after that. Each prints how many records the journal counts, or how many slots of the store are free;
//! bench/disk.py times them. `image CHANGES CALL` writes the bytes of a small store's device after a stop, and `listing CHANGES CALL` what a
//! server reads there; acceptance/device compares the two.
#![tactic(auto)]

mod image;
mod journal;
mod store;

use byte_streams::StdSink;
use std::alloc::Global;
use std::process::ExitCode;
use std::{env, io};
use store::Act;

fn words(rt: &HostRuntime) -> io::Result<Vec<String>> {
    Ok(env::args(rt)?.skip(1).collect(rt.alloc())?)
}

fn number(word: &String) -> Option<u32> {
    word.as_str().parse::<u32>().ok()
}

// What one measurement counts.
fn measured(alloc: Global, what: &String, act: &String, count: u32) -> Option<u32> {
    match (what.as_str(), act.as_str()) {
        ("journal", "fill") => journal::run(alloc, count, false),
        ("journal", "open") => journal::run(alloc, count, true),
        ("store", "fill") => store::run(alloc, Act::Fill, count, false),
        ("store", "open") => store::run(alloc, Act::Fill, count, true),
        ("store", "mark") => store::run(alloc, Act::Mark, count, false),
        ("store", "turn") => store::run(alloc, Act::Turn, count, false),
        _ => None,
    }
}

fn print_measured(rt: &HostRuntime, what: &String, act: &String, count: u32) -> Option<()> {
    let counted = measured(rt.alloc(), what, act, count)?;
    println!(rt; "{counted}").ok()
}

fn act_on(rt: &HostRuntime, words: &[String]) -> Option<()> {
    let [what, second, third] = words else {
        return None;
    };
    let count = number(third)?;
    match what.as_str() {
        "image" => {
            let mut sink = StdSink::new(io::writer(rt));
            image::write_image(rt.alloc(), number(second)?, count, &mut sink)
        }
        "listing" => image::print_listing(rt, number(second)?, count),
        _ => print_measured(rt, what, second, count),
    }
}

fn main(rt: HostRuntime) -> ExitCode {
    let Ok(words) = words(&rt) else {
        return ExitCode::from(1);
    };
    for each in words.as_slice().chunks(3) {
        if act_on(&rt, each).is_none() {
            return ExitCode::from(1);
        }
    }
    ExitCode::from(0)
}
