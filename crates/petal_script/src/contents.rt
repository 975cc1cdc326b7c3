//! The contents of a block as they are printed.

ghost use Rattle.std.specs.Prelude.{◌≡◌, ◌≤◌, ◌<◌, ◌==◌, ◌∷◌, ℕ, length, IfOk, MatchOption, slice_index, string_bytes};
ghost use Rattle.std.specs.List.{prefix_len, flat_map};
ghost use Rattle.script_lines.specs.Contents.{runs, run_text, digest_text, contents_text};

use petal_base::NoMemory;
use script_lines::Run;
use sha2::{Digest, Sha256};
use std::alloc::Global;

/// So many runs are printed one by one; of contents with more the digest is printed.
const MOST_RUNS: usize = 8;

/// How many bytes at the front are this one.
#[tactic(auto, using(crate::proofs::Kept::prefix_lens))]
fn run_len(bytes: &[u8], byte: u8) -> usize
    ensures value { result ≡ prefix_len (λ b. b == byte) bytes.now }
    ensures bound { result ≤ length bytes.now }
{
    bytes.iter().take_while(|b| **b == byte).count()
}

/// The first run, and the bytes after it.
#[tactic(auto, using(crate::proofs::Runs::first_of_runs, crate::proofs::Runs::some_front))]
fn first_run(bytes: &[u8]) -> (Run, &[u8])
    requires { 0 < length bytes.now }
    ensures runs { runs bytes.now ≡ result.0 ∷ runs result.1.now }
    ensures less { length result.1.now < length bytes.now }
{
    let byte = bytes[0];
    let count = run_len(bytes, byte);
    let (_, rest) = bytes.split_at(count);
    (Run { count, byte }, rest)
}

/// All runs, or none where there are more than are printed one by one: then the ninth ends the search.
fn few_runs(alloc: Global, bytes: &[u8]) -> Result<Option<Vec<Run>>, NoMemory>
    ensures { IfOk result (λ found. MatchOption found (8 < length (runs bytes.now)) (λ few. (few.items ≡ runs bytes.now) × (length (runs bytes.now) ≤ 8))) }
{
    let mut few = Vec::new(alloc);
    let mut rest = bytes;
    while !rest.is_empty() {
        if few.len() == MOST_RUNS {
            return Ok(None);
        }
        let (run, after) = first_run(rest);
        few.push(run)?;
        rest = after;
    }
    Ok(Some(few))
}

fn run_text(alloc: Global, run: &Run) -> Result<String, NoMemory>
    ensures { IfOk result (λ text. string_bytes text ≡ run_text run.now) }
{
    let count = run.count;
    let byte = run.byte;
    Ok(format!(in alloc; " {count}x{byte}")?)
}

fn runs_text(alloc: Global, runs: &[Run]) -> Result<String, NoMemory>
    ensures { IfOk result (λ text. string_bytes text ≡ flat_map run_text runs.now) }
{
    let mut text = String::new(alloc);
    for run in runs {
        text.push_str(&run_text(alloc, run)?)?;
    }
    Ok(text)
}

fn digest_text(alloc: Global, bytes: &[u8]) -> Result<String, NoMemory>
    ensures { IfOk result (λ text. string_bytes text ≡ digest_text bytes.now) }
{
    let digits = hex::encode(alloc, Sha256::digest(bytes))?;
    Ok(format!(in alloc; " sha256 {digits}")?)
}

/// The contents as they are printed after `data`. Bytes of few runs are read once; those of more are read up to the
/// ninth run and then taken into the digest.
#[tactic(auto, unfolding(script_lines::specs::Contents::contents_text))]
pub(crate) fn contents_text(alloc: Global, bytes: &[u8]) -> Result<String, NoMemory>
    ensures { IfOk result (λ text. string_bytes text ≡ contents_text bytes.now) }
{
    match few_runs(alloc, bytes)? {
        Some(few) => runs_text(alloc, &few),
        None => digest_text(alloc, bytes),
    }
}
