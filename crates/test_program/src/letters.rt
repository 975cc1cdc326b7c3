//! How often the letters of a history were handed over.

use petal_msg::{Body, SharedLetter};
use spec_history::Record;
use spec_rules::Step;

fn is_delivery_of(record: &Record, letter: &SharedLetter) -> bool {
    match &record.step {
        Step::Deliver { letter: delivered } => delivered.get().is_same(letter.get()),
        _ => false,
    }
}

/// How often a letter was handed over.
fn times(records: &[Record], letter: &SharedLetter) -> usize {
    records
        .iter()
        .filter(|record| is_delivery_of(record, letter))
        .count()
}

/// Whether it is a letter of the agreed log. When a run ends some of these are still on their way.
fn is_of_log(body: &Body) -> bool {
    match body {
        Body::Propose { .. } | Body::Pax(_) | Body::Ask { .. } | Body::News { .. } => true,
        _ => false,
    }
}

/// How many of a record's letters were handed over so often.
fn sent_with(records: &[Record], record: &Record, count: usize) -> usize {
    record
        .sent
        .as_slice()
        .iter()
        .filter(|letter| !is_of_log(&letter.get().body) && times(records, letter) == count)
        .count()
}

/// How many letters of requests and of pairs were never handed over, how many once, and how many twice.
pub fn letters(records: &[Record]) -> [usize; 3] {
    let mut counts = [0usize; 3];
    for record in records {
        for (count, letters) in counts.iter_mut().enumerate() {
            *letters = letters.saturating_add(sent_with(records, record, count));
        }
    }
    counts
}
