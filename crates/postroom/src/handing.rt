//! Which letters are lost, and which are handed over twice.

use petal_msg::Body;
use std::sync::atomic::{AtomicU64, Ordering};

/// How often a letter is handed over.
#[derive(Clone, Copy, Debug, PartialEq, Eq)]
pub enum Handing {
    Lost,
    Once,
    Twice,
}

/// Counts the letters that are handed over, by any thread.
#[derive(Drop)]
pub struct Handings {
    counted: AtomicU64,
    lose: Option<u32>,
    twice: Option<u32>,
}

fn is_due(every: Option<u32>, count: u64) -> bool {
    match every {
        Some(every) => every != 0 && count % u64::from(every) == 0,
        None => false,
    }
}

impl Handings {
    /// Every `lose`-th letter is lost, and every `twice`-th is handed over twice.
    pub fn new(lose: Option<u32>, twice: Option<u32>) -> Handings {
        Handings {
            counted: AtomicU64::new(0),
            lose,
            twice,
        }
    }

    /// What becomes of the next letter. A letter that is lost is not doubled. That a server has stopped, and what the operator saw
    /// of it, comes exactly once and is not counted, since nobody says it again.
    pub fn next(&self, body: &Body) -> Handing {
        if let Body::Down { .. } | Body::Seen { .. } = body {
            return Handing::Once;
        }
        let count = self.counted.fetch_add(1, Ordering::SeqCst).wrapping_add(1);
        if is_due(self.lose, count) {
            Handing::Lost
        } else if is_due(self.twice, count) {
            Handing::Twice
        } else {
            Handing::Once
        }
    }
}
