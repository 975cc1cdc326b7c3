//! Letters on their way.

use petal_base::{NoMemory, Sequence};
use petal_msg::{Body, SharedLetter};
use std::alloc::Global;
use std::collections::VecDeque;

/// For each box the letters that were sent to it and not yet handed over, in the order of sending.
#[derive(Drop)]
pub struct Mailboxes {
    boxes: Vec<VecDeque<SharedLetter>>,
    handed: u32,
    // Whether a letter was lost since that was last asked.
    has_lost: bool,
    lose: Option<u32>,
    twice: Option<u32>,
}

/// How often a letter is handed over.
#[derive(Clone, Copy, Debug, PartialEq, Eq)]
pub enum Handing {
    Lost,
    Once,
    Twice,
}

fn is_due(every: Option<u32>, count: u32) -> bool {
    match every {
        Some(every) => every != 0 && count % every == 0,
        None => false,
    }
}

impl Mailboxes {
    /// So many empty boxes. Every `lose`-th letter is lost, and every `twice`-th is handed over twice.
    pub fn new(
        alloc: Global,
        places: usize,
        lose: Option<u32>,
        twice: Option<u32>,
    ) -> Result<Mailboxes, NoMemory> {
        let mut boxes = Vec::new(alloc);
        for _ in 0..places {
            boxes.push(VecDeque::new(alloc))?;
        }
        Ok(Mailboxes {
            boxes,
            handed: 0,
            has_lost: false,
            lose,
            twice,
        })
    }

    /// A letter is on its way to the box at this place.
    pub fn send(&mut self, place: usize, letter: SharedLetter) -> Result<(), NoMemory> {
        if let Some(mail) = self.boxes.get_mut(place) {
            mail.push_back(letter)?;
        }
        Ok(())
    }

    /// How many letters are in the box at this place.
    pub fn waiting(&self, place: usize) -> usize {
        match self.boxes.get(place) {
            Some(mail) => mail.len(),
            None => 0,
        }
    }

    /// The next letter of the box at this place.
    pub fn take(&mut self, place: usize) -> Option<SharedLetter> {
        self.boxes.get_mut(place)?.pop_front()
    }

    /// Puts so many of the first letters of the box at this place after its others.
    pub fn turn(&mut self, place: usize, count: usize) -> Result<(), NoMemory> {
        for _ in 0..count {
            if let Some(letter) = self.take(place) {
                self.send(place, letter)?;
            }
        }
        Ok(())
    }

    /// What becomes of the next letter that is to be handed over. A letter that is lost is not doubled. That a server has stopped,
    /// and what the operator saw of it, comes exactly once, since nobody says it again.
    pub fn next_handing(&mut self, body: &Body) -> Handing {
        if let Body::Down { .. } | Body::Seen { .. } = body {
            return Handing::Once;
        }
        self.handed = self.handed.wrapping_add(1);
        if is_due(self.lose, self.handed) {
            self.has_lost = true;
            Handing::Lost
        } else if is_due(self.twice, self.handed) {
            Handing::Twice
        } else {
            Handing::Once
        }
    }

    /// Whether a letter was lost since this was last asked.
    pub fn take_loss(&mut self) -> bool {
        let lost = self.has_lost;
        self.has_lost = false;
        lost
    }
}
