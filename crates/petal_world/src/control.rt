//! What was done of the operator's last line.

ghost use Rattle.std.specs.Prelude.{◌≡◌, ◌≢◌, ◌↔◌, Some, None, IsTrue};
ghost use Rattle.spec_rules.specs.World.{controls};
ghost use Rattle.spec_rules.specs.World as rules;
ghost use Rattle.petal_world.specs.Lines.{deed_of};

use petal_base::ServerId;
use spec_rules::Step;
use std::marker::Model;

/// A step that a line of the operator gives a server.
#[derive(Clone, Copy, Debug)]
pub enum Given {
    Stop,
    Blank,
    Boot,
}

/// The server at the operator's hand, with the last step that the line gave it, until that server is glanced at; and the line of
/// the last glance.
#[derive(Drop)]
pub struct Control {
    hand: Option<(ServerId, Given)>,
    glanced: Option<u32>,
}

impl Model for Control {
    ghost use Rattle.spec_rules.specs.World.{Control};
    ghost use Rattle.petal_world.specs.Lines.{hand_of};

    ghost Value = { Control };

    ghost view = { λ c. record { hand = hand_of c.hand; glanced = c.glanced } };
}

impl Control {
    /// Nothing was done.
    pub fn new() -> Control
        ensures { result ≡ record { hand = None; glanced = None } }
    {
        Control {
            hand: None,
            glanced: None,
        }
    }

    /// A server took a step.
    pub fn note(&mut self, server: ServerId, step: &Step)
        ensures { self.new ≡ controls step.now server self.old }
    {
        match step {
            Step::Stop => self.hand = Some((server, Given::Stop)),
            Step::Blank => self.hand = Some((server, Given::Blank)),
            Step::Boot(_) => self.hand = Some((server, Given::Boot)),
            Step::Glance { line, round } if *round == 0 => {
                self.hand = None;
                self.glanced = Some(*line);
            }
            _ => {}
        }
    }

    /// Whether no server is at the operator's hand.
    pub fn is_empty(&self) -> bool
        ensures { IsTrue result ↔ (self.now.hand ≡ None) }
    {
        self.hand.is_none()
    }

    /// Whether this server is not at the operator's hand.
    pub fn is_free(&self, server: ServerId) -> bool
        ensures { IsTrue result ↔ ((deed : rules.Deed) → self.now.hand ≢ Some (server, deed)) }
    {
        match self.hand {
            None => true,
            Some((held, _)) => held != server,
        }
    }

    /// Whether this server is at the operator's hand, and took this step last.
    pub fn has(&self, server: ServerId, given: Given) -> bool
        ensures { IsTrue result ↔ (self.now.hand ≡ Some (server, deed_of given)) }
    {
        match (self.hand, given) {
            (Some((held, Given::Stop)), Given::Stop)
            | (Some((held, Given::Blank)), Given::Blank)
            | (Some((held, Given::Boot)), Given::Boot) => held == server,
            _ => false,
        }
    }

    /// Whether the last glance was this line's.
    pub fn has_glanced(&self, line: u32) -> bool
        ensures { IsTrue result ↔ (self.now.glanced ≡ Some line) }
    {
        match self.glanced {
            None => false,
            Some(glanced) => glanced == line,
        }
    }
}
