//! What joins the actors, after some records of a history.

ghost use Rattle.std.specs.Prelude.{◌≡◌, ◌≢◌, ◌<◌, ◌+◌, ◌==◌, Some, IfOk, IsTrue, length, option_copied, slice_get, take};
ghost use Rattle.petal_msg.specs.declared.letter.Actor.TheVariants as actor;
ghost use Rattle.script_lines.specs.declared.request.Line.{Line};
ghost use Rattle.spec_rules.specs.World.{Blanks, Boots, IsDone, Stops, setting_of, start};
ghost use Rattle.spec_history.specs.Controls.{no_errand};
ghost use Rattle.server_host.specs.Playable.{AreNumbered};
ghost use Rattle.petal_world.specs.Actors.{without_answered};
ghost use Rattle.spec_rules.specs.Jobs.{operator};
ghost use Rattle.spec_history.specs.declared.record.Record as spec;
ghost use Rattle.history_merge.specs.Fronts.{GlancesIn, HasOrder, HasSettled, IsAdmitted, IsAdmittedAs, IsAllowedIn, IsCallIn, IsFreeIn, IsOrderedIn};
ghost use Rattle.history_merge.specs.Fronts.{IsTurnIn, Shows, called_after, controlled, errand_after, front_after, opened, runs_in, shows_running};

use crate::lookup::is_sent_in;
use crate::turns::{blanks, boots, is_done, stops};
use petal_base::{CLIENTS, ClientId, NoMemory, OPERATOR, Sequence, ServerId};
use petal_msg::{Actor, Body, SharedLetter};
use petal_world::control::Control;
use petal_world::copies::lines_of;
use petal_world::errand::Errand;
use script_lines::{Answer, Line, Request, Script};
use server_host::copies::line_again;
use server_host::waiting::Waiting;
use spec_history::Record;
use spec_rules::Step;
use std::alloc::Global;

/// The operator's lines, how many of them it has called, and the last one where it is open; what was done of it, and what it has still
/// to give; and the lines that are not answered.
#[derive(Drop)]
pub struct Front {
    pub orders: Sequence<Line>,
    pub called: usize,
    pub order: Option<Line>,
    pub control: Control,
    pub errand: Errand,
    pub waiting: Waiting,
}

fn shows_running(letter: &SharedLetter) -> bool
    ensures { result ≡ shows_running letter.now.body }
{
    match letter.get().body {
        Body::Seen {
            line: _,
            round: _,
            running,
            inc: _,
            full: _,
        } => running,
        _ => false,
    }
}

/// Whether a server runs, as the record of a stop, a blank, a boot or a glance tells.
fn runs(own: &Record) -> bool
    ensures { result ≡ runs_in own.now.step own.now.sent }
{
    match own.step {
        Step::Stop => true,
        Step::Glance { line: _, round: _ } => match own.sent.as_slice().first() {
            None => false,
            Some(letter) => shows_running(letter),
        },
        _ => false,
    }
}

impl Front {
    /// Before all records.
    pub fn start(alloc: Global, script: &Script) -> Result<Front, NoMemory>
        requires { AreNumbered script.now.lines }
        ensures { IfOk result (λ front. Shows (setting_of script.now) (start (setting_of script.now)) no_errand front) }
    {
        Ok(Front {
            orders: lines_of(alloc, script.lines.as_slice(), OPERATOR)?,
            called: 0,
            order: None,
            control: Control::new(),
            errand: Errand::none(),
            waiting: Waiting::start(alloc, script.lines.as_slice())?,
        })
    }

    /// The operator's open line that was not glanced at.
    fn unglanced(&self) -> Option<&Line>
        ensures { (line : Line) → option_copied result ≡ Some line
            → (self.now.order ≡ Some line) × (self.now.control.glanced ≢ Some line.number) }
    {
        let Some(line) = &self.order else {
            return None;
        };
        if self.control.has_glanced(line.number) {
            return None;
        }
        Some(line)
    }

    fn may_stop(&self, server: ServerId) -> bool
        ensures { IsTrue result → IsOrderedIn self.now (λ line. Stops line.request server self.now.control.hand) }
    {
        match self.unglanced() {
            None => false,
            Some(line) => stops(&line.request, server, &self.control),
        }
    }

    fn may_blank(&self, server: ServerId) -> bool
        ensures { IsTrue result → IsOrderedIn self.now (λ line. Blanks line.request server self.now.control.hand) }
    {
        match self.unglanced() {
            None => false,
            Some(line) => blanks(&line.request, server, &self.control),
        }
    }

    fn may_boot(&self, server: ServerId) -> bool
        ensures { IsTrue result → IsOrderedIn self.now (λ line. Boots line.request server self.now.control.hand) }
    {
        match self.unglanced() {
            None => false,
            Some(line) => boots(&line.request, server, &self.control),
        }
    }

    fn has_done(&self, server: ServerId, number: u32, running: bool) -> bool
        ensures { IsTrue result → IsOrderedIn self.now (λ line. (line.number ≡ number) × IsDone line.request server running self.now.control.hand) }
    {
        match self.unglanced() {
            None => false,
            Some(line) => {
                line.number == number && is_done(&line.request, server, running, &self.control)
            }
        }
    }

    /// Whether the operator has called a settle of this number. Where it is not found none is told of: lines stand by rising number in
    /// each script that can be read.
    fn has_settled(&self, number: u32) -> bool
        ensures { IsTrue result → HasSettled self.now number }
    {
        let place = self
            .orders
            .as_slice()
            .partition_point(|line| line.number < number);
        if place >= self.called {
            return false;
        }
        match self.orders.as_slice().get(place) {
            None => false,
            Some(line) => line.number == number && matches!(line.request, Request::Settle),
        }
    }

    fn may_glance(&self, server: ServerId, line: u32, round: u32, running: bool) -> bool
        ensures { IsTrue result → GlancesIn (round == 0) self.now server line round running }
    {
        if round == 0 {
            self.has_done(server, line, running)
        } else {
            self.has_settled(line)
        }
    }

    /// Whether the server's step comes where the operator's lines have it.
    fn is_turn(&self, server: ServerId, step: &Step, running: bool) -> bool
        ensures { IsTrue result → IsTurnIn step.now self.now server running }
    {
        match step {
            Step::Call { line: _ } => false,
            Step::Deliver { letter: _ } | Step::Tick | Step::Work(_) | Step::StopIn(_) => {
                self.control.is_free(server)
            }
            Step::Stop => self.may_stop(server),
            Step::Blank => self.may_blank(server),
            Step::Boot(_) => self.may_boot(server),
            Step::Arm { which: _, plan: _ } => true,
            Step::Glance { line, round } => self.may_glance(server, *line, *round, running),
        }
    }

    /// Whether the line's errand allows it.
    fn is_allowed(&self, server: ServerId, step: &Step, running: bool) -> bool
        ensures { IsTrue result → IsAllowedIn step.now self.now.errand server running }
    {
        let actor = Actor::Server(server);
        match step {
            Step::Arm { which: _, plan: _ } => {
                self.errand.allows(actor, true, step) && self.errand.allows(actor, false, step)
            }
            _ => self.errand.allows(actor, running, step),
        }
    }

    fn is_called_in_order(&self, client: ClientId, own: &Record) -> bool
        ensures { IsTrue result → IsCallIn own.now.step self.now own.now.phase × HasOrder (actor.Client client) own.now.step self.now }
    {
        match own.step {
            Step::Call { line: _ } => {
                if client == OPERATOR && self.called >= self.orders.len() {
                    return false;
                }
                self.waiting.is_after(own.phase)
            }
            _ => true,
        }
    }

    fn is_in_turn(&self, servers: u8, own: &Record) -> bool
        ensures { IsTrue result → IsAdmittedAs own.now.actor self.now servers own.now }
    {
        match own.actor {
            Actor::Server(server) => {
                let running = runs(own);
                server < servers
                    && self.is_turn(server, &own.step, running)
                    && self.is_allowed(server, &own.step, running)
            }
            Actor::Client(client) => client < CLIENTS && self.is_called_in_order(client, own),
        }
    }

    /// Whether the record at a place comes next, after all records before it.
    pub fn admits(&self, servers: u8, records: &[Record], place: usize) -> bool
        requires { place < length records.now }
        ensures { IsTrue result → (own : spec.Record) → slice_get records.now place ≡ Some own → IsAdmitted self.now servers (take place records.now) own }
    {
        let own = &records[place];
        if let Step::Deliver { letter } = &own.step {
            if !is_sent_in(records, place, letter.get()) {
                return false;
            }
        }
        self.is_in_turn(servers, own)
    }

    /// The operator calls its next line.
    fn call(&mut self)
        requires { self.old.called < length self.old.orders }
        ensures { self.new ≡ record self.old { called = self.old.called + 1; order = slice_get self.old.orders self.old.called } }
    {
        // What `len` promises tells the proof that one line more can be counted.
        let _ = self.orders.len();
        self.order = Some(line_again(self.orders.get(self.called)));
        self.called += 1;
    }

    /// A record of the operator is taken.
    fn operate(&mut self, own: &Record)
        requires { HasOrder (actor.Client operator) own.now.step self.old }
        ensures { self.new ≡ record self.old {
          called = called_after (actor.Client operator) own.now.step self.old;
          order = opened (actor.Client operator) own.now self.old;
        } }
    {
        if let Step::Call { line: _ } = own.step {
            self.call();
        }
        if own.answer.is_some() {
            self.order = None;
        }
    }

    fn follow_actor(&mut self, own: &Record)
        requires { HasOrder own.now.actor own.now.step self.old }
        ensures { self.new ≡ record self.old {
          called = called_after own.now.actor own.now.step self.old;
          order = opened own.now.actor own.now self.old;
          control = controlled own.now.actor own.now.step self.old.control;
        } }
    {
        match own.actor {
            Actor::Server(server) => self.control.note(server, &own.step),
            Actor::Client(client) => {
                if client == OPERATOR {
                    self.operate(own);
                }
            }
        }
    }

    fn note_answer(&mut self, answer: &Option<(u32, Answer)>)
        ensures { self.new ≡ record self.old { waiting = without_answered self.old.waiting answer.now } }
    {
        if let Some((line, _answer)) = answer {
            self.waiting.answered(*line);
        }
    }

    fn note_errand(&mut self, own: &Record)
        ensures { self.new ≡ record self.old { errand = errand_after own.now self.old } }
    {
        let next = self.orders.as_slice().get(self.called);
        self.errand = self.errand.after(own.actor, runs(own), &own.step, next);
    }

    /// The record is taken.
    pub fn follow(&mut self, own: &Record)
        requires { HasOrder own.now.actor own.now.step self.old }
        ensures { self.new ≡ front_after own.now self.old }
    {
        self.note_errand(own);
        self.follow_actor(own);
        self.note_answer(&own.answer);
    }
}
