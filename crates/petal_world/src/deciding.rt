//! Which steps are allowed.

ghost use Rattle.std.specs.Prelude.{◌≡◌, ◌↔◌, ℕ, false, Some, IsTrue, slice_get};
ghost use Rattle.petal_msg.specs.declared.letter.Actor.TheVariants as actor;
ghost use Rattle.client_core.specs.ClientView.{settle_of};
ghost use Rattle.client_core.specs.declared.order.Order.{Order};
ghost use Rattle.spec_rules.specs.Jobs.{operator};
ghost use Rattle.spec_rules.specs.World.{Setting, World, MayAct, MayBlank, MayBoot, MayCall, MayClient, MayGlance, MayReceive};
ghost use Rattle.spec_rules.specs.World.{MayServer, MayStep, MayStop, MayWork, received};
ghost use Rattle.petal_table.specs.Table.{at};
ghost use Rattle.server_host.specs.Playable.{AreOrdered};
ghost use Rattle.petal_world.specs.Lines.{HasArmed, HasBlanked, HasStarted, HasStopped, IsGiven, IsGivenBy, IsToStop, arms_of};
ghost use Rattle.petal_world.specs.Seats.{HasCalledSettle, seat_of};
ghost use Rattle.server_host.specs.Desks.{desk_of};
ghost use Rattle.server_host.specs.Sent.{name_of, name_cmp};
ghost use Rattle.petal_world.specs.Actors.{Shows};

use crate::actors::Actors;
use crate::control::Given;
use crate::seat::Seat;
use client_core::Order;
use petal_base::{ClientId, Inc, OPERATOR, ServerId, Stamp};
use petal_msg::{Actor, Letter};
use server_host::Host;
use server_host::desks::Desk;
use spec_rules::Step;

/// The greatest stamp: no step comes after it.
const LAST: Stamp = Stamp::MAX;

/// The stamp of what a step receives.
pub fn received(step: &Step) -> Stamp
    ensures { result ≡ received step.now }
{
    match step {
        Step::Deliver { letter } => letter.get().stamp,
        _ => 0,
    }
}

fn is_same_actor(one: Actor, other: Actor) -> bool
    ensures { IsTrue result ↔ (one ≡ other) }
{
    match (one, other) {
        (Actor::Server(n), Actor::Server(m)) => n == m,
        (Actor::Client(c), Actor::Client(d)) => c == d,
        (Actor::Server(_), Actor::Client(_)) | (Actor::Client(_), Actor::Server(_)) => false,
    }
}

/// Of two orders that arm nothing.
fn is_same_order(one: Order, other: Order) -> bool
    ensures { arms_of other ≡ false → IsTrue result ↔ (one ≡ other) }
{
    match (one, other) {
        (Order::Stop, Order::Stop) | (Order::Start, Order::Start) | (Order::Blank, Order::Blank) =>
            true,
        _ => false,
    }
}

/// Whether the order arms a device.
fn arms(order: Order) -> bool
    ensures { result ≡ arms_of order }
{
    match order {
        Order::Arm { which: _, plan: _ } => true,
        Order::Stop | Order::Start | Order::Blank => false,
    }
}

impl<H: Host> Actors<H> {
    /// Whether the letter was sent, and to this actor.
    fn may_deliver(&self, to: Actor, letter: &Letter) -> bool
        ensures { IsTrue result ↔ ((letter.now.to ≡ to) × (at name_cmp self.now.sent (name_of letter.now) ≡ Some letter.now)) }
    {
        is_same_actor(letter.to, to) && self.sent.has(letter)
    }

    /// Whether the letter was sent to this server, which is not at the operator's hand.
    fn may_receive(&self, server: ServerId, letter: &Letter) -> bool
        ensures { (setting : Setting) (w : World) → Shows setting w self.now → IsTrue result ↔ MayReceive w server letter.now }
    {
        if !self.control.is_free(server) {
            return false;
        }
        self.may_deliver(Actor::Server(server), letter)
    }

    /// The operator's open line that was not glanced at, with the order that it gives, and to which server.
    fn open_order(&self) -> Option<(u32, Order, ServerId)>
        ensures { (setting : Setting) (w : World) (line : ℕ) (order : Order) (n : ℕ) → Shows setting w self.now
            → (result ≡ Some (line, order, n)) ↔ IsGivenBy w order n line }
    {
        let Some(seat) = self.seats.get(OPERATOR) else {
            return None;
        };
        let Some((line, order, server)) = seat.core.order() else {
            return None;
        };
        if self.control.has_glanced(line) {
            return None;
        }
        Some((line, order, server))
    }

    /// The operator's open line, where it gives this server this order and was not glanced at.
    fn open_line(&self, order: Order, server: ServerId) -> Option<u32>
        requires { arms_of order ≡ false }
        ensures { (setting : Setting) (w : World) (line : ℕ) → Shows setting w self.now → (result ≡ Some line) ↔ IsGivenBy w order server line }
    {
        let Some((line, own, other)) = self.open_order() else {
            return None;
        };
        if !is_same_order(own, order) {
            return None;
        }
        if other != server {
            return None;
        }
        Some(line)
    }

    /// Whether the operator's open line gives this server this order.
    fn is_given(&self, order: Order, server: ServerId) -> bool
        requires { arms_of order ≡ false }
        ensures { (setting : Setting) (w : World) → Shows setting w self.now → IsTrue result ↔ IsGiven w order server }
    {
        match self.open_line(order, server) {
            None => false,
            Some(_line) => true,
        }
    }

    /// Whether it is this line, and gives this server this order.
    fn is_given_by(&self, order: Order, server: ServerId, line: u32) -> bool
        requires { arms_of order ≡ false }
        ensures { (setting : Setting) (w : World) → Shows setting w self.now → IsTrue result ↔ IsGivenBy w order server line }
    {
        match self.open_line(order, server) {
            None => false,
            Some(own) => own == line,
        }
    }

    /// Whether it stops this server first, as it does to blank it, too.
    fn is_to_stop(&self, server: ServerId) -> bool
        ensures { (setting : Setting) (w : World) → Shows setting w self.now → IsTrue result ↔ IsToStop w server }
    {
        if self.is_given(Order::Stop, server) {
            return true;
        }
        self.is_given(Order::Blank, server)
    }

    /// Whether the server may take a step by itself.
    fn may_act(&self, desk: &Desk<H>, server: ServerId) -> bool
        ensures { (setting : Setting) (w : World) → Shows setting w self.now → desk.now.desk ≡ desk_of setting w server
            → IsTrue result ↔ MayAct w server }
    {
        if !desk.host.is_running() {
            return false;
        }
        self.control.is_free(server)
    }

    /// Whether it may do a job.
    fn may_work(&self, desk: &Desk<H>, server: ServerId) -> bool
        ensures { (setting : Setting) (w : World) → Shows setting w self.now → desk.now.desk ≡ desk_of setting w server
            → IsTrue result ↔ MayWork w server }
    {
        if desk.host.is_idle() {
            return false;
        }
        self.may_act(desk, server)
    }

    /// Whether the server may stop.
    fn may_stop(&self, desk: &Desk<H>, server: ServerId) -> bool
        ensures { (setting : Setting) (w : World) → Shows setting w self.now → desk.now.desk ≡ desk_of setting w server
            → IsTrue result ↔ MayStop w server }
    {
        if !desk.host.is_running() {
            return false;
        }
        if !self.control.is_empty() {
            return false;
        }
        self.is_to_stop(server)
    }

    /// Whether the server's data device may be replaced by a blank one.
    fn may_blank(&self, desk: &Desk<H>, server: ServerId) -> bool
        ensures { (setting : Setting) (w : World) → Shows setting w self.now → desk.now.desk ≡ desk_of setting w server
            → IsTrue result ↔ MayBlank w server }
    {
        if desk.host.is_running() {
            return false;
        }
        if !self.is_given(Order::Blank, server) {
            return false;
        }
        if self.control.is_empty() {
            return true;
        }
        self.control.has(server, Given::Stop)
    }

    /// Whether the server may boot.
    fn may_boot(&self, desk: &Desk<H>, server: ServerId) -> bool
        ensures { (setting : Setting) (w : World) → Shows setting w self.now → desk.now.desk ≡ desk_of setting w server
            → IsTrue result ↔ MayBoot w server }
    {
        if desk.host.is_running() {
            return false;
        }
        if desk.host.inc() >= Inc::MAX {
            return false;
        }
        if self.control.has(server, Given::Blank) {
            return self.is_given(Order::Blank, server);
        }
        if !self.control.is_empty() {
            return false;
        }
        self.is_given(Order::Start, server)
    }

    /// Whether the open line is this one, and has stopped the server.
    fn has_stopped(&self, desk: &Desk<H>, server: ServerId, line: u32) -> bool
        ensures { (setting : Setting) (w : World) → Shows setting w self.now → desk.now.desk ≡ desk_of setting w server
            → IsTrue result ↔ HasStopped w server line }
    {
        if desk.host.is_running() {
            return false;
        }
        self.is_given_by(Order::Stop, server, line)
    }

    /// Whether the open line is this one, and has started the server, which runs or has booted.
    fn has_started(&self, desk: &Desk<H>, server: ServerId, line: u32) -> bool
        ensures { (setting : Setting) (w : World) → Shows setting w self.now → desk.now.desk ≡ desk_of setting w server
            → IsTrue result ↔ HasStarted w server line }
    {
        if !self.is_given_by(Order::Start, server, line) {
            return false;
        }
        if desk.host.is_running() {
            return true;
        }
        self.control.has(server, Given::Boot)
    }

    /// Whether the open line is this one, and has blanked the server, which has booted since.
    fn has_blanked(&self, server: ServerId, line: u32) -> bool
        ensures { (setting : Setting) (w : World) → Shows setting w self.now → IsTrue result ↔ HasBlanked w server line }
    {
        if !self.is_given_by(Order::Blank, server, line) {
            return false;
        }
        self.control.has(server, Given::Boot)
    }

    /// The operator's open line and its round, where it is a settle.
    pub fn settling(&self) -> Option<(u32, u32)>
        ensures { (setting : Setting) (w : World) → Shows setting w self.now → result ≡ settle_of (w.clients operator).asked }
    {
        let Some(seat) = self.seats.get(OPERATOR) else {
            return None;
        };
        seat.core.settles()
    }

    /// Whether the operator has called a settle of this number, which is open or answered.
    fn has_called_settle(&self, line: u32) -> bool
        ensures { (setting : Setting) (w : World) → Shows setting w self.now → IsTrue result ↔ HasCalledSettle (seat_of setting w operator) line }
    {
        let Some(seat) = self.seats.get(OPERATOR) else {
            return false;
        };
        seat.has_called_settle(line)
    }

    /// Whether the open line is this one, and arms one of the server's devices.
    fn has_armed(&self, server: ServerId, line: u32) -> bool
        ensures { (setting : Setting) (w : World) → Shows setting w self.now → IsTrue result ↔ HasArmed w server line }
    {
        let Some((own, order, other)) = self.open_order() else {
            return false;
        };
        if !arms(order) {
            return false;
        }
        if own != line {
            return false;
        }
        other == server
    }

    /// Whether the server may be glanced at: once after the steps that the line gives it, or in a round of a settle.
    fn may_glance(&self, desk: &Desk<H>, server: ServerId, line: u32, round: u32) -> bool
        ensures { (setting : Setting) (w : World) → Shows setting w self.now → desk.now.desk ≡ desk_of setting w server
            → IsTrue result ↔ MayGlance setting w server line round }
    {
        if round != 0 {
            return self.has_called_settle(line);
        }
        if self.has_stopped(desk, server, line) {
            return true;
        }
        if self.has_blanked(server, line) {
            return true;
        }
        if self.has_armed(server, line) {
            return true;
        }
        self.has_started(desk, server, line)
    }

    /// Whether the client may call this line.
    fn may_call(&self, seat: &Seat, line: u32) -> bool
        ensures { (setting : Setting) (w : World) (c : ℕ) → AreOrdered setting.lines → Shows setting w self.now → seat.now ≡ seat_of setting w c
            → IsTrue result ↔ MayCall setting w c line }
    {
        let Some(next) = seat.next_line() else {
            return false;
        };
        if next.number != line {
            return false;
        }
        if !seat.core.is_free() {
            return false;
        }
        self.waiting.is_after(next.phase)
    }

    fn may_react(&self, seat: &Seat, client: ClientId, step: &Step) -> bool
        ensures { (setting : Setting) (w : World) → AreOrdered setting.lines → Shows setting w self.now → seat.now ≡ seat_of setting w client
            → IsTrue result ↔ MayClient step.now setting w client }
    {
        match step {
            Step::Call { line } => self.may_call(seat, *line),
            Step::Deliver { letter } => self.may_deliver(Actor::Client(client), letter.get()),
            Step::Tick => true,
            Step::Work(_)
            | Step::StopIn(_)
            | Step::Stop
            | Step::Blank
            | Step::Boot(_)
            | Step::Arm { which: _, plan: _ }
            | Step::Glance { line: _, round: _ } => false,
        }
    }

    fn may_serve(&self, desk: &Desk<H>, server: ServerId, step: &Step) -> bool
        ensures { (setting : Setting) (w : World) → Shows setting w self.now → desk.now.desk ≡ desk_of setting w server
            → IsTrue result ↔ MayServer step.now setting w server }
    {
        match step {
            Step::Call { line: _ } => false,
            Step::Deliver { letter } => self.may_receive(server, letter.get()),
            Step::Tick => self.may_act(desk, server),
            Step::Work(_) | Step::StopIn(_) => self.may_work(desk, server),
            Step::Stop => self.may_stop(desk, server),
            Step::Blank => self.may_blank(desk, server),
            Step::Boot(_) => self.may_boot(desk, server),
            Step::Arm { which: _, plan: _ } => true,
            Step::Glance { line, round } => self.may_glance(desk, server, *line, *round),
        }
    }

    fn may_client(&self, client: ClientId, step: &Step) -> bool
        ensures { (setting : Setting) (w : World) → AreOrdered setting.lines → Shows setting w self.now
            → IsTrue result ↔ MayStep setting w (actor.Client client) step.now }
    {
        let Some(seat) = self.seats.get(client) else {
            return false;
        };
        if seat.clock >= LAST {
            return false;
        }
        if received(step) >= LAST {
            return false;
        }
        if seat.core.spent() {
            return false;
        }
        self.may_react(seat, client, step)
    }

    fn may_server(&self, server: ServerId, step: &Step) -> bool
        ensures { (setting : Setting) (w : World) → Shows setting w self.now → IsTrue result ↔ MayStep setting w (actor.Server server) step.now }
    {
        let Some(desk) = self.desks.get(server) else {
            return false;
        };
        if desk.clock >= LAST {
            return false;
        }
        if received(step) >= LAST {
            return false;
        }
        if desk.host.is_spent() {
            return false;
        }
        self.may_serve(desk, server, step)
    }

    /// Whether the step is one of the world's.
    pub fn may(&self, actor: Actor, step: &Step) -> bool
        ensures { (setting : Setting) (w : World) → AreOrdered setting.lines → Shows setting w self.now → IsTrue result ↔ MayStep setting w actor step.now }
    {
        match actor {
            Actor::Server(server) => self.may_server(server, step),
            Actor::Client(client) => self.may_client(client, step),
        }
    }
}
