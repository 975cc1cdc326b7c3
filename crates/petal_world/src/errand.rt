//! The operator's last line on its way.

ghost use Rattle.std.specs.Prelude.{◌≡◌, ◌↔◌, None, Some, drop, option_copied, IsTrue};
ghost use Rattle.script_lines.specs.Requests.{names};
ghost use Rattle.spec_history.specs.Controls.{IsLeftAlone, IsNext, IsThrough, ObeysAs, due, errand_of, no_errand, served, steps_of};
ghost use Rattle.petal_world.specs.Errands.{ObeysBy, called_next, errand_next, first_step, given_in, given_of, steps_left};

use device_faults::{CallKind, Plan, Which};
use petal_base::{ClientId, OPERATOR, ServerId};
use petal_msg::Actor;
use script_lines::{Line, Request};
use spec_rules::Step;
use std::marker::Model;

/// A step that a line gives its server.
#[derive(Clone, Copy)]
pub enum Deed {
    Stop,
    Blank,
    Arm { which: Which, plan: Option<Plan> },
    Boot,
}

/// The steps that a line has still to give. Before a boot both devices lose their plans, the data device first.
#[derive(Clone, Copy)]
pub enum Left {
    Nothing,
    Stop,
    StopAndBlank,
    Blank,
    Disarm,
    DisarmState,
    Boot,
    Arm { which: Which, plan: Plan },
}

/// The line's server, the steps that it has still to give, and whether it has given one. Contracts see the errand of the rules.
#[derive(Drop)]
pub struct Errand {
    server: Option<ServerId>,
    left: Left,
    begun: bool,
}

impl Model for Errand {
    ghost use Rattle.spec_history.specs.Controls.{Errand};
    ghost use Rattle.petal_world.specs.Errands.{steps_left};

    ghost Value = { Errand };

    ghost view = { λ e. record { server = e.server; left = steps_left e.left; begun = e.begun } };
}

fn is_same_kind(one: CallKind, other: CallKind) -> bool
    ensures { IsTrue result ↔ (one ≡ other) }
{
    match (one, other) {
        (CallKind::Any, CallKind::Any)
        | (CallKind::Read, CallKind::Read)
        | (CallKind::Write, CallKind::Write)
        | (CallKind::Sync, CallKind::Sync) => true,
        _ => false,
    }
}

fn is_same_plan(one: Plan, other: Plan) -> bool
    ensures { IsTrue result ↔ (one ≡ other) }
{
    if !is_same_kind(one.kind, other.kind) {
        return false;
    }
    one.at == other.at && one.stop == other.stop && one.late == other.late
}

fn is_same_arming(one: Option<Plan>, other: Option<Plan>) -> bool
    ensures { IsTrue result ↔ (one ≡ other) }
{
    match (one, other) {
        (None, None) => true,
        (Some(one), Some(other)) => is_same_plan(one, other),
        (None, Some(_)) | (Some(_), None) => false,
    }
}

fn is_same_device(one: Which, other: Which) -> bool
    ensures { IsTrue result ↔ (one ≡ other) }
{
    match (one, other) {
        (Which::Data, Which::Data) | (Which::State, Which::State) => true,
        (Which::Data, Which::State) | (Which::State, Which::Data) => false,
    }
}

fn is_same_deed(one: Deed, other: Deed) -> bool
    ensures { IsTrue result ↔ (given_of one ≡ given_of other) }
{
    match (one, other) {
        (Deed::Stop, Deed::Stop) | (Deed::Blank, Deed::Blank) | (Deed::Boot, Deed::Boot) => true,
        (
            Deed::Arm { which, plan },
            Deed::Arm {
                which: device,
                plan: wanted,
            },
        ) => {
            if !is_same_device(which, device) {
                return false;
            }
            is_same_arming(plan, wanted)
        }
        _ => false,
    }
}

impl Left {
    /// Those of a request.
    pub fn of(request: &Request) -> Left
        ensures { steps_left result ≡ steps_of request.now }
    {
        match request {
            Request::Stop { server: _ } => Left::Stop,
            Request::StopAt { server: _, at } => Left::Arm {
                which: Which::Data,
                plan: Plan {
                    kind: CallKind::Any,
                    at: *at,
                    stop: true,
                    late: false,
                },
            },
            Request::Fault {
                server: _,
                which,
                kind,
                at,
            } => Left::Arm {
                which: *which,
                plan: Plan {
                    kind: *kind,
                    at: *at,
                    stop: false,
                    late: false,
                },
            },
            Request::Start { server: _ } => Left::Disarm,
            Request::Blank { server: _ } => Left::StopAndBlank,
            _ => Left::Nothing,
        }
    }

    /// Without a stop of a server that is stopped, and a boot of one that runs.
    pub fn due(self, running: bool) -> Left
        ensures { steps_left result ≡ due running (steps_left self) }
    {
        match self {
            Left::Boot if running => Left::Nothing,
            Left::Stop if !running => Left::Nothing,
            Left::StopAndBlank if !running => Left::Blank,
            left => left,
        }
    }

    /// The first of them.
    pub fn first(self) -> Option<Deed>
        ensures { given_in result ≡ first_step (steps_left self) }
    {
        match self {
            Left::Nothing => None,
            Left::Stop | Left::StopAndBlank => Some(Deed::Stop),
            Left::Blank => Some(Deed::Blank),
            Left::Disarm => Some(Deed::Arm {
                which: Which::Data,
                plan: None,
            }),
            Left::DisarmState => Some(Deed::Arm {
                which: Which::State,
                plan: None,
            }),
            Left::Boot => Some(Deed::Boot),
            Left::Arm { which, plan } => Some(Deed::Arm {
                which,
                plan: Some(plan),
            }),
        }
    }

    /// Those after the first one.
    pub fn rest(self) -> Left
        ensures { steps_left result ≡ drop 1 (steps_left self) }
    {
        match self {
            Left::StopAndBlank => Left::Blank,
            Left::Blank => Left::Disarm,
            Left::Disarm => Left::DisarmState,
            Left::DisarmState => Left::Boot,
            Left::Nothing | Left::Stop | Left::Boot | Left::Arm { which: _, plan: _ } =>
                Left::Nothing,
        }
    }
}

/// The server that a request names.
pub fn server_of(request: &Request) -> Option<ServerId>
    ensures { result ≡ (names request.now).server }
{
    match request {
        Request::Stop { server }
        | Request::StopAt { server, at: _ }
        | Request::Start { server }
        | Request::Blank { server } => Some(*server),
        Request::Fault {
            server,
            which: _,
            kind: _,
            at: _,
        } => Some(*server),
        _ => None,
    }
}

impl Errand {
    /// No line is on its way.
    pub fn none() -> Errand
        ensures { result ≡ no_errand }
    {
        Errand {
            server: None,
            left: Left::Nothing,
            begun: false,
        }
    }

    /// A line that is called.
    pub fn of(line: Option<&Line>) -> Errand
        ensures { result ≡ errand_of (option_copied line.entry) }
    {
        match line {
            None => Errand::none(),
            Some(line) => Errand {
                server: server_of(&line.request),
                left: Left::of(&line.request),
                begun: false,
            },
        }
    }

    fn is_of(&self, server: ServerId) -> bool
        ensures { IsTrue result ↔ (self.now.server ≡ Some server) }
    {
        match self.server {
            None => false,
            Some(own) => own == server,
        }
    }

    fn is_next(&self, server: ServerId, running: bool, deed: Deed) -> bool
        ensures { IsTrue result ↔ IsNext self.now server running (given_of deed) }
    {
        if !self.is_of(server) {
            return false;
        }
        match self.left.due(running).first() {
            None => false,
            Some(next) => is_same_deed(next, deed),
        }
    }

    fn is_through(&self, server: ServerId, running: bool) -> bool
        ensures { IsTrue result ↔ IsThrough self.now server running }
    {
        if !self.is_of(server) {
            return false;
        }
        self.left.due(running).first().is_none()
    }

    fn leaves_alone(&self, server: ServerId) -> bool
        ensures { IsTrue result ↔ IsLeftAlone self.now server }
    {
        if !self.begun {
            return true;
        }
        !self.is_of(server)
    }

    /// Whether a server that runs, or not, may take the step.
    fn allows_server(&self, server: ServerId, running: bool, step: &Step) -> bool
        ensures { IsTrue result ↔ ObeysAs step.now self.now server running }
    {
        match step {
            Step::Stop => self.is_next(server, running, Deed::Stop),
            Step::Blank => self.is_next(server, running, Deed::Blank),
            Step::Boot(_) => self.is_next(server, running, Deed::Boot),
            Step::Arm { which, plan } => {
                let deed = Deed::Arm {
                    which: *which,
                    plan: *plan,
                };
                self.is_next(server, running, deed)
            }
            Step::Glance { line: _, round } if *round == 0 => self.is_through(server, running),
            _ => self.leaves_alone(server),
        }
    }

    /// Whether an actor, a server that runs or not, may take the step.
    pub fn allows(&self, actor: Actor, running: bool, step: &Step) -> bool
        ensures { IsTrue result ↔ ObeysBy actor step.now self.now running }
    {
        match actor {
            Actor::Server(server) => self.allows_server(server, running, step),
            Actor::Client(_) => true,
        }
    }

    /// The same, with these steps left.
    fn with(&self, left: Left, begun: bool) -> Errand
        ensures { result ≡ record self.now { left = steps_left left; begun = begun } }
    {
        Errand {
            server: self.server,
            left,
            begun,
        }
    }

    /// What a step leaves of it, of a server that ran or not.
    fn after_server(&self, running: bool, step: &Step) -> Errand
        ensures { result ≡ served step.now running self.now }
    {
        match step {
            Step::Stop | Step::Blank | Step::Boot(_) | Step::Arm { which: _, plan: _ } => self.with(
                self.left.due(running).rest(),
                true,
            ),
            Step::Glance { line: _, round } if *round == 0 => Errand::none(),
            _ => self.with(self.left, self.begun),
        }
    }

    /// What a step of a client leaves of it, which calls this line where it is the operator and calls one.
    fn after_client(&self, client: ClientId, step: &Step, next: Option<&Line>) -> Errand
        ensures { result ≡ called_next client step.now (option_copied next.entry) self.now }
    {
        match step {
            Step::Call { line: _ } if client == OPERATOR => Errand::of(next),
            _ => self.with(self.left, self.begun),
        }
    }

    /// What the step leaves of it.
    pub fn after(&self, actor: Actor, running: bool, step: &Step, next: Option<&Line>) -> Errand
        ensures { result ≡ errand_next actor step.now running (option_copied next.entry) self.now }
    {
        match actor {
            Actor::Server(_) => self.after_server(running, step),
            Actor::Client(client) => self.after_client(client, step, next),
        }
    }
}
