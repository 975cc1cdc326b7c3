//! What a line of the operator asks one server for.

ghost use Rattle.std.specs.Prelude.{◌≡◌};
ghost use Rattle.client_core.specs.Orders.{order_of};
ghost use Rattle.spec_rules.specs.Plans.{fault_plan, stop_plan};

use device_faults::{CallKind, Plan, Which};
use petal_base::ServerId;
use script_lines::Request;

/// What a line of the operator asks one server for.
#[derive(Clone, Copy, Debug, PartialEq, Eq)]
pub enum Order {
    Stop,
    Start,
    Blank,
    /// A device has this plan from now on.
    Arm { which: Which, plan: Plan },
}

/// The plan by which a call of the data device stops its server.
fn stop_plan(at: u32) -> Plan
    ensures { result ≡ stop_plan at }
{
    Plan {
        kind: CallKind::Any,
        at,
        stop: true,
        late: false,
    }
}

/// The plan by which a call of a device fails.
fn fault_plan(kind: CallKind, at: u32) -> Plan
    ensures { result ≡ fault_plan kind at }
{
    Plan {
        kind,
        at,
        stop: false,
        late: false,
    }
}

/// What the request asks for, and of which server, where it asks that of one.
pub fn order_of(request: &Request) -> Option<(Order, ServerId)>
    ensures { result ≡ order_of request.now }
{
    match request {
        Request::Stop { server } => Some((Order::Stop, *server)),
        Request::StopAt { server, at } => {
            let plan = stop_plan(*at);
            Some((
                Order::Arm {
                    which: Which::Data,
                    plan,
                },
                *server,
            ))
        }
        Request::Fault {
            server,
            which,
            kind,
            at,
        } => {
            let plan = fault_plan(*kind, *at);
            Some((
                Order::Arm {
                    which: *which,
                    plan,
                },
                *server,
            ))
        }
        Request::Start { server } => Some((Order::Start, *server)),
        Request::Blank { server } => Some((Order::Blank, *server)),
        _ => None,
    }
}
