//! Which steps a line of the operator gives a server next.

ghost use Rattle.std.specs.Prelude.{◌≡◌, IsTrue};
ghost use Rattle.spec_rules.specs.World.{Blanks, Boots, IsDone, Stops};

use petal_base::ServerId;
use petal_world::control::{Control, Given};
use script_lines::Request;

/// Whether the request stops the server, as its first step.
pub fn stops(request: &Request, server: ServerId, control: &Control) -> bool
    ensures { IsTrue result → Stops request.now server control.now.hand }
{
    match request {
        Request::Stop { server: own } | Request::Blank { server: own } => {
            *own == server && control.is_empty()
        }
        _ => false,
    }
}

/// Whether it blanks the server, after its stop or as its first step.
pub fn blanks(request: &Request, server: ServerId, control: &Control) -> bool
    ensures { IsTrue result → Blanks request.now server control.now.hand }
{
    match request {
        Request::Blank { server: own } => {
            *own == server && (control.is_empty() || control.has(server, Given::Stop))
        }
        _ => false,
    }
}

/// Whether it boots the server, after what it did before.
pub fn boots(request: &Request, server: ServerId, control: &Control) -> bool
    ensures { IsTrue result → Boots request.now server control.now.hand }
{
    match request {
        Request::Start { server: own } => *own == server && control.is_empty(),
        Request::Blank { server: own } => *own == server && control.has(server, Given::Blank),
        _ => false,
    }
}

/// Whether it has done all that it gives the server, which runs or not.
pub fn is_done(request: &Request, server: ServerId, running: bool, control: &Control) -> bool
    ensures { IsTrue result → IsDone request.now server running control.now.hand }
{
    match request {
        Request::Stop { server: own } => *own == server && !running,
        Request::StopAt { server: own, at: _ } => *own == server,
        Request::Fault {
            server: own,
            which: _,
            kind: _,
            at: _,
        } => *own == server,
        Request::Start { server: own } => {
            *own == server && (running || control.has(server, Given::Boot))
        }
        Request::Blank { server: own } => *own == server && control.has(server, Given::Boot),
        _ => false,
    }
}
