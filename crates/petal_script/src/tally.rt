//! How many requests there are of each kind, and which servers are possibly down.

ghost use Rattle.std.specs.Prelude.{◌≡◌, ◌+◌, ◌≤◌, ◌<◌, ◌-◌, ◌^◌, ◌++◌, [], ◌∷◌, ℕ, List, IsTrue, ◌/◌, slice_set, take, not};
ghost use Rattle.std.specs.Prelude.{length, IsFalse, get_or, false, if◌then◌else◌};
ghost use Rattle.std.specs.List.{count_by};
ghost use Rattle.script_lines.specs.Requests.{is_disk, is_snap, is_move, is_boot};
ghost use Rattle.petal_script.specs.Script.{too_many, no_majority};
ghost use Rattle.petal_script.specs.Tally.{Tallies, IsSmall, one_more, down_with, tally_with};
ghost use Rattle.script_lines.specs.declared.request.Line.{Line};

use script_lines::Request;

#[derive(Clone, Copy, Debug, PartialEq, Eq)]
pub(crate) struct Tally {
    pub(crate) requests: u32,
    pub(crate) disks: u32,
    pub(crate) snaps: u32,
    pub(crate) moves: u32,
    pub(crate) boots: u32,
    pub(crate) down: [bool; 8],
}

/// One more where it is of the kind.
fn one_more(count: u32, is_of_kind: bool) -> u32
    requires { count < 2 ^ 32 - 1 }
    ensures { result ≡ one_more count is_of_kind }
{
    if is_of_kind { count + 1 } else { count }
}

impl Tally {
    pub(crate) fn new() -> Tally
        ensures { Tallies [] result }
    {
        Tally {
            requests: 0,
            disks: 0,
            snaps: 0,
            moves: 0,
            boots: 0,
            down: [false; 8],
        }
    }

    /// The tally with one request more.
    pub(crate) fn with(&self, request: &Request) -> Tally
        requires { IsSmall self.now }
        ensures value { result ≡ tally_with self.now request.now }
        ensures eight { length self.now.down ≡ 8 }
    {
        let mut tally = *self;
        tally.requests += 1;
        tally.disks = one_more(self.disks, request.is_disk());
        tally.snaps = one_more(self.snaps, request.is_snap());
        tally.moves = one_more(self.moves, request.is_move());
        tally.boots = one_more(self.boots, request.is_boot());
        tally.mark_by(request);
        tally
    }

    fn mark_by(&mut self, request: &Request)
        ensures { self.new ≡ record self.old { down = down_with self.old.down request.now } }
    {
        match request {
            Request::Stop { server } => self.mark(*server, true),
            Request::StopAt { server, .. } => self.mark(*server, true),
            Request::Fault { server, .. } => self.mark(*server, true),
            Request::Start { server } => self.mark(*server, false),
            Request::Blank { server } => self.mark(*server, false),
            _ => {}
        }
    }

    fn mark(&mut self, server: u8, down: bool)
        ensures { self.new ≡ record self.old { down = slice_set self.old.down server down } }
    {
        let server = usize::from(server);
        if server < self.down.len() {
            self.down[server] = down;
        }
    }

    #[tactic(auto, unfolding(crate::specs::Script::too_many))]
    pub(crate) fn is_past_limits(&self) -> bool
        ensures value { (lines : List Line) → Tallies lines self.now → result ≡ too_many lines }
        ensures small { IsFalse result → IsSmall self.now }
    {
        self.requests > 1024
            || self.disks > 16
            || self.snaps > 64
            || self.moves > 8
            || self.boots > 64
    }

    #[tactic(auto, using(crate::proofs::Tallying::same_majority))]
    pub(crate) fn lacks_majority(&self, servers: u8) -> bool
        requires { servers ≤ 8 }
        ensures { (lines : List Line) → Tallies lines self.now → result ≡ no_majority servers lines }
    {
        self.up(servers) < usize::from(servers / 2 + 1)
    }

    fn up(&self, servers: u8) -> usize
        requires { servers ≤ 8 }
        ensures { result ≡ count_by not (take servers self.now.down) }
    {
        self.down[..usize::from(servers)]
            .iter()
            .filter(|down| !**down)
            .count()
    }
}
