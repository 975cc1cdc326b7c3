//! The proposer.

ghost use Rattle.std.specs.Prelude.{◌≡◌, nat_lt, true, set};
ghost use Rattle.petal_command.specs.declared.pax.Pax.TheVariants.{Prepare};
ghost use Rattle.spec_paxos.specs.declared.phase.Phase.TheVariants.{Idle};
ghost use Rattle.spec_paxos.specs.Proposer.{collecting, has_majority, higher, rank_of, to_propose, is_for, counts, collected, counted, hear};

use crate::count::ServerCount;
use petal_base::ServerId;
use petal_command::{Ballot, Command, Pax, ServerNumber};
use spec_paxos::{Heard, Phase};

/// A server's proposer, among so many servers. It is about the place and ballot that it started last.
#[derive(Drop)]
pub struct Proposer {
    pub me: ServerNumber,
    pub servers: ServerCount,
    pub phase: Phase,
}

impl Proposer {
    /// A proposer that started nothing.
    pub fn new(me: ServerNumber, servers: ServerCount) -> Proposer
        ensures { result ≡ record { me = me; servers = servers; phase = Idle } }
    {
        Proposer {
            me,
            servers,
            phase: Phase::Idle,
        }
    }

    /// Starts this server's ballot of the round at the place, for the command where no other was accepted before. Gives the
    /// letter that asks for promises. It asks nothing of its caller; that each ballot is started once is the caller's part.
    #[tactic(auto, unfolding(spec_paxos::specs::Proposer::nobody))]
    pub fn start(&mut self, place: u32, round: u32, want: Command) -> Pax
        ensures started { self.new ≡ record self.old { phase = collecting place (record { round = round; server = self.old.me }) want } }
        ensures letter { result ≡ Prepare place (record { round = round; server = self.old.me }) }
    {
        let ballot = Ballot {
            round,
            server: self.me.get(),
        };
        self.phase = Phase::Collecting {
            place,
            ballot,
            want,
            heard: [false; 256],
            best: None,
        };
        Pax::Prepare { place, ballot }
    }

    /// Hears a letter of a server.
    pub fn hear(&mut self, from: ServerId, letter: &Pax) -> Heard
        ensures phase { self.new ≡ record self.old { phase = (hear self.old.servers self.old.phase from letter.now).phase } }
        ensures heard { result ≡ (hear self.old.servers self.old.phase from letter.now).heard }
    {
        let phase = std::mem::replace(&mut self.phase, Phase::Idle);
        let (phase, heard) = hear(self.servers.get(), phase, from, letter);
        self.phase = phase;
        heard
    }
}

/// What the proposer is about after a letter, and what it says of it.
fn hear(servers: u8, phase: Phase, from: ServerId, letter: &Pax) -> (Phase, Heard)
    ensures phase { result.0 ≡ (hear servers phase from letter.now).phase }
    ensures heard { result.1 ≡ (hear servers phase from letter.now).heard }
{
    match phase {
        Phase::Idle => (Phase::Idle, Heard::Nothing),
        Phase::Collecting {
            place,
            ballot,
            want,
            heard,
            best,
        } => match letter {
            Pax::Promise {
                place: at,
                ballot: theirs,
                accepted,
            } if is_for(*at, *theirs, place, ballot) && counts(servers, &heard, from) => {
                collect(
                    servers,
                    place,
                    ballot,
                    want,
                    joined(heard, from),
                    higher(best, accepted),
                )
            },
            Pax::Refuse {
                place: at,
                ballot: theirs,
                promised,
            } if is_for(*at, *theirs, place, ballot) => (
                Phase::Collecting {
                    place,
                    ballot,
                    want,
                    heard,
                    best,
                },
                Heard::Refused(*promised),
            ),
            _ => (
                Phase::Collecting {
                    place,
                    ballot,
                    want,
                    heard,
                    best,
                },
                Heard::Nothing,
            ),
        },
        Phase::Voting {
            place,
            ballot,
            command,
            heard,
        } => match letter {
            Pax::Accepted {
                place: at,
                ballot: theirs,
            } if is_for(*at, *theirs, place, ballot) && counts(servers, &heard, from) => {
                count(servers, place, ballot, command, heard, joined(heard, from))
            },
            Pax::Refuse {
                place: at,
                ballot: theirs,
                promised,
            } if is_for(*at, *theirs, place, ballot) => (
                Phase::Voting {
                    place,
                    ballot,
                    command,
                    heard,
                },
                Heard::Refused(*promised),
            ),
            _ => (
                Phase::Voting {
                    place,
                    ballot,
                    command,
                    heard,
                },
                Heard::Nothing,
            ),
        },
    }
}

/// A promise more was counted: with a majority the proposer asks for acceptances.
#[tactic(auto, unfolding(spec_paxos::specs::Proposer::nobody))]
fn collect(
    servers: u8,
    place: u32,
    ballot: Ballot,
    want: Command,
    heard: [bool; 256],
    best: Option<(Ballot, Command)>,
) -> (Phase, Heard)
    ensures phase { result.0 ≡ (collected servers place ballot want heard best).phase }
    ensures heard { result.1 ≡ (collected servers place ballot want heard best).heard }
{
    if !has_majority(servers, &heard) {
        let phase = Phase::Collecting {
            place,
            ballot,
            want,
            heard,
            best,
        };
        return (phase, Heard::Nothing);
    }
    let command = match best {
        None => want,
        Some((_, reported)) => reported,
    };
    let accept = Pax::Accept {
        place,
        ballot,
        command: command.copy(),
    };
    let phase = Phase::Voting {
        place,
        ballot,
        command,
        heard: [false; 256],
    };
    (phase, Heard::Send(accept))
}

/// An acceptance more was counted: the one that completes a majority makes the command chosen.
fn count(
    servers: u8,
    place: u32,
    ballot: Ballot,
    command: Command,
    before: [bool; 256],
    heard: [bool; 256],
) -> (Phase, Heard)
    ensures phase { result.0 ≡ (counted servers place ballot command before heard).phase }
    ensures heard { result.1 ≡ (counted servers place ballot command before heard).heard }
{
    let said = if !has_majority(servers, &before) && has_majority(servers, &heard) {
        Heard::Chosen {
            place,
            command: command.copy(),
        }
    } else {
        Heard::Nothing
    };
    let phase = Phase::Voting {
        place,
        ballot,
        command,
        heard,
    };
    (phase, said)
}

/// Whether a letter about the first place and ballot is about the second ones.
fn is_for(at: u32, theirs: Ballot, place: u32, ballot: Ballot) -> bool
    ensures { result ≡ is_for at theirs place ballot }
{
    at == place && theirs.is_same(ballot)
}

/// Whether the server is one of so many and was not counted yet.
fn counts(servers: u8, heard: &[bool; 256], from: ServerId) -> bool
    ensures { result ≡ counts servers heard.now from }
{
    from < servers && !heard[from as usize]
}

/// The servers heard, with one more.
fn joined(mut heard: [bool; 256], from: ServerId) -> [bool; 256]
    ensures { result ≡ set heard from true }
{
    heard[from as usize] = true;
    heard
}

/// Whether a majority of the servers was heard.
pub fn has_majority(servers: u8, heard: &[bool; 256]) -> bool
    ensures { result ≡ has_majority servers heard.now }
{
    let mut count: u8 = 0;
    for s in 0..servers {
        if heard[s as usize] {
            count += 1;
        }
    }
    servers / 2 + 1 <= count
}

/// Of two acceptances that of the higher ballot.
fn higher(
    best: Option<(Ballot, Command)>,
    accepted: &Option<(Ballot, Command)>,
) -> Option<(Ballot, Command)>
    ensures { result ≡ higher best accepted.now }
{
    if !is_lower(&best, accepted) {
        return best;
    }
    match accepted {
        None => None,
        Some((ballot, command)) => Some((*ballot, command.copy())),
    }
}

/// Whether the first acceptance is of a lower ballot than the second; none is the lowest.
fn is_lower(a: &Option<(Ballot, Command)>, b: &Option<(Ballot, Command)>) -> bool
    ensures { result ≡ nat_lt (rank_of a.now) (rank_of b.now) }
{
    match (a, b) {
        (_, None) => false,
        (None, Some(_)) => true,
        (Some((low, _)), Some((high, _))) => !high.is_at_most(*low),
    }
}
