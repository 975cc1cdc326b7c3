//! A client.

ghost use Rattle.std.specs.Prelude.{◌≡◌, ◌↔◌, ◌+◌, ◌<◌, length, None, Some, [], false, IfOk, IsErrOf, OnErr, IsTrue};
ghost use Rattle.std.specs.Option.{option_map_or};
ghost use Rattle.spec_state.specs.Command.{state_after};
ghost use Rattle.spec_rules.specs.State.{servers_of};
ghost use Rattle.spec_rules.specs.Clients.{Client, first_client, called, heard, hears_of, next_entries, sees, takes_entries};
ghost use Rattle.spec_rules.specs.Clients.{then_goes_out, ticked, asking, goes_out_where};
ghost use Rattle.spec_rules.specs.World.{greatest_u32, round_of, turn_of};
ghost use Rattle.client_core.specs.ClientView.{at_core, is_spent, ordered, settle_of, state_of};
ghost use Rattle.client_core.specs.Open.{answers_where, fresh, goes_old_where, in_round, outcome, with_send, with_witnesses};
ghost use Rattle.client_core.specs.Learning.{learnt};
ghost use Rattle.client_core.specs.declared.error.ClientError.TheVariants as error;

use crate::ClientError;
use crate::hearing::Heard;
use crate::judging::Fate;
use crate::learning::Learning;
use crate::open::{Last, Open, was_sent, was_witnessed};
use crate::order::Order;
use crate::posting::{one_letter, two_letters};
use crate::reaction::Reaction;
use crate::round::{Round, Sight, went_round};
use crate::sending::Sent;
use global_state::GlobalState;
use petal_base::{CLIENTS, ClientId, GhostList, NoMemory, Rev, Seq, Sequence, ServerId};
use petal_command::{ClientNumber, Command};
use petal_msg::{Actor, Body, Letter};
use script_lines::{Answer, Request};
use std::alloc::Global;
use std::marker::Model;

/// A client, with the global state that the entries make which it has applied. Contracts see its number, how many servers
/// there are, and what the rules know of it, these entries among it.
#[derive(Drop)]
pub struct ClientCore {
    pub(crate) id: ClientNumber,
    pub(crate) servers: u8,
    pub(crate) state: GlobalState,
    pub(crate) applied: GhostList<Command>,
    seq: Seq,
    pub(crate) asks: ServerId,
    pub(crate) asked: Option<Open>,
}

impl Model for ClientCore {
    ghost use Rattle.std.specs.Prelude.{◌≡◌};
    ghost use Rattle.spec_state.specs.Command.{state_after};
    ghost use Rattle.client_core.specs.ClientView.{ClientView};

    ghost Value = { ClientView };

    ghost view = { λ c. record {
      me = c.id;
      servers = c.servers;
      client = record { applied = c.applied.items; seq = c.seq; asks = c.asks; asked = c.asked };
    } };

    ghost invariant = { λ c. c.state ≡ state_after c.servers c.applied.items };
}

impl ClientCore {
    /// A client of a run that begins, with nothing called and no entry applied, among so many servers.
    pub fn new(alloc: Global, id: ClientId, servers: u8) -> Result<ClientCore, NoMemory>
        requires { id < CLIENTS }
        ensures { IfOk result (λ core. core ≡ record { me = id; servers = servers; client = first_client }) }
    {
        let state = GlobalState::new(alloc, servers)?;
        Ok(ClientCore {
            id: ClientNumber::new(id),
            servers,
            state,
            applied: GhostList::new(),
            seq: 0,
            asks: 0,
            asked: None,
        })
    }

    /// Calls a request as the client's next: its number is one higher than that of the last. None is open.
    pub fn call(
        &mut self,
        alloc: Global,
        line: u32,
        request: Request,
    ) -> Result<Reaction, ClientError>
        requires { self.old.client.asked ≡ None }
        ensures ok { IfOk result (λ reaction. (self.new, reaction)
            ≡ at_core self.old (called (state_of self.old) self.old.me self.old.client line request)) }
        ensures err { OnErr result (self.new ≡ self.old) }
    {
        let mut asked = self.opened(alloc, line, request)?;
        let Sent { post, asks, last } = self.send_first(alloc, &asked)?;
        let letters = one_letter(alloc, self.me(), self.rev(), post)?;
        asked.was_sent(last);
        self.has_open(asked, asks);
        Ok(Reaction {
            letters,
            answer: None,
        })
    }

    /// Handles a letter.
    #[tactic(auto, unfolding(spec_rules::specs::Clients::heard))]
    pub fn deliver(&mut self, alloc: Global, letter: &Letter) -> Result<Reaction, ClientError>
        ensures ok { IfOk result (λ reaction. (self.new, reaction)
            ≡ at_core self.old (heard (state_of self.old) self.old.me self.old.client letter.now)) }
        ensures err { OnErr result (self.new ≡ self.old) }
    {
        match &letter.body {
            Body::News { after, commands } => self.learn(alloc, *after, commands.as_slice()),
            Body::Seen {
                line,
                round,
                running,
                inc,
                full,
            } => match letter.from {
                Actor::Server(server) => self.see(
                    alloc,
                    &Sight {
                        server,
                        rev: letter.rev,
                        line: *line,
                        round: *round,
                        running: *running,
                        inc: *inc,
                        full: *full,
                    },
                ),
                Actor::Client(_) => Ok(nothing(alloc)),
            },
            _ => self.hear(alloc, letter),
        }
    }

    /// Asks what follows, and sends the open request again.
    #[tactic(auto, unfolding(spec_rules::specs::Clients::ticked))]
    pub fn tick(&mut self, alloc: Global) -> Result<Reaction, ClientError>
        ensures ok { IfOk result (λ reaction. (self.new, reaction)
            ≡ at_core self.old (ticked (state_of self.old) self.old.me self.old.client)) }
        ensures err { OnErr result (self.new ≡ self.old) }
    {
        self.ask_and_send(alloc)
    }

    /// Whether no request is open, so that the next one can be called.
    pub fn is_free(&self) -> bool
        ensures { IsTrue result ↔ (self.now.client.asked ≡ None) }
    {
        self.asked.is_none()
    }

    /// How many requests it has called.
    pub fn called(&self) -> Seq
        ensures { result ≡ self.now.client.seq }
    {
        self.seq
    }

    /// Its revision: how many entries it has applied.
    #[tactic(auto, using(spec_rules::proofs::Applied::rev_after))]
    pub fn rev(&self) -> Rev
        ensures { result ≡ length self.now.client.applied }
    {
        self.state.rev()
    }

    /// Whether a number of the client is the greatest of its type, so that it can take no more steps.
    pub fn spent(&self) -> bool
        ensures { result ≡ is_spent self.now.client }
    {
        self.seq == Seq::MAX || self.turn() == u32::MAX || self.round() == u32::MAX
    }

    /// The line of the open request, with what it asks of which server, where it asks that of one.
    pub fn order(&self) -> Option<(u32, Order, ServerId)>
        ensures { result ≡ ordered self.now.client.asked }
    {
        match &self.asked {
            None => None,
            Some(open) => open.order(),
        }
    }

    /// The line and the round of the open request, where it is a settle.
    pub fn settles(&self) -> Option<(u32, u32)>
        ensures { result ≡ settle_of self.now.client.asked }
    {
        match &self.asked {
            None => None,
            Some(open) => open.settles(),
        }
    }

    /// In which round of glances the open request is. Only a settle has rounds.
    fn round(&self) -> u32
        ensures { result ≡ round_of self.now.client.asked }
    {
        match &self.asked {
            None => 0,
            Some(open) => open.round.number,
        }
    }

    /// How often the open request was sent.
    fn turn(&self) -> u32
        ensures { result ≡ turn_of self.now.client.asked }
    {
        match &self.asked {
            None => 0,
            Some(open) => open.turn,
        }
    }

    /// How many Witnesses of the open request were applied.
    pub(crate) fn witnesses(&self) -> u32
        ensures { result ≡ option_map_or (λ asked. asked.witnesses) self.now.client.asked 0 }
    {
        match &self.asked {
            None => 0,
            Some(open) => open.witnesses,
        }
    }

    /// One of the servers, in turn, is asked what follows, and the open request goes out again.
    fn ask_and_send(&mut self, alloc: Global) -> Result<Reaction, ClientError>
        ensures ok { IfOk result (λ reaction. (self.new, reaction)
            ≡ at_core self.old (asking (state_of self.old) self.old.client
            (goes_out_where (state_of self.old) self.old.me self.old.client self.old.client.asked))) }
        ensures err { OnErr result (self.new ≡ self.old) }
    {
        let next = self.after_next()?;
        let Sent {
            post,
            asks: _,
            last,
        } = self.send(alloc)?;
        let letters = two_letters(alloc, self.me(), self.rev(), self.ask(), post)?;
        self.has_sent(next, last);
        Ok(Reaction {
            letters,
            answer: None,
        })
    }

    /// The open request goes to the old map.
    fn go_the_old_way(&mut self, alloc: Global) -> Result<Reaction, ClientError>
        ensures ok { IfOk result (λ reaction. (self.new, reaction)
            ≡ at_core self.old (goes_old_where (state_of self.old) self.old.me self.old.client self.old.client.asked)) }
        ensures err { OnErr result (self.new ≡ self.old) }
    {
        let Sent { post, asks, last } = self.send_old_way(alloc)?;
        let letters = one_letter(alloc, self.me(), self.rev(), post)?;
        self.has_sent(asks, last);
        Ok(Reaction {
            letters,
            answer: None,
        })
    }

    /// Handles a reply.
    fn hear(&mut self, alloc: Global, letter: &Letter) -> Result<Reaction, ClientError>
        ensures ok { IfOk result (λ reaction. (self.new, reaction)
            ≡ at_core self.old (hears_of (state_of self.old) self.old.me self.old.client self.old.client.asked letter.now)) }
        ensures err { OnErr result (self.new ≡ self.old) }
    {
        let heard = self.heard(letter)?;
        self.go_on(alloc, heard)
    }

    /// A glance shows a server.
    fn see(&mut self, alloc: Global, sight: &Sight) -> Result<Reaction, ClientError>
        ensures ok { IfOk result (λ reaction. (self.new, reaction)
            ≡ at_core self.old (sees (state_of self.old) self.old.client self.old.client.asked sight.now)) }
        ensures err { OnErr result (self.new ≡ self.old) }
    {
        let heard = self.seen(alloc, sight)?;
        self.go_on(alloc, heard)
    }

    /// What came of a letter is done.
    fn go_on(&mut self, alloc: Global, heard: Heard) -> Result<Reaction, ClientError>
        ensures ok { IfOk result (λ reaction. (self.new, reaction)
            ≡ at_core self.old (outcome heard (state_of self.old) self.old.me self.old.client self.old.client.asked)) }
        ensures err { OnErr result (self.new ≡ self.old) }
    {
        match heard {
            Heard::Nothing => Ok(nothing(alloc)),
            Heard::Answered(answer) => Ok(self.answer(alloc, answer)),
            Heard::Again => self.ask_and_send(alloc),
            Heard::OldWay => self.go_the_old_way(alloc),
            Heard::Round(round) => {
                self.has_round(round);
                Ok(nothing(alloc))
            }
        }
    }

    /// What a glance means for the open request.
    #[tactic(auto, using(spec_rules::proofs::Applied::servers_after))]
    fn seen(&self, alloc: Global, sight: &Sight) -> Result<Heard, ClientError>
        ensures { IfOk result (λ heard. sees (state_of self.now) self.now.client self.now.client.asked sight.now
            ≡ outcome heard (state_of self.now) self.now.me self.now.client self.now.client.asked) }
    {
        match &self.asked {
            None => Ok(Heard::Nothing),
            Some(open) => open.see(alloc, self.servers, &self.state, sight),
        }
    }

    /// What a reply means for the open request.
    fn heard(&self, letter: &Letter) -> Result<Heard, NoMemory>
        ensures { IfOk result (λ heard. (client : Client)
            → hears_of (state_of self.now) self.now.me client self.now.client.asked letter.now
            ≡ outcome heard (state_of self.now) self.now.me client self.now.client.asked) }
    {
        match &self.asked {
            None => Ok(Heard::Nothing),
            Some(open) => open.hear(letter.rev, &letter.body),
        }
    }

    /// The open request is answered.
    fn answer(&mut self, alloc: Global, answer: Answer) -> Reaction
        ensures { (self.new, result) ≡ at_core self.old (answers_where self.old.client self.old.client.asked answer) }
    {
        match self.asked.take() {
            None => nothing(alloc),
            Some(open) => Reaction {
                letters: Sequence::new(alloc),
                answer: Some((open.line, answer)),
            },
        }
    }

    /// Applies the entries of a letter that come next, and then the request, if it is still open, goes out.
    fn learn(
        &mut self,
        alloc: Global,
        after: Rev,
        commands: &[Command],
    ) -> Result<Reaction, ClientError>
        ensures ok { IfOk result (λ reaction. (self.new, reaction)
            ≡ at_core self.old (takes_entries (state_of self.old) self.old.me self.old.client
            (next_entries self.old.client after commands.now))) }
        ensures err { OnErr result (self.new ≡ self.old) }
    {
        let entries = self.next_entries(after, commands);
        let Some((first, _)) = entries.split_first() else {
            return Ok(nothing(alloc));
        };
        let mut learning = self.begin(first)?;
        self.take_all(alloc, &mut learning, entries)?;
        self.come_out(alloc, learning)
    }

    /// The entries have been applied; the request, if it is still open, goes out.
    fn come_out(&mut self, alloc: Global, learning: Learning) -> Result<Reaction, ClientError>
        requires servers { self.old.servers ≡ servers_of learning.state }
        requires state { learning.state ≡ state_after self.old.servers learning.applied.items }
        ensures ok { IfOk result (λ reaction. (self.new, reaction)
            ≡ at_core self.old (then_goes_out self.old.me (learnt self.old.client self.old.client.asked learning))) }
        ensures err { OnErr result (self.new ≡ self.old) }
    {
        let Learning {
            state,
            applied,
            fate,
        } = learning;
        match fate {
            Fate::Answered(answer) => {
                self.has_applied(state, applied);
                Ok(self.answer(alloc, answer))
            }
            Fate::Waits(witnesses) => {
                let Sent { post, asks, last } = self.send_in(alloc, &state, witnesses)?;
                let letters = one_letter(alloc, self.me(), state.rev(), post)?;
                self.has_applied(state, applied);
                self.has_witnesses(witnesses);
                self.has_sent(asks, last);
                Ok(Reaction {
                    letters,
                    answer: None,
                })
            }
        }
    }

    /// The client's number.
    fn me(&self) -> ClientId
        ensures { result ≡ self.now.me }
    {
        self.id.get()
    }

    /// The request under the client's next number, before it is sent.
    fn opened(&self, alloc: Global, line: u32, request: Request) -> Result<Open, ClientError>
        ensures exhausted { IsErrOf result error.Exhausted → self.now.client.seq ≡ greatest_u32 }
        ensures asked { IfOk result (λ asked. asked ≡ fresh line (self.now.client.seq + 1) request (state_of self.now).rev) }
    {
        let seq = self.seq.checked_add(1).ok_or(ClientError::Exhausted)?;
        Ok(Open::new(alloc, line, seq, request, self.state.rev())?)
    }

    /// This is the open request, and this the server that is asked next.
    fn has_open(&mut self, asked: Open, asks: ServerId)
        ensures { self.new ≡ record self.old { client = record self.old.client { seq = asked.seq; asks = asks; asked = Some asked } } }
    {
        self.seq = asked.seq;
        self.asks = asks;
        self.asked = Some(asked);
    }

    /// This is the server that is asked next, and this was the latest send of the open request.
    fn has_sent(&mut self, asks: ServerId, last: Last)
        ensures { self.new
            ≡ record self.old { client = record self.old.client { asks = asks; asked = with_send last self.old.client.asked } } }
    {
        self.asks = asks;
        was_sent(&mut self.asked, last);
    }

    /// Of the open request so many Witnesses were applied.
    fn has_witnesses(&mut self, witnesses: u32)
        ensures { self.new
            ≡ record self.old { client = record self.old.client { asked = with_witnesses witnesses self.old.client.asked } } }
    {
        was_witnessed(&mut self.asked, witnesses);
    }

    /// The open request is in this round.
    fn has_round(&mut self, round: Round)
        ensures { self.new ≡ record self.old { client = record self.old.client { asked = in_round round self.old.client.asked } } }
    {
        went_round(&mut self.asked, round);
    }

    /// These are the entries that are applied, and this is what they made.
    fn has_applied(&mut self, state: GlobalState, applied: GhostList<Command>)
        requires { state ≡ state_after self.old.servers applied.items }
        ensures { self.new ≡ record self.old { client = record self.old.client { applied = applied.items } } }
    {
        self.state = state;
        self.applied = applied;
    }
}

/// Nothing is sent or answered.
fn nothing(alloc: Global) -> Reaction
    ensures { result ≡ record { letters = []; answer = None } }
{
    Reaction {
        letters: Sequence::new(alloc),
        answer: None,
    }
}
