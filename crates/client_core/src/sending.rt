//! What a send of the open request does.

ghost use Rattle.std.specs.Prelude.{◌≡◌, ◌+◌, ◌%◌, ℕ, List, None, IfOk, IsErrOf, OnErr};
ghost use Rattle.petal_command.specs.declared.command.Command.{Command as Entry};
ghost use Rattle.petal_msg.specs.declared.body.Body.TheVariants as body;
ghost use Rattle.petal_msg.specs.declared.letter.Actor.TheVariants as actor;
ghost use Rattle.spec_rules.specs.State.{State, servers_of};
ghost use Rattle.spec_rules.specs.World.{greatest_u32};
ghost use Rattle.spec_rules.specs.Clients.{Client, asks_to_propose, goes_out, goes_out_where, sends};
ghost use Rattle.client_core.specs.ClientView.{state_of};
ghost use Rattle.client_core.specs.declared.error.ClientError.TheVariants as error;
ghost use Rattle.client_core.specs.Open.{goes_old_where, on_way, with_witnesses};
ghost use Rattle.client_core.specs.Sending.{sent_by, sent_where};

use crate::open::{Last, Open, Way};
use crate::posting::{Post, post_for};
use crate::proposing::to_propose;
use crate::{ClientCore, ClientError};
use global_state::GlobalState;
use petal_base::ServerId;
use petal_command::Command;
use petal_msg::{Actor, Body};
use std::alloc::Global;

/// A send: what it posts, which server is asked next, and how the request stands after it.
#[derive(Drop)]
pub struct Sent {
    pub post: Option<Post>,
    pub asks: ServerId,
    pub last: Last,
}

/// The server after this one.
pub fn next_server(asks: ServerId, servers: u8) -> Result<ServerId, ClientError>
    ensures value { IfOk result (λ next. next ≡ (asks + 1) % servers) }
    ensures exhausted { OnErr result (asks ≡ 255) }
{
    let next = asks.checked_add(1).ok_or(ClientError::Exhausted)?;
    Ok(next.checked_rem(servers).unwrap_or(next))
}

impl ClientCore {
    /// A request that goes this way, and of which so many Witnesses were applied, goes out in a state: to its servers, or as a
    /// proposal.
    fn go_out(
        &self,
        alloc: Global,
        state: &GlobalState,
        asked: &Open,
        witnesses: u32,
        way: Way,
    ) -> Result<Sent, ClientError>
        requires { self.now.servers ≡ servers_of state.now }
        ensures { IfOk result (λ sent. (client : Client)
            → goes_out state.now self.now.me (record client { asks = self.now.client.asks }) (on_way asked.now witnesses way)
            ≡ sent_by client (on_way asked.now witnesses way) sent) }
    {
        match to_propose(self.servers, state, self.id, asked, witnesses, way) {
            Some(command) => self.propose(asked, way, command),
            None => self.send_to(alloc, state, asked, way),
        }
    }

    /// The command is proposed; the request stands as after its latest send.
    fn propose(&self, asked: &Open, way: Way, command: Command) -> Result<Sent, ClientError>
        ensures { (state : State) → IfOk result (λ sent. (client : Client) (witnesses : ℕ) → self.now.servers ≡ servers_of state
            → asks_to_propose state (record client { asks = self.now.client.asks }) (on_way asked.now witnesses way) command
            ≡ sent_by client (on_way asked.now witnesses way) sent) }
    {
        Ok(Sent {
            post: Some(Post {
                to: Actor::Server(self.asks),
                body: Body::Propose { command },
            }),
            asks: next_server(self.asks, self.servers)?,
            last: Last {
                turn: asked.turn,
                rev: asked.rev,
                way,
            },
        })
    }

    /// The request goes to its servers. It asks the old map only at the revision at which it was told.
    fn send_to(
        &self,
        alloc: Global,
        state: &GlobalState,
        asked: &Open,
        way: Way,
    ) -> Result<Sent, ClientError>
        requires { self.now.servers ≡ servers_of state.now }
        ensures exhausted { IsErrOf result error.Exhausted → asked.now.turn ≡ greatest_u32 }
        ensures sent { IfOk result (λ sent. (client : Client) (witnesses : ℕ)
            → sends state.now self.now.me (record client { asks = self.now.client.asks }) (on_way asked.now witnesses way)
            ≡ sent_by client (on_way asked.now witnesses way) sent) }
    {
        let old_way = way.old_way && asked.rev == state.rev();
        Ok(Sent {
            post: post_for(alloc, self.servers, state, self.id.get(), asked, old_way)?,
            asks: self.asks,
            last: Last {
                turn: asked.turn.checked_add(1).ok_or(ClientError::Exhausted)?,
                rev: state.rev(),
                way: Way {
                    saw_missing: way.saw_missing,
                    old_way,
                },
            },
        })
    }

    /// Of no request there is no send.
    fn no_send(&self) -> Sent
        ensures post { result.post ≡ None }
        ensures asks { result.asks ≡ self.now.client.asks }
    {
        Sent {
            post: None,
            asks: self.asks,
            last: Last {
                turn: 0,
                rev: 0,
                way: Way {
                    saw_missing: false,
                    old_way: false,
                },
            },
        }
    }

    /// A request that was just called goes out.
    #[tactic(auto, using(spec_rules::proofs::Applied::servers_after))]
    pub(crate) fn send_first(&self, alloc: Global, asked: &Open) -> Result<Sent, ClientError>
        ensures { IfOk result (λ sent. (client : Client)
            → goes_out (state_of self.now) self.now.me (record client { asks = self.now.client.asks }) asked.now
            ≡ sent_by client asked.now sent) }
    {
        let sent = self.go_out(alloc, &self.state, asked, asked.witnesses, asked.way())?;
        Ok(sent)
    }

    /// The open request, where there is one, goes out in a state. So many of its Witnesses were applied.
    pub(crate) fn send_in(
        &self,
        alloc: Global,
        state: &GlobalState,
        witnesses: u32,
    ) -> Result<Sent, ClientError>
        requires { self.now.servers ≡ servers_of state.now }
        ensures { IfOk result (λ sent. (log : List Entry)
            → let client : Client = record self.now.client { applied = log; asked = with_witnesses witnesses self.now.client.asked } in
            goes_out_where state.now self.now.me client client.asked ≡ sent_where client sent) }
    {
        match &self.asked {
            None => Ok(self.no_send()),
            Some(asked) => {
                let sent = self.go_out(alloc, state, asked, witnesses, asked.way())?;
                Ok(sent)
            }
        }
    }

    /// The open request, where there is one, goes out.
    #[tactic(auto, using(spec_rules::proofs::Applied::servers_after))]
    pub(crate) fn send(&self, alloc: Global) -> Result<Sent, ClientError>
        ensures { IfOk result (λ sent. goes_out_where (state_of self.now) self.now.me self.now.client self.now.client.asked
            ≡ sent_where self.now.client sent) }
    {
        match &self.asked {
            None => Ok(self.no_send()),
            Some(asked) => {
                let sent = self.go_out(alloc, &self.state, asked, asked.witnesses, asked.way())?;
                Ok(sent)
            }
        }
    }

    /// The open request, where there is one, goes the old way.
    #[tactic(auto, using(spec_rules::proofs::Applied::servers_after))]
    pub(crate) fn send_old_way(&self, alloc: Global) -> Result<Sent, ClientError>
        ensures { IfOk result (λ sent. goes_old_where (state_of self.now) self.now.me self.now.client self.now.client.asked
            ≡ sent_where self.now.client sent) }
    {
        match &self.asked {
            None => Ok(self.no_send()),
            Some(asked) => {
                let way = Way {
                    saw_missing: true,
                    old_way: true,
                };
                let sent = self.go_out(alloc, &self.state, asked, asked.witnesses, way)?;
                Ok(sent)
            }
        }
    }

    /// What asks the next server what follows.
    #[tactic(auto, using(spec_rules::proofs::Applied::rev_after))]
    pub(crate) fn ask(&self) -> Post
        ensures { result ≡ record { to = actor.Server self.now.client.asks; body = body.Ask (state_of self.now).rev } }
    {
        Post {
            to: Actor::Server(self.asks),
            body: Body::Ask {
                rev: self.state.rev(),
            },
        }
    }

    /// The server that is asked after the next one.
    #[tactic(auto, using(spec_rules::proofs::Applied::servers_after))]
    pub(crate) fn after_next(&self) -> Result<ServerId, ClientError>
        ensures { IfOk result (λ next. next ≡ (self.now.client.asks + 1) % servers_of (state_of self.now)) }
    {
        next_server(self.asks, self.servers)
    }
}
