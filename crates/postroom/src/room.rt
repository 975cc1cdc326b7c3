//! The room and its channels.

ghost use Rattle.std.specs.Prelude.{◌≡◌, IfOk, IfSome, option_copied};
ghost use Rattle.boxcar.specs.Table.{Shows};
ghost use Rattle.postroom.specs.Mail.{addressee, letter_in};
ghost use Rattle.postroom.specs.declared.mail.Mail.TheVariants as mail;

use crate::handing::{Handing, Handings};
use crate::mail::Mail;
use boxcar::Pushed;
use crossbeam_channel::{Receiver, SendError, Sender};
use petal_base::{CLIENTS, NoMemory};
use petal_msg::{Actor, SharedLetter};
use std::alloc::Global;
use std::marker::Model;
use std::sync::Wait;
use std::time::{Clock, Duration};

/// What tells of a letter or an end that was posted. Contracts see its number, what was posted under it, and the room.
#[derive(Drop)]
pub struct Posted {
    token: Pushed<Mail>,
}

impl Model for Posted {
    ghost use Rattle.boxcar.specs.Table.{Where};
    ghost use Rattle.postroom.specs.declared.mail.Mail.{Mail};

    ghost Value = { Where Mail };

    ghost view = { λ p. p.token };
}

impl Posted {
    /// Its number.
    pub fn number(&self) -> u64
        ensures { result ≡ self.now.index }
    {
        self.token.index() as u64
    }
}

// The two ends of an actor's channel. The room keeps both, so that neither is ever without the other.
#[derive(Drop)]
struct Channel {
    to: Sender<u64>,
    from: Receiver<u64>,
}

fn open_channel(alloc: Global) -> Result<Channel, NoMemory> {
    let (to, from) = crossbeam_channel::unbounded(alloc)?;
    Ok(Channel { to, from })
}

fn addressee(mail: &Mail) -> Actor
    ensures { result ≡ addressee mail.now }
{
    match mail {
        Mail::Letter(letter) => letter.get().to,
        Mail::End(actor) => *actor,
    }
}

/// All letters and ends that were posted, and a channel for each actor.
#[derive(Drop)]
pub struct Postroom {
    mail: boxcar::Vec<Mail>,
    // The servers' channels by number, and behind them the clients'.
    channels: Vec<Channel>,
    servers: u8,
    handings: Handings,
}

impl Model for Postroom {
    ghost use Rattle.boxcar.specs.Table.{Shelves};

    ghost Value = { Shelves };

    ghost view = { λ p. p.mail };
}

impl Postroom {
    /// A room for so many servers, the clients and the operator, in which nothing was posted. Every `lose`-th letter that is posted
    /// is not handed over, and every `twice`-th is twice.
    pub fn new(
        alloc: Global,
        servers: u8,
        lose: Option<u32>,
        twice: Option<u32>,
    ) -> Result<Postroom, NoMemory> {
        let mut channels = Vec::new(alloc);
        for _ in 0..usize::from(servers) + usize::from(CLIENTS) {
            channels.push(open_channel(alloc)?)?;
        }
        Ok(Postroom {
            mail: boxcar::Vec::new(alloc)?,
            channels,
            servers,
            handings: Handings::new(lose, twice),
        })
    }

    fn place_of(&self, actor: Actor) -> usize {
        match actor {
            Actor::Server(server) => usize::from(server),
            Actor::Client(client) => usize::from(self.servers) + usize::from(client),
        }
    }

    // A number for an actor that the room does not have goes nowhere.
    fn send<R: Wait>(&self, rt: &R, actor: Actor, number: u64) -> Result<(), NoMemory> {
        match self.channels.get(self.place_of(actor)) {
            None => Ok(()),
            Some(channel) => match channel.to.send(rt, number) {
                Ok(()) => Ok(()),
                Err(SendError::OutOfMemory(_)) => Err(NoMemory),
                // never so: the room has the other end
                Err(SendError::Disconnected(_)) => Ok(()),
            },
        }
    }

    fn hand_over<R: Wait>(
        &self,
        rt: &R,
        actor: Actor,
        number: u64,
        handing: Handing,
    ) -> Result<(), NoMemory> {
        match handing {
            Handing::Lost => Ok(()),
            Handing::Once => self.send(rt, actor, number),
            Handing::Twice => {
                self.send(rt, actor, number)?;
                self.send(rt, actor, number)
            }
        }
    }

    fn put<R: Wait>(&self, rt: &R, mail: Mail) -> Result<Posted, NoMemory>
        ensures { IfOk result (λ posted. Shows self.now posted × (posted.value ≡ mail)) }
    {
        match self.mail.push_shown(rt, mail) {
            Ok(token) => Ok(Posted { token }),
            Err(_) => Err(NoMemory),
        }
    }

    /// Posts a letter.
    pub fn post<R: Wait>(&self, rt: &R, letter: SharedLetter) -> Result<Posted, NoMemory>
        ensures shown { IfOk result (λ posted. Shows self.now posted) }
        ensures letter { IfOk result (λ posted. posted.value ≡ mail.Letter letter) }
    {
        let to = letter.get().to;
        let handing = self.handings.next(&letter.get().body);
        let posted = self.put(rt, Mail::Letter(letter))?;
        self.hand_over(rt, to, posted.number(), handing)?;
        Ok(posted)
    }

    /// Posts the end of an actor's work. Ends are neither lost nor doubled.
    pub fn end<R: Wait>(&self, rt: &R, actor: Actor) -> Result<Posted, NoMemory>
        ensures shown { IfOk result (λ posted. Shows self.now posted) }
        ensures end { IfOk result (λ posted. posted.value ≡ mail.End actor) }
    {
        let posted = self.put(rt, Mail::End(actor))?;
        self.send(rt, actor, posted.number())?;
        Ok(posted)
    }

    // What a number that came to the actor tells of, where the room knows it and it is for the actor.
    fn found(&self, actor: Actor, number: u64) -> Option<Posted>
        ensures shown { IfSome result (λ posted. Shows self.now posted) }
        ensures own { IfSome result (λ posted. addressee posted.value ≡ actor) }
    {
        let token = self.mail.witness(number as usize)?;
        let to = addressee(self.mail.value(&token));
        if to == actor {
            Some(Posted { token })
        } else {
            None
        }
    }

    fn try_take<R: Wait>(&self, rt: &R, actor: Actor) -> Option<Posted>
        ensures shown { IfSome result (λ posted. Shows self.now posted) }
        ensures own { IfSome result (λ posted. addressee posted.value ≡ actor) }
    {
        let number = self.channels.get(self.place_of(actor))?.from.recv(rt).ok()?;
        self.found(actor, number)
    }

    /// What comes to the actor next. It waits until something comes; for an actor that the room does not have, for ever.
    pub fn take<R: Wait>(&self, rt: &R, actor: Actor) -> Posted
        ensures shown { Shows self.now result }
        ensures own { addressee result.value ≡ actor }
    {
        for _ in rt.forever() {
            if let Some(posted) = self.try_take(rt, actor) {
                return posted;
            }
        }
        unreachable!()
    }

    /// What comes to the actor within a time; None where nothing does.
    pub fn take_within<R: Wait + Clock>(
        &self,
        rt: &R,
        actor: Actor,
        time: Duration,
    ) -> Option<Posted>
        ensures shown { IfSome result (λ posted. Shows self.now posted) }
        ensures own { IfSome result (λ posted. addressee posted.value ≡ actor) }
    {
        let channel = self.channels.get(self.place_of(actor))?;
        let number = channel.from.recv_timeout(rt, time).ok()?;
        self.found(actor, number)
    }

    /// The letter that was posted; None exactly where it is an end.
    pub fn letter<'a>(&'a self, posted: &Posted) -> Option<&'a SharedLetter>
        requires { Shows self.now posted.now }
        ensures { option_copied result ≡ letter_in posted.now.value }
    {
        match self.mail.value(&posted.token) {
            Mail::Letter(letter) => Some(letter),
            Mail::End(_) => None,
        }
    }

    /// Under one number one thing was posted.
    pub fn agrees(&self, a: &Posted, b: &Posted)
        requires { Shows self.now a.now × Shows self.now b.now × (a.now.index ≡ b.now.index) }
        ensures { a.now.value ≡ b.now.value }
    {
        self.mail.agrees(&a.token, &b.token);
    }
}
