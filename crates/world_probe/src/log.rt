//! The log that the copy is told of.

use crate::copy::Copy;
use petal_base::{Inc, MapId, Name, NoMemory, Sequence, ServerId, Tuple};
use petal_command::{ClientNumber, Command, LinkNumber, ServerNumber};
use petal_msg::{Actor, Body};
use petal_world::Host;
use std::alloc::Global;

/// The incarnation that each other server has there, which is later than any in a run.
pub const LATER: Inc = 1_000;

/// The links of a map.
const LINKS: u8 = 8;

/// The number of the client's command there, which is later than any in a run.
const SEQ: u32 = 1_000_000;

/// Who serves the links of the copy.
#[derive(Clone, Copy, Debug, PartialEq, Eq)]
pub enum Serving {
    /// The copy alone.
    Own,
    /// The other server of each link alone.
    Others,
}

/// Commands that follow one another.
#[derive(Drop)]
struct Log {
    commands: Sequence<Command>,
}

impl Log {
    // The incarnation of the server is out.
    fn leave(&mut self, server: ServerId, inc: Inc) -> Result<(), NoMemory> {
        match ServerNumber::checked(server) {
            Some(server) => self.commands.push(Command::Leave { server, inc }),
            None => Ok(()),
        }
    }

    // All of the server's incarnations up to this one are.
    fn leave_all(&mut self, server: ServerId, last: Inc) -> Result<(), NoMemory> {
        for inc in 1..=last {
            self.leave(server, inc)?;
        }
        Ok(())
    }

    fn join(&mut self, server: ServerId, inc: Inc) -> Result<(), NoMemory> {
        match ServerNumber::checked(server) {
            Some(server) => self.commands.push(Command::Join {
                server,
                inc,
                blank: false,
            }),
            None => Ok(()),
        }
    }

    // The one server of the link, which held it alone, has brought the other one up to date.
    fn catch(
        &mut self,
        map: MapId,
        link: u8,
        (holder, holder_inc): (ServerId, Inc),
        (other, other_inc): (ServerId, Inc),
    ) -> Result<(), NoMemory> {
        let (Some(link), Some(holder), Some(other)) = (
            LinkNumber::checked(link),
            ServerNumber::checked(holder),
            ServerNumber::checked(other),
        ) else {
            return Ok(());
        };
        self.commands.push(Command::Caught {
            map,
            link,
            holder,
            holder_inc,
            other,
            other_inc,
        })
    }

    // Each link of the map that the two share is in both.
    fn catch_all(
        &mut self,
        map: MapId,
        own: (ServerId, Inc),
        other: ServerId,
    ) -> Result<(), NoMemory> {
        for link in 0..LINKS {
            self.catch(map, link, own, (other, LATER))?;
            self.catch(map, link, (other, LATER), own)?;
        }
        Ok(())
    }

    // A disk of these two servers is made.
    fn make(&mut self, first: ServerId, second: ServerId) -> Result<(), NoMemory> {
        let (Some(client), Some(name), Some(tuple)) = (
            ClientNumber::checked(0),
            Name::read(b"asked"),
            Tuple::new(&[first, second], LINKS),
        ) else {
            return Ok(());
        };
        self.commands.push(Command::MakeDisk {
            client,
            seq: SEQ,
            name,
            tuple,
        })
    }
}

impl<H: Host> Copy<H> {
    /// One of the other servers.
    pub fn other(&self) -> ServerId {
        if self.me == 0 { 1 } else { 0 }
    }

    // The other servers are in, as an incarnation that is later than theirs, and so is the copy, as the one before its own; and each of
    // the copy's links of the map is in both.
    fn shares(&self, log: &mut Log, map: MapId, before: Inc) -> Result<(), NoMemory> {
        log.leave_all(self.me, before)?;
        log.join(self.me, before)?;
        for other in 0..self.servers {
            if other != self.me {
                log.leave_all(other, self.boots)?;
                log.join(other, LATER)?;
                log.catch_all(map, (self.me, before), other)?;
            }
        }
        Ok(())
    }

    // The others leave.
    fn remains(&self, log: &mut Log) -> Result<(), NoMemory> {
        for other in 0..self.servers {
            if other != self.me {
                log.leave(other, LATER)?;
            }
        }
        Ok(())
    }

    /// It is told of a log by which these servers serve its links of the map, and a disk of its own is made.
    pub fn told(&mut self, alloc: Global, map: MapId, serving: Serving) -> Result<(), NoMemory> {
        let before = self.host.inc().saturating_sub(1);
        let mut log = Log {
            commands: Sequence::new(alloc),
        };
        self.shares(&mut log, map, before)?;
        log.make(self.me, self.other())?;
        if serving == Serving::Own {
            self.remains(&mut log)?;
        }
        log.leave(self.me, before)?;
        log.join(self.me, before.saturating_add(1))?;
        let news = Body::News {
            after: self.host.rev(),
            commands: log.commands,
        };
        self.hear(alloc, Actor::Server(self.other()), LATER, news)?;
        Ok(())
    }
}
