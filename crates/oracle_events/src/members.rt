//! The servers that are in and out, as chosen commands tell.

use petal_base::{Inc, NoMemory, ServerId};
use std::alloc::Global;

/// A server's last incarnation that has joined, and whether it is in; and how many records there were when it last joined with nothing.
#[derive(Clone, Copy)]
struct Member {
    inc: Inc,
    is_in: bool,
    emptied: usize,
}

/// All servers, by number.
#[derive(Drop)]
pub struct Members {
    members: Vec<Member>,
}

impl Members {
    /// So many servers, each in as its first incarnation.
    pub fn new(alloc: Global, servers: u8) -> Result<Members, NoMemory> {
        let mut members = Vec::new(alloc);
        for _ in 0..servers {
            members.push(Member {
                inc: 1,
                is_in: true,
                emptied: 0,
            })?;
        }
        Ok(Members { members })
    }

    /// Whether the server is in.
    pub fn is_in(&self, server: ServerId) -> bool {
        match self.members.get(server as usize) {
            Some(member) => member.is_in,
            None => false,
        }
    }

    /// Whether the server is in as this incarnation.
    pub fn is_in_as(&self, server: ServerId, inc: Inc) -> bool {
        match self.members.get(server as usize) {
            Some(member) => member.is_in && member.inc == inc,
            None => false,
        }
    }

    /// The servers that are in.
    pub fn all_in(&self, alloc: Global) -> Result<Vec<ServerId>, NoMemory> {
        let mut servers = Vec::new(alloc);
        for server in 0..=u8::MAX {
            if self.is_in(server) {
                servers.push(server)?;
            }
        }
        Ok(servers)
    }

    /// The incarnation of the server is out. Gives whether it was in.
    pub fn leave(&mut self, server: ServerId, inc: Inc) -> bool {
        let acts = self.is_in_as(server, inc);
        if acts {
            self.set(server, inc, false);
        }
        acts
    }

    /// The server is in as this incarnation. Gives whether it was out, and this one is later than its last.
    pub fn join(&mut self, server: ServerId, inc: Inc) -> bool {
        let acts = match self.members.get(server as usize) {
            Some(member) => !member.is_in && member.inc < inc,
            None => false,
        };
        if acts {
            self.set(server, inc, true);
        }
        acts
    }

    fn set(&mut self, server: ServerId, inc: Inc, is_in: bool) {
        if let Some(own) = self.members.get_mut(server as usize) {
            own.inc = inc;
            own.is_in = is_in;
        }
    }

    /// The server has joined with nothing, in the record of this number.
    pub fn empty(&mut self, server: ServerId, records: usize) {
        if let Some(own) = self.members.get_mut(server as usize) {
            own.emptied = records;
        }
    }

    /// How many records there were when the server last joined with nothing.
    pub fn emptied(&self, server: ServerId) -> usize {
        match self.members.get(server as usize) {
            Some(member) => member.emptied,
            None => 0,
        }
    }
}
