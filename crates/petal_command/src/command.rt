//! Commands.

use crate::number::{ClientNumber, LinkNumber, RegionNumber, ServerNumber};
use petal_base::{Inc, MapId, Name, Seq, Tuple};
use std::alloc::AllocError;

/// A command is spelled by so many bytes.
pub const COMMAND_BYTES: usize = 64;

/// An entry of the agreed log. Its numbers, names and tuples are such that each value has a spelling.
#[derive(Drop, PartialEq, Eq)]
pub enum Command {
    /// The server is in, with this incarnation; `blank` where its data device was found blank.
    Join {
        server: ServerNumber,
        inc: Inc,
        blank: bool,
    },
    /// The incarnation of the server is out.
    Leave {
        server: ServerNumber,
        inc: Inc,
    },
    /// The other server of a link that the holder kept alone has been brought up to date.
    Caught {
        map: MapId,
        link: LinkNumber,
        holder: ServerNumber,
        holder_inc: Inc,
        other: ServerNumber,
        other_inc: Inc,
    },
    /// A new disk over these servers.
    MakeDisk {
        client: ClientNumber,
        seq: Seq,
        name: Name,
        tuple: Tuple,
    },
    /// A snapshot of a disk.
    Snap {
        client: ClientNumber,
        seq: Seq,
        disk: Name,
        name: Name,
    },
    /// A disk moves to these servers.
    StartMove {
        client: ClientNumber,
        seq: Seq,
        disk: Name,
        tuple: Tuple,
    },
    /// The incarnation of the server has nothing pending in the scope of the fence.
    Drained {
        server: ServerNumber,
        inc: Inc,
        fence: u32,
    },
    /// All that a link of an old map holds of the region has been moved.
    Moved {
        map: MapId,
        region: RegionNumber,
        link: LinkNumber,
    },
    /// A place of the log from which a client can tell that its request can't be served.
    Witness {
        client: ClientNumber,
        seq: Seq,
        turn: u32,
    },
}

impl Command {
    ghost use Rattle.std.specs.Prelude.{◌≡◌};

    /// The same command again. It takes no memory.
    pub fn copy(&self) -> Command
        ensures { result ≡ self.now }
    {
        match self {
            Command::Join { server, inc, blank } => Command::Join {
                server: *server,
                inc: *inc,
                blank: *blank,
            },
            Command::Leave { server, inc } => Command::Leave {
                server: *server,
                inc: *inc,
            },
            Command::Caught {
                map,
                link,
                holder,
                holder_inc,
                other,
                other_inc,
            } => Command::Caught {
                map: *map,
                link: *link,
                holder: *holder,
                holder_inc: *holder_inc,
                other: *other,
                other_inc: *other_inc,
            },
            Command::MakeDisk {
                client,
                seq,
                name,
                tuple,
            } => Command::MakeDisk {
                client: *client,
                seq: *seq,
                name: name.copy(),
                tuple: tuple.copy(),
            },
            Command::Snap {
                client,
                seq,
                disk,
                name,
            } => Command::Snap {
                client: *client,
                seq: *seq,
                disk: disk.copy(),
                name: name.copy(),
            },
            Command::StartMove {
                client,
                seq,
                disk,
                tuple,
            } => Command::StartMove {
                client: *client,
                seq: *seq,
                disk: disk.copy(),
                tuple: tuple.copy(),
            },
            Command::Drained { server, inc, fence } => Command::Drained {
                server: *server,
                inc: *inc,
                fence: *fence,
            },
            Command::Moved { map, region, link } => Command::Moved {
                map: *map,
                region: *region,
                link: *link,
            },
            Command::Witness { client, seq, turn } => Command::Witness {
                client: *client,
                seq: *seq,
                turn: *turn,
            },
        }
    }
}

impl Clone for Command {
    ghost use Rattle.std.specs.Prelude.{◌≡◌};

    ghost is_clone = { λ x y. y ≡ x };

    fn clone(&self) -> Result<Self, AllocError> {
        Ok(self.copy())
    }
}
