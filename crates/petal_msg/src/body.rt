//! What letters say.

use petal_base::{
    BlockNo, Cell, ClientId, Epoch, Inc, Key, MapId, Op, Origin, Rev, Seq, Sequence, ServerId,
    SharedBlock, Version,
};
use petal_command::{Command, Pax, ServerNumber};

/// The content of a letter, in the order of the format.
#[derive(Drop, PartialEq, Eq)]
pub enum Body {
    /// This incarnation of a server has stopped.
    Down {
        server: ServerNumber,
        inc: Inc,
    },
    /// What a server showed the operator at a glance, for this line and this round of it: whether it runs, as which
    /// incarnation, and whether a copy found no slot there. A stopped server shows 0 and false.
    Seen {
        line: u32,
        round: u32,
        running: bool,
        inc: Inc,
        full: bool,
    },
    /// A client asks that this command be proposed.
    Propose {
        command: Command,
    },
    /// What proposers and acceptors tell one another.
    Pax(Pax),
    /// What follows this revision in the log?
    Ask {
        rev: Rev,
    },
    /// The commands that are chosen for the places after this one, at most 64, as far as the sender knows.
    News {
        after: Rev,
        commands: Sequence<Command>,
    },
    /// A client asks for the entry of a cell of the greatest epoch not above this one.
    Read {
        client: ClientId,
        seq: Seq,
        cell: Cell,
        epoch: Epoch,
    },
    /// A client asks to put these bytes into a cell.
    Write {
        client: ClientId,
        seq: Seq,
        cell: Cell,
        epoch: Epoch,
        bytes: SharedBlock,
    },
    /// The bytes that a read asked for.
    Data {
        seq: Seq,
        bytes: SharedBlock,
    },
    /// A read's block may still lie under the old map.
    NotHere {
        seq: Seq,
    },
    /// Another operation is pending on the block.
    BlockBusy {
        seq: Seq,
    },
    /// A fence covers the cell.
    Held {
        seq: Seq,
    },
    /// The letter's revision is not the server's, which stands in this letter.
    WrongRev {
        seq: Seq,
    },
    /// The write is done.
    Written {
        seq: Seq,
    },
    /// The write found no free slot.
    Full {
        seq: Seq,
    },
    /// The lead asks the second server for a slot.
    Reserve {
        op: Op,
        cell: Cell,
    },
    /// The second server has set a slot apart.
    Reserved {
        op: Op,
        cell: Cell,
    },
    /// The second server has no free slot.
    PairFull {
        op: Op,
        cell: Cell,
    },
    /// The lead has put its copy, and the second server is to follow. It says for which write of a client, if it is for one.
    Replicate {
        op: Op,
        key: Key,
        version: Version,
        origin: Option<Origin>,
        bytes: SharedBlock,
    },
    /// The second server has put its copy.
    Replicated {
        op: Op,
        cell: Cell,
    },
    /// The holder of a link asks the server that returned for its least marked block above this one.
    HelloAsk {
        map: MapId,
        link: u8,
        after: Option<BlockNo>,
    },
    /// The least marked block above this one, where there is one.
    Hello {
        map: MapId,
        link: u8,
        after: Option<BlockNo>,
        block: Option<BlockNo>,
    },
    /// The other server is to drop its entries of the cell but those of these epochs.
    Trim {
        op: Op,
        cell: Cell,
        epochs: Sequence<Epoch>,
    },
    /// No other entry of the cell is left.
    Trimmed {
        op: Op,
        cell: Cell,
    },
    /// The entry of a copy that comes at this place, counted from 0 for each copy of a cell.
    Sync {
        op: Op,
        key: Key,
        version: Version,
        index: u32,
        bytes: SharedBlock,
    },
    /// The entry of this place is put.
    Synced {
        op: Op,
        cell: Cell,
        index: u32,
    },
    /// The other server has no free slot for the copy.
    SyncFull {
        op: Op,
        cell: Cell,
    },
    /// An entry is to be put under the new map.
    Fill {
        key: Key,
        bytes: SharedBlock,
    },
    /// The entry stands under the new map.
    Filled {
        key: Key,
    },
    /// The entry found no free slot under the new map.
    FillFull {
        key: Key,
    },
}
