//! What the plain machine is told of a history.
//!
//! This says again, from the records, what the definition of a history's events says over the worlds of the rules: a write takes
//! effect in the step after which its bytes stand in the copy that counts, and did not before. Where a second server puts its copy, that
//! is told by the letter to its lead, which is sent in the same step; where it is taken out, by the letters in which its lead, which is
//! ahead, had asked it to put. A put of which no letter of its step tells is found by a look into the server that has made it.

use crate::asked::{is_asked, stopped_in, worked_in};
use crate::choices::Choices;
use crate::contents::Contents;
use crate::disks::{Disks, Done, Link};
use crate::operations::{
    Operation, ahead_on, entry_of, is_brought_in, is_replicated_in, replicated_by,
};
use crate::reads::{accepted, is_by_old_map, old_data, since_boot};
use crate::stores::{Looks, Stores, counted};
use crate::told::Told;
use crate::writes::{Writers, copy_write};
use petal_base::{ClientId, Key, NoMemory, OPERATOR, Seq, ServerId, SharedBlock};
use petal_msg::{Actor, Body, Letter};
use script_lines::{Answer, Request, Script};
use spec_history::Record;
use spec_machine::{Event, Write, WriteEnd};
use spec_rules::Step;
use std::alloc::Global;

/// A record, its number, the records before and after it, and all of them.
#[derive(Drop)]
struct Here<'a> {
    step: usize,
    before: &'a [Record],
    own: &'a Record,
    later: &'a [Record],
    all: &'a [Record],
}

/// What is told so far of a script's history, and the clients and the blocks as they are so far.
#[derive(Drop)]
struct Telling<'a, S> {
    alloc: Global,
    stores: &'a S,
    looks: Looks,
    script: &'a Script,
    writers: Writers,
    choices: Choices,
    disks: Disks,
    contents: Contents,
    told: Vec<Told>,
}

/// What a line asks for.
fn request_of(script: &Script, number: u32) -> Option<&Request> {
    for line in script.lines.as_slice() {
        if line.number == number {
            return Some(&line.request);
        }
    }
    None
}

/// The records from this one on.
fn from(records: &[Record], at: usize) -> &[Record] {
    match records.get(at..) {
        Some(later) => later,
        None => &[],
    }
}

/// The first so many records.
fn upto(records: &[Record], count: usize) -> &[Record] {
    match records.get(..count) {
        Some(first) => first,
        None => records,
    }
}

/// The word of what is told.
fn word_of(told: &Told) -> &'static str {
    match &told.event {
        None => "nothing",
        Some(Event::Make { disk: _ }) => "make",
        Some(Event::Freeze { disk: _, snap: _ }) => "freeze",
        Some(Event::Begin(_)) => "begin",
        Some(Event::Take(_)) => "take",
        Some(Event::End(_, _)) => "end",
        Some(Event::Look { .. }) => "look",
    }
}

/// Whether these words are those of what is told, but for the disks that are made.
pub fn tells(told: &[Told], words: &[&str]) -> bool {
    let mut at = 0;
    for told in told {
        let word = word_of(told);
        if word != "make" {
            if words.get(at) != Some(&word) {
                return false;
            }
            at += 1;
        }
    }
    at == words.len()
}

/// How many disks are told to be made.
pub fn made(told: &[Told]) -> usize {
    told.iter().filter(|told| word_of(told) == "make").count()
}

// Whether the letter tells the same client that the same write is written.
fn is_same_end(letter: &Letter, other: &Letter) -> bool {
    match (&letter.body, &other.body) {
        (Body::Written { seq }, Body::Written { seq: own }) => {
            seq == own && letter.to == other.to && letter.from == other.from
        }
        _ => false,
    }
}

fn ends_in(record: &Record, letter: &Letter) -> bool {
    record
        .sent
        .as_slice()
        .iter()
        .any(|other| is_same_end(other.get(), letter))
}

// The client and the number of the write of which a server says by this letter, for the first time in its life, that it is written.
fn written_by(before: &[Record], letter: &Letter) -> Option<(ClientId, Seq)> {
    let (Actor::Server(server), Actor::Client(client)) = (letter.from, letter.to) else {
        return None;
    };
    let Body::Written { seq } = &letter.body else {
        return None;
    };
    let told = since_boot(before, server)
        .iter()
        .any(|record| ends_in(record, letter));
    if told { None } else { Some((client, *seq)) }
}

/// How a write ends that is answered so; what no write is answered is no end of one.
fn end_of(answer: &Answer) -> Option<WriteEnd> {
    match answer {
        Answer::Ok => Some(WriteEnd::Ok),
        Answer::NoSpace => Some(WriteEnd::NoSpace),
        Answer::Unavailable => Some(WriteEnd::Unavailable),
        Answer::NoDisk => Some(WriteEnd::NoDisk),
        Answer::Data(_) | Answer::NoSnap | Answer::Exists | Answer::Moving | Answer::Failed => None,
    }
}

/// A read that gives these bytes.
fn look_by(request: &Request, bytes: &SharedBlock) -> Result<Option<Event>, NoMemory> {
    let Request::Read { name, snap, block } = request else {
        return Ok(None);
    };
    Ok(Some(Event::Look {
        disk: name.copy(),
        snap: snap.as_ref().map(|snap| snap.copy()),
        block: *block,
        bytes: bytes.share()?,
    }))
}

impl<'a, S: Stores> Telling<'a, S> {
    fn tell(&mut self, step: usize, event: Option<Event>) -> Result<(), NoMemory> {
        self.told.push(Told { step, event })?;
        Ok(())
    }

    // What the commands do that the step chose.
    fn choose(&mut self, here: &Here) -> Result<Done, NoMemory> {
        let before = self.choices.note_all(here.own.sent.as_slice())?;
        let mut done = Done::new(self.alloc);
        for command in self.choices.chosen_from(before) {
            self.disks.apply(command, here.step, &mut done)?;
        }
        Ok(done)
    }

    // The disks that were made, and then the snapshots that were taken.
    fn make(&mut self, step: usize, done: Done) -> Result<(), NoMemory> {
        for disk in done.made {
            self.tell(step, Some(Event::Make { disk }))?;
        }
        for frozen in done.frozen {
            self.disks.rise(&frozen.disk);
            self.tell(
                step,
                Some(Event::Freeze {
                    disk: frozen.disk,
                    snap: frozen.name,
                }),
            )?;
        }
        Ok(())
    }

    fn begin(&mut self, step: usize, client: ClientId, line: u32) -> Result<(), NoMemory> {
        let Some(request) = request_of(self.script, line) else {
            return Ok(());
        };
        match self.writers.call(self.alloc, client, request)? {
            Some(write) => self.tell(step, Some(Event::Begin(write))),
            None => Ok(()),
        }
    }

    fn begins(&mut self, here: &Here) -> Result<(), NoMemory> {
        match (here.own.actor, &here.own.step) {
            (Actor::Client(client), Step::Call { line }) => self.begin(here.step, client, *line),
            _ => Ok(()),
        }
    }

    // The records before this one, since both servers of the operation's link have its blocks: until one of them leaves its
    // operations are of one life of its lead, which numbers them.
    fn beside<'b>(&self, here: &Here<'b>, operation: Operation) -> &'b [Record] {
        from(here.before, self.disks.since(operation.cell))
    }

    // The open write of which the entry comes: it is of its disk's epoch.
    fn write_of(&mut self, key: Key, bytes: &SharedBlock) -> Result<Option<Write>, NoMemory> {
        match self.disks.name_at(key.map, key.epoch) {
            Some(disk) => self.writers.giving(disk, key.block, bytes),
            None => Ok(None),
        }
    }

    // The write takes effect, where its bytes do not stand in its block.
    fn take(&mut self, step: usize, write: Write) -> Result<(), NoMemory> {
        if self.contents.has(&write) {
            return Ok(());
        }
        self.contents.put(&write)?;
        self.tell(step, Some(Event::Take(write)))
    }

    // The operation's entry counts from now on. What comes from the map that its disk leaves changes no content.
    fn take_entry(&mut self, here: &Here, operation: Operation) -> Result<(), NoMemory> {
        let Some((key, bytes)) = entry_of(self.beside(here, operation), operation) else {
            return self.tell(here.step, None);
        };
        match self.write_of(key, bytes)? {
            Some(write) => self.take(here.step, write),
            None if is_brought_in(here.before, operation, (key, bytes)) => Ok(()),
            None => self.tell(here.step, None),
        }
    }

    // A second server says for the first time that it has put its copy.
    fn take_second(&mut self, here: &Here, letter: &Letter) -> Result<(), NoMemory> {
        match replicated_by(letter) {
            Some(operation) if !is_replicated_in(self.beside(here, operation), operation) => {
                self.take_entry(here, operation)
            }
            _ => Ok(()),
        }
    }

    // A server that has put a write says for the first time in its life that it is written: its bytes stand in their block.
    fn take_last(&mut self, here: &Here, letter: &Letter) -> Result<(), NoMemory> {
        let Some((client, seq)) = written_by(here.before, letter) else {
            return Ok(());
        };
        match self.writers.numbered(client, seq)? {
            Some(write) => self.take(here.step, write),
            None => Ok(()),
        }
    }

    // Each open write whose bytes do not stand in its block.
    fn missing(&self) -> Result<Vec<Write>, NoMemory> {
        let mut missing = Vec::new(self.alloc);
        for client in 0..OPERATOR {
            if let Some(write) = self.writers.of(client) {
                if !self.contents.has(write) {
                    missing.push(copy_write(write)?)?;
                }
            }
        }
        Ok(missing)
    }

    // Whether the write's bytes stand in the server's copy of the block after this record, and that copy counts.
    fn is_held(&self, here: &Here, server: ServerId, write: &Write) -> Result<bool, NoMemory> {
        let Some(cell) = self.disks.home(&write.disk, write.block) else {
            return Ok(false);
        };
        if !self.disks.counts(server, cell) {
            return Ok(false);
        }
        let records = counted(
            upto(here.all, here.step),
            server,
            self.disks.emptied(server),
        );
        let held = self
            .stores
            .held(self.alloc, self.script, server, records, cell)?;
        match held {
            Some(bytes) => Ok(bytes == write.bytes),
            None => Ok(false),
        }
    }

    // What the server has put that it was asked for in these records takes effect: of several writes of the same bytes one does.
    fn take_held(
        &mut self,
        here: &Here,
        asked: &[Record],
        server: ServerId,
    ) -> Result<(), NoMemory> {
        for missing in self.missing()? {
            if is_asked(asked, server, &missing) && self.is_held(here, server, &missing)? {
                let giving = self
                    .writers
                    .giving(&missing.disk, missing.block, &missing.bytes)?;
                if let Some(write) = giving {
                    self.take(here.step, write)?;
                }
            }
        }
        Ok(())
    }

    // The server that is looked into after this record.
    fn looked_into(&self, own: &Record) -> Option<ServerId> {
        match self.looks {
            Looks::AtStops => stopped_in(own),
            Looks::AfterJobs => stopped_in(own).or(worked_in(own)),
        }
    }

    // The copies of the link's primary count from now on: what it has put ahead of its second server takes effect.
    fn take_ahead(&mut self, here: &Here, link: &Link) -> Result<(), NoMemory> {
        let asked = from(here.before, link.since);
        for operation in ahead_on(self.alloc, asked, link)? {
            self.take_entry(here, operation)?;
        }
        self.take_held(here, asked, link.primary)
    }

    fn takes(&mut self, here: &Here, done: &Done) -> Result<(), NoMemory> {
        for letter in here.own.sent.as_slice() {
            self.take_second(here, letter.get())?;
            self.take_last(here, letter.get())?;
        }
        if let Some(server) = self.looked_into(here.own) {
            self.take_held(here, since_boot(here.before, server), server)?;
        }
        for link in &done.passed {
            self.take_ahead(here, link)?;
        }
        Ok(())
    }

    // The line's read gives these bytes.
    fn look(&mut self, step: usize, line: u32, bytes: &SharedBlock) -> Result<(), NoMemory> {
        let Some(request) = request_of(self.script, line) else {
            return Ok(());
        };
        match look_by(request, bytes)? {
            Some(event) => self.tell(step, Some(event)),
            None => Ok(()),
        }
    }

    // A read that the old map answers has looked when the letter was sent that made its client ask there.
    fn looks_by(&mut self, here: &Here, letter: &Letter) -> Result<(), NoMemory> {
        let found = match &letter.body {
            Body::Data { bytes, .. } => match accepted(here.later, letter) {
                Some(line) if !is_by_old_map(here.all, here.before.len(), letter) => {
                    Some((line, bytes))
                }
                _ => None,
            },
            Body::NotHere { .. } => old_data(here.all, here.before.len(), letter),
            _ => None,
        };
        match found {
            Some((line, bytes)) => self.look(here.step, line, bytes),
            None => Ok(()),
        }
    }

    fn looks(&mut self, here: &Here) -> Result<(), NoMemory> {
        for letter in here.own.sent.as_slice() {
            self.looks_by(here, letter.get())?;
        }
        Ok(())
    }

    fn ends(&mut self, here: &Here) -> Result<(), NoMemory> {
        let (Actor::Client(client), Some((_line, answer))) = (here.own.actor, &here.own.answer)
        else {
            return Ok(());
        };
        match self.writers.answer(client) {
            Some(write) => {
                let end = end_of(answer).map(|how| Event::End(write, how));
                self.tell(here.step, end)
            }
            None => Ok(()),
        }
    }
}

fn tell_all<S: Stores>(telling: &mut Telling<S>, records: &[Record]) -> Result<(), NoMemory> {
    for at in 0..records.len() {
        let here = Here {
            step: at + 1,
            before: &records[..at],
            own: &records[at],
            later: &records[at + 1..],
            all: records,
        };
        telling.begins(&here)?;
        let done = telling.choose(&here)?;
        telling.takes(&here, &done)?;
        telling.make(here.step, done)?;
        telling.looks(&here)?;
        telling.ends(&here)?;
    }
    Ok(())
}

/// The events of a script's history, in order, where its servers can be looked into.
pub fn told_of<S: Stores>(
    alloc: Global,
    stores: &S,
    looks: Looks,
    script: &Script,
    records: &[Record],
) -> Result<Vec<Told>, NoMemory> {
    let mut telling = Telling {
        alloc,
        stores,
        looks,
        script,
        writers: Writers::new(alloc)?,
        choices: Choices::new(alloc, script.servers),
        disks: Disks::new(alloc, script.servers)?,
        contents: Contents::new(alloc),
        told: Vec::new(alloc),
    };
    tell_all(&mut telling, records)?;
    Ok(telling.told)
}

/// How many reads were answered by the map that their disk leaves.
pub fn old_reads(records: &[Record]) -> usize {
    let mut count: usize = 0;
    for (at, record) in records.iter().enumerate() {
        for letter in record.sent.as_slice() {
            let letter = letter.get();
            let told = match &letter.body {
                Body::NotHere { .. } => old_data(records, at, letter).is_some(),
                _ => false,
            };
            count = count.saturating_add(usize::from(told));
        }
    }
    count
}
