//! The text of a drill while it is written.

ghost use Rattle.std.specs.Prelude.{◌≡◌, ◌++◌, ◌+◌, ◌<◌, ◌∷◌, OnOk, IfOk};
ghost use Rattle.petal_drill.specs.Drill.{draw, drawn, last_line, starts, stops, asks, turn, drill_after};
ghost use Rattle.petal_drill.specs.Drill.{start_lines, stop_lines, read_line, write_line};

use petal_base::NoMemory;
use std::alloc::Global;
use std::marker::Model;

/// The text so far, with the number that was drawn last and the server that was stopped last.
#[derive(Drop)]
pub(crate) struct Writer {
    number: u32,
    stopped: u32,
    text: Vec<u8>,
}

impl Model for Writer {
    ghost use Rattle.petal_drill.specs.Drill.{Drill};

    ghost Value = { Drill };

    ghost view = { λ w. record { number = w.number; stopped = w.stopped; text = w.text.items } };
}

/// The number that is drawn after this one.
fn draw(number: u32) -> u32
    ensures { result ≡ draw number }
{
    ((u64::from(number) * 1_103_515_245 + 12_345) % 2_147_483_648) as u32
}

/// What a number that was drawn stands for, below a bound.
fn drawn(number: u32, below: u32) -> u32
    requires { 0 < below }
    ensures value { result ≡ drawn number below }
    ensures bound { result < below }
{
    (number / 65_536) % below
}

fn add_start(alloc: Global, text: &mut Vec<u8>, server: u32) -> Result<(), NoMemory>
    ensures { OnOk result (text.new.items ≡ text.old.items ++ start_lines server) }
{
    let lines = format!(in alloc; "wait\nop start {server}\nop settle\nwait\n")?;
    text.extend_from_slice(lines.as_bytes())?;
    Ok(())
}

fn add_stop(alloc: Global, text: &mut Vec<u8>, server: u32) -> Result<(), NoMemory>
    ensures { OnOk result (text.new.items ≡ text.old.items ++ stop_lines server) }
{
    let lines = format!(in alloc; "wait\nop stop {server}\n")?;
    text.extend_from_slice(lines.as_bytes())?;
    Ok(())
}

/// A line of a client: its letter, and the rest.
#[tactic(auto, using(crate::proofs::Lines::with_letter))]
fn add_line(text: &mut Vec<u8>, client: u8, rest: &str) -> Result<(), NoMemory>
    requires { client < 8 }
    ensures { OnOk result (text.new.items ≡ text.old.items ++ (97 + client) ∷ rest.now) }
{
    text.push(b'a' + client)?;
    text.extend_from_slice(rest.as_bytes())?;
    Ok(())
}

fn add_read(alloc: Global, text: &mut Vec<u8>, client: u8, block: u32) -> Result<(), NoMemory>
    requires { client < 8 }
    ensures { OnOk result (text.new.items ≡ text.old.items ++ read_line client block) }
{
    let rest = format!(in alloc; " read vol {block}\n")?;
    add_line(text, client, &rest)
}

fn add_write(
    alloc: Global,
    text: &mut Vec<u8>,
    client: u8,
    block: u32,
    byte: u32,
) -> Result<(), NoMemory>
    requires { client < 8 }
    ensures { OnOk result (text.new.items ≡ text.old.items ++ write_line client block byte) }
{
    let rest = format!(in alloc; " write vol {block} fill {byte}\n")?;
    add_line(text, client, &rest)
}

impl Writer {
    /// A drill without a request.
    #[tactic(auto, unfolding(crate::specs::Drill::drill_after))]
    pub(crate) fn begin(alloc: Global, seed: u32) -> Result<Writer, NoMemory>
        ensures { IfOk result (λ drill. drill ≡ drill_after seed 0) }
    {
        let mut text = Vec::new(alloc);
        text.extend_from_slice(b"servers 5 slots 256\na disk vol on 0 1 2 3 4\nwait\n")?;
        Ok(Writer {
            number: seed,
            stopped: 0,
            text,
        })
    }

    /// The server that was stopped last starts again.
    #[tactic(auto, unfolding(crate::specs::Drill::starts))]
    fn start(&mut self, alloc: Global) -> Result<(), NoMemory>
        ensures { OnOk result (self.new ≡ starts self.old) }
    {
        add_start(alloc, &mut self.text, self.stopped)
    }

    /// A server stops.
    #[tactic(auto, unfolding(crate::specs::Drill::stops))]
    fn stop(&mut self, alloc: Global) -> Result<(), NoMemory>
        ensures { OnOk result (self.new ≡ stops self.old) }
    {
        self.number = draw(self.number);
        self.stopped = drawn(self.number, 5);
        add_stop(alloc, &mut self.text, self.stopped)
    }

    /// A client asks for a block.
    #[tactic(auto, unfolding(crate::specs::Drill::asks))]
    fn ask(&mut self, alloc: Global) -> Result<(), NoMemory>
        ensures { OnOk result (self.new ≡ asks self.old) }
    {
        let for_client = draw(self.number);
        let for_block = draw(for_client);
        let for_byte = draw(for_block);
        let for_kind = draw(for_byte);
        self.number = for_kind;
        let client = drawn(for_client, 8) as u8;
        let block = 8 * drawn(for_block, 8) + u32::from(client);
        if drawn(for_kind, 3) == 0 {
            add_read(alloc, &mut self.text, client, block)
        } else {
            let byte = drawn(for_byte, 255) + 1;
            add_write(alloc, &mut self.text, client, block, byte)
        }
    }

    /// One request, and before some of them a stop or a start.
    #[tactic(auto, unfolding(crate::specs::Drill::turn))]
    pub(crate) fn turn(&mut self, alloc: Global, i: u32) -> Result<(), NoMemory>
        ensures { OnOk result (self.new ≡ turn i self.old) }
    {
        if i % 16 == 0 && 0 < i {
            self.start(alloc)?;
        } else if i % 16 == 8 {
            self.stop(alloc)?;
        }
        self.ask(alloc)
    }

    /// The whole text.
    pub(crate) fn into_text(self) -> Result<Vec<u8>, NoMemory>
        ensures { IfOk result (λ text. text.items ≡ self.text ++ last_line) }
    {
        let mut text = self.text;
        text.extend_from_slice(b"wait\n")?;
        Ok(text)
    }
}
