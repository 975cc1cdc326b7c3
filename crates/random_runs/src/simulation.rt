//! Worlds stepped by chance.

use crate::count::{Count, counted};
use crate::cuts::{boot_cut_off, stop_cut_off};
use crate::random::Random;
use crate::struck::{arm_any, arm_running, arm_stopped, disarm};
use oracle_events::{Looks, Stores};
use petal_base::{NoMemory, OPERATOR, ServerId};
use petal_disk::{Plan, Which};
use petal_msg::{Actor, Letter, SharedLetter};
use petal_world::{Host, Record, Step};
use script_lines::Script;
use std::alloc::Global;
use std::test::Fail;
use world_probe::{Order, Run, begin, order_of};

const STEPS: usize = 2_000;

/// The steps of a long run.
const LONG: usize = 8_000;

/// A run with so many choices is taken to hang.
const CHOICES: usize = 80_000;

/// Mostly one of so many letters is handed over that wait the longest.
const OLDEST: usize = 6;

/// In one of so many choices a server stops that has made no commit.
const PATIENCE: usize = 8;

/// What the choices of a run favour.
#[derive(Clone, Copy, Debug, PartialEq, Eq)]
pub enum Habit {
    /// Nothing.
    Even,
    /// A server that is to stop does so right after the commit of a job, and nobody gets the letters of that job; or right after
    /// a boot, and nobody hears of it.
    CutOff,
    /// Where a server is to stop, one of its devices mostly gets a plan in the place of that, by which a sync fails only after it has
    /// synced; where one is to start, its state device gets one before the boot.
    Struck,
    /// The first phase is over when the choices begin, several letters are handed over in one, few of them late, and ticks come
    /// when nothing waits, most of them to servers: so that what takes many ballots, as a snapshot does, comes about.
    Brisk,
    /// The same, over 8,000 steps.
    Long,
    /// As `Long`; letters are lost too, the operator is busy, devices of the servers that it orders about get and lose plans at any time,
    /// and a server boots with the plans that they have or without.
    Mixed,
}

impl Habit {
    fn is_brisk(self) -> bool {
        match self {
            Habit::Brisk | Habit::Long | Habit::Mixed => true,
            Habit::Even | Habit::CutOff | Habit::Struck => false,
        }
    }

    // How many steps a run takes.
    fn steps(self) -> usize {
        match self {
            Habit::Long | Habit::Mixed => LONG,
            Habit::Even | Habit::CutOff | Habit::Struck | Habit::Brisk => STEPS,
        }
    }
}

/// Whether a line of the script orders the server about.
fn is_ordered(script: &Script, server: ServerId) -> bool {
    script.lines.as_slice().iter().any(|line| match order_of(&line.request) {
        Some((_order, of)) => of == server,
        None => false,
    })
}

/// Whether a letter of the same step was handed over to the same actor.
fn has_come(records: &[Record], sent: &Letter) -> bool {
    records.iter().any(|record| match &record.step {
        Step::Deliver { letter } => {
            let come = letter.get();
            come.from == sent.from && come.to == sent.to && come.stamp == sent.stamp
        }
        _ => false,
    })
}

/// How many letters were sent up to the last one that was handed over. After rounds those that follow are on their way.
fn handed_over<H: Host>(run: &Run<H>) -> usize {
    for at in (0..run.sent.len()).rev() {
        if let Some(letter) = run.sent.get(at) {
            if has_come(run.records(), letter.get()) {
                return at.saturating_add(1);
            }
        }
    }
    0
}

/// What chooses the steps of a run: what it favours, the letters that were never handed over, how many letters were looked at for
/// that, and how many jobs and boots were cut off.
#[derive(Drop)]
struct Choice {
    random: Random,
    habit: Habit,
    fresh: Vec<SharedLetter>,
    seen: usize,
    cut_jobs: usize,
    cut_boots: usize,
}

impl Choice {
    fn note_sent<H: Host>(&mut self, run: &Run<H>) -> Result<(), NoMemory> {
        for at in self.seen..run.sent.len() {
            if let Some(letter) = run.sent.get(at) {
                self.fresh.push(letter.share()?)?;
            }
        }
        self.seen = run.sent.len();
        Ok(())
    }

    // One of the three clients.
    fn client(&mut self) -> u8 {
        self.random.below(3) as u8
    }

    fn server<H: Host>(&mut self, run: &Run<H>) -> u8 {
        let servers = run.script().servers;
        if servers == 0 {
            return 0;
        }
        self.random.below(servers as usize) as u8
    }

    // A letter that was never handed over, mostly one of the oldest.
    fn fresh_letter(&mut self) -> Option<SharedLetter> {
        let count = self.fresh.len();
        if count == 0 {
            return None;
        }
        let at = if self.random.below(8) == 0 {
            self.random.below(count)
        } else {
            self.random.below(count.min(OLDEST))
        };
        Some(self.fresh.remove(at))
    }

    // Whether the letter that is handed over is any that was ever sent.
    fn is_late(&mut self) -> bool {
        let one_of = if self.habit.is_brisk() { 16 } else { 4 };
        self.random.below(one_of) == 0
    }

    // Whether it is a server that ticks, and no client.
    fn is_for_server(&mut self) -> bool {
        if self.habit.is_brisk() {
            self.random.below(4) > 0
        } else {
            self.random.below(2) == 0
        }
    }

    // A letter that was ever sent.
    fn any_letter<H: Host>(&mut self, run: &Run<H>) -> Result<Option<SharedLetter>, NoMemory> {
        let count = run.sent.len();
        if count == 0 {
            return Ok(None);
        }
        let at = self.random.below(count);
        match run.sent.get(at) {
            Some(letter) => Ok(Some(letter.share()?)),
            None => Ok(None),
        }
    }

    // Whether the letter that would be handed over is lost. None to the operator is: a server is glanced at once for a line.
    fn is_lost(&mut self, letter: &Letter) -> bool {
        self.habit == Habit::Mixed
            && letter.to != Actor::Client(OPERATOR)
            && self.random.below(16) == 0
    }

    fn hand_over<H: Host>(&mut self, alloc: Global, run: &mut Run<H>) -> Result<bool, NoMemory> {
        let letter = if self.is_late() {
            self.any_letter(run)?
        } else {
            self.fresh_letter()
        };
        let Some(letter) = letter else {
            return Ok(false);
        };
        if self.is_lost(letter.get()) {
            return Ok(false);
        }
        run.deliver(alloc, letter)
    }

    fn deliver<H: Host>(&mut self, alloc: Global, run: &mut Run<H>) -> Result<bool, NoMemory> {
        let letters = if self.habit.is_brisk() { 3 } else { 1 };
        let mut taken = false;
        for _ in 0..letters {
            taken = self.hand_over(alloc, run)? || taken;
        }
        Ok(taken)
    }

    fn tick<H: Host>(&mut self, alloc: Global, run: &mut Run<H>) -> Result<bool, NoMemory> {
        if self.is_for_server() {
            let server = self.server(run);
            run.tick(alloc, Actor::Server(server))
        } else {
            let client = self.client();
            run.tick(alloc, Actor::Client(client))
        }
    }

    // One of the servers is glanced at in a settle's present round.
    fn show<H: Host>(
        &mut self,
        alloc: Global,
        run: &mut Run<H>,
        (line, round): (u32, u32),
    ) -> Result<bool, NoMemory> {
        let server = self.server(run);
        run.show(alloc, server, line, round)
    }

    // A device of the server gets a plan: in the place of its stop, mostly, or before its boot.
    fn strike<H: Host>(
        &mut self,
        alloc: Global,
        run: &mut Run<H>,
        order: Order,
        server: ServerId,
    ) -> Result<bool, NoMemory> {
        match order {
            Order::Stop if self.random.below(PATIENCE) > 0 => {
                arm_running(alloc, &mut self.random, run, server)
            }
            Order::Start => {
                arm_stopped(alloc, &mut self.random, run, server)?;
                run.follow(alloc, order, server)
            }
            Order::Stop | Order::Blank | Order::Arm { .. } => run.follow(alloc, order, server),
        }
    }

    // The server takes the next step that the line gives it, or is cut off or struck where that is to be.
    fn follow<H: Host>(
        &mut self,
        alloc: Global,
        run: &mut Run<H>,
        line: u32,
        order: Order,
        server: ServerId,
    ) -> Result<bool, NoMemory> {
        match (self.habit, order) {
            (Habit::CutOff, Order::Stop) => {
                let patient = self.random.below(PATIENCE) > 0;
                let cut = stop_cut_off(alloc, run, server, patient)?;
                self.cut_jobs = self.cut_jobs.saturating_add(usize::from(cut));
                Ok(cut)
            }
            (Habit::CutOff, Order::Start) => {
                let cut = boot_cut_off(alloc, run, line, server)?;
                self.cut_boots = self.cut_boots.saturating_add(usize::from(cut));
                Ok(cut)
            }
            (Habit::Struck, _) => self.strike(alloc, run, order, server),
            (Habit::Mixed, Order::Start) => {
                if self.random.below(2) == 0 {
                    disarm(alloc, run, server)?;
                }
                run.follow(alloc, order, server)
            }
            _ => run.follow(alloc, order, server),
        }
    }

    // The operator calls its next line, or its open line goes on: its server takes a step that it gives, or is glanced
    // at.
    fn operate<H: Host>(&mut self, alloc: Global, run: &mut Run<H>) -> Result<bool, NoMemory> {
        if let Some(settling) = run.settling() {
            return self.show(alloc, run, settling);
        }
        match (run.open_order(), self.random.below(4)) {
            (None, 0) => run.call(alloc, OPERATOR),
            (None, _) => Ok(false),
            (Some((line, order, server)), 0) => self.follow(alloc, run, line, order, server),
            (Some((line, _order, server)), _) => run.show(alloc, server, line, 0),
        }
    }

    // A device of a server that the operator orders about gets any plan, or loses its own.
    fn arm<H: Host>(&mut self, alloc: Global, run: &mut Run<H>) -> Result<bool, NoMemory> {
        let server = self.server(run);
        if !is_ordered(run.script(), server) {
            return Ok(false);
        }
        arm_any(alloc, &mut self.random, run, server)
    }

    // No letter waits: a server does a job or, where none has one, someone ticks or a client calls. Servers that tick while ballots
    // are under way outbid one another.
    fn go_ahead<H: Host>(&mut self, alloc: Global, run: &mut Run<H>) -> Result<bool, NoMemory> {
        for server in 0..run.script().servers {
            if run.work(alloc, server)? {
                return Ok(true);
            }
        }
        if self.random.below(2) == 0 {
            return self.tick(alloc, run);
        }
        let client = self.client();
        run.call(alloc, client)
    }

    // A choice of a step, which the world takes if it is one of its own. Gives whether it was.
    fn choose<H: Host>(&mut self, alloc: Global, run: &mut Run<H>) -> Result<bool, NoMemory> {
        if self.habit.is_brisk() && self.fresh.is_empty() {
            return self.go_ahead(alloc, run);
        }
        match (self.habit, self.random.below(64)) {
            (_, 0) => self.tick(alloc, run),
            (_, 1) | (Habit::Mixed, 2..=5) => self.operate(alloc, run),
            (Habit::Mixed, 6) => self.arm(alloc, run),
            (_, 2..=8) => {
                let client = self.client();
                run.call(alloc, client)
            }
            (_, 9..=32) => self.deliver(alloc, run),
            _ => {
                let server = self.server(run);
                run.work(alloc, server)
            }
        }
    }

    // Takes steps until there are as many as the habit says. Gives whether it came to that.
    fn go_on<H: Host>(&mut self, alloc: Global, run: &mut Run<H>) -> Result<bool, NoMemory> {
        for _ in 0..CHOICES {
            self.choose(alloc, run)?;
            if run.records().len() >= self.habit.steps() {
                return Ok(true);
            }
            self.note_sent(run)?;
        }
        Ok(false)
    }
}

// Takes the steps of a run that begins. Gives what was counted, or which seed takes too few steps, or which step the plain machine refuses.
fn simulate_by<H: Host, S: Stores>(
    alloc: Global,
    stores: &S,
    seed: u32,
    choice: &mut Choice,
    run: &mut Run<H>,
) -> Result<Count, Fail> {
    if choice.habit.is_brisk() && !begin(alloc, run)? {
        return Err(Fail::new(format_args!("seed {seed}: the first phase doesn't end")));
    }
    choice.seen = handed_over(run);
    choice.note_sent(run)?;
    if !choice.go_on(alloc, run)? {
        return Err(Fail::new(format_args!("seed {seed} takes too few steps")));
    }
    match run.first_refused(alloc, stores, Looks::AtStops)? {
        None => Ok(Count {
            cut_jobs: choice.cut_jobs,
            cut_boots: choice.cut_boots,
            ..counted(run)
        }),
        Some(step) => Err(Fail::new(format_args!(
            "seed {seed}: the plain machine refuses step {step}"
        ))),
    }
}

/// Takes the steps of a run that begins, chosen by chance, all of which the plain machine takes. Gives what was counted.
///
/// # Errors
/// Which seed takes too few steps, or which step the plain machine refuses.
pub fn simulate<H: Host, S: Stores>(
    alloc: Global,
    stores: &S,
    seed: u32,
    habit: Habit,
    random: Random,
    run: Run<H>,
) -> Result<Count, Fail> {
    let mut run = run;
    let mut choice = Choice {
        random,
        habit,
        fresh: Vec::new(alloc),
        seen: 0,
        cut_jobs: 0,
        cut_boots: 0,
    };
    simulate_by(alloc, stores, seed, &mut choice, &mut run)
}

/// As `simulate` by an even habit, where the server's device has this plan from the start.
///
/// # Errors
/// As of `simulate`.
pub fn simulate_struck<H: Host, S: Stores>(
    alloc: Global,
    stores: &S,
    seed: u32,
    random: Random,
    run: Run<H>,
    device: (ServerId, Which),
    plan: Plan,
) -> Result<Count, Fail> {
    let mut run = run;
    let (server, which) = device;
    run.arm(alloc, server, which, Some(plan))?;
    simulate(alloc, stores, seed, Habit::Even, random, run)
}
