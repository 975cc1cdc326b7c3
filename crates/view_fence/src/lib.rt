//! The view of running servers, and the queue of fences: switches that wait until every server that is In has nothing
//! pending in their scope.
//!
//! To the layer above it promises the list of servers and the queue that each change gives, with the head's waiting set. It
//! knows nothing of what a fence does once it takes effect, or of who may join and leave.
#![tactic(auto)]

ghost use Rattle.std.specs.Prelude.{◌≡◌, ◌<◌, ◌+◌, ◌-◌, ◌^◌, ◌==◌, IfOk, OnOk, OnErr, IsTrue, Some, is_some, length, filter};
ghost use Rattle.std.specs.Prelude.{not, slice_get, slice_set, option_copied};
ghost use Rattle.std.specs.List.{range_with_len};
ghost use Rattle.global_tables.specs.declared.fence.Member.TheVariants.{Out};
ghost use Rattle.global_tables.specs.View.{new_view, joined, left, queued, drained, taken, ready, head, awaiting, servers_in, stands_in};
ghost use Rattle.global_tables.specs.View.{last_inc, first_waiting, reported, following, out_of};

pub use global_tables::{Fence, FenceKind, Member};
use petal_base::{Inc, NoMemory, Sequence, ServerId};
use std::alloc::{AllocError, Global};
use std::marker::Model;

/// Each server, In or Out with its last incarnation, and the fences that wait. Contracts see the members, the queue, and the
/// number of fences queued so far.
#[derive(Drop)]
pub struct ViewFence {
    members: Vec<Member>,
    queue: Vec<Fence>,
    queued: u32,
}

impl Model for ViewFence {
    ghost use Rattle.std.specs.Prelude.{◌<◌, length};
    ghost use Rattle.global_tables.specs.View.{View};

    ghost Value = { View };

    ghost view = { λ v. record { members = v.members.items; queue = v.queue.items; queued = v.queued } };

    ghost invariant = { λ v. length v.members.items < 256 };
}

impl ViewFence {
    /// All servers In with incarnation 1, and no fence.
    pub fn new(alloc: Global, servers: u8) -> Result<ViewFence, NoMemory>
        ensures { IfOk result (λ view. view ≡ new_view servers) }
    {
        Ok(ViewFence {
            members: vec![in alloc; Member::In(1); servers as usize]?,
            queue: Vec::new(alloc),
            queued: 0,
        })
    }

    /// A server; None exactly where the view has no such server.
    pub fn member(&self, server: ServerId) -> Option<Member>
        ensures { result ≡ slice_get self.now.members server }
    {
        self.members.get(server as usize).copied()
    }

    /// All servers by number.
    pub fn members(&self) -> &[Member]
        ensures value { result.now ≡ self.now.members }
        ensures few { length self.now.members < 256 }
    {
        &self.members
    }

    /// The active fence; None exactly where no fence is queued.
    pub fn head(&self) -> Option<&Fence>
        ensures { option_copied result ≡ head self.now.queue }
    {
        self.queue.first()
    }

    /// All fences that wait, the active one first.
    pub fn queue(&self) -> &[Fence]
        ensures { result.now ≡ self.now.queue }
    {
        &self.queue
    }

    /// How many fences were queued so far.
    pub fn queued(&self) -> u32
        ensures { result ≡ self.now.queued }
    {
        self.queued
    }

    /// The server is In with this incarnation. No waiting set changes: a server that joins holds from the start.
    pub fn join(&mut self, server: ServerId, inc: Inc) -> Result<(), NoMemory>
        requires { server < length self.old.members }
        ensures ok { OnOk result (self.new ≡ joined self.old server inc) }
        ensures err { OnErr result (self.new ≡ self.old) }
    {
        self.members[server as usize] = Member::In(inc);
        Ok(())
    }

    /// The server is Out with its incarnation, and the head waits again for every server that is In.
    pub fn leave(&mut self, alloc: Global, server: ServerId) -> Result<(), NoMemory>
        requires { server < length self.old.members }
        ensures ok { OnOk result (self.new ≡ left self.old server) }
        ensures err { OnErr result (self.new ≡ self.old) }
    {
        let members = without(alloc, &self.members, server)?;
        let waiting = servers_in(alloc, &members)?;
        await_first(&mut self.queue, waiting);
        self.members = members;
        Ok(())
    }

    /// One fence more, at the end of the queue; gives its number.
    pub fn add(&mut self, alloc: Global, kind: FenceKind) -> Result<u32, NoMemory>
        requires { self.old.queued < 2 ^ 32 - 1 }
        ensures ok { OnOk result (self.new ≡ queued self.old kind) }
        ensures number { IfOk result (λ number. number ≡ self.old.queued + 1) }
        ensures err { OnErr result (self.new ≡ self.old) }
    {
        let waiting = first_waiting(alloc, &self.members, &self.queue)?;
        let number = self.queued + 1;
        self.queue.push(Fence {
            number,
            kind,
            waiting,
        })?;
        self.queued = number;
        Ok(number)
    }

    /// The server leaves the head's waiting set.
    pub fn drained(&mut self, alloc: Global, server: ServerId) -> Result<(), NoMemory>
        ensures ok { OnOk result (self.new ≡ drained self.old server) }
        ensures err { OnErr result (self.new ≡ self.old) }
    {
        report(alloc, &mut self.queue, server)?;
        Ok(())
    }

    /// The head, which leaves the queue; None exactly where there is none or it still waits.
    pub fn take(&mut self, alloc: Global) -> Result<Option<Fence>, NoMemory>
        ensures fence { IfOk result (λ fence. fence ≡ ready self.old.queue) }
        ensures ok { OnOk result (self.new ≡ taken self.old) }
        ensures err { OnErr result (self.new ≡ self.old) }
    {
        if !is_ready(&self.queue) {
            return Ok(None);
        }
        let waiting = servers_in(alloc, &self.members)?;
        Ok(Some(take_first(&mut self.queue, waiting)))
    }

    /// The same view and fences again.
    pub fn copy(&self) -> Result<ViewFence, NoMemory>
        ensures { IfOk result (λ view. view ≡ self.now) }
    {
        Ok(ViewFence {
            members: self.members.clone()?,
            queue: self.queue.clone()?,
            queued: self.queued,
        })
    }
}

fn last_inc(member: Member) -> Inc
    ensures { result ≡ last_inc member }
{
    match member {
        Member::In(inc) | Member::Out(inc) => inc,
    }
}

/// The members with this one Out.
fn without(alloc: Global, members: &[Member], server: ServerId) -> Result<Vec<Member>, AllocError>
    requires { server < length members.now }
    ensures { IfOk result (λ after. after.items ≡ slice_set members.now server (Out (out_of (slice_get members.now server)))) }
{
    let inc = out_of(members.get(server as usize).copied());
    let mut after = Vec::from_slice(alloc, members)?;
    after[server as usize] = Member::Out(inc);
    Ok(after)
}

fn out_of(member: Option<Member>) -> Inc
    ensures { result ≡ out_of member }
{
    match member {
        None => 0,
        Some(member) => last_inc(member),
    }
}

fn stands_in(members: &[Member], server: ServerId) -> bool
    ensures { result ≡ stands_in members.now server }
{
    match members.get(server as usize) {
        Some(Member::In(_)) => true,
        Some(Member::Out(_)) | None => false,
    }
}

fn servers_in(alloc: Global, members: &[Member]) -> Result<Sequence<ServerId>, AllocError>
    requires { length members.now < 256 }
    ensures { IfOk result (λ servers. servers ≡ servers_in members.now) }
{
    Ok(Sequence::of(all_in(alloc, members, members.len() as u8)?))
}

fn all_in(alloc: Global, members: &[Member], count: u8) -> Result<Vec<ServerId>, AllocError>
    ensures { IfOk result (λ servers. servers.items ≡ filter (stands_in members.now) (range_with_len 0 count)) }
{
    (0..count)
        .filter(|server| stands_in(members, *server))
        .collect(alloc)
}

fn first_waiting(
    alloc: Global,
    members: &[Member],
    queue: &[Fence],
) -> Result<Sequence<ServerId>, AllocError>
    requires { length members.now < 256 }
    ensures { IfOk result (λ servers. servers ≡ first_waiting members.now queue.now) }
{
    if queue.is_empty() {
        servers_in(alloc, members)
    } else {
        Ok(Sequence::new(alloc))
    }
}

/// The first fence of the queue, if there is one, waits for these servers.
fn await_first(queue: &mut [Fence], waiting: Sequence<ServerId>)
    ensures { queue.new ≡ awaiting waiting queue.old }
{
    if let Some(first) = queue.first_mut() {
        first.waiting = waiting;
    }
}

fn all_but(
    alloc: Global,
    servers: &[ServerId],
    server: ServerId,
) -> Result<Sequence<ServerId>, AllocError>
    ensures { IfOk result (λ others. others ≡ filter (λ other. not (other == server)) servers.now) }
{
    let others = servers
        .iter()
        .copied()
        .filter(|other| *other != server)
        .collect(alloc)?;
    Ok(Sequence::of(others))
}

/// The server leaves the waiting set of the queue's first fence.
fn report(alloc: Global, queue: &mut [Fence], server: ServerId) -> Result<(), AllocError>
    ensures ok { OnOk result (queue.new ≡ reported server queue.old) }
    ensures err { OnErr result (queue.new ≡ queue.old) }
{
    if let Some(first) = queue.first_mut() {
        first.waiting = all_but(alloc, first.waiting.as_slice(), server)?;
    }
    Ok(())
}

fn is_ready(queue: &[Fence]) -> bool
    ensures { result ≡ is_some (ready queue.now) }
{
    match queue.first() {
        Some(first) => first.waiting.is_empty(),
        None => false,
    }
}

/// The first fence leaves the queue, and the next one waits for these servers.
fn take_first(queue: &mut Vec<Fence>, waiting: Sequence<ServerId>) -> Fence
    requires { IsTrue (is_some (ready queue.old.items)) }
    ensures fence { Some result ≡ ready queue.old.items }
    ensures queue { queue.new.items ≡ following waiting queue.old.items }
{
    let first = queue.remove(0);
    await_first(queue, waiting);
    first
}
