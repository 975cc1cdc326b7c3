//! The tables of the state, and what more than one command does to them.

ghost use Rattle.std.specs.Prelude.{◌≡◌, ◌<◌, ◌-◌, ◌^◌, IfOk, Some, length, map, slice_set};
ghost use Rattle.global_tables.specs.View.{is_in};
ghost use Rattle.spec_state.specs.State.{start, inc_of, is_up, is_up_as, latest, told, links_of};
ghost use Rattle.spec_state.specs.Command.{with_map, with_disk, with_fence, with_move};

use global_map::Maps;
use global_tables::{FenceKind, Latest, Member, Verdict};
use link_table::Links;
use petal_base::{
    CLIENTS, ClientId, DiskId, Inc, MapId, Name, NoMemory, Rev, Seq, ServerId, Tuple,
};
use std::alloc::{AllocError, Global};
use std::marker::Model;
use view_fence::ViewFence;
use virtual_dir::Directory;

/// The state as its tables are kept, with no bound on its numbers.
#[derive(Drop)]
pub struct Tables {
    pub rev: Rev,
    pub maps: Maps,
    pub disks: Directory,
    pub links: Links,
    pub view: ViewFence,
    pub verdicts: [Option<Latest>; CLIENTS as usize],
}

impl Model for Tables {
    ghost use Rattle.spec_state.specs.State.{State};

    ghost Value = { State };

    ghost view = { λ t. record { rev = t.rev; maps = t.maps; disks = t.disks; links = t.links; view = t.view; verdicts = t.verdicts } };
}

impl Tables {
    /// Before the first entry.
    pub fn start(alloc: Global, servers: u8) -> Result<Tables, NoMemory>
        ensures { IfOk result (λ tables. tables ≡ start servers) }
    {
        Ok(Tables {
            rev: 0,
            maps: Maps::new(alloc),
            disks: Directory::new(alloc),
            links: Links::new(alloc),
            view: ViewFence::new(alloc, servers)?,
            verdicts: [None; CLIENTS as usize],
        })
    }

    /// The same tables again.
    pub fn copy(&self) -> Result<Tables, NoMemory>
        ensures { IfOk result (λ tables. tables ≡ self.now) }
    {
        Ok(Tables {
            rev: self.rev,
            maps: self.maps.copy()?,
            disks: self.disks.copy()?,
            links: self.links.copy()?,
            view: self.view.copy()?,
            verdicts: self.verdicts,
        })
    }

    /// The incarnation with which a server is In.
    pub fn inc_of(&self, server: ServerId) -> Option<Inc>
        ensures { result ≡ inc_of self.now server }
    {
        match self.view.member(server) {
            Some(Member::In(inc)) => Some(inc),
            Some(Member::Out(_)) | None => None,
        }
    }

    /// Whether the server is In.
    pub fn is_up(&self, server: ServerId) -> bool
        ensures { result ≡ is_up self.now server }
    {
        match self.view.member(server) {
            Some(Member::In(_)) => true,
            Some(Member::Out(_)) | None => false,
        }
    }

    /// Whether the server is In with this incarnation.
    pub fn is_up_as(&self, server: ServerId, inc: Inc) -> bool
        ensures { result ≡ is_up_as self.now server inc }
    {
        match self.inc_of(server) {
            Some(present) => present == inc,
            None => false,
        }
    }

    /// A client's last command.
    pub fn latest(&self, client: ClientId) -> Option<Latest>
        ensures { result ≡ latest self.now client }
    {
        match self.verdicts.get(client as usize) {
            Some(latest) => *latest,
            None => None,
        }
    }

    pub(crate) fn told(&mut self, client: ClientId, seq: Seq, verdict: Verdict)
        ensures { self.new ≡ told self.old client seq verdict }
    {
        set_latest(&mut self.verdicts, client, Latest { seq, verdict });
    }

    /// The number of links of a map.
    pub fn links_of(&self, map: MapId) -> u8
        ensures { result ≡ links_of self.now map }
    {
        match self.maps.tuple(map) {
            Some(tuple) => tuple.ids().len() as u8,
            None => 0,
        }
    }

    pub(crate) fn with_map(
        &mut self,
        alloc: Global,
        tuple: &Tuple,
        disk: DiskId,
    ) -> Result<MapId, NoMemory>
        requires { length self.old.maps < 2 ^ 32 - 1 }
        ensures ok { IfOk result (λ _. self.new ≡ with_map self.old tuple.now disk) }
        ensures number { IfOk result (λ map. map ≡ length self.old.maps) }
    {
        let ups = ups(alloc, self.view.members())?;
        let map = self.maps.add(tuple, disk)?;
        self.links.add_map(alloc, map, tuple, &ups)?;
        Ok(map)
    }

    pub(crate) fn with_disk(
        &mut self,
        alloc: Global,
        name: &Name,
        tuple: &Tuple,
    ) -> Result<(), NoMemory>
        requires maps { length self.old.maps < 2 ^ 32 - 1 }
        requires made { self.old.disks.made < 2 ^ 32 - 1 }
        ensures { IfOk result (λ _. self.new ≡ with_disk self.old name.now tuple.now) }
    {
        let disk = self.disks.made();
        let map = self.with_map(alloc, tuple, disk)?;
        self.disks.make(alloc, name, map)?;
        Ok(())
    }

    pub(crate) fn with_fence(&mut self, alloc: Global, kind: FenceKind) -> Result<(), NoMemory>
        requires { self.old.view.queued < 2 ^ 32 - 1 }
        ensures { IfOk result (λ _. self.new ≡ with_fence self.old kind) }
    {
        self.view.add(alloc, kind)?;
        Ok(())
    }

    pub(crate) fn with_move(
        &mut self,
        alloc: Global,
        tuple: &Tuple,
        disk: DiskId,
    ) -> Result<(), NoMemory>
        requires maps { length self.old.maps < 2 ^ 32 - 1 }
        requires queued { self.old.view.queued < 2 ^ 32 - 1 }
        ensures { IfOk result (λ _. self.new ≡ with_move self.old tuple.now disk) }
    {
        let map = self.with_map(alloc, tuple, disk)?;
        self.disks.start_move(alloc, disk, map)?;
        self.with_fence(alloc, FenceKind::Region { disk, region: 0 })
    }
}

/// The client's last command, where there is such a client.
fn set_latest(verdicts: &mut [Option<Latest>], client: ClientId, latest: Latest)
    ensures { verdicts.new ≡ slice_set verdicts.old client (Some latest) }
{
    if (client as usize) < verdicts.len() {
        verdicts[client as usize] = Some(latest);
    }
}

/// For each server whether it is In.
fn ups(alloc: Global, members: &[Member]) -> Result<Vec<bool>, AllocError>
    ensures { IfOk result (λ ups. ups.items ≡ map is_in members.now) }
{
    members.iter().map(|member| is_in(*member)).collect(alloc)
}

fn is_in(member: Member) -> bool
    ensures { result ≡ is_in member }
{
    match member {
        Member::In(_) => true,
        Member::Out(_) => false,
    }
}
