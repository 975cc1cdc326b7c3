//! What each command does.

ghost use Rattle.std.specs.Prelude.{◌≡◌, ◌<◌, ◌-◌, ◌^◌, IfOk, length, is_some};
ghost use Rattle.std.specs.List.{list_any};
ghost use Rattle.global_tables.specs.Disk.{named, snapshot_named};
ghost use Rattle.global_tables.specs.Link.{other_of};
ghost use Rattle.spec_state.specs.Command.{may_join, join, leave, is_alone, may_catch, caught, is_new, make_disk, takes, is_taken, snap_target, snap};
ghost use Rattle.spec_state.specs.Command.{move_target, start_move, is_head, drained, after_region, note, mover_in, moved, act};

use crate::moving::{is_fenced, move_region};
use crate::snapshot::snapshot_named;
use crate::tables::Tables;
use global_tables::{DiskRow, Fence, FenceKind, Latest, LinkRow, LinkState, Member, Verdict};
use petal_base::{ClientId, DiskId, Inc, MapId, Name, NoMemory, REGIONS, Seq, ServerId, Tuple};
use petal_command::Command;
use std::alloc::Global;

/// The region with which a move ends.
const LAST: u8 = REGIONS - 1;

impl Tables {
    fn join(
        &mut self,
        alloc: Global,
        server: ServerId,
        inc: Inc,
        blank: bool,
    ) -> Result<(), NoMemory>
        ensures { IfOk result (λ _. self.new ≡ join self.old server inc blank) }
    {
        if may_join(self.view.member(server), inc) {
            self.view.join(server, inc)?;
            self.links.join(alloc, server, blank)?;
        }
        Ok(())
    }

    fn leave(&mut self, alloc: Global, server: ServerId, inc: Inc) -> Result<(), NoMemory>
        ensures { IfOk result (λ _. self.new ≡ leave self.old server inc) }
    {
        if self.is_up_as(server, inc) {
            self.view.leave(alloc, server)?;
            self.links.leave(alloc, server)?;
        }
        Ok(())
    }

    fn caught(
        &mut self,
        alloc: Global,
        map: MapId,
        link: u8,
        holder: (ServerId, Inc),
        other: (ServerId, Inc),
    ) -> Result<(), NoMemory>
        ensures { IfOk result (λ _. self.new ≡ caught self.old map link holder.0 holder.1 other.0 other.1) }
    {
        if may_catch(holder.0, other.0, self.links.get(map, link).copied())
            && self.is_up_as(holder.0, holder.1)
            && self.is_up_as(other.0, other.1)
        {
            self.links.caught(alloc, map, link)?;
        }
        Ok(())
    }

    fn make_disk(
        &mut self,
        alloc: Global,
        client: ClientId,
        seq: Seq,
        name: &Name,
        tuple: &Tuple,
    ) -> Result<(), NoMemory>
        requires maps { length self.old.maps < 2 ^ 32 - 1 }
        requires made { self.old.disks.made < 2 ^ 32 - 1 }
        ensures { IfOk result (λ _. self.new ≡ make_disk self.old client seq name.now tuple.now) }
    {
        if !is_new(seq, self.latest(client)) {
            return Ok(());
        }
        if self.disks.find(name).is_some() {
            self.told(client, seq, Verdict::Exists);
            return Ok(());
        }
        self.with_disk(alloc, name, tuple)?;
        self.told(client, seq, Verdict::Ok);
        Ok(())
    }

    fn is_taken(&self, name: &Name, row: &DiskRow) -> bool
        ensures { result ≡ is_taken self.now name.now row.now }
    {
        has_snapshot(name, row) || is_queued(row.id, name, self.view.queue())
    }

    /// The disk of which a snapshot of this name can be queued, or why there is none.
    fn disk_to_snap(&self, disk: &Name, name: &Name) -> Result<DiskId, Verdict>
        ensures { result ≡ snap_target self.now name.now (named self.now.disks.rows disk.now) }
    {
        match self.disks.find(disk) {
            None => Err(Verdict::NoDisk),
            Some(row) => {
                if self.is_taken(name, row) {
                    Err(Verdict::Exists)
                } else {
                    Ok(row.id)
                }
            }
        }
    }

    fn snap(
        &mut self,
        alloc: Global,
        client: ClientId,
        seq: Seq,
        disk: &Name,
        name: &Name,
    ) -> Result<(), NoMemory>
        requires { self.old.view.queued < 2 ^ 32 - 1 }
        ensures { IfOk result (λ _. self.new ≡ snap self.old client seq disk.now name.now) }
    {
        if !is_new(seq, self.latest(client)) {
            return Ok(());
        }
        match self.disk_to_snap(disk, name) {
            Err(verdict) => self.told(client, seq, verdict),
            Ok(disk) => {
                let name = name.copy();
                self.with_fence(
                    alloc,
                    FenceKind::Whole {
                        disk,
                        name,
                        client,
                        seq,
                    },
                )?;
                self.told(client, seq, Verdict::Waiting);
            }
        }
        Ok(())
    }

    /// The disk that can begin a move, or why there is none.
    fn disk_to_move(&self, disk: &Name) -> Result<DiskId, Verdict>
        ensures { result ≡ move_target (named self.now.disks.rows disk.now) }
    {
        match self.disks.find(disk) {
            None => Err(Verdict::NoDisk),
            Some(row) => {
                if row.moving.is_some() {
                    Err(Verdict::Moving)
                } else {
                    Ok(row.id)
                }
            }
        }
    }

    fn start_move(
        &mut self,
        alloc: Global,
        client: ClientId,
        seq: Seq,
        disk: &Name,
        tuple: &Tuple,
    ) -> Result<(), NoMemory>
        requires maps { length self.old.maps < 2 ^ 32 - 1 }
        requires queued { self.old.view.queued < 2 ^ 32 - 1 }
        ensures { IfOk result (λ _. self.new ≡ start_move self.old client seq disk.now tuple.now) }
    {
        if !is_new(seq, self.latest(client)) {
            return Ok(());
        }
        match self.disk_to_move(disk) {
            Err(verdict) => self.told(client, seq, verdict),
            Ok(disk) => {
                self.with_move(alloc, tuple, disk)?;
                self.told(client, seq, Verdict::Ok);
            }
        }
        Ok(())
    }

    fn is_head(&self, number: u32) -> bool
        ensures { result ≡ is_head self.now number }
    {
        match self.view.head() {
            Some(fence) => fence.number == number,
            None => false,
        }
    }

    fn drained(
        &mut self,
        alloc: Global,
        server: ServerId,
        inc: Inc,
        fence: u32,
    ) -> Result<(), NoMemory>
        ensures { IfOk result (λ _. self.new ≡ drained self.old server inc fence) }
    {
        if self.is_head(fence) && self.is_up_as(server, inc) {
            self.view.drained(alloc, server)?;
        }
        Ok(())
    }

    fn after_region(
        &mut self,
        alloc: Global,
        map: MapId,
        disk: DiskId,
        region: u8,
    ) -> Result<(), NoMemory>
        requires queued { self.old.view.queued < 2 ^ 32 - 1 }
        requires region { region < 16 }
        ensures { IfOk result (λ _. self.new ≡ after_region self.old map disk region) }
    {
        if region == LAST {
            self.links.drop_map(alloc, map)?;
            return Ok(());
        }
        let region = region + 1;
        self.with_fence(alloc, FenceKind::Region { disk, region })
    }

    fn note(
        &mut self,
        alloc: Global,
        map: MapId,
        disk: DiskId,
        region: u8,
        link: u8,
    ) -> Result<(), NoMemory>
        requires queued { self.old.view.queued < 2 ^ 32 - 1 }
        requires region { region < 16 }
        ensures { IfOk result (λ _. self.new ≡ note self.old map disk region link) }
    {
        let links = self.links_of(map);
        if self.disks.moved(alloc, disk, region, link, links)? {
            self.after_region(alloc, map, disk, region)?;
        }
        Ok(())
    }

    /// The disk whose region is on its way from this map.
    fn mover_in(&self, map: MapId, region: u8) -> Option<DiskId>
        ensures { result ≡ mover_in self.now map region }
    {
        match self.mover(map) {
            Some(row) => {
                if is_fenced(move_region(region, &row.moving)) {
                    Some(row.id)
                } else {
                    None
                }
            }
            None => None,
        }
    }

    fn moved(&mut self, alloc: Global, map: MapId, region: u8, link: u8) -> Result<(), NoMemory>
        requires queued { self.old.view.queued < 2 ^ 32 - 1 }
        requires region { region < 16 }
        ensures { IfOk result (λ _. self.new ≡ moved self.old map region link) }
    {
        let links = self.links_of(map);
        match self.mover_in(map, region) {
            Some(disk) => {
                if link < links {
                    self.note(alloc, map, disk, region, link)?;
                }
            }
            None => {}
        }
        Ok(())
    }

    /// What a command does to the tables.
    pub(crate) fn act(&mut self, alloc: Global, command: &Command) -> Result<(), NoMemory>
        requires maps { length self.old.maps < 2 ^ 32 - 1 }
        requires made { self.old.disks.made < 2 ^ 32 - 1 }
        requires queued { self.old.view.queued < 2 ^ 32 - 1 }
        ensures { IfOk result (λ _. self.new ≡ act command.now self.old) }
    {
        match command {
            Command::Join { server, inc, blank } => self.join(alloc, server.get(), *inc, *blank),
            Command::Leave { server, inc } => self.leave(alloc, server.get(), *inc),
            Command::Caught {
                map,
                link,
                holder,
                holder_inc,
                other,
                other_inc,
            } => {
                let holder = (holder.get(), *holder_inc);
                let other = (other.get(), *other_inc);
                self.caught(alloc, *map, link.get(), holder, other)
            }
            Command::MakeDisk {
                client,
                seq,
                name,
                tuple,
            } => self.make_disk(alloc, client.get(), *seq, name, tuple),
            Command::Snap {
                client,
                seq,
                disk,
                name,
            } => self.snap(alloc, client.get(), *seq, disk, name),
            Command::StartMove {
                client,
                seq,
                disk,
                tuple,
            } => self.start_move(alloc, client.get(), *seq, disk, tuple),
            Command::Drained { server, inc, fence } => {
                self.drained(alloc, server.get(), *inc, *fence)
            }
            Command::Moved { map, region, link } => {
                self.moved(alloc, *map, region.get(), link.get())
            }
            Command::Witness { .. } => Ok(()),
        }
    }
}

/// Whether a server may join with this incarnation.
pub fn may_join(member: Option<Member>, inc: Inc) -> bool
    ensures { result ≡ may_join member inc }
{
    match member {
        Some(Member::Out(last)) => last < inc,
        Some(Member::In(_)) | None => false,
    }
}

/// Whether the server holds a link of this state alone.
pub fn is_alone(holder: ServerId, state: LinkState) -> bool
    ensures { result ≡ is_alone holder state }
{
    match state {
        LinkState::Only {
            holder: alone,
            full_copy_needed: _,
        } => alone == holder,
        LinkState::Both | LinkState::Lost => false,
    }
}

/// The other one of the link's two servers.
pub fn other_of(server: ServerId, row: &LinkRow) -> ServerId
    ensures { result ≡ other_of server row.now }
{
    if row.primary == server {
        row.secondary
    } else {
        row.primary
    }
}

/// Whether the holder has the link alone, and this is its other server.
pub fn may_catch(holder: ServerId, other: ServerId, row: Option<LinkRow>) -> bool
    ensures { result ≡ may_catch holder other row }
{
    match row {
        Some(row) => is_alone(holder, row.state) && other_of(holder, &row) == other,
        None => false,
    }
}

fn is_new(seq: Seq, last: Option<Latest>) -> bool
    ensures { result ≡ is_new seq last }
{
    match last {
        Some(last) => last.seq < seq,
        None => true,
    }
}

fn has_snapshot(name: &Name, row: &DiskRow) -> bool
    ensures { result ≡ is_some (snapshot_named row.now.snaps name.now) }
{
    match snapshot_named(row.snaps.as_slice(), name) {
        Some(_) => true,
        None => false,
    }
}

fn takes(disk: DiskId, name: &Name, kind: &FenceKind) -> bool
    ensures { result ≡ takes disk name.now kind.now }
{
    match kind {
        FenceKind::Whole {
            disk: other,
            name: taken,
            client: _,
            seq: _,
        } => *other == disk && *taken == *name,
        FenceKind::Region { .. } => false,
    }
}

fn is_queued(disk: DiskId, name: &Name, queue: &[Fence]) -> bool
    ensures { result ≡ list_any (λ fence. takes disk name.now fence.kind) queue.now }
{
    queue.iter().any(|fence| takes(disk, name, &fence.kind))
}
