//! The servers of a world.

ghost use Rattle.std.specs.Prelude.{◌≡◌, ◌<◌, Some, length, map, slice_get, slice_set, option_copied, IfOk};
ghost use Rattle.spec_rules.specs.Plans.{LeavesPlans};
ghost use Rattle.server_host.specs.Desks.{LeavesPlansAt, acted_at, bare, end_in, ended, first_desk, site_after};
ghost use Rattle.server_host.specs.Desks as view;

use crate::{Host, HostError, HostResult};
use petal_base::{NoMemory, Sequence, ServerId, Stamp};
use spec_rules::Step;
use std::alloc::Global;
use std::marker::Model;

/// A server and the stamp of its last step. Contracts see the plans of its devices, too.
#[derive(Drop)]
pub struct Desk<H: Host> {
    pub host: H,
    pub clock: Stamp,
}

impl<H: Host> Model for Desk<H> {
    ghost use Rattle.server_host.specs.Desks.{Equipped};

    ghost Value = { Equipped };

    ghost view = { λ d. record { desk = record { site = H.seen d.host; clock = d.clock }; armed = H.armed d.host } };
}

/// All servers, by number.
#[derive(Drop)]
pub struct Desks<H: Host> {
    desks: Vec<Desk<H>>,
}

impl<H: Host> Model for Desks<H> {
    ghost use Rattle.std.specs.Prelude.{List};
    ghost use Rattle.server_host.specs.Desks.{Equipped};

    ghost Value = { List Equipped };

    ghost view = { λ d. d.desks.items };
}

impl<H: Host> Desk<H> {
    /// A step of the server, with its stamp. How a job or a boot ends is for the devices to say.
    fn step(&mut self, alloc: Global, step: &Step, stamp: Stamp) -> Result<HostResult, HostError>
        ensures desk { IfOk result (λ taken. self.new.desk
            ≡ record { site = site_after self.old.desk.site (ended step.now taken.end); clock = stamp }) }
        ensures plans { IfOk result (λ taken. LeavesPlans (ended step.now taken.end) self.old.armed self.new.armed) }
        ensures letters { IfOk result (λ taken. taken.letters ≡ (acted_at self.old.desk.site (ended step.now taken.end)).letters) }
        ensures end { IfOk result (λ taken. taken.end ≡ end_in (ended step.now taken.end)) }
    {
        let taken = self.host.step(alloc, step)?;
        self.clock = stamp;
        Ok(taken)
    }
}

impl<H: Host> Desks<H> {
    /// The servers of a run that begins.
    pub fn start(alloc: Global, hosts: Sequence<H>) -> Result<Desks<H>, NoMemory>
        ensures { IfOk result (λ desks. desks ≡ map (λ host. record { desk = first_desk (H.seen host); armed = H.armed host }) hosts) }
    {
        let mut desks = Vec::new(alloc);
        for host in hosts.into_vec() {
            desks.push(Desk { host, clock: 0 })?;
        }
        Ok(Desks { desks })
    }

    /// The server of a number.
    pub fn get(&self, server: ServerId) -> Option<&Desk<H>>
        ensures { option_copied result ≡ slice_get self.now server }
    {
        self.desks.get(server as usize)
    }

    /// A step of one server, with its stamp. How a job or a boot ends is for the devices to say.
    pub fn step(
        &mut self,
        alloc: Global,
        server: ServerId,
        step: &Step,
        stamp: Stamp,
    ) -> Result<HostResult, HostError>
        requires { server < length self.old }
        ensures step { IfOk result (λ taken. (own : view.Equipped) → slice_get self.old server ≡ Some own
            → (taken.letters ≡ (acted_at own.desk.site (ended step.now taken.end)).letters)
            × (bare self.new ≡ slice_set (bare self.old) server (record { site = site_after own.desk.site (ended step.now taken.end); clock = stamp }))) }
        ensures plans { IfOk result (λ taken. LeavesPlansAt server (ended step.now taken.end) self.old self.new) }
        ensures end { IfOk result (λ taken. taken.end ≡ end_in (ended step.now taken.end)) }
    {
        let taken = self.desks[server as usize].step(alloc, step, stamp)?;
        Ok(taken)
    }
}
