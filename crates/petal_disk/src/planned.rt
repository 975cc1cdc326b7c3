//! A disk with one plan: which of its next calls fails.

ghost use Rattle.std.specs.Prelude.{◌≡◌, ◌≤◌, ◌<◌, ◌+◌, ◌/◌, ◌⊎◌, true, false, None, Some, IsErr, length, replicate, take, OnOk};
ghost use Rattle.petal_disk.specs.Disk.{part, written, Torn, Follows, Within, Only, Elapses};
ghost use Rattle.device_faults.specs.Faults.{HasCause};
ghost use Rattle.petal_disk.specs.Plans.{counts, fails, plan_after, stops, is_late, unplanned, after, watch_state, plan_state, beneath, CameTo};
ghost use Rattle.petal_disk.specs.PlannedWrites.{PlannedWrite};
ghost use Rattle.device_faults.specs.declared.plan.CallKind.TheVariants as call;

use crate::Disk;
use device_faults::{CallKind, Count, Failed, Plan};

// A plan and what became of it.
#[derive(Drop)]
struct Watch {
    plan: Option<Plan>,
    stopped: bool,
    strikes: Count,
}

/// A disk under one plan. It is what the disk beneath is, but for the call that the plan makes fail.
#[derive(Drop)]
pub struct Planned<D: Disk> {
    disk: D,
    watch: Watch,
}

fn counts_call(kind: CallKind, call: CallKind) -> bool
    ensures { result ≡ counts kind call }
{
    match kind {
        CallKind::Any => true,
        CallKind::Read => matches!(call, CallKind::Read),
        CallKind::Write => matches!(call, CallKind::Write),
        CallKind::Sync => matches!(call, CallKind::Sync),
    }
}

// Whether the next call fails, which the plan then forgets.
fn strikes(plan: &mut Option<Plan>, call: CallKind) -> bool
    ensures fails { result ≡ fails plan.old call }
    ensures plan { plan.new ≡ plan_after plan.old call }
{
    let Some(current) = *plan else {
        return false;
    };
    if !counts_call(current.kind, call) {
        return false;
    }
    if current.at == 1 {
        *plan = None;
        return true;
    }
    *plan = Some(Plan {
        at: current.at.saturating_sub(1),
        ..current
    });
    false
}

impl Watch {
    // Whether the server is to stop at the call that fails.
    fn stops(&self) -> bool
        ensures { result ≡ stops self.now.plan }
    {
        match self.plan {
            Some(plan) => plan.stop,
            None => false,
        }
    }

    // Whether a write or a sync that fails does all of its work before.
    fn is_late(&self) -> bool
        ensures { result ≡ is_late self.now.plan }
    {
        match self.plan {
            Some(plan) => plan.late,
            None => false,
        }
    }

    // Whether this call fails. It counts the failure.
    fn fails_now(&mut self, call: CallKind) -> bool
        ensures fails { result ≡ fails self.old.plan call }
        ensures state { watch_state self.new ≡ after (watch_state self.old) call }
    {
        let stops = self.stops();
        if !strikes(&mut self.plan, call) {
            return false;
        }
        self.strikes.rise();
        self.stopped = self.stopped || stops;
        true
    }
}

impl<D: Disk> Planned<D> {
    /// The disk with no plan.
    pub fn new(disk: D) -> Planned<D>
        ensures disk { beneath result ≡ disk }
        ensures state { plan_state result ≡ unplanned }
    {
        Planned {
            disk,
            watch: Watch {
                plan: None,
                stopped: false,
                strikes: Count::new(),
            },
        }
    }

    /// From now on this plan counts, and no earlier one.
    pub fn arm(&mut self, plan: Plan)
        ensures disk { beneath self.new ≡ beneath self.old }
        ensures state { plan_state self.new ≡ record (plan_state self.old) { plan = Some plan; stopped = false } }
    {
        self.watch.plan = Some(plan);
        self.watch.stopped = false;
    }

    /// From now on no plan counts.
    pub fn disarm(&mut self)
        ensures disk { beneath self.new ≡ beneath self.old }
        ensures state { plan_state self.new ≡ record (plan_state self.old) { plan = None } }
    {
        self.watch.plan = None;
    }

    /// Whether a plan with `stop` was met since the last arming.
    pub fn stopped(&self) -> bool
        ensures { result ≡ (plan_state self.now).stopped }
    {
        self.watch.stopped
    }

    /// The disk beneath.
    pub fn into_disk(self) -> D
        ensures { result ≡ beneath self }
    {
        self.disk
    }
}

impl<D: Disk> Disk for Planned<D> {
    ghost use Rattle.petal_disk.specs.Tears.{torn_nothing};
    ghost use Rattle.petal_disk.specs.PlanRuns.{CameTo-same, CameTo-later};

    ghost size = { λ p. D.size p.disk };

    ghost observable = { D.observable };

    ghost seen = { λ p. D.seen p.disk };

    ghost may_leave = { λ p. D.may_leave p.disk };

    ghost moment = { λ p. D.moment p.disk };

    ghost left_since = { λ p. D.left_since p.disk };

    ghost faults = { λ p. D.faults p.disk + p.watch.strikes.times };

    ghost came_to = { λ first last. D.came_to first.disk last.disk × CameTo (plan_state first) (plan_state last) };

    ghost whole = { λ p. D.whole p.disk };

    ghost left_whole = { λ p. D.left_whole p.disk };

    ghost counts_now = { λ p. D.counts_now p.disk };

    ghost only_now = { λ p. D.only_now p.disk };

    ghost stays = { λ p. (D.stays p.disk, CameTo-same (plan_state p)) };

    ghost goes_on = { λ first mid last a b.
        (D.goes_on first.disk mid.disk last.disk a.0 b.0, CameTo-later (plan_state first) (plan_state mid) (plan_state last) a.1 b.1) };

    fn len(&self) -> u64 {
        self.disk.len()
    }

    fn read(&mut self, at: u64, into: &mut [u8]) -> Result<(), Failed>
        requires { at + length into.old ≤ D.size self.old.disk }
        ensures bytes { OnOk result (D.observable → into.new ≡ part (D.seen self.old.disk) at (length into.old)) }
        ensures size { D.size self.new.disk ≡ D.size self.old.disk }
        ensures seen { D.seen self.new.disk ≡ D.seen self.old.disk }
        ensures crash { Within (D.may_leave self.old.disk) (D.may_leave self.new.disk) }
        ensures time { Elapses (D.moment self.old.disk) (D.moment self.new.disk) (D.left_since self.old.disk) (D.left_since self.new.disk)
            (D.may_leave self.new.disk) }
        ensures cause { HasCause (D.faults self.old.disk + self.old.watch.strikes.times) (D.faults self.new.disk + self.new.watch.strikes.times) result }
        ensures run { D.came_to self.old.disk self.new.disk × CameTo (plan_state self.old) (plan_state self.new) }
        ensures struck { fails (plan_state self.old).plan call.Read ≡ true → IsErr result × (self.new.disk ≡ self.old.disk) }
        ensures spared { fails (plan_state self.old).plan call.Read ≡ false → HasCause (D.faults self.old.disk) (D.faults self.new.disk) result }
        ensures state { plan_state self.new ≡ after (plan_state self.old) call.Read }
    {
        if self.watch.fails_now(CallKind::Read) {
            return Err(Failed);
        }
        self.disk.read(at, into)
    }

    fn write_at(&mut self, at: u64, bytes: &[u8]) -> Result<(), Failed>
        requires { at + length bytes.now ≤ D.size self.old.disk }
        ensures written { OnOk result (D.observable → D.seen self.new.disk ≡ written (D.seen self.old.disk) at bytes.now) }
        ensures torn { D.observable → Torn at (length bytes.now) (D.seen self.old.disk) (D.seen self.new.disk) }
        ensures size { D.size self.new.disk ≡ D.size self.old.disk }
        ensures crash { Follows (Torn at (length bytes.now)) (D.may_leave self.old.disk) (D.may_leave self.new.disk) }
        ensures time { Elapses (D.moment self.old.disk) (D.moment self.new.disk) (D.left_since self.old.disk) (D.left_since self.new.disk)
            (D.may_leave self.new.disk) }
        ensures cause { HasCause (D.faults self.old.disk + self.old.watch.strikes.times) (D.faults self.new.disk + self.new.watch.strikes.times) result }
        ensures run { D.came_to self.old.disk self.new.disk × CameTo (plan_state self.old) (plan_state self.new) }
        ensures planned { PlannedWrite D.observable D.seen D.faults self.old self.new at bytes.now (take (length bytes.now / 2) bytes.now) result }
    {
        let late = self.watch.is_late();
        let stops = self.watch.stops();
        if !self.watch.fails_now(CallKind::Write) {
            return self.disk.write_at(at, bytes);
        }
        if late {
            let _ = self.disk.write_at(at, bytes);
        } else if stops {
            let _ = self.disk.write_at(at, &bytes[..bytes.len() / 2]);
        }
        Err(Failed)
    }

    fn write_zeros(&mut self, at: u64, n: u64) -> Result<(), Failed>
        requires { at + n ≤ D.size self.old.disk }
        ensures written { OnOk result (D.observable → D.seen self.new.disk ≡ written (D.seen self.old.disk) at (replicate n 0)) }
        ensures torn { D.observable → Torn at n (D.seen self.old.disk) (D.seen self.new.disk) }
        ensures size { D.size self.new.disk ≡ D.size self.old.disk }
        ensures crash { Follows (Torn at n) (D.may_leave self.old.disk) (D.may_leave self.new.disk) }
        ensures time { Elapses (D.moment self.old.disk) (D.moment self.new.disk) (D.left_since self.old.disk) (D.left_since self.new.disk)
            (D.may_leave self.new.disk) }
        ensures cause { HasCause (D.faults self.old.disk + self.old.watch.strikes.times) (D.faults self.new.disk + self.new.watch.strikes.times) result }
        ensures run { D.came_to self.old.disk self.new.disk × CameTo (plan_state self.old) (plan_state self.new) }
        ensures planned { PlannedWrite D.observable D.seen D.faults self.old self.new at (replicate n 0) (replicate (n / 2) 0) result }
    {
        let late = self.watch.is_late();
        let stops = self.watch.stops();
        if !self.watch.fails_now(CallKind::Write) {
            return self.disk.write_zeros(at, n);
        }
        if late {
            let _ = self.disk.write_zeros(at, n);
        } else if stops {
            let _ = self.disk.write_zeros(at, n / 2);
        }
        Err(Failed)
    }

    fn sync(&mut self) -> Result<(), Failed>
        ensures durable { OnOk result (D.observable → Only (D.seen self.old.disk) (D.may_leave self.new.disk)) }
        ensures size { D.size self.new.disk ≡ D.size self.old.disk }
        ensures seen { D.seen self.new.disk ≡ D.seen self.old.disk }
        ensures crash { Within (D.may_leave self.old.disk) (D.may_leave self.new.disk) }
        ensures time { Elapses (D.moment self.old.disk) (D.moment self.new.disk) (D.left_since self.old.disk) (D.left_since self.new.disk)
            (D.may_leave self.new.disk) }
        ensures cause { HasCause (D.faults self.old.disk + self.old.watch.strikes.times) (D.faults self.new.disk + self.new.watch.strikes.times) result }
        ensures run { D.came_to self.old.disk self.new.disk × CameTo (plan_state self.old) (plan_state self.new) }
        ensures struck { fails (plan_state self.old).plan call.Sync ≡ true
            → IsErr result × (is_late (plan_state self.old).plan ≡ false → self.new.disk ≡ self.old.disk) }
        ensures late { fails (plan_state self.old).plan call.Sync ≡ true → is_late (plan_state self.old).plan ≡ true
            → (D.observable → Only (D.seen self.old.disk) (D.may_leave self.new.disk))
            ⊎ (D.faults self.old.disk < D.faults self.new.disk) }
        ensures spared { fails (plan_state self.old).plan call.Sync ≡ false → HasCause (D.faults self.old.disk) (D.faults self.new.disk) result }
        ensures state { plan_state self.new ≡ after (plan_state self.old) call.Sync }
    {
        let late = self.watch.is_late();
        if !self.watch.fails_now(CallKind::Sync) {
            return self.disk.sync();
        }
        if late {
            let _ = self.disk.sync();
        }
        Err(Failed)
    }

    fn crash(&mut self) {
        self.disk.crash();
    }
}
