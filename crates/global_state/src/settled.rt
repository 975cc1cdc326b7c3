//! Whether everything that was under way has come to an end.

ghost use Rattle.std.specs.Prelude.{◌≡◌};
ghost use Rattle.std.specs.List.{list_all};
ghost use Rattle.spec_state.specs.Settled.{agrees, all_agree, is_only, link_settled, lacks_lead, move_settled, is_settled};

use crate::state::GlobalState;
use global_tables::{LinkRow, LinkState, Member, Move};
use petal_base::{Inc, MapId};

fn agrees(member: Member, running: Option<Inc>) -> bool
    ensures { result ≡ agrees member running }
{
    match (member, running) {
        (Member::In(inc), Some(running)) => inc == running,
        (Member::In(_), None) | (Member::Out(_), Some(_)) => false,
        (Member::Out(_), None) => true,
    }
}

fn all_agree(members: &[Member], running: &[Option<Inc>]) -> bool
    ensures { result ≡ all_agree members.now running.now }
{
    match (members.split_first(), running.split_first()) {
        (Some((member, members)), Some((incarnation, running))) => {
            agrees(*member, *incarnation) && all_agree(members, running)
        }
        (None, None) => true,
        (Some(_), None) | (None, Some(_)) => false,
    }
}

fn is_only(state: LinkState) -> bool
    ensures { result ≡ is_only state }
{
    match state {
        LinkState::Only { .. } => true,
        LinkState::Both | LinkState::Lost => false,
    }
}

impl GlobalState {
    fn link_settled(&self, row: &LinkRow) -> bool
        ensures { result ≡ link_settled self.now row.now }
    {
        !(self.tables.is_up(row.primary) && self.tables.is_up(row.secondary) && is_only(row.state))
    }

    fn links_settled(&self) -> bool
        ensures { result ≡ list_all (link_settled self.now) self.now.links }
    {
        self.tables
            .links
            .rows()
            .iter()
            .all(|row| self.link_settled(row))
    }

    fn lacks_lead(&self, map: MapId) -> bool
        ensures { result ≡ lacks_lead self.now map }
    {
        (0..self.tables.links_of(map)).any(|link| self.link_lead(map, link).is_none())
    }

    fn move_settled(&self, map: MapId, moving: &Option<Move>) -> bool
        ensures { result ≡ move_settled self.now map moving.now }
    {
        match moving {
            Some(moving) => self.lacks_lead(map) || self.lacks_lead(moving.old_map),
            None => true,
        }
    }

    fn moves_settled(&self) -> bool
        ensures { result ≡ list_all (λ row. move_settled self.now row.map row.moving) self.now.disks.rows }
    {
        self.tables
            .disks
            .rows()
            .iter()
            .all(|row| self.move_settled(row.map, &row.moving))
    }

    /// Whether nothing is under way: the view is that of the servers as they run (`None` for one that is stopped), no fence
    /// waits, no link is left to catch up, and no move can go on.
    pub fn settled(&self, running: &[Option<Inc>]) -> bool
        ensures { result ≡ is_settled self.now running.now }
    {
        all_agree(self.tables.view.members(), running)
            && self.tables.view.queue().is_empty()
            && self.links_settled()
            && self.moves_settled()
    }
}
