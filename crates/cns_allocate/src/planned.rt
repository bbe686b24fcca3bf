ghost use Rattle.std.specs.Prelude.{◌≡◌, ◌^◌, ◌≤◌, ◌==◌};
ghost use Rattle.cns_netting.specs.History.{credit_part};
ghost use Rattle.cns_allocate.specs.Group.{is_in};
ghost use Rattle.cns_allocate.specs.Plan.{planned_of, want_of};

use crate::group::Group;
use crate::were_long::WereLong;
use cns_covers::Priorities;
use cns_ids::{Cusip, MemberNo};
use cns_movements::{MoveKind, OrderBook};
use cns_netting::PositionRow;

/// A member that is to receive shares of an issue. (This project's own rule.)
#[derive(Clone, Copy, PartialEq, Eq, Debug)]
pub struct Planned {
    pub member: MemberNo,
    /// How many shares it is to receive, at least 1, without those of its open deliveries.
    pub asked: u64,
    /// The group in which it is served.
    pub group: Group,
}

impl Planned {
    // The member of a position, where it is of the issue and the member is still to receive shares.
    #[tactic(auto, unfolding(crate::specs::Plan::planned_of))]
    pub(crate) fn of_row(
        row: &PositionRow,
        issue: Cusip,
        orders: &OrderBook,
        priorities: &Priorities,
        were_long: &WereLong,
    ) -> Option<Planned>
        requires { credit_part row.now.position ≤ 10 ^ 18 }
        ensures { let settings = priorities.now.settings in
            result ≡ planned_of issue orders.now.book settings were_long.now row.now }
    {
        if row.issue != issue {
            return None;
        }
        let asked = shares_wanted(row, orders);
        if asked == 0 {
            return None;
        }
        let on = priorities.get(row.member, issue);
        let was_long = were_long.contains(row.member);
        Some(Planned {
            member: row.member,
            asked,
            group: Group::of(on, was_long),
        })
    }

    // Whether it is of a group.
    pub(crate) fn is_in(&self, group: Group) -> bool
        ensures { result ≡ is_in group self.now }
    {
        self.group == group
    }
}

// The shares of a position above 0, less those of the member's open deliveries in the issue.
#[tactic(auto, unfolding(crate::specs::Plan::want_of))]
fn shares_wanted(row: &PositionRow, orders: &OrderBook) -> u64
    requires { credit_part row.now.position ≤ 10 ^ 18 }
    ensures { result ≡ want_of orders.now.book row.now }
{
    let open = orders.open_of(MoveKind::Delivery, row.member, row.issue);
    let long = if row.position > 0 {
        u128::from(row.position.unsigned_abs())
    } else {
        0
    };
    long.saturating_sub(open) as u64
}
