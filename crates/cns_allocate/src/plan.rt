ghost use Rattle.std.specs.Prelude.{◌≡◌, ◌↔◌, ◌^◌, ◌≤◌, [], ◌++◌, length, filter, All, IfOk, OnOk, IsTrue};
ghost use Rattle.std.specs.List.{filter_map};
ghost use Rattle.cns_netting.specs.declared.position.PositionRow.{PositionRow};
ghost use Rattle.cns_netting.specs.History.{credit_part};
ghost use Rattle.cns_allocate.specs.Group.{is_in};
ghost use Rattle.cns_allocate.specs.Plan.{IsPlan, IsServable, LongsFit, plan_of, planned_of};
ghost use Rattle.cns_allocate.specs.declared.planned.Planned.{Planned};

use crate::group::Group;
use crate::planned::Planned;
use crate::were_long::WereLong;
use cns_covers::Priorities;
use cns_ids::{Cusip, MemberNo};
use cns_movements::OrderBook;
use cns_netting::{NetBook, PositionRow};
use std::alloc::{AllocError, Global};
use std::marker::Model;

/// The members that are to receive shares of an issue, in the order in which they are served.
///
/// Each stands in it once, asks for at least 1 share and at most 10^18, and no group comes after a
/// later one. Contracts see the members planned, in their order.
#[derive(Debug, Drop)]
pub struct Plan {
    list: Vec<Planned>,
}

impl Model for Plan {
    ghost use Rattle.std.specs.Prelude.{List};
    ghost use Rattle.cns_allocate.specs.Plan.{IsPlan};
    ghost use Rattle.cns_allocate.specs.declared.planned.Planned.{Planned};

    ghost Value = { List Planned };

    ghost view = { λ p. p.list.items };

    ghost invariant = { λ p. IsPlan p.list.items };
}

impl Plan {
    /// The plan of an issue, by group, then member: each member that is long in the issue, with the
    /// shares of its position less those of its open deliveries in the issue. Where nothing is left
    /// the member is not in it. (This project's own rule.)
    ///
    /// `were_long` has the members that were long in the issue directly after the cycle before the
    /// latest. No member may be long of more than 10^18 shares in an issue.
    pub fn of(
        alloc: Global,
        issue: Cusip,
        book: &NetBook,
        orders: &OrderBook,
        priorities: &Priorities,
        were_long: &[MemberNo],
    ) -> Result<Plan, AllocError>
        requires long { LongsFit book.now.history }
        ensures { let history = book.now.history in
            let settings = priorities.now.settings in
            IfOk result (λ plan.
            plan ≡ plan_of issue history orders.now.book settings were_long.now) }
    {
        let rows = book.rows_in(issue)?;
        let were_long = WereLong::of(alloc, were_long)?;
        let planned = planned_rows(alloc, &rows, issue, orders, priorities, &were_long)?;
        let mut list = Vec::with_capacity(alloc, planned.len())?;
        add_group(&mut list, &planned, Group::Priority)?;
        add_group(&mut list, &planned, Group::WasLong)?;
        add_group(&mut list, &planned, Group::Other)?;
        Ok(Plan { list })
    }

    // The plan that has these members, in their order.
    pub(crate) fn from_slice(alloc: Global, planned: &[Planned]) -> Result<Plan, AllocError>
        requires plan { IsPlan planned.now }
        ensures { IfOk result (λ plan. plan ≡ planned.now) }
    {
        let list = planned.iter().copied().collect(alloc)?;
        Ok(Plan { list })
    }

    /// The same plan once more.
    pub fn copy(&self, alloc: Global) -> Result<Plan, AllocError>
        ensures { IfOk result (λ plan. plan ≡ self.now) }
    {
        Plan::from_slice(alloc, self.as_slice())
    }

    /// The members planned, in their order.
    pub fn as_slice(&self) -> &[Planned]
        ensures value { result.now ≡ self.now }
        ensures lawful { IsPlan self.now }
        ensures servable { IsServable self.now }
    {
        self.list.as_slice()
    }

    /// How many members are planned.
    pub fn len(&self) -> usize
        ensures { result ≡ length self.now }
    {
        self.list.len()
    }

    /// Whether no member is planned.
    pub fn is_empty(&self) -> bool
        ensures { IsTrue result ↔ (self.now ≡ []) }
    {
        self.list.is_empty()
    }
}

// The members planned of some positions, in their order.
fn planned_rows(
    alloc: Global,
    rows: &[PositionRow],
    issue: Cusip,
    orders: &OrderBook,
    priorities: &Priorities,
    were_long: &WereLong,
) -> Result<Vec<Planned>, AllocError>
    requires { All (λ (row : PositionRow). credit_part row.position ≤ 10 ^ 18) rows.now }
    ensures { let settings = priorities.now.settings in
        IfOk result (λ planned. planned.items
        ≡ filter_map (planned_of issue orders.now.book settings were_long.now) rows.now) }
{
    let mut planned = Vec::with_capacity(alloc, rows.len())?;
    planned.extend(
        rows.iter().filter_map(|row| Planned::of_row(row, issue, orders, priorities, were_long)),
    )?;
    Ok(planned)
}

// Adds the members of a group, in their order.
fn add_group(list: &mut Vec<Planned>, planned: &[Planned], group: Group) -> Result<(), AllocError>
    ensures { OnOk result (list.new.items ≡ list.old.items ++ filter (is_in group) planned.now) }
{
    list.extend(planned.iter().filter(|one| one.is_in(group)).copied())
}
