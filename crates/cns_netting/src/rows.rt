ghost use Rattle.std.specs.Prelude.{◌≡◌, ℕ, ◌+◌, ◌++◌, ◌<◌, ◌==◌, filter, IfOk, nat_le, nat_lt, None, OnOk, Some, sum_by};
ghost use Rattle.std.specs.List.{filter_map};
ghost use Rattle.std.specs.Map.{keys_of};
ghost use Rattle.std.specs.List.Sorted.{IsNonDecreasingBy};
ghost use Rattle.std.specs.Option.{option_to_list};
ghost use Rattle.cns_netting.specs.Rows.{is_row_in};
ghost use Rattle.cns_netting.specs.Positions.{AreInOrder, ArePlacesInOrder, AreRowsOf, HaveRowsOf, IsFrontOf, issue_in, row_if, row_in_place, row_part};
ghost use Rattle.cns_netting.specs.declared.position.PositionRow.{PositionRow};

use crate::position::PositionRow;
use crate::positions::{Position, Positions, holding_in};
use cns_ids::{Cusip, Holding, MemberNo};
use indexmap::IndexMap;
use indexmap::map::Slice;
use std::alloc::{AllocError, Global};

// How many members there may be.
const MEMBERS: u16 = 9999;

/// The row of a holding, where its position is not 0; of one issue, where it is given.
pub(crate) fn row_of(
    holding: &Holding,
    position: &Position,
    issue: Option<Cusip>,
) -> Option<PositionRow>
    ensures { result ≡ row_if issue holding.now (Some position.now) }
{
    if let Some(issue) = issue
        && holding.issue != issue
    {
        return None;
    }
    if position.shares == 0 {
        return None;
    }
    Some(PositionRow {
        issue: holding.issue,
        member: holding.member,
        position: position.shares,
    })
}

// Adds the row of a holding, where it has one.
fn put_row(
    rows: &mut Vec<PositionRow>,
    holding: &Holding,
    position: &Position,
    issue: Option<Cusip>,
) -> Result<(), AllocError>
    ensures added { OnOk result (rows.new.items ≡ rows.old.items ++ option_to_list (row_if issue holding.now (Some position.now))) }
    ensures sums { OnOk result ((f : PositionRow → ℕ) → sum_by f rows.new.items ≡ sum_by f rows.old.items + row_part f (row_if issue holding.now (Some position.now))) }
{
    if let Some(row) = row_of(holding, position, issue) {
        rows.push(row)?;
    }
    Ok(())
}

// Adds the rows of some holdings, of an issue alone, where it is given.
fn put_rows(
    rows: &mut Vec<PositionRow>,
    entries: &Slice<'_, Holding, Position>,
    issue: &Option<Cusip>,
) -> Result<(), AllocError>
    ensures { OnOk result ((f : PositionRow → ℕ) → sum_by f rows.new.items
        ≡ sum_by f rows.old.items + sum_by (λ e. row_part f (row_if issue.now e.0 (Some e.1))) entries.now) }
{
    for (holding, position) in entries {
        put_row(rows, holding, position, *issue)?;
    }
    Ok(())
}

// Adds the row of the holding in a place, where it has one.
fn put_in(
    rows: &mut Vec<PositionRow>,
    all: &IndexMap<Holding, Position>,
    place: u32,
    issue: &Option<Cusip>,
) -> Result<(), AllocError>
    ensures { OnOk result (rows.new.items ≡ rows.old.items ++ option_to_list (row_in_place issue.now all.now.entries place)) }
{
    match all.get_index(place as usize) {
        Some((holding, position)) => put_row(rows, holding, position, *issue),
        None => Ok(()),
    }
}

// Adds the rows of the holdings in some places, of an issue alone, where it is given.
fn put_places(
    rows: &mut Vec<PositionRow>,
    all: &IndexMap<Holding, Position>,
    places: &[u32],
    issue: &Option<Cusip>,
) -> Result<(), AllocError>
    ensures { OnOk result (rows.new.items ≡ rows.old.items ++ filter_map (row_in_place issue.now all.now.entries) places.now) }
{
    for place in places {
        put_in(rows, all, *place, issue)?;
    }
    Ok(())
}

// Whether the holding in a place is of an earlier issue.
fn is_before(all: &IndexMap<Holding, Position>, place: u32, issue: Cusip) -> bool
    ensures { result ≡ nat_lt (issue_in all.now.entries issue place) issue }
{
    match holding_in(all, place) {
        Some(holding) => holding.issue < issue,
        None => false,
    }
}

// Whether the holding in a place is of an earlier issue, or of this one.
fn is_up_to(all: &IndexMap<Holding, Position>, place: u32, issue: Cusip) -> bool
    ensures { result ≡ nat_le (issue_in all.now.entries issue place) issue }
{
    match holding_in(all, place) {
        Some(holding) => holding.issue <= issue,
        None => false,
    }
}

// The places of the holdings of an issue.
fn places_in<'a>(all: &IndexMap<Holding, Position>, order: &'a [u32], issue: Cusip) -> &'a [u32]
    requires { ArePlacesInOrder order.now all.now.entries }
    ensures { result.now ≡ filter (λ place. issue_in all.now.entries issue place == issue) order.now }
{
    let first = order.partition_point(|place| is_before(all, *place, issue));
    let rest = &order[first..];
    let count = rest.partition_point(|place| is_up_to(all, *place, issue));
    &rest[..count]
}

// The member after some number of members.
fn member_after(number: u16) -> MemberNo
    requires { number < 9999 }
    ensures { result ≡ number + 1 }
{
    match MemberNo::new(number + 1) {
        Some(member) => member,
        None => unreachable!(),
    }
}

/// The rows of an issue among rows that stand by issue, as those of a book do.
///
/// Costs two searches by halves.
pub fn rows_of_issue(rows: &[PositionRow], issue: Cusip) -> &[PositionRow]
    requires { IsNonDecreasingBy (λ (row : PositionRow). row.issue) rows.now }
    ensures { result.now ≡ filter (is_row_in issue) rows.now }
{
    let first = rows.partition_point(|row| row.issue < issue);
    let rows = &rows[first..];
    let count = rows.partition_point(|row| row.issue <= issue);
    &rows[..count]
}

// Puts rows into order, by issue, then member.
fn sort_rows(rows: &mut Vec<PositionRow>)
    ensures sums { (f : PositionRow → ℕ) → sum_by f rows.new.items ≡ sum_by f rows.old.items }
    ensures order { AreInOrder rows.new.items }
{
    rows.sort_unstable_by_key(|row| Holding {
        issue: row.issue,
        member: row.member,
    });
}

impl Positions {
    // The rows of an issue, in any order: those of the holdings that stand in order, and of those named
    // since.
    fn rows_by_place(&self, alloc: Global, issue: Cusip) -> Result<Vec<PositionRow>, AllocError>
        ensures { IfOk result (λ rows. HaveRowsOf (Some issue) self.now.entries rows.items) }
    {
        let places = places_in(&self.all, &self.order, issue);
        let mut rows = Vec::with_capacity(alloc, places.len())?;
        put_places(&mut rows, &self.all, places, &Some(issue))?;
        let (_, behind) = self.all.as_slice().split_at(self.order.len());
        put_rows(&mut rows, &behind, &Some(issue))?;
        Ok(rows)
    }

    // The rows of an issue, in any order, by a look-up of each member.
    #[tactic(auto, unfolding(crate::specs::Positions::holdings_up_to))]
    fn rows_of_members(&self, alloc: Global, issue: Cusip) -> Result<Vec<PositionRow>, AllocError>
        ensures { IfOk result (λ rows. HaveRowsOf (Some issue) self.now.entries rows.items) }
    {
        // Each holding is a member's.
        let _all = &self.all;
        let mut rows = Vec::new(alloc);
        for number in 0..MEMBERS {
            let member = member_after(number);
            let holding = Holding { issue, member };
            let position = self.position(member, issue);
            put_row(&mut rows, &holding, &position, Some(issue))?;
        }
        Ok(rows)
    }

    /// The positions other than 0, by issue, then member. The holdings of `placed` are the first ones here
    /// too, so that its order serves: the rows need no sort where all holdings stand in it.
    pub(crate) fn rows_by(
        &self,
        alloc: Global,
        placed: &Positions,
    ) -> Result<Vec<PositionRow>, AllocError>
        requires { IsFrontOf (keys_of placed.now.entries) (keys_of self.now.entries) }
        ensures { IfOk result (λ rows. AreRowsOf None self.now.entries rows.items) }
    {
        let count = self.all.len();
        if count == 0 {
            return Ok(Vec::new(alloc));
        }
        let order = &placed.order;
        // Room for all at once, so that no row is moved as they grow.
        let mut rows = Vec::with_capacity(alloc, count)?;
        put_places(&mut rows, &self.all, order, &None)?;
        if order.len() == count {
            return Ok(rows);
        }
        let (_, behind) = self.all.as_slice().split_at(order.len());
        put_rows(&mut rows, &behind, &None)?;
        sort_rows(&mut rows);
        Ok(rows)
    }

    /// The positions other than 0, by issue, then member.
    pub(crate) fn rows(&self, alloc: Global) -> Result<Vec<PositionRow>, AllocError>
        ensures { IfOk result (λ rows. AreRowsOf None self.now.entries rows.items) }
    {
        self.rows_by(alloc, self)
    }

    // The rows of an issue, in any order. Where more holdings stand in no order than there are members it
    // looks up each member, so that it costs no more than that.
    fn rows_found(&self, alloc: Global, issue: Cusip) -> Result<Vec<PositionRow>, AllocError>
        ensures { IfOk result (λ rows. HaveRowsOf (Some issue) self.now.entries rows.items) }
    {
        if self.all.len() - self.order.len() > usize::from(MEMBERS) {
            self.rows_of_members(alloc, issue)
        } else {
            self.rows_by_place(alloc, issue)
        }
    }

    /// The positions other than 0 in an issue, by member.
    pub(crate) fn rows_in(
        &self,
        alloc: Global,
        issue: Cusip,
    ) -> Result<Vec<PositionRow>, AllocError>
        ensures { IfOk result (λ rows. AreRowsOf (Some issue) self.now.entries rows.items) }
    {
        let mut found = self.rows_found(alloc, issue)?;
        sort_rows(&mut found);
        Ok(found)
    }
}
