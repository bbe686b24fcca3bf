ghost use Rattle.std.specs.Prelude.{◌≡◌, ℕ, ◌+◌, ◌<◌, nat_eq, IsSome};
ghost use Rattle.std.specs.HashMap.{get, spare};
ghost use Rattle.cns_netting.specs.History.{credit_part, debit_part};
ghost use Rattle.cns_netting.specs.Positions.{Adds, bought_by, IsNamed, shares_only_at, sold_by, StayNear};
ghost use Rattle.cns_netting.specs.Totals.{AreTotalsOf, CanCount, HasIssue, KeepIssues, longs_in, Recounts, shorts_in};

use crate::positions::{Position, Positions};
use crate::undue::Undue;
use cns_ids::{Cusip, MemberNo};
use std::collections::HashMap;

/// The shares of all positions above 0 in an issue, and of all below 0, as sizes.
#[derive(Clone, Copy)]
pub(crate) struct Totals {
    pub(crate) longs: u128,
    pub(crate) shorts: u128,
}

impl Totals {
    // The totals after a position among them changed.
    fn after(self, was: Position, is: Position) -> Totals
        requires { CanCount self.longs self.shorts was is }
        ensures longs { result.longs + credit_part was.shares ≡ self.longs + credit_part is.shares }
        ensures shorts { result.shorts + debit_part was.shares ≡ self.shorts + debit_part is.shares }
    {
        Totals {
            longs: self.longs - u128::from(was.long()) + u128::from(is.long()),
            shorts: self.shorts - u128::from(was.short()) + u128::from(is.short()),
        }
    }
}

/// The totals of an issue.
pub(crate) fn totals_of(totals: &HashMap<Cusip, Totals>, issue: Cusip) -> Totals
    ensures longs { result.longs ≡ longs_in totals.now issue }
    ensures shorts { result.shorts ≡ shorts_in totals.now issue }
{
    match totals.get(&issue) {
        Some(totals) => *totals,
        None => Totals {
            longs: 0,
            shorts: 0,
        },
    }
}

/// Names an issue, for which there is room: as one of no positions where it was not named.
#[inline(always)]
pub(crate) fn name_issue(totals: &mut HashMap<Cusip, Totals>, issue: Cusip)
    requires { 0 < spare totals.old }
    ensures longs { (i : ℕ) → longs_in totals.new i ≡ longs_in totals.old i }
    ensures shorts { (i : ℕ) → shorts_in totals.new i ≡ shorts_in totals.old i }
    ensures named { IsSome (get nat_eq totals.new issue) }
    ensures still { KeepIssues totals.old totals.new }
{
    let Ok(entry) = totals.entry(issue) else {
        unreachable!()
    };
    entry.or_insert(Totals {
        longs: 0,
        shorts: 0,
    });
}

// Counts a position anew in its issue. Where the issue was not named it is named first, as one of no
// positions: for that there is room.
fn recount(totals: &mut HashMap<Cusip, Totals>, issue: Cusip, was: Position, is: Position)
    requires room { 0 < spare totals.old }
    requires count { CanCount (longs_in totals.old issue) (shorts_in totals.old issue) was is }
    ensures { Recounts issue was is totals.old totals.new }
{
    let Ok(entry) = totals.entry(issue) else {
        unreachable!()
    };
    let totals = entry.or_insert(Totals {
        longs: 0,
        shorts: 0,
    });
    *totals = totals.after(was, is);
}

/// Adds shares for a holding, and against it, and counts its position anew in its issue. Where the
/// holding and the issue were not named they are named first: for that there is room. No position goes
/// further than 3 * 10^18 shares from 0, so that the totals fit.
pub(crate) fn enter_counted(
    positions: &mut Positions,
    totals: &mut HashMap<Cusip, Totals>,
    member: MemberNo,
    issue: Cusip,
    credit: u64,
    debit: u64,
)
    requires room { 0 < positions.old.room }
    requires issue_room { 0 < spare totals.old }
    requires near { StayNear (shares_only_at member issue credit) (shares_only_at member issue debit) positions.old.entries }
    requires totals { AreTotalsOf totals.old positions.old.entries }
    ensures adds { Adds (shares_only_at member issue credit) (shares_only_at member issue debit) positions.old.entries positions.new.entries }
    ensures issues { KeepIssues totals.old totals.new }
    ensures totals { AreTotalsOf totals.new positions.new.entries }
{
    // The totals count the members 1 to 9999.
    let _number = member.number();
    let was = positions.enter(member, issue, credit, debit);
    let is = was.with(credit, debit);
    recount(totals, issue, was, is);
}

/// Adds what a trade brings its buyer and takes from its seller, and counts both positions anew. No
/// position goes further than 3 * 10^18 shares from 0, so that the totals fit.
pub(crate) fn add_trade_counted(
    positions: &mut Positions,
    totals: &mut HashMap<Cusip, Totals>,
    trade: &Undue,
)
    requires named { IsNamed positions.old.entries trade.now }
    requires issue { HasIssue totals.old trade.now }
    requires near { StayNear (λ m i. bought_by m i trade.now) (λ m i. sold_by m i trade.now) positions.old.entries }
    requires totals { AreTotalsOf totals.old positions.old.entries }
    ensures adds { Adds (λ m i. bought_by m i trade.now) (λ m i. sold_by m i trade.now) positions.old.entries positions.new.entries }
    ensures issues { KeepIssues totals.old totals.new }
    ensures totals { AreTotalsOf totals.new positions.new.entries }
{
    // The totals count the members 1 to 9999.
    let _buyer = trade.buyer.number();
    let _seller = trade.seller.number();
    let shares = trade.quantity.shares();
    let buyer_was = positions.add(trade.buyer, trade.issue, shares, 0);
    let seller_was = positions.add(trade.seller, trade.issue, 0, shares);
    let Some(totals) = totals.get_mut(&trade.issue) else {
        unreachable!()
    };
    let buyer_is = buyer_was.with(shares, 0);
    let seller_is = seller_was.with(0, shares);
    *totals = totals
        .after(buyer_was, buyer_is)
        .after(seller_was, seller_is);
}
