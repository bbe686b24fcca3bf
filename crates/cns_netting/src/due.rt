ghost use Rattle.std.specs.Prelude.{◌≡◌, ℕ, ◌<◌, All, false, filter, nat_lt, sum_by};
ghost use Rattle.std.specs.BinaryHeap.{heap_items, IsHeap};
ghost use Rattle.std.specs.List.Sorted.{IsPermutation};
ghost use Rattle.cns_netting.specs.Positions.{Adds, bought_in, brought_due, IsNamed, sold_in, StayNear, taken_due};
ghost use Rattle.cns_netting.specs.Totals.{AreTotalsOf, HasIssue, KeepIssues};
ghost use Rattle.cns_netting.specs.Undue.{earlier, if_left, if_settled, waiting_of};
ghost use Rattle.cns_netting.specs.declared.undue.Change.TheVariants.{Add};
ghost use Rattle.cns_netting.specs.declared.undue.Undue.{Undue};

use crate::positions::Positions;
use crate::totals::{Totals, add_trade_counted};
use crate::undue::{Change, Undue};
use cns_ids::{Cusip, Day};
use cns_trades::Trade;
use std::collections::{BinaryHeap, HashMap};

/// What netting needs of a trade.
pub(crate) fn waiting_of(trade: &Trade) -> Undue
    ensures { result ≡ waiting_of trade.now }
{
    Undue {
        settle: trade.settle,
        buyer: trade.buyer,
        seller: trade.seller,
        issue: trade.issue,
        quantity: trade.quantity,
    }
}

/// Whether some of the trades settle by a day.
pub(crate) fn has_due(undue: &BinaryHeap<Undue>, day: Day) -> bool
    requires { IsHeap earlier (heap_items undue.now) }
    ensures { result ≡ false → All (λ t. day < t.settle) (heap_items undue.now) }
{
    match undue.peek() {
        Some(first) => first.settle <= day,
        None => false,
    }
}

// Counts the trades that settle by a day, and answers how many. Whichever of them are counted, no
// position is further than 3 * 10^18 shares from 0.
fn add_due_counted(
    positions: &mut Positions,
    totals: &mut HashMap<Cusip, Totals>,
    undue: &[Undue],
    day: Day,
) -> usize
    requires named { All (IsNamed positions.old.entries) undue.now }
    requires issues { All (HasIssue totals.old) undue.now }
    requires near { StayNear (brought_due Add day undue.now) (taken_due Add day undue.now) positions.old.entries }
    requires totals { AreTotalsOf totals.old positions.old.entries }
    ensures count { result ≡ sum_by (if_settled day (λ _. 1)) undue.now }
    ensures adds { Adds (brought_due Add day undue.now) (taken_due Add day undue.now) positions.old.entries positions.new.entries }
    ensures issues { KeepIssues totals.old totals.new }
    ensures totals { AreTotalsOf totals.new positions.new.entries }
{
    let mut count = 0;
    for trade in undue {
        if trade.settle <= day {
            add_trade_counted(positions, totals, trade);
            count += 1;
        }
    }
    count
}

// Keeps the trades that settle after a day.
fn retain_later(undue: &mut BinaryHeap<Undue>, day: Day)
    ensures later { IsPermutation (filter (λ t. nat_lt day t.settle) (heap_items undue.old)) (heap_items undue.new) }
    ensures heap { IsHeap earlier (heap_items undue.new) }
{
    undue.retain(|trade| trade.settle > day);
}

/// Makes the trades due that settle by a day, and answers how many. Whichever of them are due, no
/// position is further than 3 * 10^18 shares from 0.
pub(crate) fn make_due(
    undue: &mut BinaryHeap<Undue>,
    positions: &mut Positions,
    totals: &mut HashMap<Cusip, Totals>,
    day: Day,
) -> usize
    requires heap { IsHeap earlier (heap_items undue.old) }
    requires named { All (IsNamed positions.old.entries) (heap_items undue.old) }
    requires issues { All (HasIssue totals.old) (heap_items undue.old) }
    requires near { StayNear (bought_in (heap_items undue.old)) (sold_in (heap_items undue.old)) positions.old.entries }
    requires totals { AreTotalsOf totals.old positions.old.entries }
    ensures heap { IsHeap earlier (heap_items undue.new) }
    ensures left { (f : Undue → ℕ) → sum_by f (heap_items undue.new) ≡ sum_by (if_left day f) (heap_items undue.old) }
    ensures count { result ≡ sum_by (if_settled day (λ _. 1)) (heap_items undue.old) }
    ensures adds { Adds (brought_due Add day (heap_items undue.old)) (taken_due Add day (heap_items undue.old)) positions.old.entries positions.new.entries }
    ensures named { All (IsNamed positions.new.entries) (heap_items undue.new) }
    ensures issues { All (HasIssue totals.new) (heap_items undue.new) }
    ensures totals { AreTotalsOf totals.new positions.new.entries }
{
    if !has_due(undue, day) {
        return 0;
    }
    let count = add_due_counted(positions, totals, undue.as_slice(), day);
    retain_later(undue, day);
    count
}

impl Positions {
    /// Adds to the positions what those of the trades bring and take that settle by a day, or takes it
    /// back. It takes no memory. Whichever of them are added, no position is further than 3 * 10^18
    /// shares from 0.
    #[inline(always)]
    pub(crate) fn add_due(&mut self, undue: &[Undue], day: Day, change: Change)
        requires named { All (IsNamed self.old.entries) undue.now }
        requires near { StayNear (brought_due change day undue.now) (taken_due change day undue.now) self.old.entries }
        ensures adds { Adds (brought_due change day undue.now) (taken_due change day undue.now) self.old.entries self.new.entries }
        ensures room { self.new.room ≡ self.old.room }
    {
        for one in undue {
            if one.settle <= day {
                self.add_trade(one, change);
            }
        }
    }
}
