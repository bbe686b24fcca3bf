//! Between what the openings of a depository lie, by its records alone.

ghost use Rattle.std.specs.Prelude.{◌≡◌, ◌-◌, ◌+◌, ◌^◌, ◌<◌, ◌≤◌, ◌&&◌, ◌==◌, IfOk, List, [], ◌∷◌, ◌++◌, OnOk, false, if◌then◌else◌};
ghost use Rattle.std.specs.HashMap.{get, spare};
ghost use Rattle.std.specs.List.{cons_option};
ghost use Rattle.cns_records.specs.declared.dep_record.DepRecord.{DepRecord};
ghost use Rattle.cns_trades.specs.declared.opening.Opening.{Opening};
ghost use Rattle.cns_depository.specs.declared.place.Place.{Place};
ghost use Rattle.cns_depository.specs.Ranges.{AreEnough, AreOpeningsOf, AreRanges, IsDemanded, IsLimited, first_range as first_range_of, is_met, issue_place, least_opening as least_opening_of, place_of, range_by, standing, takes_all as takes_all_of};
ghost use Rattle.cns_depository.specs.RangesOf.{AreRangesOf, AreSomeRanges};
ghost use Rattle.cns_depository.specs.Totals.{AreTransferred, moved_at, place_eq};

use crate::account::{Account, Side};
use crate::moved::{Moved, add_transfer, moved_of};
use crate::movement::transfer_of;
use crate::place::Place;
use cns_ids::{Cusip, Shares};
use cns_records::DepRecord;
use cns_trades::Opening;
use std::alloc::{AllocError, Global};
use std::collections::HashMap;

/// At least and at most so many shares.
#[derive(Clone, Copy)]
pub(crate) struct Range {
    pub(crate) least: u128,
    pub(crate) most: u128,
}

impl Range {
    // Whether some number of shares lies in the range.
    fn is_met(&self) -> bool
        ensures { result ≡ is_met self.now }
    {
        self.least <= self.most
    }
}

// With how many shares an account opens, and all accounts of an issue, before anything is known.
fn first_range(side: &Side) -> Range
    ensures { result ≡ first_range_of side.now }
{
    let most = match side {
        Side::At(Account::Cns) => 0,
        Side::At(Account::Member(_)) | Side::Outside => u128::from(Shares::MAX),
    };
    Range { least: 0, most }
}

// The range of a place.
fn range_of(ranges: &HashMap<Place, Range>, place: &Place) -> Range
    ensures { result ≡ range_by place.now (get place_eq ranges.now place.now) }
{
    match ranges.get(place) {
        Some(range) => *range,
        None => first_range(&place.side),
    }
}

// Sets the range of a place, for which there is room.
fn put(ranges: &mut HashMap<Place, Range>, place: &Place, range: Range)
    requires { 0 < spare ranges.old }
    ensures range { (k : Place) → range_by k (get place_eq ranges.new k)
        ≡ (if place_eq place.now k then range else range_by k (get place_eq ranges.old k)) }
    ensures spare { spare ranges.old ≤ spare ranges.new + 1 }
{
    let named = Place {
        issue: place.issue,
        side: place.side,
    };
    let Ok(_) = ranges.insert(named, range) else {
        unreachable!()
    };
}

// Notes that an account must have opened with so many shares of an issue at least, or with just so many,
// for which there is room. Answers whether some openings are still left.
fn demand(
    ranges: &mut HashMap<Place, Range>,
    account: &Account,
    issue: Cusip,
    needed: u128,
    exactly: bool,
) -> bool
    requires { 2 ≤ spare ranges.old }
    ensures demanded { IsDemanded account.now issue needed exactly (λ k. range_by k (get place_eq ranges.old k)) (λ k. range_by k (get place_eq ranges.new k)) }
    ensures met { let range = λ (k : Place). range_by k (get place_eq ranges.new k) in result ≡ (is_met (range (place_of account.now issue)) && is_met (range (issue_place issue))) }
{
    let place = Place {
        issue,
        side: Side::At(*account),
    };
    let was = range_of(ranges, &place);
    let least = was.least.max(needed);
    let most = if exactly {
        was.most.min(needed)
    } else {
        was.most
    };
    let narrowed = Range { least, most };
    let of_issue = Place {
        issue,
        side: Side::Outside,
    };
    let all = range_of(ranges, &of_issue);
    let raised = Range {
        least: all.least.saturating_add(least - was.least),
        most: all.most,
    };
    put(ranges, &place, narrowed);
    put(ranges, &of_issue, raised);
    narrowed.is_met() && raised.is_met()
}

// Notes that all accounts opened with so many shares of an issue at most, for which there is room.
// Answers whether some openings are still left.
fn limit(ranges: &mut HashMap<Place, Range>, issue: Cusip, most: u128) -> bool
    requires { 1 ≤ spare ranges.old }
    ensures limited { IsLimited issue most (λ k. range_by k (get place_eq ranges.old k)) (λ k. range_by k (get place_eq ranges.new k)) }
    ensures met { result ≡ is_met (range_by (issue_place issue) (get place_eq ranges.new (issue_place issue))) }
{
    let of_issue = Place {
        issue,
        side: Side::Outside,
    };
    let was = range_of(ranges, &of_issue);
    let limited = Range {
        least: was.least,
        most: was.most.min(most),
    };
    put(ranges, &of_issue, limited);
    limited.is_met()
}

// Whether a record moved all that its giver had: less than its order asked for.
fn takes_all(entry: &DepRecord) -> bool
    ensures { result ≡ takes_all_of entry.now }
{
    match entry {
        DepRecord::Exec { order, moved } => moved.count() < order.asked.shares(),
        DepRecord::Own(_) => false,
    }
}

// The opening of a place's least shares: where it is a member's, and of 1 share or more.
fn least_opening(place: &Place, range: &Range) -> Option<Opening>
    ensures { result ≡ least_opening_of (place.now, range.now) }
{
    let Side::At(Account::Member(member)) = place.side else {
        return None;
    };
    if range.least == 0 || range.least > u128::from(Shares::MAX) {
        return None;
    }
    let shares = Shares::new(range.least as u64)?;
    Some(Opening {
        member,
        issue: place.issue,
        shares,
    })
}

// Adds the opening of a place's least shares, where it has one.
fn push_least(openings: &mut Vec<Opening>, place: &Place, range: &Range) -> Result<(), AllocError>
    ensures { OnOk result (openings.new.items ≡ openings.old.items ++ cons_option (least_opening_of (place.now, range.now)) []) }
{
    if let Some(opening) = least_opening(place, range) {
        openings.push(opening)?;
    }
    Ok(())
}

// Names a place, for which there is room: with the range that it has at first where it was not named.
fn name(ranges: &mut HashMap<Place, Range>, issue: Cusip, side: Side)
    requires { 0 < spare ranges.old }
    ensures range { (k : Place) → range_by k (get place_eq ranges.new k) ≡ range_by k (get place_eq ranges.old k) }
    ensures spare { spare ranges.old ≤ spare ranges.new + 1 }
{
    let place = Place { issue, side };
    let range = range_of(ranges, &place);
    put(ranges, &place, range);
}

// Takes what a record says of the openings, by what all records moved, this one with them. There is room for it.
// Answers whether some openings are still left.
fn narrow(
    ranges: &mut HashMap<Place, Range>,
    moved: &HashMap<Place, Moved>,
    entry: &DepRecord,
) -> bool
    requires { 2 ≤ spare ranges.old }
    ensures ranges { (p : List DepRecord) → AreTransferred (λ k. moved_at (get place_eq moved.now k)) (entry.now ∷ p) → AreRanges (λ k. range_by k (get place_eq ranges.old k)) p
        → AreRanges (λ k. range_by k (get place_eq ranges.new k)) (entry.now ∷ p) }
    ensures none { result ≡ false → (p : List DepRecord) → AreTransferred (λ k. moved_at (get place_eq moved.now k)) (entry.now ∷ p) → AreRanges (λ k. range_by k (get place_eq ranges.old k)) p
        → (openings : List Opening) → AreOpeningsOf openings (entry.now ∷ p) → ⊥ }
{
    let transfer = transfer_of(entry);
    let issue = transfer.issue;
    let side = transfer.giver;
    let given = moved_of(moved, &Place { issue, side });
    match transfer.giver {
        Side::At(account) => {
            let needed = given.left.saturating_sub(given.entered);
            demand(ranges, &account, issue, needed, takes_all(entry))
        }
        Side::Outside => {
            let most = u128::from(Shares::MAX).saturating_add(given.entered);
            limit(ranges, issue, most.saturating_sub(given.left))
        }
    }
}

/// How an account's shares of an issue changed, and with how many it opened at least. They stand by issue,
/// then account.
#[derive(Clone, Copy, PartialEq, Eq, PartialOrd, Ord, Debug)]
pub struct AccountChange {
    pub issue: Cusip,
    pub account: Account,
    pub change: i128,
    pub least: u128,
}

/// What the records of a depository say of its openings, where these are not known: with how many shares
/// each account opened in an issue at least, and at most.
#[derive(Drop)]
pub struct OpeningRanges {
    // What was brought to each account in each issue, and taken from it; and what came from outside in each
    // issue, and went there.
    moved: HashMap<Place, Moved>,
    // How many records there are.
    count: usize,
    // With how many shares an account opened in an issue; and, at the outside, all accounts.
    ranges: HashMap<Place, Range>,
}

impl OpeningRanges {
    /// What no records say. It takes no memory.
    pub fn new(alloc: Global) -> OpeningRanges
        ensures { AreRangesOf result [] }
    {
        OpeningRanges {
            moved: HashMap::new(alloc),
            count: 0,
            ranges: HashMap::new(alloc),
        }
    }

    /// Adds a record behind those before it, and answers whether there are openings that are left: with
    /// which all of them may stand. Where there are none, what is found is of no more use.
    pub fn add(&mut self, entry: &DepRecord) -> Result<bool, AllocError>
        requires { AreSomeRanges self.old }
        ensures more { OnOk result ((p : List DepRecord) → AreRangesOf self.old p → AreRangesOf self.new (entry.now ∷ p)) }
        ensures none { IfOk result (λ left. left ≡ false → (p : List DepRecord) → AreRangesOf self.old p → (openings : List Opening) → AreOpeningsOf openings (entry.now ∷ p) → ⊥) }
    {
        let Some(count) = self.count.checked_add(1) else {
            return Err(AllocError);
        };
        self.moved.reserve(2)?;
        self.ranges.reserve(3)?;
        add_transfer(&mut self.moved, entry);
        self.count = count;
        let transfer = transfer_of(entry);
        name(&mut self.ranges, transfer.issue, transfer.receiver);
        Ok(narrow(&mut self.ranges, &self.moved, entry))
    }

    /// The least openings that are left: of each member and issue as few shares as all records leave.
    pub fn least_openings(&self, alloc: Global) -> Result<Vec<Opening>, AllocError>
        ensures { IfOk result (λ least. (p : List DepRecord) → AreRangesOf self.now p → (openings : List Opening) → AreOpeningsOf openings p → AreEnough (standing least.items) openings p) }
    {
        let mut openings = Vec::new(alloc);
        for (place, range) in &self.ranges {
            push_least(&mut openings, place, range)?;
        }
        Ok(openings)
    }

    // The change of a place, where it is an account's.
    fn change_of(&self, place: &Place, range: &Range) -> Option<AccountChange> {
        let Side::At(account) = place.side else {
            return None;
        };
        let moved = moved_of(&self.moved, place);
        let entered = i128::try_from(moved.entered).unwrap_or(i128::MAX);
        let left = i128::try_from(moved.left).unwrap_or(i128::MAX);
        Some(AccountChange {
            issue: place.issue,
            account,
            change: entered.saturating_sub(left),
            least: range.least,
        })
    }

    /// How the shares of each account that a record names changed, by issue, then account.
    pub fn changes(&self, alloc: Global) -> Result<Vec<AccountChange>, AllocError> {
        let mut changes = Vec::new(alloc);
        for (place, range) in &self.ranges {
            if let Some(change) = self.change_of(place, range) {
                changes.push(change)?;
            }
        }
        changes.sort_unstable();
        Ok(changes)
    }
}
