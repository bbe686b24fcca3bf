ghost use Rattle.std.specs.Prelude.{◌≡◌, ◌+◌, ◌*◌, ◌^◌, ◌%◌, ◌++◌, ◌≤◌, ◌<◌, [], IfOk, IsOk, IsSome, OnOk, length, map, List, ℕ, slice_get};
ghost use Rattle.std.specs.Map.{keys_of, lookup};
ghost use Rattle.std.specs.List.Sorted.{IsPermutation};
ghost use Rattle.cns_ids.specs.Holding.{holding_at, holding_eq};
ghost use Rattle.cns_netting.specs.History.{credit_part, debit_part};
ghost use Rattle.cns_netting.specs.Positions.{Adds, ArePlacesInOrder, brought_by, IsNamed, no_shares, placed_at, places_below, position_among, shares_only_at, StayNear, taken_by};

use crate::undue::{Change, Undue};
use cns_ids::{Cusip, Holding, MemberNo};
use indexmap::IndexMap;
use std::alloc::{AllocError, Global};
use std::marker::Model;

// How many places are told apart by 32 bits.
const MOST_PLACES: usize = 0x1_0000_0000;

/// The position of a holding, in shares: above 0 to receive, below 0 to deliver.
#[derive(Clone, Copy)]
pub(crate) struct Position {
    pub(crate) shares: i64,
}

impl Position {
    /// The shares of the position where it is above 0.
    pub(crate) fn long(self) -> u64
        ensures { result ≡ credit_part self.shares }
    {
        if self.shares > 0 {
            self.shares.unsigned_abs()
        } else {
            0
        }
    }

    /// The shares of the position where it is below 0, as a size.
    pub(crate) fn short(self) -> u64
        ensures { result ≡ debit_part self.shares }
    {
        if self.shares < 0 {
            self.shares.unsigned_abs()
        } else {
            0
        }
    }

    /// The position with more shares for the holding, and against it. Neither leads further than
    /// 3 * 10^18 shares from 0.
    pub(crate) fn with(self, credit: u64, debit: u64) -> Position
        requires long { credit_part self.shares + credit ≤ debit_part self.shares + 3 * 10 ^ 18 }
        requires short { debit_part self.shares + debit ≤ credit_part self.shares + 3 * 10 ^ 18 }
        ensures { credit_part result.shares + (debit_part self.shares + debit) ≡ debit_part result.shares + (credit_part self.shares + credit) }
    {
        Position {
            shares: self.shares + credit as i64 - debit as i64,
        }
    }
}

/// The position of each holding that is named, and the places of the first holdings in order.
///
/// Contracts see the holdings with their positions, in the order in which they were named, and for how
/// many more there is room. `order` has the places of the first ones, by issue, then member; those named
/// since stand behind them.
#[derive(Drop)]
pub(crate) struct Positions {
    pub(crate) all: IndexMap<Holding, Position>,
    pub(crate) order: Vec<u32>,
}

impl Model for Positions {
    ghost use Rattle.std.specs.HashMap.{spare};
    ghost use Rattle.cns_netting.specs.Positions.{AreListed, Holdings};

    ghost Value = { Holdings };

    ghost view = { λ p. record { entries = p.all.entries; room = spare p.all } };

    ghost invariant = { λ p. AreListed p.all.entries p.order.items };
}

/// The holding in a place, where one is named there.
pub(crate) fn holding_in(all: &IndexMap<Holding, Position>, place: u32) -> Option<Holding>
    ensures { result ≡ slice_get (keys_of all.now.entries) place }
{
    let (holding, _) = all.get_index(place as usize)?;
    Some(*holding)
}

// A place by the holding in it, as one number: its issue, then its member, then the place.
fn placed(holding: &Holding, place: usize) -> u128
    requires { place < 2 ^ 32 }
    ensures { result % 2 ^ 32 ≡ place }
{
    let holding = u128::from(holding.issue.word()) * 16384 + u128::from(holding.member.number());
    holding * 4294967296 + place as u128
}

// The place in such a number.
fn place_of(placed: u128) -> u32
    ensures { result ≡ placed % 2 ^ 32 }
{
    (placed % 4294967296) as u32
}

// The places of the holdings from one on, each by its holding.
fn placed_from(
    alloc: Global,
    all: &IndexMap<Holding, Position>,
    first: usize,
) -> Result<Vec<u128>, AllocError>
    requires first { first ≤ length all.now.entries }
    requires most { length all.now.entries ≤ 2 ^ 32 }
    ensures each { IfOk result (λ placed. (order : List ℕ) → IsPermutation (places_below first) order
        → IsPermutation (places_below (length all.now.entries)) (order ++ map placed_at placed.items)) }
{
    let count = all.len();
    let mut list = Vec::with_capacity(alloc, count - first)?;
    for place in first..count {
        let Some((holding, _)) = all.get_index(place) else {
            unreachable!()
        };
        list.push_reserved(placed(holding, place));
    }
    Ok(list)
}

// The places in some numbers, in their order.
fn places_of(alloc: Global, placed: &[u128]) -> Result<Vec<u32>, AllocError>
    ensures { IfOk result (λ places. places.items ≡ map placed_at placed.now) }
{
    placed.iter().map(|one| place_of(*one)).collect(alloc)
}

// How far into some places those may stand that have a holding in front of this one, where they stand in order: looked
// for in steps that double.
fn reach_of(all: &IndexMap<Holding, Position>, order: &[u32], holding: &Option<Holding>) -> usize
    ensures { result ≤ length order.now }
{
    for step in 0..32u32 {
        let reach = 1usize << step;
        if reach >= order.len() {
            return order.len();
        }
        if holding_in(all, order[reach]) >= *holding {
            return reach;
        }
    }
    order.len()
}

// How many of some places have a holding in front of this one, where they stand in order.
fn count_before(
    all: &IndexMap<Holding, Position>,
    order: &[u32],
    holding: &Option<Holding>,
) -> usize
    ensures { result ≤ length order.now }
{
    let near = &order[..reach_of(all, order, holding)];
    near.partition_point(|place| holding_in(all, *place) < *holding)
}

// Some places, with those in some numbers among them, each behind the ones that have a holding in front of its own:
// two lists in order make one.
fn with_places(
    alloc: Global,
    all: &IndexMap<Holding, Position>,
    order: &[u32],
    placed: &[u128],
) -> Result<Vec<u32>, AllocError>
    ensures { IfOk result (λ places. IsPermutation (order.now ++ map placed_at placed.now) places.items) }
{
    let mut places = Vec::with_capacity(alloc, order.len() + placed.len())?;
    let mut rest = order;
    for one in placed {
        let place = place_of(*one);
        let (front, behind) = rest.split_at(count_before(all, rest, &holding_in(all, place)));
        places.extend_from_slice(front)?;
        places.push(place)?;
        rest = behind;
    }
    places.extend_from_slice(rest)?;
    Ok(places)
}

// The places of all holdings, those in order with the others among them. The others are sorted as numbers first, which
// costs less than a sort that looks each holding up.
fn all_places(
    alloc: Global,
    all: &IndexMap<Holding, Position>,
    order: &[u32],
) -> Result<Vec<u32>, AllocError>
    requires len { length order.now ≤ length all.now.entries }
    requires most { length all.now.entries ≤ 2 ^ 32 }
    requires each { IsPermutation (places_below (length order.now)) order.now }
    ensures { IfOk result (λ places. IsPermutation (places_below (length all.now.entries)) places.items) }
{
    let mut behind = placed_from(alloc, all, order.len())?;
    behind.sort_unstable();
    // Where none stood in order there is nothing to search.
    if order.is_empty() {
        return places_of(alloc, behind.as_slice());
    }
    with_places(alloc, all, order, behind.as_slice())
}

// The places of all holdings in order. `all_places` gives them so; that they are is known from the sort alone, which
// makes one pass over a list in order.
fn sorted_places(
    alloc: Global,
    all: &IndexMap<Holding, Position>,
    order: &[u32],
) -> Result<Vec<u32>, AllocError>
    requires before { ArePlacesInOrder order.now all.now.entries }
    requires most { length all.now.entries ≤ 2 ^ 32 }
    ensures { IfOk result (λ places. ArePlacesInOrder places.items all.now.entries) }
{
    let mut places = all_places(alloc, all, order)?;
    places.sort_by_key(|place| holding_in(all, *place))?;
    Ok(places)
}

// Puts the places of all holdings into order. Where there is no memory for it the order stays as it was.
fn order_places(all: &IndexMap<Holding, Position>, order: &mut Vec<u32>)
    requires { ArePlacesInOrder order.old.items all.now.entries }
    ensures { ArePlacesInOrder order.new.items all.now.entries }
{
    let count = all.len();
    if order.len() == count || count > MOST_PLACES {
        return;
    }
    if let Ok(places) = sorted_places(*order.allocator(), all, order.as_slice()) {
        *order = places;
    }
}

// A copy of the positions.
fn copy_of(all: &IndexMap<Holding, Position>) -> Result<IndexMap<Holding, Position>, AllocError>
    ensures { IfOk result (λ copy. copy.entries ≡ all.now.entries) }
{
    all.clone()
}

impl Positions {
    /// No holdings, with room for none.
    pub(crate) fn new(alloc: Global) -> Positions
        ensures { result.entries ≡ [] }
    {
        Positions {
            all: IndexMap::new(alloc),
            order: Vec::new(alloc),
        }
    }

    /// Takes the memory that two more holdings need.
    #[inline(always)]
    pub(crate) fn reserve(&mut self) -> Result<(), AllocError>
        ensures entries { self.new.entries ≡ self.old.entries }
        ensures room { OnOk result (2 ≤ self.new.room) }
        ensures succeeds { 2 ≤ self.old.room → IsOk result }
        ensures left { self.old.room ≤ self.new.room }
    {
        self.all.reserve(2)
    }

    /// A copy, of which no holdings stand in order.
    pub(crate) fn copy(&self) -> Result<Positions, AllocError>
        ensures { IfOk result (λ copy. copy.entries ≡ self.now.entries) }
    {
        let all = copy_of(&self.all)?;
        Ok(Positions {
            all,
            order: Vec::new(*self.order.allocator()),
        })
    }

    /// The position of a member in an issue.
    pub(crate) fn position(&self, member: MemberNo, issue: Cusip) -> Position
        ensures { result ≡ position_among self.now.entries member issue }
    {
        match self.all.get(&Holding { issue, member }) {
            Some(position) => *position,
            None => Position { shares: 0 },
        }
    }

    // Names a holding, for which there is room: as one of no shares where it was not named.
    fn name(&mut self, member: MemberNo, issue: Cusip)
        requires { 0 < self.old.room }
        ensures adds { Adds no_shares no_shares self.old.entries self.new.entries }
        ensures named { IsSome (lookup (holding_eq (holding_at issue member)) self.new.entries) }
        ensures left { self.old.room ≤ self.new.room + 1 }
    {
        let Ok(entry) = self.all.entry(Holding { issue, member }) else {
            unreachable!()
        };
        entry.or_insert(Position { shares: 0 });
    }

    /// Names the holdings of a trade, for which there is room.
    pub(crate) fn name_trade(&mut self, trade: &Undue)
        requires { 2 ≤ self.old.room }
        ensures adds { Adds no_shares no_shares self.old.entries self.new.entries }
        ensures named { IsNamed self.new.entries trade.now }
    {
        self.name(trade.buyer, trade.issue);
        self.name(trade.seller, trade.issue);
    }

    /// Adds shares for a holding, and against it. Where it was not named it is named first, as one of no
    /// shares: for that there is room. Answers its position as it was.
    pub(crate) fn enter(
        &mut self,
        member: MemberNo,
        issue: Cusip,
        credit: u64,
        debit: u64,
    ) -> Position
        requires room { 0 < self.old.room }
        requires near { StayNear (shares_only_at member issue credit) (shares_only_at member issue debit) self.old.entries }
        ensures adds { Adds (shares_only_at member issue credit) (shares_only_at member issue debit) self.old.entries self.new.entries }
        ensures was { result ≡ position_among self.old.entries member issue }
    {
        let Ok(entry) = self.all.entry(Holding { issue, member }) else {
            unreachable!()
        };
        let entered = entry.or_insert(Position { shares: 0 });
        let was = *entered;
        *entered = was.with(credit, debit);
        was
    }

    /// Adds shares for a named holding, and against it. Answers its position as it was.
    pub(crate) fn add(
        &mut self,
        member: MemberNo,
        issue: Cusip,
        credit: u64,
        debit: u64,
    ) -> Position
        requires named { IsSome (lookup (holding_eq (holding_at issue member)) self.old.entries) }
        requires near { StayNear (shares_only_at member issue credit) (shares_only_at member issue debit) self.old.entries }
        ensures adds { Adds (shares_only_at member issue credit) (shares_only_at member issue debit) self.old.entries self.new.entries }
        ensures room { self.new.room ≡ self.old.room }
        ensures was { result ≡ position_among self.old.entries member issue }
    {
        let Some(position) = self.all.get_mut(&Holding { issue, member }) else {
            unreachable!()
        };
        let was = *position;
        *position = was.with(credit, debit);
        was
    }

    /// Adds what a trade brings one member and takes from the other, or takes it back.
    #[inline(always)]
    pub(crate) fn add_trade(&mut self, trade: &Undue, change: Change)
        requires named { IsNamed self.old.entries trade.now }
        requires near { StayNear (λ m i. brought_by change m i trade.now) (λ m i. taken_by change m i trade.now) self.old.entries }
        ensures adds { Adds (λ m i. brought_by change m i trade.now) (λ m i. taken_by change m i trade.now) self.old.entries self.new.entries }
        ensures room { self.new.room ≡ self.old.room }
    {
        let shares = trade.quantity.shares();
        self.add(trade.receiver(change), trade.issue, shares, 0);
        self.add(trade.deliverer(change), trade.issue, 0, shares);
    }

    /// Puts the holdings into order. Where there is no memory for it they stay as they were.
    pub(crate) fn put_in_order(&mut self)
        ensures { self.new ≡ self.old }
    {
        order_places(&self.all, &mut self.order);
    }
}
