ghost use Rattle.std.specs.Prelude.{◌≡◌, ℕ, ◌+◌, ◌*◌, ◌^◌, ◌<◌, ◌≤◌, ◌&&◌, ◌||◌, ◌==◌, nat_eq, true, is_some, length, sum_by, IfOk, IfSome, if◌then◌else◌};
ghost use Rattle.std.specs.HashMap.{get, spare};
ghost use Rattle.std.specs.List.{IsDistinct, list_any};
ghost use Rattle.cns_movements.specs.Order.{is_cover, is_delivery};
ghost use Rattle.cns_movements.specs.declared.order.Ask.{Ask};
ghost use Rattle.cns_clearing.specs.Pools.{asked_of_pool};
ghost use Rattle.cns_clearing.specs.PoolSums.{asks_for, sums_at};

use cns_ids::{Cusip, Shares};
use cns_movements::{Ask, MoveKind, Order};
use std::alloc::{AllocError, Global};
use std::collections::HashMap;

/// What the orders of an issue come to, in shares.
#[derive(Clone, Copy)]
pub(crate) struct PoolSums {
    /// What confirmed covers brought.
    pub(crate) covered: u128,
    /// What confirmed deliveries took.
    pub(crate) delivered: u128,
    /// What unconfirmed deliveries ask for.
    pub(crate) out: u128,
}

impl PoolSums {
    const NOTHING: PoolSums = PoolSums {
        covered: 0,
        delivered: 0,
        out: 0,
    };

    // With so many shares more that are asked of the pool.
    fn asked_by(self, shares: u64) -> PoolSums
        requires { self.out + shares < 2 ^ 128 }
        ensures { result ≡ record self { out = self.out + shares } }
    {
        PoolSums {
            out: self.out + u128::from(shares),
            ..self
        }
    }
}

/// The sums of an issue: all 0 where it has none.
pub(crate) fn sums_of(pools: &HashMap<Cusip, PoolSums>, issue: Cusip) -> PoolSums
    ensures { result ≡ sums_at (get nat_eq pools.now issue) }
{
    match pools.get(&issue) {
        Some(sums) => *sums,
        None => PoolSums::NOTHING,
    }
}

/// The issues that have sums, in any order.
pub(crate) fn issues_in(
    alloc: Global,
    pools: &HashMap<Cusip, PoolSums>,
) -> Result<Vec<Cusip>, AllocError>
    ensures once { IfOk result (λ v. IsDistinct nat_eq v.items) }
    ensures named { IfOk result (λ v. (i : ℕ) → list_any (nat_eq i) v.items ≡ is_some (get nat_eq pools.now i)) }
{
    pools.keys().copied().collect(alloc)
}

// What a new order asks of the pool: what a delivery asks for, and a cover nothing.
fn asked_of(kind: MoveKind, asked: u64) -> u64
    ensures { result ≡ (if is_delivery kind then asked else 0) }
{
    match kind {
        MoveKind::Delivery => asked,
        MoveKind::Cover => 0,
    }
}

// Adds what a new order asks of the pool, where there is room for its issue. From then on the issue has
// sums, also where that is nothing.
fn ask(pools: &mut HashMap<Cusip, PoolSums>, issue: Cusip, asked: u64)
    requires room { 0 < spare pools.old }
    requires small { (sums_at (get nat_eq pools.old issue)).out + asked < 2 ^ 128 }
    ensures covered { (i : ℕ) → (sums_at (get nat_eq pools.new i)).covered ≡ (sums_at (get nat_eq pools.old i)).covered }
    ensures delivered { (i : ℕ) → (sums_at (get nat_eq pools.new i)).delivered ≡ (sums_at (get nat_eq pools.old i)).delivered }
    ensures out { (i : ℕ) → (sums_at (get nat_eq pools.new i)).out
        ≡ (sums_at (get nat_eq pools.old i)).out + (if issue == i then asked else 0) }
    ensures named { (i : ℕ) → is_some (get nat_eq pools.new i) ≡ ((issue == i) || is_some (get nat_eq pools.old i)) }
    ensures left { spare pools.old ≤ spare pools.new + 1 }
{
    let Ok(entry) = pools.entry(issue) else {
        unreachable!()
    };
    let sums = entry.or_insert(PoolSums::NOTHING);
    *sums = sums.asked_by(asked);
}

// `ask` of an issue, without a look-up where nothing is asked of the one that was asked last, which has sums.
fn ask_next(pools: &mut HashMap<Cusip, PoolSums>, last: Option<Cusip>, issue: Cusip, asked: u64)
    requires room { 0 < spare pools.old }
    requires small { (sums_at (get nat_eq pools.old issue)).out + asked < 2 ^ 128 }
    requires last { IfSome last (λ i. is_some (get nat_eq pools.old i) ≡ true) }
    ensures covered { (i : ℕ) → (sums_at (get nat_eq pools.new i)).covered ≡ (sums_at (get nat_eq pools.old i)).covered }
    ensures delivered { (i : ℕ) → (sums_at (get nat_eq pools.new i)).delivered ≡ (sums_at (get nat_eq pools.old i)).delivered }
    ensures out { (i : ℕ) → (sums_at (get nat_eq pools.new i)).out
        ≡ (sums_at (get nat_eq pools.old i)).out + (if issue == i then asked else 0) }
    ensures named { (i : ℕ) → is_some (get nat_eq pools.new i) ≡ ((issue == i) || is_some (get nat_eq pools.old i)) }
    ensures left { spare pools.old ≤ spare pools.new + 1 }
{
    if asked > 0 || last != Some(issue) {
        ask(pools, issue, asked);
    }
}

/// Adds what new orders ask of the pools, where there is room for their issues. Each of these has sums from
/// then on.
pub(crate) fn ask_all(pools: &mut HashMap<Cusip, PoolSums>, asks: &[Ask])
    requires room { length asks.now ≤ spare pools.old }
    requires small { (i : ℕ) → (sums_at (get nat_eq pools.old i)).out + 10 ^ 18 * length asks.now < 2 ^ 128 }
    ensures covered { (i : ℕ) → (sums_at (get nat_eq pools.new i)).covered ≡ (sums_at (get nat_eq pools.old i)).covered }
    ensures delivered { (i : ℕ) → (sums_at (get nat_eq pools.new i)).delivered ≡ (sums_at (get nat_eq pools.old i)).delivered }
    ensures out { (i : ℕ) → (sums_at (get nat_eq pools.new i)).out
        ≡ (sums_at (get nat_eq pools.old i)).out + asked_of_pool i asks.now }
    ensures named { (i : ℕ) → is_some (get nat_eq pools.new i) ≡ (is_some (get nat_eq pools.old i) || asks_for i asks.now) }
    ensures most { sum_by (λ (a : Ask). a.asked) asks.now ≤ 10 ^ 18 * length asks.now }
{
    let mut left = asks;
    let mut last = None;
    while let Some((first, rest)) = left.split_first() {
        let asked = first.asked.shares();
        let asked_of_pool = asked_of(first.kind, asked);
        ask_next(pools, last, first.issue, asked_of_pool);
        last = Some(first.issue);
        left = rest;
    }
}

/// Adds what an order moved, and takes off what it asked for, where there is room for its issue.
pub(crate) fn settle(pools: &mut HashMap<Cusip, PoolSums>, order: &Order, moved: Shares)
    requires room { 0 < spare pools.old }
    requires covered { (sums_at (get nat_eq pools.old order.now.issue)).covered ≤ 10 ^ 24 }
    requires delivered { (sums_at (get nat_eq pools.old order.now.issue)).delivered ≤ 10 ^ 24 }
    requires out { is_delivery order.now.kind ≡ true
        → order.now.asked ≤ (sums_at (get nat_eq pools.old order.now.issue)).out }
    ensures covered { (i : ℕ) → (sums_at (get nat_eq pools.new i)).covered
        ≡ (sums_at (get nat_eq pools.old i)).covered + (if is_cover order.now.kind && (order.now.issue == i) then moved else 0) }
    ensures delivered { (i : ℕ) → (sums_at (get nat_eq pools.new i)).delivered
        ≡ (sums_at (get nat_eq pools.old i)).delivered + (if is_delivery order.now.kind && (order.now.issue == i) then moved else 0) }
    ensures out { (i : ℕ) → (sums_at (get nat_eq pools.new i)).out + (if is_delivery order.now.kind && (order.now.issue == i) then order.now.asked else 0)
        ≡ (sums_at (get nat_eq pools.old i)).out }
    ensures named { (i : ℕ) → is_some (get nat_eq pools.new i) ≡ ((order.now.issue == i) || is_some (get nat_eq pools.old i)) }
{
    let Ok(entry) = pools.entry(order.issue) else {
        unreachable!()
    };
    let sums = entry.or_insert(PoolSums::NOTHING);
    *sums = settled(*sums, order, moved);
}

// The sums of an order's issue after it moved these shares.
fn settled(sums: PoolSums, order: &Order, moved: Shares) -> PoolSums
    requires covered { sums.covered ≤ 10 ^ 24 }
    requires delivered { sums.delivered ≤ 10 ^ 24 }
    requires out { is_delivery order.now.kind ≡ true → order.now.asked ≤ sums.out }
    ensures covered { result.covered ≡ sums.covered + (if is_cover order.now.kind then moved else 0) }
    ensures delivered { result.delivered ≡ sums.delivered + (if is_delivery order.now.kind then moved else 0) }
    ensures out { result.out + (if is_delivery order.now.kind then order.now.asked else 0) ≡ sums.out }
{
    let moved = u128::from(moved.count());
    match order.kind {
        MoveKind::Cover => PoolSums {
            covered: sums.covered + moved,
            ..sums
        },
        MoveKind::Delivery => PoolSums {
            delivered: sums.delivered + moved,
            out: sums.out - u128::from(order.asked.shares()),
            ..sums
        },
    }
}
