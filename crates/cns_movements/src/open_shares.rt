ghost use Rattle.std.specs.Prelude.{◌≡◌, ℕ, ◌+◌, ◌*◌, ◌^◌, ◌<◌, ◌≤◌, ◌&&◌, ◌==◌, length, sum_by, if◌then◌else◌};
ghost use Rattle.std.specs.HashMap.{get, spare};
ghost use Rattle.cns_ids.specs.Holding.{holding_at, holding_eq};
ghost use Rattle.cns_ids.specs.declared.holding.Holding.{Holding};
ghost use Rattle.cns_movements.specs.OpenShares.{asked_by, open_in, shares_of};
ghost use Rattle.cns_movements.specs.Order.{is_of, same_kind};
ghost use Rattle.cns_movements.specs.declared.order.Ask.{Ask};
ghost use Rattle.cns_movements.specs.declared.order.MoveKind.{MoveKind};

use crate::order::{Ask, MoveKind, Order};
use cns_ids::{Cusip, Holding, MemberNo};
use std::collections::HashMap;

/// What the unconfirmed orders of a holding ask for, in shares.
#[derive(Clone, Copy)]
pub(crate) struct OpenShares {
    pub(crate) covers: u128,
    pub(crate) deliveries: u128,
}

impl OpenShares {
    const NOTHING: OpenShares = OpenShares {
        covers: 0,
        deliveries: 0,
    };

    /// What those of a kind ask for.
    pub(crate) fn of(&self, kind: MoveKind) -> u128
        ensures { result ≡ shares_of kind self.now }
    {
        match kind {
            MoveKind::Cover => self.covers,
            MoveKind::Delivery => self.deliveries,
        }
    }

    // With as much more or less of a kind that it comes to this.
    fn with(self, kind: MoveKind, shares: u128) -> OpenShares
        ensures { (k : MoveKind) → shares_of k result ≡ (if same_kind k kind then shares else shares_of k self) }
    {
        match kind {
            MoveKind::Cover => OpenShares {
                covers: shares,
                ..self
            },
            MoveKind::Delivery => OpenShares {
                deliveries: shares,
                ..self
            },
        }
    }
}

/// What the unconfirmed orders of a holding ask for: nothing where it has none.
pub(crate) fn open_shares(
    sums: &HashMap<Holding, OpenShares>,
    member: MemberNo,
    issue: Cusip,
) -> OpenShares
    ensures { (k : MoveKind) → shares_of k result ≡ open_in sums.now k member issue }
{
    match sums.get(&Holding { issue, member }) {
        Some(shares) => *shares,
        None => OpenShares::NOTHING,
    }
}

// Adds what a new order asks for, where there is room for its holding.
fn ask(sums: &mut HashMap<Holding, OpenShares>, new: &Ask)
    requires room { 0 < spare sums.old }
    requires small { open_in sums.old new.now.kind new.now.member new.now.issue + new.now.asked < 2 ^ 128 }
    ensures shares { (k : MoveKind) (m i : ℕ) → open_in sums.new k m i
        ≡ open_in sums.old k m i + (if same_kind k new.now.kind && ((new.now.member == m) && (new.now.issue == i)) then new.now.asked else 0) }
    ensures left { spare sums.old ≤ spare sums.new + 1 }
{
    let holding = Holding {
        issue: new.issue,
        member: new.member,
    };
    let Ok(entry) = sums.entry(holding) else {
        unreachable!()
    };
    let shares = entry.or_insert(OpenShares::NOTHING);
    let asked = shares.of(new.kind) + u128::from(new.asked.shares());
    *shares = shares.with(new.kind, asked);
}

/// Adds what new orders ask for, where there is room for their holdings.
pub(crate) fn ask_all(sums: &mut HashMap<Holding, OpenShares>, asks: &[Ask])
    requires room { length asks.now ≤ spare sums.old }
    requires small { (k : MoveKind) (m i : ℕ) → open_in sums.old k m i + 10 ^ 18 * length asks.now < 2 ^ 128 }
    ensures shares { (k : MoveKind) (m i : ℕ) → open_in sums.new k m i ≡ open_in sums.old k m i + asked_by k m i asks.now }
    ensures most { sum_by (λ (a : Ask). a.asked) asks.now ≤ 10 ^ 18 * length asks.now }
    ensures left { spare sums.old ≤ spare sums.new + length asks.now }
{
    let mut left = asks;
    while let Some((first, rest)) = left.split_first() {
        let _asked = first.asked.shares();
        ask(sums, first);
        left = rest;
    }
}

/// Takes off what an order asked for that is confirmed from now on.
pub(crate) fn settle(sums: &mut HashMap<Holding, OpenShares>, order: &Order)
    requires { order.now.asked ≤ open_in sums.old order.now.kind order.now.member order.now.issue }
    ensures shares { (k : MoveKind) (m i : ℕ) → open_in sums.new k m i + (if is_of k m i order.now then order.now.asked else 0)
        ≡ open_in sums.old k m i }
    ensures room { spare sums.new ≡ spare sums.old }
{
    let asked = u128::from(order.asked.shares());
    let holding = Holding {
        issue: order.issue,
        member: order.member,
    };
    let Some(shares) = sums.get_mut(&holding) else {
        unreachable!()
    };
    *shares = shares.with(order.kind, shares.of(order.kind) - asked);
}
