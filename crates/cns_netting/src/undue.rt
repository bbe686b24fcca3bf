ghost use Rattle.std.proofs.Common.{rules};
ghost use Rattle.std.specs.Cmp.{partial_order_from_own_ties};
ghost use Rattle.std.specs.Cmp.Rules.{comparing};
ghost use Rattle.std.specs.Ordering.{as_partial_cmp, flip_args, nat_cmp, on};
ghost use Rattle.std.specs.Prelude.{◌≡◌, ◌==◌};
ghost use Rattle.cns_netting.specs.Undue.{delivering, receiving};

use cns_ids::{Cusip, Day, MemberNo, Quantity};
use std::cmp::Ordering;

/// Whether trades are added to positions, or taken back from them.
#[derive(Clone, Copy)]
pub(crate) enum Change {
    Add,
    TakeBack,
}

/// What netting needs of a trade that waits to become due. The greater of two is the one that settles
/// earlier.
#[derive(Clone, Copy)]
pub(crate) struct Undue {
    pub(crate) settle: Day,
    pub(crate) buyer: MemberNo,
    pub(crate) seller: MemberNo,
    pub(crate) issue: Cusip,
    pub(crate) quantity: Quantity,
}

impl Undue {
    /// The member that the trade brings shares: its buyer, or its seller where it is taken back.
    #[inline(always)]
    pub(crate) fn receiver(&self, change: Change) -> MemberNo
        ensures { result ≡ receiving change self.now }
    {
        match change {
            Change::Add => self.buyer,
            Change::TakeBack => self.seller,
        }
    }

    /// The other member, from which the trade takes them.
    #[inline(always)]
    pub(crate) fn deliverer(&self, change: Change) -> MemberNo
        ensures { result ≡ delivering change self.now }
    {
        match change {
            Change::Add => self.seller,
            Change::TakeBack => self.buyer,
        }
    }
}

impl PartialEq for Undue {
    ghost eq = { λ a b. a.settle == b.settle };

    ghost laws = { Prim.search (comparing, rules) };

    fn eq(&self, other: &Undue) -> bool {
        self.settle == other.settle
    }
}

impl Eq for Undue {
    ghost laws = { Prim.search (comparing, rules) };
}

impl Ord for Undue {
    ghost cmp = { flip_args (on (λ t. t.settle) nat_cmp) };

    ghost total = { Prim.search (comparing, rules) };

    ghost matches_partial_cmp = { Prim.search (comparing, rules) };

    ghost matches_eq = { Prim.search (comparing, rules) };

    fn cmp(&self, other: &Undue) -> Ordering {
        other.settle.cmp(&self.settle)
    }
}

impl PartialOrd for Undue {
    ghost partial_cmp = { as_partial_cmp (flip_args (on (λ t. t.settle) nat_cmp)) };

    ghost laws = { partial_order_from_own_ties (Prim.search (comparing, rules)) (Prim.search (comparing, rules)) };

    fn partial_cmp(&self, other: &Undue) -> Option<Ordering> {
        Some(self.cmp(other))
    }
}
