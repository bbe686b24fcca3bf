ghost use Rattle.std.specs.Prelude.{◌≡◌, ◌^◌, ◌<◌};
ghost use Rattle.std.specs.Ordering.{as_partial_cmp};
ghost use Rattle.std.proofs.Common.{rules};
ghost use Rattle.std.specs.Cmp.{partial_order_from_own_ties};
ghost use Rattle.std.specs.Cmp.Rules.{comparing, hashing};
ghost use Rattle.std.specs.Hash as fed;
ghost use Rattle.cns_ids.specs.CusipNumber.{narrowed, widened};
ghost use Rattle.cns_ids.specs.Holding.{holding_cmp, holding_word};

use crate::cusip::Cusip;
use crate::member::MemberNo;
use std::cmp::Ordering;
use std::hash::{Hash, Hasher};

/// A member's place in an issue. Holdings stand by issue, then member.
#[derive(Clone, Copy, PartialEq, Eq, Debug)]
pub struct Holding {
    pub issue: Cusip,
    pub member: MemberNo,
}

impl Holding {
    // The issue and the member as one number. Holdings stand in the order of these.
    fn word(&self) -> u128
        ensures word { result ≡ holding_word self.now }
        ensures issue { widened 9 (narrowed 9 self.now.issue) ≡ self.now.issue }
        ensures member { self.now.member < 2 ^ 64 }
    {
        u128::from(self.issue.word()) * 18446744073709551616 + u128::from(self.member.number())
    }
}

impl Ord for Holding {
    ghost cmp = { holding_cmp };

    ghost total = { Prim.search (comparing, rules) };

    ghost matches_partial_cmp = { Prim.search (comparing, rules) };

    ghost matches_eq = { Prim.search (comparing, rules) };

    fn cmp(&self, other: &Holding) -> Ordering {
        self.word().cmp(&other.word())
    }
}

impl PartialOrd for Holding {
    ghost partial_cmp = { as_partial_cmp holding_cmp };

    ghost laws = { partial_order_from_own_ties (Prim.search (comparing, rules)) (Prim.search (comparing, rules)) };

    fn partial_cmp(&self, other: &Holding) -> Option<Ordering> {
        Some(self.cmp(other))
    }
}

impl Hash for Holding {
    ghost hash_input = { λ h. fed.u128 (holding_word h) };

    ghost respects_eq = { Prim.search (hashing, rules) };

    fn hash<H: Hasher>(&self, state: &mut H) {
        self.word().hash(state);
    }
}
