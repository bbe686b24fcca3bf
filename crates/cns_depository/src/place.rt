ghost use Rattle.std.specs.Prelude.{◌≡◌};
ghost use Rattle.std.proofs.Common.{rules};
ghost use Rattle.std.specs.Cmp.Rules.{hashing};
ghost use Rattle.std.specs.Hash as fed;
ghost use Rattle.cns_depository.specs.Balances.{side_rank};
ghost use Rattle.cns_depository.specs.Places.{place_word};

use crate::account::{Account, Side};
use cns_ids::Cusip;
use std::hash::{Hash, Hasher};

/// A side of transfers in an issue.
#[derive(Clone, Copy, PartialEq, Eq)]
pub(crate) struct Place {
    pub(crate) issue: Cusip,
    pub(crate) side: Side,
}

// The rank of a side: the outside first, then the CNS account, then the members by number.
fn rank(side: &Side) -> u64
    ensures { result ≡ side_rank side.now }
{
    match side {
        Side::Outside => 0,
        Side::At(Account::Cns) => 1,
        Side::At(Account::Member(member)) => u64::from(member.number()) + 2,
    }
}

impl Hash for Place {
    ghost hash_input = { λ k. fed.u128 (place_word k) };

    ghost respects_eq = { Prim.search (hashing, rules) };

    // The issue and the side as one number.
    fn hash<H: Hasher>(&self, state: &mut H) {
        let word = u128::from(self.issue.word()) * 18446744073709551616
            + u128::from(rank(&self.side));
        word.hash(state);
    }
}

impl Place {
    /// The issue and the rank of the side. Places stand by issue, then rank.
    pub(crate) fn key(&self) -> (Cusip, u64)
        ensures { result ≡ (self.now.issue, side_rank self.now.side) }
    {
        (self.issue, rank(&self.side))
    }
}
