ghost use Rattle.std.specs.Prelude.{◌≡◌, ◌^◌, ◌≤◌, [], map};
ghost use Rattle.std.specs.List.{IsDistinct};
ghost use Rattle.cns_depository.specs.declared.account.Side.TheVariants.{At};
ghost use Rattle.cns_depository.specs.Openings.{OpeningLeaves, issue_sum, opening_shares as shares_of_opening};
ghost use Rattle.cns_depository.specs.Places.{is_opened, opened_place};
ghost use Rattle.cns_depository.specs.Totals.{place_eq};

use crate::account::Account;
use crate::opening_index::{enter, held, is_held, make_room, set_sum, sum_of};
use cns_ids::{Cusip, Holding, Shares};
use cns_trades::Opening;
use std::alloc::Global;
use std::collections::HashMap;
use std::marker::Model;
use thiserror::Error;

/// Why an opening is refused.
#[derive(Clone, Copy, PartialEq, Eq, Debug, Error)]
pub enum OpeningFault {
    /// The member has an opening in the issue.
    #[error("the member has an opening in the issue")]
    Double,
    /// With it the openings of the issue would pass 10^18 shares.
    #[error("the openings of the issue would pass 10^18 shares")]
    IssueSum,
    /// There is no memory for it.
    #[error("out of memory")]
    OutOfMemory,
}

/// What the members' accounts hold at the start: at most one opening for a member and an issue, and
/// at most 10^18 shares in an issue. (This project's own rule.)
///
/// Contracts see the openings, in the order in which they were added.
#[derive(Drop)]
pub struct Openings {
    list: Vec<Opening>,
    // The shares of each opening by its member and issue, and the sum of each issue.
    shares: HashMap<Holding, Shares>,
    sums: HashMap<Cusip, u128>,
}

impl Model for Openings {
    ghost use Rattle.std.specs.Prelude.{List, nat_eq};
    ghost use Rattle.std.specs.HashMap.{get};
    ghost use Rattle.cns_trades.specs.declared.opening.Opening.{Opening};
    ghost use Rattle.cns_ids.specs.Holding.{holding_eq};
    ghost use Rattle.cns_depository.specs.OpeningIndex.{IsIndex};

    ghost Value = { List Opening };

    ghost view = { λ o. o.list.items };

    ghost invariant = { λ o. IsIndex o.list.items (get holding_eq o.shares) (get nat_eq o.sums) };
}

impl Openings {
    /// No openings. It takes no memory.
    pub fn new(alloc: Global) -> Openings
        ensures { result ≡ [] }
    {
        Openings {
            list: Vec::new(alloc),
            shares: HashMap::new(alloc),
            sums: HashMap::new(alloc),
        }
    }

    /// Adds an opening.
    ///
    /// Refuses `Double` where the member has an opening in the issue, then `IssueSum` where the
    /// openings of the issue, this one among them, would pass 10^18 shares. (This project's own
    /// rule.)
    pub fn add(&mut self, opening: &Opening) -> Result<(), OpeningFault>
        ensures { OpeningLeaves opening.now result self.old self.new }
    {
        if is_held(&self.shares, opening.member, opening.issue) {
            return Err(OpeningFault::Double);
        }
        let sum = sum_of(&self.sums, opening.issue) + u128::from(opening.shares.count());
        if sum > u128::from(Shares::MAX) {
            return Err(OpeningFault::IssueSum);
        }
        let Ok(()) = make_room(&mut self.list, &mut self.shares, &mut self.sums) else {
            return Err(OpeningFault::OutOfMemory);
        };
        enter(&mut self.shares, opening);
        set_sum(&mut self.sums, opening.issue, sum);
        self.list.push_reserved(*opening);
        Ok(())
    }

    // The openings, in the order in which they were added: no two name one place.
    pub(crate) fn as_slice(&self) -> &[Opening]
        ensures openings { result.now ≡ self.now }
        ensures places { IsDistinct place_eq (map opened_place self.now) }
    {
        self.list.as_slice()
    }

    // Whether an opening names an account in an issue.
    pub(crate) fn names(&self, account: &Account, issue: Cusip) -> bool
        ensures { result ≡ is_opened self.now (record { issue = issue; side = At account.now }) }
    {
        match account {
            Account::Cns => false,
            Account::Member(member) => is_held(&self.shares, *member, issue),
        }
    }

    // The shares of all openings in an issue.
    pub(crate) fn sum(&self, issue: Cusip) -> u128
        ensures sum { result ≡ issue_sum self.now issue }
        ensures small { result ≤ 10 ^ 18 }
    {
        sum_of(&self.sums, issue)
    }

    // The shares with which an account opens in an issue.
    pub(crate) fn shares(&self, account: &Account, issue: Cusip) -> u128
        ensures shares { result ≡ shares_of_opening self.now account.now issue }
        ensures small { result ≤ 10 ^ 18 }
    {
        match account {
            Account::Cns => 0,
            Account::Member(member) => held(&self.shares, *member, issue),
        }
    }
}
