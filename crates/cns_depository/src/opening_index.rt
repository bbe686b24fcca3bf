ghost use Rattle.std.specs.Prelude.{◌≡◌, ℕ, ◌<◌, Some, is_some, unwrap_or, if◌then◌else◌, OnOk, vec_len, vec_capacity, nat_eq, ◌==◌};
ghost use Rattle.std.specs.HashMap.{get, spare};
ghost use Rattle.cns_depository.specs.Openings.{is_opening_of};
ghost use Rattle.cns_ids.specs.Holding.{holding_at, holding_eq};

use cns_ids::{Cusip, Holding, MemberNo, Shares};
use cns_trades::Opening;
use std::alloc::AllocError;
use std::collections::HashMap;

// Whether a member has an opening in an issue.
pub(crate) fn is_held(shares: &HashMap<Holding, Shares>, member: MemberNo, issue: Cusip) -> bool
    ensures { result ≡ is_some (get holding_eq shares.now (holding_at issue member)) }
{
    shares.contains_key(&Holding { issue, member })
}

// The shares with which a member opens in an issue.
pub(crate) fn held(shares: &HashMap<Holding, Shares>, member: MemberNo, issue: Cusip) -> u128
    ensures { result ≡ unwrap_or (get holding_eq shares.now (holding_at issue member)) 0 }
{
    match shares.get(&Holding { issue, member }) {
        Some(held) => u128::from(held.count()),
        None => 0,
    }
}

// The shares of all openings in an issue.
pub(crate) fn sum_of(sums: &HashMap<Cusip, u128>, issue: Cusip) -> u128
    ensures { result ≡ unwrap_or (get nat_eq sums.now issue) 0 }
{
    sums.get(&issue).copied().unwrap_or(0)
}

// Takes the memory that one more opening needs.
pub(crate) fn make_room(
    list: &mut Vec<Opening>,
    shares: &mut HashMap<Holding, Shares>,
    sums: &mut HashMap<Cusip, u128>,
) -> Result<(), AllocError>
    ensures list { list.new.items ≡ list.old.items }
    ensures shares { (k : Holding) → get holding_eq shares.new k ≡ get holding_eq shares.old k }
    ensures sums { (issue : ℕ) → get nat_eq sums.new issue ≡ get nat_eq sums.old issue }
    ensures list_room { OnOk result (vec_len list.new < vec_capacity list.new) }
    ensures shares_room { OnOk result (0 < spare shares.new) }
    ensures sums_room { OnOk result (0 < spare sums.new) }
{
    list.reserve(1)?;
    shares.reserve(1)?;
    sums.reserve(1)?;
    Ok(())
}

// Enters the shares of an opening.
pub(crate) fn enter(shares: &mut HashMap<Holding, Shares>, opening: &Opening)
    requires { 0 < spare shares.old }
    ensures { (member issue : ℕ) → get holding_eq shares.new (holding_at issue member)
        ≡ (if is_opening_of member issue opening.now then Some opening.now.shares
        else get holding_eq shares.old (holding_at issue member)) }
{
    let holding = Holding {
        issue: opening.issue,
        member: opening.member,
    };
    let Ok(_) = shares.insert(holding, opening.shares) else {
        unreachable!()
    };
}

// Sets the sum of an issue.
pub(crate) fn set_sum(sums: &mut HashMap<Cusip, u128>, issue: Cusip, sum: u128)
    requires { 0 < spare sums.old }
    ensures { (other : ℕ) → unwrap_or (get nat_eq sums.new other) 0
        ≡ (if issue == other then sum else unwrap_or (get nat_eq sums.old other) 0) }
{
    let Ok(_) = sums.insert(issue, sum) else {
        unreachable!()
    };
}
