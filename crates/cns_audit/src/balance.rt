//! The register of a member's balance in an issue, by the records of the depository.

ghost use Rattle.std.specs.Prelude.{◌≡◌, pos, IfOk, IfSome};
ghost use Rattle.cns_depository.specs.Stock.{balance_of as balance_in};
ghost use Rattle.cns_depository.specs.declared.account.Account.TheVariants as account;
ghost use Rattle.cns_audit.specs.Register.{balance_change, own_change, total_of};

use crate::register::{Amount, Cause, Holder, Movement, add_amount, total};
use cns_depository::{Account, Depository};
use cns_ids::Shares;
use cns_journal::Keeper;
use cns_movements::{MoveKind, Order};
use cns_records::{DepRecord, Instruction, Sort};
use cns_trades::Opening;
use std::alloc::{AllocError, Global};

// What an executed order adds to its member's balance: a cover takes what it moved, a delivery brings it.
fn executed_amount(order: &Order, moved: Shares) -> Amount
    ensures { result.shares ≡ balance_change order.now.kind moved }
{
    let moved = i128::from(moved.count());
    let shares = match order.kind {
        MoveKind::Cover => -moved,
        MoveKind::Delivery => moved,
    };
    Amount {
        shares,
        cause: Cause::Moved(Movement::of(order)),
    }
}

// What an instruction adds to its member's balance.
fn own_amount(instruction: &Instruction) -> Amount
    ensures { result.shares ≡ own_change instruction.now.sort instruction.now.shares }
{
    let given = i128::from(instruction.shares.shares());
    let shares = match instruction.sort {
        Sort::Deposit => given,
        Sort::Withdraw => -given,
    };
    Amount {
        shares,
        cause: Cause::Own(*instruction),
    }
}

// What a record adds to a holder's balance, where it is of the holder.
fn amount_of(holder: &Holder, entry: &DepRecord) -> Option<Amount> {
    match entry {
        DepRecord::Exec { order, moved } if holder.is(order.member, order.issue) => {
            Some(executed_amount(order, *moved))
        }
        DepRecord::Own(instruction) if holder.is(instruction.member, instruction.issue) => {
            Some(own_amount(instruction))
        }
        _ => None,
    }
}

// The amounts of the openings and of the records, one after another.
fn amounts_of(
    alloc: Global,
    openings: &[Opening],
    records: &[DepRecord],
    holder: &Holder,
) -> Result<Vec<Amount>, AllocError> {
    let mut amounts = Vec::new(alloc);
    for opening in openings {
        if holder.is(opening.member, opening.issue) && opening.shares.count() > 0 {
            let shares = i128::from(opening.shares.count());
            add_amount(&mut amounts, shares, Cause::Opening)?;
        }
    }
    for entry in records {
        if let Some(amount) = amount_of(holder, entry) {
            add_amount(&mut amounts, amount.shares, amount.cause)?;
        }
    }
    Ok(amounts)
}

/// The register of a balance.
#[derive(Drop)]
pub struct BalanceRegister {
    /// The opening, and each movement and instruction, in the order of the records.
    pub amounts: Vec<Amount>,
    /// The balance.
    pub balance: u128,
}

/// The register of a member's balance in an issue, of a depository that was opened with these openings; None where its amounts do not
/// sum to the balance, as those of other openings would not.
pub fn balance_register<K: Keeper>(
    alloc: Global,
    openings: &[Opening],
    node: &Depository<K>,
    holder: &Holder,
) -> Result<Option<BalanceRegister>, AllocError>
    ensures { IfOk result (λ given. IfSome given (λ register.
        (register.balance ≡ balance_in node.now.openings node.now.log.records (account.Member holder.now.member) holder.now.issue)
        × (total_of register.amounts.items ≡ pos register.balance))) }
{
    let amounts = amounts_of(alloc, openings, node.records(), holder)?;
    let balance = node.balance(Account::Member(holder.member), holder.issue);
    let Some(sum) = total(amounts.as_slice()) else {
        return Ok(None);
    };
    if sum < 0 || sum as u128 != balance {
        return Ok(None);
    }
    Ok(Some(BalanceRegister { amounts, balance }))
}
