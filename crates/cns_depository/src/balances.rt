ghost use Rattle.std.specs.Prelude.{◌≡◌, ◌++◌, [], IfOk, List, map, OnOk, Some};
ghost use Rattle.std.specs.HashMap.{get, keys};
ghost use Rattle.std.specs.List.{cons_option, filter_map, IsDistinct};
ghost use Rattle.std.specs.List.Sorted.{IsPermutation, IsSortedByKey};
ghost use Rattle.cns_records.specs.declared.dep_record.DepRecord.{DepRecord};
ghost use Rattle.cns_trades.specs.declared.opening.Opening.{Opening};
ghost use Rattle.cns_depository.specs.declared.account.Account.TheVariants.{Member};
ghost use Rattle.cns_depository.specs.declared.stock.Stock.{Stock};
ghost use Rattle.cns_depository.specs.Balances.{balance_row as balance_row_of, balance_rows as balance_rows_of, place_cmp, row_place, shares_row, side_rank};
ghost use Rattle.cns_depository.specs.Openings.{opening_shares};
ghost use Rattle.cns_depository.specs.Places.{AreNamedRows, opened_place, unopened_row};
ghost use Rattle.cns_depository.specs.Totals.{IsStockOf, place_eq};

use crate::account::{Account, Side};
use crate::moved::Moved;
use crate::openings::Openings;
use crate::place::Place;
use crate::stock::Stock;
use cns_ids::Cusip;
use cns_trades::Opening;
use std::alloc::{AllocError, Global};
use std::marker::Model;

/// What an account holds of an issue, in shares: more than 0.
#[derive(Clone, Copy, PartialEq, Eq, Debug)]
pub struct BalanceRow {
    pub issue: Cusip,
    pub account: Account,
    pub shares: u128,
}

/// Balances other than 0, by issue, then account: the CNS account first, then the members by number.
/// (This project's own rule.)
///
/// Contracts see the list of rows.
#[derive(Drop)]
pub struct BalanceRows {
    rows: Vec<BalanceRow>,
}

impl Model for BalanceRows {
    ghost use Rattle.std.specs.Prelude.{List};
    ghost use Rattle.cns_depository.specs.declared.balances.BalanceRow.{BalanceRow};

    ghost Value = { List BalanceRow };

    ghost view = { λ b. b.rows.items };
}

impl BalanceRows {
    /// The rows, in order.
    pub fn as_slice(&self) -> &[BalanceRow]
        ensures { result.now ≡ self.now }
    {
        self.rows.as_slice()
    }
}

impl BalanceRow {
    // The issue and the rank of the account. Rows stand by issue, then account.
    fn key(&self) -> (Cusip, u64)
        ensures { result ≡ (self.now.issue, side_rank (row_place self.now).side) }
    {
        let place = Place {
            issue: self.issue,
            side: Side::At(self.account),
        };
        place.key()
    }
}

// Adds the row of an account that holds so many shares of an issue, where it holds any.
fn add_row(
    rows: &mut Vec<BalanceRow>,
    issue: Cusip,
    account: Account,
    shares: u128,
) -> Result<(), AllocError>
    ensures { OnOk result (rows.new.items ≡ rows.old.items ++ cons_option (shares_row issue account shares) []) }
{
    if shares == 0 {
        return Ok(());
    }
    rows.push(BalanceRow {
        issue,
        account,
        shares,
    })?;
    Ok(())
}

// Adds the row of a member's account by its opening, where its balance is not 0.
fn add_opening(
    rows: &mut Vec<BalanceRow>,
    stock: &Stock,
    opening: &Opening,
) -> Result<(), AllocError>
    ensures { (openings : List Opening) (p : List DepRecord) → IsStockOf stock.now p
        → opening_shares openings (Member opening.now.member) opening.now.issue ≡ opening.now.shares
        → OnOk result (rows.new.items ≡ rows.old.items ++ cons_option (balance_row_of openings p (opened_place opening.now)) []) }
{
    let account = Account::Member(opening.member);
    let opened = u128::from(opening.shares.count());
    let shares = stock.balance_from(opened, &account, opening.issue);
    add_row(rows, opening.issue, account, shares)
}

// Adds the row of a place that no opening names, where it is an account's whose balance is not 0: one that is
// named has its row by its opening.
fn add_unopened(
    rows: &mut Vec<BalanceRow>,
    openings: &Openings,
    place: &Place,
    moved: &Moved,
) -> Result<(), AllocError>
    ensures { (s : Stock) (p : List DepRecord) → IsStockOf s p → get place_eq s.moved place.now ≡ Some moved.now
        → OnOk result (rows.new.items ≡ rows.old.items ++ cons_option (unopened_row openings.now p place.now) []) }
{
    match place.side {
        Side::Outside => Ok(()),
        Side::At(account) => {
            if openings.names(&account, place.issue) {
                return Ok(());
            }
            add_row(rows, place.issue, account, moved.balance(0))
        }
    }
}

// Adds the rows of the places that openings name.
fn add_openings(
    rows: &mut Vec<BalanceRow>,
    stock: &Stock,
    openings: &[Opening],
) -> Result<(), AllocError>
    ensures { (p : List DepRecord) → IsStockOf stock.now p → IsDistinct place_eq (map opened_place openings.now)
        → OnOk result (rows.new.items ≡ rows.old.items ++ filter_map (balance_row_of openings.now p) (map opened_place openings.now)) }
{
    for opening in openings {
        add_opening(rows, stock, opening)?;
    }
    Ok(())
}

// Adds the rows of the other places to or from which something was moved.
fn add_others(
    rows: &mut Vec<BalanceRow>,
    stock: &Stock,
    openings: &Openings,
) -> Result<(), AllocError>
    ensures { (p : List DepRecord) → IsStockOf stock.now p
        → OnOk result (rows.new.items ≡ rows.old.items ++ filter_map (unopened_row openings.now p) (keys stock.now.moved)) }
{
    for (place, moved) in stock.moved() {
        add_unopened(rows, openings, place, moved)?;
    }
    Ok(())
}

// The rows of the places that an opening names, or to or from which something was moved: each place once, so
// that none is looked up, sorted or taken out twice.
fn named_rows(
    alloc: Global,
    openings: &Openings,
    stock: &Stock,
) -> Result<Vec<BalanceRow>, AllocError>
    ensures { (p : List DepRecord) → IsStockOf stock.now p → IfOk result (λ v. AreNamedRows openings.now stock.now p v.items) }
{
    let opened = openings.as_slice();
    let count = opened.len() + stock.moved().len();
    if count == 0 {
        return Ok(Vec::new(alloc));
    }
    // Room for all at once, so that no row is moved as they grow.
    let mut rows = Vec::with_capacity(alloc, count)?;
    add_openings(&mut rows, stock, opened)?;
    add_others(&mut rows, stock, openings)?;
    Ok(rows)
}

// Puts rows into order, by issue, then account.
fn sort_rows(rows: &mut Vec<BalanceRow>)
    ensures same { IsPermutation rows.old.items rows.new.items }
    ensures order { IsSortedByKey row_place place_cmp rows.new.items }
{
    rows.sort_unstable_by_key(BalanceRow::key);
}

// The balances other than 0, by issue, then account.
pub(crate) fn balance_rows(
    alloc: Global,
    openings: &Openings,
    stock: &Stock,
) -> Result<BalanceRows, AllocError>
    ensures { (p : List DepRecord) → IsStockOf stock.now p
        → IfOk result (λ rows. rows ≡ balance_rows_of openings.now p) }
{
    let mut rows = named_rows(alloc, openings, stock)?;
    sort_rows(&mut rows);
    Ok(BalanceRows { rows })
}
