ghost use Rattle.std.specs.Prelude.{◌≡◌, IfOk};
ghost use Rattle.std.specs.List.{filter_map};
ghost use Rattle.cns_clearing.specs.Pools.{lent_of as lent_in, free_of as free_in, pool_row as pool_row_of, rows_of_pools};

use crate::lot::Lots;
use crate::pooled_orders::PooledOrders;
use cns_ids::Cusip;
use std::alloc::{AllocError, Global};
use std::marker::Model;

/// The pool of an issue, by what was confirmed. The balance of account 0 at the depository may be another
/// one while an executed movement is not confirmed.
#[derive(Clone, Copy, PartialEq, Eq, Debug)]
pub struct PoolRow {
    pub issue: Cusip,
    /// The shares that confirmed covers brought, less those that deliveries took or may still take,
    /// and less those that are lent.
    pub free: u128,
    /// The shares that are lent: those that were poured into the open lot of the issue.
    pub lent: u128,
    /// The shares that unconfirmed deliveries ask for.
    pub out: u128,
}

/// The pools of an order book, by issue. Contracts see the list of rows.
#[derive(Drop)]
pub struct PoolRows {
    rows: Vec<PoolRow>,
}

impl Model for PoolRows {
    ghost use Rattle.std.specs.Prelude.{List};
    ghost use Rattle.cns_clearing.specs.declared.pools.PoolRow.{PoolRow};

    ghost Value = { List PoolRow };

    ghost view = { λ p. p.rows.items };
}

impl PoolRows {
    /// The rows, by issue.
    pub fn as_slice(&self) -> &[PoolRow]
        ensures { result.now ≡ self.now }
    {
        self.rows.as_slice()
    }
}

// The shares that are lent in an issue.
pub(crate) fn lent_of(lots: &Lots, issue: Cusip) -> u128
    ensures { result ≡ lent_in lots.now.lots issue }
{
    match lots.get(issue) {
        Some(lot) => u128::from(lot.poured.count()),
        None => 0,
    }
}

// The shares that are free in an issue.
pub(crate) fn free_of(orders: &PooledOrders, lots: &Lots, issue: Cusip) -> u128
    ensures { result ≡ free_in orders.now.book lots.now.lots issue }
{
    orders.avail(issue).saturating_sub(lent_of(lots, issue))
}

// The pool of an issue, where it has shares.
#[tactic(auto, unfolding(crate::specs::Pools::pool_row))]
fn pool_row(orders: &PooledOrders, lots: &Lots, issue: Cusip) -> Option<PoolRow>
    ensures { result ≡ pool_row_of orders.now.book lots.now.lots issue }
{
    let free = free_of(orders, lots, issue);
    let lent = lent_of(lots, issue);
    let out = orders.going_out(issue);
    if free == 0 && lent == 0 && out == 0 {
        return None;
    }
    Some(PoolRow {
        issue,
        free,
        lent,
        out,
    })
}

// The pools that have shares, free, lent or out, by issue. (This project's own rule.)
pub(crate) fn pool_rows(
    alloc: Global,
    orders: &PooledOrders,
    lots: &Lots,
) -> Result<PoolRows, AllocError>
    ensures { IfOk result (λ rows. rows ≡ rows_of_pools orders.now.book lots.now.lots) }
{
    if orders.book().is_empty() {
        let rows = Vec::new(alloc);
        return Ok(PoolRows { rows });
    }
    let issues = orders.issues(alloc)?;
    let rows = rows_of_issues(alloc, orders, lots, issues.as_slice())?;
    Ok(PoolRows { rows })
}

// The pools of issues that have shares, in their order.
fn rows_of_issues(
    alloc: Global,
    orders: &PooledOrders,
    lots: &Lots,
    issues: &[Cusip],
) -> Result<Vec<PoolRow>, AllocError>
    ensures { IfOk result (λ v. v.items
        ≡ filter_map (pool_row_of orders.now.book lots.now.lots) issues.now) }
{
    issues
        .iter()
        .filter_map(|issue| pool_row(orders, lots, *issue))
        .collect(alloc)
}
