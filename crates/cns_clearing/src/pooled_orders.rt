ghost use Rattle.std.specs.Prelude.{◌≡◌, ◌+◌, ◌^◌, ◌≤◌, false, [], length, IfOk, OnOk};
ghost use Rattle.cns_movements.specs.Book.{IsOrderBook, with_asks, with_reply};
ghost use Rattle.cns_movements.specs.Confirm.{confirm_answer};
ghost use Rattle.cns_clearing.specs.Books.{are_spent as are_numbers_spent};
ghost use Rattle.cns_clearing.specs.Pools.{avail_of, covered_of, delivered_of, issues_of, out_of};

use crate::pool_sums::{PoolSums, ask_all, issues_in, settle, sums_of};
use cns_ids::{Cusip, CycleId};
use cns_movements::{Ask, Confirm, MoveNo, OrderBook, Reply};
use std::alloc::{AllocError, Global};
use std::collections::HashMap;
use std::marker::Model;

const MAX_ORDERS: usize = MoveNo::MAX as usize;

/// The orders of a clearing node and their confirmations, and beside them what the orders of each issue
/// come to.
///
/// Contracts see the order book, and how many more orders and confirmations there is room for.
#[derive(Drop)]
pub(crate) struct PooledOrders {
    orders: OrderBook,
    // Of each issue that an order names, and of no other.
    pools: HashMap<Cusip, PoolSums>,
}

impl Model for PooledOrders {
    ghost use Rattle.std.specs.Prelude.{min, nat_eq};
    ghost use Rattle.std.specs.HashMap.{get, spare};
    ghost use Rattle.cns_movements.specs.Book.{OrderRoom};
    ghost use Rattle.cns_clearing.specs.PoolSums.{ArePools};

    ghost Value = { OrderRoom };

    ghost view = { λ p. record {
      book = p.orders.book;
      order_room = min p.orders.order_room (spare p.pools);
      reply_room = min p.orders.reply_room (spare p.pools);
    } };

    ghost invariant = { λ p. ArePools (λ issue. get nat_eq p.pools issue) p.orders.book };
}

impl PooledOrders {
    /// No orders. They take no memory.
    pub(crate) fn new(alloc: Global) -> PooledOrders
        ensures { result.book ≡ record { orders = []; replies = [] } }
    {
        PooledOrders {
            orders: OrderBook::new(alloc),
            pools: HashMap::new(alloc),
        }
    }

    /// The orders and their confirmations.
    pub(crate) fn book(&self) -> &OrderBook
        ensures { result.now.book ≡ self.now.book }
    {
        &self.orders
    }

    /// The issues that some order names, each once, in order.
    ///
    /// Costs a sort of them.
    pub(crate) fn issues(&self, alloc: Global) -> Result<Vec<Cusip>, AllocError>
        ensures { IfOk result (λ v. v.items ≡ issues_of self.now.book.orders) }
    {
        let mut issues = issues_in(alloc, &self.pools)?;
        issues.sort_unstable();
        Ok(issues)
    }

    /// Takes the memory that `issue` of these asks needs, of whichever cycle.
    pub(crate) fn issue_room(&mut self, asks: &[Ask]) -> Result<(), AllocError>
        ensures same { self.new.book ≡ self.old.book }
        ensures room { OnOk result (length asks.now ≤ self.new.order_room) }
    {
        self.orders.issue_room(None, asks)?;
        self.pools.reserve(asks.len())
    }

    /// Takes the memory that `confirm` of this reply needs.
    pub(crate) fn confirm_room(&mut self, reply: &Reply) -> Result<(), AllocError>
        ensures same { self.new.book ≡ self.old.book }
        ensures room { OnOk result (1 ≤ self.new.reply_room) }
    {
        self.orders.confirm_room(*reply)?;
        self.pools.reserve(1)
    }

    /// Issues orders of a cycle, for which there are numbers and room.
    pub(crate) fn issue(&mut self, cycle: Option<CycleId>, asks: &[Ask])
        requires room { length asks.now ≤ self.old.order_room }
        requires numbers { are_numbers_spent self.old.book (length asks.now) ≡ false }
        ensures { self.new.book ≡ with_asks self.old.book cycle asks.now }
    {
        if asks.is_empty() {
            return;
        }
        append(&mut self.orders, cycle, asks);
        ask_all(&mut self.pools, asks);
    }

    /// Takes the first confirmation of an order, for which there is room.
    pub(crate) fn confirm(&mut self, reply: &Reply)
        requires room { 1 ≤ self.old.reply_room }
        requires first { confirm_answer self.old.book reply.now ≡ Confirm.Done }
        ensures { self.new.book ≡ with_reply self.old.book reply.now }
    {
        let Some(order) = self.orders.get(reply.number) else {
            unreachable!()
        };
        take(&mut self.orders, reply);
        settle(&mut self.pools, &order, reply.moved);
    }

    /// Whether so many orders are more than the numbers that are left.
    pub(crate) fn are_spent(&self, count: usize) -> bool
        ensures { result ≡ are_numbers_spent self.now.book count }
    {
        count != 0 && count > MAX_ORDERS - self.orders.len()
    }

    /// The answer to a confirmation.
    pub(crate) fn answer(&self, reply: &Reply) -> Confirm
        ensures { result ≡ confirm_answer self.now.book reply.now }
    {
        let Some(order) = self.orders.get(reply.number) else {
            return Confirm::UnknownMove;
        };
        match self.orders.confirmed(reply.number) {
            Some(moved) if moved == reply.moved => Confirm::Again,
            Some(_) => Confirm::Conflict,
            None if reply.moved.count() > order.asked.shares() => Confirm::TooMuch,
            None => Confirm::Done,
        }
    }

    /// The shares of an issue that covers brought, less those that deliveries took or still may take.
    pub(crate) fn avail(&self, issue: Cusip) -> u128
        ensures { result ≡ avail_of self.now.book issue }
    {
        let sums = self.sums(issue);
        sums.covered
            .saturating_sub(sums.delivered)
            .saturating_sub(sums.out)
    }

    /// The shares of an issue that unconfirmed deliveries ask for.
    pub(crate) fn going_out(&self, issue: Cusip) -> u128
        ensures { result ≡ out_of self.now.book issue }
    {
        self.sums(issue).out
    }

    // What the orders of an issue come to.
    fn sums(&self, issue: Cusip) -> PoolSums
        ensures covered { result.covered ≡ covered_of self.now.book issue }
        ensures delivered { result.delivered ≡ delivered_of self.now.book issue }
        ensures out { result.out ≡ out_of self.now.book issue }
    {
        sums_of(&self.pools, issue)
    }
}

// Issues orders of a cycle, at least one, for which there are numbers and room.
fn append(orders: &mut OrderBook, cycle: Option<CycleId>, asks: &[Ask])
    requires some { 1 ≤ length asks.now }
    requires room { length asks.now ≤ orders.old.order_room }
    requires numbers { are_numbers_spent orders.old.book (length asks.now) ≡ false }
    ensures { orders.new.book ≡ with_asks orders.old.book cycle asks.now }
{
    let Ok(_) = orders.issue(cycle, asks) else {
        unreachable!()
    };
}

// Takes the first confirmation of an order, for which there is room.
fn take(orders: &mut OrderBook, reply: &Reply)
    requires room { 1 ≤ orders.old.reply_room }
    requires first { confirm_answer orders.old.book reply.now ≡ Confirm.Done }
    ensures { orders.new.book ≡ with_reply orders.old.book reply.now }
{
    let Ok(_) = orders.confirm(*reply) else {
        unreachable!()
    };
}
