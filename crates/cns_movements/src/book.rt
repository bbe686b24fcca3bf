ghost use Rattle.std.specs.Prelude.{◌≡◌, ℕ, ◌+◌, ◌-◌, ◌^◌, ◌<◌, ◌≤◌, min, nat_lt, if◌then◌else◌, [], ◌++◌, length, replicate, reverse, Some, None, IfOk, IfErr, OnOk, OnErr, IsTrue, ◌↔◌, vec_capacity};
ghost use Rattle.cns_movements.specs.Order.{moved_of, numbered, open_sum, order_of, unconfirmed_of};
ghost use Rattle.std.specs.HashMap.{spare};
ghost use Rattle.cns_movements.specs.Book.{with_asks, IsOrderBook, AreSettled};
ghost use Rattle.cns_movements.specs.OpenShares.{open_in};
ghost use Rattle.cns_movements.specs.declared.order.MoveKind.{MoveKind};
ghost use Rattle.cns_movements.specs.Confirm.{confirm_answer, after_reply, added_by};
ghost use Rattle.cns_movements.specs.IssueFault.{NumbersSuffice, IsIssueRefused};

use crate::number::MoveNo;
use crate::open_shares::{OpenShares, ask_all, open_shares, settle};
use crate::order::{Ask, MoveKind, Order, Reply};
use cns_ids::{Cusip, CycleId, Holding, MemberNo, Shares};
use std::alloc::{AllocError, Global};
use std::collections::HashMap;
use std::marker::Model;
use thiserror::Error;

const MAX_ORDERS: usize = MoveNo::MAX as usize;

/// Why no order was issued.
#[derive(Clone, Copy, PartialEq, Eq, Debug, Error)]
pub enum IssueFault {
    /// The numbers that are left are not enough, or none is left.
    #[error("movement numbers are spent")]
    NumbersSpent,
    /// There is no memory for the orders.
    #[error("out of memory")]
    OutOfMemory,
}

/// The answer to a confirmation.
#[derive(Clone, Copy, PartialEq, Eq, Debug)]
pub enum Confirm {
    /// The order is confirmed from now on.
    Done,
    /// The order was confirmed with just this before.
    Again,
    /// No order has this number.
    UnknownMove,
    /// The order was confirmed with other shares before.
    Conflict,
    /// The shares are more than the order asked for.
    TooMuch,
}

/// The movement orders in the order of their numbers, and their confirmations.
///
/// Contracts see the orders with the oldest first and the confirmations with the newest first, and
/// beside this book how many more of each there is room for.
#[derive(Drop)]
pub struct OrderBook {
    orders: Vec<Order>,
    // In the order in which they were made.
    replies: Vec<Reply>,
    // What the order in the same place of `orders` moved, where it is confirmed.
    moved: Vec<Option<Shares>>,
    // So many orders, from the first one on, are all confirmed.
    settled: usize,
    // What the unconfirmed orders of each holding ask for.
    sums: HashMap<Holding, OpenShares>,
}

impl Model for OrderBook {
    ghost use Rattle.std.specs.Prelude.{◌-◌, min, length, reverse, vec_capacity};
    ghost use Rattle.std.specs.HashMap.{spare};
    ghost use Rattle.cns_movements.specs.Book.{OrderRoom};
    ghost use Rattle.cns_movements.specs.OpenShares.{IsKept, open_in};

    ghost Value = { OrderRoom };

    ghost view = { λ a. record {
      book = record { orders = a.orders.items; replies = reverse a.replies.items };
      order_room = min (min (vec_capacity a.orders - length a.orders.items)
          (vec_capacity a.moved - length a.moved.items)) (spare a.sums);
      reply_room = vec_capacity a.replies - length a.replies.items;
    } };

    ghost invariant = { λ a. IsKept
        (record { orders = a.orders.items; replies = reverse a.replies.items })
        a.moved.items a.settled (open_in a.sums) };
}

impl OrderBook {
    /// A book with no orders, and with room for none.
    pub fn new(alloc: Global) -> OrderBook
        ensures book { result.book ≡ record { orders = []; replies = [] } }
        ensures order_room { result.order_room ≡ 0 }
        ensures reply_room { result.reply_room ≡ 0 }
    {
        OrderBook {
            orders: Vec::new(alloc),
            replies: Vec::new(alloc),
            moved: Vec::new(alloc),
            settled: 0,
            sums: HashMap::new(alloc),
        }
    }

    /// Issues the orders that are asked for, all of this cycle and under the next numbers in turn or
    /// none, and answers the first of these numbers. With no asks it answers the next number and issues
    /// nothing.
    ///
    /// Refuses `NumbersSpent` where fewer numbers are left than asks, or none is left. (This
    /// project's own rule.)
    pub fn issue(&mut self, cycle: Option<CycleId>, asks: &[Ask]) -> Result<MoveNo, IssueFault>
        ensures first { IfOk result (λ first. first ≡ length self.old.book.orders + 1) }
        ensures issued { OnOk result (self.new.book ≡ with_asks self.old.book cycle asks.now) }
        ensures fits { OnOk result (NumbersSuffice self.old.book (length asks.now)) }

        // Refused only with this cause, and then the book stays.
        ensures refused { IfErr result (λ fault. IsIssueRefused fault self.old (length asks.now)) }
        ensures err { OnErr result (self.new.book ≡ self.old.book) }

        // What it leaves of the rooms.
        ensures order_room { self.old.order_room ≤ self.new.order_room + length asks.now }
        ensures err_room { OnErr result (self.old.order_room ≤ self.new.order_room) }
        ensures reply_room { self.new.reply_room ≡ self.old.reply_room }
    {
        if asks.len().max(1) > MAX_ORDERS - self.orders.len() {
            return Err(IssueFault::NumbersSpent);
        }
        if make_room(
            &mut self.orders,
            &mut self.moved,
            &mut self.sums,
            asks.len(),
        )
        .is_err()
        {
            return Err(IssueFault::OutOfMemory);
        }
        let first = MoveNo::of_place(self.orders.len());
        append(&mut self.orders, &mut self.moved, &cycle, asks);
        ask_all(&mut self.sums, asks);
        Ok(first)
    }

    /// Takes the memory that `issue` of these asks needs, which is the same for each cycle.
    pub fn issue_room(&mut self, _cycle: Option<CycleId>, asks: &[Ask]) -> Result<(), AllocError>
        ensures same { self.new.book ≡ self.old.book }
        ensures room { OnOk result (length asks.now ≤ self.new.order_room) }
        ensures err { OnErr result (self.old.order_room < length asks.now) }
        ensures order_room { self.old.order_room ≤ self.new.order_room }
        ensures reply_room { self.new.reply_room ≡ self.old.reply_room }
    {
        make_room(
            &mut self.orders,
            &mut self.moved,
            &mut self.sums,
            asks.len(),
        )
    }

    /// The order of this number.
    pub fn get(&self, number: MoveNo) -> Option<Order>
        ensures order { result ≡ order_of self.now.book.orders number }
        ensures lawful { IsOrderBook self.now.book }
    {
        self.orders.get(number.place()).copied()
    }

    /// Takes the depository's reply as the confirmation of its order. All answers but `Done` change
    /// nothing.
    ///
    /// Answers `UnknownMove` where no order has the number, then `Again` or `Conflict` where the
    /// order is confirmed with the same or other shares, then `TooMuch` where the shares are more
    /// than the order asked for, else `Done`. (This project's own rule.)
    pub fn confirm(&mut self, reply: Reply) -> Result<Confirm, AllocError>
        ensures answer { IfOk result (λ answer. answer ≡ confirm_answer self.old.book reply) }
        ensures after { IfOk result (λ answer.
            self.new.book ≡ after_reply answer self.old.book reply) }

        // Refused only in place of a `Done`, and only where room is missing.
        ensures wanted { OnErr result (confirm_answer self.old.book reply ≡ Confirm.Done) }
        ensures room { OnErr result (self.old.reply_room ≡ 0) }
        ensures err { OnErr result (self.new.book ≡ self.old.book) }

        // What it leaves of the rooms.
        ensures reply_room { IfOk result (λ answer.
            self.old.reply_room ≤ self.new.reply_room + added_by answer) }
        ensures order_room { self.new.order_room ≡ self.old.order_room }
    {
        let Some(order) = self.get(reply.number) else {
            return Ok(Confirm::UnknownMove);
        };
        if let Some(moved) = self.confirmed(reply.number) {
            return Ok(if moved == reply.moved {
                Confirm::Again
            } else {
                Confirm::Conflict
            });
        }
        if reply.moved.count() > order.asked.shares() {
            return Ok(Confirm::TooMuch);
        }
        self.replies.push(reply)?;
        self.moved[reply.number.place()] = Some(reply.moved);
        self.settled = settled_from(self.settled, &self.moved);
        settle(&mut self.sums, &order);
        Ok(Confirm::Done)
    }

    /// Takes the memory that `confirm` of this reply needs, which is the same for each reply.
    pub fn confirm_room(&mut self, _reply: Reply) -> Result<(), AllocError>
        ensures same { self.new.book ≡ self.old.book }
        ensures room { OnOk result (1 ≤ self.new.reply_room) }
        ensures err { OnErr result (self.old.reply_room ≡ 0) }
        ensures reply_room { self.old.reply_room ≤ self.new.reply_room }
        ensures order_room { self.new.order_room ≡ self.old.order_room }
    {
        self.replies.reserve(1)
    }

    /// The shares asked by the unconfirmed orders of this kind, member and issue.
    pub fn open_of(&self, kind: MoveKind, member: MemberNo, issue: Cusip) -> u128
        ensures sum { let book = self.now.book in
            result ≡ open_sum book.orders book.replies kind member issue }
        ensures small { result ≤ 10 ^ 24 }
        ensures lawful { IsOrderBook self.now.book }
    {
        open_shares(&self.sums, member, issue).of(kind)
    }

    /// The shares that the order of this number moved, where it is confirmed.
    pub fn confirmed(&self, number: MoveNo) -> Option<Shares>
        ensures moved { result ≡ moved_of self.now.book.replies number }
        ensures lawful { IsOrderBook self.now.book }
    {
        self.moved.get(number.place()).copied().flatten()
    }

    /// The numbers of the orders that are not confirmed.
    ///
    /// Costs the orders from the first one on that is not confirmed.
    pub fn unconfirmed(&self, alloc: Global) -> Result<Vec<MoveNo>, AllocError>
        ensures { let book = self.now.book in
            IfOk result (λ numbers. numbers.items ≡ unconfirmed_of book.orders book.replies) }
    {
        let mut numbers = Vec::new(alloc);
        for order in self.unsettled() {
            if self.confirmed(order.number).is_none() {
                numbers.push(order.number)?;
            }
        }
        Ok(numbers)
    }

    // The orders behind those that are all confirmed.
    fn unsettled(&self) -> &[Order]
        ensures { let book = self.now.book in
            unconfirmed_of result.now book.replies ≡ unconfirmed_of book.orders book.replies }
    {
        self.orders.split_at(self.settled).1
    }

    /// The number that the next order gets, where one is left.
    pub fn next_number(&self) -> Option<MoveNo>
        ensures { let count = length self.now.book.orders in
            result ≡ (if nat_lt count 1000000 then Some (count + 1) else None) }
    {
        MoveNo::new(self.orders.len() as u64 + 1)
    }

    /// How many orders there are.
    pub fn len(&self) -> usize
        ensures value { result ≡ length self.now.book.orders }
        ensures lawful { IsOrderBook self.now.book }
    {
        self.orders.len()
    }

    /// Whether there are no orders.
    pub fn is_empty(&self) -> bool
        ensures { IsTrue result ↔ (self.now.book.orders ≡ []) }
    {
        self.orders.is_empty()
    }

    /// The orders, in the order of their numbers.
    pub fn orders(&self) -> &[Order]
        ensures orders { result.now ≡ self.now.book.orders }
        ensures lawful { IsOrderBook self.now.book }
    {
        &self.orders
    }

    /// The confirmations, the first one first.
    pub fn replies(&self) -> &[Reply]
        ensures replies { reverse result.now ≡ self.now.book.replies }
        ensures lawful { IsOrderBook self.now.book }
    {
        &self.replies
    }
}

// How many orders, from the first one on, are all confirmed: so many of them are known to be so.
fn settled_from(known: usize, moved: &[Option<Shares>]) -> usize
    requires { AreSettled known moved.now }
    ensures { AreSettled result moved.now }
{
    let mut count = known;
    while count < moved.len() && moved[count].is_some() {
        count += 1;
    }
    count
}

// Takes the memory for this many more orders, for what they move, and for what they ask for.
fn make_room(
    orders: &mut Vec<Order>,
    moved: &mut Vec<Option<Shares>>,
    sums: &mut HashMap<Holding, OpenShares>,
    count: usize,
) -> Result<(), AllocError>
    ensures orders { orders.new.items ≡ orders.old.items }
    ensures moved { moved.new.items ≡ moved.old.items }
    ensures orders_capacity { vec_capacity orders.old ≤ vec_capacity orders.new }
    ensures moved_capacity { vec_capacity moved.old ≤ vec_capacity moved.new }
    ensures shares { (k : MoveKind) (m i : ℕ) → open_in sums.new k m i ≡ open_in sums.old k m i }
    ensures sums_spare { spare sums.old ≤ spare sums.new }
    ensures orders_room { OnOk result (length orders.old.items + count ≤ vec_capacity orders.new) }
    ensures moved_room { OnOk result (length moved.old.items + count ≤ vec_capacity moved.new) }
    ensures sums_room { OnOk result (count ≤ spare sums.new) }
    ensures err { let left = min (min (vec_capacity orders.old - length orders.old.items)
        (vec_capacity moved.old - length moved.old.items)) (spare sums.old) in
        OnErr result (left < count) }
{
    orders.reserve(count)?;
    moved.reserve(count)?;
    sums.reserve(count)
}

// Appends the asks as orders of this cycle under the next numbers, none of them confirmed.
fn append(
    orders: &mut Vec<Order>,
    moved: &mut Vec<Option<Shares>>,
    cycle: &Option<CycleId>,
    asks: &[Ask],
)
    requires limit { length orders.old.items + length asks.now ≤ 1000000 }
    requires orders_room { length orders.old.items + length asks.now ≤ vec_capacity orders.old }
    requires moved_room { length moved.old.items + length asks.now ≤ vec_capacity moved.old }
    ensures orders { let next = length orders.old.items + 1 in
        orders.new.items ≡ orders.old.items ++ numbered next cycle.now asks.now }
    ensures moved { moved.new.items ≡ moved.old.items ++ replicate (length asks.now) None }
    ensures orders_capacity { vec_capacity orders.new ≡ vec_capacity orders.old }
    ensures moved_capacity { vec_capacity moved.new ≡ vec_capacity moved.old }
{
    for ask in asks {
        let number = MoveNo::of_place(orders.len());
        orders.push_reserved(Order::from_ask(number, *cycle, ask));
        moved.push_reserved(None);
    }
}
