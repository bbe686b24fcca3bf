ghost use Rattle.std.specs.Prelude.{◌≡◌, ◌<◌, ◌≤◌, ◌==◌, ◌&&◌, [], ◌∷◌, length, false, not, IfOk, OnOk, if◌then◌else◌};
ghost use Rattle.cns_trades.specs.Verdicts.{verdict as verdict_on};
ghost use Rattle.cns_netting.specs.History.{accepted, becoming_due, credit_part, position_of};
ghost use Rattle.cns_movements.specs.Book.{with_asks};
ghost use Rattle.cns_movements.specs.Confirm.{confirm_answer};
ghost use Rattle.cns_movements.specs.Order.{order_of};
ghost use Rattle.cns_covers.specs.Bounds.{amount_of as amount_in, want_in};
ghost use Rattle.cns_netting.specs.Rows.{rows_of};
ghost use Rattle.cns_allocate.specs.Plan.{plan_of};
ghost use Rattle.cns_clearing.specs.Books.{AreSound, AreEffects, Allows, asks_of, due_by, with_record, books_of, covers_on, deliveries_in, pool_tickets, is_later as is_later_cycle, are_spent as are_numbers_spent};
ghost use Rattle.cns_clearing.specs.Lots.{longs_among};
ghost use Rattle.cns_clearing.specs.Pools.{avail_of as avail_in};
ghost use Rattle.cns_clearing.specs.Room.{HasRoom};

use crate::effects::Effects;
use crate::pooled_orders::PooledOrders;
use cns_allocate::Plan;
use cns_covers::{Exemptions, Priorities, cover_count, covers_of_rows};
use cns_ids::{Cusip, CycleId, Day, MemberNo, Shares};
use cns_movements::{Ask, Confirm, MoveKind, MoveNo, Order, OrderBook, Reply};
use cns_netting::{NetBook, PositionRow, rows_of_issue};
use cns_records::ClearRecord;
use cns_trades::{Trade, TradeList, Verdict};
use std::alloc::{AllocError, Global};
use std::marker::Model;
use std::mem;

/// The books of a clearing node: what its records amount to.
///
/// Contracts see the books, and beside them for how many more entries there is room without taking
/// memory.
#[derive(Drop)]
pub(crate) struct Books {
    trades: TradeList,
    book: NetBook,
    orders: PooledOrders,
    exemptions: Exemptions,
    priorities: Priorities,
    latest: Option<CycleId>,
    // The positions directly after the latest cycle, and directly after the cycle before it.
    recent: Vec<PositionRow>,
    previous: Vec<PositionRow>,
}

impl Model for Books {
    ghost use Rattle.std.specs.Prelude.{◌≡◌};
    ghost use Rattle.cns_netting.specs.History.{accepted};
    ghost use Rattle.cns_clearing.specs.Books.{BooksRoom};

    ghost Value = { BooksRoom };

    ghost view = { λ b. record {
      books = record {
        history = b.book.history;
        orders = b.orders.book;
        exemptions = b.exemptions.settings;
        priorities = b.priorities.settings;
        latest = b.latest;
        recent = b.recent.items;
        previous = b.previous.items;
      };
      trade_room = b.trades.room;
      entry_room = b.book.room;
      order_room = b.orders.order_room;
      reply_room = b.orders.reply_room;
      exemption_room = b.exemptions.room;
      priority_room = b.priorities.room;
    } };

    ghost invariant = { λ b. b.trades.trades ≡ accepted b.book.history };
}

impl Books {
    /// The books of no records. They take no memory.
    #[tactic(auto, unfolding(crate::specs::Books::books_of))]
    pub(crate) fn new(alloc: Global) -> Books
        ensures { result.books ≡ books_of [] }
    {
        Books {
            trades: TradeList::new(alloc),
            book: NetBook::new(alloc),
            orders: PooledOrders::new(alloc),
            exemptions: Exemptions::new(alloc),
            priorities: Priorities::new(alloc),
            latest: None,
            recent: Vec::new(alloc),
            previous: Vec::new(alloc),
        }
    }

    /// What the accepted trades say of a trade.
    #[inline(always)]
    pub(crate) fn verdict(&self, trade: &Trade) -> Verdict
        ensures { result ≡ verdict_on (accepted self.now.books.history) trade.now }
    {
        self.trades.check(trade)
    }

    /// Whether a cycle is later than the latest one.
    pub(crate) fn is_later(&self, id: &CycleId) -> bool
        ensures { result ≡ is_later_cycle self.now.books.latest id.now }
    {
        match self.latest {
            None => true,
            Some(last) => id.is_after(last),
        }
    }

    /// What a cycle makes besides itself: the covers, and the positions directly after it. It leaves the
    /// books as they were, but for the order in which the book keeps its holdings.
    pub(crate) fn cycle_effects(
        &mut self,
        alloc: Global,
        id: &CycleId,
    ) -> Result<Effects, AllocError>
        requires { AreSound self.old.books }
        ensures effects { IfOk result (AreEffects self.old.books (ClearRecord.Cycle id.now)) }
        ensures same { self.new.books ≡ self.old.books }
    {
        self.book.put_in_order();
        let rows = self.book.rows_after(id.day)?;
        let asks = covers_of_rows(alloc, &rows, self.orders(), &self.exemptions)?;
        Ok(Effects { asks, rows })
    }

    /// How many covers a cycle of this date orders. It takes no memory, and leaves the books as they were.
    pub(crate) fn cover_count(&mut self, day: Day) -> usize
        ensures count { result ≡ length (covers_on self.old.books day) }
        ensures same { self.new ≡ self.old }
    {
        cover_count(&mut self.book, day, self.orders.book(), &self.exemptions)
    }

    /// The members that were long in an issue directly after the cycle before the latest.
    fn were_long(&self, alloc: Global, issue: Cusip) -> Result<Vec<MemberNo>, AllocError>
        requires { AreSound self.now.books }
        ensures { IfOk result (λ members. members.items ≡ longs_among issue self.now.books.previous) }
    {
        longs_in(alloc, rows_of_issue(&self.previous, issue), issue)
    }

    /// The members that are to receive shares of an issue, in the order in which they are served.
    pub(crate) fn plan(&self, alloc: Global, issue: Cusip) -> Result<Plan, AllocError>
        requires { AreSound self.now.books }
        ensures { let b = self.now.books in
            IfOk result (λ plan. plan ≡ plan_of issue b.history b.orders b.priorities (longs_among issue b.previous)) }
    {
        let were_long = self.were_long(alloc, issue)?;
        Plan::of(
            alloc,
            issue,
            &self.book,
            self.orders(),
            &self.priorities,
            were_long.as_slice(),
        )
    }

    /// The shares of an issue that covers brought, less those that deliveries took or still may take.
    pub(crate) fn avail(&self, issue: Cusip) -> u128
        ensures { result ≡ avail_in self.now.books.orders issue }
    {
        self.orders.avail(issue)
    }

    /// The shares that a member is long of in an issue, less those of its open deliveries.
    pub(crate) fn want(&self, member: MemberNo, issue: Cusip) -> u128
        ensures { result ≡ want_in self.now.books.history self.now.books.orders member issue }
    {
        let position = self.book.position(member, issue);
        let long = if position > 0 {
            position.unsigned_abs()
        } else {
            0
        };
        long.saturating_sub(self.orders().open_of(MoveKind::Delivery, member, issue))
    }

    /// Whether so many orders are more than the numbers that are left.
    pub(crate) fn are_spent(&self, count: usize) -> bool
        ensures { result ≡ are_numbers_spent self.now.books.orders count }
    {
        self.orders.are_spent(count)
    }

    /// The answer to a confirmation.
    pub(crate) fn answer(&self, reply: &Reply) -> Confirm
        ensures { result ≡ confirm_answer self.now.books.orders reply.now }
    {
        self.orders.answer(reply)
    }

    /// The latest cycle.
    pub(crate) fn latest(&self) -> Option<CycleId>
        ensures { result ≡ self.now.books.latest }
    {
        self.latest
    }

    /// The accepted trades and the positions.
    pub(crate) fn book(&self) -> &NetBook
        ensures { result.now.history ≡ self.now.books.history }
    {
        &self.book
    }

    /// The orders and their confirmations.
    pub(crate) fn orders(&self) -> &OrderBook
        ensures { result.now.book ≡ self.now.books.orders }
    {
        self.orders.book()
    }

    /// The orders with what the orders of each issue come to.
    pub(crate) fn pooled(&self) -> &PooledOrders
        ensures { result.now.book ≡ self.now.books.orders }
    {
        &self.orders
    }

    /// Takes the memory that `add` of a record needs, which makes these orders.
    #[inline(always)]
    pub(crate) fn room(&mut self, entry: &ClearRecord, asks: &[Ask]) -> Result<(), AllocError>
        requires { Allows self.old.books entry.now }
        ensures same { self.new.books ≡ self.old.books }
        ensures room { OnOk result (HasRoom entry.now (length asks.now) self.new) }
    {
        match entry {
            ClearRecord::Accept(trade) => {
                self.trades.add_room(*trade)?;
                self.book.accept_room(*trade)
            }
            ClearRecord::Exempt {
                member,
                issue,
                shares,
            } => self.exemptions.set_room(*member, *issue, *shares),
            ClearRecord::Priority { member, issue, on } => {
                self.priorities.set_room(*member, *issue, *on)
            }
            ClearRecord::Cycle(id) => {
                self.book.net_room(id.day)?;
                self.orders.issue_room(asks)
            }
            ClearRecord::Allocate(_) => self.orders.issue_room(asks),
            ClearRecord::Confirm(reply) => self.reply_room(reply),
        }
    }

    // Takes the memory that a confirmation needs.
    fn reply_room(&mut self, reply: &Reply) -> Result<(), AllocError>
        requires { confirm_answer self.old.books.orders reply.now ≡ Confirm.Done }
        ensures same { self.new.books ≡ self.old.books }
        ensures room { OnOk result ((0 < self.new.entry_room) × (1 ≤ self.new.reply_room)) }
    {
        let Some(order) = self.orders().get(reply.number) else {
            unreachable!()
        };
        self.orders.confirm_room(reply)?;
        self.book
            .settle_room(order.member, order.issue, amount_of(&order, reply))
    }

    /// Adds a record, which makes this besides itself, and answers how many trades it makes due. It
    /// takes no memory.
    #[inline(always)]
    pub(crate) fn add(&mut self, entry: &ClearRecord, effects: Effects) -> u64
        requires room { HasRoom entry.now (length effects.asks.items) self.old }
        requires sound { AreSound self.old.books }
        requires allowed { Allows self.old.books entry.now }
        requires effects { AreEffects self.old.books entry.now effects }
        ensures books { self.new.books ≡ with_record entry.now self.old.books }
        ensures due { result ≡ due_by self.old.books entry.now }
    {
        match entry {
            ClearRecord::Accept(trade) => {
                self.accept(trade);
                0
            }
            ClearRecord::Exempt {
                member,
                issue,
                shares,
            } => {
                self.exempt(*member, *issue, *shares);
                0
            }
            ClearRecord::Priority { member, issue, on } => {
                self.prioritize(*member, *issue, *on);
                0
            }
            ClearRecord::Cycle(id) => self.cycle(id, effects),
            ClearRecord::Allocate(_) => {
                self.orders.issue(self.latest, effects.asks.as_slice());
                0
            }
            ClearRecord::Confirm(reply) => {
                self.confirm(reply);
                0
            }
        }
    }

    fn accept(&mut self, trade: &Trade)
        requires room { HasRoom (ClearRecord.Accept trade.now) 0 self.old }
        requires allowed { Allows self.old.books (ClearRecord.Accept trade.now) }
        ensures { self.new.books ≡ with_record (ClearRecord.Accept trade.now) self.old.books }
    {
        let Ok(()) = self.trades.add(*trade) else {
            unreachable!()
        };
        self.book.accept_reserved(trade);
    }

    fn exempt(&mut self, member: MemberNo, issue: Cusip, shares: Shares)
        requires room { 0 < self.old.exemption_room }
        ensures { self.new.books ≡ with_record (ClearRecord.Exempt member issue shares) self.old.books }
    {
        let Ok(()) = self.exemptions.set(member, issue, shares) else {
            unreachable!()
        };
    }

    fn prioritize(&mut self, member: MemberNo, issue: Cusip, on: bool)
        requires room { 0 < self.old.priority_room }
        ensures { self.new.books ≡ with_record (ClearRecord.Priority member issue on) self.old.books }
    {
        let Ok(()) = self.priorities.set(member, issue, on) else {
            unreachable!()
        };
    }

    fn cycle(&mut self, id: &CycleId, effects: Effects) -> u64
        requires room { HasRoom (ClearRecord.Cycle id.now) (length effects.asks.items) self.old }
        requires allowed { Allows self.old.books (ClearRecord.Cycle id.now) }
        requires effects { AreEffects self.old.books (ClearRecord.Cycle id.now) effects }
        ensures books { self.new.books ≡ with_record (ClearRecord.Cycle id.now) self.old.books }
        ensures due { result ≡ becoming_due self.old.books.history id.now.day }
    {
        self.orders.issue(Some(*id), effects.asks.as_slice());
        let Ok(due) = self.book.net(id.day) else {
            unreachable!()
        };
        self.latest = Some(*id);
        self.previous = mem::replace(&mut self.recent, effects.rows);
        due
    }

    fn confirm(&mut self, reply: &Reply)
        requires room { HasRoom (ClearRecord.Confirm reply.now) 0 self.old }
        requires sound { AreSound self.old.books }
        requires allowed { Allows self.old.books (ClearRecord.Confirm reply.now) }
        ensures { self.new.books ≡ with_record (ClearRecord.Confirm reply.now) self.old.books }
    {
        let Some(order) = self.orders().get(reply.number) else {
            unreachable!()
        };
        self.orders.confirm(reply);
        let amount = amount_of(&order, reply);
        self.book.settle_reserved(order.member, order.issue, amount);
    }
}

// What the shares that an order moved bring its member.
fn amount_of(order: &Order, reply: &Reply) -> i128
    ensures { result ≡ amount_in order.now.kind reply.now.moved }
{
    let moved = i128::from(reply.moved.count());
    match order.kind {
        MoveKind::Cover => moved,
        MoveKind::Delivery => -moved,
    }
}

// The members that are long in an issue by these positions.
fn longs_in(alloc: Global, rows: &[PositionRow], issue: Cusip) -> Result<Vec<MemberNo>, AllocError>
    ensures { IfOk result (λ members. members.items ≡ longs_among issue rows.now) }
{
    rows.iter()
        .filter_map(|row| long_member(issue, row))
        .collect(alloc)
}

// The member of a position, where it is long in the issue.
fn long_member(issue: Cusip, row: &PositionRow) -> Option<MemberNo>
    ensures { result
        ≡ (if (row.now.issue == issue) && not (credit_part row.now.position == 0) then Some row.now.member else None) }
{
    if row.issue == issue && row.position > 0 {
        Some(row.member)
    } else {
        None
    }
}
