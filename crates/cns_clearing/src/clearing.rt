ghost use Rattle.std.specs.Prelude.{◌≡◌, ◌≢◌, ◌↔◌, ℕ, ◌≤◌, ◌^◌, ◌+◌, Bool, Err, IsTrue, true, false, [], length, map, vec_items, option_map, IfOk, IfErr, None, OnErr, OnOk};
ghost use Rattle.cns_records.specs.declared.clear_record.ClearRecord.TheVariants.{Exempt, Priority};
ghost use Rattle.cns_records.specs.Clear.{AreWritable, spelling};
ghost use Rattle.cns_movements.specs.Book.{next_orders};
ghost use Rattle.cns_netting.specs.Book.{IsBook};
ghost use Rattle.cns_netting.specs.History.{due, longs_of, shorts_of};
ghost use Rattle.cns_allocate.specs.Served.{IsServed};
ghost use Rattle.cns_clearing.specs.Books.{AreEffects, AreSound, IsAllowed, IsLawful, are_spent, asks_of, books_of, due_by, history_of, is_later, latest_of, order_book_of, rows_after};
ghost use Rattle.cns_clearing.specs.Closing.{AreRecordable};
ghost use Rattle.cns_clearing.specs.Lots.{AreLots, DoesNotDisturb, avail_in, lots_opened, plan_in};
ghost use Rattle.cns_clearing.specs.Position.{IsBetween, due_in, position_in};
ghost use Rattle.cns_clearing.specs.Pools.{covered_of as covered_in, delivered_of as delivered_in, free_of as free_in, lent_of as lent_in, lot_of, out_of as out_in, rows_of_pools};
ghost use Rattle.cns_records.specs.Call.{Changes, Grows};
ghost use Rattle.cns_clearing.specs.Answers.{close_call, cycle_call, open_call, order_call, pour_call, reply_call, setting_call, trade_call, tested_close_call, AreServed, IsPoured, MayClose, NodeLeaves, TellsServed};
ghost use Rattle.cns_clearing.specs.Node.{IsCommitted, IsOpened, IsUnread, NodePlanned, RestartLeaves};
ghost use Rattle.cns_clearing.specs.declared.lot.Lot.{Lot};
ghost use Rattle.cns_journal.specs.RecordLog.{IsGivenUp};

use crate::answer::{Closed, Cycled, Orders, Taken};
use crate::books::Books;
use crate::closing::{allocation_of, asked_in_all};
use crate::effects::Effects;
use crate::lot::{Lot, Lots};
use crate::pools::{PoolRows, free_of, lent_of, pool_rows};
use cns_allocate::{Plan, are_served, deliveries, delivery_count};
use cns_ids::{Cusip, CycleId, MemberNo, Shares};
use cns_journal::{CommitFault, Keeper, NotPlanned, RecordLog, Refused, ReplayFault, Restarted};
use cns_movements::{Ask, Confirm as Confirmed, MoveNo, Order, OrderBook, Reply};
use cns_netting::NetBook;
use cns_pool::Ticket;
use cns_records::{ClearRecord, Refusal};
use cns_trades::{Trade, Verdict};
use std::alloc::{AllocError, Global};
use std::marker::Model;

/// The clearing node: its records, each of which its keeper acknowledged, its books, which are what
/// the records amount to, and its open lots, which no journal keeps.
///
/// Contracts see the log of the records: the records, the newest first; the record whose commit failed,
/// until a restart decides it; whether the node is down; and of its keeper, how often the device has failed,
/// whether it is honest, and what is known of it beforehand; and beside the log the open lots. (This
/// project's own rules.)
#[derive(Drop)]
pub struct Clearing<K: Keeper> {
    log: RecordLog<K, ClearRecord>,
    books: Books,
    lots: Lots,
    alloc: Global,
}

impl<K: Keeper> Model for Clearing<K> {
    ghost use Rattle.cns_clearing.specs.Node.{ClearNode, IsNode};

    ghost Value = { ClearNode };

    ghost view = { λ n. record { log = n.log; lots = n.lots.lots } };

    ghost invariant = { λ n. IsNode n.books.books (record { log = n.log; lots = n.lots.lots }) };
}

impl<K: Keeper> Clearing<K> {
    /// Reads the keeper's journal again, and opens a node that is up, with the records that it gives.
    /// A refused opening hands the keeper back, at `BadJournal` with all payloads that it gave.
    ///
    /// Refuses `BadJournal` where a payload is no record, or of a record that may not stand after
    /// those before it. (This project's own rule.)
    ///
    /// Costs each record that the journal gives what the call that made it cost, and an allocation one
    /// pass over its tickets, with look-ups for each.
    pub fn open(alloc: Global, keeper: K) -> Result<Clearing<K>, Refused<K>>
        ensures ok { IfOk result (IsOpened (K.state keeper)) }
        ensures err { IfErr result (λ refused. IsUnread refused.fault (map vec_items refused.rejected.items) (K.state keeper) (K.state refused.keeper)) }
    {
        let mut books = Books::new(alloc);
        match RecordLog::open(alloc, keeper, &alloc, &mut books) {
            Ok(log) => Ok(Clearing {
                log,
                books,
                lots: Lots::new(alloc),
                alloc,
            }),
            Err(refused) => {
                drop(books);
                Err(refused)
            }
        }
    }

    /// Whether the node is down: from a failure of the device, or a refused restart, until a restart
    /// succeeds.
    pub fn is_down(&self) -> bool
        ensures { result ≡ self.now.log.down }
    {
        self.log.is_down()
    }

    /// Accepts a trade.
    ///
    /// Refuses `Down`, then `Trade` with the verdict of the accepted trades where that is not `New`.
    /// After `Device` the trade is not accepted, and the node is down until it is restarted. (This
    /// project's own rule.)
    ///
    /// Costs look-ups of the trade's id and of its two holdings, a place among the trades that are not
    /// due, and one commit.
    pub fn take_trade(&mut self, trade: &Trade) -> Result<(), Refusal>
        ensures { NodeLeaves (trade_call trade.now self.old.log.down self.old.log.records) result self.old self.new }
    {
        let verdict = self.up()?.verdict(trade);
        if verdict != Verdict::New {
            return Err(Refusal::Trade(verdict));
        }
        let nothing = Effects::none(self.alloc);
        self.add(ClearRecord::Accept(*trade), nothing)?;
        Ok(())
    }

    /// Exempts shares of a member in an issue from covers, in place of those before; 0 ends the
    /// exemption.
    ///
    /// Refuses `Down`. After `Device` nothing is exempted, and the node is down until it is
    /// restarted. (This project's own rule.)
    ///
    /// Costs a look-up and one commit.
    pub fn exempt(&mut self, member: MemberNo, issue: Cusip, shares: Shares) -> Result<(), Refusal>
        ensures { NodeLeaves (setting_call (Exempt member issue shares) self.old.log.down) result self.old self.new }
    {
        self.set(ClearRecord::Exempt {
            member,
            issue,
            shares,
        })
    }

    /// Sets whether a member has priority in an issue, in place of what was set before.
    ///
    /// Refuses `Down`. After `Device` nothing is set, and the node is down until it is restarted.
    /// (This project's own rule.)
    ///
    /// Costs a look-up and one commit.
    pub fn priority(&mut self, member: MemberNo, issue: Cusip, on: bool) -> Result<(), Refusal>
        ensures { NodeLeaves (setting_call (Priority member issue on) self.old.log.down) result self.old self.new }
    {
        self.set(ClearRecord::Priority { member, issue, on })
    }

    /// Runs a cycle: makes the trades due that settle by its date, and orders covers of what is then
    /// short. The orders stand under the next numbers in `orders`.
    ///
    /// Refuses `Down`, then `CycleOrder`, then `LotsOpen`, then `NumbersSpent`, which never comes where
    /// there is nothing to cover. After `Device` the cycle was not run and nothing is ordered, and the
    /// node is down until it is restarted. (This project's own rule.)
    ///
    /// Want of memory is told only where none of these refusals applies: where the covers cannot be listed
    /// they are counted, which takes none.
    ///
    /// Costs one pass over all holdings that trades or movements named, a sort of them where some were
    /// named since the latest cycle, look-ups for the trades that become due and for each short position,
    /// and one commit.
    pub fn cycle(&mut self, id: CycleId) -> Result<Cycled, Refusal>
        ensures { NodeLeaves (cycle_call id self.old.log.down self.old.log.records self.old.lots) result self.old self.new }
    {
        let alloc = self.alloc;
        let books = self.up()?;
        if !books.is_later(&id) {
            return Err(Refusal::CycleOrder);
        }
        if !self.lots().is_empty() {
            return Err(Refusal::LotsOpen);
        }
        let Ok(effects) = self.books.cycle_effects(alloc, &id) else {
            return Err(self.refusal_without_memory(&id));
        };
        let books = self.books();
        let asks = effects.asks.as_slice();
        if books.are_spent(asks.len()) {
            return Err(Refusal::NumbersSpent);
        }
        let orders = numbered_orders(alloc, books, &Some(id), asks)?;
        let due = self.add(ClearRecord::Cycle(id), effects)?;
        Ok(Cycled { due, orders })
    }

    /// Opens a lot of an issue: all its free shares are poured into it, and its plan is fixed.
    ///
    /// Refuses `Down`, then `LotAlready`. It adds no record. (This project's own rule.)
    ///
    /// Costs the positions of the issue (`NetBook::rows_in`), a search by halves in those after the cycle
    /// before the latest, and look-ups: of the issue's lot, and for each member that is long in the issue.
    pub fn lot_open(&mut self, issue: Cusip) -> Result<Plan, Refusal>
        ensures lots { Grows Refusal.OutOfMemory (open_call issue self.old.log.down self.old.log.records self.old.lots) result self.old.lots self.new.lots }
        ensures log { self.new.log ≡ self.old.log }
    {
        self.up()?;
        if self.lot(issue).is_some() {
            return Err(Refusal::LotAlready);
        }
        let plan = self.lot_plan(issue)?;
        let answer = plan.copy(self.alloc)?;
        self.lot_open_with(issue, plan)?;
        Ok(answer)
    }

    /// Opens a lot as `lot_open` does, with the plan that `lot_plan` gives now, of an issue that has no open
    /// lot, at a node that is up. So who has the plan need not have it made once more.
    ///
    /// Costs look-ups.
    pub fn lot_open_with(&mut self, issue: Cusip, plan: Plan) -> Result<(), AllocError>
        requires up { self.old.log.down ≡ false }
        requires first { lot_of self.old.lots issue ≡ None }
        requires plan { plan ≡ plan_in self.old.log.records issue }
        ensures ok { OnOk result (self.new ≡ record self.old { lots = lots_opened self.old.log.records issue self.old.lots }) }
        ensures err { OnErr result (self.new ≡ self.old) }
    {
        let records = self.record_count();
        let poured = self.avail(issue);
        self.lots.room()?;
        self.lots.open(Lot {
            issue,
            opened: records,
            upto: records,
            poured,
            plan,
        });
        Ok(())
    }

    /// Pours the shares of an issue into its lot that have become free, and answers how many.
    ///
    /// Refuses `Down`, then `NoLot`. It adds no record and takes no memory. (This project's own rule.)
    ///
    /// Costs look-ups.
    pub fn lot_pour(&mut self, issue: Cusip) -> Result<u64, Refusal>
        ensures lots { Changes (pour_call issue self.old.log.down self.old.log.records self.old.lots) result self.old.lots self.new.lots }
        ensures log { self.new.log ≡ self.old.log }

        // With the shares that it had the lot has all that are there, at most 10^18.
        ensures poured { IfOk result (IsPoured self.old issue) }
    {
        self.up()?;
        let Some(lot) = self.lot(issue) else {
            return Err(Refusal::NoLot);
        };
        let before = lot.poured;
        let records = self.record_count();
        let poured = self.avail(issue);
        self.lots.refill(issue, records, poured);
        Ok(poured.count().saturating_sub(before.count()))
    }

    /// Closes the lot of an issue with the tickets that its members drew, in the order in which they
    /// drew them: each is granted what was poured into its interval, and a delivery of that is
    /// ordered, where it is not 0. The orders stand under the next numbers in `orders`. What was not
    /// granted is free again.
    ///
    /// Refuses `Down`, then `NoLot`, then `BadTickets` where the tickets do not serve the lot's plan,
    /// then `NumbersSpent`, which never comes where nothing is granted. These are found without memory,
    /// so `OutOfMemory` is told only where none of them applies. After `Device` the lot is open and
    /// nothing is ordered, and the node is down until it is restarted. (This project's own rule.)
    ///
    /// Costs its plan and its tickets, look-ups, and one commit.
    pub fn lot_close(
        &mut self,
        issue: Cusip,
        tickets: &[Ticket],
        sealed: bool,
    ) -> Result<Closed, Refusal>
        ensures { (serve : Bool) × TellsServed serve self.old issue tickets.now sealed
            × NodeLeaves (tested_close_call serve issue tickets.now sealed self.old.log.down self.old.log.records self.old.lots) result self.old self.new }
    {
        self.up()?;
        if !self.is_served(issue, tickets, sealed) {
            return Err(Refusal::BadTickets);
        }
        self.lot_close_served(issue, tickets, sealed)
    }

    /// Closes the lot of an issue as `lot_close` does, with tickets that serve its plan. So who knows that
    /// they do need not have it tested once more.
    ///
    /// Refuses `Down`, then `NoLot`, then `NumbersSpent`, which never comes where nothing is granted. These are
    /// found without memory, so `OutOfMemory` is told only where none of them applies. After `Device` the lot is
    /// open and nothing is ordered, and the node is down until it is restarted. (This project's own rule.)
    ///
    /// Costs its tickets, look-ups, and one commit.
    pub fn lot_close_served(
        &mut self,
        issue: Cusip,
        tickets: &[Ticket],
        sealed: bool,
    ) -> Result<Closed, Refusal>
        requires served { AreServed self.old.lots issue tickets.now sealed }
        ensures { NodeLeaves (close_call issue tickets.now sealed self.old.log.down self.old.log.records self.old.lots) result self.old self.new }
    {
        self.up()?;
        let alloc = self.alloc;
        let lot = self.closing(issue, tickets, sealed)?;
        let poured = lot.poured.count();
        let allocation = allocation_of(alloc, lot, tickets, sealed)?;
        let asks = deliveries(alloc, issue, tickets, poured)?;
        let books = self.books();
        let orders = numbered_orders(alloc, books, &books.latest(), asks.as_slice())?;
        let granted = poured.min(asked_in_all(tickets));
        let effects = Effects::of_asks(alloc, asks);
        self.add(ClearRecord::Allocate(allocation), effects)?;
        Ok(Closed { granted, orders })
    }

    /// The order of this number, where its record was acknowledged.
    ///
    /// Refuses `Down`, then `UnknownMove`.
    ///
    /// Costs a look-up.
    pub fn order(&self, number: MoveNo) -> Result<Order, Refusal>
        ensures { result ≡ order_call number self.now.log.down self.now.log.records }
    {
        let orders = self.up()?.orders();
        orders.get(number).ok_or(Refusal::UnknownMove)
    }

    /// Takes the depository's reply to an order. The first one confirms the order, and what was moved
    /// is settled: a cover brings its member the shares, a delivery takes them. The same reply again
    /// changes nothing.
    ///
    /// Refuses `Down`, then `UnknownMove`, then `Conflict`, then `TooMuch`. After `Device` nothing is
    /// confirmed, and the node is down until it is restarted. (This project's own rule.)
    ///
    /// Costs look-ups and one commit.
    pub fn take_reply(&mut self, reply: &Reply) -> Result<Taken, Refusal>
        ensures { NodeLeaves (reply_call reply.now self.old.log.down self.old.log.records) result self.old self.new }
    {
        match self.up()?.answer(reply) {
            Confirmed::Done => {}
            Confirmed::Again => return Ok(Taken::Again),
            Confirmed::UnknownMove => return Err(Refusal::UnknownMove),
            Confirmed::Conflict => return Err(Refusal::Conflict),
            Confirmed::TooMuch => return Err(Refusal::TooMuch),
        }
        let nothing = Effects::none(self.alloc);
        self.add(ClearRecord::Confirm(*reply), nothing)?;
        Ok(Taken::Done)
    }

    /// Reads the journal again, and puts the node up. All lots end, also where the restart is refused,
    /// and their shares are free. A refused restart leaves the node down, with its records and the one
    /// whose commit failed, and at `BadJournal` with the payloads that it read (`rejected`).
    ///
    /// Refuses `BadJournal` where a payload is no record, or of a record that may not stand after
    /// those before it. (This project's own rule.)
    ///
    /// Costs each record that the journal gives what the call that made it cost, and an allocation one
    /// pass over its tickets, with look-ups for each.
    pub fn restart(&mut self) -> Result<Restarted, ReplayFault>
        ensures { RestartLeaves result self.old self.new }
    {
        self.lots.clear();
        let mut books = Books::new(self.alloc);
        match self.log.restart(&self.alloc, &mut books) {
            Ok(restarted) => {
                self.books = books;
                Ok(restarted)
            }
            Err(fault) => {
                drop(books);
                Err(fault)
            }
        }
    }

    /// The payloads of the last reading that found a bad one, the first one first; none once a restart
    /// succeeds.
    pub fn rejected(&self) -> &[Vec<u8>]
        ensures { map vec_items result.now ≡ self.now.log.rejected }
    {
        self.log.rejected()
    }

    /// Makes the next commit of the keeper fail, where the keeper plans failures. Its record stands
    /// at the restart, or does not.
    pub fn plan(&mut self, stands: bool) -> Result<(), NotPlanned>
        ensures { NodePlanned stands result self.old self.new }
    {
        self.log.plan(stands)
    }

    /// Gives the keeper up. An honest one has the records just as the node has them, where that is up; where
    /// it is down, a reopening gives these and at most the one whose commit failed.
    pub fn into_keeper(self) -> K
        ensures { IsGivenUp spelling self.log (K.state result) }
    {
        self.log.into_keeper()
    }
}

impl<K: Keeper> Clearing<K> {
    /// The position of a member in an issue, in shares: above 0 it is to receive, below 0 to deliver.
    /// It is what the member bought less what it sold in due trades, with what its confirmed covers
    /// moved, and less what its confirmed deliveries moved. (This project's own rule.)
    ///
    /// Costs a look-up.
    pub fn position(&self, member: MemberNo, issue: Cusip) -> i128
        ensures value { result ≡ position_in self.now.log.records member issue }

        // Once all that is ordered has moved, it is between what was sold and what was bought.
        ensures bounds { IsBetween self.now.log.records member issue result }
    {
        self.books().book().position(member, issue)
    }

    /// The shares of an issue in account 0 that are free.
    ///
    /// Costs two look-ups.
    pub fn free(&self, issue: Cusip) -> u128
        ensures value { result ≡ free_in (order_book_of self.now.log.records) self.now.lots issue }

        // With those that are lent they are at most 10^18.
        ensures small { result + lent_in self.now.lots issue ≤ 10 ^ 18 }
    {
        free_of(self.books().pooled(), self.lots(), issue)
    }

    /// The shares of an issue that are lent: those that were poured into its open lot.
    ///
    /// Costs a look-up.
    pub fn lent(&self, issue: Cusip) -> u128
        ensures { result ≡ lent_in self.now.lots issue }
    {
        lent_of(self.lots(), issue)
    }

    /// The shares of an issue that unconfirmed deliveries ask for.
    ///
    /// Costs a look-up.
    pub fn out(&self, issue: Cusip) -> u128
        ensures value { result ≡ out_in (order_book_of self.now.log.records) issue }

        // The shares that are free, lent and out, with those that confirmed deliveries took, are all
        // that confirmed covers brought: none appears, and none is lost.
        ensures whole { let book = order_book_of self.now.log.records in
            free_in book self.now.lots issue + lent_in self.now.lots issue + result + delivered_in book issue
            ≡ covered_in book issue }
    {
        self.going_out(issue)
    }

    /// The pools that have shares, by issue.
    ///
    /// Costs a look-up and a sort's share for each issue that an order names.
    pub fn pools(&self, alloc: Global) -> Result<PoolRows, AllocError>
        ensures { IfOk result (λ rows. rows ≡ rows_of_pools (order_book_of self.now.log.records) self.now.lots) }
    {
        pool_rows(alloc, self.books().pooled(), self.lots())
    }

    /// The plan that a lot of an issue would have if it were opened now: the members that are to
    /// receive shares, and how many.
    ///
    /// Costs what opening the lot does.
    pub fn lot_plan(&self, issue: Cusip) -> Result<Plan, AllocError>
        ensures { IfOk result (λ plan. plan ≡ plan_in self.now.log.records issue) }
    {
        self.books().plan(self.alloc, issue)
    }

    /// The open lot of an issue.
    ///
    /// Costs a look-up.
    pub fn lot(&self, issue: Cusip) -> Option<&Lot>
        ensures { option_map (λ lot. lot.now) result ≡ lot_of self.now.lots issue }
    {
        self.lots().get(issue)
    }

    /// The issues of the open lots, in the order in which the lots were opened; `lot` gives the lot of each.
    ///
    /// Costs a walk over the lots that were opened since no lot was open.
    pub fn open_lots(&self, alloc: Global) -> Result<Vec<Cusip>, AllocError>
        ensures { IfOk result (λ issues. issues.items ≡ map (λ (lot : Lot). lot.issue) self.now.lots) }
    {
        self.lots().issues(alloc)
    }

    /// Whether some lot is open. At most one is of an issue; each has the plan that its issue had when it was
    /// opened, and all shares that were there when it was last poured into.
    ///
    /// Costs no look-up.
    pub fn has_open_lots(&self) -> bool
        ensures value { IsTrue result ↔ (self.now.lots ≢ []) }
        ensures lawful { AreLots self.now.log.records self.now.lots }
    {
        !self.lots().is_empty()
    }

    /// The latest cycle.
    pub fn latest(&self) -> Option<CycleId>
        ensures { result ≡ latest_of self.now.log.records }
    {
        self.books().latest()
    }

    /// The accepted trades and the positions.
    pub fn book(&self) -> &NetBook
        ensures history { result.now.history ≡ history_of self.now.log.records }

        // The due trades, as the book has them.
        ensures due { due result.now.history ≡ due_in self.now.log.records }

        // In each issue longs less shorts are the shares that confirmed covers brought, less those that
        // confirmed deliveries took.
        ensures balanced { (issue : ℕ) → longs_of (history_of self.now.log.records) issue + delivered_in (order_book_of self.now.log.records) issue
            ≡ shorts_of (history_of self.now.log.records) issue + covered_in (order_book_of self.now.log.records) issue }

        // And those that confirmed covers brought are free, lent or out, or confirmed deliveries took
        // them.
        ensures whole { (issue : ℕ) → let book = order_book_of self.now.log.records in
            free_in book self.now.lots issue + lent_in self.now.lots issue + out_in book issue + delivered_in book issue ≡ covered_in book issue }
        ensures lawful { IsLawful self.now.log.records }
        ensures fits { AreWritable self.now.log.records }

        // Its entries keep all positions within 10^18 shares of 0.
        ensures small { IsBook result.now.history }
    {
        self.books().book()
    }

    /// The orders and their confirmations.
    pub fn orders(&self) -> &OrderBook
        ensures orders { result.now.book ≡ order_book_of self.now.log.records }
        ensures lawful { IsLawful self.now.log.records }
    {
        self.books().orders()
    }
}

impl<K: Keeper> Clearing<K> {
    // The books of the acknowledged records.
    fn books(&self) -> &Books
        ensures books { result.now.books ≡ books_of self.now.log.records }
        ensures sound { AreSound result.now.books }
        ensures lawful { IsLawful self.now.log.records }
        ensures fits { AreWritable self.now.log.records }
        ensures lots { AreLots self.now.log.records self.now.lots }
    {
        &self.books
    }

    // The books of a node that is up.
    fn up(&self) -> Result<&Books, Refusal>
        ensures books { IfOk result (λ books. books.now.books ≡ books_of self.now.log.records) }
        ensures sound { IfOk result (λ books. AreSound books.now.books) }
        ensures up { OnOk result (self.now.log.down ≡ false) }
        ensures down { IfErr result (λ refusal. (refusal ≡ Refusal.Down) × (self.now.log.down ≡ true)) }
    {
        if self.is_down() {
            return Err(Refusal::Down);
        }
        Ok(self.books())
    }

    // Why a node that is up refuses a cycle whose covers there is no memory to list, where no lot is open and it
    // is later than the latest one: for want of numbers, and else for want of memory.
    fn refusal_without_memory(&mut self, id: &CycleId) -> Refusal
        requires up { self.old.log.down ≡ false }
        requires later { is_later (latest_of self.old.log.records) id.now ≡ true }
        requires quiet { self.old.lots ≡ [] }
        ensures refusal { NodeLeaves (cycle_call id.now self.old.log.down self.old.log.records self.old.lots) (Err result) self.old self.new }
        ensures same { self.new ≡ self.old }
    {
        let count = self.books.cover_count(id.day);
        if self.books.are_spent(count) {
            Refusal::NumbersSpent
        } else {
            Refusal::OutOfMemory
        }
    }

    // The open lots.
    fn lots(&self) -> &Lots
        ensures lots { result.now.lots ≡ self.now.lots }
        ensures lawful { AreLots self.now.log.records self.now.lots }
        ensures records { IsLawful self.now.log.records × AreWritable self.now.log.records }
    {
        &self.lots
    }

    // How many records there are.
    fn record_count(&self) -> u64
        ensures { result ≡ length self.now.log.records }
    {
        self.log.records().len() as u64
    }

    // The shares of an issue that covers brought, less those that deliveries took or still may take.
    fn avail(&self, issue: Cusip) -> Shares
        ensures { result ≡ avail_in self.now.log.records issue }
    {
        let Some(shares) = Shares::new(self.books().avail(issue) as u64) else {
            unreachable!()
        };
        shares
    }

    // The shares of an issue that unconfirmed deliveries ask for. It stands apart from `out`, since the
    // folder of that one's proof would have the name of what the toolchain makes.
    fn going_out(&self, issue: Cusip) -> u128
        ensures value { result ≡ out_in (order_book_of self.now.log.records) issue }
        ensures whole { let book = order_book_of self.now.log.records in
            free_in book self.now.lots issue + lent_in self.now.lots issue + result + delivered_in book issue
            ≡ covered_in book issue }
    {
        self.books().pooled().going_out(issue)
    }

    // Whether tickets serve the plan of the lot of an issue, where there is one. It takes no memory.
    fn is_served(&self, issue: Cusip, tickets: &[Ticket], sealed: bool) -> bool
        ensures served { result ≡ true → AreServed self.now.lots issue tickets.now sealed }
        ensures bad { result ≡ false → (lot : Lot) × (lot_of self.now.lots issue ≡ Some lot) × (IsServed lot.plan tickets.now sealed → ⊥) }
    {
        match self.lot(issue) {
            Some(lot) => are_served(lot.plan.as_slice(), tickets, sealed),
            None => true,
        }
    }

    // The lot of an issue, which closes with these tickets, or why a node that is up closes none. It takes no memory.
    fn closing(&self, issue: Cusip, tickets: &[Ticket], sealed: bool) -> Result<&Lot, Refusal>
        requires served { AreServed self.now.lots issue tickets.now sealed }
        ensures closes { IfOk result (λ lot. MayClose self.now issue tickets.now sealed lot.now) }
        ensures recordable { OnOk result (AreRecordable tickets.now) }
        ensures refused { IfErr result (λ refusal. close_call issue tickets.now sealed false self.now.log.records self.now.lots ≡ Err refusal) }
    {
        let lots = self.lots();
        let Some(lot) = lots.get(issue) else {
            return Err(Refusal::NoLot);
        };
        let count = delivery_count(tickets, lot.poured.count());
        if self.books().are_spent(count) {
            return Err(Refusal::NumbersSpent);
        }
        Ok(lot)
    }

    // Adds a record that may stand after the others and makes this besides itself: commits it, and
    // then adds it to the books. Answers how many trades it makes due.
    #[inline(always)]
    fn add(&mut self, entry: ClearRecord, effects: Effects) -> Result<u64, CommitFault>
        requires up { self.old.log.down ≡ false }
        requires allowed { IsAllowed self.old.log.records entry }
        requires quiet { DoesNotDisturb entry self.old.lots }
        requires effects { AreEffects (books_of self.old.log.records) entry effects }
        ensures commits { IsCommitted entry result self.old self.new }
        ensures due { IfOk result (λ due. due ≡ due_by (books_of self.old.log.records) entry) }
    {
        if self.books.room(&entry, effects.asks.as_slice()).is_err() {
            return Err(CommitFault::OutOfMemory);
        }
        self.log.commit(entry)?;
        let Some(entry) = self.log.latest() else {
            unreachable!()
        };
        let due = self.books.add(entry, effects);
        self.lots.follow(entry);
        Ok(due)
    }

    // Adds the record of a setting.
    fn set(&mut self, entry: ClearRecord) -> Result<(), Refusal>
        requires allowed { IsAllowed self.old.log.records entry }
        requires quiet { DoesNotDisturb entry self.old.lots }
        requires asks { [] ≡ asks_of (books_of self.old.log.records) entry }
        requires rows { [] ≡ rows_after (books_of self.old.log.records) entry }
        ensures { NodeLeaves (setting_call entry self.old.log.down) result self.old self.new }
    {
        self.up()?;
        let nothing = Effects::none(self.alloc);
        self.add(entry, nothing)?;
        Ok(())
    }
}

// The orders of these asks, of this cycle and under the next numbers of the books.
fn numbered_orders(
    alloc: Global,
    books: &Books,
    cycle: &Option<CycleId>,
    asks: &[Ask],
) -> Result<Orders, AllocError>
    requires { are_spent books.now.books.orders (length asks.now) ≡ false }
    ensures { IfOk result (λ orders. orders ≡ next_orders books.now.books.orders cycle.now asks.now) }
{
    let issued = books.orders().len();
    let mut list = Vec::with_capacity(alloc, asks.len())?;
    for ask in asks {
        let Some(number) = MoveNo::new((issued + list.len()) as u64 + 1) else {
            unreachable!()
        };
        list.push(Order::from_ask(number, *cycle, ask))?;
    }
    Ok(Orders::of(list))
}
