ghost use Rattle.std.specs.Prelude.{◌≡◌, ◌^◌, ◌≤◌, [], length, IfOk};
ghost use Rattle.cns_records.specs.Call.{CallLeaves, Changes, Grows};
ghost use Rattle.cns_records.specs.Refusals.{commit_refusal};
ghost use Rattle.cns_records.specs.declared.clear_record.ClearRecord.TheVariants.{Exempt, Priority};
ghost use Rattle.cns_clearing.specs.Answers.{NodeLeaves, cycle_call, reply_call, setting_call, trade_call};
ghost use Rattle.cns_allocate.specs.Plan.{IsPlan};
ghost use Rattle.cns_clearing.specs.Lots.{plan_in};
ghost use Rattle.cns_clearing.specs.Node.{NodePlanned, RestartLeaves};
ghost use Rattle.cns_clearing.specs.Pools.{lent_of};
ghost use Rattle.cns_system.specs.Lot.{planned_sum, with_seal};
ghost use Rattle.cns_system.specs.Lots.{all_ended, change_call, reserve_call};
ghost use Rattle.cns_system.specs.Numbered.{AreTied, IsNumberedCommit, look_call, numbered_close, with_lot_ended, opening_call, numbered_pour};
ghost use Rattle.cns_system.specs.Readers.{unconfirmed};

use crate::entry::Look;
use crate::lots::LotBook;
use cns_allocate::Plan;
use cns_clearing::{Clearing, Closed, Cycled, Taken};
use cns_ids::{Cusip, CycleId, MemberNo, Shares};
use cns_journal::{Keeper, NotPlanned, ReplayFault, Restarted};
use cns_movements::{MoveNo, Reply};
use cns_pool::Ticket;
use cns_records::Refusal;
use cns_trades::Trade;
use std::alloc::{AllocError, Global};
use std::marker::Model;

// How many lots may be opened in all.
pub(crate) const MAX_LOTS: u64 = 1_000_000;

/// A lot that was opened.
#[derive(Debug, Drop)]
pub struct Opened {
    /// Its number.
    pub number: u64,
    /// The shares that were poured into it.
    pub poured: u64,
    /// The members that it serves: the longs of its issue that are still to receive shares.
    pub plan: Plan,
}

/// The clearing node, with its lots by number.
///
/// The node has the open lot of the issue of each lot that has not ended, with its plan and its shares; the lot by
/// number has the tickets, which serve that plan as far as they go, and those who wait for one. (This
/// project's own rules.)
///
/// Contracts see the node, and the lots in the order of their numbers.
#[derive(Drop)]
pub struct NumberedClearing<K: Keeper> {
    node: Clearing<K>,
    lots: LotBook,
}

impl<K: Keeper> Model for NumberedClearing<K> {
    ghost use Rattle.cns_system.specs.Numbered.{AreTied, NumberedNode};

    ghost Value = { NumberedNode };

    ghost view = { λ n. record { clear = n.node; lots = n.lots.lots } };

    ghost invariant = { λ n. AreTied n.node.lots n.lots.lots };
}

impl<K: Keeper> NumberedClearing<K> {
    /// A node without open lots, and no lots by number. It takes no memory.
    pub fn new(alloc: Global, node: Clearing<K>) -> NumberedClearing<K>
        requires { node.lots ≡ [] }
        ensures clear { result.clear ≡ node }
        ensures lots { result.lots ≡ [] }
    {
        NumberedClearing {
            node,
            lots: LotBook::new(alloc),
        }
    }

    /// The clearing node.
    pub fn node(&self) -> &Clearing<K>
        ensures { result.now ≡ self.now.clear }
    {
        &self.node
    }

    /// Gives the clearing node up. The lots are gone.
    pub fn into_node(self) -> Clearing<K>
        ensures { result ≡ self.clear }
    {
        drop(self.lots);
        self.node
    }

    /// The lots by number.
    pub fn book(&self) -> &LotBook
        ensures lots { result.now.lots ≡ self.now.lots }

        // Each lot that has not ended is of the plan of the node's open lot of its issue.
        ensures tied { AreTied self.now.clear.lots self.now.lots }
    {
        &self.lots
    }

    /// How many lots were opened, which is the highest number that was given.
    pub fn lot_count(&self) -> u64
        ensures { result ≡ length self.now.lots }
    {
        self.lots.len()
    }

    /// The orders that are not confirmed, by number.
    pub fn unconfirmed(&self, alloc: Global) -> Result<Vec<MoveNo>, AllocError>
        ensures { IfOk result (λ numbers. numbers.items ≡ unconfirmed self.now.clear.log.records) }
    {
        self.node.orders().unconfirmed(alloc)
    }

    /// Opens a lot of an issue: all its free shares are poured into it, its plan is fixed, and it has
    /// the next number.
    ///
    /// Refuses `Down`, then `LotAlready`, then `LotsSpent` where 1,000,000 lots were opened. It adds no
    /// record. (This project's own rule.)
    pub fn lot_open(&mut self, issue: Cusip) -> Result<Opened, Refusal>
        ensures { Grows Refusal.OutOfMemory (opening_call issue self.old) result self.old self.new }
    {
        if self.node.is_down() {
            return Err(Refusal::Down);
        }
        if self.node.lot(issue).is_some() {
            return Err(Refusal::LotAlready);
        }
        if self.lots.len() >= MAX_LOTS {
            return Err(Refusal::LotsSpent);
        }
        let plan = plan_of(&self.node, issue)?;
        let answer = plan.copy(self.lots.allocator())?;
        let poured = self.node.free(issue) as u64;
        let lot = self.lots.prepare(issue, &plan)?;
        self.node.lot_open_with(issue, plan)?;
        Ok(Opened {
            number: self.lots.add(lot),
            poured,
            plan: answer,
        })
    }

    /// Draws a member's ticket from a lot, of all the shares that are planned for it, which starts
    /// where the last one of the lot ends. It takes no memory, and is the same while the node is down.
    ///
    /// It is refused where the number has no lot, the lot has ended, the member is not planned or has
    /// its ticket, a planned member of an earlier group has no ticket yet, or the lot is sealed, and
    /// told the first of these that applies. A refusal changes nothing. (This project's own rule.)
    pub fn reserve(&mut self, number: u64, member: MemberNo) -> Result<Ticket, Refusal>
        ensures lots { Changes (reserve_call number member self.old.lots) result self.old.lots self.new.lots }
        ensures clear { self.new.clear ≡ self.old.clear }
    {
        self.lots.reserve(number, member)
    }

    /// What was poured into a lot, the shares of its tickets, and whether it is sealed.
    pub fn look(&self, number: u64) -> Result<Look, Refusal>
        ensures { result ≡ look_call number self.now.clear.lots self.now.lots }
    {
        let lot = self.lots.find(number)?;
        Ok(Look {
            poured: lent(&self.node, lot.issue()),
            asked: lot.asked(),
            sealed: lot.is_sealed(),
        })
    }

    /// Seals a lot: no ticket is drawn from it from now on. A sealed lot stays as it is.
    pub fn seal(&mut self, number: u64) -> Result<(), Refusal>
        ensures lots { Changes (change_call with_seal number self.old.lots) result self.old.lots self.new.lots }
        ensures clear { self.new.clear ≡ self.old.clear }
    {
        self.lots.seal(number)
    }

    /// Pours the shares of a lot's issue that have become free into the lot, and answers how many.
    ///
    /// Refuses `NoLot`, then `StaleLot`, then `Down`. It adds no record and takes no memory. (This
    /// project's own rule.)
    pub fn lot_pour(&mut self, number: u64) -> Result<u64, Refusal>
        ensures pour { let node = self.old.clear in
            Changes (numbered_pour number node.log.down node.log.records node.lots self.old.lots) result node.lots self.new.clear.lots }
        ensures log { self.new.clear.log ≡ self.old.clear.log }
        ensures lots { self.new.lots ≡ self.old.lots }
    {
        let issue = self.lots.issue(number)?;
        if self.node.is_down() {
            return Err(Refusal::Down);
        }
        let Ok(shares) = self.node.lot_pour(issue) else {
            unreachable!()
        };
        Ok(shares)
    }

    /// Closes a lot with the tickets that its members drew: each is granted what was poured into its
    /// interval, and a delivery of that is ordered, where it is not 0. What was not granted is free
    /// again, and the lot has ended.
    ///
    /// Refuses `NoLot`, then `StaleLot`, then `Down`, then `Unserved` where the lot is not sealed and a
    /// member of its plan has no ticket, then `NumbersSpent`, which never comes where nothing is
    /// granted. After `Device` the lot is open and nothing is ordered, and the node is down until it is
    /// restarted. (This project's own rule.)
    pub fn lot_close(&mut self, number: u64) -> Result<Closed, Refusal>
        ensures { let node = self.old.clear in
            CallLeaves commit_refusal (IsNumberedCommit (with_lot_ended number)) (numbered_close number node.log.down node.log.records node.lots self.old.lots) result self.old self.new }
    {
        let lot = self.lots.find(number)?;
        if self.node.is_down() {
            return Err(Refusal::Down);
        }
        if !lot.is_served() {
            return Err(Refusal::Unserved);
        }
        let closed = self
            .node
            .lot_close_served(lot.issue(), lot.tickets(), lot.is_sealed())?;
        let _ended = self.lots.end(number);
        Ok(closed)
    }

    /// Restarts the node as it does itself. All lots end, also where the restart is refused.
    pub fn restart(&mut self) -> Result<Restarted, ReplayFault>
        ensures clear { RestartLeaves result self.old.clear self.new.clear }
        ensures lots { self.new.lots ≡ all_ended self.old.lots }
    {
        self.lots.end_all();
        self.node.restart()
    }

    /// Accepts a trade, as the node does itself.
    pub fn take_trade(&mut self, trade: &Trade) -> Result<(), Refusal>
        ensures clear { NodeLeaves (trade_call trade.now self.old.clear.log.down self.old.clear.log.records) result self.old.clear self.new.clear }
        ensures lots { self.new.lots ≡ self.old.lots }
    {
        self.node.take_trade(trade)
    }

    /// Exempts shares of a member in an issue from covers, as the node does itself.
    pub fn exempt(&mut self, member: MemberNo, issue: Cusip, shares: Shares) -> Result<(), Refusal>
        ensures clear { NodeLeaves (setting_call (Exempt member issue shares) self.old.clear.log.down) result self.old.clear self.new.clear }
        ensures lots { self.new.lots ≡ self.old.lots }
    {
        self.node.exempt(member, issue, shares)
    }

    /// Sets whether a member has priority in an issue, as the node does itself.
    pub fn priority(&mut self, member: MemberNo, issue: Cusip, on: bool) -> Result<(), Refusal>
        ensures clear { NodeLeaves (setting_call (Priority member issue on) self.old.clear.log.down) result self.old.clear self.new.clear }
        ensures lots { self.new.lots ≡ self.old.lots }
    {
        self.node.priority(member, issue, on)
    }

    /// Runs a cycle, as the node does itself.
    pub fn cycle(&mut self, id: CycleId) -> Result<Cycled, Refusal>
        ensures clear { NodeLeaves (cycle_call id self.old.clear.log.down self.old.clear.log.records self.old.clear.lots) result self.old.clear self.new.clear }
        ensures lots { self.new.lots ≡ self.old.lots }
    {
        self.node.cycle(id)
    }

    /// Takes the depository's reply to an order, as the node does itself.
    pub fn take_reply(&mut self, reply: &Reply) -> Result<Taken, Refusal>
        ensures clear { NodeLeaves (reply_call reply.now self.old.clear.log.down self.old.clear.log.records) result self.old.clear self.new.clear }
        ensures lots { self.new.lots ≡ self.old.lots }
    {
        self.node.take_reply(reply)
    }

    /// Makes the next commit of the keeper fail, where the keeper plans failures, as the node does
    /// itself.
    pub fn plan(&mut self, stands: bool) -> Result<(), NotPlanned>
        ensures clear { NodePlanned stands result self.old.clear self.new.clear }
        ensures lots { self.new.lots ≡ self.old.lots }
    {
        self.node.plan(stands)
    }
}

// The shares that are lent to the open lot of an issue.
fn lent<K: Keeper>(node: &Clearing<K>, issue: Cusip) -> u64
    ensures { result ≡ lent_of node.now.lots issue }
{
    match node.lot(issue) {
        Some(lot) => lot.poured.count(),
        None => 0,
    }
}

// The plan that a lot of an issue would have if it were opened now.
pub(crate) fn plan_of<K: Keeper>(node: &Clearing<K>, issue: Cusip) -> Result<Plan, AllocError>
    ensures plan { IfOk result (λ plan. plan ≡ plan_in node.now.log.records issue) }
    ensures small { IfOk result (λ plan. planned_sum plan ≤ 10 ^ 18) }
    ensures lawful { IfOk result IsPlan }
{
    let plan = node.lot_plan(issue)?;
    // As the book is small, so is what the plan asks for in all, and of each member.
    let _book = node.book();
    Ok(plan)
}
