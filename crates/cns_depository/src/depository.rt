ghost use Rattle.std.specs.Prelude.{◌≡◌, ◌+◌, ◌≤◌, true, false, map, option_map, reverse, vec_items, IfOk, IfErr};
ghost use Rattle.cns_depository.specs.Openings.{opening_shares};
ghost use Rattle.cns_depository.specs.Stock.{IsExecutable, IsLawfulDepot, IsNextMovement, execution, instructed_of, instruction_of, executed_of, movement_of, moved_in, moved_out, balance_of as balance_in};
ghost use Rattle.cns_depository.specs.Balances.{balance_rows as balance_rows_of, AreComplete, AreAscending};
ghost use Rattle.cns_depository.specs.Answers.{InstructLeaves, OrderLeaves, held_call, instruct_call, known_call, take_order_call};
ghost use Rattle.cns_depository.specs.Node.{DepNode, IsCommitted, IsOpened, IsUnread, NodePlanned, RestartLeaves};
ghost use Rattle.cns_journal.specs.RecordLog.{IsGivenUp};
ghost use Rattle.cns_records.specs.Dep.{dep_spelling};

use crate::account::Account;
use crate::balances::{BalanceRows, balance_rows};
use crate::fault::{Answer, DepFault, Own, OwnFault};
use crate::movement::Movement;
use crate::openings::Openings;
use crate::stock::Stock;
use cns_ids::{Cusip, MemberNo, Shares};
use cns_journal::{CommitFault, Keeper, NotPlanned, RecordLog, Refused, ReplayFault, Restarted};
use cns_movements::{MoveNo, Order};
use cns_records::{DepRecord, Instruction};
use std::alloc::{AllocError, Global};
use std::marker::Model;

/// The depository's stock record: its openings, and the movements that it executed and the members' own
/// instructions that it carried out, each of which its keeper acknowledged.
///
/// Contracts see the openings and the log of the records, the newest first; the record whose commit
/// failed, until a restart decides it; whether the depository is down; how often
/// its keeper's device has failed; whether its keeper is honest; and what is known beforehand of its
/// keeper: how the next commit ends, and whether a restart keeps the record whose commit failed. (This
/// project's own rules.)
///
/// Beside the records it keeps what they moved into each account and out of it, in each issue, and the
/// index of the record of each number: so a call costs the look-ups that it makes, however many records
/// there are.
#[derive(Drop)]
pub struct Depository<K: Keeper> {
    openings: Openings,
    log: RecordLog<K, DepRecord>,
    // What the records of the log come to, by look-up.
    stock: Stock,
    alloc: Global,
}

impl<K: Keeper> Model for Depository<K> {
    ghost use Rattle.cns_depository.specs.Node.{DepNode};
    ghost use Rattle.cns_depository.specs.Totals.{IsStockKept};

    ghost Value = { DepNode };

    ghost view = { λ d. record { openings = d.openings; log = d.log } };

    ghost invariant = { λ d. IsStockKept d.stock (record { openings = d.openings; log = d.log }) };
}

impl<K: Keeper> Depository<K> {
    /// Reads the keeper's journal again, and opens a depository that is up, with the records that it
    /// gives. A refused opening hands the keeper back, at `BadJournal` with all payloads that it gave, and
    /// drops the openings.
    ///
    /// Refuses `BadJournal` where a payload is no record that may stand after those before it, beginning
    /// from the openings. Costs a few look-ups for each payload. (This project's own rule.)
    pub fn open(alloc: Global, keeper: K, openings: Openings) -> Result<Depository<K>, Refused<K>>
        ensures ok { IfOk result (IsOpened openings (K.state keeper)) }
        ensures err { IfErr result (λ refused. IsUnread openings refused.fault (map vec_items refused.rejected.items) (K.state keeper) (K.state refused.keeper)) }
    {
        let mut stock = Stock::new(alloc);
        match RecordLog::open(alloc, keeper, &openings, &mut stock) {
            Ok(log) => Ok(Depository {
                openings,
                log,
                stock,
                alloc,
            }),
            Err(refused) => {
                drop(stock);
                drop(openings);
                Err(refused)
            }
        }
    }

    /// Whether the depository is down: from a failure of the device, or a refused restart, until a
    /// restart succeeds.
    pub fn is_down(&self) -> bool
        ensures { result ≡ self.now.log.down }
    {
        self.log.is_down()
    }

    /// The records, the first one first: of the orders that were executed, and of the members' own instructions.
    pub fn records(&self) -> &[DepRecord]
        ensures records { reverse result.now ≡ self.now.log.records }
        ensures lawful { IsLawfulDepot self.now.openings self.now.log.records }
    {
        self.log.records()
    }

    /// The order that was executed under this number, and the shares that it moved. Costs a look-up.
    pub fn executed(&self, number: MoveNo) -> Option<(Order, Shares)>
        ensures { result
            ≡ option_map (λ movement. (movement.order, movement.moved)) (movement_of (executed_of self.now.log.records) number) }
    {
        let Movement { order, moved } = self.known(number)?;
        Some((order, moved))
    }

    /// The shares that an account holds in an issue: its opening, and what was moved into it, less
    /// what was moved out of it. Costs two look-ups. (This project's own rule.)
    pub fn balance(&self, account: Account, issue: Cusip) -> u128
        ensures balance { result ≡ balance_in self.now.openings self.now.log.records account issue }

        // No more was moved out of the account than it had.
        ensures covered { moved_out self.now.log.records account issue
            ≤ opening_shares self.now.openings account issue + moved_in self.now.log.records account issue }
    {
        self.stock.balance(&self.openings, &account, issue)
    }

    /// Each balance that is not 0, by issue, then account: the CNS account first, then the members by
    /// number. Costs two look-ups for each account and issue that has an opening or that a record names,
    /// and what it takes to sort these. (This project's own rule.)
    pub fn balances(&self, alloc: Global) -> Result<BalanceRows, AllocError>
        ensures rows { IfOk result (λ rows. rows ≡ balance_rows_of self.now.openings self.now.log.records) }

        // No balance is left out.
        ensures complete { IfOk result (AreComplete self.now.openings self.now.log.records) }
        ensures ascending { IfOk result AreAscending }
    {
        balance_rows(alloc, &self.openings, &self.stock)
    }

    /// Executes an order once: it moves what the giving account has, at most what is asked, and
    /// possibly nothing. An order that agrees with the one that was executed under its number is
    /// answered with the reply that was kept, and that one stays as it is.
    ///
    /// Refuses `Down`, then `Conflict` where an order that does not agree was executed under the number. After
    /// `Device` nothing is executed, and the depository is down until it is restarted. Costs a few
    /// look-ups, and the commit of its record. (This project's own rule.)
    pub fn take_order(&mut self, order: &Order) -> Result<Answer, DepFault>
        ensures { OrderLeaves (take_order_call order.now self.old.log.down self.old.openings self.old.log.records) result self.old self.new }
    {
        if self.is_down() {
            return Err(DepFault::Down);
        }
        if let Some(known) = self.known(order.number) {
            return again(&known, order);
        }
        let movement = self.stock.movement(&self.openings, order);
        self.execute(&movement)?;
        Ok(Answer::Done(movement.reply()))
    }

    /// A member's own instruction of this number, where it was carried out. Costs a look-up, and takes no
    /// memory.
    pub fn instructed(&self, member: MemberNo, number: MoveNo) -> Option<Instruction>
        ensures { result ≡ instruction_of (instructed_of self.now.log.records) member number }
    {
        self.stock
            .instruction_at(self.log.records(), member, number)
    }

    /// Carries out a member's own instruction once: a deposit brings its shares into the member's account
    /// from outside, a withdrawal takes them out. The same instruction again adds nothing.
    ///
    /// Refuses `Down`; then `Conflict` where another instruction of the member has the number; then
    /// `IssueSum` where with a deposit the openings of the issue and its deposits, less its withdrawals,
    /// would pass 10^18 shares; then `TooFew` where a withdrawal asks for more than the member's balance
    /// in the issue. A refused number is not held. After `Device` nothing is carried out, and the depository
    /// is down until it is restarted. Costs a few look-ups, and the commit of its record. (This project's
    /// own rule.)
    pub fn instruct(&mut self, instruction: &Instruction) -> Result<Own, OwnFault>
        ensures { InstructLeaves (instruct_call instruction.now self.old.log.down self.old.openings self.old.log.records) result self.old self.new }
    {
        if self.is_down() {
            return Err(OwnFault::Down);
        }
        if let Some(held) = self.instructed(instruction.member, instruction.number) {
            return held_before(&held, instruction);
        }
        if let Some(refusal) = self.stock.refusal(&self.openings, instruction) {
            return Err(OwnFault::from(refusal));
        }
        self.commit(DepRecord::Own(*instruction))?;
        Ok(Own::Done)
    }

    /// Reads the journal again, and puts the depository up. A refused restart leaves it down and
    /// changes nothing else, except that it may then no longer be known beforehand whether the record
    /// whose commit failed stands, that at `BadJournal` the payloads that it read are kept (`rejected`), and
    /// that at `Device` its keeper's failures are more. How the next commit ends stays known in any case.
    ///
    /// Refuses `BadJournal` where a payload is no record that may stand after those before it. Costs a few
    /// look-ups for each payload. (This project's own rule.)
    pub fn restart(&mut self) -> Result<Restarted, ReplayFault>
        ensures { RestartLeaves result self.old self.new }
    {
        let mut stock = Stock::new(self.alloc);
        match self.log.restart(&self.openings, &mut stock) {
            Ok(restarted) => {
                self.stock = stock;
                Ok(restarted)
            }
            Err(fault) => {
                drop(stock);
                Err(fault)
            }
        }
    }

    /// The payloads of the last reading that found a bad one, the first one first; none once a restart
    /// succeeds.
    pub fn rejected(&self) -> &[Vec<u8>]
        ensures { map vec_items result.now ≡ self.now.log.rejected }
    {
        self.log.rejected()
    }

    /// Makes the next commit of the keeper fail. Its record stands at the restart, or does not.
    ///
    /// Answers `NotPlanned` exactly where the keeper plans no failures. (This project's own rule.)
    pub fn plan(&mut self, stands: bool) -> Result<(), NotPlanned>
        ensures { NodePlanned stands result self.old self.new }
    {
        self.log.plan(stands)
    }

    /// Gives the keeper up. An honest one has the records just as the node has them, where that is up; where
    /// it is down, a reopening gives these and at most the one whose commit failed.
    pub fn into_keeper(self) -> K
        ensures { IsGivenUp dep_spelling self.log (K.state result) }
    {
        self.log.into_keeper()
    }
}

impl<K: Keeper> Depository<K> {
    // The movement of the order of this number.
    fn known(&self, number: MoveNo) -> Option<Movement>
        ensures { result ≡ movement_of (executed_of self.now.log.records) number }
    {
        self.stock.movement_at(self.log.records(), number)
    }

    // Commits the record of a movement that may be executed next.
    fn execute(&mut self, movement: &Movement) -> Result<(), CommitFault>
        requires up { self.old.log.down ≡ false }
        requires next { IsNextMovement self.old.openings self.old.log.records movement.now }
        ensures { IsCommitted (execution movement.now) result self.old self.new }
    {
        self.commit(movement.to_record())
    }

    // Commits a record that may stand next, and then adds it to the stock.
    fn commit(&mut self, entry: DepRecord) -> Result<(), CommitFault>
        requires up { self.old.log.down ≡ false }
        requires next { IsExecutable self.old.openings self.old.log.records entry }
        ensures { IsCommitted entry result self.old self.new }
    {
        if self.stock.room().is_err() {
            return Err(CommitFault::OutOfMemory);
        }
        let index = self.log.records().len();
        self.log.commit(entry)?;
        self.stock.add(index, &entry);
        Ok(())
    }
}

// The answer to an order under whose number this movement was executed.
fn again(known: &Movement, order: &Order) -> Result<Answer, DepFault>
    ensures { (node : DepNode) → OrderLeaves (known_call order.now known.now) result node node }
{
    if known.order.agrees_with(order) {
        Ok(Answer::Again(known.reply()))
    } else {
        Err(DepFault::Conflict)
    }
}

// The answer to an instruction under whose number its member's instruction was carried out.
fn held_before(held: &Instruction, instruction: &Instruction) -> Result<Own, OwnFault>
    ensures { (node : DepNode) → InstructLeaves (held_call instruction.now held.now) result node node }
{
    if held == instruction {
        Ok(Own::Again)
    } else {
        Err(OwnFault::Conflict)
    }
}
