ghost use Rattle.std.specs.Prelude.{◌≡◌, ℕ, ◌^◌, ◌<◌, ◌≤◌, ◌↔◌, IsTrue, List, [], ◌∷◌, Some, OnOk, reverse, length, if◌then◌else◌};
ghost use Rattle.std.specs.HashMap.{get, spare};
ghost use Rattle.cns_records.specs.declared.dep_record.DepRecord.{DepRecord};
ghost use Rattle.cns_trades.specs.declared.opening.Opening.{Opening};
ghost use Rattle.cns_depository.specs.Openings.{opening_shares};
ghost use Rattle.cns_depository.specs.Stock.{balance_of as balance_in, executed_of, held_in, instructed_of, instruction_of, movement as movement_after, movement_of, own_refusal, IsExecutable, IsNextInstruction, IsNextMovement};
ghost use Rattle.cns_depository.specs.Totals.{HasStockRoom, IsStock, IsStockOf, key_eq, key_of as key_of_record, record_of};
ghost use Rattle.cns_depository.specs.declared.key.Key.{Key};

use crate::account::{Account, Side, giver_of};
use crate::fault::OwnRefusal;
use crate::key::{Key, key_of};
use crate::moved::{Moved, add_transfer, moved_of};
use crate::movement::{Movement, executed_in, instructed_in};
use crate::openings::Openings;
use crate::place::Place;
use cns_ids::{Cusip, MemberNo, Shares};
use cns_movements::{MoveNo, Order};
use cns_records::{DepRecord, Instruction, Sort};
use std::alloc::{AllocError, Global};
use std::collections::HashMap;

/// What the records of a depository come to beside themselves, by look-up.
#[derive(Drop)]
pub(crate) struct Stock {
    // What was brought to each account in each issue, and taken from it; and what came from outside in each
    // issue, and went there.
    moved: HashMap<Place, Moved>,
    // The index of the record of each key, among the records, the first one first.
    indices: HashMap<Key, usize>,
}

// Notes the index of a record under its key, for which there is room.
fn note(indices: &mut HashMap<Key, usize>, entry: &DepRecord, index: usize)
    requires { 0 < spare indices.old }
    ensures { (k : Key) → get key_eq indices.new k ≡ (if key_eq (key_of_record entry.now) k then Some index else get key_eq indices.old k) }
{
    let Ok(_) = indices.insert(key_of(entry), index) else {
        unreachable!()
    };
}

impl Stock {
    /// What no records come to. It takes no memory.
    pub(crate) fn new(alloc: Global) -> Stock
        ensures { IsStockOf result [] }
    {
        Stock {
            moved: HashMap::new(alloc),
            indices: HashMap::new(alloc),
        }
    }

    // The record of a key, among those that the stock comes from.
    fn record_at(&self, records: &[DepRecord], key: &Key) -> Option<DepRecord>
        requires { IsStockOf self.now (reverse records.now) }
        ensures { result ≡ record_of (reverse records.now) key.now }
    {
        let index = self.indices.get(key)?;
        records.get(*index).copied()
    }

    /// The movement of this number, among those of the records that the stock comes from.
    pub(crate) fn movement_at(&self, records: &[DepRecord], number: MoveNo) -> Option<Movement>
        requires { IsStockOf self.now (reverse records.now) }
        ensures { result ≡ movement_of (executed_of (reverse records.now)) number }
    {
        let record = self.record_at(records, &Key::Movement(number))?;
        executed_in(&record)
    }

    /// A member's instruction of this number, among those of the records that the stock comes from.
    pub(crate) fn instruction_at(
        &self,
        records: &[DepRecord],
        member: MemberNo,
        number: MoveNo,
    ) -> Option<Instruction>
        requires { IsStockOf self.now (reverse records.now) }
        ensures { result ≡ instruction_of (instructed_of (reverse records.now)) member number }
    {
        let record = self.record_at(records, &Key::Own(member, number))?;
        instructed_in(&record)
    }

    /// The balance of an account in an issue.
    pub(crate) fn balance(&self, openings: &Openings, account: &Account, issue: Cusip) -> u128
        ensures { (p : List DepRecord) → IsStockOf self.now p → result ≡ balance_in openings.now p account.now issue }
    {
        let opened = openings.shares(account, issue);
        self.balance_from(opened, account, issue)
    }

    /// The balance of an account in an issue in which it opened with so many shares.
    pub(crate) fn balance_from(&self, opened: u128, account: &Account, issue: Cusip) -> u128
        ensures { (openings : List Opening) (p : List DepRecord) → IsStockOf self.now p
            → opened ≡ opening_shares openings account.now issue → opened ≤ 10 ^ 18 → result ≡ balance_in openings p account.now issue }
    {
        let side = Side::At(*account);
        let moved = moved_of(&self.moved, &Place { issue, side });
        moved.balance(opened)
    }

    // The shares of an issue that all accounts hold.
    fn held(&self, openings: &Openings, issue: Cusip) -> u128
        ensures { (p : List DepRecord) → IsStockOf self.now p → result ≡ held_in openings.now p issue }
    {
        let side = Side::Outside;
        let moved = moved_of(&self.moved, &Place { issue, side });
        let brought = openings.sum(issue).saturating_add(moved.left);
        brought.saturating_sub(moved.entered)
    }

    /// Why a new instruction is refused, where it is.
    pub(crate) fn refusal(
        &self,
        openings: &Openings,
        instruction: &Instruction,
    ) -> Option<OwnRefusal>
        ensures { (p : List DepRecord) → IsStockOf self.now p → result ≡ own_refusal openings.now p instruction.now }
    {
        let shares = u128::from(instruction.shares.shares());
        match instruction.sort {
            Sort::Deposit => {
                let held = self.held(openings, instruction.issue);
                let passes = held.saturating_add(shares) > u128::from(Shares::MAX);
                passes.then_some(OwnRefusal::IssueSum)
            }
            Sort::Withdraw => {
                let account = Account::Member(instruction.member);
                let has = self.balance(openings, &account, instruction.issue);
                (has < shares).then_some(OwnRefusal::TooFew)
            }
        }
    }

    /// The movement of a new order.
    pub(crate) fn movement(&self, openings: &Openings, order: &Order) -> Movement
        ensures { (p : List DepRecord) → IsStockOf self.now p → result ≡ movement_after openings.now p order.now }
    {
        let asked = order.asked.shares();
        let held = self.balance(openings, &giver_of(order), order.issue);
        let moved = u128::from(asked).min(held) as u64;
        let Some(moved) = Shares::new(moved) else {
            unreachable!()
        };
        Movement {
            order: *order,
            moved,
        }
    }

    // Whether a movement may be executed after those of the records that the stock comes from.
    fn is_next(&self, openings: &Openings, records: &[DepRecord], movement: &Movement) -> bool
        requires { IsStockOf self.now (reverse records.now) }
        ensures { IsTrue result ↔ IsNextMovement openings.now (reverse records.now) movement.now }
    {
        let order = &movement.order;
        self.movement_at(records, order.number).is_none()
            && *movement == self.movement(openings, order)
    }

    // Whether an instruction may be carried out after the records that the stock comes from.
    fn may_be_next(
        &self,
        openings: &Openings,
        records: &[DepRecord],
        instruction: &Instruction,
    ) -> bool
        requires { IsStockOf self.now (reverse records.now) }
        ensures { IsTrue result ↔ IsNextInstruction openings.now (reverse records.now) instruction.now }
    {
        self.instruction_at(records, instruction.member, instruction.number)
            .is_none()
            && self.refusal(openings, instruction).is_none()
    }

    /// Whether a record may stand after those that the stock comes from.
    pub(crate) fn is_executable(
        &self,
        openings: &Openings,
        records: &[DepRecord],
        entry: &DepRecord,
    ) -> bool
        requires { IsStockOf self.now (reverse records.now) }
        ensures { IsTrue result ↔ IsExecutable openings.now (reverse records.now) entry.now }
    {
        match entry {
            DepRecord::Exec { order, moved } => {
                let movement = Movement {
                    order: *order,
                    moved: *moved,
                };
                self.is_next(openings, records, &movement)
            }
            DepRecord::Own(instruction) => self.may_be_next(openings, records, instruction),
        }
    }

    /// Takes the memory that `add` of a record needs.
    pub(crate) fn room(&mut self) -> Result<(), AllocError>
        ensures same { (p : List DepRecord) → IsStockOf self.old p → IsStockOf self.new p }
        ensures room { OnOk result (HasStockRoom self.new) }
    {
        self.moved.reserve(2)?;
        self.indices.reserve(1)
    }

    /// Adds what a record transfers, and notes its index. It takes no memory.
    pub(crate) fn add(&mut self, index: usize, entry: &DepRecord)
        requires room { HasStockRoom self.old }
        requires stock { IsStock self.old }
        ensures { (p : List DepRecord) → IsStockOf self.old p → length p ≡ index
            → IsStockOf self.new (entry.now ∷ p) }
    {
        add_transfer(&mut self.moved, entry);
        note(&mut self.indices, entry, index);
    }

    /// What was moved into each place to or from which something was moved, and out of it.
    pub(crate) fn moved(&self) -> &HashMap<Place, Moved>
        ensures { result.now ≡ self.now.moved }
    {
        &self.moved
    }
}
