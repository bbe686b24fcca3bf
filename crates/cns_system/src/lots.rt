ghost use Rattle.std.specs.Prelude.{◌≡◌, ◌↔◌, ◌⊎◌, ◌-◌, ◌^◌, ◌<◌, ◌≤◌, true, [], ◌∷◌, ◌++◌, length, IfOk, MatchResult, OnErr, OnOk, IsTrue};
ghost use Rattle.cns_pool.specs.Pool.{asked_sum};
ghost use Rattle.cns_system.specs.Lot.{numbered_lot, planned_sum, with_end, with_seal};
ghost use Rattle.cns_records.specs.Call.{Changes};
ghost use Rattle.cns_system.specs.Lots.{HasLot, HasNone, all_ended, change_call, reserve_call, ticket_call};

use crate::entry::LotEntry;
use cns_allocate::{Plan, Planned};
use cns_ids::{Cusip, MemberNo};
use cns_pool::Ticket;
use cns_records::Refusal;
use std::alloc::{AllocError, Global};
use std::marker::Model;

/// The lots by number: 1, 2, 3 and so on, in the order of their opening. No number is given again.
///
/// The members of a lot's plan draw tickets from it, each in its turn, until it is sealed. A number that
/// was given finds its lot until the lot ends. (This project's own rules.)
///
/// Contracts see the lots in the order of their numbers, and beside them for how many more there is room.
#[derive(Drop)]
pub struct LotBook {
    lots: Vec<LotEntry>,
}

impl Model for LotBook {
    ghost use Rattle.std.specs.Prelude.{◌-◌, length, vec_capacity};
    ghost use Rattle.cns_system.specs.Lots.{LotsRoom};

    ghost Value = { LotsRoom };

    ghost view = { λ b. record { lots = b.lots.items; room = vec_capacity b.lots - length b.lots.items } };
}

impl LotBook {
    /// No lots. It takes no memory.
    pub fn new(alloc: Global) -> LotBook
        ensures { result.lots ≡ [] }
    {
        LotBook {
            lots: Vec::new(alloc),
        }
    }

    /// How many lots were opened, which is the highest number that was given.
    pub fn len(&self) -> u64
        ensures { result ≡ length self.now.lots }
    {
        self.lots.len() as u64
    }

    /// Whether no lot was opened.
    pub fn is_empty(&self) -> bool
        ensures { IsTrue result ↔ (self.now.lots ≡ []) }
    {
        self.lots.is_empty()
    }

    /// Opens a lot of an issue, of which each member of a plan may draw a ticket in its turn, and gives its
    /// number. It has no tickets, and is not sealed.
    ///
    /// The plan may ask for at most 10^18 shares in all.
    pub fn open(&mut self, issue: Cusip, plan: &Plan) -> Result<u64, AllocError>
        requires { planned_sum plan.now ≤ 10 ^ 18 }
        ensures ok { OnOk result (self.new.lots ≡ self.old.lots ++ numbered_lot issue plan.now ∷ []) }
        ensures number { IfOk result (λ number. number ≡ length self.new.lots) }
        ensures err { OnErr result (self.new.lots ≡ self.old.lots) }
    {
        let lot = self.prepare(issue, plan)?;
        Ok(self.add(lot))
    }

    // Makes a lot as it is opened, and room for it.
    pub(crate) fn prepare(&mut self, issue: Cusip, plan: &Plan) -> Result<LotEntry, AllocError>
        requires { planned_sum plan.now ≤ 10 ^ 18 }
        ensures lot { IfOk result (λ lot. lot ≡ numbered_lot issue plan.now) }
        ensures room { OnOk result (0 < self.new.room) }
        ensures same { self.new.lots ≡ self.old.lots }
    {
        self.lots.reserve(1)?;
        LotEntry::open(*self.lots.allocator(), issue, plan)
    }

    // Adds a lot, for which there is room, and gives its number. It takes no memory.
    pub(crate) fn add(&mut self, lot: LotEntry) -> u64
        requires { 0 < self.old.room }
        ensures lots { self.new.lots ≡ self.old.lots ++ lot ∷ [] }
        ensures number { result ≡ length self.new.lots }
    {
        self.lots.push_reserved(lot);
        self.len()
    }

    /// Draws a member's ticket, of all the shares that are planned for it, which starts where the
    /// last one of the lot ends. It takes no memory.
    ///
    /// It is refused where the number has no lot, the lot has ended, the member is not planned or has
    /// its ticket, a planned member of an earlier group has no ticket yet, or the lot is sealed, and
    /// told the first of these that applies. A refusal changes nothing.
    pub fn reserve(&mut self, number: u64, member: MemberNo) -> Result<Ticket, Refusal>
        ensures { Changes (reserve_call number member self.old.lots) result self.old.lots self.new.lots }
    {
        let index = self.place(number)?;
        let lot = &mut self.lots[index];
        lot.reserve(member)
    }

    // What `reserve` of a member would answer.
    pub(crate) fn next_ticket(&self, number: u64, member: MemberNo) -> Result<Ticket, Refusal>
        ensures { result ≡ ticket_call number member self.now.lots }
    {
        self.find(number)?.next_ticket(member)
    }

    /// Seals a lot: no ticket is drawn from it from now on. A sealed lot stays as it is.
    pub fn seal(&mut self, number: u64) -> Result<(), Refusal>
        ensures { Changes (change_call with_seal number self.old.lots) result self.old.lots self.new.lots }
    {
        let index = self.place(number)?;
        let lot = &mut self.lots[index];
        lot.seal();
        Ok(())
    }

    /// Ends a lot. What it held goes.
    pub fn end(&mut self, number: u64) -> Result<(), Refusal>
        ensures { Changes (change_call with_end number self.old.lots) result self.old.lots self.new.lots }
    {
        let index = self.place(number)?;
        let alloc = self.allocator();
        let lot = &mut self.lots[index];
        lot.end(alloc);
        Ok(())
    }

    /// Ends each lot.
    pub fn end_all(&mut self)
        ensures { self.new.lots ≡ all_ended self.old.lots }
    {
        let alloc = self.allocator();
        end_each(alloc, &mut self.lots);
    }

    /// The issue of a lot.
    pub fn issue(&self, number: u64) -> Result<Cusip, Refusal>
        ensures { MatchResult result (λ issue. HasLot self.now.lots number (λ lot. issue ≡ lot.issue)) (HasNone self.now.lots number) }
    {
        Ok(self.find(number)?.issue())
    }

    /// The members that wait for a ticket of a lot, in the order of its plan.
    pub fn waiting(&self, number: u64) -> Result<&[Planned], Refusal>
        ensures { MatchResult result (λ members. HasLot self.now.lots number (λ lot. members.now ≡ lot.turns)) (HasNone self.now.lots number) }
    {
        Ok(self.find(number)?.waiting())
    }

    /// The tickets of a lot, in the order in which they were drawn.
    pub fn tickets(&self, number: u64) -> Result<&[Ticket], Refusal>
        ensures { MatchResult result (λ tickets. HasLot self.now.lots number (λ lot. tickets.now ≡ lot.tickets)) (HasNone self.now.lots number) }
    {
        Ok(self.find(number)?.tickets())
    }

    /// The shares of a lot's tickets.
    pub fn asked(&self, number: u64) -> Result<u64, Refusal>
        ensures { MatchResult result (λ asked. HasLot self.now.lots number (λ lot. asked ≡ asked_sum lot.tickets)) (HasNone self.now.lots number) }
    {
        Ok(self.find(number)?.asked())
    }

    /// Whether a lot is sealed.
    pub fn is_sealed(&self, number: u64) -> Result<bool, Refusal>
        ensures { MatchResult result (λ sealed. HasLot self.now.lots number (λ lot. sealed ≡ lot.sealed)) (HasNone self.now.lots number) }
    {
        Ok(self.find(number)?.is_sealed())
    }

    /// Whether a lot is sealed, or nobody waits for a ticket of it.
    pub fn is_served(&self, number: u64) -> Result<bool, Refusal>
        ensures { MatchResult result (λ served. HasLot self.now.lots number (λ lot. IsTrue served
            ↔ ((lot.sealed ≡ true) ⊎ (lot.turns ≡ [])))) (HasNone self.now.lots number) }
    {
        Ok(self.find(number)?.is_served())
    }

    // The lot of a number.
    pub(crate) fn find(&self, number: u64) -> Result<&LotEntry, Refusal>
        ensures { MatchResult result (λ entry. HasLot self.now.lots number (λ lot. entry.now ≡ lot)) (HasNone self.now.lots number) }
    {
        let index = self.place(number)?;
        Ok(&self.lots[index])
    }

    // Where the book takes its memory.
    pub(crate) fn allocator(&self) -> Global {
        *self.lots.allocator()
    }

    // The place of the lot of a number.
    fn place(&self, number: u64) -> Result<usize, Refusal>
        ensures gives { MatchResult result (λ index. HasLot self.now.lots number (λ lot. index ≡ number - 1)) (HasNone self.now.lots number) }
        ensures within { IfOk result (λ index. index < length self.now.lots) }
    {
        let lots = &self.lots;
        if number == 0 || number > lots.len() as u64 {
            return Err(Refusal::NoLot);
        }
        let index = (number - 1) as usize;
        if lots[index].has_ended() {
            return Err(Refusal::StaleLot);
        }
        Ok(index)
    }
}

// Ends each of these lots.
fn end_each(alloc: Global, lots: &mut Vec<LotEntry>)
    ensures { lots.new.items ≡ all_ended lots.old.items }
{
    for index in 0..lots.len() {
        let one = &mut lots[index];
        one.end(alloc);
    }
}
