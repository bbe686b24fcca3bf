ghost use Rattle.std.specs.Prelude.{◌≡◌, ◌↔◌, ◌⊎◌, ◌^◌, ◌≤◌, true, false, [], IfOk, IsTrue};
ghost use Rattle.cns_allocate.specs.Served.{turn_of};
ghost use Rattle.cns_allocate.specs.declared.turns.Turn.TheVariants.{Next};
ghost use Rattle.cns_pool.specs.Pool.{asked_sum};
ghost use Rattle.cns_system.specs.Lot.{numbered_lot, planned_sum, ticket_in, with_end, with_seal, with_ticket};
ghost use Rattle.cns_records.specs.Call.{Changes};
ghost use Rattle.cns_system.specs.Lots.{draw_call, turn_ticket};

use cns_allocate::{Plan, Planned, Turn, Turns};
use cns_ids::{Cusip, MemberNo};
use cns_pool::{PlainPool, Pool, Reserved, Ticket};
use cns_records::Refusal;
use std::alloc::{AllocError, Global};
use std::marker::Model;

/// What a look at a lot shows.
#[derive(Clone, Copy, PartialEq, Eq, Debug)]
pub struct Look {
    /// The shares that were poured.
    pub poured: u64,
    /// The shares of the tickets.
    pub asked: u64,
    /// Whether the lot is sealed.
    pub sealed: bool,
}

// A lot by its number: its pool, of which tickets are drawn, and whose turn it is to draw one. Its plan and its
// shares are with the clearing node's open lot of the issue.
#[derive(Drop)]
pub(crate) struct LotEntry {
    issue: Cusip,
    // The members that have no ticket yet.
    turns: Turns,
    // It has room for the tickets of all of them.
    pool: PlainPool,
    ended: bool,
}

impl Model for LotEntry {
    ghost use Rattle.cns_system.specs.Lot.{LotState};

    ghost Value = { LotState };

    ghost use Rattle.cns_system.specs.Entry.{entry_state, IsEntry};

    ghost view = { entry_state };

    ghost invariant = { λ e. IsEntry e.turns e.pool };
}

impl LotEntry {
    // A lot of a plan with no tickets.
    pub(crate) fn open(alloc: Global, issue: Cusip, plan: &Plan) -> Result<LotEntry, AllocError>
        requires { planned_sum plan.now ≤ 10 ^ 18 }
        ensures { IfOk result (λ entry. entry ≡ numbered_lot issue plan.now) }
    {
        let budget = shares(plan.as_slice());
        Ok(LotEntry {
            issue,
            turns: Turns::of(alloc, plan.as_slice())?,
            pool: PlainPool::open(alloc, budget, 0, plan.len() as u64)?,
            ended: false,
        })
    }

    // Draws a member's ticket, if it is its turn and the lot is not sealed.
    pub(crate) fn reserve(&mut self, member: MemberNo) -> Result<Ticket, Refusal>
        ensures { Changes (draw_call member self.old) result self.old self.new }
    {
        let ticket = self.next_ticket(member)?;
        Ok(self.draw(member, ticket.asked))
    }

    // The ticket that a member would draw, if it is its turn and the lot is not sealed.
    pub(crate) fn next_ticket(&self, member: MemberNo) -> Result<Ticket, Refusal>
        ensures { result ≡ turn_ticket self.now member }
    {
        match self.turns.turn(member) {
            Turn::NotLong => Err(Refusal::NotLong),
            Turn::EarlierGroup => Err(Refusal::EarlierGroup),
            Turn::Next { .. } if self.pool.is_sealed() => Err(Refusal::Sealed),
            Turn::Next { asked } => Ok(Ticket {
                member,
                start: self.pool.asked(),
                asked,
            }),
        }
    }

    // Draws the ticket of a member whose turn it is.
    fn draw(&mut self, member: MemberNo, asked: u64) -> Ticket
        requires turn { turn_of self.old.turns member ≡ Next asked }
        requires unsealed { self.old.sealed ≡ false }
        ensures ticket { result ≡ ticket_in self.old member asked }
        ensures after { self.new ≡ with_ticket result self.old }
    {
        match self.pool.reserve(member, asked) {
            Reserved::Ticket(ticket) => {
                self.turns.serve(member);
                ticket
            }
            Reserved::Sealed => unreachable!(),
        }
    }

    // Seals the lot.
    pub(crate) fn seal(&mut self)
        ensures { self.new ≡ with_seal self.old }
    {
        self.pool.seal();
    }

    // Ends the lot. What it held goes.
    pub(crate) fn end(&mut self, alloc: Global)
        ensures { self.new ≡ with_end self.old }
    {
        self.turns = Turns::new(alloc);
        self.pool = PlainPool::new(alloc);
        self.ended = true;
    }

    // The issue.
    pub(crate) fn issue(&self) -> Cusip
        ensures { result ≡ self.now.issue }
    {
        self.issue
    }

    // The members that wait for a ticket, in the plan's order.
    pub(crate) fn waiting(&self) -> &[Planned]
        ensures { result.now ≡ self.now.turns }
    {
        self.turns.as_slice()
    }

    // The tickets, in the order in which they were drawn.
    pub(crate) fn tickets(&self) -> &[Ticket]
        ensures { result.now ≡ self.now.tickets }
    {
        self.pool.tickets()
    }

    // The shares of the tickets.
    pub(crate) fn asked(&self) -> u64
        ensures { result ≡ asked_sum self.now.tickets }
    {
        self.pool.asked()
    }

    // Whether the lot is sealed.
    pub(crate) fn is_sealed(&self) -> bool
        ensures { result ≡ self.now.sealed }
    {
        self.pool.is_sealed()
    }

    // Whether the lot is sealed, or nobody waits for a ticket.
    pub(crate) fn is_served(&self) -> bool
        ensures { let lot = self.now in
            IsTrue result ↔ ((lot.sealed ≡ true) ⊎ (lot.turns ≡ [])) }
    {
        self.pool.is_sealed() || self.turns.is_empty()
    }

    // Whether the lot has ended.
    pub(crate) fn has_ended(&self) -> bool
        ensures { result ≡ self.now.ended }
    {
        self.ended
    }
}

// How many shares are planned.
pub(crate) fn shares(plan: &[Planned]) -> u64
    requires { planned_sum plan.now ≤ 10 ^ 18 }
    ensures { result ≡ planned_sum plan.now }
{
    plan.iter().map(|planned| planned.asked).sum()
}
