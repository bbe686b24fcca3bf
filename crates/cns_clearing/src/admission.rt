ghost use Rattle.std.specs.Prelude.{◌≡◌, ◌↔◌, ◌≤◌, ℕ, All, IfOk, IsTrue};
ghost use Rattle.cns_covers.specs.Bounds.{want_in};
ghost use Rattle.cns_pool.specs.declared.ticket.Ticket.{Ticket};
ghost use Rattle.cns_clearing.specs.Books.{AllocatedBy, AreSound, pool_tickets};
ghost use Rattle.cns_clearing.specs.Closing.{MayFollow, is_apart, is_chained};

use crate::books::Books;
use crate::effects::Effects;
use cns_allocate::deliveries;
use cns_ids::Cusip;
use cns_pool::Ticket;
use cns_records::{Allocation, Drawn};
use std::alloc::{AllocError, Global};

// The numbers of members are below this.
const MEMBERS: usize = 10_000;

// What an allocation makes besides itself, where it may follow the records of the books.
pub(crate) fn may_allocate(
    alloc: Global,
    books: &Books,
    allocation: &Allocation,
) -> Result<Option<Effects>, AllocError>
    requires { AreSound books.now.books }
    ensures { IfOk result (AllocatedBy books.now.books allocation.now) }
{
    let list = tickets(alloc, allocation.drawn.as_slice())?;
    let tickets = list.as_slice();
    if !may_follow(books, allocation, tickets) {
        return Ok(None);
    }
    let poured = allocation.poured.count();
    let asks = deliveries(alloc, allocation.issue, tickets, poured)?;
    if books.are_spent(asks.len()) {
        return Ok(None);
    }
    Ok(Some(Effects::of_asks(alloc, asks)))
}

// Whether an allocation with these tickets may follow the records of the books, but for the numbers
// of its deliveries.
fn may_follow(books: &Books, allocation: &Allocation, tickets: &[Ticket]) -> bool
    ensures { IsTrue result ↔ MayFollow books.now.books allocation.now tickets.now }
{
    allocation.opened <= allocation.upto
        && are_chained(tickets)
        && are_apart(tickets)
        && are_wanted(books, allocation.issue, tickets)
        && u128::from(allocation.poured.count()) <= books.avail(allocation.issue)
}

// The tickets of a record as those of a pool.
fn tickets(alloc: Global, drawn: &[Drawn]) -> Result<Vec<Ticket>, AllocError>
    ensures { IfOk result (λ tickets. tickets.items ≡ pool_tickets drawn.now) }
{
    drawn.iter().map(ticket).collect(alloc)
}

// A ticket of a record as that of a pool.
fn ticket(drawn: &Drawn) -> Ticket
    ensures { result ≡ record { member = drawn.now.member; start = drawn.now.start; asked = drawn.now.asked } }
{
    Ticket {
        member: drawn.member,
        start: drawn.start.count(),
        asked: drawn.asked.shares(),
    }
}

// Whether the tickets stand end to end from 0.
fn are_chained(tickets: &[Ticket]) -> bool
    ensures { result ≡ is_chained 0 tickets.now }
{
    let mut end: u128 = 0;
    for ticket in tickets {
        if u128::from(ticket.start) != end {
            return false;
        }
        end += u128::from(ticket.asked);
    }
    true
}

// Whether the tickets are of different members.
fn are_apart(tickets: &[Ticket]) -> bool
    ensures { result ≡ is_apart tickets.now }
{
    let mut seen = [false; MEMBERS];
    for ticket in tickets {
        let member = usize::from(ticket.member.number());
        if seen[member] {
            return false;
        }
        seen[member] = true;
    }
    true
}

// Whether no ticket asks for more than its member is long of, less its open deliveries.
fn are_wanted(books: &Books, issue: Cusip, tickets: &[Ticket]) -> bool
    ensures { let b = books.now.books in
        IsTrue result ↔ All (λ (t : Ticket). t.asked ≤ want_in b.history b.orders t.member issue) tickets.now }
{
    tickets.iter().all(|ticket| u128::from(ticket.asked) <= books.want(ticket.member, issue))
}
