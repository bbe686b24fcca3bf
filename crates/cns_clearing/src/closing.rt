ghost use Rattle.std.specs.Prelude.{◌≡◌, ◌≤◌, IfOk, map};
ghost use Rattle.cns_pool.specs.Pool.{asked_sum};
ghost use Rattle.cns_pool.specs.declared.ticket.Ticket.{Ticket};
ghost use Rattle.cns_records.specs.declared.drawn.Drawn.{Drawn};
ghost use Rattle.cns_clearing.specs.Answers.{closing_allocation as allocation_in, recorded_ticket};
ghost use Rattle.cns_clearing.specs.Closing.{AreRecordable, IsRecordable};

use crate::lot::Lot;
use cns_ids::Shares;
use cns_movements::Asked;
use cns_pool::Ticket;
use cns_records::{Allocation, Drawn, DrawnList};
use std::alloc::{AllocError, Global};

// The allocation that closes a lot with these tickets.
pub(crate) fn allocation_of(
    alloc: Global,
    lot: &Lot,
    tickets: &[Ticket],
    sealed: bool,
) -> Result<Allocation, AllocError>
    requires { AreRecordable tickets.now }
    ensures { IfOk result (λ a. a ≡ allocation_in lot.now tickets.now sealed) }
{
    let drawn = drawn_list(alloc, tickets)?;
    Ok(Allocation {
        issue: lot.issue,
        opened: lot.opened,
        upto: lot.upto,
        poured: lot.poured,
        sealed,
        drawn,
    })
}

// The tickets as those of a record.
fn drawn_list(alloc: Global, tickets: &[Ticket]) -> Result<DrawnList, AllocError>
    requires { AreRecordable tickets.now }
    ensures { IfOk result (λ drawn. drawn ≡ map recorded_ticket tickets.now) }
{
    let mut list = Vec::with_capacity(alloc, tickets.len())?;
    for ticket in tickets {
        list.push(drawn(ticket))?;
    }
    let Some(drawn) = DrawnList::from_vec(list) else {
        unreachable!()
    };
    Ok(drawn)
}

// A ticket as that of a record.
fn drawn(ticket: &Ticket) -> Drawn
    requires { IsRecordable ticket.now }
    ensures { result ≡ recorded_ticket ticket.now }
{
    let Some(start) = Shares::new(ticket.start) else {
        unreachable!()
    };
    let Some(asked) = Asked::new(ticket.asked) else {
        unreachable!()
    };
    Drawn {
        member: ticket.member,
        start,
        asked,
    }
}

// How many shares tickets have in all.
pub(crate) fn asked_in_all(tickets: &[Ticket]) -> u64
    requires { asked_sum tickets.now ≤ 1000000000000000000 }
    ensures { result ≡ asked_sum tickets.now }
{
    tickets.iter().map(|ticket| ticket.asked).sum()
}
