ghost use Rattle.std.specs.Prelude.{◌≡◌, map, min, sum, IfOk};
ghost use Rattle.cns_pool.specs.Tiles.{Tiles};
ghost use Rattle.cns_pool.specs.Pool.{asked_sum, intervals_of};
ghost use Rattle.cns_allocate.specs.Grants.{grant_of};

use cns_pool::Ticket;
use std::alloc::{AllocError, Global};

/// What tickets are granted where this many shares were poured into their pool: each the shares of its
/// interval that lie below `poured`, in the order of the tickets. (This project's own rule.)
///
/// Tickets that stand end to end from 0, in whatever order they are given, are together granted all that
/// was poured, up to all that was asked.
pub fn grants(alloc: Global, tickets: &[Ticket], poured: u64) -> Result<Vec<u64>, AllocError>
    ensures exact { IfOk result (λ grants. grants.items ≡ map (grant_of poured) tickets.now) }
    ensures sum { IfOk result (λ grants. Tiles (intervals_of tickets.now)
        → sum grants.items ≡ min poured (asked_sum tickets.now)) }
{
    tickets
        .iter()
        .map(|ticket| grant(ticket, poured))
        .collect(alloc)
}

// The shares of a ticket that lie below what was poured.
pub(crate) fn grant(ticket: &Ticket, poured: u64) -> u64
    ensures { result ≡ grant_of poured ticket.now }
{
    ticket.asked.min(poured.saturating_sub(ticket.start))
}
