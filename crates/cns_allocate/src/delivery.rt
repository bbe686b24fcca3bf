ghost use Rattle.std.specs.Prelude.{◌≡◌, ◌^◌, ◌≤◌, ℕ, length, min, sum_by, IfOk};
ghost use Rattle.cns_pool.specs.Tiles.{Tiles};
ghost use Rattle.cns_pool.specs.Pool.{asked_sum, intervals_of};
ghost use Rattle.cns_movements.specs.Order.{ask_for};
ghost use Rattle.cns_movements.specs.declared.order.Ask.{Ask};
ghost use Rattle.cns_allocate.specs.Grants.{grant_of};
ghost use Rattle.cns_allocate.specs.Deliveries.{deliveries_of};

use crate::grant::grant;
use cns_ids::Cusip;
use cns_movements::{Ask, Asked, MoveKind};
use cns_pool::Ticket;
use std::alloc::{AllocError, Global};

/// The deliveries that tickets are granted where this many shares were poured into their pool, in
/// the order of the tickets; a ticket that is granted no share has none. (This project's own rule.)
///
/// Of tickets that stand end to end from 0, in whatever order they are given, the deliveries are
/// together of all the shares that were poured, up to all that were asked.
pub fn deliveries(
    alloc: Global,
    issue: Cusip,
    tickets: &[Ticket],
    poured: u64,
) -> Result<Vec<Ask>, AllocError>
    requires { poured ≤ 10 ^ 18 }
    ensures exact { IfOk result (λ asks. asks.items ≡ deliveries_of issue poured tickets.now) }
    ensures sum { IfOk result (λ asks. Tiles (intervals_of tickets.now)
        → sum_by (λ (a : Ask). a.asked) asks.items ≡ min poured (asked_sum tickets.now)) }
{
    tickets
        .iter()
        .filter_map(|ticket| delivery_of(issue, ticket, poured))
        .collect(alloc)
}

/// How many deliveries tickets are granted where this many shares were poured into their pool: one for
/// each ticket that is granted a share. It takes no memory. (This project's own rule.)
pub fn delivery_count(tickets: &[Ticket], poured: u64) -> usize
    ensures { (issue : ℕ) → result ≡ length (deliveries_of issue poured tickets.now) }
{
    tickets
        .iter()
        .filter(|ticket| grant(ticket, poured) != 0)
        .count()
}

// The delivery of a ticket, where it is granted a share.
fn delivery_of(issue: Cusip, ticket: &Ticket, poured: u64) -> Option<Ask>
    requires { poured ≤ 10 ^ 18 }
    ensures { result ≡ ask_for MoveKind.Delivery ticket.now.member issue (grant_of poured ticket.now) }
{
    let asked = Asked::new(grant(ticket, poured))?;
    Some(Ask {
        kind: MoveKind::Delivery,
        member: ticket.member,
        issue,
        asked,
    })
}
