ghost use Rattle.std.specs.Prelude.{◌≡◌, IsPermutation};
ghost use Rattle.std.specs.List.Sorted.{IsNonDecreasingBy};
ghost use Rattle.cns_pool.specs.Tiles.{AreChained, Tiles};
ghost use Rattle.cns_pool.specs.Pool.{HaveShares, intervals_of};
ghost use Rattle.cns_pool.specs.declared.ticket.Ticket.{Ticket};

use cns_pool::Tickets;

/// The same tickets by their starts, the lowest first. It takes no memory. (This project's own rule.)
///
/// A pool that is closed gives its tickets in any order; by start they stand end to end from 0.
pub fn by_start(tickets: Tickets) -> Tickets
    ensures permutation { IsPermutation tickets result }
    ensures sorted { IsNonDecreasingBy (λ (ticket : Ticket). ticket.start) result }
    ensures chained { Tiles (intervals_of tickets) → HaveShares tickets
        → AreChained 0 (intervals_of result) }
{
    let mut list = tickets.into_vec();
    list.sort_unstable_by_key(|ticket| ticket.start);
    Tickets::from_vec(list)
}
