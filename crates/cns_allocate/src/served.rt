ghost use Rattle.std.specs.Prelude.{◌≡◌, ◌↔◌, IsTrue};
ghost use Rattle.cns_allocate.specs.Plan.{IsPlan};
ghost use Rattle.cns_allocate.specs.Served.{IsServed, turn_of};
ghost use Rattle.cns_allocate.specs.declared.turns.Turn.TheVariants.{Next};

use crate::planned::Planned;
use crate::turns::Turn;
use crate::waiting::{MEMBERS, Waiting};
use cns_pool::Ticket;

/// Whether a lot may close with these tickets, in the order in which they were drawn. (This project's
/// own rule.)
///
/// They stand end to end from 0. Each is of a planned member that has no other one, and of all the
/// shares that are planned for it, and is drawn only after each planned member of the earlier groups
/// drew one. Where the lot is not sealed, each planned member has one. It takes no memory.
pub fn are_served(plan: &[Planned], tickets: &[Ticket], sealed: bool) -> bool
    requires plan { IsPlan plan.now }
    ensures { IsTrue result ↔ IsServed plan.now tickets.now sealed }
{
    let mut places = [0; MEMBERS];
    let mut waiting = Waiting::of(plan, &mut places);
    let mut start: u128 = 0;
    for ticket in tickets {
        if !is_in_turn(&waiting, start, ticket) {
            return false;
        }
        waiting.serve(ticket.member);
        start += u128::from(ticket.asked);
    }
    sealed || waiting.is_empty()
}

// Whether a ticket starts at `start`, and is drawn by a member whose turn it is, of all the shares
// that are planned for it.
fn is_in_turn(waiting: &Waiting, start: u128, ticket: &Ticket) -> bool
    ensures { IsTrue result ↔ (ticket.now.start ≡ start) × (turn_of waiting.now ticket.now.member ≡ Next ticket.now.asked) }
{
    let next = Turn::Next {
        asked: ticket.asked,
    };
    u128::from(ticket.start) == start && waiting.turn(ticket.member) == next
}
