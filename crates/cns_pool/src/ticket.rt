ghost use Rattle.std.specs.Prelude.{◌≡◌, ◌<◌, [], ◌∷◌, ◌++◌, length, vec_capacity};

use cns_ids::MemberNo;

/// The place that a member drew in the order of a pool: `asked` shares from `start` on, of which it is granted
/// those that were poured by the close. (This project's own rule.)
///
/// It is the half-open interval from `start` to `start + asked`. Each ticket that a pool draws has at
/// least one share.
#[derive(Clone, Copy, PartialEq, Eq, Debug)]
pub struct Ticket {
    pub member: MemberNo,
    /// The first of its shares, counted from 0 in the pool.
    pub start: u64,
    /// How many shares it has.
    pub asked: u64,
}

/// The answer to a reserve.
#[derive(Clone, Copy, PartialEq, Eq, Debug)]
pub enum Reserved {
    /// The member drew this ticket.
    Ticket(Ticket),
    /// The pool is sealed, so no ticket was drawn.
    Sealed,
}

// Draws a ticket behind others, for which there is room.
pub(crate) fn draw(tickets: &mut Vec<Ticket>, member: MemberNo, start: u64, asked: u64) -> Reserved
    requires { length tickets.old.items < vec_capacity tickets.old }
    ensures answer { result ≡ Reserved.Ticket (record { member = member; start = start; asked = asked }) }
    ensures items { tickets.new.items
        ≡ tickets.old.items ++ record { member = member; start = start; asked = asked } ∷ [] }
    ensures capacity { vec_capacity tickets.new ≡ vec_capacity tickets.old }
{
    let ticket = &Ticket {
        member,
        start,
        asked,
    };
    tickets.push_reserved(*ticket);
    Reserved::Ticket(*ticket)
}
