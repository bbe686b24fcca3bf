ghost use Rattle.std.specs.Prelude.{◌≡◌, ◌↔◌, ◌≤◌, [], Some, None, nat_le, length, IsTrue, if◌then◌else◌};
ghost use Rattle.std.specs.List.{All};
ghost use Rattle.cns_records.specs.Drawn.{IsTicketInRange, AreTicketsInRange};

use cns_ids::{MemberNo, Shares};
use cns_movements::Asked;
use std::marker::Model;

/// The most tickets of one allocation. (This project's own limit.)
pub const MAX_DRAWN: usize = 9_999;

/// A ticket as a record holds it: a member's interval of a lot's shares, from `start` on and `asked`
/// of them. (This project's own rule.)
#[derive(Clone, Copy, PartialEq, Eq, Debug)]
pub struct Drawn {
    pub member: MemberNo,
    /// The first of its shares, counted from 0 in the lot.
    pub start: Shares,
    /// How many shares it has.
    pub asked: Asked,
}

/// The tickets of an allocation, at most 9,999 of them.
///
/// Contracts see the tickets in their order.
#[derive(Debug, Drop)]
pub struct DrawnList {
    tickets: Vec<Drawn>,
}

impl Model for DrawnList {
    ghost use Rattle.std.specs.Prelude.{List};
    ghost use Rattle.cns_records.specs.Drawn.{AreTicketsInRange};
    ghost use Rattle.cns_records.specs.declared.drawn.Drawn.{Drawn};

    ghost Value = { List Drawn };

    ghost view = { λ d. d.tickets.items };

    ghost invariant = { λ d. AreTicketsInRange d.tickets.items };
}

// Whether the ticket's fields are in the ranges of their types, as they are.
fn is_in_range(ticket: &Drawn) -> bool
    ensures holds { IsTrue result }
    ensures ranges { IsTicketInRange ticket.now }
{
    let member = ticket.member.number();
    let start = ticket.start.count();
    let asked = ticket.asked.shares();
    member >= 1 && member <= 9_999 && start <= Shares::MAX && asked >= 1 && asked <= Shares::MAX
}

// The same of each ticket.
fn are_in_range(tickets: &[Drawn]) -> bool
    ensures holds { IsTrue result }
    ensures ranges { All IsTicketInRange tickets.now }
{
    for ticket in tickets {
        if !is_in_range(ticket) {
            return false;
        }
    }
    true
}

impl DrawnList {
    // The tickets of this `Vec`, which are in the ranges of their types.
    pub(crate) fn new(tickets: Vec<Drawn>) -> DrawnList
        requires { length tickets.items ≤ 9999 }
        ensures { result ≡ tickets.items }
    {
        prove!(are_in_range(tickets.as_slice()));
        DrawnList { tickets }
    }

    /// The tickets of this `Vec`; none where there are more than 9,999. It takes no memory.
    pub fn from_vec(tickets: Vec<Drawn>) -> Option<DrawnList>
        ensures { result ≡ (if nat_le (length tickets.items) 9999 then Some tickets.items else None) }
    {
        if tickets.len() > MAX_DRAWN {
            return None;
        }
        Some(DrawnList::new(tickets))
    }

    /// The tickets.
    pub fn as_slice(&self) -> &[Drawn]
        ensures list { result.now ≡ self.now }
        ensures ranges { AreTicketsInRange self.now }
    {
        self.tickets.as_slice()
    }

    /// How many tickets there are.
    pub fn len(&self) -> usize
        ensures len { result ≡ length self.now }
        ensures few { length self.now ≤ 9999 }
    {
        self.tickets.len()
    }

    /// Whether there are no tickets.
    pub fn is_empty(&self) -> bool
        ensures { IsTrue result ↔ (self.now ≡ []) }
    {
        self.tickets.is_empty()
    }
}

impl PartialEq for DrawnList {
    ghost use Rattle.std.specs.Cmp.Lexicographic.{pointwise, lists_per};
    ghost use Rattle.std.specs.Cmp.Rules.{comparing};
    ghost use Rattle.std.proofs.Common.{rules};

    ghost eq = { pointwise ⟦<Drawn as PartialEq>⟧.eq };

    ghost laws = { lists_per (Prim.search (comparing, rules)) };

    fn eq(&self, other: &DrawnList) -> bool {
        self.as_slice() == other.as_slice()
    }
}

impl Eq for DrawnList {
    ghost use Rattle.std.specs.Cmp.Lexicographic.{lists_equiv};
    ghost use Rattle.std.specs.Cmp.Rules.{comparing};
    ghost use Rattle.std.proofs.Common.{rules};

    ghost laws = { lists_equiv (Prim.search (comparing, rules)) };
}
