ghost use Rattle.std.specs.Prelude.{◌≡◌};

use crate::ticket::Ticket;
use std::marker::Model;

/// A list of tickets.
///
/// Contracts see the tickets in their order.
#[derive(Debug, Drop)]
pub struct Tickets {
    list: Vec<Ticket>,
}

impl Model for Tickets {
    ghost use Rattle.std.specs.Prelude.{List};
    ghost use Rattle.cns_pool.specs.declared.ticket.Ticket.{Ticket};

    ghost Value = { List Ticket };

    ghost view = { λ t. t.list.items };
}

impl Tickets {
    /// The tickets of this `Vec`. It takes no memory.
    pub fn from_vec(list: Vec<Ticket>) -> Tickets
        ensures { result ≡ list.items }
    {
        Tickets { list }
    }

    /// The tickets in a `Vec`. It takes no memory.
    pub fn into_vec(self) -> Vec<Ticket>
        ensures { result.items ≡ self }
    {
        self.list
    }

    /// The tickets.
    pub fn as_slice(&self) -> &[Ticket]
        ensures { result.now ≡ self.now }
    {
        self.list.as_slice()
    }
}

impl PartialEq for Tickets {
    ghost use Rattle.std.specs.Cmp.Lexicographic.{pointwise, lists_per};
    ghost use Rattle.std.specs.Cmp.Rules.{comparing};
    ghost use Rattle.std.proofs.Common.{rules};

    ghost eq = { pointwise ⟦<Ticket as PartialEq>⟧.eq };

    ghost laws = { lists_per (Prim.search (comparing, rules)) };

    fn eq(&self, other: &Tickets) -> bool {
        self.as_slice() == other.as_slice()
    }
}

impl Eq for Tickets {
    ghost use Rattle.std.specs.Cmp.Lexicographic.{lists_equiv};
    ghost use Rattle.std.specs.Cmp.Rules.{comparing};
    ghost use Rattle.std.proofs.Common.{rules};

    ghost laws = { lists_equiv (Prim.search (comparing, rules)) };
}
