ghost use Rattle.std.specs.Prelude.{◌≡◌};

use cns_movements::Order;
use std::marker::Model;

/// Orders that a call gave, in the order of their numbers.
///
/// Contracts see the list of the orders.
#[derive(Debug, Drop)]
pub struct Orders {
    list: Vec<Order>,
}

impl Model for Orders {
    ghost use Rattle.std.specs.Prelude.{List};
    ghost use Rattle.cns_movements.specs.declared.order.Order.{Order};

    ghost Value = { List Order };

    ghost view = { λ o. o.list.items };
}

impl Orders {
    // These orders.
    pub(crate) fn of(list: Vec<Order>) -> Orders
        ensures { result ≡ list.items }
    {
        Orders { list }
    }

    /// The orders, in the order of their numbers.
    pub fn as_slice(&self) -> &[Order]
        ensures { result.now ≡ self.now }
    {
        self.list.as_slice()
    }
}

impl PartialEq for Orders {
    ghost use Rattle.std.specs.Cmp.Lexicographic.{pointwise, lists_per};
    ghost use Rattle.cns_movements.specs.contracts.order.OrderPartialEq.TheImpl.Laws.{laws-law as order_partial};

    ghost eq = { pointwise ⟦<Order as PartialEq>⟧.eq };

    ghost laws = { lists_per order_partial };

    fn eq(&self, other: &Orders) -> bool {
        self.as_slice() == other.as_slice()
    }
}

impl Eq for Orders {
    ghost use Rattle.std.specs.Cmp.Lexicographic.{lists_equiv};
    ghost use Rattle.cns_movements.specs.contracts.order.OrderEq.TheImpl.Laws.{laws-law as order_laws};

    ghost laws = { lists_equiv order_laws };
}

/// A cycle that was run.
#[derive(PartialEq, Eq, Debug, Drop)]
pub struct Cycled {
    /// How many trades became due.
    pub due: u64,
    /// The covers that were ordered.
    pub orders: Orders,
}

/// A lot that was closed.
#[derive(PartialEq, Eq, Debug, Drop)]
pub struct Closed {
    /// How many shares its tickets were granted in all.
    pub granted: u64,
    /// The deliveries that were ordered.
    pub orders: Orders,
}

/// What the clearing node answers to a reply that it takes.
#[derive(Clone, Copy, PartialEq, Eq, Debug)]
pub enum Taken {
    /// The order is confirmed from now on.
    Done,
    /// The order was confirmed with just this before. Nothing has changed.
    Again,
}
