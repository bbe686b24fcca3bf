ghost use Rattle.std.specs.Prelude.{◌≡◌, []};

use cns_movements::Ask;
use cns_netting::PositionRow;
use std::alloc::Global;

// What a record makes besides itself.
#[derive(Drop)]
pub(crate) struct Effects {
    // The orders that it makes.
    pub(crate) asks: Vec<Ask>,
    // The positions directly after it, where it is a cycle.
    pub(crate) rows: Vec<PositionRow>,
}

impl Effects {
    // Nothing. It takes no memory.
    pub(crate) fn none(alloc: Global) -> Effects
        ensures asks { result.asks.items ≡ [] }
        ensures rows { result.rows.items ≡ [] }
    {
        Effects {
            asks: Vec::new(alloc),
            rows: Vec::new(alloc),
        }
    }

    // These orders alone.
    pub(crate) fn of_asks(alloc: Global, asks: Vec<Ask>) -> Effects
        ensures asks { result.asks.items ≡ asks.items }
        ensures rows { result.rows.items ≡ [] }
    {
        Effects {
            asks,
            rows: Vec::new(alloc),
        }
    }
}
