ghost use Rattle.std.specs.Prelude.{◌≡◌, ◌++◌, ◌∷◌, [], ℕ, List, nat_lt, OnOk, if◌then◌else◌};
ghost use Rattle.cns_check.specs.Repeats.{KeepsRepeats, repeated_rows};

use crate::found::MOST_OF_A_PART;
use cns_trades::TradeId;
use std::alloc::{AllocError, Global};

/// A row of trades whose id an earlier row has. Rows are counted from 1 behind the first record, and lines from
/// 1 in the text; a row stands in the line in which it begins.
#[derive(Clone, Copy, PartialEq, Eq, Debug)]
pub struct Repeat {
    pub row: u64,
    pub line: u64,
    /// The first row that has the id.
    pub earlier_row: u64,
    pub earlier_line: u64,
    pub id: TradeId,
}

/// The rows of trades whose id an earlier row has: how many there are, and the first 1,000, in their order.
#[derive(Drop)]
pub struct Repeats {
    pub first: Vec<Repeat>,
    pub count: u64,
}

impl Repeats {
    /// None yet.
    pub(crate) fn new(alloc: Global) -> Repeats
        ensures { KeepsRepeats result [] }
    {
        Repeats {
            first: Vec::new(alloc),
            count: 0,
        }
    }

    // Keeps one, where fewer were counted than are kept.
    fn keep(&mut self, repeat: Repeat) -> Result<(), AllocError>
        ensures kept { OnOk result (repeated_rows self.new ≡ repeated_rows self.old
            ++ (if nat_lt self.old.count 1000 then (repeat.row, repeat.earlier_row) ∷ [] else [])) }
        ensures count { OnOk result (self.new.count ≡ self.old.count) }
    {
        if self.count >= MOST_OF_A_PART {
            return Ok(());
        }
        self.first.push(repeat)?;
        Ok(())
    }

    /// Adds one. No memory holds a text with more than 64 bits count.
    pub(crate) fn add(&mut self, repeat: Repeat) -> Result<(), AllocError>
        ensures { OnOk result ((all : List (ℕ × ℕ)) → KeepsRepeats self.old all
            → KeepsRepeats self.new (all ++ (repeat.row, repeat.earlier_row) ∷ [])) }
    {
        self.keep(repeat)?;
        self.count = self.count.checked_add(1).ok_or(AllocError)?;
        Ok(())
    }
}
