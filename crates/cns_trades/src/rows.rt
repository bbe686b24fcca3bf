ghost use Rattle.std.specs.Prelude.{◌≡◌, ◌+◌, ◌==◌, ◌∷◌, ◌++◌, [], length, MatchOption, MatchResult, OnOk, IfErr, Some, Ok, Err};
ghost use Rattle.cns_trades.specs.FaultCode.{IsSmall};
ghost use Rattle.cns_trades.specs.Records.{TellsRows};
ghost use Rattle.cns_trades.specs.Rows.{trade_rows};
ghost use Rattle.cns_trades.specs.declared.row.Row.TheVariants as row_variants;

use crate::fault::{CsvFault, RowFault};
use crate::fault_code::FaultCode;
use crate::record::{RowList, read_rows};
use crate::row::{Row, trade_of};
use crate::trade::Trade;
use crate::untaken::Untaken;
use csv::ByteRecord;
use std::alloc::{AllocError, Global};
use std::marker::Model;

// The rows of a text of trades, each held in what its trade or its fault takes.
//
// Contracts see the rows.
#[derive(Drop)]
struct HeldRows {
    // Of each row the fault that it has, if any.
    faults: Vec<FaultCode>,
    // The trades of the rows that have none.
    trades: Vec<Trade>,
}

impl Model for HeldRows {
    ghost use Rattle.std.specs.Prelude.{List};
    ghost use Rattle.cns_trades.specs.Held.{Fit, rows_held};
    ghost use Rattle.cns_trades.specs.declared.row.Row.{Row};

    ghost Value = { List Row };

    ghost view = { λ r. rows_held 1 r.faults.items r.trades.items };

    ghost invariant = { λ r. Fit r.faults.items r.trades.items };
}

impl HeldRows {
    // Adds a row: its trade, or its fault.
    fn add(&mut self, read: Result<Trade, RowFault>) -> Result<(), AllocError>
        requires { IfErr read IsSmall }
        ensures { OnOk result (self.new ≡ self.old ++ elim read [ Ok t ↦ row_variants.Trade t | Err e ↦ row_variants.Fault (length self.old + 1) e ] ∷ []) }
    {
        let trade = match read {
            Ok(trade) => trade,
            Err(fault) => {
                self.faults.push(FaultCode::of(fault))?;
                return Ok(());
            }
        };
        self.faults.push(FaultCode::NONE)?;
        if self.trades.push(trade).is_err() {
            self.faults.pop();
            return Err(AllocError);
        }
        Ok(())
    }
}

impl RowList<Row> for HeldRows {
    ghost rows = { λ r. r };

    fn new(alloc: Global) -> HeldRows {
        HeldRows {
            faults: Vec::new(alloc),
            trades: Vec::new(alloc),
        }
    }

    fn take(&mut self, fields: &ByteRecord) -> Result<(), AllocError> {
        self.add(trade_of(fields))
    }
}

/// The rows of a text of trades that are left, in their order. Each is held in what its trade or its fault
/// takes; the memory of those that were taken is let go block by block, and all of it once none is left.
///
/// Contracts see the rows that are left.
#[derive(Drop)]
pub struct TradeRows {
    // The next row's number.
    number: u64,
    // Of each row the fault that it has, if any.
    faults: Untaken<FaultCode>,
    // The trades of the rows that have none.
    trades: Untaken<Trade>,
}

impl Model for TradeRows {
    ghost use Rattle.std.specs.Prelude.{◌+◌, ◌<◌, ◌^◌, List, length};
    ghost use Rattle.cns_trades.specs.Held.{Fit, rows_held};
    ghost use Rattle.cns_trades.specs.declared.row.Row.{Row};

    ghost Value = { List Row };

    ghost view = { λ r. rows_held r.number r.faults r.trades };

    ghost invariant = { λ r. Fit r.faults r.trades × (r.number + length r.faults < 2 ^ 64) };
}

impl TradeRows {
    /// Reads the rows of a text of trades, as [`read_trades`](crate::read_trades) does.
    pub fn read(alloc: Global, text: &[u8]) -> Result<TradeRows, CsvFault>
        ensures exact { MatchResult result (λ rows. trade_rows text.now ≡ Some rows) (λ e. TellsRows e (trade_rows text.now)) }
    {
        let HeldRows { faults, trades } = read_rows::<Row, HeldRows>(alloc, text)?;
        Ok(TradeRows {
            number: 1,
            faults: Untaken::of(faults),
            trades: Untaken::of(trades),
        })
    }

    /// How many rows are left.
    pub fn len(&self) -> usize
        ensures { result ≡ length self.now }
    {
        self.faults.len()
    }

    /// Whether no row is left.
    pub fn is_empty(&self) -> bool
        ensures { result ≡ (length self.now == 0) }
    {
        self.len() == 0
    }

    /// Takes the next row, where one is left.
    #[inline(always)]
    pub fn next(&mut self) -> Option<Row>
        ensures { MatchOption result ((self.old ≡ []) × (self.new ≡ self.old)) (λ row. self.old ≡ row ∷ self.new) }
    {
        let row = self.number;
        let fault = self.faults.next()?;
        self.number += 1;
        let Some(fault) = fault.fault() else {
            let trade = self.trades.next()?;
            return Some(Row::Trade(trade));
        };
        Some(Row::Fault { row, fault })
    }
}
