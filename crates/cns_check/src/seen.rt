ghost use Rattle.std.specs.Prelude.{◌≡◌, ◌+◌, ◌++◌, ◌∷◌, [], List, length, drop, OnOk};
ghost use Rattle.csv.specs.Records.{fields_of};
ghost use Rattle.cns_trades.specs.Records.{Fields};
ghost use Rattle.cns_check.specs.Repeats.{HasPassed, row_id};

use crate::field::field;
use crate::repeat::{Repeat, Repeats};
use cns_trades::TradeId;
use csv::ByteRecord;
use indexmap::IndexMap;
use std::alloc::{AllocError, Global};

// The first row that has an id, and the line in which it begins.
#[derive(Clone, Copy)]
struct FirstRow {
    row: u64,
    line: u64,
}

/// The rows of trades that were passed: the first one of each id, and those whose id an earlier one has.
#[derive(Drop)]
pub(crate) struct Seen {
    first: IndexMap<TradeId, FirstRow>,
    pub(crate) repeats: Repeats,
}

// The id of a row, where its first field is one.
#[tactic(auto, unfolding(crate::specs::Repeats::row_id))]
fn id_of(fields: &ByteRecord) -> Option<TradeId>
    ensures { result ≡ row_id (fields_of fields.now) }
{
    TradeId::read(field(fields, 0)).ok()
}

impl Seen {
    /// No row yet.
    pub(crate) fn new(alloc: Global) -> Seen
        ensures { HasPassed result [] }
    {
        Seen {
            first: IndexMap::new(alloc),
            repeats: Repeats::new(alloc),
        }
    }

    // Passes a row, by its number and the line in which it begins.
    fn pass_row(&mut self, row: u64, line: u64, fields: &ByteRecord) -> Result<(), AllocError>
        ensures { OnOk result ((rows : List Fields) → row ≡ length rows + 1 → HasPassed self.old rows
            → HasPassed self.new (rows ++ fields_of fields.now ∷ [])) }
    {
        let Some(id) = id_of(fields) else {
            return Ok(());
        };
        match self.first.get(&id) {
            Some(earlier) => {
                let repeat = Repeat {
                    row,
                    line,
                    earlier_row: earlier.row,
                    earlier_line: earlier.line,
                    id,
                };
                self.repeats.add(repeat)
            }
            None => {
                self.first.insert(id, FirstRow { row, line })?;
                Ok(())
            }
        }
    }

    /// Passes a record of a section, before which so many stand, and which begins in a line; the first one is no
    /// row.
    pub(crate) fn pass(
        &mut self,
        row: u64,
        line: u64,
        fields: &ByteRecord,
    ) -> Result<(), AllocError>
        ensures { OnOk result ((records : List Fields) → row ≡ length records → HasPassed self.old (drop 1 records)
            → HasPassed self.new (drop 1 (records ++ fields_of fields.now ∷ []))) }
    {
        if row == 0 {
            return Ok(());
        }
        self.pass_row(row, line, fields)
    }
}
