ghost use Rattle.std.specs.Prelude.{◌≡◌};
ghost use Rattle.csv.specs.Records.{fields_of};
ghost use Rattle.cns_check.specs.Findings.{against_trade, all_against};

use crate::field::{
    against_buyer, against_cusip, against_id, against_quantity, against_seller, against_settle,
    field,
};
use crate::finding::Table;
use crate::found::Findings;
use crate::rows::{CheckRows, RowPlace, add_faults};
use cns_trades::RowFault;
use csv::ByteRecord;
use std::alloc::{AllocError, Global};

/// A look at rows of trades.
#[derive(Drop)]
pub(crate) struct Trades;

// What each field of a row has against it.
fn faults_of(fields: &ByteRecord) -> [Option<RowFault>; 6]
    ensures { all_against result ≡ all_against (against_trade (fields_of fields.now)) }
{
    if fields.len() != 6 {
        return [Some(RowFault::Fields), None, None, None, None, None];
    }
    [
        against_id(field(fields, 0)),
        against_settle(field(fields, 1)),
        against_buyer(field(fields, 2)),
        against_seller(field(fields, 3)),
        against_cusip(field(fields, 4)),
        against_quantity(field(fields, 5)),
    ]
}

impl CheckRows for Trades {
    ghost use Rattle.std.specs.Prelude.{⊤};
    ghost use Rattle.std.specs.Prelude.{refl};
    ghost use Rattle.cns_trades.specs.Fields.{is_trade_header};
    ghost use Rattle.cns_check.specs.Findings.{in_trades};
    ghost use Rattle.cns_check.specs.declared.finding.Table.TheVariants as table_variants;

    ghost table = { table_variants.Trades };

    ghost is_header = { is_trade_header };

    ghost in_rows = { in_trades };

    ghost nothing_in_none = { refl };

    ghost has_seen = { λ _ rows. ⊤ };

    fn table() -> Table {
        Table::Trades
    }

    fn is_header(fields: &ByteRecord) -> bool {
        fields.len() == 6
            && field(fields, 0) == b"trade".as_slice()
            && field(fields, 1) == b"settle".as_slice()
            && field(fields, 2) == b"buyer".as_slice()
            && field(fields, 3) == b"seller".as_slice()
            && field(fields, 4) == b"cusip".as_slice()
            && field(fields, 5) == b"quantity".as_slice()
    }

    fn check(
        &mut self,
        alloc: Global,
        place: RowPlace,
        fields: &ByteRecord,
        found: &mut Findings,
    ) -> Result<(), AllocError> {
        let faults = faults_of(fields);
        add_faults(alloc, Table::Trades, place, fields, &faults, found)
    }
}
