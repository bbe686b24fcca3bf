ghost use Rattle.std.specs.Prelude.{◌≡◌, Some, MatchResult};
ghost use Rattle.csv.specs.Records.{fields_of};
ghost use Rattle.cns_trades.specs.Fields.{is_trade_header};
ghost use Rattle.cns_trades.specs.Rows.{row_at, trade_of as trade_of_fields, trade_rows};
ghost use Rattle.cns_trades.specs.Records.{TellsRows};

use crate::fault::{CsvFault, RowFault};
use crate::id::{TradeId, is_id};
use crate::record::{FromRecord, field, read_rows};
use crate::trade::Trade;
use cns_ids::{Cusip, Day, MemberNo, read_quantity};
use csv::ByteRecord;
use std::alloc::Global;

/// A row of a text of trades: a trade, or the row's number, counted from 1, and its first fault.
#[derive(Clone, Copy, PartialEq, Eq, Debug)]
pub enum Row {
    Trade(Trade),
    Fault { row: u64, fault: RowFault },
}

/// The trade that a record is, or its first fault.
#[tactic(auto, unfolding(crate::specs::Rows::trade_of))]
pub(crate) fn trade_of(fields: &ByteRecord) -> Result<Trade, RowFault>
    ensures { result ≡ trade_of_fields (fields_of fields.now) }
{
    if fields.len() != 6 {
        return Err(RowFault::Fields);
    }
    let name = field(fields, 0);
    if !is_id(name) {
        return Err(RowFault::Id);
    }
    let id = TradeId::of(name);
    let settle = Day::read(field(fields, 1)).map_err(|_| RowFault::Settle)?;
    let buyer = MemberNo::read(field(fields, 2)).map_err(RowFault::Buyer)?;
    let seller = MemberNo::read(field(fields, 3)).map_err(RowFault::Seller)?;
    let issue = Cusip::read(field(fields, 4)).map_err(RowFault::Cusip)?;
    let quantity = read_quantity(field(fields, 5)).map_err(RowFault::Quantity)?;
    Ok(Trade {
        id,
        settle,
        buyer,
        seller,
        issue,
        quantity,
    })
}

impl FromRecord for Row {
    ghost use Rattle.cns_trades.specs.Fields.{is_trade_header};
    ghost use Rattle.cns_trades.specs.Rows.{row_at};

    ghost is_header = { is_trade_header };

    ghost row_at = { row_at };

    fn is_header(fields: &ByteRecord) -> bool {
        fields.len() == 6
            && field(fields, 0) == b"trade".as_slice()
            && field(fields, 1) == b"settle".as_slice()
            && field(fields, 2) == b"buyer".as_slice()
            && field(fields, 3) == b"seller".as_slice()
            && field(fields, 4) == b"cusip".as_slice()
            && field(fields, 5) == b"quantity".as_slice()
    }

    fn from_record(row: u64, fields: &ByteRecord) -> Row {
        match trade_of(fields) {
            Ok(trade) => Row::Trade(trade),
            Err(fault) => Row::Fault { row, fault },
        }
    }
}

/// Reads the rows of a text of trades.
///
/// A text without records has no rows. Else its first record must be the header
/// `trade,settle,buyer,seller,cusip,quantity`, or the answer is `Header`. A UTF-8 byte order mark at
/// the start of the text is passed over.
pub fn read_trades(alloc: Global, text: &[u8]) -> Result<Vec<Row>, CsvFault>
    ensures exact { MatchResult result (λ v. trade_rows text.now ≡ Some v.items) (λ e. TellsRows e (trade_rows text.now)) }
{
    read_rows::<Row, Vec<Row>>(alloc, text)
}
