ghost use Rattle.std.specs.Prelude.{◌≡◌, Some, MatchResult};
ghost use Rattle.csv.specs.Records.{fields_of};
ghost use Rattle.cns_trades.specs.Openings.{opening_of as opening_of_fields, opening_rows};
ghost use Rattle.cns_trades.specs.Records.{TellsRows};

use crate::fault::{CsvFault, RowFault};
use crate::record::{FromRecord, field, read_rows};
use cns_ids::{Cusip, MemberNo, Shares};
use csv::ByteRecord;
use std::alloc::Global;

/// What a member's account at the depository holds of an issue at the start.
#[derive(Clone, Copy, PartialEq, Eq, Debug)]
pub struct Opening {
    pub member: MemberNo,
    pub issue: Cusip,
    pub shares: Shares,
}

/// A row of a text of openings: an opening, or the row's number, counted from 1, and its first fault.
#[derive(Clone, Copy, PartialEq, Eq, Debug)]
pub enum OpeningRow {
    Opening(Opening),
    Fault { row: u64, fault: RowFault },
}

// The opening that a record is, or its first fault.
#[tactic(auto, unfolding(crate::specs::Openings::opening_of))]
fn opening_of(fields: &ByteRecord) -> Result<Opening, RowFault>
    ensures { result ≡ opening_of_fields (fields_of fields.now) }
{
    if fields.len() != 3 {
        return Err(RowFault::Fields);
    }
    let member = MemberNo::read(field(fields, 0)).map_err(RowFault::Account)?;
    let issue = Cusip::read(field(fields, 1)).map_err(RowFault::Cusip)?;
    let shares = Shares::read(field(fields, 2)).map_err(RowFault::Shares)?;
    Ok(Opening {
        member,
        issue,
        shares,
    })
}

impl FromRecord for OpeningRow {
    ghost use Rattle.cns_trades.specs.Fields.{is_opening_header};
    ghost use Rattle.cns_trades.specs.Openings.{opening_row_at};

    ghost is_header = { is_opening_header };

    ghost row_at = { opening_row_at };

    fn is_header(fields: &ByteRecord) -> bool {
        fields.len() == 3
            && field(fields, 0) == b"account".as_slice()
            && field(fields, 1) == b"cusip".as_slice()
            && field(fields, 2) == b"shares".as_slice()
    }

    fn from_record(row: u64, fields: &ByteRecord) -> OpeningRow {
        match opening_of(fields) {
            Ok(opening) => OpeningRow::Opening(opening),
            Err(fault) => OpeningRow::Fault { row, fault },
        }
    }
}

/// Reads the rows of a text of openings.
///
/// A text without records has no rows. Else its first record must be the header
/// `account,cusip,shares`, or the answer is `Header`. A UTF-8 byte order mark at the start of the
/// text is passed over.
pub fn read_openings(alloc: Global, text: &[u8]) -> Result<Vec<OpeningRow>, CsvFault>
    ensures exact { MatchResult result (λ v. opening_rows text.now ≡ Some v.items) (λ e. TellsRows e (opening_rows text.now)) }
{
    read_rows::<OpeningRow, Vec<OpeningRow>>(alloc, text)
}
