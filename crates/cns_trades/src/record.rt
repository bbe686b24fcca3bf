ghost use Rattle.std.specs.Prelude.{◌≡◌, ◌≢◌, ◌↔◌, ◌+◌, ◌++◌, ◌∷◌, [], ℕ, List, length, get_or, Bool, true, false, Some, MatchResult, OnOk, IfErr};
ghost use Rattle.csv.specs.Records.{fields_of};
ghost use Rattle.cns_trades.specs.Records.{Fields, under_header, rows_of, TellsRows, StandBefore, IsReaderFault, IsWantOfMemory};
ghost use Rattle.cns_trades.specs.declared.fault.CsvFault.TheVariants.{Header, OutOfMemory, Reading};

use crate::fault::CsvFault;
use csv::{ByteRecord, Error, ErrorKind, ReaderBuilder};
use std::alloc::{AllocError, Global};
use std::io;

/// What one record of a text is read as.
pub(crate) trait FromRecord: Drop {
    /// Whether a record is the header of such rows.
    ghost is_header: { Fields → Bool };

    /// The row that a record is, by its number.
    ghost row_at: { ℕ → Fields → Self };

    fn is_header(fields: &ByteRecord) -> bool
        ensures { result ≡ is_header (fields_of fields.now) };

    fn from_record(row: u64, fields: &ByteRecord) -> Self
        ensures { result ≡ row_at row (fields_of fields.now) };
}

/// A list of the rows that records are.
pub(crate) trait RowList<R: FromRecord>: Drop {
    /// The rows.
    ghost rows: { Self → List R };

    /// No row.
    fn new(alloc: Global) -> Self
        ensures { rows result ≡ [] };

    /// Adds the row that a record is; its number is one more than there are rows before it.
    fn take(&mut self, fields: &ByteRecord) -> Result<(), AllocError>
        ensures { OnOk result (rows self.new ≡ rows self.old ++ R.row_at (length (rows self.old) + 1) (fields_of fields.now) ∷ []) };
}

impl<R: FromRecord> RowList<R> for Vec<R> {
    ghost rows = { λ v. v.items };

    fn new(alloc: Global) -> Vec<R> {
        Vec::new(alloc)
    }

    fn take(&mut self, fields: &ByteRecord) -> Result<(), AllocError> {
        let number = self.len() as u64 + 1;
        self.push(R::from_record(number, fields))?;
        Ok(())
    }
}

/// A field of a record; empty where there is none.
pub(crate) fn field(fields: &ByteRecord, place: usize) -> &[u8]
    ensures { result.now ≡ get_or (fields_of fields.now) place [] }
{
    fields.get(place).unwrap_or(&[])
}

// Why reading stopped. A flexible reader of bytes fails for nothing else.
fn stopped(error: &Error) -> CsvFault
    requires { IsReaderFault error.now.kind }
    ensures header { result ≢ Header }
    ensures memory { (result ≡ OutOfMemory) ↔ IsWantOfMemory error.now.kind }
{
    match error.kind() {
        ErrorKind::OutOfMemory => CsvFault::OutOfMemory,
        ErrorKind::Io(cause) if cause.kind() == io::ErrorKind::OutOfMemory => CsvFault::OutOfMemory,
        ErrorKind::Io(_) => CsvFault::Reading,
        _ => unreachable!(),
    }
}

// Takes the next record: the header, or a row.
fn take_record<R: FromRecord, L: RowList<R>>(
    rows: &mut L,
    header_is_next: bool,
    fields: &ByteRecord,
) -> Result<(), CsvFault>
    ensures ok { OnOk result ((before : List Fields) → StandBefore header_is_next before → under_header R.is_header R.row_at before ≡ Some (L.rows rows.old)
        → under_header R.is_header R.row_at (before ++ fields_of fields.now ∷ []) ≡ Some (L.rows rows.new)) }
    ensures err { IfErr result (λ e. e ≡ Header → (header_is_next ≡ true) × (R.is_header (fields_of fields.now) ≡ false)) }
    ensures reading { IfErr result (λ e. e ≢ Reading) }

    // Memory is wanted for a row alone, after the header was found right.
    ensures memory { IfErr result (λ e. e ≡ OutOfMemory → header_is_next ≡ false) }
{
    if header_is_next {
        return if R::is_header(fields) {
            Ok(())
        } else {
            Err(CsvFault::Header)
        };
    }
    match rows.take(fields) {
        Ok(()) => Ok(()),
        Err(AllocError) => Err(CsvFault::OutOfMemory),
    }
}

/// The rows of a text: the records that `csv` reads as bytes under the header, numbered from 1.
pub(crate) fn read_rows<R: FromRecord, L: RowList<R>>(
    alloc: Global,
    text: &[u8],
) -> Result<L, CsvFault>
    ensures exact { MatchResult result (λ v. rows_of R.is_header R.row_at text.now ≡ Some (L.rows v)) (λ e. TellsRows e (rows_of R.is_header R.row_at text.now)) }
{
    let mut reader = ReaderBuilder::new()
        .has_headers(false)
        .flexible(true)
        .from_reader(alloc, text);
    let mut fields = ByteRecord::new(alloc);
    let mut rows = L::new(alloc);
    let mut header_is_next = true;
    for _record in 0..u64::MAX {
        match reader.read_byte_record(&mut fields) {
            Ok(true) => take_record::<R, L>(&mut rows, header_is_next, &fields)?,
            Ok(false) => return Ok(rows),
            Err(error) => return Err(stopped(&error)),
        }
        header_is_next = false;
    }
    // No memory holds so many rows.
    Err(CsvFault::OutOfMemory)
}
