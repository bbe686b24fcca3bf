use cns_ids::{CusipFault, ReadFault};
use thiserror::Error;

/// The first fault of a row, by its field.
#[derive(Clone, Copy, PartialEq, Eq, Debug, Error)]
pub enum RowFault {
    /// The row has another number of fields than its header.
    #[error("wrong number of fields")]
    Fields,
    /// The id is not 1 to 16 capital letters and digits.
    #[error("bad trade id")]
    Id,
    /// The settlement date is no date.
    #[error("bad settlement date")]
    Settle,
    #[error("buyer: {0}")]
    Buyer(ReadFault),
    #[error("seller: {0}")]
    Seller(ReadFault),
    #[error("issue: {0}")]
    Cusip(CusipFault),
    #[error("quantity: {0}")]
    Quantity(ReadFault),
    #[error("account: {0}")]
    Account(ReadFault),
    #[error("shares: {0}")]
    Shares(ReadFault),
}

/// Why a text gave no rows.
#[derive(Clone, Copy, PartialEq, Eq, Debug, Error)]
pub enum CsvFault {
    #[error("out of memory")]
    OutOfMemory,
    /// The first record is not the header.
    #[error("the first record is not the header")]
    Header,
    /// The reader of records failed for another cause than memory.
    #[error("the reader of records failed")]
    Reading,
}
