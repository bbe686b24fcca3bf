use crate::drawn::DrawnList;
use cns_ids::{Cusip, Shares};

/// What a closed lot allocated. (This project's own record.)
#[derive(PartialEq, Eq, Debug, Drop)]
pub struct Allocation {
    pub issue: Cusip,
    /// How many records stood before the lot was opened.
    pub opened: u64,
    /// How many records stood before the last pour into the lot.
    pub upto: u64,
    /// The shares that were poured into the lot.
    pub poured: Shares,
    /// Whether the lot was sealed.
    pub sealed: bool,
    /// The lot's tickets, by their starts.
    pub drawn: DrawnList,
}
