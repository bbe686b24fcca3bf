use cns_ids::{Cusip, MemberNo};

/// A member's position in an issue, in shares: above 0 to receive, below 0 to deliver.
#[derive(Clone, Copy, PartialEq, Eq, Debug)]
pub struct PositionRow {
    pub issue: Cusip,
    pub member: MemberNo,
    pub position: i64,
}
