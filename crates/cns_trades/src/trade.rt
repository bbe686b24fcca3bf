use crate::id::TradeId;
use cns_ids::{Cusip, Day, MemberNo, Quantity};

/// A trade between two clearing members: the buyer receives `quantity` shares of `issue` from the
/// seller on or after `settle`.
#[derive(Clone, Copy, PartialEq, Eq, Debug)]
pub struct Trade {
    pub id: TradeId,
    pub settle: Day,
    pub buyer: MemberNo,
    pub seller: MemberNo,
    pub issue: Cusip,
    pub quantity: Quantity,
}
