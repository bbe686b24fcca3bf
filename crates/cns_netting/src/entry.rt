use cns_ids::{Cusip, Day, MemberNo};
use cns_trades::Trade;

/// What a book of positions takes in, one after another.
#[derive(Clone, Copy, PartialEq, Eq, Debug)]
pub enum NetEntry {
    /// An accepted trade.
    Accepted(Trade),
    /// A netting of this date: it makes the trades due that settle by then.
    Netted(Day),
    /// What a confirmed movement books to a member's position: above 0 the shares that the member
    /// delivered by a cover, a credit; below 0 those that it received by a delivery, a debit.
    Settled {
        member: MemberNo,
        issue: Cusip,
        amount: i64,
    },
}
