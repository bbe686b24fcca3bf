use cns_ids::{Cusip, CycleId, MemberNo, Shares};
use cns_records::Instruction;
use cns_trades::Trade;

/// One of the two nodes.
#[derive(Clone, Copy, PartialEq, Eq, Debug)]
pub enum NodeName {
    /// The clearing corporation's node: its book of positions, orders and lots.
    Clear,
    /// The depository's node: its stock record.
    Depot,
}

/// What may happen to the two nodes and the link between them.
///
/// Lots and packets have numbers, counted from 1: lots in the order in which they were opened, packets
/// of each direction in the order in which they were put on the link.
#[derive(Clone, Copy, PartialEq, Eq, Debug)]
pub enum Event {
    /// A trade is reported to the clearing node.
    Trade(Trade),
    /// So many shares of a member in an issue are exempt from covers from now on, in place of those before.
    Exempt {
        member: MemberNo,
        issue: Cusip,
        shares: Shares,
    },
    /// A member has priority in an issue from now on, or has none.
    Priority {
        member: MemberNo,
        issue: Cusip,
        on: bool,
    },
    /// A cycle makes trades due and orders covers.
    Cycle(CycleId),
    /// A lot of an issue is opened, with all its free shares.
    LotOpen {
        issue: Cusip,
    },
    /// What has become free is poured into a lot.
    LotPour {
        lot: u64,
    },
    /// A member draws its ticket from a lot: its place behind the tickets that were drawn before, for all
    /// shares that are planned for it. Within a group of the plan, who comes first is served first; what a
    /// ticket is granted, up to all of it, the close says by what was poured.
    Reserve {
        lot: u64,
        member: MemberNo,
    },
    /// A look at the shares that were poured into a lot.
    LookPoured {
        lot: u64,
    },
    /// A look at the shares that the tickets of a lot ask for, and at its seal.
    LookAsked {
        lot: u64,
    },
    /// A lot is sealed: no ticket is drawn from it from now on.
    Seal {
        lot: u64,
    },
    /// A lot is closed, and deliveries are ordered.
    LotClose {
        lot: u64,
    },
    /// The order of this number is put on the link to the depository.
    Send {
        number: u64,
    },
    /// A packet of an order arrives at the depository.
    OrderIn {
        packet: u64,
    },
    /// A packet of a reply arrives at the clearing node.
    ReplyIn {
        packet: u64,
    },
    /// A member's own deposit or withdrawal comes to the depository.
    Own(Instruction),
    /// A node reads its journal again.
    Restart(NodeName),
}
