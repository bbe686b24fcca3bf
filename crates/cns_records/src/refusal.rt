use cns_journal::{CommitFault, ReplayFault};
use cns_trades::Verdict;
use std::alloc::AllocError;
use thiserror::Error;

/// Why something that was asked of a node, of one of its lots or of the link is refused.
///
/// A refusal adds no record, but the record of a commit that was refused as `Device` is undecided: a restart
/// finds it in the journal, or does not. Only `Device` and a refused restart leave anything changed: the node
/// is down then, and at a refused restart of the clearing node its lots have ended. Each call names the refusals
/// that it may answer, in the order in which they are tested: the first that applies is told. (This project's
/// own rules.)
#[derive(Clone, Copy, PartialEq, Eq, Debug, Error)]
pub enum Refusal {
    /// The node is down until it is restarted.
    #[error("the node is down")]
    Down,
    /// The accepted trades refuse the trade, by this verdict, which is never `New`.
    #[error("the trade is not new")]
    Trade(Verdict),
    /// The cycle is not later than the latest one.
    #[error("the cycle is not later than the latest one")]
    CycleOrder,
    /// A lot is open, so no cycle runs.
    #[error("a lot is open")]
    LotsOpen,
    /// A lot of the issue is open.
    #[error("a lot of the issue is open")]
    LotAlready,
    /// 1,000,000 lots were opened: there are no numbers left.
    #[error("the numbers of lots are spent")]
    LotsSpent,
    /// No lot of the issue is open, or none was ever given the number.
    #[error("there is no such lot")]
    NoLot,
    /// The lot of the number has ended.
    #[error("the lot has ended")]
    StaleLot,
    /// The lot is being served by another command.
    #[error("the lot is being served")]
    LotBusy,
    /// The member does not wait for a ticket of the lot: it is not in the lot's plan, as it is not long or its
    /// open deliveries ask for all that it is to receive, or it has its ticket.
    #[error("the member is not to receive shares of the lot")]
    NotLong,
    /// A member of an earlier group of the lot's plan has no ticket yet.
    #[error("a member of an earlier group has no ticket yet")]
    EarlierGroup,
    /// The lot is sealed.
    #[error("the lot is sealed")]
    Sealed,
    /// The lot is not sealed, and a member of its plan has no ticket.
    #[error("a member of the plan has no ticket yet")]
    Unserved,
    /// The tickets do not serve the lot's plan.
    #[error("the tickets do not serve the plan of the lot")]
    BadTickets,
    /// The orders are more than the movement numbers that are left.
    #[error("movement numbers are spent")]
    NumbersSpent,
    /// No order has this number.
    #[error("no order has this number")]
    UnknownMove,
    /// The link has no packet of this number.
    #[error("the link has no packet of this number")]
    NoPacket,
    /// Another order was executed under the number, the order of the number was confirmed with other
    /// shares, or another instruction of the member has the number.
    #[error("another order, confirmation or instruction has this number")]
    Conflict,
    /// The shares are more than the order asked for.
    #[error("the shares are more than the order asked for")]
    TooMuch,
    /// With the deposit the accounts of the depository would hold more than 10^18 shares of the issue.
    #[error("the shares of the issue would pass 10^18")]
    IssueSum,
    /// The member's account at the depository has fewer shares of the issue than are withdrawn.
    #[error("the account has fewer shares")]
    TooFew,
    /// The journal's payload in this place, counted from 1, is the first bad one.
    #[error("record {place} of the journal is bad")]
    BadJournal { place: u64 },
    /// There is no memory, or the journal is full. Nothing has changed, but by a restart that met it.
    #[error("out of memory")]
    OutOfMemory,
    /// The device of the journal failed. The node is down until it is restarted.
    #[error("the journal's device failed")]
    Device,
}

impl From<AllocError> for Refusal {
    ghost use Rattle.std.specs.Prelude.{◌≡◌};
    ghost use Rattle.cns_records.specs.declared.refusal.Refusal.TheVariants as refusal;

    ghost from_gives = { λ fault given. given ≡ refusal.OutOfMemory };

    fn from(_fault: AllocError) -> Refusal {
        Refusal::OutOfMemory
    }
}

impl From<CommitFault> for Refusal {
    ghost use Rattle.std.specs.Prelude.{◌≡◌};
    ghost use Rattle.cns_records.specs.Refusals.{commit_refusal};

    ghost from_gives = { λ fault given. given ≡ commit_refusal fault };

    fn from(fault: CommitFault) -> Refusal {
        match fault {
            CommitFault::OutOfMemory => Refusal::OutOfMemory,
            CommitFault::Device => Refusal::Device,
        }
    }
}

impl From<ReplayFault> for Refusal {
    ghost use Rattle.std.specs.Prelude.{◌≡◌};
    ghost use Rattle.cns_records.specs.Refusals.{replay_refusal};

    ghost from_gives = { λ fault given. given ≡ replay_refusal fault };

    fn from(fault: ReplayFault) -> Refusal {
        match fault {
            ReplayFault::OutOfMemory => Refusal::OutOfMemory,
            ReplayFault::BadJournal { place } => Refusal::BadJournal { place },
            ReplayFault::Device => Refusal::Device,
        }
    }
}
