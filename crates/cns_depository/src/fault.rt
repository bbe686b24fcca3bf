use cns_journal::CommitFault;
use cns_movements::Reply;
use cns_records::Refusal;
use thiserror::Error;

/// What the depository answers to an order.
#[derive(Clone, Copy, PartialEq, Eq, Debug)]
pub enum Answer {
    /// The order is executed from now on.
    Done(Reply),
    /// The order was executed before, and this is the reply to that movement.
    Again(Reply),
}

/// Why the depository refuses an order.
#[derive(Clone, Copy, PartialEq, Eq, Debug, Error)]
pub enum DepFault {
    /// The depository is down until it is restarted.
    #[error("the depository is down")]
    Down,
    /// Another order was executed under this number.
    #[error("another order has this number")]
    Conflict,
    /// There is no memory, or the journal is full. Nothing has changed.
    #[error("out of memory")]
    OutOfMemory,
    /// The device of the journal failed. The depository is down until it is restarted.
    #[error("the journal's device failed")]
    Device,
}

impl From<CommitFault> for DepFault {
    ghost use Rattle.std.specs.Prelude.{◌≡◌};
    ghost use Rattle.cns_depository.specs.Answers.{dep_fault};

    ghost from_gives = { λ fault given. given ≡ dep_fault fault };

    fn from(fault: CommitFault) -> DepFault {
        match fault {
            CommitFault::OutOfMemory => DepFault::OutOfMemory,
            CommitFault::Device => DepFault::Device,
        }
    }
}

impl From<DepFault> for Refusal {
    ghost use Rattle.std.specs.Prelude.{◌≡◌};
    ghost use Rattle.cns_depository.specs.Answers.{dep_refusal};

    ghost from_gives = { λ fault given. given ≡ dep_refusal fault };

    fn from(fault: DepFault) -> Refusal {
        match fault {
            DepFault::Down => Refusal::Down,
            DepFault::Conflict => Refusal::Conflict,
            DepFault::OutOfMemory => Refusal::OutOfMemory,
            DepFault::Device => Refusal::Device,
        }
    }
}

/// What the depository answers to a member's own instruction.
#[derive(Clone, Copy, PartialEq, Eq, Debug)]
pub enum Own {
    /// The instruction is carried out from now on.
    Done,
    /// The instruction was carried out before.
    Again,
}

/// Why a new instruction may not be carried out.
#[derive(Clone, Copy, PartialEq, Eq, Debug)]
pub enum OwnRefusal {
    /// The accounts would hold more than 10^18 shares of the issue.
    IssueSum,
    /// The member's account has fewer shares of the issue than are withdrawn.
    TooFew,
}

/// Why the depository refuses a member's own instruction.
#[derive(Clone, Copy, PartialEq, Eq, Debug, Error)]
pub enum OwnFault {
    /// The depository is down until it is restarted.
    #[error("the depository is down")]
    Down,
    /// Another instruction of the member has this number.
    #[error("another instruction of the member has this number")]
    Conflict,
    /// With the deposit the accounts would hold more than 10^18 shares of the issue.
    #[error("the shares of the issue would pass 10^18")]
    IssueSum,
    /// The member's account has fewer shares of the issue.
    #[error("the account has fewer shares")]
    TooFew,
    /// There is no memory, or the journal is full. Nothing has changed.
    #[error("out of memory")]
    OutOfMemory,
    /// The device of the journal failed. The depository is down until it is restarted.
    #[error("the journal's device failed")]
    Device,
}

impl From<CommitFault> for OwnFault {
    ghost use Rattle.std.specs.Prelude.{◌≡◌};
    ghost use Rattle.cns_depository.specs.Answers.{own_fault};

    ghost from_gives = { λ fault given. given ≡ own_fault fault };

    fn from(fault: CommitFault) -> OwnFault {
        match fault {
            CommitFault::OutOfMemory => OwnFault::OutOfMemory,
            CommitFault::Device => OwnFault::Device,
        }
    }
}

impl From<OwnRefusal> for OwnFault {
    ghost use Rattle.std.specs.Prelude.{◌≡◌};
    ghost use Rattle.cns_depository.specs.Answers.{own_refused};

    ghost from_gives = { λ refusal given. given ≡ own_refused refusal };

    fn from(refusal: OwnRefusal) -> OwnFault {
        match refusal {
            OwnRefusal::IssueSum => OwnFault::IssueSum,
            OwnRefusal::TooFew => OwnFault::TooFew,
        }
    }
}

impl From<OwnFault> for Refusal {
    ghost use Rattle.std.specs.Prelude.{◌≡◌};
    ghost use Rattle.cns_depository.specs.Answers.{own_fault_refusal};

    ghost from_gives = { λ fault given. given ≡ own_fault_refusal fault };

    fn from(fault: OwnFault) -> Refusal {
        match fault {
            OwnFault::Down => Refusal::Down,
            OwnFault::Conflict => Refusal::Conflict,
            OwnFault::IssueSum => Refusal::IssueSum,
            OwnFault::TooFew => Refusal::TooFew,
            OwnFault::OutOfMemory => Refusal::OutOfMemory,
            OwnFault::Device => Refusal::Device,
        }
    }
}
