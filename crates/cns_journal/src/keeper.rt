//! What every keeper of a journal promises.

ghost use Rattle.std.specs.Prelude.{◌≡◌, ◌≤◌, true, false, None, length};
ghost use Rattle.cns_journal.specs.Keeper.{KeeperState, CommitLeaves, CommitKeeps, CommitForeseen, ReopenLeaves, ReopenKeeps, ReopenForeseen, StandsAsForeseen, PlanLeaves, given_by};

use crate::disk::DiskFault;
use std::alloc::{AllocError, AllocFailed};
use thiserror::Error;

/// The longest payload that a record may have, in bytes. (This project's own limit.)
pub const MAX_PAYLOAD: usize = 1_048_576;

/// The most records that a keeper counts. (This project's own limit.)
pub const MAX_RECORDS: u64 = 4_611_686_018_427_387_904;

/// Why a keeper refuses a call.
#[derive(Clone, Copy, PartialEq, Eq, Debug, Error)]
pub enum KeepFault {
    /// There is no memory, or the keeper counts `MAX_RECORDS` records. Nothing has changed.
    #[error("out of memory")]
    Memory,
    /// The keeper is down. Nothing has changed.
    #[error("the journal is down")]
    Down,
    /// The device of the journal failed. The keeper is down until it is reopened.
    #[error("the journal's device failed")]
    Device,
}

impl From<AllocError> for KeepFault {
    ghost use Rattle.std.specs.Prelude.{◌≡◌};
    ghost use Rattle.cns_journal.specs.declared.keeper.KeepFault.TheVariants.{Memory};

    ghost from_gives = { λ _ fault. fault ≡ Memory };

    fn from(_: AllocError) -> KeepFault {
        KeepFault::Memory
    }
}

impl<T: Drop> From<AllocFailed<T>> for KeepFault {
    ghost use Rattle.std.specs.Prelude.{◌≡◌};
    ghost use Rattle.cns_journal.specs.declared.keeper.KeepFault.TheVariants.{Memory};

    ghost from_gives = { λ _ fault. fault ≡ Memory };

    fn from(_: AllocFailed<T>) -> KeepFault {
        KeepFault::Memory
    }
}

impl From<DiskFault> for KeepFault {
    ghost use Rattle.std.specs.Prelude.{◌≡◌};
    ghost use Rattle.cns_journal.specs.declared.keeper.KeepFault.TheVariants.{Device};

    ghost from_gives = { λ _ fault. fault ≡ Device };

    fn from(_: DiskFault) -> KeepFault {
        KeepFault::Device
    }
}

/// The keeper plans no failures.
#[derive(Clone, Copy, PartialEq, Eq, Debug, Error)]
#[error("this journal plans no failures")]
pub struct NotPlanned;

/// A journal of records, each a payload of bytes, that is read again after a failure.
///
/// A keeper is up or down. One that is up goes down only by answering `Device`, and a reopening that
/// succeeds is what brings it up. What is said of the journal's records holds where the keeper is
/// honest, and each call leaves it as honest as it was; the rest holds always. (This project's own
/// rules.)
pub trait Keeper {
    /// Whether a reopening gives what was acknowledged; whether the keeper is down, how often its device
    /// has failed, and how many records it counts; the acknowledged records, and the one whose commit
    /// failed; and what is known beforehand of the next commit, and of the undecided record at the
    /// reopening, which of a real device is nothing.
    ghost state: { Self → KeeperState };

    /// Adds a record, and answers `Ok` once it is acknowledged.
    ///
    /// Answers `Down` only where the keeper is down, and there nothing but `Down` or `Memory`. After
    /// `Device` the record is undecided, and the keeper is down.
    fn commit(&mut self, payload: &[u8]) -> Result<(), KeepFault>
        requires { length payload.now ≤ MAX_PAYLOAD }
        ensures honest { (state self.new).honest ≡ (state self.old).honest }
        ensures leaves { CommitLeaves result (state self.old).run (state self.new).run }
        ensures keeps { (state self.old).honest ≡ true
            → CommitKeeps payload.now result (state self.old).journal (state self.new).journal }
        ensures foreseen { CommitForeseen result (state self.old).foresight (state self.new).foresight };

    /// Reads the journal again, and gives its records: those that were acknowledged, then at most the
    /// undecided one. They are acknowledged from then on, and the keeper is up.
    ///
    /// Answers `Memory`, and then nothing has changed, or `Device`, and then the keeper is down. Either
    /// leaves the acknowledged records and the undecided one.
    fn reopen(&mut self) -> Result<Vec<Vec<u8>>, KeepFault>
        ensures honest { (state self.new).honest ≡ (state self.old).honest }
        ensures leaves { ReopenLeaves (given_by result) (state self.old).run (state self.new).run }
        ensures keeps { (state self.old).honest ≡ true
            → ReopenKeeps (given_by result) (state self.old).journal (state self.new).journal }
        ensures foreseen { ReopenForeseen (given_by result) (state self.old).foresight (state self.new).foresight }
        ensures stands { (state self.old).honest ≡ true
            → StandsAsForeseen (state self.old).foresight.stands (given_by result) (state self.old).journal };

    /// Whether the keeper is down. While it is up, no record is undecided.
    fn is_down(&self) -> bool
        ensures value { result ≡ (state self.now).run.down }
        ensures decided { (state self.now).honest ≡ true → result ≡ false
            → (state self.now).journal.undecided ≡ None };

    /// The records that the last reopening gave, none before the first, and those acknowledged since.
    fn count(&self) -> u64
        ensures value { result ≡ (state self.now).run.count }
        ensures limit { result ≤ MAX_RECORDS };

    /// Makes the next commit fail at the device. Its record stands at the reopening, or does not.
    ///
    /// Answers `NotPlanned` exactly where nothing is known beforehand of the keeper. Whatever it
    /// answers, nothing but what is known of the next commit has changed.
    fn plan(&mut self, stands: bool) -> Result<(), NotPlanned>
        ensures honest { (state self.new).honest ≡ (state self.old).honest }
        ensures leaves { (state self.new).run ≡ (state self.old).run }
        ensures keeps { (state self.old).honest ≡ true → (state self.new).journal ≡ (state self.old).journal }
        ensures foreseen { PlanLeaves stands result (state self.old).foresight (state self.new).foresight };
}
