//! A node's records over the journal of its keeper.

ghost use Rattle.std.specs.Prelude.{◌≡◌, ◌≤◌, ℕ, List, [], ◌∷◌, ◌++◌, true, false, Err, IfErr, IfOk, OnOk, length, map, option_map, reverse, slice_get, vec_items};
ghost use Rattle.cns_journal.specs.Replay.{AdmitLeaves, Admits, Rejects, ReplayGives, Reread, records_by};
ghost use Rattle.cns_journal.specs.RecordLog.{HaveOwnPayloads, IsLawfulLog, IsGivenUp, IsOpened, LogCommits, LogPlanned, LogRestarts};

use crate::keeper::{KeepFault, Keeper, MAX_PAYLOAD, NotPlanned};
use std::alloc::{AllocError, Global};
use std::marker::Model;
use thiserror::Error;

/// A record that has a payload.
pub trait Record: Drop {
    /// The payload.
    ghost spelling: { Self → List ℕ };

    /// Whether the record may be written.
    ghost writable: { Self → Type 0 };

    /// Whether a payload of its own stands for the record.
    ghost fits: { Self → Type 0 };

    /// The payload of the record.
    fn write(&self, alloc: Global) -> Result<Vec<u8>, AllocError>
        requires { writable self.now }
        ensures bytes { IfOk result (λ payload. payload.items ≡ spelling self.now) }
        ensures size { IfOk result (λ payload. length payload.items ≤ MAX_PAYLOAD) }
        ensures fits { fits self.now };

    /// Adds the payload of the record behind the bytes that are there; a refusal may leave a part of it.
    ///
    /// An impl that adds it part by part takes no memory but for these bytes.
    fn put(&self, payload: &mut Vec<u8>) -> Result<(), AllocError>
        requires { writable self.now }
        ensures bytes { OnOk result (payload.new.items ≡ payload.old.items ++ spelling self.now) }
        ensures size { OnOk result (length (spelling self.now) ≤ MAX_PAYLOAD) }
        ensures fits { fits self.now }
    {
        let written = self.write(*payload.allocator())?;
        payload.extend_from_slice(written.as_slice())
    }

    /// The record that a payload is.
    fn read(alloc: Global, payload: &[u8]) -> Result<Self, RecordFault>
        ensures spelled { IfOk result (λ r. spelling r ≡ payload.now) }
        ensures fits { IfOk result (λ r. fits r) }
        ensures none { result ≡ Err RecordFault.BadRecord
            → (r : Self) → fits r → spelling r ≡ payload.now → ⊥ };
}

/// Why a payload is not read as a record.
#[derive(Clone, Copy, PartialEq, Eq, Debug, Error)]
pub enum RecordFault {
    /// The payload is no record.
    #[error("not a journal record")]
    BadRecord,
    /// There is no memory for what the record holds.
    #[error("out of memory")]
    OutOfMemory,
}

impl From<AllocError> for RecordFault {
    ghost use Rattle.std.specs.Prelude.{◌≡◌};
    ghost use Rattle.cns_journal.specs.declared.record_log.RecordFault.TheVariants as fault;

    ghost from_gives = { λ refusal given. given ≡ fault.OutOfMemory };

    fn from(_refusal: AllocError) -> RecordFault {
        RecordFault::OutOfMemory
    }
}

/// Why a journal is not read again.
#[derive(Clone, Copy, PartialEq, Eq, Debug, Error)]
pub enum ReplayFault {
    /// There is no memory.
    #[error("out of memory")]
    OutOfMemory,
    /// The payload in this place, counted from 1, is the first one that is no record, or of a record
    /// that may not stand after those before it.
    #[error("record {place} of the journal is bad")]
    BadJournal { place: u64 },
    /// The device of the journal failed.
    #[error("the journal's device failed")]
    Device,
}

/// What records come to, one after another.
pub trait Ledger: Drop {
    type Record: Record;

    type Context;

    /// Whether a record may stand after these, the newest first.
    ghost allows: { Self.Context → List Self.Record → Self.Record → Type 0 };

    /// Whether this is what the records, the newest first, come to.
    ghost comes_to: { Self → List Self.Record → Type 0 };

    /// Adds a record where it may stand after these, and says whether it may.
    fn admit(
        &mut self,
        context: &Self::Context,
        records: &[Self::Record],
        entry: &Self::Record,
    ) -> Result<bool, AllocError>
        requires comes { comes_to self.old (reverse records.now) }
        requires fits { Self.Record.fits entry.now }
        ensures { IfOk result (Admits (allows context.now (reverse records.now) entry.now)
            (comes_to self.new (entry.now ∷ reverse records.now))) };
}

// Adds the record that a payload is, where it may stand after these.
fn admit<L: Ledger>(
    alloc: Global,
    context: &L::Context,
    ledger: &mut L,
    records: &mut Vec<L::Record>,
    payload: &[u8],
) -> Result<(), ReplayFault>
    requires payloads { HaveOwnPayloads L.Record.spelling L.Record.fits }
    requires comes { L.comes_to ledger.old (reverse records.old.items) }
    ensures list { AdmitLeaves L.Record.spelling (L.allows context.now) L.Record.fits payload.now result records.old.items records.new.items }
    ensures comes { OnOk result (L.comes_to ledger.new (reverse records.new.items)) }
{
    let place = records.len() as u64 + 1;
    let entry = match L::Record::read(alloc, payload) {
        Ok(entry) => entry,
        Err(RecordFault::BadRecord) => return Err(ReplayFault::BadJournal { place }),
        Err(RecordFault::OutOfMemory) => return Err(ReplayFault::OutOfMemory),
    };
    if records.reserve(1).is_err() {
        return Err(ReplayFault::OutOfMemory);
    }
    match ledger.admit(context, records.as_slice(), &entry) {
        Ok(true) => {
            records.push_reserved(entry);
            Ok(())
        }
        Ok(false) => Err(ReplayFault::BadJournal { place }),
        Err(_) => Err(ReplayFault::OutOfMemory),
    }
}

// The records of these payloads.
fn replay<L: Ledger>(
    alloc: Global,
    context: &L::Context,
    ledger: &mut L,
    payloads: &[Vec<u8>],
) -> Result<Vec<L::Record>, ReplayFault>
    requires payloads { HaveOwnPayloads L.Record.spelling L.Record.fits }
    requires comes { L.comes_to ledger.old [] }
    ensures gives { ReplayGives L.Record.spelling (L.allows context.now) L.Record.fits (map vec_items payloads.now) (records_by result) }
    ensures comes { IfOk result (λ records. L.comes_to ledger.new (reverse records.items)) }
{
    let mut records = Vec::new(alloc);
    for payload in payloads {
        if let Err(fault) = admit(alloc, context, ledger, &mut records, payload.as_slice()) {
            return Err(fault);
        }
    }
    Ok(records)
}

// Reads a keeper's journal again, and keeps what it read where a payload is bad.
fn reread<K: Keeper, L: Ledger>(
    alloc: Global,
    keeper: &mut K,
    rejected: &mut Vec<Vec<u8>>,
    context: &L::Context,
    ledger: &mut L,
) -> Result<Vec<L::Record>, ReplayFault>
    requires payloads { HaveOwnPayloads L.Record.spelling L.Record.fits }
    requires comes { L.comes_to ledger.old [] }
    ensures reread { Reread L.Record.spelling (L.allows context.now) L.Record.fits (records_by result) (map vec_items rejected.new.items) (K.state keeper.old) (K.state keeper.new) }
    ensures rejects { Rejects (records_by result) (map vec_items rejected.old.items) (map vec_items rejected.new.items) }
    ensures comes { IfOk result (λ records. L.comes_to ledger.new (reverse records.items)) }
{
    let payloads = match keeper.reopen() {
        Ok(payloads) => payloads,
        Err(KeepFault::Device) => return Err(ReplayFault::Device),
        Err(_) => return Err(ReplayFault::OutOfMemory),
    };
    match replay(alloc, context, ledger, payloads.as_slice()) {
        Ok(records) => {
            *rejected = Vec::new(alloc);
            Ok(records)
        }
        Err(ReplayFault::BadJournal { place }) => {
            *rejected = payloads;
            Err(ReplayFault::BadJournal { place })
        }
        Err(fault) => Err(fault),
    }
}

/// Why a record is not added.
#[derive(Clone, Copy, PartialEq, Eq, Debug, Error)]
pub enum CommitFault {
    /// There is no memory, or the journal is full. Nothing has changed.
    #[error("out of memory")]
    OutOfMemory,
    /// The device of the journal failed. The log is down until it is read again.
    #[error("the journal's device failed")]
    Device,
}

/// A restart that succeeded.
#[derive(Clone, Copy, PartialEq, Eq, Debug)]
pub struct Restarted {
    /// How many records the journal has.
    pub records: u64,
    /// Whether one more record came back than the log held: the one whose commit failed.
    pub kept: bool,
}

/// Records that a keeper acknowledged, one after another, and the one whose commit failed.
#[derive(Drop)]
pub struct RecordLog<K: Keeper, R: Record> {
    keeper: K,
    // The oldest first.
    records: Vec<R>,
    tried: Option<R>,
    down: bool,
    // The payloads of the last reading that found a bad one, until one succeeds.
    rejected: Vec<Vec<u8>>,
    // The payload of the latest record that was to be committed, whose room the next one takes.
    payload: Vec<u8>,
    alloc: Global,
}

impl<K: Keeper, R: Record> Model for RecordLog<K, R> {
    ghost use Rattle.std.specs.Prelude.{map, reverse, vec_items};
    ghost use Rattle.cns_journal.specs.RecordLog.{LogState, IsLog};

    ghost Value = { LogState R };

    ghost view = { λ l. record {
      records = reverse l.records.items;
      tried = l.tried;
      down = l.down;
      rejected = map vec_items l.rejected.items;
      failures = (K.state l.keeper).run.failures;
      honest = (K.state l.keeper).honest;
      foresight = (K.state l.keeper).foresight;
    } };

    ghost invariant = { λ l. IsLog R.spelling R.fits l.records.items l.tried l.down (K.state l.keeper) };
}

/// A refused opening: why, what was read, and the keeper as its reopening left it.
#[derive(Drop)]
pub struct Refused<K> {
    /// The keeper, after its reopening.
    pub keeper: K,
    /// Why the log was not opened.
    pub fault: ReplayFault,
    /// At `BadJournal` the payloads that the keeper gave, the first one first; else none.
    pub rejected: Vec<Vec<u8>>,
}

impl<K: Keeper, R: Record> RecordLog<K, R> {
    /// Reads the keeper's journal again, and opens a log that is up, with the records that it gives; the
    /// ledger becomes what they come to. A refused opening hands the keeper back.
    ///
    /// Refuses `BadJournal` where a payload is no record, or of one that may not stand after those before
    /// it. (This project's own rule.)
    pub fn open<L: Ledger<Record = R>>(
        alloc: Global,
        mut keeper: K,
        context: &L::Context,
        ledger: &mut L,
    ) -> Result<RecordLog<K, R>, Refused<K>>
        requires payloads { HaveOwnPayloads R.spelling R.fits }
        requires comes { L.comes_to ledger.old [] }
        ensures ok { IfOk result (IsOpened R.spelling (L.allows context.now) R.fits (K.state keeper)) }
        ensures err { IfErr result (λ refused. Reread R.spelling (L.allows context.now) R.fits (Err refused.fault) (map vec_items refused.rejected.items) (K.state keeper) (K.state refused.keeper)) }
        ensures none { IfErr result (λ refused. Rejects {A = Unit {0}} (Err refused.fault) [] (map vec_items refused.rejected.items)) }
        ensures comes { IfOk result (λ log. L.comes_to ledger.new log.records) }
    {
        let mut rejected = Vec::new(alloc);
        let records = match reread(alloc, &mut keeper, &mut rejected, context, ledger) {
            Ok(records) => records,
            Err(fault) => {
                return Err(Refused {
                    keeper,
                    fault,
                    rejected,
                });
            }
        };
        Ok(RecordLog {
            keeper,
            records,
            tried: None,
            down: false,
            rejected,
            payload: Vec::new(alloc),
            alloc,
        })
    }

    /// Whether the log is down: from a failure of the device, or a refused restart, until a restart
    /// succeeds.
    pub fn is_down(&self) -> bool
        ensures { result ≡ self.now.down }
    {
        self.down
    }

    /// The records, the first one first.
    pub fn records(&self) -> &[R]
        ensures { reverse result.now ≡ self.now.records }
    {
        self.records.as_slice()
    }

    /// The latest record.
    pub fn latest(&self) -> Option<&R>
        ensures { option_map (λ r. r.now) result ≡ slice_get self.now.records 0 }
    {
        self.records.as_slice().last()
    }

    /// The payloads of the last reading that found a bad one, the first one first; none once a restart
    /// succeeds.
    pub fn rejected(&self) -> &[Vec<u8>]
        ensures { map vec_items result.now ≡ self.now.rejected }
    {
        self.rejected.as_slice()
    }

    /// Makes the next commit of the keeper fail. Its record stands at the restart, or does not.
    ///
    /// Answers `NotPlanned` exactly where the keeper plans no failures. (This project's own rule.)
    pub fn plan(&mut self, stands: bool) -> Result<(), NotPlanned>
        ensures { LogPlanned stands result self.old self.new }
    {
        self.keeper.plan(stands)
    }

    /// Gives the keeper up. An honest one has the records just as the log has them, where that is up; where
    /// it is down, a reopening gives these and at most the one whose commit failed.
    pub fn into_keeper(self) -> K
        ensures { IsGivenUp R.spelling self (K.state result) }
    {
        self.keeper
    }

    /// Commits a record, and adds it once it is acknowledged.
    #[inline(always)]
    pub fn commit(&mut self, entry: R) -> Result<(), CommitFault>
        requires up { self.old.down ≡ false }
        requires writable { R.writable entry }
        ensures leaves { LogCommits entry result self.old self.new }
        ensures fits { OnOk result (R.fits entry) }
    {
        self.payload.clear();
        if entry.put(&mut self.payload).is_err() || self.records.reserve(1).is_err() {
            return Err(CommitFault::OutOfMemory);
        }
        match self.keeper.commit(self.payload.as_slice()) {
            Ok(()) => {
                self.records.push_reserved(entry);
                Ok(())
            }
            Err(KeepFault::Memory) => Err(CommitFault::OutOfMemory),
            Err(KeepFault::Down) => unreachable!(),
            Err(KeepFault::Device) => {
                self.tried = Some(entry);
                self.down = true;
                Err(CommitFault::Device)
            }
        }
    }

    /// Reads the journal again, and puts the log up. At `BadJournal` the log keeps what it read
    /// (`rejected`).
    pub fn restart<L: Ledger<Record = R>>(
        &mut self,
        context: &L::Context,
        ledger: &mut L,
    ) -> Result<Restarted, ReplayFault>
        requires comes { L.comes_to ledger.old [] }
        requires lawful { IsLawfulLog (L.allows context.now) self.old }
        requires payloads { HaveOwnPayloads R.spelling R.fits }
        ensures leaves { LogRestarts R.spelling (L.allows context.now) R.fits result self.old self.new }
        ensures comes { OnOk result (L.comes_to ledger.new self.new.records) }
    {
        self.down = true;
        let records = match reread(
            self.alloc,
            &mut self.keeper,
            &mut self.rejected,
            context,
            ledger,
        ) {
            Ok(records) => records,
            Err(fault) => return Err(fault),
        };
        let kept = records.len() == self.records.len() + 1;
        self.records = records;
        self.tried = None;
        self.down = false;
        Ok(Restarted {
            records: self.records.len() as u64,
            kept,
        })
    }
}
