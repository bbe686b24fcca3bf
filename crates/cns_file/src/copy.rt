//! A keeper over a copy of a journal's file.

ghost use Rattle.std.specs.Prelude.{◌≡◌, ◌≤◌, true, Err, IfOk, IsErr, length, map, vec_items};
ghost use Rattle.cns_journal.specs.DiskJournal.{nothing_known};
ghost use Rattle.cns_journal.specs.Keeper.{CommitForeseen, CommitKeeps, CommitLeaves, PlanLeaves, ReopenForeseen, ReopenKeeps, ReopenLeaves, given_by};
ghost use Rattle.cns_journal.specs.Layout.{journal_of};
ghost use Rattle.cns_journal.specs.declared.keeper.KeepFault.TheVariants.{Memory};
ghost use Rattle.cns_file.specs.Copy.{CopyReopen, kept_by, copy_running};

use crate::record::first_record;
use cns_journal::{KeepFault, Keeper, MAX_RECORDS, NotPlanned};
use std::alloc::{AllocError, Global};
use std::marker::Model;

// The payloads of the records of a file, each in a `Vec` of its own.
fn payloads_of(alloc: Global, file: &[u8]) -> Result<Vec<Vec<u8>>, AllocError>
    ensures value { IfOk result (λ payloads. map vec_items (vec_items payloads) ≡ journal_of file.now) }
    ensures limit { IfOk result (λ payloads. length (vec_items payloads) ≤ MAX_RECORDS) }
{
    let mut payloads = Vec::new(alloc);
    let mut rest = file;
    'records: while let Some(record) = first_record(rest) {
        payloads.push(record.payload.to_vec(alloc)?)?;
        rest = record.behind;
    }
    Ok(payloads)
}

/// A keeper over a copy of a journal's file in memory, which it only reads.
///
/// Contracts see the bytes of the copy, and how many records the last reopening gave. It is honest and
/// up, and it takes no record. (This project's own rules.)
#[derive(Drop)]
pub struct FileCopy<'a> {
    file: &'a [u8],
    count: u64,
    alloc: Global,
}

impl<'a> Model for FileCopy<'a> {
    ghost use Rattle.std.specs.Prelude.{◌≤◌};
    ghost use Rattle.cns_journal.specs.declared.keeper.TheConstants.{MAX_RECORDS};
    ghost use Rattle.cns_file.specs.Copy.{CopyState};

    ghost Value = { CopyState };

    ghost view = { λ c. record { file = c.file.now; count = c.count } };

    ghost invariant = { λ c. c.count ≤ MAX_RECORDS };
}

impl<'a> FileCopy<'a> {
    /// A keeper over these bytes, which counts no records before its first reopening.
    pub fn new(alloc: Global, file: &'a [u8]) -> FileCopy<'a>
        ensures { result ≡ record { file = file.now; count = 0 } }
    {
        FileCopy {
            file,
            count: 0,
            alloc,
        }
    }
}

impl Keeper for FileCopy<'_> {
    ghost state = { λ c. record { honest = true; run = copy_running c; journal = kept_by c; foresight = nothing_known } };

    /// Always answers `Memory`, and changes nothing: a copy takes no record.
    fn commit(&mut self, _payload: &[u8]) -> Result<(), KeepFault>
        ensures leaves { CommitLeaves result (copy_running self.old) (copy_running self.new) }
        ensures keeps { CommitKeeps _payload.now result (kept_by self.old) (kept_by self.new) }
        ensures foreseen { CommitForeseen result nothing_known nothing_known }
        ensures refused { result ≡ Err Memory }
        ensures unchanged { self.new ≡ self.old }
    {
        Err(KeepFault::Memory)
    }

    /// Gives the records of the copy, the oldest first. Refused only for want of memory, and then nothing
    /// has changed.
    fn reopen(&mut self) -> Result<Vec<Vec<u8>>, KeepFault>
        ensures leaves { ReopenLeaves (given_by result) (copy_running self.old) (copy_running self.new) }
        ensures keeps { ReopenKeeps (given_by result) (kept_by self.old) (kept_by self.new) }
        ensures foreseen { ReopenForeseen (given_by result) nothing_known nothing_known }
        ensures exact { CopyReopen (given_by result) self.old self.new }
    {
        let payloads = payloads_of(self.alloc, self.file)?;
        self.count = payloads.len() as u64;
        Ok(payloads)
    }

    /// Never: a copy is always up.
    fn is_down(&self) -> bool {
        false
    }

    fn count(&self) -> u64 {
        self.count
    }

    /// Always refused: of a copy nothing is known beforehand.
    fn plan(&mut self, _stands: bool) -> Result<(), NotPlanned>
        ensures keeps { kept_by self.new ≡ kept_by self.old }
        ensures foreseen { PlanLeaves _stands result nothing_known nothing_known }
        ensures refused { IsErr result }
        ensures unchanged { self.new ≡ self.old }
    {
        Err(NotPlanned)
    }
}
