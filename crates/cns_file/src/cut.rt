//! A disk that keeps what is cut off its file.

ghost use Rattle.std.specs.Prelude.{◌≡◌, ℕ, ◌+◌, ◌<◌, ◌≤◌, Bool, true, List, [], ◌∷◌, ◌++◌, length, take, drop, vec_items, IfOk, OnOk};
ghost use Rattle.cns_journal.specs.Disk.{CountsFailure, DoesNothing, Elapses, Follows, Shortened};
ghost use Rattle.cns_journal.specs.Keeper.{HasRisen};
ghost use Rattle.cns_file.specs.Cut.{CrashLosesNothing, IsCutKept, IsRead, LosesNothing};

use cns_journal::{Disk, DiskFault};
use std::alloc::Global;
use std::marker::Model;

/// Where what is cut off a file is kept. (This project's own rules.)
pub trait Scraps {
    /// Whether what is said of the pieces holds.
    ghost honest: { Self → Bool };

    /// The pieces that are kept, each with the place from which it stood in the file, the oldest first.
    ghost pieces: { Self → List (ℕ × List ℕ) };

    /// Keeps the bytes that stood from a place on, and waits until they are on the disk.
    fn keep(&mut self, from: u64, bytes: &[u8]) -> Result<(), DiskFault>
        ensures honest { honest self.new ≡ honest self.old }
        ensures kept { honest self.old ≡ true
            → OnOk result (pieces self.new ≡ pieces self.old ++ (from, bytes.now) ∷ []) };
}

// Counts a failure.
fn fault(failures: &mut u64) -> DiskFault
    ensures { HasRisen failures.old failures.new }
{
    *failures = failures.saturating_add(1);
    DiskFault
}

// The bytes from a place on, which are so many.
fn read_behind<D: Disk>(
    alloc: Global,
    disk: &mut D,
    at: u64,
    count: usize,
) -> Result<Vec<u8>, DiskFault>
    ensures honest { D.honest disk.new ≡ D.honest disk.old }
    ensures value { D.honest disk.old ≡ true → at + count ≡ length (D.seen disk.old)
        → IfOk result (λ bytes. vec_items bytes ≡ drop at (D.seen disk.old)) }
    ensures reads { D.honest disk.old ≡ true → IsRead D.seen D.images D.moment D.left_since disk.old disk.new }
{
    let Ok(mut bytes) = Vec::from_elem(alloc, 0, count) else {
        return Err(DiskFault);
    };
    disk.read(at, bytes.as_mut_slice())?;
    Ok(bytes)
}

// Keeps what stands behind a place of the file, where anything does.
fn keep_behind<D: Disk, S: Scraps>(
    alloc: Global,
    disk: &mut D,
    scraps: &mut S,
    at: u64,
) -> Result<(), DiskFault>
    ensures honest { D.honest disk.new ≡ D.honest disk.old }
    ensures reads { D.honest disk.old ≡ true → IsRead D.seen D.images D.moment D.left_since disk.old disk.new }
    ensures kept { D.honest disk.old ≡ true → S.honest scraps.old ≡ true
        → OnOk result (IsCutKept at (D.seen disk.old) (S.pieces scraps.old) (S.pieces scraps.new)) }
    ensures scraps_honest { S.honest scraps.new ≡ S.honest scraps.old }
    ensures untouched { D.honest disk.old ≡ true → length (D.seen disk.old) ≤ at → scraps.new ≡ scraps.old }
{
    let end = disk.len()?;
    if end <= at {
        return Ok(());
    }
    let bytes = read_behind(alloc, disk, at, (end - at) as usize)?;
    scraps.keep(at, bytes.as_slice())
}

// Cuts the file once what it cuts off is kept.
fn cut_kept<D: Disk, S: Scraps>(
    alloc: Global,
    disk: &mut D,
    scraps: &mut S,
    len: u64,
) -> Result<(), DiskFault>
    ensures honest { D.honest disk.new ≡ D.honest disk.old }
    ensures cut { D.honest disk.old ≡ true → len ≤ length (D.seen disk.old)
        → OnOk result (D.seen disk.new ≡ take len (D.seen disk.old)) }
    ensures outside { D.honest disk.old ≡ true → length (D.seen disk.old) < len → DoesNothing D.seen D.images result disk.old disk.new }
    ensures crash { D.honest disk.old ≡ true → len ≤ length (D.seen disk.old)
        → Follows (Shortened len) (D.images disk.old) (D.images disk.new) }
    ensures time { D.honest disk.old ≡ true
        → Elapses (D.moment disk.old) (D.moment disk.new) (D.left_since disk.old) (D.left_since disk.new) (D.images disk.new) }
    ensures nothing_lost { D.honest disk.old ≡ true → S.honest scraps.old ≡ true
        → LosesNothing len (D.seen disk.old) (D.seen disk.new) (S.pieces scraps.old) (S.pieces scraps.new) }
    ensures crash_loses_nothing { D.honest disk.old ≡ true → S.honest scraps.old ≡ true
        → CrashLosesNothing len (D.seen disk.old) (D.images disk.old) (D.images disk.new) (S.pieces scraps.old) (S.pieces scraps.new) }
    ensures kept { D.honest disk.old ≡ true → S.honest scraps.old ≡ true
        → OnOk result (IsCutKept len (D.seen disk.old) (S.pieces scraps.old) (S.pieces scraps.new)) }
    ensures scraps_honest { S.honest scraps.new ≡ S.honest scraps.old }
    ensures untouched { D.honest disk.old ≡ true → length (D.seen disk.old) ≤ len → scraps.new ≡ scraps.old }
{
    keep_behind(alloc, disk, scraps, len)?;
    disk.cut(len)
}

/// A disk that cuts its file only once what it cuts off is kept.
///
/// Contracts see the disk, where the pieces are kept, and how often a call has failed: at the disk, at the
/// pieces, or for want of memory. It is honest where the disk is. (This project's own rules.)
#[derive(Drop)]
pub struct CutsKept<D: Disk, S: Scraps> {
    disk: D,
    scraps: S,
    failures: u64,
    alloc: Global,
}

impl<D: Disk, S: Scraps> Model for CutsKept<D, S> {
    ghost use Rattle.cns_file.specs.Cut.{CutState};

    ghost Value = { CutState D S };

    ghost view = { λ c. record { disk = c.disk; scraps = c.scraps; failures = c.failures } };
}

impl<D: Disk, S: Scraps> CutsKept<D, S> {
    /// A disk over this one, which keeps what it cuts off there. No call has failed.
    pub fn new(alloc: Global, disk: D, scraps: S) -> CutsKept<D, S>
        ensures { result ≡ record { disk = disk; scraps = scraps; failures = 0 } }
    {
        CutsKept {
            disk,
            scraps,
            failures: 0,
            alloc,
        }
    }

    /// Gives the disk back, and what keeps the pieces.
    pub fn into_parts(self) -> (D, S)
        ensures disk { result.0 ≡ self.disk }
        ensures scraps { result.1 ≡ self.scraps }
    {
        (self.disk, self.scraps)
    }
}

impl<D: Disk, S: Scraps> Disk for CutsKept<D, S> {
    ghost honest = { λ c. D.honest c.disk };

    ghost seen = { λ c. D.seen c.disk };

    ghost images = { λ c. D.images c.disk };

    ghost moment = { λ c. D.moment c.disk };

    ghost left_since = { λ c. D.left_since c.disk };

    ghost failures = { λ c. c.failures };

    ghost counts_now = { λ c. D.counts_now c.disk };

    ghost only_now = { λ c. D.only_now c.disk };

    ghost reads_an_image = { λ c. D.reads_an_image c.disk };

    fn len(&mut self) -> Result<u64, DiskFault> {
        match self.disk.len() {
            Ok(bytes) => Ok(bytes),
            Err(_) => Err(fault(&mut self.failures)),
        }
    }

    fn read(&mut self, at: u64, into: &mut [u8]) -> Result<(), DiskFault> {
        match self.disk.read(at, into) {
            Ok(()) => Ok(()),
            Err(_) => Err(fault(&mut self.failures)),
        }
    }

    fn write_at(&mut self, at: u64, bytes: &[u8]) -> Result<(), DiskFault> {
        match self.disk.write_at(at, bytes) {
            Ok(()) => Ok(()),
            Err(_) => Err(fault(&mut self.failures)),
        }
    }

    /// Where the file is longer, what it cuts off is kept first, and it is cut only then. So nothing is
    /// lost, whether it succeeds or fails, nor by a crash.
    fn cut(&mut self, len: u64) -> Result<(), DiskFault>
        ensures honest { D.honest self.new.disk ≡ D.honest self.old.disk }
        ensures cut { D.honest self.old.disk ≡ true → len ≤ length (D.seen self.old.disk)
            → OnOk result (D.seen self.new.disk ≡ take len (D.seen self.old.disk)) }
        ensures outside { D.honest self.old.disk ≡ true → length (D.seen self.old.disk) < len
            → DoesNothing D.seen D.images result self.old.disk self.new.disk }
        ensures crash { D.honest self.old.disk ≡ true → len ≤ length (D.seen self.old.disk)
            → Follows (Shortened len) (D.images self.old.disk) (D.images self.new.disk) }
        ensures time { D.honest self.old.disk ≡ true
            → Elapses (D.moment self.old.disk) (D.moment self.new.disk) (D.left_since self.old.disk) (D.left_since self.new.disk) (D.images self.new.disk) }
        ensures failures { CountsFailure result self.old.failures self.new.failures }

        // What stood behind the place is kept where the file is cut, and the file is not cut before it is.
        ensures nothing_lost { D.honest self.old.disk ≡ true → S.honest self.old.scraps ≡ true
            → LosesNothing len (D.seen self.old.disk) (D.seen self.new.disk) (S.pieces self.old.scraps) (S.pieces self.new.scraps) }
        ensures crash_loses_nothing { D.honest self.old.disk ≡ true → S.honest self.old.scraps ≡ true
            → CrashLosesNothing len (D.seen self.old.disk) (D.images self.old.disk) (D.images self.new.disk) (S.pieces self.old.scraps) (S.pieces self.new.scraps) }
        ensures kept { D.honest self.old.disk ≡ true → S.honest self.old.scraps ≡ true
            → OnOk result (IsCutKept len (D.seen self.old.disk) (S.pieces self.old.scraps) (S.pieces self.new.scraps)) }
        ensures scraps_honest { S.honest self.new.scraps ≡ S.honest self.old.scraps }
        ensures untouched { D.honest self.old.disk ≡ true → length (D.seen self.old.disk) ≤ len → self.new.scraps ≡ self.old.scraps }
    {
        match cut_kept(self.alloc, &mut self.disk, &mut self.scraps, len) {
            Ok(()) => Ok(()),
            Err(_) => Err(fault(&mut self.failures)),
        }
    }

    fn sync(&mut self) -> Result<(), DiskFault> {
        match self.disk.sync() {
            Ok(()) => Ok(()),
            Err(_) => Err(fault(&mut self.failures)),
        }
    }
}
