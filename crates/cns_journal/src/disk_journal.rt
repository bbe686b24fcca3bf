//! A journal on a disk.

ghost use Rattle.std.specs.Prelude.{◌≡◌, ◌⊎◌, ◌≤◌, true, false, None, ℕ, List, length, map, vec_items, IfOk, OnOk, IsErr, IsErrOf};
ghost use Rattle.cns_journal.specs.declared.keeper.KeepFault.TheVariants.{Memory, Down};
ghost use Rattle.cns_journal.specs.Disk.{EachImage, LeavesOnly, Only};
ghost use Rattle.cns_journal.specs.Keeper.{CommitKeeps, CommitLeaves, IsReopened, ReopenForeseen, ReopenKeeps, ReopenLeaves, given_by};
ghost use Rattle.cns_journal.specs.Layout.{HasWithOrWithout, journal_of};
ghost use Rattle.cns_journal.specs.Tail.{DoesNoDamage, IsUndamaged};
ghost use Rattle.cns_journal.specs.DiskJournal.{AnyCalls, AnyCallsDoNoDamage, Commit, IsCall, IsDurable, Reopen, fallen, nothing_known};

use crate::disk::Disk;
use crate::keeper::{KeepFault, Keeper, MAX_PAYLOAD, NotPlanned};
use crate::record_file::{Records, append, close_record, reread, take_in};
use std::alloc::Global;
use std::marker::Model;
use std::mem;

// Whether the file was read, whether the journal is up, and where its records end: there stands the gate
// that the next commit opens.
#[derive(Clone, Copy)]
enum Stage {
    Unread,
    Up(u64),
    Down(u64),
}

impl Stage {
    // The stage after a failure of the device.
    fn fallen(self) -> Stage
        ensures { result ≡ fallen self }
    {
        match self {
            Stage::Unread => Stage::Unread,
            Stage::Up(end) | Stage::Down(end) => Stage::Down(end),
        }
    }
}

/// A journal in the file of a disk. It is down until it is reopened, and it is honest where its disk is.
///
/// After a crash at any moment the file stands for the acknowledged records, and then at most the one
/// whose commit was under way or had failed. (This project's own rules.)
///
/// Two lists keep their memory from commit to commit, and stand for nothing between two: what a commit writes
/// behind its gate, and its payload, which is there if the device fails.
#[derive(Drop)]
pub struct DiskJournal<D: Disk> {
    disk: D,
    stage: Stage,
    count: u64,
    undecided: Option<Vec<u8>>,
    behind_gate: Vec<u8>,
    payload: Vec<u8>,
    alloc: Global,
}

impl<D: Disk> Model for DiskJournal<D> {
    ghost use Rattle.std.specs.Prelude.{option_map, vec_items};
    ghost use Rattle.cns_journal.specs.DiskJournal.{DiskState, IsJournal, down_at, kept_of};

    ghost Value = { DiskState D };

    ghost view = { λ j. record {
      disk = j.disk;
      run = record { down = down_at j.stage; failures = D.failures j.disk; count = j.count };
      journal = record { kept = kept_of j.stage (D.seen j.disk); undecided = option_map vec_items j.undecided };
    } };

    ghost invariant = { λ j. IsJournal (D.honest j.disk) (D.seen j.disk) (D.images j.disk) j.stage j.count (option_map vec_items j.undecided) };
}

impl<D: Disk> DiskJournal<D> {
    /// A journal on this disk, which no call is made of yet: it keeps what the file reads as. Where all of
    /// the file is on the disk, so does what a crash leaves.
    pub fn new(alloc: Global, disk: D) -> DiskJournal<D>
        ensures value { result ≡ record {
          disk = disk;
          run = record { down = true; failures = D.failures disk; count = 0 };
          journal = record { kept = journal_of (D.seen disk); undecided = None };
        } }
        ensures durable { Only (D.seen disk) (D.images disk) → IsDurable D.images result }
    {
        DiskJournal {
            disk,
            stage: Stage::Unread,
            count: 0,
            undecided: None,
            behind_gate: Vec::new(alloc),
            payload: Vec::new(alloc),
            alloc,
        }
    }

    // Adds a record behind the others.
    fn add(&mut self, payload: &[u8]) -> Result<(), KeepFault>
        requires { length payload.now ≤ MAX_PAYLOAD }
        ensures honest { D.honest self.new.disk ≡ D.honest self.old.disk }
        ensures leaves { CommitLeaves result self.old.run self.new.run }
        ensures keeps { D.honest self.old.disk ≡ true → CommitKeeps payload.now result self.old.journal self.new.journal }
        ensures any_moment { D.honest self.old.disk ≡ true → self.old.run.down ≡ false
            → LeavesOnly D.moment D.left_since self.old.disk self.new.disk (HasWithOrWithout self.old.journal.kept payload.now) }
        ensures durable { D.honest self.old.disk ≡ true
            → OnOk result (EachImage (D.images self.new.disk) (λ image. journal_of image ≡ self.new.journal.kept)) }
        ensures no_damage { D.honest self.old.disk ≡ true → EachImage (D.images self.old.disk) IsUndamaged
            → DoesNoDamage D.images D.moment D.left_since self.old.disk self.new.disk }
        ensures unchanged { (IsErrOf result Memory ⊎ IsErrOf result Down) → self.new ≡ self.old }
    {
        let Stage::Up(end) = self.stage else {
            return Err(KeepFault::Down);
        };
        close_record(&mut self.behind_gate, payload)?;
        take_in(&mut self.payload, payload)?;
        match append(&mut self.disk, end, payload, self.behind_gate.as_slice()) {
            Ok(()) => {
                self.stage = Stage::Up(end + 5 + payload.len() as u64);
                self.count += 1;
                Ok(())
            }
            Err(_) => {
                self.stage = Stage::Down(end);
                self.undecided = Some(mem::replace(&mut self.payload, Vec::new(self.alloc)));
                Err(KeepFault::Device)
            }
        }
    }

    // Reads the file again, and gives its records.
    fn read_again(&mut self) -> Result<Vec<Vec<u8>>, KeepFault>
        ensures honest { D.honest self.new.disk ≡ D.honest self.old.disk }
        ensures leaves { ReopenLeaves (given_by result) self.old.run self.new.run }
        ensures keeps { D.honest self.old.disk ≡ true → ReopenKeeps (given_by result) self.old.journal self.new.journal }
        ensures foreseen { ReopenForeseen (given_by result) nothing_known nothing_known }
        ensures value { D.honest self.old.disk ≡ true
            → IfOk result (λ records. map vec_items (vec_items records) ≡ journal_of (D.seen self.old.disk)) }
        ensures any_moment { D.honest self.old.disk ≡ true
            → IsDurable D.images self.old
            → LeavesOnly D.moment D.left_since self.old.disk self.new.disk (λ image. IsReopened self.old.journal (journal_of image)) }
        ensures durable { D.honest self.old.disk ≡ true
            → IfOk result (λ records. EachImage (D.images self.new.disk) (λ image. journal_of image ≡ map vec_items (vec_items records))) }
        ensures no_damage { D.honest self.old.disk ≡ true → EachImage (D.images self.old.disk) IsUndamaged
            → DoesNoDamage D.images D.moment D.left_since self.old.disk self.new.disk }
    {
        match reread(self.alloc, &mut self.disk) {
            Ok(Records { payloads, end, .. }) => {
                self.stage = Stage::Up(end);
                self.count = payloads.len() as u64;
                self.undecided = None;
                Ok(payloads)
            }
            Err(KeepFault::Device) => {
                self.stage = self.stage.fallen();
                Err(KeepFault::Device)
            }
            Err(fault) => Err(fault),
        }
    }

    /// Gives the disk back.
    pub fn into_disk(self) -> D
        ensures disk { result ≡ self.disk }
        ensures keeps { D.honest self.disk ≡ true → IsReopened self.journal (journal_of (D.seen self.disk)) }
    {
        self.disk
    }
}

impl<D: Disk> Keeper for DiskJournal<D> {
    ghost state = { λ j. record { honest = D.honest j.disk; run = j.run; journal = j.journal; foresight = nothing_known } };

    /// Nothing has been written where it answers `Memory` or `Down`. A crash at any moment of the call
    /// leaves the acknowledged records, with the new one or without; once it has answered `Ok`, with it. It
    /// does no damage to the file.
    fn commit(&mut self, payload: &[u8]) -> Result<(), KeepFault>
        requires { length payload.now ≤ MAX_PAYLOAD }
        ensures honest { D.honest self.new.disk ≡ D.honest self.old.disk }
        ensures leaves { CommitLeaves result self.old.run self.new.run }
        ensures keeps { D.honest self.old.disk ≡ true → CommitKeeps payload.now result self.old.journal self.new.journal }
        ensures any_moment { D.honest self.old.disk ≡ true → self.old.run.down ≡ false
            → LeavesOnly D.moment D.left_since self.old.disk self.new.disk (HasWithOrWithout self.old.journal.kept payload.now) }
        ensures durable { D.honest self.old.disk ≡ true
            → OnOk result (EachImage (D.images self.new.disk) (λ image. journal_of image ≡ self.new.journal.kept)) }
        ensures unchanged { (IsErrOf result Memory ⊎ IsErrOf result Down) → self.new ≡ self.old }

        // So it is whatever calls came before: what a crash may leave stands for what is kept.
        ensures call { D.honest self.old.disk ≡ true
            → IsCall D.images D.moment D.left_since (Commit payload.now) self.old self.new }
    {
        self.add(payload)
    }

    /// Gives what the file reads as. Where what a crash may leave stands for what is kept, a crash at any
    /// moment of the call leaves a file that does; once it has answered `Ok`, each stands for what was given.
    /// A crash does no damage to the file.
    fn reopen(&mut self) -> Result<Vec<Vec<u8>>, KeepFault>
        ensures honest { D.honest self.new.disk ≡ D.honest self.old.disk }
        ensures leaves { ReopenLeaves (given_by result) self.old.run self.new.run }
        ensures keeps { D.honest self.old.disk ≡ true → ReopenKeeps (given_by result) self.old.journal self.new.journal }
        ensures foreseen { ReopenForeseen (given_by result) nothing_known nothing_known }
        ensures value { D.honest self.old.disk ≡ true
            → IfOk result (λ records. map vec_items (vec_items records) ≡ journal_of (D.seen self.old.disk)) }
        ensures call { D.honest self.old.disk ≡ true → IsCall D.images D.moment D.left_since Reopen self.old self.new }
        ensures durable { D.honest self.old.disk ≡ true
            → IfOk result (λ records. EachImage (D.images self.new.disk) (λ image. journal_of image ≡ map vec_items (vec_items records))) }
    {
        self.read_again()
    }

    /// While the journal is up, each image of the disk stands for the acknowledged records.
    fn is_down(&self) -> bool
        ensures value { result ≡ self.now.run.down }
        ensures decided { result ≡ false → self.now.journal.undecided ≡ None }
        ensures durable { D.honest self.now.disk ≡ true → result ≡ false
            → EachImage (D.images self.now.disk) (λ image. journal_of image ≡ self.now.journal.kept) }
    {
        !matches!(self.stage, Stage::Up(_))
    }

    fn count(&self) -> u64 {
        self.count
    }

    /// Of a disk nothing is known beforehand.
    fn plan(&mut self, _stands: bool) -> Result<(), NotPlanned>
        ensures refused { IsErr result }
        ensures unchanged { self.new ≡ self.old }
    {
        Err(NotPlanned)
    }
}

/// Whatever calls a journal gets, and whenever a crash comes, the file that it leaves stands for what was
/// acknowledged before the call under way, and then for at most the record of that call or the undecided
/// one, where the disk is honest and what a crash left before the first call did so. Nor does what stands
/// behind its records become damage, where what a crash left before the first call was none.
pub fn outlasts_crashes<D: Disk>()
    ensures records { AnyCalls D.honest D.images D.moment D.left_since }
    ensures no_damage { AnyCallsDoNoDamage D.honest D.images D.moment D.left_since }
{}
