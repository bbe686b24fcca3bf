//! A keeper in memory.

ghost use Rattle.std.specs.Prelude.{◌≡◌, ◌≤◌, ℕ, List, [], map, vec_items, length, Some, None, true, IfOk, IsOk};
ghost use Rattle.cns_journal.specs.Keeper.{CommitLeaves, CommitKeeps, ReopenLeaves, ReopenKeeps, given_by};
ghost use Rattle.cns_journal.specs.ListKeeper.{running_of, journal_of, foresight_of, ListCommit, ListReopen};

use crate::keeper::{KeepFault, Keeper, MAX_PAYLOAD, NotPlanned};
use crate::payloads::Payloads;
use std::alloc::Global;
use std::marker::Model;

// A record whose commit failed, and whether it stands at the reopening.
#[derive(Drop)]
struct FailedRecord {
    payload: Vec<u8>,
    stands: bool,
}

impl Model for FailedRecord {
    ghost use Rattle.std.specs.Prelude.{◌≤◌, length, vec_items};
    ghost use Rattle.cns_journal.specs.declared.keeper.TheConstants.{MAX_PAYLOAD};
    ghost use Rattle.cns_journal.specs.ListKeeper.{Failed};

    ghost Value = { Failed };

    ghost view = { λ f. record { payload = vec_items f.payload; stands = f.stands } };

    ghost invariant = { λ f. length (vec_items f.payload) ≤ MAX_PAYLOAD };
}

/// A keeper in memory, which fails as planned and otherwise only for want of memory.
///
/// Contracts see the records, the undecided one, the plan and the count of failures. It is honest, and
/// it is down while a record is undecided. (This project's own rules.)
#[derive(Drop)]
pub struct ListKeeper {
    kept: Payloads,
    undecided: Option<FailedRecord>,
    plan: Option<bool>,
    failures: u64,
    alloc: Global,
}

impl Model for ListKeeper {
    ghost use Rattle.std.specs.Prelude.{◌≤◌, length};
    ghost use Rattle.cns_journal.specs.declared.keeper.TheConstants.{MAX_RECORDS};
    ghost use Rattle.cns_journal.specs.ListKeeper.{ListState};

    ghost Value = { ListState };

    ghost view = { λ k. record {
      kept = k.kept;
      undecided = k.undecided;
      plan = k.plan;
      failures = k.failures;
    } };

    ghost invariant = { λ k. length k.kept ≤ MAX_RECORDS };
}

impl ListKeeper {
    /// A keeper with no records, which is up.
    pub fn new(alloc: Global) -> ListKeeper
        ensures { result ≡ record { kept = []; undecided = None; plan = None; failures = 0 } }
    {
        ListKeeper {
            kept: Payloads::new(alloc),
            undecided: None,
            plan: None,
            failures: 0,
            alloc,
        }
    }

    /// How many commits have failed as planned; at the largest count it stays.
    pub fn failures(&self) -> u64
        ensures { result ≡ self.now.failures }
    {
        self.failures
    }
}

impl Keeper for ListKeeper {
    ghost state = { λ k. record { honest = true; run = running_of k; journal = journal_of k; foresight = foresight_of k } };

    /// Fails where a failure is planned, which ends the plan; with `Down` or `Memory` the plan stays.
    #[inline(always)]
    fn commit(&mut self, payload: &[u8]) -> Result<(), KeepFault>
        requires { length payload.now ≤ MAX_PAYLOAD }
        ensures leaves { CommitLeaves result (running_of self.old) (running_of self.new) }
        ensures keeps { CommitKeeps payload.now result (journal_of self.old) (journal_of self.new) }
        ensures exact { ListCommit payload.now result self.old self.new }
    {
        if self.undecided.is_some() {
            return Err(KeepFault::Down);
        }
        match self.plan {
            Some(stands) => {
                let payload = payload.to_vec(self.alloc)?;
                self.plan = None;
                self.failures = self.failures.saturating_add(1);
                self.undecided = Some(FailedRecord { payload, stands });
                Err(KeepFault::Device)
            }
            None => {
                self.kept.push(payload)?;
                Ok(())
            }
        }
    }

    /// Refused only for want of memory; the plan stays.
    fn reopen(&mut self) -> Result<Vec<Vec<u8>>, KeepFault>
        ensures leaves { ReopenLeaves (given_by result) (running_of self.old) (running_of self.new) }
        ensures keeps { ReopenKeeps (given_by result) (journal_of self.old) (journal_of self.new) }
        ensures exact { ListReopen (given_by result) self.old self.new }
    {
        let mut given = self.kept.to_vecs(self.alloc)?;
        if let Some(failed) = &self.undecided
            && failed.stands
        {
            given.push(failed.payload.as_slice().to_vec(self.alloc)?)?;
            self.kept.push(failed.payload.as_slice())?;
        }
        self.undecided = None;
        Ok(given)
    }

    fn is_down(&self) -> bool {
        self.undecided.is_some()
    }

    fn count(&self) -> u64 {
        self.kept.len() as u64
    }

    /// Always granted. A later plan replaces an earlier one, and a reopening leaves the plan.
    fn plan(&mut self, stands: bool) -> Result<(), NotPlanned>
        ensures granted { IsOk result }
        ensures exact { self.new ≡ record self.old { plan = Some stands } }
    {
        self.plan = Some(stands);
        Ok(())
    }
}
