ghost use Rattle.std.specs.Prelude.{◌≡◌, ◌≤◌, true, IfOk};
ghost use Rattle.cns_pool.specs.Pool.{new_pool};
ghost use Rattle.cns_pool.specs.FeederSeat.{feeder_seeing};
ghost use Rattle.cns_pool.specs.Seen.{Seen};

use crate::feeder_seat::FeederSeat;
use crate::pool::{Asked, Closed, MAX_POOL, Pool};
use crate::pool_cell::PoolCell;
use crate::ticket::Reserved;
use crate::worker_seat::WorkerSeat;
use cns_ids::MemberNo;
use std::alloc::{AllocError, Global};
use std::marker::Model;

/// A cell with its feeder's seat and one worker's, which one thread uses as a pool.
///
/// The shares that a look at a sealed pool shows are those of the tickets and of the refused reserves.
/// Contracts see it as any pool. (This project's own rules.)
#[derive(Drop)]
pub struct Held {
    cell: PoolCell,
    feeder: FeederSeat,
    // It is told of the seal when the feeder seals the cell.
    worker: WorkerSeat,
}

impl Model for Held {
    ghost use Rattle.cns_pool.specs.Pool.{Pooled};
    ghost use Rattle.cns_pool.specs.Held.{IsHeld, pool_of};

    ghost Value = { Pooled };

    ghost view = { λ h. pool_of h.worker h.feeder };

    ghost invariant = { λ h. IsHeld h.cell h.worker h.feeder };
}

impl Held {
    /// A cell with no tickets, into which nothing was poured.
    ///
    /// At most `budget` shares may be asked of it, by at most `calls` reserves, and at most `pours`
    /// shares poured into it. It takes the memory for the tickets of all these reserves.
    pub fn open(alloc: Global, budget: u64, pours: u64, calls: u64) -> Result<Held, AllocError>
        requires budget { budget ≤ MAX_POOL }
        requires pours { pours ≤ MAX_POOL }
        ensures { IfOk result (λ pool. pool ≡ new_pool budget pours calls) }
    {
        let (cell, feeder, worker) = PoolCell::open(alloc, budget, pours, calls)?;
        Ok(Held {
            cell,
            feeder,
            worker,
        })
    }
}

impl Pool for Held {
    ghost pool = { λ p. p };

    fn reserve(&mut self, member: MemberNo, asked: u64) -> Reserved {
        let answer = self.cell.reserve(&mut self.worker, member, asked);
        compare_seals(&self.cell, &mut self.worker, &mut self.feeder);
        answer
    }

    fn pour(&mut self, shares: u64) {
        self.cell.pour(&mut self.feeder, shares);
    }

    fn look_poured(&mut self) -> u64 {
        self.cell.look_poured(&mut self.feeder)
    }

    fn look_asked(&mut self) -> Asked {
        let asked = self.cell.look_asked(&mut self.worker);
        compare_seals(&self.cell, &mut self.worker, &mut self.feeder);
        asked
    }

    fn seal(&mut self) {
        self.cell.seal(&mut self.feeder);
        self.cell.tell_worker(&mut self.feeder, &mut self.worker);
    }

    /// It gives the tickets in the order in which they were drawn.
    fn close(self) -> Closed {
        let Held {
            cell,
            feeder,
            worker,
        } = self;
        cell.close(feeder, worker)
    }
}

// The feeder made the seal that the worker has seen.
fn compare_seals(cell: &PoolCell, worker: &mut WorkerSeat, feeder: &mut FeederSeat)
    requires worker { worker.old.cell ≡ cell.now }
    requires feeder { feeder.old.cell ≡ cell.now }
    ensures same { worker.new ≡ worker.old }
    ensures feeder { (seen : Seen) × (feeder.new ≡ feeder_seeing feeder.old seen) }
    ensures sealed { worker.old.seen.sealed ≡ true → feeder.old.sealed ≡ true }
{
    cell.tell_feeder(worker, feeder);
    cell.look_asked(feeder);
}
