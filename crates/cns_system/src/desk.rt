ghost use Rattle.std.specs.Prelude.{◌≡◌, ◌↔◌, ◌⊎◌, ◌<◌, IfErr, IfOk, IsSomeAnd, Some, is_some, length};
ghost use Rattle.std.specs.Arc.{arc_value};
ghost use Rattle.std.specs.Sync.Mutex.{mutex_guard_value};
ghost use Rattle.cns_pool.specs.WorkerSeat.{new_worker};
ghost use Rattle.cns_allocate.specs.Serving.{Serves};
ghost use Rattle.cns_allocate.specs.declared.serving.ServeCause.TheVariants.{TooManyWorkers};
ghost use Rattle.cns_system.specs.Begin.{opened_of};
ghost use Rattle.cns_system.specs.Desk.{HasTooFew, IsAllocated, IsDrawnFrom, IsEnteredIn, IsNotOpenedIn, IsOpenedIn, IsServedAs, is_seal};
ghost use Rattle.cns_system.specs.Floor.{IsLawfulFloor};
ghost use Rattle.cns_system.specs.Lot.{planned_sum};
ghost use Rattle.cns_system.specs.declared.desk.Cut.TheVariants.{Fault};

use crate::floor::{Begun, Floor};
use crate::numbered::Opened;
use crate::outcome::Outcome;
use crate::system::System;
use cns_allocate::{Gate, MAX_WORKERS, Plan, ServeCause, ServeFault, Served, serve};
use cns_ids::Cusip;
use cns_journal::Keeper;
use cns_pool::{PoolCell, WorkerSeat};
use std::alloc::{AllocError, Global};
use std::sync::{Mutex, MutexGuard, Wait};
use std::thread::Threads;

/// What cut the workers of a lot off, so that some members of its plan have no ticket or none was served.
#[derive(Clone, Copy, PartialEq, Eq, Debug)]
pub enum Cut {
    /// A worker met the seal.
    Sealed,
    /// They could not serve.
    Fault(ServeCause),
}

/// What the workers of a lot drew from its cell, before it is entered.
#[derive(Drop)]
pub struct Drawn {
    /// The seat, with all tickets that were drawn.
    pub seat: WorkerSeat,
    /// What cut the workers off, where something did.
    pub cut: Option<Cut>,
}

/// What a lot comes to that workers serve.
#[derive(Drop)]
pub struct Allocated {
    /// What its opening came to.
    pub opened: Outcome,
    /// What the workers drew, where it was opened.
    pub drawn: Option<Drawn>,
    /// What entering their tickets and ending the lot came to, as `Floor::finish` answers it; nothing
    /// where the lot was not opened.
    pub entered: Vec<Outcome>,
}

/// A floor that threads share under a lock.
///
/// Workers draw the tickets of a lot beside the lock, so other events happen in the meantime. Whenever
/// the lock is free, all holds of the floor that `Floor` says of itself: where both keepers are honest,
/// both nodes and the link are in accord. (This project's own rule.)
#[derive(Drop)]
pub struct Desk<C: Keeper, D: Keeper> {
    floor: Mutex<Floor<C, D>>,
}

impl<C: Keeper, D: Keeper> Desk<C, D> {
    /// The desk of a system, where no lot is busy. It takes no memory.
    pub fn new(alloc: Global, system: System<C, D>) -> Desk<C, D> {
        Desk {
            floor: Mutex::new(Floor::new(alloc, system)),
        }
    }

    /// Waits until the lock is free, and lends the floor.
    pub fn lock<R: Wait>(&self, rt: &R) -> MutexGuard<'_, Floor<C, D>>
        ensures { IsLawfulFloor (mutex_guard_value result) }
    {
        let floor = self.floor.lock(rt);
        floor.lawful();
        floor
    }

    /// Opens a lot of an issue, lets workers draw the tickets of its plan, enters these and ends the lot.
    ///
    /// The lock is free while the workers draw. The lot is ended in any case once it was opened: where a
    /// worker met the seal, or the plan was not served to its end, it is sealed first, and `drawn` tells why.
    /// `AllocError` is answered where there was no memory for the outcomes of the end; then no ticket was
    /// entered, and the lot is open and no longer busy. (This project's own rule.)
    ///
    /// Costs what `Floor::begin` and `Floor::finish` do, and `serve` beside them.
    pub fn allocate<G: Gate + Sync, R: Threads + Wait + Sync>(
        &self,
        rt: &R,
        alloc: Global,
        issue: Cusip,
        workers: usize,
        gate: &G,
    ) -> Result<Allocated, AllocError>
        ensures { IfOk result (λ all. IsAllocated issue all) }
    {
        match self.begin(rt, alloc, issue) {
            Ok(begun) => self.serve_begun(rt, alloc, begun, workers, gate),
            Err(opened) => Ok(Allocated {
                opened,
                drawn: None,
                entered: Vec::new(alloc),
            }),
        }
    }

    // Opens a lot for workers.
    fn begin<R: Wait>(&self, rt: &R, alloc: Global, issue: Cusip) -> Result<Begun, Outcome>
        ensures seat { IfOk result (λ begun. begun.seat ≡ new_worker (arc_value begun.cell) (planned_sum begun.plan) (length begun.plan)) }
        ensures opened { IfOk result (λ begun. IsOpenedIn issue (opened_of begun)) }
        ensures err { IfErr result (IsNotOpenedIn issue) }
    {
        self.lock(rt).begin(alloc, issue)
    }

    // Lets workers serve an opened lot, and ends it.
    fn serve_begun<G: Gate + Sync, R: Threads + Wait + Sync>(
        &self,
        rt: &R,
        alloc: Global,
        begun: Begun,
        workers: usize,
        gate: &G,
    ) -> Result<Allocated, AllocError>
        requires { begun.seat ≡ new_worker (arc_value begun.cell) (planned_sum begun.plan) (length begun.plan) }
        ensures { IfOk result (λ all. IsSomeAnd all.drawn (λ drawn. IsServedAs (opened_of begun) all drawn)) }
    {
        let Begun {
            lot,
            poured,
            plan,
            cell,
            seat,
        } = begun;
        let drawn = serve_lot(rt, alloc, &cell, seat, &plan, workers, gate);
        let entered = self.finish(rt, alloc, lot, &drawn)?;
        let number = lot;
        Ok(Allocated {
            opened: Outcome::LotOpened(Opened {
                number,
                poured,
                plan,
            }),
            drawn: Some(drawn),
            entered,
        })
    }

    // Enters what workers drew, and ends their lot.
    fn finish<R: Wait>(
        &self,
        rt: &R,
        alloc: Global,
        lot: u64,
        drawn: &Drawn,
    ) -> Result<Vec<Outcome>, AllocError>
        ensures { IfOk result (λ told. IsEnteredIn lot drawn.now told.items) }
    {
        self.lock(rt)
            .finish(alloc, lot, drawn.seat.tickets(), drawn.cut.is_some())
    }
}

/// Draws the tickets of a lot's plan from its cell by workers, as `serve` does; what cuts them off is told
/// beside the tickets. The seat is as `Floor::begin` hands it out.
///
/// By start, the tickets are those of the first members of an order of the whole plan in which no group comes
/// after a later one. All members have one where nothing cut the workers off; some have none where a worker
/// met the seal or memory was wanting. For no worker, and for more than `MAX_WORKERS`, the seat comes back as
/// it was. (This project's own rule.)
pub fn serve_lot<G: Gate + Sync, R: Threads + Sync>(
    rt: &R,
    alloc: Global,
    cell: &PoolCell,
    seat: WorkerSeat,
    plan: &Plan,
    workers: usize,
    gate: &G,
) -> Drawn
    requires { seat ≡ new_worker cell.now (planned_sum plan.now) (length plan.now) }
    ensures served { Serves plan.now seat result.seat (is_some result.cut) }
    ensures sealed { result.seat.seen.sealed ≡ is_seal result.cut }
    ensures part { HasTooFew plan.now result }
    ensures many { result.cut ≡ Some (Fault TooManyWorkers) ↔ ((workers ≡ 0) ⊎ (MAX_WORKERS < workers)) }
    ensures same { result.cut ≡ Some (Fault TooManyWorkers) → result.seat ≡ seat }
{
    gather(serve(rt, alloc, cell, seat, plan.as_slice(), workers, gate))
}

// What workers drew, and what cut them off.
fn gather(served: Result<Served, ServeFault>) -> Drawn
    ensures { IsDrawnFrom served result }
{
    match served {
        Ok(Served { seat, sealed: true }) => Drawn {
            seat,
            cut: Some(Cut::Sealed),
        },
        Ok(Served { seat, .. }) => Drawn { seat, cut: None },
        Err(ServeFault { cause, seat }) => Drawn {
            seat,
            cut: Some(Cut::Fault(cause)),
        },
    }
}
