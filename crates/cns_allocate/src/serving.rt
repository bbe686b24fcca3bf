ghost use Rattle.std.specs.Prelude.{◌≡◌, ◌↔◌, ◌⊎◌, ℕ, ◌<◌, ◌≤◌, ◌||◌, [], length, min, take, true, All, IfErr, IfOk, OnErr, OnOk};
ghost use Rattle.cns_pool.specs.WorkerSeat.{EndWithin};
ghost use Rattle.cns_allocate.specs.Group.{rank};
ghost use Rattle.cns_allocate.specs.Plan.{IsServable};
ghost use Rattle.cns_allocate.specs.Serving.{HasDrawn, Serves, asked_in_plan};
ghost use Rattle.cns_allocate.specs.declared.planned.Planned.{Planned};
ghost use Rattle.cns_allocate.specs.declared.serving.ServeCause.TheVariants.{OutOfMemory, TooManyWorkers};

use crate::gate::Gate;
use crate::planned::Planned;
use crate::seats::{MAX_WORKERS, draw_all, join_seats, split_seats};
use cns_pool::{PoolCell, WorkerSeat};
use std::alloc::{AllocError, Global};
use std::thread::Threads;

/// A plan that was served.
#[derive(Drop)]
pub struct Served {
    /// The seat, with all tickets that were drawn.
    pub seat: WorkerSeat,
    /// Whether a worker met the seal, so that some of those planned have no ticket.
    pub sealed: bool,
}

/// Why a plan was not served.
#[derive(Clone, Copy, PartialEq, Eq, Debug)]
pub enum ServeCause {
    /// There are no workers, or more than `MAX_WORKERS`. The seat is as it was handed in.
    TooManyWorkers,
    /// There is no memory for the seats of the workers. No worker met the seal, and some of those
    /// planned have no ticket.
    OutOfMemory,
}

/// A plan that was not served, or only in part.
#[derive(Drop)]
pub struct ServeFault {
    pub cause: ServeCause,
    /// The seat, with all tickets that were drawn before the fault.
    pub seat: WorkerSeat,
}

/// Draws the tickets of a plan from a cell by several workers. (This project's own rule.)
///
/// The groups are served one after another. The member at the place j of its group, counted from 0, is
/// drawn for by the worker j mod `workers`; each worker draws in a thread of its own where one can be
/// made, with a seat that is split off the one handed in, and calls the gate before and after each
/// reserve. A worker that has no member of the group to draw for takes no seat and no thread. Once the
/// workers have drawn, their seats are joined in again, so the seat that comes back has all tickets, also
/// in a fault. By start, they are those of the first members of an order of the whole plan in which no
/// group comes after a later one; all members have one, unless a worker met the seal.
///
/// The seat has no ticket yet, and budget and calls for the whole plan.
pub fn serve<G: Gate + Sync, R: Threads + Sync>(
    rt: &R,
    alloc: Global,
    cell: &PoolCell,
    seat: WorkerSeat,
    plan: &[Planned],
    workers: usize,
    gate: &G,
) -> Result<Served, ServeFault>
    requires cell { seat.cell ≡ cell.now }
    requires none { seat.tickets ≡ [] }
    requires plan { IsServable plan.now }
    requires budget { asked_in_plan plan.now ≤ seat.budget }
    requires calls { length plan.now ≤ seat.calls }
    ensures served { IfOk result (λ served. Serves plan.now seat served.seat served.sealed) }
    ensures sealed { IfOk result (λ served. served.seat.seen.sealed ≡ (served.sealed || seat.seen.sealed)) }
    ensures met { IfOk result (λ served. served.sealed ≡ true → length served.seat.tickets < length plan.now) }
    ensures fault { IfErr result (λ fault. Serves plan.now seat fault.seat true) }
    ensures unmet { IfErr result (λ fault. fault.seat.seen.sealed ≡ seat.seen.sealed) }
    ensures part { IfErr result (λ fault. fault.cause ≡ OutOfMemory → length fault.seat.tickets < length plan.now) }
    ensures same { IfErr result (λ fault. fault.cause ≡ TooManyWorkers → fault.seat ≡ seat) }
    ensures many { IfErr result (λ fault. fault.cause ≡ TooManyWorkers ↔ ((workers ≡ 0) ⊎ (MAX_WORKERS < workers))) }
    ensures few { OnOk result ((0 < workers) × (workers ≤ MAX_WORKERS)) }
{
    let mut seat = seat;
    if workers == 0 || workers > MAX_WORKERS {
        let cause = ServeCause::TooManyWorkers;
        return Err(ServeFault { cause, seat });
    }
    match serve_groups(rt, alloc, cell, &mut seat, plan, workers, gate) {
        Ok(sealed) => Ok(Served { seat, sealed }),
        Err(AllocError) => {
            let cause = ServeCause::OutOfMemory;
            Err(ServeFault { cause, seat })
        }
    }
}

// Serves the groups one after another, up to the first that meets the seal, and says whether one did.
fn serve_groups<G: Gate + Sync, R: Threads + Sync>(
    rt: &R,
    alloc: Global,
    cell: &PoolCell,
    seat: &mut WorkerSeat,
    plan: &[Planned],
    workers: usize,
    gate: &G,
) -> Result<bool, AllocError>
    requires cell { seat.old.cell ≡ cell.now }
    requires none { seat.old.tickets ≡ [] }
    requires workers { (0 < workers) × (workers ≤ MAX_WORKERS) }
    requires plan { IsServable plan.now }
    requires budget { asked_in_plan plan.now ≤ seat.old.budget }
    requires calls { length plan.now ≤ seat.old.calls }
    ensures served { IfOk result (λ sealed. Serves plan.now seat.old seat.new sealed) }
    ensures sealed { IfOk result (λ sealed. seat.new.seen.sealed ≡ (sealed || seat.old.seen.sealed)) }
    ensures met { IfOk result (λ sealed. sealed ≡ true → length seat.new.tickets < length plan.now) }
    ensures fault { OnErr result (Serves plan.now seat.old seat.new true) }
    ensures unmet { OnErr result (seat.new.seen.sealed ≡ seat.old.seen.sealed) }
    ensures part { OnErr result (length seat.new.tickets < length plan.now) }
{
    let mut served = 0;
    while served < plan.len() {
        let rest = &plan[served..];
        let group = &rest[..group_len(rest)];
        serve_group(rt, alloc, cell, seat, group, workers, gate)?;
        served += group.len();
        if seat.tickets().len() < served {
            return Ok(true);
        }
    }
    Ok(false)
}

// How many of some planned, from the first on, are of the first one's group.
fn group_len(planned: &[Planned]) -> usize
    requires some { 0 < length planned.now }
    ensures some { 0 < result }
    ensures within { result ≤ length planned.now }
    ensures group { (r : ℕ) × All (λ (p : Planned). rank p.group ≡ r) (take result planned.now) }
{
    let group = planned[0].group;
    let mut len = 1;
    while len < planned.len() && planned[len].is_in(group) {
        len += 1;
    }
    len
}

// How many of the workers have a member of a group to draw for: in a group of fewer members than workers
// the member at each place is drawn for by the worker of that number.
fn drawing_workers(workers: usize, group: &[Planned]) -> usize
    requires workers { (0 < workers) × (workers ≤ MAX_WORKERS) }
    requires some { 0 < length group.now }
    ensures count { result ≡ min workers (length group.now) }
    ensures workers { (0 < result) × (result ≤ MAX_WORKERS) }
{
    workers.min(group.len())
}

// Serves one group: splits off a seat for each worker that draws, lets them draw, and joins their seats in
// again.
fn serve_group<G: Gate + Sync, R: Threads + Sync>(
    rt: &R,
    alloc: Global,
    cell: &PoolCell,
    seat: &mut WorkerSeat,
    group: &[Planned],
    workers: usize,
    gate: &G,
) -> Result<(), AllocError>
    requires cell { seat.old.cell ≡ cell.now }
    requires workers { (0 < workers) × (workers ≤ MAX_WORKERS) }
    requires some { 0 < length group.now }
    requires asks { All (λ (p : Planned). 1 ≤ p.asked) group.now }
    requires budget { asked_in_plan group.now ≤ seat.old.budget }
    requires calls { length group.now ≤ seat.old.calls }
    ensures drawn { OnOk result (HasDrawn seat.old group.now seat.new) }
    ensures ends { OnOk result (EndWithin seat.old.seen.asked seat.old.tickets) }
    ensures fault { OnErr result (HasDrawn seat.old [] seat.new) }
{
    let drawing = drawing_workers(workers, group);
    let mut seats = Vec::with_capacity(alloc, drawing)?;
    if let Err(fault) = split_seats(cell, seat, &mut seats, group, drawing) {
        join_seats(cell, seat, seats);
        return Err(fault);
    }
    draw_all(rt, cell, seats.as_mut_slice(), group, gate);
    join_seats(cell, seat, seats);
    Ok(())
}
