//! The seats of the workers that serve a group.

ghost use Rattle.std.specs.Prelude.{◌≡◌, ℕ, ◌+◌, ◌-◌, ◌^◌, ◌<◌, ◌≤◌, [], length, slice_index_or, vec_capacity, vec_len, All, OnErr, OnOk};
ghost use Rattle.cns_pool.specs.WorkerSeat.{EndWithin, WorkerState};
ghost use Rattle.cns_allocate.specs.Serving.{HasDrawn, HasJoined, HasSplit, places_of, rooms_of, asked_in_plan};
ghost use Rattle.cns_allocate.specs.declared.planned.Planned.{Planned};

use crate::gate::Gate;
use crate::planned::Planned;
use cns_pool::{PoolCell, Reserved, WorkerSeat};
use std::alloc::AllocError;
use std::thread;
use std::thread::Threads;

/// The most workers that serve a plan. (This project's own limit.)
pub const MAX_WORKERS: usize = 64;

// What a worker needs for its places of a group.
#[derive(Clone, Copy)]
struct Needs {
    shares: u64,
    calls: u64,
}

impl Needs {
    // The shares are taken off the budget one by one, so their sum is known to fit.
    fn of(budget: u64, group: &[Planned], worker: usize, workers: usize) -> Needs
        requires workers { (0 < workers) × (workers ≤ MAX_WORKERS) }
        requires budget { asked_in_plan (places_of workers worker group.now) ≤ budget }
        ensures shares { result.shares ≡ asked_in_plan (places_of workers worker group.now) }
        ensures calls { result.calls ≡ length (places_of workers worker group.now) }
    {
        let mut left = budget;
        let mut calls = 0;
        let mut place = worker;
        while place < group.len() {
            left -= group[place].asked;
            calls += 1;
            place += workers;
        }
        Needs {
            shares: budget - left,
            calls,
        }
    }
}

// Splits off a seat for each worker, with the budget and the calls for its places of the group. Where
// there is no memory, `seats` has those that were split off.
pub(crate) fn split_seats(
    cell: &PoolCell,
    seat: &mut WorkerSeat,
    seats: &mut Vec<WorkerSeat>,
    group: &[Planned],
    workers: usize,
) -> Result<(), AllocError>
    requires cell { seat.old.cell ≡ cell.now }
    requires none { seats.old.items ≡ [] }
    requires room { workers ≤ vec_capacity seats.old }
    requires workers { (0 < workers) × (workers ≤ MAX_WORKERS) }
    requires budget { asked_in_plan group.now ≤ seat.old.budget }
    requires calls { length group.now ≤ seat.old.calls }
    ensures split { HasSplit seat.old seats.new.items seat.new }
    ensures count { OnOk result (length seats.new.items ≡ workers) }
    ensures budget { OnOk result ((i : ℕ) (d : WorkerState) → i < workers → asked_in_plan (places_of workers i group.now) ≤ (slice_index_or seats.new.items i d).budget) }
    ensures calls { OnOk result ((i : ℕ) (d : WorkerState) → i < workers → length (places_of workers i group.now) ≤ (slice_index_or seats.new.items i d).calls) }
    ensures ends { OnOk result (EndWithin seat.old.seen.asked seat.old.tickets) }
{
    for worker in 0..workers {
        let needs = Needs::of(seat.budget(), group, worker, workers);
        let part = cell.split(seat, needs.shares, needs.calls)?;
        seats.push_reserved(part);
    }
    Ok(())
}

// Draws for the places `worker`, `worker + workers` and so on, up to the first that meets the seal.
pub(crate) fn draw<G: Gate>(
    cell: &PoolCell,
    seat: &mut WorkerSeat,
    group: &[Planned],
    worker: usize,
    workers: usize,
    gate: &G,
)
    requires cell { seat.old.cell ≡ cell.now }
    requires workers { (0 < workers) × (workers ≤ MAX_WORKERS) }
    requires asks { All (λ (p : Planned). 1 ≤ p.asked) group.now }
    requires budget { asked_in_plan (places_of workers worker group.now) ≤ seat.old.budget }
    requires calls { length (places_of workers worker group.now) ≤ seat.old.calls }
    ensures { HasDrawn seat.old (places_of workers worker group.now) seat.new }
{
    let mut place = worker;
    while place < group.len() {
        let planned = group[place];
        gate.before(worker, place);
        let answer = cell.reserve(seat, planned.member, planned.asked);
        gate.after(worker, place);
        if let Reserved::Sealed = answer {
            return;
        }
        place += workers;
    }
}

// Each of the seats draws for the places of its worker, in a thread of its own where one can be made.
pub(crate) fn draw_all<G: Gate + Sync, R: Threads + Sync>(
    rt: &R,
    cell: &PoolCell,
    seats: &mut [WorkerSeat],
    group: &[Planned],
    gate: &G,
)
    requires cell { All (λ (s : WorkerState). s.cell ≡ cell.now) seats.old }
    requires workers { (0 < length seats.old) × (length seats.old ≤ MAX_WORKERS) }
    requires asks { All (λ (p : Planned). 1 ≤ p.asked) group.now }
    requires budget { (i : ℕ) (d : WorkerState) → i < length seats.old → asked_in_plan (places_of (length seats.old) i group.now) ≤ (slice_index_or seats.old i d).budget }
    requires calls { (i : ℕ) (d : WorkerState) → i < length seats.old → length (places_of (length seats.old) i group.now) ≤ (slice_index_or seats.old i d).calls }
    ensures { (i : ℕ) (d : WorkerState) → i < length seats.old → HasDrawn (slice_index_or seats.old i d) (places_of (length seats.old) i group.now) (slice_index_or seats.new i d) }
{
    let workers = seats.len();
    thread::for_each_mut(
        rt,
        seats,
        workers,
        &|worker, seat| draw(cell, seat, group, worker, workers, gate),
    );
}

// Joins the seats into the one, in their order. There is room for their calls and tickets, so none is
// refused.
pub(crate) fn join_seats(cell: &PoolCell, seat: &mut WorkerSeat, seats: Vec<WorkerSeat>)
    requires cell { seat.old.cell ≡ cell.now }
    requires cells { All (λ (s : WorkerState). s.cell ≡ cell.now) seats.items }
    requires room { rooms_of seats.items ≤ seat.old.room }
    ensures { HasJoined seat.old seats.items seat.new }
{
    for other in seats {
        let Ok(()) = cell.join(seat, other) else {
            unreachable!()
        };
    }
}
