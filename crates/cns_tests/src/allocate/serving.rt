use super::even_plan;
use crate::common::{assert_same, member_of};
use cns_allocate::{
    Gate, MAX_WORKERS, OpenGate, Plan, ServeCause, ServeFault, Served, grants, serve,
};
use cns_pool::{Closed, PoolCell};
use std::alloc::Global;
use std::process::Abort;
use std::sync::atomic::{AtomicBool, AtomicU64, Ordering};
use std::test::Fail;
use std::thread;
use std::thread::Threads;

// How often a gate turns at most while it waits.
const MOST_TURNS: u64 = 10_000_000;

// The cell of a plan of two members, into which 40 shares were poured, closed once so many workers served it.
fn served_and_closed<G: Gate + Sync, R: Threads + Sync>(
    rt: &R,
    alloc: Global,
    plan: &Plan,
    workers: usize,
    gate: &G,
) -> Result<Closed, Fail> {
    let planned = plan.as_slice();
    let [first, second] = planned else {
        return Err("two members")?;
    };
    let (cell, mut feeder, seat) = PoolCell::open(alloc, first.asked + second.asked, 40, 2)?;
    cell.pour(&mut feeder, 40);
    match serve(rt, alloc, &cell, seat, planned, workers, gate) {
        Ok(Served { seat, sealed: _ }) => Ok(cell.close(feeder, seat)),
        Err(ServeFault { cause: _, seat: _ }) => Err("not served")?,
    }
}

// One seat draws a ticket, and the other one meets the seal.
#[test]
fn the_ticket_of_a_sealed_cell_is_granted(rt: HostRuntime) -> Result<(), Fail> {
    let (two, three) = (member_of(&rt, 2), member_of(&rt, 3));
    let (cell, mut feeder, mut first) = PoolCell::open(rt.alloc(), 60, 100, 4)?;
    cell.pour(&mut feeder, 5);
    let mut second = cell.split(&mut first, 30, 2)?;
    cell.pour(&mut feeder, 35);
    cell.reserve(&mut first, two, 30);
    cell.seal(&mut feeder);
    cell.reserve(&mut second, three, 30);
    assert!(rt; cell.join(&mut first, second).is_ok());
    let closed = cell.close(feeder, first);
    let grants = grants(rt.alloc(), closed.tickets.as_slice(), closed.poured)?;
    assert_same(&rt, &grants.as_slice(), &[30].as_slice());
    Ok(())
}

// The members' numbers and the starts of two tickets.
fn two_tickets(closed: &Closed) -> Option<[(u16, u64); 2]> {
    let [first, second] = closed.tickets.as_slice() else {
        return None;
    };
    Some([
        (first.member.number(), first.start),
        (second.member.number(), second.start),
    ])
}

// Asserts that both members drew a ticket, in either order.
fn assert_both(rt: &impl Abort, closed: &Closed) {
    let drawn = two_tickets(closed);
    let one = drawn == Some([(2, 0), (3, 30)]) || drawn == Some([(3, 0), (2, 30)]);
    let other = drawn == Some([(2, 30), (3, 0)]) || drawn == Some([(3, 30), (2, 0)]);
    assert!(rt; one || other, "{drawn:?}");
}

#[test]
fn workers_serve_a_whole_plan(rt: HostRuntime) -> Result<(), Fail> {
    let plan = even_plan(&rt, rt.alloc());
    for workers in 1..=MAX_WORKERS {
        let closed = served_and_closed(&rt, rt.alloc(), &plan, workers, &OpenGate)?;
        assert_both(&rt, &closed);
        assert!(rt; closed.poured == 40 && !closed.sealed);
    }
    Ok(())
}

// The cause of a fault, where the seat that comes back has no ticket.
fn empty_fault(fault: &ServeFault) -> Option<ServeCause> {
    if fault.seat.tickets().is_empty() {
        Some(fault.cause)
    } else {
        None
    }
}

#[test]
fn no_workers_and_too_many_hand_the_seat_back(rt: HostRuntime) -> Result<(), Fail> {
    let plan = even_plan(&rt, rt.alloc());
    for workers in [0, MAX_WORKERS + 1] {
        let planned = plan.as_slice();
        let [first, second] = planned else {
            return Err("two members")?;
        };
        let (cell, _, seat) = PoolCell::open(rt.alloc(), first.asked + second.asked, 40, 2)?;
        let Err(fault) = serve(&rt, rt.alloc(), &cell, seat, planned, workers, &OpenGate) else {
            return Err("served")?;
        };
        assert!(rt; empty_fault(&fault) == Some(ServeCause::TooManyWorkers));
    }
    Ok(())
}

// Turns until it is set, and answers how often it turned.
fn turns_until(set: &AtomicBool) -> u64 {
    for turn in 0..MOST_TURNS {
        if set.load(Ordering::SeqCst) {
            return turn;
        }
        thread::yield_now();
    }
    MOST_TURNS
}

// Holds the first worker's first reserve until the second one's was answered.
#[derive(Drop)]
struct SecondFirst {
    answered: AtomicBool,
    turns: AtomicU64,
}

impl Gate for SecondFirst {
    fn before(&self, worker: usize, place: usize) {
        if worker == 0 && place == 0 {
            self.turns
                .store(turns_until(&self.answered), Ordering::SeqCst);
        }
    }

    fn after(&self, worker: usize, place: usize) {
        if worker == 1 && place == 1 {
            self.answered.store(true, Ordering::SeqCst);
        }
    }
}

#[test]
fn the_second_worker_draws_first(rt: HostRuntime) -> Result<(), Fail> {
    let plan = even_plan(&rt, rt.alloc());
    let gate = SecondFirst {
        answered: AtomicBool::new(false),
        turns: AtomicU64::new(0),
    };
    let closed = served_and_closed(&rt, rt.alloc(), &plan, 2, &gate)?;
    assert!(rt; gate.answered.load(Ordering::SeqCst));
    assert!(rt; gate.turns.load(Ordering::SeqCst) < MOST_TURNS);
    assert_both(&rt, &closed);
    let drawn = two_tickets(&closed);
    assert!(rt; drawn == Some([(2, 30), (3, 0)]) || drawn == Some([(3, 0), (2, 30)]));
    Ok(())
}

// Holds the first reserve of both workers until both came to it.
#[derive(Drop)]
struct BothWait {
    came: [AtomicBool; 2],
    most: AtomicU64,
}

impl Gate for BothWait {
    fn before(&self, worker: usize, place: usize) {
        if worker > 1 || place > 1 {
            return;
        }
        self.came[worker].store(true, Ordering::SeqCst);
        let turns = turns_until(&self.came[1 - worker]);
        self.most.fetch_max(turns, Ordering::SeqCst);
    }

    fn after(&self, _worker: usize, _place: usize) {}
}

#[test]
fn both_workers_draw_side_by_side(rt: HostRuntime) -> Result<(), Fail> {
    let plan = even_plan(&rt, rt.alloc());
    let gate = BothWait {
        came: [AtomicBool::new(false), AtomicBool::new(false)],
        most: AtomicU64::new(0),
    };
    let closed = served_and_closed(&rt, rt.alloc(), &plan, 2, &gate)?;
    assert!(rt; gate.came[0].load(Ordering::SeqCst) && gate.came[1].load(Ordering::SeqCst));
    assert!(rt; gate.most.load(Ordering::SeqCst) < MOST_TURNS);
    assert_both(&rt, &closed);
    Ok(())
}
