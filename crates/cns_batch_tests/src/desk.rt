//! Tests over a desk: what workers draw is entered, with a gate that has one of them wait for the other.

ghost use Rattle.std.specs.Prelude.{◌≡◌, ◌<◌};

use cns_allocate::Gate;
use cns_batch::run_desk;
use cns_input::{BatchFault, Steps};
use cns_journal::ListKeeper;
use std::alloc::Global;
use std::marker::Brand;
use std::sync::Wait;
use std::sync::atomic::{AtomicBool, Ordering};
use std::sync::ledger::{Blank, Ledger};
use std::thread;
use std::thread::Threads;

// How often the gate turns at most while it waits.
const MOST_TURNS: u64 = 10_000_000;

// Members 2 and 3 are to receive 30 shares each of the 40 that member 1 has.
const INPUT: &[u8] = b"\
    [openings]\n\
    account,cusip,shares\n\
    1,037833100,40\n\
    [trades]\n\
    trade,settle,buyer,seller,cusip,quantity\n\
    F1,2025-03-04,2,1,037833100,30\n\
    F2,2025-03-04,3,1,037833100,30\n\
    [script]\n\
    TAKE ALL\n\
    CYCLE NIGHT 2025-03-04\n\
    PUMP\n\
    ALLOCATE 037833100\n";

// Until the lot is served.
const BEGUN: &[u8] = b"\
    trade F1 accepted\n\
    trade F2 accepted\n\
    cycle 2025-03-04 NIGHT due 2\n\
    order 1 COVER 0001 037833100 60\n\
    send 1 packet 1\nexec 1 moved 40 packet 1\nconfirm 1 moved 40 done\n\
    lot 1 poured 40 longs 2\n";

// How many workers serve it, and what is told then: two, of whom the second draws first, and too many, of whom
// none serves.
static SERVED: [(usize, &[u8]); 2] = [
    (
        2,
        b"ticket 0003 start 0 asked 30\nticket 0002 start 30 asked 30\nclose granted 40\norder 2 DELIVERY 0003 037833100 30\norder 3 DELIVERY 0002 037833100 10\n",
    ),
    (65, b"reserve refused OutOfMemory\nclose granted 0\n"),
];

// Holds the first worker's first reserve until the second one's was answered.
#[derive(Drop)]
struct SecondFirst {
    answered: AtomicBool,
}

impl Gate for SecondFirst {
    fn before(&self, worker: usize, place: usize) {
        if worker != 0 || place != 0 {
            return;
        }
        for _turn in 0..MOST_TURNS {
            if self.answered.load(Ordering::SeqCst) {
                return;
            }
            thread::yield_now();
        }
    }

    fn after(&self, worker: usize, place: usize) {
        if worker == 1 && place == 1 {
            self.answered.store(true, Ordering::SeqCst);
        }
    }
}

// What the input comes to over keepers in memory, by so many workers past a gate.
fn desk<L: Ledger, G: Gate + Sync, H: Threads + Wait + Sync>(
    rt: &H,
    alloc: Global,
    blank: Blank,
    workers: usize,
    gate: &G,
    out: &mut Vec<u8>,
) -> Result<(), BatchFault>
    requires name { blank.name ≡ L.name }
    requires parts { blank.parts ≡ L.parts }
    requires some { 0 < L.parts }
{
    let mut reader = INPUT;
    let (clear, depot) = (ListKeeper::new(alloc), ListKeeper::new(alloc));
    run_desk(
        rt,
        alloc,
        &mut reader,
        out,
        &mut Steps::<L>::new(blank),
        workers,
        None,
        clear,
        depot,
        gate,
    )
}

#[test]
fn a_lot_is_served_past_a_gate(rt: HostRuntime) {
    for (workers, served) in &SERVED {
        let gate = SecondFirst {
            answered: AtomicBool::new(false),
        };
        let mut out = Vec::new(rt.alloc());
        let blank = Blank::new(1);
        let ended = desk::<Brand, _, _>(&rt, rt.alloc(), blank, *workers, &gate, &mut out);
        assert!(&rt; ended == Ok(()) && out.as_slice().strip_prefix(BEGUN) == Some(*served));
    }
}
