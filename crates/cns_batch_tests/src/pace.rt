//! When what a run tells is written: as each line of its script ends, or at its end.

ghost use Rattle.std.specs.Prelude.{◌≡◌, ◌<◌};

use crate::batch::kept;
use cns_allocate::OpenGate;
use cns_batch::{Pace, run_desk, run_paced};
use cns_input::{BatchFault, Steps};
use cns_journal::ListKeeper;
use std::alloc::Global;
use std::io;
use std::io::Write;
use std::marker::Brand;
use std::sync::Wait;
use std::sync::ledger::{Blank, Ledger};
use std::thread::Threads;

// A writer that notes how many lines it holds each time that it is flushed.
#[derive(Drop)]
struct Noting {
    taken: Vec<u8>,
    lines: Vec<usize>,
}

impl Noting {
    fn new(alloc: Global) -> Noting {
        Noting {
            taken: Vec::new(alloc),
            lines: Vec::new(alloc),
        }
    }
}

impl Write for Noting {
    fn write(&mut self, buf: &[u8]) -> io::Result<usize> {
        if self.taken.extend_from_slice(buf).is_err() {
            return Ok(0);
        }
        Ok(buf.len())
    }

    fn flush(&mut self) -> io::Result<()> {
        let ends = self.taken.iter().filter(|byte| **byte == b'\n').count();
        self.lines.push(ends)?;
        Ok(())
    }
}

// Two lines run beside the lot.
const INPUT: &[u8] = b"\
    [openings]\n\
    account,cusip,shares\n\
    1,037833100,40\n\
    [trades]\n\
    trade,settle,buyer,seller,cusip,quantity\n\
    F1,2025-03-04,2,1,037833100,30\n\
    F2,2025-03-04,3,1,037833100,30\n\
    [script]\n\
    TAKE ALL\n\
    CYCLE NIGHT 2025-03-04\n\
    PUMP\n\
    BESIDE 037833100 2\n\
    EXEMPT 1 037833100 5\n\
    PRIORITY 2 037833100 ON\n\
    RESTART DEPOT\n";

// How many lines are told by the end of each line of the script. The lot is told before the lines beside it, and
// its tickets and its close are told behind them.
static TOLD: [usize; 7] = [2, 4, 7, 9, 10, 15, 16];

// What the input comes to over keepers in memory, by so many workers, at a pace where one is given.
fn desk<L: Ledger, H: Threads + Wait + Sync>(
    rt: &H,
    alloc: Global,
    blank: Blank,
    workers: usize,
    pace: Option<Pace>,
    out: &mut Noting,
) -> Result<(), BatchFault>
    requires name { blank.name ≡ L.name }
    requires parts { blank.parts ≡ L.parts }
    requires some { 0 < L.parts }
{
    let mut reader = INPUT;
    let mut steps = Steps::<L>::new(blank);
    let (clear, depot) = (ListKeeper::new(alloc), ListKeeper::new(alloc));
    let gate = &OpenGate;
    match pace {
        Some(pace) => run_paced(
            rt,
            alloc,
            &mut reader,
            out,
            &mut steps,
            workers,
            None,
            pace,
            clear,
            depot,
            gate,
        ),
        None => run_desk(
            rt,
            alloc,
            &mut reader,
            out,
            &mut steps,
            workers,
            None,
            clear,
            depot,
            gate,
        ),
    }
}

// By how many workers, at which pace, and whether the writer is flushed as each line of the script ends, or never.
static PACED: [(usize, Option<Pace>, bool); 6] = [
    (0, None, false),
    (2, None, false),
    (0, Some(Pace::WhenFull), false),
    (2, Some(Pace::WhenFull), false),
    (0, Some(Pace::ByLine), true),
    (2, Some(Pace::ByLine), true),
];

#[test]
fn a_run_is_written_at_its_pace(rt: HostRuntime) {
    for (workers, pace, by_line) in &PACED {
        let mut out = Noting::new(rt.alloc());
        let blank = Blank::new(1);
        let ended = desk::<Brand, _>(&rt, rt.alloc(), blank, *workers, *pace, &mut out);
        let told = if *by_line { TOLD.as_slice() } else { &[] };
        assert!(&rt;
            ended == Ok(()) && out.lines.as_slice() == told,
            "{workers} workers"
        );
    }
}

#[test]
fn what_is_kept_is_written_line_by_line(rt: HostRuntime) {
    let alloc = rt.alloc();
    let mut out = Noting::new(alloc);
    let new = (ListKeeper::new(alloc), ListKeeper::new(alloc));
    let done = kept(alloc, INPUT, new, &mut out);
    assert!(&rt; done.result == Ok(()) && out.lines.as_slice() == TOLD.as_slice());
}
