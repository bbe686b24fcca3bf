//! Readers and writers that fail, and a second batch over what a first one kept.

ghost use Rattle.std.specs.Prelude.{◌≡◌, ◌<◌};

use cns_batch::{Kept, check_cusip, run_batch, run_batch_kept};
use cns_input::{BatchFault, Steps};
use cns_journal::{Keeper, ListKeeper};
use std::alloc::Global;
use std::io;
use std::io::{Read, Write};
use std::marker::Brand;
use std::process::Abort;
use std::sync::ledger::{Blank, Ledger};

// A reader that gives one byte a call, and fails after a number of calls.
#[derive(Drop)]
struct Trickle<'a> {
    rest: &'a [u8],
    calls: usize,
}

impl Read for Trickle<'_> {
    fn read(&mut self, buf: &mut [u8]) -> io::Result<usize> {
        let Some(calls) = self.calls.checked_sub(1) else {
            return Err(io::Error::from(io::ErrorKind::Other));
        };
        self.calls = calls;
        let Some((first, rest)) = self.rest.split_first() else {
            return Ok(0);
        };
        if buf.is_empty() {
            return Ok(0);
        }
        buf[0] = *first;
        self.rest = rest;
        Ok(1)
    }
}

// A writer that takes at most three bytes a call, and after a number of calls fails, or takes none.
#[derive(Drop)]
struct Short {
    taken: Vec<u8>,
    calls: usize,
    fails: bool,
}

impl Write for Short {
    fn write(&mut self, buf: &[u8]) -> io::Result<usize> {
        if self.calls == 0 && self.fails {
            return Err(io::Error::from(io::ErrorKind::Other));
        }
        let size = if self.calls == 0 { 0 } else { buf.len().min(3) };
        self.calls = self.calls.saturating_sub(1);
        if self.taken.extend_from_slice(&buf[..size]).is_err() {
            return Ok(0);
        }
        Ok(size)
    }

    fn flush(&mut self) -> io::Result<()> {
        Ok(())
    }
}

fn writer_of(alloc: Global, calls: usize, fails: bool) -> Short {
    Short {
        taken: Vec::new(alloc),
        calls,
        fails,
    }
}

const INPUT: &[u8] =
    b"[openings]\n[trades]\ntrade,settle,buyer,seller,cusip,quantity\nA1,2025-03-04,2,1,037833100,100\nA2,2025-03-04,1,2,037833100,40\n[script]\nTAKE ALL\nCYCLE NIGHT 2025-03-04\nREPORT\n";

const OUTPUT: &[u8] =
    b"trade A1 accepted\ntrade A2 accepted\ncycle 2025-03-04 NIGHT due 2\norder 1 COVER 0001 037833100 60\nREPORT cycle 2025-03-04 NIGHT\nPOS 037833100 0001                  -60\nPOS 037833100 0002                   60\nEND\n";

// More calls than a batch makes.
const ALL: usize = 100_000;

// After how many calls the reader fails, after how many the writer does, and whether that is then an error;
// what the batch ends by, and how many bytes were written.
type Faulty = (usize, usize, bool, Result<(), BatchFault>, usize);

static FAULTY: [Faulty; 10] = [
    (ALL, ALL, false, Ok(()), OUTPUT.len()),
    (0, ALL, false, Err(BatchFault::Read), 0),
    (1, ALL, false, Err(BatchFault::Read), 0),
    (INPUT.len() - 1, ALL, false, Err(BatchFault::Read), 0),
    (INPUT.len(), ALL, false, Err(BatchFault::Read), 0),
    (ALL, 0, false, Err(BatchFault::Write), 0),
    (ALL, 1, false, Err(BatchFault::Write), 3),
    (ALL, 5, false, Err(BatchFault::Write), 15),
    (ALL, 0, true, Err(BatchFault::Write), 0),
    (ALL, 5, true, Err(BatchFault::Write), 15),
];

// A batch from a reader to a writer.
fn batch<L: Ledger>(
    alloc: Global,
    blank: Blank,
    reads: usize,
    writer: &mut Short,
) -> Result<(), BatchFault>
    requires name { blank.name ≡ L.name }
    requires parts { blank.parts ≡ L.parts }
    requires some { 0 < L.parts }
{
    let mut reader = Trickle {
        rest: INPUT,
        calls: reads,
    };
    run_batch(alloc, &mut reader, writer, &mut Steps::<L>::new(blank))
}

fn assert_faulty(rt: &impl Abort, alloc: Global, faulty: &Faulty) {
    let (reads, writes, fails, wanted, size) = *faulty;
    let mut writer = writer_of(alloc, writes, fails);
    let ended = batch::<Brand>(alloc, Blank::new(1), reads, &mut writer);
    assert!(rt; ended == wanted, "{reads} reads, {writes} writes");
    assert!(rt; writer.taken.len() == size && OUTPUT.starts_with(writer.taken.as_slice()));
}

#[test]
fn readers_and_writers_that_fail(rt: HostRuntime) {
    for faulty in &FAULTY {
        assert_faulty(&rt, rt.alloc(), faulty);
    }
}

// After how many calls the writer fails, whether by an error, and what it took of a line.
static LINES: [(usize, bool, &[u8]); 4] = [
    (0, false, b""),
    (1, false, b"Che"),
    (4, false, b"CheckDigit 0"),
    (1, true, b"Che"),
];

#[test]
fn a_failed_write_leaves_a_first_part_of_the_line(rt: HostRuntime) {
    for (calls, fails, part) in &LINES {
        let mut writer = writer_of(rt.alloc(), *calls, *fails);
        let ended = check_cusip(rt.alloc(), b"037833101", &mut writer);
        assert!(&rt; ended == Err(BatchFault::Write) && writer.taken.as_slice() == *part);
    }
}

fn kept_by<L: Ledger, W: Write, C: Keeper + Drop, D: Keeper + Drop>(
    alloc: Global,
    blank: Blank,
    input: &[u8],
    keepers: (C, D),
    out: &mut W,
) -> Kept<C, D>
    requires name { blank.name ≡ L.name }
    requires parts { blank.parts ≡ L.parts }
    requires some { 0 < L.parts }
{
    let mut reader = input;
    let (clear, depot) = keepers;
    run_batch_kept(
        alloc,
        &mut reader,
        out,
        &mut Steps::<L>::new(blank),
        clear,
        depot,
    )
}

// What an input comes to over these keepers, and both keepers then.
pub(crate) fn kept<W: Write, C: Keeper + Drop, D: Keeper + Drop>(
    alloc: Global,
    input: &[u8],
    keepers: (C, D),
    out: &mut W,
) -> Kept<C, D> {
    kept_by::<Brand, W, C, D>(alloc, Blank::new(1), input, keepers, out)
}

// Of 60 shares that member 1 sells, 25 are exempt, and it has 20.
pub(crate) const FIRST: &[u8] =
    b"[openings]\naccount,cusip,shares\n1,037833100,20\n[trades]\ntrade,settle,buyer,seller,cusip,quantity\nA3,2025-03-04,2,1,037833100,60\n[script]\nTAKE ALL\nEXEMPT 1 037833100 25\nCYCLE NIGHT 2025-03-04\nPUMP\n";

pub(crate) const FIRST_OUTPUT: &[u8] =
    b"trade A3 accepted\nexempt ok\ncycle 2025-03-04 NIGHT due 1\norder 1 COVER 0001 037833100 35\nsend 1 packet 1\nexec 1 moved 20 packet 1\nconfirm 1 moved 20 done\n";

// The same openings again, and no trades.
const SECOND: &[u8] =
    b"[openings]\naccount,cusip,shares\n1,037833100,20\n[trades]\n[script]\nREPORT\nORDER 1\nSEND 1\nORDER 1\nREPLY 1\n";

const SECOND_OUTPUT: &[u8] =
    b"REPORT cycle 2025-03-04 NIGHT\nPOS 037833100 0001                  -40\nPOS 037833100 0002                   60\nPOOL 037833100 free 20 lent 0 out 0\nBAL 037833100 0000                   20\nEND\norder refused NoPacket\nsend 1 packet 1\nagain 1 moved 20 packet 1\nconfirm 1 moved 20 again\n";

type Keepers = (ListKeeper, ListKeeper);

// Whether an input over these keepers ends so and writes this, and the keepers then.
fn goes_on(
    alloc: Global,
    input: &[u8],
    keepers: Keepers,
    wanted: (Result<(), BatchFault>, &[u8]),
) -> (bool, Keepers) {
    let mut out = Vec::new(alloc);
    let done = kept(alloc, input, keepers, &mut out);
    let so = (done.result, out.as_slice()) == wanted;
    drop(out);
    (so, (done.clear, done.depot))
}

#[test]
fn a_batch_goes_on_from_the_keepers_of_another(rt: HostRuntime) {
    let alloc = rt.alloc();
    let new = (ListKeeper::new(alloc), ListKeeper::new(alloc));
    let (first, kept) = goes_on(alloc, FIRST, new, (Ok(()), FIRST_OUTPUT));
    let (second, kept) = goes_on(alloc, SECOND, kept, (Ok(()), SECOND_OUTPUT));
    // The depository's records do not fit a clearing node that has none.
    let apart = (ListKeeper::new(alloc), kept.1);
    let (third, kept) = goes_on(alloc, SECOND, apart, (Err(BatchFault::Journal), b""));
    drop(kept);
    assert!(rt; first && second && third);
}
