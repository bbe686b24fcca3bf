//! Runs over a desk, where workers draw the tickets of the lots that a script allocates.

ghost use Rattle.std.specs.Prelude.{◌≡◌, ◌+◌, ◌<◌, ◌≤◌, ℕ, List, IfErr, OnOk};
ghost use Rattle.std.specs.Io.KnownBytes.{IsAtEnd};
ghost use Rattle.cns_input.specs.Reading.{HasGiven, IsInput};
ghost use Rattle.cns_batch.specs.Text.{LeavesSomeKeepers, SaysOf, WritesByWorkers, WritesNothing};

use crate::at_desk::{self, AtDesk};
use crate::batch::{Parts, Rows, batch_result, read_parts, run_shaken, start_fault, supply_of};
use crate::pace::Pace;
use crate::page::Page;
use crate::runner::Runner;
use cns_allocate::Gate;
use cns_input::{BatchFault, Steps, read_input};
use cns_journal::Keeper;
use cns_system::{Desk, System};
use std::alloc::Global;
use std::io::{Read, Write};
use std::sync::Wait;
use std::sync::ledger::Ledger;
use std::thread::Threads;

/// Reads an input text to its end, opens both nodes over these keepers with its openings, and writes what
/// its script tells of its trades, where so many workers serve the lots that `ALLOCATE` and `BESIDE` open,
/// past a gate. The lines beside a lot run while the workers draw.
///
/// Where a number is given, it shakes the link: before each `PUMP`, `DRAWS` draws of a generator that the
/// number starts let orders be sent and packets arrive, again and out of turn, as `Shaker::draw` has it.
///
/// Without workers and without that number all is as `run_batch_kept` has it. With workers the order of the
/// tickets inside a group may differ, and which of them come before a seal. What is written is then the
/// text of a way through the script: the lines of events that came to pass at the desk, in their order, and
/// of what is no event. With more than `MAX_WORKERS` workers, none of them serves, as where there is no
/// memory for them.
///
/// With `Read`, `TooLong`, `Sections`, `Csv` and `Journal`, each told where `run_batch_kept` tells it,
/// nothing was written. At `Write` and `Memory` a first part of the text was written, or none. `steps`
/// counts the read calls, at most 67,108,866.
///
/// What it tells is written where it has grown much, and at the end.
pub fn run_desk<
    I: Read,
    W: Write,
    L: Ledger,
    C: Keeper + Drop,
    D: Keeper + Drop,
    G: Gate + Sync,
    R: Threads + Wait + Sync,
>(
    rt: &R,
    alloc: Global,
    reader: &mut I,
    writer: &mut W,
    steps: &mut Steps<L>,
    workers: usize,
    shake: Option<u64>,
    clear: C,
    depot: D,
    gate: &G,
) -> Result<(), BatchFault>
    ensures says { (bytes : List ℕ) × IsInput (I.remaining reader.old) bytes × SaysOf result bytes (C.state clear) (D.state depot) }
    ensures plain { workers ≡ 0 → (bytes : List ℕ) × IsInput (I.remaining reader.old) bytes
        × LeavesSomeKeepers result shake bytes (C.state clear) (D.state depot) (W.contents writer.old) (W.contents writer.new) }
    ensures workers { 0 < workers → (bytes : List ℕ) × IsInput (I.remaining reader.old) bytes
        × WritesByWorkers result shake bytes (W.contents writer.old) (W.contents writer.new) }
    ensures given { HasGiven result (I.remaining reader.old) (I.remaining reader.new) }
    ensures none { IfErr result (λ e. WritesNothing e → W.contents writer.new ≡ W.contents writer.old) }
    ensures end { OnOk result (IsAtEnd (I.remaining reader.new)) }
    ensures reads { steps.new ≤ steps.old + 67108866 }
{
    run_paced(
        rt,
        alloc,
        reader,
        writer,
        steps,
        workers,
        shake,
        Pace::WhenFull,
        clear,
        depot,
        gate,
    )
}

/// Does what `run_desk` does, and writes what it tells at a pace.
pub fn run_paced<
    I: Read,
    W: Write,
    L: Ledger,
    C: Keeper + Drop,
    D: Keeper + Drop,
    G: Gate + Sync,
    R: Threads + Wait + Sync,
>(
    rt: &R,
    alloc: Global,
    reader: &mut I,
    writer: &mut W,
    steps: &mut Steps<L>,
    workers: usize,
    shake: Option<u64>,
    pace: Pace,
    clear: C,
    depot: D,
    gate: &G,
) -> Result<(), BatchFault>
    ensures says { (bytes : List ℕ) × IsInput (I.remaining reader.old) bytes × SaysOf result bytes (C.state clear) (D.state depot) }
    ensures plain { workers ≡ 0 → (bytes : List ℕ) × IsInput (I.remaining reader.old) bytes
        × LeavesSomeKeepers result shake bytes (C.state clear) (D.state depot) (W.contents writer.old) (W.contents writer.new) }
    ensures workers { 0 < workers → (bytes : List ℕ) × IsInput (I.remaining reader.old) bytes
        × WritesByWorkers result shake bytes (W.contents writer.old) (W.contents writer.new) }
    ensures given { HasGiven result (I.remaining reader.old) (I.remaining reader.new) }
    ensures none { IfErr result (λ e. WritesNothing e → W.contents writer.new ≡ W.contents writer.old) }
    ensures end { OnOk result (IsAtEnd (I.remaining reader.new)) }
    ensures reads { steps.new ≤ steps.old + 67108866 }
{
    if workers == 0 {
        let kept = run_shaken(alloc, reader, writer, steps, shake, pace, clear, depot);
        return kept.result;
    }
    let bytes = read_input(alloc, reader, steps)?;
    let Parts {
        rows: Rows {
            openings,
            told,
            trades,
        },
        script,
    } = read_parts(alloc, bytes)?;
    let system = match System::open(alloc, clear, depot, openings) {
        Ok(system) => system,
        Err(refused) => return Err(start_fault(refused.fault)),
    };
    let mut supply = supply_of(trades, shake);
    let mut runner = Runner {
        nodes: AtDesk {
            desk: Desk::new(alloc, system),
            handle: rt,
        },
        page: Page::new(told, pace),
        alloc,
    };
    let ran = at_desk::run_script(
        rt,
        gate,
        workers,
        &mut runner,
        script.as_slice(),
        &mut supply,
        writer,
    );
    batch_result(ran)
}
