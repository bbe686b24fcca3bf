//! One batch, of whatever text and in whatever manner.

ghost use Rattle.std.specs.Prelude.{◌≡◌, ◌<◌, ◌==◌, ◌&&◌, is_none};

use crate::intact::{check_openings, check_tails};
use crate::journal::{FileJournal, Journals, open_journals};
use crate::progress::Progress;
use crate::source::{AWAITED, open_file, tell_awaited, text_of_names};
use crate::strict::{status_of, tell_counts};
use cns_allocate::OpenGate;
use cns_batch::{Pace, run_batch, run_batch_kept, run_paced};
use cns_command_line::{Manner, Names, Source};
use cns_input::{BatchFault, Steps, read_input};
use cns_journal::{Keeper, ListKeeper};
use cns_tally::Tally;
use std::io;
use std::io::{Read, Write};
use std::sync::Wait;
use std::sync::ledger::{Blank, Ledger};
use std::thread::Threads;

// At which pace what is told is written: line by line where the journals are kept, so that who follows the run
// sees what is committed, and where it is told how far the run is.
fn pace_of(manner: &Manner) -> Pace {
    if manner.journal.is_some() || manner.progress > 0 {
        Pace::ByLine
    } else {
        Pace::WhenFull
    }
}

// Whether a batch has no workers, and is not shaken.
fn is_plain(manner: &Manner) -> bool
    ensures { result ≡ (manner.now.workers == 0) && is_none manner.now.shake }
{
    manner.workers == 0 && manner.shake.is_none()
}

// One batch over these keepers, by workers in threads where there are any, and shaken where a number is given.
fn run_beside<
    H: Threads + Wait + Sync,
    L: Ledger,
    R: Read,
    W: Write,
    C: Keeper + Drop,
    D: Keeper + Drop,
>(
    rt: &HostRuntime,
    threads: &H,
    steps: &mut Steps<L>,
    reader: &mut R,
    writer: &mut W,
    manner: &Manner,
    clear: C,
    depot: D,
) -> Result<(), BatchFault> {
    run_paced(
        threads,
        rt.alloc(),
        reader,
        writer,
        steps,
        manner.workers,
        manner.shake,
        pace_of(manner),
        clear,
        depot,
        &OpenGate,
    )
}

// One batch over keepers in memory.
fn run_in_memory<H: Threads + Wait + Sync, L: Ledger, R: Read, W: Write>(
    rt: &HostRuntime,
    threads: &H,
    steps: &mut Steps<L>,
    reader: &mut R,
    writer: &mut W,
    manner: &Manner,
) -> Result<(), BatchFault> {
    let alloc = rt.alloc();
    if is_plain(manner) && pace_of(manner) == Pace::WhenFull {
        return run_batch(alloc, reader, writer, steps);
    }
    let (clear, depot) = (ListKeeper::new(alloc), ListKeeper::new(alloc));
    run_beside(rt, threads, steps, reader, writer, manner, clear, depot)
}

// The same over the journals in a folder.
fn run_in_folder<H: Threads + Wait + Sync, L: Ledger, R: Read, W: Write>(
    rt: &HostRuntime,
    threads: &H,
    steps: &mut Steps<L>,
    reader: &mut R,
    writer: &mut W,
    manner: &Manner,
    folder: &str,
) -> Result<(), BatchFault> {
    let Journals { clear, depot } = open_journals(rt, folder)?;
    if manner.intact {
        check_tails(rt, folder)?;
        let text = read_input(rt.alloc(), reader, steps)?;
        check_openings(rt, folder, text.as_slice())?;
        let mut text = text.as_slice();
        return run_over(rt, threads, steps, &mut text, writer, manner, clear, depot);
    }
    run_over(rt, threads, steps, reader, writer, manner, clear, depot)
}

// The same over journals that were opened.
fn run_over<H: Threads + Wait + Sync, L: Ledger, R: Read, W: Write>(
    rt: &HostRuntime,
    threads: &H,
    steps: &mut Steps<L>,
    reader: &mut R,
    writer: &mut W,
    manner: &Manner,
    clear: FileJournal<'_>,
    depot: FileJournal<'_>,
) -> Result<(), BatchFault> {
    if is_plain(manner) {
        return run_batch_kept(rt.alloc(), reader, writer, steps, clear, depot).result;
    }
    run_beside(rt, threads, steps, reader, writer, manner, clear, depot)
}

// One batch from a reader to a writer, over the journals in a folder where one is given.
fn run_to<H: Threads + Wait + Sync, L: Ledger, R: Read, W: Write>(
    rt: &HostRuntime,
    threads: &H,
    steps: &mut Steps<L>,
    reader: &mut R,
    writer: &mut W,
    manner: &Manner,
) -> Result<(), BatchFault> {
    match &manner.journal {
        Some(folder) => run_in_folder(rt, threads, steps, reader, writer, manner, folder.as_str()),
        None => run_in_memory(rt, threads, steps, reader, writer, manner),
    }
}

// One batch from a reader to standard output; what was not taken is counted on standard error, and told by the
// exit status.
#[inline(never)]
fn run_strictly<H: Threads + Wait + Sync, L: Ledger, R: Read>(
    rt: &HostRuntime,
    threads: &H,
    steps: &mut Steps<L>,
    reader: &mut R,
    manner: &Manner,
) -> Result<u8, BatchFault> {
    let mut writer = Progress::new(rt, Tally::new(io::writer(rt)), manner.progress);
    let ended = run_to(rt, threads, steps, reader, &mut writer, manner);
    let tally = writer.finish();
    ended?;
    let counts = tally.counts();
    tell_counts(rt, &counts)?;
    Ok(status_of(&counts))
}

// One batch from a reader to standard output; its exit status.
#[inline(never)]
fn run_from<H: Threads + Wait + Sync, L: Ledger, R: Read>(
    rt: &HostRuntime,
    threads: &H,
    steps: &mut Steps<L>,
    reader: &mut R,
    manner: &Manner,
) -> Result<u8, BatchFault> {
    if manner.strict {
        return run_strictly(rt, threads, steps, reader, manner);
    }
    let mut writer = Progress::new(rt, io::writer(rt), manner.progress);
    let ended = run_to(rt, threads, steps, reader, &mut writer, manner);
    let _ = writer.finish();
    ended?;
    Ok(0)
}

// One batch of the text that files make.
fn run_named<H: Threads + Wait + Sync, L: Ledger>(
    rt: &HostRuntime,
    threads: &H,
    steps: &mut Steps<L>,
    names: &Names,
    manner: &Manner,
) -> Result<u8, BatchFault> {
    let text = text_of_names(rt, steps, names)?;
    let mut reader = text.as_slice();
    run_from(rt, threads, steps, &mut reader, manner)
}

/// One batch of a text to standard output; its exit status. Nobody asks how many reads it makes.
#[inline(never)]
pub(crate) fn run_source<H: Threads + Wait + Sync, L: Ledger>(
    rt: &HostRuntime,
    threads: &H,
    blank: Blank,
    source: &Source,
    manner: &Manner,
) -> Result<u8, BatchFault>
    requires name { blank.name ≡ L.name }
    requires parts { blank.parts ≡ L.parts }
    requires some { 0 < L.parts }
{
    let mut steps = Steps::<L>::new(blank);
    match source {
        Source::Standard => {
            tell_awaited(rt, AWAITED);
            let mut reader = rt.reader();
            run_from(rt, threads, &mut steps, &mut reader, manner)
        }
        Source::File(name) => {
            let mut file = open_file(rt, name.as_str())?;
            run_from(rt, threads, &mut steps, &mut file, manner)
        }
        Source::Named(names) => run_named(rt, threads, &mut steps, names, manner),
    }
}
