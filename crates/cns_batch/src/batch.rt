ghost use Rattle.std.specs.Prelude.{◌≡◌, ◌+◌, ◌≤◌, ◌⊎◌, [], Ok, Some, MatchResult, IfOk, OnOk, IfErr, List, None, ℕ, drop, length, option_map};
ghost use Rattle.std.specs.Io.KnownBytes.{Appends, IsAtEnd};
ghost use Rattle.cns_batch.specs.Ending.{batch_result};
ghost use Rattle.cns_batch.specs.Files.{FilesMayBeCut};
ghost use Rattle.cns_batch.specs.Memory.{IsOfBytes};
ghost use Rattle.cns_input.specs.Reading.{HasGiven, IsInput};
ghost use Rattle.cns_shake.specs.Shake.{generator_of};
ghost use Rattle.cns_input.specs.Sections.{sections};
ghost use Rattle.cns_batch.specs.Text.{BatchLeaves, KeptLeaves, RunsInput, Tells, WritesNothing, fault_of_rows, fault_of_start, parts_of};

use crate::fault::Told;
use crate::in_turn;
use crate::opening::take_openings;
use crate::pace::Pace;
use crate::page::Page;
use crate::runner::Runner;
use crate::supply::Supply;
use cns_depository::Openings;
use cns_input::{BatchFault, Steps, read_input, split_input};
use cns_journal::{Keeper, ListKeeper, ReplayFault};
use cns_report::Text;
use cns_shake::Shaker;
use cns_system::{StartFault, System};
use cns_trades::{CsvFault, TradeRows, read_openings};
use std::alloc::Global;
use std::io::{Read, Write};
use std::sync::ledger::Ledger;

/// What a batch comes to, and both keepers.
#[derive(Drop)]
pub struct Kept<C, D> {
    pub result: Result<(), BatchFault>,
    /// The keeper of the clearing node.
    pub clear: C,
    /// The keeper of the depository.
    pub depot: D,
}

// The rows of an input: the openings that stand, what the rows of openings tell, and the rows of trades.
#[derive(Drop)]
pub(crate) struct Rows {
    pub(crate) openings: Openings,
    pub(crate) told: Text,
    pub(crate) trades: TradeRows,
}

// What an input holds: its rows and its script. They own what they hold, so that nothing else of the input
// is held while the script runs.
#[derive(Drop)]
pub(crate) struct Parts {
    pub(crate) rows: Rows,
    pub(crate) script: Vec<u8>,
}

// The fault of a batch whose rows cannot be read.
fn rows_fault(fault: CsvFault) -> BatchFault
    ensures { result ≡ fault_of_rows fault }
{
    match fault {
        CsvFault::OutOfMemory => BatchFault::Memory,
        CsvFault::Reading => BatchFault::Read,
        CsvFault::Header => BatchFault::Csv,
    }
}

// The fault of a batch whose nodes are not opened.
pub(crate) fn start_fault(fault: StartFault) -> BatchFault
    ensures { result ≡ fault_of_start fault }
{
    match fault {
        StartFault::Clear(ReplayFault::OutOfMemory) | StartFault::Depot(ReplayFault::OutOfMemory) =>
            BatchFault::Memory,
        _ => BatchFault::Journal,
    }
}

// What the rows of an input hold, whatever its script is.
fn read_rows(alloc: Global, openings: &[u8], trades: &[u8]) -> Result<Rows, BatchFault>
    ensures { MatchResult result
        (λ rows. (bytes script : List ℕ) → sections bytes ≡ Some (openings.now, trades.now, script)
        → parts_of bytes ≡ Ok (record { openings = rows.openings; told = rows.told.text; rows = rows.trades; script = script }))
        (λ e. (bytes script : List ℕ) → sections bytes ≡ Some (openings.now, trades.now, script) → Tells e (parts_of bytes)) }
{
    let rows = match read_openings(alloc, openings) {
        Ok(rows) => rows,
        Err(fault) => return Err(rows_fault(fault)),
    };
    let trades = match TradeRows::read(alloc, trades) {
        Ok(rows) => rows,
        Err(fault) => return Err(rows_fault(fault)),
    };
    let mut told = Text::new(alloc);
    let openings = take_openings(alloc, rows.as_slice(), &mut told)?;
    Ok(Rows {
        openings,
        told,
        trades,
    })
}

// The rows of an input text, and where its script begins, which is the last part of the text.
fn read_front(alloc: Global, text: &[u8]) -> Result<(Rows, usize), BatchFault>
    ensures parts { MatchResult result
        (λ front. parts_of text.now
        ≡ Ok (record { openings = front.0.openings; told = front.0.told.text; rows = front.0.trades; script = drop front.1 text.now }))
        (λ e. Tells e (parts_of text.now)) }
    ensures within { IfOk result (λ front. front.1 ≤ length text.now) }
{
    let Some(sections) = split_input(text) else {
        return Err(BatchFault::Sections);
    };
    let rows = read_rows(alloc, sections.openings, sections.trades)?;
    Ok((rows, text.len() - sections.script.len()))
}

// Cuts so many bytes off the front of a text, and gives back the room that this leaves, where the allocator
// takes it. Only the bytes that stay are moved.
fn cut_front(text: &mut Vec<u8>, size: usize)
    requires { size ≤ length text.old.items }
    ensures { text.new.items ≡ drop size text.old.items }
{
    let left = text.len() - size;
    text.copy_within(size.., 0);
    text.truncate(left);
    text.shrink_to_fit();
}

// What the text of an input holds. The text is cut down to its script where it stands: a copy would take as
// much memory again, and once a block as large as a text is freed, the allocator of the C library copies
// other large blocks as they grow.
pub(crate) fn read_parts(alloc: Global, mut text: Vec<u8>) -> Result<Parts, BatchFault>
    ensures { MatchResult result
        (λ parts. parts_of text.items
        ≡ Ok (record { openings = parts.rows.openings; told = parts.rows.told.text; rows = parts.rows.trades; script = parts.script.items }))
        (λ e. Tells e (parts_of text.items)) }
{
    let (rows, start) = read_front(alloc, text.as_slice())?;
    cut_front(&mut text, start);
    Ok(Parts { rows, script: text })
}

// What a run comes to, as a batch.
pub(crate) fn batch_result(ran: Told) -> Result<(), BatchFault>
    ensures { result ≡ batch_result ran }
{
    match ran {
        Ok(()) => Ok(()),
        Err(fault) => Err(fault.of_batch()),
    }
}

// What the commands of a script take from, in a run that is shaken by a number, or not.
pub(crate) fn supply_of(trades: TradeRows, shake: Option<u64>) -> Supply
    ensures { result ≡ record { trades = trades; shaker = option_map generator_of shake } }
{
    Supply {
        trades,
        shaker: shake.map(Shaker::new),
    }
}

// Opens both nodes, runs the script, and writes what all that tells.
fn run_input<C: Keeper + Drop, D: Keeper + Drop, W: Write>(
    alloc: Global,
    rows: Rows,
    script: &[u8],
    shake: Option<u64>,
    pace: Pace,
    clear: C,
    depot: D,
    writer: &mut W,
) -> Kept<C, D>
    ensures { RunsInput result.result shake
        (record { openings = rows.openings; told = rows.told.text; rows = rows.trades; script = script.now }) (C.state clear) (D.state depot) (C.state result.clear) (D.state result.depot)
        (W.contents writer.old) (W.contents writer.new) }
{
    let Rows {
        openings,
        told,
        trades,
    } = rows;
    let system = match System::open(alloc, clear, depot, openings) {
        Ok(system) => system,
        Err(refused) => {
            return Kept {
                result: Err(start_fault(refused.fault)),
                clear: refused.clear,
                depot: refused.depot,
            };
        }
    };
    let mut supply = supply_of(trades, shake);
    let mut runner = Runner {
        nodes: system,
        page: Page::new(told, pace),
        alloc,
    };
    let ran = in_turn::run_script(&mut runner, script, &mut supply, writer);
    let (clear, depot) = runner.nodes.into_keepers();
    Kept {
        result: batch_result(ran),
        clear,
        depot,
    }
}

// Does what `run_batch_kept` says, at a pace, with the link shaken before each pump where a number is given.
pub(crate) fn run_shaken<R: Read, W: Write, L: Ledger, C: Keeper + Drop, D: Keeper + Drop>(
    alloc: Global,
    reader: &mut R,
    writer: &mut W,
    steps: &mut Steps<L>,
    shake: Option<u64>,
    pace: Pace,
    clear: C,
    depot: D,
) -> Kept<C, D>
    ensures leaves { (bytes : List ℕ) × IsInput (R.remaining reader.old) bytes
        × KeptLeaves result.result shake bytes (C.state clear) (D.state depot) (C.state result.clear) (D.state result.depot) (W.contents writer.old) (W.contents writer.new) }
    ensures given { HasGiven result.result (R.remaining reader.old) (R.remaining reader.new) }
    ensures none { IfErr result.result (λ e. WritesNothing e → W.contents writer.new ≡ W.contents writer.old) }
    ensures end { OnOk result.result (IsAtEnd (R.remaining reader.new)) }
    ensures reads { steps.new ≤ steps.old + 67108866 }
{
    let bytes = match read_input(alloc, reader, steps) {
        Ok(bytes) => bytes,
        Err(fault) => {
            return Kept {
                result: Err(fault),
                clear,
                depot,
            };
        }
    };
    match read_parts(alloc, bytes) {
        Ok(Parts { rows, script }) => {
            run_input(
                alloc,
                rows,
                script.as_slice(),
                shake,
                pace,
                clear,
                depot,
                writer,
            )
        }
        Err(fault) => Kept {
            result: Err(fault),
            clear,
            depot,
        },
    }
}

/// Reads an input text to its end, opens both nodes over these keepers with its openings, and writes what
/// its script tells of its trades.
///
/// With `Read`, `TooLong`, `Sections`, `Csv` and `Journal` nothing was written, and the first four leave
/// both keepers as they were. `TooLong` comes exactly where the reader gave more than 67,108,864 bytes, and
/// so before `Sections` and `Csv`. `Journal` comes after these, exactly where the nodes were not opened for
/// another cause than want of memory. At `Write` and `Memory` a first part of the text was written, or
/// none. Where the script ran, each keeper comes back as its node gives it up in the scene that the script
/// left, at Ok the last one. What a line of the script tells is written, and the writer flushed, as the line
/// ends. `steps` counts the read calls, at most 67,108,866.
pub fn run_batch_kept<R: Read, W: Write, L: Ledger, C: Keeper + Drop, D: Keeper + Drop>(
    alloc: Global,
    reader: &mut R,
    writer: &mut W,
    steps: &mut Steps<L>,
    clear: C,
    depot: D,
) -> Kept<C, D>
    ensures leaves { (bytes : List ℕ) × IsInput (R.remaining reader.old) bytes
        × KeptLeaves result.result None bytes (C.state clear) (D.state depot) (C.state result.clear) (D.state result.depot) (W.contents writer.old) (W.contents writer.new) }
    ensures given { HasGiven result.result (R.remaining reader.old) (R.remaining reader.new) }
    ensures none { IfErr result.result (λ e. WritesNothing e → W.contents writer.new ≡ W.contents writer.old) }
    ensures end { OnOk result.result (IsAtEnd (R.remaining reader.new)) }
    ensures reads { steps.new ≤ steps.old + 67108866 }
{
    run_shaken(
        alloc,
        reader,
        writer,
        steps,
        None,
        Pace::ByLine,
        clear,
        depot,
    )
}

/// Reads an input text to its end, and writes what its script tells of its trades, over keepers in memory.
///
/// With `Read`, `TooLong`, `Sections` and `Csv` nothing was written; `Journal` is never answered. `TooLong`
/// comes exactly where the reader gave more than 67,108,864 bytes. At `Write` and `Memory` a first part of
/// the text was written, or none. `steps` counts the read calls, at most 67,108,866.
pub fn run_batch<R: Read, W: Write, L: Ledger>(
    alloc: Global,
    reader: &mut R,
    writer: &mut W,
    steps: &mut Steps<L>,
) -> Result<(), BatchFault>
    ensures leaves { (bytes : List ℕ) × IsInput (R.remaining reader.old) bytes × BatchLeaves result bytes (W.contents writer.old) (W.contents writer.new) }
    ensures given { HasGiven result (R.remaining reader.old) (R.remaining reader.new) }
    ensures none { IfErr result (λ e. WritesNothing e → W.contents writer.new ≡ W.contents writer.old) }
    ensures end { OnOk result (IsAtEnd (R.remaining reader.new)) }
    ensures reads { steps.new ≤ steps.old + 67108866 }
{
    let Kept {
        result,
        clear,
        depot,
    } = run_shaken(
        alloc,
        reader,
        writer,
        steps,
        None,
        Pace::WhenFull,
        ListKeeper::new(alloc),
        ListKeeper::new(alloc),
    );
    drop((clear, depot));
    result
}

/// A law, by a call that does nothing: over keepers in memory, the text of an input is a function of its
/// bytes alone, whatever comes between its events, where none of these is refused for want of memory.
pub fn text_is_of_bytes()
    ensures { IsOfBytes }
{}

/// A law, by a call that does nothing: the file of a journal that is cut at any byte has a first part of its
/// records, and a node that takes those of the whole file takes these too.
pub fn files_may_be_cut()
    ensures { FilesMayBeCut }
{}
