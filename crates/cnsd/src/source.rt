//! Files by name, and the text that they make.

use cns_command_line::Names;
use cns_input::{BatchFault, Steps, read_input};
use cns_named::{NamedFault, text_of_files};
use std::fs::File;
use std::io::IsTerminal;
use std::rt::Files;
use std::sync::ledger::Ledger;

/// The texts of files by name, in which a part that is left out is empty.
#[derive(Drop)]
pub(crate) struct Texts {
    pub(crate) openings: Vec<u8>,
    pub(crate) trades: Vec<Vec<u8>>,
    pub(crate) script: Vec<u8>,
}

/// Says on standard error what is awaited from standard input, where that is a terminal.
pub(crate) fn tell_awaited(rt: &HostRuntime, awaited: &str) {
    if rt.stdin().is_terminal() {
        let _ = rt.eprintln(awaited);
    }
}

/// What is awaited where the text is read from standard input.
pub(crate) const AWAITED: &str =
    "cnsd: an input is awaited here, up to Ctrl-D; a FILE may be named in its place";

/// Opens a file for reading.
pub(crate) fn open_file<R: Files<File = File>>(rt: &R, name: &str) -> Result<File, BatchFault> {
    match File::open(rt, name) {
        Ok(file) => Ok(file),
        Err(_) => Err(BatchFault::Read),
    }
}

// The text of a file.
fn read_file<R: Files<File = File> + AllocGlobal, L: Ledger>(
    rt: &R,
    steps: &mut Steps<L>,
    name: &str,
) -> Result<Vec<u8>, BatchFault> {
    let mut file = open_file(rt, name)?;
    read_input(rt.alloc(), &mut file, steps)
}

// The text of a file, where one is named.
fn read_named<R: Files<File = File> + AllocGlobal, L: Ledger>(
    rt: &R,
    steps: &mut Steps<L>,
    name: &Option<String>,
) -> Result<Vec<u8>, BatchFault> {
    match name {
        Some(name) => read_file(rt, steps, name.as_str()),
        None => Ok(Vec::new(rt.alloc())),
    }
}

/// The texts of the files.
pub(crate) fn texts_of_names<R: Files<File = File> + AllocGlobal, L: Ledger>(
    rt: &R,
    steps: &mut Steps<L>,
    names: &Names,
) -> Result<Texts, BatchFault> {
    let openings = read_named(rt, steps, &names.openings)?;
    let mut trades = Vec::new(rt.alloc());
    for name in &names.trades {
        let text = read_file(rt, steps, name.as_str())?;
        if trades.push(text).is_err() {
            return Err(BatchFault::Memory);
        }
    }
    let script = read_named(rt, steps, &names.script)?;
    Ok(Texts {
        openings,
        trades,
        script,
    })
}

/// The fault of a batch whose files make no text.
pub(crate) fn named_fault(fault: NamedFault) -> BatchFault {
    match fault {
        NamedFault::Head => BatchFault::Sections,
        NamedFault::Header => BatchFault::Csv,
        NamedFault::OutOfMemory => BatchFault::Memory,
    }
}

/// The text that the files make.
pub(crate) fn text_of_names<R: Files<File = File> + AllocGlobal, L: Ledger>(
    rt: &R,
    steps: &mut Steps<L>,
    names: &Names,
) -> Result<Vec<u8>, BatchFault> {
    let texts = texts_of_names(rt, steps, names)?;
    match text_of_files(
        rt.alloc(),
        texts.openings.as_slice(),
        texts.trades.as_slice(),
        texts.script.as_slice(),
    ) {
        Ok(text) => Ok(text),
        Err(fault) => Err(named_fault(fault)),
    }
}
