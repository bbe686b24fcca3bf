//! What is wrong with a text, told by the file and the line in which it stands.

ghost use Rattle.std.specs.Prelude.{◌≡◌, ◌<◌};

use crate::source::{AWAITED, Texts, named_fault, open_file, tell_awaited, texts_of_names};
use cns_check::{Findings, check, count_line, found_line, repeat_line, repeats, repeats_line};
use cns_command_line::{Names, Source};
use cns_input::{BatchFault, Steps, read_input};
use cns_named::text_of_files;
use std::alloc::{AllocError, Global};
use std::fs::File;
use std::io;
use std::io::{Read, Write};
use std::sync::ledger::{Blank, Ledger};

// A file's lines in a text: the first of them, and how many more lines stand before it there than in the file.
#[derive(Drop)]
struct Stretch<'a> {
    name: &'a str,
    first: u64,
    before: u64,
}

// How many lines a text takes, with the last one's end.
fn lines_of(text: &[u8]) -> u64 {
    let mut lines = 0u64;
    for byte in text {
        if *byte == b'\n' {
            lines = lines.saturating_add(1);
        }
    }
    match text.last() {
        Some(byte) if *byte != b'\n' => lines.saturating_add(1),
        _ => lines,
    }
}

// The name of a file that may not be named.
fn name_of(name: &Option<String>) -> &str {
    match name {
        Some(name) => name.as_str(),
        None => "-",
    }
}

// Where the files stand in the text that they make.
fn stretches<'a>(
    alloc: Global,
    names: &'a Names,
    texts: &Texts,
) -> Result<Vec<Stretch<'a>>, AllocError> {
    let mut all = Vec::new(alloc);
    all.push(Stretch {
        name: name_of(&names.openings),
        first: 2,
        before: 1,
    })?;
    let mut line = lines_of(texts.openings.as_slice()).saturating_add(3);
    let mut further = false;
    for (name, text) in names.trades.iter().zip(&texts.trades) {
        let lines = lines_of(text.as_slice());
        let skipped = if further { 1 } else { 0 };
        all.push(Stretch {
            name: name.as_str(),
            first: line,
            before: line.saturating_sub(1).saturating_sub(skipped),
        })?;
        line = line.saturating_add(lines).saturating_sub(skipped);
        further = true;
    }
    all.push(Stretch {
        name: name_of(&names.script),
        first: line.saturating_add(1),
        before: line,
    })?;
    Ok(all)
}

// Writes all of a line.
fn write_line<W: Write>(writer: &mut W, line: &str) -> Result<(), BatchFault> {
    match writer.write_all(line.as_bytes()) {
        Ok(()) => Ok(()),
        Err(_) => Err(BatchFault::Write),
    }
}

// The file in which a line of the text stands, and how many more lines stand before it in the text than in the file.
fn file_of<'a>(files: &[Stretch<'a>], line: u64) -> (&'a str, u64) {
    let mut found = ("-", 0);
    for file in files {
        if file.first <= line {
            found = (file.name, file.before);
        }
    }
    found
}

// Tells all that was found, by the files in which it stands; the exit status.
fn tell(rt: &HostRuntime, found: &Findings, files: &[Stretch<'_>]) -> Result<u8, BatchFault> {
    let mut writer = io::writer(rt);
    if found.first.is_empty() {
        return Ok(0);
    }
    for one in &found.first {
        let (name, before) = file_of(files, one.line);
        let line = found_line(rt.alloc(), name, before, one)?;
        write_line(&mut writer, line.as_str())?;
    }
    let line = count_line(rt.alloc(), found)?;
    write_line(&mut writer, line.as_str())?;
    Ok(1)
}

// Notes on standard error which trades of a text have an id that an earlier one has. That is no fault of the text:
// a run refuses the later trade.
#[inline(never)]
fn note(rt: &HostRuntime, text: &[u8], files: &[Stretch<'_>]) -> Result<(), BatchFault> {
    let repeats = repeats(rt.alloc(), text)?;
    if repeats.first.is_empty() {
        return Ok(());
    }
    for one in &repeats.first {
        let (name, before) = file_of(files, one.line);
        let (earlier, earlier_before) = file_of(files, one.earlier_line);
        let line = repeat_line(rt.alloc(), name, before, earlier, earlier_before, one)?;
        let _ = rt.eprint(line.as_str());
    }
    let line = repeats_line(rt.alloc(), &repeats)?;
    let _ = rt.eprint(line.as_str());
    Ok(())
}

// Tells on standard output all that is wrong with a text; the exit status.
#[inline(never)]
fn find(rt: &HostRuntime, text: &[u8], files: &[Stretch<'_>]) -> Result<u8, BatchFault> {
    let found = check(rt.alloc(), text)?;
    tell(rt, &found, files)
}

// Looks at a text that files make.
fn check_text(rt: &HostRuntime, text: &[u8], files: &[Stretch<'_>]) -> Result<u8, BatchFault> {
    let status = find(rt, text, files)?;
    note(rt, text, files)?;
    Ok(status)
}

// Looks at what a reader gives.
fn check_from<R: Read, L: Ledger>(
    rt: &HostRuntime,
    steps: &mut Steps<L>,
    name: &str,
    reader: &mut R,
) -> Result<u8, BatchFault> {
    let text = read_input(rt.alloc(), reader, steps)?;
    let whole = Stretch {
        name,
        first: 0,
        before: 0,
    };
    check_text(rt, text.as_slice(), &[whole])
}

// Looks at the text that files make.
fn check_named<L: Ledger>(
    rt: &HostRuntime,
    steps: &mut Steps<L>,
    names: &Names,
) -> Result<u8, BatchFault> {
    let texts = texts_of_names(rt, steps, names)?;
    let text = match text_of_files(
        rt.alloc(),
        texts.openings.as_slice(),
        texts.trades.as_slice(),
        texts.script.as_slice(),
    ) {
        Ok(text) => text,
        Err(fault) => return Err(named_fault(fault)),
    };
    let files = stretches(rt.alloc(), names, &texts)?;
    check_text(rt, text.as_slice(), files.as_slice())
}

// Why a file cannot be read, where it cannot.
fn unread(rt: &HostRuntime, name: &str) -> Option<io::Error> {
    match File::open(rt, name) {
        Ok(mut file) => file.read(&mut [0u8; 1]).err(),
        Err(error) => Some(error),
    }
}

// Whether a file can be read; where it cannot, why is told on standard error.
fn is_readable(rt: &HostRuntime, name: &str) -> Result<bool, BatchFault> {
    let Some(error) = unread(rt, name) else {
        return Ok(true);
    };
    let line = format!(in rt.alloc(); "cnsd: {name}: {error}")?;
    let _ = rt.eprintln(line.as_str());
    Ok(false)
}

// Whether all files of a text can be read.
fn are_readable(rt: &HostRuntime, source: &Source) -> Result<bool, BatchFault> {
    match source {
        Source::Standard => Ok(true),
        Source::File(name) => is_readable(rt, name.as_str()),
        Source::Named(names) => {
            let mut all = true;
            for name in names
                .openings
                .iter()
                .chain(&names.trades)
                .chain(&names.script)
            {
                if !is_readable(rt, name.as_str())? {
                    all = false;
                }
            }
            Ok(all)
        }
    }
}

/// Tells on standard output all that is wrong with a text; the exit status, 0 where nothing is, and 2 where a
/// file of the text cannot be read.
#[inline(never)]
pub(crate) fn check_source<L: Ledger>(
    rt: &HostRuntime,
    blank: Blank,
    source: &Source,
) -> Result<u8, BatchFault>
    requires name { blank.name ≡ L.name }
    requires parts { blank.parts ≡ L.parts }
    requires some { 0 < L.parts }
{
    let mut steps = Steps::<L>::new(blank);
    if !are_readable(rt, source)? {
        return Ok(2);
    }
    match source {
        Source::Standard => {
            tell_awaited(rt, AWAITED);
            let mut reader = rt.reader();
            check_from(rt, &mut steps, "-", &mut reader)
        }
        Source::File(name) => {
            let mut file = open_file(rt, name.as_str())?;
            check_from(rt, &mut steps, name.as_str(), &mut file)
        }
        Source::Named(names) => check_named(rt, &mut steps, names),
    }
}
