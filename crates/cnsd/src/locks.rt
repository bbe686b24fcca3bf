//! Who holds the lock of a file, where the system tells.

use std::fs::File;
use std::io::Read;
use std::os::unix::fs::MetadataExt;
use std::{fs, io};

// The locks that Linux knows of, each in a line: `1: FLOCK  ADVISORY  WRITE 4215 fe:00:10979776 0 EOF`.
const LOCKS: &str = "/proc/locks";

// How these lines name a file: the two numbers of its device, and its own.
fn place_of(rt: &HostRuntime, file: &str) -> io::Result<String> {
    let about = fs::metadata(rt, file)?;
    let (device, number) = (about.dev(), about.ino());
    let major = device >> 32 & 0xffff_f000 | device >> 8 & 0xfff;
    let minor = device >> 12 & 0xffff_ff00 | device & 0xff;
    Ok(format!(in rt.alloc(); "{major:02x}:{minor:02x}:{number}")?)
}

// All that is told of locks.
fn locks(rt: &HostRuntime) -> io::Result<Vec<u8>> {
    let mut table = File::open(rt, LOCKS)?;
    let mut bytes = Vec::new(rt.alloc());
    table.read_to_end(&mut bytes)?;
    Ok(bytes)
}

// The process that a line names, where it holds the lock of the file with this place. (A line of one that waits has
// an arrow in place of the kind.)
fn holder_in<'a>(line: &'a str, place: &str) -> Option<&'a str> {
    let mut words = line.split_whitespace();
    words.next()?;
    let kind = words.next()?;
    words.next()?;
    words.next()?;
    let process = words.next()?;
    if kind == "FLOCK" && words.next()? == place {
        Some(process)
    } else {
        None
    }
}

// Tells on standard error each process that holds the lock of a file.
fn tell_told(rt: &HostRuntime, file: &str) -> io::Result<()> {
    let place = place_of(rt, file)?;
    let bytes = locks(rt)?;
    let Ok(text) = str::from_utf8(bytes.as_slice()) else {
        return Ok(());
    };
    for line in text.lines() {
        if let Some(process) = holder_in(line, place.as_str()) {
            let line = format!(in rt.alloc(); "cnsd: {file}: locked by process {process}")?;
            let _ = rt.eprintln(line.as_str());
        }
    }
    Ok(())
}

/// Tells on standard error which process holds the lock of a file, as a run holds those of its journals. Where
/// the system does not tell, nothing is told.
pub(crate) fn tell_holder(rt: &HostRuntime, file: &str) {
    let _ = tell_told(rt, file);
}
