//! What is read from journals: dumps, checks and explanations. Files are opened for reading alone.

use crate::locks::tell_holder;
use cns_audit::{Asked, CLEAR, DEPOT, Holder, Journals, OPENINGS, check_journals, explain};
use cns_command_line::{Audit, Folder};
use cns_dump::{Form, write_dump};
use cns_ids::{Cusip, MemberNo};
use cns_input::BatchFault;
use cns_trades::{CsvFault, OpeningRow, read_openings};
use std::alloc::AllocError;
use std::fs::File;
use std::io;
use std::io::{ErrorKind, Read};

// The exit status where a file cannot be read.
const UNREAD: u8 = 2;

// Why a request is not served: with this exit status, and why was told; or by a fault.
#[derive(Drop)]
enum Stop {
    Told(u8),
    Fault(BatchFault),
}

impl From<BatchFault> for Stop {
    fn from(fault: BatchFault) -> Stop {
        Stop::Fault(fault)
    }
}

impl From<AllocError> for Stop {
    fn from(_: AllocError) -> Stop {
        Stop::Fault(BatchFault::Memory)
    }
}

// All bytes of a file.
fn bytes_of(rt: &HostRuntime, name: &str) -> Result<Vec<u8>, io::Error> {
    let mut file = File::open(rt, name)?;
    let mut bytes = Vec::new(rt.alloc());
    file.read_to_end(&mut bytes)?;
    Ok(bytes)
}

// The same; a file that cannot be read is named on standard error, with the system's word.
fn read_whole(rt: &HostRuntime, name: &str) -> Result<Vec<u8>, Stop> {
    match bytes_of(rt, name) {
        Ok(bytes) => Ok(bytes),
        Err(error) if error.kind() == ErrorKind::OutOfMemory => {
            Err(Stop::Fault(BatchFault::Memory))
        }
        Err(error) => {
            let line = format!(in rt.alloc(); "cnsd: {name}: {error}")?;
            let _ = rt.eprintln(line.as_str());
            Err(Stop::Told(UNREAD))
        }
    }
}

// The name of a file of a folder.
fn name_in(rt: &HostRuntime, folder: &str, name: &str) -> Result<String, AllocError> {
    format!(in rt.alloc(); "{folder}/{name}")
}

// The rows of a text of openings.
fn rows_of(rt: &HostRuntime, text: &[u8]) -> Result<Vec<OpeningRow>, Stop> {
    match read_openings(rt.alloc(), text) {
        Ok(rows) => Ok(rows),
        Err(CsvFault::OutOfMemory) => Err(Stop::Fault(BatchFault::Memory)),
        Err(_) => Err(Stop::Fault(BatchFault::Csv)),
    }
}

// The rows of the openings that are named; None where none are.
fn openings_named(
    rt: &HostRuntime,
    name: &Option<String>,
) -> Result<Option<Vec<OpeningRow>>, Stop> {
    let Some(name) = name else {
        return Ok(None);
    };
    let text = read_whole(rt, name.as_str())?;
    Ok(Some(rows_of(rt, text.as_slice())?))
}

// The rows of the openings that a folder keeps; None where it keeps none.
fn openings_kept(rt: &HostRuntime, folder: &str) -> Result<Option<Vec<OpeningRow>>, Stop> {
    let name = name_in(rt, folder, OPENINGS)?;
    match File::open(rt, name.as_str()) {
        Err(error) if error.kind() == ErrorKind::NotFound => Ok(None),
        _ => {
            let text = read_whole(rt, name.as_str())?;
            Ok(Some(rows_of(rt, text.as_slice())?))
        }
    }
}

// Rows, where there are some.
fn rows_in(rows: &Option<Vec<OpeningRow>>) -> Option<&[OpeningRow]> {
    match rows {
        Some(rows) => Some(rows.as_slice()),
        None => None,
    }
}

// What stands in the folder of the journals.
#[derive(Drop)]
struct Found {
    clear: Vec<u8>,
    depot: Vec<u8>,
    named: Option<Vec<OpeningRow>>,
    kept: Option<Vec<OpeningRow>>,
}

impl Found {
    fn journals(&self) -> Journals<'_> {
        Journals {
            clear: self.clear.as_slice(),
            depot: self.depot.as_slice(),
        }
    }

    // What is asked of them: to begin with the openings that were named, or else with those that the folder keeps.
    fn asked(&self, verbose: bool) -> Asked<'_> {
        let named = rows_in(&self.named);
        let kept = rows_in(&self.kept);
        Asked {
            openings: named.or(kept),
            kept,
            verbose,
        }
    }
}

// The same, read.
fn found_in(rt: &HostRuntime, folder: &Folder) -> Result<Found, Stop> {
    let clear = name_in(rt, folder.name.as_str(), CLEAR)?;
    let depot = name_in(rt, folder.name.as_str(), DEPOT)?;
    Ok(Found {
        clear: read_whole(rt, clear.as_str())?,
        depot: read_whole(rt, depot.as_str())?,
        named: openings_named(rt, &folder.openings)?,
        kept: openings_kept(rt, folder.name.as_str())?,
    })
}

// `cnsd journal dump FILE`
#[inline(never)]
fn dump(rt: &HostRuntime, file: &str, csv: bool) -> Result<u8, Stop> {
    let bytes = read_whole(rt, file)?;
    let form = if csv { Form::Csv } else { Form::Lines };
    let mut writer = io::writer(rt);
    let good = write_dump(rt.alloc(), bytes.as_slice(), form, &mut writer)?;
    Ok(u8::from(!good))
}

// `cnsd journal check DIR`
#[inline(never)]
fn check(rt: &HostRuntime, folder: &Folder, verbose: bool) -> Result<u8, Stop> {
    let found = found_in(rt, folder)?;
    for journal in [CLEAR, DEPOT] {
        tell_holder(rt, name_in(rt, folder.name.as_str(), journal)?.as_str());
    }
    let asked = found.asked(verbose);
    let faults = check_journals(rt.alloc(), &found.journals(), &asked, io::writer(rt))?;
    Ok(u8::from(faults > 0))
}

// The member and the issue that are named; which is none is told on standard error.
fn holder_of(rt: &HostRuntime, member: &str, issue: &str) -> Result<Holder, Stop> {
    let Ok(member) = MemberNo::read(member.as_bytes()) else {
        let line = format!(in rt.alloc(); "cnsd: {member}: no member, which is 1 to 9999")?;
        let _ = rt.eprintln(line.as_str());
        return Err(Stop::Told(1));
    };
    let Ok(issue) = Cusip::read(issue.as_bytes()) else {
        let line = format!(in rt.alloc(); "cnsd: {issue}: no CUSIP; `cnsd cusip` says why")?;
        let _ = rt.eprintln(line.as_str());
        return Err(Stop::Told(1));
    };
    Ok(Holder { member, issue })
}

// `cnsd explain DIR MEMBER CUSIP`
#[inline(never)]
fn explain_holder(
    rt: &HostRuntime,
    folder: &Folder,
    member: &str,
    issue: &str,
) -> Result<u8, Stop> {
    let holder = holder_of(rt, member, issue)?;
    let found = found_in(rt, folder)?;
    let mut writer = io::writer(rt);
    let mut errors = Vec::new(rt.alloc());
    let done = explain(
        rt.alloc(),
        &found.journals(),
        &found.asked(false),
        &holder,
        &mut writer,
        &mut errors,
    )?;
    if let Ok(errors) = str::from_utf8(errors.as_slice()) {
        let _ = rt.eprint(errors);
    }
    Ok(u8::from(!done))
}

// Serves a request.
fn serve(rt: &HostRuntime, request: &Audit) -> Result<u8, Stop> {
    match request {
        Audit::Dump { file, csv } => dump(rt, file.as_str(), *csv),
        Audit::Check { folder, verbose } => check(rt, folder, *verbose),
        Audit::Explain {
            folder,
            member,
            issue,
        } => explain_holder(rt, folder, member.as_str(), issue.as_str()),
    }
}

/// Serves a request for what is read from journals; the exit status.
#[inline(never)]
pub(crate) fn read_journals(rt: &HostRuntime, request: &Audit) -> Result<u8, BatchFault> {
    match serve(rt, request) {
        Ok(status) | Err(Stop::Told(status)) => Ok(status),
        Err(Stop::Fault(fault)) => Err(fault),
    }
}
