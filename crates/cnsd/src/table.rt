//! The reports of a run, as a table.

use crate::source::tell_awaited;
use cns_table::{Reports, write_table};
use std::io;
use std::process::ExitCode;

/// Reads what a run wrote from standard input, and writes its reports as CSV to standard output, or its last
/// report alone; the exit status. A fault is told on standard error.
#[inline(never)]
pub(crate) fn table_reports(rt: &HostRuntime, last: bool) -> ExitCode {
    tell_awaited(rt, "cnsd: what a run wrote is awaited here, up to Ctrl-D");
    let reports = if last { Reports::Last } else { Reports::All };
    let mut writer = io::writer(rt);
    match write_table(rt.alloc(), rt.reader(), &mut writer, reports) {
        Ok(()) => ExitCode::SUCCESS,
        Err(fault) => {
            let _ = rt.eprintln(fault);
            ExitCode::from(fault.status())
        }
    }
}
