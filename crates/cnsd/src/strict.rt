//! What a strict run tells of what was not taken.

use cns_input::BatchFault;
use cns_tally::Counts;

// A count and what it counts.
fn word(count: u64, one: &'static str, several: &'static str) -> &'static str {
    if count == 1 { one } else { several }
}

/// The exit status: 3 where a device failed, 4 where anything else was not taken, and 0.
pub(crate) fn status_of(counts: &Counts) -> u8 {
    if counts.device_failures > 0 {
        return 3;
    }
    let taken = counts.faulty_rows == 0
        && counts.refused_trades == 0
        && counts.bad_lines == 0
        && counts.refused_events == 0;
    if taken { 0 } else { 4 }
}

/// Tells the counts in one line on standard error.
pub(crate) fn tell_counts(rt: &HostRuntime, counts: &Counts) -> Result<(), BatchFault> {
    let Counts {
        faulty_rows,
        refused_trades,
        bad_lines,
        refused_events,
        device_failures,
    } = *counts;
    let rows = word(faulty_rows, "row", "rows");
    let trades = word(refused_trades, "trade", "trades");
    let lines = word(bad_lines, "line", "lines");
    let events = word(refused_events, "event", "events");
    let failures = word(device_failures, "failure", "failures");
    let line = format!(in rt.alloc();
        "cnsd: {faulty_rows} {rows} faulty, {refused_trades} {trades} refused, {bad_lines} bad {lines}, {refused_events} {events} refused, {device_failures} device {failures}"
    )?;
    let _ = rt.eprintln(line.as_str());
    Ok(())
}
