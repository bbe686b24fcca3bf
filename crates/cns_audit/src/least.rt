//! What the openings of a depository must have been, by its journal alone.

ghost use Rattle.std.specs.Prelude.{ℕ, IfOk, Ok, OnOk};
ghost use Rattle.cns_audit.specs.Least.{Finds, TakesPayload};
ghost use Rattle.cns_depository.specs.RangesOf.{AreSomeRanges};

use cns_depository::OpeningRanges;
use cns_file::FileRecords;
use cns_records::DepRecord;
use cns_trades::Opening;
use std::alloc::{AllocError, Global};

// Takes the record that a payload is, and answers whether there are openings that are left; none where it
// is no record.
fn take_payload(ranges: &mut OpeningRanges, payload: &[u8]) -> Result<Option<bool>, AllocError>
    requires { AreSomeRanges ranges.old }
    ensures some { OnOk result (AreSomeRanges ranges.new) }
    ensures takes { IfOk result (λ left. TakesPayload payload.now left ranges.old ranges.new) }
{
    let Ok(entry) = DepRecord::read(payload) else {
        return Ok(None);
    };
    let left = ranges.add(&entry)?;
    Ok(Some(left))
}

// What the records of a file say, up to the first payload that is none; or how many of them stand before
// the first with which no openings are left.
fn ranges_or_bad(alloc: Global, file: &[u8]) -> Result<Result<OpeningRanges, usize>, AllocError>
    ensures { IfOk result (Finds file.now) }
{
    let mut ranges = OpeningRanges::new(alloc);
    let mut taken = 0usize;
    for payload in FileRecords::of(file) {
        match take_payload(&mut ranges, payload)? {
            Some(true) => taken = taken.saturating_add(1),
            Some(false) => {
                drop(ranges);
                return Ok(Err(taken));
            }
            None => break,
        }
    }
    Ok(Ok(ranges))
}

// What so many first records of a file say.
fn ranges_of_first(alloc: Global, file: &[u8], count: usize) -> Result<OpeningRanges, AllocError> {
    let mut ranges = OpeningRanges::new(alloc);
    for payload in FileRecords::of(file).take(count) {
        take_payload(&mut ranges, payload)?;
    }
    Ok(ranges)
}

/// What the records of a depository's journal say of its openings, as far as there are openings with which
/// they may stand there.
pub(crate) fn ranges_of(alloc: Global, file: &[u8]) -> Result<OpeningRanges, AllocError>
    ensures { IfOk result (λ ranges. Finds {E = ℕ} file.now (Ok ranges)) }
{
    match ranges_or_bad(alloc, file)? {
        Ok(ranges) => Ok(ranges),
        // The record with which there are none has changed what was found: so those before it are taken
        // once more.
        Err(taken) => ranges_of_first(alloc, file, taken),
    }
}

/// The least openings that the records of a depository's journal allow: of each member and issue as few
/// shares as all movements and withdrawals leave, as far as there are openings with which they may stand.
pub fn least_openings(alloc: Global, depot: &[u8]) -> Result<Vec<Opening>, AllocError> {
    ranges_of(alloc, depot)?.least_openings(alloc)
}
