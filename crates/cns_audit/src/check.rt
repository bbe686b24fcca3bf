//! The check of both journals of a folder.

ghost use Rattle.std.specs.Prelude.{◌≡◌, ◌<◌, ◌||◌, ℕ, IfOk, None, OnOk, vec_items};
ghost use Rattle.cns_audit.specs.Check.{HasNoOther, IsAllSound, IsFaulty, AreAsked, NeedsOf, TellsFault, are_damaged, has_fallen, is_damaged, is_refused};
ghost use Rattle.cns_audit.specs.Rows.{take_row, openings_taken};
ghost use Rattle.cns_depository.specs.Ranges.{standing, with_opening};
ghost use Rattle.cns_audit.specs.Opened.{IsOpening};
ghost use Rattle.cns_audit.specs.declared.opened.Opened.{Opened};

use crate::bad::{Whose, tell_bad};
use crate::compare::{tell_breaches, tell_counts};
use crate::depot::{tell_balances, tell_changes};
use crate::issues::tell_clearing;
use crate::journal::{CLEAR, DEPOT, Journals, OPENINGS};
use crate::kept::{FallsOut, Taken, are_same_openings, held_openings};
use crate::least::{least_openings, ranges_of};
use crate::opened::{Opened, open_journals};
use crate::told::Told;
use cns_clearing::Clearing;
use cns_depository::{Depository, OpeningFault, OpeningRanges, Openings};
use cns_dump::EndWords;
use cns_file::{Extent, FileCopy, Tail, extent_of};
use cns_input::BatchFault;
use cns_journal::Keeper;
use cns_system::System;
use cns_trades::{Opening, OpeningRow};
use std::alloc::{AllocError, Global};
use std::io::Write;

// What the rows of openings are told as.
const ROWS: &str = "openings";

/// How a check is asked for.
#[derive(Clone, Copy, Debug)]
pub struct Asked<'a> {
    /// The rows of the openings that the depository begins with, where they are known.
    pub openings: Option<&'a [OpeningRow]>,
    /// The rows of the openings that the folder keeps from its first run, where it does.
    pub kept: Option<&'a [OpeningRow]>,
    /// Whether the sums of each issue, and each balance, are told.
    pub verbose: bool,
}

// Tells as a fault that a row of openings, with its number, falls out.
fn tell_row<W: Write + Drop>(
    told: &mut Told<W>,
    number: u64,
    why: FallsOut,
) -> Result<(), BatchFault>
    ensures { 0 < told.new.faults }
{
    match why {
        FallsOut::Faulty { row, fault } => told.fault(ROWS, ("row ", row, ": ", fault)),
        FallsOut::Double => told.fault(ROWS, ("row ", number, ": Double")),
        FallsOut::IssueSum => told.fault(ROWS, ("row ", number, ": IssueSum")),
    }
}

// Takes a row of openings, with its number; where it falls out, that is told.
fn take_row<W: Write + Drop>(
    told: &mut Told<W>,
    taken: &mut Taken,
    number: u64,
    row: &OpeningRow,
) -> Result<(), BatchFault>
    requires same { taken.old.held ≡ vec_items taken.old.list }
    ensures same { OnOk result (taken.new.held ≡ vec_items taken.new.list) }
    ensures rows { OnOk result ((vec_items taken.new.list, taken.new.fell_out) ≡ take_row (vec_items taken.old.list, taken.old.fell_out) row.now) }
    ensures tells { OnOk result ((from : ℕ) → TellsFault taken.old.fell_out from told.old.faults → TellsFault taken.new.fell_out from told.new.faults) }
{
    match taken.take(row)? {
        None => Ok(()),
        Some(why) => tell_row(told, number, why),
    }
}

// The openings of rows that stand; each other row is told as a fault.
fn take_rows<W: Write + Drop>(
    alloc: Global,
    told: &mut Told<W>,
    rows: &[OpeningRow],
) -> Result<Vec<Opening>, BatchFault>
    ensures list { IfOk result (λ list. vec_items list ≡ (openings_taken rows.now).0) }
    ensures tells { OnOk result (TellsFault (openings_taken rows.now).1 told.old.faults told.new.faults) }
{
    let mut taken = Taken::new(alloc);
    let mut number = 0u64;
    for row in rows {
        number = number.saturating_add(1);
        take_row(told, &mut taken, number, row)?;
    }
    Ok(taken.into_list())
}

// Tells as a fault that the openings are not those that the folder keeps.
fn tell_other_openings<W: Write + Drop>(
    alloc: Global,
    told: &mut Told<W>,
    asked: &Asked<'_>,
) -> Result<(), BatchFault>
    ensures { HasNoOther asked.now → told.new.faults ≡ told.old.faults }
{
    let (Some(rows), Some(kept)) = (asked.openings, asked.kept) else {
        return Ok(());
    };
    if are_same_openings(alloc, rows, kept)? {
        return Ok(());
    }
    told.fault(OPENINGS, "other openings than those of the first run")
}

// Tells how many records a journal has, and what follows the last one; damage is a fault.
fn tell_file<W: Write + Drop>(told: &mut Told<W>, name: &str, file: &[u8]) -> Result<(), BatchFault>
    ensures { OnOk result (TellsFault (is_damaged file.now) told.old.faults told.new.faults) }
{
    let Extent {
        records,
        bytes,
        tail,
    } = extent_of(file);
    told.line(name, (records, " records in ", bytes, " bytes"))?;
    let follow = (file.len() as u64).saturating_sub(bytes);
    let words = EndWords {
        bytes: follow,
        tail,
    };
    match tail {
        Tail::Nothing | Tail::Crash => told.line(name, words),
        Tail::Damage if records == 0 => {
            told.fault(
                name,
                (follow, " bytes follow that no crash leaves: no journal"),
            )
        }
        Tail::Damage => told.fault(name, words),
    }
}

// Tells the balances of a depository, or how they changed.
fn tell_depository<K: Keeper, W: Write + Drop>(
    alloc: Global,
    told: &mut Told<W>,
    node: &Depository<K>,
    asked: &Asked<'_>,
    ranges: &OpeningRanges,
) -> Result<(), BatchFault>
    ensures { told.new.faults ≡ told.old.faults }
{
    if asked.openings.is_none() {
        return tell_changes(alloc, told, DEPOT, ranges);
    }
    if asked.verbose {
        return tell_balances(alloc, told, DEPOT, node);
    }
    Ok(())
}

// Tells both nodes of a system, and how many movements they have.
fn tell_system<W: Write + Drop>(
    alloc: Global,
    told: &mut Told<W>,
    journals: &Journals<'_>,
    system: &System<FileCopy<'_>, FileCopy<'_>>,
    asked: &Asked<'_>,
    ranges: &OpeningRanges,
) -> Result<(), BatchFault>
    ensures { OnOk result (TellsFault (are_damaged journals.now) told.old.faults told.new.faults) }
{
    let (clear, depot) = (system.clearing(), system.depository());
    tell_file(told, CLEAR, journals.clear)?;
    tell_clearing(alloc, told, CLEAR, clear, asked.verbose)?;
    tell_file(told, DEPOT, journals.depot)?;
    tell_depository(alloc, told, depot, asked, ranges)?;
    tell_counts(told, clear.orders(), depot)
}

// Tells the clearing node, or the first record of its journal that may not stand there.
fn tell_clear<K: Keeper, W: Write + Drop>(
    alloc: Global,
    told: &mut Told<W>,
    file: &[u8],
    node: &Result<Clearing<K>, u64>,
    asked: &Asked<'_>,
) -> Result<(), BatchFault> {
    tell_file(told, CLEAR, file)?;
    match node {
        Ok(node) => tell_clearing(alloc, told, CLEAR, node, asked.verbose),
        Err(place) => tell_bad(alloc, told, CLEAR, Whose::Clear, file, *place),
    }
}

// Tells the depository, or the first record of its journal that may not stand there.
fn tell_depot<K: Keeper, W: Write + Drop>(
    alloc: Global,
    told: &mut Told<W>,
    file: &[u8],
    node: &Result<Depository<K>, u64>,
    asked: &Asked<'_>,
    ranges: &OpeningRanges,
) -> Result<(), BatchFault> {
    tell_file(told, DEPOT, file)?;
    match node {
        Ok(node) => tell_depository(alloc, told, node, asked, ranges),
        Err(place) => tell_bad(alloc, told, DEPOT, Whose::Depot, file, *place),
    }
}

// Tells nodes that do not agree, or of which one could not be opened.
fn tell_refused<C: Keeper, D: Keeper, W: Write + Drop>(
    alloc: Global,
    told: &mut Told<W>,
    journals: &Journals<'_>,
    clear: &Result<Clearing<C>, u64>,
    depot: &Result<Depository<D>, u64>,
    asked: &Asked<'_>,
    ranges: &OpeningRanges,
) -> Result<(), BatchFault> {
    tell_clear(alloc, told, journals.clear, clear, asked)?;
    tell_depot(alloc, told, journals.depot, depot, asked, ranges)?;
    if let (Ok(clear), Ok(depot)) = (clear, depot) {
        tell_breaches(told, clear.orders(), depot)?;
        tell_counts(told, clear.orders(), depot)?;
    }
    Ok(())
}

// Tells both nodes as they were opened; where they could not be, some fault is told.
fn tell_opened<W: Write + Drop>(
    alloc: Global,
    told: &mut Told<W>,
    journals: &Journals<'_>,
    opened: &Opened<'_>,
    asked: &Asked<'_>,
    ranges: &OpeningRanges,
) -> Result<(), BatchFault>
    ensures { OnOk result (TellsFault (are_damaged journals.now || is_refused opened.now) told.old.faults told.new.faults) }
{
    match opened {
        Opened::Agreed(system) => tell_system(alloc, told, journals, system, asked, ranges),
        Opened::Refused { clear, depot } => {
            tell_refused(alloc, told, journals, clear, depot, asked, ranges)?;
            if told.faults() == 0 {
                return told.fault("both", "the records do not agree");
            }
            Ok(())
        }
    }
}

// Adds an opening, where it stands.
fn begin_also(openings: &mut Openings, opening: &Opening) -> Result<(), AllocError>
    ensures { OnOk result (openings.new ≡ with_opening openings.old opening.now) }
{
    match openings.add(opening) {
        Err(OpeningFault::OutOfMemory) => Err(AllocError),
        Ok(()) | Err(OpeningFault::Double | OpeningFault::IssueSum) => Ok(()),
    }
}

// The openings of a list that stand.
fn begin_with(alloc: Global, list: &[Opening]) -> Result<Openings, AllocError>
    ensures { IfOk result (λ openings. openings ≡ standing list.now) }
{
    let mut openings = Openings::new(alloc);
    for opening in list {
        begin_also(&mut openings, opening)?;
    }
    Ok(openings)
}

/// Opens both nodes with the openings of a list.
pub(crate) fn open_with<'a>(
    alloc: Global,
    journals: &Journals<'a>,
    list: &[Opening],
) -> Result<Opened<'a>, AllocError>
    ensures { IfOk result (λ opened. IsOpening (standing list.now) journals.now.clear.now journals.now.depot.now opened) }
{
    let openings = begin_with(alloc, list)?;
    match begin_with(alloc, list) {
        Ok(again) => open_journals(alloc, journals, openings, again),
        Err(error) => {
            drop(openings);
            Err(error)
        }
    }
}

// Opens both nodes with the openings of a list, and tells them.
fn tell_with<W: Write + Drop>(
    alloc: Global,
    told: &mut Told<W>,
    journals: &Journals<'_>,
    list: &[Opening],
    asked: &Asked<'_>,
    ranges: &OpeningRanges,
) -> Result<(), BatchFault>
    ensures { OnOk result ((opened : Opened) × IsOpening (standing list.now) journals.now.clear.now journals.now.depot.now opened
        × TellsFault (are_damaged journals.now || is_refused opened) told.old.faults told.new.faults) }
{
    let opened = open_with(alloc, journals, list)?;
    let ended = tell_opened(alloc, told, journals, &opened, asked, ranges);
    drop(opened);
    ended
}

// The openings that are asked for; the rows that fall out are told. Where none are asked for, those that
// all records need at least.
fn take_openings<W: Write + Drop>(
    alloc: Global,
    told: &mut Told<W>,
    asked: &Asked<'_>,
    ranges: &OpeningRanges,
) -> Result<Vec<Opening>, BatchFault>
    ensures list { IfOk result (λ list. AreAsked asked.now (standing (vec_items list))) }
    ensures tells { OnOk result (TellsFault (has_fallen asked.now) told.old.faults told.new.faults) }
    ensures least { IfOk result (λ list. asked.now.openings ≡ None → NeedsOf ranges.now (standing (vec_items list))) }
{
    match asked.openings {
        Some(rows) => take_rows(alloc, told, rows),
        None => Ok(ranges.least_openings(alloc)?),
    }
}

// Tells all but the last line.
fn tell_all<W: Write + Drop>(
    alloc: Global,
    told: &mut Told<W>,
    journals: &Journals<'_>,
    asked: &Asked<'_>,
) -> Result<(), BatchFault>
    ensures clean { OnOk result (told.new.faults ≡ 0 → IsAllSound asked.now journals.now) }
    ensures faulty { OnOk result (0 < told.new.faults → told.old.faults ≡ 0 → HasNoOther asked.now → IsFaulty asked.now journals.now) }
{
    tell_other_openings(alloc, told, asked)?;
    let ranges = ranges_of(alloc, journals.depot)?;
    let list = take_openings(alloc, told, asked, &ranges)?;
    tell_with(alloc, told, journals, list.as_slice(), asked, &ranges)
}

/// The openings that are asked for, where each row of them holds; the least ones where there are no rows.
pub(crate) fn openings_asked(
    alloc: Global,
    journals: &Journals<'_>,
    asked: &Asked<'_>,
) -> Result<Option<Vec<Opening>>, AllocError> {
    match asked.openings {
        None => Ok(Some(least_openings(alloc, journals.depot)?)),
        Some(rows) => {
            let held = held_openings(alloc, rows)?;
            if held.len() == rows.len() {
                Ok(Some(held))
            } else {
                Ok(None)
            }
        }
    }
}

/// Checks both journals, and tells what it finds; answers how many faults it has told. Where it has told none, each row of the
/// openings that are asked for stands, no damage follows either journal's records, and both nodes open from them with those
/// openings, or with some where none are asked for. Where it has told some, a row falls out, damage follows the records of a
/// journal, or both nodes do not open with those openings, or with none at all where none are asked for; or the folder keeps other
/// ones. (This project's own rules.)
///
/// Refuses `Memory` and `Write`, and a part of the lines may then have been written.
pub fn check_journals<W: Write + Drop>(
    alloc: Global,
    journals: &Journals<'_>,
    asked: &Asked<'_>,
    writer: W,
) -> Result<u64, BatchFault>
    ensures clean { IfOk result (λ faults. faults ≡ 0 → IsAllSound asked.now journals.now) }
    ensures faulty { IfOk result (λ faults. 0 < faults → HasNoOther asked.now → IsFaulty asked.now journals.now) }
{
    let mut told = Told::new(alloc, writer);
    match tell_all(alloc, &mut told, journals, asked) {
        Ok(()) => told.end(),
        Err(fault) => {
            drop(told);
            Err(fault)
        }
    }
}
