ghost use Rattle.std.specs.Prelude.{◌++◌, List, IfOk, OnOk};
ghost use Rattle.cns_check.specs.Findings.{in_heads, in_mended, in_sections, in_text};
ghost use Rattle.cns_check.specs.Kept.{IsOf};
ghost use Rattle.cns_check.specs.declared.finding.Finding.{Finding};

use crate::found::Findings;
use crate::heads::check_heads;
use crate::lines::{line_ends, trades_line};
use crate::mended::mended;
use crate::openings::OpeningRows;
use crate::rows::check_rows;
use crate::script::check_script;
use crate::trades::Trades;
use cns_depository::Openings;
use cns_input::{Sections, split_input};
use std::alloc::{AllocError, Global};

// Looks at the sections of a text.
fn check_sections(
    alloc: Global,
    sections: &Sections<'_>,
    found: &mut Findings,
) -> Result<(), AllocError>
    ensures { OnOk result ((before : List Finding) → IsOf found.old before → IsOf found.new
        (before ++ in_sections sections.now.openings.now sections.now.trades.now sections.now.script.now)) }
{
    let trades_at = trades_line(sections.openings);
    let script_at = trades_at
        .saturating_add(line_ends(sections.trades))
        .saturating_add(1);
    let mut openings = OpeningRows {
        held: Openings::new(alloc),
    };
    check_rows(alloc, sections.openings, 2, &mut openings, found)?;
    check_rows(alloc, sections.trades, trades_at, &mut Trades, found)?;
    check_script(alloc, sections.script, script_at, found)
}

// Looks at the sections that a text has once its heads are mended, which stand in the same lines.
fn check_mended(alloc: Global, text: &[u8], found: &mut Findings) -> Result<(), AllocError>
    ensures { OnOk result ((before : List Finding) → IsOf found.old before → IsOf found.new (before ++ in_mended text.now)) }
{
    let text = mended(alloc, text)?;
    match split_input(text.as_slice()) {
        Some(sections) => check_sections(alloc, &sections, found),
        None => Ok(()),
    }
}

// Looks at a text without sections: at its heads, and behind them.
fn check_unparted(alloc: Global, text: &[u8], found: &mut Findings) -> Result<(), AllocError>
    ensures { OnOk result ((before : List Finding) → IsOf found.old before → IsOf found.new (before ++ (in_heads text.now ++ in_mended text.now))) }
{
    check_heads(alloc, text, found)?;
    check_mended(alloc, text, found)
}

// Looks at a text.
fn check_text(alloc: Global, text: &[u8], found: &mut Findings) -> Result<(), AllocError>
    ensures { OnOk result ((before : List Finding) → IsOf found.old before → IsOf found.new (before ++ in_text text.now)) }
{
    match split_input(text) {
        Some(sections) => check_sections(alloc, &sections, found),
        None => check_unparted(alloc, text, found),
    }
}

/// Looks for all that is wrong with the text of an input, and runs nothing.
///
/// Refuses for want of memory alone.
pub fn check(alloc: Global, text: &[u8]) -> Result<Findings, AllocError>
    ensures { IfOk result (λ found. IsOf found (in_text text.now)) }
{
    let mut found = Findings::new(alloc);
    check_text(alloc, text, &mut found)?;
    Ok(found)
}
