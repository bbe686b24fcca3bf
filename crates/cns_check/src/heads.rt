ghost use Rattle.std.specs.Prelude.{◌≡◌, ◌++◌, List, not, IfOk, OnOk};
ghost use Rattle.cns_check.specs.Findings.{has_head, in_heads, no_head};
ghost use Rattle.cns_check.specs.Kept.{IsOf};
ghost use Rattle.cns_check.specs.declared.finding.Finding.{Finding};

use crate::finding::{Finding, Head};
use crate::found::{Findings, Place};
use crate::mended::is_named;
use cns_input::{line_size, line_text};
use cns_named::has_line;
use std::alloc::{AllocError, Global};

// Whether a line looks like a head: it has the head's letters, or begins like it behind a bracket.
fn looks_like(line: &[u8], head: Head) -> bool {
    let wanted = head.text().as_bytes();
    let mut bracket = false;
    let mut at = 1usize;
    for byte in line {
        if *byte == b'[' {
            bracket = true;
        }
        if byte.is_ascii_alphabetic() {
            if wanted.get(at) != Some(&byte.to_ascii_lowercase()) {
                return bracket && at > 2;
            }
            at = at.saturating_add(1);
        }
    }
    at.saturating_add(1) == wanted.len() || (bracket && at > 2)
}

// The first line that names a head or looks like it, and its number; the first number and no bytes where none does.
fn nearest(text: &[u8], head: Head) -> (u64, &[u8]) {
    let mut rest = text;
    let mut number = 0u64;
    while !rest.is_empty() {
        let (line, after) = rest.split_at(line_size(rest));
        number = number.saturating_add(1);
        if is_named(head, line) || looks_like(line, head) {
            return (number, line_text(line));
        }
        rest = after;
    }
    (1, &[])
}

// Adds a head where no line is one; whether it did.
fn check_head(
    alloc: Global,
    text: &[u8],
    head: Head,
    found: &mut Findings,
) -> Result<bool, AllocError>
    ensures missing { IfOk result (λ missing. missing ≡ not (has_head text.now head)) }
    ensures adds { OnOk result ((before : List Finding) → IsOf found.old before → IsOf found.new (before ++ no_head text.now head)) }
{
    if has_line(text, head.text().as_bytes()) {
        return Ok(false);
    }
    let (line, there) = nearest(text, head);
    found.add(alloc, Finding::NoHead(head), &Place::of_line(line, there))?;
    Ok(true)
}

/// Looks for what is wrong with the heads of a text that has no sections.
pub(crate) fn check_heads(
    alloc: Global,
    text: &[u8],
    found: &mut Findings,
) -> Result<(), AllocError>
    ensures { OnOk result ((before : List Finding) → IsOf found.old before → IsOf found.new (before ++ in_heads text.now)) }
{
    let openings = check_head(alloc, text, Head::Openings, found)?;
    let trades = check_head(alloc, text, Head::Trades, found)?;
    let script = check_head(alloc, text, Head::Script, found)?;
    if openings || trades || script {
        return Ok(());
    }
    let first = line_text(text.split_at(line_size(text)).0);
    found.add(alloc, Finding::HeadOrder, &Place::of_line(1, first))
}
