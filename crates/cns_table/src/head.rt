//! The heads of reports.

ghost use Rattle.std.specs.Prelude.{◌≡◌, option_map};
ghost use Rattle.cns_table.specs.Head.{begins_with_date as begins_with_date_text, head_cycle, head_in, kind_in};

use crate::text::{is_date, is_text};
use cns_ids::CycleKind;

/// A cycle, by its date in the form `dddd-dd-dd` and its kind.
#[derive(Clone, Copy)]
pub(crate) struct Cycle {
    pub(crate) date: [u8; 10],
    pub(crate) kind: CycleKind,
}

/// The head of a report: its cycle, or none.
#[derive(Clone, Copy)]
pub(crate) struct Head(pub(crate) Option<Cycle>);

// The kind of cycle that a text names.
fn kind_of(text: &[u8]) -> Option<CycleKind>
    ensures { result ≡ kind_in text.now }
{
    if is_text(text, b"NIGHT") {
        Some(CycleKind::Night)
    } else if is_text(text, b"DAY") {
        Some(CycleKind::Day)
    } else {
        None
    }
}

// Whether a text begins with a date and a space.
fn begins_with_date(text: &[u8]) -> bool
    ensures { result ≡ begins_with_date_text text.now }
{
    text.len() > 10 && is_date(&text[..10]) && text[10] == b' '
}

// The cycle of a text `DATE KIND`.
#[tactic(auto, unfolding(crate::specs::Head::head_cycle))]
fn cycle_of(text: &[u8]) -> Option<Cycle>
    ensures { result ≡ head_cycle text.now }
{
    if !begins_with_date(text) {
        return None;
    }
    let kind = kind_of(&text[11..])?;
    let mut date = [0; 10];
    date.copy_from_slice(&text[..10]);
    Some(Cycle { date, kind })
}

/// The head of a report that a line is: `REPORT cycle none` or `REPORT cycle DATE KIND`.
#[tactic(auto, unfolding(crate::specs::Head::head_in))]
pub(crate) fn head_of(line: &[u8]) -> Option<Head>
    ensures { option_map (λ head. head.0) result ≡ head_in line.now }
{
    if !line.starts_with(b"REPORT cycle ") {
        return None;
    }
    let cycle = &line[13..];
    if is_text(cycle, b"none") {
        return Some(Head(None));
    }
    Some(Head(Some(cycle_of(cycle)?)))
}
