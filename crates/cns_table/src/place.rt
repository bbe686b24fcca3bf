//! Where in the text of a run a reading stands.

ghost use Rattle.std.specs.Prelude.{◌≡◌, false, None, option_map};
ghost use Rattle.cns_table.specs.Place.{place_behind, behind_inside, behind_outside, cycle_date, cycle_kind, line_told, told_by, told_inside, told_outside};

use crate::head::{Cycle, Head, head_of};
use crate::row::{Row, row_of};
use crate::text::is_text;

/// A place between two lines of a text.
#[derive(Clone, Copy)]
pub(crate) struct Place {
    /// How many reports have begun.
    pub(crate) reports: u64,
    /// The cycle of the last one.
    pub(crate) cycle: Option<Cycle>,
    /// Whether its END is still to come.
    pub(crate) inside: bool,
}

/// What a line is that may stand in its place.
#[derive(Clone, Copy)]
pub(crate) enum Step<'a> {
    /// The head of a report.
    Begun,
    /// A row of the report.
    Row(Row<'a>),
    /// The end of the report, or a line outside of reports.
    Passed,
}

impl Place {
    /// The place before a text.
    pub(crate) fn new() -> Place
        ensures { result ≡ record { reports = 0; cycle = None; inside = false } }
    {
        Place {
            reports: 0,
            cycle: None,
            inside: false,
        }
    }

    /// The date of the cycle of the last report, or an empty text.
    pub(crate) fn date(&self) -> &[u8]
        ensures { result.now ≡ cycle_date self.now.cycle }
    {
        match &self.cycle {
            Some(cycle) => &cycle.date,
            None => &[],
        }
    }

    /// The kind of that cycle, or an empty text.
    pub(crate) fn kind(&self) -> &'static [u8]
        ensures { result.now ≡ cycle_kind self.now.cycle }
    {
        match &self.cycle {
            Some(cycle) => cycle.kind.name().as_bytes(),
            None => &[],
        }
    }

    // Passes a line of a report: its end, or a row.
    #[tactic(auto, unfolding(crate::specs::Place::told_inside))]
    fn pass_inside<'a>(&mut self, line: &'a [u8]) -> Option<Step<'a>>
        ensures place { self.new ≡ behind_inside self.old line.now }
        ensures told { option_map told_by result ≡ told_inside line.now }
    {
        if is_text(line, b"END") {
            self.inside = false;
            return Some(Step::Passed);
        }
        let row = row_of(line)?;
        Some(Step::Row(row))
    }

    // Passes a line outside of reports, which may be the head of one.
    #[tactic(auto, unfolding(crate::specs::Place::told_outside))]
    fn pass_outside<'a>(&mut self, line: &'a [u8]) -> Option<Step<'a>>
        ensures place { self.new ≡ behind_outside self.old line.now }
        ensures told { option_map told_by result ≡ told_outside line.now }
    {
        if !line.starts_with(b"REPORT") {
            return Some(Step::Passed);
        }
        let Head(cycle) = head_of(line)?;
        self.reports = self.reports.saturating_add(1);
        self.cycle = cycle;
        self.inside = true;
        Some(Step::Begun)
    }

    /// Passes the next line, without its LF. None where it may not stand here.
    pub(crate) fn pass<'a>(&mut self, line: &'a [u8]) -> Option<Step<'a>>
        ensures place { self.new ≡ place_behind self.old line.now }
        ensures told { option_map told_by result ≡ line_told self.old line.now }
    {
        if self.inside {
            self.pass_inside(line)
        } else {
            self.pass_outside(line)
        }
    }
}
