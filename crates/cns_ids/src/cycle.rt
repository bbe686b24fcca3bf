ghost use Rattle.std.specs.Prelude.{◌≡◌, ◌↔◌, IsTrue, Some};
ghost use Rattle.std.specs.declared.cmp.Ordering.TheVariants.{Less};
ghost use Rattle.cns_ids.specs.Cycle.{is_after as is_after_cycle, kind_text};

use crate::day::Day;
use std::fmt;

/// The two cycles of a date: the night cycle comes first. (This project's own order.)
#[derive(Clone, Copy, PartialEq, Eq, PartialOrd, Ord, Hash, Debug)]
pub enum CycleKind {
    Night,
    Day,
}

impl CycleKind {
    /// Its name: `NIGHT` or `DAY`.
    pub fn name(self) -> &'static str
        ensures { result.now ≡ kind_text self }
    {
        match self {
            CycleKind::Night => "NIGHT",
            CycleKind::Day => "DAY",
        }
    }
}

impl fmt::Display for CycleKind {
    ghost output = { λ k. Some (kind_text k) };

    fn fmt<W: fmt::Write>(&self, f: &mut fmt::Formatter<W>) -> fmt::Result {
        f.write_str(self.name())
    }
}

/// A processing cycle: its date and its kind.
#[derive(Clone, Copy, PartialEq, Eq, Debug)]
pub struct CycleId {
    pub day: Day,
    pub kind: CycleKind,
}

impl CycleId {
    /// Whether this cycle comes after the other: by date, then the night cycle before the day cycle.
    pub fn is_after(self, other: CycleId) -> bool
        ensures value { result ≡ is_after_cycle self other }
        ensures kinds { self.day ≡ other.day → (IsTrue result ↔ (⟦<CycleKind as Ord>⟧.cmp other.kind self.kind ≡ Less)) }
    {
        other.day < self.day
            || (other.day == self.day
                && other.kind == CycleKind::Night
                && self.kind == CycleKind::Day)
    }
}
