ghost use Rattle.std.specs.Prelude.{◌≡◌, ◌+◌, ◌-◌, ◌^◌, min, List, ◌∷◌, [], ◌++◌};
ghost use Rattle.cns_tally.specs.declared.kind.Kind.{Kind};
ghost use Rattle.cns_tally.specs.Counts.{counts_of_kinds};

use crate::kind::Kind;

/// How many lines tell of what was not taken, of each kind (this project's own rule). A count that would
/// pass the greatest number of 64 bits stays there.
#[derive(Clone, Copy, PartialEq, Eq, Debug)]
pub struct Counts {
    /// Rows of trades or of openings that have a fault.
    pub faulty_rows: u64,
    /// Trades that were refused.
    pub refused_trades: u64,
    /// Lines of the script that fit no form.
    pub bad_lines: u64,
    /// Other events that were refused.
    pub refused_events: u64,
    /// Events and trades at which the device of a journal failed.
    pub device_failures: u64,
}

// Counts one more, up to the greatest number.
fn add_one(count: &mut u64)
    ensures { count.new ≡ min (count.old + 1) (2 ^ 64 - 1) }
{
    *count = count.saturating_add(1);
}

impl Counts {
    /// No line yet.
    pub(crate) fn new() -> Counts
        ensures { result ≡ counts_of_kinds [] }
    {
        Counts {
            faulty_rows: 0,
            refused_trades: 0,
            bad_lines: 0,
            refused_events: 0,
            device_failures: 0,
        }
    }

    /// Counts one more line of a kind.
    pub(crate) fn add(&mut self, kind: Kind)
        ensures { (kinds : List Kind) → self.old ≡ counts_of_kinds kinds → self.new ≡ counts_of_kinds (kinds ++ kind ∷ []) }
    {
        match kind {
            Kind::FaultyRow => add_one(&mut self.faulty_rows),
            Kind::BadLine => add_one(&mut self.bad_lines),
            Kind::DeviceFailure => add_one(&mut self.device_failures),
            Kind::RefusedTrade => add_one(&mut self.refused_trades),
            Kind::RefusedEvent => add_one(&mut self.refused_events),
        }
    }
}
