ghost use Rattle.std.specs.Prelude.{◌≡◌, ◌+◌, ◌<◌, ◌≤◌, ◌++◌, length, OnOk, OnErr, codes};
ghost use Rattle.std.specs.List.{flat_map};
ghost use Rattle.cns_report.specs.Report.{balance_line, cycle_report_text, report_head};

use crate::put::{LF, Put, SPACE};
use crate::row::Rows;
use crate::text::{Draft, Text};
use cns_clearing::PoolRow;
use cns_depository::BalanceRow;
use cns_ids::CycleId;
use cns_netting::PositionRow;
use std::alloc::AllocError;

/// `REPORT cycle DATE KIND`, of the latest recorded cycle, or `REPORT cycle none`.
#[derive(Clone, Copy, Debug)]
pub struct ReportHead(pub Option<CycleId>);

impl Put for ReportHead {
    ghost text = { λ head. report_head head.0 };

    #[tactic(auto, unfolding(crate::specs::Report::report_head))]
    fn put(&self, draft: &mut Draft) -> Result<(), AllocError> {
        match self.0 {
            None => draft.add(b"REPORT cycle none\n"),
            Some(cycle) => ("REPORT cycle ", cycle.day, SPACE, cycle.kind, LF).put(draft),
        }
    }
}

/// `END`
#[derive(Clone, Copy, Debug)]
pub struct ReportEnd;

impl Put for ReportEnd {
    ghost text = { λ end. codes "END\n" };

    fn put(&self, draft: &mut Draft) -> Result<(), AllocError> {
        draft.add(b"END\n")
    }
}

/// The depository's part of the report: the balances other than 0, which the caller hands in by
/// issue, then account.
pub fn write_balance_report(out: &mut Text, rows: &[BalanceRow]) -> Result<(), AllocError>
    ensures ok { OnOk result (out.new.text ≡ out.old.text ++ flat_map balance_line rows.now) }
    ensures err { OnErr result (out.new.text ≡ out.old.text) }
    ensures room { out.old.room ≤ out.new.room }
    ensures full { OnErr result (out.old.room < length out.old.text + length (flat_map balance_line rows.now)) }
{
    out.tell(&Rows(rows))
}

/// The book's part of the report: the latest recorded cycle; the positions other than 0, which the
/// caller hands in by issue, then member; and the pools, which the caller hands in by issue.
#[tactic(auto, unfolding(crate::specs::Report::cycle_report_text))]
pub fn write_cycle_report(
    out: &mut Text,
    latest: Option<CycleId>,
    positions: &[PositionRow],
    pools: &[PoolRow],
) -> Result<(), AllocError>
    ensures ok { OnOk result (out.new.text ≡ out.old.text ++ cycle_report_text latest positions.now pools.now) }
    ensures err { OnErr result (out.new.text ≡ out.old.text) }
    ensures room { out.old.room ≤ out.new.room }
    ensures full { OnErr result (out.old.room < length out.old.text + length (cycle_report_text latest positions.now pools.now)) }
{
    out.tell(&(ReportHead(latest), Rows(positions), Rows(pools)))
}

/// The report's last line: `END`.
pub fn write_report_end(out: &mut Text) -> Result<(), AllocError>
    ensures ok { OnOk result (out.new.text ≡ out.old.text ++ codes "END\n") }
    ensures err { OnErr result (out.new.text ≡ out.old.text) }
    ensures room { out.old.room ≤ out.new.room }
    ensures full { OnErr result (out.old.room < length out.old.text + length (codes "END\n")) }
{
    out.tell(&ReportEnd)
}
