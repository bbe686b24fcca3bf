//! The balances of a depository, or how they changed.

ghost use Rattle.std.specs.Prelude.{◌≡◌};

use crate::told::Told;
use cns_depository::{Depository, OpeningRanges};
use cns_input::BatchFault;
use cns_journal::Keeper;
use std::alloc::Global;
use std::io::Write;

/// Tells how the shares of each account changed, and with how many it began at least.
pub(crate) fn tell_changes<W: Write + Drop>(
    alloc: Global,
    told: &mut Told<W>,
    name: &str,
    ranges: &OpeningRanges,
) -> Result<(), BatchFault>
    ensures { told.new.faults ≡ told.old.faults }
{
    let changes = ranges.changes(alloc)?;
    for change in &changes {
        let (by, least) = (change.change, change.least);
        let numbers = format!(in alloc; " change {by} least {least}")?;
        told.line(name, (change.issue, " ", change.account, numbers.as_str()))?;
    }
    Ok(())
}

/// Tells each balance that is not 0.
pub(crate) fn tell_balances<K: Keeper, W: Write + Drop>(
    alloc: Global,
    told: &mut Told<W>,
    name: &str,
    node: &Depository<K>,
) -> Result<(), BatchFault>
    ensures { told.new.faults ≡ told.old.faults }
{
    let rows = node.balances(alloc)?;
    for row in rows.as_slice() {
        let (issue, account) = (row.issue, row.account);
        told.line(name, (issue, " ", account, " balance ", row.shares))?;
    }
    Ok(())
}
