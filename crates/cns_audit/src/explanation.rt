//! A member's position and balance in an issue, explained.

use crate::balance::{BalanceRegister, balance_register};
use crate::check::{Asked, check_journals, open_with, openings_asked};
use crate::journal::Journals;
use crate::opened::Opened;
use crate::position::{PositionRegister, position_register};
use crate::register::{Holder, tell_amounts, tell_waiting};
use cns_clearing::Clearing;
use cns_depository::{Account, BalanceRow, Depository};
use cns_dump::Lines;
use cns_input::BatchFault;
use cns_journal::Keeper;
use cns_trades::Opening;
use std::alloc::Global;
use std::io::Write;

// Tells the register of the position, and what waits.
fn tell_position<W: Write>(
    alloc: Global,
    lines: &mut Lines,
    writer: &mut W,
    holder: &Holder,
    register: &PositionRegister,
) -> Result<(), BatchFault> {
    lines.tell(
        writer,
        &("EXPLAIN ", holder.member, " ", holder.issue, "\n"),
    )?;
    tell_amounts(alloc, lines, writer, register.amounts.as_slice())?;
    let position = register.position;
    let position = format!(in alloc; " {position:>20}\n")?;
    let of = ("POS ", holder.issue, " ", holder.member);
    lines.tell(writer, &(of, position.as_str()))?;
    tell_waiting(lines, writer, register.waiting.as_slice())
}

// Tells the register of the balance.
fn tell_balance<W: Write>(
    alloc: Global,
    lines: &mut Lines,
    writer: &mut W,
    holder: &Holder,
    register: &BalanceRegister,
) -> Result<(), BatchFault> {
    tell_amounts(alloc, lines, writer, register.amounts.as_slice())?;
    let row = BalanceRow {
        issue: holder.issue,
        account: Account::Member(holder.member),
        shares: register.balance,
    };
    lines.tell(writer, &row)?;
    lines.tell(writer, &"END\n")?;
    lines.end(writer)
}

// Explains from both nodes; answers whether that could be done.
fn tell_nodes<C: Keeper, D: Keeper, W: Write>(
    alloc: Global,
    file: &[u8],
    openings: &[Opening],
    clear: &Clearing<C>,
    depot: &Depository<D>,
    holder: &Holder,
    writer: &mut W,
) -> Result<bool, BatchFault> {
    let Some(position) = position_register(alloc, file, clear, holder)? else {
        return Ok(false);
    };
    let Some(balance) = balance_register(alloc, openings, depot, holder)? else {
        return Ok(false);
    };
    let mut lines = Lines::new(alloc);
    tell_position(alloc, &mut lines, writer, holder, &position)?;
    tell_balance(alloc, &mut lines, writer, holder, &balance)?;
    Ok(true)
}

// Explains from both nodes as they were opened, whether they agree or not; answers whether that could be done.
fn tell_opened<W: Write>(
    alloc: Global,
    file: &[u8],
    openings: &[Opening],
    opened: &Opened<'_>,
    holder: &Holder,
    writer: &mut W,
) -> Result<bool, BatchFault> {
    match opened {
        Opened::Agreed(system) => {
            let (clear, depot) = (system.clearing(), system.depository());
            tell_nodes(alloc, file, openings, clear, depot, holder, writer)
        }
        Opened::Refused {
            clear: Ok(clear),
            depot: Ok(depot),
        } => tell_nodes(alloc, file, openings, clear, depot, holder, writer),
        Opened::Refused { .. } => Ok(false),
    }
}

/// Explains a member's position and balance in an issue from both journals; answers whether it could. Where a node cannot be opened from
/// its journal, or an opening does not hold, it tells to `errors` what a check tells.
///
/// Refuses `Memory` and `Write`, and a part may then have been written.
pub fn explain<W: Write, E: Write + Drop>(
    alloc: Global,
    journals: &Journals<'_>,
    asked: &Asked<'_>,
    holder: &Holder,
    writer: &mut W,
    errors: E,
) -> Result<bool, BatchFault> {
    if let Some(openings) = openings_asked(alloc, journals, asked)? {
        let openings = openings.as_slice();
        let opened = open_with(alloc, journals, openings)?;
        let done = tell_opened(alloc, journals.clear, openings, &opened, holder, writer);
        drop(opened);
        if done? {
            return Ok(true);
        }
    }
    let _ = check_journals(alloc, journals, asked, errors)?;
    Ok(false)
}
