//! Registers: amounts one after another, what each comes from, and what they sum to.

ghost use Rattle.std.specs.Prelude.{◌≡◌, IfSome};
ghost use Rattle.cns_audit.specs.Register.{total_of};

use cns_dump::Lines;
use cns_ids::{Cusip, CycleId, MemberNo, Shares};
use cns_input::BatchFault;
use cns_movements::{Asked, MoveKind, MoveNo, Order};
use cns_records::Instruction;
use cns_report::{Draft, Put};
use cns_trades::Trade;
use std::alloc::{AllocError, Global};
use std::io::Write;

/// A movement as a register tells it: what its order asks for.
#[derive(Clone, Copy, PartialEq, Eq, Debug)]
pub struct Movement {
    pub kind: MoveKind,
    pub number: MoveNo,
    pub asked: Asked,
}

impl Movement {
    /// That of an order.
    pub(crate) fn of(order: &Order) -> Movement {
        Movement {
            kind: order.kind,
            number: order.number,
            asked: order.asked,
        }
    }
}

/// What an amount comes from.
#[derive(Clone, Copy, PartialEq, Eq, Debug)]
pub enum Cause {
    /// The member bought in a trade, which a cycle made due.
    Bought { trade: Trade, due: CycleId },
    /// It sold in one.
    Sold { trade: Trade, due: CycleId },
    /// A movement.
    Moved(Movement),
    /// The opening of its account.
    Opening,
    /// Its own instruction.
    Own(Instruction),
}

/// A line of a register.
#[derive(Clone, Copy, PartialEq, Eq, Debug)]
pub struct Amount {
    /// So many shares, which are taken off where they are below 0.
    pub shares: i128,
    /// What they come from.
    pub cause: Cause,
}

/// What has no part in a position yet.
#[derive(Clone, Copy, PartialEq, Eq, Debug)]
pub enum Waiting {
    /// A trade that is not due, in which the member buys.
    Buys(Trade),
    /// One in which it sells.
    Sells(Trade),
    /// An order that is not confirmed.
    Open(Movement),
    /// So many shares are exempt from covers.
    Exempt(Shares),
    /// The member has priority.
    Priority,
}

/// Adds an amount of so many shares, which come from this.
pub(crate) fn add_amount(
    amounts: &mut Vec<Amount>,
    shares: i128,
    cause: Cause,
) -> Result<(), AllocError> {
    amounts.reserve(1)?;
    amounts.push_reserved(Amount { shares, cause });
    Ok(())
}

/// Adds what waits.
pub(crate) fn add_waiting(waiting: &mut Vec<Waiting>, one: Waiting) -> Result<(), AllocError> {
    waiting.reserve(1)?;
    waiting.push_reserved(one);
    Ok(())
}

/// What the amounts of a register sum to; None where that does not fit.
pub(crate) fn total(amounts: &[Amount]) -> Option<i128>
    ensures { IfSome result (λ sum. sum ≡ total_of amounts.now) }
{
    let mut sum = 0i128;
    for amount in amounts {
        sum = sum.checked_add(amount.shares)?;
    }
    Some(sum)
}

/// `cover N asked SHARES`, or `delivery N asked SHARES`.
impl Put for Movement {
    ghost use Rattle.cns_audit.specs.Register.{movement_text};

    ghost text = { λ m. movement_text m.kind m.number m.asked };

    fn put(&self, draft: &mut Draft) -> Result<(), AllocError> {
        let kind = match self.kind {
            MoveKind::Cover => "cover ",
            MoveKind::Delivery => "delivery ",
        };
        (kind, self.number.number(), " asked ", self.asked.shares()).put(draft)
    }
}

// Tells where the shares of an amount come from.
fn tell_cause<W: Write>(
    lines: &mut Lines,
    writer: &mut W,
    front: &str,
    cause: &Cause,
) -> Result<(), BatchFault> {
    match cause {
        Cause::Bought { trade, due } => {
            let of = ("trade ", trade.id, " settle ", trade.settle);
            let when = (" due ", due.day, " ", due.kind);
            lines.tell(
                writer,
                &(front, of, when, (" bought from ", trade.seller), "\n"),
            )
        }
        Cause::Sold { trade, due } => {
            let of = ("trade ", trade.id, " settle ", trade.settle);
            let when = (" due ", due.day, " ", due.kind);
            lines.tell(writer, &(front, of, when, (" sold to ", trade.buyer), "\n"))
        }
        Cause::Moved(movement) => lines.tell(writer, &(front, *movement, "\n")),
        Cause::Opening => lines.tell(writer, &(front, "opening\n")),
        Cause::Own(instruction) => {
            let number = instruction.number.number();
            lines.tell(writer, &(front, instruction.sort.name(), " ", number, "\n"))
        }
    }
}

/// Tells each line of a register, with the sum up to it.
pub(crate) fn tell_amounts<W: Write>(
    alloc: Global,
    lines: &mut Lines,
    writer: &mut W,
    amounts: &[Amount],
) -> Result<(), BatchFault> {
    let mut sum = 0i128;
    for amount in amounts {
        let shares = amount.shares;
        sum = sum.saturating_add(shares);
        let front = format!(in alloc; "{shares:>20} {sum:>20} ")?;
        tell_cause(lines, writer, front.as_str(), &amount.cause)?;
    }
    Ok(())
}

/// Tells what has no part in a position yet.
pub(crate) fn tell_waiting<W: Write>(
    lines: &mut Lines,
    writer: &mut W,
    waiting: &[Waiting],
) -> Result<(), BatchFault> {
    for one in waiting {
        match one {
            Waiting::Buys(trade) => {
                let of = ("WAITING trade ", trade.id, " settle ", trade.settle);
                let what = (" bought ", trade.quantity.shares(), " from ", trade.seller);
                lines.tell(writer, &(of, what, "\n"))?
            }
            Waiting::Sells(trade) => {
                let of = ("WAITING trade ", trade.id, " settle ", trade.settle);
                let what = (" sold ", trade.quantity.shares(), " to ", trade.buyer);
                lines.tell(writer, &(of, what, "\n"))?
            }
            Waiting::Open(movement) => lines.tell(writer, &("WAITING ", *movement, "\n"))?,
            Waiting::Exempt(shares) => {
                lines.tell(writer, &("WAITING exempt ", shares.count(), "\n"))?
            }
            Waiting::Priority => lines.tell(writer, &"WAITING priority\n")?,
        }
    }
    Ok(())
}

/// A member and an issue.
#[derive(Clone, Copy, PartialEq, Eq, Debug)]
pub struct Holder {
    pub member: MemberNo,
    pub issue: Cusip,
}

impl Holder {
    /// Whether these are its own.
    pub(crate) fn is(&self, member: MemberNo, issue: Cusip) -> bool {
        self.member == member && self.issue == issue
    }
}
