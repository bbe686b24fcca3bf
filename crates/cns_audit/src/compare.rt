//! The movements of both nodes, number by number.

ghost use Rattle.std.specs.Prelude.{◌≡◌, ◌↔◌, IsTrue};

use crate::told::Told;
use cns_depository::Depository;
use cns_dump::OrderWords;
use cns_ids::Shares;
use cns_input::BatchFault;
use cns_journal::Keeper;
use cns_movements::{MoveKind, MoveNo, Order, OrderBook};
use cns_records::DepRecord;
use std::io::Write;

// What both are told as.
const BOTH: &str = "both";

// What the two nodes have under one number.
#[derive(Clone, Copy)]
struct Movement {
    number: MoveNo,
    ordered: Option<Order>,
    executed: Option<(Order, Shares)>,
    confirmed: Option<Shares>,
}

// How many movements there are of each kind.
#[derive(Clone, Copy)]
struct Counts {
    executed: u64,
    confirmed: u64,
    unconfirmed: u64,
    waiting: u64,
}

impl Counts {
    const NONE: Counts = Counts {
        executed: 0,
        confirmed: 0,
        unconfirmed: 0,
        waiting: 0,
    };
}

impl Movement {
    ghost use Rattle.cns_audit.specs.Compare.{IsHeldByBoth};

    // Whether both nodes hold it: with one kind, member and issue, and the same shares moved.
    fn is_held_by_both(&self) -> bool
        ensures { IsTrue result ↔ IsHeldByBoth self.now.ordered self.now.executed self.now.confirmed }
    {
        match (&self.ordered, &self.executed, &self.confirmed) {
            (Some(ordered), Some((executed, moved)), Some(confirmed)) => {
                ordered.kind == executed.kind
                    && ordered.member == executed.member
                    && ordered.issue == executed.issue
                    && confirmed == moved
            }
            _ => false,
        }
    }

    // Counts it.
    fn count(&self, counts: &mut Counts) {
        if self.executed.is_some() {
            counts.executed = counts.executed.saturating_add(1);
        }
        if self.is_held_by_both() {
            counts.confirmed = counts.confirmed.saturating_add(1);
        } else if self.executed.is_some() {
            counts.unconfirmed = counts.unconfirmed.saturating_add(1);
        }
        if self.ordered.is_some() && self.executed.is_none() {
            counts.waiting = counts.waiting.saturating_add(1);
        }
    }
}

// Tells that an executed movement is not that of the order of its number.
fn tell_order<W: Write + Drop>(
    told: &mut Told<W>,
    number: u64,
    executed: &Order,
    ordered: &Option<Order>,
) -> Result<(), BatchFault> {
    let of = ("movement ", number, ": executed as ", OrderWords(executed));
    match ordered {
        None => told.fault(BOTH, (of, ", never ordered")),
        Some(ordered) if !executed.agrees_with(ordered) => {
            told.fault(BOTH, (of, ", ordered as ", OrderWords(ordered)))
        }
        Some(_) => Ok(()),
    }
}

// Tells that a delivery moved less than it asks for.
fn tell_delivery<W: Write + Drop>(
    told: &mut Told<W>,
    number: u64,
    executed: &Order,
    moved: Shares,
) -> Result<(), BatchFault> {
    let asked = executed.asked.shares();
    if executed.kind == MoveKind::Delivery && moved.count() != asked {
        let of = ("movement ", number, ": a delivery of ", asked);
        return told.fault(BOTH, (of, " moved ", moved.count()));
    }
    Ok(())
}

// Tells in what a confirmed movement differs from the one that was executed.
fn tell_confirmation<W: Write + Drop>(
    told: &mut Told<W>,
    number: u64,
    confirmed: Shares,
    executed: Option<Shares>,
) -> Result<(), BatchFault> {
    let of = ("movement ", number, ": confirmed with ", confirmed.count());
    match executed {
        None => told.fault(BOTH, (of, ", never executed")),
        Some(moved) if moved != confirmed => {
            told.fault(BOTH, (of, ", executed with ", moved.count()))
        }
        Some(_) => Ok(()),
    }
}

// Tells each breach of agreement of a movement.
fn tell_movement<W: Write + Drop>(
    told: &mut Told<W>,
    movement: &Movement,
) -> Result<(), BatchFault> {
    let number = movement.number.number();
    let mut shares = None;
    if let Some((executed, moved)) = &movement.executed {
        tell_order(told, number, executed, &movement.ordered)?;
        tell_delivery(told, number, executed, *moved)?;
        shares = Some(*moved);
    }
    if let Some(confirmed) = movement.confirmed {
        tell_confirmation(told, number, confirmed, shares)?;
    }
    Ok(())
}

// The largest number that a movement of either node has, and 0 where there is none.
fn largest_number<K: Keeper>(book: &OrderBook, depot: &Depository<K>) -> u64 {
    let mut largest = book.len() as u64;
    for entry in depot.records() {
        if let DepRecord::Exec { order, .. } = entry {
            largest = largest.max(order.number.number());
        }
    }
    largest
}

// What the two nodes have under a number, counted from 0; None where it is none.
fn movement_at<K: Keeper>(book: &OrderBook, depot: &Depository<K>, place: u64) -> Option<Movement> {
    let number = MoveNo::new(place.saturating_add(1))?;
    Some(Movement {
        number,
        ordered: book.get(number),
        executed: depot.executed(number),
        confirmed: book.confirmed(number),
    })
}

/// Tells each breach of agreement between the movements of both nodes, by number.
pub(crate) fn tell_breaches<K: Keeper, W: Write + Drop>(
    told: &mut Told<W>,
    book: &OrderBook,
    depot: &Depository<K>,
) -> Result<(), BatchFault> {
    for place in 0..largest_number(book, depot) {
        if let Some(movement) = movement_at(book, depot, place) {
            tell_movement(told, &movement)?;
        }
    }
    Ok(())
}

/// Tells how many movements both nodes have.
pub(crate) fn tell_counts<K: Keeper, W: Write + Drop>(
    told: &mut Told<W>,
    book: &OrderBook,
    depot: &Depository<K>,
) -> Result<(), BatchFault>
    ensures { told.new.faults ≡ told.old.faults }
{
    let mut counts = Counts::NONE;
    for place in 0..largest_number(book, depot) {
        if let Some(movement) = movement_at(book, depot, place) {
            movement.count(&mut counts);
        }
    }
    let executed = (
        counts.executed,
        " executed, ",
        counts.confirmed,
        " confirmed, ",
    );
    let waiting = (
        counts.unconfirmed,
        " executed and not confirmed, ",
        counts.waiting,
    );
    told.line(BOTH, (executed, waiting, " ordered and not executed"))
}
