//! The register of a member's position in an issue, by the records of the clearing node's journal.

ghost use Rattle.std.specs.Prelude.{◌≡◌, IfOk, IfSome};
ghost use Rattle.cns_clearing.specs.Position.{position_in};
ghost use Rattle.cns_audit.specs.Register.{due_change, position_change, total_of};

use crate::register::{Amount, Cause, Holder, Movement, Waiting, add_amount, add_waiting, total};
use cns_clearing::Clearing;
use cns_dump::Entry;
use cns_file::FileRecords;
use cns_ids::{CycleId, Shares};
use cns_journal::Keeper;
use cns_movements::{MoveKind, Order, OrderBook, Reply};
use cns_records::ClearRecord;
use cns_trades::Trade;
use std::alloc::{AllocError, Global};

// A register as it grows, record by record.
#[derive(Drop)]
struct Growing {
    holder: Holder,
    amounts: Vec<Amount>,
    // The holder's trades that are not due, the oldest first.
    undue: Vec<Trade>,
    exempt: Shares,
    priority: bool,
    alloc: Global,
}

// What a trade adds to the position of its buyer or of its seller, at the cycle that makes it due.
fn due_amount(holder: &Holder, trade: &Trade, due: CycleId) -> Amount
    ensures { result.shares ≡ due_change holder.now.member trade.now.buyer trade.now.quantity }
{
    let shares = i128::from(trade.quantity.shares());
    let trade = *trade;
    if holder.member == trade.buyer {
        return Amount {
            shares,
            cause: Cause::Bought { trade, due },
        };
    }
    Amount {
        shares: -shares,
        cause: Cause::Sold { trade, due },
    }
}

// What a confirmed movement adds to the position of its member: a cover brings what it moved, a delivery takes it.
fn moved_amount(order: &Order, moved: Shares) -> Amount
    ensures { result.shares ≡ position_change order.now.kind moved }
{
    let moved = i128::from(moved.count());
    let shares = match order.kind {
        MoveKind::Cover => moved,
        MoveKind::Delivery => -moved,
    };
    Amount {
        shares,
        cause: Cause::Moved(Movement::of(order)),
    }
}

impl Growing {
    fn new(alloc: Global, holder: Holder) -> Result<Growing, AllocError> {
        let Some(exempt) = Shares::new(0) else {
            return Err(AllocError);
        };
        Ok(Growing {
            holder,
            amounts: Vec::new(alloc),
            undue: Vec::new(alloc),
            exempt,
            priority: false,
            alloc,
        })
    }

    // A trade was accepted.
    fn accept(&mut self, trade: &Trade) -> Result<(), AllocError> {
        let holder = &self.holder;
        if holder.is(trade.buyer, trade.issue) || holder.is(trade.seller, trade.issue) {
            self.undue.push(*trade)?;
        }
        Ok(())
    }

    // A cycle was run.
    fn cycle(&mut self, id: CycleId) -> Result<(), AllocError> {
        if !self.undue.iter().any(|trade| trade.settle <= id.day) {
            return Ok(());
        }
        let mut undue = Vec::new(self.alloc);
        for trade in &self.undue {
            if trade.settle <= id.day {
                let due = due_amount(&self.holder, trade, id);
                add_amount(&mut self.amounts, due.shares, due.cause)?;
            } else {
                undue.push(*trade)?;
            }
        }
        self.undue = undue;
        Ok(())
    }

    // An order was confirmed.
    fn confirm(&mut self, book: &OrderBook, reply: &Reply) -> Result<(), AllocError> {
        let Some(order) = book.get(reply.number) else {
            return Ok(());
        };
        if !self.holder.is(order.member, order.issue) {
            return Ok(());
        }
        let moved = moved_amount(&order, reply.moved);
        add_amount(&mut self.amounts, moved.shares, moved.cause)
    }

    // The next record.
    fn add(&mut self, book: &OrderBook, record: &ClearRecord) -> Result<(), AllocError> {
        match record {
            ClearRecord::Accept(trade) => self.accept(trade),
            ClearRecord::Cycle(id) => self.cycle(*id),
            ClearRecord::Confirm(reply) => self.confirm(book, reply),
            ClearRecord::Exempt {
                member,
                issue,
                shares,
            } => {
                if self.holder.is(*member, *issue) {
                    self.exempt = *shares;
                }
                Ok(())
            }
            ClearRecord::Priority { member, issue, on } => {
                if self.holder.is(*member, *issue) {
                    self.priority = *on;
                }
                Ok(())
            }
            ClearRecord::Allocate(_) => Ok(()),
        }
    }

    // The amounts.
    fn into_amounts(self) -> Vec<Amount>
        ensures { result ≡ self.amounts }
    {
        let Growing {
            holder: _,
            amounts,
            undue,
            exempt: _,
            priority: _,
            alloc: _,
        } = self;
        drop(undue);
        amounts
    }

    // All that waits.
    fn waiting(&self, book: &OrderBook) -> Result<Vec<Waiting>, AllocError> {
        let mut waiting = Vec::new(self.alloc);
        for trade in &self.undue {
            if self.holder.is(trade.buyer, trade.issue) {
                add_waiting(&mut waiting, Waiting::Buys(*trade))?;
            } else {
                add_waiting(&mut waiting, Waiting::Sells(*trade))?;
            }
        }
        for order in book.orders() {
            if self.holder.is(order.member, order.issue) && book.confirmed(order.number).is_none() {
                add_waiting(&mut waiting, Waiting::Open(Movement::of(order)))?;
            }
        }
        if self.exempt.count() > 0 {
            add_waiting(&mut waiting, Waiting::Exempt(self.exempt))?;
        }
        if self.priority {
            add_waiting(&mut waiting, Waiting::Priority)?;
        }
        Ok(waiting)
    }
}

/// The register of a position.
#[derive(Drop)]
pub struct PositionRegister {
    /// Each due trade and each confirmed movement, in the order of the records.
    pub amounts: Vec<Amount>,
    /// What waits.
    pub waiting: Vec<Waiting>,
    /// The position.
    pub position: i128,
}

// The register of all records of a file.
fn grown(
    alloc: Global,
    file: &[u8],
    book: &OrderBook,
    holder: Holder,
) -> Result<Growing, AllocError> {
    let mut growing = Growing::new(alloc, holder)?;
    for payload in FileRecords::of(file) {
        if let Entry::Clear(record) = Entry::read(alloc, payload)? {
            growing.add(book, &record)?;
        }
    }
    Ok(growing)
}

/// The register of a member's position in an issue, from the file of the journal by which a clearing node was opened; None where its
/// amounts do not sum to the position, as those of another file's records would not.
pub fn position_register<K: Keeper>(
    alloc: Global,
    file: &[u8],
    node: &Clearing<K>,
    holder: &Holder,
) -> Result<Option<PositionRegister>, AllocError>
    ensures { IfOk result (λ given. IfSome given (λ register. (register.position ≡ position_in node.now.log.records holder.now.member holder.now.issue)
        × (total_of register.amounts.items ≡ register.position))) }
{
    let book = node.orders();
    let growing = grown(alloc, file, book, *holder)?;
    let waiting = growing.waiting(book)?;
    let position = node.position(holder.member, holder.issue);
    let amounts = growing.into_amounts();
    if total(amounts.as_slice()) != Some(position) {
        return Ok(None);
    }
    Ok(Some(PositionRegister {
        amounts,
        waiting,
        position,
    }))
}
