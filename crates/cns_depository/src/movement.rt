ghost use Rattle.std.specs.Prelude.{◌≡◌};
ghost use Rattle.cns_depository.specs.Answers.{reply_to};
ghost use Rattle.cns_depository.specs.Stock.{executed_in as movement_in, execution, instructed_in as instruction_in, transfer_of as transfer_in};

use crate::account::{Side, giver_of, own_giver_of, own_receiver_of, receiver_of};
use cns_ids::{Cusip, Shares};
use cns_movements::{Order, Reply};
use cns_records::{DepRecord, Instruction};

/// An order that was executed, and the shares that it moved.
#[derive(Clone, Copy, PartialEq, Eq, Debug)]
pub struct Movement {
    pub order: Order,
    pub moved: Shares,
}

impl Movement {
    /// The record of the movement.
    pub(crate) fn to_record(&self) -> DepRecord
        ensures { result ≡ execution self.now }
    {
        DepRecord::Exec {
            order: self.order,
            moved: self.moved,
        }
    }

    /// The reply to the order.
    pub(crate) fn reply(&self) -> Reply
        ensures { result ≡ reply_to self.now }
    {
        Reply {
            number: self.order.number,
            moved: self.moved,
        }
    }
}

/// The movement that a record executed, where it executed one.
pub(crate) fn executed_in(entry: &DepRecord) -> Option<Movement>
    ensures { result ≡ movement_in entry.now }
{
    match entry {
        DepRecord::Exec { order, moved } => Some(Movement {
            order: *order,
            moved: *moved,
        }),
        DepRecord::Own(_) => None,
    }
}

/// The instruction that a record carried out, where it carried one out.
pub(crate) fn instructed_in(entry: &DepRecord) -> Option<Instruction>
    ensures { result ≡ instruction_in entry.now }
{
    match entry {
        DepRecord::Exec { .. } => None,
        DepRecord::Own(instruction) => Some(*instruction),
    }
}

/// Shares of an issue that go from one side to another.
#[derive(Clone, Copy)]
pub(crate) struct Transfer {
    pub(crate) giver: Side,
    pub(crate) receiver: Side,
    pub(crate) issue: Cusip,
    pub(crate) shares: Shares,
}

// The shares that an instruction moves.
fn shares_of(instruction: &Instruction) -> Shares
    ensures { result ≡ instruction.now.shares }
{
    let Some(shares) = Shares::new(instruction.shares.shares()) else {
        unreachable!()
    };
    shares
}

/// What a record transfers.
pub(crate) fn transfer_of(entry: &DepRecord) -> Transfer
    ensures { result ≡ transfer_in entry.now }
{
    match entry {
        DepRecord::Exec { order, moved } => Transfer {
            giver: Side::At(giver_of(order)),
            receiver: Side::At(receiver_of(order)),
            issue: order.issue,
            shares: *moved,
        },
        DepRecord::Own(instruction) => Transfer {
            giver: own_giver_of(instruction),
            receiver: own_receiver_of(instruction),
            issue: instruction.issue,
            shares: shares_of(instruction),
        },
    }
}
