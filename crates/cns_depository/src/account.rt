ghost use Rattle.std.specs.Prelude.{◌≡◌};
ghost use Rattle.cns_depository.specs.Account.{giver, own_giver, own_receiver, receiver};

use cns_ids::MemberNo;
use cns_movements::{MoveKind, Order};
use cns_records::{Instruction, Sort};

/// An account at the depository. The CNS account stands before the members' accounts, and these stand
/// by number. (This project's own rule.)
#[derive(Clone, Copy, PartialEq, Eq, PartialOrd, Ord, Hash, Debug)]
pub enum Account {
    /// The CNS account, through which each movement goes.
    Cns,
    /// The account of a member.
    Member(MemberNo),
}

/// One side of a transfer.
#[derive(Clone, Copy, PartialEq, Eq, Hash)]
pub(crate) enum Side {
    /// What is not at the depository: deposits come from there, and withdrawals go there.
    Outside,
    /// An account.
    At(Account),
}

// The account that gives.
pub(crate) fn giver_of(order: &Order) -> Account
    ensures { result ≡ giver order.now }
{
    match order.kind {
        MoveKind::Cover => Account::Member(order.member),
        MoveKind::Delivery => Account::Cns,
    }
}

// The account that receives.
pub(crate) fn receiver_of(order: &Order) -> Account
    ensures { result ≡ receiver order.now }
{
    match order.kind {
        MoveKind::Cover => Account::Cns,
        MoveKind::Delivery => Account::Member(order.member),
    }
}

// The side that gives the shares of an instruction.
pub(crate) fn own_giver_of(instruction: &Instruction) -> Side
    ensures { result ≡ own_giver instruction.now }
{
    match instruction.sort {
        Sort::Deposit => Side::Outside,
        Sort::Withdraw => Side::At(Account::Member(instruction.member)),
    }
}

// The side that receives them.
pub(crate) fn own_receiver_of(instruction: &Instruction) -> Side
    ensures { result ≡ own_receiver instruction.now }
{
    match instruction.sort {
        Sort::Deposit => Side::At(Account::Member(instruction.member)),
        Sort::Withdraw => Side::Outside,
    }
}
