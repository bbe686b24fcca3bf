ghost use Rattle.std.specs.Prelude.{◌≡◌, ◌↔◌, IsTrue, Some};
ghost use Rattle.cns_movements.specs.Order.{kind_text, order_from, agrees_with, cycles_agree, AgreesWith};
ghost use Rattle.cns_movements.specs.Fields.{version_of};

use crate::asked::Asked;
use crate::number::MoveNo;
use crate::version::Version;
use cns_ids::{Cusip, CycleId, MemberNo, Shares};
use std::fmt;

/// Which way the shares of a movement go. (This project's own rule.)
#[derive(Clone, Copy, PartialEq, Eq, Debug)]
pub enum MoveKind {
    /// From the member to account 0: a short delivers to the CNS account.
    Cover,
    /// From account 0 to the member: a long receives from the CNS account.
    Delivery,
}

impl MoveKind {
    /// Its name: `COVER` or `DELIVERY`.
    pub fn name(self) -> &'static str
        ensures { result.now ≡ kind_text self }
    {
        match self {
            MoveKind::Cover => "COVER",
            MoveKind::Delivery => "DELIVERY",
        }
    }
}

impl fmt::Display for MoveKind {
    ghost output = { λ k. Some (kind_text k) };

    fn fmt<W: fmt::Write>(&self, f: &mut fmt::Formatter<W>) -> fmt::Result {
        f.write_str(self.name())
    }
}

/// A movement that is to be ordered: an order without a number.
#[derive(Clone, Copy, PartialEq, Eq, Debug)]
pub struct Ask {
    pub kind: MoveKind,
    pub member: MemberNo,
    pub issue: Cusip,
    pub asked: Asked,
}

/// A movement order. Its cycle is the last one that the clearing node had run as it made the order;
/// the orders that it made before orders had cycles have none.
#[derive(Clone, Copy, PartialEq, Eq, Debug)]
pub struct Order {
    pub number: MoveNo,
    pub cycle: Option<CycleId>,
    pub kind: MoveKind,
    pub member: MemberNo,
    pub issue: Cusip,
    pub asked: Asked,
}

// Whether two orders' cycles are the same, or one of them is missing.
fn cycles_agree(a: Option<CycleId>, b: Option<CycleId>) -> bool
    ensures { result ≡ cycles_agree a b }
{
    match (a, b) {
        (Some(a), Some(b)) => a == b,
        _ => true,
    }
}

impl Order {
    /// The order that has this number and cycle and asks for what the ask does.
    pub fn from_ask(number: MoveNo, cycle: Option<CycleId>, ask: &Ask) -> Order
        ensures { result ≡ order_from number cycle ask.now }
    {
        Order {
            number,
            cycle,
            kind: ask.kind,
            member: ask.member,
            issue: ask.issue,
            asked: ask.asked,
        }
    }

    /// Whether the orders agree: all other fields are the same, and so are their cycles, or one of
    /// them has none. (This project's own rule.)
    ///
    /// An order without a cycle agrees with two that have different ones.
    pub fn agrees_with(&self, other: &Order) -> bool
        ensures test { result ≡ agrees_with self.now other.now }
        ensures agrees { IsTrue result ↔ AgreesWith self.now other.now }
    {
        self.number == other.number
            && self.kind == other.kind
            && self.member == other.member
            && self.issue == other.issue
            && self.asked == other.asked
            && cycles_agree(self.cycle, other.cycle)
    }

    /// The version that it is written in: the second where it has a cycle, else the first. (This
    /// project's own format.)
    pub fn version(&self) -> Version
        ensures { result ≡ version_of self.now }
    {
        match self.cycle {
            None => Version::One,
            Some(_) => Version::Two,
        }
    }
}

/// The depository's reply to an order: the shares that it moved, possibly none.
#[derive(Clone, Copy, PartialEq, Eq, Debug)]
pub struct Reply {
    pub number: MoveNo,
    pub moved: Shares,
}
