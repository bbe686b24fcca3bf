ghost use Rattle.std.specs.Prelude.{◌≡◌, ◌<◌, Some};
ghost use Rattle.cns_trades.specs.FaultCode.{IsSmall, fault_of};

use crate::fault::RowFault;
use cns_ids::{CusipFault, ReadFault};
use std::marker::Model;

/// Whether a row has a fault, and which, in one byte.
///
/// Contracts see the fault, if any.
#[derive(Drop)]
pub(crate) struct FaultCode {
    // 0 where there is none.
    code: u8,
}

impl Model for FaultCode {
    ghost use Rattle.std.specs.Prelude.{Option};
    ghost use Rattle.cns_trades.specs.FaultCode.{fault_of};
    ghost use Rattle.cns_trades.specs.declared.fault.RowFault.{RowFault};

    ghost Value = { Option RowFault };

    ghost view = { λ c. fault_of c.code };
}

// The code that stands for a fault.
#[tactic(auto, unfolding(crate::specs::FaultCode::fault_of))]
fn code_of(fault: RowFault) -> u8
    requires { IsSmall fault }
    ensures { fault_of result ≡ Some fault }
{
    match fault {
        RowFault::Fields => 1,
        RowFault::Id => 2,
        RowFault::Settle => 3,
        RowFault::Buyer(ReadFault::BadNumber) => 4,
        RowFault::Buyer(ReadFault::OutOfRange) => 5,
        RowFault::Seller(ReadFault::BadNumber) => 6,
        RowFault::Seller(ReadFault::OutOfRange) => 7,
        RowFault::Quantity(ReadFault::BadNumber) => 8,
        RowFault::Quantity(ReadFault::OutOfRange) => 9,
        RowFault::Account(ReadFault::BadNumber) => 10,
        RowFault::Account(ReadFault::OutOfRange) => 11,
        RowFault::Shares(ReadFault::BadNumber) => 12,
        RowFault::Shares(ReadFault::OutOfRange) => 13,
        RowFault::Cusip(CusipFault::Length) => 14,
        RowFault::Cusip(CusipFault::BadChar { place }) => 15 + place,
        RowFault::Cusip(CusipFault::CheckDigit { want }) => 25 + want,
    }
}

// The fault that a code other than 0 stands for.
#[tactic(auto, unfolding(crate::specs::FaultCode::fault_of))]
fn fault_of(code: u8) -> RowFault
    requires { 0 < code }
    ensures { fault_of code ≡ Some result }
{
    match code {
        0 => unreachable!(),
        1 => RowFault::Fields,
        2 => RowFault::Id,
        3 => RowFault::Settle,
        4 => RowFault::Buyer(ReadFault::BadNumber),
        5 => RowFault::Buyer(ReadFault::OutOfRange),
        6 => RowFault::Seller(ReadFault::BadNumber),
        7 => RowFault::Seller(ReadFault::OutOfRange),
        8 => RowFault::Quantity(ReadFault::BadNumber),
        9 => RowFault::Quantity(ReadFault::OutOfRange),
        10 => RowFault::Account(ReadFault::BadNumber),
        11 => RowFault::Account(ReadFault::OutOfRange),
        12 => RowFault::Shares(ReadFault::BadNumber),
        13 => RowFault::Shares(ReadFault::OutOfRange),
        14 => RowFault::Cusip(CusipFault::Length),
        15..25 => RowFault::Cusip(CusipFault::BadChar { place: code - 15 }),
        25.. => RowFault::Cusip(CusipFault::CheckDigit { want: code - 25 }),
    }
}

impl FaultCode {
    /// The code of no fault.
    pub(crate) const NONE: FaultCode = FaultCode { code: 0 };

    /// The code of a fault.
    pub(crate) fn of(fault: RowFault) -> FaultCode
        requires { IsSmall fault }
        ensures { result ≡ Some fault }
    {
        FaultCode {
            code: code_of(fault),
        }
    }

    /// The fault.
    #[tactic(auto, unfolding(crate::specs::FaultCode::fault_of))]
    #[inline(always)]
    pub(crate) fn fault(self) -> Option<RowFault>
        ensures { result ≡ self }
    {
        if self.code == 0 {
            return None;
        }
        Some(fault_of(self.code))
    }
}
