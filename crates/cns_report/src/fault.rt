ghost use Rattle.std.specs.Prelude.{◌≡◌};
ghost use Rattle.cns_report.specs.Faults.{cusip_fault_text, read_fault_text, opening_fault_text, row_fault_text};
ghost use Rattle.cns_report.specs.Refusals.{refusal_text};

use crate::put::Put;
use crate::text::Draft;
use cns_depository::OpeningFault;
use cns_ids::{CusipFault, ReadFault};
use cns_records::Refusal;
use cns_trades::{RowFault, Verdict};
use std::alloc::AllocError;

// The name of a number's fault.
fn read_fault_name(fault: ReadFault) -> &'static str
    ensures { result.now ≡ read_fault_text fault }
{
    match fault {
        ReadFault::BadNumber => "BadNumber",
        ReadFault::OutOfRange => "OutOfRange",
    }
}

/// The fault of a CUSIP by its name.
impl Put for CusipFault {
    ghost text = { cusip_fault_text };

    fn put(&self, draft: &mut Draft) -> Result<(), AllocError> {
        match *self {
            CusipFault::Length => draft.add(b"Length"),
            CusipFault::BadChar { place } => ("BadChar ", u64::from(place)).put(draft),
            CusipFault::CheckDigit { want } => ("CheckDigit ", u64::from(want)).put(draft),
        }
    }
}

/// A row's fault by its name: the field and what is wrong with it.
impl Put for RowFault {
    ghost text = { row_fault_text };

    fn put(&self, draft: &mut Draft) -> Result<(), AllocError> {
        match *self {
            RowFault::Fields => draft.add(b"Fields"),
            RowFault::Id => draft.add(b"Id"),
            RowFault::Settle => draft.add(b"Settle BadDate"),
            RowFault::Buyer(fault) => ("Buyer ", read_fault_name(fault)).put(draft),
            RowFault::Seller(fault) => ("Seller ", read_fault_name(fault)).put(draft),
            RowFault::Cusip(fault) => ("Cusip ", fault).put(draft),
            RowFault::Quantity(fault) => ("Quantity ", read_fault_name(fault)).put(draft),
            RowFault::Account(fault) => ("Account ", read_fault_name(fault)).put(draft),
            RowFault::Shares(fault) => ("Shares ", read_fault_name(fault)).put(draft),
        }
    }
}

/// The name of an opening's fault.
pub(crate) fn opening_fault_name(fault: OpeningFault) -> &'static str
    ensures { result.now ≡ opening_fault_text fault }
{
    match fault {
        OpeningFault::Double => "Double",
        OpeningFault::IssueSum => "IssueSum",
        OpeningFault::OutOfMemory => "OutOfMemory",
    }
}

// The name of a verdict.
fn verdict_name(verdict: Verdict) -> &'static str
    ensures { result.now ≡ refusal_text (Refusal.Trade verdict) }
{
    match verdict {
        Verdict::New => "New",
        Verdict::Same => "Same",
        Verdict::Conflict => "Conflict",
        Verdict::SameMember => "SameMember",
        Verdict::Full => "Full",
    }
}

/// The name of a refusal. That of a trade is the name of its verdict.
pub(crate) fn refusal_name(refusal: Refusal) -> &'static str
    ensures { result.now ≡ refusal_text refusal }
{
    match refusal {
        Refusal::Trade(verdict) => verdict_name(verdict),
        Refusal::Down => "Down",
        Refusal::CycleOrder => "CycleOrder",
        Refusal::LotsOpen => "LotsOpen",
        Refusal::LotAlready => "LotAlready",
        Refusal::LotsSpent => "LotsSpent",
        Refusal::NoLot => "NoLot",
        Refusal::StaleLot => "StaleLot",
        Refusal::LotBusy => "LotBusy",
        Refusal::NotLong => "NotLong",
        Refusal::EarlierGroup => "EarlierGroup",
        Refusal::Sealed => "Sealed",
        Refusal::Unserved => "Unserved",
        Refusal::BadTickets => "BadTickets",
        Refusal::NumbersSpent => "NumbersSpent",
        Refusal::UnknownMove => "UnknownMove",
        Refusal::NoPacket => "NoPacket",
        Refusal::Conflict => "Conflict",
        Refusal::TooMuch => "TooMuch",
        Refusal::IssueSum => "IssueSum",
        Refusal::TooFew => "TooFew",
        Refusal::BadJournal { .. } => "BadJournal",
        Refusal::OutOfMemory => "OutOfMemory",
        Refusal::Device => "Device",
    }
}
