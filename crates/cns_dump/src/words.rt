//! The words in which records are told.

ghost use Rattle.std.specs.Prelude.{◌≡◌};
ghost use Rattle.cns_dump.specs.Words.{allocation_words, clear_words, cycle_behind, cycle_words, depot_words, entry_words, on_or_off, order_words, set_words, drawn_line, trade_words};

use crate::entry::Entry;
use cns_ids::{Cusip, CycleId, MemberNo};
use cns_movements::Order;
use cns_records::{Allocation, ClearRecord, DepRecord, Drawn};
use cns_report::{Draft, Instructed, Put, moved, yes_or_no};
use cns_trades::Trade;
use std::alloc::AllocError;

// `trade ID settle DATE buyer MEMBER seller MEMBER CUSIP SHARES`
#[derive(Clone, Copy)]
struct TradeWords<'a>(&'a Trade);

impl Put for TradeWords<'_> {
    ghost text = { λ words. trade_words words.0.now };

    #[tactic(auto, unfolding(crate::specs::Words::trade_words))]
    fn put(&self, draft: &mut Draft) -> Result<(), AllocError> {
        let trade = self.0;
        let of = ("trade ", trade.id, " settle ", trade.settle);
        let of = (of, " buyer ", trade.buyer, " seller ", trade.seller);
        (of, " ", trade.issue, " ", trade.quantity.shares()).put(draft)
    }
}

// `WORD MEMBER CUSIP`, of what is set for a member in an issue.
#[derive(Clone, Copy)]
struct SetWords {
    word: &'static str,
    member: MemberNo,
    issue: Cusip,
}

impl Put for SetWords {
    ghost text = { λ words. set_words words.word.now words.member words.issue };

    fn put(&self, draft: &mut Draft) -> Result<(), AllocError> {
        (self.word, " ", self.member, " ", self.issue).put(draft)
    }
}

/// `ON` or `OFF`.
pub(crate) fn on_or_off(on: bool) -> &'static str
    ensures { result.now ≡ on_or_off on }
{
    if on { "ON" } else { "OFF" }
}

// `cycle DATE KIND`
#[derive(Clone, Copy)]
struct CycleWords(CycleId);

impl Put for CycleWords {
    ghost text = { λ words. cycle_words words.0 };

    #[tactic(auto, unfolding(crate::specs::Words::cycle_words))]
    fn put(&self, draft: &mut Draft) -> Result<(), AllocError> {
        ("cycle ", self.0.day, " ", self.0.kind).put(draft)
    }
}

// `allocate CUSIP opened N upto N poured SHARES sealed yes tickets N`
#[derive(Clone, Copy)]
struct AllocationWords<'a>(&'a Allocation);

impl Put for AllocationWords<'_> {
    ghost text = { λ words. allocation_words words.0.now };

    #[tactic(auto, unfolding(crate::specs::Words::allocation_words))]
    fn put(&self, draft: &mut Draft) -> Result<(), AllocError> {
        let allocation = self.0;
        let of = ("allocate ", allocation.issue, " opened ", allocation.opened);
        let of = (
            of,
            " upto ",
            allocation.upto,
            " poured ",
            allocation.poured.count(),
        );
        let sealed = yes_or_no(allocation.sealed);
        (
            of,
            " sealed ",
            sealed,
            " tickets ",
            allocation.drawn.len() as u64,
        )
            .put(draft)
    }
}

/// `ticket MEMBER start N asked SHARES`, a line of its own.
#[derive(Clone, Copy, Debug)]
pub(crate) struct TicketWords(pub(crate) Drawn);

impl Put for TicketWords {
    ghost text = { λ words. drawn_line words.0 };

    #[tactic(auto, unfolding(crate::specs::Words::drawn_line))]
    fn put(&self, draft: &mut Draft) -> Result<(), AllocError> {
        let of = ("ticket ", self.0.member, " start ", self.0.start.count());
        (of, " asked ", self.0.asked.shares(), "\n").put(draft)
    }
}

// The words of a record of the clearing node.
#[derive(Clone, Copy)]
struct ClearWords<'a>(&'a ClearRecord);

impl Put for ClearWords<'_> {
    ghost text = { λ words. clear_words words.0.now };

    #[tactic(auto, unfolding(crate::specs::Words::clear_words))]
    fn put(&self, draft: &mut Draft) -> Result<(), AllocError> {
        match self.0 {
            ClearRecord::Accept(trade) => TradeWords(trade).put(draft),
            ClearRecord::Exempt {
                member,
                issue,
                shares,
            } => {
                let of = SetWords {
                    word: "exempt",
                    member: *member,
                    issue: *issue,
                };
                (of, " ", shares.count()).put(draft)
            }
            ClearRecord::Priority { member, issue, on } => {
                let of = SetWords {
                    word: "priority",
                    member: *member,
                    issue: *issue,
                };
                (of, " ", on_or_off(*on)).put(draft)
            }
            ClearRecord::Cycle(id) => CycleWords(*id).put(draft),
            ClearRecord::Allocate(allocation) => AllocationWords(allocation).put(draft),
            ClearRecord::Confirm(reply) => ("confirm ", moved(*reply)).put(draft),
        }
    }
}

// ` cycle DATE KIND`, of an order that has a cycle.
#[derive(Clone, Copy)]
struct CyclePart(Option<CycleId>);

impl Put for CyclePart {
    ghost text = { λ words. cycle_behind words.0 };

    fn put(&self, draft: &mut Draft) -> Result<(), AllocError> {
        match self.0 {
            None => "".put(draft),
            Some(id) => (" ", CycleWords(id)).put(draft),
        }
    }
}

/// `KIND MEMBER CUSIP SHARES`, of what an order asks for, and `cycle DATE KIND` behind it where it has a cycle.
#[derive(Clone, Copy, Debug)]
pub struct OrderWords<'a>(pub &'a Order);

impl Put for OrderWords<'_> {
    ghost text = { λ words. order_words words.0.now };

    #[tactic(auto, unfolding(crate::specs::Words::order_words))]
    fn put(&self, draft: &mut Draft) -> Result<(), AllocError> {
        let order = self.0;
        let of = (order.kind, " ", order.member, " ");
        (
            of,
            order.issue,
            " ",
            order.asked.shares(),
            CyclePart(order.cycle),
        )
            .put(draft)
    }
}

// The words of a record of the depository.
#[derive(Clone, Copy)]
struct DepotWords<'a>(&'a DepRecord);

impl Put for DepotWords<'_> {
    ghost text = { λ words. depot_words words.0.now };

    #[tactic(auto, unfolding(crate::specs::Words::depot_words))]
    fn put(&self, draft: &mut Draft) -> Result<(), AllocError> {
        match self.0 {
            DepRecord::Exec { order, moved } => {
                let of = ("exec ", order.number.number(), " ", OrderWords(order));
                (of, " moved ", moved.count()).put(draft)
            }
            DepRecord::Own(instruction) => {
                let of = Instructed(instruction);
                (of, " ", instruction.issue, " ", instruction.shares.shares()).put(draft)
            }
        }
    }
}

/// The words of a record of either node, or `none N bytes`.
#[derive(Clone, Copy, Debug)]
pub struct EntryWords<'a>(pub &'a Entry);

impl Put for EntryWords<'_> {
    ghost text = { λ words. entry_words words.0.now };

    #[tactic(auto, unfolding(crate::specs::Words::entry_words))]
    fn put(&self, draft: &mut Draft) -> Result<(), AllocError> {
        match self.0 {
            Entry::Clear(record) => ClearWords(record).put(draft),
            Entry::Depot(record) => DepotWords(record).put(draft),
            Entry::Unread(bytes) => ("none ", *bytes, " bytes").put(draft),
        }
    }
}
