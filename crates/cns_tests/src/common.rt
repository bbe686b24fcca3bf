//! What several tests use.

ghost use Rattle.std.specs.Prelude.{◌≤◌, length};
ghost use Rattle.cns_netting.specs.Book.{QuantitiesFit};
ghost use Rattle.cns_netting.specs.History.{accepted};
ghost use Rattle.cns_covers.specs.Covers.{IsUnsettled};

use cns_ids::{Cusip, CycleId, CycleKind, Day, MemberNo, Quantity, Shares};
use cns_movements::{Ask, Asked, MoveKind, MoveNo, Order, Reply};
use cns_netting::NetBook;
use cns_pool::Ticket;
use cns_trades::{Trade, TradeId};
use std::alloc::Global;
use std::fmt::{Debug, Display};
use std::process::Abort;

pub(crate) fn assert_same<T: PartialEq + Debug>(rt: &impl Abort, got: &T, wanted: &T) {
    assert!(rt; got == wanted, "{got:?} and not {wanted:?}");
}

pub(crate) fn assert_prints(rt: &impl Abort, alloc: Global, value: &impl Display, wanted: &str) {
    let text = value.to_string(alloc).expect(rt, "memory");
    assert_same(rt, &text.as_str(), &wanted);
}

// Faults, each with its text.
pub(crate) fn assert_texts<T: Display>(rt: &impl Abort, alloc: Global, cases: &[(T, &str)]) {
    for (fault, words) in cases {
        assert_prints(rt, alloc, fault, words);
    }
}

pub(crate) fn member_of(rt: &impl Abort, number: u16) -> MemberNo {
    MemberNo::new(number).expect(rt, "a member's number")
}

pub(crate) fn issue_of(rt: &impl Abort, code: &[u8]) -> Cusip {
    Cusip::read(code).expect(rt, "an issue")
}

// The issue that stands first.
pub(crate) fn low_issue(rt: &impl Abort) -> Cusip {
    issue_of(rt, b"037833100")
}

pub(crate) fn high_issue(rt: &impl Abort) -> Cusip {
    issue_of(rt, b"17275R102")
}

pub(crate) fn shares_of(rt: &impl Abort, count: u64) -> Shares {
    Shares::new(count).expect(rt, "a count of shares")
}

pub(crate) fn number_of(rt: &impl Abort, number: u64) -> MoveNo {
    MoveNo::new(number).expect(rt, "a movement's number")
}

pub(crate) fn day_of(rt: &impl Abort, text: &[u8]) -> Day {
    Day::read(text).expect(rt, "a day")
}

pub(crate) fn cycle_of(rt: &impl Abort, day: &[u8], kind: CycleKind) -> CycleId {
    let day = day_of(rt, day);
    CycleId { day, kind }
}

pub(crate) fn reply_of(rt: &impl Abort, number: u64, moved: u64) -> Reply {
    let (number, moved) = (number_of(rt, number), shares_of(rt, moved));
    Reply { number, moved }
}

// What is asked for: its kind, its member and its shares.
pub(crate) type Asking = (MoveKind, u16, u64);

pub(crate) fn ask_of(rt: &impl Abort, issue: Cusip, (kind, member, count): Asking) -> Ask {
    Ask {
        kind,
        member: member_of(rt, member),
        issue,
        asked: Asked::new(count).expect(rt, "shares that are asked for"),
    }
}

// What is asked for, with whether it is of the low issue or of the high one.
pub(crate) type AskedIn = (bool, Asking);

pub(crate) fn issue_in(rt: &impl Abort, in_low: bool) -> Cusip {
    if in_low {
        low_issue(rt)
    } else {
        high_issue(rt)
    }
}

pub(crate) fn asks_of(rt: &impl Abort, alloc: Global, asked: &[AskedIn]) -> Vec<Ask> {
    let mut asks = Vec::new(alloc);
    for (in_low, asking) in asked {
        let ask = ask_of(rt, issue_in(rt, *in_low), *asking);
        asks.push(ask).expect(rt, "memory");
    }
    asks
}

// The order of this number for what is asked for in the low issue.
pub(crate) fn order_of(rt: &impl Abort, number: u64, asking: Asking) -> Order {
    let ask = ask_of(rt, low_issue(rt), asking);
    Order::from_ask(number_of(rt, number), None, &ask)
}

// The same with a cycle of this kind on 4 March 2025.
pub(crate) fn order_in_cycle(
    rt: &impl Abort,
    number: u64,
    asking: Asking,
    kind: CycleKind,
) -> Order {
    let ask = ask_of(rt, low_issue(rt), asking);
    let cycle = cycle_of(rt, b"2025-03-04", kind);
    Order::from_ask(number_of(rt, number), Some(cycle), &ask)
}

// A trade: its name, its buyer, its seller and its shares.
pub(crate) type Deal = (&'static [u8], u16, u16, u64);

// The trade of 4 March 2025.
pub(crate) fn trade_of(rt: &impl Abort, issue: Cusip, deal: Deal) -> Trade
    ensures { result.quantity ≤ 999999999999 }
{
    let (id, buyer, seller, count) = deal;
    let quantity = Quantity::new(count).expect(rt, "a quantity");
    let _ = quantity.shares();
    Trade {
        id: TradeId::read(id).expect(rt, "a trade's name"),
        settle: day_of(rt, b"2025-03-04"),
        buyer: member_of(rt, buyer),
        seller: member_of(rt, seller),
        issue,
        quantity,
    }
}

// A trade, with whether it is of the low issue or of the high one.
pub(crate) type DealtIn = (bool, Deal);

// A book of three trades.
#[tactic(auto, unfolding(cns_netting::specs::Book::QuantitiesFit))]
pub(crate) fn book_of(rt: &impl Abort, alloc: Global, deals: [DealtIn; 3]) -> NetBook
    ensures few { length (accepted result.history) ≤ 1000000 }
    ensures quantities { QuantitiesFit result.history }
    ensures unsettled { IsUnsettled result.history }
{
    let [first, second, third] = deals;
    let first = trade_of(rt, issue_in(rt, first.0), first.1);
    let second = trade_of(rt, issue_in(rt, second.0), second.1);
    let third = trade_of(rt, issue_in(rt, third.0), third.1);
    if second.id == first.id || third.id == first.id || third.id == second.id {
        panic!(rt; "two trades have one id");
    }
    let mut book = NetBook::new(alloc);
    book.accept(first).expect(rt, "memory");
    book.accept(second).expect(rt, "memory");
    book.accept(third).expect(rt, "memory");
    book
}

// A ticket: its member's number, where its shares start and how many they are.
pub(crate) type Drawn = (u16, u64, u64);

pub(crate) fn ticket_of(rt: &impl Abort, (number, start, asked): Drawn) -> Ticket {
    let member = member_of(rt, number);
    Ticket {
        member,
        start,
        asked,
    }
}

pub(crate) fn tickets_of(rt: &impl Abort, alloc: Global, drawn: &[Drawn]) -> Vec<Ticket> {
    let mut tickets = Vec::new(alloc);
    for one in drawn {
        tickets.push(ticket_of(rt, *one)).expect(rt, "memory");
    }
    tickets
}
