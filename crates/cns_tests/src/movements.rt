use crate::common::{
    ask_of, assert_prints, assert_same, cycle_of, day_of, low_issue, number_of, order_in_cycle,
    order_of, reply_of,
};
use cns_ids::{CycleId, CycleKind, Shares};
use cns_movements::{
    Ask, Asked, Confirm, IssueFault, MoveKind, MoveNo, Order, OrderBook, Reply, Version,
    cycle_bytes, day_bytes, read_cycle, read_day,
};
use std::alloc::{AllocError, Global};
use std::process::Abort;

// An order that member 1 is asked.
fn asked_of_first(rt: &impl Abort, kind: MoveKind, shares: u64) -> Ask {
    ask_of(rt, low_issue(rt), (kind, 1, shares))
}

#[test]
fn numbers_of_orders(rt: HostRuntime) {
    assert!(rt; MoveNo::new(0).is_none() && MoveNo::new(1_000_001).is_none());
    let last = number_of(&rt, 1_000_000);
    assert_same(&rt, &last.number(), &1_000_000);
    assert_prints(&rt, rt.alloc(), &last, "1000000");
}

#[test]
fn shares_asked(rt: HostRuntime) {
    assert!(rt; Asked::new(0).is_none() && Asked::new(Asked::MAX + 1).is_none());
    let most = Asked::new(1_000_000_000_000_000_000).expect(&rt, "10^18 shares");
    assert_same(&rt, &most.shares(), &Asked::MAX);
    assert_prints(&rt, rt.alloc(), &most, "1000000000000000000");
}

#[test]
fn kinds_print(rt: HostRuntime) {
    assert_prints(&rt, rt.alloc(), &MoveKind::Cover, "COVER");
    assert_prints(&rt, rt.alloc(), &MoveKind::Delivery, "DELIVERY");
}

// A book of these orders, whose first number is 1, with room for them taken before.
fn book_of(rt: &impl Abort, alloc: Global, asks: &[Ask]) -> OrderBook {
    let mut book = OrderBook::new(alloc);
    assert!(rt; book.is_empty());
    book.issue_room(None, asks).expect(rt, "memory");
    let first = book.issue(None, asks).expect(rt, "a first number");
    assert_same(rt, &first.number(), &1);
    book
}

fn assert_open(rt: &impl Abort, book: &OrderBook, ask: &Ask, wanted: u128) {
    assert_same(rt, &book.open_of(ask.kind, ask.member, ask.issue), &wanted);
}

// Replies, by the order's number and the shares moved, each with its answer.
static ANSWERS: [(u64, u64, Confirm); 6] = [
    (2, 5, Confirm::UnknownMove),
    (1, 36, Confirm::TooMuch),
    (1, 20, Confirm::Done),
    (1, 20, Confirm::Again),
    (1, 21, Confirm::Conflict),
    (1, 36, Confirm::Conflict),
];

// Confirms an order, with room for the reply taken before.
fn confirm(book: &mut OrderBook, given: &Reply) -> Result<Confirm, AllocError> {
    book.confirm_room(*given)?;
    book.confirm(*given)
}

fn confirm_all(rt: &impl Abort, book: &mut OrderBook) {
    for (number, moved, wanted) in &ANSWERS {
        let answer = confirm(book, &reply_of(rt, *number, *moved));
        assert_same(rt, &answer, &Ok(*wanted));
    }
}

// The shares that the order of a number asks for.
fn asked_at(book: &OrderBook, number: MoveNo) -> Option<Asked> {
    match book.get(number) {
        Some(order) => Some(order.asked),
        None => None,
    }
}

// The cycle of the order of a number.
fn cycle_at(book: &OrderBook, number: MoveNo) -> Option<CycleId> {
    book.get(number)?.cycle
}

// What a book says of the orders of these numbers: the shares that are asked, and those that moved.
fn shown(book: &OrderBook, number: MoveNo) -> (Option<Asked>, Option<Shares>) {
    (asked_at(book, number), book.confirmed(number))
}

#[test]
fn one_cover_is_confirmed_once(rt: HostRuntime) {
    let cover = asked_of_first(&rt, MoveKind::Cover, 35);
    let delivery = asked_of_first(&rt, MoveKind::Delivery, 35);
    let mut book = book_of(&rt, rt.alloc(), &[cover]);
    assert_open(&rt, &book, &cover, 35);
    assert_open(&rt, &book, &delivery, 0);
    confirm_all(&rt, &mut book);
    assert_open(&rt, &book, &cover, 0);
    let (first, second) = (number_of(&rt, 1), number_of(&rt, 2));
    assert_same(
        &rt,
        &shown(&book, first),
        &(Asked::new(35), Shares::new(20)),
    );
    assert_same(&rt, &shown(&book, second), &(None, None));
    assert_same(&rt, &book.next_number(), &Some(second));
    assert_same(&rt, &book.orders().len(), &1);
    drop(book);
}

// A book of so many orders that one number is left.
fn book_of_most(rt: &impl Abort, alloc: Global, ask: Ask) -> OrderBook {
    let asks = Vec::from_elem(alloc, ask, 999_999).expect(rt, "memory");
    book_of(rt, alloc, asks.as_slice())
}

#[test]
fn the_numbers_end(rt: HostRuntime) {
    let last = number_of(&rt, 1_000_000);
    let delivery = asked_of_first(&rt, MoveKind::Delivery, 2);
    let mut book = book_of_most(&rt, rt.alloc(), delivery);
    assert_same(&rt, &book.issue(None, &[]), &Ok(last));
    let refused = book.issue(None, &[delivery, delivery]);
    assert_same(&rt, &refused, &Err(IssueFault::NumbersSpent));
    assert_same(&rt, &book.len(), &999_999);
    assert_same(&rt, &book.issue(None, &[delivery]), &Ok(last));
    assert_same(&rt, &book.next_number(), &None);
    assert_same(&rt, &book.issue(None, &[]), &Err(IssueFault::NumbersSpent));
    assert_open(&rt, &book, &delivery, 2_000_000);
    let moved = reply_of(&rt, 1_000_000, 2);
    assert_same(&rt, &book.confirm(moved), &Ok(Confirm::Done));
    drop(book);
}

// Order 7, a cover of 60 shares: without a cycle, and of the two cycles of a date.
fn three_orders(rt: &impl Abort) -> [Order; 3] {
    let asking = (MoveKind::Cover, 1, 60);
    [
        order_of(rt, 7, asking),
        order_in_cycle(rt, 7, asking, CycleKind::Night),
        order_in_cycle(rt, 7, asking, CycleKind::Day),
    ]
}

#[test]
fn orders_agree(rt: HostRuntime) {
    let [plain, night, day] = three_orders(&rt);
    assert!(rt; plain.agrees_with(&plain) && night.agrees_with(&night));
    assert!(rt; plain.agrees_with(&night) && night.agrees_with(&plain));
    assert!(rt; plain.agrees_with(&day) && day.agrees_with(&plain));
    assert!(rt; !night.agrees_with(&day) && !day.agrees_with(&night));
    let fewer = order_of(&rt, 7, (MoveKind::Cover, 1, 59));
    assert!(rt; !plain.agrees_with(&fewer) && !night.agrees_with(&fewer));
}

#[test]
fn versions_of_orders(rt: HostRuntime) {
    let [plain, night, _day] = three_orders(&rt);
    assert_same(&rt, &plain.version(), &Version::One);
    assert_same(&rt, &night.version(), &Version::Two);
    for (version, byte, size) in [(Version::One, 1, 27), (Version::Two, 2, 32)] {
        assert_same(&rt, &Version::of_byte(byte), &Some(version));
        assert!(rt; version.byte() == byte && version.order_size() == size);
    }
    assert!(rt; Version::of_byte(0).is_none() && Version::of_byte(3).is_none());
}

#[test]
fn orders_of_a_cycle(rt: HostRuntime) {
    let asks = [asked_of_first(&rt, MoveKind::Cover, 35)];
    let night = || Some(cycle_of(&rt, b"2025-03-04", CycleKind::Night));
    let mut book = book_of(&rt, rt.alloc(), &asks);
    let (first, second) = (number_of(&rt, 1), number_of(&rt, 2));
    assert_same(&rt, &book.issue(night(), &asks), &Ok(second));
    assert_same(&rt, &cycle_at(&book, first), &None);
    assert_same(&rt, &cycle_at(&book, second), &night());
    drop(book);
}

// The cycle of a kind on 4 March 2025, and its bytes.
fn assert_cycle(rt: &impl Abort, kind: CycleKind, bytes: &[u8; 5]) {
    assert_same(rt, &cycle_bytes(cycle_of(rt, b"2025-03-04", kind)), bytes);
    assert_same(
        rt,
        &read_cycle(bytes),
        &Some(cycle_of(rt, b"2025-03-04", kind)),
    );
}

#[test]
fn dates_and_cycles_as_bytes(rt: HostRuntime) {
    let day = day_of(&rt, b"2025-03-04");
    assert_same(&rt, &day_bytes(day), b"\x07\xe9\x03\x04");
    assert_same(&rt, &read_day(b"\x07\xe9\x03\x04"), &Some(day));
    assert!(rt; read_day(b"\x07\xe9\x02\x1e").is_none() && read_day(b"\x07\x6b\x0c\x1f").is_none());
    assert_cycle(&rt, CycleKind::Night, b"\x07\xe9\x03\x04\x00");
    assert_cycle(&rt, CycleKind::Day, b"\x07\xe9\x03\x04\x01");
    assert!(rt; read_cycle(b"\x07\xe9\x03\x04\x02").is_none());
}
