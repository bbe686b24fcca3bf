use crate::common::{Deal, assert_same, day_of, issue_of, low_issue, trade_of};
use cns_ids::{Cusip, Day};
use cns_netting::{NetBook, PositionRow};
use cns_trades::Trade;
use std::alloc::{AllocError, Global};
use std::process::Abort;

// Member 2 buys 100 shares from member 1, and sells 40 to it.
const FIRST: Deal = (b"A1", 2, 1, 100);

const SECOND: Deal = (b"A2", 1, 2, 40);

// A position: its member's number, and its shares.
type Held = (u16, i64);

// Whether the rows of an issue are these positions.
fn are_held(rows: &[PositionRow], issue: Cusip, wanted: &[Held]) -> bool {
    if rows.len() != wanted.len() {
        return false;
    }
    for (row, held) in rows.iter().zip(wanted) {
        if row.issue != issue || (row.member.number(), row.position) != *held {
            return false;
        }
    }
    true
}

type Rows = Result<Vec<PositionRow>, AllocError>;

fn assert_rows(rt: &impl Abort, rows: Rows, issue: Cusip, wanted: &[Held]) {
    let rows = rows.expect(rt, "memory");
    assert!(rt; are_held(rows.as_slice(), issue, wanted));
    drop(rows);
}

// Nets the trades that are due on a day, which are so many.
fn assert_due(rt: &impl Abort, book: &mut NetBook, day: Day, wanted: u64) {
    book.net_room(day).expect(rt, "memory");
    assert!(rt; book.net(day) == Ok(wanted), "{wanted} are due");
}

fn book_of(alloc: Global, first: &Trade, second: &Trade) -> Result<NetBook, AllocError> {
    let mut book = NetBook::new(alloc);
    book.accept_room(*first)?;
    book.accept(*first)?;
    if second.id != first.id {
        book.accept(*second)?;
    }
    Ok(book)
}

// A book of both trades, the second one in this issue.
fn book_in(rt: &impl Abort, alloc: Global, issue: Cusip) -> NetBook {
    let first = trade_of(rt, low_issue(rt), FIRST);
    let second = trade_of(rt, issue, SECOND);
    book_of(alloc, &first, &second).expect(rt, "memory")
}

static NETTED: [Held; 2] = [(1, -60), (2, 60)];

#[test]
fn due_trades_net_to_one_position(rt: HostRuntime) {
    let issue = low_issue(&rt);
    let (before, settle) = (day_of(&rt, b"2025-03-03"), day_of(&rt, b"2025-03-04"));
    let mut book = book_in(&rt, rt.alloc(), issue);
    assert_rows(&rt, book.rows(), issue, &[]);
    assert_rows(&rt, book.rows_at(before), issue, &[]);
    assert_rows(&rt, book.rows_at(settle), issue, &NETTED);
    for (day, due) in [(before, 0), (settle, 2), (settle, 0)] {
        assert_due(&rt, &mut book, day, due);
    }
    assert_rows(&rt, book.rows(), issue, &NETTED);
    assert_same(&rt, &(book.longs(issue), book.shorts(issue)), &(60, 60));
    drop(book);
}

#[test]
fn positions_of_members(rt: HostRuntime) {
    let issue = low_issue(&rt);
    let trade = trade_of(&rt, issue, FIRST);
    let mut book = book_in(&rt, rt.alloc(), issue);
    assert_same(&rt, &book.position(trade.buyer, issue), &0);
    assert_due(&rt, &mut book, trade.settle, 2);
    assert_same(&rt, &book.position(trade.seller, issue), &-60);
    drop(book);
}

const IN_LOW: [Held; 2] = [(1, -100), (2, 100)];

const IN_HIGH: [Held; 2] = [(1, 40), (2, -40)];

// Whether the rows of both issues are these positions, those of the low one first.
fn are_in_both(rows: &[PositionRow], low: Cusip, high: Cusip) -> bool {
    match rows {
        [first, second, third, last] => {
            are_held(&[*first, *second], low, &IN_LOW) && are_held(&[*third, *last], high, &IN_HIGH)
        }
        _ => false,
    }
}

#[test]
fn rows_in_an_issue(rt: HostRuntime) {
    let (low, high) = (low_issue(&rt), issue_of(&rt, b"594918104"));
    let mut book = book_in(&rt, rt.alloc(), high);
    assert_due(&rt, &mut book, day_of(&rt, b"2025-03-04"), 2);
    assert_rows(&rt, book.rows_in(low), low, &IN_LOW);
    assert_rows(&rt, book.rows_in(high), high, &IN_HIGH);
    assert_rows(&rt, book.rows_in(issue_of(&rt, b"459200101")), low, &[]);
    let rows = book.rows().expect(&rt, "memory");
    assert!(rt; are_in_both(rows.as_slice(), low, high));
    drop((rows, book));
}
