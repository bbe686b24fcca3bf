use crate::common::{APPLE, Deed, apple, assert_same, cycle_of, event_of, member_of, order_of};
use cns_clearing::PoolRow;
use cns_depository::{Account, BalanceRow, OpeningFault};
use cns_ids::{CusipFault, CycleKind, ReadFault};
use cns_movements::{Asked, MoveKind, MoveNo, Order};
use cns_netting::PositionRow;
use cns_records::Refusal;
use cns_report::{
    Line, LotLine, RefusedLine, Text, write_balance_report, write_cycle_report, write_line,
    write_report_end,
};
use cns_system::{Event, NodeName, Outcome};
use cns_trades::{RowFault, Verdict};
use std::alloc::Global;
use std::process::Abort;

mod outcome;

use outcome::see_told;

// That this line has these bytes.
fn see(rt: &impl Abort, alloc: Global, line: Line, want: &str) {
    let mut out = Text::new(alloc);
    write_line(&mut out, line).expect(rt, "memory");
    assert_same(rt, &out.as_bytes(), &want.as_bytes());
    drop(out);
}

// That a line that ends with a name has these bytes.
fn see_named(rt: &impl Abort, alloc: Global, line: Line, before: &str, name: &str) {
    let want = format!(in alloc; "{before} {name}\n").expect(rt, "memory");
    see(rt, alloc, line, want.as_str());
    drop(want);
}

#[test]
fn openings_that_are_refused(rt: HostRuntime) {
    let row = 6;
    for (fault, name) in [
        (OpeningFault::Double, "Double"),
        (OpeningFault::IssueSum, "IssueSum"),
    ] {
        let line = Line::OpeningRefused { row, fault };
        see_named(&rt, rt.alloc(), line, "opening row 6 fault", name);
    }
}

// The faults of a row, and their names.
const ROW_FAULTS: [(RowFault, &str); 11] = [
    (RowFault::Fields, "Fields"),
    (RowFault::Id, "Id"),
    (RowFault::Settle, "Settle BadDate"),
    (RowFault::Buyer(ReadFault::BadNumber), "Buyer BadNumber"),
    (RowFault::Seller(ReadFault::OutOfRange), "Seller OutOfRange"),
    (RowFault::Cusip(CusipFault::Length), "Cusip Length"),
    (RowFault::Cusip(BAD_CHARACTER), "Cusip BadChar 6"),
    (RowFault::Cusip(BAD_DIGIT), "Cusip CheckDigit 0"),
    (
        RowFault::Quantity(ReadFault::BadNumber),
        "Quantity BadNumber",
    ),
    (
        RowFault::Account(ReadFault::OutOfRange),
        "Account OutOfRange",
    ),
    (RowFault::Shares(ReadFault::BadNumber), "Shares BadNumber"),
];

const BAD_CHARACTER: CusipFault = CusipFault::BadChar { place: 6 };

const BAD_DIGIT: CusipFault = CusipFault::CheckDigit { want: 0 };

#[test]
fn row_faults(rt: HostRuntime) {
    for (fault, name) in &ROW_FAULTS {
        let (row, fault) = (5, *fault);
        let trade = Line::RowFault { row, fault };
        let opening = Line::OpeningRowFault { row, fault };
        see_named(&rt, rt.alloc(), trade, "row 5 fault", name);
        see_named(&rt, rt.alloc(), opening, "opening row 5 fault", name);
    }
}

// The refusals, and their names.
const REFUSALS: [(Refusal, &str); 25] = [
    (Refusal::Down, "Down"),
    (Refusal::Trade(Verdict::Same), "Same"),
    (Refusal::Trade(Verdict::Conflict), "Conflict"),
    (Refusal::Trade(Verdict::SameMember), "SameMember"),
    (Refusal::Trade(Verdict::Full), "Full"),
    (Refusal::CycleOrder, "CycleOrder"),
    (Refusal::LotsOpen, "LotsOpen"),
    (Refusal::LotAlready, "LotAlready"),
    (Refusal::LotsSpent, "LotsSpent"),
    (Refusal::NoLot, "NoLot"),
    (Refusal::StaleLot, "StaleLot"),
    (Refusal::LotBusy, "LotBusy"),
    (Refusal::NotLong, "NotLong"),
    (Refusal::EarlierGroup, "EarlierGroup"),
    (Refusal::Sealed, "Sealed"),
    (Refusal::Unserved, "Unserved"),
    (Refusal::BadTickets, "BadTickets"),
    (Refusal::NumbersSpent, "NumbersSpent"),
    (Refusal::UnknownMove, "UnknownMove"),
    (Refusal::NoPacket, "NoPacket"),
    (Refusal::Conflict, "Conflict"),
    (Refusal::TooMuch, "TooMuch"),
    (Refusal::BadJournal { place: 3 }, "BadJournal"),
    (Refusal::OutOfMemory, "OutOfMemory"),
    (Refusal::Device, "Device"),
];

// That an event that is refused so is told by its word and a name.
fn see_refused(
    rt: &impl Abort,
    alloc: Global,
    event: &Event,
    refusal: Refusal,
    want: (&str, &str),
) {
    let (word, name) = want;
    let want = format!(in alloc; "{word} refused {name}\n").expect(rt, "memory");
    see_told(rt, alloc, event, &Outcome::Refused(refusal), want.as_str());
    drop(want);
}

#[test]
fn refusals(rt: HostRuntime) {
    let cycle = event_of(&rt, &Deed::Cycle);
    let trade = event_of(&rt, &Deed::Sell(b"A1", 2));
    for (refusal, name) in &REFUSALS {
        see_refused(&rt, rt.alloc(), &cycle, *refusal, ("cycle", name));
        see_refused(&rt, rt.alloc(), &trade, *refusal, ("trade A1", name));
    }
    let mut out = Text::new(rt.alloc());
    let (word, refusal) = ("reserve", Refusal::Sealed);
    let line = RefusedLine { word, refusal };
    out.tell(&line).expect(&rt, "memory");
    assert_same(
        &rt,
        &out.as_bytes(),
        &b"reserve refused Sealed\n".as_slice(),
    );
    drop(out);
}

#[test]
fn command_lines(rt: HostRuntime) {
    let lines = [
        (Line::BadCommand { line: 1 }, "line 1 bad command\n"),
        (Line::FailurePlanned, "fail ok\n"),
        (Line::FailureNotPlanned, "fail refused NotPlanned\n"),
    ];
    for (line, want) in &lines {
        see(&rt, rt.alloc(), *line, want);
    }
    let (records, kept) = (1, true);
    let event = Event::Restart(NodeName::Depot);
    let outcome = Outcome::Restarted { records, kept };
    let want = "restart DEPOT records 1 kept yes\n";
    see_told(&rt, rt.alloc(), &event, &outcome, want);
}

// A cover of member 1, and the largest delivery under the last number.
fn two_orders(rt: &impl Abort) -> [Order; 2] {
    let cover = (1, MoveKind::Cover, 1, APPLE, 60);
    let delivery = (MoveNo::MAX, MoveKind::Delivery, 42, APPLE, Asked::MAX);
    [order_of(rt, &cover), order_of(rt, &delivery)]
}

#[test]
fn order_lines(rt: HostRuntime) {
    let mut out = Text::new(rt.alloc());
    for order in &two_orders(&rt) {
        out.tell(order).expect(&rt, "memory");
    }
    let want = "\
        order 1 COVER 0001 037833100 60\n\
        order 1000000 DELIVERY 0042 037833100 1000000000000000000\n";
    assert_same(&rt, &out.as_bytes(), &want.as_bytes());
    drop(out);
}

#[test]
fn lot_lines(rt: HostRuntime) {
    let (number, poured, longs) = (1, 40, 2);
    let opened = LotLine {
        number,
        poured,
        longs,
    };
    let mut out = Text::new(rt.alloc());
    out.tell(&opened).expect(&rt, "memory");
    let want = "lot 1 poured 40 longs 2\n";
    assert_same(&rt, &out.as_bytes(), &want.as_bytes());
    drop(out);
}

#[test]
fn a_report(rt: HostRuntime) {
    let issue = apple(&rt);
    let rows = [
        PositionRow {
            issue,
            member: member_of(&rt, 1),
            position: -60,
        },
        PositionRow {
            issue,
            member: member_of(&rt, 2),
            position: 1_000_000_000_000_000_000,
        },
    ];
    let day = cycle_of(&rt, b"2025-03-04", CycleKind::Day);
    let pools = [PoolRow {
        issue,
        free: 20,
        lent: 0,
        out: 1_000_000_000_000_000_000,
    }];
    let balances = [
        BalanceRow {
            issue,
            account: Account::Cns,
            shares: 20,
        },
        BalanceRow {
            issue,
            account: Account::Member(member_of(&rt, 42)),
            shares: 1_000_000_000_000_000_000,
        },
    ];
    let mut out = Text::new(rt.alloc());
    write_cycle_report(&mut out, None, &[], &[]).expect(&rt, "memory");
    write_report_end(&mut out).expect(&rt, "memory");
    write_cycle_report(&mut out, Some(day), &rows, &pools).expect(&rt, "memory");
    write_balance_report(&mut out, &balances).expect(&rt, "memory");
    write_report_end(&mut out).expect(&rt, "memory");
    let want = "\
        REPORT cycle none\n\
        END\n\
        REPORT cycle 2025-03-04 DAY\n\
        POS 037833100 0001                  -60\n\
        POS 037833100 0002  1000000000000000000\n\
        POOL 037833100 free 20 lent 0 out 1000000000000000000\n\
        BAL 037833100 0000                   20\n\
        BAL 037833100 0042  1000000000000000000\n\
        END\n";
    assert_same(&rt, &out.as_bytes(), &want.as_bytes());
    drop(out);
}
