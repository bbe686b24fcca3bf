use crate::common::{assert_prints, assert_same, low_issue, member_of, shares_of, trade_of};
use cns_ids::{CusipFault, ReadFault, Shares};
use cns_trades::{
    CsvFault, Opening, OpeningRow, Row, RowFault, Trade, TradeId, TradeList, Verdict,
    read_openings, read_trades,
};
use std::alloc::{AllocError, Global};
use std::process::Abort;

const HEADER: &[u8] = b"trade,settle,buyer,seller,cusip,quantity\n";

fn assert_rows(rt: &impl Abort, alloc: Global, text: &[u8], wanted: &[Row]) {
    let rows = read_trades(alloc, text).expect(rt, "rows");
    assert_same(rt, &rows.as_slice(), &wanted);
    drop(rows);
}

// The rows under the header are these.
fn assert_under_header(rt: &impl Abort, alloc: Global, rows: &[u8], wanted: &[Row]) {
    let text = [HEADER, rows].concat(alloc).expect(rt, "memory");
    assert_rows(rt, alloc, text.as_slice(), wanted);
    drop(text);
}

// The trade of the row `A1,2025-03-04,2,1,037833100,100`.
fn plain_trade(rt: &impl Abort) -> Trade {
    trade_of(rt, low_issue(rt), (b"A1", 2, 1, 100))
}

#[test]
fn a_row_is_its_trade(rt: HostRuntime) {
    let wanted = [Row::Trade(plain_trade(&rt))];
    let row = b"A1,2025-03-04,2,1,037833100,100\n";
    assert_under_header(&rt, rt.alloc(), row, &wanted);
    let quoted =
        b"\xef\xbb\xbf\"trade\",settle,buyer,seller,cusip,quantity\r\n\r\n\"A1\",2025-03-04,\"2\",1,037833100,\"100\"\r\n";
    assert_rows(&rt, rt.alloc(), quoted, &wanted);
}

#[test]
fn an_id_is_its_text(rt: HostRuntime) {
    let id = plain_trade(&rt).id;
    assert_same(&rt, &id.as_bytes(), &b"A1".as_slice());
    assert_prints(&rt, rt.alloc(), &id, "A1");
    assert!(rt; TradeId::read(b"").is_err());
}

// Rows, each with its fault.
static ROWS: [&[u8]; 17] = [
    b"A1,2025-03-04,2,1,037833100",
    b"A1,2025-03-04,2,1,037833100,100,",
    b"\"\"",
    b"a1,2025-03-04,2,1,037833100,100",
    b",2025-03-04,2,1,037833100,100",
    b"A2345678901234567,2025-03-04,2,1,037833100,100",
    b"A1,2025-02-29,2,1,037833100,100",
    b"A1,2025-03-04,x,1,037833100,100",
    b"A1,2025-03-04,0,1,037833100,100",
    b"A1,2025-03-04,2,10000,037833100,100",
    b"A1,2025-03-04,2, 1,037833100,100",
    b"A1,2025-03-04,2,1,03783310,100",
    b"A1,2025-03-04,2,1,03783a100,100",
    b"A1,2025-03-04,2,1,037833101,100",
    b"A1,2025-03-04,2,1,037833100,0",
    b"A1,2025-03-04,2,1,037833100,12x",
    b"bad,2025-02-29,0,0,0,0",
];

static FAULTS: [RowFault; 17] = [
    RowFault::Fields,
    RowFault::Fields,
    RowFault::Fields,
    RowFault::Id,
    RowFault::Id,
    RowFault::Id,
    RowFault::Settle,
    RowFault::Buyer(ReadFault::BadNumber),
    RowFault::Buyer(ReadFault::OutOfRange),
    RowFault::Seller(ReadFault::OutOfRange),
    RowFault::Seller(ReadFault::BadNumber),
    RowFault::Cusip(CusipFault::Length),
    RowFault::Cusip(CusipFault::BadChar { place: 6 }),
    RowFault::Cusip(CusipFault::CheckDigit { want: 0 }),
    RowFault::Quantity(ReadFault::OutOfRange),
    RowFault::Quantity(ReadFault::BadNumber),
    RowFault::Id,
];

#[test]
fn each_field_has_its_fault(rt: HostRuntime) {
    for (row, fault) in ROWS.iter().zip(&FAULTS) {
        let wanted = [Row::Fault {
            row: 1,
            fault: *fault,
        }];
        assert_under_header(&rt, rt.alloc(), row, &wanted);
    }
}

static WITHOUT_ROWS: [&[u8]; 4] = [b"", b"\xef\xbb\xbf", b"\n\r\n\n", HEADER];

#[test]
fn texts_without_rows(rt: HostRuntime) {
    for text in &WITHOUT_ROWS {
        assert_rows(&rt, rt.alloc(), text, &[]);
    }
}

#[test]
fn a_quote_that_is_not_closed(rt: HostRuntime) {
    let fault = RowFault::Fields;
    let wanted = [Row::Fault { row: 1, fault }, Row::Fault { row: 2, fault }];
    assert_under_header(&rt, rt.alloc(), b"x\n\"A1,2025-03-04\n", &wanted);
}

static NO_HEADERS: [&[u8]; 3] = [
    b"trade,settle,buyer,seller,cusip,qty\n",
    b"A1,2025-03-04,2,1,037833100,100\n",
    b"trade,settle,buyer,seller,cusip,quantity,\n",
];

#[test]
fn the_first_record_is_the_header(rt: HostRuntime) {
    for text in &NO_HEADERS {
        let fault = read_trades(rt.alloc(), text).err();
        assert_same(&rt, &fault, &Some(CsvFault::Header));
    }
    let fault = read_openings(rt.alloc(), b"account,cusip\n").err();
    assert_same(&rt, &fault, &Some(CsvFault::Header));
}

// A list of this trade alone.
fn list_of(alloc: Global, trade: Trade) -> Result<TradeList, AllocError> {
    let mut list = TradeList::new(alloc);
    list.add_room(trade)?;
    if list.check(&trade) == Verdict::New {
        list.add(trade)?;
    }
    Ok(list)
}

// A trade, another one under its name, and one of a member with itself.
#[test]
fn verdicts(rt: HostRuntime) {
    let first = plain_trade(&rt);
    let other = trade_of(&rt, low_issue(&rt), (b"A1", 2, 1, 101));
    let own = trade_of(&rt, low_issue(&rt), (b"C1", 3, 3, 5));
    let empty = TradeList::new(rt.alloc());
    assert!(rt; empty.is_empty() && empty.check(&first) == Verdict::New);
    let list = list_of(rt.alloc(), first).expect(&rt, "memory");
    let told = (list.check(&first), list.check(&other), list.check(&own));
    assert_same(
        &rt,
        &told,
        &(Verdict::Same, Verdict::Conflict, Verdict::SameMember),
    );
    assert_same(&rt, &list.len(), &1);
    drop((empty, list));
}

const OPENINGS: &[u8] =
    b"account,cusip,shares\n1,037833100,1000000000000000000\n0,037833100,5\n3,037833101,5\n2,037833100,1000000000000000001\n2,037833100\n";

static OPENING_FAULTS: [RowFault; 4] = [
    RowFault::Account(ReadFault::OutOfRange),
    RowFault::Cusip(CusipFault::CheckDigit { want: 0 }),
    RowFault::Shares(ReadFault::OutOfRange),
    RowFault::Fields,
];

// The opening of the first row.
fn most_shares(rt: &impl Abort) -> OpeningRow {
    let (member, issue) = (member_of(rt, 1), low_issue(rt));
    let shares = shares_of(rt, Shares::MAX);
    OpeningRow::Opening(Opening {
        member,
        issue,
        shares,
    })
}

// Whether the rows from the second one on have these faults.
fn have_faults(rows: &[OpeningRow], faults: &[RowFault]) -> bool {
    for (place, (read, fault)) in rows.iter().zip(faults).enumerate() {
        let (row, fault) = ((place as u64).saturating_add(2), *fault);
        if *read != (OpeningRow::Fault { row, fault }) {
            return false;
        }
    }
    rows.len() == faults.len()
}

#[test]
fn openings(rt: HostRuntime) {
    let rows = read_openings(rt.alloc(), OPENINGS).expect(&rt, "rows");
    let so = match rows.as_slice() {
        [first, others @ ..] => {
            *first == most_shares(&rt) && have_faults(others, &OPENING_FAULTS)
        }
        [] => false,
    };
    drop(rows);
    assert!(rt; so);
}
