use crate::common::{assert_prints, assert_same, cycle_of, day_of, issue_of, member_of};
use cns_ids::{
    BadDate, Cusip, CusipFault, CycleId, CycleKind, Day, MemberNo, Quantity, ReadFault, Shares,
    read_number, read_quantity,
};
use std::process::Abort;

static CUSIPS: [(&[u8], Option<CusipFault>); 8] = [
    (b"037833100", None),
    (b"17275R102", None),
    (b"000000000", None),
    (b"037833101", Some(CusipFault::CheckDigit { want: 0 })),
    (b"03783310", Some(CusipFault::Length)),
    (b"03783a100", Some(CusipFault::BadChar { place: 6 })),
    (b"03783310A", Some(CusipFault::BadChar { place: 9 })),
    (b"", Some(CusipFault::Length)),
];

// Whether a text has this fault, or is read as it stands where there is none.
fn is_read(text: &[u8], fault: Option<CusipFault>) -> bool {
    match Cusip::read(text) {
        Ok(cusip) => fault.is_none() && cusip.to_bytes().as_slice() == text,
        Err(told) => fault == Some(told),
    }
}

#[test]
fn cusips(rt: HostRuntime) {
    for (text, fault) in &CUSIPS {
        assert!(rt; is_read(text, *fault), "{fault:?}");
    }
    let (low, high) = (issue_of(&rt, b"037833100"), issue_of(&rt, b"17275R102"));
    assert!(rt; low < high);
    assert_prints(&rt, rt.alloc(), &low, "037833100");
}

type Count = Result<u64, ReadFault>;

const NO_NUMBER: Count = Err(ReadFault::BadNumber);

const OUT_OF_RANGE: Count = Err(ReadFault::OutOfRange);

// Texts of numbers from 1 to 100, and of those that have 64 bits.
static NUMBERS: [(&[u8], Count); 9] = [
    (b"", NO_NUMBER),
    (b"12x", NO_NUMBER),
    (b"+1", NO_NUMBER),
    (b"0", OUT_OF_RANGE),
    (b"1", Ok(1)),
    (b"000000000000000000000000000000000000000000007", Ok(7)),
    (b"100", Ok(100)),
    (b"101", OUT_OF_RANGE),
    (
        b"99999999999999999999999999999999999999999999999999",
        OUT_OF_RANGE,
    ),
];

static LONG_NUMBERS: [(&[u8], Count); 2] = [
    (b"18446744073709551615", Ok(u64::MAX)),
    (b"18446744073709551616", OUT_OF_RANGE),
];

fn assert_numbers(rt: &impl Abort, cases: &[(&[u8], Count)], low: u64, high: u64) {
    for (text, wanted) in cases {
        assert_same(rt, &read_number(text, low, high), wanted);
    }
}

#[test]
fn numbers(rt: HostRuntime) {
    assert_numbers(&rt, &NUMBERS, 1, 100);
    assert_numbers(&rt, &LONG_NUMBERS, 0, u64::MAX);
}

static QUANTITIES: [(&[u8], Count); 3] = [
    (b"999999999999", Ok(999_999_999_999)),
    (b"1000000000000", OUT_OF_RANGE),
    (b"0", OUT_OF_RANGE),
];

static SHARES: [(&[u8], Count); 2] = [
    (b"1000000000000000000", Ok(Shares::MAX)),
    (b"1000000000000000001", OUT_OF_RANGE),
];

#[test]
fn counts(rt: HostRuntime) {
    for (text, wanted) in &QUANTITIES {
        let read = read_quantity(text).map(|quantity| quantity.shares());
        assert_same(&rt, &read, wanted);
    }
    for (text, wanted) in &SHARES {
        let read = Shares::read(text).map(|shares| shares.count());
        assert_same(&rt, &read, wanted);
    }
    assert!(rt; Shares::new(Shares::MAX + 1).is_none() && Quantity::new(0).is_none());
    let five = Quantity::new(5).map(|quantity| quantity.shares());
    assert_same(&rt, &five, &Some(5));
}

static MEMBERS: [(&[u8], Result<u16, ReadFault>); 3] = [
    (b"0042", Ok(42)),
    (b"9999", Ok(9999)),
    (b"10000", Err(ReadFault::OutOfRange)),
];

#[test]
fn members(rt: HostRuntime) {
    for (text, wanted) in &MEMBERS {
        let read = MemberNo::read(text).map(|member| member.number());
        assert_same(&rt, &read, wanted);
    }
    let last = MemberNo::new(9999).map(|member| member.number());
    assert!(rt; last == Some(9999) && MemberNo::new(0).is_none());
    assert_prints(&rt, rt.alloc(), &member_of(&rt, 42), "0042");
}

type Number = Result<u32, BadDate>;

const NO_DAY: Number = Err(BadDate);

static DAYS: [(&[u8], Number); 9] = [
    (b"2024-02-29", Ok(20_240_229)),
    (b"2025-02-29", NO_DAY),
    (b"2100-02-29", NO_DAY),
    (b"1899-12-31", NO_DAY),
    (b"2200-01-01", NO_DAY),
    (b"2025-13-01", NO_DAY),
    (b"2025-00-10", NO_DAY),
    (b"2025-3-04", NO_DAY),
    (b"20250304", NO_DAY),
];

#[test]
fn days(rt: HostRuntime) {
    for (text, wanted) in &DAYS {
        let read = Day::read(text).map(|day| day.number());
        assert_same(&rt, &read, wanted);
    }
    let first = Day::new(1900, 1, 1).map(|day| day.number());
    assert_same(&rt, &first, &Ok(19_000_101));
    assert_prints(&rt, rt.alloc(), &day_of(&rt, b"2024-02-29"), "2024-02-29");
}

// Whether each of these cycles is after those before it, and after no other.
fn are_in_order(cycles: &[CycleId]) -> bool {
    for (place, cycle) in cycles.iter().enumerate() {
        for (other_place, other) in cycles.iter().enumerate() {
            if cycle.is_after(*other) != (other_place < place) {
                return false;
            }
        }
    }
    true
}

#[test]
fn cycles(rt: HostRuntime) {
    let night = cycle_of(&rt, b"2025-03-03", CycleKind::Night);
    let day = cycle_of(&rt, b"2025-03-03", CycleKind::Day);
    let next = cycle_of(&rt, b"2025-03-04", CycleKind::Night);
    assert!(rt; are_in_order(&[night, day, next]));
    assert_prints(&rt, rt.alloc(), &CycleKind::Night, "NIGHT");
}
