use crate::common::{
    assert_prints, assert_same, cycle_of, low_issue, member_of, number_of, order_in_cycle,
    order_of, reply_of, shares_of, trade_of,
};
use cns_ids::CycleKind;
use cns_journal::RecordFault;
use cns_movements::{Asked, MoveKind};
use cns_records::{
    Allocation, BadRecord, ClearRecord, DepRecord, Drawn, DrawnList, Instruction, MAX_DRAWN,
    Refusal, Sort,
};
use cns_trades::{Trade, Verdict};
use std::alloc::Global;
use std::process::Abort;

const CONFIRM: [u8; 18] = [1, 6, 0, 0, 0, 0, 0, 0, 0, 1, 0, 0, 0, 0, 0, 0, 0, 20];

// Order 7, a cover of member 1 in 037833100, asks 60; 20 are moved.
static EXEC: [u8; 38] = [
    1, 7, 1, 0, 0, 0, 0, 0, 0, 0, 7, 0, 1, 0x30, 0x33, 0x37, 0x38, 0x33, 0x33, 0x31, 0x30, 0x30, 0,
    0, 0, 0, 0, 0, 0, 60, 0, 0, 0, 0, 0, 0, 0, 20,
];

// The same of the night cycle of 2025-03-04.
static EXEC_2: [u8; 43] = [
    2, 7, 1, 0, 0, 0, 0, 0, 0, 0, 7, 0x07, 0xe9, 3, 4, 0, 0, 1, 0x30, 0x33, 0x37, 0x38, 0x33, 0x33,
    0x31, 0x30, 0x30, 0, 0, 0, 0, 0, 0, 0, 60, 0, 0, 0, 0, 0, 0, 0, 20,
];

// Member 1 brings 15 shares of 037833100, by its instruction 5.
static OWN: [u8; 30] = [
    2, 8, 1, 0, 1, 0, 0, 0, 0, 0, 0, 0, 5, 0x30, 0x33, 0x37, 0x38, 0x33, 0x33, 0x31, 0x30, 0x30, 0,
    0, 0, 0, 0, 0, 0, 15,
];

// Trade A1 of 2025-03-04: member 2 buys 100 shares of 037833100 from member 1.
const ACCEPT: [u8; 30] = [
    1, 1, 2, 0x41, 0x31, 0x07, 0xe9, 3, 4, 0, 2, 0, 1, 0x30, 0x33, 0x37, 0x38, 0x33, 0x33, 0x31,
    0x30, 0x30, 0, 0, 0, 0, 0, 0, 0, 100,
];

const EXEMPT: [u8; 21] = [
    1, 2, 0, 1, 0x30, 0x33, 0x37, 0x38, 0x33, 0x33, 0x31, 0x30, 0x30, 0, 0, 0, 0, 0, 0, 0, 25,
];

const PRIORITY: [u8; 14] = [
    1, 3, 0x27, 0x0f, 0x30, 0x33, 0x37, 0x38, 0x33, 0x33, 0x31, 0x30, 0x30, 1,
];

const CYCLE: [u8; 7] = [1, 4, 0x07, 0xe9, 3, 4, 1];

// The lot of 037833100 that was opened after 3 records and poured into until 5 stood: 100 shares,
// sealed. Member 1 drew 60 shares from 0 on, member 2 drew 40 from 60 on.
static ALLOCATE: [u8; 76] = [
    1, 5, 0x30, 0x33, 0x37, 0x38, 0x33, 0x33, 0x31, 0x30, 0x30, 0, 0, 0, 0, 0, 0, 0, 3, 0, 0, 0, 0,
    0, 0, 0, 5, 0, 0, 0, 0, 0, 0, 0, 100, 1, 0, 0, 0, 2, 0, 1, 0, 0, 0, 0, 0, 0, 0, 0, 0, 0, 0, 0,
    0, 0, 0, 60, 0, 2, 0, 0, 0, 0, 0, 0, 0, 60, 0, 0, 0, 0, 0, 0, 0, 40,
];

// Where its tickets begin, and the bytes of each.
const TICKETS: usize = 40;

const TICKET_LEN: usize = 18;

// The payload is no record of the clearing node.
fn assert_bad(rt: &impl Abort, alloc: Global, payload: &[u8]) {
    let fault = ClearRecord::read(alloc, payload).err();
    assert_same(rt, &fault, &Some(RecordFault::BadRecord));
}

// The payload is no record of the depository.
fn assert_exec_bad(rt: &impl Abort, payload: &[u8]) {
    assert_same(rt, &DepRecord::read(payload), &Err(BadRecord));
}

// The payload with another byte in this place.
fn changed(rt: &impl Abort, alloc: Global, payload: &[u8], place: usize, byte: u8) -> Vec<u8> {
    let mut bytes = Vec::from_slice(alloc, payload).expect(rt, "memory");
    if let Some(slot) = bytes.get_mut(place) {
        *slot = byte;
    }
    bytes
}

// The payload with one more byte.
fn longer(rt: &impl Abort, alloc: Global, payload: &[u8]) -> Vec<u8> {
    [payload, [0].as_slice()].concat(alloc).expect(rt, "memory")
}

// The payload is bad with this byte in this place.
fn assert_change_bad(rt: &impl Abort, alloc: Global, payload: &[u8], place: usize, byte: u8) {
    assert_bad(rt, alloc, &changed(rt, alloc, payload, place, byte));
}

fn assert_longer_bad(rt: &impl Abort, alloc: Global, payload: &[u8]) {
    assert_bad(rt, alloc, &longer(rt, alloc, payload));
}

fn payload_of(rt: &impl Abort, alloc: Global, entry: &ClearRecord) -> Vec<u8> {
    entry.write(alloc).expect(rt, "memory")
}

// The payload is read as this record.
fn assert_reads(rt: &impl Abort, alloc: Global, payload: &[u8], wanted: &ClearRecord) {
    let entry = ClearRecord::read(alloc, payload).expect(rt, "a record");
    assert_same(rt, &entry, wanted);
}

// The record has this payload, and nothing shorter is a record.
fn assert_both_ways(rt: &impl Abort, alloc: Global, entry: ClearRecord, payload: &[u8]) {
    let written = payload_of(rt, alloc, &entry);
    assert_same(rt, &written.as_slice(), &payload);
    assert_reads(rt, alloc, payload, &entry);
    drop((written, entry));
    for len in 0..payload.len() {
        assert_bad(rt, alloc, &payload[..len]);
    }
}

// What is written of the record is not read.
fn assert_not_read(rt: &impl Abort, alloc: Global, entry: &ClearRecord) {
    assert_bad(rt, alloc, &payload_of(rt, alloc, entry));
}

// The trade A1.
fn trade(rt: &impl Abort) -> Trade {
    trade_of(rt, low_issue(rt), (b"A1", 2, 1, 100))
}

fn exempt(rt: &impl Abort) -> ClearRecord {
    let (member, issue, shares) = (member_of(rt, 1), low_issue(rt), shares_of(rt, 25));
    ClearRecord::Exempt {
        member,
        issue,
        shares,
    }
}

fn priority(rt: &impl Abort) -> ClearRecord {
    let (member, issue, on) = (member_of(rt, 9999), low_issue(rt), true);
    ClearRecord::Priority { member, issue, on }
}

#[test]
fn clearing_records_both_ways(rt: HostRuntime) {
    let alloc = rt.alloc();
    let cycle = cycle_of(&rt, b"2025-03-04", CycleKind::Day);
    let confirmed = reply_of(&rt, 1, 20);
    assert_both_ways(&rt, alloc, ClearRecord::Accept(trade(&rt)), &ACCEPT);
    assert_both_ways(&rt, alloc, exempt(&rt), &EXEMPT);
    assert_both_ways(&rt, alloc, priority(&rt), &PRIORITY);
    assert_both_ways(&rt, alloc, ClearRecord::Cycle(cycle), &CYCLE);
    assert_both_ways(&rt, alloc, ClearRecord::Confirm(confirmed), &CONFIRM);
}

// A ticket's member, start and shares.
fn ticket(rt: &impl Abort, number: u16, start: u64, count: u64) -> Drawn {
    Drawn {
        member: member_of(rt, number),
        start: shares_of(rt, start),
        asked: Asked::new(count).expect(rt, "shares that are asked for"),
    }
}

// The first tickets of the lot, so many of them.
fn drawn(rt: &impl Abort, alloc: Global, count: usize) -> DrawnList {
    let tickets = [ticket(rt, 1, 0, 60), ticket(rt, 2, 60, 40)];
    let first = &tickets[..count.min(2)];
    let first = Vec::from_slice(alloc, first).expect(rt, "memory");
    DrawnList::from_vec(first).expect(rt, "a list of tickets")
}

// The lot with these tickets.
fn allocation(rt: &impl Abort, drawn: DrawnList) -> Allocation {
    Allocation {
        issue: low_issue(rt),
        opened: 3,
        upto: 5,
        poured: shares_of(rt, 100),
        sealed: true,
        drawn,
    }
}

// The lot with so many of its tickets has this payload.
fn assert_allocation(rt: &impl Abort, alloc: Global, count: usize, payload: &[u8]) {
    let entry = ClearRecord::Allocate(allocation(rt, drawn(rt, alloc, count)));
    assert_both_ways(rt, alloc, entry, payload);
}

#[test]
fn allocations_both_ways(rt: HostRuntime) {
    for count in 0..3 {
        let whole = &ALLOCATE[..TICKETS + count * TICKET_LEN];
        let payload = changed(&rt, rt.alloc(), whole, TICKETS - 1, count as u8);
        assert_allocation(&rt, rt.alloc(), count, &payload);
    }
}

// A place in the payload, and a byte that is bad there.
static BAD_IN_ALLOCATE: [(usize, u8); 14] = [
    (2, 0x31),
    (18, 6),
    (26, 2),
    (27, 14),
    (35, 2),
    (36, 0xff),
    (39, 1),
    (39, 3),
    (41, 0),
    (40, 0x28),
    (49, 61),
    (50, 14),
    (57, 0),
    (60, 14),
];

// The same in an allocation of 99 tickets: opened after its last pour, a ticket left over, one too
// few, the last two out of order, and of the last one the member and the shares.
static BAD_IN_99_TICKETS: [(usize, u8); 6] = [
    (18, 6),
    (39, 98),
    (39, 100),
    (1795, 1),
    (1805, 0),
    (1821, 0),
];

// The payload is bad with each of these bytes in its place, with one byte more, and with one less.
fn assert_changes_bad(rt: &impl Abort, alloc: Global, payload: &[u8], changes: &[(usize, u8)]) {
    for (place, byte) in changes {
        assert_change_bad(rt, alloc, payload, *place, *byte);
    }
    assert_longer_bad(rt, alloc, payload);
    assert_bad(rt, alloc, &payload[..payload.len().saturating_sub(1)]);
}

#[test]
fn bad_allocations(rt: HostRuntime) {
    assert_changes_bad(&rt, rt.alloc(), &ALLOCATE, &BAD_IN_ALLOCATE);
    let payload = many(&rt, rt.alloc(), 99);
    assert_changes_bad(&rt, rt.alloc(), &payload, &BAD_IN_99_TICKETS);
}

// An allocation with a ticket of one share so many times.
fn many(rt: &impl Abort, alloc: Global, count: u16) -> Vec<u8> {
    let ticket = [0, 1, 0, 0, 0, 0, 0, 0, 0, 0, 0, 0, 0, 0, 0, 0, 0, 1];
    let tickets = ticket
        .repeat(alloc, usize::from(count))
        .expect(rt, "memory");
    let head = &ALLOCATE[..TICKETS - 2];
    [head, &count.to_be_bytes(), &tickets]
        .concat(alloc)
        .expect(rt, "memory")
}

// Its tickets.
fn many_drawn(rt: &impl Abort, alloc: Global, count: usize) -> Option<DrawnList> {
    let tickets = Vec::from_elem(alloc, ticket(rt, 1, 0, 1), count);
    DrawnList::from_vec(tickets.expect(rt, "memory"))
}

#[test]
fn most_tickets(rt: HostRuntime) {
    let most = many_drawn(&rt, rt.alloc(), MAX_DRAWN).expect(&rt, "9,999 tickets");
    assert_same(&rt, &most.len(), &9_999);
    let entry = ClearRecord::Allocate(allocation(&rt, most));
    let payload = many(&rt, rt.alloc(), 9_999);
    assert_reads(&rt, rt.alloc(), &payload, &entry);
}

#[test]
fn too_many_tickets(rt: HostRuntime) {
    assert_bad(&rt, rt.alloc(), &many(&rt, rt.alloc(), 10_000));
    assert_same(&rt, &many_drawn(&rt, rt.alloc(), 10_000), &None);
}

// The execution of the order, by the shares that it moved.
fn execution(rt: &impl Abort, moved: u64) -> DepRecord {
    let order = order_of(rt, 7, (MoveKind::Cover, 1, 60));
    let moved = shares_of(rt, moved);
    DepRecord::Exec { order, moved }
}

fn assert_exec_change_bad(rt: &impl Abort, alloc: Global, place: usize, byte: u8) {
    assert_exec_bad(rt, &changed(rt, alloc, &EXEC, place, byte));
}

fn exec_payload(rt: &impl Abort, alloc: Global, moved: u64) -> Vec<u8> {
    let exec = execution(rt, moved);
    exec.write(alloc).expect(rt, "memory")
}

#[test]
fn depository_records_both_ways(rt: HostRuntime) {
    let payload = exec_payload(&rt, rt.alloc(), 20);
    assert_same(&rt, &payload.as_slice(), &EXEC.as_slice());
    assert_same(&rt, &DepRecord::read(&EXEC), &Ok(execution(&rt, 20)));
    for len in 0..EXEC.len() {
        assert_exec_bad(&rt, &EXEC[..len]);
    }
}

#[test]
fn executions_of_a_cycle_both_ways(rt: HostRuntime) {
    let order = order_in_cycle(&rt, 7, (MoveKind::Cover, 1, 60), CycleKind::Night);
    let moved = shares_of(&rt, 20);
    let exec = DepRecord::Exec { order, moved };
    let payload = exec.write(rt.alloc()).expect(&rt, "memory");
    assert_same(&rt, &payload.as_slice(), &EXEC_2.as_slice());
    assert_same(&rt, &DepRecord::read(&EXEC_2), &Ok(exec));
    for len in 0..EXEC_2.len() {
        assert_exec_bad(&rt, &EXEC_2[..len]);
    }
    for (place, byte) in [(0, 1), (0, 3), (1, 6), (11, 0), (13, 13), (15, 2), (42, 61)] {
        assert_exec_bad(&rt, &changed(&rt, rt.alloc(), &EXEC_2, place, byte));
    }
    assert_bad(&rt, rt.alloc(), &EXEC_2);
}

// An instruction of a sort, for the fifteen shares.
fn own(rt: &impl Abort, sort: Sort) -> DepRecord {
    DepRecord::Own(Instruction {
        sort,
        member: member_of(rt, 1),
        number: number_of(rt, 5),
        issue: low_issue(rt),
        shares: Asked::new(15).expect(rt, "shares"),
    })
}

#[test]
fn instructions_both_ways(rt: HostRuntime) {
    let payload = own(&rt, Sort::Deposit)
        .write(rt.alloc())
        .expect(&rt, "memory");
    assert_same(&rt, &payload.as_slice(), &OWN.as_slice());
    assert_same(&rt, &DepRecord::read(&OWN), &Ok(own(&rt, Sort::Deposit)));
    let withdrawal = changed(&rt, rt.alloc(), &OWN, 2, 2);
    assert_same(
        &rt,
        &DepRecord::read(&withdrawal),
        &Ok(own(&rt, Sort::Withdraw)),
    );
    for len in 0..OWN.len() {
        assert_exec_bad(&rt, &OWN[..len]);
    }
    assert_exec_bad(&rt, &longer(&rt, rt.alloc(), &OWN));
    for (place, byte) in [
        (0, 1),
        (0, 3),
        (1, 7),
        (1, 9),
        (2, 0),
        (2, 3),
        (4, 0),
        (12, 0),
        (21, 1),
        (22, 14),
        (29, 0),
    ] {
        assert_exec_bad(&rt, &changed(&rt, rt.alloc(), &OWN, place, byte));
    }
    assert_bad(&rt, rt.alloc(), &OWN);
}

// A payload, a place in it, and a byte that is bad there.
static BAD_IN_CLEARING: [(&[u8], usize, u8); 21] = [
    (&CONFIRM, 0, 2),
    (&CONFIRM, 1, 5),
    (&CONFIRM, 1, 7),
    (&CONFIRM, 1, 9),
    (&CONFIRM, 9, 0),
    (&CONFIRM, 6, 1),
    (&CONFIRM, 10, 14),
    (&ACCEPT, 2, 0),
    (&ACCEPT, 2, 17),
    (&ACCEPT, 3, 0x61),
    (&ACCEPT, 6, 0x6b),
    (&ACCEPT, 7, 13),
    (&ACCEPT, 8, 32),
    (&ACCEPT, 10, 1),
    (&ACCEPT, 11, 0x28),
    (&ACCEPT, 21, 0x31),
    (&ACCEPT, 29, 0),
    (&EXEMPT, 3, 0),
    (&EXEMPT, 13, 14),
    (&PRIORITY, 13, 2),
    (&CYCLE, 6, 2),
];

#[test]
fn bad_clearing_payloads(rt: HostRuntime) {
    for (payload, place, byte) in &BAD_IN_CLEARING {
        assert_change_bad(&rt, rt.alloc(), payload, *place, *byte);
    }
    assert_longer_bad(&rt, rt.alloc(), &CONFIRM);
    assert_bad(&rt, rt.alloc(), &[1, 9]);
    assert_bad(&rt, rt.alloc(), &EXEC);
}

static BAD_IN_EXEC: [(usize, u8); 7] = [(0, 2), (1, 6), (2, 0), (2, 3), (10, 0), (29, 0), (37, 61)];

#[test]
fn bad_depository_payloads(rt: HostRuntime) {
    for (place, byte) in &BAD_IN_EXEC {
        assert_exec_change_bad(&rt, rt.alloc(), *place, *byte);
    }
    assert_exec_bad(&rt, &longer(&rt, rt.alloc(), &EXEC));
    assert_exec_bad(&rt, &CONFIRM);
}

#[test]
fn what_is_written_and_not_read(rt: HostRuntime) {
    let mut own = trade(&rt);
    own.seller = own.buyer;
    assert_not_read(&rt, rt.alloc(), &ClearRecord::Accept(own));
    assert_exec_bad(&rt, &exec_payload(&rt, rt.alloc(), 61));
}

#[test]
fn lot_opened_after_its_last_pour(rt: HostRuntime) {
    let mut early = allocation(&rt, drawn(&rt, rt.alloc(), 0));
    early.upto = 2;
    early.sealed = false;
    assert_not_read(&rt, rt.alloc(), &ClearRecord::Allocate(early));
}

#[test]
fn what_faults_say(rt: HostRuntime) {
    let (bad, no_memory) = (RecordFault::BadRecord, RecordFault::OutOfMemory);
    assert_prints(&rt, rt.alloc(), &BadRecord, "not a journal record");
    assert_prints(&rt, rt.alloc(), &bad, "not a journal record");
    assert_prints(&rt, rt.alloc(), &no_memory, "out of memory");
}

static REFUSALS: [Refusal; 24] = [
    Refusal::Down,
    Refusal::Trade(Verdict::Full),
    Refusal::CycleOrder,
    Refusal::NumbersSpent,
    Refusal::UnknownMove,
    Refusal::NoPacket,
    Refusal::Conflict,
    Refusal::TooMuch,
    Refusal::IssueSum,
    Refusal::TooFew,
    Refusal::BadJournal { place: 7 },
    Refusal::OutOfMemory,
    Refusal::Device,
    Refusal::LotsOpen,
    Refusal::LotAlready,
    Refusal::LotsSpent,
    Refusal::NoLot,
    Refusal::StaleLot,
    Refusal::LotBusy,
    Refusal::NotLong,
    Refusal::EarlierGroup,
    Refusal::Sealed,
    Refusal::Unserved,
    Refusal::BadTickets,
];

// What they say, each in its place.
static SAID: [&str; 24] = [
    "the node is down",
    "the trade is not new",
    "the cycle is not later than the latest one",
    "movement numbers are spent",
    "no order has this number",
    "the link has no packet of this number",
    "another order, confirmation or instruction has this number",
    "the shares are more than the order asked for",
    "the shares of the issue would pass 10^18",
    "the account has fewer shares",
    "record 7 of the journal is bad",
    "out of memory",
    "the journal's device failed",
    "a lot is open",
    "a lot of the issue is open",
    "the numbers of lots are spent",
    "there is no such lot",
    "the lot has ended",
    "the lot is being served",
    "the member is not to receive shares of the lot",
    "a member of an earlier group has no ticket yet",
    "the lot is sealed",
    "a member of the plan has no ticket yet",
    "the tickets do not serve the plan of the lot",
];

#[test]
fn what_refusals_say(rt: HostRuntime) {
    for (refusal, words) in REFUSALS.iter().zip(&SAID) {
        assert_prints(&rt, rt.alloc(), refusal, words);
    }
}
