//! What several tests use.

use cns_depository::Openings;
use cns_ids::{Cusip, CycleId, CycleKind, Day, MemberNo, Quantity, Shares};
use cns_journal::{Keeper, ListKeeper, MAX_PAYLOAD};
use cns_movements::{Asked, MoveKind, MoveNo, Order, Reply};
use cns_pool::Ticket;
use cns_records::{Allocation, ClearRecord, DepRecord, Drawn, DrawnList, Instruction, Sort};
use cns_system::{Event, NodeName, System, Unopened};
use cns_trades::{Opening, Trade, TradeId};
use std::alloc::Global;
use std::fmt::Debug;
use std::process::Abort;

pub(crate) fn assert_same<T: PartialEq + Debug>(rt: &impl Abort, answer: &T, wanted: &T) {
    assert!(rt; answer == wanted, "{answer:?} and not {wanted:?}");
}

// ---- Plain data, and what it stands for.

pub(crate) type Text = &'static [u8];

// Two issues, in their order.
pub(crate) const APPLE: Text = b"037833100";

pub(crate) const MICROSOFT: Text = b"594918104";

// A trade that member 1 sells in the first issue: its name, its day, its buyer and its shares.
pub(crate) type Sale = (Text, Text, u16, u64);

// A member's ticket: the member, its first share and how many it asks for.
pub(crate) type Draw = (u16, u64, u64);

// An opening: its member, its issue and its shares.
pub(crate) type Opened = (u16, Text, u64);

// An order: its number, its kind, its member, its issue, and the shares that it asks for.
pub(crate) type Placed = (u64, MoveKind, u16, Text, u64);

pub(crate) fn issue_of(rt: &impl Abort, code: &[u8]) -> Cusip {
    Cusip::read(code).expect(rt, "an issue")
}

// The first issue.
pub(crate) fn apple(rt: &impl Abort) -> Cusip {
    issue_of(rt, APPLE)
}

pub(crate) fn member_of(rt: &impl Abort, number: u16) -> MemberNo {
    MemberNo::new(number).expect(rt, "a member's number")
}

pub(crate) fn shares_of(rt: &impl Abort, count: u64) -> Shares {
    Shares::new(count).expect(rt, "a count of shares")
}

pub(crate) fn asked_of(rt: &impl Abort, count: u64) -> Asked {
    Asked::new(count).expect(rt, "shares that are asked for")
}

pub(crate) fn number_of(rt: &impl Abort, number: u64) -> MoveNo {
    MoveNo::new(number).expect(rt, "a movement's number")
}

pub(crate) fn cycle_of(rt: &impl Abort, day: &[u8], kind: CycleKind) -> CycleId {
    let day = Day::read(day).expect(rt, "a day");
    CycleId { day, kind }
}

pub(crate) fn trade_of(rt: &impl Abort, sale: &Sale) -> Trade {
    let (id, day, buyer, count) = *sale;
    Trade {
        id: TradeId::read(id).expect(rt, "a trade's name"),
        settle: Day::read(day).expect(rt, "a day"),
        buyer: member_of(rt, buyer),
        seller: member_of(rt, 1),
        issue: apple(rt),
        quantity: Quantity::new(count).expect(rt, "a quantity"),
    }
}

// An order without a cycle.
pub(crate) fn order_of(rt: &impl Abort, placed: &Placed) -> Order {
    let (number, kind, member, code, count) = *placed;
    Order {
        number: number_of(rt, number),
        cycle: None,
        kind,
        member: member_of(rt, member),
        issue: issue_of(rt, code),
        asked: asked_of(rt, count),
    }
}

// An order of the cycle of this day and kind.
pub(crate) fn order_in(rt: &impl Abort, day: Text, kind: CycleKind, placed: &Placed) -> Order {
    let mut order = order_of(rt, placed);
    order.cycle = Some(cycle_of(rt, day, kind));
    order
}

// A member's own instruction: its sort, its member, its number, its issue and its shares.
pub(crate) type Given = (Sort, u16, u64, Text, u64);

pub(crate) fn instruction_of(rt: &impl Abort, given: &Given) -> Instruction {
    let (sort, member, number, code, shares) = given;
    Instruction {
        sort: *sort,
        member: member_of(rt, *member),
        number: number_of(rt, *number),
        issue: issue_of(rt, code),
        shares: Asked::new(*shares).expect(rt, "shares"),
    }
}

// The reply to the order of this number.
pub(crate) fn reply_of(rt: &impl Abort, number: u64, moved: u64) -> Reply {
    let number = number_of(rt, number);
    let moved = shares_of(rt, moved);
    Reply { number, moved }
}

pub(crate) fn opening_of(rt: &impl Abort, (member, code, count): Opened) -> Opening {
    Opening {
        member: member_of(rt, member),
        issue: issue_of(rt, code),
        shares: shares_of(rt, count),
    }
}

pub(crate) fn openings_of(rt: &impl Abort, alloc: Global, of: &[Opened]) -> Openings {
    let mut list = Openings::new(alloc);
    for opened in of {
        let opening = opening_of(rt, *opened);
        list.add(&opening).expect(rt, "an opening");
    }
    list
}

pub(crate) fn ticket_of(rt: &impl Abort, draw: &Draw) -> Ticket {
    let (number, start, asked) = *draw;
    Ticket {
        member: member_of(rt, number),
        start,
        asked,
    }
}

pub(crate) fn tickets_of(rt: &impl Abort, alloc: Global, draws: &[Draw]) -> Vec<Ticket> {
    let mut tickets = Vec::new(alloc);
    for draw in draws {
        tickets.push(ticket_of(rt, draw)).expect(rt, "memory");
    }
    tickets
}

// ---- Journals.

// A payload of the clearing node's journal.
pub(crate) enum Past {
    Accept(Sale),
    // Shares of member 1 in the first issue.
    Exempt(u64),
    // Of this member in it.
    Priority(u16),
    // The night cycle of a day.
    Cycle(Text),
    // The order's number, and the shares that were moved.
    Confirm(u64, u64),
    // A lot that was opened after so many records and last poured into after so many; its shares and tickets.
    Allocate(u64, u64, u64, &'static [Draw]),
    // The bytes of no record.
    Bytes(Text),
}

// A payload of the depository's journal.
pub(crate) enum DepotPast {
    // An order, and the shares that it moved.
    Moved(Placed, u64),
    // The bytes of no record.
    Bytes(Text),
}

fn drawn_of(rt: &impl Abort, alloc: Global, draws: &[Draw]) -> DrawnList {
    let mut list = Vec::new(alloc);
    for (member, start, asked) in draws {
        let member = member_of(rt, *member);
        let (start, asked) = (shares_of(rt, *start), asked_of(rt, *asked));
        let drawn = Drawn {
            member,
            start,
            asked,
        };
        list.push(drawn).expect(rt, "memory");
    }
    DrawnList::from_vec(list).expect(rt, "a list of tickets")
}

fn allocation_of(
    rt: &impl Abort,
    (opened, upto): (u64, u64),
    poured: u64,
    drawn: DrawnList,
) -> Allocation {
    Allocation {
        issue: apple(rt),
        opened,
        upto,
        poured: shares_of(rt, poured),
        sealed: false,
        drawn,
    }
}

fn exempt_of(rt: &impl Abort, count: u64) -> ClearRecord {
    let (member, issue, shares) = (member_of(rt, 1), apple(rt), shares_of(rt, count));
    ClearRecord::Exempt {
        member,
        issue,
        shares,
    }
}

fn priority_of(rt: &impl Abort, member: u16) -> ClearRecord {
    let (member, issue, on) = (member_of(rt, member), apple(rt), true);
    ClearRecord::Priority { member, issue, on }
}

fn written(rt: &impl Abort, alloc: Global, entry: ClearRecord) -> Vec<u8> {
    let payload = entry.write(alloc).expect(rt, "memory");
    drop(entry);
    payload
}

fn payload_of(rt: &impl Abort, alloc: Global, past: &Past) -> Vec<u8> {
    let entry = match past {
        Past::Accept(sale) => ClearRecord::Accept(trade_of(rt, sale)),
        Past::Exempt(count) => exempt_of(rt, *count),
        Past::Priority(member) => priority_of(rt, *member),
        Past::Cycle(day) => ClearRecord::Cycle(cycle_of(rt, day, CycleKind::Night)),
        Past::Confirm(number, moved) => ClearRecord::Confirm(reply_of(rt, *number, *moved)),
        Past::Allocate(opened, upto, poured, draws) => {
            let drawn = drawn_of(rt, alloc, draws);
            ClearRecord::Allocate(allocation_of(rt, (*opened, *upto), *poured, drawn))
        }
        Past::Bytes(bytes) => return Vec::from_slice(alloc, bytes).expect(rt, "memory"),
    };
    written(rt, alloc, entry)
}

fn depot_payload_of(rt: &impl Abort, alloc: Global, past: &DepotPast) -> Vec<u8> {
    match past {
        DepotPast::Moved(placed, moved) => {
            let (order, moved) = (order_of(rt, placed), shares_of(rt, *moved));
            DepRecord::Exec { order, moved }
                .write(alloc)
                .expect(rt, "memory")
        }
        DepotPast::Bytes(bytes) => Vec::from_slice(alloc, bytes).expect(rt, "memory"),
    }
}

fn add(rt: &impl Abort, keeper: &mut ListKeeper, payload: &[u8]) {
    assert!(rt; payload.len() <= MAX_PAYLOAD && keeper.commit(payload).is_ok());
}

fn add_past(rt: &impl Abort, alloc: Global, keeper: &mut ListKeeper, past: &[Past]) {
    for entry in past {
        add(rt, keeper, &payload_of(rt, alloc, entry));
    }
}

// A keeper of the clearing node with these payloads, and then these.
pub(crate) fn keeper_of(
    rt: &impl Abort,
    alloc: Global,
    past: &[Past],
    last: &[Past],
) -> ListKeeper {
    let mut keeper = ListKeeper::new(alloc);
    add_past(rt, alloc, &mut keeper, past);
    add_past(rt, alloc, &mut keeper, last);
    keeper
}

// A keeper of the depository with these payloads.
pub(crate) fn depot_keeper_of(rt: &impl Abort, alloc: Global, past: &[DepotPast]) -> ListKeeper {
    let mut keeper = ListKeeper::new(alloc);
    for entry in past {
        add(rt, &mut keeper, &depot_payload_of(rt, alloc, entry));
    }
    keeper
}

// ---- Both nodes, and what happens to them.

pub(crate) type Both = System<ListKeeper, ListKeeper>;

// The keepers of both nodes, the clearing node's first.
pub(crate) type Keepers = (ListKeeper, ListKeeper);

// What these keepers' journals open, where member 1 has so many shares.
pub(crate) fn open_both(
    rt: &impl Abort,
    alloc: Global,
    (clear, depot): Keepers,
    count: u64,
) -> Result<Both, Unopened<ListKeeper, ListKeeper>> {
    let openings = openings_of(rt, alloc, &[(1, APPLE, count)]);
    System::open(alloc, clear, depot, openings)
}

// The same, which opens.
pub(crate) fn both_of(rt: &impl Abort, alloc: Global, keepers: Keepers, count: u64) -> Both {
    match open_both(rt, alloc, keepers, count) {
        Ok(both) => both,
        Err(refused) => panic!(rt; "not opened: {}", refused.fault),
    }
}

// Nodes with no records, where member 1 has so many shares.
pub(crate) fn new_both(rt: &impl Abort, alloc: Global, count: u64) -> Both {
    let keepers = (ListKeeper::new(alloc), ListKeeper::new(alloc));
    both_of(rt, alloc, keepers, count)
}

// The day on which the trades of events settle.
pub(crate) const TUESDAY: Text = b"2025-03-04";

// An event.
pub(crate) enum Deed {
    // Member 1 sells 30 shares to this member, by the trade of this name.
    Sell(Text, u16),
    // Shares of member 1.
    Exempt(u64),
    // Of this member.
    Priority(u16),
    // The night cycle of the day on which the trades settle.
    Cycle,
    LotOpen,
    LotPour(u64),
    // The lot and the member.
    Reserve(u64, u16),
    LookPoured(u64),
    LookAsked(u64),
    Seal(u64),
    LotClose(u64),
    Send(u64),
    OrderIn(u64),
    ReplyIn(u64),
    Own(Given),
    Restart(NodeName),
}

fn exemption_of(rt: &impl Abort, count: u64) -> Event {
    Event::Exempt {
        member: member_of(rt, 1),
        issue: apple(rt),
        shares: shares_of(rt, count),
    }
}

pub(crate) fn event_of(rt: &impl Abort, deed: &Deed) -> Event {
    match deed {
        Deed::Sell(id, buyer) => Event::Trade(trade_of(rt, &(id, TUESDAY, *buyer, 30))),
        Deed::Exempt(count) => exemption_of(rt, *count),
        Deed::Priority(of) => {
            let (member, issue, on) = (member_of(rt, *of), apple(rt), true);
            Event::Priority { member, issue, on }
        }
        Deed::Cycle => Event::Cycle(cycle_of(rt, TUESDAY, CycleKind::Night)),
        Deed::LotOpen => Event::LotOpen { issue: apple(rt) },
        Deed::LotPour(lot) => Event::LotPour { lot: *lot },
        Deed::Reserve(lot, of) => {
            let (lot, member) = (*lot, member_of(rt, *of));
            Event::Reserve { lot, member }
        }
        Deed::LookPoured(lot) => Event::LookPoured { lot: *lot },
        Deed::LookAsked(lot) => Event::LookAsked { lot: *lot },
        Deed::Seal(lot) => Event::Seal { lot: *lot },
        Deed::LotClose(lot) => Event::LotClose { lot: *lot },
        Deed::Send(number) => Event::Send { number: *number },
        Deed::OrderIn(packet) => Event::OrderIn { packet: *packet },
        Deed::ReplyIn(packet) => Event::ReplyIn { packet: *packet },
        Deed::Own(given) => Event::Own(instruction_of(rt, given)),
        Deed::Restart(node) => Event::Restart(*node),
    }
}
