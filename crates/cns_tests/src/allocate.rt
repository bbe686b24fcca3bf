ghost use Rattle.cns_allocate.specs.Plan.{LongsFit};

use crate::common::{
    AskedIn, DealtIn, Drawn, asks_of, assert_same, book_of, day_of, high_issue, low_issue,
    member_of, ticket_of, tickets_of,
};
use cns_allocate::{
    Group, Plan, Planned, Turn, Turns, are_served, by_start, deliveries, delivery_count, grants,
};
use cns_covers::Priorities;
use cns_movements::{Ask, MoveKind, OrderBook};
use cns_netting::NetBook;
use cns_pool::Tickets;
use std::alloc::Global;
use std::process::Abort;

mod serving;

// A member's number, the shares planned for it and its group.
type PlannedRow = (u16, u64, Group);

// Whether these members are planned, in their order.
fn are_planned(planned: &[Planned], wanted: &[PlannedRow]) -> bool {
    if planned.len() != wanted.len() {
        return false;
    }
    for (one, row) in planned.iter().zip(wanted) {
        if (one.member.number(), one.asked, one.group) != *row {
            return false;
        }
    }
    true
}

// Members 2 and 3 buy 30 each of the low issue, and member 2 buys 7 of the high one; member 1 sells
// all of them.
const TRADES: [DealtIn; 3] = [
    (true, (b"A1", 2, 1, 30)),
    (true, (b"A2", 3, 1, 30)),
    (false, (b"A3", 2, 1, 7)),
];

// Members 2 and 3 are long of 30 each in the low issue, and member 2 of 7 in the high one; member 1
// is short of all of them.
#[tactic(auto, using(cns_allocate::proofs::PlanLemmas::unsettled_longs))]
fn two_longs(rt: &impl Abort, alloc: Global) -> NetBook
    ensures { LongsFit result.history }
{
    let mut book = book_of(rt, alloc, TRADES);
    book.net(day_of(rt, b"2025-03-04")).expect(rt, "memory");
    assert!(rt; book.position(member_of(rt, 2), low_issue(rt)) == 30);
    book
}

// Member 3 has priority in the low issue, and member 2 in the high one.
fn two_priorities(rt: &impl Abort, alloc: Global) -> Priorities {
    let mut priorities = Priorities::new(alloc);
    let low = priorities.set(member_of(rt, 3), low_issue(rt), true);
    let high = priorities.set(member_of(rt, 2), high_issue(rt), true);
    assert!(rt; low.is_ok() && high.is_ok());
    priorities
}

// The plan of the low issue after these orders, with these priorities, where these members were long.
fn plan_of(
    rt: &impl Abort,
    alloc: Global,
    orders: &OrderBook,
    priorities: &Priorities,
    were_long: &[u16],
) -> Plan {
    let mut members = Vec::new(alloc);
    for number in were_long {
        members.push(member_of(rt, *number)).expect(rt, "memory");
    }
    let book = two_longs(rt, alloc);
    let issue = low_issue(rt);
    let plan = Plan::of(alloc, issue, &book, orders, priorities, members.as_slice());
    plan.expect(rt, "memory")
}

// Members 2 and 3 are in one group.
fn even_plan(rt: &impl Abort, alloc: Global) -> Plan {
    let (orders, priorities) = (OrderBook::new(alloc), Priorities::new(alloc));
    plan_of(rt, alloc, &orders, &priorities, &[])
}

// The plan after these orders, where these members were long.
fn plan_after(rt: &impl Abort, alloc: Global, issued: &[Ask], were_long: &[u16]) -> Plan {
    let mut orders = OrderBook::new(alloc);
    orders.issue(None, issued).expect(rt, "orders");
    let priorities = two_priorities(rt, alloc);
    plan_of(rt, alloc, &orders, &priorities, were_long)
}

// Member 3 has priority, and member 2 has not.
fn plan_without_orders(rt: &impl Abort, alloc: Global) -> Plan {
    plan_after(rt, alloc, &[], &[])
}

// Whether a member has priority, whether it was long, and its group.
static GROUPS: [(bool, bool, Group); 4] = [
    (true, true, Group::Priority),
    (true, false, Group::Priority),
    (false, true, Group::WasLong),
    (false, false, Group::Other),
];

#[test]
fn a_group_by_priority_then_by_being_long(rt: HostRuntime) {
    for (on, was_long, group) in &GROUPS {
        assert_same(&rt, &Group::of(*on, *was_long), group);
    }
    assert!(rt; Group::Priority < Group::WasLong && Group::WasLong < Group::Other);
}

// Orders, each with whether it is of the low issue; the members that were long, and who is planned.
type Plans = (&'static [AskedIn], &'static [u16], &'static [PlannedRow]);

const OPEN_DELIVERIES: &[AskedIn] = &[
    (true, (MoveKind::Delivery, 3, 12)),
    (false, (MoveKind::Delivery, 2, 7)),
    (true, (MoveKind::Cover, 2, 9)),
    (true, (MoveKind::Delivery, 3, 8)),
];

const ALL_OPEN: &[AskedIn] = &[(true, (MoveKind::Delivery, 3, 30))];

static PLANS: [Plans; 4] = [
    // Members with priority come first.
    (&[], &[], &[(3, 30, Group::Priority), (2, 30, Group::Other)]),
    // Members that were long come next.
    (
        &[],
        &[4, 2],
        &[(3, 30, Group::Priority), (2, 30, Group::WasLong)],
    ),
    // A delivery of the other issue, and a cover, take nothing off.
    (
        OPEN_DELIVERIES,
        &[],
        &[(3, 10, Group::Priority), (2, 30, Group::Other)],
    ),
    // A member with all its deliveries open is not planned.
    (ALL_OPEN, &[], &[(2, 30, Group::Other)]),
];

#[test]
fn plans_of_members(rt: HostRuntime) {
    for (place, (asked, were_long, wanted)) in PLANS.iter().enumerate() {
        let asks = asks_of(&rt, rt.alloc(), asked);
        let plan = plan_after(&rt, rt.alloc(), asks.as_slice(), were_long);
        assert!(rt; are_planned(plan.as_slice(), wanted), "plan {place}");
        assert!(rt; plan.len() == wanted.len() && !plan.is_empty());
        drop((asks, plan));
    }
}

const FIRST_TICKET: Drawn = (2, 0, 30);

const SECOND_TICKET: Drawn = (3, 30, 30);

// What was poured, and what the two tickets are granted of it.
static GRANTS: [(u64, [u64; 2]); 5] = [
    (0, [0, 0]),
    (20, [20, 0]),
    (40, [30, 10]),
    (60, [30, 30]),
    (90, [30, 30]),
];

#[test]
fn grants_are_the_shares_below_the_poured(rt: HostRuntime) {
    let tickets = [ticket_of(&rt, FIRST_TICKET), ticket_of(&rt, SECOND_TICKET)];
    for (poured, shares) in &GRANTS {
        let grants = grants(rt.alloc(), &tickets, *poured).expect(&rt, "memory");
        assert_same(&rt, &grants.as_slice(), &shares.as_slice());
        drop(grants);
    }
}

#[test]
fn tickets_by_their_starts(rt: HostRuntime) {
    let wanted = tickets_of(&rt, rt.alloc(), &[FIRST_TICKET, SECOND_TICKET, (4, 60, 5)]);
    let drawn = tickets_of(&rt, rt.alloc(), &[SECOND_TICKET, FIRST_TICKET, (4, 60, 5)]);
    let tickets = by_start(Tickets::from_vec(drawn));
    assert_same(&rt, &tickets.as_slice(), &wanted.as_slice());
    drop((wanted, tickets));
}

// Whether these members have these turns.
fn have_turns(rt: &impl Abort, turns: &Turns, wanted: &[(u16, Turn)]) -> bool {
    for (member, turn) in wanted {
        if turns.turn(member_of(rt, *member)) != *turn {
            return false;
        }
    }
    true
}

const NEXT: Turn = Turn::Next { asked: 30 };

// Member 3 has priority, member 2 has not, and member 4 is not planned.
static AT_FIRST: [(u16, Turn); 3] = [(2, Turn::EarlierGroup), (4, Turn::NotLong), (3, NEXT)];

static AFTER_ONE: [(u16, Turn); 2] = [(3, Turn::NotLong), (2, NEXT)];

fn new_turns(rt: &impl Abort, alloc: Global) -> Turns {
    let plan = plan_without_orders(rt, alloc);
    Turns::of(alloc, plan.as_slice()).expect(rt, "memory")
}

#[test]
fn a_later_group_waits_for_the_earlier_one(rt: HostRuntime) {
    let mut turns = new_turns(&rt, rt.alloc());
    assert!(rt; have_turns(&rt, &turns, &AT_FIRST));
    turns.serve(member_of(&rt, 3));
    assert!(rt; have_turns(&rt, &turns, &AFTER_ONE));
    assert!(rt; !turns.is_empty());
    turns.serve(member_of(&rt, 2));
    assert!(rt; turns.is_empty());
    drop(turns);
}

// Tickets, whether the lot is sealed, and whether a lot of the plan without orders may close with them.
static CLOSES: [(&[Drawn], bool, bool); 6] = [
    (&[(3, 0, 30), (2, 30, 30)], false, true),
    (&[(3, 0, 30)], true, true),
    // A later group first, a member without its ticket though nothing is sealed, a gap, and fewer shares
    // than were planned.
    (&[(2, 0, 30), (3, 30, 30)], false, false),
    (&[(3, 0, 30)], false, false),
    (&[(3, 0, 30), (2, 31, 30)], false, false),
    (&[(3, 0, 29)], true, false),
];

#[test]
fn tickets_that_a_lot_may_close_with(rt: HostRuntime) {
    let plan = plan_without_orders(&rt, rt.alloc());
    for (place, (rows, sealed, wanted)) in CLOSES.iter().enumerate() {
        let tickets = tickets_of(&rt, rt.alloc(), rows);
        let served = are_served(plan.as_slice(), &tickets, *sealed);
        assert!(rt; served == *wanted, "tickets {place}");
        drop(tickets);
    }
    drop(plan);
}

// What was poured, and the deliveries of the two tickets.
static DELIVERIES: [(u64, &[AskedIn]); 2] = [
    (
        40,
        &[
            (true, (MoveKind::Delivery, 2, 30)),
            (true, (MoveKind::Delivery, 3, 10)),
        ],
    ),
    (30, &[(true, (MoveKind::Delivery, 2, 30))]),
];

#[test]
fn deliveries_are_of_the_grants(rt: HostRuntime) {
    let tickets = [ticket_of(&rt, FIRST_TICKET), ticket_of(&rt, SECOND_TICKET)];
    for (poured, wanted) in &DELIVERIES {
        assert!(rt; delivery_count(&tickets, *poured) == wanted.len());
        let wanted = asks_of(&rt, rt.alloc(), wanted);
        let asks = deliveries(rt.alloc(), low_issue(&rt), &tickets, *poured);
        let asks = asks.expect(&rt, "memory");
        assert_same(&rt, &asks.as_slice(), &wanted.as_slice());
        drop((asks, wanted));
    }
}
