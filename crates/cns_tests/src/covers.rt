use crate::common::{
    AskedIn, DealtIn, asks_of, assert_same, book_of, day_of, high_issue, issue_in, low_issue,
    member_of, shares_of,
};
use cns_covers::{Exemptions, Priorities, covers};
use cns_ids::Day;
use cns_movements::{Ask, MoveKind, OrderBook};
use std::alloc::Global;
use std::process::Abort;

// Member 3 buys 50 from member 1 and member 1 buys 10 from member 2 in the high issue, and member 2
// buys 60 from member 1 in the low one: member 1 is short of 60 and 40, member 2 of 10.
const TRADES: [DealtIn; 3] = [
    (false, (b"A1", 1, 2, 10)),
    (false, (b"A2", 3, 1, 50)),
    (true, (b"A3", 2, 1, 60)),
];

// An exemption: whether it is of the low issue or of the high one, its member and its shares.
type Exempted = (bool, u16, u64);

fn exemptions_of(rt: &impl Abort, alloc: Global, exempted: &[Exempted]) -> Exemptions {
    let mut exemptions = Exemptions::new(alloc);
    for (in_low, member, count) in exempted {
        let (issue, member) = (issue_in(rt, *in_low), member_of(rt, *member));
        let room = exemptions.set_room(member, issue, shares_of(rt, *count));
        room.expect(rt, "memory");
        let set = exemptions.set(member, issue, shares_of(rt, *count));
        set.expect(rt, "memory");
    }
    exemptions
}

// What a cycle of this date would cover after these exemptions and orders.
#[tactic(auto, using(cns_covers::proofs::CoverLemmas::shorts_fit_netted))]
fn covers_after(
    rt: &impl Abort,
    alloc: Global,
    day: Day,
    exemptions: &Exemptions,
    issued: &[Ask],
) -> Vec<Ask> {
    let book = book_of(rt, alloc, TRADES);
    let mut orders = OrderBook::new(alloc);
    orders.issue(None, issued).expect(rt, "orders");
    let asks = covers(alloc, &book, day, &orders, exemptions);
    drop((book, orders));
    asks.expect(rt, "memory")
}

// The date of a cycle, the exemptions and orders before it, and the covers that it would ask for.
type Case = (
    &'static [u8],
    &'static [Exempted],
    &'static [AskedIn],
    &'static [AskedIn],
);

static CASES: [Case; 4] = [
    (b"2025-03-03", &[], &[], &[]),
    // Covers are due shorts, by issue and then member.
    (
        b"2025-03-04",
        &[],
        &[],
        &[
            (true, (MoveKind::Cover, 1, 60)),
            (false, (MoveKind::Cover, 1, 40)),
            (false, (MoveKind::Cover, 2, 10)),
        ],
    ),
    // Exemptions cover a part, all, or more.
    (
        b"2025-03-04",
        &[(true, 1, 25), (false, 1, 40), (false, 2, 100)],
        &[],
        &[(true, (MoveKind::Cover, 1, 35))],
    ),
    // A delivery and the cover of a member that is long take nothing off.
    (
        b"2025-03-04",
        &[(true, 1, 25)],
        &[
            (true, (MoveKind::Cover, 1, 35)),
            (false, (MoveKind::Delivery, 1, 5)),
            (false, (MoveKind::Cover, 3, 7)),
            (false, (MoveKind::Cover, 2, 4)),
        ],
        &[
            (false, (MoveKind::Cover, 1, 40)),
            (false, (MoveKind::Cover, 2, 6)),
        ],
    ),
];

fn see(rt: &impl Abort, alloc: Global, case: &Case) {
    let (day, exempted, issued, wanted) = *case;
    let exemptions = exemptions_of(rt, alloc, exempted);
    let (issued, wanted) = (asks_of(rt, alloc, issued), asks_of(rt, alloc, wanted));
    let asks = covers_after(rt, alloc, day_of(rt, day), &exemptions, issued.as_slice());
    assert_same(rt, &asks.as_slice(), &wanted.as_slice());
    drop((exemptions, issued, wanted, asks));
}

#[test]
fn covers_of_a_cycle(rt: HostRuntime) {
    for case in &CASES {
        see(&rt, rt.alloc(), case);
    }
}

// Exemptions that are set, and what is exempt then.
static SETTINGS: [(&[Exempted], &[Exempted]); 2] = [
    (
        &[(true, 1, 25), (true, 2, 7), (false, 1, 8)],
        &[(true, 1, 25), (true, 2, 7), (false, 1, 8), (false, 2, 0)],
    ),
    // It stands until it is replaced.
    (
        &[(true, 1, 25), (true, 2, 7), (true, 1, 30), (true, 2, 0)],
        &[(true, 1, 30), (true, 2, 0), (false, 1, 0)],
    ),
];

fn see_exempted(rt: &impl Abort, exemptions: &Exemptions, wanted: &[Exempted]) {
    for (in_low, member, count) in wanted {
        let exempted = exemptions.get(member_of(rt, *member), issue_in(rt, *in_low));
        assert_same(rt, &exempted.count(), count);
    }
}

#[test]
fn an_exemption_stands_until_it_is_replaced(rt: HostRuntime) {
    for (exempted, wanted) in &SETTINGS {
        let exemptions = exemptions_of(&rt, rt.alloc(), exempted);
        see_exempted(&rt, &exemptions, wanted);
        drop(exemptions);
    }
}

// A priority that is set or taken back, and the members that then have one: 1 and 2 in the low issue, and
// in the high one.
static PRIORITIES: [((bool, u16, bool), [bool; 4]); 4] = [
    ((true, 1, true), [true, false, false, false]),
    ((false, 2, true), [true, false, false, true]),
    ((false, 2, false), [true, false, false, false]),
    ((true, 1, false), [false, false, false, false]),
];

fn prioritized(rt: &impl Abort, priorities: &Priorities) -> [bool; 4] {
    let (low, high) = (low_issue(rt), high_issue(rt));
    let (one, two) = (member_of(rt, 1), member_of(rt, 2));
    [
        priorities.get(one, low),
        priorities.get(two, low),
        priorities.get(one, high),
        priorities.get(two, high),
    ]
}

#[test]
fn a_priority_stands_until_it_is_set_again(rt: HostRuntime) {
    let mut priorities = Priorities::new(rt.alloc());
    for ((in_low, member, on), wanted) in &PRIORITIES {
        let (issue, member) = (issue_in(&rt, *in_low), member_of(&rt, *member));
        priorities
            .set_room(member, issue, *on)
            .expect(&rt, "memory");
        priorities.set(member, issue, *on).expect(&rt, "memory");
        assert_same(&rt, &prioritized(&rt, &priorities), wanted);
    }
    drop(priorities);
}
