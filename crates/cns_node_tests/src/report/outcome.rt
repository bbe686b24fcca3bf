//! What is told of events that happen to both nodes, and of outcomes.

use crate::common::{APPLE, Deed, assert_same, event_of, new_both};
use cns_records::{Refusal, Sort};
use cns_report::{Text, outcome_line};
use cns_system::{Event, NodeName, Outcome};
use std::alloc::Global;
use std::process::Abort;

pub(super) fn see_told(
    rt: &impl Abort,
    alloc: Global,
    event: &Event,
    outcome: &Outcome,
    want: &str,
) {
    let mut out = Text::new(alloc);
    outcome_line(&mut out, event, outcome).expect(rt, "memory");
    assert_same(rt, &out.as_bytes(), &want.as_bytes());
    drop(out);
}

// An event, and what is told of it.
type Told = (Deed, &'static str);

static DAY: [Told; 30] = [
    // Two trades make member 1 short, and its cover is ordered.
    (Deed::Sell(b"A1", 2), "trade A1 accepted\n"),
    (Deed::Sell(b"A2", 3), "trade A2 accepted\n"),
    (Deed::Sell(b"A1", 2), "trade A1 refused Same\n"),
    (Deed::Exempt(10), "exempt ok\n"),
    (Deed::Priority(3), "priority ok\n"),
    (
        Deed::Cycle,
        "cycle 2025-03-04 NIGHT due 2\norder 1 COVER 0001 037833100 50\n",
    ),
    (Deed::Cycle, "cycle refused CycleOrder\n"),
    // The cover is executed and confirmed; its order and its reply arrive twice.
    (Deed::Send(1), "send 1 packet 1\n"),
    (Deed::OrderIn(1), "exec 1 moved 50 packet 1\n"),
    (Deed::OrderIn(1), "again 1 moved 50 packet 2\n"),
    (Deed::ReplyIn(1), "confirm 1 moved 50 done\n"),
    (Deed::ReplyIn(2), "confirm 1 moved 50 again\n"),
    (Deed::Send(9), "send refused UnknownMove\n"),
    // A deposit is given twice, and a withdrawal that is too much, and one that is not.
    (
        Deed::Own((Sort::Deposit, 2, 1, APPLE, 5)),
        "deposit 0002 number 1 done\n",
    ),
    (
        Deed::Own((Sort::Deposit, 2, 1, APPLE, 5)),
        "deposit 0002 number 1 again\n",
    ),
    (
        Deed::Own((Sort::Withdraw, 2, 2, APPLE, 6)),
        "withdraw refused TooFew\n",
    ),
    (
        Deed::Own((Sort::Withdraw, 2, 2, APPLE, 5)),
        "withdraw 0002 number 2 done\n",
    ),
    // Members 3 and 2 draw tickets from a lot.
    (Deed::LotOpen, "lot 1 poured 50 longs 2\n"),
    (Deed::Reserve(1, 2), "reserve refused EarlierGroup\n"),
    (Deed::Reserve(1, 3), "ticket 0003 start 0 asked 30\n"),
    (Deed::Reserve(1, 2), "ticket 0002 start 30 asked 30\n"),
    // The lot is looked at and closed, and both nodes are restarted.
    (Deed::LotPour(1), "pour 0\n"),
    (Deed::LookPoured(1), "look poured 50"),
    (Deed::LookAsked(1), " asked 60 sealed no\n"),
    (Deed::Seal(1), "seal ok\n"),
    (Deed::LookAsked(1), " asked 60 sealed yes\n"),
    (
        Deed::LotClose(1),
        "close granted 50\norder 2 DELIVERY 0003 037833100 30\norder 3 DELIVERY 0002 037833100 20\n",
    ),
    (Deed::LookPoured(1), "look refused StaleLot\n"),
    (
        Deed::Restart(NodeName::Depot),
        "restart DEPOT records 3 kept no\n",
    ),
    (
        Deed::Restart(NodeName::Clear),
        "restart CLEAR records 7 kept no\n",
    ),
];

#[test]
fn a_day_is_told(rt: HostRuntime) {
    let mut both = new_both(&rt, rt.alloc(), 60);
    for (deed, want) in &DAY {
        let event = event_of(&rt, deed);
        let outcome = both.step(event);
        see_told(&rt, rt.alloc(), &event, &outcome, want);
        drop(outcome);
    }
    drop(both);
}

// Events, and what is told of each where it is refused.
static DOWN: [Told; 17] = [
    (Deed::Sell(b"A1", 2), "trade A1 refused Down\n"),
    (Deed::Exempt(10), "exempt refused Down\n"),
    (Deed::Priority(3), "priority refused Down\n"),
    (Deed::Cycle, "cycle refused Down\n"),
    (Deed::LotOpen, "lot refused Down\n"),
    (Deed::LotPour(9), "pour refused Down\n"),
    (Deed::Reserve(1, 2), "reserve refused Down\n"),
    (Deed::LookPoured(9), "look refused Down\n"),
    (Deed::LookAsked(9), "look refused Down\n"),
    (Deed::Seal(1), "seal refused Down\n"),
    (Deed::LotClose(1), "close refused Down\n"),
    (Deed::Send(1), "send refused Down\n"),
    (Deed::OrderIn(7), "order refused Down\n"),
    (Deed::ReplyIn(7), "reply refused Down\n"),
    (
        Deed::Own((Sort::Deposit, 2, 1, APPLE, 5)),
        "deposit refused Down\n",
    ),
    (
        Deed::Own((Sort::Withdraw, 2, 1, APPLE, 5)),
        "withdraw refused Down\n",
    ),
    (Deed::Restart(NodeName::Depot), "restart refused Down\n"),
];

#[test]
fn refusals_are_told(rt: HostRuntime) {
    let down = Outcome::Refused(Refusal::Down);
    for (deed, want) in &DOWN {
        see_told(&rt, rt.alloc(), &event_of(&rt, deed), &down, want);
    }
}

// What such a line says means nothing; it is still what the definition has, by the event's word or none.
#[test]
fn an_outcome_that_the_event_never_has(rt: HostRuntime) {
    let (records, kept) = (1, true);
    let up = Outcome::Restarted { records, kept };
    let (send, restart) = (Event::Send { number: 1 }, Event::Restart(NodeName::Clear));
    see_told(
        &rt,
        rt.alloc(),
        &send,
        &Outcome::Accepted,
        "send accepted\n",
    );
    see_told(&rt, rt.alloc(), &send, &Outcome::Done, "send ok\n");
    see_told(&rt, rt.alloc(), &send, &up, "");
    see_told(&rt, rt.alloc(), &restart, &Outcome::Sent { packet: 1 }, "");
}
