use super::story::{Ordered, Step, Story, tell_all};
use crate::common::{APPLE, Draw, Sale, Text};
use cns_clearing::Taken;
use cns_ids::CycleKind;
use cns_movements::MoveKind;
use cns_records::Refusal;

pub(super) const WEDNESDAY: Text = b"2026-03-04";

pub(super) const THURSDAY: Text = b"2026-03-05";

// Trades of 30 shares, on two days.
pub(super) const TO_SECOND: Sale = (b"T3", WEDNESDAY, 2, 30);

pub(super) const TO_THIRD: Sale = (b"T4", THURSDAY, 3, 30);

// Member 2 is long of 30 shares after the first cycle, and member 3 of as many after the second.
const GROUPED: &[Step] = &[
    Step::Trade(TO_SECOND, Ok(())),
    Step::Trade(TO_THIRD, Ok(())),
    Step::Cycle(WEDNESDAY, CycleKind::Night, Ok((1, 1, 1))),
    Step::Cycle(THURSDAY, CycleKind::Night, Ok((1, 2, 1))),
];

// The covers bring 40 shares.
const BROUGHT: &[Step] = &[
    Step::Reply(1, 30, Ok(Taken::Done)),
    Step::Reply(2, 10, Ok(Taken::Done)),
];

const LENT: &[Step] = &[Step::Open];

const ALL_FREE: Step = Step::Shares(40, 0, 0);

const ALL_LENT: Step = Step::Shares(0, 40, 0);

const OPENS: &[Step] = &[
    ALL_FREE,
    Step::Open,
    ALL_LENT,
    Step::NotOpened(Refusal::LotAlready),
    Step::Cycle(THURSDAY, CycleKind::Day, Err(Refusal::LotsOpen)),
    Step::Cycle(THURSDAY, CycleKind::Night, Err(Refusal::CycleOrder)),
    Step::Holds(6, 6, 40),
    Step::Pools(&[(0, 40, 0)]),
];

pub(super) const SECOND: Draw = (2, 0, 30);

pub(super) const THIRD: Draw = (3, 30, 30);

// It leaves a gap after that of member 2.
pub(super) const LATE: Draw = (3, 31, 30);

const BAD: Ordered = Err(Refusal::BadTickets);

// A later group first, a member without a ticket, and a gap.
const UNSERVED: &[Step] = &[
    Step::Close(&[(3, 0, 30), (2, 30, 30)], false, BAD),
    ALL_LENT,
    Step::Close(&[SECOND], false, BAD),
    ALL_LENT,
    Step::Close(&[SECOND, LATE], false, BAD),
    ALL_LENT,
];

// The orders of a lot that served both members.
pub(super) const DELIVERIES: &[Step] = &[
    Step::Order(
        THURSDAY,
        CycleKind::Night,
        (3, MoveKind::Delivery, 2, APPLE, 30),
    ),
    Step::Order(
        THURSDAY,
        CycleKind::Night,
        (4, MoveKind::Delivery, 3, APPLE, 10),
    ),
    Step::NoOrder(5, Refusal::UnknownMove),
    Step::Shares(0, 0, 40),
];

const CLOSED: &[Step] = &[
    Step::Close(&[SECOND, THIRD], false, Ok((40, 3, 2))),
    Step::NoLot,
];

const TAKES_ALL: &[Step] = &[
    Step::Pools(&[(0, 0, 40)]),
    Step::Reply(3, 30, Ok(Taken::Done)),
    Step::Pools(&[(0, 0, 10)]),
    Step::Reply(4, 10, Ok(Taken::Done)),
    Step::Pools(&[]),
];

// What a delivery asked for and did not move is free again.
const LEAVES_ONE: &[Step] = &[
    Step::Reply(3, 29, Ok(Taken::Done)),
    Step::Reply(4, 10, Ok(Taken::Done)),
    Step::Pools(&[(1, 0, 0)]),
];

const SEALS: &[Step] = &[
    Step::Close(&[SECOND], true, Ok((30, 3, 1))),
    Step::NoLot,
    Step::Shares(10, 0, 30),
];

const OPENS_EMPTY: &[Step] = &[Step::Open, Step::Shares(0, 0, 0)];

const POURS: &[Step] = &[
    ALL_FREE,
    Step::Pour(Ok(40)),
    ALL_LENT,
    Step::Pour(Ok(0)),
    ALL_LENT,
];

const NO_LOT: &[Step] = &[
    Step::Pour(Err(Refusal::NoLot)),
    Step::Close(&[SECOND], true, Err(Refusal::NoLot)),
];

const FREE: &[Step] = &[ALL_FREE];

const CLOSE_FAILS: Step = Step::Close(&[SECOND, THIRD], false, Err(Refusal::Device));

const NO_DELIVERY: Step = Step::NoOrder(3, Refusal::UnknownMove);

// A close that the device fails leaves the lot open, until a restart ends it.
const STANDS: &[Step] = &[
    Step::Plan(true),
    CLOSE_FAILS,
    ALL_LENT,
    Step::Restart(7, true),
];

const IS_LOST: &[Step] = &[Step::Plan(false), CLOSE_FAILS, ALL_LENT];

const ENDS: &[Step] = &[Step::Restart(6, false), NO_DELIVERY, ALL_FREE];

static STORIES: [Story; 11] = [
    &[GROUPED, BROUGHT, OPENS],
    &[GROUPED, BROUGHT, LENT, UNSERVED],
    &[GROUPED, BROUGHT, LENT, CLOSED, DELIVERIES],
    &[GROUPED, BROUGHT, LENT, CLOSED, TAKES_ALL],
    &[GROUPED, BROUGHT, LENT, CLOSED, LEAVES_ONE],
    &[GROUPED, BROUGHT, LENT, SEALS],
    &[GROUPED, OPENS_EMPTY, BROUGHT, POURS],
    &[GROUPED, BROUGHT, NO_LOT, FREE],
    &[GROUPED, BROUGHT, LENT, STANDS, DELIVERIES, NO_LOT],
    &[GROUPED, BROUGHT, LENT, IS_LOST, ENDS],
    &[GROUPED, BROUGHT, LENT, ENDS, NO_LOT],
];

#[test]
fn stories_of_lots(rt: HostRuntime) {
    tell_all(&rt, rt.alloc(), &STORIES);
}
