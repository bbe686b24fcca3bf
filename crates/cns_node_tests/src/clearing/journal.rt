use super::lot::{DELIVERIES, LATE, SECOND, THIRD, THURSDAY, TO_SECOND, TO_THIRD, WEDNESDAY};
use super::story::{Step, tell_of};
use super::{CYCLED, FILLED, FIRST_ORDER, MONDAY, NO_OTHER, SALE, TRADES};
use crate::common::{Past, keeper_of};
use cns_clearing::{Clearing, Taken};
use cns_journal::{ListKeeper, ReplayFault};
use std::alloc::Global;

const ACCEPT: Past = Past::Accept(SALE);

const RUN: Past = Past::Cycle(MONDAY);

// The six records of a node whose covers brought 40 shares, to members 2 and 3.
const GROUPS: &[Past] = &[
    Past::Accept(TO_SECOND),
    Past::Accept(TO_THIRD),
    Past::Cycle(WEDNESDAY),
    Past::Cycle(THURSDAY),
    Past::Confirm(1, 30),
    Past::Confirm(2, 10),
];

// A journal whose last record is bad: the records before it, the last ones, and its place.
static BAD_JOURNALS: [(&[Past], &[Past], u64); 11] = [
    (&[], &[Past::Bytes(&[1, 9])], 1),
    (&[], &[Past::Confirm(1, 20)], 1),
    (&[], &[ACCEPT, ACCEPT], 2),
    (&[ACCEPT, RUN], &[RUN], 3),
    (&[ACCEPT, RUN], &[Past::Confirm(1, 61)], 3),
    // Two tickets that leave a gap, two of a member, one of too much, and one of a member that is
    // not long.
    (GROUPS, &[Past::Allocate(6, 6, 40, &[SECOND, LATE])], 7),
    (
        GROUPS,
        &[Past::Allocate(6, 6, 40, &[(2, 0, 10), (2, 10, 10)])],
        7,
    ),
    (GROUPS, &[Past::Allocate(6, 6, 40, &[(2, 0, 31)])], 7),
    (
        GROUPS,
        &[Past::Allocate(6, 6, 40, &[SECOND, (1, 30, 1)])],
        7,
    ),
    // A pour of too much, and a lot that was opened after its last pour.
    (GROUPS, &[Past::Allocate(6, 6, 41, &[SECOND])], 7),
    (GROUPS, &[Past::Allocate(7, 6, 40, &[SECOND])], 7),
];

// Whether an opening finds the record in this place to be bad.
fn is_bad(alloc: Global, keeper: ListKeeper, place: u64) -> bool {
    match Clearing::open(alloc, keeper) {
        Err(refused) => {
            let fault = refused.fault;
            drop(refused);
            fault == ReplayFault::BadJournal { place }
        }
        Ok(node) => {
            drop(node);
            false
        }
    }
}

#[test]
fn journals_that_are_bad(rt: HostRuntime) {
    for (past, last, place) in &BAD_JOURNALS {
        let keeper = keeper_of(&rt, rt.alloc(), past, last);
        assert!(&rt; is_bad(rt.alloc(), keeper, *place), "place {place}");
    }
}

// One record of each kind but an allocation, with the confirmation.
const EACH: &[Past] = &[ACCEPT, Past::Exempt(25), RUN, Past::Priority(2)];

const CONFIRM: &[Past] = &[Past::Confirm(1, 20)];

// What the node of that journal has to show.
const OPENED: &[Step] = &[Step::Shows(-40, 20), FIRST_ORDER, NO_OTHER];

const RESTART: &[Step] = &[Step::Restart(6, false)];

// What makes the records of that journal.
const CONFIRMED: &[Step] = &[
    Step::Priority(2, Ok(())),
    Step::Reply(1, 20, Ok(Taken::Done)),
];

// Tickets of both members.
const SERVED: &[Past] = &[Past::Allocate(6, 6, 40, &[SECOND, THIRD])];

#[test]
fn journals_that_open(rt: HostRuntime) {
    let alloc = rt.alloc();
    let each = keeper_of(&rt, alloc, EACH, CONFIRM);
    drop(tell_of(&rt, alloc, each, 0, &[OPENED, TRADES, RESTART]));
    let served = keeper_of(&rt, alloc, GROUPS, SERVED);
    drop(tell_of(&rt, alloc, served, 1, &[DELIVERIES]));
    // A keeper that is given up.
    let new = ListKeeper::new(alloc);
    let kept = tell_of(&rt, alloc, new, 2, &[FILLED, CYCLED, CONFIRMED]);
    drop(tell_of(&rt, alloc, kept, 3, &[OPENED, TRADES, RESTART]));
}
