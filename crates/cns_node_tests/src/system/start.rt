use super::floor::{Served, take_all};
use super::story::{Happens, Told, stands};
use crate::common::{
    APPLE, Deed, DepotPast, Keepers, Past, Placed, TUESDAY, both_of, depot_keeper_of, keeper_of,
    open_both,
};
use cns_journal::{Keeper, ReplayFault};
use cns_movements::MoveKind;
use cns_records::Refusal;
use cns_system::{Floor, StartFault};
use std::alloc::Global;
use std::process::Abort;

// Member 1 has 20 shares, and sells 30 to member 2.
const SHARES: u64 = 20;

const ORDERED: &[Past] = &[Past::Accept((b"A1", TUESDAY, 2, 30)), Past::Cycle(TUESDAY)];

// Order 1, another order of its number, and order 2, which the allocation gave.
const COVER: Placed = (1, MoveKind::Cover, 1, APPLE, 30);

const OTHER: Placed = (1, MoveKind::Cover, 1, APPLE, 31);

const DELIVERY: Placed = (2, MoveKind::Delivery, 2, APPLE, 20);

const COVERED: DepotPast = DepotPast::Moved(COVER, 20);

// A lot of 20 shares, of which member 2 had a ticket.
const ALLOCATED: &[Past] = &[
    Past::Confirm(1, 20),
    Past::Allocate(3, 3, 20, &[(2, 0, 30)]),
];

const NO_RECORD: &[Past] = &[Past::Bytes(b"no record")];

const NO_DEPOT_RECORD: &[DepotPast] = &[DepotPast::Bytes(b"no record")];

const BAD_PLACE: ReplayFault = ReplayFault::BadJournal { place: 1 };

const BAD_CLEAR: StartFault = StartFault::Clear(BAD_PLACE);

const BAD_DEPOT: StartFault = StartFault::Depot(BAD_PLACE);

const APART: StartFault = StartFault::Disagree;

// The payloads of both nodes, those of the clearing node in two parts, and why they are not opened.
type Bad = (
    &'static [Past],
    &'static [Past],
    &'static [DepotPast],
    StartFault,
);

static BAD: [Bad; 9] = [
    (NO_RECORD, &[], &[], BAD_CLEAR),
    (&[], &[], NO_DEPOT_RECORD, BAD_DEPOT),
    (NO_RECORD, &[], NO_DEPOT_RECORD, BAD_CLEAR),
    // No order has the number.
    (&[], &[], &[COVERED], APART),
    // Less was confirmed than moved, and more.
    (ORDERED, &[Past::Confirm(1, 19)], &[COVERED], APART),
    (ORDERED, &[Past::Confirm(1, 21)], &[COVERED], APART),
    // It was confirmed and not executed.
    (ORDERED, &[Past::Confirm(1, 20)], &[], APART),
    // The order of the number is another.
    (ORDERED, &[], &[DepotPast::Moved(OTHER, 20)], APART),
    // The delivery came to the depository before the cover, and moved nothing.
    (
        ORDERED,
        ALLOCATED,
        &[DepotPast::Moved(DELIVERY, 0), COVERED],
        APART,
    ),
];

// Whether these keepers are refused for this, and come back with the records that they had.
fn is_refused(rt: &impl Abort, alloc: Global, keepers: Keepers, fault: StartFault) -> bool {
    let records = (keepers.0.count(), keepers.1.count());
    match open_both(rt, alloc, keepers, SHARES) {
        Err(refused) => {
            let told = (
                refused.fault,
                (refused.clear.count(), refused.depot.count()),
            );
            drop(refused);
            told == (fault, records)
        }
        Ok(both) => {
            drop(both);
            false
        }
    }
}

#[test]
fn journals_that_do_not_open(rt: HostRuntime) {
    let alloc = rt.alloc();
    for (place, (past, last, depot_past, fault)) in BAD.iter().enumerate() {
        let clear = keeper_of(&rt, alloc, past, last);
        let depot = depot_keeper_of(&rt, alloc, depot_past);
        let refused = is_refused(&rt, alloc, (clear, depot), *fault);
        assert!(&rt; refused, "journals {place}");
    }
}

// What was executed is not confirmed, and the order is sent once more.
const SENT_AGAIN: &[Happens] = &[
    (Deed::Send(1), Told::Sent(1)),
    (Deed::OrderIn(1), Told::ExecutedAgain(1, 20, 1)),
    (Deed::ReplyIn(1), Told::Confirmed(1, 20)),
];

// What was executed is confirmed and delivered, and there is neither a packet nor a lot.
const DELIVERED: &[Happens] = &[
    (Deed::OrderIn(1), Told::Refused(Refusal::NoPacket)),
    (Deed::ReplyIn(1), Told::Refused(Refusal::NoPacket)),
    (Deed::LookPoured(1), Told::Refused(Refusal::NoLot)),
    (Deed::Send(2), Told::Sent(1)),
    (Deed::OrderIn(1), Told::ExecutedAgain(2, 20, 1)),
    (Deed::ReplyIn(1), Told::Confirmed(2, 20)),
];

// The payloads of both nodes; the shares of member 1 and its position then, and what happens.
type Good = (
    &'static [Past],
    &'static [DepotPast],
    (u128, i128),
    &'static [Happens],
);

static GOOD: [Good; 2] = [
    (&[], &[COVERED], (0, -30), SENT_AGAIN),
    (
        ALLOCATED,
        &[COVERED, DepotPast::Moved(DELIVERY, 20)],
        (0, -10),
        DELIVERED,
    ),
];

fn see(rt: &impl Abort, floor: &mut Served, good: &Good) {
    let (_, _, wanted, happens) = *good;
    assert!(rt; stands(rt, floor.system()) == wanted);
    take_all(rt, floor, happens);
}

#[test]
fn journals_that_open(rt: HostRuntime) {
    let alloc = rt.alloc();
    for good in &GOOD {
        let clear = keeper_of(&rt, alloc, ORDERED, good.0);
        let depot = depot_keeper_of(&rt, alloc, good.1);
        let mut floor = Floor::new(alloc, both_of(&rt, alloc, (clear, depot), SHARES));
        see(&rt, &mut floor, good);
        drop(floor);
    }
}
