use super::story::{Happens, Told, is_told};
use crate::common::{Deed, apple, event_of, new_both};
use cns_journal::ListKeeper;
use cns_records::Refusal;
use cns_system::{Begun, Floor, NodeName};
use std::alloc::Global;
use std::process::Abort;

pub(super) type Served = Floor<ListKeeper, ListKeeper>;

// Members 2 and 3 are to receive 30 shares each from member 1, who has 40.
pub(super) static BEFORE: [Happens; 3] = [
    (Deed::Sell(b"A1", 2), Told::Accepted),
    (Deed::Sell(b"A2", 3), Told::Accepted),
    (Deed::Cycle, Told::Cycled(2, 1, 1)),
];

static BUSY: [Happens; 15] = [
    (Deed::Reserve(1, 2), Told::Refused(Refusal::LotBusy)),
    (Deed::LotClose(1), Told::Refused(Refusal::LotBusy)),
    (Deed::Send(1), Told::Sent(1)),
    (Deed::OrderIn(1), Told::Executed(1, 40, 1)),
    (Deed::ReplyIn(1), Told::Confirmed(1, 40)),
    (Deed::LotPour(1), Told::Poured(40)),
    (Deed::LookPoured(1), Told::LookedPoured(40)),
    (Deed::LookAsked(1), Told::LookedAsked(0, false)),
    (Deed::Seal(1), Told::Done),
    (Deed::LookAsked(1), Told::LookedAsked(0, true)),
    // A busy lot that has ended.
    (Deed::Restart(NodeName::Clear), Told::Restarted(4, false)),
    (Deed::Reserve(1, 2), Told::Refused(Refusal::LotBusy)),
    (Deed::Seal(1), Told::Refused(Refusal::StaleLot)),
    (Deed::LookPoured(1), Told::Refused(Refusal::StaleLot)),
    (Deed::LotOpen, Told::LotOpened(2, 40, 2)),
];

pub(super) fn take_all(rt: &impl Abort, floor: &mut Served, happens: &[Happens]) {
    for (place, (deed, told)) in happens.iter().enumerate() {
        assert!(rt;
            is_told(&floor.step(event_of(rt, deed)), told),
            "event {place}"
        );
    }
}

// Lot 1 has no shares yet, and two members to serve.
fn see_begun(rt: &impl Abort, begun: &Begun) {
    assert!(rt; (begun.lot, begun.poured, begun.plan.len()) == (1, 0, 2));
    assert!(rt; (begun.seat.budget(), begun.seat.calls()) == (60, 2));
}

pub(super) fn begin(rt: &impl Abort, alloc: Global, floor: &mut Served) {
    match floor.begin(alloc, apple(rt)) {
        Ok(begun) => see_begun(rt, &begun),
        Err(_) => panic!(rt; "no lot is begun"),
    }
}

pub(super) fn new_floor(rt: &impl Abort, alloc: Global) -> Served {
    Floor::new(alloc, new_both(rt, alloc, 40))
}

#[test]
fn a_lot_that_is_served(rt: HostRuntime) {
    let mut floor = new_floor(&rt, rt.alloc());
    take_all(&rt, &mut floor, &BEFORE);
    begin(&rt, rt.alloc(), &mut floor);
    take_all(&rt, &mut floor, &BUSY);
    drop(floor);
}
