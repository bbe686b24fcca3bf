use super::story::{Happens, Told, is_told, stands};
use crate::common::{Both, Deed, event_of, new_both};
use cns_records::Refusal;
use cns_system::{Counts, Event, NodeName};
use std::alloc::Global;
use std::process::Abort;

// Member 1 is to give 30 shares and has 20.
static BEFORE: [Happens; 2] = [
    (Deed::Sell(b"A1", 2), Told::Accepted),
    (Deed::Cycle, Told::Cycled(1, 1, 1)),
];

static AFTER: [Happens; 4] = [
    (Deed::Send(1), Told::Sent(1)),
    (Deed::OrderIn(1), Told::Executed(1, 20, 1)),
    (Deed::ReplyIn(1), Told::Confirmed(1, 20)),
    (Deed::ReplyIn(2), Told::Refused(Refusal::NoPacket)),
];

// A trade that the device does not keep takes the clearing node down.
static LOST: [Happens; 2] = [
    (Deed::Sell(b"A2", 2), Told::Refused(Refusal::Device)),
    (Deed::Restart(NodeName::Clear), Told::Restarted(3, false)),
];

// The events one by one.
fn step_all(rt: &impl Abort, both: &mut Both, happens: &[Happens]) {
    for (place, (deed, told)) in happens.iter().enumerate() {
        assert!(rt;
            is_told(&both.step(event_of(rt, deed)), told),
            "event {place}"
        );
    }
}

fn events_of(rt: &impl Abort, alloc: Global, happens: &[Happens]) -> Vec<Event> {
    let mut events = Vec::new(alloc);
    for (deed, _) in happens {
        events.push(event_of(rt, deed)).expect(rt, "memory");
    }
    events
}

// The events at once.
fn run_all(rt: &impl Abort, alloc: Global, both: &mut Both, happens: &[Happens]) {
    let events = events_of(rt, alloc, happens);
    let outcomes = both.run(alloc, events.as_slice()).expect(rt, "memory");
    assert!(rt; outcomes.len() == happens.len());
    for (outcome, (_, told)) in outcomes.iter().zip(happens) {
        assert!(rt; is_told(outcome, told));
    }
    drop((events, outcomes));
}

// The numbers of the orders that are not confirmed.
fn see_unconfirmed(rt: &impl Abort, alloc: Global, both: &Both, wanted: &[u64]) {
    let numbers = both.unconfirmed(alloc).expect(rt, "memory");
    assert!(rt; numbers.len() == wanted.len());
    for (number, wanted) in numbers.iter().zip(wanted) {
        assert!(rt; number.number() == *wanted);
    }
    drop(numbers);
}

fn see_after(rt: &impl Abort, alloc: Global, both: &Both) {
    let (orders, order_packets, reply_packets) = (1, 1, 1);
    let wanted = Counts {
        orders,
        order_packets,
        reply_packets,
    };
    assert!(rt; both.counts() == wanted && stands(rt, both) == (0, -10));
    see_unconfirmed(rt, alloc, both, &[]);
}

#[test]
fn events_one_by_one(rt: HostRuntime) {
    let mut both = new_both(&rt, rt.alloc(), 20);
    step_all(&rt, &mut both, &BEFORE);
    see_unconfirmed(&rt, rt.alloc(), &both, &[1]);
    step_all(&rt, &mut both, &AFTER);
    see_after(&rt, rt.alloc(), &both);
    assert!(&rt; both.plan(NodeName::Clear, false).is_ok());
    step_all(&rt, &mut both, &LOST);
    drop(both);
}

#[test]
fn events_at_once(rt: HostRuntime) {
    let mut both = new_both(&rt, rt.alloc(), 20);
    run_all(&rt, rt.alloc(), &mut both, &BEFORE);
    run_all(&rt, rt.alloc(), &mut both, &AFTER);
    see_after(&rt, rt.alloc(), &both);
    drop(both);
}
