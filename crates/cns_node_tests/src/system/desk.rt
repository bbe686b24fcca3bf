use super::floor::BEFORE;
use super::story::{Happens, Told, is_told};
use crate::common::{Deed, apple, event_of, new_both};
use cns_allocate::{OpenGate, ServeCause};
use cns_journal::ListKeeper;
use cns_system::{Allocated, Cut, Desk};
use std::alloc::Global;
use std::process::Abort;
use std::sync::Wait;
use std::thread::Threads;

pub(super) type Shared = Desk<ListKeeper, ListKeeper>;

// Member 1's 40 shares are free.
pub(super) const FREE: &[Happens] = &[
    (Deed::Send(1), Told::Sent(1)),
    (Deed::OrderIn(1), Told::Executed(1, 40, 1)),
    (Deed::ReplyIn(1), Told::Confirmed(1, 40)),
];

// How many workers serve a lot of them; how many tickets they draw, and what cuts them off; how many outcomes
// are entered, what the end of the lot comes to, and what happens afterwards.
type Allocates = (usize, usize, Option<Cut>, usize, Told, &'static [Happens]);

const NONE: Option<Cut> = Some(Cut::Fault(ServeCause::TooManyWorkers));

const SENT: &[Happens] = &[(Deed::Send(2), Told::Sent(2))];

const OPENED: &[Happens] = &[(Deed::LotOpen, Told::LotOpened(2, 40, 2))];

static ALLOCATES: [Allocates; 2] = [
    (2, 2, None, 3, Told::Closed(40, 2, 2), SENT),
    (0, 0, NONE, 2, Told::Closed(0, 0, 0), OPENED),
];

pub(super) fn take_all(rt: &(impl Abort + Wait), desk: &Shared, happens: &[Happens]) {
    for (place, (deed, told)) in happens.iter().enumerate() {
        let outcome = desk.lock(rt).step(event_of(rt, deed));
        assert!(rt; is_told(&outcome, told), "event {place}");
    }
}

fn see(rt: &impl Abort, all: &Allocated, wanted: &Allocates) {
    let (_, tickets, cut, entered, ended, _) = wanted;
    assert!(rt; is_told(&all.opened, &Told::LotOpened(1, 40, 2)));
    let drawn = all.drawn.as_ref();
    let drawn = drawn.map(|drawn| (drawn.seat.tickets().len(), drawn.cut));
    assert!(rt; drawn == Some((*tickets, *cut)) && all.entered.len() == *entered);
    let is_ended = match all.entered.as_slice().last() {
        Some(outcome) => is_told(outcome, ended),
        None => false,
    };
    assert!(rt; is_ended);
}

// Allocates an issue of which 40 shares are free, and lets something happen afterwards.
fn run<R: Abort + Threads + Wait + Sync>(rt: &R, alloc: Global, wanted: &Allocates) {
    let desk = Desk::new(alloc, new_both(rt, alloc, 40));
    take_all(rt, &desk, &BEFORE);
    take_all(rt, &desk, FREE);
    let all = desk
        .allocate(rt, alloc, apple(rt), wanted.0, &OpenGate)
        .expect(rt, "memory");
    see(rt, &all, wanted);
    drop(all);
    take_all(rt, &desk, wanted.5);
}

#[test]
fn lots_that_workers_serve(rt: HostRuntime) {
    for wanted in &ALLOCATES {
        run(&rt, rt.alloc(), wanted);
    }
}
