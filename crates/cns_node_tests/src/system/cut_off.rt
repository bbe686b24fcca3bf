//! A lot that is sealed, under the lock of its desk, before any of its workers draws.

use super::desk::{FREE, Shared, take_all};
use super::floor::BEFORE;
use super::story::{Told, is_told};
use crate::common::{apple, new_both};
use cns_allocate::Gate;
use cns_system::{Allocated, Cut, Desk, Event};
use std::process::Abort;
use std::sync::Wait;
use std::sync::atomic::{AtomicU64, Ordering};

// Seals lot 1 before each reserve, and counts how often that was done.
#[derive(Drop)]
struct SealsFirst<'a, H> {
    rt: &'a H,
    desk: &'a Shared,
    sealed: AtomicU64,
}

impl<'a, H: Wait> Gate for SealsFirst<'a, H> {
    fn before(&self, _worker: usize, _place: usize) {
        let outcome = self.desk.lock(self.rt).step(Event::Seal { lot: 1 });
        if is_told(&outcome, &Told::Done) {
            self.sealed.fetch_add(1, Ordering::SeqCst);
        }
    }

    fn after(&self, _worker: usize, _place: usize) {}
}

// No ticket is drawn, and the lot is closed by none.
fn see_cut_off(rt: &impl Abort, all: &Allocated) {
    assert!(rt; is_told(&all.opened, &Told::LotOpened(1, 40, 2)));
    let drawn = all.drawn.as_ref();
    let drawn = drawn.map(|drawn| (drawn.seat.tickets().len(), drawn.cut));
    assert!(rt; drawn == Some((0, Some(Cut::Sealed))));
    let [sealed, closed] = all.entered.as_slice() else {
        panic!(rt; "the lot is not sealed and closed");
    };
    assert!(rt; is_told(sealed, &Told::Done) && is_told(closed, &Told::Closed(0, 0, 0)));
}

#[test]
fn a_seal_before_any_ticket_cuts_both_workers_off(rt: HostRuntime) {
    let desk = Desk::new(rt.alloc(), new_both(&rt, rt.alloc(), 40));
    take_all(&rt, &desk, &BEFORE);
    take_all(&rt, &desk, FREE);
    let gate = SealsFirst {
        rt: &rt,
        desk: &desk,
        sealed: AtomicU64::new(0),
    };
    let all = desk
        .allocate(&rt, rt.alloc(), apple(&rt), 2, &gate)
        .expect(&rt, "memory");
    assert!(rt; gate.sealed.load(Ordering::SeqCst) > 0);
    see_cut_off(&rt, &all);
    drop(all);
}
