use super::floor::{BEFORE, Served, begin, new_floor, take_all};
use super::story::{Happens, Told, is_told};
use crate::common::{Deed, Draw, tickets_of};
use cns_records::Refusal;
use cns_system::{NodeName, Outcome};
use std::alloc::{AllocError, Global};
use std::process::Abort;

// Member 1's shares come into the lot.
const POURED: &[Happens] = &[
    (Deed::Send(1), Told::Sent(1)),
    (Deed::OrderIn(1), Told::Executed(1, 40, 1)),
    (Deed::ReplyIn(1), Told::Confirmed(1, 40)),
    (Deed::LotPour(1), Told::Poured(40)),
];

const RESTARTED: &[Happens] = &[(Deed::Restart(NodeName::Clear), Told::Restarted(3, false))];

const SEALED: &[Happens] = &[(Deed::Seal(1), Told::Done)];

const ENDED: &[Happens] = &[(Deed::LotClose(1), Told::Refused(Refusal::StaleLot))];

// The lot is open, nobody has a ticket, and it is not sealed.
const OPEN: &[Happens] = &[
    (Deed::LookAsked(1), Told::LookedAsked(0, false)),
    (Deed::Reserve(1, 2), Told::Drawn((2, 0, 30))),
    (Deed::Reserve(1, 3), Told::Drawn((3, 30, 30))),
    (Deed::LotClose(1), Told::Closed(40, 2, 2)),
];

// What happens while lot 1 is busy, the tickets that its workers bring back, and whether one of them failed;
// what that has to come to, and what happens once the lot is no longer busy.
type Finishes = (
    &'static [Happens],
    &'static [Draw],
    bool,
    &'static [Told],
    &'static [Happens],
);

const FIRST: Draw = (2, 0, 30);

const SECOND: Draw = (3, 30, 30);

const BAD: &[Told] = &[Told::Refused(Refusal::BadTickets)];

const STALE: &[Told] = &[Told::Refused(Refusal::StaleLot)];

const BOTH: &[Told] = &[
    Told::Drawn(FIRST),
    Told::Drawn(SECOND),
    Told::Closed(40, 2, 2),
];

const ONE: &[Told] = &[Told::Drawn(FIRST), Told::Done, Told::Closed(30, 2, 1)];

static FINISHES: [Finishes; 5] = [
    // A ticket that starts elsewhere.
    (POURED, &[(2, 5, 30)], false, BAD, OPEN),
    // Tickets are taken in the order of their starts.
    (POURED, &[SECOND, FIRST], false, BOTH, ENDED),
    // A worker met the seal.
    (POURED, &[FIRST], true, ONE, ENDED),
    // The lot was sealed, and has ended.
    (
        SEALED,
        &[],
        false,
        &[Told::Done, Told::Closed(0, 0, 0)],
        ENDED,
    ),
    (RESTARTED, &[FIRST], false, STALE, ENDED),
];

type Outcomes = Result<Vec<Outcome>, AllocError>;

fn assert_told(rt: &impl Abort, outcomes: Outcomes, wanted: &[Told]) {
    let outcomes = outcomes.expect(rt, "memory");
    assert!(rt; outcomes.len() == wanted.len());
    for (outcome, told) in outcomes.iter().zip(wanted) {
        assert!(rt; is_told(outcome, told));
    }
    drop(outcomes);
}

fn see(rt: &impl Abort, alloc: Global, floor: &mut Served, finishes: &Finishes) {
    let (before, draws, failed, wanted, after) = *finishes;
    take_all(rt, floor, &BEFORE);
    begin(rt, alloc, floor);
    take_all(rt, floor, before);
    let tickets = tickets_of(rt, alloc, draws);
    let ended = floor.finish(alloc, 1, tickets.as_slice(), failed);
    assert_told(rt, ended, wanted);
    // It is no longer busy.
    let again = floor.finish(alloc, 1, tickets.as_slice(), failed);
    assert_told(rt, again, &[]);
    drop(tickets);
    take_all(rt, floor, after);
}

#[test]
fn lots_that_finish(rt: HostRuntime) {
    for finishes in &FINISHES {
        let mut floor = new_floor(&rt, rt.alloc());
        see(&rt, rt.alloc(), &mut floor, finishes);
        drop(floor);
    }
}
