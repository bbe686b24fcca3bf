use super::story::{Holder, Moved, Step, TWENTY, tell_of};
use crate::common::{APPLE, DepotPast, Placed, depot_keeper_of, openings_of};
use cns_depository::Depository;
use cns_journal::{Keeper, ListKeeper, ReplayFault};
use cns_movements::MoveKind;
use std::alloc::Global;
use std::process::Abort;

const ORDER: Placed = (1, MoveKind::Cover, 1, APPLE, 60);

const TWICE: &[DepotPast] = &[DepotPast::Moved(ORDER, 20), DepotPast::Moved(ORDER, 20)];

// Journals that are bad where member 1 has 20 shares, and the place of the bad record.
static BAD_JOURNALS: [(&[DepotPast], u64); 4] = [
    (&[DepotPast::Moved(ORDER, 19)], 1),
    (TWICE, 2),
    (&[DepotPast::Moved(ORDER, 60)], 1),
    (&[DepotPast::Bytes(b"no record")], 1),
];

// Whether an opening finds the record in this place to be bad, and hands the keeper back as it was.
fn is_bad(rt: &impl Abort, alloc: Global, keeper: ListKeeper, place: u64) -> bool {
    let records = keeper.count();
    match Depository::open(alloc, keeper, openings_of(rt, alloc, TWENTY)) {
        Err(refused) => {
            let told = (refused.fault, refused.keeper.count());
            drop(refused);
            told == (ReplayFault::BadJournal { place }, records)
        }
        Ok(node) => {
            drop(node);
            false
        }
    }
}

#[test]
fn journals_that_are_bad(rt: HostRuntime) {
    for (past, place) in &BAD_JOURNALS {
        let keeper = depot_keeper_of(&rt, rt.alloc(), past);
        assert!(&rt; is_bad(&rt, rt.alloc(), keeper, *place), "place {place}");
    }
}

const OPENED: &[Step] = &[
    Step::Balance((APPLE, Holder::Member(1), 0)),
    Step::Balance((APPLE, Holder::Cns, 20)),
    Step::Down(false),
];

const EXECUTED: &[Step] = &[Step::Take(ORDER, Ok(Moved::Done(20)))];

#[test]
fn journals_that_open(rt: HostRuntime) {
    let alloc = rt.alloc();
    let keeper = depot_keeper_of(&rt, alloc, &[DepotPast::Moved(ORDER, 20)]);
    drop(tell_of(&rt, alloc, keeper, 0, TWENTY, &[OPENED]));
    // A keeper that is given up.
    let new = ListKeeper::new(alloc);
    let kept = tell_of(&rt, alloc, new, 1, TWENTY, &[EXECUTED]);
    assert!(&rt; kept.count() == 1);
    drop(tell_of(&rt, alloc, kept, 2, TWENTY, &[OPENED]));
}
