use crate::common::{APPLE, Given, MICROSOFT, Opened, Placed, opening_of};
use cns_depository::{DepFault, OpeningFault, Openings, Own, OwnFault};
use cns_ids::{CycleKind, Shares};
use cns_movements::MoveKind;
use cns_records::Sort;
use story::{Holder, Moved, Step, Story, TWENTY, tell_all};

mod journal;
mod story;
mod text;

static ADDED: [(Opened, Result<(), OpeningFault>); 5] = [
    ((1, APPLE, Shares::MAX), Ok(())),
    ((2, APPLE, 1), Err(OpeningFault::IssueSum)),
    ((1, APPLE, 5), Err(OpeningFault::Double)),
    ((2, APPLE, 0), Ok(())),
    ((1, MICROSOFT, Shares::MAX), Ok(())),
];

#[test]
fn openings_in_turn(rt: HostRuntime) {
    let mut list = Openings::new(rt.alloc());
    for (opened, wanted) in &ADDED {
        let opening = opening_of(&rt, *opened);
        assert!(&rt; list.add(&opening) == *wanted);
    }
}

const COVER: Placed = (1, MoveKind::Cover, 1, APPLE, 60);

const A_COVER: &[Step] = &[
    Step::Balances(&[(APPLE, Holder::Member(1), 20)]),
    Step::NotExecuted(1),
    Step::Take(COVER, Ok(Moved::Done(20))),
    Step::Balance((APPLE, Holder::Member(1), 0)),
    Step::Balance((APPLE, Holder::Cns, 20)),
    Step::Balances(&[(APPLE, Holder::Cns, 20)]),
    Step::Take(COVER, Ok(Moved::Again(20))),
    Step::Executed(COVER, 20),
    Step::Take((1, MoveKind::Cover, 1, APPLE, 61), Err(DepFault::Conflict)),
    Step::Balance((APPLE, Holder::Cns, 20)),
];

const NIGHT: CycleKind = CycleKind::Night;

// An order of the first version is executed: it agrees with that of each cycle, and stays as it is.
const PLAIN_FIRST: &[Step] = &[
    Step::Take(COVER, Ok(Moved::Done(20))),
    Step::TakeIn(NIGHT, COVER, Ok(Moved::Again(20))),
    Step::TakeIn(CycleKind::Day, COVER, Ok(Moved::Again(20))),
    Step::Executed(COVER, 20),
    Step::Restart(1, false),
    Step::Executed(COVER, 20),
];

// An order of the night cycle is executed: that of the day cycle is another.
const NIGHT_FIRST: &[Step] = &[
    Step::TakeIn(NIGHT, COVER, Ok(Moved::Done(20))),
    Step::TakeIn(CycleKind::Day, COVER, Err(DepFault::Conflict)),
    Step::Take(COVER, Ok(Moved::Again(20))),
    Step::TakeIn(NIGHT, COVER, Ok(Moved::Again(20))),
    Step::ExecutedIn(NIGHT, COVER, 20),
    Step::Restart(1, false),
    Step::ExecutedIn(NIGHT, COVER, 20),
    Step::Take((2, MoveKind::Cover, 1, APPLE, 5), Ok(Moved::Done(0))),
    Step::Restart(2, false),
];

const LONG_AND_EMPTY: &[Opened] = &[(1, APPLE, 100), (3, APPLE, 0)];

const FOURTH: Placed = (4, MoveKind::Delivery, 3, APPLE, 60);

const ORDERS: &[Step] = &[
    Step::Take((1, MoveKind::Cover, 1, APPLE, 100), Ok(Moved::Done(100))),
    Step::Take((2, MoveKind::Cover, 3, APPLE, 60), Ok(Moved::Done(0))),
    Step::Take((3, MoveKind::Delivery, 2, APPLE, 60), Ok(Moved::Done(60))),
    Step::Take(FOURTH, Ok(Moved::Done(40))),
    Step::Take((6, MoveKind::Cover, 2, APPLE, 10), Ok(Moved::Done(10))),
    Step::Balance((APPLE, Holder::Member(4), 0)),
    Step::Take(FOURTH, Ok(Moved::Again(40))),
    Step::Balances(&[
        (APPLE, Holder::Cns, 10),
        (APPLE, Holder::Member(2), 50),
        (APPLE, Holder::Member(3), 40),
    ]),
];

const TWO_ISSUES: &[Opened] = &[
    (1, MICROSOFT, 7),
    (9, APPLE, 3),
    (2, APPLE, 10),
    (4, APPLE, 0),
    (1, APPLE, 5),
];

const IN_TWO_ISSUES: &[Step] = &[
    Step::Take((1, MoveKind::Cover, 2, APPLE, 4), Ok(Moved::Done(4))),
    Step::Take((2, MoveKind::Cover, 1, MICROSOFT, 7), Ok(Moved::Done(7))),
    Step::Take((3, MoveKind::Delivery, 4, APPLE, 1), Ok(Moved::Done(1))),
    Step::Take((5, MoveKind::Cover, 9, APPLE, 3), Ok(Moved::Done(3))),
    Step::Balances(&[
        (APPLE, Holder::Cns, 6),
        (APPLE, Holder::Member(1), 5),
        (APPLE, Holder::Member(2), 6),
        (APPLE, Holder::Member(4), 1),
        (MICROSOFT, Holder::Cns, 7),
    ]),
];

const PART: Placed = (1, MoveKind::Cover, 1, APPLE, 15);

const FAILS: &[Step] = &[
    Step::Down(false),
    Step::Take(PART, Err(DepFault::Device)),
    Step::Down(true),
    Step::Take(PART, Err(DepFault::Down)),
    Step::Balance((APPLE, Holder::Cns, 0)),
];

// The last plan counts: the record of the failed commit is lost.
const IS_LOST: &[Step] = &[
    Step::Restart(0, false),
    Step::Down(false),
    Step::Take(PART, Ok(Moved::Done(15))),
];

const STANDS: &[Step] = &[
    Step::Restart(1, true),
    Step::Down(false),
    Step::Take(PART, Ok(Moved::Again(15))),
];

const MOVED: &[Step] = &[
    Step::Restart(1, false),
    Step::Balance((APPLE, Holder::Cns, 15)),
];

const FIFTEEN_IN: Given = (Sort::Deposit, 1, 5, APPLE, 15);

const FIVE_OUT: Given = (Sort::Withdraw, 1, 6, APPLE, 5);

const INSTRUCTIONS: &[Step] = &[
    Step::Instruct(FIFTEEN_IN, Ok(Own::Done)),
    Step::Instruct(FIFTEEN_IN, Ok(Own::Again)),
    Step::Instructed(FIFTEEN_IN, true),
    Step::Instruct((Sort::Deposit, 1, 5, APPLE, 16), Err(OwnFault::Conflict)),
    Step::Instruct((Sort::Withdraw, 1, 5, APPLE, 15), Err(OwnFault::Conflict)),
    Step::Instruct((Sort::Withdraw, 1, 6, APPLE, 36), Err(OwnFault::TooFew)),
    Step::Instructed(FIVE_OUT, false),
    Step::Instruct(FIVE_OUT, Ok(Own::Done)),
    // The number of an order is not that of an instruction.
    Step::Take((5, MoveKind::Cover, 1, APPLE, 60), Ok(Moved::Done(30))),
    Step::Instruct((Sort::Withdraw, 1, 7, APPLE, 1), Err(OwnFault::TooFew)),
    Step::Restart(3, false),
    Step::Instruct(FIVE_OUT, Ok(Own::Again)),
    Step::Balances(&[(APPLE, Holder::Cns, 30)]),
];

const FULL: &[Opened] = &[(1, APPLE, Shares::MAX)];

const ISSUE_SUM: &[Step] = &[
    Step::Instruct((Sort::Deposit, 2, 1, APPLE, 1), Err(OwnFault::IssueSum)),
    Step::Instruct((Sort::Deposit, 2, 1, MICROSOFT, 1), Ok(Own::Done)),
    Step::Instruct((Sort::Withdraw, 1, 1, APPLE, 4), Ok(Own::Done)),
    Step::Instruct((Sort::Deposit, 2, 2, APPLE, 5), Err(OwnFault::IssueSum)),
    Step::Instruct((Sort::Deposit, 2, 2, APPLE, 4), Ok(Own::Done)),
];

const INSTRUCTION_FAILS: &[Step] = &[
    Step::Plan(true),
    Step::Instruct(FIFTEEN_IN, Err(OwnFault::Device)),
    Step::Instruct(FIFTEEN_IN, Err(OwnFault::Down)),
    Step::Balance((APPLE, Holder::Member(1), 20)),
    Step::Restart(1, true),
    Step::Instruct(FIFTEEN_IN, Ok(Own::Again)),
    Step::Balance((APPLE, Holder::Member(1), 35)),
];

static STORIES: [Story; 10] = [
    (TWENTY, &[A_COVER]),
    (TWENTY, &[PLAIN_FIRST]),
    (TWENTY, &[NIGHT_FIRST]),
    (TWENTY, &[INSTRUCTIONS]),
    (FULL, &[ISSUE_SUM]),
    (TWENTY, &[INSTRUCTION_FAILS]),
    (LONG_AND_EMPTY, &[ORDERS]),
    (TWO_ISSUES, &[IN_TWO_ISSUES]),
    (
        TWENTY,
        &[
            &[Step::Plan(true), Step::Plan(false)],
            FAILS,
            IS_LOST,
            MOVED,
        ],
    ),
    (TWENTY, &[&[Step::Plan(true)], FAILS, STANDS, MOVED]),
];

#[test]
fn stories_of_a_depository(rt: HostRuntime) {
    tell_all(&rt, rt.alloc(), &STORIES);
}
