use crate::common::{APPLE, Sale, Text};
use cns_clearing::Taken;
use cns_ids::CycleKind;
use cns_movements::MoveKind;
use cns_records::Refusal;
use cns_trades::Verdict;
use story::{Step, Story, tell_all};

mod journal;
mod lot;
mod story;

const MONDAY: Text = b"2026-03-02";

const SALE: Sale = (b"T1", MONDAY, 2, 60);

const NEXT: Sale = (b"T2", MONDAY, 2, 5);

// A trade was accepted, and 25 of its shares are exempt.
const FILLED: &[Step] = &[Step::Trade(SALE, Ok(())), Step::Exempt(25, Ok(()))];

// The cycle covers what was sold, without the shares that are exempt.
const NIGHT: Step = Step::Cycle(MONDAY, CycleKind::Night, Ok((1, 1, 1)));

const CYCLED: &[Step] = &[NIGHT];

const NIGHT_FAILS: Step = Step::Cycle(MONDAY, CycleKind::Night, Err(Refusal::Device));

// The commit of the cycle fails, and its record stands, or is lost.
const FAILED: &[Step] = &[Step::Plan(true), NIGHT_FAILS];

const LOST: &[Step] = &[Step::Plan(false), NIGHT_FAILS];

const FIRST_ORDER: Step = Step::Order(MONDAY, CycleKind::Night, (1, MoveKind::Cover, 1, APPLE, 35));

const NO_OTHER: Step = Step::NoOrder(2, Refusal::UnknownMove);

const CYCLES: &[Step] = &[
    Step::Shows(0, 0),
    NIGHT,
    Step::Cycle(MONDAY, CycleKind::Night, Err(Refusal::CycleOrder)),
    Step::Cycle(MONDAY, CycleKind::Day, Ok((0, 0, 0))),
    Step::Latest(MONDAY, CycleKind::Day),
    Step::Shows(-60, 0),
    FIRST_ORDER,
    NO_OTHER,
];

const REPLIES: &[Step] = &[
    Step::Reply(2, 20, Err(Refusal::UnknownMove)),
    Step::Shows(-60, 0),
    Step::Reply(1, 36, Err(Refusal::TooMuch)),
    Step::Shows(-60, 0),
    Step::Reply(1, 20, Ok(Taken::Done)),
    Step::Shows(-40, 20),
    Step::Reply(1, 20, Ok(Taken::Again)),
    Step::Shows(-40, 20),
    Step::Reply(1, 35, Err(Refusal::Conflict)),
    Step::Shows(-40, 20),
    Step::Cycle(MONDAY, CycleKind::Day, Ok((0, 2, 1))),
    Step::Order(MONDAY, CycleKind::Day, (2, MoveKind::Cover, 1, APPLE, 15)),
];

const TRADES: &[Step] = &[
    Step::Trade(SALE, Err(Refusal::Trade(Verdict::Same))),
    Step::Trade(
        (b"T1", MONDAY, 2, 61),
        Err(Refusal::Trade(Verdict::Conflict)),
    ),
    Step::Trade(
        (b"T2", MONDAY, 1, 5),
        Err(Refusal::Trade(Verdict::SameMember)),
    ),
    Step::Trade(NEXT, Ok(())),
];

const READERS: &[Step] = &[
    Step::Priority(2, Ok(())),
    Step::Shares(0, 0, 0),
    Step::Books(1, 60),
    Step::Pools(&[]),
    Step::Reply(1, 20, Ok(Taken::Done)),
    Step::Pools(&[(20, 0, 0)]),
];

const ALL_DOWN: &[Step] = &[
    Step::Down(true),
    Step::NoOrder(1, Refusal::Down),
    Step::Cycle(MONDAY, CycleKind::Night, Err(Refusal::Down)),
    Step::Reply(1, 20, Err(Refusal::Down)),
    Step::Trade(NEXT, Err(Refusal::Down)),
    Step::Exempt(0, Err(Refusal::Down)),
    Step::Priority(1, Err(Refusal::Down)),
    Step::NotOpened(Refusal::Down),
    Step::Pour(Err(Refusal::Down)),
    Step::Close(&[], true, Err(Refusal::Down)),
    Step::Shows(0, 0),
];

const STANDS: &[Step] = &[
    Step::Restart(3, true),
    Step::Shows(-60, 0),
    FIRST_ORDER,
    NO_OTHER,
    Step::Restart(3, false),
];

const DOES_NOT_STAND: &[Step] = &[
    Step::Restart(2, false),
    Step::Shows(0, 0),
    NIGHT,
    FIRST_ORDER,
    NO_OTHER,
];

const REPLY_FAILS: Step = Step::Reply(1, 20, Err(Refusal::Device));

// A reply whose commit fails, and whose record stands, or is lost.
const REPLY_STANDS: &[Step] = &[
    Step::Plan(true),
    REPLY_FAILS,
    Step::Shows(-60, 0),
    Step::Restart(4, true),
    Step::Reply(1, 20, Ok(Taken::Again)),
    Step::Shows(-40, 20),
];

const REPLY_IS_LOST: &[Step] = &[
    Step::Plan(false),
    REPLY_FAILS,
    Step::Restart(3, false),
    Step::Shows(-60, 0),
    Step::Reply(1, 20, Ok(Taken::Done)),
    Step::Shows(-40, 20),
];

static STORIES: [Story; 9] = [
    &[FILLED, CYCLES],
    &[FILLED, CYCLED, REPLIES],
    &[FILLED, TRADES],
    &[FILLED, CYCLED, READERS],
    &[FILLED, FAILED, ALL_DOWN],
    &[FILLED, FAILED, STANDS],
    &[FILLED, LOST, DOES_NOT_STAND],
    &[FILLED, CYCLED, REPLY_STANDS],
    &[FILLED, CYCLED, REPLY_IS_LOST],
];

#[test]
fn stories_of_a_node(rt: HostRuntime) {
    tell_all(&rt, rt.alloc(), &STORIES);
}
