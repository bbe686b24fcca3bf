use crate::common::assert_texts;
use cns_journal::{KeepFault, Keeper, ListKeeper, MAX_PAYLOAD, NotPlanned};
use std::process::Abort;
use std::test::Fail;

mod disk;
mod log;

// A call of a keeper, and its answer.
#[derive(Clone, Copy)]
enum Step {
    Commit(&'static [u8], Result<(), KeepFault>),
    Plan(bool, Result<(), NotPlanned>),
    // The payloads of the records that it gives.
    Reopen(&'static [&'static [u8]]),
    Down(bool),
    Count(u64),
}

// Whether these are the payloads of a keeper's records, in their order.
fn are_records(records: &[Vec<u8>], wanted: &[&[u8]]) -> bool {
    if records.len() != wanted.len() {
        return false;
    }
    for (record, payload) in records.iter().zip(wanted) {
        if record.as_slice() != *payload {
            return false;
        }
    }
    true
}

fn commits<K: Keeper>(keeper: &mut K, payload: &[u8], wanted: Result<(), KeepFault>) -> bool {
    payload.len() <= MAX_PAYLOAD && keeper.commit(payload) == wanted
}

fn reopens<K: Keeper>(keeper: &mut K, wanted: &[&[u8]]) -> bool {
    let Ok(records) = keeper.reopen() else {
        return false;
    };
    let same = are_records(records.as_slice(), wanted);
    drop(records);
    same
}

// Whether a keeper, of any kind, answers a step as it says.
fn answers<K: Keeper>(keeper: &mut K, step: &Step) -> bool {
    match *step {
        Step::Commit(payload, wanted) => commits(keeper, payload, wanted),
        Step::Plan(stands, wanted) => keeper.plan(stands) == wanted,
        Step::Reopen(wanted) => reopens(keeper, wanted),
        Step::Down(wanted) => keeper.is_down() == wanted,
        Step::Count(wanted) => keeper.count() == wanted,
    }
}

// Asserts that a keeper answers each step as it says.
fn tell<K: Keeper>(rt: &impl Abort, keeper: &mut K, steps: &[Step]) {
    for (place, step) in steps.iter().enumerate() {
        assert!(rt; answers(keeper, step), "step {place}");
    }
}

// Asserts that a keeper with no records answers these steps as they say, and how many commits have
// failed then.
fn tell_new(rt: &impl Abort, mut keeper: ListKeeper, parts: &[&[Step]], failures: u64) {
    for steps in parts {
        tell(rt, &mut keeper, steps);
    }
    assert!(rt; keeper.failures() == failures);
}

static ACKNOWLEDGED: [Step; 9] = [
    Step::Count(0),
    Step::Reopen(&[]),
    Step::Commit(b"trade", Ok(())),
    Step::Commit(b"", Ok(())),
    Step::Commit(b"order", Ok(())),
    Step::Count(3),
    Step::Down(false),
    Step::Reopen(&[b"trade", b"", b"order"]),
    Step::Count(3),
];

#[test]
fn a_reopening_gives_what_was_acknowledged(rt: HostRuntime) {
    tell_new(&rt, ListKeeper::new(rt.alloc()), &[&ACKNOWLEDGED], 0);
}

const FIRST: &[Step] = &[Step::Commit(b"first", Ok(()))];

const STANDS: Step = Step::Plan(true, Ok(()));

const IS_LOST: Step = Step::Plan(false, Ok(()));

const SECOND_FAILS: Step = Step::Commit(b"second", Err(KeepFault::Device));

const IS_REFUSED: Step = Step::Commit(b"refused", Err(KeepFault::Down));

const THIRD: Step = Step::Commit(b"third", Ok(()));

// A failed commit between two that are acknowledged, whose record stands.
const WITH_FAILED: &[Step] = &[
    SECOND_FAILS,
    Step::Down(true),
    Step::Count(1),
    IS_REFUSED,
    Step::Reopen(&[b"first", b"second"]),
    Step::Down(false),
    Step::Count(2),
    THIRD,
    Step::Count(3),
];

// The same, where it does not stand.
const WITHOUT_FAILED: &[Step] = &[
    SECOND_FAILS,
    Step::Down(true),
    Step::Count(1),
    IS_REFUSED,
    Step::Reopen(&[b"first"]),
    Step::Down(false),
    Step::Count(1),
    THIRD,
    Step::Count(2),
];

static PLANS: [(&[Step], &[Step]); 4] = [
    (&[STANDS], WITH_FAILED),
    (&[IS_LOST], WITHOUT_FAILED),
    (&[STANDS, IS_LOST], WITHOUT_FAILED),
    (&[IS_LOST, STANDS], WITH_FAILED),
];

#[test]
fn a_failed_record_stands_as_the_last_plan_says(rt: HostRuntime) {
    for (plans, then) in &PLANS {
        tell_new(&rt, ListKeeper::new(rt.alloc()), &[FIRST, plans, then], 1);
    }
}

// The second plan is for the commit after the failed one, whose record stands by its own.
static PLANS_WAIT: [Step; 12] = [
    STANDS,
    Step::Reopen(&[]),
    Step::Commit(b"first", Err(KeepFault::Device)),
    IS_LOST,
    IS_REFUSED,
    Step::Reopen(&[b"first"]),
    SECOND_FAILS,
    Step::Reopen(&[b"first"]),
    THIRD,
    Step::Reopen(&[b"first", b"third"]),
    Step::Count(2),
    Step::Down(false),
];

#[test]
fn a_plan_waits_for_the_next_commit(rt: HostRuntime) {
    tell_new(&rt, ListKeeper::new(rt.alloc()), &[&PLANS_WAIT], 2);
}

static KEEP_FAULTS: [(KeepFault, &str); 3] = [
    (KeepFault::Memory, "out of memory"),
    (KeepFault::Down, "the journal is down"),
    (KeepFault::Device, "the journal's device failed"),
];

static NOT_PLANNED: [(NotPlanned, &str); 1] = [(NotPlanned, "this journal plans no failures")];

#[test]
fn faults_print(rt: HostRuntime) {
    assert_texts(&rt, rt.alloc(), &KEEP_FAULTS);
    assert_texts(&rt, rt.alloc(), &NOT_PLANNED);
}

// Whether a keeper gives a payload back.
fn keeps(keeper: &mut ListKeeper, payload: &[u8]) -> bool {
    commits(keeper, payload, Ok(())) && reopens(keeper, &[payload])
}

#[test]
fn the_longest_payload_is_kept(rt: HostRuntime) -> Result<(), Fail> {
    let payload = Vec::from_elem(rt.alloc(), 0xa5_u8, MAX_PAYLOAD)?;
    let mut keeper = ListKeeper::new(rt.alloc());
    assert!(rt; keeps(&mut keeper, payload.as_slice()));
    Ok(())
}
