ghost use Rattle.std.specs.Prelude.{◌≡◌, ◌≤◌, false, IfOk};
ghost use Rattle.cns_journal.specs.RecordLog.{IsLawfulLog};

use crate::common::assert_texts;
use cns_journal::{
    CommitFault, Keeper, Ledger, ListKeeper, Record, RecordFault, RecordLog, ReplayFault, Restarted,
};
use std::alloc::{AllocError, Global};
use std::test::Fail;

// A record of one number, which is its payload.
#[derive(Clone, Copy, PartialEq, Eq, Debug)]
struct Mark {
    number: u8,
}

impl Record for Mark {
    ghost use Rattle.std.specs.Prelude.{[], ◌∷◌, ⊤};

    ghost spelling = { λ m. m.number ∷ [] };

    ghost writable = { λ _. ⊤ };

    ghost fits = { λ _. ⊤ };

    fn write(&self, alloc: Global) -> Result<Vec<u8>, AllocError> {
        Vec::from_elem(alloc, self.number, 1)
    }

    fn read(_alloc: Global, payload: &[u8]) -> Result<Mark, RecordFault> {
        match payload {
            [number] => Ok(Mark { number: *number }),
            _ => Err(RecordFault::BadRecord),
        }
    }
}

// How many numbers there were, none of which is above a limit.
#[derive(Drop)]
struct Count {
    marks: u64,
}

impl Ledger for Count {
    ghost use Rattle.std.specs.Prelude.{◌≡◌, ◌≤◌, ⊤};

    type Record = Mark;

    type Context = u8;

    ghost allows = { λ limit _ m. m.number ≤ limit };

    ghost comes_to = { λ _ _. ⊤ };

    fn admit(&mut self, limit: &u8, _records: &[Mark], entry: &Mark) -> Result<bool, AllocError> {
        if entry.number > *limit {
            return Ok(false);
        }
        self.marks = self.marks.saturating_add(1);
        Ok(true)
    }
}

type Log = RecordLog<ListKeeper, Mark>;

// The most that a number may be.
const LIMIT: u8 = 9;

// Whether a keeper adds each of these payloads.
fn adds_all(keeper: &mut ListKeeper, payloads: &[&[u8]]) -> bool {
    for payload in payloads {
        if payload.len() > 9 || keeper.commit(payload).is_err() {
            return false;
        }
    }
    true
}

// A keeper that has these payloads.
fn keeper_of(alloc: Global, payloads: &[&[u8]]) -> Option<ListKeeper> {
    let mut keeper = ListKeeper::new(alloc);
    if adds_all(&mut keeper, payloads) {
        return Some(keeper);
    }
    drop(keeper);
    None
}

// The answer of an opening over this keeper: how many records there are, or why not, and how many payloads
// come back with that.
fn opened(alloc: Global, keeper: ListKeeper) -> Result<usize, (ReplayFault, usize)> {
    let mut count = Count { marks: 0 };
    match Log::open(alloc, keeper, &LIMIT, &mut count) {
        Ok(log) => {
            let records = log.records().len();
            drop(log);
            Ok(records)
        }
        Err(refused) => {
            let told = (refused.fault, refused.rejected.len());
            drop(refused);
            Err(told)
        }
    }
}

// The payloads of a journal, which all come back where one is bad, and the answer of an opening over it.
type Opening = (&'static [&'static [u8]], Result<usize, ReplayFault>);

static OPENINGS: [Opening; 5] = [
    (&[], Ok(0)),
    (&[&[3], &[9]], Ok(2)),
    (
        &[&[3], &[10], &[]],
        Err(ReplayFault::BadJournal { place: 2 }),
    ),
    (&[&[]], Err(ReplayFault::BadJournal { place: 1 })),
    (
        &[&[1], &[2], &[3, 4]],
        Err(ReplayFault::BadJournal { place: 3 }),
    ),
];

fn opens(alloc: Global, opening: &Opening) -> bool {
    let (payloads, wanted) = *opening;
    let Some(keeper) = keeper_of(alloc, payloads) else {
        return false;
    };
    opened(alloc, keeper) == wanted.map_err(|fault| (fault, payloads.len()))
}

#[test]
fn an_opening_gives_what_its_keeper_has(rt: HostRuntime) {
    for opening in &OPENINGS {
        assert!(rt; opens(rt.alloc(), opening));
    }
}

// A failed commit of a log with one record, and the restart after it.
fn restarted(log: &mut Log, stands: bool) -> Option<Restarted>
    requires up { log.old.down ≡ false }
    requires lawful { IsLawfulLog (λ _ m. m.number ≤ LIMIT) log.old }
{
    if log.plan(stands).is_err() {
        return None;
    }
    let Err(CommitFault::Device) = log.commit(Mark { number: 7 }) else {
        return None;
    };
    let mut count = Count { marks: 0 };
    log.restart(&LIMIT, &mut count).ok()
}

// Whether the failed record stands, and what the restart answers then, with the latest record.
type Restart = (bool, Restarted, u8);

static RESTARTS: [Restart; 2] = [
    (
        true,
        Restarted {
            records: 2,
            kept: true,
        },
        7,
    ),
    (
        false,
        Restarted {
            records: 1,
            kept: false,
        },
        3,
    ),
];

// Whether a failed commit and a restart come to what they should.
fn restarts(log: &mut Log, restart: &Restart) -> bool
    requires up { log.old.down ≡ false }
    requires lawful { IsLawfulLog (λ _ m. m.number ≤ LIMIT) log.old }
{
    let (stands, wanted, number) = *restart;
    let Some(answer) = restarted(log, stands) else {
        return false;
    };
    answer == wanted && !log.is_down() && log.latest().copied() == Some(Mark { number })
}

// Whether a keeper counts so many records.
fn counts(keeper: ListKeeper, records: u64) -> bool {
    let count = keeper.count();
    drop(keeper);
    count == records
}

// Whether a log over this keeper comes back from a failed commit as it should.
fn comes_back(alloc: Global, keeper: ListKeeper, restart: &Restart) -> bool {
    let mut count = Count { marks: 0 };
    let Ok(mut log) = Log::open(alloc, keeper, &LIMIT, &mut count) else {
        return false;
    };
    let so = restarts(&mut log, restart);
    counts(log.into_keeper(), restart.1.records) && so
}

#[test]
fn a_restart_gives_what_was_acknowledged(rt: HostRuntime) -> Result<(), Fail> {
    for restart in &RESTARTS {
        let keeper = keeper_of(rt.alloc(), &[&[3]]).ok_or("a keeper")?;
        assert!(rt; comes_back(rt.alloc(), keeper, restart));
    }
    Ok(())
}

const MEMORY: &str = "out of memory";

const DEVICE: &str = "the journal's device failed";

static REPLAYS: [(ReplayFault, &str); 3] = [
    (ReplayFault::OutOfMemory, MEMORY),
    (
        ReplayFault::BadJournal { place: 2 },
        "record 2 of the journal is bad",
    ),
    (ReplayFault::Device, DEVICE),
];

static RECORDS: [(RecordFault, &str); 2] = [
    (RecordFault::BadRecord, "not a journal record"),
    (RecordFault::OutOfMemory, MEMORY),
];

static COMMITS: [(CommitFault, &str); 2] = [
    (CommitFault::OutOfMemory, MEMORY),
    (CommitFault::Device, DEVICE),
];

#[test]
fn faults_of_a_log_print(rt: HostRuntime) {
    assert_texts(&rt, rt.alloc(), &REPLAYS);
    assert_texts(&rt, rt.alloc(), &RECORDS);
    assert_texts(&rt, rt.alloc(), &COMMITS);
}
