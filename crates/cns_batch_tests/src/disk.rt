//! Runs over two disks in memory, of which one fails at a call or stops there.

use crate::batch::{FIRST, FIRST_OUTPUT, kept};
use cns_journal::{DiskJournal, Keeper, MemDisk};
use std::alloc::Global;
use std::process::Abort;

type Journal = DiskJournal<MemDisk>;

// What befalls a disk: a call fails once, or the disk stops at it, and when the power is back there is this in
// what was not synced.
#[derive(Clone, Copy)]
enum Mishap {
    Failure,
    Stop(Option<u8>),
}

// A disk after a run, and how many records its journal acknowledged.
#[derive(Drop)]
struct Left {
    disk: MemDisk,
    acknowledged: u64,
}

fn taken_from(journal: Journal) -> Left {
    let acknowledged = journal.count();
    Left {
        disk: journal.into_disk(),
        acknowledged,
    }
}

// Whether a run over these disks writes all, and both disks then.
fn run_over(alloc: Global, clear: MemDisk, depot: MemDisk) -> (bool, Left, Left) {
    let journals = (Journal::new(alloc, clear), Journal::new(alloc, depot));
    let mut output = Vec::new(alloc);
    let done = kept(alloc, FIRST, journals, &mut output);
    let is_whole = output.as_slice() == FIRST_OUTPUT;
    drop(output);
    (is_whole, taken_from(done.clear), taken_from(done.depot))
}

fn new_disk(rt: &impl Abort, alloc: Global) -> MemDisk {
    MemDisk::of(alloc, &[]).expect(rt, "memory")
}

// A disk that something befalls at its call of this number.
fn befallen(rt: &impl Abort, alloc: Global, mishap: Mishap, call: u64) -> MemDisk {
    let mut disk = new_disk(rt, alloc);
    match mishap {
        Mishap::Failure => disk.fail_at(call),
        Mishap::Stop(_) => disk.stop_at(call),
    }
    disk
}

// The records that a journal over a disk gives, once the power is back.
fn records_on(rt: &impl Abort, alloc: Global, mut disk: MemDisk, mishap: Mishap) -> Vec<Vec<u8>> {
    if let Mishap::Stop(fill) = mishap {
        disk.power(fill).expect(rt, "memory");
    }
    Journal::new(alloc, disk).reopen().expect(rt, "records")
}

// Of the records of a whole run there are those acknowledged, and at most one more.
fn assert_left(rt: &impl Abort, alloc: Global, left: Left, mishap: Mishap, all: &[Vec<u8>]) {
    let acknowledged = left.acknowledged;
    let records = records_on(rt, alloc, left.disk, mishap);
    let count = records.len() as u64;
    assert!(rt; count == acknowledged || count == acknowledged.saturating_add(1));
    assert!(rt; all.starts_with(records.as_slice()));
}

// The records of both nodes after a run whose disks do not fail.
#[derive(Drop)]
struct Records {
    clear: Vec<Vec<u8>>,
    depot: Vec<Vec<u8>>,
}

fn whole(rt: &impl Abort, alloc: Global) -> Records {
    let (is_whole, clear, depot) = run_over(alloc, new_disk(rt, alloc), new_disk(rt, alloc));
    assert!(rt; is_whole);
    Records {
        clear: records_on(rt, alloc, clear.disk, Mishap::Failure),
        depot: records_on(rt, alloc, depot.disk, Mishap::Failure),
    }
}

// Whether a run over disks, of which something befalls one at a call, writes all; where it does not, what
// was acknowledged stands.
fn outlives(
    rt: &impl Abort,
    alloc: Global,
    is_clear: bool,
    (mishap, call): (Mishap, u64),
    all: &Records,
) -> bool {
    let (disk, other) = (befallen(rt, alloc, mishap, call), new_disk(rt, alloc));
    let (clear, depot) = if is_clear {
        (disk, other)
    } else {
        (other, disk)
    };
    let (is_whole, clear, depot) = run_over(alloc, clear, depot);
    if !is_whole {
        assert_left(rt, alloc, clear, mishap, &all.clear);
        assert_left(rt, alloc, depot, mishap, &all.depot);
    }
    is_whole
}

// More calls than a run makes of a disk.
const MANY: u64 = 64;

// It befalls a disk at the first call, then at the second, and so on, until nothing does, which takes more
// than eight calls.
fn see_each_call(rt: &impl Abort, alloc: Global, is_clear: bool, mishap: Mishap, all: &Records) {
    for call in 1..MANY {
        if outlives(rt, alloc, is_clear, (mishap, call), all) {
            assert!(rt; call > 8);
            return;
        }
    }
    panic!(rt; "each run met a fault");
}

static MISHAPS: [Mishap; 4] = [
    Mishap::Failure,
    Mishap::Stop(None),
    Mishap::Stop(Some(0)),
    Mishap::Stop(Some(0xa5)),
];

#[test]
fn what_was_acknowledged_outlives_each_mishap(rt: HostRuntime) {
    let all = whole(&rt, rt.alloc());
    for mishap in &MISHAPS {
        see_each_call(&rt, rt.alloc(), true, *mishap, &all);
        see_each_call(&rt, rt.alloc(), false, *mishap, &all);
    }
}
