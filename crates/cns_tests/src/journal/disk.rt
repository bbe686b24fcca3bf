use super::{Step, are_records, tell};
use cns_journal::{DiskJournal, FileDisk, KeepFault, Keeper, MemDisk, NotPlanned};
use std::alloc::Global;
use std::fs;
use std::fs::File;
use std::process::Abort;
use std::test::Fail;

type Journal = DiskJournal<MemDisk>;

// The payloads of the records that the tests commit.
const PAYLOADS: [&[u8]; 3] = [b"first", b"", &[0xa5, 0, 0, 0, 0, 0xa5, 0xa5]];

// A file with the first two of these records, and a closed gate behind them.
const TWO: &[u8] = &[
    0xa5, 0, 0, 0, 5, b'f', b'i', b'r', b's', b't', 0xa5, 0, 0, 0, 0, 0,
];

// Reopens a journal and commits, until a call fails: how many records were acknowledged.
fn acknowledged(journal: &mut Journal) -> usize {
    if journal.reopen().is_err() {
        return 0;
    }
    for (count, payload) in PAYLOADS.iter().enumerate() {
        if payload.len() > 9 || journal.commit(payload).is_err() {
            return count;
        }
    }
    PAYLOADS.len()
}

// Whether these are the first records, those acknowledged and at most one more.
fn are_first(records: &[Vec<u8>], acknowledged: usize) -> bool {
    let count = records.len();
    acknowledged <= count
        && count - acknowledged <= 1
        && count <= PAYLOADS.len()
        && are_records(records, &PAYLOADS[..count])
}

// Whether a reopening gives the first records, those acknowledged and at most one more.
fn gives_first(journal: &mut Journal, acknowledged: usize) -> bool {
    let Ok(records) = journal.reopen() else {
        return false;
    };
    let first = are_first(records.as_slice(), acknowledged);
    drop(records);
    first
}

// A disk whose file has these bytes.
fn disk_of(alloc: Global, file: &[u8]) -> Option<MemDisk> {
    MemDisk::of(alloc, file).ok()
}

// What a run came to.
#[derive(Clone, Copy, PartialEq, Eq)]
enum Outcome {
    // All was acknowledged.
    Whole,
    // A call failed, and the records that were acknowledged stand.
    Outlived,
    Lost,
}

// What a run came to, by how many records were acknowledged, and by whether they stand.
fn come_to(acknowledged: usize, stand: bool) -> Outcome {
    match stand {
        false => Outcome::Lost,
        true if acknowledged == PAYLOADS.len() => Outcome::Whole,
        true => Outcome::Outlived,
    }
}

// A run whose n-th device call fails, and then, where one has failed, a reopening.
fn run_failing(alloc: Global, call: u64) -> Outcome {
    let Some(mut disk) = disk_of(alloc, &[]) else {
        return Outcome::Lost;
    };
    disk.fail_at(call);
    let mut journal = Journal::new(alloc, disk);
    let count = acknowledged(&mut journal);
    let stand = count == PAYLOADS.len() || gives_first(&mut journal, count);
    drop(journal);
    come_to(count, stand)
}

// The disk after a run that stops at the n-th call, and how many records were acknowledged.
fn run_stopping(alloc: Global, mut disk: MemDisk, call: u64) -> (MemDisk, usize) {
    disk.stop_at(call);
    let mut journal = Journal::new(alloc, disk);
    let count = acknowledged(&mut journal);
    (journal.into_disk(), count)
}

// Whether a journal on this disk gives the first records.
fn stand_on(alloc: Global, disk: MemDisk, acknowledged: usize) -> bool {
    let mut journal = Journal::new(alloc, disk);
    let stand = gives_first(&mut journal, acknowledged);
    drop(journal);
    stand
}

// A run whose disk stops at the n-th call, and then a reopening after the power is back.
fn run_crashing(alloc: Global, call: u64, fill: Option<u8>) -> Outcome {
    let Some(disk) = disk_of(alloc, &[]) else {
        return Outcome::Lost;
    };
    let (mut disk, count) = run_stopping(alloc, disk, call);
    let is_back = disk.power(fill).is_ok();
    let stand = stand_on(alloc, disk, count);
    come_to(count, is_back && stand)
}

// How many calls a run makes where none fails: 4 for the reopening of an empty file, and 4 for each commit.
const CALLS: u64 = 16;

// What a run comes to whose n-th call fails.
fn wanted(call: u64) -> Outcome {
    if call > CALLS {
        Outcome::Whole
    } else {
        Outcome::Outlived
    }
}

#[test]
fn a_failed_call_leaves_what_was_acknowledged(rt: HostRuntime) {
    for call in 1..20 {
        assert!(rt;
            run_failing(rt.alloc(), call) == wanted(call),
            "call {call}"
        );
    }
}

#[test]
fn a_crash_leaves_what_was_acknowledged(rt: HostRuntime) {
    for fill in [None, Some(0), Some(0xa5)] {
        for call in 1..20 {
            assert!(rt;
                run_crashing(rt.alloc(), call, fill) == wanted(call),
                "call {call}"
            );
        }
    }
}

// Whether a journal's file has these bytes.
fn has_file(journal: Journal, file: &[u8]) -> bool {
    let disk = journal.into_disk();
    let same = disk.file() == file;
    drop(disk);
    same
}

// Whether a reopening gives so many records.
fn gives<K: Keeper>(keeper: &mut K, wanted: usize) -> bool {
    let Ok(records) = keeper.reopen() else {
        return false;
    };
    let count = records.len();
    drop(records);
    count == wanted && keeper.count() == wanted as u64
}

// A file, how many records a journal over it gives, and the file then.
type Read = (&'static [u8], usize, &'static [u8]);

static READS: [Read; 8] = [
    (&[], 0, &[0]),
    (&[0], 0, &[0]),
    (&[0, 7], 0, &[0, 7]),
    (&[0xa5], 0, &[0]),
    (&[7, 0xa5], 0, &[0]),
    (&[0xa5, 0xff, 0xff, 0xff, 0xff, 1, 2], 0, &[0]),
    (&[0xa5, 0, 0, 0, 0], 0, &[0]),
    (TWO, 2, TWO),
];

// Whether a journal over a file gives what it should.
fn is_read(alloc: Global, read: &Read) -> bool {
    let (file, wanted, closed) = *read;
    let Some(disk) = disk_of(alloc, file) else {
        return false;
    };
    let mut journal = Journal::new(alloc, disk);
    let given = gives(&mut journal, wanted);
    has_file(journal, closed) && given
}

#[test]
fn any_bytes_are_a_journal(rt: HostRuntime) {
    for read in &READS {
        assert!(rt; is_read(rt.alloc(), read));
    }
}

static COMMITS: [Step; 7] = [
    Step::Down(true),
    Step::Commit(b"early", Err(KeepFault::Down)),
    Step::Reopen(&[]),
    Step::Commit(b"first", Ok(())),
    Step::Commit(b"", Ok(())),
    Step::Plan(true, Err(NotPlanned)),
    Step::Count(2),
];

#[test]
fn commits_stand_in_the_file(rt: HostRuntime) -> Result<(), Fail> {
    let disk = MemDisk::of(rt.alloc(), &[])?;
    let mut journal = Journal::new(rt.alloc(), disk);
    tell(&rt, &mut journal, &COMMITS);
    assert!(rt; has_file(journal, TWO));
    Ok(())
}

// Where the test of a file has its journal.
const PATH: &str = "cns_journal_test.journal";

// The file, made where there is none.
fn opened(rt: &HostRuntime) -> Result<File, Fail> {
    let mut options = File::options();
    options.read(true).write(true).create(true);
    Ok(options.open(rt, PATH)?)
}

static BEGINS: [Step; 2] = [Step::Reopen(&[]), Step::Commit(b"first", Ok(()))];

static GOES_ON: [Step; 2] = [Step::Reopen(&[b"first"]), Step::Commit(b"", Ok(()))];

// A journal in the file, which answers these steps as they say.
fn tell_file(rt: &impl Abort, alloc: Global, file: File, steps: &[Step]) {
    let mut journal = DiskJournal::new(alloc, FileDisk::new(file));
    tell(rt, &mut journal, steps);
    drop(journal);
}

// Whether the file has these bytes.
fn reads_as(rt: &HostRuntime, wanted: &[u8]) -> bool {
    let Ok(bytes) = fs::read(rt, PATH) else {
        return false;
    };
    let same = bytes.as_slice() == wanted;
    drop(bytes);
    same
}

#[test]
fn a_file_is_read_again(rt: HostRuntime) -> Result<(), Fail> {
    let _ = fs::remove_file(&rt, PATH);
    tell_file(&rt, rt.alloc(), opened(&rt)?, &BEGINS);
    tell_file(&rt, rt.alloc(), opened(&rt)?, &GOES_ON);
    assert!(rt; reads_as(&rt, TWO));
    fs::remove_file(&rt, PATH)?;
    Ok(())
}
