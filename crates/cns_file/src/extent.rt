//! How far the records of a journal's file reach, and what stands behind them.

ghost use Rattle.std.specs.Prelude.{◌≡◌, length};
ghost use Rattle.cns_journal.specs.Layout.{journal_of};
ghost use Rattle.cns_journal.specs.Tail.{behind_records, end_of};
ghost use Rattle.cns_file.specs.Tail.{tail_kind};

use crate::record::first_record;
use crate::tail::{Tail, tail_of};

/// What a journal's file holds. (This project's own rules.)
#[derive(Clone, Copy, PartialEq, Eq, Debug)]
pub struct Extent {
    /// How many records count.
    pub records: u64,
    /// How many bytes they take: there stands the gate behind the last one.
    pub bytes: u64,
    /// What stands from there on.
    pub tail: Tail,
}

/// What the bytes of a journal's file hold. It takes no memory. (This project's own rules.)
pub fn extent_of(file: &[u8]) -> Extent
    ensures records { result.records ≡ length (journal_of file.now) }
    ensures bytes { result.bytes ≡ end_of file.now }
    ensures tail { result.tail ≡ tail_kind (behind_records file.now) }
{
    let mut records = 0;
    let mut rest = file;
    'records: while let Some(record) = first_record(rest) {
        rest = record.behind;
        records += 1;
    }
    Extent {
        records,
        bytes: (file.len() - rest.len()) as u64,
        tail: tail_of(rest),
    }
}
