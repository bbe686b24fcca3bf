//! The records of a journal's file, one after another.

ghost use Rattle.std.specs.Prelude.{◌≡◌};
ghost use Rattle.cns_journal.specs.Layout.{journal_of};

use crate::record::first_record;

/// The payloads of the records of a journal's file, the first one first, up to the first that does not count. It takes no memory.
#[derive(Clone, Copy, Debug)]
pub struct FileRecords<'a> {
    rest: &'a [u8],
}

impl<'a> FileRecords<'a> {
    ghost use Rattle.cns_file.specs.Records.{payloads_left};

    /// All records of a file.
    pub fn of(file: &'a [u8]) -> FileRecords<'a>
        ensures { payloads_left result ≡ journal_of file.now }
    {
        FileRecords { rest: file }
    }
}

impl<'a> Iterator for FileRecords<'a> {
    ghost use Rattle.std.specs.Iterator.{YieldsFirstRef, item_count};
    ghost use Rattle.cns_file.specs.Records.{payloads_left};

    type Item = &'a [u8];

    ghost next_gives = { YieldsFirstRef payloads_left };

    ghost remaining = { item_count payloads_left };

    fn next(&mut self) -> Option<&'a [u8]> {
        let record = first_record(self.rest)?;
        self.rest = record.behind;
        Some(record.payload)
    }
}
