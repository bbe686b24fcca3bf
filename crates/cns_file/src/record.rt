//! The records of a journal's file, one after another.

ghost use Rattle.std.specs.Prelude.{◌≡◌, true, false, IfSome, IfNone};
ghost use Rattle.cns_journal.specs.Layout.{behind, counts, first_payload};

use cns_journal::MAX_PAYLOAD;
use cns_journal::gate::OPEN;

/// The first record of the bytes of a journal's file.
#[derive(Clone, Copy, Debug)]
pub struct FileRecord<'a> {
    /// Its payload.
    pub payload: &'a [u8],
    /// What stands behind it, from the next gate on.
    pub behind: &'a [u8],
}

/// The first record of these bytes, where it counts: its gate is open, its length is at most 1,048,576 bytes, its
/// payload stands there whole, and so does the gate behind it. It takes no memory. (This project's own layout.)
pub fn first_record(bytes: &[u8]) -> Option<FileRecord<'_>>
    ensures some { IfSome result (λ r. (counts bytes.now ≡ true) × (r.payload.now ≡ first_payload bytes.now) × (r.behind.now ≡ behind bytes.now)) }
    ensures none { IfNone result (counts bytes.now ≡ false) }
{
    let [OPEN, first, second, third, fourth, rest @ ..] = bytes else {
        return None;
    };
    let size = u32::from_be_bytes([*first, *second, *third, *fourth]) as usize;
    if size > MAX_PAYLOAD || size >= rest.len() {
        return None;
    }
    let (payload, behind) = rest.split_at(size);
    Some(FileRecord { payload, behind })
}
