use cns_journal::RecordFault;
use thiserror::Error;

/// A payload is no record: its version or kind is another one, bytes are missing or left over, or a
/// field lies outside its range.
#[derive(Clone, Copy, PartialEq, Eq, Debug, Error)]
#[error("not a journal record")]
pub struct BadRecord;

impl From<BadRecord> for RecordFault {
    ghost use Rattle.std.specs.Prelude.{◌≡◌};
    ghost use Rattle.cns_journal.specs.declared.record_log.RecordFault.TheVariants as fault;

    ghost from_gives = { λ refusal given. given ≡ fault.BadRecord };

    fn from(_refusal: BadRecord) -> RecordFault {
        RecordFault::BadRecord
    }
}
