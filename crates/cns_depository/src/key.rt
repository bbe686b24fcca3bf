ghost use Rattle.std.specs.Prelude.{◌≡◌};
ghost use Rattle.cns_depository.specs.Totals.{key_of as key_of_record};

use cns_ids::MemberNo;
use cns_movements::MoveNo;
use cns_records::DepRecord;

/// What a record is found by.
#[derive(Clone, Copy, PartialEq, Eq, Hash)]
pub(crate) enum Key {
    /// The number of the order that it executed.
    Movement(MoveNo),
    /// The member and the number of the instruction that it carried out.
    Own(MemberNo, MoveNo),
}

/// The key of a record.
pub(crate) fn key_of(entry: &DepRecord) -> Key
    ensures { result ≡ key_of_record entry.now }
{
    match entry {
        DepRecord::Exec { order, .. } => Key::Movement(order.number),
        DepRecord::Own(instruction) => Key::Own(instruction.member, instruction.number),
    }
}
