//! What stands behind the last record of a journal's file.

ghost use Rattle.std.specs.Prelude.{◌≡◌};
ghost use Rattle.cns_journal.specs.Tail.{is_being_opened, is_closed, is_crash, is_short};
ghost use Rattle.cns_file.specs.Tail.{DamageIsReported, is_nothing, tail_kind};

use cns_journal::MAX_PAYLOAD;
use cns_journal::gate::{CLOSED, HEADER, OPEN};

/// What stands behind the last record of a journal's file, from the gate on that does not count. (This project's
/// own rules.)
#[derive(Clone, Copy, PartialEq, Eq, Debug)]
pub enum Tail {
    /// Nothing but a closed gate, or nothing at all in an empty file.
    Nothing,
    /// Bytes that a crash may leave in a commit or in a reopening.
    Crash,
    /// Bytes that no crash leaves.
    Damage,
}

// Whether no more than one record's bytes stand there.
fn is_short(tail: &[u8]) -> bool
    ensures { result ≡ is_short tail.now }
{
    tail.len() <= 1 + HEADER as usize + MAX_PAYLOAD
}

// Whether the gate is closed.
fn is_closed(tail: &[u8]) -> bool
    ensures { result ≡ is_closed tail.now }
{
    matches!(tail, [CLOSED, ..])
}

// Whether a record stands there whole whose gate is neither open nor closed.
fn is_being_opened(tail: &[u8]) -> bool
    ensures { result ≡ is_being_opened tail.now }
{
    let [gate, first, second, third, fourth, ..] = tail else {
        return false;
    };
    let size = u32::from_be_bytes([*first, *second, *third, *fourth]) as usize;
    let next = HEADER as usize + size;
    *gate != OPEN && size <= MAX_PAYLOAD && next < tail.len() && tail[next] == CLOSED
}

// Whether a crash may leave these bytes behind the last record.
fn is_crash(tail: &[u8]) -> bool
    ensures { result ≡ is_crash tail.now }
{
    tail.len() <= 1 || (is_closed(tail) || is_being_opened(tail)) && is_short(tail)
}

// Whether nothing stands there but at most a closed gate.
fn is_nothing(tail: &[u8]) -> bool
    ensures { result ≡ is_nothing tail.now }
{
    matches!(tail, [] | [CLOSED])
}

/// What these bytes are, which stand behind the last record of a journal's file. It takes no memory. (This
/// project's own rules.)
pub fn tail_of(tail: &[u8]) -> Tail
    ensures { result ≡ tail_kind tail.now }
{
    if is_nothing(tail) {
        Tail::Nothing
    } else if is_crash(tail) {
        Tail::Crash
    } else {
        Tail::Damage
    }
}

/// A tail is told to be damage exactly where no crash in a commit or in a reopening leaves it, as the calls of a journal on an honest disk never do.
pub fn damage_is_reported()
    ensures { DamageIsReported }
{}
