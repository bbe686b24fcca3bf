ghost use Rattle.std.specs.Prelude.{◌≡◌, bytes_eq};
ghost use Rattle.std.specs.List.{list_any};
ghost use Rattle.cns_tally.specs.Kinds.{kind_of as kind_of_line};
ghost use Rattle.cns_words.specs.Words.{line_words};

/// What a line tells was not taken.
#[derive(Clone, Copy, PartialEq, Eq, Debug)]
pub(crate) enum Kind {
    /// A row of trades or of openings that has a fault.
    FaultyRow,
    /// A line of the script that fits no form.
    BadLine,
    /// An event or a trade at which the device of a journal failed.
    DeviceFailure,
    /// A trade that was refused.
    RefusedTrade,
    /// Any other event that was refused.
    RefusedEvent,
}

// Whether a word is among those of a line.
fn has_word(line: &[u8], this: &[u8]) -> bool
    ensures { result ≡ list_any (λ word. bytes_eq word this.now) (line_words line.now) }
{
    line.split(|byte| *byte == b' ').any(|word| word == this)
}

/// What a line, without its LF, tells was not taken.
pub(crate) fn kind_of(line: &[u8]) -> Option<Kind>
    ensures { result ≡ kind_of_line line.now }
{
    if line.starts_with(b"row ") || line.starts_with(b"opening ") {
        Some(Kind::FaultyRow)
    } else if line.starts_with(b"line ") {
        Some(Kind::BadLine)
    } else if !has_word(line, b"refused") {
        None
    } else if line.ends_with(b" Device") {
        Some(Kind::DeviceFailure)
    } else if line.starts_with(b"trade ") {
        Some(Kind::RefusedTrade)
    } else {
        Some(Kind::RefusedEvent)
    }
}
