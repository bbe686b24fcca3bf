//! The lines of a text that is read.

ghost use Rattle.std.specs.Prelude.{◌≡◌, ◌<◌, ◌∷◌, [], MatchOption, true, false, length, IfOk, IfErr, IfSome, OnOk};
ghost use Rattle.std.specs.Io.BufRead.{DropsThrough, first_piece, strip_last};
ghost use Rattle.std.specs.Io.KnownBytes.{IsAtEnd};
ghost use Rattle.std.specs.List.{position_from};
ghost use Rattle.cns_table.specs.Faults.{IsOfInput};
ghost use Rattle.cns_table.specs.Run.{text_lines};
ghost use Rattle.cns_words.specs.Words.{is_lf};

use crate::fault::TableFault;
use std::io::{BufRead, Error, ErrorKind};

// Takes the LF at the end of a line away, where it has one.
fn drop_end(line: &mut Vec<u8>)
    ensures { line.new.items ≡ strip_last 10 line.old.items }
{
    let size = line.len();
    if size == 0 {
        return;
    }
    if line[size - 1] == b'\n' {
        line.truncate(size - 1);
    }
}

// The fault of a read that failed.
fn read_fault(error: &Error) -> TableFault
    ensures { IsOfInput result }
{
    if error.kind() == ErrorKind::OutOfMemory {
        TableFault::Memory
    } else {
        TableFault::Read
    }
}

/// Reads the next line of a text, without its LF, and says whether there was one. A last line may have no LF.
pub(crate) fn read_line<R: BufRead>(reader: &mut R, line: &mut Vec<u8>) -> Result<bool, TableFault>
    ensures line { OnOk result (IfSome (R.remaining reader.old) (λ text. line.new.items ≡ first_piece 10 text)) }
    ensures rest { OnOk result (DropsThrough (R.remaining reader.old) (R.remaining reader.new) 10) }
    ensures some { IfOk result (λ some. some ≡ true → IfSome (R.remaining reader.old) (λ text. 0 < length text)) }
    ensures end { IfOk result (λ some. some ≡ false → IsAtEnd (R.remaining reader.old)) }
    ensures kind { IfErr result IsOfInput }
{
    line.clear();
    match reader.read_until(b'\n', line) {
        Ok(0) => Ok(false),
        Ok(_) => {
            drop_end(line);
            Ok(true)
        }
        Err(error) => Err(read_fault(&error)),
    }
}

// The place of the first LF.
fn first_end(text: &[u8]) -> Option<usize>
    ensures place { result ≡ position_from is_lf 0 text.now }
    ensures within { IfSome result (λ i. i < length text.now) }
{
    for (place, byte) in text.iter().enumerate() {
        if *byte == b'\n' {
            return Some(place);
        }
    }
    None
}

/// The first line of a text in memory, without its LF, and what stands behind it. None where no line is left.
pub(crate) fn next_line(text: &[u8]) -> Option<(&[u8], &[u8])>
    ensures lines { MatchOption result (text_lines text.now ≡ []) (λ p. text_lines text.now ≡ p.0.now ∷ text_lines p.1.now) }
    ensures shorter { IfSome result (λ p. length p.1.now < length text.now) }
{
    if text.is_empty() {
        return None;
    }
    match first_end(text) {
        Some(place) => Some((&text[..place], &text[place + 1..])),
        None => Some((text, &[])),
    }
}
