//! A text whose heads are mended, line by line.

ghost use Rattle.std.specs.Prelude.{◌≡◌, IfOk, bytes_eq};
ghost use Rattle.cns_check.specs.Mended.{is_beside as is_beside_of, is_head_name, letters_of, mended as mended_of, mended_line as mended_line_of};

use crate::finding::Head;
use cns_input::line_size;
use std::alloc::{AllocError, Global};

// Whether a byte may stand in a line beside the name of a head.
fn is_beside(byte: u8) -> bool
    ensures { result ≡ is_beside_of byte }
{
    matches!(
        byte,
        b'\t'
            | b'\n'
            | b'\r'
            | b' '
            | b'"'
            | b'('
            | b')'
            | b':'
            | b'['
            | b']'
            | b'{'
            | b'}'
            | 0xBB
            | 0xBF
            | 0xEF
    )
}

// Whether a line is a name of small letters, in whatever case, but for what may stand beside it.
fn is_name(line: &[u8], name: &[u8]) -> bool
    ensures { result ≡ bytes_eq (letters_of line.now) name.now }
{
    let mut rest = name;
    for byte in line {
        if !is_beside(*byte) {
            match rest.split_first() {
                Some((first, others)) if *first == byte.to_ascii_lowercase() => rest = others,
                _ => return false,
            }
        }
    }
    rest.is_empty()
}

/// Whether a line is the name of a head, of one or of several.
pub(crate) fn is_named(head: Head, line: &[u8]) -> bool
    ensures { result ≡ is_head_name head line.now }
{
    match head {
        Head::Openings => is_name(line, b"openings") || is_name(line, b"opening"),
        Head::Trades => is_name(line, b"trades") || is_name(line, b"trade"),
        Head::Script => is_name(line, b"script") || is_name(line, b"scripts"),
    }
}

// A line, or the head that it names.
fn mended_line(line: &[u8]) -> &[u8]
    ensures { result.now ≡ mended_line_of line.now }
{
    if is_named(Head::Openings, line) {
        b"[openings]\n"
    } else if is_named(Head::Trades, line) {
        b"[trades]\n"
    } else if is_named(Head::Script, line) {
        b"[script]\n"
    } else {
        line
    }
}

/// A text in which each line that names a head is that head.
pub(crate) fn mended(alloc: Global, text: &[u8]) -> Result<Vec<u8>, AllocError>
    ensures { IfOk result (λ out. out.items ≡ mended_of text.now) }
{
    let mut out = Vec::new(alloc);
    let mut rest = text;
    while !rest.is_empty() {
        let (line, after) = rest.split_at(line_size(rest));
        out.extend_from_slice(mended_line(line))?;
        rest = after;
    }
    Ok(out)
}
