ghost use Rattle.std.specs.Prelude.{◌≡◌};
ghost use Rattle.cns_named.specs.Named.{behind_first as behind_first_of, ended, first_line as first_line_of, has_line as has_line_in, without_mark as plain_of};
ghost use Rattle.cns_input.specs.Sections.{line_text as text_of_line};

use cns_input::{line_size, line_text};

/// Whether some line of a text is this one, without its end.
pub fn has_line(text: &[u8], wanted: &[u8]) -> bool
    ensures { result ≡ has_line_in wanted.now text.now }
{
    let mut rest = text;
    while !rest.is_empty() {
        let (line, after) = rest.split_at(line_size(rest));
        if line_text(line) == wanted {
            return true;
        }
        rest = after;
    }
    false
}

// The text of a line, which counts as ended where it has no LF.
fn text_once_ended(line: &[u8]) -> &[u8]
    ensures { result.now ≡ text_of_line (ended line.now) }
{
    match line.split_last() {
        Some((byte, _)) if *byte == b'\n' => line_text(line),
        Some((byte, front)) if *byte == b'\r' => front,
        _ => line,
    }
}

/// Whether some line of a text is this one, without its end, where the text's last line counts as ended.
pub(crate) fn has_line_once_ended(text: &[u8], wanted: &[u8]) -> bool
    ensures { result ≡ has_line_in wanted.now (ended text.now) }
{
    let mut rest = text;
    while !rest.is_empty() {
        let (line, after) = rest.split_at(line_size(rest));
        if text_once_ended(line) == wanted {
            return true;
        }
        rest = after;
    }
    false
}

// A text without the byte order mark of UTF-8, where it begins with one.
fn without_mark(text: &[u8]) -> &[u8]
    ensures { result.now ≡ plain_of text.now }
{
    if text.starts_with(&[0xEF, 0xBB, 0xBF]) {
        &text[3..]
    } else {
        text
    }
}

/// The first line of a text without its end, and what stands behind that line.
pub(crate) fn split_first_line(text: &[u8]) -> (&[u8], &[u8])
    ensures line { result.0.now ≡ first_line_of text.now }
    ensures rest { result.1.now ≡ behind_first_of text.now }
{
    let text = without_mark(text);
    let (line, rest) = text.split_at(line_size(text));
    (line_text(line), rest)
}
