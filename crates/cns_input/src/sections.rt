ghost use Rattle.std.specs.Prelude.{◌≡◌, ◌<◌, ◌≤◌, length, option_map};
ghost use Rattle.cns_trades.specs.Fields.{same_text};
ghost use Rattle.cns_input.specs.Sections.{BeginsWithBracket, IsNextBracket, line_size as line_size_of, line_text as text_of_line, split_at_head as split_of, sections as sections_of};

use memchr::memchr;

/// The sections of an input text.
#[derive(Clone, Copy)]
pub struct Sections<'a> {
    pub openings: &'a [u8],
    pub trades: &'a [u8],
    pub script: &'a [u8],
}

/// How many bytes the first line of a text has, its LF with them: 0 where the text is empty.
pub fn line_size(text: &[u8]) -> usize
    ensures size { result ≡ line_size_of text.now }
    ensures within { result ≤ length text.now }
    ensures some { 0 < length text.now → 0 < result }
{
    // Where a line is empty, a search costs more than a look.
    if !text.is_empty() && text[0] == b'\n' {
        return 1;
    }
    match memchr(b'\n', text) {
        Some(at) => at + 1,
        None => text.len(),
    }
}

/// A line without its LF, and without one CR before that.
pub fn line_text(line: &[u8]) -> &[u8]
    ensures { result.now ≡ text_of_line line.now }
{
    let size = line.len();
    if size == 0 || line[size - 1] != b'\n' {
        return line;
    }
    let end = if size > 1 && line[size - 2] == b'\r' {
        size - 2
    } else {
        size - 1
    };
    line.split_at(end).0
}

// Whether a line is this head.
fn is_head(line: &[u8], head: &[u8]) -> bool
    ensures { result ≡ same_text (text_of_line line.now) head.now }
{
    line_text(line) == head
}

// Where the next line begins that begins with a bracket, as heads do.
fn next_bracket(text: &[u8]) -> Option<usize>
    ensures { IsNextBracket text.now result }
{
    let mut at = 0;
    while let Some(place) = memchr(b'[', &text[at..]) {
        let bracket = at + place;
        if place == 0 || text[bracket - 1] == b'\n' {
            return Some(bracket);
        }
        at = bracket + line_size(&text[bracket..]);
    }
    None
}

// The bytes before the first line that is the head, and those after it.
fn split_at_head<'a>(text: &'a [u8], head: &[u8]) -> Option<(&'a [u8], &'a [u8])>
    requires { BeginsWithBracket head.now }
    ensures { option_map (λ p. (p.0.now, p.1.now)) result ≡ split_of head.now text.now }
{
    let mut at = 0;
    while let Some(place) = next_bracket(&text[at..]) {
        let (front, rest) = text.split_at(at + place);
        let size = line_size(rest);
        let (line, after) = rest.split_at(size);
        if is_head(line, head) {
            return Some((front, after));
        }
        at = front.len() + size;
    }
    None
}

/// The sections of an input text: its first line is `[openings]`, the first line after that which is
/// `[trades]` begins the trades, and the first line after that which is `[script]` begins the script.
/// None where a head is missing.
pub fn split_input(text: &[u8]) -> Option<Sections<'_>>
    ensures { option_map (λ s. (s.openings.now, s.trades.now, s.script.now)) result ≡ sections_of text.now }
{
    let (front, rest) = split_at_head(text, b"[openings]")?;
    if !front.is_empty() {
        return None;
    }
    let (openings, rest) = split_at_head(rest, b"[trades]")?;
    let (trades, script) = split_at_head(rest, b"[script]")?;
    Some(Sections {
        openings,
        trades,
        script,
    })
}
