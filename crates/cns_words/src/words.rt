ghost use Rattle.std.specs.Prelude.{◌≡◌, ◌==◌, ◌<◌, ◌∷◌, length, IfSome};
ghost use Rattle.std.specs.List.{position_from};
ghost use Rattle.cns_words.specs.Words.{line_words, words_behind};

// The place of the first space.
fn first_space(line: &[u8]) -> Option<usize>
    ensures place { result ≡ position_from (λ c. c == 32) 0 line.now }
    ensures within { IfSome result (λ i. i < length line.now) }
{
    for (place, byte) in line.iter().enumerate() {
        if *byte == b' ' {
            return Some(place);
        }
    }
    None
}

/// The first word of a line, and the bytes behind its space where there is one. A word may be empty: spaces
/// may stand together, or at an end of the line (this project's own rule).
pub fn split_word(line: &[u8]) -> (&[u8], Option<&[u8]>)
    ensures { line_words line.now ≡ result.0.now ∷ words_behind result.1 }
{
    match first_space(line) {
        Some(place) => (&line[..place], Some(&line[place + 1..])),
        None => (line, None),
    }
}

/// Whether no word is behind another, by the bytes behind that one's space where there is one.
pub fn none_behind(rest: Option<&[u8]>) -> bool
    ensures { result ≡ (length (words_behind rest.entry) == 0) }
{
    rest.is_none()
}
