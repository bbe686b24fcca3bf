//! The names among the words of a line.

ghost use Rattle.std.specs.Prelude.{◌≡◌, option_map};
ghost use Rattle.cns_words.specs.Words.{words_behind};
ghost use Rattle.cns_table.specs.Words.{named as named_in};

use crate::text::is_text;
use cns_words::split_word;

/// The word behind this name, where the text begins with that, and the bytes behind the word's space where
/// there is one.
pub(crate) fn named<'a>(text: Option<&'a [u8]>, name: &[u8]) -> Option<(&'a [u8], Option<&'a [u8]>)>
    ensures { option_map (λ p. (p.0.now, words_behind p.1)) result ≡ named_in name.now (words_behind text.entry) }
{
    let (word, rest) = split_word(text?);
    let (value, more) = split_word(rest?);
    if is_text(word, name) {
        Some((value, more))
    } else {
        None
    }
}
