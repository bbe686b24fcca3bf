//! The texts of a report's fields.

ghost use Rattle.std.specs.Prelude.{◌≡◌, ◌==◌, bytes_eq};
ghost use Rattle.std.specs.List.{list_all};
ghost use Rattle.cns_ids.specs.Number.{is_digit};
ghost use Rattle.cns_table.specs.Text.{is_account as is_account_text, is_cusip as is_cusip_text, is_cusip_character as may_be_in_cusip, is_date as is_date_text, is_number as is_number_text, is_signed as is_signed_text};

/// Whether a text is this one.
pub(crate) fn is_text(text: &[u8], this: &[u8]) -> bool
    ensures { result ≡ bytes_eq text.now this.now }
{
    text == this
}

fn is_cusip_character(character: u8) -> bool
    ensures { result ≡ may_be_in_cusip character }
{
    character.is_ascii_digit()
        || character.is_ascii_uppercase()
        || character == b'*'
        || character == b'@'
        || character == b'#'
}

fn all_cusip_characters(text: &[u8]) -> bool
    ensures { result ≡ list_all may_be_in_cusip text.now }
{
    text.iter().all(|character| is_cusip_character(*character))
}

fn all_digits(text: &[u8]) -> bool
    ensures { result ≡ list_all is_digit text.now }
{
    text.iter().all(|character| character.is_ascii_digit())
}

/// Whether a text is nine characters of a CUSIP.
pub(crate) fn is_cusip(text: &[u8]) -> bool
    ensures { result ≡ is_cusip_text text.now }
{
    text.len() == 9 && all_cusip_characters(text)
}

/// Whether a text is four digits, as an account has them.
pub(crate) fn is_account(text: &[u8]) -> bool
    ensures { result ≡ is_account_text text.now }
{
    text.len() == 4 && all_digits(text)
}

/// Whether a text is a number of 1 to 20 digits.
pub(crate) fn is_number(text: &[u8]) -> bool
    ensures { result ≡ is_number_text text.now }
{
    !text.is_empty() && text.len() <= 20 && all_digits(text)
}

/// Whether a text is such a number, with a minus sign in front or without.
pub(crate) fn is_signed(text: &[u8]) -> bool
    ensures { result ≡ is_signed_text text.now }
{
    if !text.is_empty() && text[0] == b'-' {
        is_number(&text[1..])
    } else {
        is_number(text)
    }
}

/// Whether a text has the form `dddd-dd-dd`.
pub(crate) fn is_date(text: &[u8]) -> bool
    ensures { result ≡ is_date_text text.now }
{
    text.len() == 10
        && text[0].is_ascii_digit()
        && text[1].is_ascii_digit()
        && text[2].is_ascii_digit()
        && text[3].is_ascii_digit()
        && text[4] == b'-'
        && text[5].is_ascii_digit()
        && text[6].is_ascii_digit()
        && text[7] == b'-'
        && text[8].is_ascii_digit()
        && text[9].is_ascii_digit()
}
