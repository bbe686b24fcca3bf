ghost use Rattle.std.specs.Prelude.{◌≡◌, ◌+◌, ◌-◌, ◌*◌, ◌<◌, ◌≤◌, ◌==◌, ℕ, min, not, length, option_map, IsTrue, if◌then◌else◌, Some, None};
ghost use Rattle.std.specs.List.{list_all};
ghost use Rattle.cns_ids.specs.Number.{is_digit, decimal_value, number_in, capped_value};

use thiserror::Error;

/// Why a text is no number of a range.
#[derive(Clone, Copy, PartialEq, Eq, Debug, Error)]
pub enum ReadFault {
    /// The text is empty, or a byte of it is no decimal digit.
    #[error("not a decimal number")]
    BadNumber,
    /// The number lies outside the range.
    #[error("number out of range")]
    OutOfRange,
}

// One above the largest value that is told apart: every number from here on is out of any range.
const CAP: u128 = 1 << 64;

// The value of the digits so far and one digit more, or the cap where it is at least that.
fn next_value(value: u128, digit: u8) -> u128
    requires bound { value ≤ 18446744073709551616 }
    requires digit { IsTrue (is_digit digit) }
    ensures value { result ≡ min (10 * value + (digit - 48)) 18446744073709551616 }
{
    (10 * value + u128::from(digit - b'0')).min(CAP)
}

// The value of a text of digits, or the cap where it is at least that; none where a byte is no digit.
fn capped_value_of(text: &[u8]) -> Option<u128>
    ensures { result ≡ capped_value text.now }
{
    let mut value: u128 = 0;
    for digit in text {
        if !digit.is_ascii_digit() {
            return None;
        }
        value = next_value(value, *digit);
    }
    Some(value)
}

// Every number of at most so many digits is below 2^64.
const SHORT: usize = 19;

// The number that a text of at most so many bytes is.
fn short_number(text: &[u8]) -> Result<u64, ReadFault>
    requires some { 0 < length text.now }
    requires short { length text.now ≤ 19 }
    ensures { result ≡ number_in 0 18446744073709551615 text.now }
{
    let mut number: u64 = 0;
    for digit in text {
        if !digit.is_ascii_digit() {
            return Err(ReadFault::BadNumber);
        }
        number = 10 * number + u64::from(digit - b'0');
    }
    Ok(number)
}

// The number that a text of any length is, where it is below 2^64.
#[tactic(auto, using(crate::proofs::NumberLemmas::number_in_some))]
fn long_number(text: &[u8]) -> Result<u64, ReadFault>
    requires some { 0 < length text.now }
    ensures { result ≡ number_in 0 18446744073709551615 text.now }
{
    let Some(value) = capped_value_of(text) else {
        return Err(ReadFault::BadNumber);
    };
    u64::try_from(value).map_err(|_| ReadFault::OutOfRange)
}

/// Reads a decimal number from `low` to `high`, both included, with any number of leading zeros.
///
/// Refuses `BadNumber`, then `OutOfRange`; a number past 64 bits is out of range. (This project's own
/// rule.)
#[tactic(auto, unfolding(crate::specs::Number::number_in))]
pub fn read_number(text: &[u8], low: u64, high: u64) -> Result<u64, ReadFault>
    ensures exact { result ≡ number_in low high text.now }
{
    if text.is_empty() {
        return Err(ReadFault::BadNumber);
    }
    let number = if text.len() <= SHORT {
        short_number(text)?
    } else {
        long_number(text)?
    };
    if number < low || number > high {
        return Err(ReadFault::OutOfRange);
    }
    Ok(number)
}
