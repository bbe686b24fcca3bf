ghost use Rattle.std.specs.Prelude.{◌≡◌, ℕ, ◌+◌, ◌-◌, ◌*◌, ◌/◌, ◌%◌, ◌<◌, ◌≤◌, ◌==◌, length, true, IsTrue, ◌↔◌, pos, Some};
ghost use Rattle.std.specs.Ordering.{nat_cmp, as_partial_cmp};
ghost use Rattle.std.proofs.Common.{rules};
ghost use Rattle.std.specs.Cmp.{partial_order_from_own_ties};
ghost use Rattle.std.specs.Cmp.Rules.{comparing};
ghost use Rattle.cns_ids.specs.Number.{is_digit};
ghost use Rattle.cns_ids.specs.Day.{has_day_form, day_text};

use crate::member::last_digit;
use jiff::civil::Date;
use std::cmp::Ordering;
use std::fmt;
use std::marker::Model;
use thiserror::Error;

/// A text is no date of the years 1900 to 2199 in the form `dddd-dd-dd`.
#[derive(Clone, Copy, PartialEq, Eq, Debug, Error)]
#[error("not a date of the years 1900 to 2199")]
pub struct BadDate;

/// A date of the Gregorian calendar, of the years 1900 to 2199. (This project's own range.)
///
/// Contracts see the number yyyymmdd, so the later date is the greater number.
#[derive(Clone, Copy, Debug)]
pub struct Day {
    number: u32,
}

impl Model for Day {
    ghost use Rattle.std.specs.Prelude.{ℕ};
    ghost use Rattle.cns_ids.specs.Day.{IsDayNumber};

    ghost Value = { ℕ };

    ghost view = { λ d. d.number };

    ghost invariant = { λ d. IsDayNumber d.number };

    ghost inverse = { λ n. record { number = n } };
}

// The value of a decimal digit.
fn digit_value(character: u8) -> u8
    requires { IsTrue (is_digit character) }
    ensures value { result ≡ character - 48 }
    ensures small { result < 10 }
{
    character - b'0'
}

// Whether a text has the form dddd-dd-dd.
fn has_form(text: &[u8]) -> bool
    ensures { result ≡ has_day_form text.now }
{
    text.len() == 10
        && text[0].is_ascii_digit()
        && text[1].is_ascii_digit()
        && text[2].is_ascii_digit()
        && text[3].is_ascii_digit()
        && text[4] == b'-'
        && text[5].is_ascii_digit()
        && text[6].is_ascii_digit()
        && text[7] == b'-'
        && text[8].is_ascii_digit()
        && text[9].is_ascii_digit()
}

impl Day {
    ghost use Rattle.cns_ids.specs.Day.{IsDayNumber};
    ghost use Rattle.cns_ids.specs.ReadDay.{day_from, read_day};

    /// The date with these parts.
    ///
    /// Refuses what the calendar has not, and years outside 1900 to 2199.
    pub fn new(year: u16, month: u8, day: u8) -> Result<Day, BadDate>
        requires { (month < 128) × (day < 128) }
        ensures exact { result ≡ day_from year month day }
    {
        if year < 1900 || year > 2199 {
            return Err(BadDate);
        }
        let number = u32::from(year) * 10000 + u32::from(month) * 100 + u32::from(day);
        match Date::new(year as i16, month as i8, day as i8) {
            Ok(_) => Ok(Day { number }),
            Err(_) => Err(BadDate),
        }
    }

    /// Reads a date in the form `dddd-dd-dd`.
    ///
    /// Refuses every other text.
    #[tactic(auto, unfolding(crate::specs::ReadDay::read_day))]
    #[inline(always)]
    pub fn read(text: &[u8]) -> Result<Day, BadDate>
        ensures exact { result ≡ read_day text.now }
    {
        if !has_form(text) {
            return Err(BadDate);
        }
        let century = digit_value(text[0]) * 10 + digit_value(text[1]);
        let rest = digit_value(text[2]) * 10 + digit_value(text[3]);
        let month = digit_value(text[5]) * 10 + digit_value(text[6]);
        let day = digit_value(text[8]) * 10 + digit_value(text[9]);
        Day::new(u16::from(century) * 100 + u16::from(rest), month, day)
    }

    /// The number yyyymmdd.
    pub fn number(self) -> u32
        ensures value { result ≡ self }
        ensures real { IsDayNumber self }
    {
        self.number
    }

    /// The ten characters of the form yyyy-mm-dd.
    pub fn to_bytes(self) -> [u8; 10]
        ensures { result ≡ day_text self }
    {
        let number = self.number();
        [
            last_digit(number / 10_000_000),
            last_digit(number / 1_000_000),
            last_digit(number / 100_000),
            last_digit(number / 10_000),
            b'-',
            last_digit(number / 1000),
            last_digit(number / 100),
            b'-',
            last_digit(number / 10),
            last_digit(number),
        ]
    }
}

impl PartialEq for Day {
    ghost eq = { ◌==◌ };

    ghost laws = { Prim.search (comparing, rules) };

    fn eq(&self, other: &Day) -> bool {
        self.number() == other.number()
    }
}

impl Eq for Day {
    ghost laws = { Prim.search (comparing, rules) };
}

impl Ord for Day {
    ghost cmp = { nat_cmp };

    ghost total = { Prim.search (comparing, rules) };

    ghost matches_partial_cmp = { Prim.search (comparing, rules) };

    ghost matches_eq = { Prim.search (comparing, rules) };

    fn cmp(&self, other: &Day) -> Ordering {
        self.number().cmp(&other.number())
    }
}

impl PartialOrd for Day {
    ghost partial_cmp = { as_partial_cmp nat_cmp };

    ghost laws = { partial_order_from_own_ties (Prim.search (comparing, rules)) (Prim.search (comparing, rules)) };

    fn partial_cmp(&self, other: &Day) -> Option<Ordering> {
        Some(self.cmp(other))
    }
}

impl fmt::Display for Day {
    ghost output = { λ d. Some (day_text d) };

    fn fmt<W: fmt::Write>(&self, f: &mut fmt::Formatter<W>) -> fmt::Result {
        match str::from_utf8(&self.to_bytes()) {
            Ok(text) => f.write_str(text),
            Err(_) => Err(fmt::Error),
        }
    }
}
