ghost use Rattle.std.specs.Prelude.{◌≡◌, ◌%◌, ◌<◌, ◌==◌, length, slice_index, is_some, IfSome, MatchResult, if◌then◌else◌, Some, None};
ghost use Rattle.std.specs.Ordering.{nat_cmp, as_partial_cmp};
ghost use Rattle.std.proofs.Common.{rules};
ghost use Rattle.std.specs.Cmp.{partial_order_from_own_ties};
ghost use Rattle.std.specs.Cmp.Rules.{comparing, hashing};
ghost use Rattle.std.specs.Hash as fed;
ghost use Rattle.cns_ids.specs.Cusip.{value_of, share_at as share_of_place, cusip_text};
ghost use Rattle.cns_ids.specs.CusipHead.{IsHead, IsHeadFault};

use std::cmp::Ordering;
use std::fmt;
use std::hash::{Hash, Hasher};
use std::marker::Model;
use thiserror::Error;

/// Why a text is no CUSIP.
#[derive(Clone, Copy, PartialEq, Eq, Debug, Error)]
pub enum CusipFault {
    /// The text has not nine characters.
    #[error("a CUSIP has nine characters")]
    Length,
    /// The character in this place, counted from 1, is not allowed there.
    #[error("the character in place {place} is not allowed there")]
    BadChar { place: u8 },
    /// The last character is not the check digit that is wanted.
    #[error("the check digit is {want}")]
    CheckDigit { want: u8 },
}

/// The number of an issue: six characters for the issuer, two for the issue, one check digit.
///
/// The rule of the check digit is ANSI X9.6's, modulus 10 with double add double. Contracts see the
/// nine bytes as one number in base 256, so issues stand in the order of their bytes.
#[derive(Clone, Copy, Debug)]
pub struct Cusip {
    // The nine characters as one number in base 128, the first one highest.
    number: u64,
}

impl Model for Cusip {
    ghost use Rattle.std.specs.Prelude.{ℕ};
    ghost use Rattle.std.proofs.Common.{refl};
    ghost use Rattle.cns_ids.specs.Cusip.{IsCusip};
    ghost use Rattle.cns_ids.specs.CusipNumber.{widened, narrowed, narrowed-widened};

    ghost Value = { ℕ };

    ghost view = { λ c. widened 9 c.number };

    ghost invariant = { λ c. IsCusip (widened 9 c.number) };

    ghost inverse = { λ n. record { number = narrowed 9 n } };

    ghost inverse_ok = { λ a h. Prim.rw (narrowed-widened 9 a.number) refl };
}

// What a byte that is not listed has in a table of shares.
const NOT_LISTED: u8 = 255;

// What each byte adds to the sum in an odd place: the digits of its value added up.
const ODD_SHARES: [u8; 256] = [
    255, 255, 255, 255, 255, 255, 255, 255, 255, 255, 255, 255, 255, 255, 255, 255, 255, 255, 255,
    255, 255, 255, 255, 255, 255, 255, 255, 255, 255, 255, 255, 255, 255, 255, 255, 11, 255, 255,
    255, 255, 255, 255, 9, 255, 255, 255, 255, 255, 0, 1, 2, 3, 4, 5, 6, 7, 8, 9, 255, 255, 255,
    255, 255, 255, 10, 1, 2, 3, 4, 5, 6, 7, 8, 9, 10, 2, 3, 4, 5, 6, 7, 8, 9, 10, 11, 3, 4, 5, 6,
    7, 8, 255, 255, 255, 255, 255, 255, 255, 255, 255, 255, 255, 255, 255, 255, 255, 255, 255, 255,
    255, 255, 255, 255, 255, 255, 255, 255, 255, 255, 255, 255, 255, 255, 255, 255, 255, 255, 255,
    255, 255, 255, 255, 255, 255, 255, 255, 255, 255, 255, 255, 255, 255, 255, 255, 255, 255, 255,
    255, 255, 255, 255, 255, 255, 255, 255, 255, 255, 255, 255, 255, 255, 255, 255, 255, 255, 255,
    255, 255, 255, 255, 255, 255, 255, 255, 255, 255, 255, 255, 255, 255, 255, 255, 255, 255, 255,
    255, 255, 255, 255, 255, 255, 255, 255, 255, 255, 255, 255, 255, 255, 255, 255, 255, 255, 255,
    255, 255, 255, 255, 255, 255, 255, 255, 255, 255, 255, 255, 255, 255, 255, 255, 255, 255, 255,
    255, 255, 255, 255, 255, 255, 255, 255, 255, 255, 255, 255, 255, 255, 255, 255, 255, 255, 255,
    255, 255, 255, 255, 255, 255, 255, 255, 255, 255, 255, 255, 255, 255,
];

// And in an even place, where its value is doubled first.
const EVEN_SHARES: [u8; 256] = [
    255, 255, 255, 255, 255, 255, 255, 255, 255, 255, 255, 255, 255, 255, 255, 255, 255, 255, 255,
    255, 255, 255, 255, 255, 255, 255, 255, 255, 255, 255, 255, 255, 255, 255, 255, 13, 255, 255,
    255, 255, 255, 255, 9, 255, 255, 255, 255, 255, 0, 2, 4, 6, 8, 1, 3, 5, 7, 9, 255, 255, 255,
    255, 255, 255, 11, 2, 4, 6, 8, 10, 3, 5, 7, 9, 11, 4, 6, 8, 10, 12, 5, 7, 9, 11, 13, 6, 8, 10,
    12, 14, 7, 255, 255, 255, 255, 255, 255, 255, 255, 255, 255, 255, 255, 255, 255, 255, 255, 255,
    255, 255, 255, 255, 255, 255, 255, 255, 255, 255, 255, 255, 255, 255, 255, 255, 255, 255, 255,
    255, 255, 255, 255, 255, 255, 255, 255, 255, 255, 255, 255, 255, 255, 255, 255, 255, 255, 255,
    255, 255, 255, 255, 255, 255, 255, 255, 255, 255, 255, 255, 255, 255, 255, 255, 255, 255, 255,
    255, 255, 255, 255, 255, 255, 255, 255, 255, 255, 255, 255, 255, 255, 255, 255, 255, 255, 255,
    255, 255, 255, 255, 255, 255, 255, 255, 255, 255, 255, 255, 255, 255, 255, 255, 255, 255, 255,
    255, 255, 255, 255, 255, 255, 255, 255, 255, 255, 255, 255, 255, 255, 255, 255, 255, 255, 255,
    255, 255, 255, 255, 255, 255, 255, 255, 255, 255, 255, 255, 255, 255, 255, 255, 255, 255, 255,
    255, 255, 255, 255, 255, 255, 255, 255, 255, 255, 255, 255, 255, 255, 255,
];

// What a byte has in such a table; none where it is not listed.
fn share_in(shares: &[u8; 256], character: u8) -> Option<u8>
    ensures { let share = slice_index shares.now character in result ≡ (if share == 255 then None else Some share) }
{
    let share = shares[usize::from(character)];
    if share == NOT_LISTED {
        None
    } else {
        Some(share)
    }
}

// What a character in a place, counted from 1, adds to the sum; none where it is not listed.
fn share_at(place: u8, character: u8) -> Option<u8>
    ensures share { result ≡ (if is_some (value_of character) then Some (share_of_place place character) else None) }
    ensures small { IfSome result (λ share. share < 17) }
    ensures ascii { IfSome result (λ share. character < 128) }
{
    if place % 2 == 0 {
        share_in(&EVEN_SHARES, character)
    } else {
        share_in(&ODD_SHARES, character)
    }
}

// The first eight characters of a CUSIP.
#[derive(Clone, Copy)]
struct Head {
    // As one number in base 128, the first one highest.
    number: u64,
    // The check digit that they want.
    digit: u8,
}

// Reads the first eight characters: the first one that is not listed is their fault.
fn read_head(text: &[u8]) -> Result<Head, CusipFault>
    requires { length text.now ≡ 8 }
    ensures { MatchResult result (IsHead text.now) (IsHeadFault text.now) }
{
    let mut number: u64 = 0;
    let mut sum: u16 = 0;
    let mut place: u8 = 1;
    for character in text {
        let Some(share) = share_at(place, *character) else {
            return Err(CusipFault::BadChar { place });
        };
        number = number * 128 + u64::from(*character);
        sum += u16::from(share);
        place += 1;
    }
    let digit = ((10 - sum % 10) % 10) as u8;
    Ok(Head { number, digit })
}

// The character in the lowest place of a number in base 128.
fn last_character(number: u64) -> u8
    ensures { result ≡ number % 128 }
{
    (number % 128) as u8
}

impl Cusip {
    ghost use Rattle.cns_ids.specs.Cusip.{IsCusip, read_cusip};
    ghost use Rattle.cns_ids.specs.CusipNumber.{narrowed, widened};

    /// Reads a CUSIP.
    ///
    /// Refuses `Length`, then the first `BadChar`, then `CheckDigit`.
    #[tactic(auto, unfolding(crate::specs::Cusip::read_cusip))]
    #[inline(always)]
    pub fn read(text: &[u8]) -> Result<Cusip, CusipFault>
        ensures exact { result ≡ read_cusip text.now }
    {
        if text.len() != 9 {
            return Err(CusipFault::Length);
        }
        let head = read_head(&text[..8])?;
        let digit = text[8];
        if !digit.is_ascii_digit() {
            return Err(CusipFault::BadChar { place: 9 });
        }
        if digit != b'0' + head.digit {
            return Err(CusipFault::CheckDigit { want: head.digit });
        }
        let number = head.number * 128 + u64::from(digit);
        Ok(Cusip { number })
    }

    /// The nine characters as one number in base 128: CUSIPs stand in the order of these.
    pub fn word(self) -> u64
        ensures word { result ≡ narrowed 9 self }
        ensures wide { widened 9 result ≡ self }
    {
        self.number
    }

    /// The nine characters.
    pub fn to_bytes(self) -> [u8; 9]
        ensures text { result ≡ cusip_text self }
        ensures cusip { IsCusip self }
    {
        let number = self.number;
        [
            last_character(number >> 56),
            last_character(number >> 49),
            last_character(number >> 42),
            last_character(number >> 35),
            last_character(number >> 28),
            last_character(number >> 21),
            last_character(number >> 14),
            last_character(number >> 7),
            last_character(number),
        ]
    }
}

impl PartialEq for Cusip {
    ghost eq = { ◌==◌ };

    ghost laws = { Prim.search (comparing, rules) };

    fn eq(&self, other: &Cusip) -> bool {
        self.number == other.number
    }
}

impl Eq for Cusip {
    ghost laws = { Prim.search (comparing, rules) };
}

impl Ord for Cusip {
    ghost cmp = { nat_cmp };

    ghost total = { Prim.search (comparing, rules) };

    ghost matches_partial_cmp = { Prim.search (comparing, rules) };

    ghost matches_eq = { Prim.search (comparing, rules) };

    fn cmp(&self, other: &Cusip) -> Ordering {
        self.number.cmp(&other.number)
    }
}

impl PartialOrd for Cusip {
    ghost partial_cmp = { as_partial_cmp nat_cmp };

    ghost laws = { partial_order_from_own_ties (Prim.search (comparing, rules)) (Prim.search (comparing, rules)) };

    fn partial_cmp(&self, other: &Cusip) -> Option<Ordering> {
        Some(self.cmp(other))
    }
}

impl Hash for Cusip {
    ghost use Rattle.cns_ids.specs.CusipNumber.{narrowed};

    ghost hash_input = { λ n. fed.u64 (narrowed 9 n) };

    ghost respects_eq = { Prim.search (hashing, rules) };

    fn hash<H: Hasher>(&self, state: &mut H) {
        self.number.hash(state);
    }
}

impl fmt::Display for Cusip {
    ghost output = { λ c. Some (cusip_text c) };

    fn fmt<W: fmt::Write>(&self, f: &mut fmt::Formatter<W>) -> fmt::Result {
        match str::from_utf8(&self.to_bytes()) {
            Ok(text) => f.write_str(text),
            Err(_) => Err(fmt::Error),
        }
    }
}
