ghost use Rattle.std.specs.Prelude.{◌≡◌, ◌+◌, ◌/◌, ◌%◌, ◌<◌, ◌≤◌, Some, None, if◌then◌else◌};
ghost use Rattle.cns_ids.specs.Member.{is_member, member_text};
ghost use Rattle.cns_ids.specs.Number.{number_in};

use crate::number::{ReadFault, read_number};
use std::fmt;
use std::marker::Model;

/// A clearing member's number, from 1 to 9999. (This project's own range.)
///
/// Contracts see the number. It prints with four digits.
#[derive(Clone, Copy, PartialEq, Eq, PartialOrd, Ord, Hash, Debug)]
pub struct MemberNo {
    number: u16,
}

impl Model for MemberNo {
    ghost use Rattle.std.specs.Prelude.{ℕ};
    ghost use Rattle.cns_ids.specs.Member.{IsMember};

    ghost Value = { ℕ };

    ghost view = { λ m. m.number };

    ghost invariant = { λ m. IsMember m.number };

    ghost inverse = { λ n. record { number = n } };
}

impl MemberNo {
    ghost use Rattle.cns_ids.specs.Member.{IsMember};

    /// The member of this number; none outside 1 to 9999.
    pub fn new(number: u16) -> Option<MemberNo>
        ensures { result ≡ (if is_member number then Some number else None) }
    {
        if number >= 1 && number <= 9999 {
            Some(MemberNo { number })
        } else {
            None
        }
    }

    /// Reads a member's number.
    ///
    /// Refuses `BadNumber`, then `OutOfRange`.
    #[tactic(auto, unfolding(crate::specs::Number::number_in))]
    pub fn read(text: &[u8]) -> Result<MemberNo, ReadFault>
        ensures exact { result ≡ number_in 1 9999 text.now }
    {
        let number = read_number(text, 1, 9999)?;
        Ok(MemberNo {
            number: number as u16,
        })
    }

    /// The number.
    pub fn number(self) -> u16
        ensures value { result ≡ self }
        ensures range { IsMember self }
    {
        self.number
    }

    /// The number's four digits.
    pub fn to_bytes(self) -> [u8; 4]
        ensures { result ≡ member_text self }
    {
        let number = u32::from(self.number());
        [
            last_digit(number / 1000),
            last_digit(number / 100),
            last_digit(number / 10),
            last_digit(number),
        ]
    }
}

// The digit at the lowest place, as a byte.
pub(crate) fn last_digit(number: u32) -> u8
    ensures value { result ≡ 48 + number % 10 }
    ensures ascii { result < 58 }
{
    b'0' + (number % 10) as u8
}

impl fmt::Display for MemberNo {
    ghost output = { λ m. Some (member_text m) };

    fn fmt<W: fmt::Write>(&self, f: &mut fmt::Formatter<W>) -> fmt::Result {
        match str::from_utf8(&self.to_bytes()) {
            Ok(text) => f.write_str(text),
            Err(_) => Err(fmt::Error),
        }
    }
}
