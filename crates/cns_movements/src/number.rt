ghost use Rattle.std.specs.Prelude.{◌≡◌, ◌+◌, ◌<◌, ◌≤◌, Some, None, if◌then◌else◌};
ghost use Rattle.std.specs.Fmt.{decimal};
ghost use Rattle.cns_movements.specs.Number.{is_move_no};

use std::fmt;
use std::marker::Model;

/// The number of a movement order, from 1 to 1,000,000. (This project's own range.)
///
/// Contracts see the number. It prints as a plain decimal number.
#[derive(Clone, Copy, PartialEq, Eq, PartialOrd, Ord, Hash, Debug)]
pub struct MoveNo {
    number: u64,
}

impl Model for MoveNo {
    ghost use Rattle.std.specs.Prelude.{ℕ};
    ghost use Rattle.cns_movements.specs.Number.{IsMoveNo};

    ghost Value = { ℕ };

    ghost view = { λ n. n.number };

    ghost invariant = { λ n. IsMoveNo n.number };

    ghost inverse = { λ n. record { number = n } };
}

impl MoveNo {
    ghost use Rattle.cns_movements.specs.Number.{IsMoveNo};

    /// The last number that there is.
    pub const MAX: u64 = 1_000_000;

    /// The movement of this number; none outside 1 to 1,000,000.
    pub fn new(number: u64) -> Option<MoveNo>
        ensures { result ≡ (if is_move_no number then Some number else None) }
    {
        if number >= 1 && number <= Self::MAX {
            Some(MoveNo { number })
        } else {
            None
        }
    }

    /// The number.
    pub fn number(self) -> u64
        ensures value { result ≡ self }
        ensures range { IsMoveNo self }
    {
        self.number
    }

    // The number of the order in this place of the book, counted from 0.
    pub(crate) fn of_place(place: usize) -> MoveNo
        requires { place < 1000000 }
        ensures { result ≡ place + 1 }
    {
        MoveNo {
            number: place as u64 + 1,
        }
    }

    // The place in the book, counted from 0, of the order of this number.
    pub(crate) fn place(self) -> usize
        ensures { result + 1 ≡ self }
    {
        (self.number - 1) as usize
    }
}

impl fmt::Display for MoveNo {
    ghost output = { λ n. Some (decimal n) };

    fn fmt<W: fmt::Write>(&self, f: &mut fmt::Formatter<W>) -> fmt::Result {
        write!(f, "{}", self.number)
    }
}
