ghost use Rattle.std.specs.Prelude.{◌≡◌};
ghost use Rattle.cns_movements.specs.Fields.{cycle_size, order_size, version_byte, version_of_byte};

use crate::fields::{CYCLE_SIZE, MIN_ORDER_SIZE};

/// The versions of the frames and the payloads that have an order. (This project's own formats.)
#[derive(Clone, Copy, PartialEq, Eq, Debug)]
pub enum Version {
    /// The order has no cycle.
    One,
    /// The order has a cycle.
    Two,
}

impl Version {
    /// The byte that stands for it: 1 or 2.
    pub fn byte(self) -> u8
        ensures { result ≡ version_byte self }
    {
        match self {
            Version::One => 1,
            Version::Two => 2,
        }
    }

    /// The version that a byte stands for; none but for 1 and 2.
    pub fn of_byte(byte: u8) -> Option<Version>
        ensures { result ≡ version_of_byte byte }
    {
        match byte {
            1 => Some(Version::One),
            2 => Some(Version::Two),
            _ => None,
        }
    }

    /// How many bytes an order's cycle has.
    pub fn cycle_size(self) -> usize
        ensures { result ≡ cycle_size self }
    {
        match self {
            Version::One => 0,
            Version::Two => CYCLE_SIZE,
        }
    }

    /// How many bytes the fields of an order have: 27 or 32.
    pub fn order_size(self) -> usize
        ensures { result ≡ order_size self }
    {
        MIN_ORDER_SIZE + self.cycle_size()
    }
}
