ghost use Rattle.std.specs.Prelude.{◌≡◌, ◌≤◌, Some, None, if◌then◌else◌};
ghost use Rattle.std.specs.Fmt.{decimal};
ghost use Rattle.cns_movements.specs.Asked.{is_asked};

use std::fmt;
use std::marker::Model;

/// The shares that a movement order asks for, from 1 to 10^18. (This project's own range.)
///
/// Contracts see the count of shares. It prints as a plain decimal number.
#[derive(Clone, Copy, PartialEq, Eq, PartialOrd, Ord, Hash, Debug)]
pub struct Asked {
    shares: u64,
}

impl Model for Asked {
    ghost use Rattle.std.specs.Prelude.{ℕ};
    ghost use Rattle.cns_movements.specs.Asked.{IsAsked};

    ghost Value = { ℕ };

    ghost view = { λ a. a.shares };

    ghost invariant = { λ a. IsAsked a.shares };

    ghost inverse = { λ n. record { shares = n } };
}

impl Asked {
    ghost use Rattle.cns_movements.specs.Asked.{IsAsked};

    /// The most shares that one order asks for.
    pub const MAX: u64 = 1_000_000_000_000_000_000;

    /// This many shares; none outside 1 to 10^18.
    pub fn new(shares: u64) -> Option<Asked>
        ensures { result ≡ (if is_asked shares then Some shares else None) }
    {
        if shares >= 1 && shares <= Self::MAX {
            Some(Asked { shares })
        } else {
            None
        }
    }

    /// The shares.
    pub fn shares(self) -> u64
        ensures value { result ≡ self }
        ensures range { IsAsked self }
    {
        self.shares
    }
}

impl fmt::Display for Asked {
    ghost output = { λ a. Some (decimal a) };

    fn fmt<W: fmt::Write>(&self, f: &mut fmt::Formatter<W>) -> fmt::Result {
        write!(f, "{}", self.shares)
    }
}
