ghost use Rattle.std.specs.Prelude.{◌≡◌, ◌^◌, ◌≤◌, Some, None, if◌then◌else◌};
ghost use Rattle.cns_ids.specs.Shares.{is_shares, is_quantity};
ghost use Rattle.cns_ids.specs.Number.{number_in};

use crate::number::{ReadFault, read_number};
use std::marker::Model;

/// A count of shares, from 0 to 10^18. (This project's own limit.) Contracts see the count.
#[derive(Clone, Copy, PartialEq, Eq, PartialOrd, Ord, Hash, Debug)]
pub struct Shares {
    count: u64,
}

impl Model for Shares {
    ghost use Rattle.std.specs.Prelude.{ℕ};
    ghost use Rattle.cns_ids.specs.Shares.{IsShares};

    ghost Value = { ℕ };

    ghost view = { λ s. s.count };

    ghost invariant = { λ s. IsShares s.count };

    ghost inverse = { λ n. record { count = n } };
}

impl Shares {
    ghost use Rattle.cns_ids.specs.Shares.{IsShares};

    /// The most shares that one count holds.
    pub const MAX: u64 = 1_000_000_000_000_000_000;

    /// This count of shares; none above 10^18.
    pub fn new(count: u64) -> Option<Shares>
        ensures { result ≡ (if is_shares count then Some count else None) }
    {
        if count <= Self::MAX {
            Some(Shares { count })
        } else {
            None
        }
    }

    /// Reads a count of shares.
    ///
    /// Refuses `BadNumber`, then `OutOfRange`.
    #[tactic(auto, unfolding(crate::specs::Number::number_in))]
    pub fn read(text: &[u8]) -> Result<Shares, ReadFault>
        ensures exact { result ≡ number_in 0 (10 ^ 18) text.now }
    {
        let count = read_number(text, 0, Self::MAX)?;
        Ok(Shares { count })
    }

    /// The count.
    pub fn count(self) -> u64
        ensures value { result ≡ self }
        ensures range { IsShares self }
    {
        self.count
    }
}

/// The shares of one trade, from 1 to 999,999,999,999. (This project's own range.) Contracts see the
/// count.
#[derive(Clone, Copy, PartialEq, Eq, PartialOrd, Ord, Hash, Debug)]
pub struct Quantity {
    shares: u64,
}

impl Model for Quantity {
    ghost use Rattle.std.specs.Prelude.{ℕ};
    ghost use Rattle.cns_ids.specs.Shares.{IsQuantity};

    ghost Value = { ℕ };

    ghost view = { λ q. q.shares };

    ghost invariant = { λ q. IsQuantity q.shares };

    ghost inverse = { λ n. record { shares = n } };
}

impl Quantity {
    ghost use Rattle.cns_ids.specs.Shares.{IsQuantity};

    /// The most shares of one trade.
    pub const MAX: u64 = 999_999_999_999;

    /// This quantity; none outside its range.
    pub fn new(shares: u64) -> Option<Quantity>
        ensures { result ≡ (if is_quantity shares then Some shares else None) }
    {
        if shares >= 1 && shares <= Self::MAX {
            Some(Quantity { shares })
        } else {
            None
        }
    }

    /// The shares.
    pub fn shares(self) -> u64
        ensures value { result ≡ self }
        ensures range { IsQuantity self }
    {
        self.shares
    }
}

/// Reads a trade's quantity.
///
/// Refuses `BadNumber`, then `OutOfRange`.
#[tactic(auto, unfolding(crate::specs::Number::number_in))]
pub fn read_quantity(text: &[u8]) -> Result<Quantity, ReadFault>
    ensures exact { result ≡ number_in 1 999999999999 text.now }
{
    let shares = read_number(text, 1, Quantity::MAX)?;
    Ok(Quantity { shares })
}
