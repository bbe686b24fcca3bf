ghost use Rattle.std.specs.Prelude.{◌≡◌, Some};
ghost use Rattle.cns_records.specs.Instruction.{sort_text};

use cns_ids::{Cusip, MemberNo};
use cns_movements::{Asked, MoveNo};
use std::fmt;

/// Which way the shares of a member's own instruction go. (This project's own rule.)
#[derive(Clone, Copy, PartialEq, Eq, Debug)]
pub enum Sort {
    /// From outside into the member's account.
    Deposit,
    /// From the member's account to the outside.
    Withdraw,
}

impl Sort {
    /// Its name: `deposit` or `withdraw`.
    pub fn name(self) -> &'static str
        ensures { result.now ≡ sort_text self }
    {
        match self {
            Sort::Deposit => "deposit",
            Sort::Withdraw => "withdraw",
        }
    }
}

impl fmt::Display for Sort {
    ghost output = { λ s. Some (sort_text s) };

    fn fmt<W: fmt::Write>(&self, f: &mut fmt::Formatter<W>) -> fmt::Result {
        f.write_str(self.name())
    }
}

/// A member's own instruction: shares of an issue that it brings into its account, or takes out of it,
/// with no order. A member numbers its instructions of both sorts in one count, by 1 to 1,000,000.
/// (This project's own rule.)
#[derive(Clone, Copy, PartialEq, Eq, Debug)]
pub struct Instruction {
    pub sort: Sort,
    pub member: MemberNo,
    pub number: MoveNo,
    pub issue: Cusip,
    /// From 1 to 10^18 shares.
    pub shares: Asked,
}
