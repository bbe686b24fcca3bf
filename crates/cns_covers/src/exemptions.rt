ghost use Rattle.std.specs.Prelude.{◌≡◌, ◌<◌, ◌∷◌, OnOk, OnErr, IsOk};
ghost use Rattle.cns_covers.specs.Exemptions.{exempt_of};

use crate::settings::{Setting, Settings};
use cns_ids::{Cusip, Holding, MemberNo, Shares};
use std::alloc::AllocError;

/// The shares that a member exempts from covers in an issue.
#[derive(Clone, Copy, PartialEq, Eq, Debug)]
pub struct Exempted {
    pub member: MemberNo,
    pub issue: Cusip,
    pub shares: Shares,
}

impl Setting for Exempted {
    type Value = Shares;

    ghost use Rattle.cns_ids.specs.Holding.{holding_at};

    ghost place = { λ s. holding_at s.issue s.member };

    ghost says = { λ s. s.shares };

    fn holding(&self) -> Holding {
        Holding {
            issue: self.issue,
            member: self.member,
        }
    }

    fn value(&self) -> Shares {
        self.shares
    }
}

/// The exemptions of all members and issues: one quantity of shares for each, which stands until it
/// is replaced, and 0 where none was set. (This project's own rule.)
pub type Exemptions = Settings<Exempted>;

impl Settings<Exempted> {
    /// Sets the shares that a member exempts in an issue, in place of those before; 0 ends the
    /// exemption.
    pub fn set(&mut self, member: MemberNo, issue: Cusip, shares: Shares) -> Result<(), AllocError>
        ensures ok { OnOk result (self.new.settings
            ≡ record { member = member; issue = issue; shares = shares } ∷ self.old.settings) }
        ensures err { OnErr result (self.new.settings ≡ self.old.settings) }
        ensures room { 0 < self.old.room → IsOk result }
    {
        self.make(Exempted {
            member,
            issue,
            shares,
        })
    }

    /// The shares that a member exempts in an issue, as last set; 0 where they never were.
    pub fn get(&self, member: MemberNo, issue: Cusip) -> Shares
        ensures { result ≡ exempt_of self.now.settings member issue }
    {
        self.newest(member, issue).unwrap_or(no_shares())
    }
}

// No shares.
fn no_shares() -> Shares
    ensures { result ≡ 0 }
{
    Shares::new(0).unwrap()
}
