ghost use Rattle.std.specs.Prelude.{◌≡◌, ◌<◌, ◌∷◌, OnOk, OnErr, IsOk};
ghost use Rattle.cns_covers.specs.Priorities.{is_on};

use crate::settings::{Setting, Settings};
use cns_ids::{Cusip, Holding, MemberNo};
use std::alloc::AllocError;

/// Whether a member has priority in an issue.
#[derive(Clone, Copy, PartialEq, Eq, Debug)]
pub struct Prioritized {
    pub member: MemberNo,
    pub issue: Cusip,
    pub on: bool,
}

impl Setting for Prioritized {
    type Value = bool;

    ghost use Rattle.cns_ids.specs.Holding.{holding_at};

    ghost place = { λ s. holding_at s.issue s.member };

    ghost says = { λ s. s.on };

    fn holding(&self) -> Holding {
        Holding {
            issue: self.issue,
            member: self.member,
        }
    }

    fn value(&self) -> bool {
        self.on
    }
}

/// The priorities of all members and issues: each on or off until it is set again, and off where it
/// was never set. A member with priority is served before others that are long in the issue. (This
/// project's own rule.)
pub type Priorities = Settings<Prioritized>;

impl Settings<Prioritized> {
    /// Sets whether a member has priority in an issue, in place of what was set before.
    pub fn set(&mut self, member: MemberNo, issue: Cusip, on: bool) -> Result<(), AllocError>
        ensures ok { OnOk result (self.new.settings
            ≡ record { member = member; issue = issue; on = on } ∷ self.old.settings) }
        ensures err { OnErr result (self.new.settings ≡ self.old.settings) }
        ensures room { 0 < self.old.room → IsOk result }
    {
        self.make(Prioritized { member, issue, on })
    }

    /// Whether a member has priority in an issue, as last set; false where it never was.
    pub fn get(&self, member: MemberNo, issue: Cusip) -> bool
        ensures { result ≡ is_on self.now.settings member issue }
    {
        self.newest(member, issue).unwrap_or(false)
    }
}
