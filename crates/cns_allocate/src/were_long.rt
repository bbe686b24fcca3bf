ghost use Rattle.std.specs.Prelude.{◌≡◌, IfOk, nat_eq};
ghost use Rattle.std.specs.List.{list_any};

use cns_ids::MemberNo;
use std::alloc::{AllocError, Global};
use std::collections::HashSet;
use std::marker::Model;

// The members that were long in an issue, each found by a look-up.
//
// Contracts see the members, in their order.
#[derive(Drop)]
pub(crate) struct WereLong<'a> {
    members: &'a [MemberNo],
    among: HashSet<MemberNo>,
}

impl<'a> Model for WereLong<'a> {
    ghost use Rattle.std.specs.Prelude.{ℕ, List};
    ghost use Rattle.cns_allocate.specs.WereLong.{AreAmong};

    ghost Value = { List ℕ };

    ghost view = { λ w. w.members.now };

    ghost invariant = { λ w. AreAmong w.members.now w.among };
}

impl<'a> WereLong<'a> {
    // These members.
    pub(crate) fn of(alloc: Global, members: &'a [MemberNo]) -> Result<WereLong<'a>, AllocError>
        ensures { IfOk result (λ were_long. were_long ≡ members.now) }
    {
        let among = members.iter().copied().collect(alloc)?;
        Ok(WereLong { members, among })
    }

    // Whether a member is one of them.
    pub(crate) fn contains(&self, member: MemberNo) -> bool
        ensures { result ≡ list_any (nat_eq member) self.now }
    {
        self.among.contains(&member)
    }
}
