ghost use Rattle.std.specs.Prelude.{◌≡◌};
ghost use Rattle.cns_allocate.specs.Group.{group_of};

/// The group in which a member is served in an issue; those of an earlier group come first. (This
/// project's own rule.)
#[derive(Clone, Copy, PartialEq, Eq, PartialOrd, Ord, Debug)]
pub enum Group {
    /// The member has priority in the issue.
    Priority,
    /// It has no priority, and was long in the issue directly after the cycle before the latest.
    WasLong,
    /// Each other member.
    Other,
}

impl Group {
    /// The group of a member, by whether its priority in the issue is on, and whether it was long in
    /// the issue directly after the cycle before the latest.
    pub fn of(on: bool, was_long: bool) -> Group
        ensures { result ≡ group_of on was_long }
    {
        if on {
            Group::Priority
        } else if was_long {
            Group::WasLong
        } else {
            Group::Other
        }
    }
}
