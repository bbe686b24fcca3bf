ghost use Rattle.std.specs.Prelude.{◌≡◌, ◌↔◌, ℕ, ◌<◌, ◌==◌, [], find, length, nat_lt, position, slice_get, IfOk, IfSome, IsTrue, List};
ghost use Rattle.std.specs.Option.{option_copied};
ghost use Rattle.cns_allocate.specs.Group.{rank};
ghost use Rattle.cns_allocate.specs.Plan.{IsPlan};
ghost use Rattle.cns_allocate.specs.Served.{turn_of, without};
ghost use Rattle.cns_allocate.specs.declared.planned.Planned.{Planned};

use crate::planned::Planned;
use cns_ids::MemberNo;
use std::alloc::{AllocError, Global};
use std::marker::Model;

/// What a member is answered that asks for a ticket. (This project's own rule.)
#[derive(Clone, Copy, PartialEq, Eq, Debug)]
pub enum Turn {
    /// It is not planned, or it has its ticket.
    NotLong,
    /// A member of an earlier group has no ticket yet.
    EarlierGroup,
    /// It may draw a ticket.
    Next {
        /// How many shares the ticket has, all that were planned.
        asked: u64,
    },
}

/// The members of a plan that have no ticket yet, in the plan's order.
///
/// A member draws its ticket only after each planned member of the earlier groups has one; in a group
/// the order is free. (This project's own rule.) Contracts see the members that wait, in their order.
#[derive(Debug, Drop)]
pub struct Turns {
    // The members that wait stand from `start` on, in the plan's order. Those before it drew their
    // tickets.
    list: Vec<Planned>,
    start: usize,
}

impl Model for Turns {
    ghost use Rattle.std.specs.Prelude.{◌≤◌, List, drop, length};
    ghost use Rattle.cns_allocate.specs.Plan.{IsPlan};
    ghost use Rattle.cns_allocate.specs.declared.planned.Planned.{Planned};

    ghost Value = { List Planned };

    ghost view = { λ t. drop t.start t.list.items };

    ghost invariant = { λ t. (t.start ≤ length t.list.items) × IsPlan (drop t.start t.list.items) };
}

impl Turns {
    /// Nobody's turns. They take no memory.
    pub fn new(alloc: Global) -> Turns
        ensures { result ≡ [] }
    {
        Turns {
            list: Vec::new(alloc),
            start: 0,
        }
    }

    /// The turns of a plan of which no member has a ticket.
    pub fn of(alloc: Global, plan: &[Planned]) -> Result<Turns, AllocError>
        requires plan { IsPlan plan.now }
        ensures { IfOk result (λ turns. turns ≡ plan.now) }
    {
        let list = Vec::from_slice(alloc, plan)?;
        Ok(Turns { list, start: 0 })
    }

    /// What a member is answered that asks for a ticket now.
    pub fn turn(&self, member: MemberNo) -> Turn
        ensures { result ≡ turn_of self.now member }
    {
        let waiting = &self.list[self.start..];
        turn_among(waiting.first(), planned_as(waiting, member))
    }

    /// Notes that a member has its ticket: it waits no longer. It takes no memory.
    pub fn serve(&mut self, member: MemberNo)
        ensures { self.new ≡ without member self.old }
    {
        match place_of(self.as_slice(), member) {
            Some(0) => self.start += 1,
            Some(place) => {
                self.list.remove(self.start + place);
            }
            None => {}
        }
    }

    /// The members that wait, in the plan's order.
    pub fn as_slice(&self) -> &[Planned]
        ensures { result.now ≡ self.now }
    {
        &self.list[self.start..]
    }

    /// Whether no member waits.
    pub fn is_empty(&self) -> bool
        ensures { IsTrue result ↔ (self.now ≡ []) }
    {
        self.start == self.list.len()
    }
}

// What a member is answered, by the first one that waits and by what is planned for the member if it
// waits. Where a member of an earlier group waits, the first one is of such a group.
pub(crate) fn turn_among(first: Option<&Planned>, planned: Option<Planned>) -> Turn
    ensures { (waiting : List Planned) (member : ℕ) → IsPlan waiting → option_copied first.entry ≡ slice_get waiting 0
        → planned ≡ find (λ (p : Planned). p.member == member) waiting → result ≡ turn_of waiting member }
{
    let Some(planned) = planned else {
        return Turn::NotLong;
    };
    match first {
        Some(first) if is_before(first, &planned) => Turn::EarlierGroup,
        _ => Turn::Next {
            asked: planned.asked,
        },
    }
}

// Whether one is of an earlier group than another.
fn is_before(one: &Planned, other: &Planned) -> bool
    ensures { result ≡ nat_lt (rank one.now.group) (rank other.now.group) }
{
    one.group < other.group
}

// What is planned for a member.
fn planned_as(plan: &[Planned], member: MemberNo) -> Option<Planned>
    ensures { result ≡ find (λ (p : Planned). p.member == member) plan.now }
{
    plan.iter()
        .copied()
        .find(|planned| planned.member == member)
}

// The place of what is planned for a member.
fn place_of(plan: &[Planned], member: MemberNo) -> Option<usize>
    ensures place { result ≡ position (λ (p : Planned). p.member == member) plan.now }
    ensures within { IfSome result (λ place. place < length plan.now) }
{
    plan.iter().position(|planned| planned.member == member)
}
