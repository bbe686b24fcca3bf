ghost use Rattle.std.specs.Prelude.{◌≡◌, ◌↔◌, ◌<◌, ◌≤◌, ◌==◌, [], drop, find, length, replicate, slice_index, slice_index_or, slice_set, true, IsTrue};
ghost use Rattle.cns_allocate.specs.Plan.{IsPlan};
ghost use Rattle.cns_allocate.specs.Served.{turn_of, without};
ghost use Rattle.cns_allocate.specs.Waiting.{ArePlaces, is_placed, placed};
ghost use Rattle.cns_allocate.specs.declared.planned.Planned.{Planned};

use crate::planned::Planned;
use crate::turns::{Turn, turn_among};
use cns_ids::MemberNo;
use std::marker::Model;

// The numbers of members are below this.
pub(crate) const MEMBERS: usize = 10_000;

// The members of a plan that have no ticket yet, in the plan's order. It takes no memory, and answers
// as `Turns` does. Contracts see the members that wait, in their order.
#[derive(Drop)]
pub(crate) struct Waiting<'a> {
    plan: &'a [Planned],
    // By member number the place in the plan, counted from 1, of each member that waits; 0 for others.
    places: &'a mut [u16; MEMBERS],
    // The place of the first one that waits, counted from 0; the plan's length where none does.
    first: usize,
}

impl<'a> Model for Waiting<'a> {
    ghost use Rattle.std.specs.Prelude.{List};
    ghost use Rattle.cns_allocate.specs.Waiting.{AreWaiting, placed};
    ghost use Rattle.cns_allocate.specs.declared.planned.Planned.{Planned};

    ghost Value = { List Planned };

    ghost view = { λ w. placed w.places.now w.plan.now };

    ghost invariant = { λ w. AreWaiting w.plan.now w.places.now w.first };
}

impl<'a> Waiting<'a> {
    // Those of a plan of which no member has a ticket, by a table in which nobody has a place.
    pub(crate) fn of(plan: &'a [Planned], places: &'a mut [u16; MEMBERS]) -> Waiting<'a>
        requires plan { IsPlan plan.now }
        requires none { places.old ≡ replicate 10000 0 }
        ensures { result ≡ plan.now }
    {
        place_each(places, plan);
        let first = first_placed(plan, places, 0);
        Waiting {
            plan,
            places,
            first,
        }
    }

    // What a member is answered that asks for a ticket now.
    pub(crate) fn turn(&self, member: MemberNo) -> Turn
        ensures { result ≡ turn_of self.now member }
    {
        turn_among(self.plan.get(self.first), self.planned_as(member))
    }

    // Notes that a member has its ticket: it waits no longer.
    pub(crate) fn serve(&mut self, member: MemberNo)
        ensures { self.new ≡ without member self.old }
    {
        take_place(self.places, member);
        self.first = first_placed(self.plan, self.places, self.first);
    }

    // Whether no member waits.
    pub(crate) fn is_empty(&self) -> bool
        ensures { IsTrue result ↔ (self.now ≡ []) }
    {
        self.first == self.plan.len()
    }

    // What is planned for a member that waits.
    fn planned_as(&self, member: MemberNo) -> Option<Planned>
        ensures { result ≡ find (λ (p : Planned). p.member == member) self.now }
    {
        match place_of(self.places, member) {
            0 => None,
            place => Some(self.plan[place - 1]),
        }
    }
}

// The place of a member in the plan, counted from 1; 0 where it does not wait.
fn place_of(places: &[u16; MEMBERS], member: MemberNo) -> usize
    ensures { result ≡ slice_index places.now member }
{
    usize::from(places[usize::from(member.number())])
}

// Takes a member's place.
fn take_place(places: &mut [u16; MEMBERS], member: MemberNo)
    ensures within { member < length places.old }
    ensures taken { places.new ≡ slice_set places.old member 0 }
{
    places[usize::from(member.number())] = 0;
}

// Sets by member number the place of each one in the plan, counted from 1, in a table in which nobody has one.
fn place_each(places: &mut [u16; MEMBERS], plan: &[Planned])
    requires plan { IsPlan plan.now }
    requires none { places.old ≡ replicate 10000 0 }
    ensures places { ArePlaces plan.now places.new }
    ensures all { placed places.new plan.now ≡ plan.now }
{
    for (place, planned) in plan.iter().enumerate() {
        places[usize::from(planned.member.number())] = place as u16 + 1;
    }
}

// The place of the first one that has a place in the table, from `start` on; the plan's length where
// none has.
fn first_placed(plan: &[Planned], places: &[u16; MEMBERS], start: usize) -> usize
    requires start { start ≤ length plan.now }
    ensures within { result ≤ length plan.now }
    ensures left { placed places.now (drop result plan.now) ≡ placed places.now (drop start plan.now) }
    ensures placed { (p : Planned) → result < length plan.now → is_placed places.now (slice_index_or plan.now result p) ≡ true }
{
    let mut place = start;
    while place < plan.len() && places[usize::from(plan[place].member.number())] == 0 {
        place += 1;
    }
    place
}
