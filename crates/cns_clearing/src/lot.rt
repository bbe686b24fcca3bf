ghost use Rattle.std.specs.Prelude.{◌≡◌, ℕ, ◌<◌, ◌==◌, ◌++◌, ◌∷◌, [], nat_eq, not, IsTrue, ◌↔◌, filter, map, option_map, None, Some, IfOk, OnOk, if◌then◌else◌};
ghost use Rattle.std.specs.HashMap.{get, spare};
ghost use Rattle.std.specs.List.{filter_map};
ghost use Rattle.cns_clearing.specs.Pools.{lot_of};
ghost use Rattle.cns_clearing.specs.Lots.{lots_after, refilled, without_lot};
ghost use Rattle.cns_clearing.specs.declared.lot.Lot.{Lot};

use cns_allocate::Plan;
use cns_ids::{Cusip, Shares};
use cns_records::ClearRecord;
use std::alloc::{AllocError, Global};
use std::collections::HashMap;
use std::marker::Model;

/// An open lot: shares of an issue that are being given to the members that are long in it.
///
/// (This project's own rule.)
#[derive(Debug, Drop)]
pub struct Lot {
    pub issue: Cusip,
    /// How many records the node had when the lot was opened.
    pub opened: u64,
    /// How many records it had when shares were last poured into the lot.
    pub upto: u64,
    /// The shares that were poured into it.
    pub poured: Shares,
    /// The members that are to receive shares, as they stood when the lot was opened.
    pub plan: Plan,
}

// The open lots, at most one of an issue.
//
// Contracts see the lots, in the order in which they were opened, and beside them for how many more
// there is room.
#[derive(Drop)]
pub(crate) struct Lots {
    // In the order in which the lots were opened. A lot that is closed leaves an empty slot, until no lot is
    // open any more.
    slots: Vec<Option<Lot>>,
    // The place of the slot of each issue's lot.
    places: HashMap<Cusip, usize>,
}

impl Model for Lots {
    ghost use Rattle.std.specs.Prelude.{◌-◌, length, min, nat_eq, vec_capacity};
    ghost use Rattle.std.specs.HashMap.{get, spare};
    ghost use Rattle.cns_clearing.specs.OpenLots.{AreSlots, LotRoom, filled};

    ghost Value = { LotRoom };

    ghost view = { λ l. record {
      lots = filled l.slots.items;
      room = min (vec_capacity l.slots - length l.slots.items) (spare l.places);
    } };

    ghost invariant = { λ l. AreSlots l.slots.items (λ issue. get nat_eq l.places issue) };
}

impl Lots {
    // No lots. They take no memory.
    pub(crate) fn new(alloc: Global) -> Lots
        ensures { result.lots ≡ [] }
    {
        Lots {
            slots: Vec::new(alloc),
            places: HashMap::new(alloc),
        }
    }

    // Whether no lot is open.
    pub(crate) fn is_empty(&self) -> bool
        ensures { IsTrue result ↔ (self.now.lots ≡ []) }
    {
        self.slots.is_empty()
    }

    // The issues of the lots, in the order in which the lots were opened.
    pub(crate) fn issues(&self, alloc: Global) -> Result<Vec<Cusip>, AllocError>
        ensures { IfOk result (λ issues. issues.items ≡ map (λ (lot : Lot). lot.issue) self.now.lots) }
    {
        let issues = issues_of(alloc, self.slots.as_slice())?;
        Ok(issues)
    }

    // The open lot of an issue.
    pub(crate) fn get(&self, issue: Cusip) -> Option<&Lot>
        ensures { option_map (λ lot. lot.now) result ≡ lot_of self.now.lots issue }
    {
        match place_of(&self.places, issue) {
            Some(place) => self.slots[place].as_ref(),
            None => None,
        }
    }

    // Takes the memory that one more lot needs.
    pub(crate) fn room(&mut self) -> Result<(), AllocError>
        ensures same { self.new.lots ≡ self.old.lots }
        ensures room { OnOk result (0 < self.new.room) }
    {
        self.slots.reserve(1)?;
        self.places.reserve(1)
    }

    // Opens a lot of an issue that has none. It takes no memory.
    pub(crate) fn open(&mut self, lot: Lot)
        requires room { 0 < self.old.room }
        requires first { lot_of self.old.lots lot.issue ≡ None }
        ensures { self.new.lots ≡ self.old.lots ++ lot ∷ [] }
    {
        put(&mut self.places, lot.issue, self.slots.len());
        self.slots.push_reserved(Some(lot));
    }

    // Sets what the lot of an issue has, and after how many records.
    pub(crate) fn refill(&mut self, issue: Cusip, upto: u64, poured: Shares)
        ensures { self.new.lots ≡ map (refilled issue upto poured) self.old.lots }
    {
        if let Some(place) = place_of(&self.places, issue) {
            pour(&mut self.slots[place], upto, poured);
        }
    }

    // Closes the lot that a record closes, where it closes one.
    pub(crate) fn follow(&mut self, entry: &ClearRecord)
        ensures { self.new.lots ≡ lots_after entry.now self.old.lots }
    {
        match entry {
            ClearRecord::Allocate(allocation) => self.close(allocation.issue),
            ClearRecord::Accept(_)
            | ClearRecord::Exempt { .. }
            | ClearRecord::Priority { .. }
            | ClearRecord::Cycle(_)
            | ClearRecord::Confirm(_) => {}
        }
    }

    // Closes the lot of an issue. Costs look-ups; that of the last lot drops the empty slots as well.
    fn close(&mut self, issue: Cusip)
        ensures { self.new.lots ≡ without_lot issue self.old.lots }
    {
        if let Some(place) = take_out(&mut self.places, issue) {
            self.slots[place] = None;
            if self.places.is_empty() {
                self.slots.clear();
            }
        }
    }

    // Ends all lots.
    pub(crate) fn clear(&mut self)
        ensures { self.new.lots ≡ [] }
    {
        self.slots.clear();
        self.places.clear();
    }
}

// The issues of the lots of some slots, in their order.
fn issues_of(alloc: Global, slots: &[Option<Lot>]) -> Result<Vec<Cusip>, AllocError>
    ensures { IfOk result (λ issues. issues.items ≡ filter_map (option_map (λ (lot : Lot). lot.issue)) slots.now) }
{
    slots
        .iter()
        .filter_map(|slot| issue_of(slot))
        .collect(alloc)
}

// The issue of the lot of a slot, where it has one.
fn issue_of(slot: &Option<Lot>) -> Option<Cusip>
    ensures { result ≡ option_map (λ (lot : Lot). lot.issue) slot.now }
{
    let lot = slot.as_ref()?;
    Some(lot.issue)
}

// The place of the lot of an issue.
fn place_of(places: &HashMap<Cusip, usize>, issue: Cusip) -> Option<usize>
    ensures { result ≡ get nat_eq places.now issue }
{
    places.get(&issue).copied()
}

// Takes out the place of an issue's lot, where it has one, and answers it.
fn take_out(places: &mut HashMap<Cusip, usize>, issue: Cusip) -> Option<usize>
    ensures place { result ≡ get nat_eq places.old issue }
    ensures left { (i : ℕ) → get nat_eq places.new i ≡ (if issue == i then None else get nat_eq places.old i) }
{
    places.remove(&issue)
}

// Sets what the lot of a slot has, and after how many records.
fn pour(slot: &mut Option<Lot>, upto: u64, poured: Shares)
    ensures { slot.new ≡ option_map (λ (lot : Lot). record lot { upto = upto; poured = poured }) slot.old }
{
    if let Some(lot) = slot {
        lot.upto = upto;
        lot.poured = poured;
    }
}

// Sets the place of an issue's lot, for which there is room.
fn put(places: &mut HashMap<Cusip, usize>, issue: Cusip, place: usize)
    requires { 0 < spare places.old }
    ensures { (i : ℕ) → get nat_eq places.new i ≡ (if issue == i then Some place else get nat_eq places.old i) }
{
    let Ok(_) = places.insert(issue, place) else {
        unreachable!()
    };
}
