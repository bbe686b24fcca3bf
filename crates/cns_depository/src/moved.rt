ghost use Rattle.std.specs.Prelude.{◌≡◌, ◌+◌, ◌-◌, ◌^◌, ◌<◌, ◌≤◌, ◌∷◌, List, length, if◌then◌else◌};
ghost use Rattle.std.specs.HashMap.{get, spare};
ghost use Rattle.cns_records.specs.declared.dep_record.DepRecord.{DepRecord};
ghost use Rattle.cns_depository.specs.Totals.{AreTransferred, moved_at, place_eq};
ghost use Rattle.cns_depository.specs.declared.place.Place.{Place};

use crate::movement::transfer_of;
use crate::place::Place;
use cns_records::DepRecord;
use std::collections::HashMap;

/// The shares of an issue that were brought to a side of transfers, and those that were taken from it.
#[derive(Clone, Copy)]
pub(crate) struct Moved {
    pub(crate) entered: u128,
    pub(crate) left: u128,
}

impl Moved {
    const NOTHING: Moved = Moved {
        entered: 0,
        left: 0,
    };

    /// What an account holds that opened with so many shares.
    pub(crate) fn balance(self, opened: u128) -> u128
        ensures { opened + self.entered < 2 ^ 128 → result ≡ (opened + self.entered) - self.left }
    {
        // The sum stays far below the greatest number, so it is exact.
        let held = opened.saturating_add(self.entered);
        held.saturating_sub(self.left)
    }

    // With so many shares more that were brought.
    fn entered_by(self, shares: u128) -> Moved
        requires { self.entered + shares < 2 ^ 128 }
        ensures { result ≡ record self { entered = self.entered + shares } }
    {
        Moved {
            entered: self.entered + shares,
            left: self.left,
        }
    }

    // With so many shares more that were taken.
    fn left_by(self, shares: u128) -> Moved
        requires { self.left + shares < 2 ^ 128 }
        ensures { result ≡ record self { left = self.left + shares } }
    {
        Moved {
            entered: self.entered,
            left: self.left + shares,
        }
    }
}

/// What was moved into a place, and out of it: nothing where it is not named.
pub(crate) fn moved_of(moved: &HashMap<Place, Moved>, place: &Place) -> Moved
    ensures { result ≡ moved_at (get place_eq moved.now place.now) }
{
    match moved.get(place) {
        Some(moved) => *moved,
        None => Moved::NOTHING,
    }
}

// Adds shares that are moved into a place, for which there is room.
fn enter(moved: &mut HashMap<Place, Moved>, place: &Place, shares: u128)
    requires room { 0 < spare moved.old }
    requires small { (moved_at (get place_eq moved.old place.now)).entered + shares < 2 ^ 128 }
    ensures entered { (q : Place) → (moved_at (get place_eq moved.new q)).entered
        ≡ (moved_at (get place_eq moved.old q)).entered + (if place_eq place.now q then shares else 0) }
    ensures left { (q : Place) → (moved_at (get place_eq moved.new q)).left ≡ (moved_at (get place_eq moved.old q)).left }
    ensures spare { spare moved.old ≤ spare moved.new + 1 }
{
    let named = Place {
        issue: place.issue,
        side: place.side,
    };
    let Ok(entry) = moved.entry(named) else {
        unreachable!()
    };
    let sides = entry.or_insert(Moved::NOTHING);
    *sides = sides.entered_by(shares);
}

// Adds shares that are moved out of a place, for which there is room.
fn leave(moved: &mut HashMap<Place, Moved>, place: &Place, shares: u128)
    requires room { 0 < spare moved.old }
    requires small { (moved_at (get place_eq moved.old place.now)).left + shares < 2 ^ 128 }
    ensures entered { (q : Place) → (moved_at (get place_eq moved.new q)).entered ≡ (moved_at (get place_eq moved.old q)).entered }
    ensures left { (q : Place) → (moved_at (get place_eq moved.new q)).left
        ≡ (moved_at (get place_eq moved.old q)).left + (if place_eq place.now q then shares else 0) }
    ensures spare { spare moved.old ≤ spare moved.new + 1 }
{
    let named = Place {
        issue: place.issue,
        side: place.side,
    };
    let Ok(entry) = moved.entry(named) else {
        unreachable!()
    };
    let sides = entry.or_insert(Moved::NOTHING);
    *sides = sides.left_by(shares);
}

/// Adds what a record transfers, for which there is room.
pub(crate) fn add_transfer(moved: &mut HashMap<Place, Moved>, entry: &DepRecord)
    requires room { 2 ≤ spare moved.old }
    requires sums { (p : List DepRecord) × AreTransferred (λ k. moved_at (get place_eq moved.old k)) p }
    ensures { (p : List DepRecord) → AreTransferred (λ k. moved_at (get place_eq moved.old k)) p → length p < 2 ^ 64
        → AreTransferred (λ k. moved_at (get place_eq moved.new k)) (entry.now ∷ p) }
{
    let transfer = transfer_of(entry);
    let receiver = Place {
        issue: transfer.issue,
        side: transfer.receiver,
    };
    let giver = Place {
        issue: transfer.issue,
        side: transfer.giver,
    };
    let shares = u128::from(transfer.shares.count());
    enter(moved, &receiver, shares);
    leave(moved, &giver, shares);
}
