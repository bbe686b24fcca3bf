//! The table under a cell: its words, its rule, and the names of its steps.

ghost use Rattle.std.specs.Prelude.{◌≡◌, ◌≤◌, ℕ};
ghost use Rattle.cns_pool.specs.declared.pool.Asked.{Asked};
ghost use Rattle.cns_pool.specs.CellWords.{KeepsCell, first_view, word_of, reserve_step, pour_step, look_poured_step, look_asked_step, seal_step, working_part, feeding_part, view_after_split, view_split_off, view_after_join, last_view, no_view, note_of, view_told};

use crate::pool::{Asked, MAX_POOL};
use crate::view::View;
use atomic_table::{Join, Play, Seat, Split, Table, TableRule};
use std::alloc::Global;
use std::marker::{Brand, PhantomData};

/// The place of the word of the poured shares.
pub const POURED: usize = 0;

/// The place of the word of the asked shares, whose bit 63 is the seal.
pub const ASKED: usize = 1;

/// The seal in the word of the asked shares.
pub const SEAL: u64 = 1 << 63;

/// What a cell is opened with.
#[derive(Drop)]
pub struct Limits {
    pub budget: u64,
    pub pours: u64,
    pub calls: u64,
}

pub struct CellRule;

impl TableRule<(), View, Limits> for CellRule {
    ghost holds = { λ _. KeepsCell };

    ghost first = { λ limits. first_view limits.budget limits.pours limits.calls };
}

pub type Words = Table<(), View, Limits, CellRule, Global>;

pub type Token = Seat<(), View>;

pub struct Reserve;

impl Play<(), View> for Reserve {
    ghost then = { reserve_step };
}

pub struct Pour;

impl Play<(), View> for Pour {
    ghost then = { pour_step };
}

pub struct LookPoured;

impl Play<(), View> for LookPoured {
    ghost then = { look_poured_step };
}

pub struct LookAsked;

impl Play<(), View> for LookAsked {
    ghost then = { look_asked_step };
}

pub struct MakeSeal;

impl Play<(), View> for MakeSeal {
    ghost then = { seal_step };
}

/// The feeder's part of the first seat is split off.
pub struct Feeding;

impl Split<View> for Feeding {
    ghost left = { working_part };

    ghost right = { feeding_part };
}

/// The budget and the calls that a worker splits off. A call picks them.
pub trait Part {
    ghost budget: { ℕ };

    ghost calls: { ℕ };
}

impl Part for Brand {
    ghost budget = { 0 };

    ghost calls = { 0 };
}

/// A part of a worker's seat is split off.
pub struct Parting<P> {
    part: PhantomData<P>,
}

impl<P: Part> Split<View> for Parting<P> {
    ghost left = { view_after_split P.budget P.calls };

    ghost right = { view_split_off P.budget P.calls };
}

/// A worker's seat is joined into another one.
pub struct Joining;

impl Join<View> for Joining {
    ghost both = { view_after_join };

    ghost spent = { no_view };
}

/// The feeder's seat is joined into the last worker's.
pub struct Closing;

impl Join<View> for Closing {
    ghost both = { last_view };

    ghost spent = { no_view };
}

/// What a seat has seen is split off, and joined into another seat.
pub struct Telling;

impl Split<View> for Telling {
    ghost left = { λ view. view };

    ghost right = { note_of };
}

impl Join<View> for Telling {
    ghost both = { view_told };

    ghost spent = { no_view };
}

/// The asked shares and the seal that a word holds.
pub fn asked_in(word: u64) -> Asked
    ensures { (asked : Asked) → word ≡ word_of asked → asked.sum ≤ MAX_POOL → result ≡ asked }
{
    let sealed = word >= SEAL;
    let sum = if sealed { word - SEAL } else { word };
    Asked { sum, sealed }
}
