ghost use Rattle.std.specs.Prelude.{◌≡◌};
ghost use Rattle.cns_pool.specs.FeederSeat.{feeder_seeing};

use crate::any_seat::AnySeat;
use crate::pool::Asked;
use crate::pool_cell::PoolCell;
use crate::rule::{ASKED, LookAsked, LookPoured, POURED, Token, asked_in};
use std::marker::Model;

/// The seat that pours shares into a cell, and seals it.
///
/// Contracts see its cell, the sum of its pours, what it may still pour, whether it sealed the cell,
/// and what it has seen of the cell.
#[derive(Drop)]
pub struct FeederSeat {
    pub(crate) token: Token,
    pub(crate) poured: u64,
    pub(crate) pour_room: u64,
    pub(crate) sealed: bool,
}

impl Model for FeederSeat {
    ghost use Rattle.cns_pool.specs.FeederSeat.{FeederState};
    ghost use Rattle.cns_pool.specs.SeatData.{IsFed, feeder_of};

    ghost Value = { FeederState };

    ghost view = { feeder_of };

    ghost invariant = { λ s. IsFed s.token.me (feeder_of s) };
}

impl FeederSeat {
    /// The shares that it has poured.
    pub fn poured(&self) -> u64
        ensures { result ≡ self.now.poured }
    {
        self.poured
    }

    /// The shares that it may still pour.
    pub fn pour_room(&self) -> u64
        ensures { result ≡ self.now.pour_room }
    {
        self.pour_room
    }

    /// Whether it has sealed the cell.
    pub fn is_sealed(&self) -> bool
        ensures { result ≡ self.now.sealed }
    {
        self.sealed
    }
}

impl AnySeat for FeederSeat {
    ghost of_cell = { λ f. f.cell };

    ghost seen_by = { λ f. f.seen };

    ghost having_seen = { feeder_seeing };

    ghost shows_poured = { λ f n. n ≡ f.poured };

    ghost shows_asked = { λ f asked. asked.sealed ≡ f.sealed };

    fn see_poured(&mut self, cell: &PoolCell) -> u64 {
        let shared = &cell.words.shared;
        shared.load::<LookPoured>(&mut self.token, POURED)
    }

    fn see_asked(&mut self, cell: &PoolCell) -> Asked {
        let shared = &cell.words.shared;
        asked_in(shared.load::<LookAsked>(&mut self.token, ASKED))
    }
}
