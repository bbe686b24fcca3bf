ghost use Rattle.std.specs.Prelude.{◌≡◌};
ghost use Rattle.cns_pool.specs.WorkerSeat.{ShowsAsked, calls_out, worker_seeing};

use crate::any_seat::AnySeat;
use crate::pool::Asked;
use crate::pool_cell::PoolCell;
use crate::rule::{ASKED, LookAsked, LookPoured, POURED, Token, asked_in};
use crate::ticket::Ticket;
use std::marker::Model;

/// A seat that draws tickets from a cell.
///
/// It keeps its tickets, and those of the seats that were joined into it. Contracts see its cell, its
/// tickets, the shares and the calls that it has left, the calls that were made and given, its room,
/// and what it has seen of the cell.
#[derive(Drop)]
pub struct WorkerSeat {
    pub(crate) token: Token,
    // It has room for the tickets of all calls that are left, and of those that were split off.
    pub(crate) tickets: Vec<Ticket>,
    pub(crate) budget: u64,
    pub(crate) calls: u64,
    pub(crate) made: u64,
    pub(crate) given: u64,
    pub(crate) room: u64,
}

impl Model for WorkerSeat {
    ghost use Rattle.std.specs.Prelude.{vec_capacity};
    ghost use Rattle.cns_pool.specs.WorkerSeat.{WorkerState};
    ghost use Rattle.cns_pool.specs.SeatData.{IsWorker, worker_of};

    ghost Value = { WorkerState };

    ghost view = { worker_of };

    ghost invariant = { λ s. IsWorker s.token.me (worker_of s) (vec_capacity s.tickets) };
}

impl WorkerSeat {
    /// Its tickets, in the order in which they were drawn or joined in.
    pub fn tickets(&self) -> &[Ticket]
        ensures { result.now ≡ self.now.tickets }
    {
        self.tickets.as_slice()
    }

    /// The shares that it may still ask.
    pub fn budget(&self) -> u64
        ensures { result ≡ self.now.budget }
    {
        self.budget
    }

    /// The reserves that it may still make.
    pub fn calls(&self) -> u64
        ensures { result ≡ self.now.calls }
    {
        self.calls
    }

    /// For how many calls and tickets of a seat that is joined into it no memory has to be taken.
    pub fn room(&self) -> u64
        ensures { result ≡ self.now.room }
    {
        self.room
    }

    /// The calls that were given when the cell was opened, less those made and left at this seat and
    /// at those joined into it. Where it is 0, each seat that was split off with calls was joined.
    pub fn out(&self) -> u64
        ensures { result ≡ calls_out self.now }
    {
        self.given - (self.made + self.calls)
    }
}

impl AnySeat for WorkerSeat {
    ghost use Rattle.std.specs.Prelude.{⊤};

    ghost of_cell = { λ w. w.cell };

    ghost seen_by = { λ w. w.seen };

    ghost having_seen = { worker_seeing };

    ghost shows_poured = { λ _ _. ⊤ };

    ghost shows_asked = { ShowsAsked };

    fn see_poured(&mut self, cell: &PoolCell) -> u64 {
        let shared = &cell.words.shared;
        shared.load::<LookPoured>(&mut self.token, POURED)
    }

    fn see_asked(&mut self, cell: &PoolCell) -> Asked {
        let shared = &cell.words.shared;
        asked_in(shared.load::<LookAsked>(&mut self.token, ASKED))
    }
}
