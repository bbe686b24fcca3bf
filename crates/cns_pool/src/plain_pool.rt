ghost use Rattle.std.specs.Prelude.{◌≡◌, ◌≤◌, [], IfOk, vec_capacity};
ghost use Rattle.cns_pool.specs.Tiles.{Tiles};
ghost use Rattle.cns_pool.specs.Pool.{new_pool, asked_sum, intervals_of, IsPool};

use crate::pool::{Asked, Closed, MAX_POOL, Pool};
use crate::ticket::{Reserved, Ticket, draw};
use crate::tickets::Tickets;
use cns_ids::MemberNo;
use std::alloc::{AllocError, Global};
use std::marker::Model;

/// The pool of one thread, which has its tickets in the order in which they were drawn.
///
/// Contracts see the tickets, what was poured, the seal, and what may still be asked and poured and how
/// often. (This project's own rules.)
#[derive(Drop)]
pub struct PlainPool {
    // It has room for the tickets of all reserves that are left.
    tickets: Vec<Ticket>,
    // The shares of the tickets.
    asked: u64,
    poured: u64,
    sealed: bool,
    budget: u64,
    pour_room: u64,
    calls: u64,
}

impl Model for PlainPool {
    ghost use Rattle.std.specs.Prelude.{vec_capacity};
    ghost use Rattle.cns_pool.specs.Pool.{Pooled};

    ghost Value = { Pooled };

    ghost use Rattle.cns_pool.specs.PlainPool.{pooled_of, IsStored};

    ghost view = { pooled_of };

    ghost invariant = { λ p. IsStored (pooled_of p) p.asked (vec_capacity p.tickets) };
}

impl PlainPool {
    /// A pool with no tickets, into which nothing was poured.
    ///
    /// At most `budget` shares may be asked of it, by at most `calls` reserves, and at most `pours`
    /// shares poured into it. It takes the memory for the tickets of all these reserves.
    pub fn open(alloc: Global, budget: u64, pours: u64, calls: u64) -> Result<PlainPool, AllocError>
        requires budget { budget ≤ MAX_POOL }
        requires pours { pours ≤ MAX_POOL }
        ensures { IfOk result (λ pool. pool ≡ new_pool budget pours calls) }
    {
        let tickets = Vec::with_capacity(alloc, calls as usize)?;
        Ok(PlainPool::of(tickets, budget, pours, calls))
    }

    /// A pool of which nothing may be asked, and into which nothing may be poured. It takes no memory.
    pub fn new(alloc: Global) -> PlainPool
        ensures { result ≡ new_pool 0 0 0 }
    {
        PlainPool::of(Vec::new(alloc), 0, 0, 0)
    }

    // A pool without tickets, which has room for those of all reserves.
    fn of(tickets: Vec<Ticket>, budget: u64, pours: u64, calls: u64) -> PlainPool
        requires none { tickets.items ≡ [] }
        requires room { calls ≤ vec_capacity tickets }
        requires budget { budget ≤ MAX_POOL }
        requires pours { pours ≤ MAX_POOL }
        ensures { result ≡ new_pool budget pours calls }
    {
        PlainPool {
            tickets,
            asked: 0,
            poured: 0,
            sealed: false,
            budget,
            pour_room: pours,
            calls,
        }
    }

    /// The tickets, in the order in which they were drawn.
    pub fn tickets(&self) -> &[Ticket]
        ensures tickets { result.now ≡ self.now.tickets }
        ensures lawful { IsPool self.now }
    {
        self.tickets.as_slice()
    }

    /// The shares of the tickets, which is where the next ticket starts.
    pub fn asked(&self) -> u64
        ensures { result ≡ asked_sum self.now.tickets }
    {
        self.asked
    }

    /// Whether the pool is sealed.
    pub fn is_sealed(&self) -> bool
        ensures { result ≡ self.now.sealed }
    {
        self.sealed
    }
}

impl Pool for PlainPool {
    ghost pool = { λ p. p };

    fn reserve(&mut self, member: MemberNo, asked: u64) -> Reserved {
        self.budget -= asked;
        self.calls -= 1;
        if self.sealed {
            return Reserved::Sealed;
        }
        let start = self.asked;
        self.asked += asked;
        draw(&mut self.tickets, member, start, asked)
    }

    fn pour(&mut self, shares: u64) {
        self.poured += shares;
        self.pour_room -= shares;
    }

    fn look_poured(&mut self) -> u64 {
        self.poured
    }

    /// The shares are those of the tickets, also of a sealed pool.
    fn look_asked(&mut self) -> Asked
        ensures exact { let pool = self.old in
            result ≡ record { sum = asked_sum pool.tickets; sealed = pool.sealed } }
        ensures same { self.new ≡ self.old }
        ensures lawful { IsPool self.new }
    {
        Asked {
            sum: self.asked,
            sealed: self.sealed,
        }
    }

    fn seal(&mut self) {
        self.sealed = true;
    }

    /// It gives the tickets in the order in which they were drawn.
    fn close(self) -> Closed
        ensures exact { result ≡ record { tickets = self.tickets; poured = self.poured; sealed = self.sealed } }
        ensures tiles { Tiles (intervals_of result.tickets) }
        ensures lawful { IsPool self }
    {
        Closed {
            tickets: Tickets::from_vec(self.tickets),
            poured: self.poured,
            sealed: self.sealed,
        }
    }
}
