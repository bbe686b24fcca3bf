//! What every pool promises.

ghost use Rattle.std.specs.Prelude.{◌≡◌, ◌<◌, ◌≤◌, false, IsPermutation};
ghost use Rattle.cns_pool.specs.Tiles.{Tiles};
ghost use Rattle.cns_pool.specs.Pool.{Pooled, IsPool, intervals_of, asked_sum, reserve_answer, after_reserve, after_pour, after_seal};

use crate::ticket::Reserved;
use crate::tickets::Tickets;
use cns_ids::MemberNo;

/// The most shares that are asked of a pool, and the most that are poured into it. (This project's own
/// limit.)
pub const MAX_POOL: u64 = 4_611_686_018_427_387_904;

/// What a look at the asked shares of a pool shows.
#[derive(Clone, Copy, PartialEq, Eq, Debug)]
pub struct Asked {
    /// The shares of the tickets; of a sealed pool possibly more.
    pub sum: u64,
    /// Whether the pool is sealed.
    pub sealed: bool,
}

/// What a pool leaves when it is closed.
#[derive(PartialEq, Eq, Debug, Drop)]
pub struct Closed {
    /// Each ticket that was drawn, once.
    pub tickets: Tickets,
    /// The shares that were poured.
    pub poured: u64,
    /// Whether the pool was sealed.
    pub sealed: bool,
}

/// A pool of shares: tickets are drawn from it until it is sealed, and shares are poured into it.
///
/// A pool is opened with a budget of shares to be asked, with shares to be poured, and with a number of
/// reserves, and takes no memory after that. Each call is one step, which always succeeds. (This
/// project's own rules.)
pub trait Pool {
    /// The tickets in the order in which they were drawn, what was poured, the seal, and what may
    /// still be asked and poured and how often.
    ghost pool: { Self → Pooled };

    /// Draws a ticket for the member, which starts where the last one ends, or answers that the pool
    /// is sealed. Either answer uses up these shares of the budget, and one reserve.
    fn reserve(&mut self, member: MemberNo, asked: u64) -> Reserved
        requires some { 1 ≤ asked }
        requires budget { asked ≤ (pool self.old).budget }
        requires calls { 0 < (pool self.old).calls }
        ensures answer { result ≡ reserve_answer (pool self.old) member asked }
        ensures after { pool self.new ≡ after_reserve (pool self.old) member asked }
        ensures lawful { IsPool (pool self.new) };

    /// Pours shares into the pool, possibly none. A sealed pool takes them too.
    fn pour(&mut self, shares: u64)
        requires { shares ≤ (pool self.old).pour_room }
        ensures after { pool self.new ≡ after_pour (pool self.old) shares }
        ensures lawful { IsPool (pool self.new) };

    /// The shares that were poured.
    fn look_poured(&mut self) -> u64
        ensures poured { result ≡ (pool self.old).poured }
        ensures same { pool self.new ≡ pool self.old }
        ensures lawful { IsPool (pool self.new) };

    /// The shares that were asked, and the seal. Reserves that a sealed pool refused may be counted.
    fn look_asked(&mut self) -> Asked
        ensures sum { (pool self.old).sealed ≡ false
            → result.sum ≡ asked_sum (pool self.old).tickets }
        ensures least { asked_sum (pool self.old).tickets ≤ result.sum }
        ensures sealed { result.sealed ≡ (pool self.old).sealed }
        ensures same { pool self.new ≡ pool self.old }
        ensures lawful { IsPool (pool self.new) };

    /// Seals the pool: no ticket is drawn from now on. A sealed pool stays as it is.
    fn seal(&mut self)
        ensures after { pool self.new ≡ after_seal (pool self.old) }
        ensures lawful { IsPool (pool self.new) };

    /// Ends the pool, and gives its tickets in any order.
    fn close(self) -> Closed
        ensures tickets { IsPermutation (pool self).tickets result.tickets }
        ensures tiles { Tiles (intervals_of result.tickets) }
        ensures poured { result.poured ≡ (pool self).poured }
        ensures sealed { result.sealed ≡ (pool self).sealed }
        ensures lawful { IsPool (pool self) };
}
