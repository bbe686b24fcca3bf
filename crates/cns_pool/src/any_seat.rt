ghost use Rattle.std.specs.Prelude.{◌≡◌, ◌≤◌, ℕ, true};
ghost use Rattle.cns_pool.specs.declared.pool.Asked.{Asked};
ghost use Rattle.cns_pool.specs.Seen.{Seen};
ghost use Rattle.cns_pool.specs.WorkerSeat.{TableId};

use crate::pool::Asked;
use crate::pool_cell::PoolCell;

/// A seat of a cell, which can look at the cell.
///
/// Callers look by [`PoolCell::look_poured`] and [`PoolCell::look_asked`].
pub trait AnySeat {
    /// The cell of which it is a seat.
    ghost of_cell: { Self → TableId };

    /// What it has seen so far.
    ghost seen_by: { Self → Seen };

    /// The seat, having seen this.
    ghost having_seen: { Self → Seen → Self };

    /// What the poured shares that a look shows are to this seat.
    ghost shows_poured: { Self → ℕ → Type 0 };

    /// What the asked shares that a look shows are to this seat.
    ghost shows_asked: { Self → Asked → Type 0 };

    /// Looks at the poured shares, and has then seen them.
    fn see_poured(&mut self, cell: &PoolCell) -> u64
        requires { of_cell self.old ≡ cell.now }
        ensures least { (seen_by self.old).poured ≤ result }
        ensures shows { shows_poured self.old result }
        ensures after { self.new ≡ having_seen self.old (record (seen_by self.old) { poured = result }) };

    /// Looks at the asked shares and the seal, and has then seen both.
    fn see_asked(&mut self, cell: &PoolCell) -> Asked
        requires { of_cell self.old ≡ cell.now }
        ensures least { (seen_by self.old).asked ≤ result.sum }
        ensures sealed { (seen_by self.old).sealed ≡ true → result.sealed ≡ true }
        ensures shows { shows_asked self.old result }
        ensures after { self.new ≡ having_seen self.old
            (record (seen_by self.old) { asked = result.sum; sealed = result.sealed }) };
}
