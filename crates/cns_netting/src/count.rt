ghost use Rattle.std.specs.Prelude.{◌≡◌, Bool, List, None, Some, count_by};
ghost use Rattle.cns_netting.specs.Rows.{rows_of};
ghost use Rattle.cns_netting.specs.Positions.{ArePositionsOf, row_if, row_passes};
ghost use Rattle.cns_netting.specs.declared.entry.NetEntry.{NetEntry};
ghost use Rattle.cns_netting.specs.declared.position.PositionRow.{PositionRow};

use crate::position::PositionRow;
use crate::positions::{Position, Positions};
use crate::rows::row_of;
use cns_ids::Holding;

/// A test of positions, each by itself.
pub trait RowTest {
    /// Whether a position passes.
    ghost passing: { Self → PositionRow → Bool };

    /// Whether a position passes.
    fn passes(&self, row: &PositionRow) -> bool
        ensures { result ≡ passing self.now row.now };
}

// Whether a holding has a position other than 0, by its position, that passes.
fn counts<T: RowTest>(test: &T, holding: &Holding, position: &Position) -> bool
    ensures { result ≡ row_passes (T.passing test.now) (row_if None holding.now (Some position.now)) }
{
    match row_of(holding, position, None) {
        Some(row) => test.passes(&row),
        None => false,
    }
}

impl Positions {
    /// How many of the positions other than 0 pass a test. It takes no memory.
    pub(crate) fn count_rows<T: RowTest>(&self, test: &T) -> usize
        ensures { (h : List NetEntry) → ArePositionsOf self.now.entries h → result ≡ count_by (T.passing test.now) (rows_of h) }
    {
        // No more of them pass than there are.
        let _most = self.all.len();
        let mut count = 0;
        for (holding, position) in &self.all {
            if counts(test, holding, position) {
                count += 1;
            }
        }
        count
    }
}
