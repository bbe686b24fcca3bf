ghost use Rattle.std.specs.Prelude.{◌≡◌, ◌∷◌, [], length, MatchOption};

use std::marker::Model;

// After so many items their memory is let go.
const BLOCK: usize = 65_536;

/// A list whose items are taken one after another. The memory of those that were taken is let go block by
/// block, and all of it once none is left.
///
/// Contracts see the items that are left.
#[derive(Drop)]
pub(crate) struct Untaken<T: Drop> {
    // Those that are left, the next one last: a list gives memory back at its end alone.
    reversed: Vec<T>,
}

impl<T: Drop> Model for Untaken<T> {
    ghost use Rattle.std.specs.Prelude.{List, reverse};

    ghost Value = { List T };

    ghost view = { λ u. reverse u.reversed.items };
}

impl<T: Drop> Untaken<T> {
    /// All of these items.
    pub(crate) fn of(items: Vec<T>) -> Untaken<T>
        ensures { result ≡ items.items }
    {
        let mut reversed = items;
        reversed.reverse();
        Untaken { reversed }
    }

    /// How many items are left.
    pub(crate) fn len(&self) -> usize
        ensures { result ≡ length self.now }
    {
        self.reversed.len()
    }

    /// Takes the next item, where one is left.
    pub(crate) fn next(&mut self) -> Option<T>
        ensures { MatchOption result ((self.old ≡ []) × (self.new ≡ self.old)) (λ item. self.old ≡ item ∷ self.new) }
    {
        let item = self.reversed.pop()?;
        if self.reversed.len() % BLOCK == 0 {
            self.reversed.shrink_to_fit();
        }
        Some(item)
    }
}
