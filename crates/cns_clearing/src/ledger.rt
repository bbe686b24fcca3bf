ghost use Rattle.std.specs.Prelude.{◌≡◌, IfOk};
ghost use Rattle.cns_clearing.specs.Books.{AdmittedBy, AreSound};

use crate::admission::may_allocate;
use crate::books::Books;
use crate::effects::Effects;
use cns_journal::Ledger;
use cns_movements::Confirm;
use cns_records::ClearRecord;
use cns_trades::Verdict;
use std::alloc::{AllocError, Global};

impl Ledger for Books {
    ghost use Rattle.cns_clearing.specs.Books.{AreBooksOf, IsAllowed};

    type Record = ClearRecord;

    type Context = Global;

    ghost allows = { λ _. IsAllowed };

    ghost comes_to = { λ b. AreBooksOf b.books };

    fn admit(
        &mut self,
        alloc: &Global,
        _records: &[ClearRecord],
        entry: &ClearRecord,
    ) -> Result<bool, AllocError> {
        let Some(effects) = admitted(*alloc, self, entry)? else {
            return Ok(false);
        };
        self.room(entry, effects.asks.as_slice())?;
        self.add(entry, effects);
        Ok(true)
    }
}

// What a record makes besides itself, where it may follow those of the books, which are left as they were.
fn admitted(
    alloc: Global,
    books: &mut Books,
    entry: &ClearRecord,
) -> Result<Option<Effects>, AllocError>
    requires { AreSound books.old.books }
    ensures admitted { IfOk result (AdmittedBy books.old.books entry.now) }
    ensures same { books.new.books ≡ books.old.books }
{
    let may = match entry {
        ClearRecord::Accept(trade) => books.verdict(trade) == Verdict::New,
        ClearRecord::Exempt { .. } | ClearRecord::Priority { .. } => true,
        ClearRecord::Cycle(id) => {
            if !books.is_later(id) {
                return Ok(None);
            }
            let effects = books.cycle_effects(alloc, id)?;
            return Ok(if books.are_spent(effects.asks.len()) {
                None
            } else {
                Some(effects)
            });
        }
        ClearRecord::Allocate(allocation) => return may_allocate(alloc, books, allocation),
        ClearRecord::Confirm(reply) => books.answer(reply) == Confirm::Done,
    };
    Ok(if may {
        Some(Effects::none(alloc))
    } else {
        None
    })
}
