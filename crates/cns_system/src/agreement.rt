ghost use Rattle.std.specs.Prelude.{◌≡◌, ◌↔◌, All, IfSome, IsTrue};
ghost use Rattle.cns_depository.specs.Stock.{executed_in, executed_of};
ghost use Rattle.cns_system.specs.Agreement.{Agree, IsExecuted, IsOrdered};

use cns_clearing::Clearing;
use cns_depository::Depository;
use cns_journal::Keeper;
use cns_movements::{MoveKind, OrderBook, Reply};
use cns_records::DepRecord;

// Whether what a record executed agrees with the order of its number, and a delivery moved all that it asks for.
fn is_ordered(orders: &OrderBook, entry: &DepRecord) -> bool
    ensures { IsTrue result ↔ IfSome (executed_in entry.now) (IsOrdered orders.now.book.orders) }
{
    let DepRecord::Exec { order, moved } = entry else {
        return true;
    };
    let Some(known) = orders.get(order.number) else {
        return false;
    };
    order.agrees_with(&known)
        && (order.kind != MoveKind::Delivery || moved.count() == order.asked.shares())
}

// Whether that is so of each of them.
fn are_ordered(orders: &OrderBook, records: &[DepRecord]) -> bool
    ensures { IsTrue result ↔ All (λ entry. IfSome (executed_in entry) (IsOrdered orders.now.book.orders)) records.now }
{
    for record in records {
        if !is_ordered(orders, record) {
            return false;
        }
    }
    true
}

// Whether a confirmed movement was executed, and moved so much.
fn is_executed<D: Keeper>(depot: &Depository<D>, reply: &Reply) -> bool
    ensures { IsTrue result ↔ IsExecuted (executed_of depot.now.log.records) reply.now }
{
    match depot.executed(reply.number) {
        Some((_, moved)) => moved == reply.moved,
        None => false,
    }
}

// Whether that is so of each of them.
fn are_executed<D: Keeper>(depot: &Depository<D>, replies: &[Reply]) -> bool
    ensures { IsTrue result ↔ All (IsExecuted (executed_of depot.now.log.records)) replies.now }
{
    for reply in replies {
        if !is_executed(depot, reply) {
            return false;
        }
    }
    true
}

/// Whether the records of the two nodes agree: each executed movement agrees with the order of its
/// number, each delivery moved all that it asks for, and each confirmed movement was executed and
/// moved just what was confirmed. (This project's own rule.)
pub(crate) fn agree<C: Keeper, D: Keeper>(clear: &Clearing<C>, depot: &Depository<D>) -> bool
    ensures { IsTrue result ↔ Agree clear.now.log.records depot.now.log.records }
{
    let orders = clear.orders();
    are_ordered(orders, depot.records()) && are_executed(depot, orders.replies())
}
