ghost use Rattle.std.specs.Prelude.{◌≡◌, ◌+◌, ◌<◌, ◌≤◌, ◌++◌, length, OnOk, OnErr};
ghost use Rattle.cns_report.specs.Outcomes.{orders_made, outcome_line};

use crate::event::EventLine;
use crate::row::Rows;
use crate::text::Text;
use cns_movements::Order;
use cns_system::{Event, Outcome};
use std::alloc::AllocError;

/// Adds what is told of an event and what it came to: its line (`EventLine`), and after that of a cycle or of
/// a lot's close the lines of the orders. Where memory is wanting, `out` is left as it was.
pub fn outcome_line(out: &mut Text, event: &Event, outcome: &Outcome) -> Result<(), AllocError>
    ensures line { OnOk result (out.new.text ≡ out.old.text ++ outcome_line event.now outcome.now) }
    ensures err { OnErr result (out.new.text ≡ out.old.text) }
    ensures room { out.old.room ≤ out.new.room }
    ensures full { OnErr result (out.old.room < length out.old.text + length (outcome_line event.now outcome.now)) }
{
    let line = EventLine { event, outcome };
    out.tell(&(line, Rows(orders_of(outcome))))
}

/// The orders that a cycle or a close made; none of another outcome.
pub fn orders_of(outcome: &Outcome) -> &[Order]
    ensures { result.now ≡ orders_made outcome.now }
{
    match outcome {
        Outcome::Cycled(done) => done.orders.as_slice(),
        Outcome::Closed(done) => done.orders.as_slice(),
        _ => &[],
    }
}
