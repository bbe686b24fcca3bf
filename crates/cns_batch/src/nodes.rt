//! Both nodes, as the run of a script asks them.

ghost use Rattle.std.specs.Prelude.{◌≡◌, IfOk, IfSome};
ghost use Rattle.cns_system.specs.Readers.{counts_of, unconfirmed};
ghost use Rattle.cns_system.specs.Shown.{Shown};
ghost use Rattle.cns_batch.specs.Acts.{Draws};
ghost use Rattle.cns_batch.specs.ByWorkers.{HasSeat, hauled, opened_as};
ghost use Rattle.cns_batch.specs.Commands.{opened, report_text};
ghost use Rattle.cns_batch.specs.Runs.{Came, Exchange, Planned, Prints, Runs, Showed, output};

use crate::fault::Told;
use crate::page::Page;
use cns_ids::Cusip;
use cns_movements::MoveNo;
use cns_system::{Begun, Counts, Drawn, Event, NodeName, Outcome};
use std::alloc::{AllocError, Global};
use std::io::Write;

/// Both nodes and the link, as a run asks them: on one thread, or under the lock of a desk.
pub(crate) trait Nodes: Sized {
    /// Whether an exchange between a run and the nodes may come to pass, and what it leads to.
    ghost leads: { Exchange → Self → Self → Type 0 };

    /// Lets an event happen, and answers what it came to.
    fn step(&mut self, event: Event) -> Outcome
        ensures { leads (Came event result) self.old self.new };

    /// Makes the next commit of a node fail, and answers whether its keeper plans failures.
    fn plan(&mut self, node: NodeName, stands: bool) -> bool
        ensures { leads (Planned node stands result) self.old self.new };

    /// The orders that are not confirmed, by number.
    fn unconfirmed(&self, alloc: Global) -> Result<Vec<MoveNo>, AllocError>
        ensures { IfOk result (λ numbers. (w : Shown) × leads (Showed w) self.now self.now × (numbers.items ≡ unconfirmed w.clear.records)) };

    /// How many orders there are, and how many packets on each link.
    fn counts(&self) -> Counts
        ensures { (w : Shown) × leads (Showed w) self.now self.now × (result ≡ counts_of w) };

    /// Tells the report.
    fn report<W: Write>(&self, alloc: Global, page: &mut Page, writer: &mut W) -> Told
        ensures { (w : Shown) × leads (Showed w) self.now self.now
            × Prints (report_text w) result (output page.old (W.contents writer.old)) (output page.new (W.contents writer.new)) };
}

/// Nodes of which workers draw the tickets of a lot. The nodes may change while a lot is served, so they are
/// asked by a shared reference.
pub(crate) trait Lots: Nodes {
    /// Opens a lot of an issue for workers, and answers it where it was opened.
    fn begin<W: Write>(
        &self,
        alloc: Global,
        issue: Cusip,
        page: &mut Page,
        writer: &mut W,
    ) -> Told<Option<Begun>>
        ensures runs { Runs Self.leads (opened issue) (opened_as result)
            (record { nodes = self.now; held = page.old.text; sent = W.contents writer.old }) (record { nodes = self.now; held = page.new.text; sent = W.contents writer.new }) }
        ensures seat { IfOk result (λ begun. IfSome begun HasSeat) };

    /// Enters what workers drew of a lot, and ends the lot.
    fn end<W: Write>(
        &self,
        alloc: Global,
        lot: u64,
        drawn: &Drawn,
        page: &mut Page,
        writer: &mut W,
    ) -> Told
        ensures { Runs Self.leads (Draws lot (hauled lot)) result
            (record { nodes = self.now; held = page.old.text; sent = W.contents writer.old }) (record { nodes = self.now; held = page.new.text; sent = W.contents writer.new }) };
}
