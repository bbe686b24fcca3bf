ghost use Rattle.cns_report.specs.Lines.{bytes_of_line};
ghost use Rattle.cns_report.specs.Outcomes.{outcome_line};
ghost use Rattle.cns_batch.specs.Acts.{happened, single, tells};
ghost use Rattle.cns_batch.specs.Commands.{reported};
ghost use Rattle.cns_batch.specs.Runs.{Runs, at};

use crate::fault::Told;
use crate::nodes::Nodes;
use crate::page::Page;
use cns_records::Refusal;
use cns_report::Line;
use cns_system::{Event, Outcome};
use std::alloc::Global;
use std::io::Write;

/// Runs the commands of a script: both nodes, and what was told and is not yet written.
#[derive(Drop)]
pub(crate) struct Runner<N> {
    pub(crate) nodes: N,
    pub(crate) page: Page,
    pub(crate) alloc: Global,
}

impl<N: Nodes> Runner<N> {
    /// Lets an event happen, and tells and answers its outcome.
    #[inline(always)]
    pub(crate) fn event<W: Write>(&mut self, event: Event, writer: &mut W) -> Told<Outcome>
        ensures { Runs N.leads (happened event) result (at self.old (W.contents writer.old)) (at self.new (W.contents writer.new)) }
    {
        let outcome = self.nodes.step(event);
        match self.page.outcome(&event, &outcome, writer) {
            Ok(()) => Ok(outcome),
            Err(fault) => {
                drop(outcome);
                Err(fault)
            }
        }
    }

    /// Lets an event happen, and tells its outcome.
    #[inline(always)]
    pub(crate) fn single<W: Write>(&mut self, event: Event, writer: &mut W) -> Told
        ensures { Runs N.leads (single event) result (at self.old (W.contents writer.old)) (at self.new (W.contents writer.new)) }
    {
        let outcome = self.nodes.step(event);
        let told = self.page.outcome(&event, &outcome, writer);
        drop(outcome);
        told
    }

    /// Tells a line.
    pub(crate) fn tell<W: Write>(&mut self, line: Line, writer: &mut W) -> Told
        ensures { Runs N.leads (tells (bytes_of_line line)) result (at self.old (W.contents writer.old)) (at self.new (W.contents writer.new)) }
    {
        self.page.tell(line, writer)
    }

    /// Tells that an event is refused, which does not happen.
    pub(crate) fn refuse<W: Write>(
        &mut self,
        event: &Event,
        refusal: Refusal,
        writer: &mut W,
    ) -> Told
        ensures { Runs N.leads (tells (outcome_line event.now (Outcome.Refused refusal))) result (at self.old (W.contents writer.old)) (at self.new (W.contents writer.new)) }
    {
        self.page.outcome(event, &Outcome::Refused(refusal), writer)
    }

    /// Tells the report.
    pub(crate) fn report<W: Write>(&mut self, writer: &mut W) -> Told
        ensures { Runs N.leads reported result (at self.old (W.contents writer.old)) (at self.new (W.contents writer.new)) }
    {
        self.nodes.report(self.alloc, &mut self.page, writer)
    }
}
