// The commands of a script.

ghost use Rattle.std.specs.Prelude.{◌≡◌, Option, ℕ};
ghost use Rattle.cns_records.specs.declared.refusal.Refusal.TheVariants as refusals;
ghost use Rattle.cns_system.specs.declared.event.Event.TheVariants as event;
ghost use Rattle.cns_report.specs.Lines.{bytes_of_line};
ghost use Rattle.cns_report.specs.declared.line.Line.TheVariants as line;
ghost use Rattle.cns_batch.specs.Acts.{done, each, single, tells};
ghost use Rattle.cns_batch.specs.Commands.{all_pumped, all_taken, delivered, drawn, event_run, failed, looked, names_busy as names_busy_of, is_busy as is_busy_of, link_shaken, opened, plain_run, pumped, pumped_shaken, row_taken, shaken, first_taken};
ghost use Rattle.cns_batch.specs.Runs.{Runs, at, leaves};

use crate::fault::Told;
use crate::nodes::Nodes;
use crate::runner::Runner;
use crate::supply::Supply;
use cns_ids::Cusip;
use cns_input::Command;
use cns_movements::MoveNo;
use cns_records::Refusal;
use cns_report::Line;
use cns_shake::{DRAWS, Shaker};
use cns_system::{Event, NodeName, Opened, Outcome};
use cns_trades::Row;
use std::io::Write;

// Whether this is the number of the lot that is served beside lines.
fn is_busy(busy: Option<u64>, number: u64) -> bool
    ensures { result ≡ is_busy_of busy number }
{
    match busy {
        Some(lot) => lot == number,
        None => false,
    }
}

// Whether an event draws a ticket of the lot that is served beside lines, or closes it.
fn names_busy(busy: Option<u64>, event: &Event) -> bool
    ensures { result ≡ names_busy_of busy event.now }
{
    match *event {
        Event::Reserve { lot, .. } | Event::LotClose { lot } => is_busy(busy, lot),
        _ => false,
    }
}

impl<N: Nodes> Runner<N> {
    // Takes a row.
    fn take_row<W: Write>(&mut self, row: &Row, writer: &mut W) -> Told
        ensures { Runs N.leads (row_taken row.now) result (at self.old (W.contents writer.old)) (at self.new (W.contents writer.new)) }
    {
        match *row {
            Row::Trade(trade) => self.single(Event::Trade(trade), writer),
            Row::Fault { row, fault } => self.tell(Line::RowFault { row, fault }, writer),
        }
    }

    // Takes so many of the rows that are left, or all where fewer are.
    fn take<W: Write>(&mut self, rows: u64, supply: &mut Supply, writer: &mut W) -> Told
        ensures { Runs N.leads (first_taken rows supply.old) (leaves result supply.new) (at self.old (W.contents writer.old)) (at self.new (W.contents writer.new)) }
    {
        for _turn in 0..rows {
            let Some(row) = supply.trades.next() else {
                return Ok(());
            };
            self.take_row(&row, writer)?;
        }
        Ok(())
    }

    // Takes all the rows that are left.
    fn take_all<W: Write>(&mut self, supply: &mut Supply, writer: &mut W) -> Told
        ensures { Runs N.leads (all_taken supply.old) (leaves result supply.new) (at self.old (W.contents writer.old)) (at self.new (W.contents writer.new)) }
    {
        let left = supply.trades.len() as u64;
        self.take(left, supply, writer)
    }

    // Looks at what was poured into a lot and at what its tickets ask for, in one line.
    fn look<W: Write>(&mut self, lot: u64, writer: &mut W) -> Told
        ensures { Runs N.leads (looked lot) result (at self.old (W.contents writer.old)) (at self.new (W.contents writer.new)) }
    {
        if let Outcome::Refused(_) = self.event(Event::LookPoured { lot }, writer)? {
            return Ok(());
        }
        self.single(Event::LookAsked { lot }, writer)
    }

    // Lets the packet of an order arrive, and then that of its reply where it was executed.
    fn deliver<W: Write>(&mut self, packet: u64, writer: &mut W) -> Told
        ensures { Runs N.leads (delivered packet) result (at self.old (W.contents writer.old)) (at self.new (W.contents writer.new)) }
    {
        match self.event(Event::OrderIn { packet }, writer)? {
            Outcome::Executed { packet, .. } => {
                return self.single(Event::ReplyIn { packet }, writer);
            }
            Outcome::ExecutedAgain { packet, .. } => {
                return self.single(Event::ReplyIn { packet }, writer);
            }
            _ => {}
        }
        Ok(())
    }

    // Sends an order, and lets its packet and that of the reply arrive; a refusal ends this.
    #[inline(never)]
    fn pump_one<W: Write>(&mut self, number: MoveNo, writer: &mut W) -> Told
        ensures { Runs N.leads (pumped number) result (at self.old (W.contents writer.old)) (at self.new (W.contents writer.new)) }
    {
        let number = number.number();
        let Outcome::Sent { packet } = self.event(Event::Send { number }, writer)? else {
            return Ok(());
        };
        self.deliver(packet, writer)
    }

    // Does so with these orders, one after another.
    #[inline(always)]
    fn pump_each<W: Write>(&mut self, numbers: &[MoveNo], writer: &mut W) -> Told
        ensures { Runs N.leads (each pumped numbers.now) result (at self.old (W.contents writer.old)) (at self.new (W.contents writer.new)) }
    {
        for number in numbers {
            self.pump_one(*number, writer)?;
        }
        Ok(())
    }

    // Sends each order that is unconfirmed at the start, by number, and lets its packets arrive.
    #[inline(always)]
    fn pump_all<W: Write>(&mut self, writer: &mut W) -> Told
        ensures { Runs N.leads all_pumped result (at self.old (W.contents writer.old)) (at self.new (W.contents writer.new)) }
    {
        let numbers = self.nodes.unconfirmed(self.alloc)?;
        self.pump_each(numbers.as_slice(), writer)
    }

    // Lets the event happen that a draw names, where it names one.
    fn draw<W: Write>(&mut self, event: Option<Event>, writer: &mut W) -> Told
        ensures { Runs N.leads (drawn event) result (at self.old (W.contents writer.old)) (at self.new (W.contents writer.new)) }
    {
        match event {
            Some(event) => self.single(event, writer),
            None => Ok(()),
        }
    }

    // Lets the events of so many draws happen. Each draw sees the counts after the one before it.
    #[inline(never)]
    fn shake<W: Write>(&mut self, shaker: &mut Shaker, writer: &mut W) -> Told
        ensures { Runs N.leads (shaken DRAWS shaker.old) (leaves result shaker.new) (at self.old (W.contents writer.old)) (at self.new (W.contents writer.new)) }
    {
        for _draw in 0..DRAWS {
            let event = shaker.draw(&self.nodes.counts());
            self.draw(event, writer)?;
        }
        Ok(())
    }

    // Shakes the link, where the run is shaken.
    #[inline(always)]
    fn shake_link<W: Write>(&mut self, supply: &mut Supply, writer: &mut W) -> Told
        ensures { Runs N.leads (link_shaken supply.old) (leaves result supply.new) (at self.old (W.contents writer.old)) (at self.new (W.contents writer.new)) }
    {
        match &mut supply.shaker {
            Some(shaker) => self.shake(shaker, writer),
            None => Ok(()),
        }
    }

    // Shakes the link, where the run is shaken, and then pumps.
    #[inline(always)]
    fn pump<W: Write>(&mut self, supply: &mut Supply, writer: &mut W) -> Told
        ensures { Runs N.leads (pumped_shaken supply.old) (leaves result supply.new) (at self.old (W.contents writer.old)) (at self.new (W.contents writer.new)) }
    {
        self.shake_link(supply, writer)?;
        self.pump_all(writer)
    }

    /// Opens a lot of an issue, and answers it where it was opened.
    pub(crate) fn open_lot<W: Write>(
        &mut self,
        issue: Cusip,
        writer: &mut W,
    ) -> Told<Option<Opened>>
        ensures { Runs N.leads (opened issue) result (at self.old (W.contents writer.old)) (at self.new (W.contents writer.new)) }
    {
        let Outcome::LotOpened(lot) = self.event(Event::LotOpen { issue }, writer)? else {
            return Ok(None);
        };
        Ok(Some(lot))
    }

    // Lets the event of a command happen. A ticket or a close of the lot that is served beside lines is
    // refused.
    fn run_event<W: Write>(&mut self, busy: Option<u64>, event: Event, writer: &mut W) -> Told
        ensures { Runs N.leads (event_run busy event) result (at self.old (W.contents writer.old)) (at self.new (W.contents writer.new)) }
    {
        if names_busy(busy, &event) {
            return self.refuse(&event, Refusal::LotBusy, writer);
        }
        self.single(event, writer)
    }

    // Tells that the line of this number holds no command that may run there.
    fn refuse_line<W: Write>(&mut self, number: u64, writer: &mut W) -> Told
        ensures { Runs N.leads (tells (bytes_of_line (line.BadCommand number))) result (at self.old (W.contents writer.old)) (at self.new (W.contents writer.new)) }
    {
        self.tell(Line::BadCommand { line: number }, writer)
    }

    // Makes the next commit of a node fail, where its keeper plans failures.
    fn fail<W: Write>(&mut self, node: NodeName, stands: bool, writer: &mut W) -> Told
        ensures { Runs N.leads (failed node stands) result (at self.old (W.contents writer.old)) (at self.new (W.contents writer.new)) }
    {
        if self.nodes.plan(node, stands) {
            return self.tell(Line::FailurePlanned, writer);
        }
        self.tell(Line::FailureNotPlanned, writer)
    }

    /// Runs a command that serves no lot, in the line of this number, beside the lot of a number where one is
    /// served beside lines. Any other command is bad here.
    #[inline(always)]
    pub(crate) fn run_plain<W: Write>(
        &mut self,
        busy: Option<u64>,
        number: u64,
        command: &Command,
        supply: &mut Supply,
        writer: &mut W,
    ) -> Told
        ensures { Runs N.leads (plain_run busy number command.now supply.old) (leaves result supply.new)
            (at self.old (W.contents writer.old)) (at self.new (W.contents writer.new)) }
    {
        match *command {
            Command::TakeAll => self.take_all(supply, writer),
            Command::Take(rows) => self.take(rows, supply, writer),
            Command::Single(event) => self.run_event(busy, event, writer),
            Command::Look(lot) => self.look(lot, writer),
            Command::Fail { node, stands } => self.fail(node, stands, writer),
            Command::Pump => self.pump(supply, writer),
            Command::Report => self.report(writer),
            Command::Skip => self.refuse_line(number, writer),
            Command::Allocate(_) => self.refuse_line(number, writer),
            Command::Beside { .. } => self.refuse_line(number, writer),
            Command::Bad => self.refuse_line(number, writer),
        }
    }
}
