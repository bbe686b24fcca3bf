//! What a run told and has not yet written.

ghost use Rattle.std.specs.Prelude.{◌≡◌, [], IfErr, OnOk, length};
ghost use Rattle.std.specs.List.{flat_map};
ghost use Rattle.cns_report.specs.Lines.{bytes_of_line};
ghost use Rattle.cns_report.specs.Outcomes.{outcome_line};
ghost use Rattle.cns_report.specs.Report.{balance_line, cycle_report_text};
ghost use Rattle.cns_clearing.specs.Books.{history_of, latest_of, order_book_of};
ghost use Rattle.cns_clearing.specs.Pools.{rows_of_pools};
ghost use Rattle.cns_depository.specs.Balances.{balance_rows};
ghost use Rattle.cns_netting.specs.Rows.{rows_of};
ghost use Rattle.cns_system.specs.Shown.{shown_of};
ghost use Rattle.cns_batch.specs.ByWorkers.{closed_text, cut_text, end_text, lot_line, not_drawn, refusal_of as refusal_of_cut, ticket_line};
ghost use Rattle.cns_batch.specs.Commands.{report_text};
ghost use Rattle.cns_batch.specs.declared.fault.OutputFault.TheVariants.{Write as write_fault};
ghost use Rattle.cns_batch.specs.Runs.{Prints, Puts, output};

use crate::fault::Told;
use crate::output::{hand_on, write_text};
use crate::pace::Pace;
use cns_clearing::Clearing;
use cns_depository::Depository;
use cns_ids::Cusip;
use cns_journal::Keeper;
use cns_records::Refusal;
use cns_report::{
    EventLine, Line, LotLine, Put, RefusedLine, ReportEnd, ReportHead, Text, orders_of,
};
use cns_system::{Cut, Drawn, Event, Outcome, System};
use std::alloc::Global;
use std::io::Write;
use std::marker::Model;

// How many bytes of text are held at most before they are written, beside those of one line.
const FULL: usize = 65_536;

// The refusal that tells what cut workers off.
fn refusal_of(cut: Cut) -> Refusal
    ensures { result ≡ refusal_of_cut cut }
{
    match cut {
        Cut::Sealed => Refusal::Sealed,
        Cut::Fault(_) => Refusal::OutOfMemory,
    }
}

/// A text that is written where it has grown much, and at the end. Contracts see what was told and is not
/// yet written, and for how much there is memory.
#[derive(Drop)]
pub(crate) struct Page {
    text: Text,
    pace: Pace,
}

impl Model for Page {
    ghost use Rattle.cns_report.specs.Draft.{Written};

    ghost Value = { Written };

    ghost view = { λ p. p.text };
}

impl Page {
    /// A text that is to be written first, at a pace.
    pub(crate) fn new(text: Text, pace: Pace) -> Page
        ensures { result ≡ text }
    {
        Page { text, pace }
    }

    /// Writes what was told.
    pub(crate) fn flush<W: Write>(&mut self, writer: &mut W) -> Told
        ensures prints { Prints [] result (output self.old (W.contents writer.old)) (output self.new (W.contents writer.new)) }
        ensures none { OnOk result (self.new.text ≡ []) }
        ensures room { self.new.room ≡ self.old.room }
        ensures kind { IfErr result (λ e. e ≡ write_fault) }
    {
        write_text(writer, self.text.as_bytes())?;
        self.text.clear();
        Ok(())
    }

    /// Writes what was told where that is much.
    fn flush_when_full<W: Write>(&mut self, writer: &mut W) -> Told
        ensures prints { Prints [] result (output self.old (W.contents writer.old)) (output self.new (W.contents writer.new)) }
        ensures room { self.new.room ≡ self.old.room }
        ensures kind { IfErr result (λ e. e ≡ write_fault) }
    {
        if self.text.len() < FULL {
            return Ok(());
        }
        self.flush(writer)
    }

    // Writes what was told, and has the writer hand it on.
    fn pass_on<W: Write>(&mut self, writer: &mut W) -> Told
        ensures { Prints [] result (output self.old (W.contents writer.old)) (output self.new (W.contents writer.new)) }
    {
        self.flush(writer)?;
        hand_on(writer)
    }

    /// Ends a line of the script. Its text is written where that is the pace.
    #[inline(always)]
    pub(crate) fn end_line<W: Write>(&mut self, writer: &mut W) -> Told
        ensures { Prints [] result (output self.old (W.contents writer.old)) (output self.new (W.contents writer.new)) }
    {
        match self.pace {
            Pace::WhenFull => Ok(()),
            Pace::ByLine => self.pass_on(writer),
        }
    }

    /// Tells what an event came to.
    pub(crate) fn outcome<W: Write>(
        &mut self,
        event: &Event,
        outcome: &Outcome,
        writer: &mut W,
    ) -> Told
        ensures { Puts (outcome_line event.now outcome.now) result self.old self.new (W.contents writer.old) (W.contents writer.new) }
    {
        self.told(&EventLine { event, outcome }, writer)?;
        self.rows(orders_of(outcome), writer)
    }

    // Tells what is one line.
    fn told<T: Put, W: Write>(&mut self, told: &T, writer: &mut W) -> Told
        ensures { Puts (T.text told.now) result self.old self.new (W.contents writer.old) (W.contents writer.new) }
    {
        self.text.tell(told)?;
        self.flush_when_full(writer)
    }

    /// Tells a line.
    pub(crate) fn tell<W: Write>(&mut self, line: Line, writer: &mut W) -> Told
        ensures { Puts (bytes_of_line line) result self.old self.new (W.contents writer.old) (W.contents writer.new) }
    {
        self.told(&line, writer)
    }

    // Tells the lines of rows, one by one.
    #[inline(never)]
    fn each<R: Put, W: Write>(&mut self, rows: &[R], writer: &mut W) -> Told
        ensures { Puts (flat_map R.text rows.now) result self.old self.new (W.contents writer.old) (W.contents writer.new) }
    {
        for row in rows {
            self.told(row, writer)?;
        }
        Ok(())
    }

    // Tells the lines of rows, with no call where there are none.
    #[inline(always)]
    fn rows<R: Put, W: Write>(&mut self, rows: &[R], writer: &mut W) -> Told
        ensures { Puts (flat_map R.text rows.now) result self.old self.new (W.contents writer.old) (W.contents writer.new) }
    {
        if rows.is_empty() {
            return Ok(());
        }
        self.each(rows, writer)
    }

    // Tells the clearing node's part of the report.
    fn cycle_report<C: Keeper, W: Write>(
        &mut self,
        alloc: Global,
        clearing: &Clearing<C>,
        writer: &mut W,
    ) -> Told
        ensures { Prints (cycle_report_text (latest_of clearing.now.log.records) (rows_of (history_of clearing.now.log.records)) (rows_of_pools (order_book_of clearing.now.log.records) clearing.now.lots))
            result (output self.old (W.contents writer.old)) (output self.new (W.contents writer.new)) }
    {
        let latest = clearing.latest();
        self.told(&ReportHead(latest), writer)?;
        let positions = clearing.book().rows()?;
        self.rows(positions.as_slice(), writer)?;
        drop(positions);
        let pools = clearing.pools(alloc)?;
        self.rows(pools.as_slice(), writer)
    }

    // Tells the depository's part of the report.
    fn balance_report<D: Keeper, W: Write>(
        &mut self,
        alloc: Global,
        depository: &Depository<D>,
        writer: &mut W,
    ) -> Told
        ensures { Prints (flat_map balance_line (balance_rows depository.now.openings depository.now.log.records)) result (output self.old (W.contents writer.old)) (output self.new (W.contents writer.new)) }
    {
        let balances = depository.balances(alloc)?;
        self.rows(balances.as_slice(), writer)
    }

    /// Tells the report of both nodes. Its rows are told one by one, so that it is never held whole.
    pub(crate) fn report<C: Keeper, D: Keeper, W: Write>(
        &mut self,
        alloc: Global,
        system: &System<C, D>,
        writer: &mut W,
    ) -> Told
        ensures { Prints (report_text (shown_of system.now)) result (output self.old (W.contents writer.old)) (output self.new (W.contents writer.new)) }
    {
        self.cycle_report(alloc, system.clearing(), writer)?;
        self.balance_report(alloc, system.depository(), writer)?;
        self.told(&ReportEnd, writer)
    }

    /// Tells that a lot was opened, by its number, the shares that were poured into it and its longs.
    pub(crate) fn lot<W: Write>(
        &mut self,
        number: u64,
        poured: u64,
        longs: usize,
        writer: &mut W,
    ) -> Told
        ensures { Puts (lot_line number poured longs) result self.old self.new (W.contents writer.old) (W.contents writer.new) }
    {
        let opened = LotLine {
            number,
            poured,
            longs,
        };
        self.told(&opened, writer)
    }

    // Tells that no ticket was drawn.
    fn not_drawn<W: Write>(&mut self, refusal: Refusal, writer: &mut W) -> Told
        ensures { Puts (not_drawn refusal) result self.old self.new (W.contents writer.old) (W.contents writer.new) }
    {
        let word = "reserve";
        self.told(&RefusedLine { word, refusal }, writer)
    }

    // Tells what entering a ticket of a lot came to.
    fn ticket<W: Write>(&mut self, lot: u64, outcome: &Outcome, writer: &mut W) -> Told
        ensures { Puts (ticket_line lot outcome.now) result self.old self.new (W.contents writer.old) (W.contents writer.new) }
    {
        match outcome {
            Outcome::Drawn(ticket) => {
                let member = ticket.member;
                self.outcome(&Event::Reserve { lot, member }, outcome, writer)
            }
            Outcome::Refused(refusal) => self.not_drawn(*refusal, writer),
            _ => Ok(()),
        }
    }

    // Tells what entering tickets of a lot came to.
    fn tickets<W: Write>(&mut self, lot: u64, entered: &[Outcome], writer: &mut W) -> Told
        ensures { Puts (flat_map (ticket_line lot) entered.now) result self.old self.new (W.contents writer.old) (W.contents writer.new) }
    {
        for outcome in entered {
            self.ticket(lot, outcome, writer)?;
        }
        Ok(())
    }

    // Tells what the close of a lot came to, after a seal where there was one. A seal is not told unless it
    // is refused.
    fn close<W: Write>(&mut self, lot: u64, sealed: bool, last: &[Outcome], writer: &mut W) -> Told
        ensures { Puts (closed_text lot sealed last.now) result self.old self.new (W.contents writer.old) (W.contents writer.new) }
    {
        match (sealed, last) {
            (_, []) | (true, [Outcome::Done]) => Ok(()),
            (false, [closed, ..]) | (true, [Outcome::Done, closed, ..]) => {
                self.outcome(&Event::LotClose { lot }, closed, writer)
            }
            (true, [refused, ..]) => self.outcome(&Event::Seal { lot }, refused, writer),
        }
    }

    // Tells what cut workers off, where something did.
    fn cut<W: Write>(&mut self, cut: Option<Cut>, writer: &mut W) -> Told
        ensures { Puts (cut_text cut) result self.old self.new (W.contents writer.old) (W.contents writer.new) }
    {
        match cut {
            Some(cut) => self.not_drawn(refusal_of(cut), writer),
            None => Ok(()),
        }
    }

    /// Tells what the end of a lot came to: its tickets by start; where all of them were entered, what cut
    /// the workers off; and the close, after a seal where there was one.
    pub(crate) fn end<W: Write>(
        &mut self,
        lot: u64,
        drawn: &Drawn,
        sealed: bool,
        entered: &[Outcome],
        writer: &mut W,
    ) -> Told
        ensures { Puts (end_text lot (length drawn.now.seat.tickets) drawn.now.cut sealed entered.now) result self.old self.new (W.contents writer.old) (W.contents writer.new) }
    {
        let tickets = drawn.seat.tickets().len();
        if entered.len() <= tickets {
            return self.tickets(lot, entered, writer);
        }
        let (tickets, last) = entered.split_at(tickets);
        self.tickets(lot, tickets, writer)?;
        self.cut(drawn.cut, writer)?;
        self.close(lot, sealed, last, writer)
    }
}
