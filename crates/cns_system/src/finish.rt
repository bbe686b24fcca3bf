ghost use Rattle.std.specs.Prelude.{◌≡◌, ◌≢◌, ◌++◌, ◌+◌, ◌≤◌, List, [], None, length, vec_capacity, IfErr, IfOk, IsPermutation, OnErr, OnOk};
ghost use Rattle.std.specs.List.Sorted.{IsNonDecreasingBy};
ghost use Rattle.cns_pool.specs.declared.ticket.Ticket.{Ticket};
ghost use Rattle.cns_system.specs.Finish.{AreAllEntered, AreCutOff, AreEntered, AreOfLot, FinishGives, IsClosed, IsEnded, IsFinished, IsNotEntered, IsSealedFirst, IsUnserved, without_busy};
ghost use Rattle.cns_system.specs.Floor.{IsLawfulFloor, NumbersRise, busy_at};
ghost use Rattle.cns_system.specs.Headline.{AreStrict};
ghost use Rattle.cns_system.specs.Run.{Occurs};
ghost use Rattle.cns_system.specs.declared.event.Event.TheVariants.{Reserve};
ghost use Rattle.cns_system.specs.declared.outcome.Outcome.{Outcome};
ghost use Rattle.cns_system.specs.declared.outcome.Outcome.TheVariants.{Drawn};

use crate::event::Event;
use crate::floor::Floor;
use crate::outcome::Outcome;
use cns_allocate::by_start;
use cns_journal::Keeper;
use cns_pool::{Ticket, Tickets};
use cns_records::Refusal;
use std::alloc::{AllocError, Global};

impl<C: Keeper, D: Keeper> Floor<C, D> {
    /// Enters what the workers of a busy lot drew, ends the lot, and answers what that came to: the
    /// tickets are entered as `Reserve` in the order of their starts; then comes `Seal`, where the
    /// floor's seat sealed the cell or `failed` says that a worker met the seal or serving failed; then
    /// `LotClose`. It ends at the first of them that is refused, and with `BadTickets`, where a reserve
    /// would draw another ticket than the one that was handed in: this reserve does not happen.
    ///
    /// The tickets among the outcomes follow the plan of the lot, which is that of the clearing node's open
    /// lot of its issue, as far as they go, and stand end to end from 0; where the lot is closed and not
    /// sealed, each member of the plan has one.
    ///
    /// The lot is no longer busy, also where there is no memory; then no event happens. Of a lot that is
    /// not busy there are no outcomes, and nothing changes. (This project's own rule.)
    ///
    /// Costs what the events cost, a sort of the tickets, and room for their copy and for an outcome each.
    pub fn finish(
        &mut self,
        alloc: Global,
        lot: u64,
        tickets: &[Ticket],
        failed: bool,
    ) -> Result<Vec<Outcome>, AllocError>
        ensures ok { IfOk result (λ told. FinishGives lot tickets.now failed told.items self.old self.new.system) }
        ensures tickets { IfOk result (λ told. AreOfLot lot self.old.system told.items) }
        ensures err { OnErr result (self.new.system ≡ self.old.system) }
        ensures memory { OnErr result (busy_at self.old.busy lot ≢ None) }
        ensures busy { self.new.busy ≡ without_busy lot self.old.busy }
        ensures lawful { IsLawfulFloor self.new }
        ensures strict { AreStrict self.old.system → AreStrict self.new.system }
        ensures numbers { NumbersRise self.old.system self.new.system }
    {
        match self.release(lot) {
            Some(sealed) => {
                let told = self.enter(alloc, lot, tickets, failed || sealed);
                self.lawful();
                told
            }
            None => {
                self.lawful();
                Ok(Vec::new(alloc))
            }
        }
    }

    // Enters tickets in the order of their starts, and ends the lot, which is not busy.
    fn enter(
        &mut self,
        alloc: Global,
        lot: u64,
        tickets: &[Ticket],
        sealed: bool,
    ) -> Result<Vec<Outcome>, AllocError>
        requires free { busy_at self.old.busy lot ≡ None }
        requires unserved { IsUnserved lot self.old.system.clear.lots }
        ensures ok { IfOk result (λ told. IsFinished lot tickets.now sealed told.items self.old.system self.new.system) }
        ensures tickets { IfOk result (λ told. AreOfLot lot self.old.system told.items) }
        ensures err { OnErr result (self.new.system ≡ self.old.system) }
        ensures busy { self.new.busy ≡ self.old.busy }
    {
        let mut told = Vec::with_capacity(alloc, tickets.len() + 2)?;
        let sorted = sort(alloc, tickets)?;
        self.enter_sorted(lot, sorted.as_slice(), sealed, &mut told);
        Ok(told)
    }

    // Enters tickets in their order, and ends the lot, where there is room for all outcomes.
    fn enter_sorted(&mut self, lot: u64, tickets: &[Ticket], sealed: bool, told: &mut Vec<Outcome>)
        requires free { busy_at self.old.busy lot ≡ None }
        requires unserved { IsUnserved lot self.old.system.clear.lots }
        requires none { told.old.items ≡ [] }
        requires room { length tickets.now + 2 ≤ vec_capacity told.old }
        ensures entered { AreAllEntered lot tickets.now sealed told.new.items self.old.system self.new.system }
        ensures tickets { AreOfLot lot self.old.system told.new.items }
        ensures busy { self.new.busy ≡ self.old.busy }
    {
        self.planned();
        let drawn = self.draw_each(lot, tickets, told);
        match drawn {
            Ok(()) => self.end(lot, sealed, told),
            Err(refusal) => told.push_reserved(Outcome::Refused(refusal)),
        }
    }

    // Enters tickets up to the first that is not entered, and tells why that is.
    fn draw_each(
        &mut self,
        lot: u64,
        tickets: &[Ticket],
        told: &mut Vec<Outcome>,
    ) -> Result<(), Refusal>
        requires free { busy_at self.old.busy lot ≡ None }
        requires none { told.old.items ≡ [] }
        requires room { length tickets.now + 2 ≤ vec_capacity told.old }
        ensures ok { OnOk result (AreEntered lot tickets.now told.new.items self.old.system self.new.system) }
        ensures err { IfErr result (λ refused. AreCutOff lot tickets.now refused told.new.items self.old.system self.new.system) }
        ensures busy { self.new.busy ≡ self.old.busy }
        ensures room { length told.new.items + 2 ≤ vec_capacity told.new }
    {
        for ticket in tickets {
            self.draw(lot, *ticket)?;
            told.push_reserved(Outcome::Drawn(*ticket));
        }
        Ok(())
    }

    // Enters a ticket of a lot that is not busy.
    fn draw(&mut self, lot: u64, ticket: Ticket) -> Result<(), Refusal>
        requires { busy_at self.old.busy lot ≡ None }
        ensures ok { OnOk result (Occurs (Reserve lot ticket.member) (Drawn ticket) self.old.system self.new.system) }
        ensures err { IfErr result (λ refused. IsNotEntered lot ticket refused self.old.system self.new.system) }
        ensures busy { self.new.busy ≡ self.old.busy }
    {
        let next = self.system().lots().next_ticket(lot, ticket.member)?;
        if next != ticket {
            return Err(Refusal::BadTickets);
        }
        drop(self.by_system(Event::Reserve {
            lot,
            member: ticket.member,
        }));
        Ok(())
    }

    // Ends a lot: seals it where it is to be sealed, and closes it.
    fn end(&mut self, lot: u64, sealed: bool, told: &mut Vec<Outcome>)
        requires free { busy_at self.old.busy lot ≡ None }
        requires room { length told.old.items + 2 ≤ vec_capacity told.old }
        ensures told { (last : List Outcome) × (told.new.items ≡ told.old.items ++ last) × IsEnded lot sealed last self.old.system self.new.system }
        ensures busy { self.new.busy ≡ self.old.busy }
    {
        if sealed {
            self.seal_and_close(lot, told);
        } else {
            self.close(lot, told);
        }
    }

    // Seals a lot, and closes it where the seal is not refused.
    fn seal_and_close(&mut self, lot: u64, told: &mut Vec<Outcome>)
        requires free { busy_at self.old.busy lot ≡ None }
        requires room { length told.old.items + 2 ≤ vec_capacity told.old }
        ensures told { (last : List Outcome) × (told.new.items ≡ told.old.items ++ last) × IsSealedFirst lot last self.old.system self.new.system }
        ensures busy { self.new.busy ≡ self.old.busy }
    {
        match self.by_system(Event::Seal { lot }) {
            Outcome::Done => {
                told.push_reserved(Outcome::Done);
                self.close(lot, told);
            }
            refused => told.push_reserved(refused),
        }
    }

    // Closes a lot.
    fn close(&mut self, lot: u64, told: &mut Vec<Outcome>)
        requires free { busy_at self.old.busy lot ≡ None }
        requires room { length told.old.items + 1 ≤ vec_capacity told.old }
        ensures told { (last : List Outcome) × (told.new.items ≡ told.old.items ++ last) × IsClosed lot last self.old.system self.new.system }
        ensures busy { self.new.busy ≡ self.old.busy }
    {
        let closed = self.by_system(Event::LotClose { lot });
        told.push_reserved(closed);
    }
}

// The tickets in the order of their starts.
fn sort(alloc: Global, tickets: &[Ticket]) -> Result<Tickets, AllocError>
    ensures same { IfOk result (λ sorted. IsPermutation tickets.now sorted) }
    ensures by_start { IfOk result (λ sorted. IsNonDecreasingBy (λ (t : Ticket). t.start) sorted) }
{
    let copy = tickets.iter().copied().collect(alloc)?;
    Ok(by_start(Tickets::from_vec(copy)))
}
