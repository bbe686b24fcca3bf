ghost use Rattle.std.specs.Prelude.{◌≡◌, ◌+◌, ◌^◌, ◌<◌, ◌≤◌, [], Err, IfErr, IfOk, IsSome, OnOk, vec_capacity, vec_len};
ghost use Rattle.cns_clearing.specs.Lots.{plan_in};
ghost use Rattle.cns_system.specs.Begin.{IsBegun, IsHandedOut, IsNewCell, IsNotBegun, IsRefusal};
ghost use Rattle.cns_system.specs.Finish.{IsReleased, IsUnserved, sealed_at};
ghost use Rattle.cns_system.specs.Floor.{AreByNumber, BySystem, FloorStep, IsLawfulFloor, IsBusyPlace, NamesLot, NumbersRise, PourFits, SparesBusy, UnlessBusy, busy_at, busy_with_look, busy_with_pour, busy_with_seal, is_open, served_at, with_busy};
ghost use Rattle.cns_system.specs.Headline.{AreStrict};
ghost use Rattle.cns_system.specs.Lot.{planned_sum};
ghost use Rattle.cns_system.specs.Lots.{ArePlanned};
ghost use Rattle.cns_records.specs.Call.{Grows};
ghost use Rattle.cns_system.specs.Numbered.{AreTied, opening_call};
ghost use Rattle.cns_system.specs.Readers.{PlanStep, counts_of, unconfirmed};
ghost use Rattle.cns_system.specs.Run.{Occurs};
ghost use Rattle.cns_system.specs.Scene.{Plans, scene_of};
ghost use Rattle.cns_system.specs.Shown.{shown_of};
ghost use Rattle.cns_system.specs.declared.event.Event.TheVariants.{LookAsked, LookPoured, LotOpen, LotPour, Seal};
ghost use Rattle.cns_system.specs.declared.outcome.Outcome.TheVariants.{LotOpened};

use crate::entry::shares;
use crate::event::{Event, NodeName};
use crate::lots::LotBook;
use crate::numbered::{MAX_LOTS, Opened, plan_of};
use crate::outcome::Outcome;
use crate::system::{Counts, System};
use cns_allocate::{Plan, Planned};
use cns_ids::Cusip;
use cns_journal::{Keeper, NotPlanned};
use cns_movements::MoveNo;
use cns_pool::{Asked, FeederSeat, PoolCell, WorkerSeat};
use cns_records::Refusal;
use std::alloc::{AllocError, Global};
use std::marker::Model;
use std::sync::Arc;

// The most shares that are poured into a cell.
const MAX_POURED: u64 = 1_000_000_000_000_000_000;

// A lot that workers serve: its number, its cell, and the seat that feeds the cell.
#[derive(Drop)]
struct Busy {
    lot: u64,
    cell: Arc<PoolCell>,
    feeder: FeederSeat,
}

impl Model for Busy {
    ghost use Rattle.std.specs.Prelude.{◌≡◌, ◌+◌};
    ghost use Rattle.std.specs.Arc.{arc_value};
    ghost use Rattle.cns_system.specs.Floor.{BusyLot};

    ghost Value = { BusyLot };

    ghost view = { λ b. record {
      lot = b.lot;
      cell = b.feeder.cell;
      poured = b.feeder.poured;
      sealed = b.feeder.sealed;
      asked = b.feeder.seen.asked;
    } };

    ghost invariant = { λ b. (arc_value b.cell ≡ b.feeder.cell) × (b.feeder.poured + b.feeder.pour_room ≡ 1000000000000000000) };
}

impl Busy {
    // The number of the lot.
    fn lot(&self) -> u64
        ensures { result ≡ self.now.lot }
    {
        self.lot
    }

    // Pours shares into the cell.
    fn pour(&mut self, shares: u64)
        requires { self.old.poured + shares ≤ 10 ^ 18 }
        ensures { self.new ≡ busy_with_pour shares self.old }
    {
        self.cell.pour(&mut self.feeder, shares);
    }

    // Seals the cell.
    fn seal(&mut self)
        ensures { self.new ≡ busy_with_seal self.old }
    {
        self.cell.seal(&mut self.feeder);
    }

    // Whether the cell was sealed.
    fn is_sealed(&self) -> bool
        ensures { result ≡ self.now.sealed }
    {
        self.feeder.is_sealed()
    }

    // The shares that were poured into the cell.
    fn look_poured(&mut self) -> u64
        ensures shown { result ≡ self.old.poured }
        ensures same { self.new ≡ self.old }
    {
        self.cell.look_poured(&mut self.feeder)
    }

    // The shares that were asked of the cell, and its seal.
    fn look_asked(&mut self) -> Asked
        ensures sealed { result.sealed ≡ self.old.sealed }
        ensures least { self.old.asked ≤ result.sum }
        ensures seen { self.new ≡ busy_with_look result.sum self.old }
    {
        self.cell.look_asked(&mut self.feeder)
    }
}

/// A lot that workers begin to serve, with what they need for it.
#[derive(Drop)]
pub struct Begun {
    /// Its number.
    pub lot: u64,
    /// The shares that were poured into it as it was opened.
    pub poured: u64,
    /// The members that it serves: the longs of its issue that are still to receive shares.
    pub plan: Plan,
    /// Its cell.
    pub cell: Arc<PoolCell>,
    /// The seat that draws from the cell. It has budget and calls for the plan, and no ticket yet.
    pub seat: WorkerSeat,
}

// A new cell, held by the floor and by the workers, with its two seats.
#[derive(Drop)]
struct NewCell {
    ours: Arc<PoolCell>,
    theirs: Arc<PoolCell>,
    feeder: FeederSeat,
    seat: WorkerSeat,
}

/// A system, and the cells of the lots that workers serve beside it.
///
/// A lot that workers serve is busy. Its own pool is not used: the workers draw its tickets from a cell
/// that threads share, into which all is poured that is poured into the lot. Whatever events happened,
/// the system is as `System` says; and for each busy lot that has not ended, the floor's seat feeds that
/// lot's cell and has poured into it just what was poured into the lot, which is what the clearing node has
/// lent, and the lot itself has no ticket and no seal. (This project's own rules.)
///
/// Contracts see the system, and the busy lots by number: of each its cell, what was poured into the cell and
/// whether it was sealed by the floor's seat, and the asked shares that this seat has seen.
#[derive(Drop)]
pub struct Floor<C: Keeper, D: Keeper> {
    system: System<C, D>,
    busy: Vec<Busy>,
}

impl<C: Keeper, D: Keeper> Model for Floor<C, D> {
    ghost use Rattle.cns_system.specs.Floor.{AreBusy, FloorState};

    ghost Value = { FloorState };

    ghost view = { λ f. record { system = f.system; busy = f.busy.items } };

    ghost invariant = { λ f. AreBusy f.system.clear f.busy.items };
}

impl<C: Keeper, D: Keeper> Floor<C, D> {
    /// The system, where no lot is busy. It takes no memory.
    pub fn new(alloc: Global, system: System<C, D>) -> Floor<C, D>
        ensures system { result.system ≡ system }
        ensures busy { result.busy ≡ [] }
    {
        Floor {
            system,
            busy: Vec::new(alloc),
        }
    }

    /// The system.
    pub fn system(&self) -> &System<C, D>
        ensures system { result.now ≡ self.now.system }
        ensures lawful { IsLawfulFloor self.now }
    {
        self.lawful();
        &self.system
    }

    /// The orders that are not confirmed, by number.
    pub fn unconfirmed(&self, alloc: Global) -> Result<Vec<MoveNo>, AllocError>
        ensures { IfOk result (λ numbers. numbers.items ≡ unconfirmed self.now.system.clear.clear.log.records) }
    {
        self.system.unconfirmed(alloc)
    }

    /// How many orders the clearing node has, and how many packets were put on each link so far.
    pub fn counts(&self) -> Counts
        ensures { result ≡ counts_of (shown_of self.now.system) }
    {
        self.system.counts()
    }

    /// Whether the floor's seat sealed the cell of the busy lot of a number, where there is one. It is no
    /// event. (This project's own rule.)
    pub fn is_sealed(&self, lot: u64) -> bool
        ensures { result ≡ sealed_at self.now.busy lot }
    {
        match place_of(self.busy.as_slice(), lot) {
            Some(place) => {
                let one = &self.busy[place];
                one.is_sealed()
            }
            None => false,
        }
    }

    /// Makes the next commit of a node's keeper fail, as `System::plan` does.
    pub fn plan(&mut self, node: NodeName, stands: bool) -> Result<(), NotPlanned>
        ensures plan { PlanStep node stands result self.old.system self.new.system }
        ensures scene { Plans node stands result (scene_of self.old.system) (scene_of self.new.system) }
        ensures busy { self.new.busy ≡ self.old.busy }
        ensures lawful { IsLawfulFloor self.new }
        ensures strict { AreStrict self.old.system → AreStrict self.new.system }
    {
        let planned = self.system.plan(node, stands);
        self.lawful();
        planned
    }

    /// Lets an event happen, and answers what it came to.
    ///
    /// A busy lot refuses `Reserve` and `LotClose` as `LotBusy`, also once it has ended. While it has not
    /// ended, what a pour adds to it is poured into its cell too; and a seal and looks are the cell's, and
    /// leave the system as it is. A look at the asked shares shows no less than an earlier one did, and may
    /// count reserves that the sealed cell refused. All else is as `System::step` has it. (This project's own
    /// rule.)
    ///
    /// Costs what `System::step` does, and a walk over the busy lots.
    pub fn step(&mut self, event: Event) -> Outcome
        ensures step { FloorStep event result self.old self.new }
        ensures lawful { IsLawfulFloor self.new }
        ensures strict { AreStrict self.old.system → AreStrict self.new.system }
        ensures numbers { NumbersRise self.old.system self.new.system }
    {
        let outcome = self.take(event);
        self.lawful();
        outcome
    }

    /// Opens a lot of an issue for workers to serve, as `LotOpen` does: the lot is busy, with a cell of its
    /// own into which the same shares are poured. A lot that is not opened is told by its refusal.
    ///
    /// The cell has room for the tickets of the plan, and is made before the lot is opened; where there is
    /// no memory for it, no lot is opened, and `OutOfMemory` is told where nothing else refuses it. (This
    /// project's own rule.)
    ///
    /// Costs what `LotOpen` does, one plan of the issue more, and 24 bytes for each member of the plan.
    pub fn begin(&mut self, alloc: Global, issue: Cusip) -> Result<Begun, Outcome>
        ensures ok { IfOk result (λ begun. IsBegun issue begun self.old self.new) }
        ensures err { IfErr result (λ outcome. IsNotBegun issue outcome self.old self.new) }
        ensures lawful { IsLawfulFloor self.new }
        ensures strict { AreStrict self.old.system → AreStrict self.new.system }
        ensures numbers { NumbersRise self.old.system self.new.system }
    {
        let begun = self.begin_lot(alloc, issue);
        self.lawful();
        begun
    }

    // Opens a lot for workers, as `begin` does.
    fn begin_lot(&mut self, alloc: Global, issue: Cusip) -> Result<Begun, Outcome>
        ensures ok { IfOk result (λ begun. IsBegun issue begun self.old self.new) }
        ensures err { IfErr result (λ outcome. IsNotBegun issue outcome self.old self.new) }
    {
        self.system.agreed();
        let Ok(cell) = prepare(alloc, &self.system, &mut self.busy, issue) else {
            return Err(not_opened(&self.system, issue));
        };
        match open_lot(&mut self.system, issue) {
            Ok(opened) => Ok(hand_out(&mut self.busy, opened, cell)),
            Err(outcome) => Err(outcome),
        }
    }

    // The lot of a number is no longer busy. Answers whether the floor's seat sealed its cell, where it was
    // busy.
    pub(crate) fn release(&mut self, lot: u64) -> Option<bool>
        ensures released { IsReleased lot result self.old self.new }
        ensures unserved { IsSome result → IsUnserved lot self.new.system.clear.lots }
    {
        let place = place_of(self.busy.as_slice(), lot)?;
        let mut one = self.busy.remove(place);
        Some(one.look_asked().sealed)
    }

    // Does nothing, and tells what is so between events.
    pub(crate) fn lawful(&self)
        ensures { IsLawfulFloor self.now }
    {
        self.system.agreed();
    }

    // Does nothing, and tells of which plans the lots are.
    pub(crate) fn planned(&self)
        ensures planned { ArePlanned self.now.system.clear.clear.log.records self.now.system.clear.lots }
        ensures tied { AreTied self.now.system.clear.clear.lots self.now.system.clear.lots }
    {
        self.system.agreed();
    }

    // Lets an event happen, as `step` does.
    fn take(&mut self, event: Event) -> Outcome
        ensures { FloorStep event result self.old self.new }
    {
        match event {
            Event::Reserve { lot, member } => {
                self.unless_busy(lot, Event::Reserve { lot, member })
            }
            Event::LotClose { lot } => self.unless_busy(lot, Event::LotClose { lot }),
            Event::LotPour { lot } => self.pour(lot),
            Event::LookPoured { lot } => self.look_poured(lot),
            Event::LookAsked { lot } => self.look_asked(lot),
            Event::Seal { lot } => self.seal(lot),
            _ => self.by_system(event),
        }
    }

    // Lets an event happen that changes no busy lot but one that has ended.
    pub(crate) fn by_system(&mut self, event: Event) -> Outcome
        requires { SparesBusy event self.old }
        ensures { BySystem event result self.old self.new }
    {
        self.system.agreed();
        self.system.step(event)
    }

    // Lets an event of a lot happen, where the lot is not busy.
    fn unless_busy(&mut self, lot: u64, event: Event) -> Outcome
        requires { NamesLot event lot }
        ensures { UnlessBusy lot event result self.old self.new }
    {
        match place_of(self.busy.as_slice(), lot) {
            Some(_) => Outcome::Refused(Refusal::LotBusy),
            None => self.by_system(event),
        }
    }

    // Pours what has become free into a lot, and into its cell where it is busy.
    fn pour(&mut self, lot: u64) -> Outcome
        ensures { FloorStep (LotPour lot) result self.old self.new }
    {
        self.system.agreed();
        match self.system.step(Event::LotPour { lot }) {
            Outcome::Poured { shares } => {
                pour_into(&mut self.busy, lot, shares);
                Outcome::Poured { shares }
            }
            outcome => outcome,
        }
    }

    // The place of the busy lot of a number, where the lot has not ended.
    fn served(&self, lot: u64) -> Option<usize>
        ensures { IsBusyPlace (served_at self.now lot) self.now.busy result }
    {
        if is_open(self.system.lots(), lot) {
            place_of(self.busy.as_slice(), lot)
        } else {
            None
        }
    }

    // A look at the poured shares.
    fn look_poured(&mut self, lot: u64) -> Outcome
        ensures { FloorStep (LookPoured lot) result self.old self.new }
    {
        match self.served(lot) {
            Some(place) => {
                let one = &mut self.busy[place];
                Outcome::LookedPoured {
                    poured: one.look_poured(),
                }
            }
            None => self.by_system(Event::LookPoured { lot }),
        }
    }

    // A look at the asked shares.
    fn look_asked(&mut self, lot: u64) -> Outcome
        ensures { FloorStep (LookAsked lot) result self.old self.new }
    {
        match self.served(lot) {
            Some(place) => {
                let one = &mut self.busy[place];
                let Asked { sum, sealed } = one.look_asked();
                Outcome::LookedAsked { asked: sum, sealed }
            }
            None => self.by_system(Event::LookAsked { lot }),
        }
    }

    // A seal.
    fn seal(&mut self, lot: u64) -> Outcome
        ensures { FloorStep (Seal lot) result self.old self.new }
    {
        match self.served(lot) {
            Some(place) => {
                let one = &mut self.busy[place];
                one.seal();
                Outcome::Done
            }
            None => self.by_system(Event::Seal { lot }),
        }
    }
}

// Whether a lot was opened with the number and has not ended.
fn is_open(lots: &LotBook, number: u64) -> bool
    ensures { result ≡ is_open lots.now.lots number }
{
    lots.issue(number).is_ok()
}

// The place of the busy lot of a number.
fn place_of(busy: &[Busy], lot: u64) -> Option<usize>
    ensures { IsBusyPlace (busy_at busy.now lot) busy.now result }
{
    for (place, one) in busy.iter().enumerate() {
        if one.lot() == lot {
            return Some(place);
        }
    }
    None
}

// Pours shares into the cell of the busy lot of a number, where there is one.
fn pour_into(busy: &mut Vec<Busy>, lot: u64, shares: u64)
    requires fits { PourFits lot shares busy.old.items }
    requires order { AreByNumber busy.old.items }
    ensures { busy.new.items ≡ with_busy (busy_with_pour shares) lot busy.old.items }
{
    match place_of(busy.as_slice(), lot) {
        Some(place) => {
            let one = &mut busy[place];
            one.pour(shares);
        }
        None => {}
    }
}

// Lets an event happen.
fn happen<C: Keeper, D: Keeper>(system: &mut System<C, D>, event: Event) -> Outcome
    ensures { Occurs event result system.old system.new }
{
    system.step(event)
}

// Makes room for one more busy lot, and the cell for a lot of an issue that is opened now.
fn prepare<C: Keeper, D: Keeper>(
    alloc: Global,
    system: &System<C, D>,
    busy: &mut Vec<Busy>,
    issue: Cusip,
) -> Result<NewCell, AllocError>
    ensures same { busy.new.items ≡ busy.old.items }
    ensures room { OnOk result (vec_len busy.new < vec_capacity busy.new) }
    ensures cell { IfOk result (IsNewCell (plan_in system.now.clear.clear.log.records issue)) }
{
    busy.reserve(1)?;
    let plan = plan_of(system.clearing(), issue)?;
    open_cell(alloc, plan.as_slice())
}

// A new cell for a plan.
fn open_cell(alloc: Global, plan: &[Planned]) -> Result<NewCell, AllocError>
    requires { planned_sum plan.now ≤ 10 ^ 18 }
    ensures { IfOk result (IsNewCell plan.now) }
{
    let budget = shares(plan);
    let (cell, feeder, seat) = PoolCell::open(alloc, budget, MAX_POURED, plan.len() as u64)?;
    let ours = Arc::new(alloc, cell)?;
    let theirs = Arc::try_clone(&ours)?;
    Ok(NewCell {
        ours,
        theirs,
        feeder,
        seat,
    })
}

// Opens a lot of an issue.
fn open_lot<C: Keeper, D: Keeper>(
    system: &mut System<C, D>,
    issue: Cusip,
) -> Result<Opened, Outcome>
    ensures ok { IfOk result (λ opened. Occurs (LotOpen issue) (LotOpened opened) system.old system.new) }
    ensures err { IfErr result (λ outcome. Occurs (LotOpen issue) outcome system.old system.new × IsRefusal outcome) }
{
    match happen(system, Event::LotOpen { issue }) {
        Outcome::LotOpened(opened) => Ok(opened),
        outcome => Err(outcome),
    }
}

// What the opening of a lot comes to for which there is no cell.
fn not_opened<C: Keeper, D: Keeper>(system: &System<C, D>, issue: Cusip) -> Outcome
    ensures occurs { Occurs (LotOpen issue) result system.now system.now }
    ensures refused { IsRefusal result }
{
    system.agreed();
    Outcome::Refused(refusal_without_cell(system, issue))
}

// Why a lot of an issue is not opened for which there is no cell: as the system refuses it, and else for
// want of memory.
fn refusal_without_cell<C: Keeper, D: Keeper>(system: &System<C, D>, issue: Cusip) -> Refusal
    ensures { Grows Refusal.OutOfMemory (opening_call issue system.now.clear) (Err result) system.now.clear system.now.clear }
{
    let node = system.clearing();
    if node.is_down() {
        return Refusal::Down;
    }
    if node.lot(issue).is_some() {
        return Refusal::LotAlready;
    }
    if system.lots().len() >= MAX_LOTS {
        return Refusal::LotsSpent;
    }
    Refusal::OutOfMemory
}

// Makes an opened lot busy with a new cell, into which is poured what was poured into the lot.
fn hand_out(busy: &mut Vec<Busy>, opened: Opened, cell: NewCell) -> Begun
    requires room { vec_len busy.old < vec_capacity busy.old }
    requires cell { IsNewCell opened.plan cell }
    requires poured { opened.poured ≤ 10 ^ 18 }
    ensures { IsHandedOut opened result busy.old.items busy.new.items }
{
    let Opened {
        number,
        poured,
        plan,
    } = opened;
    let NewCell {
        ours,
        theirs,
        mut feeder,
        seat,
    } = cell;
    ours.pour(&mut feeder, poured);
    busy.push_reserved(Busy {
        lot: number,
        cell: ours,
        feeder,
    });
    Begun {
        lot: number,
        poured,
        plan,
        cell: theirs,
        seat,
    }
}
