//! Runs under the lock of a desk, where workers draw the tickets of a lot.

ghost use Rattle.std.specs.Prelude.{◌≡◌, [], ◌||◌, None, Some, drop, length, take, IfSome, IsSome, OnOk};
ghost use Rattle.std.specs.Thread.{IsSync};
ghost use Rattle.cns_pool.specs.WorkerSeat.{new_worker};
ghost use Rattle.cns_system.specs.Finish.{sealed_at};
ghost use Rattle.cns_system.specs.Lot.{planned_sum};
ghost use Rattle.cns_input.specs.Sections.{raw_lines};
ghost use Rattle.cns_batch.specs.ByWorkers.{served_by_workers};
ghost use Rattle.cns_batch.specs.Commands.{allocated, command_run};
ghost use Rattle.cns_batch.specs.Run.{all_run, commands_of, first_run, commands_left, ran_beside, run_beside, script_run};
ghost use Rattle.cns_batch.specs.Runs.{Runs, at, leaves};

use crate::fault::Told;
use crate::lines::Commands;
use crate::nodes::{Lots, Nodes};
use crate::page::Page;
use crate::runner::Runner;
use crate::supply::Supply;
use cns_allocate::{Gate, Plan};
use cns_ids::Cusip;
use cns_input::Command;
use cns_journal::Keeper;
use cns_movements::MoveNo;
use cns_pool::{PoolCell, WorkerSeat};
use cns_system::{Begun, Counts, Desk, Drawn, Event, Floor, NodeName, Outcome, serve_lot};
use std::alloc::{AllocError, Global};
use std::io::Write;
use std::sync::Wait;
use std::thread::{Threads, join_mut};

/// A desk, and the handle by which its lock is taken.
#[derive(Drop)]
pub(crate) struct AtDesk<'a, C: Keeper, D: Keeper, H> {
    pub(crate) desk: Desk<C, D>,
    pub(crate) handle: &'a H,
}

// A lot that workers serve: its plan, its cell, and the seat that draws from the cell.
#[derive(Drop)]
struct Lot<'a> {
    plan: &'a Plan,
    cell: &'a PoolCell,
    seat: WorkerSeat,
}

impl<'a, C: Keeper, D: Keeper, H: Wait> Nodes for AtDesk<'a, C, D, H> {
    ghost use Rattle.cns_batch.specs.ByWorkers.{LeadsAtDesk};

    ghost leads = { LeadsAtDesk };

    fn step(&mut self, event: Event) -> Outcome {
        self.desk.lock(self.handle).step(event)
    }

    fn plan(&mut self, node: NodeName, stands: bool) -> bool {
        self.desk.lock(self.handle).plan(node, stands).is_ok()
    }

    fn unconfirmed(&self, alloc: Global) -> Result<Vec<MoveNo>, AllocError> {
        self.desk.lock(self.handle).unconfirmed(alloc)
    }

    fn counts(&self) -> Counts {
        self.desk.lock(self.handle).counts()
    }

    fn report<W: Write>(&self, alloc: Global, page: &mut Page, writer: &mut W) -> Told {
        let floor = self.desk.lock(self.handle);
        let told = page.report(alloc, floor.system(), writer);
        drop(floor);
        told
    }
}

// Whether a busy lot is sealed before it is closed: where something cut its workers off, or the seat that
// feeds its cell has sealed it.
fn is_sealed<C: Keeper, D: Keeper>(floor: &Floor<C, D>, lot: u64, cut: bool) -> bool
    ensures { result ≡ (cut || sealed_at floor.now.busy lot) }
{
    cut || floor.is_sealed(lot)
}

impl<'a, C: Keeper, D: Keeper, H: Wait> Lots for AtDesk<'a, C, D, H> {
    fn begin<W: Write>(
        &self,
        alloc: Global,
        issue: Cusip,
        page: &mut Page,
        writer: &mut W,
    ) -> Told<Option<Begun>> {
        let begun = self.desk.lock(self.handle).begin(alloc, issue);
        match begun {
            Ok(begun) => {
                let longs = begun.plan.len();
                match page.lot(begun.lot, begun.poured, longs, writer) {
                    Ok(()) => Ok(Some(begun)),
                    Err(fault) => {
                        drop(begun);
                        Err(fault)
                    }
                }
            }
            Err(refused) => {
                let told = page.outcome(&Event::LotOpen { issue }, &refused, writer);
                drop(refused);
                told?;
                Ok(None)
            }
        }
    }

    fn end<W: Write>(
        &self,
        alloc: Global,
        lot: u64,
        drawn: &Drawn,
        page: &mut Page,
        writer: &mut W,
    ) -> Told {
        let cut = drawn.cut.is_some();
        let mut floor = self.desk.lock(self.handle);
        let sealed = is_sealed(&floor, lot, cut);
        let entered = floor.finish(alloc, lot, drawn.seat.tickets(), cut);
        drop(floor);
        let entered = entered?;
        let told = page.end(lot, drawn, sealed, entered.as_slice(), writer);
        drop(entered);
        told
    }
}

// Opens a lot of an issue, and lets workers serve it.
fn allocate<N: Lots, G: Gate + Sync, R: Threads + Sync, W: Write>(
    rt: &R,
    gate: &G,
    workers: usize,
    run: &mut Runner<N>,
    issue: Cusip,
    writer: &mut W,
) -> Told
    ensures { Runs N.leads (allocated served_by_workers issue) result (at run.old (W.contents writer.old)) (at run.new (W.contents writer.new)) }
{
    let alloc = run.alloc;
    let Some(begun) = run.nodes.begin(alloc, issue, &mut run.page, writer)? else {
        return Ok(());
    };
    let Begun {
        lot,
        plan,
        cell,
        seat,
        ..
    } = begun;
    let drawn = serve_lot(rt, alloc, &cell, seat, &plan, workers, gate);
    let ended = run.nodes.end(alloc, lot, &drawn, &mut run.page, writer);
    drop(drawn);
    ended
}

// Runs a command, in the line of this number, beside the lot of a number where one is served beside lines.
fn run_command<N: Lots, G: Gate + Sync, R: Threads + Sync, W: Write>(
    rt: &R,
    gate: &G,
    workers: usize,
    run: &mut Runner<N>,
    busy: Option<u64>,
    number: u64,
    command: &Command,
    supply: &mut Supply,
    writer: &mut W,
) -> Told
    ensures { Runs N.leads (command_run served_by_workers busy number command.now supply.old) (leaves result supply.new)
        (at run.old (W.contents writer.old)) (at run.new (W.contents writer.new)) }
{
    match command {
        Command::Allocate(issue) => allocate(rt, gate, workers, run, *issue, writer),
        command => run.run_plain(busy, number, command, supply, writer),
    }
}

// Does the same, and ends the line.
fn run_line<N: Lots, G: Gate + Sync, R: Threads + Sync, W: Write>(
    rt: &R,
    gate: &G,
    workers: usize,
    run: &mut Runner<N>,
    busy: Option<u64>,
    number: u64,
    command: &Command,
    supply: &mut Supply,
    writer: &mut W,
) -> Told
    ensures { Runs N.leads (command_run served_by_workers busy number command.now supply.old) (leaves result supply.new)
        (at run.old (W.contents writer.old)) (at run.new (W.contents writer.new)) }
{
    run_command(
        rt, gate, workers, run, busy, number, command, supply, writer,
    )?;
    run.page.end_line(writer)
}

// Runs so many of the next commands, or all where fewer are left, beside the lot of a number where one is
// served beside them.
fn run_next<N: Lots, G: Gate + Sync, R: Threads + Sync, W: Write>(
    rt: &R,
    gate: &G,
    workers: usize,
    run: &mut Runner<N>,
    busy: Option<u64>,
    count: u64,
    commands: &mut Commands<'_>,
    supply: &mut Supply,
    writer: &mut W,
) -> Told
    ensures runs { Runs N.leads (all_run served_by_workers busy (take count (commands_left commands.old)) supply.old) (leaves result supply.new)
        (at run.old (W.contents writer.old)) (at run.new (W.contents writer.new)) }
    ensures passed { OnOk result (commands_left commands.new ≡ drop count (commands_left commands.old)) }
{
    for _command in 0..count {
        let Some((number, command)) = commands.next_command() else {
            return Ok(());
        };
        run_line(
            rt, gate, workers, run, busy, number, &command, supply, writer,
        )?;
    }
    Ok(())
}

// Lets workers serve an opened lot while something else is done, and answers what they drew and what came of
// that.
fn serve_while<R: Threads + Sync, G: Gate + Sync, F: FnMut() -> B, B>(
    rt: &R,
    gate: &G,
    alloc: Global,
    workers: usize,
    lot: Lot<'_>,
    other: &mut F,
) -> (Drawn, B)
    requires seat { lot.seat ≡ new_worker lot.cell.now (planned_sum lot.plan.now) (length lot.plan.now) }
    requires other { F.pre other.old }
    ensures { F.step other.old result.1 other.new }
{
    let Lot { plan, cell, seat } = lot;
    let mut seat = Some(seat);
    let (drawn, done) = join_mut(
        rt,
        &mut || -> Option<Drawn>
            requires { IsSync R.row × IsSync G.row × IfSome seat (λ seat. seat ≡ new_worker cell.now (planned_sum plan.now) (length plan.now)) }
            ensures { IsSome seat.entry → IsSome result }
        {
            let seat = seat.take()?;
            Some(serve_lot(rt, alloc, cell, seat, plan, workers, gate))
        },
        other,
    );
    let Some(drawn) = drawn else { unreachable!() };
    (drawn, done)
}

// Opens a lot of an issue, runs so many of the next commands, and serves the lot in the meantime, where it was
// opened.
fn beside<N: Lots, G: Gate + Sync, R: Threads + Sync, W: Write>(
    rt: &R,
    gate: &G,
    workers: usize,
    run: &mut Runner<N>,
    issue: Cusip,
    count: u64,
    commands: &mut Commands<'_>,
    supply: &mut Supply,
    writer: &mut W,
) -> Told
    ensures runs { Runs N.leads (run_beside served_by_workers issue (take count (commands_left commands.old)) supply.old) (leaves result supply.new)
        (at run.old (W.contents writer.old)) (at run.new (W.contents writer.new)) }
    ensures passed { OnOk result (commands_left commands.new ≡ drop count (commands_left commands.old)) }
{
    let alloc = run.alloc;
    let Some(begun) = run.nodes.begin(alloc, issue, &mut run.page, writer)? else {
        return run_next(
            rt, gate, workers, run, None, count, commands, supply, writer,
        );
    };
    let Begun {
        lot,
        plan,
        cell,
        seat,
        ..
    } = begun;
    let opened = Lot {
        plan: &plan,
        cell: &cell,
        seat,
    };
    let (drawn, ran) = serve_while(
        rt,
        gate,
        alloc,
        workers,
        opened,
        &mut || -> Told
            ensures runs { Runs N.leads (all_run served_by_workers (Some lot) (take count (commands_left commands.entry.now)) supply.entry.now) (leaves result supply.exit.now)
                (at run.entry.now (W.contents writer.entry.now)) (at run.exit.now (W.contents writer.exit.now)) }
            ensures passed { OnOk result (commands_left commands.exit.now ≡ drop count (commands_left commands.entry.now)) }
        {
            run_next(
                rt,
                gate,
                workers,
                run,
                Some(lot),
                count,
                commands,
                supply,
                writer,
            )
        },
    );
    let ended = match ran {
        Ok(()) => run.nodes.end(alloc, lot, &drawn, &mut run.page, writer),
        Err(fault) => Err(fault),
    };
    drop(drawn);
    ended
}

// Runs a command of a script, in the line of this number, which may run some of the next ones.
fn run_first<N: Lots, G: Gate + Sync, R: Threads + Sync, W: Write>(
    rt: &R,
    gate: &G,
    workers: usize,
    run: &mut Runner<N>,
    number: u64,
    command: &Command,
    commands: &mut Commands<'_>,
    supply: &mut Supply,
    writer: &mut W,
) -> Told
    ensures runs { Runs N.leads (first_run served_by_workers (number, command.now) (commands_left commands.old) supply.old) (leaves result supply.new)
        (at run.old (W.contents writer.old)) (at run.new (W.contents writer.new)) }
    ensures passed { OnOk result (commands_left commands.new ≡ drop (ran_beside command.now) (commands_left commands.old)) }
{
    match command {
        Command::Beside { issue, lines } => {
            beside(
                rt, gate, workers, run, *issue, *lines, commands, supply, writer,
            )?;
            run.page.end_line(writer)
        }
        command => run_line(
            rt, gate, workers, run, None, number, command, supply, writer,
        ),
    }
}

/// Runs a script, and writes all that is told.
pub(crate) fn run_script<N: Lots, G: Gate + Sync, R: Threads + Sync, W: Write>(
    rt: &R,
    gate: &G,
    workers: usize,
    run: &mut Runner<N>,
    script: &[u8],
    supply: &mut Supply,
    writer: &mut W,
) -> Told
    ensures runs { Runs N.leads (script_run served_by_workers 0 (commands_of 1 (raw_lines script.now)) supply.old) (leaves result supply.new)
        (at run.old (W.contents writer.old)) (at run.new (W.contents writer.new)) }
    ensures none { OnOk result (run.new.page.text ≡ []) }
{
    let mut commands = Commands::of(script);
    while let Some((number, command)) = commands.next_command() {
        run_first(
            rt,
            gate,
            workers,
            run,
            number,
            &command,
            &mut commands,
            supply,
            writer,
        )?;
    }
    run.page.flush(writer)
}
