//! Both nodes on one thread, where the members of a lot draw their tickets in turn.

ghost use Rattle.std.specs.Prelude.{◌≡◌, [], None, drop, option_map, take, OnOk};
ghost use Rattle.cns_records.specs.declared.refusal.Refusal.TheVariants as refusals;
ghost use Rattle.cns_system.specs.declared.event.Event.TheVariants as event;
ghost use Rattle.cns_batch.specs.Acts.{done, single};
ghost use Rattle.cns_input.specs.Sections.{raw_lines};
ghost use Rattle.cns_batch.specs.Commands.{allocated, command_run, served, served_if_open, served_in_turn};
ghost use Rattle.cns_batch.specs.InTurn.{LeadsInTurn};
ghost use Rattle.cns_batch.specs.Run.{all_run, commands_of, first_run, commands_left, ran_beside, run_beside, script_run};
ghost use Rattle.cns_batch.specs.Runs.{Runs, at, leaves};

use crate::fault::Told;
use crate::lines::Commands;
use crate::nodes::Nodes;
use crate::page::Page;
use crate::runner::Runner;
use crate::supply::Supply;
use cns_ids::Cusip;
use cns_input::Command;
use cns_journal::Keeper;
use cns_movements::MoveNo;
use cns_records::Refusal;
use cns_system::{Counts, Event, NodeName, Opened, Outcome, System};
use std::alloc::{AllocError, Global};
use std::io::Write;

impl<C: Keeper, D: Keeper> Nodes for System<C, D> {
    ghost use Rattle.cns_batch.specs.InTurn.{LeadsInTurn};

    ghost leads = { LeadsInTurn };

    fn step(&mut self, event: Event) -> Outcome {
        self.step(event)
    }

    fn plan(&mut self, node: NodeName, stands: bool) -> bool {
        self.plan(node, stands).is_ok()
    }

    fn unconfirmed(&self, alloc: Global) -> Result<Vec<MoveNo>, AllocError> {
        self.unconfirmed(alloc)
    }

    fn counts(&self) -> Counts {
        self.counts()
    }

    fn report<W: Write>(&self, alloc: Global, page: &mut Page, writer: &mut W) -> Told {
        page.report(alloc, self, writer)
    }
}

// The number of a lot, where it was opened.
fn number_of(lot: &Option<Opened>) -> Option<u64>
    ensures { result ≡ option_map (λ (lot : Opened). lot.number) lot.now }
{
    match lot {
        Some(lot) => Some(lot.number),
        None => None,
    }
}

// Closes a lot of which no ticket was drawn for this cause, where that is its seal.
fn close_sealed<C: Keeper, D: Keeper, W: Write>(
    run: &mut Runner<System<C, D>>,
    lot: u64,
    refusal: Refusal,
    writer: &mut W,
) -> Told
    ensures { Runs LeadsInTurn (elim refusal [ refusals.Sealed ↦ single (event.LotClose lot) | _ ↦ done ]) result
        (at run.old (W.contents writer.old)) (at run.new (W.contents writer.new)) }
{
    match refusal {
        Refusal::Sealed => run.single(Event::LotClose { lot }, writer),
        _ => Ok(()),
    }
}

// Draws a ticket for each member of an opened lot, and closes it. A sealed lot is closed with the tickets that
// it has. Another refusal ends this.
fn serve<C: Keeper, D: Keeper, W: Write>(
    run: &mut Runner<System<C, D>>,
    lot: &Opened,
    writer: &mut W,
) -> Told
    ensures { Runs LeadsInTurn (served lot.now.number lot.now.plan) result (at run.old (W.contents writer.old)) (at run.new (W.contents writer.new)) }
{
    let (number, plan) = (lot.number, lot.plan.as_slice());
    for planned in plan {
        let (lot, member) = (number, planned.member);
        match run.event(Event::Reserve { lot, member }, writer)? {
            Outcome::Drawn(_) => {}
            Outcome::Refused(refusal) => return close_sealed(run, number, refusal, writer),
            _ => return Ok(()),
        }
    }
    run.single(Event::LotClose { lot: number }, writer)
}

// Serves a lot, where it was opened.
fn serve_if_open<C: Keeper, D: Keeper, W: Write>(
    run: &mut Runner<System<C, D>>,
    lot: Option<Opened>,
    writer: &mut W,
) -> Told
    ensures { Runs LeadsInTurn (served_if_open served_in_turn lot) result (at run.old (W.contents writer.old)) (at run.new (W.contents writer.new)) }
{
    match lot {
        Some(lot) => serve(run, &lot, writer),
        None => Ok(()),
    }
}

// Opens a lot of an issue, and serves it.
fn allocate<C: Keeper, D: Keeper, W: Write>(
    run: &mut Runner<System<C, D>>,
    issue: Cusip,
    writer: &mut W,
) -> Told
    ensures { Runs LeadsInTurn (allocated served_in_turn issue) result (at run.old (W.contents writer.old)) (at run.new (W.contents writer.new)) }
{
    let lot = run.open_lot(issue, writer)?;
    serve_if_open(run, lot, writer)
}

// Runs a command, in the line of this number, beside the lot of a number where one is served beside lines.
#[inline(always)]
fn run_command<C: Keeper, D: Keeper, W: Write>(
    run: &mut Runner<System<C, D>>,
    busy: Option<u64>,
    number: u64,
    command: &Command,
    supply: &mut Supply,
    writer: &mut W,
) -> Told
    ensures { Runs LeadsInTurn (command_run served_in_turn busy number command.now supply.old) (leaves result supply.new)
        (at run.old (W.contents writer.old)) (at run.new (W.contents writer.new)) }
{
    match command {
        Command::Allocate(issue) => allocate(run, *issue, writer),
        command => run.run_plain(busy, number, command, supply, writer),
    }
}

// Does the same, and ends the line.
#[inline(always)]
fn run_line<C: Keeper, D: Keeper, W: Write>(
    run: &mut Runner<System<C, D>>,
    busy: Option<u64>,
    number: u64,
    command: &Command,
    supply: &mut Supply,
    writer: &mut W,
) -> Told
    ensures { Runs LeadsInTurn (command_run served_in_turn busy number command.now supply.old) (leaves result supply.new)
        (at run.old (W.contents writer.old)) (at run.new (W.contents writer.new)) }
{
    run_command(run, busy, number, command, supply, writer)?;
    run.page.end_line(writer)
}

// Runs so many of the next commands, or all where fewer are left, beside the lot of a number where one is
// served beside them.
fn run_next<C: Keeper, D: Keeper, W: Write>(
    run: &mut Runner<System<C, D>>,
    busy: Option<u64>,
    count: u64,
    commands: &mut Commands<'_>,
    supply: &mut Supply,
    writer: &mut W,
) -> Told
    ensures runs { Runs LeadsInTurn (all_run served_in_turn busy (take count (commands_left commands.old)) supply.old) (leaves result supply.new)
        (at run.old (W.contents writer.old)) (at run.new (W.contents writer.new)) }
    ensures passed { OnOk result (commands_left commands.new ≡ drop count (commands_left commands.old)) }
{
    for _command in 0..count {
        let Some((number, command)) = commands.next_command() else {
            return Ok(());
        };
        run_line(run, busy, number, &command, supply, writer)?;
    }
    Ok(())
}

// Opens a lot of an issue, runs so many of the next commands, and serves the lot, where it was opened.
fn beside<C: Keeper, D: Keeper, W: Write>(
    run: &mut Runner<System<C, D>>,
    issue: Cusip,
    count: u64,
    commands: &mut Commands<'_>,
    supply: &mut Supply,
    writer: &mut W,
) -> Told
    ensures runs { Runs LeadsInTurn (run_beside served_in_turn issue (take count (commands_left commands.old)) supply.old) (leaves result supply.new)
        (at run.old (W.contents writer.old)) (at run.new (W.contents writer.new)) }
    ensures passed { OnOk result (commands_left commands.new ≡ drop count (commands_left commands.old)) }
{
    let lot = run.open_lot(issue, writer)?;
    run_next(run, number_of(&lot), count, commands, supply, writer)?;
    serve_if_open(run, lot, writer)
}

// Runs a command of a script, in the line of this number, which may run some of the next ones.
#[inline(always)]
fn run_first<C: Keeper, D: Keeper, W: Write>(
    run: &mut Runner<System<C, D>>,
    number: u64,
    command: &Command,
    commands: &mut Commands<'_>,
    supply: &mut Supply,
    writer: &mut W,
) -> Told
    ensures runs { Runs LeadsInTurn (first_run served_in_turn (number, command.now) (commands_left commands.old) supply.old) (leaves result supply.new)
        (at run.old (W.contents writer.old)) (at run.new (W.contents writer.new)) }
    ensures passed { OnOk result (commands_left commands.new ≡ drop (ran_beside command.now) (commands_left commands.old)) }
{
    match command {
        Command::Beside { issue, lines } => {
            beside(run, *issue, *lines, commands, supply, writer)?;
            run.page.end_line(writer)
        }
        command => run_line(run, None, number, command, supply, writer),
    }
}

/// Runs a script, and writes all that is told.
pub(crate) fn run_script<C: Keeper, D: Keeper, W: Write>(
    run: &mut Runner<System<C, D>>,
    script: &[u8],
    supply: &mut Supply,
    writer: &mut W,
) -> Told
    ensures runs { Runs LeadsInTurn (script_run served_in_turn 0 (commands_of 1 (raw_lines script.now)) supply.old) (leaves result supply.new)
        (at run.old (W.contents writer.old)) (at run.new (W.contents writer.new)) }
    ensures none { OnOk result (run.new.page.text ≡ []) }
{
    let mut commands = Commands::of(script);
    while let Some((number, command)) = commands.next_command() {
        run_first(run, number, &command, &mut commands, supply, writer)?;
    }
    run.page.flush(writer)
}
