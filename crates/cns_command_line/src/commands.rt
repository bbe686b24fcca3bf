//! The subcommands, and the command line that they make.

ghost use Rattle.std.specs.Prelude.{◌≡◌, false, IfOk};
ghost use Rattle.clap.specs.Words.{app_of};
ghost use Rattle.cns_command_line.specs.CommandLine.{AddsMade, check_app, cnsd_app, cusip_app, explain_app, has_globals, journal_app, run_app, table_app, with_source as source_app};

use crate::help;
use crate::options::{
    begins_option, file_argument, flag, journal_option, last_flag, openings_option, progress_flag,
    required_argument, script_option, shake_option, strict_flag, text_argument, trades_option,
    workers_option,
};
use crate::version::VERSION;
use clap::Command;
use std::alloc::{AllocError, Global};

// A command with the arguments that say where its text comes from.
fn with_source<'a>(command: Command<'a>, alloc: Global) -> Result<Command<'a>, AllocError>
    ensures { IfOk result (λ c. has_globals command.entry ≡ false → (app_of c ≡ source_app (app_of command.entry)) × (has_globals c ≡ false)) }
{
    command
        .arg(file_argument(alloc))?
        .arg(openings_option(alloc))?
        .arg(trades_option(alloc))?
        .arg(script_option(alloc))
}

// `cnsd run`.
fn run_command<'a>(alloc: Global) -> Result<Command<'a>, AllocError>
    ensures { IfOk result (λ c. (app_of c ≡ run_app) × (has_globals c ≡ false)) }
{
    let run = Command::new(alloc, "run")
        .about("Reads openings, trades and a script, and writes what they come to")
        .after_help(help::RUN)
        .arg(workers_option(alloc))?
        .arg(shake_option(alloc))?
        .arg(journal_option(alloc))?
        .arg(strict_flag(alloc))?
        .arg(progress_flag(alloc))?
        .arg(flag(
            alloc,
            "intact",
            "With --journal: refuse journals with damage, and openings other than those of the first such run",
        ))?;
    with_source(run, alloc)
}

// `cnsd check`.
fn check_command<'a>(alloc: Global) -> Result<Command<'a>, AllocError>
    ensures { IfOk result (λ c. (app_of c ≡ check_app) × (has_globals c ≡ false)) }
{
    let check = Command::new(alloc, "check")
        .about("Tells all that is wrong with an input, and runs nothing")
        .after_help(help::CHECK);
    with_source(check, alloc)
}

// `cnsd table`.
fn table_command<'a>(alloc: Global) -> Result<Command<'a>, AllocError>
    ensures { IfOk result (λ c. (app_of c ≡ table_app) × (has_globals c ≡ false)) }
{
    Command::new(alloc, "table")
        .about("Reads what `cnsd run` wrote on standard input, and writes its reports as CSV")
        .after_help(help::TABLE)
        .arg(last_flag(alloc))
}

// `cnsd journal`.
fn journal_command<'a>(alloc: Global) -> Result<Command<'a>, AllocError>
    ensures { IfOk result (λ c. (app_of c ≡ journal_app) × (has_globals c ≡ false)) }
{
    Command::new(alloc, "journal")
        .about("Reads journals: dump FILE tells what one holds, check DIR what is wrong with both")
        .after_help(help::JOURNAL)
        .arg(required_argument(alloc, "what", "WHAT", "dump or check"))?
        .arg(required_argument(
            alloc,
            "path",
            "PATH",
            "The file of a journal, or the folder of both",
        ))?
        .arg(flag(alloc, "csv", "Of a dump: as CSV"))?
        .arg(flag(
            alloc,
            "verbose",
            "Of a check: the sums of each issue, and each balance",
        ))?
        .arg(begins_option(alloc))
}

// `cnsd explain`.
fn explain_command<'a>(alloc: Global) -> Result<Command<'a>, AllocError>
    ensures { IfOk result (λ c. (app_of c ≡ explain_app) × (has_globals c ≡ false)) }
{
    Command::new(alloc, "explain")
        .about("Tells what a member's position and balance in an issue come from")
        .after_help(help::EXPLAIN)
        .arg(required_argument(alloc, "folder", "DIR", "The folder of both journals"))?
        .arg(required_argument(alloc, "member", "MEMBER", "The member's number"))?
        .arg(required_argument(alloc, "issue", "CUSIP", "The issue"))?
        .arg(begins_option(alloc))
}

// `cnsd cusip`.
fn cusip_command<'a>(alloc: Global) -> Result<Command<'a>, AllocError>
    ensures { IfOk result (λ c. (app_of c ≡ cusip_app) × (has_globals c ≡ false)) }
{
    Command::new(alloc, "cusip")
        .about("Reads texts as CUSIPs, and writes `ok` or its first fault for each")
        .after_help(help::CUSIP)
        .arg(text_argument(alloc))
}

// A command with a subcommand more, where there was memory for that one.
fn with_subcommand<'a>(
    command: Command<'a>,
    subcommand: Result<Command<'a>, AllocError>,
) -> Result<Command<'a>, AllocError>
    ensures { IfOk result (AddsMade command.entry subcommand.entry) }
{
    command.subcommand(subcommand?)
}

// The command line that there is.
pub(crate) fn command<'a>(alloc: Global) -> Result<Command<'a>, AllocError>
    ensures { IfOk result (λ c. app_of c ≡ cnsd_app) }
{
    let bare = Command::new(alloc, "cnsd")
        .about("A Continuous Net Settlement book and a depository's stock record")
        .version(VERSION.trim_end())
        .subcommand_required(true)
        .arg_required_else_help(true);
    let with_run = with_subcommand(bare, run_command(alloc))?;
    let with_check = with_subcommand(with_run, check_command(alloc))?;
    let with_table = with_subcommand(with_check, table_command(alloc))?;
    let with_journal = with_subcommand(with_table, journal_command(alloc))?;
    let with_explain = with_subcommand(with_journal, explain_command(alloc))?;
    with_subcommand(with_explain, cusip_command(alloc))
}
