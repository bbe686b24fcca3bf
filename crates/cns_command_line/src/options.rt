//! The options and arguments of the subcommands.

ghost use Rattle.std.specs.Prelude.{◌≡◌, false};
ghost use Rattle.clap.specs.Words.{rule_of};
ghost use Rattle.cns_command_line.specs.CommandLine.{file_rule, flag_rule, journal_rule, last_rule, openings_rule, progress_rule, required_rule, script_rule, shake_rule, strict_rule, text_rule, trades_rule, workers_rule};

use clap::builder::ValueParser;
use clap::{Arg, ArgAction};
use cns_allocate::MAX_WORKERS;
use std::alloc::Global;

// The option of `run` for the folder of the journals.
pub(crate) fn journal_option<'a>(alloc: Global) -> Arg<'a>
    ensures rule { rule_of result ≡ journal_rule }
    ensures local { result.global ≡ false }
{
    Arg::new(alloc, "journal")
        .long("journal")
        .value_name("DIR")
        .help("Keep both nodes' journals in this folder, and begin with what they hold")
        .action(ArgAction::Set)
}

// The option of `run` for the number of workers.
pub(crate) fn workers_option<'a>(alloc: Global) -> Arg<'a>
    ensures rule { rule_of result ≡ workers_rule }
    ensures local { result.global ≡ false }
{
    Arg::new(alloc, "workers")
        .long("workers")
        .value_name("N")
        .help("Let N workers draw the tickets of each lot, 0 to 64; none if left out")
        .value_parser(ValueParser::Unsigned(0, MAX_WORKERS as u64))
        .action(ArgAction::Set)
}

// The option of `run` for the number that shakes it.
pub(crate) fn shake_option<'a>(alloc: Global) -> Arg<'a>
    ensures rule { rule_of result ≡ shake_rule }
    ensures local { result.global ≡ false }
{
    Arg::new(alloc, "shake")
        .long("shake")
        .value_name("NUMBER")
        .help("Before each PUMP draw 16 times what is sent or arrives; NUMBER starts the draws")
        .value_parser(ValueParser::Unsigned(0, u64::MAX))
        .action(ArgAction::Set)
}

// The flag of `run` that has it count what was not taken.
pub(crate) fn strict_flag<'a>(alloc: Global) -> Arg<'a>
    ensures rule { rule_of result ≡ strict_rule }
    ensures local { result.global ≡ false }
{
    Arg::new(alloc, "strict")
        .long("strict")
        .help(
            "Count what was not taken, on standard error, and tell by the exit status that there is some",
        )
        .action(ArgAction::SetTrue)
}

// The flag of `run` that has it tell how far it is.
pub(crate) fn progress_flag<'a>(alloc: Global) -> Arg<'a>
    ensures rule { rule_of result ≡ progress_rule }
    ensures local { result.global ≡ false }
{
    Arg::new(alloc, "progress")
        .long("progress")
        .help(
            "Tell how far it is on standard error, where that is a terminal; given twice, wherever it is",
        )
        .action(ArgAction::Count)
}

// The flag of `table` for the last report alone.
pub(crate) fn last_flag<'a>(alloc: Global) -> Arg<'a>
    ensures rule { rule_of result ≡ last_rule }
    ensures local { result.global ≡ false }
{
    Arg::new(alloc, "last")
        .long("last")
        .help("Only the last report")
        .action(ArgAction::SetTrue)
}

// The argument of `run` and of `check` for the file of an input.
pub(crate) fn file_argument<'a>(alloc: Global) -> Arg<'a>
    ensures rule { rule_of result ≡ file_rule }
    ensures local { result.global ≡ false }
{
    Arg::new(alloc, "file")
        .value_name("FILE")
        .help("The input; standard input if left out")
        .action(ArgAction::Set)
}

// Their option for the file of the openings.
pub(crate) fn openings_option<'a>(alloc: Global) -> Arg<'a>
    ensures rule { rule_of result ≡ openings_rule }
    ensures local { result.global ≡ false }
{
    Arg::new(alloc, "openings")
        .long("openings")
        .value_name("FILE")
        .help("The rows of [openings], in place of an input")
        .action(ArgAction::Set)
}

// Their option for a file of trades, of which there may be several.
pub(crate) fn trades_option<'a>(alloc: Global) -> Arg<'a>
    ensures rule { rule_of result ≡ trades_rule }
    ensures local { result.global ≡ false }
{
    Arg::new(alloc, "trades")
        .long("trades")
        .value_name("FILE")
        .help("Rows of [trades], in place of an input; several files are read one after another")
        .action(ArgAction::Append)
}

// Their option for the file of the script.
pub(crate) fn script_option<'a>(alloc: Global) -> Arg<'a>
    ensures rule { rule_of result ≡ script_rule }
    ensures local { result.global ≡ false }
{
    Arg::new(alloc, "script")
        .long("script")
        .value_name("FILE")
        .help("The lines of [script], in place of an input")
        .action(ArgAction::Set)
}

// The argument of `cusip`.
pub(crate) fn text_argument<'a>(alloc: Global) -> Arg<'a>
    ensures rule { rule_of result ≡ text_rule }
    ensures local { result.global ≡ false }
{
    Arg::new(alloc, "text")
        .value_name("TEXT")
        .help("The text, such as 037833100; - for each line of standard input")
        .required(true)
        .num_args(1..)
        .action(ArgAction::Append)
}

// A required argument that is named by its place.
pub(crate) fn required_argument<'a>(
    alloc: Global,
    id: &'a str,
    name: &'a str,
    help: &'a str,
) -> Arg<'a>
    ensures rule { rule_of result ≡ required_rule id.entry.now }
    ensures local { result.global ≡ false }
{
    Arg::new(alloc, id)
        .value_name(name)
        .help(help)
        .required(true)
        .action(ArgAction::Set)
}

// A flag.
pub(crate) fn flag<'a>(alloc: Global, id: &'a str, help: &'a str) -> Arg<'a>
    ensures rule { rule_of result ≡ flag_rule id.entry.now }
    ensures local { result.global ≡ false }
{
    Arg::new(alloc, id)
        .long(id)
        .help(help)
        .action(ArgAction::SetTrue)
}

// The option of `journal` and of `explain` for the file of the openings.
pub(crate) fn begins_option<'a>(alloc: Global) -> Arg<'a>
    ensures rule { rule_of result ≡ openings_rule }
    ensures local { result.global ≡ false }
{
    Arg::new(alloc, "openings")
        .long("openings")
        .value_name("FILE")
        .help(
            "The rows of [openings] with which the journals began; the folder's openings.csv if left out",
        )
        .action(ArgAction::Set)
}
