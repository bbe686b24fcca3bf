//! What is asked for, by what `clap` found of the words.

ghost use Rattle.std.specs.Prelude.{◌≡◌, IfOk, codes, map, option_map, string_bytes, unwrap_or};
ghost use Rattle.std.specs.Str.{bytes_eq};
ghost use Rattle.clap.specs.Words.{FailsBy, fault_of, subcommand_of, subcommand_rows_of};
ghost use Rattle.cns_command_line.specs.CommandLine.{AreNamesIn, AsksFor, AsksForBatch, AsksForCheck, AsksForExplanation, AsksForJournal, AsksForTexts, IsFolderIn, IsMannerIn, IsSourceIn, IsSourceOf, asks_check as asks_check_in, asks_dump as asks_dump_in, cnsd_app, required_in as required_in_of};

use crate::commands::command;
use crate::request::{Audit, Folder, Manner, Names, Request, Source};
use crate::values::{
    is_asked, is_given, is_set, owned_in, required_in, shake_in, times_in, value_in, values_in,
    workers_in,
};
use clap::{ArgMatches, Error};
use std::alloc::{AllocError, Global};

// The names of the files of which the words have a subcommand's text be made.
fn names_in(alloc: Global, matches: &ArgMatches, subcommand: &str) -> Result<Names, AllocError>
    ensures { IfOk result (AreNamesIn subcommand.now (subcommand_rows_of matches.now)) }
{
    let openings = owned_in(alloc, matches, subcommand, "openings")?;
    let trades = values_in(alloc, matches, subcommand, "trades")?;
    let script = owned_in(alloc, matches, subcommand, "script")?;
    Ok(Names {
        openings,
        trades,
        script,
    })
}

// Where a text comes from, by the input and the files that are named; None where both are.
fn source_of(file: Option<String>, names: Names) -> Option<Source>
    ensures { IsSourceOf (option_map string_bytes file) names result }
{
    match (file, names.any()) {
        (Some(_), true) => None,
        (Some(file), false) => Some(Source::File(file)),
        (None, true) => Some(Source::Named(names)),
        (None, false) => Some(Source::Standard),
    }
}

// Where the words have the text of a subcommand come from; None where they name an input and files.
fn source_in(
    alloc: Global,
    matches: &ArgMatches,
    subcommand: &str,
) -> Result<Option<Source>, AllocError>
    ensures { IfOk result (IsSourceIn subcommand.now (subcommand_rows_of matches.now)) }
{
    let file = owned_in(alloc, matches, subcommand, "file")?;
    let names = names_in(alloc, matches, subcommand)?;
    Ok(source_of(file, names))
}

// How the words have a batch be run.
fn manner_in(alloc: Global, matches: &ArgMatches) -> Result<Manner, AllocError>
    ensures { IfOk result (IsMannerIn (subcommand_rows_of matches.now)) }
{
    Ok(Manner {
        journal: owned_in(alloc, matches, "run", "journal")?,
        workers: workers_in(matches),
        shake: shake_in(matches),
        strict: is_set(matches, "run", "strict"),
        progress: times_in(matches, "run", "progress"),
        intact: is_set(matches, "run", "intact"),
    })
}

// The folder of journals that the words name.
fn folder_in(
    alloc: Global,
    matches: &ArgMatches,
    subcommand: &str,
    id: &str,
) -> Result<Folder, AllocError>
    ensures { IfOk result (IsFolderIn subcommand.now id.now (subcommand_rows_of matches.now)) }
{
    Ok(Folder {
        name: required_in(alloc, matches, subcommand, id)?,
        openings: owned_in(alloc, matches, subcommand, "openings")?,
    })
}

// Whether the words of `journal` ask for this.
fn is_what(matches: &ArgMatches, what: &str) -> bool
    ensures { result ≡ bytes_eq (required_in_of (codes "journal") (codes "what") (subcommand_rows_of matches.now)) what.now }
{
    value_in(matches, "journal", "what").unwrap_or("") == what
}

// Whether they ask for a dump, without an option of a check.
fn asks_dump(matches: &ArgMatches) -> bool
    ensures { result ≡ asks_dump_in (subcommand_rows_of matches.now) }
{
    is_what(matches, "dump")
        && !is_set(matches, "journal", "verbose")
        && !is_given(matches, "journal", "openings")
}

// Whether they ask for a check, without an option of a dump.
fn asks_check(matches: &ArgMatches) -> bool
    ensures { result ≡ asks_check_in (subcommand_rows_of matches.now) }
{
    is_what(matches, "check") && !is_set(matches, "journal", "csv")
}

// Which texts the words of `cusip` name.
fn cusip_request(alloc: Global, matches: &ArgMatches) -> Result<Option<Request>, AllocError>
    ensures { IfOk result (AsksForTexts (subcommand_rows_of matches.now)) }
{
    let texts = values_in(alloc, matches, "cusip", "text")?;
    Ok(Some(Request::Cusips(texts)))
}

// What the words of `check` ask for; None where they name an input and files.
fn check_request(alloc: Global, matches: &ArgMatches) -> Result<Option<Request>, AllocError>
    ensures { IfOk result (AsksForCheck (subcommand_rows_of matches.now)) }
{
    let Some(source) = source_in(alloc, matches, "check")? else {
        return Ok(None);
    };
    Ok(Some(Request::Check(source)))
}

// What the words of `journal` ask for; None where that is neither of both.
fn journal_request(alloc: Global, matches: &ArgMatches) -> Result<Option<Request>, AllocError>
    ensures { IfOk result (AsksForJournal (subcommand_rows_of matches.now)) }
{
    if asks_dump(matches) {
        let file = required_in(alloc, matches, "journal", "path")?;
        let csv = is_set(matches, "journal", "csv");
        return Ok(Some(Request::Audit(Audit::Dump { file, csv })));
    }
    if asks_check(matches) {
        let folder = folder_in(alloc, matches, "journal", "path")?;
        let verbose = is_set(matches, "journal", "verbose");
        return Ok(Some(Request::Audit(Audit::Check { folder, verbose })));
    }
    Ok(None)
}

// What the words of `explain` ask for.
fn explain_request(alloc: Global, matches: &ArgMatches) -> Result<Option<Request>, AllocError>
    ensures { IfOk result (AsksForExplanation (subcommand_rows_of matches.now)) }
{
    Ok(Some(Request::Audit(Audit::Explain {
        folder: folder_in(alloc, matches, "explain", "folder")?,
        member: required_in(alloc, matches, "explain", "member")?,
        issue: required_in(alloc, matches, "explain", "issue")?,
    })))
}

// Which batch the words of `run` ask for; None where they name an input and files.
fn run_request(alloc: Global, matches: &ArgMatches) -> Result<Option<Request>, AllocError>
    ensures { IfOk result (AsksForBatch (subcommand_rows_of matches.now)) }
{
    let Some(source) = source_in(alloc, matches, "run")? else {
        return Ok(None);
    };
    let manner = manner_in(alloc, matches)?;
    Ok(Some(Request::Run { source, manner }))
}

// What the matches of a command line ask for; None where that is nothing that there is.
fn request_of(alloc: Global, matches: &ArgMatches) -> Result<Option<Request>, AllocError>
    ensures { IfOk result (AsksFor (subcommand_rows_of matches.now)) }
{
    if is_given(matches, "cusip", "text") {
        return cusip_request(alloc, matches);
    }
    if is_asked(matches, "check") {
        return check_request(alloc, matches);
    }
    if is_asked(matches, "table") {
        let last = is_set(matches, "table", "last");
        return Ok(Some(Request::Table { last }));
    }
    if is_asked(matches, "journal") {
        return journal_request(alloc, matches);
    }
    if is_asked(matches, "explain") {
        return explain_request(alloc, matches);
    }
    run_request(alloc, matches)
}

/// Reads the words of a command line, the program's name first; None where they are in order by themselves and
/// ask together for nothing that there is: an input beside files that make one, or of journals neither a dump nor
/// a check (this project's own rules).
///
/// Refuses as `clap` does, with the error that it makes of the first fault of the words (the model of its words
/// says which), with its help and its version as such errors too, and with `OutOfMemory`.
pub fn parse_command_line<'a>(alloc: Global, words: &'a [&'a str]) -> Result<Option<Request>, Error>
    ensures asks { IfOk result (AsksFor (subcommand_of cnsd_app (map (λ w. w.now) words.now))) }
    ensures fails { FailsBy (fault_of cnsd_app (map (λ w. w.now) words.now)) result }
{
    let matches = command(alloc)?.try_get_matches_from(words)?;
    Ok(request_of(alloc, &matches)?)
}
