//! What `clap` found of the words: the values of a subcommand's arguments.

ghost use Rattle.std.specs.Prelude.{◌≡◌, [], IfOk, codes, is_some, map, option_map, string_bytes, unwrap_or};
ghost use Rattle.clap.specs.Words.{all_of, found_of, rows_of, subcommand_rows_of};
ghost use Rattle.cns_command_line.specs.CommandLine.{IsCountIn, IsShakeIn, all_in, is_set as is_set_in, is_subcommand as is_asked_in, times_in as times_in_of, value_in};

use clap::ArgMatches;
use std::alloc::{AllocError, Global};

// The first value of an argument of a subcommand, where the words name that one.
pub(crate) fn value_in<'a>(matches: &ArgMatches<'a>, subcommand: &str, id: &str) -> Option<&'a str>
    ensures { option_map (λ s. s.now) result ≡ value_in subcommand.now id.now (subcommand_rows_of matches.now) }
{
    matches.subcommand_matches(subcommand)?.get_str(id)
}

// How many workers the words ask for. The library lets no text through that is no number.
pub(crate) fn workers_in(matches: &ArgMatches) -> usize
    ensures { IsCountIn (value_in (codes "run") (codes "workers") (subcommand_rows_of matches.now)) result }
{
    match value_in(matches, "run", "workers") {
        Some(text) => text.parse::<usize>().unwrap_or(0),
        None => 0,
    }
}

// The number by which the words ask that a run be shaken.
pub(crate) fn shake_in(matches: &ArgMatches) -> Option<u64>
    ensures { IsShakeIn (value_in (codes "run") (codes "shake") (subcommand_rows_of matches.now)) result }
{
    match value_in(matches, "run", "shake") {
        Some(text) => Some(text.parse::<u64>().unwrap_or(0)),
        None => None,
    }
}

// Whether a flag of a subcommand is set, where the words name that one.
pub(crate) fn is_set(matches: &ArgMatches, subcommand: &str, id: &str) -> bool
    ensures { result ≡ is_set_in subcommand.now id.now (subcommand_rows_of matches.now) }
{
    matches!(value_in(matches, subcommand, id), Some(text) if text == "true")
}

// How often a flag of a subcommand was given, where the words name that one.
pub(crate) fn times_in(matches: &ArgMatches, subcommand: &str, id: &str) -> u8
    ensures { result ≡ times_in_of subcommand.now id.now (subcommand_rows_of matches.now) }
{
    match matches.subcommand_matches(subcommand) {
        Some(matches) => matches.get_count(id),
        None => 0,
    }
}

// The value of an argument of a subcommand, owned.
pub(crate) fn owned_in(
    alloc: Global,
    matches: &ArgMatches,
    subcommand: &str,
    id: &str,
) -> Result<Option<String>, AllocError>
    ensures { IfOk result (λ o. option_map string_bytes o ≡ value_in subcommand.now id.now (subcommand_rows_of matches.now)) }
{
    match value_in(matches, subcommand, id) {
        Some(text) => Ok(Some(String::from_str(alloc, text)?)),
        None => Ok(None),
    }
}

// Texts, owned.
fn owned(alloc: Global, texts: &[&str]) -> Result<Vec<String>, AllocError>
    ensures { IfOk result (λ all. map string_bytes all.items ≡ map (λ v. v.now) texts.now) }
{
    let mut all = Vec::new(alloc);
    for text in texts {
        all.push(String::from_str(alloc, text)?)?;
    }
    Ok(all)
}

// All values of an argument, owned; none where it has no entry.
fn values_of(alloc: Global, matches: &ArgMatches, id: &str) -> Result<Vec<String>, AllocError>
    ensures { IfOk result (λ all. map string_bytes all.items ≡ unwrap_or (all_of id.now (rows_of (found_of matches.now))) []) }
{
    match matches.get_strs(id) {
        Some(values) => owned(alloc, values),
        None => Ok(Vec::new(alloc)),
    }
}

// All values of an argument of a subcommand, where the words name that one.
pub(crate) fn values_in(
    alloc: Global,
    matches: &ArgMatches,
    subcommand: &str,
    id: &str,
) -> Result<Vec<String>, AllocError>
    ensures { IfOk result (λ all. map string_bytes all.items ≡ all_in subcommand.now id.now (subcommand_rows_of matches.now)) }
{
    match matches.subcommand_matches(subcommand) {
        Some(matches) => values_of(alloc, matches, id),
        None => Ok(Vec::new(alloc)),
    }
}

// The value of a required argument of a subcommand, owned.
pub(crate) fn required_in(
    alloc: Global,
    matches: &ArgMatches,
    subcommand: &str,
    id: &str,
) -> Result<String, AllocError>
    ensures { IfOk result (λ text. string_bytes text ≡ unwrap_or (value_in subcommand.now id.now (subcommand_rows_of matches.now)) []) }
{
    String::from_str(alloc, value_in(matches, subcommand, id).unwrap_or(""))
}

// Whether an argument of a subcommand is given, where the words name that one.
pub(crate) fn is_given(matches: &ArgMatches, subcommand: &str, id: &str) -> bool
    ensures { result ≡ is_some (value_in subcommand.now id.now (subcommand_rows_of matches.now)) }
{
    value_in(matches, subcommand, id).is_some()
}

// Whether the words name a subcommand.
pub(crate) fn is_asked(matches: &ArgMatches, subcommand: &str) -> bool
    ensures { result ≡ is_asked_in subcommand.now (subcommand_rows_of matches.now) }
{
    matches.subcommand_matches(subcommand).is_some()
}
