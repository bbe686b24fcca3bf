ghost use Rattle.std.specs.Prelude.{◌≡◌, ◌++◌, map, flat_map, codes, Ok, Err, OnOk, IfOk, MatchResult};
ghost use Rattle.cns_named.specs.Named.{SectionsAreOfFiles, TellsOf, begins_otherwise as begins_otherwise_of, behind_first, do_headers_agree, ended, has_line as has_line_in, rows_of_all, text_of_files as text_of};
ghost use Rattle.std.specs.List.{list_any};

use crate::line::{has_line_once_ended, split_first_line};
use std::alloc::{AllocError, Global};
use thiserror::Error;

/// Why files make no text.
#[derive(Clone, Copy, PartialEq, Eq, Debug, Error)]
pub enum NamedFault {
    /// A line of the openings is `[trades]`, or one of the trades is `[script]`.
    #[error("a file has a line that is a head")]
    Head,
    /// The first line of a further file of trades is not the first one's.
    #[error("the headers of the files of trades differ")]
    Header,
    #[error("out of memory")]
    OutOfMemory,
}

impl From<AllocError> for NamedFault {
    ghost use Rattle.std.specs.Prelude.{◌≡◌};
    ghost use Rattle.cns_named.specs.declared.named.NamedFault.TheVariants.{OutOfMemory};

    ghost from_gives = { λ _ fault. fault ≡ OutOfMemory };

    fn from(_: AllocError) -> NamedFault {
        NamedFault::OutOfMemory
    }
}

// Whether some file has this line, each last line with its LF.
fn any_has_line(files: &[Vec<u8>], wanted: &[u8]) -> bool
    ensures { result ≡ list_any (λ f. has_line_in wanted.now (ended f.items)) files.now }
{
    files
        .iter()
        .any(|file| has_line_once_ended(file.as_slice(), wanted))
}

// Whether a text begins with another line.
#[tactic(auto, unfolding(crate::specs::Named::begins_otherwise))]
fn begins_otherwise(text: &[u8], line: &[u8]) -> bool
    ensures { result ≡ begins_otherwise_of line.now text.now }
{
    split_first_line(text).0 != line
}

// Whether some file begins with another line.
fn any_begins_otherwise(files: &[Vec<u8>], line: &[u8]) -> bool
    ensures { result ≡ list_any (λ f. begins_otherwise_of line.now f.items) files.now }
{
    files
        .iter()
        .any(|file| begins_otherwise(file.as_slice(), line))
}

// Whether the files begin with one header.
fn headers_agree(files: &[Vec<u8>]) -> bool
    ensures { result ≡ do_headers_agree (map (λ f. f.items) files.now) }
{
    match files.split_first() {
        Some((first, further)) => !any_begins_otherwise(
            further,
            split_first_line(first.as_slice()).0,
        ),
        None => true,
    }
}

// Adds a text, and the LF of its last line where that has none.
fn add_ended(out: &mut Vec<u8>, text: &[u8]) -> Result<(), AllocError>
    ensures { OnOk result (out.new.items ≡ out.old.items ++ ended text.now) }
{
    out.extend_from_slice(text)?;
    if let Some(byte) = text.last() {
        if *byte != b'\n' {
            out.push(b'\n')?;
        }
    }
    Ok(())
}

// Adds the rows of further files, without their headers.
fn add_further(out: &mut Vec<u8>, files: &[Vec<u8>]) -> Result<(), AllocError>
    ensures { OnOk result (out.new.items ≡ out.old.items ++ flat_map (λ further. ended (behind_first further)) (map (λ f. f.items) files.now)) }
{
    for file in files {
        add_ended(out, split_first_line(file.as_slice()).1)?;
    }
    Ok(())
}

// Adds the rows of files.
fn add_rows(out: &mut Vec<u8>, files: &[Vec<u8>]) -> Result<(), AllocError>
    ensures { OnOk result (out.new.items ≡ out.old.items ++ rows_of_all (map (λ f. f.items) files.now)) }
{
    let Some((first, further)) = files.split_first() else {
        return Ok(());
    };
    add_ended(out, first.as_slice())?;
    add_further(out, further)
}

// The text of files that may make one.
fn joined(
    alloc: Global,
    openings: &[u8],
    trades: &[Vec<u8>],
    script: &[u8],
) -> Result<Vec<u8>, AllocError>
    ensures { IfOk result (λ t. t.items ≡ codes "[openings]\n" ++ ended openings.now ++ codes "[trades]\n" ++ rows_of_all (map (λ f. f.items) trades.now) ++ codes "[script]\n" ++ script.now) }
{
    let mut text = Vec::new(alloc);
    text.extend_from_slice(b"[openings]\n")?;
    add_ended(&mut text, openings)?;
    text.extend_from_slice(b"[trades]\n")?;
    add_rows(&mut text, trades)?;
    text.extend_from_slice(b"[script]\n")?;
    text.extend_from_slice(script)?;
    Ok(text)
}

/// The text that a file of openings, files of trades and a file of a script make: the three heads, each in
/// front of what stands in its files. A last line gets the LF that it lacks. The rows of a further file of
/// trades stand behind those of the one before it, without its header.
///
/// Refuses `Head` where a file has a line that would begin the next section, also as its last one without an LF, then `Header` where the first
/// line of a further file of trades is not the first one's, and `OutOfMemory`. (This project's own rule.)
pub fn text_of_files(
    alloc: Global,
    openings: &[u8],
    trades: &[Vec<u8>],
    script: &[u8],
) -> Result<Vec<u8>, NamedFault>
    ensures { MatchResult result (λ t. text_of openings.now (map (λ f. f.items) trades.now) script.now ≡ Ok t.items)
        (λ e. TellsOf e (text_of openings.now (map (λ f. f.items) trades.now) script.now)) }
{
    if has_line_once_ended(openings, b"[trades]") || any_has_line(trades, b"[script]") {
        return Err(NamedFault::Head);
    }
    if !headers_agree(trades) {
        return Err(NamedFault::Header);
    }
    Ok(joined(alloc, openings, trades, script)?)
}

/// A law, by a call that does nothing: the sections of the text that files make are what stands in the files,
/// the last line of each with its LF. So what is claimed of a text is claimed of the files that make it.
pub fn sections_are_of_files()
    ensures { SectionsAreOfFiles }
{}
