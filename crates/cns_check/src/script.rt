ghost use Rattle.std.specs.Prelude.{◌≡◌, ◌++◌, ◌∷◌, [], ℕ, List, OnOk, if◌then◌else◌};
ghost use Rattle.cns_input.specs.declared.command.Command.{Command};
ghost use Rattle.cns_check.specs.Findings.{bad_lines, in_script};
ghost use Rattle.cns_check.specs.Kept.{IsOf};
ghost use Rattle.cns_check.specs.declared.finding.Finding.{Finding};
ghost use Rattle.cns_check.specs.declared.finding.Finding.TheVariants as finding;

use crate::finding::Finding;
use crate::found::{Findings, Place};
use cns_input::{Command, command_of, line_size, line_text};
use std::alloc::{AllocError, Global};

// How a line of the script stands.
#[derive(Clone, Copy)]
struct Stand {
    // It is no command, or a BESIDE that may not stand there.
    is_bad: bool,
    // So many of the lines behind it run beside the lot that it opens, or that was opened before it.
    beside: u64,
}

// How a line stands where so many are left that run beside a lot.
fn standing(command: Command, beside: u64) -> Stand
    ensures { (number : ℕ) (rest : List (ℕ × Command)) → bad_lines beside ((number, command) ∷ rest)
        ≡ (if result.is_bad then number ∷ [] else []) ++ bad_lines result.beside rest }
{
    let left = beside.saturating_sub(1);
    match command {
        Command::Skip => Stand {
            is_bad: false,
            beside,
        },
        Command::Bad => Stand {
            is_bad: true,
            beside: left,
        },
        Command::Beside { lines, .. } => Stand {
            is_bad: beside > 0,
            beside: if beside > 0 { left } else { lines },
        },
        _ => Stand {
            is_bad: false,
            beside: left,
        },
    }
}

// Adds a line where it is a bad one.
fn add_line(
    alloc: Global,
    is_bad: bool,
    number: u64,
    place: &Place<'_>,
    found: &mut Findings,
) -> Result<(), AllocError>
    ensures { OnOk result ((before : List Finding) → IsOf found.old before → IsOf found.new (before ++ (if is_bad then finding.Line number ∷ [] else []))) }
{
    if !is_bad {
        return Ok(());
    }
    found.add(alloc, Finding::Line { number }, place)
}

/// Looks at the lines of a script's text, which begins in a line.
pub(crate) fn check_script(
    alloc: Global,
    script: &[u8],
    first: u64,
    found: &mut Findings,
) -> Result<(), AllocError>
    ensures { OnOk result ((before : List Finding) → IsOf found.old before → IsOf found.new (before ++ in_script script.now)) }
{
    let mut rest = script;
    let mut number = 1u64;
    let mut beside = 0;
    while !rest.is_empty() {
        let (line, after) = rest.split_at(line_size(rest));
        let text = line_text(line);
        let stands = standing(command_of(text), beside);
        let here = Place::of_line(first.saturating_add(number - 1), text);
        add_line(alloc, stands.is_bad, number, &here, found)?;
        beside = stands.beside;
        rest = after;
        number += 1;
    }
    Ok(())
}
