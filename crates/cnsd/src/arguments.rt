//! The command line: what its words ask for, and what is told where they ask for nothing.

use clap::Error;
use clap::error::ErrorKind;
use cns_command_line::{Request, parse_command_line};
use cns_input::BatchFault;
use std::alloc::{AllocError, Global};
use std::rt::Env;
use std::{env, io};

/// What the command line comes to.
#[derive(Drop)]
pub(crate) enum CommandLine {
    /// What it asks for.
    Asks(Request),
    /// Help or the version, which was printed.
    Told,
    /// Nothing that there is; the fault was printed.
    Faulty,
}

// The words of the command line, the program's name first.
fn words<R: Env + AllocGlobal>(rt: &R) -> io::Result<Vec<String>> {
    let mut words = Vec::new(rt.alloc());
    for word in env::args(rt)? {
        words.push(word)?;
    }
    Ok(words)
}

// The same as texts.
fn texts(alloc: Global, words: &[String]) -> Result<Vec<&str>, AllocError> {
    let mut texts = Vec::with_capacity(alloc, words.len())?;
    for word in words {
        texts.push(word.as_str())?;
    }
    Ok(texts)
}

// What a command line that was not parsed comes to: its text is printed, as the library words it.
fn told<R: AllocGlobal + Print + Eprint>(rt: &R, error: &Error) -> Result<CommandLine, BatchFault> {
    if error.kind() == ErrorKind::OutOfMemory {
        return Err(BatchFault::Memory);
    }
    let printed = error.print(rt);
    if error.use_stderr() {
        return Ok(CommandLine::Faulty);
    }
    match printed {
        Ok(()) => Ok(CommandLine::Told),
        Err(_) => Err(BatchFault::Write),
    }
}

// What is wanted in place of words that ask for nothing.
fn wanted(words: &[&str]) -> &'static str {
    if words.get(1) == Some(&"journal") {
        return "cnsd: of journals there are `dump FILE [--csv]` and `check DIR [--openings FILE] [--verbose]`";
    }
    "cnsd: an input is one FILE, or is made by --openings, --trades and --script"
}

/// Reads the command line, and prints help, the version or the fault where it asks for nothing else.
///
/// Refuses `Memory` where there was none for it, and `Write` where help or the version could not be
/// printed.
pub(crate) fn read_command_line<R: Env + AllocGlobal + Print + Eprint>(
    rt: &R,
) -> Result<CommandLine, BatchFault> {
    let words = match words(rt) {
        Ok(words) => words,
        Err(error) if error.kind() == io::ErrorKind::OutOfMemory => return Err(BatchFault::Memory),
        Err(_) => {
            let _ = rt.eprintln("cnsd: the command line cannot be read");
            return Ok(CommandLine::Faulty);
        }
    };
    let Ok(texts) = texts(rt.alloc(), words.as_slice()) else {
        return Err(BatchFault::Memory);
    };
    match parse_command_line(rt.alloc(), texts.as_slice()) {
        Ok(Some(request)) => Ok(CommandLine::Asks(request)),
        Ok(None) => {
            let _ = rt.eprintln(wanted(texts.as_slice()));
            Ok(CommandLine::Faulty)
        }
        Err(error) => told(rt, &error),
    }
}
