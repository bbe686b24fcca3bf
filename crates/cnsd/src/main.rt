//! A Continuous Net Settlement book: `cnsd run` reads one text of trades and a script, and writes what the
//! script's commands tell to standard output. `cnsd check` tells what is wrong with such a text, `cnsd table`
//! makes a table of the reports of a run, and `cnsd cusip` says of texts whether they are CUSIPs.
#![tactic(auto)]

ghost use Rattle.std.specs.Prelude.{◌≡◌, ◌<◌};

mod arguments;
mod audit;
mod check;
mod cusip;
mod cuts;
mod intact;
mod journal;
mod locks;
mod progress;
mod run;
mod source;
mod strict;
mod table;

use arguments::{CommandLine, read_command_line};
use audit::read_journals;
use check::check_source;
use cns_command_line::Request;
use cns_input::BatchFault;
use cusip::check_texts;
use run::run_source;
use std::marker::Brand;
use std::process::ExitCode;
use std::sync::Wait;
use std::sync::ledger::Blank;
use std::thread::Threads;
use table::table_reports;

// Tells a fault on standard error, and gives its exit status.
fn tell_fault(rt: &HostRuntime, fault: BatchFault) -> ExitCode {
    let _ = rt.eprintln(fault);
    ExitCode::from(fault.status())
}

// The exit status of what a request came to; a fault is told on standard error.
fn exit_status(rt: &HostRuntime, ended: Result<u8, BatchFault>) -> ExitCode {
    match ended {
        Ok(status) => ExitCode::from(status),
        Err(fault) => tell_fault(rt, fault),
    }
}

// Serves a request, each kind in a frame of its own: one frame for all of them would not fit a small stack.
fn serve<H: Threads + Wait + Sync>(rt: &HostRuntime, threads: &H, request: &Request) -> ExitCode {
    match request {
        Request::Run { source, manner } => {
            let ended = run_source::<_, Brand>(rt, threads, Blank::new(1), source, manner);
            exit_status(rt, ended)
        }
        Request::Check(source) => {
            let ended = check_source::<Brand>(rt, Blank::new(1), source);
            exit_status(rt, ended)
        }
        Request::Table { last } => table_reports(rt, *last),
        Request::Cusips(texts) => {
            let ended = check_texts::<Brand>(rt, Blank::new(1), texts.as_slice());
            exit_status(rt, ended)
        }
        Request::Audit(audit) => {
            let ended = read_journals(rt, audit);
            exit_status(rt, ended)
        }
    }
}

fn main(rt: HostRuntime) -> ExitCode {
    match read_command_line(&rt) {
        Ok(CommandLine::Asks(request)) => serve(&rt, &rt, &request),
        Ok(CommandLine::Told) => ExitCode::SUCCESS,
        Ok(CommandLine::Faulty) => ExitCode::from(1),
        Err(fault) => tell_fault(&rt, fault),
    }
}
