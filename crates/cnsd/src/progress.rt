//! How far a run is, told on standard error.

use std::io;
use std::io::{IsTerminal, Write};

// After how many commands it is told, where no terminal shows it.
const COMMANDS: u64 = 1000;

// Where it is told how far a run is.
#[derive(Clone, Copy, PartialEq, Eq, Debug)]
enum Shows {
    Nowhere,
    /// In one line of a terminal, which each command and each write changes.
    InPlace,
    /// In a line of its own after each 1,000 commands.
    InLines,
}

// Where it is told, asked for so often.
fn wanted(rt: &HostRuntime, asked: u8) -> Shows {
    if asked == 0 {
        Shows::Nowhere
    } else if rt.stderr().is_terminal() {
        Shows::InPlace
    } else if asked > 1 {
        Shows::InLines
    } else {
        Shows::Nowhere
    }
}

/// A writer that hands all bytes on to another one, and tells how far the run is that writes them: how many
/// commands of its script were run, after each of which a run flushes its writer, and how many bytes were written.
#[derive(Drop)]
pub(crate) struct Progress<'a, W: Write> {
    writer: W,
    rt: &'a HostRuntime,
    shows: Shows,
    commands: u64,
    bytes: u64,
}

impl<'a, W: Write> Progress<'a, W> {
    /// Nothing is written yet. It is told where it was asked for so often.
    pub(crate) fn new(rt: &'a HostRuntime, writer: W, asked: u8) -> Progress<'a, W> {
        Progress {
            writer,
            rt,
            shows: wanted(rt, asked),
            commands: 0,
            bytes: 0,
        }
    }

    // Tells how far the run is. Where there is no memory for it nothing is told.
    fn tell(&self) {
        let (commands, bytes) = (self.commands, self.bytes);
        let Ok(told) = format!(in self.rt.alloc();
            "cnsd: {commands} commands run, {bytes} bytes written"
        ) else {
            return;
        };
        let _ = match self.shows {
            Shows::Nowhere => Ok(()),
            Shows::InPlace => {
                let _ = self.rt.eprint("\r");
                self.rt.eprint(told.as_str())
            }
            Shows::InLines => self.rt.eprintln(told.as_str()),
        };
    }

    /// Tells how far the run came, and gives back the other writer.
    pub(crate) fn finish(self) -> W {
        if self.shows != Shows::Nowhere {
            self.tell();
        }
        if self.shows == Shows::InPlace {
            let _ = self.rt.eprintln("");
        }
        self.writer
    }
}

impl<'a, W: Write> Write for Progress<'a, W> {
    ghost contents = { λ progress. W.contents progress.writer };

    fn write(&mut self, buf: &[u8]) -> io::Result<usize> {
        let taken = self.writer.write(buf)?;
        self.bytes = self.bytes.saturating_add(taken as u64);
        if self.shows == Shows::InPlace {
            self.tell();
        }
        Ok(taken)
    }

    fn flush(&mut self) -> io::Result<()> {
        self.commands = self.commands.saturating_add(1);
        let due = match self.shows {
            Shows::Nowhere => false,
            Shows::InPlace => true,
            Shows::InLines => self.commands % COMMANDS == 0,
        };
        if due {
            self.tell();
        }
        self.writer.flush()
    }
}
