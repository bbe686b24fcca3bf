//! The lines of a check, on their way to a writer.

ghost use Rattle.std.specs.Prelude.{◌≡◌, ◌<◌, IfOk};

use cns_dump::Lines;
use cns_input::BatchFault;
use cns_report::Put;
use std::alloc::Global;
use std::io::Write;

/// What a check tells, and how many faults it has told.
#[derive(Drop)]
pub(crate) struct Told<W: Write + Drop> {
    lines: Lines,
    writer: W,
    faults: u64,
}

impl<W: Write + Drop> Told<W> {
    /// Nothing yet. It takes no memory.
    pub(crate) fn new(alloc: Global, writer: W) -> Told<W>
        ensures { result.faults ≡ 0 }
    {
        Told {
            lines: Lines::new(alloc),
            writer,
            faults: 0,
        }
    }

    /// Tells a line of something, without the end of the line.
    pub(crate) fn line<T: Put + Drop>(&mut self, of: &str, told: T) -> Result<(), BatchFault>
        ensures { self.new.faults ≡ self.old.faults }
    {
        self.lines.tell(&mut self.writer, &(of, ": ", told, "\n"))
    }

    /// Tells a line of something that is a fault.
    pub(crate) fn fault<T: Put + Drop>(&mut self, of: &str, told: T) -> Result<(), BatchFault>
        ensures { 0 < self.new.faults }
    {
        self.faults = self.faults.saturating_add(1);
        self.line(of, told)
    }

    /// How many faults were told.
    pub(crate) fn faults(&self) -> u64
        ensures { result ≡ self.now.faults }
    {
        self.faults
    }

    /// Tells the last line, writes all lines that are held, and answers how many faults there were.
    pub(crate) fn end(mut self) -> Result<u64, BatchFault>
        ensures { IfOk result (λ faults. faults ≡ self.faults) }
    {
        let faults = self.faults;
        if faults == 0 {
            self.lines.tell(&mut self.writer, &"agreed\n")?;
        } else {
            self.lines.tell(&mut self.writer, &(faults, " faults\n"))?;
        }
        self.lines.end(&mut self.writer)?;
        Ok(faults)
    }
}
