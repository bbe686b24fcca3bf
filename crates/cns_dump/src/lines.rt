//! Lines on their way to a writer.

use cns_input::BatchFault;
use cns_report::{Put, Text};
use std::alloc::Global;
use std::io::Write;

// So many bytes are held before they are written.
const HELD: usize = 65_536;

/// Lines that are told to a writer. They are held until there are enough of them, and the last ones until the end.
#[derive(Drop)]
pub struct Lines {
    text: Text,
}

impl Lines {
    /// No line yet. It takes no memory.
    pub fn new(alloc: Global) -> Lines {
        Lines {
            text: Text::new(alloc),
        }
    }

    /// Tells a line, or several.
    ///
    /// Refuses `Memory`, and then nothing of it was told, and `Write`.
    pub fn tell<T: Put, W: Write>(&mut self, writer: &mut W, told: &T) -> Result<(), BatchFault> {
        self.text.tell(told)?;
        if self.text.len() < HELD {
            return Ok(());
        }
        self.end(writer)
    }

    /// Writes all lines that are held. Refuses `Write`.
    pub fn end<W: Write>(&mut self, writer: &mut W) -> Result<(), BatchFault> {
        let written = writer.write_all(self.text.as_bytes());
        self.text.clear();
        match written {
            Ok(()) => Ok(()),
            Err(_) => Err(BatchFault::Write),
        }
    }
}
