ghost use Rattle.std.specs.Prelude.{◌≡◌, [], IfSome};
ghost use Rattle.cns_tally.specs.Counts.{text_counts};
ghost use Rattle.cns_tally.specs.Tally.{contents_of};

use crate::counts::Counts;
use crate::lines::Lines;
use std::io;
use std::io::Write;

/// A writer that hands all bytes on to another one, and counts the lines that tell of what was not taken.
///
/// Only the bytes that the other writer took are counted. What a tally is known to hold is what that writer
/// is, if it was known from the tally's making on.
#[derive(Drop)]
pub struct Tally<W: Write> {
    writer: W,
    lines: Lines,
}

impl<W: Write> Tally<W> {
    /// A tally over a writer which holds nothing that is known.
    pub fn new(writer: W) -> Tally<W>
        requires { IfSome (W.contents writer) (λ all. all ≡ []) }
        ensures { contents_of W.contents result ≡ W.contents writer }
    {
        Tally {
            writer,
            lines: Lines::new(),
        }
    }

    /// How many of the lines that were written tell of what was not taken (this project's own rule). A line
    /// counts once its LF is written, in whatever pieces it was.
    pub fn counts(&self) -> Counts
        ensures { IfSome (contents_of W.contents self.now) (λ all. result ≡ text_counts all) }
    {
        self.lines.counts()
    }
}

impl<W: Write> Write for Tally<W> {
    ghost contents = { contents_of W.contents };

    fn write(&mut self, buf: &[u8]) -> io::Result<usize> {
        let taken = self.writer.write(buf)?;
        self.lines.take(&buf[..taken]);
        Ok(taken)
    }

    fn flush(&mut self) -> io::Result<()> {
        self.writer.flush()
    }
}
