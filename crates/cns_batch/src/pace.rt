/// When what a run tells is written.
#[derive(Clone, Copy, PartialEq, Eq, Debug)]
pub enum Pace {
    /// Where it has grown much, and at the end.
    WhenFull,
    /// The same, and where a line of the script ends: its text is written, and the writer is flushed.
    ByLine,
}
