//! The two journals of a folder.

/// The name of the clearing node's journal in its folder.
pub const CLEAR: &str = "clear.journal";

/// The name of the depository's.
pub const DEPOT: &str = "depot.journal";

/// The name of the openings that a folder keeps.
pub const OPENINGS: &str = "openings.csv";

/// The files of both journals, as they were read.
#[derive(Clone, Copy, Debug)]
pub struct Journals<'a> {
    /// The clearing node's.
    pub clear: &'a [u8],
    /// The depository's.
    pub depot: &'a [u8],
}
