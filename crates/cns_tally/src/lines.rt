ghost use Rattle.std.specs.Prelude.{◌≡◌, List, ℕ, [], ◌∷◌, ◌++◌};
ghost use Rattle.cns_tally.specs.Counts.{HasCounted};

use crate::counts::Counts;
use crate::kind::kind_of;
use arrayvec::ArrayVec;

/// What the lines of a text come to so far, and the first 64 bytes of the line that it has begun.
#[derive(Drop)]
pub(crate) struct Lines {
    counts: Counts,
    begun: ArrayVec<u8, 64>,
}

impl Lines {
    /// Of no text yet.
    pub(crate) fn new() -> Lines
        ensures { HasCounted result [] }
    {
        Lines {
            counts: Counts::new(),
            begun: ArrayVec::new(),
        }
    }

    /// What the lines come to.
    pub(crate) fn counts(&self) -> Counts
        ensures { result ≡ self.now.counts }
    {
        self.counts
    }

    // Takes the end of the line that has begun.
    fn end_line(&mut self)
        ensures { (text : List ℕ) → HasCounted self.old text → HasCounted self.new (text ++ 10 ∷ []) }
    {
        if let Some(kind) = kind_of(&self.begun) {
            self.counts.add(kind);
        }
        self.begun.clear();
    }

    // Takes one byte more of the text.
    fn take_byte(&mut self, byte: u8)
        ensures { (text : List ℕ) → HasCounted self.old text → HasCounted self.new (text ++ byte ∷ []) }
    {
        if byte == b'\n' {
            self.end_line();
        } else if !self.begun.is_full() {
            self.begun.push(byte);
        }
    }

    /// Takes more of the text.
    pub(crate) fn take(&mut self, bytes: &[u8])
        ensures { (text : List ℕ) → HasCounted self.old text → HasCounted self.new (text ++ bytes.now) }
    {
        for byte in bytes {
            self.take_byte(*byte);
        }
    }
}
