//! Where a record stands, and what follows the last one.

ghost use Rattle.cns_dump.specs.Places.{end_words, place_words};

use cns_file::Tail;
use cns_report::{Draft, Put};
use std::alloc::AllocError;

/// Where a record stands in the file of a journal.
#[derive(Clone, Copy, PartialEq, Eq, Debug)]
pub struct Place {
    /// Its number, counted from 1.
    pub number: u64,
    /// The byte at which its gate stands, counted from 0.
    pub byte: u64,
}

impl Place {
    /// The place of the first record.
    pub const FIRST: Place = Place { number: 1, byte: 0 };

    /// The place behind a record whose payload has so many bytes. At the largest number it stays.
    pub fn behind(self, payload: usize) -> Place {
        Place {
            number: self.number.saturating_add(1),
            byte: self.byte.saturating_add(5).saturating_add(payload as u64),
        }
    }
}

/// `record PLACE byte BYTE `, in front of a record's words.
#[derive(Clone, Copy, Debug)]
pub struct PlaceWords(pub Place);

impl Put for PlaceWords {
    ghost text = { λ words. place_words words.0 };

    fn put(&self, draft: &mut Draft) -> Result<(), AllocError> {
        ("record ", self.0.number, " byte ", self.0.byte, " ").put(draft)
    }
}

/// What follows the last record of a file: so many bytes, which are such.
#[derive(Clone, Copy, PartialEq, Eq, Debug)]
pub struct EndWords {
    /// How many bytes follow, from the gate on that does not count.
    pub bytes: u64,
    /// What they are.
    pub tail: Tail,
}

impl Put for EndWords {
    ghost text = { λ words. end_words words.bytes words.tail };

    fn put(&self, draft: &mut Draft) -> Result<(), AllocError> {
        match self.tail {
            Tail::Nothing => "nothing follows".put(draft),
            Tail::Crash => (self.bytes, " bytes follow, as a crash may leave them").put(draft),
            Tail::Damage => (self.bytes, " bytes follow that no crash leaves: damage").put(draft),
        }
    }
}
