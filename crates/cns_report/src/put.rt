//! What is told as a text, piece after piece.
ghost use Rattle.std.specs.Prelude.{◌≡◌, ◌+◌, ◌<◌, ◌≤◌, ◌∷◌, [], ◌++◌, List, OnErr, OnOk, length, ℕ};
ghost use Rattle.std.specs.Fmt.{decimal};
ghost use Rattle.cns_ids.specs.Cusip.{cusip_text};
ghost use Rattle.cns_ids.specs.Cycle.{kind_text as cycle_kind_text};
ghost use Rattle.cns_ids.specs.Day.{day_text};
ghost use Rattle.cns_ids.specs.Member.{member_text};
ghost use Rattle.cns_movements.specs.Order.{kind_text as move_kind_text};

use crate::text::Draft;
use cns_ids::{Cusip, CycleKind, Day, MemberNo};
use cns_movements::MoveKind;
use cns_trades::TradeId;
use itoa::{Buffer, Integer};
use std::alloc::AllocError;

/// What is told as a text. A tuple is told piece after piece.
pub trait Put {
    /// The bytes of the text.
    ghost text: { Self → List ℕ };

    /// Adds the text to what is begun, or a part of it where memory is wanting: only where there is no room
    /// for all of it.
    fn put(&self, draft: &mut Draft) -> Result<(), AllocError>
        ensures whole { draft.new.whole ≡ draft.old.whole }
        ensures begun { OnOk result (draft.new.begun ≡ draft.old.begun ++ text self.now) }
        ensures room { draft.old.room ≤ draft.new.room }
        ensures full { OnErr result (draft.old.room < length draft.old.whole + length draft.old.begun + length (text self.now)) };
}

impl Put for &str {
    ghost text = { λ s. s.now };

    #[inline(always)]
    fn put(&self, draft: &mut Draft) -> Result<(), AllocError> {
        draft.add(self.as_bytes())
    }
}

impl Put for [u8; 16] {
    ghost text = { λ bytes. bytes };

    #[inline(always)]
    fn put(&self, draft: &mut Draft) -> Result<(), AllocError> {
        draft.add(self)
    }
}

/// One byte.
#[derive(Clone, Copy)]
pub(crate) struct Byte(u8);

/// A space.
pub(crate) const SPACE: Byte = Byte(b' ');

/// The end of a line.
pub(crate) const LF: Byte = Byte(b'\n');

impl Put for Byte {
    ghost text = { λ byte. byte.0 ∷ [] };

    #[inline(always)]
    fn put(&self, draft: &mut Draft) -> Result<(), AllocError> {
        draft.push(self.0)
    }
}

// A whole number, in decimal digits.
#[inline(always)]
fn put_number<I: Integer>(draft: &mut Draft, number: I) -> Result<(), AllocError>
    ensures whole { draft.new.whole ≡ draft.old.whole }
    ensures begun { OnOk result (draft.new.begun ≡ draft.old.begun ++ I.text number) }
    ensures room { draft.old.room ≤ draft.new.room }
    ensures full { OnErr result (draft.old.room < length draft.old.whole + length draft.old.begun + length (I.text number)) }
{
    let mut buffer = Buffer::new();
    draft.add(buffer.format(number).as_bytes())
}

impl Put for u64 {
    ghost text = { decimal };

    fn put(&self, draft: &mut Draft) -> Result<(), AllocError> {
        put_number(draft, *self)
    }
}

impl Put for u128 {
    ghost text = { decimal };

    fn put(&self, draft: &mut Draft) -> Result<(), AllocError> {
        put_number(draft, *self)
    }
}

impl Put for TradeId {
    ghost text = { λ id. id };

    fn put(&self, draft: &mut Draft) -> Result<(), AllocError> {
        draft.add(self.as_bytes())
    }
}

impl Put for Cusip {
    ghost text = { cusip_text };

    fn put(&self, draft: &mut Draft) -> Result<(), AllocError> {
        draft.add(&self.to_bytes())
    }
}

impl Put for MemberNo {
    ghost text = { member_text };

    fn put(&self, draft: &mut Draft) -> Result<(), AllocError> {
        draft.add(&self.to_bytes())
    }
}

impl Put for Day {
    ghost text = { day_text };

    fn put(&self, draft: &mut Draft) -> Result<(), AllocError> {
        draft.add(&self.to_bytes())
    }
}

impl Put for CycleKind {
    ghost text = { cycle_kind_text };

    fn put(&self, draft: &mut Draft) -> Result<(), AllocError> {
        draft.add(self.name().as_bytes())
    }
}

impl Put for MoveKind {
    ghost text = { move_kind_text };

    fn put(&self, draft: &mut Draft) -> Result<(), AllocError> {
        draft.add(self.name().as_bytes())
    }
}

impl<A: Put, B: Put> Put for (A, B) {
    ghost text = { λ x. A.text x.0 ++ B.text x.1 };

    #[inline(always)]
    fn put(&self, draft: &mut Draft) -> Result<(), AllocError> {
        self.0.put(draft)?;
        self.1.put(draft)
    }
}

impl<A: Put, B: Put, C: Put> Put for (A, B, C) {
    ghost text = { λ x. A.text x.0 ++ B.text x.1 ++ C.text x.2 };

    #[inline(always)]
    fn put(&self, draft: &mut Draft) -> Result<(), AllocError> {
        self.0.put(draft)?;
        self.1.put(draft)?;
        self.2.put(draft)
    }
}

impl<A: Put, B: Put, C: Put, D: Put> Put for (A, B, C, D) {
    ghost text = { λ x. A.text x.0 ++ B.text x.1 ++ C.text x.2 ++ D.text x.3 };

    #[inline(always)]
    fn put(&self, draft: &mut Draft) -> Result<(), AllocError> {
        self.0.put(draft)?;
        self.1.put(draft)?;
        self.2.put(draft)?;
        self.3.put(draft)
    }
}

impl<A: Put, B: Put, C: Put, D: Put, E: Put> Put for (A, B, C, D, E) {
    ghost text = { λ x. A.text x.0 ++ B.text x.1 ++ C.text x.2 ++ D.text x.3 ++ E.text x.4 };

    #[inline(always)]
    fn put(&self, draft: &mut Draft) -> Result<(), AllocError> {
        self.0.put(draft)?;
        self.1.put(draft)?;
        self.2.put(draft)?;
        self.3.put(draft)?;
        self.4.put(draft)
    }
}
