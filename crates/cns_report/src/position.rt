ghost use Rattle.std.specs.Prelude.{◌∷◌, [], ◌++◌};
ghost use Rattle.cns_report.specs.Right.{right_20};

use crate::put::{LF, Put};
use crate::text::Draft;
use itoa::{Buffer, Integer};
use std::alloc::AllocError;

// How many places a number stands right in.
const PLACES: usize = 20;

/// Shares, right in 20 places, and the end of the line.
#[derive(Clone, Copy)]
pub(crate) struct LastIn20<I: Integer>(pub(crate) I);

impl<I: Integer> Put for LastIn20<I> {
    ghost text = { λ shares. right_20 (I.text shares.0) ++ 10 ∷ [] };

    fn put(&self, draft: &mut Draft) -> Result<(), AllocError> {
        let mut buffer = Buffer::new();
        let digits = buffer.format(self.0).as_bytes();
        if digits.len() > PLACES {
            draft.add(digits)?;
            return LF.put(draft);
        }
        let mut places = *b"                    \n";
        places[PLACES - digits.len()..PLACES].copy_from_slice(digits);
        draft.add(&places)
    }
}
