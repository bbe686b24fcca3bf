//! A list of payloads, in two allocations.

ghost use Rattle.std.specs.Prelude.{◌≡◌, ◌≤◌, [], ◌∷◌, ◌++◌, length, map, vec_items, IfOk, OnErr, OnOk};

use crate::keeper::{MAX_PAYLOAD, MAX_RECORDS};
use std::alloc::{AllocError, Global};
use std::marker::Model;

// The bytes of all payloads, one after another, and how many each of them has.
#[derive(Drop)]
pub struct Payloads {
    bytes: Vec<u8>,
    lengths: Vec<u32>,
}

impl Model for Payloads {
    ghost use Rattle.std.specs.Prelude.{◌≡◌, ◌≤◌, ℕ, List, length, vec_items, vec_len};
    ghost use Rattle.cns_journal.specs.declared.keeper.TheConstants.{MAX_RECORDS};
    ghost use Rattle.cns_journal.specs.Payloads.{AreAll, pieces};

    ghost Value = { List (List ℕ) };

    ghost view = { λ p. pieces (vec_items p.lengths) (vec_items p.bytes) };

    // A `Vec` of more lengths would not fit in memory.
    ghost invariant = { λ p. (vec_len p.lengths ≤ MAX_RECORDS) × AreAll (vec_items p.lengths) (vec_items p.bytes) };
}

impl Payloads {
    pub fn new(alloc: Global) -> Payloads
        ensures { result ≡ [] }
    {
        Payloads {
            bytes: Vec::new(alloc),
            lengths: Vec::new(alloc),
        }
    }

    pub fn len(&self) -> usize
        ensures value { result ≡ length self.now }
        ensures limit { result ≤ MAX_RECORDS }
    {
        self.lengths.len()
    }

    // Adds a payload at the end.
    #[inline(always)]
    pub fn push(&mut self, payload: &[u8]) -> Result<(), AllocError>
        requires { length payload.now ≤ MAX_PAYLOAD }
        ensures ok { OnOk result (self.new ≡ self.old ++ payload.now ∷ []) }
        ensures err { OnErr result (self.new ≡ self.old) }
        ensures limit { OnOk result (length self.new ≤ MAX_RECORDS) }
    {
        self.lengths.reserve(1)?;
        self.bytes.extend_from_slice(payload)?;
        self.lengths.push_reserved(payload.len() as u32);
        Ok(())
    }

    // Each payload in a `Vec` of its own.
    pub fn to_vecs(&self, alloc: Global) -> Result<Vec<Vec<u8>>, AllocError>
        ensures { IfOk result (λ list. map vec_items (vec_items list) ≡ self.now) }
    {
        let mut list = Vec::with_capacity(alloc, self.lengths.len())?;
        let mut rest = self.bytes.as_slice();
        for length in &self.lengths {
            let (payload, behind) = rest.split_at(*length as usize);
            list.push(payload.to_vec(alloc)?)?;
            rest = behind;
        }
        Ok(list)
    }
}
