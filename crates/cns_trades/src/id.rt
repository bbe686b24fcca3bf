ghost use Rattle.std.specs.Prelude.{◌≡◌, ◌≤◌, ◌==◌, length, take};
ghost use Rattle.std.specs.Cmp.Lexicographic.{pointwise};
ghost use Rattle.std.specs.List.{list_all};
ghost use Rattle.std.proofs.Common.{rules};
ghost use Rattle.std.specs.Hash as fed;
ghost use Rattle.std.specs.Cmp.Rules.{comparing, hashing};
ghost use Rattle.cns_trades.specs.TradeId.{is_id_byte, IsId, is_id_text};

use std::fmt;
use std::hash::{Hash, Hasher};
use std::marker::Model;
use thiserror::Error;

/// A text is no trade id.
#[derive(Clone, Copy, PartialEq, Eq, Debug, Error)]
#[error("not 1 to 16 capital letters and digits")]
pub struct BadId;

// The place of the last byte.
const LAST: usize = 15;

/// A trade's id: 1 to 16 capital letters and digits. (This project's own rule.)
///
/// Contracts see its bytes.
#[derive(Clone, Copy, Debug)]
pub struct TradeId {
    // The bytes, with zeros after them, and their number last, where they leave room for it: it is less than
    // any character of an id.
    bytes: [u8; 16],
}

impl Model for TradeId {
    ghost use Rattle.std.specs.Prelude.{List, ℕ, take};
    ghost use Rattle.std.proofs.Common.{refl};
    ghost use Rattle.cns_trades.specs.TradeId.{IsStored, size_in, stored};

    ghost Value = { List ℕ };

    ghost view = { λ a. take (size_in a.bytes) a.bytes };

    ghost invariant = { λ a. IsStored a.bytes };

    ghost inverse = { λ v. record { bytes = stored v } };

    ghost inverse_ok = { λ a h. Prim.rw h.rest refl };
}

fn is_id_character(character: u8) -> bool
    ensures { result ≡ is_id_byte character }
{
    character.is_ascii_uppercase() || character.is_ascii_digit()
}

// Each character is looked at, also behind one that is none of an id: so a processor looks at sixteen at once.
fn all_id_characters(text: &[u8]) -> bool
    ensures { result ≡ list_all is_id_byte text.now }
{
    let mut all = true;
    for character in text {
        all &= is_id_character(*character);
    }
    all
}

/// Whether a text is 1 to 16 capital letters and digits.
pub(crate) fn is_id(text: &[u8]) -> bool
    ensures { result ≡ is_id_text text.now }
{
    !text.is_empty() && text.len() <= 16 && all_id_characters(text)
}

impl TradeId {
    ghost use Rattle.cns_trades.specs.ReadId.{read_id};

    /// Reads a trade id.
    pub fn read(text: &[u8]) -> Result<TradeId, BadId>
        ensures exact { result ≡ read_id text.now }
    {
        if !is_id(text) {
            return Err(BadId);
        }
        Ok(TradeId::of(text))
    }

    /// The id of a text that is one.
    pub(crate) fn of(text: &[u8]) -> TradeId
        requires { IsId text.now }
        ensures { result ≡ text.now }
    {
        let mut bytes = [0; 16];
        let len = text.len();
        bytes[LAST] = len as u8;
        bytes[..len].copy_from_slice(text);
        TradeId { bytes }
    }

    /// The 1 to 16 bytes.
    pub fn as_bytes(&self) -> &[u8]
        ensures text { result.now ≡ self.now }
        ensures id { IsId self.now }
    {
        let len = usize::from(self.bytes[LAST]).min(16);
        &self.bytes[..len]
    }
}

impl PartialEq for TradeId {
    ghost eq = { pointwise ◌==◌ };

    ghost laws = { Prim.search (comparing, rules) };

    fn eq(&self, other: &TradeId) -> bool {
        self.bytes == other.bytes
    }
}

impl Eq for TradeId {
    ghost laws = { Prim.search (comparing, rules) };
}

impl Hash for TradeId {
    ghost use Rattle.std.specs.Int.{from_le_bytes, w128};
    ghost use Rattle.cns_trades.specs.TradeId.{stored};

    ghost hash_input = { λ id. fed.u128 (from_le_bytes w128 (stored id)) };

    ghost respects_eq = { Prim.search (hashing, rules) };

    fn hash<H: Hasher>(&self, state: &mut H) {
        u128::from_le_bytes(self.bytes).hash(state);
    }
}

impl fmt::Display for TradeId {
    ghost use Rattle.std.specs.Prelude.{Some};

    ghost output = { λ id. Some id };

    fn fmt<W: fmt::Write>(&self, f: &mut fmt::Formatter<W>) -> fmt::Result {
        match str::from_utf8(self.as_bytes()) {
            Ok(text) => f.write_str(text),
            Err(_) => Err(fmt::Error),
        }
    }
}
