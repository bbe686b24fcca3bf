ghost use Rattle.std.specs.Prelude.{◌≡◌, ◌≤◌, ◌==◌, ◌↔◌, [], length, take, IsTrue};
ghost use Rattle.std.specs.Cmp.Lexicographic.{pointwise};
ghost use Rattle.std.specs.Cmp.Rules.{comparing};
ghost use Rattle.std.proofs.Common.{rules};

use std::marker::Model;

/// The most bytes that a packet has. (This project's own limit.)
pub const MAX_PACKET_SIZE: usize = 36;

/// The bytes of a frame with their length, at most `MAX_PACKET_SIZE` of them.
///
/// Contracts see the bytes.
#[derive(Clone, Copy, Debug)]
pub struct FrameBytes {
    // The bytes, with zeros after them.
    bytes: [u8; MAX_PACKET_SIZE],
    len: u8,
}

impl Model for FrameBytes {
    ghost use Rattle.std.specs.Prelude.{List, ℕ, take, length};
    ghost use Rattle.std.proofs.Common.{refl};
    ghost use Rattle.cns_wire.specs.Packet.{IsStored, padded};

    ghost Value = { List ℕ };

    ghost view = { λ a. take a.len a.bytes };

    ghost invariant = { λ a. IsStored a.len a.bytes };

    ghost inverse = { λ v. record { bytes = padded v; len = length v } };

    ghost inverse_ok = { λ a h. Prim.rw (h.rest, h.size) refl };
}

impl FrameBytes {
    /// These bytes, at most 36.
    pub fn new(text: &[u8]) -> FrameBytes
        requires { length text.now ≤ 36 }
        ensures { result ≡ text.now }
    {
        let mut bytes = [0; MAX_PACKET_SIZE];
        let len = text.len();
        bytes[..len].copy_from_slice(text);
        FrameBytes {
            bytes,
            len: len as u8,
        }
    }

    /// The bytes.
    pub fn as_bytes(&self) -> &[u8]
        ensures bytes { result.now ≡ self.now }
        ensures few { length self.now ≤ 36 }
    {
        &self.bytes[..self.len as usize]
    }

    /// How many bytes there are.
    pub fn len(&self) -> usize
        ensures value { result ≡ length self.now }
        ensures few { result ≤ 36 }
    {
        self.as_bytes().len()
    }

    /// Whether there are no bytes.
    pub fn is_empty(&self) -> bool
        ensures { IsTrue result ↔ (self.now ≡ []) }
    {
        self.as_bytes().is_empty()
    }
}

impl PartialEq for FrameBytes {
    ghost eq = { pointwise ◌==◌ };

    ghost laws = { Prim.search (comparing, rules) };

    fn eq(&self, other: &FrameBytes) -> bool {
        self.as_bytes() == other.as_bytes()
    }
}

impl Eq for FrameBytes {
    ghost laws = { Prim.search (comparing, rules) };
}
