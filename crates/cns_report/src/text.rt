ghost use Rattle.std.specs.Prelude.{◌≡◌, ◌+◌, ◌<◌, ◌≤◌, ◌∷◌, ◌++◌, ◌==◌, [], OnErr, OnOk, length};

use crate::put::Put;
use std::alloc::{AllocError, Global};
use std::marker::Model;

/// A text that grows at its end: what is whole, and behind it what was begun and may be given up. (What is
/// told adds itself to one; only a [`Text`] holds one.)
///
/// Contracts see both.
#[derive(Drop)]
pub struct Draft {
    bytes: Vec<u8>,
    // How many of them are whole.
    whole: usize,
}

impl Model for Draft {
    ghost use Rattle.std.specs.Prelude.{◌≤◌, drop, length, take, vec_capacity};
    ghost use Rattle.cns_report.specs.Draft.{Drafted};

    ghost Value = { Drafted };

    ghost view = { λ d. record { whole = take d.whole d.bytes.items; begun = drop d.whole d.bytes.items; room = vec_capacity d.bytes } };

    ghost invariant = { λ d. d.whole ≤ length d.bytes.items };
}

impl Draft {
    /// Nothing. It takes no memory.
    pub(crate) fn new(alloc: Global) -> Draft
        ensures { result ≡ record { whole = []; begun = []; room = 0 } }
    {
        Draft {
            bytes: Vec::new(alloc),
            whole: 0,
        }
    }

    /// Gives up what was begun.
    pub(crate) fn begin(&mut self)
        ensures { self.new ≡ record { whole = self.old.whole; begun = []; room = self.old.room } }
    {
        self.bytes.truncate(self.whole);
    }

    /// Makes whole what was begun.
    pub(crate) fn end(&mut self)
        ensures { self.new ≡ record { whole = self.old.whole ++ self.old.begun; begun = []; room = self.old.room } }
    {
        self.whole = self.bytes.len();
    }

    /// Adds bytes to what is begun. Fails only where there is no room for them.
    pub(crate) fn add(&mut self, bytes: &[u8]) -> Result<(), AllocError>
        ensures whole { self.new.whole ≡ self.old.whole }
        ensures begun { OnOk result (self.new.begun ≡ self.old.begun ++ bytes.now) }
        ensures room { self.old.room ≤ self.new.room }
        ensures full { OnErr result (self.old.room < length self.old.whole + length self.old.begun + length bytes.now) }
    {
        self.bytes.extend_from_slice(bytes)
    }

    /// Adds a byte to what is begun. Fails only where there is no room for it.
    pub(crate) fn push(&mut self, byte: u8) -> Result<(), AllocError>
        ensures whole { self.new.whole ≡ self.old.whole }
        ensures begun { OnOk result (self.new.begun ≡ self.old.begun ++ byte ∷ []) }
        ensures room { self.old.room ≤ self.new.room }
        ensures full { OnErr result (self.old.room < length self.old.whole + length self.old.begun + 1) }
    {
        self.bytes.push(byte)?;
        Ok(())
    }

    /// The bytes that are whole.
    pub(crate) fn as_bytes(&self) -> &[u8]
        ensures { result.now ≡ self.now.whole }
    {
        &self.bytes[..self.whole]
    }

    /// Lets all bytes go, and keeps their memory.
    pub(crate) fn clear(&mut self)
        ensures { self.new ≡ record { whole = []; begun = []; room = self.old.room } }
    {
        self.bytes.clear();
        self.whole = 0;
    }
}

/// A text of lines. A line is added to it, or several at once, whole or not at all.
///
/// Contracts see its bytes, and for how many in all it has memory.
#[derive(Drop)]
pub struct Text {
    draft: Draft,
}

impl Model for Text {
    ghost use Rattle.cns_report.specs.Draft.{Written};

    ghost Value = { Written };

    ghost view = { λ t. record { text = t.draft.whole; room = t.draft.room } };
}

impl Text {
    /// An empty text. It takes no memory.
    pub fn new(alloc: Global) -> Text
        ensures { result ≡ record { text = []; room = 0 } }
    {
        Text {
            draft: Draft::new(alloc),
        }
    }

    /// Adds what is told, or nothing where memory is wanting: only where the text has no room for all of it.
    pub fn tell<T: Put>(&mut self, told: &T) -> Result<(), AllocError>
        ensures ok { OnOk result (self.new.text ≡ self.old.text ++ T.text told.now) }
        ensures err { OnErr result (self.new.text ≡ self.old.text) }
        ensures room { self.old.room ≤ self.new.room }
        ensures full { OnErr result (self.old.room < length self.old.text + length (T.text told.now)) }
    {
        self.draft.begin();
        told.put(&mut self.draft)?;
        self.draft.end();
        Ok(())
    }

    /// The bytes.
    pub fn as_bytes(&self) -> &[u8]
        ensures { result.now ≡ self.now.text }
    {
        self.draft.as_bytes()
    }

    /// How many bytes there are.
    pub fn len(&self) -> usize
        ensures { result ≡ length self.now.text }
    {
        self.as_bytes().len()
    }

    /// Whether there is no byte.
    pub fn is_empty(&self) -> bool
        ensures { result ≡ (length self.now.text == 0) }
    {
        self.len() == 0
    }

    /// Lets all bytes go, and keeps their memory.
    pub fn clear(&mut self)
        ensures { self.new ≡ record { text = []; room = self.old.room } }
    {
        self.draft.clear();
    }
}
