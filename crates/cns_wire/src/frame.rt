use cns_movements::{Order, REPLY_SIZE as REPLY_FIELDS_SIZE, Reply};
use thiserror::Error;

/// How many bytes the frame of a reply has.
pub const REPLY_SIZE: usize = HEADER_SIZE + REPLY_FIELDS_SIZE;

// A frame begins with the magic bytes, the version and the kind. Behind this header stand the fields of
// the order or the reply.
pub(crate) const MAGIC: [u8; 2] = *b"CD";

// The kinds of frames.
pub(crate) const COVER: u8 = 1;

pub(crate) const DELIVERY: u8 = 2;

pub(crate) const REPLY: u8 = 3;

// How many bytes the header has.
pub(crate) const HEADER_SIZE: usize = 4;

// Where its parts begin.
pub(crate) const VERSION_AT: usize = 2;

pub(crate) const KIND_AT: usize = 3;

/// What a frame says.
#[derive(Clone, Copy, PartialEq, Eq, Debug)]
pub enum Frame {
    /// An order, from the clearing system to the depository.
    Order(Order),
    /// A reply, from the depository to the clearing system.
    Reply(Reply),
}

/// Why bytes are no frame.
#[derive(Clone, Copy, PartialEq, Eq, Debug, Error)]
pub enum FrameFault {
    /// The bytes end within the frame.
    #[error("the frame is cut short")]
    Short,
    /// The bytes do not begin as a frame does.
    #[error("not a frame")]
    Magic,
    /// The frame's version is neither 1 nor 2.
    #[error("the frame's version is not known")]
    Version,
    /// The kind is neither that of an order nor, in version 1, that of a reply.
    #[error("the frame's kind is not known")]
    Kind,
    /// Bytes stand after the frame.
    #[error("bytes stand after the frame")]
    Long,
    /// A field holds no value of its type.
    #[error("a field of the frame is out of its range")]
    Field,
}
