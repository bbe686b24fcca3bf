//! The link between the two systems: movement orders and replies as frames of bytes, and the
//! packets that carry them.
#![tactic(auto)]

mod frame;
mod frame_bytes;
mod read;
mod wire;
mod write;

pub use frame::{Frame, FrameFault, REPLY_SIZE};
pub use frame_bytes::{FrameBytes, MAX_PACKET_SIZE};
pub use read::read_frame;
pub use wire::Wire;
pub use write::{write_order, write_reply};
