ghost use Rattle.std.specs.Prelude.{◌≡◌, ◌≤◌, length, slice_index, IfErr, IfOk, Err, Ok};
ghost use Rattle.cns_wire.specs.Frame.{frame_text, IsInRange, IsFrame};
ghost use Rattle.cns_wire.specs.ReadFrame.{fields_of as fields_in, of_kind, order_in, reply_in, read_frame_of};

use crate::frame::{
    COVER, DELIVERY, Frame, FrameFault, HEADER_SIZE, KIND_AT, MAGIC, REPLY, VERSION_AT,
};
use cns_movements::{MoveKind, Order, REPLY_SIZE, Reply, Version};

// The fields of a frame: the bytes after its header, which are just so many.
fn fields_of(size: usize, bytes: &[u8]) -> Result<&[u8], FrameFault>
    requires { 4 ≤ length bytes.now }
    ensures fields { IfOk result (λ fields. fields_in size bytes.now ≡ Ok fields.now) }
    ensures size { IfOk result (λ fields. length fields.now ≡ size) }
    ensures fault { IfErr result (λ fault. fields_in size bytes.now ≡ Err fault) }
{
    let fields = &bytes[HEADER_SIZE..];
    if fields.len() < size {
        return Err(FrameFault::Short);
    }
    if fields.len() > size {
        return Err(FrameFault::Long);
    }
    Ok(fields)
}

// The order in a frame of this version and kind.
#[tactic(auto, unfolding(crate::specs::ReadFrame::order_in))]
fn read_order(version: Version, kind: MoveKind, bytes: &[u8]) -> Result<Order, FrameFault>
    requires { 4 ≤ length bytes.now }
    ensures { result ≡ order_in version kind bytes.now }
{
    let fields = fields_of(version.order_size(), bytes)?;
    match Order::from_bytes(version, kind, fields) {
        Some(order) => Ok(order),
        None => Err(FrameFault::Field),
    }
}

// The reply in a frame.
#[tactic(auto, unfolding(crate::specs::ReadFrame::reply_in))]
fn read_reply(bytes: &[u8]) -> Result<Reply, FrameFault>
    requires { 4 ≤ length bytes.now }
    ensures { result ≡ reply_in bytes.now }
{
    Reply::from_bytes(fields_of(REPLY_SIZE, bytes)?).ok_or(FrameFault::Field)
}

// The frame of this version that the bytes are.
fn frame_of(version: Version, bytes: &[u8]) -> Result<Frame, FrameFault>
    requires { 4 ≤ length bytes.now }
    ensures { result ≡ of_kind version (slice_index bytes.now 3) bytes.now }
{
    match (bytes[KIND_AT], version) {
        (COVER, _) => Ok(Frame::Order(read_order(version, MoveKind::Cover, bytes)?)),
        (DELIVERY, _) => Ok(Frame::Order(read_order(version, MoveKind::Delivery, bytes)?)),
        (REPLY, Version::One) => Ok(Frame::Reply(read_reply(bytes)?)),
        _ => Err(FrameFault::Kind),
    }
}

// What the bytes hold, or their first fault.
#[tactic(auto, unfolding(crate::specs::ReadFrame::read_frame_of))]
fn frame_in(bytes: &[u8]) -> Result<Frame, FrameFault>
    ensures { result ≡ read_frame_of bytes.now }
{
    if bytes.len() < HEADER_SIZE {
        return Err(FrameFault::Short);
    }
    if !bytes.starts_with(&MAGIC) {
        return Err(FrameFault::Magic);
    }
    let Some(version) = Version::of_byte(bytes[VERSION_AT]) else {
        return Err(FrameFault::Version);
    };
    frame_of(version, bytes)
}

/// Reads a frame of version 1 or 2, all of the bytes. (This project's own format.)
///
/// Refuses, in this order: `Short` with fewer than four bytes; `Magic`; `Version`; `Kind`, also of a
/// reply in version 2; `Short` with fewer bytes than a frame of its version and kind has, and `Long`
/// with more; `Field` where a number is not 1 to 1,000,000, a cycle's date not one of the years 1900
/// to 2199 or its kind neither 0 nor 1, a member not 1 to 9999, a CUSIP not well formed, the shares
/// asked not 1 to 10^18, or the shares moved above 10^18.
pub fn read_frame(bytes: &[u8]) -> Result<Frame, FrameFault>
    ensures exact { result ≡ read_frame_of bytes.now }

    // A frame has one spelling: what is read would be written as just these bytes, and the spelling
    // of each frame is read.
    ensures spelled { IfOk result (λ frame. frame_text frame ≡ bytes.now) }
    ensures in_range { IfOk result IsInRange }
    ensures only { (frame : Frame) → IsFrame bytes.now frame → result ≡ Ok frame }
{
    frame_in(bytes)
}
