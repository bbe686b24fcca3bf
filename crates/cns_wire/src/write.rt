ghost use Rattle.std.specs.Prelude.{◌≡◌, Ok};
ghost use Rattle.cns_wire.specs.Frame.{header as header_of, kind_byte as byte_of_kind, order_frame, reply_frame};
ghost use Rattle.cns_wire.specs.ReadFrame.{read_frame_of};
ghost use Rattle.cns_wire.specs.declared.frame.Frame.{Frame};

use crate::frame::{COVER, DELIVERY, HEADER_SIZE, MAGIC, REPLY, REPLY_SIZE};
use crate::frame_bytes::{FrameBytes, MAX_PACKET_SIZE};
use cns_movements::{MoveKind, Order, Reply, Version};

// The first four bytes of a frame of this version and kind.
fn header(version: Version, kind: u8) -> [u8; HEADER_SIZE]
    ensures { result ≡ header_of version kind }
{
    [MAGIC[0], MAGIC[1], version.byte(), kind]
}

fn kind_byte(kind: MoveKind) -> u8
    ensures { result ≡ byte_of_kind kind }
{
    match kind {
        MoveKind::Cover => COVER,
        MoveKind::Delivery => DELIVERY,
    }
}

/// The frame of an order. (This project's own format.)
///
/// Its 31 bytes, or 36, are `C` and `D`, the version (1 for an order without a cycle, 2 for one with
/// a cycle), the kind (1 for a cover, 2 for a delivery), the number (8 bytes), in version 2 the cycle
/// (its date in 4 bytes, and 0 for night or 1 for day), the member (2 bytes), the CUSIP (9 bytes) and
/// the shares asked (8 bytes). Takes no memory.
#[tactic(auto, unfolding(crate::specs::Frame::order_frame))]
pub fn write_order(order: &Order) -> FrameBytes
    ensures text { result ≡ order_frame order.now }
    ensures back { read_frame_of result ≡ Ok (Frame.Order order.now) }
{
    let version = order.version();
    let mut frame = [0; MAX_PACKET_SIZE];
    let frame = &mut frame[..HEADER_SIZE + version.order_size()];
    let (head, fields) = frame.split_at_mut(HEADER_SIZE);
    head.copy_from_slice(&header(version, kind_byte(order.kind)));
    order.write_bytes(fields);
    FrameBytes::new(frame)
}

/// The frame of a reply. (This project's own format.)
///
/// Its 20 bytes are `C` and `D`, the version 1, the kind 3, the number (8 bytes) and the shares
/// moved (8 bytes).
#[tactic(auto, unfolding(crate::specs::Frame::reply_frame))]
pub fn write_reply(reply: &Reply) -> [u8; REPLY_SIZE]
    ensures text { result ≡ reply_frame reply.now }
    ensures back { read_frame_of result ≡ Ok (Frame.Reply reply.now) }
{
    let mut frame = [0; REPLY_SIZE];
    frame[..HEADER_SIZE].copy_from_slice(&header(Version::One, REPLY));
    frame[HEADER_SIZE..].copy_from_slice(&reply.to_bytes());
    frame
}
