ghost use Rattle.std.specs.Prelude.{◌≡◌, ◌+◌, ◌<◌, ◌≤◌, ◌↔◌, [], ◌∷◌, ◌++◌, length, option_map, IfOk, OnOk, OnErr, IsOk, IsTrue};
ghost use Rattle.cns_wire.specs.Packet.{at_number};

use crate::frame_bytes::FrameBytes;
use std::alloc::{AllocError, Global};
use std::marker::Model;

/// One direction of the link: the packets that were ever put on it, in their order. Nothing is ever
/// taken out.
///
/// Contracts see the packets with the oldest first, and how many more there is room for.
#[derive(Drop)]
pub struct Wire {
    packets: Vec<FrameBytes>,
}

impl Model for Wire {
    ghost use Rattle.std.specs.Prelude.{◌-◌, length, vec_capacity};
    ghost use Rattle.cns_wire.specs.Packet.{PacketRoom};

    ghost Value = { PacketRoom };

    ghost view = { λ a. record {
      packets = a.packets.items;
      room = vec_capacity a.packets - length a.packets.items;
    } };
}

impl Wire {
    /// A direction with no packets, and with room for none.
    pub fn new(alloc: Global) -> Wire
        ensures packets { result.packets ≡ [] }
        ensures room { result.room ≡ 0 }
    {
        Wire {
            packets: Vec::new(alloc),
        }
    }

    /// Puts a frame of at most 36 bytes as the next packet, and answers the packet's number, counted
    /// from 1. Where there is no memory, nothing changes.
    pub fn put(&mut self, frame: &[u8]) -> Result<u64, AllocError>
        requires { length frame.now ≤ 36 }
        ensures number { IfOk result (λ number. number ≡ length self.new.packets) }
        ensures ok { OnOk result (self.new.packets ≡ self.old.packets ++ frame.now ∷ []) }

        // Refused only where room is missing.
        ensures err { OnErr result (self.new.packets ≡ self.old.packets) }
        ensures room { 0 < self.old.room → IsOk result }
        ensures left { self.old.room ≤ self.new.room + 1 }
    {
        self.packets.push(FrameBytes::new(frame))?;
        Ok(self.packets.len() as u64)
    }

    /// Takes the memory that `put` needs for the next frame, whatever its size.
    pub fn put_room(&mut self) -> Result<(), AllocError>
        ensures same { self.new.packets ≡ self.old.packets }
        ensures room { OnOk result (0 < self.new.room) }
        ensures err { OnErr result (self.old.room ≡ 0) }
        ensures left { self.old.room ≤ self.new.room }
    {
        self.packets.reserve(1)
    }

    /// The packet of this number, counted from 1; none at 0 and past the last one.
    pub fn packet(&self, number: u64) -> Option<&[u8]>
        ensures { option_map (λ bytes. bytes.now) result ≡ at_number self.now.packets number }
    {
        let place = number.checked_sub(1)?;
        self.packets.get(place as usize).map(FrameBytes::as_bytes)
    }

    /// How many packets there are.
    pub fn len(&self) -> u64
        ensures { result ≡ length self.now.packets }
    {
        self.packets.len() as u64
    }

    /// Whether there are no packets.
    pub fn is_empty(&self) -> bool
        ensures { IsTrue result ↔ (self.now.packets ≡ []) }
    {
        self.packets.is_empty()
    }
}
