ghost use Rattle.std.specs.Prelude.{◌+◌, ◌<◌, ◌≤◌, length};

use crate::common::{assert_prints, assert_same, order_in_cycle, order_of, reply_of};
use cns_ids::CycleKind;
use cns_movements::{MoveKind, Order};
use cns_wire::{Frame, FrameFault, Wire, read_frame, write_order, write_reply};
use std::alloc::AllocError;
use std::process::Abort;

// Cover 7 of member 1: 60 shares of 037833100.
const ORDER: [u8; 31] =
    *b"CD\x01\x01\x00\x00\x00\x00\x00\x00\x00\x07\x00\x01037833100\x00\x00\x00\x00\x00\x00\x00\x3c";

// The same with the night cycle of 4 March 2025.
const ORDER_2: [u8; 36] =
    *b"CD\x02\x01\x00\x00\x00\x00\x00\x00\x00\x07\x07\xe9\x03\x04\x00\x00\x01037833100\x00\x00\x00\x00\x00\x00\x00\x3c";

// Order 7 moved 20 shares.
const REPLY: [u8; 20] =
    *b"CD\x01\x03\x00\x00\x00\x00\x00\x00\x00\x07\x00\x00\x00\x00\x00\x00\x00\x14";

fn assert_order(rt: &impl Abort, order: &Order, frame: &[u8]) {
    assert_same(rt, &write_order(order).as_bytes(), &frame);
    assert_same(rt, &read_frame(frame), &Ok(Frame::Order(*order)));
}

#[test]
fn orders_and_replies(rt: HostRuntime) {
    assert_order(&rt, &order_of(&rt, 7, (MoveKind::Cover, 1, 60)), &ORDER);
    let delivery = order_of(&rt, 7, (MoveKind::Delivery, 1, 60));
    assert_order(&rt, &delivery, &changed(3, b"\x02"));
    let asking = (MoveKind::Cover, 1, 60);
    let night = order_in_cycle(&rt, 7, asking, CycleKind::Night);
    assert_order(&rt, &night, &ORDER_2);
    let day = order_in_cycle(&rt, 7, asking, CycleKind::Day);
    assert_order(&rt, &day, &changed_2(16, 1));
    let reply = reply_of(&rt, 7, 20);
    assert_same(&rt, &write_reply(&reply), &REPLY);
    assert_same(&rt, &read_frame(&REPLY), &Ok(Frame::Reply(reply)));
}

// The order's frame with other bytes from a place on.
fn changed(at: usize, bytes: &[u8]) -> [u8; 31]
    requires { at + length bytes.now ≤ 31 }
{
    let mut frame = ORDER;
    frame[at..at + bytes.len()].copy_from_slice(bytes);
    frame
}

// The frame of the order with a cycle, with another byte in this place.
fn changed_2(at: usize, byte: u8) -> [u8; 36]
    requires { at < 36 }
{
    let mut frame = ORDER_2;
    frame[at] = byte;
    frame
}

// A byte in another place of that frame, and the fault that it makes.
static CHANGES_2: [(usize, u8, FrameFault); 7] = [
    (2, 0, FrameFault::Version),
    (2, 1, FrameFault::Long),
    (2, 3, FrameFault::Version),
    (3, 3, FrameFault::Kind),
    (12, 0, FrameFault::Field),
    (15, 32, FrameFault::Field),
    (16, 2, FrameFault::Field),
];

#[test]
fn faults_of_frames_with_a_cycle(rt: HostRuntime) {
    for (at, byte, fault) in &CHANGES_2 {
        if *at < 36 {
            assert_fault(&rt, &changed_2(*at, *byte), *fault);
        }
    }
    // A frame that says that it has a cycle, and has none.
    assert_fault(&rt, &changed(2, b"\x02"), FrameFault::Short);
    assert_prefixes(&rt, &ORDER_2);
}

// Bytes in another place of the order's frame, and the fault that they make.
static CHANGES: [(usize, &[u8], FrameFault); 6] = [
    (2, b"\x09", FrameFault::Version),
    (3, b"\x04", FrameFault::Kind),
    (11, b"\x00", FrameFault::Field),
    (12, b"\x27\x10", FrameFault::Field),
    (22, b"\x31", FrameFault::Field),
    (30, b"\x00", FrameFault::Field),
];

// The frame of a reply with one share more than there may be, and one byte behind that of the order.
const ABOVE: &[u8] = b"CD\x01\x03\x00\x00\x00\x00\x00\x00\x00\x07\x0d\xe0\xb6\xb3\xa7\x64\x00\x01";

const LONGER: &[u8] =
    b"CD\x01\x01\x00\x00\x00\x00\x00\x00\x00\x07\x00\x01037833100\x00\x00\x00\x00\x00\x00\x00\x3c\x00";

static FAULTS: [(&[u8], FrameFault); 9] = [
    (b"", FrameFault::Short),
    (b"CD\x01", FrameFault::Short),
    (b"XD\x01\x01", FrameFault::Magic),
    (b"XD\x09\x04", FrameFault::Magic),
    (b"CD\x09\x04", FrameFault::Version),
    (b"CD\x01\x04", FrameFault::Kind),
    (b"CD\x01\x01", FrameFault::Short),
    (LONGER, FrameFault::Long),
    (ABOVE, FrameFault::Field),
];

fn assert_fault(rt: &impl Abort, frame: &[u8], fault: FrameFault) {
    assert_same(rt, &read_frame(frame), &Err(fault));
}

#[test]
fn faults_of_frames(rt: HostRuntime) {
    for (at, bytes, fault) in &CHANGES {
        if *at <= 31 && bytes.len() <= 31 - *at {
            assert_fault(&rt, &changed(*at, bytes), *fault);
        }
    }
    for (frame, fault) in &FAULTS {
        assert_fault(&rt, frame, *fault);
    }
    assert_prints(
        &rt,
        rt.alloc(),
        &FrameFault::Long,
        "bytes stand after the frame",
    );
}

// Each part of a frame from its first byte on is too short.
fn assert_prefixes(rt: &impl Abort, frame: &[u8]) {
    for size in 0..frame.len() {
        assert_fault(rt, &frame[..size], FrameFault::Short);
    }
}

#[test]
fn each_prefix_is_short(rt: HostRuntime) {
    assert_prefixes(&rt, &ORDER);
    assert_prefixes(&rt, &REPLY);
}

// Whether these bytes are no frame, or are written again as they are.
fn is_refused_or_spelled(bytes: &[u8]) -> bool {
    match read_frame(bytes) {
        Ok(Frame::Order(order)) => write_order(&order).as_bytes() == bytes,
        Ok(Frame::Reply(reply)) => write_reply(&reply).as_slice() == bytes,
        Err(_) => true,
    }
}

#[test]
fn each_changed_byte(rt: HostRuntime) {
    for byte in 0..=u8::MAX {
        for at in 0..31 {
            let mut frame = ORDER;
            frame[at] = byte;
            assert!(rt; is_refused_or_spelled(&frame));
        }
        for at in 0..36 {
            assert!(rt; is_refused_or_spelled(&changed_2(at, byte)));
        }
        for at in 0..20 {
            let mut frame = REPLY;
            frame[at] = byte;
            assert!(rt; is_refused_or_spelled(&frame));
        }
    }
}

const PACKETS: [&[u8]; 4] = [&ORDER, &REPLY, &[9; 36], b""];

fn put_all(wire: &mut Wire, packets: &[&[u8]]) -> Result<bool, AllocError> {
    wire.put_room()?;
    for (place, packet) in packets.iter().enumerate() {
        if packet.len() > 36 || wire.put(packet)? != (place as u64).saturating_add(1) {
            return Ok(false);
        }
    }
    Ok(true)
}

#[test]
fn packets_in_order(rt: HostRuntime) {
    let mut wire = Wire::new(rt.alloc());
    assert!(rt; wire.is_empty() && wire.packet(1).is_none());
    assert_same(&rt, &put_all(&mut wire, &PACKETS), &Ok(true));
    assert!(rt; wire.len() == 4 && !wire.is_empty());
    for (place, packet) in PACKETS.iter().enumerate() {
        assert_same(&rt, &wire.packet(place as u64 + 1), &Some(*packet));
    }
    for number in [0, 5, u64::MAX] {
        assert!(rt; wire.packet(number).is_none());
    }
    drop(wire);
}
