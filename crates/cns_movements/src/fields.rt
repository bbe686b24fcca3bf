//! The fields of an order, and of a reply, as bytes: what a frame and a journal's payload have in common.
//! Numbers stand with their highest byte first. (This project's own format.)
ghost use Rattle.std.specs.Prelude.{◌≡◌, length, IfSome, Some};
ghost use Rattle.std.specs.Int.{from_be_bytes, w16, w64};
ghost use Rattle.cns_ids.specs.Day.{IsDayNumber};
ghost use Rattle.cns_movements.specs.Fields.{cycle_byte as byte_of_cycle, cycle_bytes as bytes_of_cycle, cycle_in as read_cycle_in, cycle_kind_of, cycle_part, cycle_size, day_bytes as bytes_of_day, order_bytes, order_size, read_cycle as read_cycle_of, read_day as read_day_of, read_order, read_reply, reply_bytes, version_of, version_with};
ghost use Rattle.cns_movements.specs.Ranges.{IsOrderInRange, IsReplyInRange};

use crate::asked::Asked;
use crate::number::MoveNo;
use crate::order::{MoveKind, Order, Reply};
use crate::version::Version;
use cns_ids::{Cusip, CycleId, CycleKind, Day, MemberNo, Shares};

/// How many bytes a date has.
pub const DAY_SIZE: usize = 4;

/// How many bytes a cycle has: its date, and its kind in one.
pub const CYCLE_SIZE: usize = 5;

/// How many bytes the fields of an order without a cycle have.
pub const MIN_ORDER_SIZE: usize = 27;

/// How many bytes the fields of an order have at most.
pub const MAX_ORDER_SIZE: usize = MIN_ORDER_SIZE + CYCLE_SIZE;

/// How many bytes the fields of a reply have.
pub const REPLY_SIZE: usize = 16;

// How many bytes a number has.
const NUMBER_SIZE: usize = 8;

// Where the fields behind an order's member begin, counted from the member on.
const ISSUE_AT: usize = 2;

const ASKED_AT: usize = 11;

// The bytes that stand for a cycle's kind.
const NIGHT: u8 = 0;

const DAY: u8 = 1;

// Eight bytes as one number.
fn u64_of(bytes: &[u8]) -> u64
    requires { length bytes.now ≡ 8 }
    ensures { result ≡ from_be_bytes w64 bytes.now }
{
    u64::from_be_bytes([
        bytes[0], bytes[1], bytes[2], bytes[3], bytes[4], bytes[5], bytes[6], bytes[7],
    ])
}

// Two bytes as one number.
fn u16_of(bytes: &[u8]) -> u16
    requires { length bytes.now ≡ 2 }
    ensures { result ≡ from_be_bytes w16 bytes.now }
{
    u16::from_be_bytes([bytes[0], bytes[1]])
}

/// A date: the year in 2 bytes, the month and the day in 1 each.
#[tactic(auto, unfolding(crate::specs::Fields::read_day))]
pub fn day_bytes(day: Day) -> [u8; DAY_SIZE]
    ensures bytes { result ≡ bytes_of_day day }
    ensures real { IsDayNumber day }

    // What was written is read back.
    ensures back { read_day_of result ≡ Some day }
{
    let number = day.number();
    let [high, low] = ((number / 10_000) as u16).to_be_bytes();
    [high, low, (number / 100 % 100) as u8, (number % 100) as u8]
}

/// The date that 4 bytes are; none where the calendar has it not, or its year is not 1900 to 2199.
#[tactic(auto, unfolding(crate::specs::Fields::read_day))]
pub fn read_day(bytes: &[u8]) -> Option<Day>
    requires { length bytes.now ≡ 4 }
    ensures exact { result ≡ read_day_of bytes.now }

    // What is read is spelled by just these bytes.
    ensures spelled { IfSome result (λ day. bytes_of_day day ≡ bytes.now) }
    ensures real { IfSome result IsDayNumber }
{
    let year = u16_of(&bytes[..2]);
    let month = bytes[2];
    let day = bytes[3];
    if month > 12 || day > 31 {
        return None;
    }
    Day::new(year, month, day).ok()
}

fn cycle_byte(kind: CycleKind) -> u8
    ensures { result ≡ byte_of_cycle kind }
{
    match kind {
        CycleKind::Night => NIGHT,
        CycleKind::Day => DAY,
    }
}

fn cycle_kind(byte: u8) -> Option<CycleKind>
    ensures { result ≡ cycle_kind_of byte }
{
    match byte {
        NIGHT => Some(CycleKind::Night),
        DAY => Some(CycleKind::Day),
        _ => None,
    }
}

/// A cycle: its date, and 0 for night or 1 for day.
pub fn cycle_bytes(id: CycleId) -> [u8; CYCLE_SIZE]
    ensures bytes { result ≡ bytes_of_cycle id }
    ensures real { IsDayNumber id.day }

    // What was written is read back.
    ensures back { read_cycle_of result ≡ Some id }
{
    let [high, low, month, day] = day_bytes(id.day);
    [high, low, month, day, cycle_byte(id.kind)]
}

/// The cycle that 5 bytes are; none where the first four are no date, or the last is neither 0 nor 1.
#[tactic(auto, unfolding(crate::specs::Fields::read_cycle))]
pub fn read_cycle(bytes: &[u8]) -> Option<CycleId>
    requires { length bytes.now ≡ 5 }
    ensures exact { result ≡ read_cycle_of bytes.now }

    // What is read is spelled by just these bytes.
    ensures spelled { IfSome result (λ id. bytes_of_cycle id ≡ bytes.now) }
    ensures real { IfSome result (λ id. IsDayNumber id.day) }
{
    let day = read_day(&bytes[..DAY_SIZE])?;
    let kind = cycle_kind(bytes[DAY_SIZE])?;
    Some(CycleId { day, kind })
}

// Writes an order's cycle, where it has one.
fn write_cycle(cycle: Option<CycleId>, bytes: &mut [u8])
    requires { length bytes.old ≡ cycle_size (version_with cycle) }
    ensures text { bytes.new ≡ cycle_part cycle }
    ensures real { IfSome cycle (λ id. IsDayNumber id.day) }
{
    if let Some(id) = cycle {
        bytes.copy_from_slice(&cycle_bytes(id));
    }
}

// The cycle of an order of this version, by the bytes that stand for it.
fn cycle_in(version: Version, bytes: &[u8]) -> Option<Option<CycleId>>
    requires { length bytes.now ≡ cycle_size version }
    ensures { result ≡ read_cycle_in version bytes.now }
{
    match version {
        Version::One => Some(None),
        Version::Two => Some(Some(read_cycle(bytes)?)),
    }
}

// The order of this version and kind whose other fields these bytes are.
#[tactic(auto, unfolding(crate::specs::Fields::read_order))]
fn order_in(version: Version, kind: MoveKind, bytes: &[u8]) -> Option<Order>
    requires { length bytes.now ≡ order_size version }
    ensures { result ≡ read_order version kind bytes.now }
{
    let behind = NUMBER_SIZE + version.cycle_size();
    let rest = &bytes[behind..];
    let number = u64_of(&bytes[..NUMBER_SIZE]);
    let member = u16_of(&rest[..ISSUE_AT]);
    let asked = u64_of(&rest[ASKED_AT..]);
    let Ok(issue) = Cusip::read(&rest[ISSUE_AT..ASKED_AT]) else {
        return None;
    };
    Some(Order {
        number: MoveNo::new(number)?,
        cycle: cycle_in(version, &bytes[NUMBER_SIZE..behind])?,
        kind,
        member: MemberNo::new(member)?,
        issue,
        asked: Asked::new(asked)?,
    })
}

impl Order {
    /// Writes its fields but the kind: the number (8 bytes), the cycle where it has one (5), the member
    /// (2), the CUSIP (9) and the shares asked (8). The bytes are just as many as these are.
    #[tactic(auto, unfolding(crate::specs::Fields::order_bytes))]
    pub fn write_bytes(&self, bytes: &mut [u8])
        requires { length bytes.old ≡ order_size (version_of self.now) }
        ensures text { bytes.new ≡ order_bytes self.now }
        ensures ranges { IsOrderInRange self.now }

        // What was written is read back.
        ensures back { read_order (version_of self.now) self.now.kind bytes.new ≡ Some self.now }
    {
        let (number, rest) = bytes.split_at_mut(NUMBER_SIZE);
        let (cycle, rest) = rest.split_at_mut(self.version().cycle_size());
        let (member, rest) = rest.split_at_mut(ISSUE_AT);
        let (issue, asked) = rest.split_at_mut(ASKED_AT - ISSUE_AT);
        number.copy_from_slice(&self.number.number().to_be_bytes());
        write_cycle(self.cycle, cycle);
        member.copy_from_slice(&self.member.number().to_be_bytes());
        issue.copy_from_slice(&self.issue.to_bytes());
        asked.copy_from_slice(&self.asked.shares().to_be_bytes());
    }

    /// The order of this version and kind whose other fields these bytes are: 27 in the first version,
    /// 32 in the second. None where a number is not 1 to 1,000,000, a cycle's date not one of the years
    /// 1900 to 2199 or its kind neither 0 nor 1, a member not 1 to 9999, a CUSIP not well formed, or the
    /// shares asked not 1 to 10^18.
    pub fn from_bytes(version: Version, kind: MoveKind, bytes: &[u8]) -> Option<Order>
        requires { length bytes.now ≡ order_size version }
        ensures exact { result ≡ read_order version kind bytes.now }

        // What is read is spelled by just these bytes.
        ensures spelled { IfSome result (λ order. order_bytes order ≡ bytes.now) }
        ensures version { IfSome result (λ order. version_of order ≡ version) }
        ensures ranges { IfSome result IsOrderInRange }
    {
        order_in(version, kind, bytes)
    }
}

impl Reply {
    /// Its fields: the number (8 bytes) and the shares moved (8).
    #[tactic(auto, unfolding(crate::specs::Fields::reply_bytes))]
    pub fn to_bytes(&self) -> [u8; REPLY_SIZE]
        ensures text { result ≡ reply_bytes self.now }
        ensures ranges { IsReplyInRange self.now }

        // What was written is read back.
        ensures back { read_reply result ≡ Some self.now }
    {
        let number = self.number.number();
        let moved = self.moved.count();
        let mut bytes = [0; REPLY_SIZE];
        bytes[..NUMBER_SIZE].copy_from_slice(&number.to_be_bytes());
        bytes[NUMBER_SIZE..].copy_from_slice(&moved.to_be_bytes());
        bytes
    }

    /// The reply whose fields these 16 bytes are; none where the number is not 1 to 1,000,000 or the
    /// shares moved are above 10^18.
    #[tactic(auto, unfolding(crate::specs::Fields::read_reply))]
    pub fn from_bytes(bytes: &[u8]) -> Option<Reply>
        requires { length bytes.now ≡ 16 }
        ensures exact { result ≡ read_reply bytes.now }

        // What is read is spelled by just these bytes.
        ensures spelled { IfSome result (λ reply. reply_bytes reply ≡ bytes.now) }
        ensures ranges { IfSome result IsReplyInRange }
    {
        let number = u64_of(&bytes[..NUMBER_SIZE]);
        let moved = u64_of(&bytes[NUMBER_SIZE..]);
        Some(Reply {
            number: MoveNo::new(number)?,
            moved: Shares::new(moved)?,
        })
    }
}
