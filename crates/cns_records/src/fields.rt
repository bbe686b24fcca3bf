//! The fields of a payload: how each is taken from its front, and the payload that they are added to.
ghost use Rattle.std.specs.Prelude.{◌≡◌, ◌≤◌, ◌==◌, ◌++◌, Ok, Err, IfErr, IfOk, IsOk, OnOk, is_ok, length};
ghost use Rattle.std.specs.Int.{w16, w32, w64};
ghost use Rattle.std.specs.List.{flat_map};
ghost use Rattle.cns_records.specs.Fields.{Gives, byte_at, number_at, text_at, member_at, quantity_at, shares_at, asked_at, move_no_at, id_at, day_at, issue_at, one_of_at, flag_at, cycle_at, move_kind_at, order_at, reply_at};
ghost use Rattle.cns_records.specs.Drawn.{ticket_bytes, ticket_at, tickets_at, tickets_read, drawn_of, AnswersIfRoom};

use crate::bad_record::BadRecord;
use crate::drawn::{Drawn, DrawnList, MAX_DRAWN};
use cns_ids::{Cusip, CycleId, Day, MemberNo, Quantity, Shares};
use cns_journal::RecordFault;
use cns_movements::{
    Asked, CYCLE_SIZE, DAY_SIZE, MoveKind, MoveNo, Order, REPLY_SIZE, Reply, Version, read_cycle,
    read_day,
};
use cns_trades::TradeId;
use std::alloc::{AllocError, Global};
use std::marker::Model;

/// The version of the clearing node's payloads.
pub const VERSION: u8 = 1;

/// The bytes that stand for an order's kind.
pub const COVER_ORDER: u8 = 1;

pub const DELIVERY_ORDER: u8 = 2;

/// The characters of a CUSIP.
pub const CUSIP_LEN: usize = 9;

// As many bytes as a payload without tickets has at most: those of a trade with the longest id.
const MOST_PLAIN: usize = 44;

/// Adds the first bytes of a payload, and takes the room that one without tickets needs.
pub fn begin(payload: &mut Vec<u8>, front: &[u8]) -> Result<(), AllocError>
    ensures { OnOk result (payload.new.items ≡ payload.old.items ++ front.now) }
{
    payload.reserve(MOST_PLAIN)?;
    payload.extend_from_slice(front)
}

// Adds a ticket's bytes: its member (2), its start (8) and how many shares it has (8).
fn add_ticket(bytes: &mut Vec<u8>, ticket: &Drawn) -> Result<(), AllocError>
    ensures { OnOk result (bytes.new.items ≡ bytes.old.items ++ ticket_bytes ticket.now) }
{
    bytes.extend_from_slice(&ticket.member.number().to_be_bytes())?;
    bytes.extend_from_slice(&ticket.start.count().to_be_bytes())?;
    bytes.extend_from_slice(&ticket.asked.shares().to_be_bytes())?;
    Ok(())
}

/// Adds the bytes of tickets, one after the other.
pub fn add_tickets(bytes: &mut Vec<u8>, tickets: &[Drawn]) -> Result<(), AllocError>
    ensures { OnOk result (bytes.new.items ≡ bytes.old.items ++ flat_map ticket_bytes tickets.now) }
{
    for ticket in tickets {
        add_ticket(bytes, ticket)?;
    }
    Ok(())
}

/// The bytes of a payload that are not read yet. Each call takes one field from their front.
///
/// Contracts see these bytes. After a refusal they are of no use.
#[derive(Drop)]
pub struct Fields<'a> {
    bytes: &'a [u8],
}

impl<'a> Model for Fields<'a> {
    ghost use Rattle.std.specs.Prelude.{List, ℕ};

    ghost Value = { List ℕ };

    ghost view = { λ f. f.bytes.now };
}

impl<'a> Fields<'a> {
    /// The fields that these bytes hold.
    pub fn new(bytes: &'a [u8]) -> Self
        ensures { result ≡ bytes.now }
    {
        Fields { bytes }
    }

    /// Whether all bytes are read.
    pub fn is_at_end(&self) -> bool
        ensures { result ≡ (length self.now == 0) }
    {
        self.bytes.is_empty()
    }

    #[tactic(auto, unfolding(crate::specs::Fields::byte_at))]
    fn take_u8(&mut self) -> Result<u8, BadRecord>
        ensures { Gives result self.new (byte_at self.old) }
    {
        let [byte, rest @ ..] = self.bytes else {
            return Err(BadRecord);
        };
        self.bytes = rest;
        Ok(*byte)
    }

    // The next `N` bytes.
    #[tactic(auto, unfolding(crate::specs::Fields::text_at))]
    fn take_array<const N: usize>(&mut self) -> Result<[u8; N], BadRecord>
        ensures { Gives result self.new (text_at N self.old) }
    {
        let Some((front, rest)) = self.bytes.split_first_chunk::<N>() else {
            return Err(BadRecord);
        };
        self.bytes = rest;
        Ok(*front)
    }

    // So many of the next bytes.
    #[tactic(auto, unfolding(crate::specs::Fields::text_at))]
    fn take_bytes(&mut self, len: usize) -> Result<&'a [u8], BadRecord>
        ensures bytes { IfOk result (λ text. text_at len self.old ≡ Ok (text.now, self.new)) }
        ensures len { IfOk result (λ text. length text.now ≡ len) }
        ensures bad { IfErr result (λ fault. text_at len self.old ≡ Err fault) }
    {
        if self.bytes.len() < len {
            return Err(BadRecord);
        }
        let (text, rest) = self.bytes.split_at(len);
        self.bytes = rest;
        Ok(text)
    }

    #[tactic(auto, unfolding(crate::specs::Fields::number_at))]
    fn take_u16(&mut self) -> Result<u16, BadRecord>
        ensures { Gives result self.new (number_at w16 self.old) }
    {
        Ok(u16::from_be_bytes(self.take_array()?))
    }

    #[tactic(auto, unfolding(crate::specs::Fields::number_at))]
    fn take_u32(&mut self) -> Result<u32, BadRecord>
        ensures { Gives result self.new (number_at w32 self.old) }
    {
        Ok(u32::from_be_bytes(self.take_array()?))
    }

    /// A number: 8 bytes.
    #[tactic(auto, unfolding(crate::specs::Fields::number_at))]
    pub fn take_u64(&mut self) -> Result<u64, BadRecord>
        ensures { Gives result self.new (number_at w64 self.old) }
    {
        Ok(u64::from_be_bytes(self.take_array()?))
    }

    /// A member's number: 2 bytes.
    #[tactic(auto, unfolding(crate::specs::Fields::member_at))]
    pub fn take_member(&mut self) -> Result<MemberNo, BadRecord>
        ensures { Gives result self.new (member_at self.old) }
    {
        MemberNo::new(self.take_u16()?).ok_or(BadRecord)
    }

    /// A trade's quantity: 8 bytes.
    #[tactic(auto, unfolding(crate::specs::Fields::quantity_at))]
    pub fn take_quantity(&mut self) -> Result<Quantity, BadRecord>
        ensures { Gives result self.new (quantity_at self.old) }
    {
        Quantity::new(self.take_u64()?).ok_or(BadRecord)
    }

    /// A count of shares: 8 bytes.
    #[tactic(auto, unfolding(crate::specs::Fields::shares_at))]
    pub fn take_shares(&mut self) -> Result<Shares, BadRecord>
        ensures { Gives result self.new (shares_at self.old) }
    {
        Shares::new(self.take_u64()?).ok_or(BadRecord)
    }

    /// A movement's number, or an instruction's: 8 bytes.
    #[tactic(auto, unfolding(crate::specs::Fields::move_no_at))]
    pub fn take_move_no(&mut self) -> Result<MoveNo, BadRecord>
        ensures { Gives result self.new (move_no_at self.old) }
    {
        MoveNo::new(self.take_u64()?).ok_or(BadRecord)
    }

    /// The shares that are asked for: 8 bytes.
    #[tactic(auto, unfolding(crate::specs::Fields::asked_at))]
    pub fn take_asked(&mut self) -> Result<Asked, BadRecord>
        ensures { Gives result self.new (asked_at self.old) }
    {
        Asked::new(self.take_u64()?).ok_or(BadRecord)
    }

    /// A trade's id: its length in one byte, and its characters.
    #[tactic(auto, unfolding(crate::specs::Fields::id_at))]
    pub fn take_id(&mut self) -> Result<TradeId, BadRecord>
        ensures { Gives result self.new (id_at self.old) }
    {
        let len = usize::from(self.take_u8()?);
        let text = self.take_bytes(len)?;
        TradeId::read(text).map_err(|_| BadRecord)
    }

    /// A date: the year in 2 bytes, the month and the day in 1 each.
    #[tactic(auto, unfolding(crate::specs::Fields::day_at))]
    pub fn take_day(&mut self) -> Result<Day, BadRecord>
        ensures { Gives result self.new (day_at self.old) }
    {
        read_day(&self.take_array::<DAY_SIZE>()?).ok_or(BadRecord)
    }

    /// A cycle: its date in 4 bytes, and 0 for night or 1 for day.
    #[tactic(auto, unfolding(crate::specs::Fields::cycle_at))]
    pub fn take_cycle(&mut self) -> Result<CycleId, BadRecord>
        ensures { Gives result self.new (cycle_at self.old) }
    {
        read_cycle(&self.take_array::<CYCLE_SIZE>()?).ok_or(BadRecord)
    }

    /// An issue's CUSIP: its 9 characters.
    #[tactic(auto, unfolding(crate::specs::Fields::issue_at))]
    pub fn take_issue(&mut self) -> Result<Cusip, BadRecord>
        ensures { Gives result self.new (issue_at self.old) }
    {
        let text = self.take_array::<CUSIP_LEN>()?;
        Cusip::read(&text).map_err(|_| BadRecord)
    }

    /// One of two values, by the byte that stands for it.
    pub fn take_one_of<T: Copy>(&mut self, a: (u8, T), b: (u8, T)) -> Result<T, BadRecord>
        ensures { Gives result self.new (one_of_at a.0 a.1 b.0 b.1 self.old) }
    {
        let byte = self.take_u8()?;
        if byte == a.0 {
            Ok(a.1)
        } else if byte == b.0 {
            Ok(b.1)
        } else {
            Err(BadRecord)
        }
    }

    /// Yes or no: a byte 1 or 0.
    #[tactic(auto, unfolding(crate::specs::Fields::flag_at))]
    pub fn take_flag(&mut self) -> Result<bool, BadRecord>
        ensures { Gives result self.new (flag_at self.old) }
    {
        self.take_one_of((0, false), (1, true))
    }

    // An order's kind: a byte, 1 for a cover and 2 for a delivery.
    #[tactic(auto, unfolding(crate::specs::Fields::move_kind_at))]
    fn take_move_kind(&mut self) -> Result<MoveKind, BadRecord>
        ensures { Gives result self.new (move_kind_at self.old) }
    {
        self.take_one_of(
            (COVER_ORDER, MoveKind::Cover),
            (DELIVERY_ORDER, MoveKind::Delivery),
        )
    }

    /// An order of this version: its kind in a byte, and its other fields.
    #[tactic(auto, unfolding(crate::specs::Fields::order_at))]
    pub fn take_order(&mut self, version: Version) -> Result<Order, BadRecord>
        ensures { Gives result self.new (order_at version self.old) }
    {
        let kind = self.take_move_kind()?;
        let fields = self.take_bytes(version.order_size())?;
        match Order::from_bytes(version, kind, fields) {
            Some(order) => Ok(order),
            None => Err(BadRecord),
        }
    }

    /// A reply: its fields.
    #[tactic(auto, unfolding(crate::specs::Fields::reply_at))]
    pub fn take_reply(&mut self) -> Result<Reply, BadRecord>
        ensures { Gives result self.new (reply_at self.old) }
    {
        Reply::from_bytes(&self.take_array::<REPLY_SIZE>()?).ok_or(BadRecord)
    }

    // A ticket: its member (2), its start (8) and how many shares it has (8).
    #[tactic(auto, unfolding(crate::specs::Drawn::ticket_at))]
    fn take_ticket(&mut self) -> Result<Drawn, BadRecord>
        ensures { Gives result self.new (ticket_at self.old) }
    {
        Ok(Drawn {
            member: self.take_member()?,
            start: self.take_shares()?,
            asked: self.take_asked()?,
        })
    }

    // Whether the bytes are so many tickets, by their starts. Takes no memory.
    fn are_tickets(&self, count: usize) -> bool
        ensures { result ≡ is_ok (tickets_read count self.now) }
    {
        let mut rest = Fields::new(self.bytes);
        let mut low = 0;
        for _ in 0..count {
            let Ok(ticket) = rest.take_ticket() else {
                return false;
            };
            let start = ticket.start.count();
            if start < low {
                return false;
            }
            low = start;
        }
        rest.is_at_end()
    }

    // So many tickets.
    fn take_tickets(&mut self, alloc: Global, count: usize) -> Result<Vec<Drawn>, AllocError>
        requires few { count ≤ 9999 }
        requires there { IsOk (tickets_at count self.old) }
        ensures reads { IfOk result (λ tickets. tickets_at count self.old ≡ Ok (tickets.items, self.new)) }
        ensures len { IfOk result (λ tickets. length tickets.items ≡ count) }
    {
        let mut tickets = Vec::with_capacity(alloc, count)?;
        for _ in 0..count {
            let Ok(ticket) = self.take_ticket() else {
                unreachable!()
            };
            tickets.push_reserved(ticket);
        }
        Ok(tickets)
    }

    /// The tickets that the bytes are: how many they are in 4 bytes, at most 9,999, and each in 18, by
    /// their starts. Takes memory only where the bytes are such tickets.
    #[tactic(auto, unfolding(crate::specs::Drawn::drawn_of))]
    pub fn into_drawn(mut self, alloc: Global) -> Result<DrawnList, RecordFault>
        ensures { AnswersIfRoom result (drawn_of self.entry) }
    {
        let count = self.take_u32()? as usize;
        if count > MAX_DRAWN || !self.are_tickets(count) {
            return Err(RecordFault::BadRecord);
        }
        let tickets = self.take_tickets(alloc, count)?;
        Ok(DrawnList::new(tickets))
    }
}
