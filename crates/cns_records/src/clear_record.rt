ghost use Rattle.std.specs.Prelude.{◌≡◌, ◌≤◌, ◌∷◌, ◌++◌, length, IfOk, OnOk};
ghost use Rattle.std.specs.Int.{w16, w64, to_be_bytes};
ghost use Rattle.cns_ids.specs.Cusip.{IsCusip, cusip_text};
ghost use Rattle.cns_ids.specs.Day.{IsDayNumber};
ghost use Rattle.cns_ids.specs.Member.{IsMember};
ghost use Rattle.cns_ids.specs.Shares.{IsQuantity};
ghost use Rattle.cns_movements.specs.Fields.{day_bytes as day_bytes_of};
ghost use Rattle.cns_records.specs.Clear.{spelling, HasRanges, IsWritable, trade_at, entry_at, allocation_of, read_clear_of, ReadsAs};
ghost use Rattle.cns_records.specs.Fields.{Gives};
ghost use Rattle.cns_records.specs.Drawn.{AnswersIfRoom};

use crate::allocation::Allocation;
use crate::bad_record::BadRecord;
use crate::fields::{CUSIP_LEN, Fields, VERSION, add_tickets, begin};
use cns_ids::{Cusip, CycleId, MemberNo, Shares};
use cns_journal::{Record, RecordFault};
use cns_movements::{DAY_SIZE, Reply, cycle_bytes, day_bytes};
use cns_trades::Trade;
use std::alloc::{AllocError, Global};

// The kinds of records, as their payloads tell them. The depository's kinds are 7 and 8.
const ACCEPT: u8 = 1;

const EXEMPT: u8 = 2;

const PRIORITY: u8 = 3;

const CYCLE: u8 = 4;

const ALLOCATE: u8 = 5;

const CONFIRM: u8 = 6;

// How many bytes a member has in a payload, and a trade behind its id: its settlement date (4), its buyer (2), its
// seller (2), its CUSIP (9) and its quantity (8).
const MEMBER_SIZE: usize = 2;

const TERMS_SIZE: usize = 25;

/// A record of the clearing node: what one accepted call added to its book.
#[derive(PartialEq, Eq, Debug, Drop)]
pub enum ClearRecord {
    /// A trade was accepted.
    Accept(Trade),
    /// So many shares of a member in an issue are exempt from covers from now on.
    Exempt {
        member: MemberNo,
        issue: Cusip,
        shares: Shares,
    },
    /// A member's priority in an issue is on or off from now on.
    Priority {
        member: MemberNo,
        issue: Cusip,
        on: bool,
    },
    /// A cycle was run.
    Cycle(CycleId),
    /// A lot was closed, and its shares were allocated.
    Allocate(Allocation),
    /// The depository confirmed an order.
    Confirm(Reply),
}

impl ClearRecord {
    /// The record's payload.
    ///
    /// After version and kind stand: of `Accept` the id's length (1), the id, the settlement date
    /// (4), the buyer (2), the seller (2), the CUSIP (9) and the quantity (8); of `Exempt` the member
    /// (2), the CUSIP (9) and the shares (8); of `Priority` the member (2), the CUSIP (9) and 1 for on
    /// or 0 (1); of `Cycle` the date (4) and 0 for night or 1 for day (1); of `Allocate` the CUSIP (9),
    /// `opened` (8), `upto` (8), the shares poured (8), 1 for sealed or 0 (1), how many tickets there
    /// are (4), and of each the member (2), the start (8) and the shares asked for (8); of `Confirm`
    /// the number (8) and the shares moved (8). (This project's own format.)
    ///
    /// A trade whose buyer is its seller has a payload too, and so has an allocation whose lot was
    /// opened after its last pour or whose tickets do not stand by start, but `read` refuses them.
    pub fn write(&self, alloc: Global) -> Result<Vec<u8>, AllocError>
        ensures spelled { IfOk result (λ v. v.items ≡ spelling self.now) }
        ensures size { IfOk result (λ v. length v.items ≤ 1048576) }

        // What was written is read again.
        ensures back { IsWritable self.now → read_clear_of (spelling self.now) ≡ Ok self.now }
        ensures ranges { HasRanges self.now }
    {
        let mut payload = Vec::new(alloc);
        add_payload(&mut payload, self)?;
        Ok(payload)
    }

    /// Reads a payload.
    ///
    /// Refuses all that is not the payload of a record whose fields are in their ranges, whose buyer
    /// and seller differ, whose lot was opened not after its last pour, and whose tickets stand by
    /// start. Takes memory for the tickets of an allocation only, and only where the payload is an
    /// allocation.
    pub fn read(alloc: Global, payload: &[u8]) -> Result<ClearRecord, RecordFault>
        ensures exact { ReadsAs payload.now result }

        // What is read is spelled by just these bytes.
        ensures spelled { IfOk result (λ entry. (spelling entry ≡ payload.now) × IsWritable entry) }
        ensures ranges { IfOk result HasRanges }
    {
        record_of(alloc, payload)
    }
}

impl Record for ClearRecord {
    ghost use Rattle.cns_records.specs.Clear.{spelling as clear_spelling, IsWritable, HasPayload};

    ghost spelling = { clear_spelling };

    ghost writable = { IsWritable };

    ghost fits = { HasPayload };

    fn write(&self, alloc: Global) -> Result<Vec<u8>, AllocError> {
        ClearRecord::write(self, alloc)
    }

    fn put(&self, payload: &mut Vec<u8>) -> Result<(), AllocError> {
        add_payload(payload, self)
    }

    fn read(alloc: Global, payload: &[u8]) -> Result<ClearRecord, RecordFault> {
        ClearRecord::read(alloc, payload)
    }
}

// The bytes of a trade behind its id.
fn terms_of(trade: &Trade) -> [u8; TERMS_SIZE]
    ensures bytes { result ≡ day_bytes_of trade.now.settle ++ to_be_bytes w16 trade.now.buyer ++ to_be_bytes w16 trade.now.seller ++ cusip_text trade.now.issue ++ to_be_bytes w64 trade.now.quantity }
    ensures settle { IsDayNumber trade.now.settle }
    ensures members { IsMember trade.now.buyer × IsMember trade.now.seller }
    ensures issue { IsCusip trade.now.issue }
    ensures quantity { IsQuantity trade.now.quantity }
{
    let mut terms = [0; TERMS_SIZE];
    let (settle, rest) = terms.split_at_mut(DAY_SIZE);
    let (buyer, rest) = rest.split_at_mut(MEMBER_SIZE);
    let (seller, rest) = rest.split_at_mut(MEMBER_SIZE);
    let (issue, quantity) = rest.split_at_mut(CUSIP_LEN);
    settle.copy_from_slice(&day_bytes(trade.settle));
    buyer.copy_from_slice(&trade.buyer.number().to_be_bytes());
    seller.copy_from_slice(&trade.seller.number().to_be_bytes());
    issue.copy_from_slice(&trade.issue.to_bytes());
    quantity.copy_from_slice(&trade.quantity.shares().to_be_bytes());
    terms
}

#[tactic(auto, unfolding(crate::specs::Clear::spelling))]
fn add_accept(payload: &mut Vec<u8>, trade: &Trade) -> Result<(), AllocError>
    ensures spelled { OnOk result (payload.new.items ≡ payload.old.items ++ spelling (ClearRecord.Accept trade.now)) }
    ensures ranges { HasRanges (ClearRecord.Accept trade.now) }
{
    let id = trade.id.as_bytes();
    let id_len = id.len() as u8;
    let terms = terms_of(trade);
    begin(payload, &[VERSION, ACCEPT, id_len])?;
    payload.extend_from_slice(id)?;
    payload.extend_from_slice(&terms)?;
    Ok(())
}

// Adds the payload of a record that sets something of a member in an issue.
fn add_setting(
    payload: &mut Vec<u8>,
    kind: u8,
    member: MemberNo,
    issue: Cusip,
    value: &[u8],
) -> Result<(), AllocError>
    ensures spelled { OnOk result (payload.new.items ≡ payload.old.items ++ 1 ∷ kind ∷ (to_be_bytes w16 member ++ (cusip_text issue ++ value.now))) }
    ensures ranges { IsMember member × IsCusip issue }
{
    let member = member.number().to_be_bytes();
    let issue = issue.to_bytes();
    begin(payload, &[VERSION, kind])?;
    payload.extend_from_slice(&member)?;
    payload.extend_from_slice(&issue)?;
    payload.extend_from_slice(value)?;
    Ok(())
}

#[tactic(auto, unfolding(crate::specs::Clear::spelling))]
fn add_cycle(payload: &mut Vec<u8>, id: &CycleId) -> Result<(), AllocError>
    ensures spelled { OnOk result (payload.new.items ≡ payload.old.items ++ spelling (ClearRecord.Cycle id.now)) }
    ensures ranges { HasRanges (ClearRecord.Cycle id.now) }
{
    let fields = cycle_bytes(*id);
    begin(payload, &[VERSION, CYCLE])?;
    payload.extend_from_slice(&fields)?;
    Ok(())
}

#[tactic(auto, unfolding(crate::specs::Clear::spelling))]
fn add_allocate(payload: &mut Vec<u8>, allocation: &Allocation) -> Result<(), AllocError>
    ensures spelled { OnOk result (payload.new.items ≡ payload.old.items ++ spelling (ClearRecord.Allocate allocation.now)) }
    ensures ranges { HasRanges (ClearRecord.Allocate allocation.now) }
{
    let issue = allocation.issue.to_bytes();
    let opened = allocation.opened.to_be_bytes();
    let upto = allocation.upto.to_be_bytes();
    let poured = allocation.poured.count().to_be_bytes();
    let sealed = u8::from(allocation.sealed);
    let tickets = allocation.drawn.as_slice();
    let count = (tickets.len() as u32).to_be_bytes();
    begin(payload, &[VERSION, ALLOCATE])?;
    payload.extend_from_slice(&issue)?;
    payload.extend_from_slice(&opened)?;
    payload.extend_from_slice(&upto)?;
    payload.extend_from_slice(&poured)?;
    payload.extend_from_slice(&[sealed])?;
    payload.extend_from_slice(&count)?;
    add_tickets(payload, tickets)?;
    Ok(())
}

#[tactic(auto, unfolding(crate::specs::Clear::spelling))]
fn add_confirm(payload: &mut Vec<u8>, reply: &Reply) -> Result<(), AllocError>
    ensures spelled { OnOk result (payload.new.items ≡ payload.old.items ++ spelling (ClearRecord.Confirm reply.now)) }
    ensures ranges { HasRanges (ClearRecord.Confirm reply.now) }
{
    let fields = reply.to_bytes();
    begin(payload, &[VERSION, CONFIRM])?;
    payload.extend_from_slice(&fields)?;
    Ok(())
}

#[tactic(auto, unfolding(crate::specs::Clear::trade_at))]
fn take_trade(fields: &mut Fields) -> Result<Trade, BadRecord>
    ensures { Gives result fields.new (trade_at fields.old) }
{
    let trade = Trade {
        id: fields.take_id()?,
        settle: fields.take_day()?,
        buyer: fields.take_member()?,
        seller: fields.take_member()?,
        issue: fields.take_issue()?,
        quantity: fields.take_quantity()?,
    };
    if trade.buyer == trade.seller {
        return Err(BadRecord);
    }
    Ok(trade)
}

// The fields of a record of this kind. An allocation, which takes memory, is read by `read_allocation`.
#[tactic(auto, unfolding(crate::specs::Clear::entry_at))]
fn take_entry(kind: u8, fields: &mut Fields) -> Result<ClearRecord, BadRecord>
    ensures { Gives result fields.new (entry_at kind fields.old) }
{
    match kind {
        ACCEPT => Ok(ClearRecord::Accept(take_trade(fields)?)),
        EXEMPT => Ok(ClearRecord::Exempt {
            member: fields.take_member()?,
            issue: fields.take_issue()?,
            shares: fields.take_shares()?,
        }),
        PRIORITY => Ok(ClearRecord::Priority {
            member: fields.take_member()?,
            issue: fields.take_issue()?,
            on: fields.take_flag()?,
        }),
        CYCLE => Ok(ClearRecord::Cycle(fields.take_cycle()?)),
        CONFIRM => Ok(ClearRecord::Confirm(fields.take_reply()?)),
        _ => Err(BadRecord),
    }
}

#[tactic(auto, unfolding(crate::specs::Clear::allocation_of, crate::specs::Clear::lot_at))]
fn read_allocation(alloc: Global, mut fields: Fields) -> Result<Allocation, RecordFault>
    ensures { AnswersIfRoom result (allocation_of fields.entry) }
{
    let issue = fields.take_issue()?;
    let opened = fields.take_u64()?;
    let upto = fields.take_u64()?;
    let poured = fields.take_shares()?;
    let sealed = fields.take_flag()?;
    if opened > upto {
        return Err(RecordFault::BadRecord);
    }
    let drawn = fields.into_drawn(alloc)?;
    Ok(Allocation {
        issue,
        opened,
        upto,
        poured,
        sealed,
        drawn,
    })
}

#[tactic(auto, unfolding(crate::specs::Clear::read_clear_of))]
fn record_of(alloc: Global, payload: &[u8]) -> Result<ClearRecord, RecordFault>
    ensures { ReadsAs payload.now result }
{
    let [VERSION, kind, fields @ ..] = payload else {
        return Err(RecordFault::BadRecord);
    };
    let mut fields = Fields::new(fields);
    if *kind == ALLOCATE {
        return Ok(ClearRecord::Allocate(read_allocation(alloc, fields)?));
    }
    let entry = take_entry(*kind, &mut fields)?;
    if !fields.is_at_end() {
        return Err(RecordFault::BadRecord);
    }
    Ok(entry)
}

#[tactic(auto, unfolding(crate::specs::Clear::spelling))]
fn add_payload(payload: &mut Vec<u8>, entry: &ClearRecord) -> Result<(), AllocError>
    ensures spelled { OnOk result (payload.new.items ≡ payload.old.items ++ spelling entry.now) }
    ensures ranges { HasRanges entry.now }
{
    match entry {
        ClearRecord::Accept(trade) => add_accept(payload, trade),
        ClearRecord::Exempt {
            member,
            issue,
            shares,
        } => add_setting(
            payload,
            EXEMPT,
            *member,
            *issue,
            &shares.count().to_be_bytes(),
        ),
        ClearRecord::Priority { member, issue, on } => {
            add_setting(payload, PRIORITY, *member, *issue, &[u8::from(*on)])
        }
        ClearRecord::Cycle(id) => add_cycle(payload, id),
        ClearRecord::Allocate(allocation) => add_allocate(payload, allocation),
        ClearRecord::Confirm(reply) => add_confirm(payload, reply),
    }
}
