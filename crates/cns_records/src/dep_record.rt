ghost use Rattle.std.specs.Prelude.{◌≡◌, ◌≤◌, ◌++◌, length, IfOk, OnOk};
ghost use Rattle.cns_records.specs.Dep.{dep_spelling, HasDepRanges, IsDepWritable, exec_of, own_of, read_dep_of};
ghost use Rattle.cns_records.specs.Fields.{Gives};
ghost use Rattle.cns_records.specs.Instruction.{instruction_at, sort_at};

use crate::bad_record::BadRecord;
use crate::fields::{COVER_ORDER, DELIVERY_ORDER, Fields, begin};
use crate::instruction::{Instruction, Sort};
use cns_ids::Shares;
use cns_journal::{Record, RecordFault};
use cns_movements::{MAX_ORDER_SIZE, MoveKind, Order, Version};
use std::alloc::{AllocError, Global};

// The kinds of records, as their payloads tell them. The clearing node's kinds are below them.
const EXEC: u8 = 7;

const OWN: u8 = 8;

// The bytes that stand for the sort of an instruction.
const DEPOSIT: u8 = 1;

const WITHDRAWAL: u8 = 2;

/// A record of the depository: what one accepted call added to its stock record.
#[derive(Clone, Copy, PartialEq, Eq, Debug)]
pub enum DepRecord {
    /// An order was executed: `moved` of the shares that it asks for were moved.
    Exec { order: Order, moved: Shares },
    /// A member's own instruction was carried out.
    Own(Instruction),
}

impl DepRecord {
    /// The record's payload.
    ///
    /// The version is 1 for an order without a cycle and 2 for one with a cycle. After version and kind
    /// stand, of `Exec`: the order's kind, 1 for a cover or 2 for a delivery (1), its number (8), in
    /// version 2 its cycle (its date in 4, and 0 for night or 1 for day in 1), member (2), CUSIP (9) and
    /// asked shares (8), and the shares moved (8); and of `Own`, whose version is 2: 1 for a deposit or 2
    /// for a withdrawal (1), the member (2), the number (8), the CUSIP (9) and the shares (8). (This
    /// project's own format.)
    ///
    /// A record that moves more than was asked has a payload too, but `read` refuses it.
    pub fn write(&self, alloc: Global) -> Result<Vec<u8>, AllocError>
        ensures spelled { IfOk result (λ v. v.items ≡ dep_spelling self.now) }
        ensures size { IfOk result (λ v. length v.items ≤ 1048576) }

        // What was written is read again.
        ensures back { IsDepWritable self.now → read_dep_of (dep_spelling self.now) ≡ Ok self.now }
        ensures ranges { HasDepRanges self.now }
    {
        let mut payload = Vec::new(alloc);
        add_payload(&mut payload, self)?;
        Ok(payload)
    }

    /// Reads a payload.
    ///
    /// Refuses all that is not the payload of a record whose fields are in their ranges and that
    /// moves no more than was asked.
    pub fn read(payload: &[u8]) -> Result<DepRecord, BadRecord>
        ensures exact { result ≡ read_dep_of payload.now }

        // What is read is spelled by just these bytes.
        ensures spelled { IfOk result (λ entry. (dep_spelling entry ≡ payload.now) × IsDepWritable entry) }
        ensures ranges { IfOk result HasDepRanges }
    {
        record_of(payload)
    }
}

impl Record for DepRecord {
    ghost use Rattle.cns_records.specs.Dep.{dep_spelling, IsDepWritable, HasDepPayload};

    ghost spelling = { dep_spelling };

    ghost writable = { IsDepWritable };

    ghost fits = { HasDepPayload };

    fn write(&self, alloc: Global) -> Result<Vec<u8>, AllocError> {
        DepRecord::write(self, alloc)
    }

    fn put(&self, payload: &mut Vec<u8>) -> Result<(), AllocError> {
        add_payload(payload, self)
    }

    fn read(_alloc: Global, payload: &[u8]) -> Result<DepRecord, RecordFault> {
        Ok(DepRecord::read(payload)?)
    }
}

#[tactic(auto, unfolding(crate::specs::Dep::dep_spelling))]
fn add_exec(payload: &mut Vec<u8>, order: &Order, moved: Shares) -> Result<(), AllocError>
    ensures spelled { OnOk result (payload.new.items ≡ payload.old.items ++ dep_spelling (DepRecord.Exec order.now moved)) }
    ensures ranges { HasDepRanges (DepRecord.Exec order.now moved) }
{
    let kind = match order.kind {
        MoveKind::Cover => COVER_ORDER,
        MoveKind::Delivery => DELIVERY_ORDER,
    };
    let version = order.version();
    let mut fields = [0; MAX_ORDER_SIZE];
    let fields = &mut fields[..version.order_size()];
    order.write_bytes(fields);
    let moved = moved.count().to_be_bytes();
    begin(payload, &[version.byte(), EXEC, kind])?;
    payload.extend_from_slice(fields)?;
    payload.extend_from_slice(&moved)?;
    Ok(())
}

#[tactic(auto, unfolding(crate::specs::Dep::dep_spelling))]
fn add_own(payload: &mut Vec<u8>, instruction: &Instruction) -> Result<(), AllocError>
    ensures spelled { OnOk result (payload.new.items ≡ payload.old.items ++ dep_spelling (DepRecord.Own instruction.now)) }
    ensures ranges { HasDepRanges (DepRecord.Own instruction.now) }
{
    let sort = match instruction.sort {
        Sort::Deposit => DEPOSIT,
        Sort::Withdraw => WITHDRAWAL,
    };
    let member = instruction.member.number().to_be_bytes();
    let number = instruction.number.number().to_be_bytes();
    let issue = instruction.issue.to_bytes();
    let shares = instruction.shares.shares().to_be_bytes();
    begin(payload, &[Version::Two.byte(), OWN, sort])?;
    payload.extend_from_slice(&member)?;
    payload.extend_from_slice(&number)?;
    payload.extend_from_slice(&issue)?;
    payload.extend_from_slice(&shares)?;
    Ok(())
}

// The sort of an instruction.
#[tactic(auto, unfolding(crate::specs::Instruction::sort_at))]
fn take_sort(fields: &mut Fields) -> Result<Sort, BadRecord>
    ensures { Gives result fields.new (sort_at fields.old) }
{
    fields.take_one_of((DEPOSIT, Sort::Deposit), (WITHDRAWAL, Sort::Withdraw))
}

#[tactic(auto, unfolding(crate::specs::Instruction::instruction_at))]
fn take_instruction(fields: &mut Fields) -> Result<Instruction, BadRecord>
    ensures { Gives result fields.new (instruction_at fields.old) }
{
    Ok(Instruction {
        sort: take_sort(fields)?,
        member: fields.take_member()?,
        number: fields.take_move_no()?,
        issue: fields.take_issue()?,
        shares: fields.take_asked()?,
    })
}

#[tactic(auto, unfolding(crate::specs::Dep::own_of))]
fn read_own(version: Version, mut fields: Fields) -> Result<DepRecord, BadRecord>
    ensures { result ≡ own_of version fields.entry }
{
    if version == Version::One {
        return Err(BadRecord);
    }
    let instruction = take_instruction(&mut fields)?;
    if !fields.is_at_end() {
        return Err(BadRecord);
    }
    Ok(DepRecord::Own(instruction))
}

#[tactic(auto, unfolding(crate::specs::Dep::exec_of))]
fn read_exec(version: Version, mut fields: Fields) -> Result<DepRecord, BadRecord>
    ensures { result ≡ exec_of version fields.entry }
{
    let order = fields.take_order(version)?;
    let moved = fields.take_shares()?;
    if !fields.is_at_end() || moved.count() > order.asked.shares() {
        return Err(BadRecord);
    }
    Ok(DepRecord::Exec { order, moved })
}

fn add_payload(payload: &mut Vec<u8>, entry: &DepRecord) -> Result<(), AllocError>
    ensures spelled { OnOk result (payload.new.items ≡ payload.old.items ++ dep_spelling entry.now) }
    ensures ranges { HasDepRanges entry.now }
{
    match entry {
        DepRecord::Exec { order, moved } => add_exec(payload, order, *moved),
        DepRecord::Own(instruction) => add_own(payload, instruction),
    }
}

#[tactic(auto, unfolding(crate::specs::Dep::read_dep_of))]
fn record_of(payload: &[u8]) -> Result<DepRecord, BadRecord>
    ensures { result ≡ read_dep_of payload.now }
{
    let [version, kind, fields @ ..] = payload else {
        return Err(BadRecord);
    };
    let version = Version::of_byte(*version).ok_or(BadRecord)?;
    match *kind {
        EXEC => read_exec(version, Fields::new(fields)),
        OWN => read_own(version, Fields::new(fields)),
        _ => Err(BadRecord),
    }
}
