//! The rows of a dump as CSV.

use crate::entry::Entry;
use crate::place::Place;
use crate::words::on_or_off;
use cns_file::Tail;
use cns_ids::{Cusip, CycleId, CycleKind, Day, MemberNo};
use cns_input::BatchFault;
use cns_movements::{MoveKind, Order};
use cns_records::{Allocation, ClearRecord, DepRecord, Drawn, Instruction, Sort};
use cns_report::yes_or_no;
use cns_trades::{Trade, TradeId};
use csv::{ByteRecord, QuoteStyle, Writer, WriterBuilder};
use std::alloc::{AllocError, Global};
use std::io::Write;

// What a row is of.
#[derive(Clone, Copy)]
enum RowKind {
    Trade,
    Exempt,
    Priority,
    Cycle,
    Allocate,
    Ticket,
    Confirm,
    Cover,
    Delivery,
    Deposit,
    Withdraw,
    Unread,
    End,
}

impl RowKind {
    fn name(self) -> &'static str {
        match self {
            RowKind::Trade => "trade",
            RowKind::Exempt => "exempt",
            RowKind::Priority => "priority",
            RowKind::Cycle => "cycle",
            RowKind::Allocate => "allocate",
            RowKind::Ticket => "ticket",
            RowKind::Confirm => "confirm",
            RowKind::Cover => "cover",
            RowKind::Delivery => "delivery",
            RowKind::Deposit => "deposit",
            RowKind::Withdraw => "withdraw",
            RowKind::Unread => "none",
            RowKind::End => "end",
        }
    }
}

// What stands in the last column.
#[derive(Clone, Copy)]
enum Flag {
    Nowhere,
    Priority(bool),
    Sealed(bool),
    Follows(Tail),
}

impl Flag {
    fn name(self) -> &'static str {
        match self {
            Flag::Nowhere => "",
            Flag::Priority(on) => on_or_off(on),
            Flag::Sealed(sealed) => yes_or_no(sealed),
            Flag::Follows(tail) => tail_name(tail),
        }
    }
}

// What the columns of a row have; an empty one where there is nothing.
#[derive(Clone, Copy)]
struct Cells {
    place: Option<u64>,
    byte: u64,
    kind: RowKind,
    trade: Option<TradeId>,
    number: Option<u64>,
    date: Option<Day>,
    cycle: Option<CycleKind>,
    member: Option<MemberNo>,
    buyer: Option<MemberNo>,
    seller: Option<MemberNo>,
    cusip: Option<Cusip>,
    shares: Option<u64>,
    moved: Option<u64>,
    start: Option<u64>,
    opened: Option<u64>,
    upto: Option<u64>,
    flag: Flag,
}

impl Cells {
    // A row of this kind, of which nothing else is told.
    fn of(kind: RowKind, place: Place) -> Cells {
        Cells {
            place: Some(place.number),
            byte: place.byte,
            kind,
            trade: None,
            number: None,
            date: None,
            cycle: None,
            member: None,
            buyer: None,
            seller: None,
            cusip: None,
            shares: None,
            moved: None,
            start: None,
            opened: None,
            upto: None,
            flag: Flag::Nowhere,
        }
    }

    // The same of a cycle.
    fn in_cycle(self, id: CycleId) -> Cells {
        Cells {
            date: Some(id.day),
            cycle: Some(id.kind),
            ..self
        }
    }

    // The same of a member's shares in an issue.
    fn of_holding(self, member: MemberNo, cusip: Cusip, shares: u64) -> Cells {
        Cells {
            member: Some(member),
            cusip: Some(cusip),
            shares: Some(shares),
            ..self
        }
    }
}

fn trade_cells(place: Place, trade: &Trade) -> Cells {
    Cells {
        trade: Some(trade.id),
        date: Some(trade.settle),
        buyer: Some(trade.buyer),
        seller: Some(trade.seller),
        cusip: Some(trade.issue),
        shares: Some(trade.quantity.shares()),
        ..Cells::of(RowKind::Trade, place)
    }
}

fn allocation_cells(place: Place, allocation: &Allocation) -> Cells {
    Cells {
        number: Some(allocation.drawn.len() as u64),
        cusip: Some(allocation.issue),
        shares: Some(allocation.poured.count()),
        opened: Some(allocation.opened),
        upto: Some(allocation.upto),
        flag: Flag::Sealed(allocation.sealed),
        ..Cells::of(RowKind::Allocate, place)
    }
}

fn clear_cells(place: Place, entry: &ClearRecord) -> Cells {
    match entry {
        ClearRecord::Accept(trade) => trade_cells(place, trade),
        ClearRecord::Exempt {
            member,
            issue,
            shares,
        } => Cells::of(RowKind::Exempt, place).of_holding(*member, *issue, shares.count()),
        ClearRecord::Priority { member, issue, on } => Cells {
            member: Some(*member),
            cusip: Some(*issue),
            flag: Flag::Priority(*on),
            ..Cells::of(RowKind::Priority, place)
        },
        ClearRecord::Cycle(id) => Cells::of(RowKind::Cycle, place).in_cycle(*id),
        ClearRecord::Allocate(allocation) => allocation_cells(place, allocation),
        ClearRecord::Confirm(reply) => Cells {
            number: Some(reply.number.number()),
            moved: Some(reply.moved.count()),
            ..Cells::of(RowKind::Confirm, place)
        },
    }
}

fn order_cells(place: Place, order: &Order, moved: u64) -> Cells {
    let kind = match order.kind {
        MoveKind::Cover => RowKind::Cover,
        MoveKind::Delivery => RowKind::Delivery,
    };
    let cells = Cells::of(kind, place).of_holding(order.member, order.issue, order.asked.shares());
    let cells = match order.cycle {
        None => cells,
        Some(id) => cells.in_cycle(id),
    };
    Cells {
        number: Some(order.number.number()),
        moved: Some(moved),
        ..cells
    }
}

fn instruction_cells(place: Place, instruction: &Instruction) -> Cells {
    let kind = match instruction.sort {
        Sort::Deposit => RowKind::Deposit,
        Sort::Withdraw => RowKind::Withdraw,
    };
    let cells = Cells::of(kind, place);
    Cells {
        number: Some(instruction.number.number()),
        ..cells.of_holding(
            instruction.member,
            instruction.issue,
            instruction.shares.shares(),
        )
    }
}

fn entry_cells(place: Place, entry: &Entry) -> Cells {
    match entry {
        Entry::Clear(entry) => clear_cells(place, entry),
        Entry::Depot(DepRecord::Exec { order, moved }) => order_cells(place, order, moved.count()),
        Entry::Depot(DepRecord::Own(instruction)) => instruction_cells(place, instruction),
        Entry::Unread(bytes) => Cells {
            shares: Some(*bytes),
            ..Cells::of(RowKind::Unread, place)
        },
    }
}

fn ticket_cells(place: Place, ticket: &Drawn) -> Cells {
    Cells {
        member: Some(ticket.member),
        shares: Some(ticket.asked.shares()),
        start: Some(ticket.start.count()),
        ..Cells::of(RowKind::Ticket, place)
    }
}

// The name of what follows.
fn tail_name(tail: Tail) -> &'static str {
    match tail {
        Tail::Nothing => "nothing",
        Tail::Crash => "crash",
        Tail::Damage => "damage",
    }
}

// A row as it is made, field by field.
#[derive(Drop)]
struct RowMaker {
    fields: ByteRecord,
    text: String,
    alloc: Global,
}

impl RowMaker {
    fn new(alloc: Global) -> RowMaker {
        RowMaker {
            fields: ByteRecord::new(alloc),
            text: String::new(alloc),
            alloc,
        }
    }

    // Adds a field of these bytes.
    fn add(&mut self, field: &[u8]) -> Result<(), AllocError> {
        self.fields.push_field(field)
    }

    // Adds a field of a number.
    fn add_number(&mut self, number: Option<u64>) -> Result<(), AllocError> {
        self.text.clear();
        if let Some(number) = number {
            write!(self.text, "{number}")?;
        }
        self.fields.push_field(self.text.as_bytes())
    }

    // Adds a field in quotes, by which its zeros are kept.
    fn add_quoted(&mut self, field: &[u8]) -> Result<(), AllocError> {
        let mut quoted = Vec::new(self.alloc);
        quoted.push(b'"')?;
        quoted.extend_from_slice(field)?;
        quoted.push(b'"')?;
        self.fields.push_field(quoted.as_slice())
    }

    // Adds a field of a member.
    fn add_member(&mut self, member: Option<MemberNo>) -> Result<(), AllocError> {
        match member {
            None => self.add(b""),
            Some(member) => self.add_quoted(&member.to_bytes()),
        }
    }

    // Adds a field of an issue.
    fn add_issue(&mut self, issue: Option<Cusip>) -> Result<(), AllocError> {
        match issue {
            None => self.add(b""),
            Some(issue) => self.add_quoted(&issue.to_bytes()),
        }
    }

    // Adds a field of a date.
    fn add_date(&mut self, date: Option<Day>) -> Result<(), AllocError> {
        match date {
            None => self.add(b""),
            Some(date) => self.add(&date.to_bytes()),
        }
    }

    // Adds the fields that say which record it is, and when.
    fn add_front(&mut self, cells: &Cells) -> Result<(), AllocError> {
        self.add_number(cells.place)?;
        self.add_number(Some(cells.byte))?;
        self.add(cells.kind.name().as_bytes())?;
        match &cells.trade {
            None => self.add(b"")?,
            Some(id) => self.add(id.as_bytes())?,
        }
        self.add_number(cells.number)?;
        self.add_date(cells.date)?;
        match cells.cycle {
            None => self.add(b""),
            Some(kind) => self.add(kind.name().as_bytes()),
        }
    }

    // Adds the fields that say of whom it is, and of what.
    fn add_holdings(&mut self, cells: &Cells) -> Result<(), AllocError> {
        self.add_member(cells.member)?;
        self.add_member(cells.buyer)?;
        self.add_member(cells.seller)?;
        self.add_issue(cells.cusip)
    }

    // Adds the fields of shares and of places.
    fn add_numbers(&mut self, cells: &Cells) -> Result<(), AllocError> {
        self.add_number(cells.shares)?;
        self.add_number(cells.moved)?;
        self.add_number(cells.start)?;
        self.add_number(cells.opened)?;
        self.add_number(cells.upto)
    }

    // Makes a row.
    fn make(&mut self, cells: &Cells) -> Result<(), AllocError> {
        self.fields.clear();
        self.add_front(cells)?;
        self.add_holdings(cells)?;
        self.add_numbers(cells)?;
        self.add(cells.flag.name().as_bytes())
    }
}

/// The rows of a dump, on their way to a writer.
#[derive(Drop)]
pub(crate) struct Table<W: Write + Drop> {
    writer: Writer<W>,
    maker: RowMaker,
}

impl<W: Write + Drop> Table<W> {
    /// A table with the names of its columns.
    pub(crate) fn begin(alloc: Global, writer: W) -> Result<Table<W>, BatchFault> {
        let writer = WriterBuilder::new()
            .quote_style(QuoteStyle::Never)
            .from_writer(writer);
        let mut table = Table {
            writer,
            maker: RowMaker::new(alloc),
        };
        table.write_header()?;
        Ok(table)
    }

    // Writes the names of the columns.
    fn write_header(&mut self) -> Result<(), BatchFault> {
        let names: [&[u8]; 17] = [
            b"place", b"byte", b"kind", b"trade", b"number", b"date", b"cycle", b"member",
            b"buyer", b"seller", b"cusip", b"shares", b"moved", b"start", b"opened", b"upto",
            b"flag",
        ];
        match self.writer.write_fields(&names) {
            Ok(()) => Ok(()),
            Err(_) => Err(BatchFault::Write),
        }
    }

    // Writes a row.
    fn write_cells(&mut self, cells: &Cells) -> Result<(), BatchFault> {
        self.maker.make(cells)?;
        match self.writer.write_byte_record(&self.maker.fields) {
            Ok(()) => Ok(()),
            Err(_) => Err(BatchFault::Write),
        }
    }

    /// Writes the row of a record, and those of the tickets of an allocation.
    pub(crate) fn write_entry(&mut self, place: Place, entry: &Entry) -> Result<(), BatchFault> {
        self.write_cells(&entry_cells(place, entry))?;
        if let Entry::Clear(ClearRecord::Allocate(allocation)) = entry {
            for ticket in allocation.drawn.as_slice() {
                self.write_cells(&ticket_cells(place, ticket))?;
            }
        }
        Ok(())
    }

    /// Writes the row of what follows the last record, and all that is held.
    pub(crate) fn write_end(
        &mut self,
        byte: u64,
        bytes: u64,
        tail: Tail,
    ) -> Result<(), BatchFault> {
        let place = Place { number: 0, byte };
        self.write_cells(&Cells {
            place: None,
            shares: Some(bytes),
            flag: Flag::Follows(tail),
            ..Cells::of(RowKind::End, place)
        })?;
        match self.writer.flush() {
            Ok(()) => Ok(()),
            Err(_) => Err(BatchFault::Write),
        }
    }
}
