//! Stories that tests tell of a node: its calls in turn, each with what it has to answer.
//!
//! A step is plain data: so a test is a table, and its proof is short.

use crate::common::{
    Draw, Placed, Sale, Text, apple, cycle_of, member_of, number_of, order_in, reply_of, shares_of,
    tickets_of, trade_of,
};
use cns_allocate::{Group, Planned};
use cns_clearing::{Clearing, PoolRow, Taken};
use cns_ids::{Cusip, CycleId, CycleKind};
use cns_journal::{ListKeeper, Restarted};
use cns_movements::Order;
use cns_pool::Ticket;
use cns_records::Refusal;
use std::alloc::Global;
use std::process::Abort;

pub(super) type Done = Result<(), Refusal>;

// How many trades a cycle made due or how many shares a close granted, the number of the first order, 0
// where there is none, and how many were ordered.
pub(super) type Ordered = Result<(u64, u64, usize), Refusal>;

// A call of a node, and its answer. All is of the first issue.
pub(super) enum Step {
    Trade(Sale, Done),
    // Shares of member 1.
    Exempt(u64, Done),
    // Of this member.
    Priority(u16, Done),
    Cycle(Text, CycleKind, Ordered),
    // The order's number, and the shares that were moved.
    Reply(u64, u64, Result<Taken, Refusal>),
    // The next commit fails, and its record stands or does not.
    Plan(bool),
    // How many records the journal has, and whether the undecided one was kept; then the node is up.
    Restart(u64, bool),
    // A lot opens with the plan of member 2, which was long before, and 3.
    Open,
    NotOpened(Refusal),
    Pour(Result<u64, Refusal>),
    // The tickets, and whether the lot was sealed.
    Close(&'static [Draw], bool, Ordered),
    // The one lot: after how many records it was opened and last poured into, and its shares.
    Holds(u64, u64, u64),
    NoLot,
    // The position of member 1, and the free shares.
    Shows(i128, u128),
    // The shares that are free, lent and out.
    Shares(u128, u128, u128),
    // An order, and the cycle that it is of.
    Order(Text, CycleKind, Placed),
    // Why the order of this number is not shown.
    NoOrder(u64, Refusal),
    // The shares that are free, lent and out in each pool.
    Pools(&'static [(u128, u128, u128)]),
    Latest(Text, CycleKind),
    Down(bool),
    // How many orders there are, and the position of member 2 in the book.
    Books(usize, i128),
}

// The number of the first of some orders, 0 where there is none.
fn first(orders: &[Order]) -> u64 {
    match orders.first() {
        Some(order) => order.number.number(),
        None => 0,
    }
}

type Node = Clearing<ListKeeper>;

// What a cycle answers.
fn cycled(node: &mut Node, id: CycleId) -> Ordered {
    let cycled = node.cycle(id)?;
    let orders = cycled.orders.as_slice();
    Ok((cycled.due, first(orders), orders.len()))
}

// What a close answers.
fn closed(node: &mut Node, issue: Cusip, tickets: &[Ticket], sealed: bool) -> Ordered {
    let closed = node.lot_close(issue, tickets, sealed)?;
    let orders = closed.orders.as_slice();
    Ok((closed.granted, first(orders), orders.len()))
}

fn planned(rt: &impl Abort, member: u16, group: Group) -> Planned {
    let (member, asked) = (member_of(rt, member), 30);
    Planned {
        member,
        asked,
        group,
    }
}

// Whether a lot opens with the plan of members 2 and 3.
fn opens(rt: &impl Abort, node: &mut Node) -> bool {
    let wanted = [planned(rt, 2, Group::WasLong), planned(rt, 3, Group::Other)];
    let plan = node.lot_open(apple(rt)).expect(rt, "a lot");
    let same = plan.as_slice() == wanted.as_slice();
    drop(plan);
    same
}

fn restarts(node: &mut Node, wanted: Restarted) -> bool {
    node.restart() == Ok(wanted) && !node.is_down()
}

// Whether a node has lots of just these issues open.
fn are_open(rt: &impl Abort, alloc: Global, node: &Node, wanted: &[Cusip]) -> bool {
    let open = node.open_lots(alloc).expect(rt, "memory");
    let same = open.as_slice() == wanted && node.has_open_lots() == !wanted.is_empty();
    drop(open);
    same
}

// Whether a node has this lot of an issue open.
fn holds(node: &Node, issue: Cusip, wanted: (u64, u64, u64)) -> bool {
    let Some(lot) = node.lot(issue) else {
        return false;
    };
    (lot.opened, lot.upto, lot.poured.count()) == wanted
}

fn is_row(row: &PoolRow, issue: Cusip, wanted: (u128, u128, u128)) -> bool {
    row.issue == issue && (row.free, row.lent, row.out) == wanted
}

// Whether these are the rows of a node's pools.
fn pools(rt: &impl Abort, alloc: Global, node: &Node, wanted: &[(u128, u128, u128)]) -> bool {
    let rows = node.pools(alloc).expect(rt, "memory");
    let mut same = rows.as_slice().len() == wanted.len();
    for (row, wanted) in rows.as_slice().iter().zip(wanted) {
        same = same && is_row(row, apple(rt), *wanted);
    }
    drop(rows);
    same
}

fn closes(
    rt: &impl Abort,
    alloc: Global,
    node: &mut Node,
    draws: &[Draw],
    sealed: bool,
) -> Ordered {
    let tickets = tickets_of(rt, alloc, draws);
    let answer = closed(node, apple(rt), tickets.as_slice(), sealed);
    drop(tickets);
    answer
}

// Whether a node shows what a step says.
fn shows(rt: &impl Abort, alloc: Global, node: &Node, step: &Step) -> bool {
    let issue = apple(rt);
    match step {
        Step::Holds(opened, upto, poured) => {
            holds(node, issue, (*opened, *upto, *poured)) && are_open(rt, alloc, node, &[issue])
        }
        Step::NoLot => node.lot(issue).is_none() && are_open(rt, alloc, node, &[]),
        Step::Shows(position, free) => {
            node.position(member_of(rt, 1), issue) == *position && node.free(issue) == *free
        }
        Step::Shares(free, lent, out) => {
            (node.free(issue), node.lent(issue), node.out(issue)) == (*free, *lent, *out)
        }
        Step::Order(day, kind, placed) => {
            node.order(number_of(rt, placed.0)) == Ok(order_in(rt, day, *kind, placed))
        }
        Step::NoOrder(number, fault) => node.order(number_of(rt, *number)) == Err(*fault),
        Step::Pools(wanted) => pools(rt, alloc, node, wanted),
        Step::Latest(day, kind) => node.latest() == Some(cycle_of(rt, day, *kind)),
        Step::Down(wanted) => node.is_down() == *wanted,
        Step::Books(orders, position) => {
            let of_second = node.book().position(member_of(rt, 2), issue);
            node.orders().len() == *orders && of_second == *position
        }
        _ => false,
    }
}

// Whether a node answers a step as it says.
fn answers(rt: &impl Abort, alloc: Global, node: &mut Node, step: &Step) -> bool {
    match step {
        Step::Trade(sale, wanted) => node.take_trade(&trade_of(rt, sale)) == *wanted,
        Step::Exempt(count, wanted) => {
            node.exempt(member_of(rt, 1), apple(rt), shares_of(rt, *count)) == *wanted
        }
        Step::Priority(member, wanted) => {
            node.priority(member_of(rt, *member), apple(rt), true) == *wanted
        }
        Step::Cycle(day, kind, wanted) => cycled(node, cycle_of(rt, day, *kind)) == *wanted,
        Step::Reply(number, moved, wanted) => {
            node.take_reply(&reply_of(rt, *number, *moved)) == *wanted
        }
        Step::Plan(stands) => node.plan(*stands).is_ok(),
        Step::Restart(records, kept) => {
            let (records, kept) = (*records, *kept);
            restarts(node, Restarted { records, kept })
        }
        Step::Open => opens(rt, node),
        Step::NotOpened(fault) => node.lot_open(apple(rt)).err() == Some(*fault),
        Step::Pour(wanted) => node.lot_pour(apple(rt)) == *wanted,
        Step::Close(draws, sealed, wanted) => closes(rt, alloc, node, draws, *sealed) == *wanted,
        look => shows(rt, alloc, node, look),
    }
}

fn take_steps(rt: &impl Abort, alloc: Global, node: &mut Node, story: usize, steps: &[Step]) {
    for (place, step) in steps.iter().enumerate() {
        assert!(rt;
            answers(rt, alloc, node, step),
            "story {story}, step {place}"
        );
    }
}

fn node_of(rt: &impl Abort, alloc: Global, keeper: ListKeeper) -> Node {
    match Clearing::open(alloc, keeper) {
        Ok(node) => node,
        Err(refused) => panic!(rt; "no node: {}", refused.fault),
    }
}

// A story of the node that a keeper's journal opens; the keeper that it gives up at the end.
pub(super) fn tell_of(
    rt: &impl Abort,
    alloc: Global,
    keeper: ListKeeper,
    story: usize,
    parts: &[&[Step]],
) -> ListKeeper {
    let mut node = node_of(rt, alloc, keeper);
    for steps in parts {
        take_steps(rt, alloc, &mut node, story, steps);
    }
    node.into_keeper()
}

// What is done in parts, one after another.
pub(super) type Story = &'static [&'static [Step]];

// Stories of nodes with no records.
pub(super) fn tell_all(rt: &impl Abort, alloc: Global, stories: &[Story]) {
    for (story, parts) in stories.iter().enumerate() {
        drop(tell_of(rt, alloc, ListKeeper::new(alloc), story, parts));
    }
}
