//! Stories that tests tell of a depository: its calls in turn, each with what it has to answer.
//!
//! A step is plain data: so a test is a table, and its proof is short.

use crate::common::{
    APPLE, Given, Opened, Placed, Text, instruction_of, issue_of, member_of, number_of,
    openings_of, order_in, order_of, reply_of, shares_of,
};
use cns_depository::{Account, Answer, BalanceRow, DepFault, Depository, Own, OwnFault};
use cns_ids::CycleKind;
use cns_journal::{ListKeeper, Restarted};
use cns_movements::Order;
use std::alloc::Global;
use std::process::Abort;

// 20 shares of member 1.
pub(super) const TWENTY: &[Opened] = &[(1, APPLE, 20)];

// An account.
pub(super) enum Holder {
    Cns,
    Member(u16),
}

// A balance: its issue, its account and its shares.
pub(super) type Held = (Text, Holder, u128);

// The answer to an order, with the shares that it moved.
pub(super) enum Moved {
    Done(u64),
    Again(u64),
}

// A call of a depository, and its answer.
pub(super) enum Step {
    // The next commit fails, and its record stands or does not.
    Plan(bool),
    Take(Placed, Result<Moved, DepFault>),
    // The same with the cycle of this kind on 4 March 2025.
    TakeIn(CycleKind, Placed, Result<Moved, DepFault>),
    Instruct(Given, Result<Own, OwnFault>),
    // Whether just this instruction is the one of its number.
    Instructed(Given, bool),
    // How many records the journal has, and whether the undecided one was kept.
    Restart(u64, bool),
    Down(bool),
    NotExecuted(u64),
    // The order that was executed under its number, and the shares that it moved.
    Executed(Placed, u64),
    ExecutedIn(CycleKind, Placed, u64),
    Balance(Held),
    Balances(&'static [Held]),
}

fn row_of(rt: &impl Abort, held: &Held) -> BalanceRow {
    let (code, holder, shares) = held;
    let account = match holder {
        Holder::Cns => Account::Cns,
        Holder::Member(member) => Account::Member(member_of(rt, *member)),
    };
    let (issue, shares) = (issue_of(rt, code), *shares);
    BalanceRow {
        issue,
        account,
        shares,
    }
}

type Node = Depository<ListKeeper>;

// What the order of this number has to be answered.
fn answer_of(
    rt: &impl Abort,
    number: u64,
    wanted: &Result<Moved, DepFault>,
) -> Result<Answer, DepFault> {
    match wanted {
        Ok(Moved::Done(moved)) => Ok(Answer::Done(reply_of(rt, number, *moved))),
        Ok(Moved::Again(moved)) => Ok(Answer::Again(reply_of(rt, number, *moved))),
        Err(fault) => Err(*fault),
    }
}

fn has_balance(rt: &impl Abort, node: &Node, held: &Held) -> bool {
    let wanted = row_of(rt, held);
    node.balance(wanted.account, wanted.issue) == wanted.shares
}

// Whether these are the rows of a depository's balances.
fn has_balances(rt: &impl Abort, alloc: Global, node: &Node, of: &[Held]) -> bool {
    let rows = node.balances(alloc).expect(rt, "memory");
    let mut same = rows.as_slice().len() == of.len();
    for (row, held) in rows.as_slice().iter().zip(of) {
        same = same && *row == row_of(rt, held);
    }
    drop(rows);
    same
}

// Whether this order was executed, and moved so much.
fn executed(rt: &impl Abort, node: &Node, order: &Order, moved: u64) -> bool {
    node.executed(order.number) == Some((*order, shares_of(rt, moved)))
}

// The order of the cycle of this kind on 4 March 2025.
fn order_then(rt: &impl Abort, kind: CycleKind, placed: &Placed) -> Order {
    order_in(rt, b"2025-03-04", kind, placed)
}

// Whether this is the instruction that was carried out under its number.
fn instructed(rt: &impl Abort, node: &Node, given: &Given) -> bool {
    let wanted = instruction_of(rt, given);
    node.instructed(wanted.member, wanted.number) == Some(wanted)
}

// Whether a depository answers a step as it says.
fn answers(rt: &impl Abort, alloc: Global, node: &mut Node, step: &Step) -> bool {
    match step {
        Step::Plan(stands) => node.plan(*stands).is_ok(),
        Step::Take(placed, wanted) => {
            node.take_order(&order_of(rt, placed)) == answer_of(rt, placed.0, wanted)
        }
        Step::TakeIn(kind, placed, wanted) => {
            node.take_order(&order_then(rt, *kind, placed)) == answer_of(rt, placed.0, wanted)
        }
        Step::Instruct(given, wanted) => node.instruct(&instruction_of(rt, given)) == *wanted,
        Step::Instructed(given, wanted) => instructed(rt, node, given) == *wanted,
        Step::Restart(records, kept) => {
            let (records, kept) = (*records, *kept);
            node.restart() == Ok(Restarted { records, kept })
        }
        Step::Down(wanted) => node.is_down() == *wanted,
        Step::NotExecuted(number) => node.executed(number_of(rt, *number)).is_none(),
        Step::Executed(placed, moved) => executed(rt, node, &order_of(rt, placed), *moved),
        Step::ExecutedIn(kind, placed, moved) => {
            executed(rt, node, &order_then(rt, *kind, placed), *moved)
        }
        Step::Balance(held) => has_balance(rt, node, held),
        Step::Balances(of) => has_balances(rt, alloc, node, of),
    }
}

fn take_steps(rt: &impl Abort, alloc: Global, node: &mut Node, story: usize, steps: &[Step]) {
    for (place, step) in steps.iter().enumerate() {
        assert!(rt;
            answers(rt, alloc, node, step),
            "story {story}, step {place}"
        );
    }
}

// The depository that a keeper's journal opens, with these openings.
fn depository(rt: &impl Abort, alloc: Global, keeper: ListKeeper, of: &[Opened]) -> Node {
    match Depository::open(alloc, keeper, openings_of(rt, alloc, of)) {
        Ok(node) => node,
        Err(refused) => panic!(rt; "no depository: {}", refused.fault),
    }
}

// The openings of a depository, and what is done in parts, one after another.
pub(super) type Story = (&'static [Opened], &'static [&'static [Step]]);

// A story of the depository that a keeper's journal opens; the keeper that it gives up at the end.
pub(super) fn tell_of(
    rt: &impl Abort,
    alloc: Global,
    keeper: ListKeeper,
    story: usize,
    of: &[Opened],
    parts: &[&[Step]],
) -> ListKeeper {
    let mut node = depository(rt, alloc, keeper, of);
    for steps in parts {
        take_steps(rt, alloc, &mut node, story, steps);
    }
    node.into_keeper()
}

// Stories of depositories with nothing executed.
pub(super) fn tell_all(rt: &impl Abort, alloc: Global, stories: &[Story]) {
    for (story, (of, parts)) in stories.iter().enumerate() {
        drop(tell_of(rt, alloc, ListKeeper::new(alloc), story, of, parts));
    }
}
