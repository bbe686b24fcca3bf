//! Events that tests let happen in turn, each with what it has to come to.
//!
//! An event is plain data, and so is what it comes to: so a test is a table, and its proof is short.

use crate::common::{Both, Deed, Draw, apple, member_of};
use cns_depository::Account;
use cns_movements::{Order, Reply};
use cns_records::Refusal;
use cns_system::Outcome;
use std::process::Abort;

// What an event comes to.
pub(super) enum Told {
    Accepted,
    Done,
    // How many trades are due, the number of the first order, and how many were ordered.
    Cycled(u64, u64, usize),
    // The lot's number, what was poured into it, and how many members its plan has.
    LotOpened(u64, u64, usize),
    Poured(u64),
    Drawn(Draw),
    LookedPoured(u64),
    LookedAsked(u64, bool),
    // The shares that were granted, the number of the first order, 0 where there is none, and how many
    // were ordered.
    Closed(u64, u64, usize),
    Sent(u64),
    // The order's number, the shares that were moved, and the packet of the reply.
    Executed(u64, u64, u64),
    ExecutedAgain(u64, u64, u64),
    // The order's number, and the shares that were moved.
    Confirmed(u64, u64),
    // How many records the journal has, and whether the undecided one was kept.
    Restarted(u64, bool),
    Refused(Refusal),
}

// An event, and what it has to come to.
pub(super) type Happens = (Deed, Told);

// Whether so many orders go from this number on.
fn are_from(orders: &[Order], first: u64, count: usize) -> bool {
    let number = match orders.first() {
        Some(order) => order.number.number(),
        None => 0,
    };
    number == first && orders.len() == count
}

fn is_reply(reply: &Reply, number: u64, moved: u64) -> bool {
    reply.number.number() == number && reply.moved.count() == moved
}

// Whether an outcome is what is told.
pub(super) fn is_told(outcome: &Outcome, told: &Told) -> bool {
    match (outcome, told) {
        (Outcome::Accepted, Told::Accepted) | (Outcome::Done, Told::Done) => true,
        (Outcome::Cycled(done), Told::Cycled(due, first, count)) => {
            done.due == *due && are_from(done.orders.as_slice(), *first, *count)
        }
        (Outcome::LotOpened(lot), Told::LotOpened(number, poured, longs)) => {
            (lot.number, lot.poured, lot.plan.len()) == (*number, *poured, *longs)
        }
        (Outcome::Poured { shares }, Told::Poured(wanted)) => shares == wanted,
        (Outcome::Drawn(ticket), Told::Drawn(draw)) => {
            (ticket.member.number(), ticket.start, ticket.asked) == *draw
        }
        (Outcome::LookedPoured { poured }, Told::LookedPoured(wanted)) => poured == wanted,
        (Outcome::LookedAsked { asked, sealed }, Told::LookedAsked(wanted, is_sealed)) => {
            (*asked, *sealed) == (*wanted, *is_sealed)
        }
        (Outcome::Closed(done), Told::Closed(granted, first, count)) => {
            done.granted == *granted && are_from(done.orders.as_slice(), *first, *count)
        }
        (Outcome::Sent { packet }, Told::Sent(wanted)) => packet == wanted,
        (Outcome::Executed { reply, packet }, Told::Executed(number, moved, answer))
        | (Outcome::ExecutedAgain { reply, packet }, Told::ExecutedAgain(number, moved, answer)) =>
            { is_reply(reply, *number, *moved) && packet == answer }
        (Outcome::Confirmed(reply), Told::Confirmed(number, moved)) => {
            is_reply(reply, *number, *moved)
        }
        (Outcome::Restarted { records, kept }, Told::Restarted(wanted, is_kept)) => {
            (*records, *kept) == (*wanted, *is_kept)
        }
        (Outcome::Refused(refusal), Told::Refused(wanted)) => refusal == wanted,
        _ => false,
    }
}

// The shares of member 1 at the depository, and its position at the clearing node.
pub(super) fn stands(rt: &impl Abort, both: &Both) -> (u128, i128) {
    let (member, issue) = (member_of(rt, 1), apple(rt));
    let held = both.depository().balance(Account::Member(member), issue);
    (held, both.clearing().position(member, issue))
}
