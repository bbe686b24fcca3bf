//! A lot that as many workers serve as may, all of them at once.

use super::desk::{Shared, take_all};
use super::story::{Happens, Told, is_told};
use crate::common::{Deed, TUESDAY, apple, new_both, trade_of};
use cns_allocate::{Gate, MAX_WORKERS};
use cns_movements::Order;
use cns_system::{Allocated, Desk, Event, Outcome};
use cns_trades::TradeId;
use std::process::Abort;
use std::sync::Wait;
use std::sync::atomic::{AtomicBool, AtomicU64, Ordering};
use std::thread;

// How often a gate turns at most while it waits.
const MOST_TURNS: u64 = 10_000_000;

// The last of the buyers, who are members 2 to 65.
const LAST_BUYER: u16 = 65;

// All 6,400 shares of member 1 are free.
const COVERED: &[Happens] = &[
    (Deed::Cycle, Told::Cycled(64, 1, 1)),
    (Deed::Send(1), Told::Sent(1)),
    (Deed::OrderIn(1), Told::Executed(1, 6400, 1)),
    (Deed::ReplyIn(1), Told::Confirmed(1, 6400)),
];

// Holds each reserve until every worker came to its own. Each of them is to draw for the place of its number.
#[derive(Drop)]
struct AllCome {
    came: AtomicU64,
    elsewhere: AtomicBool,
    late: AtomicBool,
}

impl Gate for AllCome {
    fn before(&self, worker: usize, place: usize) {
        if worker != place {
            self.elsewhere.store(true, Ordering::SeqCst);
        }
        self.came.fetch_add(1, Ordering::SeqCst);
        for _turn in 0..MOST_TURNS {
            if self.came.load(Ordering::SeqCst) == MAX_WORKERS as u64 {
                return;
            }
            thread::yield_now();
        }
        self.late.store(true, Ordering::SeqCst);
    }

    fn after(&self, _worker: usize, _place: usize) {}
}

// Member 1 sells 100 shares to each of the buyers.
fn sell_to_each(rt: &(impl Abort + Wait), desk: &Shared) {
    for buyer in 2..=LAST_BUYER {
        let name = [b'0' + (buyer / 10 % 10) as u8, b'0' + (buyer % 10) as u8];
        let mut trade = trade_of(rt, &(b"A1", TUESDAY, buyer, 100));
        trade.id = TradeId::read(&name).expect(rt, "a trade's name");
        let outcome = desk.lock(rt).step(Event::Trade(trade));
        assert!(rt; is_told(&outcome, &Told::Accepted));
    }
}

// Whether the tickets, of 100 shares each, stand end to end from 0, and each of the buyers has one.
fn are_of_each(entered: &[Outcome]) -> bool {
    let mut has = [false; 66];
    for (place, outcome) in entered.iter().enumerate() {
        let Outcome::Drawn(ticket) = outcome else {
            return false;
        };
        let member = usize::from(ticket.member.number());
        if member < 2 || member > usize::from(LAST_BUYER) || has[member] {
            return false;
        }
        has[member] = true;
        let (start, rest) = (ticket.start / 100, ticket.start % 100);
        if (start, rest, ticket.asked) != (place as u64, 0, 100) {
            return false;
        }
    }
    entered.len() == 64
}

// Whether an order is of all shares of a ticket.
fn is_of(order: &Order, outcome: &Outcome) -> bool {
    match outcome {
        Outcome::Drawn(ticket) => order.member == ticket.member && order.asked.shares() == 100,
        _ => false,
    }
}

// Whether a lot was closed by all of these tickets.
fn is_closed_by(ended: &Outcome, entered: &[Outcome]) -> bool {
    let Outcome::Closed(done) = ended else {
        return false;
    };
    let mut pairs = done.orders.as_slice().iter().zip(entered);
    is_told(ended, &Told::Closed(6400, 2, 64))
        && pairs.all(|(order, outcome)| is_of(order, outcome))
}

fn see_each(rt: &impl Abort, all: &Allocated) {
    assert!(rt; is_told(&all.opened, &Told::LotOpened(1, 6400, 64)));
    let drawn = all.drawn.as_ref();
    let drawn = drawn.map(|drawn| (drawn.seat.tickets().len(), drawn.cut));
    assert!(rt; drawn == Some((64, None)));
    let Some((ended, entered)) = all.entered.as_slice().split_last() else {
        panic!(rt; "nothing is entered");
    };
    assert!(rt; are_of_each(entered) && is_closed_by(ended, entered));
}

#[test]
fn as_many_workers_as_may_serve_at_once(rt: HostRuntime) {
    let desk = Desk::new(rt.alloc(), new_both(&rt, rt.alloc(), 6400));
    sell_to_each(&rt, &desk);
    take_all(&rt, &desk, COVERED);
    let gate = AllCome {
        came: AtomicU64::new(0),
        elsewhere: AtomicBool::new(false),
        late: AtomicBool::new(false),
    };
    let all = desk
        .allocate(&rt, rt.alloc(), apple(&rt), MAX_WORKERS, &gate)
        .expect(&rt, "memory");
    assert!(rt; !gate.late.load(Ordering::SeqCst) && !gate.elsewhere.load(Ordering::SeqCst));
    see_each(&rt, &all);
    drop(all);
}
