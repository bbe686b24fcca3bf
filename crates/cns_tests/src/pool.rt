ghost use Rattle.std.specs.Prelude.{◌≡◌, ◌≤◌, IfOk};
ghost use Rattle.cns_pool.specs.FeederSeat.{new_feeder};
ghost use Rattle.cns_pool.specs.Pool.{new_pool};
ghost use Rattle.cns_pool.specs.WorkerSeat.{new_worker};

use crate::common::{Drawn, member_of, tickets_of};
use cns_ids::MemberNo;
use cns_pool::{
    Asked, Closed, FeederSeat, Held, MAX_POOL, PlainPool, Pool, PoolCell, Reserved, Ticket,
    Tickets, WorkerSeat,
};
use std::alloc::{AllocError, Global};
use std::marker::Model;
use std::process::Abort;
use std::test::Fail;

fn is_drawn(ticket: &Ticket, drawn: &Drawn) -> bool {
    let (number, start, asked) = *drawn;
    ticket.member.number() == number && ticket.start == start && ticket.asked == asked
}

// Whether these are the tickets, in their order.
fn are_drawn(tickets: &[Ticket], drawn: &[Drawn]) -> bool {
    if tickets.len() != drawn.len() {
        return false;
    }
    for (ticket, drawn) in tickets.iter().zip(drawn) {
        if !is_drawn(ticket, drawn) {
            return false;
        }
    }
    true
}

// A call of a pool, and its answer.
#[derive(Clone, Copy)]
enum Step {
    Pour(u64),
    Draw(Drawn),
    // A reserve of a member that the seal refuses, and its shares.
    Refused(u16, u64),
    // The shares poured, those asked, and whether the pool is sealed.
    Look(u64, u64, bool),
    Seal,
}

// What a pool may be asked: shares, shares that are poured, and calls.
#[derive(Clone, Copy)]
struct Limits {
    budget: u64,
    pours: u64,
    calls: u64,
}

// A pool, and what it may still be asked.
#[derive(Drop)]
struct Limited<P: Pool> {
    pool: P,
    budget: u64,
    pours: u64,
    calls: u64,
}

impl<P: Pool> Model for Limited<P> {
    ghost use Rattle.std.specs.Prelude.{◌≡◌};
    ghost use Rattle.cns_pool.specs.Pool.{Pooled};

    ghost Value = { Pooled };

    ghost view = { λ l. P.pool l.pool };

    ghost invariant = { λ l. ((P.pool l.pool).budget ≡ l.budget)
        × ((P.pool l.pool).pour_room ≡ l.pours)
        × ((P.pool l.pool).calls ≡ l.calls) };
}

impl<P: Pool> Limited<P> {
    fn new(pool: P, limits: Limits) -> Limited<P>
        requires { P.pool pool ≡ new_pool limits.budget limits.pours limits.calls }
    {
        Limited {
            pool,
            budget: limits.budget,
            pours: limits.pours,
            calls: limits.calls,
        }
    }

    fn reserve(&mut self, number: u16, asked: u64) -> Option<Reserved> {
        let member = MemberNo::new(number)?;
        if asked == 0 || asked > self.budget || self.calls == 0 {
            return None;
        }
        self.budget -= asked;
        self.calls -= 1;
        Some(self.pool.reserve(member, asked))
    }

    fn draws(&mut self, drawn: &Drawn) -> bool {
        match self.reserve(drawn.0, drawn.2) {
            Some(Reserved::Ticket(ticket)) => is_drawn(&ticket, drawn),
            _ => false,
        }
    }

    fn pours(&mut self, shares: u64) -> bool {
        if shares > self.pours {
            return false;
        }
        self.pours -= shares;
        self.pool.pour(shares);
        true
    }

    fn looks(&mut self, poured: u64, sum: u64, sealed: bool) -> bool {
        let seen = self.pool.look_poured();
        let asked = self.pool.look_asked();
        seen == poured && asked.sum == sum && asked.sealed == sealed
    }

    // Whether the pool answers a step as it says.
    fn answers(&mut self, step: &Step) -> bool {
        match *step {
            Step::Pour(shares) => self.pours(shares),
            Step::Draw(drawn) => self.draws(&drawn),
            Step::Refused(number, asked) => self.reserve(number, asked) == Some(Reserved::Sealed),
            Step::Look(poured, sum, sealed) => self.looks(poured, sum, sealed),
            Step::Seal => {
                self.pool.seal();
                true
            }
        }
    }

    // How many steps the pool answers as they say, up to the first that it does not.
    fn count_answered(&mut self, steps: &[Step]) -> usize {
        for (place, step) in steps.iter().enumerate() {
            if !self.answers(step) {
                return place;
            }
        }
        steps.len()
    }
}

// What a pool comes to: its tickets, the shares poured, and whether it is sealed.
type Come = (&'static [Drawn], u64, bool);

fn is_closed(closed: Closed, come: &Come) -> bool {
    let (drawn, poured, sealed) = *come;
    let so = are_drawn(closed.tickets.as_slice(), drawn)
        && closed.poured == poured
        && closed.sealed == sealed;
    drop(closed);
    so
}

// Whether a pool of any kind answers these steps as they say, and then comes to this.
fn comes_to<P: Pool + Drop>(
    opened: Result<P, AllocError>,
    limits: Limits,
    steps: &[Step],
    come: &Come,
) -> bool
    requires { IfOk opened (λ pool. P.pool pool ≡ new_pool limits.budget limits.pours limits.calls) }
{
    match opened {
        Ok(pool) => {
            let mut limited = Limited::new(pool, limits);
            let answered = limited.count_answered(steps);
            is_closed(limited.pool.close(), come) && answered == steps.len()
        }
        Err(_) => false,
    }
}

// The kinds of pools.
#[derive(Clone, Copy)]
enum Kind {
    Plain,
    Held,
}

// The kind of a pool, what it may be asked, what is done, and what it comes to.
type Story = (Kind, Limits, &'static [Step], Come);

fn is_so(alloc: Global, story: &Story) -> bool {
    let (kind, limits, steps, come) = *story;
    let (budget, pours, calls) = (limits.budget, limits.pours, limits.calls);
    if budget > MAX_POOL || pours > MAX_POOL {
        return false;
    }
    match kind {
        Kind::Plain => {
            let pool = PlainPool::open(alloc, budget, pours, calls);
            comes_to(pool, limits, steps, &come)
        }
        Kind::Held => {
            let pool = Held::open(alloc, budget, pours, calls);
            comes_to(pool, limits, steps, &come)
        }
    }
}

const ROOM: Limits = Limits {
    budget: 60,
    pours: 100,
    calls: 4,
};

const NO_ROOM: Limits = Limits {
    budget: 0,
    pours: 0,
    calls: 0,
};

const ROOM_FOR_THREE: Limits = Limits {
    budget: 70,
    pours: 40,
    calls: 3,
};

const MOST: u64 = 1 << 62;

const ROOM_FOR_MOST: Limits = Limits {
    budget: MOST,
    pours: MOST,
    calls: 2,
};

static END_TO_END: [Step; 6] = [
    Step::Look(0, 0, false),
    Step::Pour(40),
    Step::Draw((2, 0, 30)),
    Step::Look(40, 30, false),
    Step::Draw((3, 30, 30)),
    Step::Look(40, 60, false),
];

#[test]
fn tickets_stand_end_to_end(rt: HostRuntime) -> Result<(), Fail> {
    let mut limited = Limited::new(PlainPool::open(rt.alloc(), 60, 100, 4)?, ROOM);
    let answered = limited.count_answered(&END_TO_END);
    let pool = limited.pool;
    let so = are_drawn(pool.tickets(), &[(2, 0, 30), (3, 30, 30)]);
    drop(pool);
    assert!(rt; answered == END_TO_END.len() && so);
    Ok(())
}

// A sealed pool draws no ticket.
const SEALED: &[Step] = &[
    Step::Pour(40),
    Step::Draw((2, 0, 30)),
    Step::Seal,
    Step::Seal,
    Step::Refused(3, 30),
    Step::Look(40, 30, true),
    Step::Pour(60),
];

// Two tickets, and a reserve that a seal refuses.
const THREE: &[Step] = &[
    Step::Draw((2, 0, 30)),
    Step::Draw((3, 30, 30)),
    Step::Seal,
    Step::Refused(2, 10),
    Step::Pour(40),
];

const AFTER_THREE: Come = (&[(2, 0, 30), (3, 30, 30)], 40, true);

// The most shares are poured and drawn.
const ALL: &[Step] = &[
    Step::Pour(MOST),
    Step::Draw((1, 0, MOST - 1)),
    Step::Draw((2, MOST - 1, 1)),
    Step::Look(MOST, MOST, false),
];

const AFTER_ALL: Come = (&[(1, 0, MOST - 1), (2, MOST - 1, 1)], MOST, false);

// A held cell counts refused shares.
const HELD: &[Step] = &[
    Step::Pour(40),
    Step::Draw((2, 0, 30)),
    Step::Look(40, 30, false),
    Step::Seal,
    Step::Refused(3, 30),
    Step::Look(40, 60, true),
];

static STORIES: [Story; 6] = [
    (Kind::Plain, ROOM, SEALED, (&[(2, 0, 30)], 100, true)),
    (Kind::Plain, NO_ROOM, &[], (&[], 0, false)),
    (Kind::Plain, ROOM_FOR_THREE, THREE, AFTER_THREE),
    (Kind::Plain, ROOM_FOR_MOST, ALL, AFTER_ALL),
    (Kind::Held, ROOM_FOR_THREE, THREE, AFTER_THREE),
    (Kind::Held, ROOM, HELD, (&[(2, 0, 30)], 40, true)),
];

#[test]
fn stories_of_pools(rt: HostRuntime) {
    for (place, story) in STORIES.iter().enumerate() {
        assert!(rt; is_so(rt.alloc(), story), "story {place}");
    }
}

// Whether a reserve at a seat draws this ticket.
fn draws_at(cell: &PoolCell, seat: &mut WorkerSeat, member: MemberNo, drawn: &Drawn) -> bool
    requires cell { seat.old.cell ≡ cell.now }
    requires some { 1 ≤ drawn.now.2 }
    requires budget { drawn.now.2 ≤ seat.old.budget }
    requires calls { 1 ≤ seat.old.calls }
    ensures cell { seat.new.cell ≡ cell.now }
{
    match cell.reserve(seat, member, drawn.2) {
        Reserved::Ticket(ticket) => is_drawn(&ticket, drawn),
        Reserved::Sealed => false,
    }
}

// Whether a reserve at a seat is refused, and what a look shows then.
fn is_sealed_at(cell: &PoolCell, seat: &mut WorkerSeat, member: MemberNo, sum: u64) -> bool
    requires cell { seat.old.cell ≡ cell.now }
    requires budget { 30 ≤ seat.old.budget }
    requires calls { 1 ≤ seat.old.calls }
    ensures cell { seat.new.cell ≡ cell.now }
{
    let Reserved::Sealed = cell.reserve(seat, member, 30) else {
        return false;
    };
    cell.look_asked(seat) == Asked { sum, sealed: true }
}

// The members that draw.
#[derive(Clone, Copy)]
struct Members {
    second: MemberNo,
    third: MemberNo,
}

// A ticket at the first seat, and a reserve at the second one that the seal refuses.
fn draw_and_seal(
    cell: &PoolCell,
    feeder: &mut FeederSeat,
    first: &mut WorkerSeat,
    second: &mut WorkerSeat,
    members: Members,
) -> bool
    requires feeder { feeder.old.cell ≡ cell.now }
    requires first { first.old.cell ≡ cell.now }
    requires second { second.old.cell ≡ cell.now }
    requires budgets { 30 ≤ first.old.budget }
    requires second_budget { 30 ≤ second.old.budget }
    requires calls { 1 ≤ first.old.calls }
    requires second_calls { 1 ≤ second.old.calls }
    ensures feeder { feeder.new.cell ≡ cell.now }
    ensures first { first.new.cell ≡ cell.now }
    ensures second { second.new.cell ≡ cell.now }
{
    let drawn = draws_at(cell, first, members.second, &(2, 0, 30));
    cell.seal(feeder);
    drawn && is_sealed_at(cell, second, members.third, 60)
}

// Whether a seat is joined, after which no call is out.
fn joins(cell: &PoolCell, seat: &mut WorkerSeat, other: WorkerSeat) -> bool
    requires cell { seat.old.cell ≡ cell.now }
    requires other { other.cell ≡ cell.now }
    ensures cell { seat.new.cell ≡ cell.now }
{
    match cell.join(seat, other) {
        Ok(()) => true,
        Err(other) => {
            drop(other);
            false
        }
    }
}

// Two seats of a cell, of which the first draws a ticket and the second meets the seal, and then what
// the cell comes to.
fn two_workers(
    cell: PoolCell,
    mut feeder: FeederSeat,
    mut first: WorkerSeat,
    mut second: WorkerSeat,
    members: Members,
) -> Option<Closed>
    requires feeder { feeder.cell ≡ cell }
    requires first { (first.cell ≡ cell) × (30 ≤ first.budget) × (1 ≤ first.calls) }
    requires second { (second.cell ≡ cell) × (30 ≤ second.budget) × (1 ≤ second.calls) }
{
    let so = draw_and_seal(&cell, &mut feeder, &mut first, &mut second, members);
    let out = first.out();
    let joined = joins(&cell, &mut first, second);
    if first.out() == 0 && out == 2 && so && joined {
        return Some(cell.close(feeder, first));
    }
    drop(cell);
    drop(feeder);
    drop(first);
    None
}

// What a feeder and a worker see poured, of five shares.
fn see_five(cell: &PoolCell, feeder: &mut FeederSeat, first: &mut WorkerSeat) -> bool
    requires feeder { feeder.old ≡ new_feeder cell.now 100 }
    requires first { first.old ≡ new_worker cell.now 60 4 }
    ensures feeder { (feeder.new.cell ≡ cell.now) × (35 ≤ feeder.new.pour_room) }
    ensures first { (first.new.cell ≡ cell.now) × (first.new.budget ≡ 60) × (first.new.calls ≡ 4) }
{
    cell.pour(feeder, 5);
    let fed = cell.look_poured(feeder);
    let seen = cell.look_poured(first);
    fed == 5 && seen == 5
}

fn both_members(rt: &impl Abort) -> Members {
    let (second, third) = (member_of(rt, 2), member_of(rt, 3));
    Members { second, third }
}

#[test]
fn two_workers_and_a_seal(rt: HostRuntime) -> Result<(), Fail> {
    let members = both_members(&rt);
    let (cell, mut feeder, mut first) = PoolCell::open(rt.alloc(), 60, 100, 4)?;
    assert!(rt; see_five(&cell, &mut feeder, &mut first));
    let second = cell.split(&mut first, 30, 2)?;
    cell.pour(&mut feeder, 35);
    let closed = two_workers(cell, feeder, first, second, members).ok_or("a call is out")?;
    assert!(rt; is_closed(closed, &(&[(2, 0, 30)], 40, true)));
    Ok(())
}

// Whether a seat has this room, budget and count of calls.
fn has(seat: &WorkerSeat, room: u64, budget: u64, calls: u64) -> bool {
    seat.room() == room && seat.budget() == budget && seat.calls() == calls
}

#[test]
fn a_join_past_the_room(rt: HostRuntime) -> Result<(), Fail> {
    let (cell, _, mut first) = PoolCell::open(rt.alloc(), 60, 0, 4)?;
    let mut second = cell.split(&mut first, 30, 1)?;
    assert!(rt; has(&first, 1, 30, 3) && has(&second, 0, 30, 1));
    assert!(rt; joins(&cell, &mut second, first));
    assert!(rt; second.budget() == 60 && second.calls() == 4);
    Ok(())
}

fn is_send<T: Send>(_: &T) {}

fn is_sync<T: Sync>(_: &T) {}

#[test]
fn threads_share_a_cell_and_take_seats(rt: HostRuntime) -> Result<(), Fail> {
    let (cell, feeder, worker) = PoolCell::open(rt.alloc(), 0, 0, 0)?;
    is_send(&cell);
    is_sync(&cell);
    is_send(&feeder);
    is_send(&worker);
    assert!(rt; !feeder.is_sealed());
    Ok(())
}

// A list of these tickets.
fn list_of(rt: &impl Abort, alloc: Global, drawn: &[Drawn]) -> Tickets {
    Tickets::from_vec(tickets_of(rt, alloc, drawn))
}

// Whether this is the last of some tickets.
fn ends_in(tickets: Tickets, drawn: &Drawn) -> bool {
    let mut list = tickets.into_vec();
    let last = list.pop();
    drop(list);
    match last {
        Some(ticket) => is_drawn(&ticket, drawn),
        None => false,
    }
}

static TWO: [Drawn; 2] = [(2, 0, 30), (3, 30, 5)];

static OTHERS: [Drawn; 2] = [(2, 0, 30), (4, 30, 5)];

#[test]
fn a_list_of_tickets(rt: HostRuntime) {
    let tickets = list_of(&rt, rt.alloc(), &TWO);
    assert!(rt; are_drawn(tickets.as_slice(), &TWO));
    let same = list_of(&rt, rt.alloc(), &TWO);
    let others = list_of(&rt, rt.alloc(), &OTHERS);
    assert!(rt; tickets == same && tickets != others);
    drop((same, others));
    assert!(rt; ends_in(tickets, &(3, 30, 5)));
}
