ghost use Rattle.std.specs.Prelude.{◌≡◌, ◌^◌, ◌≤◌, IfOk, IsTrue};
ghost use Rattle.cns_allocate.specs.Plan.{LongsFit};
ghost use Rattle.cns_system.specs.Lot.{planned_sum};

use crate::common::{Draw, TUESDAY, apple, member_of, ticket_of, trade_of};
use cns_allocate::{Plan, Planned};
use cns_covers::Priorities;
use cns_movements::OrderBook;
use cns_netting::NetBook;
use cns_records::Refusal;
use cns_system::LotBook;
use std::alloc::{AllocError, Global};
use std::process::Abort;

mod both;
mod cut_off;
mod desk;
mod finish;
mod floor;
mod start;
mod story;
mod workers;

// Members 2 and 3 are long of 30 each, and member 1 is short of all of them.
#[tactic(auto, using(cns_allocate::proofs::PlanLemmas::unsettled_longs))]
fn two_longs(rt: &impl Abort, alloc: Global) -> Result<NetBook, AllocError>
    ensures { IfOk result (λ book. LongsFit book.history) }
{
    let first = trade_of(rt, &(b"A1", TUESDAY, 2, 30));
    let second = trade_of(rt, &(b"A2", TUESDAY, 3, 30));
    if second.id == first.id {
        panic!(rt; "two trades have one id");
    }
    let mut book = NetBook::new(alloc);
    book.accept(first)?;
    book.accept(second)?;
    book.net(first.settle)?;
    Ok(book)
}

// Whether two members are planned for 30 shares each.
fn is_of_two(plan: &[Planned]) -> bool
    ensures { IsTrue result → planned_sum plan.now ≡ 60 }
{
    match plan {
        [first, second] => first.asked == 30 && second.asked == 30,
        _ => false,
    }
}

// Member 3 has priority.
fn third_first(rt: &impl Abort, alloc: Global) -> Priorities {
    let mut priorities = Priorities::new(alloc);
    let set = priorities.set(member_of(rt, 3), apple(rt), true);
    set.expect(rt, "memory");
    priorities
}

// The plan of the book, where nothing was ordered.
fn plan_of(rt: &impl Abort, alloc: Global, book: &NetBook) -> Plan
    requires { LongsFit book.now.history }
{
    let orders = OrderBook::new(alloc);
    let plan = Plan::of(
        alloc,
        apple(rt),
        book,
        &orders,
        &third_first(rt, alloc),
        &[],
    );
    plan.expect(rt, "memory")
}

// Member 3 has priority and is planned first, then member 2 in a later group.
fn two_groups(rt: &impl Abort, alloc: Global) -> Plan
    ensures { planned_sum result ≤ 10 ^ 18 }
{
    let Ok(book) = two_longs(rt, alloc) else {
        panic!(rt; "no book");
    };
    let plan = plan_of(rt, alloc, &book);
    assert!(rt; is_of_two(plan.as_slice()));
    plan
}

// A call of a book of lots, and its answer. A lot goes by its number.
enum Step {
    // Opens a lot of the two groups, and answers its number.
    Open(u64),
    Count(u64),
    // Whether the lot is of the issue.
    Issue(u64, Result<(), Refusal>),
    // All of the two groups wait for a ticket of the lot.
    Waiting(u64),
    // The member of a ticket of the lot draws it.
    Draw(u64, Draw),
    // Why a member draws no ticket of it.
    NoDraw(u64, u16, Refusal),
    // The tickets of the lot.
    Tickets(u64, &'static [Draw]),
    // The shares of the lot's tickets.
    Asked(u64, u64),
    Seal(u64),
    Sealed(u64, bool),
    Served(u64, bool),
    End(u64, Result<(), Refusal>),
    EndAll,
}

fn opens(rt: &impl Abort, alloc: Global, book: &mut LotBook, number: u64) -> bool {
    let plan = two_groups(rt, alloc);
    book.open(apple(rt), &plan) == Ok(number)
}

fn all_wait(rt: &impl Abort, alloc: Global, book: &LotBook, number: u64) -> bool {
    let plan = two_groups(rt, alloc);
    book.waiting(number) == Ok(plan.as_slice())
}

fn are_drawn(rt: &impl Abort, book: &LotBook, number: u64, wanted: &[Draw]) -> bool {
    let tickets = book.tickets(number).expect(rt, "a lot");
    let mut same = tickets.len() == wanted.len();
    for (ticket, draw) in tickets.iter().zip(wanted) {
        same = same && *ticket == ticket_of(rt, draw);
    }
    same
}

// Whether a book answers a step as it says.
fn answers(rt: &impl Abort, alloc: Global, book: &mut LotBook, step: &Step) -> bool {
    match step {
        Step::Open(number) => opens(rt, alloc, book, *number),
        Step::Count(wanted) => book.len() == *wanted && book.is_empty() == (*wanted == 0),
        Step::Issue(number, wanted) => book.issue(*number) == wanted.map(|()| apple(rt)),
        Step::Waiting(number) => all_wait(rt, alloc, book, *number),
        Step::Draw(number, draw) => {
            book.reserve(*number, member_of(rt, draw.0)) == Ok(ticket_of(rt, draw))
        }
        Step::NoDraw(number, member, fault) => {
            book.reserve(*number, member_of(rt, *member)) == Err(*fault)
        }
        Step::Tickets(number, wanted) => are_drawn(rt, book, *number, wanted),
        Step::Asked(number, wanted) => book.asked(*number) == Ok(*wanted),
        Step::Seal(number) => book.seal(*number) == Ok(()),
        Step::Sealed(number, wanted) => book.is_sealed(*number) == Ok(*wanted),
        Step::Served(number, wanted) => book.is_served(*number) == Ok(*wanted),
        Step::End(number, wanted) => book.end(*number) == *wanted,
        Step::EndAll => {
            book.end_all();
            true
        }
    }
}

fn take_steps(rt: &impl Abort, alloc: Global, mut book: LotBook, steps: &[Step]) {
    for (place, step) in steps.iter().enumerate() {
        assert!(rt; answers(rt, alloc, &mut book, step), "step {place}");
    }
    drop(book);
}

const IN_TURN: &[Step] = &[
    Step::Count(0),
    Step::Open(1),
    Step::NoDraw(1, 2, Refusal::EarlierGroup),
    Step::NoDraw(1, 4, Refusal::NotLong),
    Step::Draw(1, (3, 0, 30)),
    Step::NoDraw(1, 3, Refusal::NotLong),
    Step::Served(1, false),
    Step::Draw(1, (2, 30, 30)),
    Step::Served(1, true),
    Step::Asked(1, 60),
    Step::Tickets(1, &[(3, 0, 30), (2, 30, 30)]),
];

// A number that was not given has no lot.
const NOT_GIVEN: &[Step] = &[
    Step::Open(1),
    Step::Count(1),
    Step::Issue(0, Err(Refusal::NoLot)),
    Step::NoDraw(0, 3, Refusal::NoLot),
    Step::End(0, Err(Refusal::NoLot)),
    Step::Issue(2, Err(Refusal::NoLot)),
    Step::NoDraw(2, 3, Refusal::NoLot),
    Step::End(2, Err(Refusal::NoLot)),
    Step::Issue(1, Ok(())),
];

// A lot that has ended is stale.
const ENDED: &[Step] = &[
    Step::Open(1),
    Step::Open(2),
    Step::End(1, Ok(())),
    Step::Issue(1, Err(Refusal::StaleLot)),
    Step::Waiting(2),
    Step::EndAll,
    Step::NoDraw(2, 3, Refusal::StaleLot),
    Step::Open(3),
];

// A sealed lot draws no ticket.
const SEALED: &[Step] = &[
    Step::Open(1),
    Step::Sealed(1, false),
    Step::Seal(1),
    Step::Seal(1),
    Step::Asked(1, 0),
    Step::Sealed(1, true),
    Step::Served(1, true),
    Step::NoDraw(1, 2, Refusal::EarlierGroup),
    Step::NoDraw(1, 3, Refusal::Sealed),
];

#[test]
fn stories_of_lots(rt: HostRuntime) {
    for steps in [IN_TURN, NOT_GIVEN, SEALED, ENDED] {
        take_steps(&rt, rt.alloc(), LotBook::new(rt.alloc()), steps);
    }
}
