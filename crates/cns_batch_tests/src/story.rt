//! Scripts in which packets are lost and arrive again, and nodes fail and restart: after each of them a
//! movement is one and the same in both nodes.

use crate::batch::kept;
use cns_depository::Openings;
use cns_ids::{Cusip, MemberNo, Shares};
use cns_journal::ListKeeper;
use cns_movements::{MoveKind, MoveNo, Order};
use cns_system::System;
use cns_trades::Opening;
use std::alloc::Global;
use std::process::Abort;

// Member 1 sells 60 shares, of which it has 20, and then buys as many from member 3, who has none.
const BEFORE: &[u8] = b"\
    [openings]\naccount,cusip,shares\n1,037833100,20\n\
    [trades]\ntrade,settle,buyer,seller,cusip,quantity\n\
    A1,2025-03-04,2,1,037833100,60\nA2,2025-03-05,1,3,037833100,60\n\
    [script]\nTAKE 1\nCYCLE NIGHT 2025-03-04\n";

// An order of the issue: its kind, its member and the shares that it asks for; and the shares that it
// moved, where it was executed.
type Movement = (MoveKind, u16, u64, Option<u64>);

// The orders of a script, whose numbers go from 1 on.
type Movements = &'static [Movement];

const OPEN: Movements = &[(MoveKind::Cover, 1, 60, None)];

const COVER: Movement = (MoveKind::Cover, 1, 60, Some(20));

const COVERED: Movements = &[COVER];

const BOTH_COVERED: Movements = &[COVER, (MoveKind::Cover, 3, 60, Some(0))];

const DELIVERED: Movements = &[COVER, (MoveKind::Delivery, 2, 20, Some(20))];

// Scripts.
type Scripts = &'static [&'static [u8]];

const PLAIN_DAY: Scripts = &[b"PUMP\nALLOCATE 037833100\nPUMP\n"];

const NOT_ARRIVED: Scripts = &[b"SEND 1\n"];

const COVERING: Scripts = &[
    // The first reply never arrives, and the second one arrives twice.
    b"SEND 1\nORDER 1\nORDER 1\nORDER 1\nREPLY 2\nREPLY 2\n",
    // The depository's device fails as the order is executed; the record stands, or is lost.
    b"FAIL DEPOT KEEP\nSEND 1\nORDER 1\nRESTART DEPOT\nORDER 1\nREPLY 1\n",
    b"FAIL DEPOT DROP\nSEND 1\nORDER 1\nRESTART DEPOT\nORDER 1\nREPLY 1\n",
    // The clearing node's device fails as the reply is taken, and as a cycle is run that is then lost.
    b"FAIL CLEAR KEEP\nSEND 1\nORDER 1\nREPLY 1\nRESTART CLEAR\nREPLY 1\n",
    b"FAIL CLEAR DROP\nSEND 1\nORDER 1\nREPLY 1\nRESTART CLEAR\nPUMP\n",
    b"TAKE 1\nFAIL CLEAR DROP\nCYCLE NIGHT 2025-03-05\nRESTART CLEAR\nPUMP\n",
    // Packets of before arrive once more after both nodes were restarted.
    b"PUMP\nRESTART CLEAR\nRESTART DEPOT\nORDER 1\nREPLY 1\nREPLY 2\n",
];

// A member without shares moves none, also where the record of the cycle stands that nobody was told.
const WITHOUT_SHARES: Scripts = &[
    b"TAKE 1\nCYCLE NIGHT 2025-03-05\nPUMP\n",
    b"TAKE 1\nFAIL CLEAR KEEP\nCYCLE NIGHT 2025-03-05\nRESTART CLEAR\nPUMP\n",
];

// What the script goes on with, and the movements after it.
static STORIES: [(Scripts, Movements); 4] = [
    (PLAIN_DAY, DELIVERED),
    (NOT_ARRIVED, OPEN),
    (COVERING, COVERED),
    (WITHOUT_SHARES, BOTH_COVERED),
];

type Both = System<ListKeeper, ListKeeper>;

// The number of an order, its kind, its member, its issue and the shares that it asks for.
type Said = (u64, MoveKind, u16, [u8; 9], u64);

fn said(order: &Order) -> Said {
    (
        order.number.number(),
        order.kind,
        order.member.number(),
        order.issue.to_bytes(),
        order.asked.shares(),
    )
}

// What the clearing node holds under a number: the order, and the shares that are confirmed.
fn ordered(both: &Both, number: MoveNo) -> Option<(Said, Option<u64>)> {
    let confirmed = both.clearing().orders().confirmed(number);
    match both.clearing().order(number) {
        Ok(order) => Some((said(&order), confirmed.map(|moved| moved.count()))),
        Err(_) => None,
    }
}

// What the depository holds under a number: the order that it executed, and the shares that it moved.
fn executed(both: &Both, number: MoveNo) -> Option<(Said, Option<u64>)> {
    match both.depository().executed(number) {
        Some((order, moved)) => Some((said(&order), Some(moved.count()))),
        None => None,
    }
}

// Both nodes hold this movement under its number, the depository where it was executed, and what moved is
// confirmed.
fn see_movement(rt: &impl Abort, both: &Both, number: u64, movement: &Movement) {
    let (kind, member, asked, moved) = *movement;
    let wanted = Some(((number, kind, member, *b"037833100", asked), moved));
    let number = MoveNo::new(number).expect(rt, "a movement's number");
    assert!(rt; ordered(both, number) == wanted);
    let is_executed = moved.is_some();
    assert!(rt; executed(both, number) == if is_executed { wanted } else { None });
}

// Both nodes hold these movements and no others.
fn see_movements(rt: &impl Abort, both: &Both, movements: &[Movement]) {
    let mut executed = 0usize;
    for (place, movement) in movements.iter().enumerate() {
        see_movement(rt, both, (place as u64).saturating_add(1), movement);
        executed = executed.saturating_add(movement.3.is_some() as usize);
    }
    assert!(rt; both.clearing().orders().len() == movements.len());
    assert!(rt; both.depository().records().len() == executed);
}

// The openings of the input.
fn openings(rt: &impl Abort, alloc: Global) -> Openings {
    let opening = Opening {
        member: MemberNo::new(1).expect(rt, "a member's number"),
        issue: Cusip::read(b"037833100").expect(rt, "an issue"),
        shares: Shares::new(20).expect(rt, "shares"),
    };
    let mut list = Openings::new(alloc);
    list.add(&opening).expect(rt, "an opening");
    list
}

// The nodes that these keepers' records open.
fn opened(rt: &impl Abort, alloc: Global, clear: ListKeeper, depot: ListKeeper) -> Both {
    match System::open(alloc, clear, depot, openings(rt, alloc)) {
        Ok(both) => both,
        Err(refused) => panic!(rt; "not opened: {}", refused.fault),
    }
}

// A script and its movements, over keepers in memory.
fn tell(rt: &impl Abort, alloc: Global, script: &[u8], movements: &[Movement]) {
    let input = [BEFORE, script].concat(alloc).expect(rt, "memory");
    let new = (ListKeeper::new(alloc), ListKeeper::new(alloc));
    let done = kept(alloc, &input, new, &mut Vec::new(alloc));
    assert!(rt; done.result == Ok(()));
    let both = opened(rt, alloc, done.clear, done.depot);
    see_movements(rt, &both, movements);
    // The check takes a call of `drop` as one step.
    drop(both);
}

fn tell_all(rt: &impl Abort, alloc: Global, scripts: &[&[u8]], movements: &[Movement]) {
    for script in scripts {
        tell(rt, alloc, script, movements);
    }
}

#[test]
fn a_movement_is_the_same_in_both_nodes(rt: HostRuntime) {
    for (scripts, movements) in &STORIES {
        tell_all(&rt, rt.alloc(), scripts, movements);
    }
}
