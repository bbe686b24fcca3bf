//! The sums of a clearing node, issue by issue.

ghost use Rattle.std.specs.Prelude.{◌≡◌};

use crate::told::Told;
use cns_clearing::Clearing;
use cns_ids::{Cusip, CycleId};
use cns_input::BatchFault;
use cns_journal::Keeper;
use cns_movements::{MoveKind, OrderBook};
use cns_report::{Draft, Put};
use std::alloc::{AllocError, Global};
use std::collections::BTreeMap;
use std::io::Write;

// What confirmed movements of an issue moved, by their kinds.
#[derive(Clone, Copy)]
struct Moved {
    brought: u128,
    taken: u128,
}

// The sums of an issue, or of all issues, in shares.
#[derive(Clone, Copy)]
struct Sums {
    longs: u128,
    shorts: u128,
    free: u128,
    out: u128,
    brought: u128,
    taken: u128,
}

impl Sums {
    const NOTHING: Sums = Sums {
        longs: 0,
        shorts: 0,
        free: 0,
        out: 0,
        brought: 0,
        taken: 0,
    };

    // Both together.
    fn with(&self, other: &Sums) -> Sums {
        Sums {
            longs: self.longs.saturating_add(other.longs),
            shorts: self.shorts.saturating_add(other.shorts),
            free: self.free.saturating_add(other.free),
            out: self.out.saturating_add(other.out),
            brought: self.brought.saturating_add(other.brought),
            taken: self.taken.saturating_add(other.taken),
        }
    }

    // Whether one of them is not 0.
    fn has_any(&self) -> bool {
        self.longs > 0
            || self.shorts > 0
            || self.free > 0
            || self.out > 0
            || self.brought > 0
            || self.taken > 0
    }
}

// `longs N, shorts N, free N, out N, brought N, taken N`
impl Put for Sums {
    ghost use Rattle.std.specs.Prelude.{◌++◌, codes};
    ghost use Rattle.std.specs.Fmt.{decimal};

    ghost text = { λ s. (codes "longs " ++ decimal s.longs ++ codes ", shorts " ++ decimal s.shorts) ++ (codes ", free " ++ decimal s.free ++ codes ", out " ++ decimal s.out)
        ++ (codes ", brought " ++ decimal s.brought ++ codes ", taken " ++ decimal s.taken) };

    fn put(&self, draft: &mut Draft) -> Result<(), AllocError> {
        let members = ("longs ", self.longs, ", shorts ", self.shorts);
        let pool = (", free ", self.free, ", out ", self.out);
        let moved = (", brought ", self.brought, ", taken ", self.taken);
        (members, pool, moved).put(draft)
    }
}

// What confirmed movements moved, by the issues of all orders.
fn moved_by_issue(alloc: Global, book: &OrderBook) -> Result<BTreeMap<Cusip, Moved>, AllocError> {
    let mut issues = BTreeMap::new(alloc);
    for order in book.orders() {
        let moved = issues.entry(order.issue)?.or_insert(Moved {
            brought: 0,
            taken: 0,
        });
        let shares = match book.confirmed(order.number) {
            Some(shares) => u128::from(shares.count()),
            None => 0,
        };
        match order.kind {
            MoveKind::Cover => moved.brought = moved.brought.saturating_add(shares),
            MoveKind::Delivery => moved.taken = moved.taken.saturating_add(shares),
        }
    }
    Ok(issues)
}

// The same, with the issues of all positions among them.
fn issues_of<K: Keeper>(
    alloc: Global,
    node: &Clearing<K>,
) -> Result<BTreeMap<Cusip, Moved>, AllocError> {
    let mut issues = moved_by_issue(alloc, node.orders())?;
    for row in &node.book().rows()? {
        issues.entry(row.issue)?.or_insert(Moved {
            brought: 0,
            taken: 0,
        });
    }
    Ok(issues)
}

// The sums of an issue.
fn sums_of<K: Keeper>(node: &Clearing<K>, issue: Cusip, moved: &Moved) -> Sums {
    Sums {
        longs: node.book().longs(issue),
        shorts: node.book().shorts(issue),
        free: node.free(issue),
        out: node.out(issue),
        brought: moved.brought,
        taken: moved.taken,
    }
}

// Tells the latest cycle.
fn tell_latest<W: Write + Drop>(
    told: &mut Told<W>,
    name: &str,
    latest: Option<CycleId>,
) -> Result<(), BatchFault>
    ensures { told.new.faults ≡ told.old.faults }
{
    match latest {
        None => told.line(name, "no cycle was run"),
        Some(id) => told.line(name, ("the latest cycle is ", id.day, " ", id.kind)),
    }
}

/// Tells the latest cycle of a clearing node, and the sums of all its issues; of each issue before them where that is asked for.
pub(crate) fn tell_clearing<K: Keeper, W: Write + Drop>(
    alloc: Global,
    told: &mut Told<W>,
    name: &str,
    node: &Clearing<K>,
    each: bool,
) -> Result<(), BatchFault>
    ensures { told.new.faults ≡ told.old.faults }
{
    tell_latest(told, name, node.latest())?;
    let mut all = Sums::NOTHING;
    let mut count = 0u64;
    for (issue, moved) in &issues_of(alloc, node)? {
        let sums = sums_of(node, *issue, moved);
        if sums.has_any() {
            count = count.saturating_add(1);
            all = all.with(&sums);
            if each {
                told.line(name, (*issue, " ", sums))?;
            }
        }
    }
    told.line(name, (all, ", in ", count, " issues"))
}
