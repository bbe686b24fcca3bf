use crate::common::assert_same;
use cns_depository::{DepFault, OpeningFault};
use std::alloc::Global;
use std::fmt;
use std::process::Abort;

// Faults, each with its text.
fn assert_texts<T: fmt::Display>(rt: &impl Abort, alloc: Global, cases: &[(T, &str)]) {
    for (fault, words) in cases {
        let text = fault.to_string(alloc).expect(rt, "memory");
        assert_same(rt, &text.as_str(), words);
    }
}

static OPENINGS: [(OpeningFault, &str); 3] = [
    (
        OpeningFault::Double,
        "the member has an opening in the issue",
    ),
    (
        OpeningFault::IssueSum,
        "the openings of the issue would pass 10^18 shares",
    ),
    (OpeningFault::OutOfMemory, "out of memory"),
];

static ORDERS: [(DepFault, &str); 4] = [
    (DepFault::Down, "the depository is down"),
    (DepFault::Conflict, "another order has this number"),
    (DepFault::OutOfMemory, "out of memory"),
    (DepFault::Device, "the journal's device failed"),
];

#[test]
fn texts_of_faults(rt: HostRuntime) {
    assert_texts(&rt, rt.alloc(), &OPENINGS);
    assert_texts(&rt, rt.alloc(), &ORDERS);
}
