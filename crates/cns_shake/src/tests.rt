//! The numbers are from outside this repository: a program of its own reckoned them by the published rules of
//! PCG (XSH RR 64/32) and of `rand_core`'s default `seed_from_u64`.

use crate::{DRAWS, Shaker};
use cns_system::{Counts, Event};
use rand_core::SeedableRng;
use rand_core::utils::NextWord;
use rand_pcg::Lcg64Xsh32;

// Numbers, and the first four words of the generator that each starts.
static WORDS: [(u64, [u32; 4]); 5] = [
    (0, [298703107, 4236525527, 336081875, 1056616254]),
    (1, [866585574, 2109535214, 3403630417, 296513984]),
    (42, [3400036912, 3349765444, 515166382, 4224707908]),
    (
        10_000_000_000,
        [3355630230, 268187147, 3680146726, 3527878754],
    ),
    (u64::MAX, [2553256318, 1362994822, 3759657484, 3366838333]),
];

#[test]
fn words_of_the_generator(rt: HostRuntime) {
    for (seed, words) in &WORDS {
        let mut generator = Lcg64Xsh32::seed_from_u64(*seed);
        for expected in words {
            let word = generator.next_word();
            assert!(rt; word == *expected, "{seed}: {word} and not {expected}");
        }
    }
}

const COUNTS: Counts = Counts {
    orders: 3,
    order_packets: 2,
    reply_packets: 5,
};

const NOTHING: Counts = Counts {
    orders: 0,
    order_packets: 0,
    reply_packets: 0,
};

#[test]
fn draws_before_a_pump(rt: HostRuntime) {
    // What they name beside `COUNTS`, by the generator that 7 starts.
    let drawn = [
        Some(Event::OrderIn { packet: 1 }),
        Some(Event::ReplyIn { packet: 2 }),
        Some(Event::OrderIn { packet: 2 }),
        Some(Event::Send { number: 1 }),
        Some(Event::Send { number: 1 }),
        Some(Event::OrderIn { packet: 2 }),
        Some(Event::Send { number: 3 }),
        Some(Event::Send { number: 2 }),
        None,
        Some(Event::Send { number: 1 }),
        Some(Event::Send { number: 1 }),
        Some(Event::ReplyIn { packet: 2 }),
        Some(Event::Send { number: 3 }),
        Some(Event::OrderIn { packet: 2 }),
        Some(Event::ReplyIn { packet: 3 }),
        Some(Event::OrderIn { packet: 2 }),
    ];
    assert!(rt; DRAWS == drawn.len() as u64);
    let mut shaker = Shaker::new(7);
    for expected in &drawn {
        let event = shaker.draw(&COUNTS);
        assert!(rt; event == *expected, "{event:?} and not {expected:?}");
    }
}

#[test]
fn a_draw_that_names_nothing_takes_a_word(rt: HostRuntime) {
    let mut shaker = Shaker::new(7);
    for _ in 0..DRAWS - 1 {
        assert!(rt; shaker.draw(&NOTHING).is_none());
    }
    assert!(rt; shaker.draw(&COUNTS) == Some(Event::OrderIn { packet: 2 }));
}
