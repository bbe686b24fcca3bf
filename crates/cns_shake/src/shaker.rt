ghost use Rattle.std.specs.Prelude.{◌≡◌};
ghost use Rattle.cns_shake.specs.Shake.{event_of, generator_of, picked_of};
ghost use Rattle.rand_pcg.specs.Pcg.{pcg32};

use cns_system::{Counts, Event};
use rand_core::SeedableRng;
use rand_core::utils::NextWord;
use rand_pcg::Lcg64Xsh32;
use std::marker::Model;

/// How many draws precede each pump of a run that is shaken. (This project's own rule.)
pub const DRAWS: u64 = 16;

/// The generator of a run that is shaken, a PCG (XSH RR 64/32).
///
/// Contracts see its state and its increment.
#[derive(Drop)]
pub struct Shaker {
    words: Lcg64Xsh32,
}

impl Model for Shaker {
    ghost use Rattle.rand_pcg.specs.Lcg.{Lcg};

    ghost Value = { Lcg };

    ghost view = { λ s. s.words };
}

impl Shaker {
    /// The generator that a number starts, as `seed_from_u64` makes it.
    #[tactic(auto, unfolding(crate::specs::Shake::generator_of))]
    pub fn new(seed: u64) -> Shaker
        ensures { result ≡ generator_of seed }
    {
        Shaker {
            words: Lcg64Xsh32::seed_from_u64(seed),
        }
    }

    /// Draws: takes the generator's next word, and answers the event that it names beside these counts.
    ///
    /// The word's remainder by 4 says what happens: an order is sent, a packet of an order arrives, a
    /// packet of a reply arrives, or nothing. Its quotient by 4 says which one of those that there are;
    /// where there are none nothing happens. A word is taken also where nothing happens. (This
    /// project's own rule.)
    #[tactic(auto, unfolding(crate::specs::Shake::event_of))]
    pub fn draw(&mut self, counts: &Counts) -> Option<Event>
        ensures event { result ≡ event_of (pcg32 self.old).0 counts.now }
        ensures next { self.new ≡ (pcg32 self.old).1 }
    {
        let word = u64::from(self.words.next_word());
        let place = word / 4;
        match word % 4 {
            0 => pick(counts.orders, place).map(|number| Event::Send { number }),
            1 => pick(counts.order_packets, place).map(|packet| Event::OrderIn { packet }),
            2 => pick(counts.reply_packets, place).map(|packet| Event::ReplyIn { packet }),
            _ => None,
        }
    }
}

// One of so many things, which are numbered from 1.
fn pick(count: u64, place: u64) -> Option<u64>
    ensures { result ≡ picked_of count place }
{
    if count == 0 {
        return None;
    }
    Some(place % count + 1)
}
