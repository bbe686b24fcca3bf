ghost use Rattle.std.specs.Prelude.{◌≡◌, map, vec_items, IfOk, IfErr, OnErr};
ghost use Rattle.cns_records.specs.Clear.{spelling, AreWritable};
ghost use Rattle.cns_records.specs.Dep.{dep_spelling};
ghost use Rattle.cns_clearing.specs.Lots.{AreLots};
ghost use Rattle.cns_system.specs.Accord.{AreLawful, IsInAccord, StaysSound};
ghost use Rattle.cns_system.specs.Headline.{AreStrict, IsAgreed};
ghost use Rattle.cns_system.specs.Lots.{ArePlanned};
ghost use Rattle.cns_system.specs.Numbered.{AreTied};
ghost use Rattle.cns_system.specs.Run.{Run};
ghost use Rattle.cns_system.specs.Readers.{PlanStep, counts_of, unconfirmed};
ghost use Rattle.cns_system.specs.Scene.{Comes, Plans, scene_of};
ghost use Rattle.cns_journal.specs.RecordLog.{IsGivenUp};
ghost use Rattle.cns_system.specs.Shown.{shown_of};
ghost use Rattle.cns_system.specs.Start.{IsNotOpened, IsStarted};
ghost use Rattle.cns_system.specs.World.{AreFrames};

use crate::event::{Event, NodeName};
use crate::fault::Unopened;
use crate::lots::LotBook;
use crate::outcome::Outcome;
use crate::pair::Pair;
use cns_clearing::Clearing;
use cns_depository::{Depository, Openings};
use cns_journal::{Keeper, NotPlanned};
use cns_movements::MoveNo;
use std::alloc::{AllocError, Global};
use std::marker::Model;

/// How many orders and packets there are. (This project's own rule.)
#[derive(Clone, Copy, PartialEq, Eq, Debug)]
pub struct Counts {
    /// How many orders the clearing node has, confirmed ones among them.
    pub orders: u64,
    /// How many packets were put on the link of orders so far.
    pub order_packets: u64,
    /// How many packets were put on the link of replies so far.
    pub reply_packets: u64,
}

/// Both nodes and the link between them, run by events.
///
/// A packet is never taken from the link: it may arrive never, once, or often, and in any order.
///
/// Whatever events happened, where both keepers are honest (the headline): each movement that the
/// depository executed is the order of its number in the clearing node, with its member, its issue and
/// the quantity that it asks for; a delivery moved all of that quantity, and a cover no more than it;
/// each movement that the clearing node has confirmed was executed, and moved just what was confirmed;
/// each packet is a frame, on the link of orders that of the order of its number, on the link of replies
/// that of the reply to a movement that was executed; no number is executed twice, and no account gives
/// more than it has; each record of the clearing node may stand after those before it; each position is
/// the netted trades with the confirmed movements, and is the one by which its netting book goes; in each
/// issue the longs less the shorts are the shares of the pool; and what confirmed deliveries took and open
/// ones ask for is no more than what confirmed covers brought.
///
/// Contracts see the clearing node with its lots by number, the depository, and the packets that were
/// put on the link in each direction, the oldest first.
#[derive(Drop)]
pub struct System<C: Keeper, D: Keeper> {
    pair: Pair<C, D>,
}

impl<C: Keeper, D: Keeper> Model for System<C, D> {
    ghost use Rattle.cns_system.specs.Accord.{IsInAccord};
    ghost use Rattle.cns_system.specs.World.{World};

    ghost Value = { World };

    ghost view = { λ s. s.pair };

    ghost invariant = { λ s. IsInAccord s.pair };
}

impl<C: Keeper + Drop, D: Keeper + Drop> System<C, D> {
    /// Opens both nodes from what their keepers give, the depository with these openings. There are no
    /// lots, and the link has no packets. A refused opening hands both keepers back.
    ///
    /// Refuses what the clearing node's opening refuses, then what the depository's refuses, then
    /// `Disagree` where their records do not agree: where an executed movement is not that of the
    /// order of its number, a delivery moved less than it asks for, or a confirmed movement was not
    /// executed or moved another number of shares. (This project's own rule.)
    pub fn open(
        alloc: Global,
        clear: C,
        depot: D,
        openings: Openings,
    ) -> Result<System<C, D>, Unopened<C, D>>
        ensures ok { IfOk result (IsStarted openings (C.state clear) (D.state depot)) }
        ensures err { IfErr result (λ refused. IsNotOpened openings refused.fault (map vec_items refused.rejected.items) (C.state clear) (D.state depot) (C.state refused.clear) (D.state refused.depot)) }
        ensures accord { IfOk result IsInAccord }

        // Each packet on the link is a frame.
        ensures frames { IfOk result (λ system. AreFrames system.order_packets system.reply_packets) }

        // The headline.
        ensures headline { IfOk result IsAgreed }
    {
        let pair = Pair::open(alloc, clear, depot, openings)?;
        pair.lawful();
        Ok(System { pair })
    }

    /// Gives both keepers up, the clearing node's first. The lots and the packets are gone.
    pub fn into_keepers(self) -> (C, D)
        ensures clear { IsGivenUp spelling self.clear.clear.log (C.state result.0) }
        ensures depot { IsGivenUp dep_spelling self.depot.log (D.state result.1) }
    {
        self.pair.into_keepers()
    }
}

impl<C: Keeper, D: Keeper> System<C, D> {
    /// The clearing node.
    pub fn clearing(&self) -> &Clearing<C>
        ensures { result.now ≡ self.now.clear.clear }
    {
        self.pair.clearing()
    }

    /// The depository.
    pub fn depository(&self) -> &Depository<D>
        ensures { result.now ≡ self.now.depot }
    {
        self.pair.depository()
    }

    /// The lots by number, those that have ended among them.
    pub fn lots(&self) -> &LotBook
        ensures { result.now.lots ≡ self.now.clear.lots }
    {
        self.pair.lots()
    }

    /// The orders that are not confirmed, by number.
    pub fn unconfirmed(&self, alloc: Global) -> Result<Vec<MoveNo>, AllocError>
        ensures { IfOk result (λ numbers. numbers.items ≡ unconfirmed self.now.clear.clear.log.records) }
    {
        self.pair.unconfirmed(alloc)
    }

    /// How many orders the clearing node has, and how many packets were put on each link so far. It takes no
    /// memory. (This project's own rule.)
    pub fn counts(&self) -> Counts
        ensures { result ≡ counts_of (shown_of self.now) }
    {
        self.pair.counts()
    }

    /// Makes the next commit of a node's keeper fail. Its record stands at the restart, or does not.
    ///
    /// Answers `NotPlanned` exactly where the keeper plans no failures. (This project's own rule.)
    pub fn plan(&mut self, node: NodeName, stands: bool) -> Result<(), NotPlanned>
        ensures plan { PlanStep node stands result self.old self.new }
        ensures scene { Plans node stands result (scene_of self.old) (scene_of self.new) }
        ensures accord { IsInAccord self.new }
        ensures frames { AreFrames self.new.order_packets self.new.reply_packets }
        ensures headline { IsAgreed self.new }
        ensures strict { AreStrict self.old → AreStrict self.new }
    {
        let planned = self.pair.plan(node, stands);
        self.pair.lawful();
        planned
    }

    /// Lets an event happen, and answers what it came to.
    #[inline(always)]
    pub fn step(&mut self, event: Event) -> Outcome
        // The outcome and what is left are those of one function of what the surroundings decide, by what is
        // known beforehand of the keepers.
        ensures comes { Comes event result self.old self.new }
        ensures accord { IsInAccord self.new }
        ensures frames { AreFrames self.new.order_packets self.new.reply_packets }

        // No packet is refused as one that the other node never sent, and no journal as bad.
        ensures sound { StaysSound self.old event result }

        // The headline.
        ensures headline { IsAgreed self.new }

        // Allocations close lots by tickets that serve their plans, where they did so before.
        ensures strict { AreStrict self.old → AreStrict self.new }
    {
        // As the records are lawful, a new delivery finds all that it asks for in the CNS account.
        self.pair.lawful();
        let outcome = self.pair.step(&event);
        self.pair.lawful();
        outcome
    }

    /// Lets events happen one after another, as `step` does, and answers what each of them came to.
    ///
    /// Where there is no memory for the outcomes, no event happens.
    pub fn run(&mut self, alloc: Global, events: &[Event]) -> Result<Vec<Outcome>, AllocError>
        ensures run { IfOk result (λ outcomes. Run events.now outcomes.items self.old self.new) }
        ensures accord { IsInAccord self.new }
        ensures headline { IsAgreed self.new }
        ensures strict { AreStrict self.old → AreStrict self.new }
        ensures err { OnErr result (self.new ≡ self.old) }
    {
        self.agreed();
        let mut outcomes = Vec::with_capacity(alloc, events.len())?;
        for event in events {
            let outcome = self.step(*event);
            outcomes.push_reserved(outcome);
        }
        Ok(outcomes)
    }

    // Does nothing, and tells what is so of the nodes and the link.
    pub(crate) fn agreed(&self)
        ensures accord { IsInAccord self.now }
        ensures headline { IsAgreed self.now }
        ensures frames { AreFrames self.now.order_packets self.now.reply_packets }
        ensures lawful { AreLawful self.now }
        ensures fits { AreWritable self.now.clear.clear.log.records }
        ensures lots { AreLots self.now.clear.clear.log.records self.now.clear.clear.lots }
        ensures tied { AreTied self.now.clear.clear.lots self.now.clear.lots }
        ensures planned { ArePlanned self.now.clear.clear.log.records self.now.clear.lots }
    {
        self.pair.lawful();
    }
}
