ghost use Rattle.std.specs.Prelude.{◌≡◌, ◌<◌, ◌+◌, ◌++◌, ◌∷◌, ℕ, [], length, map, vec_items, Some, IfOk, IfErr};
ghost use Rattle.cns_movements.specs.Order.{order_of};
ghost use Rattle.cns_records.specs.Clear.{spelling, AreWritable};
ghost use Rattle.cns_records.specs.Dep.{dep_spelling};
ghost use Rattle.cns_records.specs.declared.refusal.Refusal.TheVariants as refusal;
ghost use Rattle.cns_clearing.specs.Books.{order_book_of};
ghost use Rattle.cns_clearing.specs.Lots.{AreLots};
ghost use Rattle.cns_wire.specs.Frame.{reply_frame};
ghost use Rattle.cns_wire.specs.Packet.{at_number};
ghost use Rattle.cns_depository.specs.Answers.{take_order_call};
ghost use Rattle.cns_system.specs.Accord.{AreLawful};
ghost use Rattle.cns_system.specs.Happens.{NoMemory, by_order, decided};
ghost use Rattle.cns_system.specs.Headline.{IsBalanced};
ghost use Rattle.cns_system.specs.Lots.{ArePlanned};
ghost use Rattle.cns_system.specs.Numbered.{AreTied};
ghost use Rattle.cns_system.specs.Readers.{PlanStep, counts_of, unconfirmed};
ghost use Rattle.cns_system.specs.Scene.{Comes};
ghost use Rattle.cns_system.specs.Shown.{shown_of};
ghost use Rattle.cns_journal.specs.RecordLog.{IsGivenUp};
ghost use Rattle.cns_system.specs.Start.{IsNotOpened, IsStarted};
ghost use Rattle.cns_system.specs.World.{AreFrames, order_in_packet, reply_in_packet, reply_spelt};
ghost use Rattle.cns_system.specs.declared.event.Event.TheVariants.{OrderIn, ReplyIn, Restart, Send};
ghost use Rattle.cns_system.specs.declared.outcome.Outcome.TheVariants.{Refused};

use crate::agreement::agree;
use crate::event::{Event, NodeName};
use crate::fault::{StartFault, Unopened};
use crate::lots::LotBook;
use crate::numbered::NumberedClearing;
use crate::outcome::Outcome;
use crate::system::Counts;
use cns_clearing::Clearing;
use cns_depository::{Answer, Depository, Openings};
use cns_journal::{Keeper, NotPlanned};
use cns_movements::{MoveNo, Order, Reply};
use cns_records::Refusal;
use cns_wire::{Frame, Wire, read_frame, write_order, write_reply};
use std::alloc::{AllocError, Global};
use std::marker::Model;

/// Both nodes and the link between them, in any state.
#[derive(Drop)]
pub(crate) struct Pair<C: Keeper, D: Keeper> {
    clear: NumberedClearing<C>,
    depot: Depository<D>,
    orders: Wire,
    replies: Wire,
}

impl<C: Keeper, D: Keeper> Model for Pair<C, D> {
    ghost use Rattle.cns_system.specs.World.{AreFrames, World};

    ghost Value = { World };

    ghost view = { λ p. record {
      clear = p.clear;
      depot = p.depot;
      order_packets = p.orders.packets;
      reply_packets = p.replies.packets;
    } };

    ghost invariant = { λ p. AreFrames p.orders.packets p.replies.packets };
}

impl<C: Keeper + Drop, D: Keeper + Drop> Pair<C, D> {
    /// Opens both nodes, as `System::open` does.
    pub(crate) fn open(
        alloc: Global,
        clear: C,
        depot: D,
        openings: Openings,
    ) -> Result<Pair<C, D>, Unopened<C, D>>
        ensures ok { IfOk result (IsStarted openings (C.state clear) (D.state depot)) }
        ensures err { IfErr result (λ refused. IsNotOpened openings refused.fault (map vec_items refused.rejected.items) (C.state clear) (D.state depot) (C.state refused.clear) (D.state refused.depot)) }
    {
        // The openings are dropped by name at an exit: the check takes a call of `drop` as one step, and
        // walks through each field of a value that leaves its scope.
        let clear = match Clearing::open(alloc, clear) {
            Ok(node) => node,
            Err(refused) => {
                drop(openings);
                return Err(Unopened {
                    fault: StartFault::Clear(refused.fault),
                    rejected: refused.rejected,
                    clear: refused.keeper,
                    depot,
                });
            }
        };
        let depot = match Depository::open(alloc, depot, openings) {
            Ok(node) => node,
            Err(refused) => {
                return Err(Unopened {
                    fault: StartFault::Depot(refused.fault),
                    rejected: refused.rejected,
                    clear: clear_keeper(clear),
                    depot: refused.keeper,
                });
            }
        };
        if !agree(&clear, &depot) {
            return Err(Unopened {
                fault: StartFault::Disagree,
                rejected: Vec::new(alloc),
                clear: clear_keeper(clear),
                depot: depot_keeper(depot),
            });
        }
        Ok(Pair {
            clear: NumberedClearing::new(alloc, clear),
            depot,
            orders: Wire::new(alloc),
            replies: Wire::new(alloc),
        })
    }

    /// Gives both keepers up.
    pub(crate) fn into_keepers(self) -> (C, D)
        ensures clear { IsGivenUp spelling self.clear.clear.log (C.state result.0) }
        ensures depot { IsGivenUp dep_spelling self.depot.log (D.state result.1) }
    {
        let Pair {
            clear,
            depot,
            orders,
            replies,
        } = self;
        drop((orders, replies));
        (clear_keeper(clear.into_node()), depot_keeper(depot))
    }
}

// Gives the keeper of a clearing node up. A call that ends in one of these two is checked in few steps,
// however many fields a node has.
fn clear_keeper<C: Keeper>(node: Clearing<C>) -> C
    ensures { IsGivenUp spelling node.log (C.state result) }
{
    node.into_keeper()
}

// Gives the keeper of a depository up.
fn depot_keeper<D: Keeper>(node: Depository<D>) -> D
    ensures { IsGivenUp dep_spelling node.log (D.state result) }
{
    node.into_keeper()
}

impl<C: Keeper, D: Keeper> Pair<C, D> {
    /// The clearing node.
    pub(crate) fn clearing(&self) -> &Clearing<C>
        ensures { result.now ≡ self.now.clear.clear }
    {
        self.clear.node()
    }

    /// The depository.
    pub(crate) fn depository(&self) -> &Depository<D>
        ensures { result.now ≡ self.now.depot }
    {
        &self.depot
    }

    /// The lots by number.
    pub(crate) fn lots(&self) -> &LotBook
        ensures { result.now.lots ≡ self.now.clear.lots }
    {
        self.clear.book()
    }

    /// The orders that are not confirmed, by number.
    pub(crate) fn unconfirmed(&self, alloc: Global) -> Result<Vec<MoveNo>, AllocError>
        ensures { IfOk result (λ numbers. numbers.items ≡ unconfirmed self.now.clear.clear.log.records) }
    {
        self.clear.unconfirmed(alloc)
    }

    /// How many orders and packets there are.
    pub(crate) fn counts(&self) -> Counts
        ensures { result ≡ counts_of (shown_of self.now) }
    {
        Counts {
            orders: self.clear.node().orders().len() as u64,
            order_packets: self.orders.len(),
            reply_packets: self.replies.len(),
        }
    }

    /// Makes the next commit of a node's keeper fail, as `System::plan` does.
    pub(crate) fn plan(&mut self, node: NodeName, stands: bool) -> Result<(), NotPlanned>
        ensures { PlanStep node stands result self.old self.new }
    {
        match node {
            NodeName::Clear => self.clear.plan(stands),
            NodeName::Depot => self.depot.plan(stands),
        }
    }

    /// Does nothing, and tells what each node knows of its own records: each of them may stand after those
    /// before it, and has a payload; in each issue the clearing node's longs, shorts and pool balance; each lot
    /// that has not ended is of the plan of the node's open lot of its issue, which is that of its opening; and
    /// each packet is a frame.
    pub(crate) fn lawful(&self)
        ensures lawful { AreLawful self.now }
        ensures fits { AreWritable self.now.clear.clear.log.records }
        ensures lots { AreLots self.now.clear.clear.log.records self.now.clear.clear.lots }
        ensures frames { AreFrames self.now.order_packets self.now.reply_packets }
        ensures balanced { IsBalanced self.now }
        ensures tied { AreTied self.now.clear.clear.lots self.now.clear.lots }
        ensures planned { ArePlanned self.now.clear.clear.log.records self.now.clear.lots }
    {
        let _open = self.clear.node().has_open_lots();
        let _lots = self.clear.book();
        let _book = self.clear.node().book();
        let _records = self.depot.records();
    }

    /// Lets an event happen, as `System::step` does.
    pub(crate) fn step(&mut self, event: &Event) -> Outcome
        ensures { Comes event.now result self.old self.new }
    {
        match event {
            Event::Trade(trade) => Outcome::of_trade(self.clear.take_trade(trade)),
            Event::Exempt {
                member,
                issue,
                shares,
            } => Outcome::of_done(self.clear.exempt(*member, *issue, *shares)),
            Event::Priority { member, issue, on } => {
                Outcome::of_done(self.clear.priority(*member, *issue, *on))
            }
            Event::Cycle(id) => Outcome::of_cycle(self.clear.cycle(*id)),
            Event::LotOpen { issue } => Outcome::of_lot_open(self.clear.lot_open(*issue)),
            Event::LotPour { lot } => Outcome::of_lot_pour(self.clear.lot_pour(*lot)),
            Event::Reserve { lot, member } => {
                Outcome::of_reserve(self.clear.reserve(*lot, *member))
            }
            Event::LookPoured { lot } => Outcome::of_look_poured(self.clear.look(*lot)),
            Event::LookAsked { lot } => Outcome::of_look_asked(self.clear.look(*lot)),
            Event::Seal { lot } => Outcome::of_done(self.clear.seal(*lot)),
            Event::LotClose { lot } => Outcome::of_lot_close(self.clear.lot_close(*lot)),
            Event::Send { number } => self.send(*number),
            Event::OrderIn { packet } => self.order_in(*packet),
            Event::ReplyIn { packet } => self.reply_in(*packet),
            Event::Own(instruction) => {
                Outcome::of_own(*instruction, self.depot.instruct(instruction))
            }
            Event::Restart(name) => self.restart(*name),
        }
    }

    // The order of a number.
    fn order_at(&self, number: u64) -> Option<Order>
        ensures { result ≡ order_of (order_book_of self.now.clear.clear.log.records).orders number }
    {
        let orders = self.clear.node().orders().orders();
        let place = number.checked_sub(1)?;
        orders.get(place as usize).copied()
    }

    // Restarts a node.
    fn restart(&mut self, name: NodeName) -> Outcome
        ensures { Comes (Restart name) result self.old self.new }
    {
        match name {
            NodeName::Clear => Outcome::of_restart(self.clear.restart()),
            NodeName::Depot => Outcome::of_restart(self.depot.restart()),
        }
    }

    // Puts an order on the link.
    fn send(&mut self, number: u64) -> Outcome
        ensures { Comes (Send number) result self.old self.new }
    {
        if self.clear.node().is_down() {
            return Outcome::Refused(Refusal::Down);
        }
        let Some(order) = self.order_at(number) else {
            return Outcome::Refused(Refusal::UnknownMove);
        };
        match self.orders.put(write_order(&order).as_bytes()) {
            Ok(packet) => Outcome::Sent { packet },
            Err(_) => Outcome::Refused(Refusal::OutOfMemory),
        }
    }

    // The order that a packet holds.
    fn order_in_packet(&self, packet: u64) -> Option<Order>
        ensures { result ≡ order_in_packet (at_number self.now.order_packets packet) }
    {
        match read_frame(self.orders.packet(packet)?) {
            Ok(Frame::Order(order)) => Some(order),
            Ok(Frame::Reply(_)) | Err(_) => None,
        }
    }

    // The reply that a packet holds.
    fn reply_in_packet(&self, packet: u64) -> Option<Reply>
        ensures { result ≡ reply_in_packet (at_number self.now.reply_packets packet) }
    {
        match read_frame(self.replies.packet(packet)?) {
            Ok(Frame::Reply(reply)) => Some(reply),
            Ok(Frame::Order(_)) | Err(_) => None,
        }
    }

    // Lets a packet arrive at the depository.
    fn order_in(&mut self, packet: u64) -> Outcome
        ensures { Comes (OrderIn packet) result self.old self.new }
    {
        let Some(order) = self.order_in_packet(packet) else {
            return Outcome::Refused(Refusal::NoPacket);
        };
        self.take_order(&order)
    }

    // Hands an order to the depository, and puts its reply on the link. The room for the reply's packet
    // is taken first, so that no order is executed without one.
    fn take_order(&mut self, order: &Order) -> Outcome
        ensures { (packet : ℕ) → order_in_packet (at_number self.old.order_packets packet) ≡ Some order.now → Comes (OrderIn packet) result self.old self.new }
    {
        if self.replies.put_room().is_err() {
            return Outcome::Refused(self.refusal_without_room(order));
        }
        match self.depot.take_order(order) {
            Ok(Answer::Done(reply)) => {
                let packet = put_reply(&mut self.replies, &reply);
                Outcome::Executed { reply, packet }
            }
            Ok(Answer::Again(reply)) => {
                let packet = put_reply(&mut self.replies, &reply);
                Outcome::ExecutedAgain { reply, packet }
            }
            Err(fault) => Outcome::Refused(Refusal::from(fault)),
        }
    }

    // Why an order is refused for whose reply there is no room: as the depository refuses it, and else for
    // want of memory.
    fn refusal_without_room(&self, order: &Order) -> Refusal
        ensures { let shown = shown_of self.now in
            decided NoMemory shown (by_order shown (take_order_call order.now shown.depot.down shown.openings shown.depot.records)) ≡ (Refused result, shown) }
    {
        if self.depot.is_down() {
            return Refusal::Down;
        }
        match self.depot.executed(order.number) {
            Some((executed, _)) if !executed.agrees_with(order) => Refusal::Conflict,
            _ => Refusal::OutOfMemory,
        }
    }

    // Lets a packet arrive at the clearing node.
    fn reply_in(&mut self, packet: u64) -> Outcome
        ensures { Comes (ReplyIn packet) result self.old self.new }
    {
        let Some(reply) = self.reply_in_packet(packet) else {
            return Outcome::Refused(Refusal::NoPacket);
        };
        Outcome::of_reply(reply, self.clear.take_reply(&reply))
    }
}

// Puts a reply on the link, in room that was taken before, and answers its packet.
fn put_reply(replies: &mut Wire, reply: &Reply) -> u64
    requires { 0 < replies.old.room }
    ensures packets { replies.new.packets ≡ replies.old.packets ++ reply_frame reply.now ∷ [] }
    ensures number { result ≡ length replies.old.packets + 1 }
    ensures back { reply_in_packet (Some (reply_frame reply.now)) ≡ Some reply.now }
{
    let Ok(packet) = replies.put(&write_reply(reply)) else {
        unreachable!()
    };
    packet
}
