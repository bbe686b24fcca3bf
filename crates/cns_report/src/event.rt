//! The lines of events and what they came to.
ghost use Rattle.std.specs.Prelude.{◌≡◌, ◌++◌, codes};
ghost use Rattle.std.specs.Fmt.{decimal};
ghost use Rattle.cns_ids.specs.Member.{member_text};
ghost use Rattle.cns_records.specs.Instruction.{sort_text};
ghost use Rattle.cns_report.specs.Outcomes.{event_line, instruction_text, yes_or_no};
ghost use Rattle.cns_report.specs.Refusals.{node_text, refusal_text, event_word};

use crate::fault::refusal_name;
use crate::put::{LF, Put, SPACE};
use crate::text::Draft;
use cns_movements::Reply;
use cns_records::{Instruction, Refusal};
use cns_system::{Event, NodeName, Outcome};
use std::alloc::AllocError;

/// `lot N poured Q longs N`, of a lot that was opened: its number, the shares that were poured into it and
/// its longs.
#[derive(Clone, Copy, Debug)]
pub struct LotLine {
    pub number: u64,
    pub poured: u64,
    pub longs: usize,
}

impl Put for LotLine {
    ghost text = { λ line. codes "lot " ++ decimal line.number ++ codes " poured " ++ decimal line.poured ++ codes " longs " ++ decimal line.longs ++ codes "\n" };

    fn put(&self, draft: &mut Draft) -> Result<(), AllocError> {
        let of = ("lot ", self.number, " poured ", self.poured);
        (of, " longs ", self.longs as u64, LF).put(draft)
    }
}

/// `WORD refused NAME`, of a refusal whose event is not at hand.
#[derive(Clone, Copy, Debug)]
pub struct RefusedLine<'a> {
    pub word: &'a str,
    pub refusal: Refusal,
}

impl Put for RefusedLine<'_> {
    ghost text = { λ line. line.word.now ++ codes " refused " ++ refusal_text line.refusal ++ codes "\n" };

    fn put(&self, draft: &mut Draft) -> Result<(), AllocError> {
        (self.word, " refused ", refusal_name(self.refusal), LF).put(draft)
    }
}

// The word that the line of a refused, accepted or done event begins with; that of a trade has the trade's
// name behind it.
#[derive(Clone, Copy)]
struct Word<'a>(&'a Event);

impl Put for Word<'_> {
    ghost text = { λ word. event_word word.0.now };

    fn put(&self, draft: &mut Draft) -> Result<(), AllocError> {
        match self.0 {
            Event::Trade(trade) => ("trade ", trade.id).put(draft),
            Event::Exempt { .. } => draft.add(b"exempt"),
            Event::Priority { .. } => draft.add(b"priority"),
            Event::Cycle(_) => draft.add(b"cycle"),
            Event::LotOpen { .. } => draft.add(b"lot"),
            Event::LotPour { .. } => draft.add(b"pour"),
            Event::Reserve { .. } => draft.add(b"reserve"),
            Event::LookPoured { .. } | Event::LookAsked { .. } => draft.add(b"look"),
            Event::Seal { .. } => draft.add(b"seal"),
            Event::LotClose { .. } => draft.add(b"close"),
            Event::Send { .. } => draft.add(b"send"),
            Event::OrderIn { .. } => draft.add(b"order"),
            Event::ReplyIn { .. } => draft.add(b"reply"),
            Event::Own(instruction) => instruction.sort.name().put(draft),
            Event::Restart(_) => draft.add(b"restart"),
        }
    }
}

/// `deposit MEMBER number N`, or `withdraw ..`.
#[derive(Clone, Copy, Debug)]
pub struct Instructed<'a>(pub &'a Instruction);

impl Put for Instructed<'_> {
    ghost text = { λ line. instruction_text line.0.now };

    fn put(&self, draft: &mut Draft) -> Result<(), AllocError> {
        let Instruction {
            sort,
            member,
            number,
            ..
        } = *self.0;
        (sort.name(), SPACE, member, " number ", number.number()).put(draft)
    }
}

/// The line of an event and what it came to, before those of the orders that it made.
///
/// The two looks at a lot share a line: `look poured Q asked Q sealed yes`, or `.. no`. That at what was
/// poured tells `look poured Q` with no end of line, and that at what is asked the rest. What is told of an
/// outcome that the event never has means nothing.
#[derive(Clone, Copy, Debug)]
pub struct EventLine<'a> {
    pub event: &'a Event,
    pub outcome: &'a Outcome,
}

impl Put for EventLine<'_> {
    ghost text = { λ line. event_line line.event.now line.outcome.now };

    #[tactic(auto, unfolding(crate::specs::Outcomes::event_line))]
    fn put(&self, draft: &mut Draft) -> Result<(), AllocError> {
        match self.outcome {
            Outcome::Accepted => (Word(self.event), " accepted\n").put(draft),
            Outcome::Done => (Word(self.event), " ok\n").put(draft),
            Outcome::Cycled(done) => match self.event {
                Event::Cycle(id) => {
                    (("cycle ", id.day, SPACE, id.kind), " due ", done.due, LF).put(draft)
                }
                _ => Ok(()),
            },
            Outcome::LotOpened(lot) => {
                let (number, poured, longs) = (lot.number, lot.poured, lot.plan.len());
                let line = LotLine {
                    number,
                    poured,
                    longs,
                };
                line.put(draft)
            }
            Outcome::Poured { shares } => ("pour ", *shares, LF).put(draft),
            Outcome::Drawn(ticket) => {
                let drawn = ("ticket ", ticket.member, " start ", ticket.start);
                (drawn, " asked ", ticket.asked, LF).put(draft)
            }
            Outcome::LookedPoured { poured } => ("look poured ", *poured).put(draft),
            Outcome::LookedAsked { asked, sealed } => {
                (" asked ", *asked, " sealed ", yes_or_no(*sealed), LF).put(draft)
            }
            Outcome::Closed(done) => ("close granted ", done.granted, LF).put(draft),
            Outcome::Sent { packet } => match self.event {
                Event::Send { number } => { ("send ", *number, " packet ", *packet, LF).put(draft) }
                _ => Ok(()),
            },
            Outcome::Executed { reply, packet } => {
                (("exec ", moved(*reply)), " packet ", *packet, LF).put(draft)
            }
            Outcome::ExecutedAgain { reply, packet } => {
                (("again ", moved(*reply)), " packet ", *packet, LF).put(draft)
            }
            Outcome::Confirmed(reply) => ("confirm ", moved(*reply), " done\n").put(draft),
            Outcome::ConfirmedAgain(reply) => ("confirm ", moved(*reply), " again\n").put(draft),
            Outcome::Instructed(instruction) => (Instructed(instruction), " done\n").put(draft),
            Outcome::InstructedAgain(instruction) => {
                (Instructed(instruction), " again\n").put(draft)
            }
            Outcome::Restarted { records, kept } => match self.event {
                Event::Restart(node) => {
                    let told = ("restart ", node_word(*node), " records ", *records);
                    (told, " kept ", yes_or_no(*kept), LF).put(draft)
                }
                _ => Ok(()),
            },
            Outcome::Refused(refusal) => {
                (Word(self.event), " refused ", refusal_name(*refusal), LF).put(draft)
            }
        }
    }
}

/// `N moved SHARES`: the number of an order, and what was moved.
pub fn moved(reply: Reply) -> (u64, &'static str, u64)
    ensures { (result.0 ≡ reply.number) × (result.1.now ≡ codes " moved ") × (result.2 ≡ reply.moved) }
{
    (reply.number.number(), " moved ", reply.moved.count())
}

// A node's name, as lines show it.
fn node_word(node: NodeName) -> &'static str
    ensures { result.now ≡ node_text node }
{
    match node {
        NodeName::Clear => "CLEAR",
        NodeName::Depot => "DEPOT",
    }
}

/// Whether something is so, as lines show it: `yes` or `no`.
pub fn yes_or_no(answer: bool) -> &'static str
    ensures { result.now ≡ yes_or_no answer }
{
    if answer { "yes" } else { "no" }
}
