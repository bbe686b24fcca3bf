ghost use Rattle.std.specs.Prelude.{◌≡◌, Ok, Err};
ghost use Rattle.cns_depository.specs.Answers.{own_fault_refusal};
ghost use Rattle.cns_system.specs.Happens.{outcome_of, own_told, restart_told, taken_told};
ghost use Rattle.cns_system.specs.declared.entry.Look.{Look};
ghost use Rattle.cns_system.specs.declared.outcome.Outcome.TheVariants as outcomes;

use crate::entry::Look;
use crate::numbered::Opened;
use cns_clearing::{Closed, Cycled, Taken};
use cns_depository::{Own, OwnFault};
use cns_journal::{ReplayFault, Restarted};
use cns_movements::Reply;
use cns_pool::Ticket;
use cns_records::{Instruction, Refusal};

/// What an event came to.
#[derive(Debug, Drop)]
pub enum Outcome {
    /// The trade is accepted.
    Accepted,
    /// The setting is recorded, or the lot is sealed.
    Done,
    /// The cycle is recorded.
    Cycled(Cycled),
    /// The lot is open.
    LotOpened(Opened),
    /// So many shares more were poured into the lot.
    Poured { shares: u64 },
    /// The member drew this ticket.
    Drawn(Ticket),
    /// So many shares were poured into the lot so far.
    LookedPoured { poured: u64 },
    /// The lot's tickets ask for so many shares, and it is sealed or not.
    LookedAsked { asked: u64, sealed: bool },
    /// The lot is closed.
    Closed(Closed),
    /// The order is on the link, as the packet of this number.
    Sent { packet: u64 },
    /// The order is executed, and its reply is on the link as the packet of this number.
    Executed { reply: Reply, packet: u64 },
    /// The order was executed before, and its reply is on the link once more.
    ExecutedAgain { reply: Reply, packet: u64 },
    /// The order is confirmed by this reply.
    Confirmed(Reply),
    /// The order was confirmed by just this reply before.
    ConfirmedAgain(Reply),
    /// The member's own instruction is carried out.
    Instructed(Instruction),
    /// Just this instruction was carried out before.
    InstructedAgain(Instruction),
    /// The node is up with so many records, and `kept` where that is one more than before: over an honest keeper
    /// the record whose commit failed.
    Restarted { records: u64, kept: bool },
    /// The event was refused.
    Refused(Refusal),
}

// What the answers of the nodes' calls come to.
impl Outcome {
    pub(crate) fn of_trade(answer: Result<(), Refusal>) -> Outcome
        ensures { result ≡ outcome_of (λ _. outcomes.Accepted) answer }
    {
        answer.map_or_else(Outcome::Refused, |()| Outcome::Accepted)
    }

    pub(crate) fn of_done(answer: Result<(), Refusal>) -> Outcome
        ensures { result ≡ outcome_of (λ _. outcomes.Done) answer }
    {
        answer.map_or_else(Outcome::Refused, |()| Outcome::Done)
    }

    pub(crate) fn of_cycle(answer: Result<Cycled, Refusal>) -> Outcome
        ensures { result ≡ outcome_of (λ done. outcomes.Cycled done) answer }
    {
        match answer {
            Ok(cycled) => Outcome::Cycled(cycled),
            Err(refusal) => Outcome::Refused(refusal),
        }
    }

    pub(crate) fn of_lot_open(answer: Result<Opened, Refusal>) -> Outcome
        ensures { result ≡ outcome_of (λ lot. outcomes.LotOpened lot) answer }
    {
        answer.map_or_else(Outcome::Refused, Outcome::LotOpened)
    }

    pub(crate) fn of_lot_pour(answer: Result<u64, Refusal>) -> Outcome
        ensures { result ≡ outcome_of (λ shares. outcomes.Poured shares) answer }
    {
        answer.map_or_else(Outcome::Refused, |shares| Outcome::Poured { shares })
    }

    pub(crate) fn of_reserve(answer: Result<Ticket, Refusal>) -> Outcome
        ensures { result ≡ outcome_of (λ ticket. outcomes.Drawn ticket) answer }
    {
        answer.map_or_else(Outcome::Refused, Outcome::Drawn)
    }

    pub(crate) fn of_lot_close(answer: Result<Closed, Refusal>) -> Outcome
        ensures { result ≡ outcome_of (λ done. outcomes.Closed done) answer }
    {
        match answer {
            Ok(closed) => Outcome::Closed(closed),
            Err(refusal) => Outcome::Refused(refusal),
        }
    }

    pub(crate) fn of_look_poured(answer: Result<Look, Refusal>) -> Outcome
        ensures { result ≡ outcome_of (λ (look : Look). outcomes.LookedPoured look.poured) answer }
    {
        match answer {
            Ok(look) => Outcome::LookedPoured {
                poured: look.poured,
            },
            Err(refusal) => Outcome::Refused(refusal),
        }
    }

    pub(crate) fn of_look_asked(answer: Result<Look, Refusal>) -> Outcome
        ensures { result ≡ outcome_of (λ (look : Look). outcomes.LookedAsked look.asked look.sealed) answer }
    {
        match answer {
            Ok(look) => Outcome::LookedAsked {
                asked: look.asked,
                sealed: look.sealed,
            },
            Err(refusal) => Outcome::Refused(refusal),
        }
    }

    pub(crate) fn of_reply(reply: Reply, answer: Result<Taken, Refusal>) -> Outcome
        ensures { result ≡ outcome_of (taken_told reply) answer }
    {
        match answer {
            Ok(Taken::Done) => Outcome::Confirmed(reply),
            Ok(Taken::Again) => Outcome::ConfirmedAgain(reply),
            Err(refusal) => Outcome::Refused(refusal),
        }
    }

    pub(crate) fn of_own(instruction: Instruction, answer: Result<Own, OwnFault>) -> Outcome
        ensures { result ≡ elim answer [ Ok done ↦ own_told instruction done | Err fault ↦ outcomes.Refused (own_fault_refusal fault) ] }
    {
        match answer {
            Ok(Own::Done) => Outcome::Instructed(instruction),
            Ok(Own::Again) => Outcome::InstructedAgain(instruction),
            Err(fault) => Outcome::Refused(Refusal::from(fault)),
        }
    }

    pub(crate) fn of_restart(answer: Result<Restarted, ReplayFault>) -> Outcome
        ensures { result ≡ restart_told answer }
    {
        match answer {
            Ok(Restarted { records, kept }) => Outcome::Restarted { records, kept },
            Err(fault) => Outcome::Refused(Refusal::from(fault)),
        }
    }
}
