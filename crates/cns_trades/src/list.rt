ghost use Rattle.std.specs.Prelude.{◌≡◌, ◌∷◌, [], ◌++◌, ◌<◌, ◌≤◌, ◌==◌, OnOk, OnErr, IsOk, length};
ghost use Rattle.cns_trades.specs.Listed.{same_trade, trade_in};

use crate::id::TradeId;
use crate::trade::Trade;
use cns_ids::{Cusip, Day, MemberNo, Quantity};
use indexmap::IndexMap;
use std::alloc::{AllocError, Global};
use std::marker::Model;

/// What a list of accepted trades says of a trade.
#[derive(Clone, Copy, PartialEq, Eq, Debug)]
pub enum Verdict {
    /// The trade may be accepted.
    New,
    /// A trade with this id is accepted, and all fields are equal.
    Same,
    /// A trade with this id is accepted, and another field differs.
    Conflict,
    /// The buyer is the seller.
    SameMember,
    /// A million trades are accepted.
    Full,
}

// What a trade says beside its id.
#[derive(Clone, Copy, PartialEq, Eq)]
struct Terms {
    settle: Day,
    buyer: MemberNo,
    seller: MemberNo,
    issue: Cusip,
    quantity: Quantity,
}

impl Terms {
    fn of(trade: &Trade) -> Terms
        ensures { trade_in (trade.now.id, result) ≡ trade.now }
    {
        Terms {
            settle: trade.settle,
            buyer: trade.buyer,
            seller: trade.seller,
            issue: trade.issue,
            quantity: trade.quantity,
        }
    }
}

/// The accepted trades by id, in the order in which they were accepted.
///
/// Contracts see the trades, and for how many more there is room.
#[derive(Drop)]
pub struct TradeList {
    by_id: IndexMap<TradeId, Terms>,
}

impl Model for TradeList {
    ghost use Rattle.std.specs.Prelude.{◌≤◌, length, map};
    ghost use Rattle.indexmap.specs.IndexMap.{spare};
    ghost use Rattle.cns_trades.specs.Listed.{Listed, trade_in};

    ghost Value = { Listed };

    ghost view = { λ a. record { trades = map trade_in a.by_id.entries; room = spare a.by_id } };

    ghost invariant = { λ a. length a.by_id.entries ≤ 1000000 };
}

// Whether a trade with this id says the same as another of its id.
fn is_same(known: &Terms, trade: &Trade) -> bool
    ensures { result ≡ same_trade (trade_in (trade.now.id, known.now)) trade.now }
{
    *known == Terms::of(trade)
}

impl TradeList {
    ghost use Rattle.cns_trades.specs.Verdicts.{verdict};
    ghost use Rattle.cns_trades.specs.declared.list.Verdict.TheVariants.{New};

    /// The most trades that are accepted. (This project's own limit.)
    pub const MAX: usize = 1_000_000;

    /// An empty list.
    pub fn new(alloc: Global) -> TradeList
        ensures { result.trades ≡ [] }
    {
        TradeList {
            by_id: IndexMap::new(alloc),
        }
    }

    /// How many trades are accepted.
    pub fn len(&self) -> usize
        ensures len { result ≡ length self.now.trades }
        ensures few { length self.now.trades ≤ 1000000 }
    {
        self.by_id.len()
    }

    /// Whether no trade is accepted.
    pub fn is_empty(&self) -> bool
        ensures { result ≡ (length self.now.trades == 0) }
    {
        self.len() == 0
    }

    /// What the list says of a trade, tested in this order: `SameMember`; for a known id `Same` or
    /// `Conflict`; `Full`; else `New`. (This project's own rule.)
    pub fn check(&self, trade: &Trade) -> Verdict
        ensures { result ≡ verdict self.now.trades trade.now }
    {
        if trade.buyer == trade.seller {
            return Verdict::SameMember;
        }
        match self.by_id.get(&trade.id) {
            Some(known) => {
                if is_same(known, trade) {
                    Verdict::Same
                } else {
                    Verdict::Conflict
                }
            }
            None => {
                if self.by_id.len() < Self::MAX {
                    Verdict::New
                } else {
                    Verdict::Full
                }
            }
        }
    }

    /// Takes the memory that `add` of a trade needs: as the next change, it then succeeds.
    pub fn add_room(&mut self, _trade: Trade) -> Result<(), AllocError>
        ensures same { self.new.trades ≡ self.old.trades }
        ensures room { OnOk result (0 < self.new.room) }
        ensures err { OnErr result (self.old.room ≡ 0) }
        ensures left { self.old.room ≤ self.new.room }
    {
        self.by_id.reserve(1)
    }

    /// Accepts a trade that is new.
    pub fn add(&mut self, trade: Trade) -> Result<(), AllocError>
        requires { verdict self.old.trades trade ≡ New }
        ensures ok { OnOk result (self.new.trades ≡ self.old.trades ++ trade ∷ []) }
        ensures err { OnErr result (self.new.trades ≡ self.old.trades) }
        ensures room { 0 < self.old.room → IsOk result }
    {
        self.by_id.insert(trade.id, Terms::of(&trade))?;
        Ok(())
    }
}
