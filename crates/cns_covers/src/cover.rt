ghost use Rattle.std.specs.Prelude.{◌≡◌, ◌^◌, ◌≤◌, ◌∷◌, All, IfOk, length};
ghost use Rattle.std.specs.List.{filter_map};
ghost use Rattle.cns_netting.specs.declared.entry.NetEntry.TheVariants.{Netted};
ghost use Rattle.cns_netting.specs.declared.position.PositionRow.{PositionRow};
ghost use Rattle.cns_covers.specs.Covers.{ShortsFit, covers_of, left_of, short_of as short_shares, row_ask};

use crate::exemptions::Exemptions;
use cns_ids::Day;
use cns_movements::{Ask, Asked, MoveKind, OrderBook};
use cns_netting::{NetBook, PositionRow, RowTest};
use std::alloc::{AllocError, Global};

/// The covers that a cycle of this date orders, by issue, then member: for each the shares that the
/// member is short of in the issue, once `net` has made the trades due that settle by the date, less
/// the shares of its open covers and of its exemption. Where nothing is left there is no cover.
/// (This project's own rule.)
///
/// Nothing is changed. No member may be short of more than 10^18 shares in an issue.
pub fn covers(
    alloc: Global,
    book: &NetBook,
    day: Day,
    orders: &OrderBook,
    exemptions: &Exemptions,
) -> Result<Vec<Ask>, AllocError>
    requires short { ShortsFit (Netted day ∷ book.now.history) }
    ensures { let history = Netted day ∷ book.now.history in
        IfOk result (λ asks.
        asks.items ≡ covers_of history orders.now.book exemptions.now.settings) }
{
    let rows = book.rows_at(day)?;
    covers_of_rows(alloc, &rows, orders, exemptions)
}

/// The covers of positions, in their order: of the positions that `NetBook::rows_at` gives for a date,
/// those that a cycle of that date orders.
///
/// No position may be short of more than 10^18 shares. It costs two look-ups for each position below 0.
pub fn covers_of_rows(
    alloc: Global,
    rows: &[PositionRow],
    orders: &OrderBook,
    exemptions: &Exemptions,
) -> Result<Vec<Ask>, AllocError>
    requires { All (λ (row : PositionRow). short_shares row ≤ 10 ^ 18) rows.now }
    ensures { IfOk result (λ asks.
        asks.items ≡ filter_map (row_ask orders.now.book exemptions.now.settings) rows.now) }
{
    rows.iter()
        .filter_map(|row| cover_of_row(row, orders, exemptions))
        .collect(alloc)
}

/// How many covers `covers` of a date gives. It takes no memory, and leaves the book as it was.
///
/// Costs one pass over the trades that are not due and one over all holdings, with look-ups for the
/// trades that would become due and two for each position below 0.
pub fn cover_count(
    book: &mut NetBook,
    day: Day,
    orders: &OrderBook,
    exemptions: &Exemptions,
) -> usize
    ensures count { let history = Netted day ∷ book.old.history in
        result ≡ length (covers_of history orders.now.book exemptions.now.settings) }
    ensures same { book.new ≡ book.old }
{
    book.count_at(day, &CoverTest { orders, exemptions })
}

// The test whether a position has a cover.
#[derive(Drop)]
struct CoverTest<'a> {
    orders: &'a OrderBook,
    exemptions: &'a Exemptions,
}

impl<'a> RowTest for CoverTest<'a> {
    ghost use Rattle.cns_covers.specs.Covers.{has_ask};

    ghost passing = { λ test row. has_ask test.orders.now.book test.exemptions.now.settings row };

    #[tactic(auto, unfolding(crate::specs::Covers::has_ask))]
    fn passes(&self, row: &PositionRow) -> bool {
        short_of(row) != 0 && left_to_cover(row, self.orders, self.exemptions) != 0
    }
}

// The cover of a position, where one is left. Nothing is looked up where it is not short.
#[tactic(auto, unfolding(crate::specs::Covers::row_ask))]
fn cover_of_row(row: &PositionRow, orders: &OrderBook, exemptions: &Exemptions) -> Option<Ask>
    requires { short_shares row.now ≤ 10 ^ 18 }
    ensures { result ≡ row_ask orders.now.book exemptions.now.settings row.now }
{
    if short_of(row) == 0 {
        return None;
    }
    let asked = Asked::new(left_to_cover(row, orders, exemptions) as u64)?;
    Some(Ask {
        kind: MoveKind::Cover,
        member: row.member,
        issue: row.issue,
        asked,
    })
}

// The shares of a position that are left to cover.
fn left_to_cover(row: &PositionRow, orders: &OrderBook, exemptions: &Exemptions) -> u128
    ensures { result ≡ left_of orders.now.book exemptions.now.settings row.now }
{
    let member = row.member;
    let issue = row.issue;
    let open = orders.open_of(MoveKind::Cover, member, issue);
    let exempt = u128::from(exemptions.get(member, issue).count());
    short_of(row).saturating_sub(open + exempt)
}

// The shares that a position is below 0.
fn short_of(row: &PositionRow) -> u128
    ensures { result ≡ short_shares row.now }
{
    if row.position < 0 {
        u128::from(row.position.unsigned_abs())
    } else {
        0
    }
}
