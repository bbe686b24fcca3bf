//! The rows of a report.

ghost use Rattle.std.specs.Prelude.{◌≡◌, ◌<◌, ◌==◌, length, not, true, option_map, IfSome};
ghost use Rattle.std.specs.List.{position_from};
ghost use Rattle.cns_table.specs.Row.{account_columns, at_right as at_right_of, has_account_form as has_form_of_account, is_shares_of, name_of, pool_columns, row_of as row_of_line, texts_of};

use crate::text::{is_account, is_cusip, is_number, is_signed};
use crate::words::named;
use cns_words::none_behind;

/// What a row tells of.
#[derive(Clone, Copy, PartialEq, Eq, Debug)]
pub(crate) enum RowKind {
    Position,
    Pool,
    Balance,
}

/// A row of a report, by the columns that it has in the table. What its kind has not is empty.
#[derive(Clone, Copy)]
pub(crate) struct Row<'a> {
    pub(crate) kind: RowKind,
    pub(crate) cusip: &'a [u8],
    /// The member of a position, or the account of a balance.
    pub(crate) account: &'a [u8],
    pub(crate) free: &'a [u8],
    pub(crate) lent: &'a [u8],
    pub(crate) out: &'a [u8],
    pub(crate) shares: &'a [u8],
}

impl RowKind {
    /// The word that its lines begin with.
    pub(crate) fn name(self) -> &'static [u8]
        ensures { result.now ≡ name_of self }
    {
        match self {
            RowKind::Position => b"POS",
            RowKind::Pool => b"POOL",
            RowKind::Balance => b"BAL",
        }
    }
}

// The place of the first character that is no space.
fn first_other(text: &[u8]) -> Option<usize>
    ensures place { result ≡ position_from (λ c. not (c == 32)) 0 text.now }
    ensures within { IfSome result (λ i. i < length text.now) }
{
    for (place, byte) in text.iter().enumerate() {
        if *byte != b' ' {
            return Some(place);
        }
    }
    None
}

// What stands at the right of a text, behind spaces.
#[tactic(auto, unfolding(crate::specs::Row::at_right))]
fn at_right(text: &[u8]) -> Option<&[u8]>
    ensures { option_map (λ t. t.now) result ≡ at_right_of text.now }
{
    let place = first_other(text)?;
    Some(&text[place..])
}

// Whether a text is the shares of a position, or of a balance.
fn is_shares(kind: RowKind, text: &[u8]) -> bool
    ensures { result ≡ is_shares_of kind text.now }
{
    match kind {
        RowKind::Position => is_signed(text),
        RowKind::Pool | RowKind::Balance => is_number(text),
    }
}

// Whether a line has a CUSIP, an account and twenty places more, each behind a space, in their places behind
// a word of three letters.
#[tactic(auto, unfolding(crate::specs::Row::has_account_form))]
fn has_account_form(line: &[u8]) -> bool
    ensures form { result ≡ has_form_of_account line.now }
    ensures size { result ≡ true → length line.now ≡ 39 }
{
    line.len() == 39
        && is_cusip(&line[4..13])
        && line[13] == b' '
        && is_account(&line[14..18])
        && line[18] == b' '
}

// The row of this kind that a line is: `POS CUSIP MEMBER Q` or `BAL CUSIP ACCOUNT Q`, the shares right in 20
// places.
#[tactic(auto, unfolding(crate::specs::Row::account_columns))]
fn account_row(kind: RowKind, line: &[u8]) -> Option<Row<'_>>
    ensures { option_map texts_of result ≡ account_columns kind line.now }
{
    if !has_account_form(line) {
        return None;
    }
    let shares = at_right(&line[19..])?;
    if !is_shares(kind, shares) {
        return None;
    }
    Some(Row {
        kind,
        cusip: &line[4..13],
        account: &line[14..18],
        free: &[],
        lent: &[],
        out: &[],
        shares,
    })
}

// The row that a line is: `POOL CUSIP free Q lent Q out Q`.
#[tactic(auto, unfolding(crate::specs::Row::pool_columns))]
fn pool_row(line: &[u8]) -> Option<Row<'_>>
    ensures { option_map texts_of result ≡ pool_columns line.now }
{
    let (cusip, rest) = named(Some(line), b"POOL")?;
    let (free, rest) = named(rest, b"free")?;
    let (lent, rest) = named(rest, b"lent")?;
    let (out, rest) = named(rest, b"out")?;
    if none_behind(rest)
        && is_cusip(cusip)
        && is_number(free)
        && is_number(lent)
        && is_number(out)
    {
        Some(Row {
            kind: RowKind::Pool,
            cusip,
            account: &[],
            free,
            lent,
            out,
            shares: &[],
        })
    } else {
        None
    }
}

/// The row that a line of a report is.
#[tactic(auto, unfolding(crate::specs::Row::row_of))]
pub(crate) fn row_of(line: &[u8]) -> Option<Row<'_>>
    ensures { option_map texts_of result ≡ row_of_line line.now }
{
    if line.starts_with(b"POS ") {
        account_row(RowKind::Position, line)
    } else if line.starts_with(b"BAL ") {
        account_row(RowKind::Balance, line)
    } else {
        pool_row(line)
    }
}
