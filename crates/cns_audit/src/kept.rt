//! The openings of rows, and those that a folder of journals keeps.

ghost use Rattle.std.specs.Prelude.{◌≡◌, ◌||◌, [], false, is_some, IfOk, OnOk, vec_items};
ghost use Rattle.cns_audit.specs.Rows.{take_row, openings_taken};

use cns_depository::{OpeningFault, Openings};
use cns_ids::{Cusip, MemberNo};
use cns_trades::{Opening, OpeningRow, RowFault};
use std::alloc::{AllocError, Global};

/// Why a row of openings falls out.
#[derive(Clone, Copy, PartialEq, Eq, Debug)]
pub(crate) enum FallsOut {
    /// It is faulty; its number.
    Faulty { row: u64, fault: RowFault },
    /// The member has an opening in the issue.
    Double,
    /// The openings of the issue would pass 10^18 shares.
    IssueSum,
}

/// Openings of rows that are taken one after another: those that stand, and whether a row fell out.
#[derive(Drop)]
pub(crate) struct Taken {
    held: Openings,
    list: Vec<Opening>,
    fell_out: bool,
}

impl Taken {
    /// Of no row yet. It takes no memory.
    pub(crate) fn new(alloc: Global) -> Taken
        ensures held { result.held ≡ [] }
        ensures list { vec_items result.list ≡ [] }
        ensures none { result.fell_out ≡ false }
    {
        Taken {
            held: Openings::new(alloc),
            list: Vec::new(alloc),
            fell_out: false,
        }
    }

    /// Takes a row; answers why it falls out, where it does.
    pub(crate) fn take(&mut self, row: &OpeningRow) -> Result<Option<FallsOut>, AllocError>
        requires same { self.old.held ≡ vec_items self.old.list }
        ensures same { OnOk result (self.new.held ≡ vec_items self.new.list) }
        ensures rows { OnOk result ((vec_items self.new.list, self.new.fell_out) ≡ take_row (vec_items self.old.list, self.old.fell_out) row.now) }
        ensures tells { IfOk result (λ why. self.new.fell_out ≡ (self.old.fell_out || is_some why)) }
    {
        let why = match row {
            OpeningRow::Fault { row, fault } => FallsOut::Faulty {
                row: *row,
                fault: *fault,
            },
            OpeningRow::Opening(opening) => match self.held.add(opening) {
                Ok(()) => {
                    self.list.push(*opening)?;
                    return Ok(None);
                }
                Err(OpeningFault::OutOfMemory) => return Err(AllocError),
                Err(OpeningFault::Double) => FallsOut::Double,
                Err(OpeningFault::IssueSum) => FallsOut::IssueSum,
            },
        };
        self.fell_out = true;
        Ok(Some(why))
    }

    /// Those that stand.
    pub(crate) fn into_list(self) -> Vec<Opening>
        ensures { result ≡ self.list }
    {
        let Taken {
            held,
            list,
            fell_out: _,
        } = self;
        drop(held);
        list
    }
}

/// The openings of rows, without those that a run tells as faulty, or that do not hold.
pub fn held_openings(alloc: Global, rows: &[OpeningRow]) -> Result<Vec<Opening>, AllocError>
    ensures { IfOk result (λ list. vec_items list ≡ (openings_taken rows.now).0) }
{
    let mut taken = Taken::new(alloc);
    for row in rows {
        let _ = taken.take(row)?;
    }
    Ok(taken.into_list())
}

// By which openings stand in order.
fn key_of(opening: &Opening) -> (Cusip, MemberNo) {
    (opening.issue, opening.member)
}

/// The text of openings: the header, and a row for each that is not of 0 shares, by issue, then member. So two lists have one
/// text where each account begins with the same shares by both.
pub fn openings_text(alloc: Global, openings: &[Opening]) -> Result<String, AllocError> {
    let mut sorted = openings.to_vec(alloc)?;
    sorted.sort_by_key(key_of)?;
    let mut text = String::from_str(alloc, "account,cusip,shares\n")?;
    for opening in &sorted {
        let shares = opening.shares.count();
        if shares > 0 {
            let member = opening.member.number();
            let issue = opening.issue.to_bytes();
            let issue = str::from_utf8(&issue).unwrap_or("");
            write!(text, "{member:04},{issue},{shares}\n")?;
        }
    }
    Ok(text)
}

/// Whether rows are of just the openings that others are of.
pub fn are_same_openings(
    alloc: Global,
    rows: &[OpeningRow],
    others: &[OpeningRow],
) -> Result<bool, AllocError> {
    let rows = held_openings(alloc, rows)?;
    let others = held_openings(alloc, others)?;
    let text = openings_text(alloc, rows.as_slice())?;
    Ok(text == openings_text(alloc, others.as_slice())?)
}
