//! Lines of lists: positions, pools, balances and orders.
ghost use Rattle.std.specs.Prelude.{◌≡◌, ◌∷◌, ◌++◌, []};
ghost use Rattle.std.specs.List.{flat_map};
ghost use Rattle.cns_ids.specs.Cusip.{cusip_text};
ghost use Rattle.cns_ids.specs.Member.{member_text};
ghost use Rattle.cns_report.specs.Outcomes.{ordered_line};
ghost use Rattle.cns_report.specs.Report.{balance_line, pool_line, position_line};

use crate::account::account_digits;
use crate::position::LastIn20;
use crate::put::{LF, Put, SPACE};
use crate::text::Draft;
use cns_clearing::PoolRow;
use cns_depository::BalanceRow;
use cns_ids::{Cusip, MemberNo};
use cns_movements::Order;
use cns_netting::PositionRow;
use std::alloc::AllocError;

// `CUSIP ACCOUNT`, with a space before and behind.
fn issue_and_account(issue: Cusip, account: [u8; 4]) -> [u8; 16]
    ensures { result ≡ 32 ∷ cusip_text issue ++ 32 ∷ account ++ 32 ∷ [] }
{
    let [c1, c2, c3, c4, c5, c6, c7, c8, c9] = issue.to_bytes();
    let [a1, a2, a3, a4] = account;
    [
        b' ', c1, c2, c3, c4, c5, c6, c7, c8, c9, b' ', a1, a2, a3, a4, b' ',
    ]
}

// `MEMBER CUSIP`, with a space before and behind.
fn member_and_issue(member: MemberNo, issue: Cusip) -> [u8; 16]
    ensures { result ≡ 32 ∷ member_text member ++ 32 ∷ cusip_text issue ++ 32 ∷ [] }
{
    let [m1, m2, m3, m4] = member.to_bytes();
    let [c1, c2, c3, c4, c5, c6, c7, c8, c9] = issue.to_bytes();
    [
        b' ', m1, m2, m3, m4, b' ', c1, c2, c3, c4, c5, c6, c7, c8, c9, b' ',
    ]
}

/// `POS CUSIP MEMBER Q`, the shares of the position right in 20 places.
impl Put for PositionRow {
    ghost text = { position_line };

    #[tactic(auto, unfolding(crate::specs::Report::position_line))]
    fn put(&self, draft: &mut Draft) -> Result<(), AllocError> {
        let of = issue_and_account(self.issue, self.member.to_bytes());
        ("POS", of, LastIn20(self.position)).put(draft)
    }
}

/// `POOL CUSIP free Q lent Q out Q`
impl Put for PoolRow {
    ghost text = { pool_line };

    #[tactic(auto, unfolding(crate::specs::Report::pool_line))]
    fn put(&self, draft: &mut Draft) -> Result<(), AllocError> {
        let free = ("POOL ", self.issue, " free ", self.free);
        ((free, " lent ", self.lent), " out ", self.out, LF).put(draft)
    }
}

/// `BAL CUSIP ACCOUNT Q`, the shares right in 20 places.
impl Put for BalanceRow {
    ghost text = { balance_line };

    #[tactic(auto, unfolding(crate::specs::Report::balance_line))]
    fn put(&self, draft: &mut Draft) -> Result<(), AllocError> {
        let of = issue_and_account(self.issue, account_digits(&self.account));
        ("BAL", of, LastIn20(self.shares)).put(draft)
    }
}

/// `order N KIND MEMBER CUSIP ASKED`, of an order as it was made.
impl Put for Order {
    ghost text = { ordered_line };

    #[tactic(auto, unfolding(crate::specs::Outcomes::ordered_line))]
    fn put(&self, draft: &mut Draft) -> Result<(), AllocError> {
        let of = ("order ", self.number.number(), SPACE, self.kind);
        let from = member_and_issue(self.member, self.issue);
        (of, from, self.asked.shares(), LF).put(draft)
    }
}

/// Rows, each in its line, one after another.
#[derive(Clone, Copy)]
pub(crate) struct Rows<'a, R>(pub(crate) &'a [R]);

impl<R: Put> Put for Rows<'_, R> {
    ghost text = { λ rows. flat_map R.text rows.0.now };

    fn put(&self, draft: &mut Draft) -> Result<(), AllocError> {
        for row in self.0 {
            row.put(draft)?;
        }
        Ok(())
    }
}
