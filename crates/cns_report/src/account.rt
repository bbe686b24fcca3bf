ghost use Rattle.std.specs.Prelude.{◌≡◌};
ghost use Rattle.cns_report.specs.Report.{account_text};

use crate::put::Put;
use crate::text::Draft;
use cns_depository::Account;
use std::alloc::AllocError;

/// An account as lines show it: four digits, of which the CNS account has zeros alone.
pub(crate) fn account_digits(account: &Account) -> [u8; 4]
    ensures { result ≡ account_text account.now }
{
    match account {
        Account::Cns => [b'0'; 4],
        Account::Member(member) => member.to_bytes(),
    }
}

impl Put for Account {
    ghost text = { account_text };

    fn put(&self, draft: &mut Draft) -> Result<(), AllocError> {
        draft.add(&account_digits(self))
    }
}
