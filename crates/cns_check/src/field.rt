//! The fields of a row, and what each has against it.

ghost use Rattle.std.specs.Prelude.{◌≡◌, ◌^◌, [], get_or};
ghost use Rattle.std.specs.Result.{result_err};
ghost use Rattle.csv.specs.Records.{fields_of};
ghost use Rattle.cns_ids.specs.Cusip.{read_cusip};
ghost use Rattle.cns_ids.specs.Number.{number_in};
ghost use Rattle.cns_ids.specs.ReadDay.{read_day};
ghost use Rattle.cns_trades.specs.ReadId.{read_id};
ghost use Rattle.cns_trades.specs.Rows.{told};
ghost use Rattle.cns_trades.specs.declared.fault.RowFault.TheVariants as fault;

use cns_ids::{Cusip, Day, MemberNo, Shares, read_quantity};
use cns_trades::{RowFault, TradeId};
use csv::ByteRecord;

/// A field of a record; empty where there is none.
pub(crate) fn field(fields: &ByteRecord, place: usize) -> &[u8]
    ensures { result.now ≡ get_or (fields_of fields.now) place [] }
{
    fields.get(place).unwrap_or(&[])
}

/// What speaks against the trade's id.
pub(crate) fn against_id(text: &[u8]) -> Option<RowFault>
    ensures { result ≡ result_err (told (λ _. fault.Id) (read_id text.now)) }
{
    match TradeId::read(text) {
        Ok(_) => None,
        Err(_) => Some(RowFault::Id),
    }
}

/// What speaks against the settlement date.
pub(crate) fn against_settle(text: &[u8]) -> Option<RowFault>
    ensures { result ≡ result_err (told (λ _. fault.Settle) (read_day text.now)) }
{
    match Day::read(text) {
        Ok(_) => None,
        Err(_) => Some(RowFault::Settle),
    }
}

/// What speaks against the buyer.
pub(crate) fn against_buyer(text: &[u8]) -> Option<RowFault>
    ensures { result ≡ result_err (told fault.Buyer (number_in 1 9999 text.now)) }
{
    match MemberNo::read(text) {
        Ok(_) => None,
        Err(fault) => Some(RowFault::Buyer(fault)),
    }
}

/// What speaks against the seller.
pub(crate) fn against_seller(text: &[u8]) -> Option<RowFault>
    ensures { result ≡ result_err (told fault.Seller (number_in 1 9999 text.now)) }
{
    match MemberNo::read(text) {
        Ok(_) => None,
        Err(fault) => Some(RowFault::Seller(fault)),
    }
}

/// What speaks against the issue.
pub(crate) fn against_cusip(text: &[u8]) -> Option<RowFault>
    ensures { result ≡ result_err (told fault.Cusip (read_cusip text.now)) }
{
    match Cusip::read(text) {
        Ok(_) => None,
        Err(fault) => Some(RowFault::Cusip(fault)),
    }
}

/// What speaks against the quantity.
pub(crate) fn against_quantity(text: &[u8]) -> Option<RowFault>
    ensures { result ≡ result_err (told fault.Quantity (number_in 1 999999999999 text.now)) }
{
    match read_quantity(text) {
        Ok(_) => None,
        Err(fault) => Some(RowFault::Quantity(fault)),
    }
}

/// What speaks against the account.
pub(crate) fn against_account(text: &[u8]) -> Option<RowFault>
    ensures { result ≡ result_err (told fault.Account (number_in 1 9999 text.now)) }
{
    match MemberNo::read(text) {
        Ok(_) => None,
        Err(fault) => Some(RowFault::Account(fault)),
    }
}

/// What speaks against the shares.
pub(crate) fn against_shares(text: &[u8]) -> Option<RowFault>
    ensures { result ≡ result_err (told fault.Shares (number_in 0 (10 ^ 18) text.now)) }
{
    match Shares::read(text) {
        Ok(_) => None,
        Err(fault) => Some(RowFault::Shares(fault)),
    }
}
