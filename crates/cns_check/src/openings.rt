ghost use Rattle.std.specs.Prelude.{◌≡◌};
ghost use Rattle.std.specs.Result.{result_ok};
ghost use Rattle.csv.specs.Records.{fields_of};
ghost use Rattle.cns_trades.specs.Openings.{opening_of as opening_of_fields};
ghost use Rattle.cns_check.specs.Findings.{against_opening, all_against};

use crate::field::{against_account, against_cusip, against_shares, field};
use crate::finding::{Finding, Table};
use crate::found::Findings;
use crate::rows::{CheckRows, RowPlace, add_faults};
use cns_depository::{OpeningFault, Openings};
use cns_ids::{Cusip, MemberNo, Shares};
use cns_trades::{Opening, RowFault};
use csv::ByteRecord;
use std::alloc::{AllocError, Global};

/// A look at rows of openings, with the openings that stand so far.
#[derive(Drop)]
pub(crate) struct OpeningRows {
    pub(crate) held: Openings,
}

// What each field of a row has against it.
fn faults_of(fields: &ByteRecord) -> [Option<RowFault>; 3]
    ensures { all_against result ≡ all_against (against_opening (fields_of fields.now)) }
{
    if fields.len() != 3 {
        return [Some(RowFault::Fields), None, None];
    }
    [
        against_account(field(fields, 0)),
        against_cusip(field(fields, 1)),
        against_shares(field(fields, 2)),
    ]
}

// The opening that a row is, where it is one.
#[tactic(auto, unfolding(cns_trades::specs::Openings::opening_of))]
fn opening_of(fields: &ByteRecord) -> Option<Opening>
    ensures { result ≡ result_ok (opening_of_fields (fields_of fields.now)) }
{
    if fields.len() != 3 {
        return None;
    }
    let member = MemberNo::read(field(fields, 0)).ok()?;
    let issue = Cusip::read(field(fields, 1)).ok()?;
    let shares = Shares::read(field(fields, 2)).ok()?;
    Some(Opening {
        member,
        issue,
        shares,
    })
}

impl CheckRows for OpeningRows {
    ghost use Rattle.std.specs.Prelude.{refl};
    ghost use Rattle.cns_trades.specs.Fields.{is_opening_header};
    ghost use Rattle.cns_check.specs.Findings.{held_and_found, in_openings};
    ghost use Rattle.cns_check.specs.declared.finding.Table.TheVariants as table_variants;

    ghost table = { table_variants.Openings };

    ghost is_header = { is_opening_header };

    ghost in_rows = { in_openings };

    ghost nothing_in_none = { refl };

    ghost has_seen = { λ o rows. o.held ≡ (held_and_found rows).0 };

    fn table() -> Table {
        Table::Openings
    }

    fn is_header(fields: &ByteRecord) -> bool {
        fields.len() == 3
            && field(fields, 0) == b"account".as_slice()
            && field(fields, 1) == b"cusip".as_slice()
            && field(fields, 2) == b"shares".as_slice()
    }

    fn check(
        &mut self,
        alloc: Global,
        place: RowPlace,
        fields: &ByteRecord,
        found: &mut Findings,
    ) -> Result<(), AllocError> {
        let Some(opening) = opening_of(fields) else {
            let faults = faults_of(fields);
            return add_faults(alloc, Table::Openings, place, fields, &faults, found);
        };
        match self.held.add(&opening) {
            Ok(()) => Ok(()),
            Err(fault) => match fault {
                OpeningFault::OutOfMemory => Err(AllocError),
                _ => {
                    let row = place.row;
                    let here = place.of_field(fields, 2);
                    found.add(alloc, Finding::OpeningRefused { row, fault }, &here)
                }
            },
        }
    }
}
