use crate::openings::Openings;
use crate::stock::Stock;
use cns_journal::Ledger;
use cns_records::DepRecord;
use std::alloc::AllocError;

impl Ledger for Stock {
    ghost use Rattle.cns_depository.specs.Stock.{IsExecutable};
    ghost use Rattle.cns_depository.specs.Totals.{IsStockOf};

    type Record = DepRecord;

    type Context = Openings;

    ghost allows = { IsExecutable };

    ghost comes_to = { IsStockOf };

    fn admit(
        &mut self,
        openings: &Openings,
        records: &[DepRecord],
        entry: &DepRecord,
    ) -> Result<bool, AllocError> {
        if !self.is_executable(openings, records, entry) {
            return Ok(false);
        }
        self.room()?;
        self.add(records.len(), entry);
        Ok(true)
    }
}
