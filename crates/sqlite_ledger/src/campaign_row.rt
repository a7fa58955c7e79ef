//! The one row of the table `campaign`: the version of the tables, and the number of jobs.
ghost use Rattle.std.specs.Prelude.{pos, IfOk, IsTrue, OnOk};
ghost use Rattle.sqlite_ledger.specs.Campaigns.{IsCampaign, IsCampaignRow};

use crate::open_fault::LedgerOpenFault;
use sqlite::{Error, Row};

// The version of the tables of a ledger.
pub(crate) const VERSION: u32 = 1;

// Returns whether a row has the version of these tables and this number of jobs.
fn is_campaign_row(row: &Row, jobs: usize) -> Result<bool, Error>
    ensures { IfOk result (λ is. IsTrue is → IsCampaignRow row.now jobs) }
{
    let version: u32 = row.get(0)?;
    let count: u64 = row.get(1)?;
    Ok(version == VERSION && count == jobs as u64)
}

// Fails with `NotALedger` unless these rows of the table `campaign` are one, with the version of
// these tables and this number of jobs.
pub(crate) fn check_campaign_rows(rows: &[Row], jobs: usize) -> Result<(), LedgerOpenFault>
    ensures { OnOk result (IsCampaign rows.now jobs) }
{
    let [row] = rows else {
        return Err(LedgerOpenFault::NotALedger);
    };
    if is_campaign_row(row, jobs)? {
        Ok(())
    } else {
        Err(LedgerOpenFault::NotALedger)
    }
}
