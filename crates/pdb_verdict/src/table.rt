//! Whether the table of a table file is exact.

ghost use Rattle.pdb_verdict.specs.Inputs.{table_file};
ghost use Rattle.pdb_verdict.specs.Verdicts.{IsAnswerTo};

use crate::verdicts::{Fault, Verdict};
use std::sync::Wait;
use std::thread::Threads;
use tab_check::check_table_by;
use work_run::{Gate, Workers};

/// The verdict on a table file: each of its entries is right. Or the first refusal that stands: its header's, then the
/// least bad entry's. Want of memory may be answered in place of all but the header's.
#[tactic(auto, using(crate::proofs::TableLemmas::table_refused))]
pub fn verify_table<H: Threads + Wait, G: Gate + Sync>(
    table: &[u8],
    workers: &Workers<'_, H, G>,
) -> Result<Verdict, Fault>
    ensures { IsAnswerTo (table_file table.now) result }
{
    let table = check_table_by(table, workers)?;
    let pattern = table.pattern();
    Ok(Verdict::Exact(pattern.side(), pattern.mask(), table.census()))
}
