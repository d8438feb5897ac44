//! The check of a table file by one thread: block by block, by runs of placements where their rows are kept.

ghost use Rattle.std.specs.Prelude.{◌≡◌, ◌<◌, IfErr, IfOk, IfSome, MatchOption};
ghost use Rattle.tab_rule.specs.BadEntries.{IsLeastBadEntry};
ghost use Rattle.tab_rule.specs.Blocks.{AllBlocksKeepRule, BlockKeepsRule, IsLeastBadIn, block_count};
ghost use Rattle.tab_rule.specs.ExactTables.{IsExactFile};
ghost use Rattle.tab_rule.specs.TableFaults.{IsTableFaultOf};
ghost use Rattle.tab_runs.specs.RowTables.{rows_for};
ghost use Rattle.pdb_verdict.specs.Table.{IsTableTold};

use pdb_verdict::{Fault, Verdict};
use std::alloc::Global;
use tab_columns::check_block;
use tab_file::{TableView, view};
use tab_rule::{CheckedTable, TableRefusal, block_count};
use tab_runs::{RowTable, check_runs};

/// Below so many entries a table is checked sooner than its rows are made.
const FEW_ENTRIES: usize = 1 << 16;

/// The verdict on a table file: each of its entries is right. Or the first refusal that stands: its header's, then the least bad
/// entry's. Where memory for rows is refused the check is slower, and its answer is the same.
pub(crate) fn verify_alone(alloc: Global, file: &[u8]) -> Result<Verdict, Fault>
    ensures { IsTableTold file.now result }
{
    match check_alone(alloc, file) {
        Ok(table) => {
            let pattern = table.pattern();
            Ok(Verdict::Exact(pattern.side(), pattern.mask(), table.census()))
        }
        Err(refused) => Err(Fault::Table(refused)),
    }
}

/// The checked table of a file, or why it is refused.
fn check_alone(alloc: Global, file: &[u8]) -> Result<CheckedTable<'_>, TableRefusal>
    ensures ok { IfOk result (λ table. IsExactFile table file.now) }
    ensures err { IfErr result (λ refused. IsTableFaultOf refused file.now) }
{
    let view = match view(file) {
        Ok(view) => view,
        Err(fault) => return Err(TableRefusal::Head(fault)),
    };
    let rows = rows_of(alloc, &view);
    match first_bad(&view, &rows) {
        None => Ok(CheckedTable::of_view(view)),
        Some(number) => Err(TableRefusal::T7(number)),
    }
}

/// The number of the least entry that breaks the local rule.
fn first_bad(table: &TableView<'_>, rows: &Option<RowTable>) -> Option<u64>
    requires { IfSome rows.now (λ kept. kept ≡ rows_for table.now.pattern) }
    ensures { MatchOption result (AllBlocksKeepRule table.now) (IsLeastBadEntry table.now) }
{
    for block in 0..block_count(&table.pattern()) {
        if let Some(number) = first_bad_in(table, rows, block) {
            return Some(number);
        }
    }
    None
}

/// The number of a block's least entry that breaks the local rule: by runs where their rows are kept, and else by columns.
fn first_bad_in(table: &TableView<'_>, rows: &Option<RowTable>, block: u64) -> Option<u64>
    requires block { block < block_count table.now.pattern }
    requires rows { IfSome rows.now (λ kept. kept ≡ rows_for table.now.pattern) }
    ensures { MatchOption result (BlockKeepsRule table.now block) (IsLeastBadIn table.now block) }
{
    if let Some(rows) = rows {
        if let Ok(found) = check_runs(table, rows, block) {
            return found;
        }
    }
    check_block(table, block)
}

/// The rows for a table, where it has enough entries and their memory is granted.
fn rows_of(alloc: Global, table: &TableView<'_>) -> Option<RowTable>
    ensures { IfSome result (λ rows. rows ≡ rows_for table.now.pattern) }
{
    if table.entries().len() < FEW_ENTRIES {
        return None;
    }
    RowTable::build(alloc, &table.pattern()).ok()
}
