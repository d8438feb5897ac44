//! The blocks of a table as jobs that workers share.

ghost use Rattle.std.specs.Prelude.{◌≡◌, ℕ, ◌+◌, ◌<◌, ◌≤◌, ◌^◌, IfSome, MatchOption};
ghost use Rattle.std.proofs.Props.{props};
ghost use Rattle.tab_check.specs.Jobs.{block_begin};
ghost use Rattle.tab_rule.specs.Blocks.{BlockKeepsRule, IsLeastBadIn, block_count};
ghost use Rattle.tab_runs.specs.RowTables.{rows_for};

use tab_columns::check_block;
use tab_file::TableView;
use tab_rule::{BLOCK_RANKS, block_count};
use tab_runs::{RowTable, check_runs};
use work_run::Job;

/// The blocks of a table: a job for each, whose places are the numbers of its entries.
#[derive(Drop)]
pub(crate) struct TableBlocks<'a> {
    pub(crate) view: TableView<'a>,
    /// Where they are kept, the rows by which blocks are checked run by run.
    pub(crate) rows: Option<RowTable>,
    ghost serves: { IfSome rows (λ kept. kept ≡ rows_for view.pattern) } by { Prim.hlevel props },
    ghost few_blocks: { block_count view.pattern ≤ 2 ^ 32 },
    ghost from_zero: { block_begin view.pattern 0 ≡ 0 },
    ghost rises: { (block : ℕ)
        → block_begin view.pattern block ≤ block_begin view.pattern (block + 1) },
    ghost small: { block_begin view.pattern (block_count view.pattern) ≤ 2 ^ 32 },
}

impl Job for TableBlocks<'_> {
    ghost use Rattle.tab_check.specs.Jobs.{block_begin};
    ghost use Rattle.tab_rule.specs.BadEntries.{IsBad};
    ghost use Rattle.tab_rule.specs.Blocks.{block_count};

    ghost jobs = { λ blocks. block_count blocks.view.pattern };

    ghost begins = { λ blocks block. block_begin blocks.view.pattern block };

    ghost bad = { λ blocks. IsBad blocks.view };

    ghost few = { λ blocks. blocks.few_blocks };

    ghost from_zero = { λ blocks. blocks.from_zero };

    ghost rises = { λ blocks block low. blocks.rises block };

    ghost small = { λ blocks. blocks.small };

    fn count(&self) -> u64 {
        block_count(&self.view.pattern())
    }

    fn first(&self, block: u64) -> u64 {
        let width = u64::from(self.view.pattern().width());
        let entries = self.view.entries().len() as u64;
        entries.min(block * BLOCK_RANKS * width)
    }

    fn run(&self, block: u64) -> Option<u64> {
        bad_entry_in(&self.view, &self.rows, block)
    }
}

/// The number of a block's least entry that breaks the local rule: by runs where their rows are kept, and else by columns.
fn bad_entry_in(table: &TableView<'_>, rows: &Option<RowTable>, block: u64) -> Option<u64>
    requires block { block < block_count table.now.pattern }
    requires rows { IfSome rows.now (λ kept. kept ≡ rows_for table.now.pattern) }
    ensures { MatchOption result (BlockKeepsRule table.now block) (IsLeastBadIn table.now block) }
{
    if let Some(rows) = rows {
        if let Ok(found) = check_runs(table, rows, block) {
            return found;
        }
    }
    check_block(table, block)
}
