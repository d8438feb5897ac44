//! The check of a table file.

ghost use Rattle.std.specs.Prelude.{◌≡◌, ◌⊎◌, ℕ, Err, IfErr, IfOk, IfSome, Ok};
ghost use Rattle.tab_file.specs.HeadFaults.{table_of_file};
ghost use Rattle.tab_file.specs.TableFiles.{IsTableFile};
ghost use Rattle.tab_file.specs.Tables.{Table};
ghost use Rattle.tab_file.specs.declared.headers.HeadFault.{HeadFault};
ghost use Rattle.tab_rule.specs.BadEntries.{IsLeastBadEntry};
ghost use Rattle.tab_rule.specs.ExactTables.{IsExactFile};
ghost use Rattle.tab_rule.specs.TableFaults.{IsTableCauseOf};
ghost use Rattle.tab_rule.specs.declared.tables.TableFault.TheVariants.{Memory, Refused};
ghost use Rattle.tab_rule.specs.declared.tables.TableRefusal.TheVariants.{Head, T7};
ghost use Rattle.tab_runs.specs.RowTables.{rows_for};
ghost use Rattle.work_run.specs.Workers.{AreWorkers};

use crate::jobs::TableBlocks;
use std::alloc::Global;
use std::sync::Wait;
use std::thread::Threads;
use tab_file::{HeadFault, TableView, view};
use tab_rule::{CheckedTable, TableFault, TableRefusal};
use tab_runs::RowTable;
use work_run::{Gate, Workers, run_jobs_by};

/// Below so many entries a table is checked sooner than its rows are made.
const FEW_ENTRIES: usize = 1 << 16;

/// Checks the bytes of an additive pattern database (Korf and Felner 2002), block by block, by so many workers at once.
///
/// The caller's thread is one of them. Each passes the gate once before each block that it checks. The blocks of a large
/// table are checked run by run; where the memory for that is refused, by columns, which is slower.
pub fn check_table<'a, R: Threads + Wait, G: Gate + Sync>(
    rt: &R,
    alloc: Global,
    file: &'a [u8],
    workers: u8,
    gate: &G,
) -> Result<CheckedTable<'a>, TableFault>
    requires { AreWorkers workers }

    // A table comes of an exact file alone, and is that file's. Only want of memory keeps it back.
    ensures ok { IfOk result (λ table. IsExactFile table file.now) }
    ensures exact { (table : Table) → IsExactFile table file.now
        → (result ≡ Ok table) ⊎ (result ≡ Err Memory) }

    // Which fault it is.
    ensures fault { IfErr result (λ fault. IsTableCauseOf fault file.now) }
    ensures head { (fault : HeadFault) → table_of_file file.now ≡ Err fault
        → result ≡ Err (Refused (Head fault)) }
    ensures bad { (table : Table) (number : ℕ) → IsTableFile table file.now
        → IsLeastBadEntry table number
        → (result ≡ Err (Refused (T7 number))) ⊎ (result ≡ Err Memory) }
{
    check_table_by(file, &Workers::new(rt, alloc, workers, gate))
}

/// As `check_table`, by these workers. What else that promises follows from these clauses.
pub fn check_table_by<'a, R: Threads + Wait, G: Gate + Sync>(
    file: &'a [u8],
    workers: &Workers<'_, R, G>,
) -> Result<CheckedTable<'a>, TableFault>
    ensures ok { IfOk result (λ table. IsExactFile table file.now) }
    ensures fault { IfErr result (λ fault. IsTableCauseOf fault file.now) }
{
    let view = match view(file) {
        Ok(view) => view,
        Err(fault) => return Err(TableFault::Refused(TableRefusal::Head(fault))),
    };
    let rows = rows_of(workers.alloc, &view);
    let blocks = TableBlocks { view, rows };
    match run_jobs_by(&blocks, workers) {
        Ok(None) => Ok(CheckedTable::of_view(blocks.view)),
        Ok(Some(number)) => Err(TableFault::Refused(TableRefusal::T7(number))),
        Err(_) => Err(TableFault::Memory),
    }
}

/// The rows for a table, where it has enough entries and their memory is granted.
fn rows_of(alloc: Global, table: &TableView<'_>) -> Option<RowTable>
    ensures { IfSome result (λ rows. rows ≡ rows_for table.now.pattern) }
{
    if table.entries().len() < FEW_ENTRIES {
        return None;
    }
    RowTable::build(alloc, &table.pattern()).ok()
}
