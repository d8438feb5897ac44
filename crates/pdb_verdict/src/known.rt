//! Tables of files that were checked before.

ghost use Rattle.tab_file.specs.Tables.{Table};
ghost use Rattle.tab_rule.specs.ExactTables.{IsExactFile};

use tab_file::view;
use tab_rule::CheckedTable;

/// The table of a file that is known to be exact. Nothing is checked anew.
pub fn known_table(file: &[u8]) -> CheckedTable<'_>
    requires { (table : Table) × IsExactFile table file.now }
    ensures { IsExactFile result file.now }
{
    let Ok(view) = view(file) else {
        unreachable!();
    };
    CheckedTable::of_view(view)
}
