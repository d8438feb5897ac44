//! Folded tables: one byte for each placement.

ghost use Rattle.std.specs.Prelude.{◌≡◌, ◌≤◌, ℕ, IfOk, List};
ghost use Rattle.puz_board.specs.Boards.{IsBoardOf, side_of};
ghost use Rattle.tab_file.specs.Tables.{slot_count};
ghost use Rattle.tab_rule.specs.Counts.{AreCellsOf};
ghost use Rattle.tab_file.specs.EntryBytes.{greatest_count};
ghost use Rattle.tab_rule.specs.FoldedTables.{AreFolded, HasFoldedTable, FoldedTableSays};
ghost use Rattle.tab_rule.specs.LeastEntries.{IsLeastEntry};
ghost use Rattle.tab_rule.specs.declared.tables.Count.TheVariants.{Finite};

use crate::tables::{CheckedTable, Count, count_of};
use pat_place::{Pattern, standing_of};
use puz_board::Board;
use std::alloc::{AllocError, Global};
use std::marker::Model;
use tab_file::{NO_REGION, NO_WAY_HOME};

/// A table with one entry for each placement: the least that its table tells of any board with that placement, wherever
/// the blank is. It owns its bytes. A contract sees its pattern, which settles all entries.
#[derive(Drop)]
pub struct FoldedTable {
    pattern: Pattern,
    entries: Vec<u8>,
}

impl Model for FoldedTable {
    ghost use Rattle.pat_place.specs.Patterns.{ShownPattern};
    ghost use Rattle.tab_rule.specs.StoredFolds.{IsStoredFold};

    ghost Value = { ShownPattern };

    ghost view = { λ folded. folded.pattern };

    ghost invariant = { IsStoredFold };
}

/// Folds a table. Its own bytes are needed no longer.
pub fn fold(alloc: Global, table: &CheckedTable<'_>) -> Result<FoldedTable, AllocError>
    ensures { IfOk result (λ folded. folded ≡ table.now.pattern) }
{
    let pattern = table.pattern();
    // One body for each number of slots, since a loop of known length is several times as fast.
    let entries = match pattern.width() {
        1 => fold_rows::<1>(alloc, table),
        2 => fold_rows::<2>(alloc, table),
        3 => fold_rows::<3>(alloc, table),
        4 => fold_rows::<4>(alloc, table),
        5 => fold_rows::<5>(alloc, table),
        6 => fold_rows::<6>(alloc, table),
        7 => fold_rows::<7>(alloc, table),
        _ => fold_rows::<8>(alloc, table),
    }?;
    Ok(FoldedTable { pattern, entries })
}

/// The entries of a folded table, where the table has W slots for each placement.
fn fold_rows<const W: usize>(alloc: Global, table: &CheckedTable<'_>) -> Result<Vec<u8>, AllocError>
    requires { W ≡ slot_count table.now.pattern }
    ensures { IfOk result (λ folded. AreFolded table.now.pattern folded.items) }
{
    let entries = table.entries();
    let count = table.pattern().count() as usize;
    let mut folded = Vec::with_capacity(alloc, count)?;
    for rank in 0..count {
        let begin = rank * W;
        folded.push_reserved(least_of(&entries[begin..begin + W]));
    }
    Ok(folded)
}

/// The least of some entries, without those of slots that have no region; where none is left, that of no way home.
#[inline]
fn least_of(entries: &[u8]) -> u8
    ensures { IsLeastEntry entries.now result }
{
    let mut least = NO_WAY_HOME;
    for entry in entries {
        if *entry != NO_REGION {
            least = least.min(*entry);
        }
    }
    least
}

impl FoldedTable {
    /// The pattern of the table.
    pub fn pattern(&self) -> Pattern
        ensures pattern { result ≡ self.now }
        ensures folded { HasFoldedTable self.now }
    {
        self.pattern
    }

    /// The entries, rank by rank.
    pub fn entries(&self) -> &[u8]
        ensures { AreFolded self.now result.now }
    {
        self.entries.as_slice()
    }

    /// The least that the table which was folded tells of any board with this board's placement.
    pub fn look(&self, board: &Board) -> Count
        requires { side_of board.now ≡ self.now.side }
        ensures count { FoldedTableSays self.now.tiles board.now result }
        ensures few { (d : ℕ) → result ≡ Finite d → d ≤ greatest_count }
    {
        // Asked only for what its contract says.
        let _side = board.side();
        self.look_in(&board.cells_of_all())
    }

    /// As `look`, of the board whose numbers were found in these cells.
    pub fn look_in(&self, found: &[u8; 25]) -> Count
        requires { (board : List ℕ) × IsBoardOf self.now.side board × AreCellsOf found.now board }
        ensures count { (board : List ℕ) → IsBoardOf self.now.side board
            → AreCellsOf found.now board
            → FoldedTableSays self.now.tiles board result }
        ensures few { (d : ℕ) → result ≡ Finite d → d ≤ greatest_count }
    {
        let standing = standing_of(&self.pattern(), found);
        count_of(self.entries.as_slice()[standing.rank as usize])
    }
}
