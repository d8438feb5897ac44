//! The tables of a bundle: full, or folded.

ghost use Rattle.std.specs.Prelude.{◌≡◌, ◌≤◌, ℕ, List};
ghost use Rattle.puz_board.specs.Boards.{IsBoardOf};
ghost use Rattle.tab_rule.specs.Counts.{AreCellsOf};
ghost use Rattle.tab_file.specs.EntryBytes.{greatest_count};
ghost use Rattle.tab_rule.specs.declared.tables.Count.TheVariants.{Finite};
ghost use Rattle.set_sum.specs.Parts.{IsExactPart, PartSays, part_pattern, part_shown};

use pat_place::Pattern;
use tab_rule::{CheckedTable, Count, FoldedTable};

/// A table of a bundle.
#[derive(Drop)]
pub enum Part<'a> {
    /// A checked table, over the bytes of its file.
    Full(CheckedTable<'a>),
    /// A folded table in its place. The bytes of the file are needed no longer.
    Folded(FoldedTable),
}

impl Part<'_> {
    /// The pattern of the table.
    pub fn pattern(&self) -> Pattern
        ensures pattern { result ≡ part_pattern self.now }
        ensures exact { IsExactPart self.now }
    {
        match self {
            Part::Full(table) => table.pattern(),
            Part::Folded(folded) => folded.pattern(),
        }
    }

    /// What the table tells of the board whose numbers were found in these cells.
    #[inline]
    pub(crate) fn look_in(&self, found: &[u8; 25]) -> Count
        requires { (board : List ℕ)
            × IsBoardOf (part_pattern self.now).side board × AreCellsOf found.now board }
        ensures count { (board : List ℕ) → IsBoardOf (part_pattern self.now).side board
            → AreCellsOf found.now board
            → PartSays (part_shown self.now) board result }
        ensures few { (d : ℕ) → result ≡ Finite d → d ≤ greatest_count }
    {
        match self {
            Part::Full(table) => table.look_in(found),
            Part::Folded(folded) => folded.look_in(found),
        }
    }
}
