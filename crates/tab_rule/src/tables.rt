//! Tables that are checked whole.

ghost use Rattle.std.specs.Prelude.{◌≡◌, ◌*◌, ◌<◌, ◌≤◌, ◌==◌, if◌then◌else◌, ℕ, true, IfSome, List, slice_index};
ghost use Rattle.puz_board.specs.Boards.{IsBoardOf, side_of};
ghost use Rattle.puz_board.specs.Masks.{IsMaskOf};
ghost use Rattle.pat_place.specs.Patterns.{has};
ghost use Rattle.pat_place.specs.Placements.{IsFree, IsPlacement, cells_found};
ghost use Rattle.pat_place.specs.Ranks.{IsRank};
ghost use Rattle.pat_place.specs.Regions.{IsSlot};
ghost use Rattle.tab_file.specs.EntryBytes.{greatest_count, no_way_home};
ghost use Rattle.tab_file.specs.Tables.{IsTable, slot_count};
ghost use Rattle.tab_rule.specs.Blocks.{AllBlocksKeepRule};
ghost use Rattle.tab_rule.specs.Counts.{AreCellsOf, IsCensusOf, TableSays};
ghost use Rattle.tab_rule.specs.ExactTables.{IsExactTable};
ghost use Rattle.tab_rule.specs.declared.tables.Count.TheVariants.{Finite, Never};

use crate::census::{Census, census_of};
use pat_place::{Pattern, Placement, SlotTable, Standing, slot_of, standing_of};
use puz_board::Board;
use std::alloc::Global;
use std::marker::Model;
use tab_file::{HeadFault, NO_REGION, NO_WAY_HOME, TableView};

/// Why bytes are no exact table file.
#[derive(Clone, Copy, Debug, PartialEq, Eq)]
pub enum TableRefusal {
    /// They are no table file.
    Head(HeadFault),
    /// They are a table file, and the entry with this number is the least that breaks the local rule.
    T7(u64),
}

/// Why no checked table comes of bytes.
#[derive(Clone, Copy, Debug, PartialEq, Eq)]
pub enum TableFault {
    /// They are no exact table file.
    Refused(TableRefusal),
    /// They are a table file, and there isn't the memory to check it.
    Memory,
}

/// What a table tells of a board.
#[derive(Clone, Copy, Debug, PartialEq, Eq)]
pub enum Count {
    /// The least number of moves of the pattern's tiles that bring them home.
    Finite(u16),
    /// No walk leads home.
    Never,
}

/// A table that was checked: each entry is the least number of moves of the pattern's tiles that bring them home, or
/// says that no walk does (Korf and Felner 2002).
#[derive(Drop)]
pub struct CheckedTable<'a> {
    view: TableView<'a>,
    /// The slots of all its placements, where they are kept.
    slots: Option<SlotTable>,
}

impl<'a> Model for CheckedTable<'a> {
    ghost use Rattle.tab_rule.specs.StoredTables.{IsStoredCheckedTable};
    ghost use Rattle.tab_file.specs.Tables.{Table};

    ghost Value = { Table };

    ghost view = { λ checked. checked.view };

    ghost invariant = { IsStoredCheckedTable };
}

impl<'a> CheckedTable<'a> {
    /// The table of a file in which each block was checked. There is no other way to make one.
    pub fn of_view(view: TableView<'a>) -> CheckedTable<'a>
        requires { AllBlocksKeepRule view }
        ensures table { result ≡ view.entry }
        ensures exact { IsExactTable result }
    {
        // Asked only for what its contract says.
        let _pattern = view.pattern();
        CheckedTable { view, slots: None }
    }

    /// The same table, which keeps the slots of all its placements where their memory is granted: looks are faster then.
    /// It may keep none; only speed depends on it.
    pub fn with_slots(self, alloc: Global) -> CheckedTable<'a>
        ensures { result ≡ self.entry }
    {
        let slots = SlotTable::build(alloc, &self.pattern()).ok();
        CheckedTable {
            view: self.view,
            slots,
        }
    }

    /// The pattern of the table.
    pub fn pattern(&self) -> Pattern
        ensures pattern { result ≡ self.now.pattern }
        ensures table { IsTable self.now }
        ensures exact { IsExactTable self.now }
    {
        self.view.pattern()
    }

    /// The least number of moves of the pattern's tiles on this board that bring them home.
    pub fn look(&self, board: &Board) -> Count
        requires { side_of board.now ≡ self.now.pattern.side }
        ensures count { TableSays self.now.pattern.tiles board.now result }
        ensures few { (d : ℕ) → result ≡ Finite d → d ≤ greatest_count }
    {
        let _side = board.side();
        self.look_in(&board.cells_of_all())
    }

    /// As `look`, of the board whose numbers were found in these cells.
    #[inline]
    pub fn look_in(&self, found: &[u8; 25]) -> Count
        requires { (board : List ℕ)
            × IsBoardOf self.now.pattern.side board × AreCellsOf found.now board }
        ensures count { (board : List ℕ) → IsBoardOf self.now.pattern.side board
            → AreCellsOf found.now board
            → TableSays self.now.pattern.tiles board result }
        ensures few { (d : ℕ) → result ≡ Finite d → d ≤ greatest_count }
    {
        let standing = standing_of(&self.pattern(), found);
        let slot = self.slot_found(standing, found);
        count_of(self.view.entry(standing.rank, slot))
    }

    /// The slot of the blank in the cell that was found for it. Most often the free cells are one region: then the second slot
    /// has none, and its entry is read beside that of the first. Else it takes no flood where the slots are kept.
    #[inline]
    fn slot_found(&self, standing: Standing, found: &[u8; 25]) -> u8
        requires placement { let cells = cells_found self.now.pattern.tiles found.now in
            IsPlacement (record { pattern = self.now.pattern; cells = cells }) }
        requires rank { let cells = cells_found self.now.pattern.tiles found.now in
            IsRank self.now.pattern.side cells standing.rank }
        requires occupied { IsMaskOf standing.occupied
            (λ c. has (cells_found self.now.pattern.tiles found.now) c ≡ true) }
        requires free { IsFree self.now.pattern.side (cells_found self.now.pattern.tiles found.now)
            (slice_index found.now 0) }
        ensures slot { IsSlot self.now.pattern.side (cells_found self.now.pattern.tiles found.now)
            (slice_index found.now 0) result }
        ensures below { result < slot_count self.now.pattern }
    {
        let pattern = self.pattern();
        if pattern.width() > 1 && self.view.entry(standing.rank, 1) == NO_REGION {
            return 0;
        }
        match self.kept_slot(standing.occupied, found[0]) {
            Some(slot) => slot,
            None => self.flooded_slot(found),
        }
    }

    /// The same by a flood.
    #[cold]
    #[inline(never)]
    fn flooded_slot(&self, found: &[u8; 25]) -> u8
        requires placement { let cells = cells_found self.now.pattern.tiles found.now in
            IsPlacement (record { pattern = self.now.pattern; cells = cells }) }
        requires free { IsFree self.now.pattern.side (cells_found self.now.pattern.tiles found.now)
            (slice_index found.now 0) }
        ensures slot { IsSlot self.now.pattern.side (cells_found self.now.pattern.tiles found.now)
            (slice_index found.now 0) result }
        ensures below { result < slot_count self.now.pattern }
    {
        slot_of(&Placement::of_cells(&self.pattern(), found), found[0])
    }

    /// The entries, which are all bytes behind the header: rank by rank, and slot by slot for each rank.
    pub fn entries(&self) -> &'a [u8]
        ensures entries { result.now ≡ self.now.entries }
        ensures exact { IsExactTable self.now }
    {
        self.view.entries()
    }

    /// The slot of a free cell of a placement whose cells are those of a set, where it is kept.
    #[inline]
    fn kept_slot(&self, occupied: u32, cell: u8) -> Option<u8>
        requires { cell < self.now.pattern.side * self.now.pattern.side }
        ensures { (cells : List ℕ)
            → IsPlacement (record { pattern = self.now.pattern; cells = cells })
            → IsMaskOf occupied (λ c. has cells c ≡ true) → IsFree self.now.pattern.side cells cell
            → IfSome result (λ slot. IsSlot self.now.pattern.side cells cell slot
            × (slot < slot_count self.now.pattern)) }
    {
        let _pattern = self.pattern();
        self.slots.as_ref()?.slot_in(occupied, cell)
    }

    /// How many entries there are, how many of them say that no walk leads home, and the greatest count.
    pub fn census(&self) -> Census
        ensures { IsCensusOf self.now.entries result }
    {
        census_of(self.view.entries())
    }
}

/// What an entry of a region says.
pub(crate) fn count_of(entry: u8) -> Count
    ensures { result ≡ (if entry == no_way_home then Never else Finite entry) }
{
    if entry == NO_WAY_HOME {
        Count::Never
    } else {
        Count::Finite(u16::from(entry))
    }
}
