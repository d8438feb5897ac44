//! Laws of ranks, regions and slots. Each function here says what holds of every placement, and does nothing.

ghost use Rattle.pat_place.specs.Laws.{EachPlacementHasOneRank, RanksAreInOrder, RanksOfThreeCells, EachFreeCellHasOneSlot, OneSlotIsOneRegion, SlotsAreBelowWidth, TransposedPatternsArePatterns};

/// Each placement has one rank.
pub fn each_placement_has_one_rank()
    ensures { EachPlacementHasOneRank }
{}

/// Ranks go up as the lists of cells do, in lexicographic order.
pub fn ranks_are_in_order()
    ensures { RanksAreInOrder }
{}

/// Ranks of three cells on side 3, computed.
pub fn ranks_of_three_cells()
    ensures { RanksOfThreeCells }
{}

/// Each free cell has one slot, so it lies in one region.
pub fn each_free_cell_has_one_slot()
    ensures { EachFreeCellHasOneSlot }
{}

/// Two free cells have the same slot exactly where a path of free cells joins them.
pub fn one_slot_is_one_region()
    ensures { OneSlotIsOneRegion }
{}

/// No placement has more regions than its pattern's width.
pub fn slots_are_below_width()
    ensures { SlotsAreBelowWidth }
{}

/// A pattern transposed is a pattern.
pub fn transposed_patterns_are_patterns()
    ensures { TransposedPatternsArePatterns }
{}
