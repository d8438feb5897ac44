//! Laws of tables and their files. Each function here says what holds of all of them, and does nothing.

ghost use Rattle.tab_rule.specs.Laws.{CountsHavePaths, EntriesHaveACensus, EntriesHaveOneCensus, ExactFilesHaveNoFault, ExactTablesBoundCosts, FilesAreExactByRule, FilesHaveOneExactTable, FoldedCountsBoundPaths, OtherStepsKeepTheEntry, PassedCountsAreCosts, PathsCostTheEntryAtLeast, TableFilesHaveAnAnswer, TableFilesHaveOneFault, TileStepsLeadToANearEntry};

/// A step that moves no tile of the pattern costs nothing and keeps the entry.
pub fn other_steps_keep_the_entry()
    ensures { OtherStepsKeepTheEntry }
{}

/// A step that moves a tile of the pattern costs one and leads to an entry one move away.
pub fn tile_steps_lead_to_a_near_entry()
    ensures { TileStepsLeadToANearEntry }
{}

/// Where each entry keeps the local rule, no path home costs less than the entry of its board, which is a count.
pub fn paths_cost_the_entry_at_least()
    ensures { PathsCostTheEntryAtLeast }
{}

/// Where each entry keeps the local rule, a count is the cost of some path home from each of its boards.
pub fn counts_have_paths()
    ensures { CountsHavePaths }
{}

/// Where each entry keeps the local rule up to a count of at most 253, and some entry is past it, some board has one more
/// as its least cost.
pub fn passed_counts_are_costs()
    ensures { PassedCountsAreCosts }
{}

/// Where a table is exact, no board of its pattern has a least cost above 253.
pub fn exact_tables_bound_costs()
    ensures { ExactTablesBoundCosts }
{}

/// Each entry keeps the local rule exactly where each entry is right.
pub fn files_are_exact_by_rule()
    ensures { FilesAreExactByRule }
{}

/// What a folded table tells of a board is at most what any path costs that leads its tiles home, and never means that
/// there is none.
pub fn folded_counts_bound_paths()
    ensures { FoldedCountsBoundPaths }
{}

/// A file is that of an exact table or has a fault, and of these one alone: its bytes settle all but want of memory.
pub fn files_have_one_answer()
    ensures some { TableFilesHaveAnAnswer }
    ensures table { FilesHaveOneExactTable }
    ensures fault { TableFilesHaveOneFault }
    ensures either { ExactFilesHaveNoFault }
{}

/// The census of a table is settled by its entries, and there is one.
pub fn entries_have_one_census()
    ensures some { EntriesHaveACensus }
    ensures one { EntriesHaveOneCensus }
{}
