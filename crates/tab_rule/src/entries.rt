//! The numbers of entries.

ghost use Rattle.tab_rule.specs.Entries.{IsGoalNumber};

use pat_place::{Placement, rank, slot_of};
use tab_file::TableView;

/// The number of the goal's entry: that of the goal's placement and of the region that has cell 0.
pub fn goal_number(table: &TableView<'_>) -> u64
    ensures { IsGoalNumber table.now.pattern result }
{
    let pattern = table.pattern();
    let goal = Placement::goal(&pattern);
    let slot = slot_of(&goal, 0);
    rank(&goal) * u64::from(pattern.width()) + u64::from(slot)
}
