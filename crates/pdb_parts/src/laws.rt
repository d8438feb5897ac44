//! A law of lines that say that parts of bounds hold. The function here says it, and does nothing.

ghost use Rattle.pdb_parts.specs.Laws.{LinesGiveTheBound};

/// Where each line is true, and of each part of a bound of a board one of them says that it holds, no solution of the board for the
/// goal has fewer moves than the bound.
pub fn lines_give_the_bound()
    ensures { LinesGiveTheBound }
{}
