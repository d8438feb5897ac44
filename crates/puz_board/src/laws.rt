//! Laws of costs, of transposing and of the lengths of solutions. Each function here says what holds of every board, and does
//! nothing.

ghost use Rattle.puz_board.specs.Laws.{NeverHomeHasNoCost, SolutionsHaveTheBlanksParity, TheLeastCostIsOneNumber, TransposingIsItsOwnInverse, TransposingKeepsLeastCosts, TransposingKeepsPaths, TransposingKeepsTheGoal};

/// The least cost at which tiles come home is one number.
pub fn the_least_cost_is_one_number()
    ensures { TheLeastCostIsOneNumber }
{}

/// Tiles that no path leads home have no least cost.
pub fn never_home_has_no_cost()
    ensures { NeverHomeHasNoCost }
{}

/// A board transposed is a board, and transposed again it is what it was.
pub fn transposing_is_its_own_inverse()
    ensures { TransposingIsItsOwnInverse }
{}

/// The goal board is its own transposed board.
pub fn transposing_keeps_the_goal()
    ensures { TransposingKeepsTheGoal }
{}

/// A path of a board is, cell by cell, one of the transposed board.
pub fn transposing_keeps_paths()
    ensures { TransposingKeepsPaths }
{}

/// The least cost of transposed tiles on a board is that of the tiles on the transposed board.
pub fn transposing_keeps_least_costs()
    ensures { TransposingKeepsLeastCosts }
{}

/// The number of steps of each solution has the parity of the blank's distance from cell 0.
pub fn solutions_have_the_blanks_parity()
    ensures { SolutionsHaveTheBlanksParity }
{}
