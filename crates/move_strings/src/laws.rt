//! Laws of forbidden strings. Each function here says what holds of every board, and does nothing.

ghost use Rattle.move_strings.specs.BoundParts.{PartsGiveTheBound};
ghost use Rattle.move_strings.specs.Laws.{AutomataKeepASolution, ForbiddenStringsNeedNotBeTried, TakingBackIsForbidden};
ghost use Rattle.move_strings.specs.Least.{AutomataKeepLeastSolutions, LeastSolutionsHaveNoForbiddenString};

/// A board with a solution of fewer than r moves has one of fewer than r moves with none of the forbidden strings in it.
pub fn forbidden_strings_need_not_be_tried()
    ensures { ForbiddenStringsNeedNotBeTried }
{}

/// A move and the one that takes it back are a forbidden string, of two letters.
pub fn taking_back_is_forbidden()
    ensures { TakingBackIsForbidden }
{}

/// A board with a solution of fewer than r moves has one of fewer than r moves that an automaton doesn't refuse.
pub fn automata_keep_a_solution()
    ensures { AutomataKeepASolution }
{}

/// A least solution, by length and then by letters, has no forbidden string in it.
pub fn least_solutions_have_no_forbidden_string()
    ensures { LeastSolutionsHaveNoForbiddenString }
{}

/// No automaton refuses a least solution.
pub fn automata_keep_least_solutions()
    ensures { AutomataKeepLeastSolutions }
{}

/// Where each of all parts of a bound holds, so does the bound: no solution of the board has fewer moves.
pub fn parts_give_the_bound()
    ensures { PartsGiveTheBound }
{}
