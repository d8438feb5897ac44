//! Laws of sets of disjoint patterns, and of set texts. Each function here says what holds of all of them, and does nothing.

ghost use Rattle.set_sum.specs.Laws.{BundlesHaveNoFault, DisjointCostsAreWithinTheLength, MembersSayTheirPatterns, SetsBoundSolutions, SetsSayOneThing, TextsHaveAnAnswer, TextsHaveOneBundle, TextsHaveOneFault};

/// What a path costs disjoint patterns together is at most its number of steps: each step moves one tile.
pub fn disjoint_costs_are_within_the_length()
    ensures { DisjointCostsAreWithinTheLength }
{}

/// What a member says of a board is what a table of its own pattern says of it: of the transposed one, where the member is
/// transposed, and a folded one, where the member's is.
pub fn members_say_their_patterns()
    ensures { MembersSayTheirPatterns }
{}

/// What a set of members with disjoint patterns says of a board is at most the number of steps of any solution, and never
/// means that there is none.
pub fn sets_bound_solutions()
    ensures { SetsBoundSolutions }
{}

/// No set says two things of a board.
pub fn sets_say_one_thing()
    ensures { SetsSayOneThing }
{}

/// What is answered of tables and a set text is settled by them.
pub fn texts_have_one_answer()
    ensures some { TextsHaveAnAnswer }
    ensures bundle { TextsHaveOneBundle }
    ensures fault { TextsHaveOneFault }
    ensures either { BundlesHaveNoFault }
{}
