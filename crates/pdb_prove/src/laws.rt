//! Laws of the answers. Each function here says what holds of all of them, and does nothing.

ghost use Rattle.pdb_prove.specs.Laws.{ToldIsTrue};

/// What is told as a yes to claims is true of their boards, for the goal.
pub fn told_is_true()
    ensures { ToldIsTrue }
{}
