//! A law of runs of `prove` and a run of `parts` together. The function here says it, and does nothing.

ghost use Rattle.pdb_program.specs.Laws.{PartsOfProveGiveTheBound};

/// Parts of a bound that runs of `prove` answered, whatever sets and tables they had, give the bound where `parts` joins their answers.
pub fn parts_of_prove_give_the_bound()
    ensures { PartsOfProveGiveTheBound }
{}
