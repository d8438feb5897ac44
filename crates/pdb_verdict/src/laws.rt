//! What holds of all inputs. Each function here says it, and does nothing.

ghost use Rattle.pdb_verdict.specs.Laws.{InputsHaveAResult, InputsHaveOneResult, ResultsAreTrueVerdicts, TablesToldNoAreNotExact, ToldYesesAreTrue, TrueVerdictsHoldOfSolutions};

/// Inputs have a result.
#[tactic(auto, using(crate::proofs::VerdictLemmas::result_some))]
pub fn inputs_have_a_result()
    ensures { InputsHaveAResult }
{}

/// Inputs have not two results.
pub fn inputs_have_one_result()
    ensures { InputsHaveOneResult }
{}

/// A verdict is the result exactly where it is true.
pub fn results_are_true_verdicts()
    ensures { ResultsAreTrueVerdicts }
{}

/// A bound that is true bounds the solutions of the board, and an optimum is their least number of moves.
#[tactic(auto, using(crate::proofs::VerdictLemmas::true_holds))]
pub fn true_verdicts_hold_of_solutions()
    ensures { TrueVerdictsHoldOfSolutions }
{}

/// A yes that a run tells is true of the inputs, and holds of the solutions of the board.
#[tactic(auto, using(crate::proofs::VerdictLemmas::yes_told))]
pub fn told_yeses_are_true()
    ensures { ToldYesesAreTrue }
{}

/// A table file that is told a no is no exact file.
pub fn tables_told_no_are_not_exact()
    ensures { TablesToldNoAreNotExact }
{}
