//! Laws of shortest solutions, of exact tables and of logs. Each function here says what holds of all of them, and does nothing.

ghost use Rattle.claim_laws.specs.FoldedLogs.{FoldedLogsAreGoodUnfolded};
ghost use Rattle.claim_laws.specs.KeptLogs.{KeptLogsAreTaken};
ghost use Rattle.claim_laws.specs.Solutions.{ShortestSolutionsTakeNothingBack};
ghost use Rattle.claim_laws.specs.TableFiles.{PatternsHaveOneExactFile};

/// No move of a shortest solution takes back the one before.
pub fn shortest_solutions_take_nothing_back()
    ensures { ShortestSolutionsTakeNothingBack }
{}

/// A pattern has one exact file at most.
pub fn patterns_have_one_exact_file()
    ensures { PatternsHaveOneExactFile }
{}

/// A log that proves a bound with `--fold` proves it without.
pub fn folded_logs_are_good_unfolded()
    ensures { FoldedLogsAreGoodUnfolded }
{}

/// What `solve` keeps `bound` takes: over the same files it answers the number of the moves.
pub fn kept_logs_are_taken()
    ensures { KeptLogsAreTaken }
{}
