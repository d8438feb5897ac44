//! What holds of all runs of makers. Each function here says it, and does nothing.

ghost use Rattle.pdb_keep.specs.Laws.{KeptLogsProveOptima, KeptTablesAreExact, ToldMovesSolve};

/// With a yes `make-table` has kept the exact table of its pattern, and told its line.
#[tactic(auto, using(crate::proofs::KeptLemmas::table_kept))]
pub fn kept_tables_are_exact()
    ensures { KeptTablesAreExact }
{}

/// With a yes `solve` has kept a log that proves its moves to be the fewest, and told the moves and their number.
#[tactic(auto, using(crate::proofs::KeptLemmas::log_kept))]
pub fn kept_logs_prove_optima()
    ensures { KeptLogsProveOptima }
{}

/// The moves that `solve` tells are a moves text that solves the board.
pub fn told_moves_solve()
    ensures { ToldMovesSolve }
{}
