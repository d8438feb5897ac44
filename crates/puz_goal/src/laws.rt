//! Laws of goals and half turns. Each function here says what holds of every board, and does nothing.

ghost use Rattle.puz_goal.specs.Laws.{BoardsTurn, TurningKeepsBounds, TurningKeepsSolutions};

/// A board turned is a board, and turned again it is what it was.
pub fn boards_turn()
    ensures { BoardsTurn }
{}

/// Moves solve a board for a goal exactly where the turned moves solve the turned board.
pub fn turning_keeps_solutions()
    ensures { TurningKeepsSolutions }
{}

/// No solution of a board for a goal has fewer moves than a bound exactly where none of the turned board has.
pub fn turning_keeps_bounds()
    ensures { TurningKeepsBounds }
{}
