//! Moves texts, played for a goal.

ghost use Rattle.std.specs.Prelude.{◌≡◌, ℕ, IfOk, IsTrue, Ok, map, take};
ghost use Rattle.std.specs.List.{AllPass};
ghost use Rattle.puz_board.specs.BoardTexts.{is_separator};
ghost use Rattle.puz_board.specs.MovesTexts.{is_letter, moves_of, replay_of, stray_letter};
ghost use Rattle.puz_goal.specs.Goals.{SolvesFor};
ghost use Rattle.puz_goal.specs.Turning.{board_for, half_turned, moves_for, turned_letter};

use crate::goals::Goal;
use crate::letters::turned_letter;
use crate::turning::half_turned;
use arrayvec::ArrayVec;
use puz_board::{Board, Move, MoveFault, replay};

/// So many letters tell whether the moves of a text are a solution: a solution has 1000 at most.
const MOST_LETTERS: usize = 1001;

/// How many moves a text has, where they are a solution of the board for the goal: they end where the blank and all tiles
/// are at home.
pub fn replay_for(goal: Goal, board: &Board, text: &[u8]) -> Result<u16, MoveFault>
    // A count comes exactly of moves that solve the board for the goal.
    ensures ok { IfOk result (λ count. SolvesFor goal board.now text.now count) }
    ensures solved { (count : ℕ) → SolvesFor goal board.now text.now count → result ≡ Ok count }

    // Which fault it is: that of the same moves on the same board, both turned.
    ensures exact { result ≡ replay_of (board_for goal board.now) (moves_for goal text.now) }
{
    // What is said of paths is said of boards, and this says that the value is one.
    let _side = board.side();
    replay_turned(goal, board, text)
}

/// Plays the moves on the board, both turned where the blank is last at home.
fn replay_turned(goal: Goal, board: &Board, text: &[u8]) -> Result<u16, MoveFault>
    ensures { result ≡ replay_of (board_for goal board.now) (moves_for goal text.now) }
{
    match goal {
        Goal::First => replay(board, text),
        Goal::Last => replay_last(board, text),
    }
}

/// Plays the moves on the board, both turned by half a turn.
fn replay_last(board: &Board, text: &[u8]) -> Result<u16, MoveFault>
    ensures { result ≡ replay_of (half_turned board.now) (map turned_letter text.now) }
{
    if let Some(place) = first_stray_letter(text) {
        return Err(MoveFault::M1(place));
    }
    let letters = turned_letters(text);
    replay(&half_turned(board), letters.as_slice())
}

/// The place of the first byte that is neither a letter nor a separator.
#[tactic(auto, unfolding(puz_board::specs::MovesTexts::stray_letter))]
fn first_stray_letter(text: &[u8]) -> Option<usize>
    ensures { result ≡ stray_letter text.now }
{
    text.iter()
        .position(|b| !(Move::of_byte(*b).is_some() || is_separator(*b)))
}

/// Whether a byte is a space, a tab, a CR or an LF.
fn is_separator(b: u8) -> bool
    ensures { result ≡ is_separator b }
{
    matches!(b, b' ' | b'\t' | b'\r' | b'\n')
}

/// The letters of a text, turned: as many of the first as tell whether its moves are a solution.
fn turned_letters(text: &[u8]) -> ArrayVec<u8, MOST_LETTERS>
    ensures moves { moves_of result.items
        ≡ take MOST_LETTERS (moves_of (map turned_letter text.now)) }
    ensures letters { AllPass is_letter result.items }
{
    let mut letters = ArrayVec::new();
    for b in text {
        let letter = turned_letter(*b);
        if Move::of_byte(letter).is_some() && !letters.is_full() {
            letters.push(letter);
        }
    }
    letters
}
