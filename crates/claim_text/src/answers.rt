//! The lines that answer claims, as values.

ghost use Rattle.std.specs.Prelude.{◌≡◌, ◌+◌, ◌≤◌, ◌++◌, [], codes, decimal, length};
ghost use Rattle.arrayvec.specs.ArrayString.{array_string_len};
ghost use Rattle.puz_goal.specs.Goals.{goal_words};
ghost use Rattle.claim_text.specs.Claims.{letters, part_words};
ghost use Rattle.claim_text.specs.Lines.{HasFewLetters, claim_line, claim_words, joined_goal, joined_line, numbers, spaced_letters, told_line};
ghost use Rattle.claim_text.specs.Lines.{bounded, optimal, part_bounded, refused, shorter};
ghost use Rattle.claim_text.specs.Shown.{claim_shown};

use crate::claims::{Asks, Claim};
use crate::letters::{has_letters, is_letter};
use arrayvec::ArrayString;
use itoa::Buffer;
use move_strings::BoundPart;
use puz_board::Board;
use puz_goal::Goal;

/// Room for the longest line: what a claim is refused for, ` of`, 25 numbers of two digits at most, ` ;`, the 1,000 letters of a
/// claim, the goal, and the line's end; one space stands before the letters and before each number.
pub const LINE_LEN: usize = 1422;

/// The most bytes of what a refused claim's line begins with.
pub const MOST_WHAT: usize = 320;

/// The most letters of a solution that shows that a claim is false.
pub const MOST_SOLUTION: usize = 255;

/// A line, as a value.
pub type Line = ArrayString<LINE_LEN>;

/// The line that says that no solution of a board has fewer moves than `bound`: `bound 6 of 3 2 1 0`.
pub fn bound_line(goal: Goal, bound: u8, board: &Board) -> Line
    ensures { result.bytes ≡ told_line goal (bounded bound board.now) }
{
    let mut line = Line::new();
    line.push_str("bound ");
    line.push_str(Buffer::new().format(bound));
    line.push_str(" of");
    add_numbers(&mut line, board);
    end_line(&mut line, goal);
    line
}

/// The line that says that lines which were read give a bound of a board, in so many parts:
/// `joined bound 6 of 3 2 1 0 from 3 parts, by lines that were read`.
pub fn joined_line(goal: Goal, bound: u8, count: u16, board: &Board) -> Line
    ensures { result.bytes ≡ joined_line goal bound count board.now }
{
    let mut line = Line::new();
    line.push_str("joined bound ");
    line.push_str(Buffer::new().format(bound));
    line.push_str(" of");
    add_numbers(&mut line, board);
    line.push_str(" from ");
    line.push_str(Buffer::new().format(count));
    line.push_str(" parts, by lines that were read");
    line.push_str(joined_goal(goal));
    line.push_str("\n");
    line
}

/// What such a line ends with for a goal.
fn joined_goal(goal: Goal) -> &'static str
    ensures words { result.now ≡ joined_goal goal }
    ensures short { length result.now ≤ 21 }
{
    match goal {
        Goal::First => "",
        Goal::Last => ", with the blank last",
    }
}

/// The line that says that a part of a bound of a board holds: `part 0/3 of bound 6 of 3 2 1 0`.
pub fn part_line(goal: Goal, part: BoundPart, bound: u8, board: &Board) -> Line
    ensures { result.bytes ≡ told_line goal (part_bounded part bound board.now) }
{
    let mut line = Line::new();
    line.push_str("part ");
    add_part(&mut line, part);
    line.push_str(" of bound ");
    line.push_str(Buffer::new().format(bound));
    line.push_str(" of");
    add_numbers(&mut line, board);
    end_line(&mut line, goal);
    line
}

/// The line that says that these moves, `count` of them, are a shortest solution of a board: `optimal 6 of 3 2 1 0 ; ULDRUL`.
pub fn optimal_line(goal: Goal, count: u16, board: &Board, moves: &[u8]) -> Line
    requires { length (letters moves.now) ≤ 1000 }
    ensures { result.bytes ≡ told_line goal (optimal count board.now moves.now) }
{
    let mut line = Line::new();
    line.push_str("optimal ");
    line.push_str(Buffer::new().format(count));
    let claim = Claim {
        board: *board,
        asks: Asks::Moves(moves),
    };
    end_with(line, goal, &claim)
}

/// The line that says that a solution shows a claim to be false: `refused O2 by ULDRUL of 3 2 1 0 : 7`.
pub fn shorter_line(goal: Goal, solution: &[u8], claim: &Claim<'_>) -> Line
    requires solution { length (letters solution.now) ≤ MOST_SOLUTION }
    requires claim { HasFewLetters (claim_shown claim.now) }
    ensures { result.bytes ≡ told_line goal (shorter solution.now (claim_shown claim.now)) }
{
    let mut line = Line::new();
    line.push_str("refused O2 by");
    add_letters(&mut line, solution);
    end_with(line, goal, claim)
}

/// The line that says why a claim is refused: `refused K1 of 3 2 1 0 : 7`.
pub fn refused_line(goal: Goal, what: &str, claim: &Claim<'_>) -> Line
    requires what { length what.now ≤ MOST_WHAT }
    requires claim { HasFewLetters (claim_shown claim.now) }
    ensures { result.bytes ≡ told_line goal (refused what.now (claim_shown claim.now)) }
{
    let mut line = Line::new();
    line.push_str(what);
    end_with(line, goal, claim)
}

/// The line of a claim itself: `3 2 1 0 : 7`.
pub fn claim_line(claim: &Claim<'_>) -> Line
    requires { HasFewLetters (claim_shown claim.now) }
    ensures { result.bytes ≡ claim_line (claim_shown claim.now) }
{
    // A board has a number, and so the line a space before it.
    let _side = claim.board.side();
    let spaced = with_claim(Line::new(), claim);
    let Some(words) = spaced.as_str().strip_prefix(' ') else {
        unreachable!();
    };
    let mut line = Line::new();
    line.push_str(words);
    line.push_str("\n");
    line
}

/// The end of a line that answers a claim: ` of 3 2 1 0 : 7`, the goal and an LF.
pub(crate) fn of_claim(goal: Goal, claim: &Claim<'_>) -> Line
    requires { HasFewLetters (claim_shown claim.now) }
    ensures { result.bytes ≡ told_line goal (refused [] (claim_shown claim.now)) }
{
    end_with(Line::new(), goal, claim)
}

/// The end of a line that answers the claim of a part, up to the words of the part: ` of 3 2 1 0 : 7 part `.
pub(crate) fn part_front(bound: u8, board: &Board) -> Line
    ensures { result.bytes ≡ codes " of" ++ numbers board.now ++ (codes " : " ++ decimal bound) ++ codes " part " }
{
    let mut line = Line::new();
    line.push_str(" of");
    add_numbers(&mut line, board);
    add_bound(&mut line, bound);
    line.push_str(" part ");
    line
}

/// A line ended with `of`, a claim and the goal.
fn end_with(start: Line, goal: Goal, claim: &Claim<'_>) -> Line
    requires room { array_string_len start ≤ MOST_WHAT }
    requires claim { HasFewLetters (claim_shown claim.now) }
    ensures { result.bytes ≡ told_line goal (refused start.bytes (claim_shown claim.now)) }
{
    let mut line = start;
    line.push_str(" of");
    let mut line = with_claim(line, claim);
    end_line(&mut line, goal);
    line
}

/// A line and a claim behind it.
fn with_claim(start: Line, claim: &Claim<'_>) -> Line
    requires room { array_string_len start ≤ MOST_WHAT + 3 }
    requires claim { HasFewLetters (claim_shown claim.now) }
    ensures bytes { result.bytes ≡ start.bytes ++ claim_words (claim_shown claim.now) }
    ensures len { array_string_len result ≤ array_string_len start + 1078 }
{
    let mut line = start;
    add_numbers(&mut line, &claim.board);
    match claim.asks {
        Asks::Shortest => {}
        Asks::Moves(moves) => {
            line.push_str(" ;");
            add_letters(&mut line, moves);
        }
        Asks::Bound(bound) => add_bound(&mut line, bound),
        Asks::Part(bound, part) => {
            add_bound(&mut line, bound);
            line.push_str(" part ");
            add_part(&mut line, part);
        }
    }
    line
}

/// Ends a line: with the goal, where that isn't the first one, and an LF.
fn end_line(line: &mut Line, goal: Goal)
    requires { array_string_len line.old + 21 ≤ LINE_LEN }
    ensures { line.new.bytes ≡ line.old.bytes ++ goal_words goal ++ codes "\n" }
{
    line.push_str(goal.words());
    line.push_str("\n");
}

/// Adds the numbers of a board's cells to a line, each with a space before it.
fn add_numbers(line: &mut Line, board: &Board)
    requires { array_string_len line.old + 75 ≤ LINE_LEN }
    ensures bytes { line.new.bytes ≡ line.old.bytes ++ numbers board.now }
    ensures len { array_string_len line.new ≤ array_string_len line.old + 75 }
{
    for cell in 0..board.side().cells() {
        line.push_str(" ");
        line.push_str(Buffer::new().format(board.at(cell)));
    }
}

/// Adds a bound to a line, with its `:` before it.
fn add_bound(line: &mut Line, bound: u8)
    requires { array_string_len line.old + 6 ≤ LINE_LEN }
    ensures bytes { line.new.bytes ≡ line.old.bytes ++ codes " : " ++ decimal bound }
    ensures len { array_string_len line.new ≤ array_string_len line.old + 6 }
{
    line.push_str(" : ");
    line.push_str(Buffer::new().format(bound));
}

/// Adds the words of a part to a line.
fn add_part(line: &mut Line, part: BoundPart)
    requires { array_string_len line.old + 11 ≤ LINE_LEN }
    ensures bytes { line.new.bytes ≡ line.old.bytes ++ part_words part }
    ensures len { array_string_len line.new ≤ array_string_len line.old + 11 }
{
    line.push_str(Buffer::new().format(part.index()));
    line.push_str("/");
    line.push_str(Buffer::new().format(part.count()));
}

/// Adds the letters of a moves text to a line, with a space before them where there are any.
fn add_letters(line: &mut Line, moves: &[u8])
    requires { array_string_len line.old + 1 + length (letters moves.now) ≤ LINE_LEN }
    ensures bytes { line.new.bytes ≡ line.old.bytes ++ spaced_letters moves.now }
    ensures len { array_string_len line.new ≤ array_string_len line.old + 1 + length (letters moves.now) }
{
    if !has_letters(moves) {
        return;
    }
    line.push_str(" ");
    for b in moves {
        if is_letter(*b) {
            line.push(char::from(*b));
        }
    }
}
