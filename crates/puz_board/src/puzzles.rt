//! Puzzle texts: a board text, one `;` and a moves text.

ghost use Rattle.std.specs.Prelude.{◌≡◌, ℕ, ◌==◌, ◌<◌, IfNone, IfSome, List, Some, length, option_map, position};
ghost use Rattle.puz_board.specs.PuzzleTexts.{HasNoSemicolon, IsPuzzle, puzzle_parts};

/// The board text before the first `;` of a puzzle text, and the moves text after it. `None` where there is no `;`.
pub fn split_puzzle(text: &[u8]) -> Option<(&[u8], &[u8])>
    // Two texts come exactly where they make up the text, with its first `;` between them; none where it has no `;`.
    ensures some { IfSome result (λ parts. IsPuzzle text.now parts.0.now parts.1.now) }
    ensures none { IfNone result (HasNoSemicolon text.now) }
    ensures parted { (board moves : List ℕ) → IsPuzzle text.now board moves
        → option_map {U = List ℕ × List ℕ} (λ parts. (parts.0.now, parts.1.now)) result
        ≡ Some (board, moves) }

    // Which they are, and when there are none.
    ensures exact { option_map (λ parts. (parts.0.now, parts.1.now)) result
        ≡ puzzle_parts text.now }
{
    split_at_semicolon(text)
}

/// Splits a puzzle text at its first `;`.
#[tactic(auto, unfolding(crate::specs::PuzzleTexts::puzzle_parts))]
fn split_at_semicolon(text: &[u8]) -> Option<(&[u8], &[u8])>
    ensures { option_map (λ parts. (parts.0.now, parts.1.now)) result ≡ puzzle_parts text.now }
{
    let place = first_semicolon(text)?;
    Some((&text[..place], &text[place + 1..]))
}

/// The place of the first `;`.
fn first_semicolon(text: &[u8]) -> Option<usize>
    ensures place { result ≡ position (λ b. b == 59) text.now }
    ensures within { IfSome result (λ i. i < length text.now) }
{
    text.iter().position(|b| *b == b';')
}
