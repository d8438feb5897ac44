//! Laws of texts of claims, of moves texts, and of the lines that answer claims. Each function here says what holds of all of
//! them, and does nothing.

ghost use Rattle.claim_text.specs.Laws.{AnswersAreLines, AnswersBegin, ClaimsHaveNoFault, LettersSolve, RemarksAreNoClaims, SolvesByLetters, TextsHaveOneFault, TextsHaveOneReading};

/// A text has one list of claims at most or one fault at most, and never both. No remark is a claim.
pub fn texts_have_one_answer()
    ensures claims { TextsHaveOneReading }
    ensures fault { TextsHaveOneFault }
    ensures either { ClaimsHaveNoFault }
    ensures remarks { RemarksAreNoClaims }
{}

/// A moves text solves a board exactly where its letters alone do.
pub fn solves_by_letters()
    ensures letters { SolvesByLetters }
    ensures text { LettersSolve }
{}

/// A line that answers a claim has its LF at its end, and nowhere else.
pub fn answers_are_lines()
    ensures { AnswersAreLines }
{}

/// A line that answers a claim begins with `bound `, `part `, `optimal `, `refused O2 by` or what it is refused for.
pub fn answers_begin()
    ensures { AnswersBegin }
{}
