//! What is wrong with a line that is no claim, in words.

use pdb_run::Mistake;

/// What is wrong. Behind that of a board's numbers stands how many there are.
pub(crate) fn mistake_text(mistake: Mistake) -> &'static str {
    match mistake {
        Mistake::NoClaim => "the text has no claim",
        Mistake::ByteOrderMark => "a byte order mark stands before the claim",
        Mistake::Answer => "it is an answer: its claim is what stands behind `of`",
        Mistake::ManyLines => "a text has at most 1,048,576 lines",
        Mistake::NumbersParted => "numbers are parted by spaces alone",
        Mistake::SignedNumber => "numbers have no sign",
        Mistake::OtherBlank => "the blank is written 0",
        Mistake::Brackets => "brackets and quotes are left out",
        Mistake::MovesAfterBoard => "moves stand behind a `;`",
        Mistake::SmallMovesAfterBoard => "moves stand behind a `;`, as capital letters",
        Mistake::BoundAfterBoard => "a bound stands behind a `:`",
        Mistake::Remark => "nothing is said behind a claim",
        Mistake::StrayInBoard => "it is neither a digit nor a space",
        Mistake::LongNumber => "three or more digits stand in a row",
        Mistake::NoBoard => "no board stands before it",
        Mistake::NumberBeforeBoard => "a number stands before the board",
        Mistake::NumberCount(_) => "a board has 4, 9, 16 or 25 numbers, and not ",
        Mistake::NoBlank => "the numbers begin with 0, which is the blank",
        Mistake::GreatNumber => "the number is too great for so many cells",
        Mistake::RepeatedNumber => "this number stands there twice",
        Mistake::SmallMoves => "moves are written as capital letters",
        Mistake::OtherSign => "moves stand behind a `;`, and a bound behind a `:`",
        Mistake::MovesAndBound => "a claim has moves or a bound, and not both",
        Mistake::SecondSemicolon => "a claim has one `;`",
        Mistake::MovesParted => "moves are parted by spaces or by nothing",
        Mistake::StrayMove => "moves are U, D, L and R, for the way that the blank goes",
        Mistake::ManyMoves => "there are more than 1000 moves",
        Mistake::NoBound => "a number stands behind the `:`",
        Mistake::StrayBound => "a bound is a number from 0 to 255",
        Mistake::GreatBound => "a bound is 255 at most",
        Mistake::ZerosBeforeBound => "a bound is a number from 0 to 255, with no zeros before it",
        Mistake::CapitalPart => "`part` is written in small letters",
        Mistake::PartWithoutSpace => "a space stands behind `part`",
        Mistake::MoreThanBound => "behind a bound stands nothing, or `part` and I/K",
        Mistake::NoPart => "behind `part` stands I/K, as 0/3",
        Mistake::StrayPart => "a part is written I/K, as 0/3",
        Mistake::ManyParts => "a bound has 65,535 parts at most",
        Mistake::EvenParts => "the count of parts is odd",
        Mistake::PartOutside => "parts are numbered from 0 up to one below their count",
        Mistake::MoreThanPart => "nothing stands behind a part",
    }
}
