//! Where a line that is no claim goes wrong, told to people. No contract speaks of it.

use crate::mistakes_behind::{bound_spot, moves_spot};
use crate::words_of_lines::word_at;
use claim_text::{ClaimsFault, MOST_LINES, is_remark};
use pdb_run::{Beside, Mistake, Spot};
use puz_board::{Board, BoardFault};

/// What the lines of answers begin with.
const ANSWERS: [&[u8]; 9] = [
    b"bound ",
    b"exact ",
    b"joined ",
    b"moves ",
    b"optimal ",
    b"part ",
    b"refused ",
    b"sha256 ",
    b"solution ",
];

/// What files begin with that are no texts, of which something else is told.
const FILES: [&[u8]; 2] = [b"PDBT", b"PDBL"];

/// What is told besides of a text that isn't read as claims for this: where the first line that is no claim goes wrong.
pub(crate) fn beside_fault(text: &[u8], fault: ClaimsFault) -> Beside {
    match fault {
        ClaimsFault::Memory => Beside::Nothing,
        ClaimsFault::Q1 { line } if line >= MOST_LINES => {
            Beside::Spot(spot(0, Mistake::ManyLines))
        }
        ClaimsFault::Q1 { line } => {
            let found = text.split(|byte| *byte == b'\n').nth(line as usize);
            spot_in(found.unwrap_or(b"")).map_or(Beside::Nothing, Beside::Spot)
        }
    }
}

/// This is wrong from a place of a line on.
pub(crate) fn spot(place: usize, what: Mistake) -> Spot {
    Spot {
        column: place.saturating_add(1),
        what,
    }
}

/// Where a line that is no claim goes wrong.
fn spot_in(line: &[u8]) -> Option<Spot> {
    if FILES.iter().any(|front| line.starts_with(*front)) {
        return None;
    }
    if let Some(what) = whole_line_mistake(line) {
        return Some(spot(0, what));
    }
    let sign = line.iter().position(|byte| *byte == b';');
    let sign = sign.or_else(|| line.iter().position(|byte| *byte == b':'));
    let end = sign.unwrap_or(line.len());
    let (board, behind) = line.split_at_checked(end)?;
    if let Some(spot) = board_spot(board) {
        return Some(spot);
    }
    let (first, text) = behind.split_first()?;
    let found = if *first == b';' {
        moves_spot(text)
    } else {
        bound_spot(text)
    };
    let spot = found?;
    Some(Spot {
        column: spot.column.saturating_add(end).saturating_add(1),
        ..spot
    })
}

/// What is wrong with a line as a whole.
fn whole_line_mistake(line: &[u8]) -> Option<Mistake> {
    if is_remark(line) {
        Some(Mistake::NoClaim)
    } else if line.starts_with(b"\xef\xbb\xbf") {
        Some(Mistake::ByteOrderMark)
    } else if ANSWERS.iter().any(|front| line.starts_with(*front)) {
        Some(Mistake::Answer)
    } else {
        None
    }
}

/// Where the text before the `;` or the `:` is no board.
fn board_spot(board: &[u8]) -> Option<Spot> {
    match Board::read(board) {
        Ok(_) => None,
        Err(BoardFault::B1(place)) => {
            let byte = board.get(place).copied().unwrap_or(0);
            Some(spot(place, stray_in_board(byte)))
        }
        Err(BoardFault::B2(place)) => Some(spot(place, Mistake::LongNumber)),
        Err(BoardFault::B3(count)) => Some(count_spot(board, count)),
        Err(BoardFault::B4(index)) => Some(great_spot(board, usize::from(index))),
        Err(BoardFault::B5(index)) => {
            Some(spot(place_of(board, usize::from(index)), Mistake::RepeatedNumber))
        }
    }
}

/// The place of the word of a text with this number, from 0.
fn place_of(text: &[u8], index: usize) -> usize {
    word_at(text, index).map_or(0, |word| word.place)
}

/// Where a board has too many numbers, so many, or too few.
fn count_spot(board: &[u8], count: usize) -> Spot {
    let first = place_of(board, 0);
    let last = place_of(board, count.saturating_sub(1));
    let second = place_of(board, 1);
    if count == 0 {
        spot(0, Mistake::NoBoard)
    } else if is_board(board.get(second..)) {
        spot(first, Mistake::NumberBeforeBoard)
    } else if is_board(board.get(..last)) {
        spot(last, Mistake::BoundAfterBoard)
    } else {
        spot(first, Mistake::NumberCount(count))
    }
}

/// Whether a text is a board.
fn is_board(text: Option<&[u8]>) -> bool {
    text.is_some_and(|board| Board::read(board).is_ok())
}

/// Where a number of a board is too great.
fn great_spot(board: &[u8], index: usize) -> Spot {
    let has_blank = (0..25_usize)
        .filter_map(|number| word_at(board, number))
        .any(|word| word.bytes == b"0".as_slice() || word.bytes == b"00".as_slice());
    let what = if has_blank {
        Mistake::GreatNumber
    } else {
        Mistake::NoBlank
    };
    spot(place_of(board, index), what)
}

/// What is wrong with a byte of a board that is neither a digit nor a separator.
fn stray_in_board(byte: u8) -> Mistake {
    match byte {
        b',' | b'/' | b'|' => Mistake::NumbersParted,
        b'-' | b'+' => Mistake::SignedNumber,
        b'.' | b'_' | b'*' | b'x' | b'X' => Mistake::OtherBlank,
        b'[' | b']' | b'(' | b')' | b'{' | b'}' | b'"' | b'\'' => { Mistake::Brackets }
        b'U' | b'D' | b'L' | b'R' => Mistake::MovesAfterBoard,
        b'u' | b'd' | b'l' | b'r' => Mistake::SmallMovesAfterBoard,
        b'p' | b'<' | b'>' | b'=' => Mistake::BoundAfterBoard,
        b'#' => Mistake::Remark,
        _ => Mistake::StrayInBoard,
    }
}
