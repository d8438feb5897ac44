//! Searches from board 79 of those that Korf published (1985), and from a farthest board of side 3.

ghost use Rattle.puz_walk.specs.Starts.{IsStart};

use crate::bundles::bundle_of_made;
use crate::finding::{board_of, made};
use crate::ring_words::words_of;
use crate::same::same;
use crate::starts::{reversals, start_of};
use edge_words::Words;
use move_strings::BoundPart;
use puz_board::{Board, replay};
use puz_search::{
    Deepened, Guide, Letters, PartBound, SearchAnswer, refute, refute_alone, shortest,
    shortest_alone,
};
use puz_walk::{Outline, Start, WordBundle};
use set_sum::{Bundle, Part};
use std::alloc::AllocError;
use std::process::Abort;
use std::sync::Wait;
use std::test::Fail;
use std::thread::Threads;
use work_run::{OpenGate, Workers};

/// The board.
pub(crate) const BOARD: [u8; 16] = [0, 1, 9, 7, 11, 13, 5, 3, 14, 12, 4, 2, 8, 6, 10, 15];

/// How many moves a shortest solution of it has.
pub(crate) const MOVES: u8 = 42;

/// The masks of the tiles 1 and 2, 3 and 4, and so on, and of tile 15.
pub(crate) const MASKS: [u32; 8] = [6, 24, 96, 384, 1536, 6144, 24576, 32768];

/// The set of all their tables.
pub(crate) const ALL: &[u8] = b"set 0 1 2 3 4 5 6 7\n";

/// Set texts, and how many boards a search for a shorter solution expands, as `tools/plain/plain_search.py` counts them.
const COUNTS: [(&[u8], u64); 3] = [
    (ALL, 83_642),
    (
        b"set 0 1 2 3 4 5 6 7\nset 0t 1t 2t 3t 4t 5t 6t 7t\n",
        52_873,
    ),
    (
        b"set 0 1 2 3 4 5 6 7\nset 0t 1t 2t 3t 4t 5t 6t 7t\nset 0\n",
        52_873,
    ),
];

/// The same over the first text, of the second third of the bound.
const COUNT_OF_PART: u64 = 39_464;

/// More boards than any search here expands.
const PLENTY: u64 = 1 << 40;

/// What a search told: that no solution is shorter, and how many boards it expanded; how many moves a solution has; or nothing.
#[derive(Clone, Copy, Debug, PartialEq, Eq)]
enum Told {
    Refuted(u64),
    Solved(u16),
    Spent,
}

/// How many moves the letters name, which are to solve the board.
fn moves<R: Abort>(rt: &R, board: &Board, letters: &Letters) -> u16 {
    replay(board, letters.as_slice())
        .ok()
        .expect(rt, "a solution")
}

/// What a search of a board told.
fn tell<R: Abort>(rt: &R, board: &Board, answer: SearchAnswer) -> Told {
    match answer {
        SearchAnswer::Refuted(boards) => Told::Refuted(boards),
        SearchAnswer::Solved(letters) => Told::Solved(moves(rt, board, &letters)),
        SearchAnswer::Spent => Told::Spent,
    }
}

/// Asserts that a bound, or a part of it, is refuted, and how many boards are expanded for that.
fn expect_refuted<R: Threads + Sync + AllocGlobal + Abort>(
    rt: &R,
    guide: &Guide<'_>,
    start: &Start,
    claim: &PartBound,
    boards: u64,
)
    requires { IsStart guide.now.bundle start.now }
{
    let wanted = Told::Refuted(boards);
    let alone = refute_alone(guide, start, claim, boards);
    same(rt, &tell(rt, &start.board, alone), &wanted);
    let workers = Workers::new(rt, rt.alloc(), 3, &OpenGate);
    let shared = refute(guide, start, claim, boards, &workers);
    same(rt, &tell(rt, &start.board, shared), &wanted);
}

/// Asserts what searches over the sums of a bundle expand: one for a shorter solution, and that of the second third of the bound.
fn expect_over_sums<R: Threads + Sync + AllocGlobal + Abort>(
    rt: &R,
    bundle: &Bundle<'_>,
    boards: u64,
) {
    let automaton = reversals(rt, bundle.side());
    let guide = Guide::new(bundle, &automaton);
    let start = start_of(rt, bundle, &board_of(rt, &BOARD));
    expect_refuted(rt, &guide, &start, &PartBound::whole(MOVES), boards);
    let part = BoundPart::new(1, 3).expect(rt, "a part");
    let second = PartBound::new(MOVES, part);
    expect_refuted(rt, &guide, &start, &second, COUNT_OF_PART);
}

#[test]
fn searches_over_sums_expand_as_many_boards_as_were_counted(rt: HostRuntime) {
    let files = made(&rt, 4, &MASKS);
    let (text, boards) = COUNTS[0];
    expect_over_sums(&rt, &bundle_of_made(&rt, &files, text), boards);
}

/// The words of the tables of a bundle.
fn all_words<R: Threads + Sync + AllocGlobal + Abort>(
    rt: &R,
    bundle: &Bundle<'_>,
) -> Result<Vec<Words>, AllocError> {
    let mut words = Vec::new(rt.alloc());
    for table in 0..bundle.tables() {
        if let Part::Full(table) = bundle.part(table) {
            words.push(words_of(rt, table).expect(rt, "words"))?;
        }
    }
    Ok(words)
}

/// Asserts what searches over the words of a bundle tell.
fn expect_over_words<R: Threads + Sync + AllocGlobal + Abort>(
    rt: &R,
    bundle: &Bundle<'_>,
    boards: u64,
) -> Result<(), AllocError> {
    let outline = Outline::of(bundle).expect(rt, "an outline");
    let words = all_words(rt, bundle)?;
    let worded = WordBundle::of(&outline, &words).expect(rt, "words of each table");
    let automaton = reversals(rt, bundle.side());
    let guide = Guide::over_words(&worded, &automaton);
    let start = start_of(rt, bundle, &board_of(rt, &BOARD));
    expect_refuted(rt, &guide, &start, &PartBound::whole(MOVES), boards);
    Ok(())
}

// One set, two and more have walks of their own.
#[test]
fn searches_over_edge_words_expand_as_many_boards_as_were_counted(
    rt: HostRuntime,
) -> Result<(), Fail> {
    let files = made(&rt, 4, &MASKS);
    for (text, boards) in COUNTS {
        expect_over_words(&rt, &bundle_of_made(&rt, &files, text), boards)?;
    }
    Ok(())
}

/// One of the two boards of side 3 that are 31 moves from the goal board, the most (Reinefeld 1993).
const FARTHEST: [u8; 9] = [8, 7, 6, 0, 4, 1, 2, 5, 3];

/// Asserts how many moves a shortest solution has that was found.
fn expect_moves<R: Abort>(rt: &R, board: &Board, found: Deepened, wanted: u16) {
    let Deepened::Shortest(letters) = found else {
        panic!(rt; "a solution");
    };
    same(rt, &moves(rt, board, &letters), &wanted);
}

/// Asserts how many moves a shortest solution has, which one thread finds, and workers too.
fn expect_found<R: Threads + Sync + AllocGlobal + Abort>(
    rt: &R,
    guide: &Guide<'_>,
    start: &Start,
    wanted: u16,
)
    requires { IsStart guide.now.bundle start.now }
{
    let alone = shortest_alone(guide, start, PLENTY);
    expect_moves(rt, &start.board, alone, wanted);
    let workers = Workers::new(rt, rt.alloc(), 3, &OpenGate);
    let shared = shortest(guide, start, PLENTY, &workers);
    expect_moves(rt, &start.board, shared, wanted);
}

/// Asserts that a shortest solution of the farthest board is found, threshold by threshold.
fn expect_shortest<R: Threads + Sync + AllocGlobal + Abort>(rt: &R, bundle: &Bundle<'_>) {
    let automaton = reversals(rt, bundle.side());
    let guide = Guide::new(bundle, &automaton);
    let start = start_of(rt, bundle, &board_of(rt, &FARTHEST));
    expect_found(rt, &guide, &start, 31);
}

#[test]
fn a_shortest_solution_of_a_farthest_board_is_found(rt: HostRuntime) {
    let files = made(&rt, 3, &[30, 480]);
    expect_shortest(&rt, &bundle_of_made(&rt, &files, b"set 0 1\nset 0t 1t\n"));
}
