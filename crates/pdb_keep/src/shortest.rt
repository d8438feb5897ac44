//! The search for a shortest solution, threshold by threshold (Korf 1985), until one is found or the budget is spent.

ghost use Rattle.std.specs.Prelude.{◌≡◌, ◌≤◌, ◌^◌, IfErr, IfOk, IfSome};
ghost use Rattle.puz_board.specs.Boards.{side_of};
ghost use Rattle.puz_walk.specs.Starts.{IsStart};
ghost use Rattle.pdb_keep.specs.GivenUp.{IsTooLong, search_guide};
ghost use Rattle.pdb_keep.specs.Steps.{IsGivenUp};

use move_strings::Automaton;
use pdb_verdict::Fault;
use puz_board::Board;
use puz_search::{Guide, Letters, PartBound, SearchAnswer, refute};
use puz_walk::Start;
use set_sum::Bundle;
use std::thread::Threads;
use work_run::{Gate, Workers};

/// Bounds of so many moves and more aren't raised.
const LARGEST_BOUND: u8 = 254;

/// A shortest solution.
#[derive(Drop)]
pub(crate) struct Shortest {
    /// The letters of its moves.
    pub(crate) letters: Letters,
    /// How many moves they are.
    pub(crate) count: u8,
    /// How many boards the search expands below the last threshold that holds no solution.
    pub(crate) boards: u64,
}

/// Searches for a shortest solution of a board by all workers, who expand at most `budget` boards where it finds none. There is
/// nothing where no solution has fewer than 254 moves. The gate is told of each search.
pub(crate) fn find_shortest<H: Threads + Sync, G: Gate + Sync>(
    bundle: &Bundle<'_>,
    board: &Board,
    budget: u64,
    workers: &Workers<'_, H, G>,
) -> Result<Option<Shortest>, Fault>
    requires { side_of board.now ≡ bundle.now.side }
    ensures given_up { IfErr result (IsGivenUp bundle.now board.now budget) }
    ensures too_long { IfOk result (λ found. IfSome found (λ found.
        2 ^ 28 ≤ found.boards → IsTooLong bundle.now board.now)) }
{
    let reversals = Automaton::of_reversals(workers.alloc, bundle.side())?;
    let guide = Guide::new(bundle, &reversals);
    let start = Start::of(bundle, board);
    deepen(&guide, &start, budget, workers)
}

/// Searches below one threshold after the other.
fn deepen<H: Threads + Sync, G: Gate + Sync>(
    guide: &Guide<'_>,
    start: &Start,
    budget: u64,
    workers: &Workers<'_, H, G>,
) -> Result<Option<Shortest>, Fault>
    requires start { IsStart guide.now.bundle start.now }
    requires guide { guide.now ≡ search_guide guide.now.bundle }
    ensures given_up { IfErr result (IsGivenUp guide.now.bundle start.now.board budget) }
    ensures too_long { IfOk result (λ found. IfSome found (λ found.
        2 ^ 28 ≤ found.boards → IsTooLong guide.now.bundle start.now.board)) }
{
    let mut count = start.board.blank_parity();
    let mut left = budget;
    let mut boards = 0;
    while count < LARGEST_BOUND {
        let threshold = PartBound {
            bound: count + 1,
            part: None,
        };
        match refute(guide, start, &threshold, left, workers) {
            SearchAnswer::Refuted(expanded) => {
                left -= expanded;
                boards = expanded;
                count += 2;
            }
            SearchAnswer::Solved(letters) => {
                return Ok(Some(Shortest {
                    letters,
                    count,
                    boards,
                }));
            }
            SearchAnswer::Spent => return Err(Fault::K1(Some(count))),
        }
    }
    Ok(None)
}
