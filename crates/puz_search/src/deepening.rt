//! Shortest solutions by iterative deepening (Korf 1985).

ghost use Rattle.puz_walk.specs.Starts.{IsStart};
ghost use Rattle.puz_search.specs.Answers.{IsDeepened};

use crate::answers::{Letters, SearchAnswer};
use crate::guides::Guide;
use crate::refuting::{PartBound, refute, refute_alone};
use puz_walk::Start;
use std::thread::Threads;
use work_run::{Gate, Workers};

/// Bounds of so many moves and more aren't raised.
const LARGEST_BOUND: u8 = 254;

/// How far a board was searched, threshold by threshold.
#[derive(Drop)]
pub enum Deepened {
    /// The moves of a shortest solution.
    Shortest(Letters),
    /// The budget of boards ended. No solution has fewer moves than this bound.
    Spent(u8),
    /// No solution has fewer than 254 moves.
    Beyond,
}

/// Searches for a shortest solution of a board by IDA*, threshold by threshold (Korf 1985), and expands at most `budget` boards
/// in all.
///
/// The first threshold is one more than the parity that all solutions of the board have, and each next one two more: below a
/// threshold `refute` searches.
pub fn shortest<R: Threads + Sync, G: Gate + Sync>(
    guide: &Guide<'_>,
    start: &Start,
    budget: u64,
    workers: &Workers<'_, R, G>,
) -> Deepened
    requires { IsStart guide.now.bundle start.now }
    ensures { IsDeepened guide.now start.now.board budget result }
{
    let mut bound = start.board.blank_parity();
    let mut left = budget;
    while bound < LARGEST_BOUND {
        let threshold = PartBound::whole(bound + 1);
        match refute(guide, start, &threshold, left, workers) {
            SearchAnswer::Refuted(boards) => {
                left -= boards;
                bound += 2;
            }
            SearchAnswer::Solved(letters) => return Deepened::Shortest(letters),
            SearchAnswer::Spent => return Deepened::Spent(bound),
        }
    }
    Deepened::Beyond
}

/// Searches as `shortest` does, by the caller's thread alone: below a threshold `refute_alone` searches.
pub fn shortest_alone(guide: &Guide<'_>, start: &Start, budget: u64) -> Deepened
    requires { IsStart guide.now.bundle start.now }
    ensures { IsDeepened guide.now start.now.board budget result }
{
    let mut bound = start.board.blank_parity();
    let mut left = budget;
    while bound < LARGEST_BOUND {
        let threshold = PartBound::whole(bound + 1);
        match refute_alone(guide, start, &threshold, left) {
            SearchAnswer::Refuted(boards) => {
                left -= boards;
                bound += 2;
            }
            SearchAnswer::Solved(letters) => return Deepened::Shortest(letters),
            SearchAnswer::Spent => return Deepened::Spent(bound),
        }
    }
    Deepened::Beyond
}
