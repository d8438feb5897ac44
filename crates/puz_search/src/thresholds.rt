//! Searches below lower thresholds before that of a bound.

ghost use Rattle.puz_walk.specs.Starts.{IsStart};
ghost use Rattle.puz_search.specs.Answers.{IsAnswerInTurn};

use crate::answers::SearchAnswer;
use crate::guides::Guide;
use crate::refuting::{PartBound, refute, refute_alone};
use puz_walk::Start;
use std::thread::Threads;
use work_run::{Gate, Workers};

/// How far the last of the lower thresholds is below the bound, at least. A search often has four times as many boards as the one
/// below the threshold before it, so that all of these take less than a tenth of the time.
const LEAP: u8 = 4;

/// Searches as `refute` does, but below lower thresholds first, one after the other (Korf 1985), from the first one up to four below
/// the bound. So a bound that is too great by five and more is refused as soon as a shortest solution is found. The budget is for all
/// of these searches together.
pub fn refute_by_thresholds<R: Threads + Sync, G: Gate + Sync>(
    guide: &Guide<'_>,
    start: &Start,
    claim: &PartBound,
    budget: u64,
    workers: &Workers<'_, R, G>,
) -> SearchAnswer
    requires { IsStart guide.now.bundle start.now }
    ensures { let claim = claim.now in
        IsAnswerInTurn guide.now claim.part start.now.board claim.bound budget result }
{
    let last = claim.bound.saturating_sub(LEAP);
    let mut bound = start.board.blank_parity() + 1;
    let mut left = budget;
    while bound <= last {
        let threshold = claim.below(bound);
        match refute(guide, start, &threshold, left, workers) {
            SearchAnswer::Refuted(boards) => {
                left -= boards;
                bound += 2;
            }
            answer => return answer,
        }
    }
    refute(guide, start, claim, left, workers)
}

/// Searches as `refute_by_thresholds` does, by the caller's thread alone.
pub fn refute_by_thresholds_alone(
    guide: &Guide<'_>,
    start: &Start,
    claim: &PartBound,
    budget: u64,
) -> SearchAnswer
    requires { IsStart guide.now.bundle start.now }
    ensures { let claim = claim.now in
        IsAnswerInTurn guide.now claim.part start.now.board claim.bound budget result }
{
    let last = claim.bound.saturating_sub(LEAP);
    let mut bound = start.board.blank_parity() + 1;
    let mut left = budget;
    while bound <= last {
        let threshold = claim.below(bound);
        match refute_alone(guide, start, &threshold, left) {
            SearchAnswer::Refuted(boards) => {
                left -= boards;
                bound += 2;
            }
            answer => return answer,
        }
    }
    refute_alone(guide, start, claim, left)
}
