//! Searches below a bound.

ghost use Rattle.std.specs.Prelude.{◌≡◌, ◌≤◌, ℕ, None, Some};
ghost use Rattle.puz_walk.specs.Starts.{IsStart};
ghost use Rattle.puz_search.specs.Answers.{IsAnswerTo};
ghost use Rattle.puz_search.specs.Prefixes.{IsPrefixOf};
ghost use Rattle.puz_search.specs.Searches.{SearchFails};
ghost use Rattle.puz_search.specs.declared.answers.SearchAnswer.TheVariants.{Refuted};

use crate::answers::SearchAnswer;
use crate::guides::Guide;
use crate::prefixes::Prefix;
use crate::refuting_alone::refute_first;
use crate::searches::Search;
use crate::sharing::search_with;
use move_strings::BoundPart;
use puz_walk::Start;
use std::thread::Threads;
use work_run::{Gate, Workers};

/// A bound, or a part of one.
#[derive(Clone, Copy, Debug, PartialEq, Eq)]
pub struct PartBound {
    /// Solutions of fewer moves are searched.
    pub bound: u8,
    /// Which of them are: all, where no part is said.
    pub part: Option<BoundPart>,
}

impl PartBound {
    /// The whole bound.
    pub fn whole(bound: u8) -> PartBound
        ensures { result ≡ record { bound = bound; part = None } }
    {
        PartBound { bound, part: None }
    }

    /// This part of the bound.
    pub fn new(bound: u8, part: BoundPart) -> PartBound
        ensures { result ≡ record { bound = bound; part = Some part } }
    {
        PartBound {
            bound,
            part: Some(part),
        }
    }

    /// A lower bound, or the same part of it.
    pub(crate) fn below(&self, bound: u8) -> PartBound
        ensures { result ≡ record { bound = bound; part = self.now.part } }
    {
        PartBound { bound, ..*self }
    }

    /// The bound.
    fn bound(&self) -> u8
        ensures value { result ≡ self.now.bound }
        ensures small { self.now.bound ≤ 255 }
    {
        self.bound
    }

    /// The moves that are searched, none of whose letters has been read.
    fn prefix(&self) -> Prefix
        ensures { IsPrefixOf result self.now.part }
    {
        match self.part {
            Some(part) => Prefix::of_part(part),
            None => Prefix::of_all(),
        }
    }
}

/// Searches for a solution of a board of fewer moves than a bound, depth first, and expands at most `budget` boards: one iteration
/// of IDA* (Korf 1985). Moves that the guide's automaton leaves out aren't tried (Taylor and Korf 1993). A board is expanded where
/// its moves are tried.
///
/// Of a part of the bound those moves alone are tried whose first letters are of the part, and those that are too few to tell it.
/// The boards above the last letter that tells a part are searched for each part, and count for each.
///
/// These workers search at once, and the answer is the same for each number of them. A small search is the caller's alone. A larger
/// one is cut at the boards a few moves away, and the workers search below these. The budget counts the boards of all of them. Where
/// it ends, the workers may have expanded more: each at most the budget that was left when it began to search below its board. The
/// gate is told of each search, and of the boards that are expanded. Memory is taken for the boards a few moves away, for what their
/// searches answer, and for the workers; where it is refused, the caller searches alone.
pub fn refute<R: Threads + Sync, G: Gate + Sync>(
    guide: &Guide<'_>,
    start: &Start,
    claim: &PartBound,
    budget: u64,
    workers: &Workers<'_, R, G>,
) -> SearchAnswer
    requires { IsStart guide.now.bundle start.now }

    // Refuted: no solution of the board has fewer moves, or the least of them isn't of the part; and the search fails with so many
    // boards, within the budget. Solved: these moves solve it, and are fewer. Spent: the search has more boards than the budget.
    ensures answer { let claim = claim.now in
        IsAnswerTo guide.now claim.part start.now.board claim.bound budget result }

    // It is refuted wherever the search fails within the budget.
    ensures within { let claim = claim.now in (boards : ℕ)
        → SearchFails guide.now claim.part claim.bound start.now.board boards
        → boards ≤ budget → result ≡ Refuted boards }
{
    // What is said of searches is said of a guide, and this says that the value is one.
    let _side = guide.side();
    let _bound = claim.bound();
    let search = Search {
        guide,
        start,
        bound: claim.bound,
        prefix: claim.prefix(),
    };
    search_with(&search, budget, workers)
}

/// Searches as `refute` does, by the caller's thread alone, with no memory and no gate: so jobs of workers search.
pub fn refute_alone(
    guide: &Guide<'_>,
    start: &Start,
    claim: &PartBound,
    budget: u64,
) -> SearchAnswer
    requires { IsStart guide.now.bundle start.now }

    // Refuted: no solution of the board has fewer moves, or the least of them isn't of the part; and the search fails with so many
    // boards, within the budget. Solved: these moves solve it, and are fewer. Spent: the search has more boards than the budget.
    ensures answer { let claim = claim.now in
        IsAnswerTo guide.now claim.part start.now.board claim.bound budget result }

    // It is refuted wherever the search fails within the budget.
    ensures within { let claim = claim.now in (boards : ℕ)
        → SearchFails guide.now claim.part claim.bound start.now.board boards
        → boards ≤ budget → result ≡ Refuted boards }
{
    // What is said of searches is said of a guide, and this says that the value is one.
    let _side = guide.side();
    let _bound = claim.bound();
    let search = Search {
        guide,
        start,
        bound: claim.bound,
        prefix: claim.prefix(),
    };
    refute_first(&search, budget)
}
