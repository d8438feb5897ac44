//! Searches of one thread for a solution.

ghost use Rattle.std.specs.Prelude.{◌≡◌, ℕ, List, None};
ghost use Rattle.puz_walk.specs.Starts.{IsStart};
ghost use Rattle.puz_search.specs.Answers.{IsAnswerInTurn, IsDeepened};
ghost use Rattle.puz_search.specs.Guides.{ShownGuide};
ghost use Rattle.pdb_checker.specs.Searches.{IsFoundFor};
ghost use Rattle.pdb_checker.specs.declared.searches.Question.TheVariants.{Below, Shortest};

use puz_search::{
    Deepened, Guide, Letters, PartBound, SearchAnswer, refute_by_thresholds_alone, shortest_alone,
};
use puz_walk::Start;

/// What is searched for.
#[derive(Clone, Copy)]
pub(crate) enum Question {
    /// A solution of fewer moves than this bound.
    Below(u8),
    /// A shortest solution.
    Shortest,
}

/// What a search comes to.
#[derive(Drop)]
pub(crate) enum Found {
    /// No solution has fewer moves than the bound, and the last search expanded so many boards.
    Refuted(u64),
    /// The letters of a solution that was searched for.
    Solved(Letters),
    /// The budget of boards ended the search.
    Spent,
    /// No solution has fewer than 254 moves.
    Beyond,
}

impl Found {
    /// Whether the budget ended the search.
    pub(crate) fn is_spent(&self) -> bool {
        matches!(self, Found::Spent)
    }

    /// How many boards were expanded, as far as that is told.
    pub(crate) fn boards(&self) -> u64 {
        match self {
            Found::Refuted(boards) => *boards,
            _ => 0,
        }
    }
}

/// Searches, and expands at most so many boards.
pub(crate) fn search(guide: &Guide<'_>, start: &Start, question: Question, budget: u64) -> Found
    requires { IsStart guide.now.bundle start.now }
    ensures { IsFoundFor start.now.board question result }
{
    match question {
        Question::Below(bound) => {
            let bound = PartBound::whole(bound);
            found_below(refute_by_thresholds_alone(guide, start, &bound, budget))
        }
        Question::Shortest => found_shortest(shortest_alone(guide, start, budget)),
    }
}

/// What a search below a bound comes to.
fn found_below(answer: SearchAnswer) -> Found
    ensures { (guide : ShownGuide) (budget : ℕ) (b : List ℕ) (r : ℕ)
        → IsAnswerInTurn guide None b r budget answer
        → IsFoundFor b (Below r) result }
{
    match answer {
        SearchAnswer::Refuted(boards) => Found::Refuted(boards),
        SearchAnswer::Solved(letters) => Found::Solved(letters),
        SearchAnswer::Spent => Found::Spent,
    }
}

/// What a search for a shortest solution comes to.
fn found_shortest(deepened: Deepened) -> Found
    ensures { (guide : ShownGuide) (budget : ℕ) (b : List ℕ)
        → IsDeepened guide b budget deepened → IsFoundFor b Shortest result }
{
    match deepened {
        Deepened::Shortest(letters) => Found::Solved(letters),
        Deepened::Spent(_) => Found::Spent,
        Deepened::Beyond => Found::Beyond,
    }
}
