//! Searches that workers share.

ghost use Rattle.std.specs.Prelude.{◌≡◌, IfOk};
ghost use Rattle.puz_walk.specs.Starts.{IsStart};
ghost use Rattle.puz_search.specs.Nodes.{IsFirst, IsLed, IsPartAnswer, search_counts, solves_first};

use crate::answers::SearchAnswer;
use crate::efforts::Effort;
use crate::frontiers::frontier_of;
use crate::nodes::Node;
use crate::outcomes::{SearchNodes, settle};
use crate::refuting_alone::{refute_first, refute_node};
use crate::searches::Search;
use std::alloc::AllocError;
use std::sync::atomic::{AtomicU64, AtomicUsize};
use std::thread::Threads;
use work_run::{Gate, Workers};
use work_share::share;

/// A search that expands no more boards is over sooner than it is shared.
const FEW_BOARDS: u64 = 1 << 16;

/// Searches by these workers, or alone where memory for them is refused.
pub(crate) fn search_with<R: Threads + Sync, G: Gate + Sync>(
    task: &Search<'_>,
    budget: u64,
    workers: &Workers<'_, R, G>,
) -> SearchAnswer
    requires { IsStart task.now.guide.now.bundle task.now.start.now }
    ensures { IsPartAnswer (search_counts task.now) (solves_first task.now) budget result }
{
    workers.gate.searches(task.bound);
    match search_by(task, budget, workers) {
        Ok(answer) => answer,
        Err(_) => refute_first(task, budget),
    }
}

/// Searches alone first, and then by all workers where that search is too small.
fn search_by<R: Threads + Sync, G: Gate + Sync>(
    task: &Search<'_>,
    budget: u64,
    workers: &Workers<'_, R, G>,
) -> Result<SearchAnswer, AllocError>
    requires { IsStart task.now.guide.now.bundle task.now.start.now }
    ensures { IfOk result (IsPartAnswer (search_counts task.now)
        (solves_first task.now) budget) }
{
    let Some(first) = task.first() else {
        return Ok(SearchAnswer::Refuted(0));
    };
    let few = budget.min(FEW_BOARDS);
    let mut effort = Effort::within(few);
    let answer = refute_node(task, &first, &mut effort);
    workers.gate.expanded(few.saturating_sub(effort.left));
    match answer {
        SearchAnswer::Refuted(boards) => Ok(SearchAnswer::Refuted(boards)),
        SearchAnswer::Solved(letters) => Ok(SearchAnswer::Solved(letters)),
        SearchAnswer::Spent if budget <= FEW_BOARDS => Ok(SearchAnswer::Spent),
        SearchAnswer::Spent => search_frontier(task, first, budget, workers),
    }
}

/// Searches below the nodes of a frontier, which the workers share, from the node of the first board.
fn search_frontier<R: Threads + Sync, G: Gate + Sync>(
    task: &Search<'_>,
    first: Node,
    budget: u64,
    workers: &Workers<'_, R, G>,
) -> Result<SearchAnswer, AllocError>
    requires first { IsFirst task.now first }
    requires led { IsLed task.now first }
    ensures { IfOk result (IsPartAnswer (search_counts task.now)
        (solves_first task.now) budget) }
{
    let frontier = frontier_of(task, first, workers.count, workers.alloc)?;
    workers.gate.expanded(frontier.expanded);
    let Some(left) = budget.checked_sub(frontier.expanded) else {
        return Ok(SearchAnswer::Spent);
    };
    let nodes = SearchNodes {
        task,
        nodes: frontier.nodes.as_slice(),
        budget: left,
        expanded: AtomicU64::new(0),
        solved: AtomicUsize::new(usize::MAX),
        gate: workers.gate,
    };
    let outcomes = share(&nodes, workers)?;
    match settle(task, frontier.nodes.as_slice(), outcomes.as_slice(), left) {
        SearchAnswer::Refuted(boards) => Ok(SearchAnswer::Refuted(frontier.expanded + boards)),
        SearchAnswer::Solved(letters) => Ok(SearchAnswer::Solved(letters)),
        SearchAnswer::Spent => Ok(SearchAnswer::Spent),
    }
}
