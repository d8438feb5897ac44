//! The searches below nodes as jobs that workers share.

ghost use Rattle.std.specs.Prelude.{◌≡◌};
ghost use Rattle.std.specs.List.{All};
ghost use Rattle.puz_search.specs.Nodes.{IsLed, IsPartAnswer, IsPlaced, node_counts, solves_first};
ghost use Rattle.puz_search.specs.Frontiers.{AreOutcomesOf, IsOutcome, all_counts};

use crate::answers::SearchAnswer;
use crate::efforts::Effort;
use crate::nodes::Node;
use crate::refuting_alone::refute_node;
use crate::searches::Search;
use std::sync::atomic::{AtomicU64, AtomicUsize, Ordering};
use work_run::Gate;
use work_share::Task;

/// How the search below a node ended.
#[derive(Clone, Copy, Debug, PartialEq, Eq)]
pub(crate) enum JobOutcome {
    /// It failed, and expanded so many boards.
    Refuted(u64),
    /// This budget ended first.
    Spent(u64),
    /// It found a solution, or it didn't begin.
    Open,
}

/// The searches below nodes: a job for each.
#[derive(Drop)]
pub(crate) struct SearchNodes<'a, G> {
    pub(crate) task: &'a Search<'a>,
    pub(crate) nodes: &'a [Node],
    /// How many boards may be expanded in all jobs.
    pub(crate) budget: u64,
    /// How many were expanded in the jobs that have ended.
    pub(crate) expanded: AtomicU64,
    /// The number of a job that found a solution, or of none: mostly the least.
    pub(crate) solved: AtomicUsize,
    pub(crate) gate: &'a G,
    ghost placed: { All (IsPlaced task.now) nodes.now },
}

impl<'a, G: Gate> Task for SearchNodes<'a, G> {
    ghost use Rattle.std.specs.Prelude.{length};
    ghost use Rattle.puz_search.specs.Frontiers.{IsOutcomeOf};

    type Outcome = JobOutcome;

    ghost jobs = { λ all. length all.nodes.now };

    ghost gives = { λ all job outcome. IsOutcomeOf all.task.now all.nodes.now job outcome };

    fn count(&self) -> usize {
        self.nodes.len()
    }

    // What other jobs have expanded and found is a hint: with any other the outcome would be true as well.
    fn run(&self, job: usize) -> JobOutcome {
        let budget = self
            .budget
            .saturating_sub(self.expanded.load(Ordering::SeqCst));
        if budget == 0 || self.solved.load(Ordering::SeqCst) < job {
            return JobOutcome::Open;
        }
        let mut effort = Effort::within(budget);
        let answer = refute_node(self.task, &self.nodes[job], &mut effort);
        let expanded = budget.saturating_sub(effort.left);
        self.expanded.fetch_add(expanded, Ordering::SeqCst);
        self.gate.expanded(expanded);
        match answer {
            SearchAnswer::Refuted(boards) => JobOutcome::Refuted(boards),
            SearchAnswer::Solved(_) => {
                self.solved.store(job, Ordering::SeqCst);
                JobOutcome::Open
            }
            SearchAnswer::Spent => JobOutcome::Spent(budget),
        }
    }
}

/// What the searches below all nodes answer in turn, within a budget.
pub(crate) fn settle(
    task: &Search<'_>,
    nodes: &[Node],
    outcomes: &[JobOutcome],
    budget: u64,
) -> SearchAnswer
    requires led { All (IsLed task.now) nodes.now }
    requires outcomes { AreOutcomesOf task.now nodes.now outcomes.now }
    ensures { IsPartAnswer (all_counts task.now nodes.now)
        (solves_first task.now) budget result }
{
    let mut left = budget;
    for at in 0..nodes.len() {
        match settle_node(task, &nodes[at], outcomes[at], left) {
            SearchAnswer::Refuted(boards) => {
                left -= boards;
            }
            SearchAnswer::Solved(letters) => return SearchAnswer::Solved(letters),
            SearchAnswer::Spent => return SearchAnswer::Spent,
        }
    }
    SearchAnswer::Refuted(budget - left)
}

/// What the search below a node answers within a budget, by the outcome of its job where that tells.
fn settle_node(task: &Search<'_>, node: &Node, outcome: JobOutcome, budget: u64) -> SearchAnswer
    requires led { IsLed task.now node.now }
    requires outcome { IsOutcome task.now node.now outcome }
    ensures { IsPartAnswer (node_counts task.now node.now)
        (solves_first task.now) budget result }
{
    match outcome {
        JobOutcome::Refuted(boards) if boards <= budget => SearchAnswer::Refuted(boards),
        JobOutcome::Refuted(_) => SearchAnswer::Spent,
        JobOutcome::Spent(had) if budget <= had => SearchAnswer::Spent,
        JobOutcome::Spent(_) => refute_node(task, node, &mut Effort::within(budget)),
        JobOutcome::Open => refute_node(task, node, &mut Effort::within(budget)),
    }
}
