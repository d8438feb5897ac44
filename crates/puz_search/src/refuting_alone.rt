//! Searches of one thread.

ghost use Rattle.std.specs.Prelude.{◌≡◌, []};
ghost use Rattle.puz_walk.specs.Starts.{IsStart};
ghost use Rattle.puz_search.specs.Nodes.{IsPartAnswer, IsPlaced, IsWalkTo, node_counts, search_counts, solves_below, solves_first, walk_to};

use crate::answers::{SearchAnswer, joined};
use crate::efforts::{Effort, Stop};
use crate::guides::Sets;
use crate::nodes::Node;
use crate::part_walks::search_part;
use crate::searches::Search;
use crate::walks::Reached;
use puz_walk::{SetWalk, SumWalk, Walk, WordBundle, WordWalk};

/// Searches below the first node. At any time at most 255 boards are expanded, one inside the other.
pub(crate) fn refute_first(task: &Search<'_>, budget: u64) -> SearchAnswer
    requires { IsStart task.now.guide.now.bundle task.now.start.now }
    ensures { IsPartAnswer (search_counts task.now)
        (solves_first task.now) budget result }
{
    match task.first() {
        Some(first) => refute_node(task, &first, &mut Effort::within(budget)),
        None => SearchAnswer::Refuted(0),
    }
}

/// Searches below a node with what is left of an effort. The letters of a solution are those from the first board on.
pub(crate) fn refute_node(task: &Search<'_>, node: &Node, effort: &mut Effort) -> SearchAnswer
    requires placed { IsPlaced task.now node.now }
    requires none { effort.old.letters.items ≡ [] }
    ensures { IsPartAnswer (node_counts task.now node.now)
        (solves_below node.now) effort.old.left result }
{
    match task.guide.sets() {
        Sets::Sums(bundle) => {
            let walk = SumWalk::new(bundle, &node.board, node.bound);
            refute_by_walk(task, node, walk, effort)
        }
        Sets::Words(words) => refute_over_words(task, node, words, effort),
    }
}

/// The same over words. One set, as two, has code of its own, where the compiler knows the number.
fn refute_over_words(
    task: &Search<'_>,
    node: &Node,
    words: &WordBundle<'_>,
    effort: &mut Effort,
) -> SearchAnswer
    requires words { words.now ≡ task.now.guide.now.bundle }
    requires placed { IsPlaced task.now node.now }
    requires none { effort.old.letters.items ≡ [] }
    ensures { IsPartAnswer (node_counts task.now node.now)
        (solves_below node.now) effort.old.left result }
{
    let (board, sums, bound) = (&node.board, &node.sums, node.bound);
    match words.sets() {
        1 => {
            let walk = SetWalk::<1>::new(words, board, sums, bound);
            refute_by_walk(task, node, walk, effort)
        }
        2 => {
            let walk = SetWalk::<2>::new(words, board, sums, bound);
            refute_by_walk(task, node, walk, effort)
        }
        _ => {
            let walk = WordWalk::new(words, board, sums, bound);
            refute_by_walk(task, node, walk, effort)
        }
    }
}

/// Searches below a node by a walk from its board, where there is one.
fn refute_by_walk<W: Walk>(
    task: &Search<'_>,
    node: &Node,
    walk: Option<W>,
    effort: &mut Effort,
) -> SearchAnswer
    requires placed { IsPlaced task.now node.now }
    requires walk { IsWalkTo W.shown (walk_to task.now node.now) walk }
    requires none { effort.old.letters.items ≡ [] }
    ensures { IsPartAnswer (node_counts task.now node.now)
        (solves_below node.now) effort.old.left result }
{
    let budget = effort.left;
    let Some(walk) = walk else {
        return SearchAnswer::Refuted(0);
    };
    let mut reached = Reached {
        walk,
        automaton: task.guide.automaton(),
        state: node.state,
    };
    match search_part(&mut reached, &node.prefix, effort) {
        Ok(()) => SearchAnswer::Refuted(budget - effort.left),
        Err(Stop::Solved) => {
            effort.letters.reverse();
            SearchAnswer::Solved(joined(node.letters.as_slice(), effort.letters.as_slice()))
        }
        Err(Stop::Spent) => SearchAnswer::Spent,
    }
}
