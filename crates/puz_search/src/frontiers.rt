//! A search that is cut into many: those below the boards a few moves away.

ghost use Rattle.std.specs.Prelude.{◌≡◌, ◌-◌, ◌≤◌, ◌<◌, ℕ, [], IfNone, IfOk, IfSome, List, Some, if◌then◌else◌, length};
ghost use Rattle.std.specs.List.{All};
ghost use Rattle.puz_board.specs.Boards.{moved};
ghost use Rattle.puz_walk.specs.Starts.{AreSumsOn};
ghost use Rattle.puz_walk.specs.Walks.{LeadsNowhere};
ghost use Rattle.puz_search.specs.Frontiers.{Adds, IsFrontier, all_counts, child_counts_of};
ghost use Rattle.puz_search.specs.Nodes.{IsFirst, IsLed, IsWalkTo, node_counts, walk_to};
ghost use Rattle.puz_search.specs.Prefixes.{IsInside, part_of};

use crate::guides::Sets;
use crate::nodes::{Node, Target};
use crate::searches::Search;
use puz_board::Move;
use puz_walk::{SumWalk, Walk, WordWalk};
use set_sum::MOST_SETS;
use std::alloc::{AllocError, Global};

/// So many nodes for each worker are enough jobs.
const NODES_A_WORKER: usize = 512;

/// So many are enough for all.
const MANY_NODES: usize = 4_096;

/// The most moves that lead to a node.
const MOST_LEVELS: u8 = 30;

/// Nodes, and how many boards were expanded on the way to them. A search fails just where those below all of them do.
#[derive(Drop)]
pub(crate) struct Frontier {
    pub(crate) nodes: Vec<Node>,
    pub(crate) expanded: u64,
}

/// The frontier of a search that so many workers share, from the node of its first board. The nodes are expanded level by level,
/// until there are enough of them.
pub(crate) fn frontier_of(
    task: &Search<'_>,
    first: Node,
    workers: u8,
    alloc: Global,
) -> Result<Frontier, AllocError>
    requires first { IsFirst task.now first }
    requires led { IsLed task.now first }
    ensures { IfOk result (IsFrontier task.now) }
{
    let enough = MANY_NODES.min(NODES_A_WORKER * usize::from(workers));
    let mut nodes = Vec::new(alloc);
    nodes.push(first)?;
    let mut expanded = 0;
    for _ in 0..MOST_LEVELS {
        if enough <= nodes.len() {
            return Ok(Frontier { nodes, expanded });
        }
        let next = next_level(task, nodes, alloc)?;
        nodes = next.nodes;
        expanded += next.expanded;
    }
    Ok(Frontier { nodes, expanded })
}

/// The nodes after the moves of these, each of which is expanded where it isn't cut off and isn't the goal board.
fn next_level(task: &Search<'_>, nodes: Vec<Node>, alloc: Global) -> Result<Frontier, AllocError>
    requires led { All (IsLed task.now) nodes.items }
    requires few { length nodes.items < 4096 }
    ensures next { IfOk result (λ next. Adds task.now (all_counts task.now nodes.items)
        next.expanded [] next.nodes.items) }
    ensures few { IfOk result (λ next. next.expanded ≤ length nodes.items) }
{
    let mut next = Vec::new(alloc);
    let mut expanded = 0;
    for node in nodes {
        if expand(task, node, &mut next)? {
            expanded += 1;
        }
    }
    Ok(Frontier {
        nodes: next,
        expanded,
    })
}

/// Adds the nodes after the moves of a node, and answers whether it was expanded.
fn expand(task: &Search<'_>, node: Node, next: &mut Vec<Node>) -> Result<bool, AllocError>
    requires { IsLed task.now node }
    ensures { IfOk result (λ expanded. Adds task.now (node_counts task.now node)
        (if expanded then 1 else 0) next.old.items next.new.items) }
{
    if node.prefix.is_outside() {
        return Ok(false);
    }
    match task.guide.sets() {
        Sets::Sums(bundle) => {
            let walk = SumWalk::new(bundle, &node.board, node.bound);
            expand_by(task, node, walk, next)
        }
        Sets::Words(words) => {
            let walk = WordWalk::new(words, &node.board, &node.sums, node.bound);
            expand_by(task, node, walk, next)
        }
    }
}

/// The same by a walk from the node's board, where there is one. A goal board stays as it is: a search finds it at once.
fn expand_by<W: Walk>(
    task: &Search<'_>,
    node: Node,
    walk: Option<W>,
    next: &mut Vec<Node>,
) -> Result<bool, AllocError>
    requires led { IsLed task.now node }
    requires inside { IsInside (part_of node.prefix) node.prefix.ahead node.prefix.rank }
    requires walk { IsWalkTo W.shown (walk_to task.now node) walk }
    ensures { IfOk result (λ expanded. Adds task.now (node_counts task.now node)
        (if expanded then 1 else 0) next.old.items next.new.items) }
{
    let Some(mut walk) = walk else {
        return Ok(false);
    };
    if walk.is_goal() {
        next.push(node)?;
        return Ok(false);
    }
    add_child(task, &node, &mut walk, Move::Up, next)?;
    add_child(task, &node, &mut walk, Move::Down, next)?;
    add_child(task, &node, &mut walk, Move::Left, next)?;
    add_child(task, &node, &mut walk, Move::Right, next)?;
    Ok(true)
}

/// Adds the node after a move, where the move isn't left out, leads to a board that isn't cut off, and the node isn't outside the
/// part. The walk from the node's board goes there and back.
fn add_child<W: Walk>(
    task: &Search<'_>,
    node: &Node,
    walk: &mut W,
    mv: Move,
    next: &mut Vec<Node>,
) -> Result<(), AllocError>
    requires led { IsLed task.now node.now }
    requires walk { W.shown walk.old ≡ walk_to task.now node.now }
    requires bound { 1 ≤ node.now.bound }
    ensures adds { IfOk result (λ done. Adds task.now (child_counts_of task.now node.now mv)
        0 next.old.items next.new.items) }
    ensures same { walk.new ≡ walk.old }
{
    let Some(state) = task.guide.next(node.state, mv) else {
        return Ok(());
    };
    let Some(sums) = sums_after(walk, mv) else {
        return Ok(());
    };
    let Some(board) = node.board.apply(mv) else {
        return Ok(());
    };
    let child = task.after(node, mv, Target { board, sums, state });
    if !child.prefix.is_outside() {
        next.push(child)?;
    }
    Ok(())
}

/// The sums after a move, where it leads to a board that isn't cut off. The walk goes there and back.
fn sums_after<W: Walk>(walk: &mut W, mv: Move) -> Option<[u8; MOST_SETS]>
    ensures none { IfNone result (LeadsNowhere (W.shown walk.old) mv) }
    ensures some { IfSome result (λ sums. (next : List ℕ)
        → moved (W.shown walk.old).board mv ≡ Some next
        → AreSumsOn (W.shown walk.old).bundle next sums) }
    ensures same { walk.new ≡ walk.old }
{
    let step = walk.enter(mv)?;
    let sums = walk.sums();
    walk.leave(&step);
    Some(sums)
}
