//! The check of one lemma.

ghost use Rattle.std.specs.Prelude.{◌≡◌, ◌<◌, ◌↔◌, IsTrue, length};
ghost use Rattle.puz_board.specs.Boards.{IsBoardOf};
ghost use Rattle.set_sum.specs.Bundles.{SaysAtLeast};
ghost use Rattle.set_sum.specs.Raised.{told_of};
ghost use Rattle.tab_rule.specs.declared.tables.Count.TheVariants.{Finite};
ghost use Rattle.log_check.specs.GoodLogs.{IsGood};
ghost use Rattle.log_check.specs.Nodes.{IsNode};
ghost use Rattle.log_check.specs.PendingBoard.{waiting_of};
ghost use Rattle.log_check.specs.Refutations.{Cites};
ghost use Rattle.log_check.specs.Walks.{MayHave};

use crate::nodes::TreeNode;
use crate::walks::{PendingBoard, behind_tree};
use log_file::LogView;
use set_sum::{Bundle, Sums};
use tab_rule::Count;

/// Whether a lemma of a log is good: its bytes spell one tree, which refutes that the lemma's board has a solution of fewer
/// moves than the lemma's bound (Korf 1985).
///
/// It goes once over the bytes of the tree, and is at any time in at most 255 branches, one inside the other.
pub fn check_lemma(log: &LogView<'_>, bundle: &Bundle<'_>, i: u32) -> bool
    requires there { i < length log.now.lemmas }
    requires side { log.now.side ≡ bundle.now.side }
    ensures { IsTrue result ↔ IsGood bundle.now log.now i }
{
    let board = log.board(i);
    let mut root = PendingBoard {
        sums: Sums::new(bundle, &board),
        arriving: None,
        bound: log.bound(i),
    };
    match behind_tree(log, i, &mut root, log.tree(i)) {
        Some(behind) => behind.is_empty(),
        None => false,
    }
}

/// Whether a board may have this node, in lemma `i`.
pub(crate) fn may_have(
    log: &LogView<'_>,
    i: u32,
    reached: &mut PendingBoard<'_>,
    node: TreeNode,
) -> bool
    requires there { i < length log.now.lemmas }
    requires side { log.now.side ≡ reached.old.sums.bundle.side }
    requires board { IsBoardOf log.now.side reached.old.sums.board }
    requires node { IsNode log.now.version (length reached.old.sums.bundle.sets) node }
    ensures may { IsTrue result
        ↔ MayHave reached.old.sums.bundle log.now i (waiting_of reached.old) node }
    ensures same { reached.new ≡ reached.old }
{
    match node {
        TreeNode::Branch => reached.bound >= 1 && !reached.sums.is_goal(),
        TreeNode::Leaf { by_parity, set } => says_at_least(by_parity, set, reached),
        TreeNode::Citation(j) => cites(log, i, j, reached),
    }
}

/// Whether what a set says of a board, taken by parity or not, is never, or at least the board's bound.
fn says_at_least(by_parity: bool, set: u8, reached: &mut PendingBoard<'_>) -> bool
    requires set { set < length reached.old.sums.bundle.sets }
    ensures least { let sums = reached.old.sums in
        IsTrue result ↔ SaysAtLeast sums.bundle by_parity set sums.board reached.old.bound }
    ensures same { reached.new ≡ reached.old }
{
    match reached.sums.sum(set) {
        Count::Finite(sum) => { u32::from(reached.bound) <= told_of(by_parity, &reached.sums, sum) }
        Count::Never => true,
    }
}

/// What a finite sum tells of the solutions of a board: itself; or by parity, where it is raised to that of their numbers of
/// moves.
fn told_of(by_parity: bool, sums: &Sums<'_>, sum: u16) -> u32
    ensures { Finite result ≡ told_of by_parity sums.now.board (Finite sum) }
{
    let sum = u32::from(sum);
    if by_parity && sum % 2 != u32::from(sums.blank_parity()) {
        sum + 1
    } else {
        sum
    }
}

/// Whether lemma `i` may cite lemma `j` for a board.
fn cites(log: &LogView<'_>, i: u32, j: u32, reached: &PendingBoard<'_>) -> bool
    requires there { i < length log.now.lemmas }
    requires side { log.now.side ≡ reached.now.sums.bundle.side }
    ensures { IsTrue result ↔ Cites log.now.lemmas i j reached.now.sums.board reached.now.bound }
{
    j < i && reached.sums.is_board(&log.board(j)) && reached.bound <= log.bound(j)
}
