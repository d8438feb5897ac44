//! The walk over the bytes of a lemma's tree.

ghost use Rattle.std.specs.Prelude.{◌≡◌, ◌∷◌, ◌<◌, ◌≤◌, IfNone, IfSome, length};
ghost use Rattle.puz_board.specs.Boards.{IsBoardOf};
ghost use Rattle.log_check.specs.PendingBoard.{waiting_of};
ghost use Rattle.log_check.specs.Walks.{AreNeverPending, AreWalked, all_moves, with_child, with_children};

use crate::lemmas::may_have;
use crate::nodes::{TreeNode, first_node};
use crate::order::takes_back;
use log_file::LogView;
use puz_board::Move;
use set_sum::Sums;

/// A board that was reached, and waits for its node. It is moved in place, and moved back.
#[derive(Drop)]
pub(crate) struct PendingBoard<'a> {
    /// The board, of which the sets of the bundle are asked.
    pub(crate) sums: Sums<'a>,
    /// The move by which it was reached. None led to the board of a lemma.
    pub(crate) arriving: Option<Move>,
    /// Its tree is to refute solutions of fewer moves.
    pub(crate) bound: u8,
}

/// The bytes behind the tree that refutes a board of lemma `i`, where they begin with one.
#[cycle(walk)]
pub(crate) fn behind_tree<'b>(
    log: &LogView<'_>,
    i: u32,
    reached: &mut PendingBoard<'_>,
    bytes: &'b [u8],
) -> Option<&'b [u8]>
    requires there { i < length log.now.lemmas }
    requires side { log.now.side ≡ reached.old.sums.bundle.side }
    requires board { IsBoardOf log.now.side reached.old.sums.board }
    ensures some { IfSome result (λ behind.
        AreWalked reached.old.sums.bundle log.now i (λ ws. waiting_of reached.old ∷ ws)
        bytes.now behind.now) }
    ensures none { IfNone result (
        AreNeverPending reached.old.sums.bundle log.now i (λ ws. waiting_of reached.old ∷ ws)
        bytes.now) }
    ensures same { reached.new ≡ reached.old }
{
    let (node, behind) = first_node(bytes, log.version(), reached.sums.sets())?;
    if !may_have(log, i, reached, node) {
        return None;
    }
    if let TreeNode::Branch = node {
        behind_children(log, i, reached, behind)
    } else {
        Some(behind)
    }
}

/// The bytes behind the trees of a branch's children.
#[cycle(walk)]
fn behind_children<'b>(
    log: &LogView<'_>,
    i: u32,
    reached: &mut PendingBoard<'_>,
    bytes: &'b [u8],
) -> Option<&'b [u8]>
    requires there { i < length log.now.lemmas }
    requires side { log.now.side ≡ reached.old.sums.bundle.side }
    requires board { IsBoardOf log.now.side reached.old.sums.board }
    requires bound { 1 ≤ reached.old.bound }
    ensures some { IfSome result (λ behind.
        AreWalked reached.old.sums.bundle log.now i
        (with_children (waiting_of reached.old) all_moves) bytes.now behind.now) }
    ensures none { IfNone result (
        AreNeverPending reached.old.sums.bundle log.now i
        (with_children (waiting_of reached.old) all_moves) bytes.now) }
    ensures same { reached.new ≡ reached.old }
{
    let behind_up = behind_child(log, i, reached, Move::Up, bytes)?;
    let behind_down = behind_child(log, i, reached, Move::Down, behind_up)?;
    let behind_left = behind_child(log, i, reached, Move::Left, behind_down)?;
    behind_child(log, i, reached, Move::Right, behind_left)
}

/// The bytes behind the tree of the child by a move, and all bytes where there is none. The board is moved there and back.
#[cycle(walk)]
fn behind_child<'b>(
    log: &LogView<'_>,
    i: u32,
    reached: &mut PendingBoard<'_>,
    mv: Move,
    bytes: &'b [u8],
) -> Option<&'b [u8]>
    requires there { i < length log.now.lemmas }
    requires side { log.now.side ≡ reached.old.sums.bundle.side }
    requires board { IsBoardOf log.now.side reached.old.sums.board }
    requires bound { 1 ≤ reached.old.bound }
    ensures some { IfSome result (λ behind.
        AreWalked reached.old.sums.bundle log.now i (with_child (waiting_of reached.old) mv)
        bytes.now behind.now) }
    ensures none { IfNone result (
        AreNeverPending reached.old.sums.bundle log.now i (with_child (waiting_of reached.old) mv)
        bytes.now) }
    ensures same { reached.new ≡ reached.old }
{
    if takes_back(reached.arriving, mv) {
        return Some(bytes);
    }
    match reached.sums.step(mv) {
        Some(step) => {
            let arriving = reached.arriving;
            reached.arriving = Some(mv);
            reached.bound -= 1;
            let behind = behind_tree(log, i, reached, bytes);
            reached.bound += 1;
            reached.arriving = arriving;
            reached.sums.take_back(&step);
            behind
        }
        None => Some(bytes),
    }
}
