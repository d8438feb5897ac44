//! Walks over the tree that a search wrote, from its first byte to its last.

use crate::cells::Cell;
use crate::keys::Tiles;
use crate::positions::{Steps, takes_back};
use log_file::tree_bytes::BRANCH;
use puz_board::{Board, MOVES, Move};
use std::alloc::{AllocError, Global};

/// The byte of a branch with a long subtree. No log has it.
const LONG: u8 = 0xFF;

/// The byte of a branch with a long subtree whose board comes here for the first time, or from here on refutes more than
/// before. No log has it.
const FIRST: u8 = 0xFE;

/// A tree that refutes so many moves from a board: no solution has fewer.
#[derive(Drop)]
pub(crate) struct Refutation {
    pub(crate) board: Board,
    /// The number of moves.
    pub(crate) bound: u8,
    pub(crate) tree: Vec<u8>,
}

/// A branch that a walk is in.
#[derive(Clone, Copy)]
pub(crate) struct Branch {
    /// The place of its byte in the tree.
    pub(crate) at: usize,
    /// The cell of the blank.
    pub(crate) blank: Cell,
    /// The move that led to it, if the branch isn't the root.
    pub(crate) arriving: Option<Move>,
    /// The cell that the blank came from.
    came_from: Cell,
    /// How many of its moves the walk has looked at.
    tried: usize,
}

/// What a walk comes to.
#[derive(Clone, Copy)]
pub(crate) enum TreeStep {
    /// A move that leaves the board.
    Edge,
    /// The reverse of the arriving move, which has no node.
    Reverse,
    /// A leaf.
    Leaf(u8),
    /// A branch, which the walk is in from now on.
    Branch,
    /// A branch as above, which is marked as long.
    Long,
    /// A branch as above, which is marked as the first of its board, with its number among these.
    First(usize),
    /// The end of the branch that the walk is in. It stays there until it leaves.
    Done,
    /// The end of the tree.
    End,
}

/// A walk over a tree whose first byte is a branch.
#[derive(Drop)]
pub(crate) struct TreeWalk {
    steps: Steps,
    /// The board of the branch that it is in.
    pub(crate) tiles: Tiles,
    /// The branches that it is in, the root first.
    pub(crate) branches: Vec<Branch>,
    /// The place of the next node.
    pub(crate) at: usize,
    /// How many branches it has passed that are the first of their boards.
    firsts: usize,
}

impl TreeWalk {
    /// A walk that is in the root, which has this board.
    pub(crate) fn new(alloc: Global, board: &Board) -> Result<TreeWalk, AllocError> {
        let tiles = Tiles::new(board);
        let mut branches = Vec::new(alloc);
        branches.push(Branch {
            at: 0,
            blank: tiles.blank,
            arriving: None,
            came_from: tiles.blank,
            tried: 0,
        })?;
        Ok(TreeWalk {
            steps: Steps::on(board.side()),
            tiles,
            branches,
            at: 1,
            firsts: 0,
        })
    }

    /// Goes on by one move.
    #[inline]
    pub(crate) fn next(&mut self, tree: &[u8]) -> Result<TreeStep, AllocError> {
        let Some(branch) = self.branches.last_mut() else {
            return Ok(TreeStep::End);
        };
        if branch.tried >= MOVES.len() {
            return Ok(TreeStep::Done);
        }
        let mv = MOVES[branch.tried];
        branch.tried += 1;
        let Some(to) = self.steps.after(branch.blank, mv) else {
            return Ok(TreeStep::Edge);
        };
        if takes_back(branch.arriving, mv) {
            return Ok(TreeStep::Reverse);
        }
        self.enter(tree, mv, to)
    }

    /// Goes to the node to which a move leads, where the blank is in this cell.
    #[inline]
    fn enter(&mut self, tree: &[u8], mv: Move, to: Cell) -> Result<TreeStep, AllocError> {
        let at = self.at;
        if at >= tree.len() {
            return Ok(TreeStep::End);
        }
        let node = tree[at];
        self.at = at + 1;
        let step = match node {
            BRANCH => TreeStep::Branch,
            LONG => TreeStep::Long,
            FIRST => {
                let number = self.firsts;
                self.firsts = number.saturating_add(1);
                TreeStep::First(number)
            }
            leaf => return Ok(TreeStep::Leaf(leaf)),
        };
        self.branches.push(Branch {
            at,
            blank: to,
            arriving: Some(mv),
            came_from: self.tiles.blank,
            tried: 0,
        })?;
        self.tiles.slide(to);
        Ok(step)
    }

    /// Leaves the branch that it is in.
    #[inline]
    pub(crate) fn leave(&mut self) {
        if let Some(branch) = self.branches.pop() {
            if branch.arriving.is_some() {
                self.tiles.slide(branch.came_from);
            }
        }
    }

    /// Goes on to the end of the branch that it is in, and leaves it. Answers how many bytes the branch has.
    pub(crate) fn skip(&mut self, tree: &[u8]) -> Result<usize, AllocError> {
        let start = self.start();
        let depth = self.branches.len();
        for _ in 0..most_steps(tree) {
            match self.next(tree)? {
                TreeStep::Done => self.leave(),
                TreeStep::End => break,
                _ => {}
            }
            if self.branches.len() < depth {
                break;
            }
        }
        Ok(self.at.saturating_sub(start))
    }

    /// How many moves are to be refuted from the branch that it is in, where they are so many from the root.
    #[inline]
    pub(crate) fn remaining(&self, bound: u8) -> u8 {
        let moved = self.branches.len().saturating_sub(1);
        bound.saturating_sub(u8::try_from(moved).unwrap_or(u8::MAX))
    }

    /// How many bytes it has passed of the branch that it is in.
    #[inline]
    pub(crate) fn passed(&self) -> usize {
        self.at.saturating_sub(self.start())
    }

    /// The place of the byte of the branch that it is in.
    #[inline]
    fn start(&self) -> usize {
        self.branches.last().map_or(0, |branch| branch.at)
    }

    /// Whether it is in a branch that isn't the root.
    #[inline]
    pub(crate) fn is_inside(&self) -> bool {
        self.branches.len() > 1
    }

    /// Marks the branch that it is in as long.
    pub(crate) fn mark_long(&self, tree: &mut [u8]) {
        self.mark(tree, LONG);
    }

    /// Marks the branch that it is in as the first of its board. The walk doesn't number it.
    pub(crate) fn mark_first(&self, tree: &mut [u8]) {
        self.mark(tree, FIRST);
    }

    /// Marks the branch that it is in by this byte.
    fn mark(&self, tree: &mut [u8], mark: u8) {
        if let Some(node) = tree.get_mut(self.start()) {
            *node = mark;
        }
    }
}

/// Takes the marks of branches back.
pub(crate) fn unmark(tree: &mut [u8]) {
    for node in tree.iter_mut() {
        if *node == LONG || *node == FIRST {
            *node = BRANCH;
        }
    }
}

/// How many steps a walk over a tree has at most: for each branch one for each move and one for its end.
pub(crate) fn most_steps(tree: &[u8]) -> usize {
    tree.len().saturating_mul(5).saturating_add(1)
}
