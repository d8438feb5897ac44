//! Boards below which is still to be searched.

ghost use Rattle.std.specs.Prelude.{◌≡◌, ◌+◌, ◌≤◌, IfNone, IfSome, Some};
ghost use Rattle.puz_board.specs.Boards.{moved};
ghost use Rattle.move_strings.specs.Automata.{IsState};
ghost use Rattle.puz_walk.specs.Starts.{AreSumsOn, IsStart};
ghost use Rattle.puz_walk.specs.Walks.{IsClosed};
ghost use Rattle.puz_search.specs.Nodes.{IsFirst, IsLed};
ghost use Rattle.puz_search.specs.Prefixes.{next_ahead, next_rank, part_of};

use crate::answers::{Letters, joined};
use crate::prefixes::Prefix;
use crate::searches::Search;
use arrayvec::ArrayVec;
use puz_board::{Board, Move};
use set_sum::MOST_SETS;

/// A board below which is still to be searched.
#[derive(Drop)]
pub(crate) struct Node {
    pub(crate) board: Board,
    /// The sums of the sets on the board.
    pub(crate) sums: [u8; MOST_SETS],
    /// The state of the automaton after the moves that lead here.
    pub(crate) state: u32,
    /// Solutions of fewer moves are searched.
    pub(crate) bound: u8,
    /// The letters of the moves that lead here from the first board.
    pub(crate) letters: Letters,
    /// How far they have been read.
    pub(crate) prefix: Prefix,
}

/// Where a move leads from a node.
#[derive(Clone, Copy)]
pub(crate) struct Target {
    pub(crate) board: Board,
    /// The sums of the sets on the board.
    pub(crate) sums: [u8; MOST_SETS],
    /// The state of the automaton.
    pub(crate) state: u32,
}

impl Search<'_> {
    /// The node of the first board, unless a set says that no solution has so few moves that it can be searched for.
    pub(crate) fn first(&self) -> Option<Node>
        requires { IsStart self.now.guide.now.bundle self.now.start.now }
        ensures first { IfSome result (IsFirst self.now) }
        ensures led { IfSome result (IsLed self.now) }
        ensures none { IfNone result
            (IsClosed self.now.guide.now.bundle self.now.start.now.board self.now.bound) }
    {
        // Asked only for what its contract says.
        let _side = self.guide.side();
        let sums = self.start.sums?;
        Some(Node {
            board: self.start.board,
            sums,
            state: 0,
            bound: self.bound,
            letters: ArrayVec::new(),
            prefix: self.prefix,
        })
    }

    /// The node to which a move leads from a node.
    pub(crate) fn after(&self, node: &Node, mv: Move, target: Target) -> Node
        requires led { IsLed self.now node.now }
        requires bound { 1 ≤ node.now.bound }
        requires moved { moved node.now.board mv ≡ Some target.board }
        requires sums { AreSumsOn self.now.guide.now.bundle target.board target.sums }
        requires state { IsState self.now.guide.now.steps target.state }
        ensures board { result.board ≡ target.board }
        ensures state { result.state ≡ target.state }
        ensures bound { result.bound + 1 ≡ node.now.bound }
        ensures part { part_of result.prefix ≡ part_of node.now.prefix }
        ensures ahead { result.prefix.ahead ≡ next_ahead node.now.prefix.ahead }
        ensures rank { result.prefix.rank
            ≡ next_rank node.now.prefix.ahead node.now.prefix.rank mv }
        ensures led { IsLed self.now result }
    {
        let Target { board, sums, state } = target;
        Node {
            board,
            sums,
            state,
            bound: node.bound - 1,
            letters: joined(node.letters.as_slice(), &[mv.letter()]),
            prefix: node.prefix.after(mv),
        }
    }
}
