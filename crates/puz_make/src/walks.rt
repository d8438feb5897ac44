//! Trees that refute solutions of fewer moves than a bound, each written in one walk over the board of the checker.

ghost use Rattle.std.specs.Prelude.{◌≡◌, ◌<◌, IfErr, length};
ghost use Rattle.puz_board.specs.Boards.{side_of};
ghost use Rattle.puz_make.specs.Faults.{IsLogFault};

use crate::leaves::Leaf;
use crate::positions::takes_back;
use log_file::tree_bytes::BRANCH;
use puz_board::{Board, MOVES, Move};
use set_sum::{Bundle, Sums};
use std::alloc::Global;
use tab_make::MakeFault;

/// A board whose tree is to be written.
#[derive(Clone, Copy)]
pub(crate) struct Node {
    pub(crate) board: Board,
    /// The move that led to it, if it isn't the first board.
    pub(crate) arriving: Option<Move>,
    /// What the set says that says the most, or enough.
    pub(crate) leaf: Leaf,
    /// The tree refutes so many moves.
    pub(crate) bound: u8,
}

impl Node {
    /// A board to which a move led, or the first one. One set is asked before the others.
    pub(crate) fn on(
        bundle: &Bundle<'_>,
        board: &Board,
        arriving: Option<Move>,
        first: u8,
        bound: u8,
    ) -> Node
        requires side { side_of board.now ≡ bundle.now.side }
        requires first { first < length bundle.now.sets }
    {
        let mut sums = Sums::new(bundle, board);
        Node {
            board: *board,
            arriving,
            leaf: Leaf::best(&mut sums, first, u16::from(bound)),
            bound,
        }
    }
}

/// The bytes of a tree, as far as it is written.
#[derive(Drop)]
struct Tree {
    bytes: Vec<u8>,
    /// How many there may be.
    most: usize,
}

impl Tree {
    /// Adds a node.
    fn put(&mut self, node: u8) -> Result<(), MakeFault>
        ensures { IfErr result IsLogFault }
    {
        if self.bytes.len() >= self.most {
            return Err(MakeFault::K5);
        }
        match self.bytes.push(node) {
            Ok(()) => Ok(()),
            Err(_) => Err(MakeFault::Memory),
        }
    }
}

/// The tree of a board, if it has at most so many bytes. Where the board has a solution of fewer moves than the bound, what is
/// written is no tree that a checker takes.
pub(crate) fn tree_of(
    alloc: Global,
    bundle: &Bundle<'_>,
    node: &Node,
    most: usize,
) -> Result<Vec<u8>, MakeFault>
    ensures { IfErr result IsLogFault }
{
    if node.board.side() != bundle.side() || node.leaf.set >= bundle.sets() {
        return Err(MakeFault::Wrong);
    }
    let mut tree = Tree {
        bytes: Vec::new(alloc),
        most,
    };
    let mut sums = Sums::new(bundle, &node.board);
    write_below(&mut sums, &mut tree, node.arriving, node.leaf, node.bound)?;
    Ok(tree.bytes)
}
/// Writes the tree of a board that was reached by a move, or of the first board, of which this set says the most.
#[cycle(write)]
fn write_below(
    sums: &mut Sums<'_>,
    tree: &mut Tree,
    arriving: Option<Move>,
    leaf: Leaf,
    bound: u8,
) -> Result<(), MakeFault>
    requires { leaf.set < length sums.old.bundle.sets }
    ensures fault { IfErr result IsLogFault }
    ensures same { sums.new ≡ sums.old }
{
    if leaf.raised >= u16::from(bound) {
        return tree.put(leaf.byte(u16::from(bound)));
    }
    tree.put(BRANCH)?;
    for mv in &MOVES {
        if takes_back(arriving, *mv) {
            continue;
        }
        write_child(sums, tree, *mv, leaf.set, bound - 1)?;
    }
    Ok(())
}

/// Writes the tree of the board to which a move leads, where there is one. The walk goes there and back.
#[cycle(write)]
fn write_child(
    sums: &mut Sums<'_>,
    tree: &mut Tree,
    mv: Move,
    first: u8,
    bound: u8,
) -> Result<(), MakeFault>
    requires { first < length sums.old.bundle.sets }
    ensures fault { IfErr result IsLogFault }
    ensures same { sums.new ≡ sums.old }
{
    let Some(step) = sums.step(mv) else {
        return Ok(());
    };
    let leaf = Leaf::best(sums, first, u16::from(bound));
    let written = write_below(sums, tree, Some(mv), leaf, bound);
    sums.take_back(&step);
    written
}
