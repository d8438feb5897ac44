//! Trees that workers write together: the caller writes the top, and all of them what is below.

ghost use Rattle.std.specs.Prelude.{◌≡◌, IfErr};
ghost use Rattle.puz_board.specs.Boards.{side_of};
ghost use Rattle.puz_make.specs.Faults.{IsLogFault};

use crate::positions::takes_back;
use crate::walks::{Node, tree_of};
use log_file::tree_bytes::BRANCH;
use puz_board::{Board, MOVES};
use set_sum::Bundle;
use std::alloc::{AllocError, Global};
use std::sync::atomic::{AtomicUsize, Ordering};
use std::thread::Threads;
use tab_make::MakeFault;
use work_run::{Gate, Workers};
use work_share::{Task, share};

/// So many boards for each worker are enough jobs.
const NODES_A_WORKER: usize = 128;

/// A part of a tree, behind those before it.
#[derive(Clone, Copy)]
enum Piece {
    /// A node.
    Byte(u8),
    /// The tree of a board, which isn't written yet.
    Open(Node),
}

/// The trees of boards: a job for each.
#[derive(Drop)]
struct Trees<'a> {
    alloc: Global,
    bundle: &'a Bundle<'a>,
    nodes: &'a [Node],
    /// How many bytes all of them may have.
    most: usize,
    /// How many those have that are written.
    written: AtomicUsize,
}

impl Task for Trees<'_> {
    ghost use Rattle.std.specs.Prelude.{⊤, length};

    type Outcome = Result<Vec<u8>, MakeFault>;

    ghost jobs = { λ all. length all.nodes.now };

    ghost gives = { λ all job outcome. ⊤ };

    fn count(&self) -> usize {
        self.nodes.len()
    }

    fn run(&self, job: usize) -> Result<Vec<u8>, MakeFault> {
        let most = self
            .most
            .saturating_sub(self.written.load(Ordering::SeqCst));
        let tree = tree_of(self.alloc, self.bundle, &self.nodes[job], most);
        if let Ok(bytes) = &tree {
            self.written.fetch_add(bytes.len(), Ordering::SeqCst);
        }
        tree
    }
}

/// The tree that refutes so many moves from a board, if it has at most so many bytes, by these workers at once. It is the same for
/// each number of them. Where they can't write it, one thread does.
pub(crate) fn tree_by<H: Threads + Sync, G: Gate + Sync>(
    bundle: &Bundle<'_>,
    board: &Board,
    bound: u8,
    most: usize,
    workers: &Workers<'_, H, G>,
) -> Result<Vec<u8>, MakeFault>
    requires { side_of board.now ≡ bundle.now.side }
    ensures { IfErr result IsLogFault }
{
    // A bundle has a set.
    let _sets = bundle.sets();
    let first = Node::on(bundle, board, None, 0, bound);
    if workers.count > 1 {
        match shared_tree(bundle, &first, most, workers) {
            Ok(tree) => return Ok(tree),
            Err(MakeFault::K5) => return Err(MakeFault::K5),
            Err(_) => {}
        }
    }
    tree_of(workers.alloc, bundle, &first, most)
}

/// The tree of a board, written by all workers.
fn shared_tree<H: Threads + Sync, G: Gate + Sync>(
    bundle: &Bundle<'_>,
    first: &Node,
    most: usize,
    workers: &Workers<'_, H, G>,
) -> Result<Vec<u8>, MakeFault> {
    let alloc = workers.alloc;
    let pieces = top_of(
        alloc,
        bundle,
        first,
        NODES_A_WORKER * usize::from(workers.count),
    )?;
    let nodes = open_nodes(alloc, &pieces)?;
    let trees = Trees {
        alloc,
        bundle,
        nodes: nodes.as_slice(),
        most,
        written: AtomicUsize::new(0),
    };
    let written = share(&trees, workers)?;
    let mut whole = Vec::new(alloc);
    join_trees(&pieces, written, &mut whole)?;
    if whole.len() > most {
        return Err(MakeFault::K5);
    }
    Ok(whole)
}

/// The top of the tree of a board. So many boards are open, or more, where there are as many.
fn top_of(
    alloc: Global,
    bundle: &Bundle<'_>,
    first: &Node,
    enough: usize,
) -> Result<Vec<Piece>, AllocError> {
    let mut pieces = Vec::new(alloc);
    pieces.push(Piece::Open(*first))?;
    for _ in 0..first.bound {
        let open = open_count(&pieces);
        if open == 0 || enough <= open {
            break;
        }
        pieces = next_level(alloc, bundle, &pieces)?;
    }
    Ok(pieces)
}

/// How many boards are open.
fn open_count(pieces: &[Piece]) -> usize {
    let mut count = 0usize;
    for piece in pieces {
        if let Piece::Open(_) = piece {
            count = count.saturating_add(1);
        }
    }
    count
}

/// The boards that are open.
fn open_nodes(alloc: Global, pieces: &[Piece]) -> Result<Vec<Node>, AllocError> {
    let mut nodes = Vec::new(alloc);
    for piece in pieces {
        if let Piece::Open(node) = piece {
            nodes.push(*node)?;
        }
    }
    Ok(nodes)
}

/// The pieces with the node of each open board, and the boards behind it open.
fn next_level(
    alloc: Global,
    bundle: &Bundle<'_>,
    pieces: &[Piece],
) -> Result<Vec<Piece>, AllocError> {
    let mut next = Vec::new(alloc);
    for piece in pieces {
        match piece {
            Piece::Byte(node) => next.push(Piece::Byte(*node))?,
            Piece::Open(node) => add_node(bundle, node, &mut next)?,
        }
    }
    Ok(next)
}

/// Adds the node of a board, and the boards behind it.
fn add_node(bundle: &Bundle<'_>, node: &Node, next: &mut Vec<Piece>) -> Result<(), AllocError> {
    let bound = u16::from(node.bound);
    if node.leaf.raised >= bound {
        next.push(Piece::Byte(node.leaf.byte(bound)))?;
        return Ok(());
    }
    next.push(Piece::Byte(BRANCH))?;
    for mv in &MOVES {
        if takes_back(node.arriving, *mv) {
            continue;
        }
        let Some(board) = node.board.apply(*mv) else {
            continue;
        };
        if board.side() == bundle.side() && node.leaf.set < bundle.sets() {
            let child = Node::on(bundle, &board, Some(*mv), node.leaf.set, node.bound - 1);
            next.push(Piece::Open(child))?;
        }
    }
    Ok(())
}

/// Writes the pieces with the trees of open boards in their places, up to one that failed.
fn join_trees(
    pieces: &[Piece],
    trees: Vec<Result<Vec<u8>, MakeFault>>,
    whole: &mut Vec<u8>,
) -> Result<(), MakeFault> {
    let mut trees = trees.into_iter();
    for piece in pieces {
        match piece {
            Piece::Byte(node) => add(whole, &[*node])?,
            Piece::Open(_) => match trees.next() {
                Some(Ok(tree)) => add(whole, &tree)?,
                Some(Err(fault)) => return Err(fault),
                None => return Err(MakeFault::Wrong),
            },
        }
    }
    Ok(())
}

/// Adds bytes.
fn add(whole: &mut Vec<u8>, bytes: &[u8]) -> Result<(), AllocError> {
    whole.extend_from_slice(bytes)?;
    Ok(())
}
