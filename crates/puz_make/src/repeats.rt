//! Which boards a tree comes to again, and how many bytes it saves to cite them.
//!
//! A branch is the first of its board where no branch of the board that ended before refutes as many moves from it. Another one
//! comes again: a citation can stand for it, if the first is a lemma.

use crate::board_table::BoardTable;
use crate::trees::{Refutation, TreeStep, TreeWalk, most_steps};
use log_file::tree_bytes::CITATION_LEN;
use std::alloc::{AllocError, Global};

/// The least bytes of a branch whose board is looked for elsewhere in the tree.
const LEAST_LONG: usize = 64;

/// A tree has at most this many times as many bytes as a branch whose board is looked for, as a power of two.
const MOST_LONG_LOG: u32 = 22;

/// The tree has so many bytes at least for each board that is kept, so that their table is smaller than the tree.
const BYTES_OF_BOARD: usize = 40;

/// A branch that is the first of its board, with numbers of bytes.
#[derive(Clone, Copy)]
pub(crate) struct First {
    /// Those that it has in the tree.
    whole: u32,
    /// Those that it has with a citation for each branch inside it that comes again.
    pub(crate) size: u32,
    /// Those that the tree has less where each branch of its board that comes again is a citation.
    pub(crate) again: u32,
}

impl First {
    /// How many bytes those citations save, about, where it has so many in a log: without them, the branches that come again
    /// would have as great a part of theirs.
    pub(crate) fn saved(&self, size: usize) -> usize {
        let again = self.again as usize;
        let part = again.saturating_mul(size).checked_div(self.whole as usize);
        part.unwrap_or(0)
    }
}

/// What comes again in a tree.
#[derive(Drop)]
pub(crate) struct Repeats {
    /// The first branches of boards, in the order in which a walk comes to them. They are marked.
    pub(crate) firsts: Vec<First>,
    /// How many bytes the tree has, with a citation for each branch that comes again.
    pub(crate) size: usize,
}

/// Marks the long branches of a tree, and then those that are the first of their boards. Answers what comes again.
pub(crate) fn find_repeats(
    alloc: Global,
    refutation: &mut Refutation,
) -> Result<Repeats, AllocError> {
    let long = mark_long(alloc, refutation)?;
    let boards = long.min(refutation.tree.len() / BYTES_OF_BOARD);
    let counter = Counter::new(alloc, refutation.bound, boards)?;
    count_repeats(alloc, refutation, counter)
}

/// Marks the long branches of a tree, but the root. Answers how many there are.
fn mark_long(alloc: Global, refutation: &mut Refutation) -> Result<usize, AllocError> {
    let mut walk = TreeWalk::new(alloc, &refutation.board)?;
    let tree = refutation.tree.as_mut_slice();
    let least = LEAST_LONG.max(tree.len() >> MOST_LONG_LOG);
    let mut count = 0usize;
    for _ in 0..most_steps(tree) {
        match walk.next(tree)? {
            TreeStep::Done => {
                if walk.is_inside() && walk.passed() >= least {
                    walk.mark_long(tree);
                    count = count.saturating_add(1);
                }
                walk.leave();
            }
            TreeStep::End => break,
            _ => {}
        }
    }
    Ok(count)
}

/// Marks the first branches of boards among the long ones, and counts what comes again.
fn count_repeats(
    alloc: Global,
    refutation: &mut Refutation,
    mut counter: Counter,
) -> Result<Repeats, AllocError> {
    let mut walk = TreeWalk::new(alloc, &refutation.board)?;
    let tree = refutation.tree.as_mut_slice();
    for _ in 0..most_steps(tree) {
        match walk.next(tree)? {
            TreeStep::Leaf(_) => counter.add(1),
            TreeStep::Branch | TreeStep::First(_) => counter.open(None)?,
            TreeStep::Long => counter.enter_long(&mut walk, tree)?,
            TreeStep::Done => {
                counter.close(&walk);
                walk.leave();
            }
            TreeStep::End => break,
            TreeStep::Edge | TreeStep::Reverse => {}
        }
    }
    Ok(Repeats {
        firsts: counter.firsts,
        size: counter.size,
    })
}

/// A branch that is counted.
#[derive(Clone, Copy)]
struct Counted {
    /// The number of the first branch of a board that it is, if it is one.
    first: Option<u32>,
    /// How many bytes it has so far, with a citation for each branch inside it that comes again.
    size: usize,
}

/// A count of what comes again.
#[derive(Drop)]
struct Counter {
    /// The number of moves that the tree refutes.
    bound: u8,
    /// The boards of first branches that have ended, with the numbers of these.
    boards: BoardTable,
    firsts: Vec<First>,
    /// The branches that the walk is in.
    open: Vec<Counted>,
    /// How many bytes the branch has that ended last.
    size: usize,
}

impl Counter {
    /// The count of a walk that is in the root, with memory for so many boards.
    fn new(alloc: Global, bound: u8, boards: usize) -> Result<Counter, AllocError> {
        let mut counter = Counter {
            bound,
            boards: BoardTable::new(alloc, boards)?,
            firsts: Vec::with_capacity(alloc, boards)?,
            open: Vec::new(alloc),
            size: 0,
        };
        counter.open(None)?;
        Ok(counter)
    }

    /// Enters a branch.
    fn open(&mut self, first: Option<u32>) -> Result<(), AllocError> {
        self.open.push(Counted { first, size: 1 })?;
        Ok(())
    }

    /// Enters the long branch that the walk is in, or passes it by where it comes again.
    fn enter_long(&mut self, walk: &mut TreeWalk, tree: &mut [u8]) -> Result<(), AllocError> {
        let remaining = walk.remaining(self.bound);
        match self.boards.number_of(walk.tiles.key, remaining) {
            Some(number) => {
                let len = walk.skip(tree)?;
                self.note_again(number, len);
                self.add(CITATION_LEN);
            }
            None => {
                walk.mark_first(tree);
                self.open_first()?;
            }
        }
        Ok(())
    }

    /// Notes that a branch of a board comes again, of so many bytes.
    fn note_again(&mut self, number: u32, len: usize) {
        if let Some(first) = self.firsts.get_mut(number as usize) {
            let saved = short(len.saturating_sub(CITATION_LEN));
            first.again = first.again.saturating_add(saved);
        }
    }

    /// Enters the first branch of a board.
    fn open_first(&mut self) -> Result<(), AllocError> {
        let number = short(self.firsts.len());
        self.firsts.push(First {
            whole: 0,
            size: 0,
            again: 0,
        })?;
        self.open(Some(number))
    }

    /// Leaves the branch that the walk is at the end of.
    fn close(&mut self, walk: &TreeWalk) {
        let Some(counted) = self.open.pop() else {
            return;
        };
        self.size = counted.size;
        if let Some(number) = counted.first {
            self.end_first(number, walk);
        }
        self.add(counted.size);
    }

    /// Ends the first branch of a board, whose size is known.
    fn end_first(&mut self, number: u32, walk: &TreeWalk) {
        if let Some(first) = self.firsts.get_mut(number as usize) {
            first.whole = short(walk.passed());
            first.size = short(self.size);
        }
        let remaining = walk.remaining(self.bound);
        self.boards.put(walk.tiles.key, number, remaining);
    }

    /// Adds bytes to the innermost branch.
    fn add(&mut self, bytes: usize) {
        if let Some(counted) = self.open.last_mut() {
            counted.size = counted.size.saturating_add(bytes);
        }
    }
}

/// A number of bytes, which no tree has more of than fit.
fn short(count: usize) -> u32 {
    u32::try_from(count).unwrap_or(u32::MAX)
}
