//! Which branches are cut off a tree so that workers can share its log.

use crate::repeats::First;

/// How many lemmas a tree is cut into where nothing comes again.
const PARTS_OF_TREE: usize = 250;

/// The least of the most bytes of a branch that is cut off.
const LEAST_CUT: usize = 2000;

/// A small branch that is cut off has at most one of so many parts of the most bytes.
const SMALL_PARTS: usize = 8;

/// The node that a cut adds has at most one of so many parts of the branch's bytes.
const PARTS_OF_BRANCH: usize = 10;

/// The same, where the branch is small.
const PARTS_OF_SMALL: usize = 2;

/// One of so many parts of what citations save isn't spent on cuts.
const PARTS_OF_SAVED: usize = 4;

/// Which branches are cut off, and how many bytes that may add to the log.
#[derive(Drop)]
pub(crate) struct Cuts {
    /// The most bytes of a branch that is cut off.
    most_cut: usize,
    /// By how many bytes the log is shorter for the lemmas of boards that come again, once all of these are cited.
    saved: usize,
    /// By how many bytes it is longer for cuts.
    spent: usize,
}

impl Cuts {
    /// Those of a tree that has so many bytes, with a citation for each branch that comes again.
    pub(crate) fn new(size: usize) -> Cuts {
        Cuts {
            most_cut: LEAST_CUT.max(size / PARTS_OF_TREE),
            saved: 0,
            spent: 0,
        }
    }

    /// Whether a branch has more bytes than what is cut off.
    pub(crate) fn is_too_long(&self, first: &First) -> bool {
        first.size as usize > self.most_cut
    }

    /// The most bytes of the node that a cut may add to a branch, if it may be cut off, where a lemma costs so many bytes more.
    pub(crate) fn most_node(&self, first: &First, cost: usize) -> Option<usize> {
        if self.is_too_long(first) {
            return None;
        }
        let size = first.size as usize;
        let parts = if size < self.most_cut / SMALL_PARTS {
            PARTS_OF_SMALL
        } else {
            PARTS_OF_BRANCH
        };
        let most = size / parts;
        let spent = self.spent.saturating_add(added(first, most, cost));
        if spent <= self.saved - self.saved / PARTS_OF_SAVED {
            Some(most)
        } else {
            None
        }
    }

    /// Cuts a branch off, which adds a node of so many bytes.
    pub(crate) fn cut(&mut self, first: &First, node: usize, cost: usize) {
        self.spent = self.spent.saturating_add(added(first, node, cost));
    }

    /// Notes a lemma of a board that comes again, to whose branch a node of so many bytes is added.
    pub(crate) fn save(&mut self, first: &First, node: usize, cost: usize) {
        let saved = (first.again as usize)
            .saturating_sub(node)
            .saturating_sub(cost);
        self.saved = self.saved.saturating_add(saved);
    }
}

/// How many bytes a cut adds to the log, with a node of so many.
fn added(first: &First, node: usize, cost: usize) -> usize {
    node.saturating_add(cost)
        .saturating_sub(first.again as usize)
}
