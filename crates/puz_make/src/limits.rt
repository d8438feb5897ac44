//! How large what is written may be.

use log_file::{BOUND_AND_LENGTH, HEADER_LEN, MOST_BYTES, MOST_LEMMAS};

/// The most bytes before the tree of a log of one lemma: boards of side 5 have 25 numbers.
const MOST_BEFORE_TREE: usize = HEADER_LEN + 25 + BOUND_AND_LENGTH;

/// How large what is written may be. A test may lower these.
#[derive(Clone, Copy, Debug)]
pub struct Limits {
    /// The most lemmas of a log: from 1 on.
    pub lemmas: u32,
    /// A tree of fewer bytes is one lemma.
    pub one_lemma_below: usize,
    /// The most bytes of the tree of a log.
    pub tree: usize,
}

impl Limits {
    /// Those of log files, and what serves best below them.
    pub const USUAL: Limits = Limits {
        lemmas: MOST_LEMMAS,
        one_lemma_below: 1 << 16,
        tree: MOST_BYTES - MOST_BEFORE_TREE,
    };
}
