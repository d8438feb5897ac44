//! What sets say of a board, and the leaves of trees.

ghost use Rattle.std.specs.Prelude.{◌≡◌, ◌<◌, length};

use log_file::tree_bytes::{FIRST_LEAF, FIRST_PARITY_LEAF};
use set_sum::Sums;
use tab_rule::Count;

/// What stands for the sum of a set that says that there is no way home: more than ever remains.
const NEVER: u16 = 1 << 15;

/// What a set says of a board.
#[derive(Clone, Copy)]
pub(crate) struct Leaf {
    pub(crate) set: u8,
    /// A number of moves that no solution is below.
    sum: u16,
    /// The least number from the sum on that has the parity of all solutions.
    pub(crate) raised: u16,
}

impl Leaf {
    /// What a set says.
    fn of(sums: &mut Sums<'_>, set: u8) -> Leaf
        requires { set < length sums.old.bundle.sets }
        ensures set { result.set ≡ set }
        ensures same { sums.new ≡ sums.old }
    {
        let parity = u16::from(sums.blank_parity());
        let sum = match sums.sum(set) {
            Count::Finite(sum) => sum,
            Count::Never => NEVER,
        };
        Leaf {
            set,
            sum,
            raised: sum.saturating_add((sum ^ parity) & 1),
        }
    }

    /// What the set says that says the most, where one set is asked first and then the others in their order. Where two say as much
    /// it is the one that was asked before. No more are asked once one says enough.
    pub(crate) fn best(sums: &mut Sums<'_>, first: u8, enough: u16) -> Leaf
        requires { first < length sums.old.bundle.sets }
        ensures set { result.set < length sums.old.bundle.sets }
        ensures same { sums.new ≡ sums.old }
    {
        let mut best = Leaf::of(sums, first);
        for set in 0..sums.sets() {
            if best.raised >= enough {
                return best;
            }
            if set != first {
                let leaf = Leaf::of(sums, set);
                if leaf.raised > best.raised {
                    best = leaf;
                }
            }
        }
        best
    }

    /// Whether it is a leaf by parity, where it cuts off a board from which so many moves are to be refuted.
    fn is_by_parity(&self, bound: u16) -> bool {
        self.sum < bound
    }

    /// The byte of the leaf in a tree, where it cuts off a board from which so many moves are to be refuted.
    pub(crate) fn byte(&self, bound: u16) -> u8 {
        let first = if self.is_by_parity(bound) {
            FIRST_PARITY_LEAF
        } else {
            FIRST_LEAF
        };
        first.saturating_add(self.set)
    }
}
