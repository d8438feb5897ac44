//! The nodes of trees, as they stand at the front of bytes.

ghost use Rattle.std.specs.Prelude.{◌≤◌, IfNone, IfSome};
ghost use Rattle.set_sum.specs.Bundles.{most_sets};
ghost use Rattle.log_check.specs.Nodes.{BeginsWith, BeginsWithNone};

use log_file::tree_bytes::{BRANCH, CITATION, FIRST_LEAF, FIRST_PARITY_LEAF, PARITY_VERSION};

/// A node of a tree.
#[derive(Clone, Copy)]
pub(crate) enum TreeNode {
    /// Its children follow.
    Branch,
    /// It takes what the set with this number says of its board, by parity or not.
    Leaf { by_parity: bool, set: u8 },
    /// It names the lemma with this number.
    Citation(u32),
}

/// The node at the front of bytes of a log of this version, where there are so many sets, and the bytes behind it.
pub(crate) fn first_node(bytes: &[u8], version: u8, sets: u8) -> Option<(TreeNode, &[u8])>
    requires { sets ≤ most_sets }
    ensures some { IfSome result (λ r. BeginsWith version sets r.0 r.1.now bytes.now) }
    ensures none { IfNone result (BeginsWithNone version sets bytes.now) }
{
    match bytes {
        [BRANCH, behind @ ..] => Some((TreeNode::Branch, behind)),
        [CITATION, a, b, c, d, behind @ ..] => {
            let lemma = u32::from_be_bytes([*a, *b, *c, *d]);
            Some((TreeNode::Citation(lemma), behind))
        }
        [byte, behind @ ..] if FIRST_LEAF <= *byte && *byte < FIRST_LEAF + sets => {
            let set = *byte - FIRST_LEAF;
            let by_parity = false;
            Some((TreeNode::Leaf { by_parity, set }, behind))
        }
        [byte, behind @ ..]
            if version == PARITY_VERSION
                && FIRST_PARITY_LEAF <= *byte
                && *byte < FIRST_PARITY_LEAF + sets => {
            let set = *byte - FIRST_PARITY_LEAF;
            let by_parity = true;
            Some((TreeNode::Leaf { by_parity, set }, behind))
        }
        _ => None,
    }
}
