//! The bytes of the nodes of trees. A tree's bytes are those of its root, and behind a branch those of its children, in the order
//! up, down, left, right.

/// The byte of a branch. Its children follow.
pub const BRANCH: u8 = 0;

/// The byte of a leaf by set 0. That by another set is greater by the set's number.
pub const FIRST_LEAF: u8 = 1;

/// The byte of a leaf by parity by set 0. That by another set is greater by the set's number.
pub const FIRST_PARITY_LEAF: u8 = 65;

/// The version of the logs whose trees may have leaves by parity.
pub const PARITY_VERSION: u8 = 2;

/// The byte of a citation. The number of the lemma follows in four bytes, the highest first.
pub const CITATION: u8 = 32;

/// How many bytes a citation has: its own, and those of the number.
pub const CITATION_LEN: usize = 5;
