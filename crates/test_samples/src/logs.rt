//! Log files of side 2, worked out by hand, byte for byte, of version 1 where nothing else is said. Their trees ask set 0.

use std::alloc::{AllocError, Global};

/// The board 3 2 1 0, bound 6: a leaf.
pub const LEAF: [u8; 20] = *b"PDBL\x01\x02\0\0\0\x01\x03\x02\x01\0\x06\0\0\0\x01\x01";

/// The board 3 2 1 0, bound 6: a branch whose children, up and left, end in a leaf after four branches more.
pub const BRANCHES: [u8; 30] =
    *b"PDBL\x01\x02\0\0\0\x01\x03\x02\x01\0\x06\0\0\0\x0B\0\0\0\0\0\x01\0\0\0\0\x01";

/// The board 3 0 1 2, bound 5, and then the board 3 2 1 0, bound 6, whose child up cites the first lemma.
pub const CITATION: [u8; 45] =
    *b"PDBL\x01\x02\0\0\0\x02\x03\0\x01\x02\x05\0\0\0\x06\0\x01\0\0\0\x01\x03\x02\x01\0\x06\0\0\
        \0\x0B\0\x20\0\0\0\0\0\0\0\0\x01";

/// The board 3 2 1 0, bound 6, in version 2: a branch whose children, up and left, end in a leaf by parity after one more.
pub const BY_PARITY: [u8; 24] =
    *b"PDBL\x02\x02\0\0\0\x01\x03\x02\x01\0\x06\0\0\0\x05\0\0\x41\0\x41";

/// The board 0 1 3 2, which has no solution, bound 255: a leaf.
pub const UNSOLVABLE: [u8; 20] = *b"PDBL\x01\x02\0\0\0\x01\0\x01\x03\x02\xFF\0\0\0\x01\x01";

/// The same board and bound: a branch over two chains of 254 branches, with a leaf below each, where nothing remains.
pub fn deepest(alloc: Global) -> Result<Vec<u8>, AllocError> {
    chains(alloc, &[0x00, 0x00, 0x01, 0xFF], 254)
}

/// The same with one branch more in the first chain, where nothing remains.
pub fn too_deep(alloc: Global) -> Result<Vec<u8>, AllocError> {
    chains(alloc, &[0x00, 0x00, 0x02, 0x00], 255)
}

/// The log of a tree of this length, whose first chain has so many branches.
fn chains(alloc: Global, length: &[u8; 4], first: usize) -> Result<Vec<u8>, AllocError> {
    let mut log = b"PDBL\x01\x02\0\0\0\x01\0\x01\x03\x02\xFF".to_vec(alloc)?;
    log.extend_from_slice(length)?;
    log.push(0)?;
    for branches in [first, 254] {
        log.resize(log.len().saturating_add(branches), 0)?;
        log.push(1)?;
    }
    Ok(log)
}
