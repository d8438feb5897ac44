//! The boards of side 2 that reach the goal board.

/// They lie on a ring, from the goal board on: each is one move behind the one before, and the first one behind the last.
/// The blank goes right, down, left and up in turn.
pub const RING: [[u8; 4]; 12] = [
    [0, 1, 2, 3],
    [1, 0, 2, 3],
    [1, 3, 2, 0],
    [1, 3, 0, 2],
    [0, 3, 1, 2],
    [3, 0, 1, 2],
    [3, 2, 1, 0],
    [3, 2, 0, 1],
    [0, 2, 3, 1],
    [2, 0, 3, 1],
    [2, 1, 3, 0],
    [2, 1, 0, 3],
];
