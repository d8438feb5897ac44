//! The kinds of slots, by which an entry keeps the local rule or breaks it.

/// The kind of a slot for which the placement has no region.
pub const WITHOUT_REGION: u8 = 0;

/// The kind of the slot that has cell 0 in the goal's placement.
pub const GOAL_SLOT: u8 = 1;

/// The kind of any other slot.
pub const OTHER_SLOT: u8 = 2;
