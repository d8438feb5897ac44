//! What the byte of an entry says.

/// The greatest count that an entry has. A count is its own byte.
pub const GREATEST_COUNT: u8 = 253;

/// The entry of a slot without a region.
pub const NO_REGION: u8 = 254;

/// The entry from which no walk leads home.
pub const NO_WAY_HOME: u8 = 255;
