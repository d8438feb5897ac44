//! Table files of sides 2 and 5, and headers of sides 3 and 4, worked out by hand, byte for byte.

/// The tiles 1, 2 and 3 on side 2: one slot.
pub const TILES_123: [u8; 44] =
    *b"PDBT\x01\x02\x03\0\0\0\0\x0E\0\0\0\0\0\0\0\x18\xFF\xFF\x02\x01\x03\xFF\x02\x01\xFF\0\xFF\
        \xFF\xFF\xFF\x06\xFF\x05\x04\xFF\x03\x05\x04\xFF\xFF";

/// The tiles 1 and 2 on side 2: two slots.
pub const TILES_12: [u8; 44] =
    *b"PDBT\x01\x02\x02\0\0\0\0\x06\0\0\0\0\0\0\0\x18\xFF\xFE\x01\xFE\xFF\x02\x01\xFE\0\xFF\xFF\
        \xFE\xFF\xFE\xFF\x04\x03\xFE\x02\xFF\x03\xFE\xFF\xFE";

/// The tile 1 on side 2: two slots.
pub const TILE_1: [u8; 28] =
    *b"PDBT\x01\x02\x01\0\0\0\0\x02\0\0\0\0\0\0\0\x08\x01\xFE\0\xFE\x02\xFE\x01\xFE";

/// The tile 3 on side 2: two slots.
pub const TILE_3: [u8; 28] =
    *b"PDBT\x01\x02\x01\0\0\0\0\x08\0\0\0\0\0\0\0\x08\x02\xFE\x01\xFE\x01\xFE\0\xFE";

/// The tile 24 on side 5: two slots.
pub const TILE_24: [u8; 70] =
    *b"PDBT\x01\x05\x01\0\x01\0\0\0\0\0\0\0\0\0\0\x32\x08\xFE\x07\xFE\x06\xFE\x05\xFE\x04\xFE\
        \x07\xFE\x06\xFE\x05\xFE\x04\xFE\x03\xFE\x06\xFE\x05\xFE\x04\xFE\x03\xFE\x02\xFE\x05\xFE\
        \x04\xFE\x03\xFE\x02\xFE\x01\xFE\x04\xFE\x03\xFE\x02\xFE\x01\xFE\0\xFE";

/// The header of the tiles 1, 2 and 3 on side 3, which have 504 placements of four slots: two blocks, and 2,016 entries.
pub const TWO_BLOCKS: [u8; 20] = *b"PDBT\x01\x03\x03\0\0\0\0\x0E\0\0\0\0\0\0\x07\xE0";

/// The header of the tiles 1, 2 and 3 on side 4, which have 3,360 placements of four slots: 14 blocks, and 13,440 entries.
pub const FOURTEEN_BLOCKS: [u8; 20] = *b"PDBT\x01\x04\x03\0\0\0\0\x0E\0\0\0\0\0\0\x34\x80";

/// The header of the tile 1 on side 2, and entries that all say that no walk leads home.
pub const TILE_1_NEVER: [u8; 28] =
    *b"PDBT\x01\x02\x01\0\0\0\0\x02\0\0\0\0\0\0\0\x08\xFF\xFF\xFF\xFF\xFF\xFF\xFF\xFF";

/// A file with another byte at one place; the same file where there is no such place.
pub fn with_byte<const N: usize>(file: &[u8; N], place: usize, byte: u8) -> [u8; N] {
    let mut changed = *file;
    if let Some(here) = changed.get_mut(place) {
        *here = byte;
    }
    changed
}

/// A file with a zero behind it.
pub fn with_one_more(file: &[u8; 44]) -> [u8; 45] {
    let mut longer = [0; 45];
    longer[..44].copy_from_slice(file);
    longer
}
