//! The effects of strings.

use crate::grids::{MIDDLE, Shift, WIDTH};

/// What a string does, told by a sum over the numbers that stand in the cells after it. Two effects may have one sum by chance;
/// a draft that is wrong for it is refused.
#[derive(Clone, Copy)]
pub(crate) struct Effect {
    pub(crate) sum: u64,
    reach: Reach,
}

/// The box of rows and columns that the blank has been in.
#[derive(Clone, Copy)]
struct Reach {
    top: u8,
    bottom: u8,
    left: u8,
    right: u8,
}

impl Effect {
    /// That of the empty string.
    pub(crate) const NONE: Effect = Effect {
        sum: 0,
        reach: Reach {
            top: (MIDDLE / WIDTH) as u8,
            bottom: (MIDDLE / WIDTH) as u8,
            left: (MIDDLE % WIDTH) as u8,
            right: (MIDDLE % WIDTH) as u8,
        },
    };

    /// That of a string with one more move. The blank has the number of its first cell.
    #[inline]
    pub(crate) fn after(&self, slide: Shift) -> Effect {
        let gone = share(MIDDLE, slide.from).wrapping_add(share(slide.tile, slide.to));
        let come = share(MIDDLE, slide.to).wrapping_add(share(slide.tile, slide.from));
        Effect {
            sum: self.sum.wrapping_sub(gone).wrapping_add(come),
            reach: self.reach.with(slide.to),
        }
    }

    /// Whether the effect is that of another string, which stays in the box of this one.
    #[inline]
    pub(crate) fn is_that_of(&self, other: &Effect) -> bool {
        self.sum == other.sum && self.reach.has(&other.reach)
    }
}

impl Reach {
    /// The box with one more cell.
    #[inline]
    fn with(self, cell: u16) -> Reach {
        let row = (cell / WIDTH % WIDTH) as u8;
        let column = (cell % WIDTH) as u8;
        Reach {
            top: self.top.min(row),
            bottom: self.bottom.max(row),
            left: self.left.min(column),
            right: self.right.max(column),
        }
    }

    /// Whether another box is within this one.
    #[inline]
    fn has(&self, other: &Reach) -> bool {
        self.top <= other.top
            && other.bottom <= self.bottom
            && self.left <= other.left
            && other.right <= self.right
    }
}

/// The share that a number in a cell has in a sum: their bits, mixed (Steele, Lea and Flood 2014).
#[inline]
fn share(number: u16, cell: u16) -> u64 {
    let pair = u64::from(number) << 16 | u64::from(cell);
    let mut word = pair.wrapping_add(1).wrapping_mul(0x9E37_79B9_7F4A_7C15);
    word = (word ^ word >> 30).wrapping_mul(0xBF58_476D_1CE4_E5B9);
    word = (word ^ word >> 27).wrapping_mul(0x94D0_49BB_1331_11EB);
    word ^ word >> 31
}
