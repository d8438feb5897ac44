//! The numbers under which sets of cells are kept.

use std::alloc::{AllocError, Global};

/// How many cells are the low ones.
const LOW: u32 = 13;

/// How many cells are the high ones. A board has 25 cells at most.
const HIGH: u32 = 12;

/// The places of sets of cells in a list of masks that has all sets of one size, ascending. Each place is the sum of two
/// numbers, by the set's low cells and by the others. No clause says that a number is the right one: a proof rests on one
/// only where the caller compares the set that it keeps under it.
#[derive(Drop)]
pub struct SetNumbers {
    low: Vec<u32>,
    high: Vec<u32>,
}

impl SetNumbers {
    /// The numbers of these sets. No clause speaks of them.
    pub fn of_sets(alloc: Global, sets: &[u32]) -> Result<SetNumbers, AllocError> {
        let mut low_numbers = vec![in alloc; 0; 1 << LOW]?;
        let mut high_numbers = vec![in alloc; 0; 1 << HIGH]?;
        let mut number: u32 = 0;
        for set in sets {
            let low = set % (1 << LOW);
            if let Some(begin) = high_numbers.get_mut((set >> LOW) as usize) {
                // The first set with these high cells has the least of all numbers for its low cells.
                if low & (low + 1) == 0 {
                    *begin = number;
                }
                if let Some(place) = low_numbers.get_mut(low as usize) {
                    *place = number.wrapping_sub(*begin);
                }
            }
            number = number.wrapping_add(1);
        }
        Ok(SetNumbers {
            low: low_numbers,
            high: high_numbers,
        })
    }

    /// The number of a set, if it is one of them. Of another set it is any number, or none. No clause speaks of it.
    #[inline]
    pub fn number_of(&self, set: u32) -> Option<usize> {
        let low = self.low.get((set % (1 << LOW)) as usize)?;
        let high = self.high.get((set >> LOW) as usize)?;
        Some(low.wrapping_add(*high) as usize)
    }
}
