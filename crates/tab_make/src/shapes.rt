//! Shapes: what is left of a placement and a region where nothing is said of which tile is which.

use crate::faults::Unmade;
use crate::sets::all_sets;
use pat_place::{Pattern, Placement, SetNumbers, regions};
use std::alloc::Global;
use std::ops::Range;

/// All shapes of a pattern: the cells of its tiles, and one region of the others. They stand in the order of the sets of
/// cells, and those of one set in the order of their slots.
#[derive(Drop)]
pub(crate) struct Shapes {
    numbers: SetNumbers,
    /// The number of each set's first shape, and at last how many shapes there are.
    firsts: Vec<u32>,
    shapes: Vec<Shape>,
}

/// The cells of the tiles, and those of a region.
#[derive(Clone, Copy)]
pub(crate) struct Shape {
    pub(crate) set: u32,
    pub(crate) region: u32,
}

impl Shapes {
    /// The shapes of a pattern.
    pub(crate) fn new(alloc: Global, pattern: &Pattern) -> Result<Shapes, Unmade> {
        let sets = all_sets(alloc, pattern)?;
        let numbers = numbers_of(alloc, sets.as_slice())?;
        let mut firsts = Vec::new(alloc);
        let mut shapes = Vec::new(alloc);
        for set in &sets {
            firsts.push(number_of_next(&shapes)?)?;
            push_shapes(pattern, *set, &mut shapes)?;
        }
        firsts.push(number_of_next(&shapes)?)?;
        Ok(Shapes {
            numbers,
            firsts,
            shapes,
        })
    }

    /// All shapes.
    pub(crate) fn as_slice(&self) -> &[Shape] {
        self.shapes.as_slice()
    }

    /// The numbers of a set's shapes.
    #[inline]
    pub(crate) fn of_set(&self, set: u32) -> Result<Range<u32>, Unmade> {
        let number = self.numbers.number_of(set).ok_or(Unmade::WrongNumber)?;
        match self.firsts.get(number..) {
            Some([first, end, ..]) => Ok(*first..*end),
            _ => Err(Unmade::WrongNumber),
        }
    }

    /// The number of a set's shape whose region has one of these cells.
    pub(crate) fn with_cells(&self, set: u32, cells: u32) -> Result<u32, Unmade> {
        for number in self.of_set(set)? {
            let shape = self.shapes.get(number as usize).ok_or(Unmade::WrongNumber)?;
            if shape.region & cells != 0 {
                return Ok(number);
            }
        }
        Err(Unmade::WrongNumber)
    }
}

/// The numbers of these sets, which are their places in the list.
fn numbers_of(alloc: Global, sets: &[u32]) -> Result<SetNumbers, Unmade> {
    let numbers = SetNumbers::of_sets(alloc, sets)?;
    for (number, set) in sets.iter().enumerate() {
        if numbers.number_of(*set) != Some(number) {
            return Err(Unmade::WrongNumber);
        }
    }
    Ok(numbers)
}

/// The number that the next shape has.
fn number_of_next(shapes: &Vec<Shape>) -> Result<u32, Unmade> {
    u32::try_from(shapes.len()).ok().ok_or(Unmade::WrongNumber)
}

/// Adds the shapes of a set.
fn push_shapes(pattern: &Pattern, set: u32, shapes: &mut Vec<Shape>) -> Result<(), Unmade> {
    if set >= 1 << pattern.side().cells() || set.count_ones() != u32::from(pattern.size()) {
        return Err(Unmade::WrongNumber);
    }
    for region in regions(&Placement::of_set(pattern, set)).as_slice() {
        shapes.push(Shape {
            set,
            region: *region,
        })?;
    }
    Ok(())
}
