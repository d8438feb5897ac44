//! The moves of tiles between shapes.

ghost use Rattle.std.specs.Prelude.{◌<◌, ◌*◌};

use crate::faults::Unmade;
use crate::grids::PatternGrid;
use crate::shapes::{Shape, Shapes};
use crate::turns::Turns;
use puz_board::masks::{count_below, has_cell, with, without};
use puz_board::{MOVES, step};
use std::alloc::Global;

/// For each shape the moves of tiles that lead to it. Each such move can be taken back, so they also tell to which shapes
/// one leads.
#[derive(Drop)]
pub(crate) struct Steps {
    /// Where the steps of each shape begin, and at last how many steps there are.
    starts: Vec<usize>,
    steps: Vec<ShapeMove>,
    /// How they turn the orders.
    pub(crate) turns: Turns,
}

/// The move of a tile from another shape.
#[derive(Clone, Copy)]
pub(crate) struct ShapeMove {
    /// The number of the shape that it comes from.
    pub(crate) shape: u32,
    /// How it turns the orders.
    pub(crate) turn: u32,
}

impl Steps {
    /// The steps between shapes.
    pub(crate) fn new(alloc: Global, grid: &PatternGrid, shapes: &Shapes) -> Result<Steps, Unmade> {
        let mut steps = Steps {
            starts: Vec::new(alloc),
            steps: Vec::new(alloc),
            turns: Turns::new(alloc, grid)?,
        };
        for shape in shapes.as_slice() {
            steps.starts.push(steps.steps.len())?;
            steps.push_all(grid, shapes, shape)?;
        }
        steps.starts.push(steps.steps.len())?;
        Ok(steps)
    }

    /// The steps to a shape.
    #[inline]
    pub(crate) fn to(&self, shape: u32) -> Result<&[ShapeMove], Unmade> {
        match self.starts.get(shape as usize..) {
            Some([start, end, ..]) => self.steps.get(*start..*end).ok_or(Unmade::WrongNumber),
            _ => Err(Unmade::WrongNumber),
        }
    }

    /// Adds the steps to a shape.
    fn push_all(
        &mut self,
        grid: &PatternGrid,
        shapes: &Shapes,
        shape: &Shape,
    ) -> Result<(), Unmade> {
        for to in 0..grid.side.cells() {
            if has_cell(shape.set, to) {
                self.push_to(grid, shapes, shape, to)?;
            }
        }
        Ok(())
    }

    /// Adds the steps to a shape by a move to one cell.
    fn push_to(
        &mut self,
        grid: &PatternGrid,
        shapes: &Shapes,
        shape: &Shape,
        to: u8,
    ) -> Result<(), Unmade>
        requires { to < grid.now.side * grid.now.side }
    {
        for mv in &MOVES {
            if let Some(from) = step(grid.side, to, *mv) {
                if has_cell(shape.region, from) {
                    self.push(shapes, shape.set, from, to)?;
                }
            }
        }
        Ok(())
    }

    /// Adds the step to a shape by the move of a tile to a cell from one of the shape's region.
    fn push(&mut self, shapes: &Shapes, to_set: u32, from: u8, to: u8) -> Result<(), Unmade>
        requires from { from < 32 }
        requires to { to < 32 }
    {
        let from_set = with(without(to_set, to), from);
        let step = ShapeMove {
            shape: shapes.with_cells(from_set, with(0, to))?,
            turn: self
                .turns
                .turn(count_below(from_set, from), count_below(to_set, to))?,
        };
        self.steps.push(step)?;
        Ok(())
    }
}
