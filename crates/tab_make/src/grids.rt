//! The board of a pattern as masks of cells, and how far apart its placements are in a table.

ghost use Rattle.std.specs.Prelude.{◌≡◌, ◌*◌, ◌<◌, ◌≤◌, IfOk};

use crate::entries::MOST_TILES;
use crate::faults::Unmade;
use pat_place::Pattern;
use puz_board::Side;
use puz_board::masks::{all_below, select};

/// What is the same for all placements of a pattern.
#[derive(Clone, Copy)]
pub(crate) struct PatternGrid {
    /// The side of the board.
    pub(crate) side: Side,
    /// How many tiles the pattern has.
    pub(crate) size: u8,
    /// How many slots each placement has.
    pub(crate) width: usize,
    /// How many entries a run has: the placements that differ in the last tile alone.
    pub(crate) run: u16,
    /// All cells.
    pub(crate) all: u32,
    /// By how much the number of an entry grows where a tile goes to the next cell that the tiles before it leave.
    pub(crate) weights: [u32; MOST_TILES],
    ghost few_cells: { side * side ≤ 25 },
    ghost some_tiles: { 0 < size },
    ghost few_tiles: { size ≤ 8 },
    ghost wide: { 0 < width },
    ghost some: { 0 < run },
}

impl PatternGrid {
    /// The grid of a pattern.
    pub(crate) fn new(pattern: &Pattern) -> Result<PatternGrid, Unmade> {
        let side = pattern.side();
        let all = all_below(side.cells());
        let width = pattern.width();
        let run = side.cells() + 1 - pattern.size();
        Ok(PatternGrid {
            side,
            size: pattern.size(),
            width: usize::from(width),
            run: u16::from(run) * u16::from(width),
            all,
            weights: weights(pattern)?,
        })
    }
}

/// The cell of a mask that has so many cells of it before it.
#[inline]
pub(crate) fn cell_at(mask: u32, place: u32) -> Result<u8, Unmade>
    ensures { IfOk result (λ cell. cell < 32) }
{
    if place < mask.count_ones() {
        Ok(select(mask, place as u8))
    } else {
        Err(Unmade::WrongNumber)
    }
}

/// How many entries stand between two placements of which one has a tile in the next cell that is left for it.
fn weights(pattern: &Pattern) -> Result<[u32; MOST_TILES], Unmade> {
    let cells = u32::from(pattern.side().cells());
    let mut weights = [0; MOST_TILES];
    let mut weight = u32::from(pattern.width());
    for index in (0..pattern.size()).rev() {
        weights[usize::from(index)] = weight;
        let left = cells
            .checked_sub(u32::from(index))
            .ok_or(Unmade::WrongNumber)?;
        weight = weight.checked_mul(left).ok_or(Unmade::WrongNumber)?;
    }
    Ok(weights)
}
