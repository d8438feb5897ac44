//! Exact tables of side 3, by a search over all boards that goes on until no cost gets less.

use std::alloc::{AllocError, Global};
use std::collections::{BTreeMap, VecDeque};

/// The numbers in the cells of a board of side 3: 0 for the blank, and `OTHER` for the tiles that aren't told apart.
type Cells = [u8; 9];

/// A tile that isn't told apart.
const OTHER: u8 = 9;

/// The entry of a slot without a region.
const NO_REGION: u8 = 254;

/// The cost of a board from which no walk leads home.
const NEVER: u8 = 255;

/// For each board of side 3, the least number of moves of some tiles after which these are home and the blank is in cell 0.
#[derive(Drop)]
pub struct LeastCosts<'a> {
    tiles: &'a [u8],
    costs: BTreeMap<Cells, u8>,
}

impl<'a> LeastCosts<'a> {
    /// The costs for these tiles, each from 1 to 8, in ascending order.
    pub fn new(alloc: Global, tiles: &'a [u8]) -> Result<LeastCosts<'a>, AllocError> {
        let home = only(&[0, 1, 2, 3, 4, 5, 6, 7, 8], tiles);
        let mut costs = BTreeMap::new(alloc);
        costs.insert(home, 0)?;
        let mut queue = VecDeque::new(alloc);
        queue.push_back(home)?;
        for _ in 0..u64::MAX {
            match queue.pop_front() {
                Some(board) => step(&board, &mut costs, &mut queue)?,
                None => break,
            }
        }
        Ok(LeastCosts { tiles, costs })
    }

    /// The cost of the board with these numbers in its cells, 0 for the blank, and 255 where no walk leads home.
    pub fn of(&self, numbers: &[u8; 9]) -> u8 {
        cost_of(&self.costs, &only(numbers, self.tiles))
    }

    /// The table file of the tiles.
    pub fn table(&self, alloc: Global) -> Result<Vec<u8>, AllocError> {
        let mut placements = vec![in alloc; [OTHER; 9]; 1]?;
        for tile in self.tiles {
            placements = with_tile(alloc, &placements, *tile)?;
        }
        let mut entries = Vec::new(alloc);
        for placement in &placements {
            self.add_entries(placement, &mut entries)?;
        }
        let mut file = header(alloc, self.tiles, entries.len())?;
        file.extend_from_slice(&entries)?;
        Ok(file)
    }

    /// Adds the entries of a placement: the cost for each region of its free cells, by their least cells, and then slots without.
    fn add_entries(&self, placement: &Cells, entries: &mut Vec<u8>) -> Result<(), AllocError> {
        let size = self.tiles.len();
        let slots = size.saturating_add(1).min(9usize.saturating_sub(size));
        let end = entries.len().saturating_add(slots);
        let mut left = *placement;
        for cell in 0..9 {
            if left.get(cell) == Some(&OTHER) {
                entries.push(cost_of(&self.costs, &with(placement, cell, 0)))?;
                left = without_region(&left, cell);
            }
        }
        entries.resize(end, NO_REGION)
    }
}

/// Makes each step from a board. The boards that are reached at a lesser cost than before are put into the queue.
fn step(
    board: &Cells,
    costs: &mut BTreeMap<Cells, u8>,
    queue: &mut VecDeque<Cells>,
) -> Result<(), AllocError> {
    let blank = board.iter().position(|number| *number == 0).unwrap_or(9);
    let numbers = board.iter().enumerate();
    for (cell, moved) in numbers.filter(|(cell, _)| are_beside(*cell, blank)) {
        let after = with(&with(board, blank, *moved), cell, 0);
        let cost = cost_of(costs, board).saturating_add(u8::from(*moved != OTHER));
        if cost < cost_of(costs, &after) {
            costs.insert(after, cost)?;
            queue.push_back(after)?;
        }
    }
    Ok(())
}

/// Whether two cells are beside each other.
fn are_beside(cell: usize, other: usize) -> bool {
    let away = cell.abs_diff(other);
    away == 3 || away == 1 && cell / 3 == other / 3
}

/// The known cost of a board.
fn cost_of(costs: &BTreeMap<Cells, u8>, board: &Cells) -> u8 {
    costs.get(board).copied().unwrap_or(NEVER)
}

/// A board with another number in a cell.
fn with(board: &Cells, cell: usize, number: u8) -> Cells {
    let mut changed = *board;
    if let Some(here) = changed.get_mut(cell) {
        *here = number;
    }
    changed
}

/// The board with these numbers, where these tiles alone are told apart.
fn only(numbers: &[u8; 9], tiles: &[u8]) -> Cells {
    let is_told = |number: &u8| *number == 0 || tiles.contains(number);
    numbers.map(|number| if is_told(&number) { number } else { OTHER })
}

/// The placements with a tile in each of their free cells in turn. Boards without a blank stand for placements.
fn with_tile(alloc: Global, placements: &[Cells], tile: u8) -> Result<Vec<Cells>, AllocError> {
    let mut more = Vec::new(alloc);
    for placement in placements {
        for (cell, number) in placement.iter().enumerate() {
            if *number == OTHER {
                more.push(with(placement, cell, tile))?;
            }
        }
    }
    Ok(more)
}

/// A placement where the region of a free cell is taken too.
fn without_region(placement: &Cells, cell: usize) -> Cells {
    let mut taken = with(placement, cell, 0);
    // A walk in a region has nine cells at most.
    for _ in 0..9 {
        taken = spread(&taken);
    }
    taken
}

/// Takes the free cells beside those that are taken as a region is.
fn spread(taken: &Cells) -> Cells {
    let mut more = *taken;
    for (cell, number) in more.iter_mut().enumerate() {
        let is_met = |(other, its): (usize, &u8)| *its == 0 && are_beside(cell, other);
        if *number == OTHER && taken.iter().enumerate().any(is_met) {
            *number = 0;
        }
    }
    more
}

/// The header of a table file of side 3.
fn header(alloc: Global, tiles: &[u8], count: usize) -> Result<Vec<u8>, AllocError> {
    let bits = tiles.iter().map(|tile| 1u32.wrapping_shl(u32::from(*tile)));
    let mask = bits.fold(0, |mask, bit| mask | bit);
    let mut header = Vec::from_slice(alloc, b"PDBT\x01\x03")?;
    header.extend_from_slice(&[u8::try_from(tiles.len()).unwrap_or(0), 0])?;
    header.extend_from_slice(&mask.to_be_bytes())?;
    header.extend_from_slice(&(count as u64).to_be_bytes())?;
    Ok(header)
}
