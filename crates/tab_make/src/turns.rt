//! The orders in which tiles stand on the cells of a set, and how a move changes them.

ghost use Rattle.std.specs.Prelude.{◌<◌, ◌≤◌};

use crate::entries::MOST_TILES;
use crate::faults::Unmade;
use crate::grids::{PatternGrid, cell_at};
use puz_board::masks::{all_below, without};
use std::alloc::Global;

/// How many orders one word of a set of orders tells.
pub(crate) const ORDERS_OF_WORD: usize = 64;

/// How many orders none to eight tiles have.
const ORDERS: [u16; MOST_TILES + 1] = [1, 1, 2, 6, 24, 120, 720, 5040, 40320];

/// How the number of each order changes where a tile passes others: it goes from its place among the tiles to another
/// place, and those between move up.
///
/// The number of an order is made of one digit for each tile: how many of the tiles before it stand on lower cells.
#[derive(Drop)]
pub(crate) struct Turns {
    /// How many orders there are.
    pub(crate) orders: u16,
    /// Where the row of each turn begins.
    starts: [u32; MOST_TILES * MOST_TILES],
    /// The rows. The first is that of a tile that keeps its place, and changes nothing.
    rows: Vec<u16>,
}

/// Where the first row begins.
const KEEPS: u32 = 0;

/// No row: no move passes so many tiles.
const NO_ROW: u32 = u32::MAX;

impl Turns {
    /// The turns of a pattern's tiles. A move passes fewer tiles than a row has cells.
    pub(crate) fn new(alloc: Global, grid: &PatternGrid) -> Result<Turns, Unmade> {
        let swaps = Swaps::new(alloc, grid.size)?;
        let mut turns = Turns {
            orders: ORDERS[usize::from(grid.size)],
            starts: [NO_ROW; MOST_TILES * MOST_TILES],
            rows: Vec::new(alloc),
        };
        turns.push_row(&swaps, 0, 0)?;
        for turn in 0..MOST_TILES * MOST_TILES {
            let (from, to) = ((turn / MOST_TILES) as u8, (turn % MOST_TILES) as u8);
            if from == to {
                turns.starts[turn] = KEEPS;
            } else if from.max(to) < grid.size && from.abs_diff(to) < grid.side.get() {
                turns.starts[turn] = turns.push_row(&swaps, from, to)?;
            }
        }
        Ok(turns)
    }

    /// Where the row begins of a tile that goes from one place among the tiles to another.
    pub(crate) fn turn(&self, from: u8, to: u8) -> Result<u32, Unmade> {
        let (from, to) = (usize::from(from), usize::from(to));
        if from >= MOST_TILES || to >= MOST_TILES {
            return Err(Unmade::WrongNumber);
        }
        match self.starts[from * MOST_TILES + to] {
            NO_ROW => Err(Unmade::WrongNumber),
            start => Ok(start),
        }
    }

    /// Adds to a set of orders those that another set becomes by a turn.
    #[inline]
    pub(crate) fn add_turned(
        &self,
        turn: u32,
        orders: &[u64],
        turned: &mut [u64],
    ) -> Result<(), Unmade> {
        if turn == KEEPS {
            add_all(orders, turned);
            return Ok(());
        }
        add_by_row(self.row(turn)?, orders, turned)
    }

    /// The row that begins at a place.
    #[inline]
    fn row(&self, start: u32) -> Result<&[u16], Unmade> {
        let start = start as usize;
        self.rows
            .get(start..start + usize::from(self.orders))
            .ok_or(Unmade::WrongNumber)
    }

    /// Adds the row for two places, and answers where it begins.
    fn push_row(&mut self, swaps: &Swaps, from: u8, to: u8) -> Result<u32, Unmade> {
        let start = u32::try_from(self.rows.len())
            .ok()
            .ok_or(Unmade::WrongNumber)?;
        for order in 0..self.orders {
            self.rows.push(swaps.turned(order, from, to)?)?;
        }
        Ok(start)
    }
}

/// For each order the orders in which the tile at a place and the one before it are swapped.
#[derive(Drop)]
struct Swaps {
    rows: Vec<[u16; MOST_TILES]>,
}

impl Swaps {
    fn new(alloc: Global, tiles: u8) -> Result<Swaps, Unmade>
        requires { tiles ≤ 8 }
    {
        let mut rows = Vec::new(alloc);
        for order in 0..ORDERS[usize::from(tiles)] {
            rows.push(swaps_of(order, tiles)?)?;
        }
        Ok(Swaps { rows })
    }

    /// The order in which a tile has gone from one place to another, step by step.
    fn turned(&self, order: u16, from: u8, to: u8) -> Result<u16, Unmade> {
        let mut turned = order;
        for step in 0..from.abs_diff(to) {
            let place = if from < to {
                from + step + 1
            } else {
                from - step
            };
            turned = self.swapped(turned, place)?;
        }
        Ok(turned)
    }

    /// The order in which the tile at a place and the one before it are swapped.
    fn swapped(&self, order: u16, place: u8) -> Result<u16, Unmade> {
        let swaps = self
            .rows
            .get(usize::from(order))
            .ok_or(Unmade::WrongNumber)?;
        swaps
            .get(usize::from(place))
            .copied()
            .ok_or(Unmade::WrongNumber)
    }
}

/// The orders in which the tile at a place and the one before it are swapped. The later one of these tiles has then one
/// more or one fewer of the tiles before it on lower cells.
fn swaps_of(order: u16, tiles: u8) -> Result<[u16; MOST_TILES], Unmade>
    requires { tiles ≤ 8 }
{
    let standing = tiles_in(order, tiles)?;
    let mut swaps = [0; MOST_TILES];
    for place in 1..usize::from(tiles) {
        let (low, high) = (standing[place - 1], standing[place]);
        let weight = weight_of(low.max(high), tiles)?;
        let swapped = if low < high {
            order.checked_sub(weight)
        } else {
            order.checked_add(weight)
        };
        swaps[place] = swapped.ok_or(Unmade::WrongNumber)?;
    }
    Ok(swaps)
}

/// By how much the number of an order grows where a tile has one more of those before it on lower cells.
fn weight_of(tile: u8, tiles: u8) -> Result<u16, Unmade>
    requires { tiles ≤ 8 }
{
    let with_it = ORDERS
        .get(usize::from(tile) + 1)
        .ok_or(Unmade::WrongNumber)?;
    ORDERS[usize::from(tiles)]
        .checked_div(*with_it)
        .ok_or(Unmade::WrongNumber)
}

/// Which tiles stand at the places of an order. From the last tile on, each takes one of the places that are left.
fn tiles_in(order: u16, tiles: u8) -> Result<[u8; MOST_TILES], Unmade>
    requires { tiles ≤ 8 }
{
    let mut standing = [0; MOST_TILES];
    let mut free = all_below(tiles);
    let mut rest = u32::from(order);
    for tile in (0..tiles).rev() {
        let choices = u32::from(tile) + 1;
        let place = cell_at(free, rest % choices)?;
        rest /= choices;
        free = without(free, place);
        *standing
            .get_mut(usize::from(place))
            .ok_or(Unmade::WrongNumber)? = tile;
    }
    Ok(standing)
}

/// Adds all orders of a set.
#[inline]
fn add_all(orders: &[u64], turned: &mut [u64]) {
    for (word, more) in turned.iter_mut().zip(orders) {
        *word |= *more;
    }
}

/// Adds the orders that a row has for those of a set.
#[inline]
fn add_by_row(row: &[u16], orders: &[u64], turned: &mut [u64]) -> Result<(), Unmade> {
    for (word, part) in orders.iter().zip(row.chunks(ORDERS_OF_WORD)) {
        add_of_word(part, *word, turned)?;
    }
    Ok(())
}

/// Adds the orders that part of a row has for those of a word.
#[inline]
fn add_of_word(row: &[u16], word: u64, turned: &mut [u64]) -> Result<(), Unmade> {
    let mut rest = word;
    while rest != 0 {
        let order = row.get(take_order(&mut rest)).ok_or(Unmade::WrongNumber)?;
        add(usize::from(*order), turned)?;
    }
    Ok(())
}

/// The least order of a word, which is taken out of it.
#[inline]
pub(crate) fn take_order(word: &mut u64) -> usize
    requires { 0 < word.old }
    ensures { word.new < word.old }
{
    let order = word.trailing_zeros() as usize;
    *word &= *word - 1;
    order
}

/// Adds one order.
#[inline]
pub(crate) fn add(order: usize, orders: &mut [u64]) -> Result<(), Unmade> {
    let word = orders
        .get_mut(order / ORDERS_OF_WORD)
        .ok_or(Unmade::WrongNumber)?;
    *word |= 1 << (order % ORDERS_OF_WORD);
    Ok(())
}
