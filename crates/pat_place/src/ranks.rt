//! Ranks: the places of placements among all placements of a pattern, in lexicographic order.

ghost use Rattle.std.specs.Prelude.{◌≡◌, ℕ, ◌+◌, ◌-◌, ◌<◌, ◌≤◌, true, count_ones, length, take, drop, replicate, slice_get, MatchBool};
ghost use Rattle.std.specs.List.{AllByRecursion, range_with_len};
ghost use Rattle.std.specs.Bool.{OnFalse};
ghost use Rattle.puz_board.specs.Masks.{IsMaskOf, numbers_of};
ghost use Rattle.pat_place.specs.Patterns.{has};
ghost use Rattle.pat_place.specs.Placements.{IsApart, IsPlacement, cells_found};
ghost use Rattle.pat_place.specs.Ranks.{IsRank, lists_of, placements};

use crate::patterns::Pattern;
use crate::placements::Placement;
use crate::slots::free_cells;
use puz_board::masks;

/// The rank of a placement: its place among all placements of its pattern.
pub fn rank(placement: &Placement) -> u64
    ensures rank { IsRank placement.now.pattern.side placement.now.cells result }
    ensures only { (r : ℕ) → IsRank placement.now.pattern.side placement.now.cells r → r ≡ result }
    ensures below { result
        < length (placements placement.now.pattern.side (length placement.now.cells)) }
{
    rank_among(placement.as_slice(), placement.pattern().side().cells())
}

/// The place of a list of cells among all of its length, on a board of `count` cells.
#[inline(always)]
pub fn rank_among(cells: &[u8], count: u8) -> u64
    requires small { count ≤ 25 }
    requires few { length cells.now ≤ 8 }
    requires inside { AllByRecursion (λ c. c < count) cells.now }
    requires apart { IsApart cells.now }
    ensures { slice_get (lists_of (length cells.now) (range_with_len 0 count)) result
        ≡ Some cells.now }
{
    let mut free = masks::all_below(count);
    let mut room = u64::from(count);
    let mut rank = 0;
    for cell in cells {
        rank = rank * room + u64::from(masks::count_below(free, *cell));
        free = masks::without(free, *cell);
        room -= 1;
    }
    rank
}

/// Where a placement stands.
#[derive(Clone, Copy)]
pub struct Standing {
    /// Its rank.
    pub rank: u64,
    /// The cells of its tiles as a mask: bit c is set for cell c.
    pub occupied: u32,
}

/// Where the placement stands that has each of the pattern's tiles in the cell that was found for its number.
#[inline]
pub fn standing_of(pattern: &Pattern, found: &[u8; 25]) -> Standing
    requires { let cells = cells_found pattern.now.tiles found.now in
        IsPlacement (record { pattern = pattern.now; cells = cells }) }
    ensures rank { IsRank pattern.now.side (cells_found pattern.now.tiles found.now) result.rank }
    ensures occupied { IsMaskOf result.occupied
        (λ c. has (cells_found pattern.now.tiles found.now) c ≡ true) }
{
    let count = pattern.side().cells();
    let all = masks::all_below(count);
    let mut rest = pattern.mask();
    let mut free = all;
    let mut room = u64::from(count);
    let mut rank = 0;
    while rest != 0 {
        let tile = masks::first_of(rest);
        rest = masks::without(rest, tile);
        let at = found[usize::from(tile)];
        rank = rank * room + u64::from(masks::count_below(free, at));
        free = masks::without(free, at);
        room -= 1;
    }
    Standing {
        rank,
        occupied: all & !free,
    }
}

/// The placement of a rank.
pub fn unrank(pattern: &Pattern, rank: u64) -> Placement
    requires { rank < length (placements pattern.now.side (length pattern.now.tiles)) }
    ensures pattern { result.pattern ≡ pattern.now }
    ensures placement { IsPlacement result }
    ensures rank { IsRank pattern.now.side result.cells rank }
{
    let ranks = pattern.count() as u32;
    let cells = cells_at(rank as u32, ranks, pattern.side().cells(), pattern.size());
    Placement::with_cells(pattern, cells)
}

/// The cells of a rank, of which there are `size`, on a board of `count` cells. Zeros stand behind them.
fn cells_at(rank: u32, ranks: u32, count: u8, size: u8) -> [u8; 8]
    requires small { count ≤ 25 }
    requires few { size ≤ 8 }
    requires room { size ≤ count }
    requires ranks { ranks ≡ length (lists_of size (range_with_len 0 count)) }
    requires below { rank < ranks }
    ensures cells { slice_get (lists_of size (range_with_len 0 count)) rank
        ≡ Some (take size result) }
    ensures zeros { drop size result ≡ replicate (8 - size) 0 }
{
    let mut free = masks::all_below(count);
    let mut block = ranks;
    let mut rest = rank;
    let mut cells = [0; 8];
    for i in 0..size {
        block /= u32::from(count - i);
        let cell = masks::select(free, (rest / block) as u8);
        rest %= block;
        free = masks::without(free, cell);
        cells[i as usize] = cell;
    }
    cells
}

/// Goes to the placement of the next rank. At the last one it answers false, and leaves the placement.
///
/// The last tile that has a greater free cell goes to the next one, once the tiles behind it are lifted. These take the
/// least cells that are left.
pub fn next(placement: &mut Placement) -> bool
    ensures pattern { placement.new.pattern ≡ placement.old.pattern }
    ensures step { (r : ℕ) → IsRank placement.old.pattern.side placement.old.cells r
        → MatchBool result
        (IsRank placement.old.pattern.side placement.new.cells (r + 1))
        (r + 1 ≡ length (placements placement.old.pattern.side (length placement.old.cells))) }
    ensures last { OnFalse result (placement.new ≡ placement.old) }
    ensures placement { IsPlacement placement.new }
{
    let pattern = placement.pattern();
    let size = usize::from(pattern.size());
    let mut cells = placement.padded();
    let mut free = free_cells(placement);
    let mut index = size;
    while index > 0 {
        index -= 1;
        let cell = cells[index];
        let greater = masks::above(free, cell);
        free = masks::with(free, cell);
        if greater != 0 {
            let target = masks::first_of(greater);
            cells[index] = target;
            fill(&mut cells[index + 1..size], masks::without(free, target));
            *placement = Placement::with_cells(&pattern, cells);
            return true;
        }
    }
    false
}

/// Fills the list with the least free cells, in order.
fn fill(cells: &mut [u8], free: u32)
    requires { length cells.old ≤ count_ones free }
    ensures { slice_get (lists_of (length cells.old) (numbers_of free)) 0 ≡ Some cells.new }
{
    let mut rest = free;
    for cell in cells {
        *cell = masks::first_of(rest);
        rest = masks::without(rest, *cell);
    }
}
