//! One region of cells, by steps of the whole mask.

ghost use Rattle.std.specs.Prelude.{◌≡◌, ◌≢◌, ℕ, ◌-◌, ◌*◌, ◌%◌, ◌^◌, ◌<◌, ◌≤◌, ◌⊎◌, bit_and};
ghost use Rattle.std.specs.Int.{bit_at};
ghost use Rattle.puz_board.specs.Cells.{Adjacent};
ghost use Rattle.puz_board.specs.Masks.{IsMaskOf};
ghost use Rattle.pat_place.specs.Regions.{Reaches};

use puz_board::{Side, masks};

/// The region of a free cell: the free cells that a path of free cells reaches from it.
pub fn region_of(side: Side, free: u32, cell: u8) -> u32
    requires free { bit_at free cell ≡ 1 }
    requires within { free < 2 ^ (side * side) }
    ensures { IsMaskOf result (Reaches side (λ c. bit_at free c ≡ 1) cell) }
{
    region_until(side, free, cell, 0)
}

/// Cells of the region of a free cell: some of the goal's cells among them, or else the whole region.
pub(crate) fn region_until(side: Side, free: u32, cell: u8, goal: u32) -> u32
    requires free { bit_at free cell ≡ 1 }
    requires within { free < 2 ^ (side * side) }
    ensures reached { (x : ℕ) → bit_at result x ≡ 1 → Reaches side (λ c. bit_at free c ≡ 1) cell x }
    ensures whole { bit_and result goal ≡ 0
        → IsMaskOf result (Reaches side (λ c. bit_at free c ≡ 1) cell) }
{
    let n = side.get();
    let right = free & !masks::first_column(side);
    let left = free & !masks::last_column(side);
    let mut region = masks::with(0, cell);
    'grow: loop {
        let more = grown(n, free, right, left, region);
        if more == region || more & goal != 0 {
            return more;
        }
        region = more;
    }
}

/// The mask and the free cells adjacent to its cells. Only free cells outside the first column are entered by a
/// step to the right, and only those outside the last one by a step to the left.
#[inline]
fn grown(n: u8, free: u32, right: u32, left: u32, mask: u32) -> u32
    requires low { 2 ≤ n }
    requires high { n ≤ 5 }
    requires within { free < 2 ^ (n * n) }
    requires right { IsMaskOf right (λ c. (bit_at free c ≡ 1) × (c % n ≢ 0)) }
    requires left { IsMaskOf left (λ c. (bit_at free c ≡ 1) × (c % n ≢ n - 1)) }
    requires inside { (c : ℕ) → bit_at mask c ≡ 1 → bit_at free c ≡ 1 }
    ensures { IsMaskOf result (λ d. (bit_at mask d ≡ 1)
        ⊎ ((bit_at free d ≡ 1) × (c : ℕ) × (bit_at mask c ≡ 1) × Adjacent n c d)) }
{
    let vertical = (mask << n | mask >> n) & free;
    let horizontal = mask << 1 & right | mask >> 1 & left;
    mask | vertical | horizontal
}
